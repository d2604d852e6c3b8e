//! What a pass that reads a run of bases keeps of it.
use ca_range::Run;

/// Of how many bases a window has the rows.
pub(crate) const WIDTH: u32 = 64;

/// The rows of the bases that were walked last, of a run that is walked from its last base on: that of the base which is `k` from the last one stands at `k % 64`.
#[derive(Clone, Copy)]
pub struct Window {
    pub rows: [u32; 64],
    /// How many bases were walked.
    pub walked: u32,
}

/// A run of bases whose objects are read from left to right: what is left of it. Its bases lead from the last one to the left, so rows that were walked are
/// kept, and where they don't suffice the run is walked anew.
#[derive(Clone, Copy)]
pub struct OpenRun {
    pub bases: Run,
    /// The base that is read, how many are on its right, and the place of the next object in it.
    pub base: u32,
    pub at: u32,
    pub next: u32,
    /// How many objects are left.
    pub left: u64,
    pub window: Window,
}

impl OpenRun {
    /// Room for a run, before one is opened.
    pub(crate) fn none() -> OpenRun {
        OpenRun {
            bases: Run {
                last: 0,
                chained: false,
                whole: false,
            },
            base: 0,
            at: 0,
            next: 0,
            left: 0,
            window: Window {
                rows: [0; 64],
                walked: 0,
            },
        }
    }
}
