//! What a pass counts of its own doings.

/// How many splits and how many joins the pass carried out. Each stays at 2^64 - 1 once it is there.
#[derive(Clone, Copy)]
pub struct Tally {
    pub splits: u64,
    pub joins: u64,
}
