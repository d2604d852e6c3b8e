//! How far a range is.

/// How far the last range of a pass is, by its number: none is active, one is, or it was decided with this base as the last one of its run.
#[derive(Clone, Copy)]
pub enum RangeState {
    Idle(u64),
    Active(u64),
    Decided(u64, u32),
}
