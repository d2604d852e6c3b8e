//! What came of giving kept rows back.

/// What came of giving kept rows back.
#[derive(Clone, Copy, Debug, PartialEq, Eq)]
pub struct Reclaimed {
    /// How many rows the call gave back.
    pub freed: u32,
    /// How many rows the pass keeps still.
    pub kept: u32,
    /// The number of a pass whose announcement was older than the epoch that the call had loaded.
    pub lag: Option<u32>,
    /// Whether one of the call's exchanges lost.
    pub lost: bool,
    /// How many of them did.
    pub losses: u32,
    /// The epoch that the call loaded last, or the one that it moved to since.
    pub epoch: u64,
}

/// What came of one round of it.
#[derive(Clone, Copy)]
pub struct Round {
    pub freed: u32,
    pub lag: Option<u32>,
    pub losses: u32,
    pub epoch: u64,
    /// Whether the next round may give back more.
    pub more: bool,
}
