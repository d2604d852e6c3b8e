//! What a seat of the table knows. It exists in proofs alone: no value of these types is made.
use crate::sizes::Sizes;
use std::collections::LinkedList;

/// How far a seat is with the pool's head.
pub enum Stage {
    Idle,
    /// It saw this tag and this row at the head.
    Saw(u64, u64),
    /// It saw them, and then this next row in the row's first word.
    Knew(u64, u64, u64),
}

/// Why a row is a seat's.
pub enum Claim {
    /// Taken from the pool, or to be put back. It has these words.
    Holds(LinkedList<u64>),
    /// Lent to an operation, which anybody may end.
    Lends,
    /// Unlinked by this seat.
    Unlinked,
    /// Kept since this epoch, until nobody can have a note on it.
    Keeps(u64),
}

/// A row that is a seat's, and why.
pub struct Claimed {
    pub row: u64,
    pub claim: Claim,
}

/// What a seat met of the pool: exchanges of its head and of the epoch that were lost, how often it found the head empty as it was to take a row,
/// and how often with its tag at the last value; and how many of its looks at the others found a pass that lags.
pub struct Met {
    pub lost: u64,
    pub empty: u64,
    pub worn: u64,
    pub lags: u64,
}

/// What a seat announces, and what it saw of others' announcements.
pub struct Pin {
    /// The number of its pass, or 0.
    pub number: u64,
    pub pinned: bool,
    /// How often it announced an epoch.
    pub pins: u64,
    /// The epoch that it announces.
    pub told: u64,
    /// The epoch as it announced.
    pub moment: u64,
    /// What it had met of the pool as it announced, and as it took the announcement back last.
    pub entered: Met,
    pub left: Met,
    /// The rows that were its as it announced first since its last look at the others, and how many looks it had begun then.
    pub begun: LinkedList<Claimed>,
    pub begun_at: u64,
    /// The epoch as its last look at the others began, or to which it moved it then.
    pub scan: u64,
    /// How many passes it looked at since.
    pub upto: u64,
    /// A pass that it found behind by its last look, or 0.
    pub lag: u64,
    /// How many looks at the others it began, and how many of them found a pass that lags.
    pub looks: u64,
    pub lags: u64,
    /// How often it moved the epoch, which it does only behind a look at all others.
    pub moved: u64,
}

/// What a seat knows of the space, of the rows that are its, and of the structure above.
pub struct View<U> {
    /// What the space was made with; no rows, where the seat doesn't know.
    pub sizes: Sizes,
    /// How many passes were made, where this is the space's own seat.
    pub made: u64,
    pub stage: Stage,
    /// Each row that is this seat's, once.
    pub claims: LinkedList<Claimed>,
    pub pin: Pin,
    /// Exchanges of the pool's head and of the epoch that were lost.
    pub lost: u64,
    /// Kept rows that were given back.
    pub back: u64,
    /// How often it found the pool's head empty as it was to take a row, and kept no row that it might hold again.
    pub empty: u64,
    /// How often it found, as it was to take a row, a free one at the head, but the head's tag at its last value.
    pub worn: u64,
    /// The most rows that it held at once, or had unlinked and not kept yet: counted as it took one, held a kept one again, or exchanged a link.
    pub most: u64,
    /// What the rule above the rows knows.
    pub upper: U,
}
