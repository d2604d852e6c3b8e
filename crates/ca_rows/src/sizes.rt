//! How large a space is, and with which numbers its counters begin.

/// With which numbers the counters of a space begin: 0 in a program, more in tests of their last values.
#[derive(Clone, Copy, Debug, PartialEq, Eq)]
pub struct Starts {
    /// Of the pool's head, up to `LAST_TAG`.
    pub tag: u64,
    /// Up to `LAST_EPOCH`.
    pub epoch: u64,
    /// Of each pass's ranges, up to `LAST_SEQUENCE`.
    pub sequence: u64,
    /// Of each new route's joins, up to 2^62 - 1.
    pub attempt: u64,
}

/// What a space is made with. It never changes.
#[derive(Clone, Copy)]
pub struct Sizes {
    /// From 384 to 2^24 - 1.
    pub rows: u32,
    /// How many passes may be made, from 1 to 64.
    pub passes: u32,
    /// Which element of an object is its key, counted from 1.
    pub keypos: u32,
    /// How many items a leaf has at most, from 2 to 120.
    pub leaf: u8,
    /// At which level no base is split any more, up to 4,096.
    pub levels: u16,
    pub starts: Starts,
}
