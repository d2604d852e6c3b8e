//! What calls of a store come to.
use arrayvec::ArrayVec;
use ca_term::MOST_CODE_BYTES;

/// Room for a code of up to `MOST_CODE_BYTES` bytes.
pub type Code = ArrayVec<u8, MOST_CODE_BYTES>;

/// How many turns a call spent before it gave up.
#[derive(Clone, Copy, Debug, PartialEq, Eq)]
pub struct Spent {
    /// Exchanges of a shared word that were lost to others.
    pub lost: u32,
    /// Operations of others that were helped to their end.
    pub helped: u32,
    /// Other places that were passed on the way.
    pub passed: u32,
}

/// Why no room was left in a shared store.
#[derive(Clone, Copy, Debug, PartialEq, Eq)]
pub struct FullCause {
    /// How many rows this pass keeps until no other one can be reading them.
    pub kept: u32,
    /// A pass that may still be reading them, counted from 1.
    pub lag: Option<u32>,
}

/// A counter of a shared store that can rise no more.
#[derive(Clone, Copy, Debug, PartialEq, Eq)]
pub enum Counter {
    PoolTag,
    Epoch,
    Sequence,
}

/// Why a call was refused: one of the four refusals of `Outcome`, with what it tells.
#[derive(Clone, Copy, Debug, PartialEq, Eq)]
pub enum Cause {
    Busy(Spent),
    Full(FullCause),
    Deep(u16),
    Worn(Counter),
}

/// What a call of a store comes to: its answer, or one of four refusals. A refused call made no edit.
#[derive(Clone, Copy, Debug, PartialEq, Eq)]
pub enum Outcome<T> {
    Done(T),
    /// The budget was spent.
    Busy(Spent),
    /// No room for another row.
    Full(FullCause),
    /// No room for another key, at this level, and no level is left to make some.
    Deep(u16),
    /// A counter has reached its last value.
    Worn(Counter),
}

/// What a call came to that hands the key's object to a function: no object has the key, the function answered false, or it
/// answered true and the call did its work.
#[derive(Clone, Copy, Debug, PartialEq, Eq)]
pub enum Changed {
    Absent,
    Kept,
    Put,
}
