//! What an update of a base is told.

use crate::updating::Putting;
use ca_node::Cursor;

/// A base that an update replaces: the one that was shown last.
#[derive(Clone, Copy)]
pub struct Target {
    /// Where it hangs.
    pub cursor: Cursor,
    /// How many objects it has.
    pub many: u32,
    /// The word for the statistic of the base that takes its place.
    pub statistic: u64,
}

/// An object, and where its key stands in it.
#[derive(Clone, Copy)]
pub struct Keyed<'a> {
    pub object: &'a [u8],
    pub key_at: usize,
    pub key_end: usize,
}

/// An object that is put into a base, by which call, and its key's place among those of the base.
#[derive(Clone, Copy)]
pub struct Insertion<'a> {
    pub keyed: Keyed<'a>,
    pub why: Putting,
    pub place: Result<u32, u32>,
}

/// A place in a base of which the object is taken out, and that object's key.
#[derive(Clone, Copy)]
pub struct Removal<'a> {
    pub at: u32,
    pub key: &'a [u8],
}
