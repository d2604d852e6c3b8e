//! A pass's own range.
use ca_node::Cursor;

/// A range of a pass's own: its number, and the row that says up to where it goes.
#[derive(Clone, Copy)]
pub struct Own {
    pub number: u64,
    /// The row.
    pub border: u32,
}

/// How far the bases of a range are gathered: the last one that is marked, and how many objects were counted in those before.
#[derive(Clone, Copy)]
pub struct Gathered {
    pub own: Own,
    /// The last base that is marked: the next one is to hang on its right.
    pub left: Cursor,
    /// How many objects were counted in the bases before it.
    pub counted: u32,
}
