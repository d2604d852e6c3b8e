//! The bounds of terms, and of the codes of what stands in a table. Each is this project's own.

/// The most code points of an atom, as in Erlang.
pub const MOST_CODE_POINTS: usize = 255;

/// The most elements of a tuple.
pub const MOST_ELEMENTS: usize = 120;

/// The most levels of a term: an element or a head stands one deeper than its tuple or list, and a tail as deep as its list.
pub const MOST_DEPTH: u8 = 192;

/// The most bytes of the code of an object or a key of a table.
pub const MOST_CODE_BYTES: usize = 1000;
