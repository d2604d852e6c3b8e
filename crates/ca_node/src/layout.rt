//! Where the words of a tree stand, and what the first word of a row tells.
use ca_rows::{ROW_LIMIT, ROW_WORDS};

/// The word of the root link.
pub const ROOT: u32 = 130;

/// The first word of the base in row 1, which is there at the start.
pub const FIRST_BASE: u32 = ROW_WORDS as u32;

/// The sequence of a pass's last range stands in that word above this bit: below it are two bits for how far it is and a row's number.
pub const SEQUENCE: u64 = 4 * ROW_LIMIT;

/// What a row is stands in its first word above this bit.
pub const FORM: u64 = 1 << 56;

/// An object row.
pub const OBJECT: u64 = 1 << 56;

/// A base row.
pub const BASE: u64 = 2 << 56;

/// A route.
pub const ROUTE: u64 = 3 << 56;

/// A row that says up to where a range goes.
pub const BORDER: u64 = 4 << 56;

/// A count stands in the first word of a row below this: that of a base's items, or that of the bytes of an object, of a route's key, or of the key of a row
/// that says up to where a range goes. In units of this stands the level of a base or of a route, or where an object's key begins, also below this; or, of a
/// row that says up to where a range goes, which end that is.
pub const COUNT_LIMIT: u64 = 1 << 16;

/// The end of a range: it goes to no end.
pub const TO_NO_END: u64 = 0;

/// It goes up to its key.
pub const TO_KEY: u64 = 1;

/// It goes up to right below its key.
pub const BELOW_KEY: u64 = 2;

/// The mark of a base by a range, which stands in its third word, where one without a mark has 0.
pub const MARKED_BY_RANGE: u64 = 1;

/// The mark of a base by a join.
pub const MARKED_BY_JOIN: u64 = 2;

/// The form of an object row, that of a base row, and that of a row which says up to where a range goes, as numbers: so it is noted of a row that is kept
/// what it was.
pub const OBJECT_FORM: u32 = (OBJECT / FORM) as u32;

pub const BASE_FORM: u32 = (BASE / FORM) as u32;

pub const BORDER_FORM: u32 = (BORDER / FORM) as u32;

/// The first word of an object's bytes.
pub const CODE: u32 = 1;

/// The word of a route that says how far its join is.
pub const JOIN: u32 = 3;

/// The first word of the bytes of a route's key.
pub const KEY: u32 = 4;

/// The first word of the bytes of a base's prefix.
pub const PREFIX: u32 = 7;

/// The prefix's length stands in a base's first word above this bit.
pub const PREFIX_LENGTH: u64 = 1 << 32;

/// The first word of a base's items.
pub const ITEMS: u32 = 11;
