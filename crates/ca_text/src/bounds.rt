//! The bound of the texts of terms that is not one of terms.

/// The most levels of a text that is read: an element or a head stands one level below its tuple or list, and a tail on the
/// level of its list. It is this project's own.
pub const MOST_LEVELS: u8 = 64;
