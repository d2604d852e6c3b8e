//! The ends of a part of the keys.

/// One end of a part of the keys in their order. As a lower edge: no bound, keys from this one on, and keys greater than this one. As an
/// upper edge: no bound, keys up to this one, and keys less than this one.
#[derive(Clone, Copy, Debug)]
pub enum Edge<'a> {
    Open,
    At(&'a [u8]),
    Past(&'a [u8]),
}
