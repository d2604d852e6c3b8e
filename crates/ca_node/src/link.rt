//! Links: the words that name a child.

/// A word that names a base or a route.
#[derive(Clone, Copy)]
pub enum Link {
    /// The root word.
    Root,
    /// The left link of this route.
    Left(u32),
    /// The right one.
    Right(u32),
}
