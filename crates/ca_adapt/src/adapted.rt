//! What became of a base that was to be adapted.

/// What became of a base that was to be split or joined.
#[derive(Clone, Copy, Debug, PartialEq, Eq)]
pub enum Adapted {
    /// Nothing was tried: nothing was due, or another base had taken its place.
    Stay,
    /// It was split.
    Split,
    /// It was joined with its neighbour.
    Joined,
    /// It was not split.
    NotSplit(Why),
    /// It was not joined.
    NotJoined(Why),
}

/// Why a base was not split, or not joined.
#[derive(Clone, Copy, Debug, PartialEq, Eq)]
pub enum Why {
    /// It hangs on the root link, and so has no neighbour.
    Root,
    /// It has fewer than two objects.
    OneObject,
    /// It stands at the last level.
    AtLevel,
    /// Its neighbour is a route.
    SiblingRoute,
    /// Both bases together have more objects than a base may have.
    TooMany,
    /// It is in use by a range or a join that isn't over.
    Taken,
    /// An exchange was lost to another pass.
    Lost,
    /// No row was free.
    NoRow,
    /// The pool's tag can rise no more.
    Worn,
}
