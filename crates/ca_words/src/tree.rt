//! What the options of a command line say of the tree that a call plays on.

/// What the options say of the tree, where they say it: how many rows it has, its greatest level, how many objects a base has at most, above which statistic a
/// base is split and below the negative of which it is joined, what an update takes from a statistic (`calm`) and adds to it (`heat`), and whether it is
/// printed how many bases were split and joined (`shape`).
#[derive(Clone, Copy, Debug, PartialEq, Eq)]
pub struct TreeOptions {
    pub rows: Option<u32>,
    pub levels: Option<u32>,
    pub leaf: Option<u32>,
    pub high: Option<u32>,
    pub low: Option<u32>,
    pub calm: Option<u32>,
    pub heat: Option<u32>,
    pub shape: bool,
}
