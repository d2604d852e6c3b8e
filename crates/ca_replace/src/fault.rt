//! Why a tree or a pass wasn't made.

/// Why a tree or a pass wasn't made.
#[derive(Clone, Copy, Debug, PartialEq, Eq)]
pub enum TreeFault {
    /// The rows, the passes or a start are out of their bounds.
    BadSize,
    /// The sizes are within their bounds, and the tuning isn't allowed.
    BadTuning,
    /// As many passes were made as the tree is for.
    NoPass,
    /// Memory for the words of the tree, or for the list of the rows that a pass keeps, lacked.
    NoMemory,
}
