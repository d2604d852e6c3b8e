//! Why a space or a pass wasn't made.

/// Why a space or a pass wasn't made.
#[derive(Clone, Copy, Debug, PartialEq, Eq)]
pub enum RowsFault {
    /// The rows, the passes or a start are out of their bounds.
    BadSize,
    /// As many passes were made as the space is for.
    NoPass,
    /// Memory for the words of the space, or for the list of the rows that a pass keeps, lacked.
    NoMemory,
}
