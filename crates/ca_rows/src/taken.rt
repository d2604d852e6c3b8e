//! What came of taking a row.

/// What came of taking a row.
#[derive(Clone, Copy, Debug, PartialEq, Eq)]
pub enum Taken {
    /// The pass holds this row, by its number from 1 on.
    Row(u32),
    /// No row was free.
    Empty,
    /// The exchange was lost to another pass.
    Lost,
    /// The head's tag can rise no more.
    Worn,
}
