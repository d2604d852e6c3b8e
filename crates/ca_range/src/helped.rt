//! What became of a range that a pass was to help.
use ca_base::Exchange;
use ca_model::{Counter, Spent};

/// What became of a range that a pass was to help to its end.
#[derive(Clone, Copy)]
pub enum Helped {
    /// It is over, or one that was in its way is; or an attempt to join was carried out that was in its way.
    Finished,
    /// This exchange was lost to another pass: the range is to be looked for again.
    Lost(Exchange),
    /// The budget was spent.
    Busy(Spent),
    /// No row was free.
    NoRow,
    /// The pool's tag can rise no more.
    Worn(Counter),
}
