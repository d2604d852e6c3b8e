//! Why attempts of calls that read ranges come to nothing.
use ca_model::Counter;

/// Why an attempt of a call that reads a range came to nothing.
#[derive(Clone, Copy)]
pub(crate) enum Miss {
    /// An exchange was lost to another pass, or another pass's range was in the way and was helped. It may be tried again.
    Again,
    /// The budget was spent.
    Busy,
    /// No row was free.
    NoRow,
    /// A counter can rise no more.
    Worn(Counter),
}
