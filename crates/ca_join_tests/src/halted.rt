//! What a test holds of a range that stopped between two of its steps, and of a base that such a range has. It stands here for the crate's definitions, which are
//! read without the tests, too.
use ca_range::{Account, Gathered, MarkedBase};

/// A range that stopped behind its first mark: how far it is, and what its pass spent and met.
#[derive(Clone, Copy)]
pub(crate) struct Halted {
    pub(crate) gathered: Gathered,
    pub(crate) account: Account,
}

/// A base that a range of another pass has, and what was spent and met as it was found.
#[derive(Clone, Copy)]
pub(crate) struct Met {
    pub(crate) from: MarkedBase,
    pub(crate) account: Account,
}
