//! Where the objects stand that a match specification can give a result.

use ca_term::Term;

/// Where the objects stand that a match specification can give a result.
#[derive(Drop)]
pub enum Plan {
    /// No object with another key has a result.
    Key(Term),
    /// Objects with any key may have one.
    All,
}
