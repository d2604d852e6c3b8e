//! Room for a code, and the order of terms.
ghost use Rattle.std.specs.Prelude.{◌≡◌};
ghost use Rattle.ca_term.specs.Order.{term_cmp};

use arrayvec::ArrayVec;
use ca_term::{MOST_CODE_BYTES, Term, term_order};
use std::cmp::Ordering;

/// Room for a code of up to `MOST_CODE_BYTES` bytes.
pub type Code = ArrayVec<u8, MOST_CODE_BYTES>;

/// The code has over `MOST_CODE_BYTES` bytes.
#[derive(Clone, Copy, Debug, PartialEq, Eq)]
pub struct TooLong {}

/// How a term stands to another one in the term order of the Erlang reference manual ("Term Comparisons"). Their codes stand
/// to each other in the same way.
pub fn compare(a: &Term, b: &Term) -> Ordering
    ensures { result ≡ term_cmp a.now b.now }
{
    term_order(a, b)
}
