//! Parts of heads that fit an equal term alone.
ghost use Rattle.std.specs.Prelude.{◌≡◌};
ghost use Rattle.ca_term.specs.Tree.{row_of};
ghost use Rattle.ca_plan.specs.Plan.{is_fixed, is_fixed_row};

use ca_match::variable_number;
use ca_term::{Kind, Term};

// Whether a part of a head holds no variable and no '_'. It goes along the tail in a loop: a list may be longer than the stack is deep.
#[cycle(fixed)]
pub(crate) fn is_fixed(part: &Term) -> bool
    ensures { result ≡ is_fixed part.now }
{
    let mut rest = part;
    while let Kind::Cons(head, tail) = rest.kind() {
        if !is_fixed(head) {
            return false;
        }
        rest = tail;
    }
    match rest.kind() {
        Kind::Atom(text) => text != "_" && variable_number(text).is_none(),
        Kind::Tuple(items) => are_fixed(items),
        Kind::Int(_) | Kind::Nil | Kind::Bin(_) => true,
        Kind::Cons(_, _) => unreachable!(),
    }
}

// Whether none of these parts holds one.
#[cycle(fixed)]
#[tactic(auto, using(crate::proofs::Rows::fixed_rows))]
fn are_fixed(items: &[Term]) -> bool
    ensures { result ≡ is_fixed_row (row_of items.now) }
{
    for item in items {
        if !is_fixed(item) {
            return false;
        }
    }
    true
}
