//! The order of terms.
ghost use Rattle.std.specs.Prelude.{◌≡◌, length};
ghost use Rattle.std.specs.Cmp.{IsTotalOrder};
ghost use Rattle.ca_term.specs.Order.{term_cmp, row_cmp, rank};
ghost use Rattle.ca_term.specs.Tree.{row_of};
ghost use Rattle.ca_term.specs.Kind.{tree_of_kind};

use crate::term::{Kind, Term};
use std::cmp::Ordering;

impl Kind<'_> {
    fn rank(&self) -> u8
        ensures { result ≡ rank (tree_of_kind self.now) }
    {
        match self {
            Kind::Int(_) => 0,
            Kind::Atom(_) => 1,
            Kind::Tuple(_) => 2,
            Kind::Nil => 3,
            Kind::Cons(_, _) => 4,
            Kind::Bin(_) => 5,
        }
    }
}

/// How a term stands to another one in the term order of the Erlang reference manual. It takes no memory.
#[tactic(auto, using(crate::proofs::Rows::compared_rows))]
pub fn term_order(a: &Term, b: &Term) -> Ordering
    ensures { result ≡ term_cmp a.now b.now }
{
    let mut left = a;
    let mut right = b;
    'cells: loop {
        match (left.kind(), right.kind()) {
            (Kind::Int(m), Kind::Int(n)) => return m.cmp(&n),
            (Kind::Atom(s), Kind::Atom(t)) => return s.cmp(t),
            (Kind::Tuple(r), Kind::Tuple(s)) => match r.len().cmp(&s.len()) {
                Ordering::Equal => {
                    for i in 0..r.len() {
                        match term_order(&r[i], &s[i]) {
                            Ordering::Equal => {}
                            unequal => return unequal,
                        }
                    }
                    return Ordering::Equal;
                }
                unequal => return unequal,
            },
            (Kind::Nil, Kind::Nil) => return Ordering::Equal,
            (Kind::Cons(h, t), Kind::Cons(k, u)) => match term_order(h, k) {
                Ordering::Equal => {
                    left = t;
                    right = u;
                }
                unequal => return unequal,
            },
            (Kind::Bin(x), Kind::Bin(y)) => return x.cmp(y),
            (x, y) => return x.rank().cmp(&y.rank()),
        }
    }
}

/// The order is total: of two terms one is less, or they are the same term.
pub fn order_laws()
    ensures { IsTotalOrder term_cmp }
{}
