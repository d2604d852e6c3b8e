//! Objects of a table: their keys, and what fits.
ghost use Rattle.std.specs.Prelude.{◌≡◌, ◌≤◌, true, IfOk, IsNone, IfSome, is_some};
ghost use Rattle.ca_term.specs.Order.{term_cmp};
ghost use Rattle.ca_term.specs.Tree.{Nil};
ghost use Rattle.ca_term.specs.Object.{is_object, key_of, fits};

use ca_term::{Kind, MOST_CODE_BYTES, Term, code_length, nil, term_order, try_copy};
use std::alloc::{AllocError, Global};
use std::cmp::Ordering;

// The element that is an object's key, counted from 1; a term that is no object has none.
#[tactic(auto, using(crate::proofs::Objects::no_key, crate::proofs::Objects::key_is, crate::proofs::Objects::object_is, crate::proofs::Objects::object_is_not))]
pub(crate) fn key(object: &Term, keypos: u32) -> Option<&Term>
    ensures none { IsNone result → key_of keypos object.now ≡ Nil }
    ensures some { IfSome result (λ k. k.now ≡ key_of keypos object.now) }
    ensures object { 1 ≤ keypos → is_object keypos object.now ≡ is_some result }
{
    match object.kind() {
        Kind::Tuple(items) => items.get((keypos as usize).saturating_sub(1)),
        _ => None,
    }
}

// The key of an object.
pub(crate) fn own_key(object: &Term, keypos: u32) -> &Term
    requires positive { 1 ≤ keypos }
    requires object { is_object keypos object.now ≡ true }
    ensures { result.now ≡ key_of keypos object.now }
{
    match key(object, keypos) {
        Some(own) => own,
        None => unreachable!(),
    }
}

// How an object's key stands to a key.
pub(crate) fn key_order(object: &Term, keypos: u32, k: &Term) -> Ordering
    ensures { result ≡ term_cmp (key_of keypos object.now) k.now }
{
    match key(object, keypos) {
        Some(own) => term_order(own, k),
        None => term_order(&nil(), k),
    }
}

// Whether a term's code is short enough for an object or a key of a table.
pub(crate) fn fits(term: &Term) -> bool
    ensures { result ≡ fits term.now }
{
    code_length(term) <= MOST_CODE_BYTES
}

// A copy of a term.
pub(crate) fn copied(alloc: Global, term: &Term) -> Result<Term, AllocError>
    ensures { IfOk result (λ copy. copy ≡ term.now) }
{
    match try_copy(alloc, term) {
        Ok(copy) => Ok(copy),
        Err(_) => Err(AllocError),
    }
}
