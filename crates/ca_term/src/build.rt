//! The builders of terms.
ghost use Rattle.std.specs.Prelude.{◌≡◌, ◌≤◌, ◌<◌, ◌↔◌, [], length, IfOk, IfErr, IsErrOf, IsOk};
ghost use Rattle.std.specs.Str.{chars};
ghost use Rattle.ca_term.specs.Cause.{IsCauseOfAtom, IsCauseOfCell, IsCauseOfTuple};
ghost use Rattle.ca_term.specs.declared.bounds.TheConstants.{MOST_CODE_POINTS, MOST_DEPTH, MOST_ELEMENTS};
ghost use Rattle.ca_term.specs.Tree.{Integer, Atom, Tuple, Nil, Cons, Binary, row_of, row_depth, list_of, depth};

use crate::bounds::{MOST_CODE_POINTS, MOST_DEPTH, MOST_ELEMENTS};
use crate::fault::TermFault;
use crate::term::{Cell, Node, Term};
use crate::terms::Terms;
use arrayvec::{ArrayString, ArrayVec};
use std::alloc::Global;

/// The term of an integer.
pub fn int(value: i64) -> Term
    ensures { result ≡ Integer value }
{
    Term {
        node: Node::Int(value),
        depth: 1,
    }
}

/// The empty list, `[]`.
pub fn nil() -> Term
    ensures { result ≡ Nil }
{
    Term {
        node: Node::Nil,
        depth: 1,
    }
}

// How many code points a text has.
fn code_points(text: &str) -> usize
    ensures { result ≡ length (chars text.now) }
{
    text.chars().count()
}

/// The atom of a text of at most `MOST_CODE_POINTS` code points.
pub fn atom(alloc: Global, text: &str) -> Result<Term, TermFault>
    ensures ok { IfOk result (λ t. t ≡ Atom text.now) }
    ensures too_long { MOST_CODE_POINTS < length (chars text.now) → IsErrOf result TermFault.AtomTooLong }
    ensures causes { IfErr result (λ e. IsCauseOfAtom text.now e) }
{
    if code_points(text) > MOST_CODE_POINTS {
        return Err(TermFault::AtomTooLong);
    }
    if let Ok(short) = ArrayString::from(text) {
        return Ok(Term {
            node: Node::ShortAtom(short),
            depth: 1,
        });
    }
    let text = text.to_string(alloc)?;
    Ok(Term {
        node: Node::Atom(text),
        depth: 1,
    })
}

/// The binary of these bytes.
pub fn bin(alloc: Global, bytes: &[u8]) -> Result<Term, TermFault>
    ensures ok { IfOk result (λ t. t ≡ Binary bytes.now) }
    ensures causes { IfErr result (λ e. e ≡ TermFault.NoMemory) }
{
    if let Ok(short) = ArrayVec::try_from(bytes) {
        return Ok(Term {
            node: Node::ShortBin(short),
            depth: 1,
        });
    }
    let bytes = bytes.to_vec(alloc)?;
    Ok(Term {
        node: Node::Bin(bytes),
        depth: 1,
    })
}

/// The binary of these bytes, without a copy of them. It takes no memory.
pub fn bin_of(bytes: Vec<u8>) -> Term
    ensures { result ≡ Binary bytes.items }
{
    Term {
        node: Node::Bin(bytes),
        depth: 1,
    }
}

/// A list cell of at most `MOST_DEPTH` levels: its head stands one deeper than the list, its tail as deep. A refusal drops both.
pub fn cons(alloc: Global, head: Term, tail: Term) -> Result<Term, TermFault>
    ensures ok { IfOk result (λ t. t ≡ Cons head tail) }
    ensures too_deep { MOST_DEPTH < depth (Cons head tail) → IsErrOf result TermFault.TooDeep }
    ensures causes { IfErr result (λ e. IsCauseOfCell (Cons head tail) e) }
{
    let depth = (head.depth + 1).max(tail.depth);
    if depth > MOST_DEPTH {
        return Err(TermFault::TooDeep);
    }
    let cell = Box::new(alloc, Cell { head, tail })?;
    Ok(Term {
        node: Node::Cons(cell),
        depth,
    })
}

/// The list of these terms with this tail, of at most `MOST_DEPTH` levels: `tail` itself where there are no terms.
/// It takes no memory before it has checked the levels. A refusal drops the terms.
#[tactic(auto, using(crate::proofs::Lists::too_deep, crate::proofs::Lists::deep_enough))]
pub fn list(alloc: Global, items: Terms, tail: Term) -> Result<Term, TermFault>
    ensures ok { IfOk result (λ t. t ≡ list_of items.items tail) }
    ensures too_deep { MOST_DEPTH < depth (list_of items.items tail) → IsErrOf result TermFault.TooDeep }
    ensures causes { IfErr result (λ e. IsCauseOfCell (list_of items.items tail) e) }
    ensures none { items.items ≡ [] → IsOk result }
{
    if deepest(items.items.as_slice()) >= MOST_DEPTH {
        return Err(TermFault::TooDeep);
    }
    let mut heads = items.items;
    let mut list = tail;
    while let Some(head) = heads.pop() {
        // No part is deeper than the whole, so a cell is refused for want of memory alone.
        let Ok(cell) = cons(alloc, head, list) else {
            return Err(TermFault::NoMemory);
        };
        list = cell;
    }
    Ok(list)
}

// The most levels of these terms, or 0 where there are none.
#[tactic(auto, using(crate::proofs::Rows::row_depth_done))]
fn deepest(items: &[Term]) -> u8
    ensures { result ≡ row_depth (row_of items.now) }
{
    let mut deepest = 0;
    for item in items {
        deepest = item.depth.max(deepest);
    }
    deepest
}

/// The tuple of these terms: at most `MOST_ELEMENTS`, and each of fewer than `MOST_DEPTH` levels. It takes no memory. A refusal drops the terms.
pub fn tuple(items: Terms) -> Result<Term, TermFault>
    ensures ok { IfOk result (λ t. t ≡ Tuple (row_of items.items)) }
    ensures too_wide { MOST_ELEMENTS < length items.items → IsErrOf result TermFault.TooWide }
    ensures too_deep { length items.items ≤ MOST_ELEMENTS → MOST_DEPTH < depth (Tuple (row_of items.items)) → IsErrOf result TermFault.TooDeep }
    ensures causes { IfErr result (λ e. IsCauseOfTuple items.items e) }
{
    if items.items.len() > MOST_ELEMENTS {
        return Err(TermFault::TooWide);
    }
    let deepest = deepest(items.items.as_slice());
    if deepest >= MOST_DEPTH {
        return Err(TermFault::TooDeep);
    }
    Ok(Term {
        node: Node::Tuple(items.items),
        depth: deepest + 1,
    })
}
