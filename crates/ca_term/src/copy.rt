//! Copies of terms.
ghost use Rattle.std.specs.Prelude.{◌≡◌, false, IfOk, IfErr};
ghost use Rattle.ca_term.specs.Tree.{is_cell};

use crate::fault::TermFault;
use crate::term::{Cell, Node, Term};
use arrayvec::ArrayVec;
use std::alloc::Global;

/// A term equal to this one.
///
/// It goes along a list's tail in a loop: a list may be longer than the stack is deep.
#[cycle(copy)]
#[tactic(auto, using(crate::proofs::Cells::kept_none, crate::proofs::Cells::kept_more, crate::proofs::Cells::kept_last, crate::proofs::Cells::kept_all))]
pub fn try_copy(alloc: Global, term: &Term) -> Result<Term, TermFault>
    ensures ok { IfOk result (λ t. t ≡ term.now) }
    ensures causes { IfErr result (λ e. e ≡ TermFault.NoMemory) }
{
    let mut heads = Vec::new(alloc);
    let mut rest = term;
    while let Node::Cons(cell) = &rest.node {
        let head = try_copy(alloc, &cell.head)?;
        heads.push((head, rest.depth))?;
        rest = &cell.tail;
    }
    let mut copy = copy_last(alloc, rest)?;
    while let Some((head, depth)) = heads.pop() {
        let cell = Box::new(alloc, Cell { head, tail: copy })?;
        copy = Term {
            node: Node::Cons(cell),
            depth,
        };
    }
    Ok(copy)
}

// A copy of a term that is no list cell.
#[cycle(copy)]
#[tactic(auto, using(crate::proofs::Cells::cell_is))]
fn copy_last(alloc: Global, term: &Term) -> Result<Term, TermFault>
    requires { is_cell term.now ≡ false }
    ensures ok { IfOk result (λ t. t ≡ term.now) }
    ensures causes { IfErr result (λ e. e ≡ TermFault.NoMemory) }
{
    let node = match &term.node {
        Node::Int(value) => Node::Int(*value),
        Node::Atom(text) => Node::Atom(text.as_str().to_string(alloc)?),
        Node::Tuple(items) => Node::Tuple(copy_items(alloc, items.as_slice())?),
        Node::Nil => Node::Nil,
        Node::Cons(_) => unreachable!(),
        Node::Bin(bytes) => Node::Bin(bytes.as_slice().to_vec(alloc)?),
        Node::ShortAtom(text) => Node::ShortAtom(*text),
        Node::ShortBin(bytes) => match ArrayVec::try_from(bytes.as_slice()) {
            Ok(copy) => Node::ShortBin(copy),
            Err(_) => unreachable!(),
        },
    };
    Ok(Term {
        node,
        depth: term.depth,
    })
}

// Copies of these terms, in order.
#[cycle(copy)]
#[tactic(auto, using(crate::proofs::Rows::nodes_item))]
fn copy_items(alloc: Global, items: &[Term]) -> Result<Vec<Term>, TermFault>
    ensures ok { IfOk result (λ copies. copies.items ≡ items.now) }
    ensures causes { IfErr result (λ e. e ≡ TermFault.NoMemory) }
{
    let mut copies = Vec::with_capacity(alloc, items.len())?;
    for item in items {
        copies.push(try_copy(alloc, item)?)?;
    }
    Ok(copies)
}
