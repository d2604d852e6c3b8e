//! A term, and its kind.
ghost use Rattle.std.specs.Prelude.{◌≡◌};
ghost use Rattle.ca_term.specs.Kind.{tree_of_kind};
ghost use Rattle.ca_term.specs.Tree.{IsTerm};

use arrayvec::{ArrayString, ArrayVec};
use std::marker::Model;

// The most bytes of a text, or of a binary, that stand in the node itself: a `String` and a `Vec` are as large.
const SHORT: usize = 16;

/// A term of at most `MOST_DEPTH` levels, whose tuples have at most `MOST_ELEMENTS` elements and whose atoms at most
/// `MOST_CODE_POINTS` code points.
/// Contracts see it as its tree.
#[cycle(term)]
pub struct Term {
    pub(crate) node: Node,
    pub(crate) depth: u8,
}

#[cycle(term)]
#[derive(Drop)]
pub(crate) enum Node {
    Int(i64),
    Atom(String),
    Tuple(Vec<Term>),
    Nil,
    Cons(Box<Cell>),
    Bin(Vec<u8>),
    ShortAtom(ArrayString<SHORT>),
    ShortBin(ArrayVec<u8, SHORT>),
}

/// A list cell: both of its parts in one piece of memory.
#[cycle(term)]
#[derive(Drop)]
pub(crate) struct Cell {
    pub(crate) head: Term,
    pub(crate) tail: Term,
}

impl Model for Term {
    ghost use Rattle.ca_term.specs.Tree.{Tree, nodes};
    ghost use Rattle.ca_term.specs.Stored.{tree_stored};

    ghost Value = { Tree };

    ghost coded = { tree_stored };

    ghost use Rattle.ca_term.specs.View.{tree_of, IsKept};

    ghost view = { λ a. tree_of a.node };

    ghost invariant = { IsKept };

    ghost size = { nodes };

    ghost use Rattle.ca_term.specs.Falls.{deep_le-nodes};

    ghost size_decreases = { λ a h. deep_le-nodes a.node };
}

// Goes along a list's tail in a loop: a list may be longer than the stack is deep.
impl Drop for Term {
    fn drop(mut self) {
        loop {
            let Term { node, depth: _ } = self;
            match node {
                Node::Cons(cell) => {
                    let Cell { head: _head, tail } = Box::into_inner(cell);
                    self = tail;
                }
                Node::Tuple(_items) => return,
                Node::Int(_)
                | Node::Atom(_)
                | Node::Nil
                | Node::Bin(_)
                | Node::ShortAtom(_)
                | Node::ShortBin(_) => return,
            }
        }
    }
}

/// The kind of a term, with its parts.
#[derive(Clone, Copy)]
pub enum Kind<'a> {
    Int(i64),
    Atom(&'a str),
    Tuple(&'a [Term]),
    Nil,
    Cons(&'a Term, &'a Term),
    Bin(&'a [u8]),
}

impl Term {
    /// The term's kind and its parts. It also tells that the term is within the bounds.
    pub fn kind(&self) -> Kind<'_>
        ensures kind { tree_of_kind result ≡ self.now }
        ensures bounded { IsTerm self.now }
    {
        match &self.node {
            Node::Int(value) => Kind::Int(*value),
            Node::Atom(text) => Kind::Atom(text.as_str()),
            Node::Tuple(items) => Kind::Tuple(items.as_slice()),
            Node::Nil => Kind::Nil,
            Node::Cons(cell) => Kind::Cons(&cell.head, &cell.tail),
            Node::Bin(bytes) => Kind::Bin(bytes.as_slice()),
            Node::ShortAtom(text) => Kind::Atom(text.as_str()),
            Node::ShortBin(bytes) => Kind::Bin(bytes.as_slice()),
        }
    }
}
