//! The length of a term's byte code, found without writing it.
ghost use Rattle.std.specs.Prelude.{◌≡◌, ◌+◌, ◌<◌, ◌≤◌, length, min, MatchOption};
ghost use Rattle.ca_term.specs.Code.{code_of, row_code, int_code, escaped, magnitude};
ghost use Rattle.ca_term.specs.declared.bounds.TheConstants.{MOST_CODE_BYTES};
ghost use Rattle.ca_term.specs.Tree.{row_of};

use crate::bounds::MOST_CODE_BYTES;
use crate::term::{Node, Term};

/// The length in bytes of the term's byte code, or `MOST_CODE_BYTES + 1` where that is longer than `MOST_CODE_BYTES`. It takes no memory.
///
/// It stops as soon as that many bytes are passed, so it reads no more of a long term.
pub fn code_length(term: &Term) -> usize
    ensures { result ≡ min (length (code_of term.now)) (MOST_CODE_BYTES + 1) }
{
    match room_behind(term, MOST_CODE_BYTES) {
        Some(left) => MOST_CODE_BYTES - left,
        None => MOST_CODE_BYTES + 1,
    }
}

// What a term's code leaves of this many bytes, or None where it has more bytes than that.
//
// It goes along a list's tail in a loop: a list may be longer than the stack is deep.
#[cycle(length)]
#[tactic(auto, using(crate::proofs::Lengths::code_lengths))]
fn room_behind(term: &Term, room: usize) -> Option<usize>
    ensures { MatchOption result (room < length (code_of term.now)) (λ left. left + length (code_of term.now) ≡ room) }
{
    let mut rest = term;
    let mut left = room;
    while let Node::Cons(cell) = &rest.node {
        left = room_behind(&cell.head, left.checked_sub(1)?)?;
        rest = &cell.tail;
    }
    match &rest.node {
        Node::Int(value) => left.checked_sub(int_code_length(*value)),
        Node::Atom(text) => room_behind_escaped(text.as_str().as_bytes(), left.checked_sub(1)?),
        Node::Tuple(items) => room_behind_items(items.as_slice(), left.checked_sub(5)?),
        Node::Nil => left.checked_sub(1),
        Node::Cons(_) => unreachable!(),
        Node::Bin(bytes) => room_behind_escaped(bytes.as_slice(), left.checked_sub(1)?),
        Node::ShortAtom(text) => room_behind_escaped(
            text.as_str().as_bytes(),
            left.checked_sub(1)?,
        ),
        Node::ShortBin(bytes) => room_behind_escaped(bytes.as_slice(), left.checked_sub(1)?),
    }
}

// What the codes of these terms leave of this many bytes, or None where they have more bytes than that.
#[cycle(length)]
#[tactic(auto, using(crate::proofs::Lengths::length_row, crate::proofs::Lengths::length_no_row, crate::proofs::Rows::nodes_item))]
fn room_behind_items(items: &[Term], room: usize) -> Option<usize>
    ensures { MatchOption result (room < length (row_code (row_of items.now))) (λ left. left + length (row_code (row_of items.now)) ≡ room) }
{
    let mut left = room;
    for item in items {
        left = room_behind(item, left)?;
    }
    Some(left)
}

// What these bytes, escaped, and their end leave of this many bytes, or None where they have more bytes than that.
// Bytes that don't fit even without escapes aren't read.
#[tactic(auto, using(crate::proofs::Escapes::length_escaped))]
fn room_behind_escaped(bytes: &[u8], room: usize) -> Option<usize>
    ensures { MatchOption result (room < length (escaped bytes.now)) (λ left. left + length (escaped bytes.now) ≡ room) }
{
    let left = room.checked_sub(bytes.len())?.checked_sub(2)?;
    let zeros = bytes.iter().filter(|byte| **byte == 0).count();
    left.checked_sub(zeros)
}

/// The length in bytes of an integer's code: a tag, and up to eight bytes.
#[tactic(auto, using(crate::proofs::Lengths::length_int_code))]
pub fn int_code_length(value: i64) -> usize
    ensures value { result ≡ length (int_code value) }
    ensures least { 1 ≤ result }
    ensures most { result ≤ 9 }
{
    let zeros = magnitude(value).leading_zeros() as usize;
    1 + (71 - zeros) / 8
}

// n of n, and m of -m - 1.
fn magnitude(value: i64) -> u64
    ensures { result ≡ magnitude value }
{
    if value < 0 {
        value.unsigned_abs() - 1
    } else {
        value.unsigned_abs()
    }
}
