//! The byte code of a term.
ghost use Rattle.std.specs.Prelude.{◌≡◌, ◌<◌, ◌≤◌, ◌++◌, [], length, ◌↔◌, IsErr, OnOk, OnErr};
ghost use Rattle.ca_term.specs.declared.bounds.TheConstants.{MOST_CODE_BYTES, MOST_ELEMENTS};
ghost use Rattle.ca_term.specs.Code.{code_of, escaped, int_code, four_bytes, row_code};
ghost use Rattle.ca_term.specs.Tree.{row_of};
ghost use Rattle.ca_order.specs.Puts.{Puts};
ghost use Rattle.ca_order.specs.IntTag.{int_tag};

use crate::room::{Code, TooLong};
use crate::tags::{ATOM, BINARY, CONS, NIL, TUPLE};
use crate::zeros::split_at_zero;
use ca_term::{Kind, Term, int_code_length};

/// Writes the term's code into `into` in place of what it held. Where the code has over `MOST_CODE_BYTES` bytes, `into` is left empty.
pub fn encode(term: &Term, into: &mut Code) -> Result<(), TooLong>
    ensures ok { OnOk result (into.new.items ≡ code_of term.now) }
    ensures too_long { IsErr result ↔ (MOST_CODE_BYTES < length (code_of term.now)) }
    ensures empty { OnErr result (into.new.items ≡ []) }
{
    into.clear();
    let put = put_term(term, into);
    if put.is_err() {
        into.clear();
    }
    // That the room holds at most `MOST_CODE_BYTES` bytes is told by its length.
    let _length = into.len();
    put
}

// Appends these bytes.
pub(crate) fn put(bytes: &[u8], into: &mut Code) -> Result<(), TooLong>
    ensures { Puts result into.old.items bytes.now into.new.items }
{
    match into.try_extend_from_slice(bytes) {
        Ok(()) => Ok(()),
        Err(_) => Err(TooLong {}),
    }
}

// Appends these bytes with each 00 written as 00 FF, and then 00 00.
fn put_escaped(bytes: &[u8], into: &mut Code) -> Result<(), TooLong>
    ensures { Puts result into.old.items (escaped bytes.now) into.new.items }
{
    let mut rest = bytes;
    while let Some((run, behind)) = split_at_zero(rest) {
        put(run, into)?;
        put(&[0, 0xff], into)?;
        rest = behind;
    }
    put(rest, into)?;
    put(&[0, 0], into)
}

// Appends the code of an integer: the lowest bytes of its two's complement are the bytes of n, or those of m complemented.
pub(crate) fn put_int(value: i64, into: &mut Code) -> Result<(), TooLong>
    ensures { Puts result into.old.items (int_code value) into.new.items }
{
    let len = int_code_length(value) - 1;
    put(&[int_tag(value, len)], into)?;
    put(&value.cast_unsigned().to_be_bytes()[8 - len..], into)
}

// The first byte of the code of an integer with so many bytes behind it.
fn int_tag(value: i64, len: usize) -> u8
    requires { len ≤ 8 }
    ensures { result ≡ int_tag value len }
{
    if value < 0 {
        0x1f - len as u8
    } else {
        0x20 + len as u8
    }
}

// Appends the code of a term.
//
// It goes along a list's tail in a loop: a list may be longer than the stack is deep.
#[cycle(code)]
#[tactic(auto, using(crate::proofs::Parts::tuple_falls, crate::proofs::Parts::cons_falls, crate::proofs::Parts::tuple_fits))]
fn put_term(term: &Term, into: &mut Code) -> Result<(), TooLong>
    ensures { Puts result into.old.items (code_of term.now) into.new.items }
{
    let mut rest = term;
    'cells: loop {
        match rest.kind() {
            Kind::Int(value) => return put_int(value, into),
            Kind::Atom(text) => {
                put(&[ATOM], into)?;
                return put_escaped(text.as_bytes(), into);
            }
            Kind::Tuple(items) => {
                put(&[TUPLE], into)?;
                return put_row(items, into);
            }
            Kind::Nil => return put(&[NIL], into),
            Kind::Cons(head, tail) => {
                put(&[CONS], into)?;
                put_term(head, into)?;
                rest = tail;
            }
            Kind::Bin(bytes) => {
                put(&[BINARY], into)?;
                return put_escaped(bytes, into);
            }
        }
    }
}

// Appends the size of a tuple in four bytes, and the codes of its elements.
#[cycle(code)]
#[tactic(auto, using(ca_term::proofs::Rows::nodes_item))]
fn put_row(items: &[Term], into: &mut Code) -> Result<(), TooLong>
    requires { length items.now ≤ MOST_ELEMENTS }
    ensures { Puts result into.old.items (four_bytes (length items.now) ++ row_code (row_of items.now)) into.new.items }
{
    put(&(items.len() as u32).to_be_bytes(), into)?;
    for item in items {
        put_term(item, into)?;
    }
    Ok(())
}
