//! The text of terms.
ghost use Rattle.std.specs.Prelude.{◌≡◌, ◌<◌, ◌++◌, length, OnOk, OnErr};
ghost use Rattle.std.specs.Fmt.{signed_decimal};
ghost use Rattle.ca_term.specs.Tree.{Tree, row_of};
ghost use Rattle.ca_text.specs.Text.{text_of, tail_text, row_text};
ghost use Rattle.ca_text.specs.Written.{BeginsWith};

use crate::atom::put_atom;
use crate::binary::put_binary;
use crate::writer::put;
use ca_term::{Kind, Term};
use itoa::Buffer;
use std::alloc::AllocError;

/// Appends the term's one text, in UTF-8. Where memory lacks, `into` is as before.
pub fn print_term(term: &Term, into: &mut Vec<u8>) -> Result<(), AllocError>
    ensures ok { OnOk result (into.new.items ≡ into.old.items ++ text_of term.now) }
    ensures err { OnErr result (into.new.items ≡ into.old.items) }
{
    let before = into.len();
    let outcome = put_term(term, into);
    if outcome.is_err() {
        into.truncate(before);
    }
    outcome
}

#[cycle(text)]
#[tactic(auto, using(crate::proofs::Fronts::begins_more))]
fn put_term(term: &Term, into: &mut Vec<u8>) -> Result<(), AllocError>
    ensures ok { OnOk result (into.new.items ≡ into.old.items ++ text_of term.now) }
    ensures front { BeginsWith into.new.items into.old.items }
{
    match term.kind() {
        Kind::Int(value) => put_integer(value, into),
        Kind::Atom(text) => put_atom(text, into),
        Kind::Tuple(items) => {
            put(b"{", into)?;
            put_items(items, into)?;
            put(b"}", into)
        }
        Kind::Nil => put(b"[]", into),
        Kind::Cons(head, tail) => {
            put(b"[", into)?;
            put_term(head, into)?;
            put_tail(tail, into)
        }
        Kind::Bin(bytes) => put_binary(bytes, into),
    }
}

/// Appends the text of an integer.
pub fn put_integer(value: i64, into: &mut Vec<u8>) -> Result<(), AllocError>
    ensures ok { OnOk result (into.new.items ≡ into.old.items ++ signed_decimal value) }
    ensures front { BeginsWith into.new.items into.old.items }
{
    put(Buffer::new().format(value).as_bytes(), into)
}

// Elements with commas between them.
#[cycle(text)]
#[tactic(auto, using(crate::proofs::Fronts::begins_more))]
fn put_items(items: &[Term], into: &mut Vec<u8>) -> Result<(), AllocError>
    ensures ok { OnOk result (into.new.items ≡ into.old.items ++ row_text (row_of items.now)) }
    ensures front { BeginsWith into.new.items into.old.items }
{
    let Some((first, others)) = items.split_first() else {
        return Ok(());
    };
    put_term(first, into)?;
    for item in others {
        put(b",", into)?;
        put_term(item, into)?;
    }
    Ok(())
}

// What follows a list's head. It goes along the tail in a loop: a list may be longer than the stack is deep.
#[cycle(text)]
#[tactic(auto, using(crate::proofs::Fronts::begins_more))]
fn put_tail(tail: &Term, into: &mut Vec<u8>) -> Result<(), AllocError>
    ensures ok { OnOk result (into.new.items ≡ into.old.items ++ tail_text tail.now) }
    ensures front { BeginsWith into.new.items into.old.items }
{
    let mut rest = tail;
    while let Kind::Cons(head, next) = rest.kind() {
        put(b",", into)?;
        put_term(head, into)?;
        rest = next;
    }
    if !matches!(rest.kind(), Kind::Nil) {
        put(b"|", into)?;
        put_term(rest, into)?;
    }
    put(b"]", into)
}

/// A printed text is never empty.
pub fn text_laws()
    ensures { (t : Tree) → 0 < length (text_of t) }
{}
