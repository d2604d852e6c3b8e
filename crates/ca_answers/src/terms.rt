//! Terms: where a call takes them, and calls of their builders.

use crate::say::{say, say_built, say_value};
use bstr::ByteSlice;
use ca_order::decode;
use ca_term::{
    Kind, MOST_CODE_BYTES, MOST_CODE_POINTS, MOST_DEPTH, MOST_ELEMENTS, Term, Terms, atom, bin,
    character, cons, term_order, try_copy, tuple,
};
use ca_text::{read_term, skip};
use std::alloc::Global;
use std::cmp::Ordering;

/// The terms of a text, with a blank between two: each is a term's text, or behind a `#` its code in hexadecimal.
pub(crate) fn terms_in(alloc: Global, text: &[u8]) -> Option<Terms> {
    let mut terms = Terms::new(alloc);
    let mut rest = text;
    for _ in 0..text.len() {
        if rest.is_empty() {
            break;
        }
        let (term, behind) = next_term(alloc, rest)?;
        terms.push(term).ok()?;
        rest = behind;
    }
    Some(terms)
}

fn next_term(alloc: Global, text: &[u8]) -> Option<(Term, &[u8])> {
    match text {
        [b'#', code @ ..] => coded_term(alloc, code),
        _ => {
            let (term, length) = read_term(alloc, text).ok()?;
            Some((term, skip(&text[length..])))
        }
    }
}

fn coded_term(alloc: Global, text: &[u8]) -> Option<(Term, &[u8])> {
    let (code, behind) = text.split_once_str(b" ").unwrap_or((text, &[]));
    let code = hex::decode(alloc, code).ok()?;
    Some((decode(alloc, code.as_slice()).ok()?, behind))
}

/// The number that a term is.
pub(crate) fn number(term: &Term) -> Option<u32> {
    match term.kind() {
        Kind::Int(value) => u32::try_from(value).ok(),
        _ => None,
    }
}

/// The atom of a text in UTF-8.
pub(crate) fn say_atom(alloc: Global, text: &[u8], into: &mut Vec<u8>) {
    match str::from_utf8(text) {
        Ok(text) => say_built(alloc, atom(alloc, text), into),
        Err(_) => say(b"no UTF-8", into),
    }
}

pub(crate) fn say_binary(alloc: Global, bytes: &[u8], into: &mut Vec<u8>) {
    say_built(alloc, bin(alloc, bytes), into);
}

/// The list cell of a head and a tail.
pub(crate) fn say_cell(alloc: Global, head: &Term, tail: &Term, into: &mut Vec<u8>) {
    match (try_copy(alloc, head), try_copy(alloc, tail)) {
        (Ok(head), Ok(tail)) => say_built(alloc, cons(alloc, head, tail), into),
        _ => say(b"no memory", into),
    }
}

/// The tuple of so many terms that are equal to this one.
pub(crate) fn say_tuple(alloc: Global, count: u32, item: &Term, into: &mut Vec<u8>) {
    let mut items = Terms::new(alloc);
    let _ = items.reserve(count as usize);
    for _ in 0..count {
        if let Ok(copy) = try_copy(alloc, item) {
            let _ = items.push(copy);
        }
    }
    say_built(alloc, tuple(items), into);
}

/// The first character of some bytes and how many bytes are behind it, or how many at the front begin one.
pub(crate) fn say_character(alloc: Global, bytes: &[u8], into: &mut Vec<u8>) {
    match character(bytes) {
        Ok((char, rest)) => say_value(alloc, &(char, rest.len()), into),
        Err(at) => say_value(alloc, &at, into),
    }
}

/// Whether these terms ascend and each is equal to its copy.
pub(crate) fn say_ascending(alloc: Global, terms: &[Term], into: &mut Vec<u8>) {
    for (i, a) in terms.iter().enumerate() {
        for (j, b) in terms.iter().enumerate() {
            if term_order(a, b) != i.cmp(&j) {
                say_value(alloc, &(i, j), into);
            }
        }
        match try_copy(alloc, a) {
            Ok(copy) if term_order(a, &copy) == Ordering::Equal => {}
            _ => say_value(alloc, &i, into),
        }
    }
    say(b"ascending", into);
}

/// The bounds of this profile.
pub(crate) fn say_bounds(alloc: Global, into: &mut Vec<u8>) {
    let bounds = [
        MOST_CODE_POINTS,
        MOST_ELEMENTS,
        usize::from(MOST_DEPTH),
        MOST_CODE_BYTES,
    ];
    say_value(alloc, &bounds, into);
}
