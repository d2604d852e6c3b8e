//! Calls of codes.
ghost use Rattle.std.specs.Prelude.{◌≤◌, IfSome};
ghost use Rattle.ca_term.specs.Tree.{Tree, Row};
ghost use Rattle.ca_order.specs.Patches.{IsTupleCode, IsElementCode};

use crate::say::{say, say_hexadecimal, say_term, say_value};
use ca_ets::Operations;
use ca_order::{Code, Patched, compare, decode, encode, object_parts, patch, set, sums};
use ca_term::{Kind, Term, code_length, int, nil};
use std::alloc::Global;

/// The term of a code.
pub(crate) fn say_decoded(alloc: Global, code: &[u8], into: &mut Vec<u8>) {
    match decode(alloc, code) {
        Ok(term) => say_term(&term, into),
        Err(fault) => say_value(alloc, &fault, into),
    }
}

/// The code of a term.
pub(crate) fn say_encoded(alloc: Global, term: &Term, into: &mut Vec<u8>) {
    let mut code = Code::new();
    if let Err(fault) = encode(term, &mut code) {
        say_value(alloc, &fault, into);
    }
    say_hexadecimal(alloc, code.as_slice(), into);
}

/// The length of a term's code.
pub(crate) fn say_length(alloc: Global, term: &Term, into: &mut Vec<u8>) {
    say_value(alloc, &code_length(term), into);
}

pub(crate) fn say_order(alloc: Global, a: &Term, b: &Term, into: &mut Vec<u8>) {
    say_value(alloc, &compare(a, b), into);
}

// The code of a tuple.
fn object_code(term: &Term) -> Option<Code>
    ensures { IfSome result (λ code. (row : Row) × IsTupleCode row code.items) }
{
    let mut code = Code::new();
    let Ok(()) = encode(term, &mut code) else {
        return None;
    };
    match term.kind() {
        Kind::Tuple(_) => Some(code),
        _ => None,
    }
}

// The code of an integer, or of the empty list.
fn element_code(value: Option<i64>) -> Option<Code>
    ensures { IfSome result (λ code. (t : Tree) × IsElementCode t code.items) }
{
    let term = match value {
        Some(value) => int(value),
        None => nil(),
    };
    let mut code = Code::new();
    let Ok(()) = encode(&term, &mut code) else {
        return None;
    };
    Some(code)
}

/// Where element `keypos` stands in the code of an object.
pub(crate) fn say_parts(alloc: Global, keypos: u32, object: &Term, into: &mut Vec<u8>)
    requires { 1 ≤ keypos }
{
    let _kind = object.kind();
    let mut code = Code::new();
    match encode(object, &mut code) {
        Ok(()) => say_value(alloc, &object_parts(code.as_slice(), keypos), into),
        Err(fault) => say_value(alloc, &fault, into),
    }
}

// What came of a change, and the new object, if there is one.
fn say_patched(alloc: Global, patched: Patched, code: &[u8], into: &mut Vec<u8>) {
    say_value(alloc, &patched, into);
    if !code.is_empty() {
        say(b" ", into);
        say_decoded(alloc, code, into);
    }
}

/// What comes of operations on counters, by `patch`, and the values that they store, by `sums`.
pub(crate) fn say_counted(
    alloc: Global,
    keypos: u32,
    object: &Term,
    operations: &Term,
    into: &mut Vec<u8>,
) {
    let (Some(code), Ok(Some(operations))) = (
        object_code(object),
        Operations::of(alloc, keypos, operations),
    ) else {
        return say(b"no object, or no operations", into);
    };
    let adds = operations.as_slice();
    let Ok(mut values) = vec![in alloc; 0i64; adds.len()] else {
        return say(b"no memory", into);
    };
    let mut new = Code::new();
    let patched = patch(code.as_slice(), keypos, adds, &mut new);
    say_patched(alloc, patched, new.as_slice(), into);
    if sums(code.as_slice(), keypos, adds, values.as_mut_slice()) {
        say(b" ", into);
        say_value(alloc, &values.as_slice(), into);
    }
}

/// What comes of another element at a position: of an integer, or of the empty list.
pub(crate) fn say_replaced(
    alloc: Global,
    keypos: u32,
    object: &Term,
    pos: i64,
    value: Option<i64>,
    into: &mut Vec<u8>,
) {
    let (Some(code), Some(value)) = (object_code(object), element_code(value)) else {
        return say(b"no object, or no element", into);
    };
    if pos < 1 || pos == i64::from(keypos) {
        return say(b"no open position", into);
    }
    let mut new = Code::new();
    let patched = set(code.as_slice(), keypos, pos, value.as_slice(), &mut new);
    say_patched(alloc, patched, new.as_slice(), into);
}
