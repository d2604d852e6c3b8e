//! Answers, part by part. Where memory lacks, a part is missing: the answer is a wrong one then, and no other is to be feared.

use ca_term::{Term, TermFault};
use ca_text::print_term;
use std::alloc::Global;
use std::fmt::Debug;

pub(crate) fn say(bytes: &[u8], into: &mut Vec<u8>) {
    let _ = into.extend_from_slice(bytes);
}

// A value as Rust shows it.
pub(crate) fn say_value<T: Debug>(alloc: Global, value: &T, into: &mut Vec<u8>) {
    if let Ok(text) = format!(in alloc; "{value:?}") {
        say(text.as_str().as_bytes(), into);
    }
}

pub(crate) fn say_term(term: &Term, into: &mut Vec<u8>) {
    let _ = print_term(term, into);
}

pub(crate) fn say_hexadecimal(alloc: Global, bytes: &[u8], into: &mut Vec<u8>) {
    if let Ok(text) = hex::encode(alloc, bytes) {
        say(text.as_str().as_bytes(), into);
    }
}

// Text of several lines, in one line: the end of each is written `\n`.
pub(crate) fn say_lines(text: &[u8], into: &mut Vec<u8>) {
    for byte in text {
        match *byte {
            b'\n' => say(b"\\n", into),
            _ => say(&[*byte], into),
        }
    }
}

pub(crate) fn say_built(alloc: Global, built: Result<Term, TermFault>, into: &mut Vec<u8>) {
    match built {
        Ok(term) => say_term(&term, into),
        Err(fault) => say_value(alloc, &fault, into),
    }
}
