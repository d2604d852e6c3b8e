//! Calls of the reader of term texts.

use crate::say::{say, say_term, say_value};
use ca_text::read_term;
use std::alloc::Global;

/// How many bytes the text at the front has, and its term.
pub(crate) fn say_read(alloc: Global, text: &[u8], into: &mut Vec<u8>) {
    match read_term(alloc, text) {
        Ok((term, length)) => {
            say_value(alloc, &length, into);
            say(b" ", into);
            say_term(&term, into);
        }
        Err(fault) => say_value(alloc, &fault, into),
    }
}
