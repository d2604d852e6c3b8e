//! Keys of several kinds, by their numbers.
use crate::draws::Draws;
use ca_text::{put, put_number};
use std::alloc::AllocError;

/// How many keys there are, and of which kind: integers, atoms, tuples, lists, binaries that begin alike, texts that begin alike, or all of them in turn.
#[derive(Clone, Copy)]
pub(crate) struct Keys {
    pub count: u32,
    pub kind: u32,
}

/// How many kinds of keys there are.
pub(crate) const KINDS: u32 = 7;

impl Keys {
    /// Appends the text of one of the keys.
    pub(crate) fn put_one(self, draws: &mut Draws, into: &mut Vec<u8>) -> Result<(), AllocError> {
        let number = draws.below(self.count);
        let kind = if self.kind == KINDS - 1 {
            number % (KINDS - 1)
        } else {
            self.kind
        };
        let (front, back) = match kind {
            0 => around_integer(number),
            _ => around(kind),
        };
        put(front.as_bytes(), into)?;
        put_number(u64::from(number), into)?;
        put(back.as_bytes(), into)
    }
}

// What stands before and behind the number of an integer key: it is small, negative or large.
fn around_integer(number: u32) -> (&'static str, &'static str) {
    match number % 3 {
        0 => ("", ""),
        1 => ("-", ""),
        _ => ("", "000000000000"),
    }
}

// What stands before and behind the number of a key of another kind.
fn around(kind: u32) -> (&'static str, &'static str) {
    match kind {
        1 => ("a", ""),
        2 => ("{pear,", "}"),
        3 => ("[x|", "]"),
        4 => ("<<\"all of these keys begin with the same words \",", ">>"),
        _ => ("\"all of these keys begin alike, too: ", "\""),
    }
}
