//! Rows: calls, with the answers that are wanted.

use crate::calls::answer;
use crate::repeats::written_out;
use crate::say::{say, say_value};
use bstr::ByteSlice;
use std::alloc::Global;

/// How many answers were wanted, and how many other ones came.
#[derive(Clone, Copy)]
pub(crate) struct Tally {
    pub(crate) rows: u64,
    pub(crate) wrong: u64,
}

/// What is printed of the line of this number.
pub(crate) fn take(alloc: Global, number: u64, line: &[u8], tally: &mut Tally) -> Vec<u8> {
    let line = line.strip_suffix(b"\n").unwrap_or(line);
    match line {
        [] | [b'%', ..] => Vec::new(alloc),
        _ => taken(alloc, number, line, tally),
    }
}

fn taken(alloc: Global, number: u64, line: &[u8], tally: &mut Tally) -> Vec<u8> {
    let mut told = Vec::new(alloc);
    let whole = written_out(alloc, line);
    let Some((call, wanted)) = whole.as_slice().rsplit_once_str(b" => ") else {
        answer(alloc, whole.as_slice(), &mut told);
        say(b"\n", &mut told);
        return told;
    };
    answer(alloc, call, &mut told);
    tally.rows = tally.rows.saturating_add(1);
    if told.as_slice() == wanted {
        return Vec::new(alloc);
    }
    tally.wrong = tally.wrong.saturating_add(1);
    difference(alloc, number, line, told.as_slice())
}

fn difference(alloc: Global, number: u64, line: &[u8], told: &[u8]) -> Vec<u8> {
    let mut text = Vec::new(alloc);
    say(b"line ", &mut text);
    say_value(alloc, &number, &mut text);
    say(b": ", &mut text);
    say(line, &mut text);
    say(b" BUT CAME ", &mut text);
    say(told, &mut text);
    say(b"\n", &mut text);
    text
}
