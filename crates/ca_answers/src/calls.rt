//! Which call a line names.
ghost use Rattle.std.specs.Prelude.{◌≤◌};

use crate::codes::{
    say_counted, say_decoded, say_encoded, say_length, say_order, say_parts, say_replaced,
};
use crate::files::{say_answer, say_client, say_file, say_generated, say_request, say_table};
use crate::say::say;
use crate::specs::{say_applied, say_compiled, say_matched, say_plan};
use crate::terms::{
    number, say_ascending, say_atom, say_binary, say_bounds, say_cell, say_character, say_tuple,
    terms_in,
};
use crate::texts::say_read;
use bstr::ByteSlice;
use ca_term::{Kind, Term};
use std::alloc::Global;

/// What a call answers. Behind its word and a blank stand its arguments: for a few calls a text, else terms.
pub(crate) fn answer(alloc: Global, call: &[u8], into: &mut Vec<u8>) {
    let (word, rest) = call.split_once_str(b" ").unwrap_or((call, &[]));
    let word = str::from_utf8(word).unwrap_or("");
    match word {
        "read" => say_read(alloc, rest, into),
        "words" => say_request(alloc, rest, into),
        "answer" => say_answer(alloc, rest, into),
        "guard" => say_guarded(alloc, rest, into),
        "bounds" => say_bounds(alloc, into),
        "read-bytes" | "decode" | "atom" | "binary" | "character" | "file" => {
            match hex::decode(alloc, rest) {
                Ok(bytes) => answer_to_bytes(alloc, word, bytes.as_slice(), into),
                Err(_) => say(b"not hexadecimal", into),
            }
        }
        _ => match terms_in(alloc, rest) {
            Some(terms) => answer_to_terms(alloc, word, terms.as_slice(), into),
            None => say(b"no terms", into),
        },
    }
}

// What a specification with this guard alone makes of an object with '$1' and '$2'.
fn say_guarded(alloc: Global, guard: &[u8], into: &mut Vec<u8>) {
    let mut text = Vec::new(alloc);
    say(b"[{{'$1','$2'},[", &mut text);
    say(guard, &mut text);
    say(b"],[true]}] {[1|2],<<7,8,9>>}", &mut text);
    match terms_in(alloc, text.as_slice()) {
        Some(terms) => answer_to_terms(alloc, "apply", terms.as_slice(), into),
        None => say(b"no terms", into),
    }
}

fn answer_to_bytes(alloc: Global, word: &str, bytes: &[u8], into: &mut Vec<u8>) {
    match word {
        "read-bytes" => say_read(alloc, bytes, into),
        "decode" => say_decoded(alloc, bytes, into),
        "atom" => say_atom(alloc, bytes, into),
        "binary" => say_binary(alloc, bytes, into),
        "character" => say_character(alloc, bytes, into),
        _ => say_file(alloc, bytes, into),
    }
}

fn answer_to_terms(alloc: Global, word: &str, terms: &[Term], into: &mut Vec<u8>) {
    match (word, terms) {
        ("encode", [term]) => say_encoded(alloc, term, into),
        ("length", [term]) => say_length(alloc, term, into),
        ("order", [a, b]) => say_order(alloc, a, b, into),
        ("ascending", terms) => say_ascending(alloc, terms, into),
        ("cons", [head, tail]) => say_cell(alloc, head, tail, into),
        ("compile", [spec]) => say_compiled(alloc, spec, into),
        ("apply", [spec, object]) => say_applied(alloc, spec, object, into),
        ("match", [spec, object]) => say_matched(alloc, spec, object, into),
        ("table", objects) => say_table(alloc, objects, into),
        (_, [count, rest @ ..]) => match number(count) {
            Some(count) if count > 0 => answer_with_number(alloc, word, count, rest, into),
            _ => say(b"no call", into),
        },
        _ => say(b"no call", into),
    }
}

// What a call answers whose first argument is a number, which is at least 1.
fn answer_with_number(alloc: Global, word: &str, count: u32, terms: &[Term], into: &mut Vec<u8>)
    requires { 1 ≤ count }
{
    match (word, terms) {
        ("tuple", [item]) => say_tuple(alloc, count, item, into),
        ("parts", [object]) => say_parts(alloc, count, object, into),
        ("count", [object, operations]) => say_counted(alloc, count, object, operations, into),
        ("set", [object, pos, value]) => match (pos.kind(), value.kind()) {
            (Kind::Int(pos), Kind::Int(value)) => {
                say_replaced(alloc, count, object, pos, Some(value), into);
            }
            (Kind::Int(pos), Kind::Nil) => say_replaced(alloc, count, object, pos, None, into),
            _ => say(b"no position, or no value", into),
        },
        ("plan", [spec]) => say_plan(alloc, count, spec, into),
        ("client", []) => say_client(alloc, count, into),
        ("generate", [seed, lines, from]) => match (number(seed), number(lines), number(from)) {
            (Some(seed), Some(lines), Some(from)) => {
                say_generated(alloc, seed, count, lines, from, into);
            }
            _ => say(b"no numbers", into),
        },
        _ => say(b"no call", into),
    }
}
