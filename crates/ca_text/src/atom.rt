//! The text of atoms.
ghost use Rattle.std.specs.Prelude.{◌≡◌, ◌++◌, ◌<◌, false, flat_map, chars, OnOk};
ghost use Rattle.std.specs.Fmt.{digit_glyph, digits};
ghost use Rattle.std.specs.List.{list_all};
ghost use Rattle.ca_text.specs.Text.{atom_text, code_escape, escaped_char, has_plain_form, is_name_char, is_reserved};
ghost use Rattle.ca_text.specs.Written.{BeginsWith};

use crate::writer::put;
use std::alloc::AllocError;

const RESERVED: [&str; 29] = [
    "after", "and", "andalso", "band", "begin", "bnot", "bor", "bsl", "bsr", "bxor", "case",
    "catch", "cond", "div", "else", "end", "fun", "if", "let", "maybe", "not", "of", "or",
    "orelse", "receive", "rem", "try", "when", "xor",
];

/// Whether a text is a reserved word, which an atom shows in quotes.
pub fn is_reserved(text: &str) -> bool
    ensures { result ≡ is_reserved text.now }
{
    RESERVED.contains(&text)
}

pub(crate) fn is_name_char(c: u8) -> bool
    ensures { result ≡ is_name_char c }
{
    c.is_ascii_alphanumeric() || c == b'_' || c == b'@'
}

fn are_name_chars(text: &[u8]) -> bool
    ensures { result ≡ list_all is_name_char text.now }
{
    text.iter().all(|c| is_name_char(*c))
}

fn has_plain_form(text: &[u8]) -> bool
    ensures { result ≡ has_plain_form text.now }
{
    match text.split_first() {
        None => false,
        Some((first, others)) => first.is_ascii_lowercase() && are_name_chars(others),
    }
}

#[tactic(auto, unfolding(crate::specs::Text::escaped_char))]
fn put_character(c: char, into: &mut Vec<u8>) -> Result<(), AllocError>
    ensures ok { OnOk result (into.new.items ≡ into.old.items ++ escaped_char c) }
    ensures front { BeginsWith into.new.items into.old.items }
{
    match c {
        '\\' => put(b"\\\\", into),
        '\'' => put(b"\\'", into),
        '\n' => put(b"\\n", into),
        '\r' => put(b"\\r", into),
        '\t' => put(b"\\t", into),
        c if c.is_control() => put_code(c as u32 as u8, into),
        c => put(c.encode_utf8(&mut [0; 4]).as_bytes(), into),
    }
}

fn hex_digit(digit: u8) -> u8
    requires { digit < 16 }
    ensures { result ≡ digit_glyph false digit }
{
    if digit < 10 {
        b'0' + digit
    } else {
        b'a' + (digit - 10)
    }
}

#[tactic(auto, using(std::proofs::lemmas::Fmt::hex_one_digit, std::proofs::lemmas::Fmt::hex_two_digits))]
fn put_hex(n: u8, into: &mut Vec<u8>) -> Result<(), AllocError>
    ensures ok { OnOk result (into.new.items ≡ into.old.items ++ digits 16 false n) }
    ensures front { BeginsWith into.new.items into.old.items }
{
    if n < 16 {
        return put(&[hex_digit(n)], into);
    }
    put(&[hex_digit(n / 16), hex_digit(n % 16)], into)
}

fn put_code(code: u8, into: &mut Vec<u8>) -> Result<(), AllocError>
    ensures ok { OnOk result (into.new.items ≡ into.old.items ++ code_escape code) }
    ensures front { BeginsWith into.new.items into.old.items }
{
    put(b"\\x{", into)?;
    put_hex(code, into)?;
    put(b"}", into)
}

#[tactic(auto, using(crate::proofs::Fronts::begins_more))]
fn put_characters(text: &str, into: &mut Vec<u8>) -> Result<(), AllocError>
    ensures ok { OnOk result (into.new.items ≡ into.old.items ++ flat_map escaped_char (chars text.now)) }
    ensures front { BeginsWith into.new.items into.old.items }
{
    for c in text.chars() {
        put_character(c, into)?;
    }
    Ok(())
}

/// Appends the text of an atom: as it is where it has the plain form and is no reserved word, else in quotes.
#[tactic(auto, unfolding(crate::specs::Text::atom_text, crate::specs::Text::quoted))]
pub fn put_atom(text: &str, into: &mut Vec<u8>) -> Result<(), AllocError>
    ensures ok { OnOk result (into.new.items ≡ into.old.items ++ atom_text text.now) }
    ensures front { BeginsWith into.new.items into.old.items }
{
    if has_plain_form(text.as_bytes()) && !is_reserved(text) {
        return put(text.as_bytes(), into);
    }
    put(b"'", into)?;
    put_characters(text, into)?;
    put(b"'", into)
}
