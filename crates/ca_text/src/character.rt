//! Code points between quotes.
ghost use Rattle.std.specs.Prelude.{◌≡◌, ◌≤◌, ◌<◌, true, false, ◌^◌, length, IfOk};
ghost use Rattle.std.specs.Char.{digit_value, is_ascii_hexdigit};
ghost use Rattle.ca_text.specs.Grammar.{escape_of};
ghost use Rattle.ca_text.specs.Inner.Reading.{Gives, point_at, hex_after, hex_at, escape_at, character_at, next_point_at, closing_at, begins_character, characters_at, is_point, may_stand};

use crate::fault::{Stop, Why, fault_at, syntax_at};
use crate::scan::expect;
use std::alloc::Global;

// A code point in UTF-8: the shortest form, no surrogate, at most 10FFFF.
#[tactic(auto, using(crate::proofs::Points::point_read, crate::proofs::Points::point_refused))]
fn point(bytes: &[u8]) -> Result<(u32, &[u8]), Stop>
    ensures { Gives (λ x. (x.0, x.1.now)) result (point_at bytes.now) }
{
    match ca_term::character(bytes) {
        Ok((c, rest)) => Ok((u32::from(c), rest)),
        Err(at) => Err(syntax_at(bytes.split_at(at).1)),
    }
}

fn is_point(most: u32, value: u32) -> bool
    ensures { result ≡ is_point most value }
{
    value <= most && char::from_u32(value).is_some()
}

fn hex_value(digit: u8) -> u32
    requires { is_ascii_hexdigit digit ≡ true }
    ensures value { result ≡ digit_value digit }
    ensures small { result < 16 }
{
    let Some(value) = char::from(digit).to_digit(16) else {
        unreachable!();
    };
    value
}

// Hexadecimal digits and `}`.
#[tactic(auto, unfolding(crate::specs::Inner::Reading::hex_at))]
fn hex(most: u32, bytes: &[u8]) -> Result<(u32, &[u8]), Stop>
    requires { most < 2 ^ 21 }
    ensures { Gives (λ x. (x.0, x.1.now)) result (hex_at most bytes.now) }
{
    match bytes {
        [first, rest @ ..] if first.is_ascii_hexdigit() => {
            more_hex(most, 5, hex_value(*first), rest)
        }
        _ => Err(syntax_at(bytes)),
    }
}

fn may_stand(most: u32, more: u8, value: u32) -> bool
    ensures { result ≡ may_stand most more value }
{
    value <= most && (more > 0 || is_point(most, value))
}

// At most `more` further digits, with the digits before these worth `value`.
#[tactic(auto, unfolding(crate::specs::Inner::Reading::hex_after))]
fn more_hex(most: u32, more: u8, value: u32, bytes: &[u8]) -> Result<(u32, &[u8]), Stop>
    requires low { most < 2 ^ 21 }
    requires before { value < 2 ^ 21 }
    ensures { Gives (λ x. (x.0, x.1.now)) result (hex_after most more value bytes.now) }
{
    match bytes {
        [digit, rest @ ..] if digit.is_ascii_hexdigit() && more > 0 => {
            let next = value * 16 + hex_value(*digit);
            if !may_stand(most, more - 1, next) {
                return Err(syntax_at(bytes));
            }
            more_hex(most, more - 1, next, rest)
        }
        [b'}', rest @ ..] if is_point(most, value) => Ok((value, rest)),
        _ => Err(syntax_at(bytes)),
    }
}

// What a letter after a backslash stands for.
fn escape_of(letter: u8) -> Option<u32>
    ensures { result ≡ escape_of letter }
{
    match letter {
        b'\\' | b'\'' | b'"' => Some(u32::from(letter)),
        b'n' => Some(10),
        b'r' => Some(13),
        b't' => Some(9),
        b's' => Some(32),
        _ => None,
    }
}

// What stands after a backslash.
#[tactic(auto, unfolding(crate::specs::Inner::Reading::escape_at))]
fn escape(most: u32, bytes: &[u8]) -> Result<(u32, &[u8]), Stop>
    requires { most < 2 ^ 21 }
    ensures { Gives (λ x. (x.0, x.1.now)) result (escape_at most bytes.now) }
{
    match bytes {
        [b'x', rest @ ..] => hex(most, expect(b'{', rest)?),
        [letter, rest @ ..] => match escape_of(*letter) {
            Some(point) => Ok((point, rest)),
            None => Err(syntax_at(bytes)),
        },
        [] => Err(syntax_at(bytes)),
    }
}

// Whether a byte begins a code point of at most `most`, as it is or after a backslash.
pub(crate) fn begins_character(close: u8, most: u32, byte: u8) -> bool
    ensures { result ≡ begins_character close most byte }
{
    byte != close && byte != b'\n' && (byte < 128 || (most > 127 && matches!(byte, 0xc2..0xf5)))
}

// A code point of at most `most` before the closing quote.
#[tactic(auto, unfolding(crate::specs::Inner::Reading::character_at))]
pub(crate) fn character(close: u8, most: u32, bytes: &[u8]) -> Result<(u32, &[u8]), Stop>
    requires { most < 2 ^ 21 }
    ensures { Gives (λ x. (x.0, x.1.now)) result (character_at close most bytes.now) }
{
    match bytes {
        [b'\\', rest @ ..] => escape(most, rest),
        [first, ..] if begins_character(close, most, *first) => point(bytes),
        _ => Err(syntax_at(bytes)),
    }
}

// The next code point, or None at the closing quote.
#[tactic(auto, unfolding(crate::specs::Inner::Reading::next_point_at))]
fn next_point(close: u8, most: u32, bytes: &[u8]) -> Result<(Option<u32>, &[u8]), Stop>
    requires { most < 2 ^ 21 }
    ensures { Gives (λ x. (x.0, x.1.now)) result (next_point_at close most bytes.now) }
{
    match bytes {
        [first, rest @ ..] if *first == close => Ok((None, rest)),
        [_, ..] => {
            let (point, rest) = character(close, most, bytes)?;
            Ok((Some(point), rest))
        }
        [] => Err(syntax_at(bytes)),
    }
}

// The bytes after the closing quote. A further code point is the fault `over`.
#[tactic(auto, unfolding(crate::specs::Inner::Reading::closing_at))]
fn closing(over: Why, close: u8, most: u32, bytes: &[u8]) -> Result<&[u8], Stop>
    ensures { Gives (λ rest. rest.now) result (closing_at over close most bytes.now) }
{
    match bytes {
        [first, rest @ ..] if *first == close => Ok(rest),
        [first, ..] if begins_character(close, most, *first) => Err(fault_at(over, bytes)),
        _ => Err(syntax_at(bytes)),
    }
}

// Code points up to the closing quote, at most `limit`. A further one is the fault `over`.
pub(crate) fn characters(
    alloc: Global,
    over: Why,
    close: u8,
    most: u32,
    limit: usize,
    bytes: &[u8],
) -> Result<(Vec<u32>, &[u8]), Stop>
    requires { most < 2 ^ 21 }
    ensures { Gives (λ x. (x.0.items, x.1.now)) result (characters_at over close most limit bytes.now) }
{
    let mut points = Vec::new(alloc);
    let mut rest = bytes;
    for _ in 0..limit {
        let (next, after) = next_point(close, most, rest)?;
        let Some(point) = next else {
            return Ok((points, after));
        };
        points.push(point)?;
        rest = after;
    }
    let after = closing(over, close, most, rest)?;
    Ok((points, after))
}
