//! Atoms in quotes, strings and binaries.
ghost use Rattle.std.specs.Prelude.{◌≡◌, ◌≤◌, ◌<◌, ◌^◌, ◌++◌, true, pos, string_bytes, length, IfOk, IfErr};
ghost use Rattle.std.specs.List.{list_all};
ghost use Rattle.std.specs.Str.{all_scalars, encode_utf8_all};
ghost use Rattle.ca_text.specs.Grammar.{points};
ghost use Rattle.ca_text.specs.Inner.Reading.{Gives, string_at, quoted_at, one_byte_at, segment_at, after_segment_at, segment_step, series_at, bytes_at, points_at, string_points_at, is_point, most_point, most_shown};

use crate::character::{begins_character, characters};
use crate::fault::{Stop, Why, fault_at, syntax_at};
use crate::scan::{expect, number, skip};
use ca_term::{Term, atom, cons, int, nil};
use std::alloc::{AllocError, Global};

const MOST_POINT: u32 = 0x10ffff;

const MOST_SHOWN: u32 = 127;

// The text of these code points.
#[tactic(auto, using(crate::proofs::Texts::scalar_at, crate::proofs::Texts::encode_more))]
fn text_of(alloc: Global, points: &[u32]) -> Result<String, AllocError>
    requires { all_scalars points.now ≡ true }
    ensures { IfOk result (λ s. string_bytes s ≡ encode_utf8_all points.now) }
{
    let mut text = String::new(alloc);
    for point in points {
        let Some(c) = char::from_u32(*point) else {
            unreachable!();
        };
        text.push(c)?;
    }
    Ok(text)
}

// An atom of at most `most` code points, behind the first quote.
pub(crate) fn quoted_atom(alloc: Global, most: usize, bytes: &[u8]) -> Result<(Term, &[u8]), Stop>
    ensures { Gives (λ x. (x.0, x.1.now)) result (quoted_at most bytes.now) }
{
    let (points, rest) = characters(alloc, Why::AtomTooLong, b'\'', MOST_POINT, most, bytes)?;
    let text = text_of(alloc, points.as_slice())?;
    Ok((atom(alloc, text.as_str())?, rest))
}

// The characters of a string, behind the first quote.
fn string(alloc: Global, most: u32, bytes: &[u8]) -> Result<(Vec<u32>, &[u8]), Stop>
    requires { most < 2 ^ 21 }
    ensures { Gives (λ x. (x.0.items, x.1.now)) result (string_at most bytes.now) }
{
    characters(alloc, Why::Syntax, b'"', most, bytes.len(), bytes)
}

// The bytes of these code points of ASCII.
#[tactic(auto, using(crate::proofs::Characters::points_low))]
fn bytes_of(alloc: Global, points: &[u32]) -> Result<Vec<u8>, AllocError>
    requires { list_all (is_point most_shown) points.now ≡ true }
    ensures { IfOk result (λ v. v.items ≡ points.now) }
{
    let mut bytes = Vec::with_capacity(alloc, points.len())?;
    for point in points {
        bytes.push(*point as u8)?;
    }
    Ok(bytes)
}

// A part of a binary.
#[tactic(auto, unfolding(crate::specs::Inner::Reading::segment_at))]
fn segment(alloc: Global, bytes: &[u8]) -> Result<(Vec<u8>, &[u8]), Stop>
    ensures { Gives (λ x. (x.0.items, x.1.now)) result (segment_at bytes.now) }
{
    match bytes {
        [b'"', rest @ ..] => shown(alloc, rest),
        _ => one_byte(alloc, bytes),
    }
}

fn shown(alloc: Global, bytes: &[u8]) -> Result<(Vec<u8>, &[u8]), Stop>
    ensures { Gives (λ x. (x.0.items, x.1.now)) result (string_at most_shown bytes.now) }
{
    let (points, rest) = string(alloc, MOST_SHOWN, bytes)?;
    Ok((bytes_of(alloc, points.as_slice())?, rest))
}

fn one_byte(alloc: Global, bytes: &[u8]) -> Result<(Vec<u8>, &[u8]), Stop>
    ensures { Gives (λ x. (x.0.items, x.1.now)) result (one_byte_at bytes.now) }
{
    let (value, rest) = number(u64::from(u8::MAX), bytes)?;
    Ok(([value as u8].to_vec(alloc)?, rest))
}

// What follows a segment: a comma, which is true, or the closing brackets.
#[tactic(auto, unfolding(crate::specs::Inner::Reading::after_segment_at))]
fn after_segment(bytes: &[u8]) -> Result<(bool, &[u8]), Stop>
    ensures { Gives (λ x. (x.0, x.1.now)) result (after_segment_at bytes.now) }
{
    match bytes {
        [b',', rest @ ..] => Ok((true, skip(rest))),
        [b'>', rest @ ..] => Ok((false, expect(b'>', rest)?)),
        _ => Err(syntax_at(bytes)),
    }
}

// A segment, and whether a further one follows it.
#[tactic(auto, unfolding(crate::specs::Inner::Reading::segment_step))]
fn segment_step(alloc: Global, n: usize, bytes: &[u8]) -> Result<((Vec<u8>, bool), &[u8]), Stop>
    ensures { Gives (λ x. ((x.0.0.items, x.0.1), x.1.now)) result (segment_step n bytes.now) }
{
    let (part, rest) = segment(alloc, bytes)?;
    let (more, rest) = after_segment(skip(rest))?;
    Ok(((part, more), rest))
}

// Segments up to the closing brackets. There are no more segments than bytes.
fn segments(alloc: Global, text: &[u8]) -> Result<(Vec<u8>, &[u8]), Stop>
    ensures { Gives (λ x. (x.0.items, x.1.now)) result (series_at segment_step (length text.now) text.now) }
{
    let mut bytes = Vec::new(alloc);
    let mut rest = text;
    for i in 0..text.len() {
        let ((part, more), after) = segment_step(alloc, text.len() - (i + 1), rest)?;
        bytes.extend_from_slice(part.as_slice())?;
        if !more {
            return Ok((bytes, after));
        }
        rest = after;
    }
    Err(syntax_at(rest))
}

// A binary, behind its opening brackets and the blanks there.
#[tactic(auto, unfolding(crate::specs::Inner::Reading::bytes_at))]
pub(crate) fn binary_bytes(alloc: Global, bytes: &[u8]) -> Result<(Vec<u8>, &[u8]), Stop>
    ensures { Gives (λ x. (x.0.items, x.1.now)) result (bytes_at bytes.now) }
{
    match bytes {
        [b'>', rest @ ..] => Ok((Vec::new(alloc), expect(b'>', rest)?)),
        [_, ..] => segments(alloc, bytes),
        [] => Err(syntax_at(bytes)),
    }
}

// The list of these code points.
fn list_of(alloc: Global, codes: &[u32]) -> Result<Term, Stop>
    ensures ok { IfOk result (λ t. t ≡ points codes.now) }
    ensures causes { IfErr result (λ e. e ≡ Stop.NoMemory) }
{
    let mut list = nil();
    let mut left = codes.len();
    while left > 0 {
        left -= 1;
        list = cons(alloc, int(i64::from(codes[left])), list)?;
    }
    Ok(list)
}

// A string, behind its first quote, so many levels above its code points.
#[tactic(auto, unfolding(crate::specs::Inner::Reading::points_at))]
pub(crate) fn string_term(alloc: Global, levels: u8, bytes: &[u8]) -> Result<(Term, &[u8]), Stop>
    ensures { Gives (λ x. (x.0, x.1.now)) result (points_at levels bytes.now) }
{
    if levels > 0 {
        return string_list(alloc, bytes);
    }
    match bytes {
        [b'"', rest @ ..] => Ok((nil(), rest)),
        [first, ..] if begins_character(b'"', MOST_POINT, *first) => {
            Err(fault_at(Why::TooDeep, bytes))
        }
        _ => Err(syntax_at(bytes)),
    }
}

fn string_list(alloc: Global, bytes: &[u8]) -> Result<(Term, &[u8]), Stop>
    ensures { Gives (λ x. (x.0, x.1.now)) result (string_points_at bytes.now) }
{
    let (points, rest) = string(alloc, MOST_POINT, bytes)?;
    Ok((list_of(alloc, points.as_slice())?, rest))
}
