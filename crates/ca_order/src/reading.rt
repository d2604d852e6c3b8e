//! The term of a byte code.
ghost use Rattle.std.specs.Prelude.{◌≡◌, ◌≢◌, ◌≤◌, ◌<◌, ◌∷◌, ◌++◌, ◌+◌, slice_index, length, IfOk, IfErr, IsErr, MatchOption, MatchResult};
ghost use Rattle.ca_term.specs.declared.bounds.TheConstants.{MOST_DEPTH, MOST_ELEMENTS};
ghost use Rattle.ca_term.specs.Code.{code_of, four_bytes};
ghost use Rattle.ca_term.specs.Levels.{HasTerm, HasRow};
ghost use Rattle.ca_order.specs.IntTag.{first_byte};
ghost use Rattle.ca_order.specs.Languages.{IsTermCode, HasDigits, HasTuple, HasSize, most_elements};
ghost use Rattle.ca_order.specs.Reads.{IsReadFault, IsDecodeFault, BeginsWithTerm, BeginsWithRow};

use crate::atoms::read_atom;
use crate::binaries::read_binary;
use crate::digits::read_digits;
use crate::fault::{DecodeFault, ReadFault, stuck};
use crate::tags::{ATOM, BINARY, CONS, NIL, TUPLE};
use ca_term::{MOST_DEPTH, MOST_ELEMENTS, Term, Terms, int, list, nil, tuple};
use std::alloc::Global;

/// The term whose byte code these bytes are.
///
/// It takes memory only for what it has read, but room for the elements of a tuple at once, no more than bytes are left; and no input makes it
/// nest deeper than `MOST_DEPTH` calls of itself.
pub fn decode(alloc: Global, code: &[u8]) -> Result<Term, DecodeFault>
    ensures ok { IfOk result (λ t. code.now ≡ code_of t) }
    ensures refused { (IsTermCode code.now → ⊥) → IsErr result }
    ensures fault { IfErr result (λ e. IsDecodeFault code.now e) }
{
    match read_term(alloc, code, MOST_DEPTH) {
        Ok((term, rest)) => {
            if rest.is_empty() {
                Ok(term)
            } else {
                Err(DecodeFault::NotACode {
                    at: code.len() - rest.len(),
                })
            }
        }
        Err(ReadFault::Stuck { left }) => Err(DecodeFault::NotACode {
            at: code.len() - left,
        }),
        Err(ReadFault::NoMemory) => Err(DecodeFault::NoMemory),
    }
}

// The term whose code these bytes begin with, of at most so many levels, and the bytes behind it.
#[cycle(read)]
#[inline(always)]
fn read_term(alloc: Global, bytes: &[u8], levels: u8) -> Result<(Term, &[u8]), ReadFault>
    requires least { 1 ≤ levels }
    requires most { levels ≤ MOST_DEPTH }
    ensures { MatchResult result (λ p. BeginsWithTerm levels bytes.now p.0 p.1.now) (λ e. IsReadFault (HasTerm levels) bytes.now e) }
{
    let None = inside_cell(bytes, levels) else {
        return read_list(alloc, bytes, levels);
    };
    read_last(alloc, bytes, levels)
}

// The list whose code these bytes begin with, of at most so many levels, and the bytes behind it.
//
// It goes along the tail in a loop: a list may be longer than the stack is deep.
#[cycle(read)]
#[inline(never)]
fn read_list(alloc: Global, bytes: &[u8], levels: u8) -> Result<(Term, &[u8]), ReadFault>
    requires least { 1 ≤ levels }
    requires most { levels ≤ MOST_DEPTH }
    ensures { MatchResult result (λ p. BeginsWithTerm levels bytes.now p.0 p.1.now) (λ e. IsReadFault (HasTerm levels) bytes.now e) }
{
    let mut heads = Terms::new(alloc);
    let mut rest = bytes;
    while let Some(inside) = inside_cell(rest, levels) {
        let (head, behind) = read_term(alloc, inside, levels - 1)?;
        heads.push(head)?;
        rest = behind;
    }
    let (last, behind) = read_last(alloc, rest, levels)?;
    Ok((list(alloc, heads, last)?, behind))
}

// The bytes behind the first byte of a list cell, where the levels allow one.
fn inside_cell(bytes: &[u8], levels: u8) -> Option<&[u8]>
    ensures { MatchOption result (2 ≤ levels → slice_index bytes.now 0 ≢ 0x70) (λ inside. (2 ≤ levels) × (bytes.now ≡ 0x70 ∷ inside.now)) }
{
    match bytes.split_first() {
        Some((&CONS, inside)) if levels >= 2 => Some(inside),
        _ => None,
    }
}

// The term whose code these bytes begin with, where it is no list cell.
#[cycle(read)]
#[inline(always)]
fn read_last(alloc: Global, bytes: &[u8], levels: u8) -> Result<(Term, &[u8]), ReadFault>
    requires least { 1 ≤ levels }
    requires most { levels ≤ MOST_DEPTH }
    requires no_cell { 2 ≤ levels → slice_index bytes.now 0 ≢ 0x70 }
    ensures { MatchResult result (λ p. BeginsWithTerm levels bytes.now p.0 p.1.now) (λ e. IsReadFault (HasTerm levels) bytes.now e) }
{
    let Some((tag, inside)) = bytes.split_first() else {
        return Err(stuck(bytes));
    };
    match *tag {
        0x17..=0x1f => read_integer(inside, 0x1f - *tag, true),
        0x20..=0x28 => read_integer(inside, *tag - 0x20, false),
        ATOM => read_atom(alloc, inside),
        TUPLE => read_tuple(alloc, inside, levels - 1),
        NIL => Ok((nil(), inside)),
        BINARY => read_binary(alloc, inside),
        _ => Err(stuck(bytes)),
    }
}

// The integer whose digits these bytes begin with, so many and complemented for a negative one, and the bytes behind them.
#[inline(always)]
fn read_integer(bytes: &[u8], len: u8, negative: bool) -> Result<(Term, &[u8]), ReadFault>
    requires { len ≤ 8 }
    ensures { MatchResult result (λ p. BeginsWithTerm 1 (first_byte negative len ∷ bytes.now) p.0 p.1.now)
        (λ e. IsReadFault (HasDigits negative len) bytes.now e) }
{
    let (number, rest) = read_digits(bytes, len, negative)?;
    match negative {
        true => Ok((int(-1 - number as i64), rest)),
        false => Ok((int(number as i64), rest)),
    }
}

// The tuple whose size and elements these bytes begin with, its elements of at most so many levels.
#[cycle(read)]
#[inline(never)]
fn read_tuple(alloc: Global, bytes: &[u8], levels: u8) -> Result<(Term, &[u8]), ReadFault>
    requires { levels < MOST_DEPTH }
    ensures { MatchResult result (λ p. BeginsWithTerm (levels + 1) (0x40 ∷ bytes.now) p.0 p.1.now) (λ e. IsReadFault (HasTuple levels) bytes.now e) }
{
    let (count, inside) = read_size(bytes, most_elements(levels))?;
    let (items, rest) = read_items(alloc, inside, count, levels)?;
    Ok((tuple(items)?, rest))
}

// How many elements a tuple may have whose elements have at most so many levels.
fn most_elements(levels: u8) -> usize
    ensures { result ≡ most_elements levels }
{
    if levels == 0 { 0 } else { MOST_ELEMENTS }
}

// The size of at most `most` that these bytes begin with, in four bytes.
fn read_size(bytes: &[u8], most: usize) -> Result<(usize, &[u8]), ReadFault>
    requires { most ≤ MOST_ELEMENTS }
    ensures { MatchResult result (λ p. (p.0 ≤ most) × (bytes.now ≡ four_bytes p.0 ++ p.1.now)) (λ e. IsReadFault (HasSize 3 most) bytes.now e) }
{
    let mut rest = bytes;
    for _ in 0..3_usize {
        rest = read_byte(rest, 0)?.1;
    }
    read_byte(rest, most)
}

// The byte of at most `most` that these bytes begin with.
fn read_byte(bytes: &[u8], most: usize) -> Result<(usize, &[u8]), ReadFault>
    ensures { MatchResult result (λ p. (p.0 ≤ most) × (bytes.now ≡ p.0 ∷ p.1.now)) (λ e. IsReadFault (HasSize 0 most) bytes.now e) }
{
    let Some((byte, rest)) = bytes.split_first() else {
        return Err(stuck(bytes));
    };
    let number = usize::from(*byte);
    if number > most {
        return Err(stuck(bytes));
    }
    Ok((number, rest))
}

// The terms whose codes these bytes begin with, so many and of at most so many levels.
#[cycle(read)]
#[inline(always)]
fn read_items(
    alloc: Global,
    bytes: &[u8],
    count: usize,
    levels: u8,
) -> Result<(Terms, &[u8]), ReadFault>
    requires levels { levels < MOST_DEPTH }
    requires count { count ≤ most_elements levels }
    ensures { MatchResult result (λ p. BeginsWithRow levels count bytes.now p.0.items p.1.now) (λ e. IsReadFault (HasRow levels count) bytes.now e) }
{
    let mut items = Terms::new(alloc);
    // An element has one byte at least.
    items.reserve(count.min(bytes.len()))?;
    let mut rest = bytes;
    for _ in 0..count {
        let (item, behind) = read_term(alloc, rest, levels)?;
        items.push(item)?;
        rest = behind;
    }
    Ok((items, rest))
}
