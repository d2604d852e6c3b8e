//! The parts of an object's code.
ghost use Rattle.std.specs.Prelude.{◌≡◌, ◌≤◌, ◌<◌, ◌+◌, ◌++◌, ◌∷◌, ℕ, List, length, MatchOption};
ghost use Rattle.ca_term.specs.declared.bounds.TheConstants.{MOST_ELEMENTS};
ghost use Rattle.ca_term.specs.Code.{code_of, escaped, four_bytes};
ghost use Rattle.ca_term.specs.Tree.{Tree, IsTerm};
ghost use Rattle.ca_order.specs.KeyParts.{IsKeyParts, IsNoObject, IsSplit, HasCodes};
ghost use Rattle.ca_order.specs.Languages.{IsTermCode};

use crate::binaries::{read_escaped, run_to_end, short_run_to_end};
use crate::tags::{ATOM, BINARY, CONS, NIL, TUPLE};

/// Where the code of a tuple's element `keypos`, counted from 1, stands in the tuple's code: its start and its end in bytes.
/// `None` where the code is no tuple's, or the tuple has fewer elements. It takes no memory.
pub fn object_parts(code: &[u8], keypos: u32) -> Option<(usize, usize)>
    requires code { IsTermCode code.now }
    requires keypos { 1 ≤ keypos }
    ensures { (t : Tree) → IsTerm t → code.now ≡ code_of t → IsKeyParts t keypos result }
{
    let (size, elements) = split_object(code)?;
    let before = keypos as usize - 1;
    if size <= before {
        return None;
    }
    let key = skip(elements, before);
    let behind = skip(key, 1);
    Some((code.len() - key.len(), code.len() - behind.len()))
}

// The size of the tuple whose code this is, and the codes of its elements. None where it is the code of no tuple.
fn split_object(code: &[u8]) -> Option<(usize, &[u8])>
    requires { IsTermCode code.now }
    ensures { MatchOption result (IsNoObject code.now) (λ p. IsSplit code.now p.0 p.1.now) }
{
    let (tag, inside) = code.split_first()?;
    if *tag != TUPLE {
        return None;
    }
    Some(split_size(inside))
}

// The bytes behind so many codes.
pub(crate) fn skip(bytes: &[u8], count: usize) -> &[u8]
    requires { (end : List ℕ) × HasCodes count bytes.now end }
    ensures rest { (end : List ℕ) → HasCodes count bytes.now end → result.now ≡ end }
    ensures shorter { length result.now ≤ length bytes.now }
{
    let mut rest = bytes;
    let mut pending = count;
    while pending > 0 {
        let (opened, behind) = skip_tag(rest);
        rest = behind;
        pending = pending - 1 + opened;
    }
    rest
}

// The bytes behind the first code. What has no codes inside is skipped without a loop.
#[inline(always)]
pub(crate) fn skip_one(bytes: &[u8]) -> &[u8]
    requires { (end : List ℕ) × HasCodes 1 bytes.now end }
    ensures rest { (end : List ℕ) → HasCodes 1 bytes.now end → result.now ≡ end }
    ensures shorter { length result.now ≤ length bytes.now }
{
    let (opened, behind) = skip_tag(bytes);
    if opened == 0 {
        return behind;
    }
    skip(behind, opened)
}

// How many codes stand inside the code that these bytes begin with, and the bytes that begin with them.
#[inline(always)]
fn skip_tag(bytes: &[u8]) -> (usize, &[u8])
    requires { (n : ℕ) × (end : List ℕ) × HasCodes (n + 1) bytes.now end }
    ensures codes { (n : ℕ) (end : List ℕ) → HasCodes (n + 1) bytes.now end → HasCodes (n + result.0) result.1.now end }
    ensures shorter { length result.1.now < length bytes.now }
{
    let Some((tag, inside)) = bytes.split_first() else {
        unreachable!()
    };
    match *tag {
        ATOM => (0, skip_escaped(inside)),
        BINARY => (0, skip_escaped(inside)),
        TUPLE => split_size(inside),
        NIL => (0, inside),
        CONS => (2, inside),
        0x17..=0x1f => (0, behind(inside, 0x1f - *tag)),
        0x20..=0x28 => (0, behind(inside, *tag - 0x20)),
        _ => unreachable!(),
    }
}

// The bytes behind so many.
#[inline(always)]
fn behind(bytes: &[u8], len: u8) -> &[u8]
    requires { len ≤ length bytes.now }
    ensures rest { (xs ys : List ℕ) → length xs ≡ len → bytes.now ≡ xs ++ ys → result.now ≡ ys }
    ensures shorter { length result.now ≤ length bytes.now }
{
    bytes.split_at(usize::from(len)).1
}

// The number in the first four bytes, and the bytes behind them.
#[inline(always)]
pub(crate) fn split_size(bytes: &[u8]) -> (usize, &[u8])
    requires { (n : ℕ) × (rest : List ℕ) × (n ≤ MOST_ELEMENTS) × (bytes.now ≡ four_bytes n ++ rest) }
    ensures size { (n : ℕ) (rest : List ℕ) → n ≤ MOST_ELEMENTS → bytes.now ≡ four_bytes n ++ rest → (result.0 ≡ n) × (result.1.now ≡ rest) }
    ensures shorter { length result.1.now ≤ length bytes.now }
{
    let (size, rest) = bytes.split_at(4);
    (usize::from(size[3]), rest)
}

// The bytes behind escaped ones and their end.
#[inline(always)]
fn skip_escaped(bytes: &[u8]) -> &[u8]
    requires { (inside : List ℕ) × (end : List ℕ) × (bytes.now ≡ escaped inside ++ end) }
    ensures rest { (inside end : List ℕ) → bytes.now ≡ escaped inside ++ end → result.now ≡ end }
    ensures shorter { length result.now ≤ length bytes.now }
{
    match short_run_to_end(bytes) {
        Some((_, rest)) => rest,
        None => skip_long_escaped(bytes),
    }
}

// The same, where they may be many. The end is looked for once where no zero byte is among them.
#[inline(never)]
fn skip_long_escaped(bytes: &[u8]) -> &[u8]
    requires { (inside : List ℕ) × (end : List ℕ) × (bytes.now ≡ escaped inside ++ end) }
    ensures rest { (inside end : List ℕ) → bytes.now ≡ escaped inside ++ end → result.now ≡ end }
    ensures shorter { length result.now ≤ length bytes.now }
{
    match run_to_end(bytes) {
        Some((_, rest)) => rest,
        None => skip_any_escaped(bytes),
    }
}

// The same, where there may be zero bytes in them.
#[inline(never)]
fn skip_any_escaped(bytes: &[u8]) -> &[u8]
    requires { (inside : List ℕ) × (end : List ℕ) × (bytes.now ≡ escaped inside ++ end) }
    ensures rest { (inside end : List ℕ) → bytes.now ≡ escaped inside ++ end → result.now ≡ end }
    ensures shorter { length result.now ≤ length bytes.now }
{
    let Ok((_, rest)) = read_escaped(bytes) else {
        unreachable!()
    };
    rest
}
