//! The reader of term texts.
ghost use Rattle.std.specs.Prelude.{◌≡◌, ◌⊎◌, ◌≤◌, ◌<◌, ◌-◌, ◌+◌, List, [], ◌∷◌, ◌++◌, ℕ, length, take, Ok, IfOk, IfErr, MatchResult};
ghost use Rattle.ca_text.specs.Inner.NextView.{next_view};
ghost use Rattle.ca_text.specs.Front.{IsNotRead};
ghost use Rattle.ca_term.specs.Tree.{Tree, IsTerm, depth};
ghost use Rattle.ca_text.specs.Text.{text_of};
ghost use Rattle.ca_text.specs.Grammar.{standard, IsRead, IsText, IsWhole};
ghost use Rattle.ca_text.specs.Inner.Reading.{Gives, Fails, with_front, after_element_at, element_step, elements_at, series_at, next_at, tail_at, inner_at, closed, cell_step, cells_at, brackets_at, tuple_at, binary_at, atom_at, integer_term_at, list_at, term_at, other_at, too_deep, begins_term, bracketed, with_heads};

use crate::bounds::MOST_LEVELS;
use crate::fault::{Stop, TextFault, Why, fault_at, fault_of, syntax_at};
use crate::parts::{binary_bytes, quoted_atom, string_term};
use crate::scan::{expect, integer, name, skip};
use ca_term::{MOST_CODE_POINTS, MOST_ELEMENTS, Term, Terms, atom, bin, int, nil, tuple};
use std::alloc::Global;

// Whether a byte begins a term.
fn begins_term(byte: u8) -> bool
    ensures { result ≡ begins_term byte }
{
    matches!(byte, b'{' | b'[' | b'"' | b'\'' | b'<' | b'-' | b'0'..=b'9' | b'a'..=b'z')
}

// No term may stand here: it would be too deep.
fn too_deep(bytes: &[u8]) -> Stop
    ensures { Fails result (too_deep bytes.now) }
{
    match bytes {
        [first, ..] if begins_term(*first) => fault_at(Why::TooDeep, bytes),
        _ => syntax_at(bytes),
    }
}

// What follows an element, where there may be `n` more: a comma, which is true, or the closing brace.
#[tactic(auto, unfolding(crate::specs::Inner::Reading::after_element_at))]
fn after_element(n: usize, bytes: &[u8]) -> Result<(bool, &[u8]), Stop>
    ensures { Gives (λ x. (x.0, x.1.now)) result (after_element_at n bytes.now) }
{
    match bytes {
        [b',', ..] if n == 0 => Err(fault_at(Why::TooWide, bytes)),
        [b',', rest @ ..] => Ok((true, skip(rest))),
        [b'}', rest @ ..] => Ok((false, rest)),
        _ => Err(syntax_at(bytes)),
    }
}

// So many closing brackets, with blanks before each.
fn brackets(owed: usize, bytes: &[u8]) -> Result<&[u8], Stop>
    ensures { Gives (λ rest. rest.now) result (brackets_at owed bytes.now) }
{
    let mut rest = bytes;
    for _ in 0..owed {
        rest = expect(b']', skip(rest))?;
    }
    Ok(rest)
}

// An element of a tuple, and whether a further one follows it.
#[cycle(read)]
#[tactic(auto, unfolding(crate::specs::Inner::Reading::element_step))]
fn element_step(
    alloc: Global,
    levels: u8,
    n: usize,
    bytes: &[u8],
) -> Result<((Term, bool), &[u8]), Stop>
    ensures { Gives (λ x. ((x.0.0 ∷ [], x.0.1), x.1.now)) result (element_step (term_at standard levels) n bytes.now) }
{
    let (element, rest) = term(alloc, levels, bytes)?;
    let (more, rest) = after_element(n, skip(rest))?;
    Ok(((element, more), rest))
}

// Elements up to the closing brace.
#[cycle(read)]
fn elements(alloc: Global, levels: u8, bytes: &[u8]) -> Result<(Terms, &[u8]), Stop>
    ensures { Gives (λ x. (x.0.items, x.1.now)) result (series_at (element_step (term_at standard levels)) MOST_ELEMENTS bytes.now) }
{
    let mut items = Terms::new(alloc);
    let mut rest = bytes;
    for i in 0..MOST_ELEMENTS {
        let ((element, more), after) = element_step(alloc, levels, MOST_ELEMENTS - (i + 1), rest)?;
        items.push(element)?;
        if !more {
            return Ok((items, after));
        }
        rest = after;
    }
    Err(syntax_at(rest))
}

// A tuple, behind its opening brace and the blanks there.
#[cycle(read)]
#[tactic(auto, unfolding(crate::specs::Inner::Reading::elements_at))]
fn tuple_term(alloc: Global, levels: u8, bytes: &[u8]) -> Result<(Term, &[u8]), Stop>
    ensures { Gives (λ x. (x.0, x.1.now)) result (tuple_at (term_at standard levels) MOST_ELEMENTS bytes.now) }
{
    match bytes {
        [b'}', rest @ ..] => Ok((tuple(Terms::new(alloc))?, rest)),
        [_, ..] => {
            let (items, rest) = elements(alloc, levels, bytes)?;
            Ok((tuple(items)?, rest))
        }
        [] => Err(syntax_at(bytes)),
    }
}

// A binary, behind the first of its opening brackets.
fn binary_term(alloc: Global, bytes: &[u8]) -> Result<(Term, &[u8]), Stop>
    ensures { Gives (λ x. (x.0, x.1.now)) result (binary_at bytes.now) }
{
    let rest = expect(b'<', bytes)?;
    let (value, rest) = binary_bytes(alloc, skip(rest))?;
    Ok((bin(alloc, value.as_slice())?, rest))
}

// A plain atom.
fn plain_atom(alloc: Global, bytes: &[u8]) -> Result<(Term, &[u8]), Stop>
    ensures { Gives (λ x. (x.0, x.1.now)) result (atom_at MOST_CODE_POINTS bytes.now) }
{
    let (text, rest) = name(MOST_CODE_POINTS, bytes)?;
    let Ok(text) = str::from_utf8(text) else {
        unreachable!();
    };
    Ok((atom(alloc, text)?, rest))
}

fn integer_term(bytes: &[u8]) -> Result<(Term, &[u8]), Stop>
    ensures { Gives (λ x. (x.0, x.1.now)) result (integer_term_at bytes.now) }
{
    let (value, rest) = integer(bytes)?;
    Ok((int(value), rest))
}

// A term that isn't in brackets, so many levels above its elements.
#[cycle(read)]
#[tactic(auto, unfolding(crate::specs::Inner::Reading::other_at))]
fn other(alloc: Global, levels: u8, bytes: &[u8]) -> Result<(Term, &[u8]), Stop>
    ensures { Gives (λ x. (x.0, x.1.now)) result (other_at standard (term_at standard levels) levels bytes.now) }
{
    match bytes {
        [b'{', rest @ ..] => tuple_term(alloc, levels, skip(rest)),
        [b'"', rest @ ..] => string_term(alloc, levels, rest),
        [b'\'', rest @ ..] => quoted_atom(alloc, MOST_CODE_POINTS, rest),
        [b'<', rest @ ..] => binary_term(alloc, rest),
        [b'a'..=b'z', ..] => plain_atom(alloc, bytes),
        _ => integer_term(bytes),
    }
}

// What follows a head and blanks.
#[derive(Drop)]
enum Next<'a> {
    // At these bytes the next head begins.
    Head(&'a [u8]),
    // At these bytes the first head of the list that is the tail begins.
    Inner(&'a [u8]),
    // The last tail, and the bytes after the closing bracket.
    Last(Term, &'a [u8]),
}

// The closing bracket behind a last tail.
fn close<'a>(tail: Term, bytes: &'a [u8]) -> Result<Next<'a>, Stop>
    ensures { Gives next_view result (closed (Ok (tail, bytes.entry.now))) }
{
    let rest = expect(b']', skip(bytes))?;
    Ok(Next::Last(tail, rest))
}

// The tail after a bar, behind an opening bracket and blanks.
fn inner(bytes: &[u8]) -> Result<Next<'_>, Stop>
    ensures { Gives next_view result (inner_at bytes.now) }
{
    match bytes {
        [b']', rest @ ..] => close(nil(), rest),
        _ => Ok(Next::Inner(bytes)),
    }
}

// The tail after a bar that isn't in brackets.
#[cycle(read)]
fn last_tail(alloc: Global, levels: u8, bytes: &[u8]) -> Result<Next<'_>, Stop>
    ensures { Gives next_view result (closed (other_at standard (term_at standard levels) levels bytes.now)) }
{
    let (tail, rest) = other(alloc, levels, bytes)?;
    close(tail, rest)
}

// The tail after a bar.
#[cycle(read)]
#[tactic(auto, unfolding(crate::specs::Inner::Reading::tail_at))]
fn tail(alloc: Global, levels: u8, bytes: &[u8]) -> Result<Next<'_>, Stop>
    ensures { Gives next_view result (tail_at (other_at standard (term_at standard levels) levels) bytes.now) }
{
    match bytes {
        [b'[', rest @ ..] => inner(skip(rest)),
        _ => last_tail(alloc, levels, bytes),
    }
}

// What follows a head and blanks.
#[cycle(read)]
#[tactic(auto, unfolding(crate::specs::Inner::Reading::next_at))]
fn following(alloc: Global, levels: u8, bytes: &[u8]) -> Result<Next<'_>, Stop>
    ensures { Gives next_view result (next_at (other_at standard (term_at standard levels) levels) bytes.now) }
{
    match bytes {
        [b',', rest @ ..] => Ok(Next::Head(skip(rest))),
        [b']', rest @ ..] => Ok(Next::Last(nil(), rest)),
        [b'|', rest @ ..] => tail(alloc, levels, skip(rest)),
        _ => Err(syntax_at(bytes)),
    }
}

// A head and what follows it.
#[cycle(read)]
#[tactic(auto, unfolding(crate::specs::Inner::Reading::cell_step))]
fn cell_step(alloc: Global, levels: u8, bytes: &[u8]) -> Result<(Term, Next<'_>), Stop>
    ensures { Gives (λ x. (x.0, next_view x.1)) result (cell_step (term_at standard levels) (other_at standard (term_at standard levels) levels) bytes.now) }
{
    let (head, rest) = term(alloc, levels, bytes)?;
    let next = following(alloc, levels, skip(rest))?;
    Ok((head, next))
}

// The end of a list: the closing brackets still owed, and the list of the heads and the last tail.
fn end_list(
    alloc: Global,
    heads: Terms,
    owed: usize,
    tail: Term,
    bytes: &[u8],
) -> Result<(Term, &[u8]), Stop>
    ensures { Gives (λ x. (x.0, x.1.now)) result (with_heads heads.items owed (Ok (tail, bytes.now))) }
{
    let rest = brackets(owed, bytes)?;
    Ok((ca_term::list(alloc, heads, tail)?, rest))
}

// Heads and a last tail, up to the closing bracket. There are no more heads than bytes.
//
// A tail after a bar is on the level of its list, so it is read in the same loop, with its closing bracket owed.
#[cycle(read)]
fn cells(alloc: Global, levels: u8, bytes: &[u8]) -> Result<(Term, &[u8]), Stop>
    ensures { Gives (λ x. (x.0, x.1.now)) result
        (cells_at (term_at standard levels) (other_at standard (term_at standard levels) levels) (length bytes.now) bytes.now) }
{
    let mut heads = Terms::new(alloc);
    let mut owed = 0;
    let mut rest = bytes;
    for _ in 0..bytes.len() {
        let (head, next) = cell_step(alloc, levels, rest)?;
        heads.push(head)?;
        match next {
            Next::Head(after) => rest = after,
            Next::Inner(after) => {
                owed += 1;
                rest = after;
            }
            Next::Last(tail, after) => return end_list(alloc, heads, owed, tail, after),
        }
    }
    Err(syntax_at(rest))
}

// A list, behind its opening bracket and the blanks there.
#[cycle(read)]
#[tactic(auto, unfolding(crate::specs::Inner::Reading::list_at))]
fn list(alloc: Global, levels: u8, bytes: &[u8]) -> Result<(Term, &[u8]), Stop>
    ensures { Gives (λ x. (x.0, x.1.now)) result (list_at (term_at standard levels) (other_at standard (term_at standard levels) levels) bytes.now) }
{
    match bytes {
        [b']', rest @ ..] => Ok((nil(), rest)),
        [_, ..] => cells(alloc, levels, bytes),
        [] => Err(syntax_at(bytes)),
    }
}

// A term, so many levels above its elements.
#[cycle(read)]
fn bracketed(alloc: Global, levels: u8, bytes: &[u8]) -> Result<(Term, &[u8]), Stop>
    ensures { let other = other_at standard (term_at standard levels) levels in
        Gives (λ x. (x.0, x.1.now)) result (bracketed (list_at (term_at standard levels) other) other bytes.now) }
{
    match bytes {
        [b'[', rest @ ..] => list(alloc, levels, skip(rest)),
        _ => other(alloc, levels, bytes),
    }
}

// A term of at most so many levels.
#[cycle(read)]
#[tactic(auto, unfolding(crate::specs::Inner::Reading::term_at))]
fn term(alloc: Global, levels: u8, bytes: &[u8]) -> Result<(Term, &[u8]), Stop>
    ensures { Gives (λ x. (x.0, x.1.now)) result (term_at standard levels bytes.now) }
{
    if levels == 0 {
        return Err(too_deep(bytes));
    }
    bracketed(alloc, levels - 1, bytes)
}

/// Reads the longest term text at the front of some bytes: the term, and how many bytes its text has.
///
/// An integer takes in each digit that follows it, and a plain atom each letter of ASCII, digit, `_` and `@`. The text has at
/// most [`MOST_LEVELS`] levels, its tuples at most `ca_term::MOST_ELEMENTS` elements and its atoms at most
/// `ca_term::MOST_CODE_POINTS` code points.
pub fn read_term(alloc: Global, bytes: &[u8]) -> Result<(Term, usize), TextFault>
    ensures ok { IfOk result (λ x. IsRead bytes.now x.0 x.1) }
    // No longer text stands at the front.
    ensures longest { IfOk result (λ x. (m : ℕ) (t : Tree) → x.1 < m → m ≤ length bytes.now → IsText (take m bytes.now) t → ⊥) }
    // A fault is at the byte with which no text begins any more, and of the kind that tells by which limit.
    ensures refused { IfErr result (λ e. (e ≡ TextFault.NoMemory) ⊎ IsNotRead bytes.now e) }
    // Where no text stands at the front, that is told, unless memory lacks.
    ensures sure { (e : TextFault) → IsNotRead bytes.now e → MatchResult result (λ x. ⊥) (λ f. (f ≡ e) ⊎ (f ≡ TextFault.NoMemory)) }
    // What stands at the front is read, unless memory lacks.
    ensures only { (t : Tree) (n : ℕ) → IsRead bytes.now t n → MatchResult result (λ x. (x.0 ≡ t) × (x.1 ≡ n)) (λ e. e ≡ TextFault.NoMemory) }
{
    match term(alloc, MOST_LEVELS, bytes) {
        Ok((term, rest)) => Ok((term, bytes.len() - rest.len())),
        Err(stop) => Err(fault_of(stop, bytes.len())),
    }
}

/// A printed text of at most [`MOST_LEVELS`] levels is a text of its term, and it is the one that is read where it stands at the front and
/// nothing that follows belongs to it. At the front of any bytes one text is read, or none for one reason.
pub fn read_laws()
    ensures printed { (t : Tree) → IsTerm t → depth t ≤ MOST_LEVELS → IsText (text_of t) t }
    ensures again { (t : Tree) (rest : List ℕ) → IsTerm t → depth t ≤ MOST_LEVELS → IsWhole (text_of t) rest
        → IsRead (text_of t ++ rest) t (length (text_of t)) }
    ensures one_text { (bytes : List ℕ) (t u : Tree) (n m : ℕ) → IsRead bytes t n → IsRead bytes u m → (t ≡ u) × (n ≡ m) }
    ensures one_fault { (bytes : List ℕ) (e f : TextFault) → IsNotRead bytes e → IsNotRead bytes f → e ≡ f }
    ensures read_or_not { (bytes : List ℕ) (t : Tree) (n : ℕ) (e : TextFault) → IsRead bytes t n → IsNotRead bytes e → ⊥ }
{}
