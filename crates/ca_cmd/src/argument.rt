//! The arguments of a command word.
ghost use Rattle.std.specs.Prelude.{◌≡◌, ◌≤◌, ◌+◌, length, IfOk};
ghost use Rattle.ca_text.specs.Front.{fault_place};
ghost use Rattle.ca_cmd.specs.Argument.{apart, place, AreArguments, IsArgument, IsEnd, IsTermAt};
ghost use Rattle.ca_cmd.specs.Finds.{Finds, IsTermFault};

use crate::fault::{LineFault, LineWhy, refused};
use crate::line::MOST_LINE_BYTES;
use ca_term::Term;
use ca_text::{TextFault, read_term, skip};
use std::alloc::Global;

// The bytes behind the blanks after a word or an argument.
fn apart(size: usize, bytes: &[u8]) -> Result<&[u8], LineFault>
    requires short { size ≤ MOST_LINE_BYTES }
    requires ends_it { length bytes.now ≤ size }
    ensures value { Finds (λ rest. rest.now) (λ found. found ≡ apart size bytes.now) result }
    ensures within { IfOk result (λ rest. length rest.now ≤ length bytes.now) }
{
    match bytes {
        [] => Ok(bytes),
        [b' ' | b'\t', rest @ ..] => Ok(skip(rest)),
        _ => Err(refused(LineWhy::Syntax, size, bytes)),
    }
}

// A line of this size is refused for the term text that begins with these bytes.
fn term_refused(size: usize, bytes: &[u8], fault: TextFault) -> LineFault
    requires short { size ≤ MOST_LINE_BYTES }
    requires ends_it { length bytes.now ≤ size }
    requires place { fault_place fault ≤ length bytes.now }
    ensures { IsTermFault size bytes.now fault result }
{
    match fault {
        TextFault::Syntax { at } => refused(LineWhy::Syntax, size, &bytes[at..]),
        TextFault::AtomTooLong { at } => refused(LineWhy::AtomTooLong, size, &bytes[at..]),
        TextFault::TooDeep { at } => refused(LineWhy::TooDeep, size, &bytes[at..]),
        TextFault::TooWide { at } => refused(LineWhy::TooWide, size, &bytes[at..]),
        TextFault::NoMemory => LineFault::NoMemory,
    }
}

// The next argument, and the bytes behind it.
fn argument(alloc: Global, size: usize, bytes: &[u8]) -> Result<(Term, &[u8]), LineFault>
    requires short { size ≤ MOST_LINE_BYTES }
    requires ends_it { length bytes.now ≤ size }
    ensures value { Finds (λ x. (x.0, x.1.now)) (IsArgument size bytes.now) result }
    ensures within { IfOk result (λ x. length x.1.now ≤ length bytes.now) }
{
    let text = apart(size, bytes)?;
    if text.is_empty() {
        return Err(refused(LineWhy::Absent, size, text));
    }
    term(alloc, size, text)
}

// The term text at the front of these bytes, and the bytes behind it.
fn term(alloc: Global, size: usize, bytes: &[u8]) -> Result<(Term, &[u8]), LineFault>
    requires short { size ≤ MOST_LINE_BYTES }
    requires ends_it { length bytes.now ≤ size }
    ensures value { Finds (λ x. (x.0, x.1.now)) (IsTermAt size bytes.now) result }
    ensures within { IfOk result (λ x. length x.1.now ≤ length bytes.now) }
{
    match read_term(alloc, bytes) {
        Ok((term, n)) => Ok((term, &bytes[n..])),
        Err(fault) => Err(term_refused(size, bytes, fault)),
    }
}

// So many arguments one after another, and the bytes behind the last one.
pub(crate) fn arguments(
    alloc: Global,
    size: usize,
    count: usize,
    bytes: &[u8],
) -> Result<(Vec<Term>, &[u8]), LineFault>
    requires short { size ≤ MOST_LINE_BYTES }
    requires ends_it { length bytes.now ≤ size }
    ensures value { Finds (λ x. (x.0.items, x.1.now)) (AreArguments size bytes.now count) result }
    ensures within { IfOk result (λ x. length x.1.now ≤ length bytes.now) }
    ensures many { IfOk result (λ x. length x.0.items ≡ count) }
{
    let mut terms = Vec::new(alloc);
    let mut rest = bytes;
    for _ in 0..count {
        let (term, after) = argument(alloc, size, rest)?;
        let Ok(()) = terms.push(term) else {
            return Err(LineFault::NoMemory);
        };
        rest = after;
    }
    Ok((terms, rest))
}

// Nothing more stands behind the last argument.
pub(crate) fn end(size: usize, bytes: &[u8]) -> Result<(), LineFault>
    requires short { size ≤ MOST_LINE_BYTES }
    requires ends_it { length bytes.now ≤ size }
    ensures { Finds (λ u. tt) (IsEnd size bytes.now) result }
{
    let rest = apart(size, bytes)?;
    if rest.is_empty() {
        return Ok(());
    }
    Err(refused(LineWhy::Extra, size, rest))
}
