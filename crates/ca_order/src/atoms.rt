//! Atoms, read back.
ghost use Rattle.std.specs.Prelude.{◌≡◌, ◌∷◌, IfOk, IfSome, MatchResult};
ghost use Rattle.ca_term.specs.declared.bounds.TheConstants.{MOST_CODE_POINTS};
ghost use Rattle.ca_term.specs.Tree.{Atom, IsNarrow};
ghost use Rattle.ca_order.specs.Languages.{HasText};
ghost use Rattle.ca_order.specs.Zeros.{HasNoZero};
ghost use Rattle.ca_order.specs.Reads.{IsReadFault, BeginsWithTerm, BeginsWithText, IsStep};

use crate::binaries::{run_to_end, unescape};
use crate::fault::{ReadFault, stuck};
use crate::zeros::{Escape, after_zero};
use ca_term::{MOST_CODE_POINTS, Term, TermFault, atom, character};
use std::alloc::Global;

// The atom whose escaped text these bytes begin with, and the bytes behind it. A short one without a zero byte is read as a whole.
pub(crate) fn read_atom(alloc: Global, bytes: &[u8]) -> Result<(Term, &[u8]), ReadFault>
    ensures { MatchResult result (λ p. BeginsWithTerm 1 (0x30 ∷ bytes.now) p.0 p.1.now) (λ e. IsReadFault (HasText MOST_CODE_POINTS) bytes.now e) }
{
    if let Some((text, rest)) = short_text(bytes) {
        return Ok((atom(alloc, text)?, rest));
    }
    read_any_atom(alloc, bytes)
}

// The text that these bytes begin with, where it has no zero byte and so few bytes that it can't have too many characters.
#[inline(always)]
pub(crate) fn short_text(bytes: &[u8]) -> Option<(&str, &[u8])>
    ensures { IfSome result (λ p. HasNoZero p.0.now × BeginsWithText bytes.now p.0.now p.1.now) }
{
    let (run, rest) = run_to_end(bytes)?;
    if run.len() > MOST_CODE_POINTS {
        return None;
    }
    match str::from_utf8(run) {
        Ok(text) => Some((text, rest)),
        Err(_) => None,
    }
}

// The same, where the text may have zero bytes or be too long.
fn read_any_atom(alloc: Global, bytes: &[u8]) -> Result<(Term, &[u8]), ReadFault>
    ensures { MatchResult result (λ p. BeginsWithTerm 1 (0x30 ∷ bytes.now) p.0 p.1.now) (λ e. IsReadFault (HasText MOST_CODE_POINTS) bytes.now e) }
{
    let (body, rest) = read_text(bytes)?;
    let text = unescape(alloc, body)?;
    Ok((atom_of(alloc, text.as_slice())?, rest))
}

// The atom of a text in UTF-8.
fn atom_of(alloc: Global, text: &[u8]) -> Result<Term, TermFault>
    requires { IsNarrow (Atom text.now) }
    ensures { IfOk result (λ t. t ≡ Atom text.now) }
{
    let Ok(text) = str::from_utf8(text) else {
        unreachable!()
    };
    atom(alloc, text)
}

// The escaped text that these bytes begin with, without its end, and the bytes behind its end.
fn read_text(bytes: &[u8]) -> Result<(&[u8], &[u8]), ReadFault>
    ensures { MatchResult result (λ p. BeginsWithText bytes.now p.0.now p.1.now) (λ e. IsReadFault (HasText MOST_CODE_POINTS) bytes.now e) }
{
    let mut rest = bytes;
    let mut room = MOST_CODE_POINTS;
    loop {
        let step = read_step(rest, room)?;
        match step {
            Step::End(end) => return Ok((&bytes[..bytes.len() - end.len() - 2], end)),
            Step::Char(behind) => {
                rest = behind;
                room -= 1;
            }
        }
    }
}

// What stands next in an escaped text: its end or a character, and the bytes behind it.
#[derive(Clone, Copy)]
pub(crate) enum Step<'a> {
    End(&'a [u8]),
    Char(&'a [u8]),
}

// What these bytes begin with, in a text with room for so many characters more.
fn read_step(bytes: &[u8], room: usize) -> Result<Step<'_>, ReadFault>
    ensures { MatchResult result (λ step. IsStep room bytes.now step) (λ e. IsReadFault (HasText room) bytes.now e) }
{
    let Some((first, behind)) = bytes.split_first() else {
        return Err(stuck(bytes));
    };
    if *first != 0 {
        if room == 0 {
            return Err(stuck(bytes));
        }
        return match character(bytes) {
            Ok((_, behind)) => Ok(Step::Char(behind)),
            Err(at) => Err(ReadFault::Stuck {
                left: bytes.len() - at,
            }),
        };
    }
    match after_zero(behind) {
        Escape::End(end) => Ok(Step::End(end)),
        Escape::Zero(rest) => {
            if room == 0 {
                return Err(stuck(behind));
            }
            Ok(Step::Char(rest))
        }
        Escape::Neither => Err(stuck(behind)),
    }
}
