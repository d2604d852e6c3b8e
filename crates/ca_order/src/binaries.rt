//! Escaped bytes, read back.
ghost use Rattle.std.specs.Prelude.{◌≡◌, ◌∷◌, ◌++◌, List, ℕ, IfOk, IfErr, IfSome, MatchResult};
ghost use Rattle.ca_term.specs.Code.{code_of};
ghost use Rattle.ca_order.specs.Languages.{HasBytes};
ghost use Rattle.ca_order.specs.Zeros.{HasNoZero, opened};
ghost use Rattle.ca_order.specs.Reads.{IsReadFault, IsStuckFault, BeginsWithTerm, BeginsWithBytes};

use crate::fault::{ReadFault, stuck};
use crate::zeros::{Escape, after_zero, split_at_first_few, split_at_first_zero, split_at_zero};
use ca_term::{Term, bin, bin_of};
use std::alloc::{AllocError, Global};

// The binary whose escaped bytes these bytes begin with, and the bytes behind it. Where it holds no zero byte its bytes are read once.
pub(crate) fn read_binary(alloc: Global, bytes: &[u8]) -> Result<(Term, &[u8]), ReadFault>
    ensures { MatchResult result (λ p. BeginsWithTerm 1 (0x80 ∷ bytes.now) p.0 p.1.now) (λ e. IsReadFault HasBytes bytes.now e) }
{
    if let Some((run, rest)) = run_to_end(bytes) {
        return Ok((bin(alloc, run)?, rest));
    }
    read_any_binary(alloc, bytes)
}

// The same, where there may be zero bytes in the binary.
fn read_any_binary(alloc: Global, bytes: &[u8]) -> Result<(Term, &[u8]), ReadFault>
    ensures { MatchResult result (λ p. BeginsWithTerm 1 (0x80 ∷ bytes.now) p.0 p.1.now) (λ e. IsReadFault HasBytes bytes.now e) }
{
    let (body, rest) = read_escaped(bytes)?;
    let inside = unescape(alloc, body)?;
    Ok((bin_of(inside), rest))
}

// The bytes before the first zero byte, where they end there, and those behind their end.
#[inline(always)]
pub(crate) fn run_to_end(bytes: &[u8]) -> Option<(&[u8], &[u8])>
    ensures { IfSome result (λ p. HasNoZero p.0.now × BeginsWithBytes bytes.now p.0.now p.1.now) }
{
    let (run, behind) = split_at_first_zero(bytes)?;
    match after_zero(behind) {
        Escape::End(rest) => Some((run, rest)),
        Escape::Zero(_) | Escape::Neither => None,
    }
}

// The same, where they end among the first few. It is told without a call, so that nothing of it goes through memory.
#[inline(always)]
pub(crate) fn short_run_to_end(bytes: &[u8]) -> Option<(&[u8], &[u8])>
    ensures { IfSome result (λ p. HasNoZero p.0.now × BeginsWithBytes bytes.now p.0.now p.1.now) }
{
    let (run, behind) = split_at_first_few(bytes)?;
    match after_zero(behind) {
        Escape::End(rest) => Some((run, rest)),
        Escape::Zero(_) | Escape::Neither => None,
    }
}

// The escaped bytes that these bytes begin with, without their end, and the bytes behind their end.
pub(crate) fn read_escaped(bytes: &[u8]) -> Result<(&[u8], &[u8]), ReadFault>
    ensures { MatchResult result (λ p. BeginsWithBytes bytes.now p.0.now p.1.now) (λ e. IsStuckFault HasBytes bytes.now e) }
{
    let mut rest = bytes;
    while let Some((_, behind)) = split_at_zero(rest) {
        match after_zero(behind) {
            Escape::End(end) => return Ok((&bytes[..bytes.len() - end.len() - 2], end)),
            Escape::Zero(more) => rest = more,
            Escape::Neither => return Err(stuck(behind)),
        }
    }
    Err(ReadFault::Stuck { left: 0 })
}

// Bytes without their escapes.
pub(crate) fn unescape(alloc: Global, body: &[u8]) -> Result<Vec<u8>, AllocError>
    requires { (inside : List ℕ) × (body.now ≡ opened inside) }
    ensures { IfOk result (λ v. opened v.items ≡ body.now) }
{
    let mut inside = Vec::with_capacity(alloc, body.len())?;
    let mut rest = body;
    while let Some((run, behind)) = split_at_zero(rest) {
        inside.extend_from_slice(run)?;
        inside.push(0)?;
        let Escape::Zero(more) = after_zero(behind) else {
            unreachable!()
        };
        rest = more;
    }
    inside.extend_from_slice(rest)?;
    Ok(inside)
}
