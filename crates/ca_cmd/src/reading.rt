//! Command files.
ghost use Rattle.std.specs.Prelude.{◌≡◌, ◌≤◌, List, length, IfOk, IfErr, MatchResult};
ghost use Rattle.ca_cmd.specs.File.{Numbered, IsFileOf};
ghost use Rattle.ca_cmd.specs.Lines.{numbered};
ghost use Rattle.ca_cmd.specs.Refusal.{IsCauseIn};

use crate::at_once::read_parts;
use crate::fault::FileFault;
use crate::kept::Source;
use crate::line::Lines;
use crate::part::read_part;
use std::alloc::Global;
use std::thread::Threads;

/// The commands of a file, with their lines' numbers, counted from 1. A file has at most 16,777,216 bytes.
///
/// A line is ended by LF, or by CR and LF; the last one needs no LF. It holds a command word and its arguments, each behind
/// at least one blank, a space or a tab; or nothing but blanks, or a comment, which begins with `%`. Each line is read here, and its text is kept.
pub fn read_file(alloc: Global, bytes: &[u8]) -> Result<Lines, FileFault>
    requires { length bytes.now ≤ 16777216 }
    ensures read { IfOk result (λ lines. IsFileOf bytes.now (numbered lines)) }
    ensures refused { IfErr result (λ e. IsCauseIn bytes.now e) }
    ensures complete { (lines : List Numbered) → IsFileOf bytes.now lines → MatchResult result (λ found. numbered found ≡ lines) (λ e. e ≡ FileFault.NoMemory) }
{
    let part = read_part(alloc, bytes, 0, 0, bytes.len())?;
    Ok(Lines::of(Source::Text(bytes.to_vec(alloc)?), part.held))
}

/// The same of a file whose bytes are handed over. A large one is read in parts, each on a thread of its own as far as threads can be made.
pub fn read_on_threads<R: Threads + Sync>(
    rt: &R,
    alloc: Global,
    bytes: Vec<u8>,
) -> Result<Lines, FileFault>
    requires { length bytes.items ≤ 16777216 }
    ensures read { IfOk result (λ lines. IsFileOf bytes.items (numbered lines)) }
    ensures refused { IfErr result (λ e. IsCauseIn bytes.items e) }
    ensures complete { (lines : List Numbered) → IsFileOf bytes.items lines
        → MatchResult result (λ found. numbered found ≡ lines) (λ e. e ≡ FileFault.NoMemory) }
{
    let part = read_parts(rt, alloc, bytes.as_slice())?;
    Ok(Lines::of(Source::Text(bytes), part.held))
}
