//! One line of a command file.
ghost use Rattle.std.specs.Prelude.{◌≡◌, ◌≤◌, length, IfOk, OnOk};
ghost use Rattle.ca_cmd.specs.Content.{IsLine, IsText, text_in};
ghost use Rattle.ca_cmd.specs.Finds.{Finds};
ghost use Rattle.ca_cmd.specs.Word.{IsCommand};

use crate::fault::{LineFault, LineWhy, refused};
use crate::line::MOST_LINE_BYTES;
use crate::word::{Word, word_length};
use ca_ets::Cmd;
use ca_text::skip;
use std::alloc::Global;

// The command with which a line of this size ends.
fn read_command(alloc: Global, size: usize, text: &[u8]) -> Result<Cmd, LineFault>
    requires short { size ≤ MOST_LINE_BYTES }
    requires ends_it { length text.now ≤ size }
    ensures { Finds (λ cmd. cmd) (IsCommand size text.now) result }
{
    let (word, rest) = text.split_at(word_length(text));
    match Word::of(word) {
        Some(word) => word.read(alloc, size, rest),
        None => Err(refused(LineWhy::UnknownWord, size, text)),
    }
}

// The bytes behind the blanks at the front.
fn text_in(line: &[u8]) -> Result<&[u8], LineFault>
    ensures value { Finds (λ text. text.now) (λ found. found ≡ text_in line.now) result }
    ensures within { IfOk result (λ text. length text.now ≤ length line.now) }
    ensures short { OnOk result (length line.now ≤ MOST_LINE_BYTES) }
{
    if line.len() > MOST_LINE_BYTES {
        return Err(LineFault::Refused {
            at: MOST_LINE_BYTES as u32 + 1,
            why: LineWhy::LineTooLong,
        });
    }
    match str::from_utf8(line) {
        Ok(_) => Ok(skip(line)),
        Err(fault) => Err(refused(LineWhy::NotUtf8, line.len(), &line[fault.valid_up_to()..])),
    }
}

// The command that a line holds, if it holds one.
pub(crate) fn read_line(alloc: Global, line: &[u8]) -> Result<Option<Cmd>, LineFault>
    ensures { Finds (λ held. held) (IsLine line.now) result }
{
    let text = text_in(line)?;
    match text {
        [] | [b'%', ..] => Ok(None),
        _ => Ok(Some(read_command(alloc, line.len(), text)?)),
    }
}
