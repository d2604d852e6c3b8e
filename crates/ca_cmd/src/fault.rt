//! Why a command file was refused.
ghost use Rattle.std.specs.Prelude.{◌≡◌, ◌≤◌, length};
ghost use Rattle.ca_cmd.specs.Argument.{place};
ghost use Rattle.ca_cmd.specs.declared.fault.FileFault.TheVariants.{NoMemory};

use crate::line::MOST_LINE_BYTES;
use std::alloc::{AllocError, AllocFailed};

/// Why a line was refused. Source: the rules of command files are this project's own.
#[derive(Clone, Copy, Debug, PartialEq, Eq)]
pub enum LineWhy {
    /// The line has more than `MOST_LINE_BYTES` bytes.
    LineTooLong,
    /// The line is not UTF-8.
    NotUtf8,
    /// The first word is no command word.
    UnknownWord,
    /// A term text is not well formed, or something follows it without a blank between.
    Syntax,
    /// An atom has over 255 code points.
    AtomTooLong,
    /// A term stands deeper than 64 levels.
    TooDeep,
    /// A tuple has over 120 elements.
    TooWide,
    /// The line ends before an argument begins.
    Absent,
    /// Something follows the last argument.
    Extra,
}

/// Why a command file was refused.
#[derive(Clone, Copy, Debug, PartialEq, Eq)]
pub enum FileFault {
    /// The first line that is refused, the byte of the line at which it is refused, both counted from 1, and the reason.
    BadLine { line: u32, at: u32, why: LineWhy },
    /// Memory was not found.
    NoMemory,
}

impl From<AllocError> for FileFault {
    ghost from_gives = { λ _ e. e ≡ NoMemory };

    fn from(_e: AllocError) -> FileFault {
        FileFault::NoMemory
    }
}

impl<T: Drop> From<AllocFailed<T>> for FileFault {
    ghost from_gives = { λ _ e. e ≡ NoMemory };

    fn from(_e: AllocFailed<T>) -> FileFault {
        FileFault::NoMemory
    }
}

// Why one line was refused.
#[derive(Clone, Copy)]
pub(crate) enum LineFault {
    // The byte of the line, counted from 1, and the reason.
    Refused { at: u32, why: LineWhy },
    NoMemory,
}

// A line of this size is refused at the first of these bytes, with which it ends.
pub(crate) fn refused(why: LineWhy, size: usize, bytes: &[u8]) -> LineFault
    requires short { size ≤ MOST_LINE_BYTES }
    requires ends_it { length bytes.now ≤ size }
    ensures { result ≡ LineFault.Refused (place size bytes.now) why }
{
    let at = size - bytes.len() + 1;
    LineFault::Refused { at: at as u32, why }
}
