//! How a call of the program ended.
ghost use Rattle.std.specs.Prelude.{◌≡◌};
ghost use Rattle.std.specs.Process.{exit_status};
ghost use Rattle.ca_cli.specs.StatusText.{code_of_status};

use std::process::ExitCode;

/// How a call of the program ended. Files and lines count from 1, and so do the bytes of a line.
#[derive(Clone, Copy, Debug, PartialEq, Eq)]
pub enum Status {
    /// The answers and the table were written.
    Done,
    /// The words are no command line of this program.
    Usage,
    /// A file could not be read.
    ShelfFault { file: u32 },
    /// The output could not be written.
    SinkFault,
    /// A line of a file is refused, at this byte of it.
    BadLine { file: u32, line: u32, at: u32 },
    /// Memory was not found. Nothing was written.
    NoMemory,
    /// This file and those before it have over 16,777,216 bytes together.
    TooLong { file: u32 },
}

impl Status {
    /// The exit code of the program.
    pub fn code(&self) -> u8
        ensures { result ≡ code_of_status self.now }
    {
        match self {
            Status::Done => 0,
            Status::Usage => 2,
            Status::ShelfFault { .. } => 3,
            Status::SinkFault => 4,
            Status::BadLine { .. } => 5,
            Status::NoMemory => 6,
            Status::TooLong { .. } => 7,
        }
    }
}

/// What the program ends with.
pub fn finish(status: Status) -> ExitCode
    ensures { exit_status result ≡ code_of_status status }
{
    ExitCode::from(status.code())
}
