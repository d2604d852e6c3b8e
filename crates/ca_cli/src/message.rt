//! What is written where a call of the program ends early.
ghost use Rattle.std.specs.Prelude.{◌≡◌, ◌++◌, IfOk, codes, decimal};
ghost use Rattle.std.specs.String.{string_bytes};
ghost use Rattle.ca_cli.specs.StatusText.{text_of_status};

use crate::status::Status;
use std::alloc::{AllocError, Global};

// The line that names a bad line.
fn bad_line(alloc: Global, file: u32, line: u32, at: u32) -> Result<String, AllocError>
    ensures { IfOk result (λ text. string_bytes text
        ≡ codes "bad line: file " ++ decimal file ++ codes " line " ++ decimal line ++ codes " at " ++ decimal at ++ codes "\n") }
{
    format!(in alloc; "bad line: file {file} line {line} at {at}\n")
}

/// The line that a status comes with: none for `Done`, `SinkFault` and `NoMemory`.
pub fn message(alloc: Global, status: Status) -> Result<Vec<u8>, AllocError>
    ensures { IfOk result (λ bytes. bytes.items ≡ text_of_status status) }
{
    match status {
        Status::Done | Status::SinkFault | Status::NoMemory => Ok(Vec::new(alloc)),
        Status::Usage => b"usage: ca run [OPTIONS] [--] FILE...\n".to_vec(alloc),
        Status::ShelfFault { file } => {
            let text = format!(in alloc; "cannot read file {file}\n")?;
            Ok(text.into_bytes())
        }
        Status::BadLine { file, line, at } => {
            let text = bad_line(alloc, file, line, at)?;
            Ok(text.into_bytes())
        }
        Status::TooLong { file } => {
            let text = format!(in alloc; "file {file} too long\n")?;
            Ok(text.into_bytes())
        }
    }
}
