//! The files of a call, fetched and read.
ghost use Rattle.std.specs.Prelude.{◌≡◌, ◌≤◌, ℕ, List, [], ◌∷◌, Some, Ok, map, length, IsSome, IfOk, IfErr, OnOk, IsErrOf};
ghost use Rattle.std.specs.String.{string_bytes};
ghost use Rattle.ca_outside.specs.Fetches.{fetched};
ghost use Rattle.ca_outside.specs.Known.{Holds, HasRisen, Grows};
ghost use Rattle.ca_cmd.specs.File.{Numbered, IsFileOf};
ghost use Rattle.ca_cmd.specs.Lines.{numbered};
ghost use Rattle.ca_words.specs.Grammar.{IsLineOf, Files};
ghost use Rattle.ca_words.specs.declared.tree.TreeOptions.{TreeOptions};
ghost use Rattle.ca_cli.specs.Accepted.{AreRead, most_bytes};
ghost use Rattle.ca_cli.specs.Call.{change_of, call_of};
ghost use Rattle.ca_cli.specs.Causes.{IsCause};
ghost use Rattle.ca_cli.specs.Complete.{AreHeld};
ghost use Rattle.ca_cli.specs.Reading.{wanted_of, IsRead, IsFault};

use crate::status::Status;
use ca_cmd::{FileFault, Lines, read_on_threads};
use ca_outside::{FetchFault, Shelf};
use std::alloc::Global;
use std::thread::Threads;

// The most bytes that all files have together.
pub(crate) const MOST_BYTES: usize = 16_777_216;

// The lines of the file of this name, for which there is room, and how many bytes it has. A large file is read on threads.
fn read_one<R: Threads + Sync, F: Shelf>(
    rt: &R,
    alloc: Global,
    shelf: &mut F,
    name: &str,
    number: u32,
    room: usize,
) -> Result<(Lines, usize), Status>
    requires { room ≤ most_bytes }

    ensures read { IfOk result (λ r. IsRead (F.content shelf.old name.now) room (numbered r.0) r.1) }
    ensures fetched { OnOk result (Grows (F.fetches shelf.old) (F.fetches shelf.new) (fetched name.now (Ok tt) ∷ [])) }
    ensures told { ¬ IsErrOf result Status.NoMemory → IsSome (F.fetches shelf.old) → IsSome (F.fetches shelf.new) }

    ensures refused { IfErr result (λ status. IsFault
        (change_of (F.fetches shelf.old) (F.fetches shelf.new) (F.faults shelf.old) (F.faults shelf.new))
        (wanted_of number name.now (F.content shelf.old name.now) room) status) }
    ensures complete { (file : List ℕ) → (lines : List Numbered) → F.content shelf.old name.now ≡ Holds file → length file ≤ room → IsFileOf file lines
        → ¬ HasRisen (F.faults shelf.old) (F.faults shelf.new) → IfErr result (λ status. status ≡ Status.NoMemory) }

    ensures later { F.faults shelf.old ≤ F.faults shelf.new }
    ensures same { (n : List ℕ) → F.content shelf.new n ≡ F.content shelf.old n }
{
    let mut file = Vec::new(alloc);
    match shelf.fetch(alloc, name, room, &mut file) {
        Ok(()) => {}
        Err(FetchFault::Failed) => return Err(Status::ShelfFault { file: number }),
        Err(FetchFault::TooLong) => return Err(Status::TooLong { file: number }),
        Err(FetchFault::NoMemory) => return Err(Status::NoMemory),
    }
    let count = file.len();
    match read_on_threads(rt, alloc, file) {
        Ok(lines) => Ok((lines, count)),
        Err(FileFault::BadLine { line, at, .. }) => Err(Status::BadLine {
            file: number,
            line,
            at,
        }),
        Err(FileFault::NoMemory) => Err(Status::NoMemory),
    }
}

/// The lines of the files of these names, each file fetched and read before the next one is fetched. The first file that
/// is not accepted ends it. Each file has the room that the files before it left.
pub fn read_all<R: Threads + Sync, F: Shelf>(
    rt: &R,
    alloc: Global,
    shelf: &mut F,
    names: &[String],
) -> Result<Vec<Lines>, Status>
    requires { length names.now ≤ 64 }

    ensures read { IfOk result (λ all. AreRead (F.content shelf.old)
        (change_of (F.fetches shelf.old) (F.fetches shelf.new) (F.faults shelf.old) (F.faults shelf.new))
        (map string_bytes names.now) (map numbered all.items)) }

    // What each call comes to that asks for these files.
    ensures refused { IfErr result (λ status. (words : List (List ℕ)) (keypos : ℕ) (options : TreeOptions)
        → IsLineOf words (Files keypos (map string_bytes names.now)) options → IsCause (call_of words (F.content shelf.old)
        (change_of (F.fetches shelf.old) (F.fetches shelf.new) (F.faults shelf.old) (F.faults shelf.new))) status) }
    ensures complete { AreHeld (F.content shelf.old) (map string_bytes names.now) most_bytes → ¬ HasRisen (F.faults shelf.old) (F.faults shelf.new)
        → IfErr result (λ status. status ≡ Status.NoMemory) }

    ensures told { ¬ IsErrOf result Status.NoMemory → IsSome (F.fetches shelf.old) → IsSome (F.fetches shelf.new) }
    ensures later { F.faults shelf.old ≤ F.faults shelf.new }
{
    let Ok(mut all) = Vec::with_capacity(alloc, names.len()) else {
        return Err(Status::NoMemory);
    };
    let mut room = MOST_BYTES;
    let mut number = 0;
    for name in names {
        number += 1;
        let (lines, count) = read_one(rt, alloc, shelf, name.as_str(), number, room)?;
        room -= count;
        all.push_reserved(lines);
    }
    Ok(all)
}
