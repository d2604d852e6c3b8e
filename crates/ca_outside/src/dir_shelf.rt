//! The shelf of the file system.
ghost use Rattle.std.specs.Prelude.{◌≡◌, ◌⊎◌, ℕ, ◌≤◌, ◌<◌, [], ◌∷◌, length, map, take, None, Some, IsSome, IfOk, OnOk, OnErr, IsErrOf, MatchOption};
ghost use Rattle.std.specs.Io.KnownBytes.{Consumes, IsAtEnd};
ghost use Rattle.ca_outside.specs.Count.{next_count};
ghost use Rattle.ca_outside.specs.Fetches.{fetched, fetched_of, with_fetch};
ghost use Rattle.ca_outside.specs.Known.{Tells, IsOver, HasRisen, Untold, Grows, content_or};

use crate::fetch_log::{Fetch, FetchLog};
use crate::shelf::{FetchFault, Shelf};
use std::alloc::Global;
use std::fs::Files;
use std::io::Read;
use std::marker::Model;
use std::{fs, io};

// How many bytes one read asks for.
const PIECE: usize = 16 * 1024;

// How often in a row a read that a signal interrupted is tried again.
const MOST_TRIES: u32 = 1_000_000;

/// Files of the file system, by their paths. It tells no contents.
#[derive(Drop)]
pub struct DirShelf<R: Files + Drop> {
    rt: R,
    faults: u64,
    log: FetchLog,
}

impl<R: Files + Drop> Model for DirShelf<R> {
    ghost use Rattle.ca_outside.specs.DirShelf.{DirShelfState};
    ghost use Rattle.ca_outside.specs.Fetches.{told_fetches};

    ghost Value = { DirShelfState };

    ghost view = { λ shelf. record { faults = shelf.faults; log = told_fetches shelf.log } };
}

impl<R: Files + Drop> DirShelf<R> {
    /// A shelf from which nothing was fetched yet.
    pub fn new(alloc: Global, rt: R) -> DirShelf<R>
        ensures { result ≡ record { faults = 0; log = Some [] } }
    {
        DirShelf {
            rt,
            faults: 0,
            log: FetchLog::new(alloc),
        }
    }

    /// How often a fetch has failed.
    pub fn faults(&self) -> u64
        ensures { result ≡ self.now.faults }
    {
        self.faults
    }

    /// The fetches so far, as long as there was memory to log them.
    pub fn log(&self) -> Option<&[Fetch]>
        ensures { MatchOption result (self.now.log ≡ None) (λ made. self.now.log ≡ Some (map fetched_of made.now)) }
    {
        self.log.told()
    }
}

impl<R: Files + Drop> Shelf for DirShelf<R> {
    ghost content = { λ shelf name. Untold };

    ghost faults = { λ shelf. shelf.faults };

    ghost fetches = { λ shelf. shelf.log };

    /// Reads the file whole. Only a file that can't be opened or read counts as a failure. A fetch whose entry in the log
    /// finds no memory is not made.
    fn fetch(
        &mut self,
        alloc: Global,
        name: &str,
        room: usize,
        into: &mut Vec<u8>,
    ) -> Result<(), FetchFault>
        requires { into.old.items ≡ [] }
        ensures fits { OnOk result (length into.new.items ≤ room) }
        ensures empty { OnErr result (into.new.items ≡ []) }
        ensures failed { IsErrOf result FetchFault.Failed → HasRisen self.old.faults self.new.faults }
        ensures later { self.old.faults ≤ self.new.faults }

        ensures counted { IsErrOf result FetchFault.Failed → self.new.faults ≡ next_count self.old.faults }
        ensures not_counted { ¬ IsErrOf result FetchFault.Failed → self.new.faults ≡ self.old.faults }
        ensures logged { (self.new.log ≡ with_fetch self.old.log (fetched name.now result))
            ⊎ (IsErrOf result FetchFault.NoMemory × (self.new.log ≡ None)) }
    {
        let entry = self.log.reserve(alloc, name)?;
        let result = match fs::open(&self.rt, name) {
            Ok(mut file) => read_whole(&mut file, room, into),
            Err(_) => Err(FetchFault::Failed),
        };
        if let Err(fault) = result {
            into.clear();
            if fault == FetchFault::Failed {
                self.faults = self.faults.saturating_add(1);
            }
        }
        self.log.add(entry, result);
        result
    }
}

// One read, tried again where a signal interrupted it.
fn read_piece<F: Read>(file: &mut F, piece: &mut [u8]) -> Result<usize, FetchFault>
    ensures within { IfOk result (λ count. count ≤ length piece.new) }
    ensures read { IfOk result (λ count. Consumes (F.remaining file.old) (F.remaining file.new) (take count piece.new)) }
    ensures end { IfOk result (λ count. count ≡ 0 → 0 < length piece.old → IsAtEnd (F.remaining file.new)) }
{
    for _ in 0..MOST_TRIES {
        match file.read(piece) {
            Ok(count) => return Ok(count),
            Err(error) if error.kind() == io::ErrorKind::Interrupted => {}
            Err(_) => return Err(FetchFault::Failed),
        }
    }
    Err(FetchFault::Failed)
}

// Reads all that is left, up to `room` bytes. After a refusal some of it may stand in the vector.
#[tactic(auto, using(crate::proofs::Consumed::consumes_more, crate::proofs::Consumed::told_at_end, crate::proofs::Consumed::is_over))]
fn read_whole<F: Read>(file: &mut F, room: usize, into: &mut Vec<u8>) -> Result<(), FetchFault>
    requires { into.old.items ≡ [] }
    ensures found { OnOk result (Tells (content_or Untold (F.remaining file.old)) into.new.items) }
    ensures fits { OnOk result (length into.new.items ≤ room) }
    ensures too_long { IsErrOf result FetchFault.TooLong → IsOver room (content_or Untold (F.remaining file.old)) }
{
    let mut piece = [0; PIECE];
    loop {
        let Ok(count) = read_piece(file, &mut piece) else {
            return Err(FetchFault::Failed);
        };
        if count == 0 {
            return Ok(());
        }
        if count > room - into.len() {
            return Err(FetchFault::TooLong);
        }
        let Ok(()) = into.extend_from_slice(&piece[..count]) else {
            return Err(FetchFault::NoMemory);
        };
    }
}
