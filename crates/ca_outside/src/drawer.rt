//! Shelves in memory.
ghost use Rattle.std.specs.Prelude.{◌≡◌, ◌⊎◌, ℕ, ◌≤◌, ◌<◌, List, [], ◌∷◌, length, map, if◌then◌else◌, None, Some, IsSome, ◌↔◌, OnOk, OnErr, IsErrOf, MatchOption};
ghost use Rattle.std.specs.Option.{option_copied};
ghost use Rattle.ca_outside.specs.Drawer.{files_of, bytes_of, content_of, bytes_or_none, next_bytes, after_fetch, without_log};
ghost use Rattle.ca_outside.specs.Fetches.{fetched, fetched_of, with_fetch};
ghost use Rattle.ca_outside.specs.Known.{Tells, IsOver, HasRisen, Missing, Holds, Grows, content_or};

use crate::fetch_log::{Fetch, FetchLog};
use crate::shelf::{FetchFault, Shelf};
use std::alloc::Global;
use std::marker::Model;

/// Files by name in memory, of which a fetch may be made to fail. Of equal names the first stands.
#[derive(Drop)]
pub struct Drawer {
    files: Vec<(String, Vec<u8>)>,
    fails: Vec<u64>,
    fetches: u64,
    faults: u64,
    log: FetchLog,
}

impl Model for Drawer {
    ghost use Rattle.ca_outside.specs.Drawer.{DrawerState, files_of};
    ghost use Rattle.ca_outside.specs.Fetches.{told_fetches};

    ghost Value = { DrawerState };

    ghost view = { λ d. record { files = files_of d.files.items; fails = d.fails.items; fetches = d.fetches; faults = d.faults; log = told_fetches d.log } };
}

impl Drawer {
    /// A drawer of these files by their names. Fetches are numbered from 1, and those in `fails` fail.
    pub fn new(files: Vec<(String, Vec<u8>)>, fails: Vec<u64>) -> Drawer
        ensures { result ≡ record { files = files_of files.items; fails = fails.items; fetches = 0; faults = 0; log = Some [] } }
    {
        let log = FetchLog::new(*files.allocator());
        Drawer {
            files,
            fails,
            fetches: 0,
            faults: 0,
            log,
        }
    }

    /// The fetches so far, as long as there was memory to log them.
    pub fn log(&self) -> Option<&[Fetch]>
        ensures { MatchOption result (self.now.log ≡ None) (λ made. self.now.log ≡ Some (map fetched_of made.now)) }
    {
        self.log.told()
    }
}

impl Shelf for Drawer {
    ghost content = { λ drawer name. content_of drawer.files name };

    ghost faults = { λ drawer. drawer.faults };

    ghost fetches = { λ drawer. drawer.log };

    /// Fails exactly where its number is among those that fail, or no file has the name. A fetch whose entry in the log
    /// finds no memory is not made.
    fn fetch(
        &mut self,
        alloc: Global,
        name: &str,
        room: usize,
        into: &mut Vec<u8>,
    ) -> Result<(), FetchFault>
        requires { into.old.items ≡ [] }
        ensures found { OnOk result (Tells (content_of self.old.files name.now) into.new.items) }
        ensures fits { OnOk result (length into.new.items ≤ room) }
        ensures empty { OnErr result (into.new.items ≡ []) }
        ensures too_long { IsErrOf result FetchFault.TooLong → IsOver room (content_of self.old.files name.now) }
        ensures failed { IsErrOf result FetchFault.Failed → HasRisen self.old.faults self.new.faults }
        ensures logged { Grows self.old.log self.new.log (fetched name.now result ∷ []) }
        ensures told { ¬ IsErrOf result FetchFault.NoMemory → IsSome self.old.log → IsSome self.new.log }
        ensures later { self.old.faults ≤ self.new.faults }
        ensures same { (n : List ℕ) → content_of self.new.files n ≡ content_of self.old.files n }

        // A name that isn't listed fails, and the others are too long exactly where they are, unless memory is wanted.
        ensures fails { ¬ IsErrOf result FetchFault.NoMemory → (IsErrOf result FetchFault.Failed ↔ (next_bytes self.old name.now ≡ None)) }
        ensures over { ¬ IsErrOf result FetchFault.NoMemory →
            (IsErrOf result FetchFault.TooLong ↔ IsOver room (content_or Missing (next_bytes self.old name.now))) }
        ensures unlisted { next_bytes self.old name.now ≡ None → IsErrOf result FetchFault.NoMemory → self.new.log ≡ None }
        ensures after { (self.new ≡ after_fetch self.old (fetched name.now result))
            ⊎ (IsErrOf result FetchFault.NoMemory × (self.new ≡ without_log self.old)) }
    {
        let entry = self.log.reserve(alloc, name)?;
        self.fetches = self.fetches.saturating_add(1);
        let fails = self.fails.contains(&self.fetches);
        let Some(bytes) = find_unless(fails, &self.files, name) else {
            self.faults = self.faults.saturating_add(1);
            self.log.add(entry, Err(FetchFault::Failed));
            return Err(FetchFault::Failed);
        };
        let result = fill(into, bytes, room);
        self.log.add(entry, result);
        result
    }
}

/// Files by name in memory: a fetch never fails, and a name that isn't listed has the empty content.
/// Of equal names the first stands.
#[derive(Drop)]
pub struct SureDrawer {
    files: Vec<(String, Vec<u8>)>,
    log: FetchLog,
}

impl Model for SureDrawer {
    ghost use Rattle.ca_outside.specs.Drawer.{SureDrawerState, files_of};
    ghost use Rattle.ca_outside.specs.Fetches.{told_fetches};

    ghost Value = { SureDrawerState };

    ghost view = { λ d. record { files = files_of d.files.items; log = told_fetches d.log } };
}

impl SureDrawer {
    /// A drawer of these files by their names.
    pub fn new(files: Vec<(String, Vec<u8>)>) -> SureDrawer
        ensures { result ≡ record { files = files_of files.items; log = Some [] } }
    {
        let log = FetchLog::new(*files.allocator());
        SureDrawer { files, log }
    }

    /// The fetches so far, as long as there was memory to log them.
    pub fn log(&self) -> Option<&[Fetch]>
        ensures { MatchOption result (self.now.log ≡ None) (λ made. self.now.log ≡ Some (map fetched_of made.now)) }
    {
        self.log.told()
    }
}

impl Shelf for SureDrawer {
    ghost content = { λ drawer name. Holds (bytes_or_none drawer.files name) };

    ghost faults = { λ _. 0 };

    ghost fetches = { λ drawer. drawer.log };

    /// A fetch whose entry in the log finds no memory is not made.
    fn fetch(
        &mut self,
        alloc: Global,
        name: &str,
        room: usize,
        into: &mut Vec<u8>,
    ) -> Result<(), FetchFault>
        requires { into.old.items ≡ [] }
        ensures found { OnOk result (bytes_or_none self.old.files name.now ≡ into.new.items) }
        ensures fits { OnOk result (length into.new.items ≤ room) }
        ensures empty { OnErr result (into.new.items ≡ []) }
        ensures over { ¬ IsErrOf result FetchFault.NoMemory →
            (IsErrOf result FetchFault.TooLong ↔ (room < length (bytes_or_none self.old.files name.now))) }
        // A name that isn't listed wants no memory but for its entry in the log.
        ensures unlisted { bytes_of self.old.files name.now ≡ None → IsErrOf result FetchFault.NoMemory → self.new.log ≡ None }
        ensures sure { ¬ IsErrOf result FetchFault.Failed }
        ensures same { self.new.files ≡ self.old.files }
        ensures logged { (self.new.log ≡ with_fetch self.old.log (fetched name.now result))
            ⊎ (IsErrOf result FetchFault.NoMemory × (self.new.log ≡ None)) }
    {
        let entry = self.log.reserve(alloc, name)?;
        let result = match find(&self.files, name) {
            Some(bytes) => fill(into, bytes, room),
            None => Ok(()),
        };
        self.log.add(entry, result);
        result
    }
}

// The bytes of the first file of this name.
fn find<'a>(files: &'a [(String, Vec<u8>)], name: &str) -> Option<&'a [u8]>
    ensures { option_copied result ≡ bytes_of (files_of files.now) name.now }
{
    for (known, bytes) in files {
        if known.as_str() == name {
            return Some(bytes);
        }
    }
    None
}

// The same, where the fetch is not one of those that fail.
fn find_unless<'a>(fails: bool, files: &'a [(String, Vec<u8>)], name: &str) -> Option<&'a [u8]>
    ensures { option_copied result ≡ (if fails then None else bytes_of (files_of files.now) name.now) }
{
    if fails { None } else { find(files, name) }
}

// Copies a content of at most `room` bytes into an empty vector.
fn fill(into: &mut Vec<u8>, bytes: &[u8], room: usize) -> Result<(), FetchFault>
    requires { into.old.items ≡ [] }
    ensures found { OnOk result ((into.new.items ≡ bytes.now) × (length bytes.now ≤ room)) }
    ensures empty { OnErr result (into.new.items ≡ []) }
    ensures over { IsErrOf result FetchFault.TooLong ↔ (room < length bytes.now) }
    ensures sure { ¬ IsErrOf result FetchFault.Failed }
{
    if bytes.len() > room {
        return Err(FetchFault::TooLong);
    }
    match into.extend_from_slice(bytes) {
        Ok(()) => Ok(()),
        Err(_) => Err(FetchFault::NoMemory),
    }
}
