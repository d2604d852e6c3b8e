//! Sinks in memory.
ghost use Rattle.std.specs.Prelude.{◌≡◌, ◌≤◌, ◌<◌, [], true, length, take, Some, Ok, IsTrue, ◌↔◌, IfOk, OnErr, IsErr};
ghost use Rattle.ca_outside.specs.Known.{Grows, HasRisen};
ghost use Rattle.ca_outside.specs.Tape.{write_fails, count_taken, after_write, told, after_sure_write};

use crate::sink::{Sink, SinkFailed};
use std::alloc::{AllocError, Global};
use std::marker::Model;

/// Takes bytes up to its room and keeps them, a few at a write. A write may be made to fail.
#[derive(Drop)]
pub struct Tape {
    bytes: Vec<u8>,
    room: usize,
    most: usize,
    fails: Vec<u64>,
    writes: u64,
    faults: u64,
}

impl Model for Tape {
    ghost use Rattle.std.specs.Prelude.{◌≤◌, ◌<◌, length, vec_capacity};
    ghost use Rattle.ca_outside.specs.Tape.{TapeState};

    ghost Value = { TapeState };

    ghost view = { λ t. record { taken = t.bytes.items; room = t.room; most = t.most; fails = t.fails.items; writes = t.writes; faults = t.faults } };

    // The memory of the whole room is taken at the start.
    ghost invariant = { λ t. (0 < t.most) × (length t.bytes.items ≤ t.room) × (t.room ≤ vec_capacity t.bytes) };
}

impl Tape {
    /// An empty tape of `room` bytes, that takes at most `most` of them at a write. Writes are
    /// numbered from 1, and those in `fails` fail.
    pub fn new(alloc: Global, room: usize, most: usize, fails: Vec<u64>) -> Result<Tape, AllocError>
        requires { 0 < most }
        ensures { IfOk result (λ t. t ≡ record { taken = []; room = room; most = most; fails = fails.items; writes = 0; faults = 0 }) }
    {
        Ok(Tape {
            bytes: Vec::with_capacity(alloc, room)?,
            room,
            most,
            fails,
            writes: 0,
            faults: 0,
        })
    }

    /// The bytes taken so far.
    pub fn taken(&self) -> &[u8]
        ensures { result.now ≡ self.now.taken }
    {
        self.bytes.as_slice()
    }
}

impl Sink for Tape {
    ghost taken = { λ tape. Some tape.taken };

    ghost faults = { λ tape. tape.faults };

    /// Fails exactly where its number is among those that fail, or the room is full.
    fn write(&mut self, bytes: &[u8]) -> Result<usize, SinkFailed>
        requires { 0 < length bytes.now }
        ensures count { IfOk result (λ n. (0 < n) × (n ≤ length bytes.now) × Grows (Some self.old.taken) (Some self.new.taken) (take n bytes.now)) }
        ensures failed { OnErr result (Grows (Some self.old.taken) (Some self.new.taken) [] × HasRisen self.old.faults self.new.faults) }
        ensures steady { IfOk result (λ _. self.new.faults ≡ self.old.faults) }
        ensures later { self.old.faults ≤ self.new.faults }

        ensures fails { IsErr result ↔ IsTrue (write_fails self.old) }
        ensures takes { IfOk result (λ n. n ≡ count_taken self.old bytes.now) }
        ensures after { self.new ≡ after_write self.old bytes.now }
    {
        self.writes = self.writes.saturating_add(1);
        let left = self.room - self.bytes.len();
        if left == 0 || self.fails.contains(&self.writes) {
            self.faults = self.faults.saturating_add(1);
            return Err(SinkFailed {});
        }
        let count = bytes.len().min(self.most.min(left));
        // This has the memory that it needs.
        let _ = self.bytes.extend_from_slice(&bytes[..count]);
        Ok(count)
    }
}

/// Takes each piece whole. It keeps and tells its bytes as long as all of them fit into its room;
/// after that it tells none.
#[derive(Drop)]
pub struct SureTape {
    bytes: Vec<u8>,
    room: usize,
    whole: bool,
}

impl Model for SureTape {
    ghost use Rattle.std.specs.Prelude.{◌≤◌, length, vec_capacity};
    ghost use Rattle.ca_outside.specs.Tape.{SureTapeState};

    ghost Value = { SureTapeState };

    ghost view = { λ t. record { kept = t.bytes.items; room = t.room; whole = t.whole } };

    // The memory of the whole room is taken at the start.
    ghost invariant = { λ t. (length t.bytes.items ≤ t.room) × (t.room ≤ vec_capacity t.bytes) };
}

impl SureTape {
    /// An empty tape that keeps up to `room` bytes.
    pub fn new(alloc: Global, room: usize) -> Result<SureTape, AllocError>
        ensures { IfOk result (λ t. t ≡ record { kept = []; room = room; whole = true }) }
    {
        Ok(SureTape {
            bytes: Vec::with_capacity(alloc, room)?,
            room,
            whole: true,
        })
    }

    /// The bytes that it keeps.
    pub fn taken(&self) -> &[u8]
        ensures { result.now ≡ self.now.kept }
    {
        self.bytes.as_slice()
    }
}

impl Sink for SureTape {
    ghost taken = { told };

    ghost faults = { λ _. 0 };

    fn write(&mut self, bytes: &[u8]) -> Result<usize, SinkFailed>
        requires { 0 < length bytes.now }
        ensures count { IfOk result (λ n. Grows (told self.old) (told self.new) (take n bytes.now)) }
        ensures whole { result ≡ Ok (length bytes.now) }
        ensures after { self.new ≡ after_sure_write self.old bytes.now }
    {
        self.whole = self.whole && bytes.len() <= self.room - self.bytes.len();
        if self.whole {
            // This has the memory that it needs.
            let _ = self.bytes.extend_from_slice(bytes);
        }
        Ok(bytes.len())
    }
}
