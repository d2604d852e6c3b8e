//! The sink of an output.
ghost use Rattle.std.specs.Prelude.{◌≡◌, ◌≤◌, ◌<◌, if◌then◌else◌, length, take, None, is_ok, IfOk, OnErr};
ghost use Rattle.std.specs.Io.KnownBytes.{Appends, Keeps};
ghost use Rattle.ca_outside.specs.Count.{next_count};
ghost use Rattle.ca_outside.specs.Known.{HasRisen};

use crate::sink::{Sink, SinkFailed};
use std::io::Write;
use std::marker::Model;

/// An output. As a sink it tells no bytes.
#[derive(Drop)]
pub struct OutSink<W: Write + Drop> {
    out: W,
    faults: u64,
}

impl<W: Write + Drop> Model for OutSink<W> {
    ghost use Rattle.ca_outside.specs.Output.{OutputState};

    ghost Value = { OutputState };

    ghost view = { λ sink. record { written = W.contents sink.out; faults = sink.faults } };
}

impl<W: Write + Drop> OutSink<W> {
    /// A sink that has not failed yet.
    pub fn new(out: W) -> OutSink<W>
        ensures { result ≡ record { written = W.contents out; faults = 0 } }
    {
        OutSink { out, faults: 0 }
    }

    /// How often a write has failed.
    pub fn faults(&self) -> u64
        ensures { result ≡ self.now.faults }
    {
        self.faults
    }
}

impl<W: Write + Drop> Sink for OutSink<W> {
    ghost taken = { λ sink. None };

    ghost faults = { λ sink. sink.faults };

    /// Writes to the output once. An output that takes nothing has failed.
    fn write(&mut self, bytes: &[u8]) -> Result<usize, SinkFailed>
        requires { 0 < length bytes.now }
        ensures count { IfOk result (λ n. (0 < n) × (n ≤ length bytes.now)) }
        ensures failed { OnErr result (HasRisen self.old.faults self.new.faults) }
        ensures steady { IfOk result (λ _. self.new.faults ≡ self.old.faults) }
        ensures later { self.old.faults ≤ self.new.faults }

        ensures written { IfOk result (λ n. Appends self.old.written self.new.written (take n bytes.now)) }
        ensures counted { self.new.faults ≡ (if is_ok result then self.old.faults else next_count self.old.faults) }
        ensures kept { OnErr result (Keeps self.old.written self.new.written) }
    {
        match self.out.write(bytes) {
            Ok(count) if count > 0 => Ok(count),
            _ => {
                self.faults = self.faults.saturating_add(1);
                Err(SinkFailed {})
            }
        }
    }
}
