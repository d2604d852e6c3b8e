//! The place of output.
ghost use Rattle.std.specs.Prelude.{◌≡◌, ℕ, ◌≤◌, ◌<◌, List, [], length, take, Option, OnOk, OnErr, IfOk};
ghost use Rattle.ca_outside.specs.Known.{Grows, HasRisen};

/// A write that failed.
#[derive(Clone, Copy, Debug, PartialEq, Eq)]
pub struct SinkFailed {}

/// A place that takes bytes.
pub trait Sink {
    // The bytes taken so far, where they are told.
    ghost taken: { Self → Option (List ℕ) };

    // How often a write has failed.
    ghost faults: { Self → ℕ };

    /// Takes some of the first bytes, at least one, and answers how many. Taking none is a fault, and nothing else is one.
    fn write(&mut self, bytes: &[u8]) -> Result<usize, SinkFailed>
        requires { 0 < length bytes.now }

        ensures count { IfOk result (λ n. (0 < n) × (n ≤ length bytes.now)
            × Grows (taken self.old) (taken self.new) (take n bytes.now)) }
        ensures failed { OnErr result (Grows (taken self.old) (taken self.new) [] × HasRisen (faults self.old) (faults self.new)) }
        ensures steady { IfOk result (λ _. faults self.new ≡ faults self.old) }
        ensures later { faults self.old ≤ faults self.new };
}

/// Writes all of the bytes. Where the sink fails, it took some of them, and not all; else it had no fault meanwhile.
#[tactic(auto, using(crate::proofs::Growth::growing, crate::proofs::Counts::risen_since))]
pub fn write_out<S: Sink>(sink: &mut S, bytes: &[u8]) -> Result<(), SinkFailed>
    ensures ok { OnOk result (Grows (S.taken sink.old) (S.taken sink.new) bytes.now) }
    ensures failed { OnErr result ((n : ℕ) × (n < length bytes.now)
        × Grows (S.taken sink.old) (S.taken sink.new) (take n bytes.now)
        × HasRisen (S.faults sink.old) (S.faults sink.new)) }
    ensures steady { OnOk result (S.faults sink.new ≡ S.faults sink.old) }
    ensures later { S.faults sink.old ≤ S.faults sink.new }
{
    let mut at = 0;
    while at < bytes.len() {
        at += sink.write(&bytes[at..])?;
    }
    Ok(())
}
