//! The source of files.
ghost use Rattle.std.specs.Prelude.{◌≡◌, ℕ, ◌≤◌, List, [], ◌∷◌, length, Option, IsSome, OnOk, OnErr, IsErrOf};
ghost use Rattle.ca_outside.specs.Fetches.{Fetched, fetched};
ghost use Rattle.ca_outside.specs.Known.{Content, Tells, IsOver, HasRisen, Grows};

use std::alloc::Global;

/// Why a file was not fetched.
#[derive(Clone, Copy, Debug, PartialEq, Eq)]
pub enum FetchFault {
    /// The source failed.
    Failed,
    /// The file has more bytes than there is room.
    TooLong,
    /// There was no memory for its bytes.
    NoMemory,
}

/// A source of files by name. A name and a content are lists of bytes.
pub trait Shelf {
    // What is told of a name.
    ghost content: { Self → List ℕ → Content };

    // How often a fetch has failed.
    ghost faults: { Self → ℕ };

    // The fetches so far in order, where they are told.
    ghost fetches: { Self → Option (List Fetched) };

    /// Fetches the file of this name, of at most `room` bytes, into an empty vector.
    fn fetch(
        &mut self,
        alloc: Global,
        name: &str,
        room: usize,
        into: &mut Vec<u8>,
    ) -> Result<(), FetchFault>
        requires { into.old.items ≡ [] }

        ensures found { OnOk result (Tells (content self.old name.now) into.new.items) }
        ensures fits { OnOk result (length into.new.items ≤ room) }

        // After a refusal nothing was fetched, and each refusal has its cause.
        ensures empty { OnErr result (into.new.items ≡ []) }
        ensures too_long { IsErrOf result FetchFault.TooLong → IsOver room (content self.old name.now) }
        ensures failed { IsErrOf result FetchFault.Failed → HasRisen (faults self.old) (faults self.new) }

        // The call adds one fetch, of its own name and with its own end. Only for want of memory the fetches are told no more.
        ensures logged { Grows (fetches self.old) (fetches self.new) (fetched name.now result ∷ []) }
        ensures told { ¬ IsErrOf result FetchFault.NoMemory → IsSome (fetches self.old) → IsSome (fetches self.new) }

        ensures later { faults self.old ≤ faults self.new }
        ensures same { (n : List ℕ) → content self.new n ≡ content self.old n };
}
