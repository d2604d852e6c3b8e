//! The log of the fetches from a shelf.
ghost use Rattle.std.specs.Prelude.{◌≡◌, ◌<◌, [], map, None, Some, IfOk, IfErr, OnOk, OnErr, MatchOption, vec_len, vec_capacity};
ghost use Rattle.std.specs.String.{string_bytes};
ghost use Rattle.ca_outside.specs.Fetches.{fetched, fetched_of, with_fetch, told_fetches};

use crate::shelf::FetchFault;
use std::alloc::Global;

/// A fetch that was made: the name, and how it ended.
#[derive(Debug, Drop)]
pub struct Fetch {
    pub name: String,
    pub end: Result<(), FetchFault>,
}

// The fetches from a shelf, in order. It tells them as long as each found memory for its entry.
#[derive(Drop)]
pub struct FetchLog {
    made: Vec<Fetch>,
    whole: bool,
}

impl FetchLog {
    // A log of no fetch. It takes no memory.
    pub fn new(alloc: Global) -> FetchLog
        ensures { told_fetches result ≡ Some [] }
    {
        FetchLog {
            made: Vec::new(alloc),
            whole: true,
        }
    }

    // Before a fetch: room for its entry, and the name for it. Without memory the fetch is not to be made, and the log
    // tells nothing from then on.
    pub fn reserve(&mut self, alloc: Global, name: &str) -> Result<String, FetchFault>
        ensures name { IfOk result (λ copy. string_bytes copy ≡ name.now) }
        ensures room { OnOk result (vec_len self.new.made < vec_capacity self.new.made) }
        ensures same { OnOk result (told_fetches self.new ≡ told_fetches self.old) }
        ensures lost { OnErr result (told_fetches self.new ≡ None) }
        ensures cause { IfErr result (λ fault. fault ≡ FetchFault.NoMemory) }
    {
        let (Ok(copy), Ok(())) = (name.to_string(alloc), self.made.reserve(1)) else {
            self.whole = false;
            return Err(FetchFault::NoMemory);
        };
        Ok(copy)
    }

    // After a fetch: its entry.
    pub fn add(&mut self, name: String, end: Result<(), FetchFault>)
        requires { vec_len self.old.made < vec_capacity self.old.made }
        ensures { told_fetches self.new ≡ with_fetch (told_fetches self.old) (fetched (string_bytes name) end) }
    {
        self.made.push_reserved(Fetch { name, end });
    }

    // The fetches so far, where they are told.
    pub fn told(&self) -> Option<&[Fetch]>
        ensures { MatchOption result
            (told_fetches self.now ≡ None)
            (λ made. told_fetches self.now ≡ Some (map fetched_of made.now)) }
    {
        if self.whole {
            Some(self.made.as_slice())
        } else {
            None
        }
    }
}
