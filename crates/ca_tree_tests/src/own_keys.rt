//! Clients whose keys are their own, so that each knows what it left.
ghost use Rattle.std.specs.Prelude.{◌≡◌, ◌<◌, None};
ghost use Rattle.ca_replace.specs.Resting.{knows};
ghost use Rattle.ca_rows.specs.Closed.{IsClosable};

use crate::calls::{put, remove};
use ca_model::{Code, Outcome};
use ca_node::TreePass;
use ca_replace::TreeStore;
use std::thread::sleep;
use std::time::{Clock, Duration};

// How many keys are a client's own, and how many calls it makes.
const KEYS: u32 = 60;

const CALLS: u32 = 3_000;

// How many turns a call may lose to others, and how often one that is refused is tried again, a millisecond later each time.
const BUDGET: u32 = 1_000;

const TRIES: u32 = 30_000;

/// For each key of a client what its last call left there: one more than the object's value, or 0 where there is none.
pub(crate) type Left = [u32; KEYS as usize];

/// A client, whose keys are its own and stand beside those of the others in the tree's bases.
pub(crate) struct Client<'t> {
    store: TreeStore<'t>,
    number: u32,
    drawn: u32,
    left: Left,
    refused: u32,
    pub ghost first: { store.store.z.keypos ≡ 1 },
    pub ghost closed: { (knows store).run ≡ None },
}

impl Drop for Client<'_> {
    fn drop(self) {
        let Self {
            store: _,
            number: _,
            drawn: _,
            left: _,
            refused: _,
        } = self;
    }
}

impl<'t> Client<'t> {
    /// The client with this number, which each other one has another one of.
    pub(crate) fn new(store: TreeStore<'t>, number: u32) -> Client<'t>
        requires first { store.store.z.keypos ≡ 1 }
        requires closed { (knows store).run ≡ None }
        ensures table { result.store.store.table ≡ store.entry.store.table }
    {
        Client {
            store,
            number,
            drawn: number,
            left: [0; KEYS as usize],
            refused: 0,
        }
    }

    /// Its pass, what its calls left, and how many of them were refused for good.
    pub(crate) fn into_parts(self) -> (TreePass, Left, u32)
        ensures { IsClosable self.entry.store.store.table result.0.seat }
    {
        let Self {
            store,
            number: _,
            drawn: _,
            left,
            refused,
        } = self;
        (store.into_pass(), left, refused)
    }

    // The next number of an order without pattern.
    fn draw(&mut self) -> u32
        ensures table { self.new.store.store.table ≡ self.old.store.store.table }
    {
        let next = u64::from(self.drawn).wrapping_mul(16_807) % 2_147_483_647;
        self.drawn = next as u32;
        self.drawn
    }

    /// Makes its calls.
    pub(crate) fn play(&mut self, clock: &impl Clock)
        ensures { self.new.store.store.table ≡ self.old.store.store.table }
    {
        for _ in 0..CALLS {
            let drawn = self.draw();
            self.call(clock, drawn / 4 % KEYS, drawn % 4 == 0);
        }
    }

    // Removes an object, or puts one of a new value, and tries it again where it is refused.
    fn call(&mut self, clock: &impl Clock, at: u32, removes: bool)
        requires { at < 60 }
        ensures { self.new.store.store.table ≡ self.old.store.store.table }
    {
        let value = self.drawn % 65_536;
        for _ in 0..TRIES {
            if self.is_done(at, value, removes) {
                self.left[at as usize] = if removes { 0 } else { value + 1 };
                return;
            }
            sleep(clock, Duration::from_millis(1));
        }
        self.refused = self.refused.saturating_add(1);
    }

    // Whether the object was removed, or put.
    fn is_done(&mut self, at: u32, value: u32, removes: bool) -> bool
        ensures { self.new.store.store.table ≡ self.old.store.store.table }
    {
        let key = self.number.wrapping_mul(KEYS).wrapping_add(at);
        if removes {
            let mut old = Code::new();
            return matches!(
                remove(&mut self.store, key, &mut old, BUDGET),
                Outcome::Done(_)
            );
        }
        put(&mut self.store, key, value, BUDGET) == Outcome::Done(())
    }
}
