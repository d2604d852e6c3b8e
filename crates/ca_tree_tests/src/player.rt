//! Clients, each with a pass of its own, which note what their calls were answered.
ghost use Rattle.std.specs.Prelude.{◌≡◌, None};
ghost use Rattle.ca_replace.specs.Resting.{knows};

use crate::calls::{get, put, put_new, raise, remove};
use crate::events::{Entry, Event};
use crate::objects::value_of;
use ca_model::{Changed, Code, Outcome};
use ca_replace::TreeStore;
use std::alloc::Global;
use std::thread::sleep;
use std::time::{Clock, Duration};

// How many turns a call may lose to others.
const BUDGET: u32 = 1_000;

// How often a call that is refused is tried again, a millisecond later each time. While another client's thread is kept from going on in the middle
// of a call, rows that were retired since can't come free, so the others are refused once they used up the rest.
const TRIES: u32 = 30_000;

// Lets others go on, before a call that was refused is tried again.
fn wait(clock: &impl Clock) {
    sleep(clock, Duration::from_millis(1));
}

/// What clients do, each on a thread of its own.
#[derive(Clone, Copy)]
pub(crate) enum Work {
    /// Plays so many turns. In each a client draws a key, of this many that it shares and one of its own, and a call. A key with an odd number is
    /// never overwritten.
    Play(u32, u32),
    /// Raises the value of a counter so many times: that of this key.
    Count(u32, u32),
}

/// A client of a tree, what it noted, and how many of its calls were refused for good.
pub(crate) struct Player<'t> {
    store: TreeStore<'t>,
    number: u32,
    turn: u32,
    drawn: u32,
    log: Vec<Entry>,
    refused: u32,
    pub ghost first: { store.store.z.keypos ≡ 1 },
    pub ghost closed: { (knows store).run ≡ None },
}

impl Drop for Player<'_> {
    fn drop(self) {
        let Self {
            store: _,
            number: _,
            turn: _,
            drawn: _,
            log: _,
            refused: _,
        } = self;
    }
}

impl<'t> Player<'t> {
    /// The client with this number, from 1 to 7, which each other client has another one of.
    pub(crate) fn new(alloc: Global, store: TreeStore<'t>, number: u32) -> Player<'t>
        requires first { store.store.z.keypos ≡ 1 }
        requires closed { (knows store).run ≡ None }
    {
        Player {
            store,
            number,
            turn: 0,
            drawn: number,
            log: Vec::new(alloc),
            refused: 0,
        }
    }

    /// How many bases it split, and how many times it joined two.
    pub(crate) fn adapted(&self) -> (u64, u64) {
        self.store.adapted()
    }

    /// What it noted, in the order of its calls.
    pub(crate) fn log(&self) -> &[Entry] {
        self.log.as_slice()
    }

    /// How many of its calls were refused each time, or found no memory for their note.
    pub(crate) fn refused(&self) -> u32 {
        self.refused
    }

    /// The value of the key's object.
    pub(crate) fn value(&mut self, key: u32) -> Option<u32> {
        let mut into = Code::new();
        if get(&mut self.store, key, &mut into) {
            Some(value_of(into.as_slice(), key))
        } else {
            None
        }
    }

    /// Does its part of the work.
    pub(crate) fn carry_out(&mut self, clock: &impl Clock, work: Work) {
        match work {
            Work::Play(turns, shared) => {
                for _ in 0..turns {
                    self.play(clock, shared);
                }
            }
            Work::Count(turns, counter) => {
                for _ in 0..turns {
                    self.raise(clock, counter);
                }
            }
        }
    }

    /// Puts a counter of value 0.
    pub(crate) fn start_counter(&mut self, counter: u32) {
        if put(&mut self.store, counter, 0, BUDGET) == Outcome::Done(()) {
            self.note(counter, Event::Put(0));
        } else {
            self.refuse();
        }
    }

    // The key that no other client uses.
    fn own_key(&self) -> u32 {
        self.number.saturating_add(200)
    }

    // A turn.
    fn play(&mut self, clock: &impl Clock, shared: u32) {
        let drawn = self.draw();
        let at = drawn / 16 % shared.saturating_add(1);
        let key = if at < shared { at } else { self.own_key() };
        match drawn % 8 {
            0 if key % 2 == 0 => self.put(clock, key),
            0 | 1 => self.put_new(clock, key),
            2 | 3 => self.remove(clock, key),
            _ => self.get(key),
        }
    }

    // The next number of an order without pattern.
    fn draw(&mut self) -> u32 {
        let next = u64::from(self.drawn).wrapping_mul(16_807) % 2_147_483_647;
        self.drawn = next as u32;
        self.drawn
    }

    // A value that no other call puts.
    fn new_value(&mut self) -> u32 {
        self.turn = self.turn.wrapping_add(1) % 2_097_152;
        self.number.wrapping_mul(2_097_152).wrapping_add(self.turn) % 16_777_216
    }

    fn note(&mut self, key: u32, event: Event) {
        if self.log.push(Entry { key, event }).is_err() {
            self.refuse();
        }
    }

    fn refuse(&mut self) {
        self.refused = self.refused.saturating_add(1);
    }

    fn get(&mut self, key: u32) {
        let found = self.value(key);
        self.note(key, Event::Got(found));
    }

    fn put(&mut self, clock: &impl Clock, key: u32) {
        let value = self.new_value();
        for _ in 0..TRIES {
            if put(&mut self.store, key, value, BUDGET) == Outcome::Done(()) {
                return self.note(key, Event::Put(value));
            }
            wait(clock);
        }
        self.refuse();
    }

    fn put_new(&mut self, clock: &impl Clock, key: u32) {
        let value = self.new_value();
        for _ in 0..TRIES {
            match put_new(&mut self.store, key, value, BUDGET) {
                Outcome::Done(true) => return self.note(key, Event::PutNew(value)),
                Outcome::Done(false) => return self.note(key, Event::NotNew),
                _ => wait(clock),
            }
        }
        self.refuse();
    }

    fn remove(&mut self, clock: &impl Clock, key: u32) {
        let mut old = Code::new();
        for _ in 0..TRIES {
            match remove(&mut self.store, key, &mut old, BUDGET) {
                Outcome::Done(true) => {
                    let value = value_of(old.as_slice(), key);
                    return self.note(key, Event::Removed(Some(value)));
                }
                Outcome::Done(false) => return self.note(key, Event::Removed(None)),
                _ => wait(clock),
            }
        }
        self.refuse();
    }

    fn raise(&mut self, clock: &impl Clock, key: u32) {
        let mut old = Code::new();
        for _ in 0..TRIES {
            match raise(&mut self.store, key, true, &mut old, BUDGET) {
                Outcome::Done(Changed::Put) => {
                    let value = value_of(old.as_slice(), key);
                    return self.note(key, Event::Raised(Some(value)));
                }
                Outcome::Done(_) => return self.note(key, Event::Raised(None)),
                _ => wait(clock),
            }
        }
        self.refuse();
    }
}
