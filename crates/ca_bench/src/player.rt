//! A client of a tree that grows, which plays a mix of calls on objects of numbers.
ghost use Rattle.std.specs.Prelude.{◌≡◌, IsTrue, None};
ghost use Rattle.ca_bench.specs.Numbers.{number_code};
ghost use Rattle.ca_model.specs.Function.{StandsAt};
ghost use Rattle.ca_model.specs.StoreMap.{IsPair};
ghost use Rattle.ca_replace.specs.Resting.{knows};

use crate::coded::Coded;
use crate::draws::{Draws, even, skewed};
use crate::numbers::{counter_of, key_code, object, write_next};
use crate::ranges::count_range;
use ca_model::{Changed, Code, OrderedStore, Outcome};
use ca_replace::TreeStore;
use std::thread::yield_now;

/// How many turns a call may lose to other clients.
pub const BUDGET: u32 = 1_000;

// How often a call that is refused is tried again.
const TRIES: u32 = 1_000_000;

// How far a hot spot moves, and how far the next key of a wave is: with 20,000 keys and their halves such steps come to all of them.
const STEP: u32 = 7_919;

/// Which calls are played.
#[derive(Clone, Copy)]
pub enum Mix {
    /// Lookups.
    Lookups,
    /// Half lookups, a quarter puts and a quarter removals.
    Mixed,
    /// Lookups, of small keys far more often.
    SkewedLookups,
    /// Half lookups, a quarter puts and a quarter removals, of small keys far more often.
    SkewedMixed,
    /// Changes that add one to one of so many counters.
    Counters(u32),
    /// Of a hundred calls 55 lookups, ten puts, ten removals, and 25 ranges of about one object up to so many.
    Ranges(u32),
    /// Half lookups, a quarter puts and a quarter removals, of keys near one far more often, which is another one behind each so many calls of a client.
    Moving(u32),
    /// Removals of all objects and puts of them in turns, by so many clients, of which each has a share of the keys.
    Waves(u32),
    /// Lookups of keys that are there.
    Present,
    /// Puts of keys that are there.
    Puts,
    /// Half lookups and a quarter puts of keys that are there, and a quarter calls at keys that come and go.
    ComeAndGo,
}

/// What clients play with: keys below a count, of which those below another one are always there, and the codes of objects by their keys. Where there
/// are no codes, a key has an object of numbers.
#[derive(Clone, Copy)]
pub struct Load<'t> {
    pub keys: u32,
    pub present: u32,
    pub coded: &'t [Coded],
}

/// Keys below the count, which have objects of numbers.
pub fn numbers_below(keys: u32) -> Load<'static> {
    Load {
        keys,
        present: 0,
        coded: &[],
    }
}

/// A pass on a tree, and what it plays with.
pub struct Player<'t> {
    store: TreeStore<'t>,
    load: Load<'t>,
    number: u32,
    draws: Draws,
    good: u32,
    full: u32,
    busy: u32,
    into: Code,
    pub ghost first: { store.store.z.keypos ≡ 1 },
    pub ghost closed: { (knows store).run ≡ None },
}

impl Drop for Player<'_> {
    fn drop(self) {
        let Self {
            store: _,
            load: _,
            number: _,
            draws: _,
            good: _,
            full: _,
            busy: _,
            into: _,
        } = self;
    }
}

impl<'t> Player<'t> {
    /// A client of this load. Clients of other numbers play in another order.
    pub fn new(store: TreeStore<'t>, load: Load<'t>, number: u32) -> Player<'t>
        requires first { store.store.z.keypos ≡ 1 }
        requires closed { (knows store).run ≡ None }
    {
        Player {
            store,
            load,
            number,
            draws: Draws::new(number),
            good: 0,
            full: 0,
            busy: 0,
            into: Code::new(),
        }
    }

    /// How many calls were answered as they must be.
    pub fn good(&self) -> u32 {
        self.good
    }

    /// How often a call was refused for want of rows, and tried again.
    pub fn full(&self) -> u32 {
        self.full
    }

    /// How often a call was refused for another reason, and tried again.
    pub fn busy(&self) -> u32 {
        self.busy
    }

    /// How many splits and how many joins this client carried out.
    pub fn adapted(&self) -> (u64, u64) {
        self.store.adapted()
    }

    /// Puts an object of each of these keys.
    pub fn fill(&mut self, keys: &[u32]) {
        for key in keys {
            let done = self.put(*key);
            self.count(done);
        }
    }

    /// Puts an object of this key.
    pub fn try_put(&mut self, key: u32) -> Outcome<()> {
        match self.load.coded.get(key as usize) {
            Some(coded) => coded.put_into(&mut self.store),
            None => self.store.put(&object(key, 0), 5, 10, BUDGET),
        }
    }

    /// Plays so many calls.
    pub fn play(&mut self, mix: Mix, calls: u32) {
        for number in 0..calls {
            let done = self.call(mix, number);
            self.count(done);
        }
    }

    /// The sum of all counters; 0 where objects have codes.
    pub fn total(&mut self) -> u32 {
        let mut total = 0_u32;
        if !self.load.coded.is_empty() {
            return total;
        }
        for key in 0..self.load.keys {
            if self.get(key) {
                total = total.wrapping_add(counter_of(self.into.as_slice()));
            }
        }
        total
    }

    fn count(&mut self, done: bool) {
        if done {
            self.good = self.good.wrapping_add(1);
        }
    }

    // Counts a call that was refused, and lets others go on: while another client's thread is kept from going on in the middle of a call, rows that
    // were retired since can't come free.
    fn refuse<T>(&mut self, outcome: &Outcome<T>) {
        if matches!(outcome, Outcome::Full(_)) {
            self.full = self.full.saturating_add(1);
        } else {
            self.busy = self.busy.saturating_add(1);
        }
        yield_now();
    }

    // The call of this number, from 0 on.
    fn call(&mut self, mix: Mix, number: u32) -> bool {
        let drawn = self.draws.draw();
        let Load { keys, present, .. } = self.load;
        match mix {
            Mix::Lookups => self.look_up(even(drawn, keys)),
            Mix::Mixed => self.come_or_go(drawn, even(drawn, keys)),
            Mix::SkewedLookups => self.look_up(skewed(drawn, keys)),
            Mix::SkewedMixed => self.come_or_go(drawn, skewed(drawn, keys)),
            Mix::Counters(count) => self.raise(counter_key(drawn, count, keys)),
            Mix::Ranges(most) => self.look_or_range(even(drawn, keys), most),
            Mix::Moving(calls) => self.come_or_go(drawn, near(drawn, number / calls.max(1), keys)),
            Mix::Waves(clients) => self.roll(number, clients, keys / 2),
            Mix::Present => self.get(even(drawn, present)),
            Mix::Puts => self.put(even(drawn, present)),
            Mix::ComeAndGo => self.use_present(drawn, present, keys),
        }
    }

    // A lookup or a put of a key that is there, or a call at another one.
    fn use_present(&mut self, drawn: u32, present: u32, keys: u32) -> bool {
        let other = present.wrapping_add(even(drawn, keys.wrapping_sub(present)));
        match drawn % 8 {
            0 | 1 | 4 | 5 => self.get(even(drawn, present)),
            2 | 6 => self.put(even(drawn, present)),
            3 => self.put_new(other),
            _ => self.remove(other).is_some(),
        }
    }

    // A lookup while only even keys are there.
    fn look_up(&mut self, key: u32) -> bool {
        self.get(key) == (key % 2 == 0)
    }

    fn come_or_go(&mut self, drawn: u32, key: u32) -> bool {
        match drawn % 4 {
            0 | 1 => {
                let _found = self.get(key);
                true
            }
            2 => self.put(key),
            _ => self.remove(key).is_some(),
        }
    }

    // A removal or a put of the next object of this client's share, all of which go and come in turns.
    fn roll(&mut self, number: u32, clients: u32, objects: u32) -> bool {
        let share = (objects / clients.max(1)).max(1);
        let place = (number % share).wrapping_mul(STEP) % share;
        let key = place
            .wrapping_mul(clients)
            .wrapping_add(self.number)
            .wrapping_sub(1)
            .wrapping_mul(2);
        if number / share % 2 == 0 {
            self.remove(key) == Some(true)
        } else {
            self.put(key)
        }
    }

    // Half of the keys that a range is of are there, or about that many.
    fn look_or_range(&mut self, key: u32, most: u32) -> bool {
        match even(self.draws.draw(), 100) {
            0..55 => {
                let _found = self.get(key);
                true
            }
            55..65 => self.put(key),
            65..75 => self.remove(key).is_some(),
            _ => {
                let objects = even(self.draws.draw(), most).wrapping_add(1);
                self.range(key, objects.wrapping_mul(2))
            }
        }
    }

    fn get(&mut self, key: u32) -> bool {
        match self.load.coded.get(key as usize) {
            Some(coded) => coded.is_in(&mut self.store, &mut self.into),
            None => self.store.get(&key_code(key), &mut self.into, BUDGET) == Outcome::Done(true),
        }
    }

    fn put(&mut self, key: u32) -> bool {
        for _ in 0..TRIES {
            let outcome = self.try_put(key);
            if outcome == Outcome::Done(()) {
                return true;
            }
            self.refuse(&outcome);
        }
        false
    }

    // Whether the key's object was there; nothing where each try was refused.
    fn remove(&mut self, key: u32) -> Option<bool> {
        for _ in 0..TRIES {
            let outcome = self.try_remove(key);
            if let Outcome::Done(found) = outcome {
                return Some(found);
            }
            self.refuse(&outcome);
        }
        None
    }

    // Reads the objects whose keys are this one or one of so many behind it.
    fn range(&mut self, key: u32, width: u32) -> bool {
        for _ in 0..TRIES {
            let (outcome, count) = count_range(&mut self.store, key, width, &mut self.into);
            if matches!(outcome, Outcome::Done(_)) {
                return count <= width.saturating_add(1);
            }
            self.refuse(&outcome);
        }
        false
    }

    fn try_remove(&mut self, key: u32) -> Outcome<bool> {
        match self.load.coded.get(key as usize) {
            Some(coded) => coded.remove_from(&mut self.store, &mut self.into),
            None => self.store.remove(&key_code(key), &mut self.into, BUDGET),
        }
    }

    fn put_new(&mut self, key: u32) -> bool {
        for _ in 0..TRIES {
            let Some(coded) = self.load.coded.get(key as usize) else {
                return false;
            };
            let outcome = coded.put_new_into(&mut self.store);
            if matches!(outcome, Outcome::Done(_)) {
                return true;
            }
            self.refuse(&outcome);
        }
        false
    }

    fn raise(&mut self, key: u32) -> bool {
        for _ in 0..TRIES {
            let outcome = raise(&mut self.store, key, &mut self.into);
            if let Outcome::Done(changed) = outcome {
                return changed == Changed::Put;
            }
            self.refuse(&outcome);
        }
        false
    }
}

// A key near the hot spot of this number far more often than another one.
fn near(drawn: u32, spot: u32, keys: u32) -> u32 {
    let from = spot.wrapping_mul(STEP) % keys.max(1);
    from.wrapping_add(skewed(drawn, keys)) % keys.max(1)
}

// The key of one of so many counters, which stand far from each other.
fn counter_key(drawn: u32, count: u32, keys: u32) -> u32 {
    let apart = keys / count.max(1);
    even(drawn, count)
        .wrapping_mul(apart)
        .wrapping_add(apart / 2)
}

// Puts the object whose counter is one more in the place of the key's object.
fn raise(store: &mut TreeStore<'_>, key: u32, old: &mut Code) -> Outcome<Changed>
    requires sizes { store.old.store.z.keypos ≡ 1 }
    requires closed { (knows store.old).run ≡ None }
    ensures sizes { store.new.store.z ≡ store.old.store.z }
    ensures closed { (knows store.new).run ≡ None }
{
    let write = |object: &[u8], into: &mut Code, at: &mut usize| -> bool
        ensures { IsTrue result → IsPair 1 (number_code key, into.new.items) × StandsAt (number_code key) into.new.items at.new }
    { write_next(object, key, into, at) };
    store.change(&key_code(key), &write, old, BUDGET)
}
