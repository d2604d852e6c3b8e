//! Clients on threads: one takes the keys in turn, removes each one's object and puts one of the round's number, and the others read ranges of all, each
//! of which must be a state between two of these calls. Bases are split and joined all the while.
ghost use Rattle.std.specs.Prelude.{◌≡◌, None};
ghost use Rattle.ca_model.specs.Runs.{IsOpen};
ghost use Rattle.ca_replace.specs.Resting.{knows};

use crate::calls::{put, remove};
use crate::objects::value_of;
use crate::ranges::{next, open_all};
use crate::trees::{ZERO, tree_of, tuning_of};
use ca_model::{Code, OrderedStore, Outcome};
use ca_replace::TreeStore;
use std::thread::{Threads, for_each_mut, sleep};
use std::time::{Clock, Duration};

// How many rounds of keys, and how many keys; for each of them a client reads one range.
const ROUNDS: u32 = 1_000;

const KEYS: u32 = 9;

// The value of each key's object.
type Values = [Option<u32>; 9];

// How many turns a call may lose to others, and how often one that is refused is tried again, a millisecond later each time: while the other
// client's thread is kept from going on in the middle of a call, rows that were retired since can't come free.
const BUDGET: u32 = 1_000;

const TRIES: u32 = 30_000;

// What a client does, and how many of its calls were refused for good or read what no state is.
struct Client<'t> {
    store: TreeStore<'t>,
    reads: bool,
    wrong: u32,
    pub ghost first: { store.store.z.keypos ≡ 1 },
    pub ghost closed: { (knows store).run ≡ None },
}

impl Drop for Client<'_> {
    fn drop(self) {
        let Self {
            store: _,
            reads: _,
            wrong: _,
        } = self;
    }
}

// The values that an open run hands out; `None` where it hands out any other object.
fn values_of(store: &mut TreeStore<'_>) -> Option<Values>
    requires open { IsOpen (knows store.old) }
    ensures sizes { store.new.store.z ≡ store.old.store.z }
{
    let mut into = Code::new();
    let mut values = [None; 9];
    let mut is_there = next(store, &mut into);
    for key in 0..KEYS {
        let value = value_of(into.as_slice(), key);
        if is_there && value != u32::MAX {
            values[key as usize] = Some(value);
            is_there = next(store, &mut into);
        }
    }
    if is_there { None } else { Some(values) }
}

// Whether the keys have these values between two calls of the client that writes: at one key at most nothing, or the first value of the round before.
fn is_state(values: &[Option<u32>]) -> bool {
    let (mut round, mut behind) = (None, 0_u32);
    for value in values {
        let Some(value) = *value else {
            behind = behind.saturating_add(1);
            continue;
        };
        let first = match round {
            Some(first) => first,
            None => value.saturating_add(behind),
        };
        round = Some(first);
        if value.saturating_add(behind) != first {
            behind = behind.saturating_add(1);
        }
        if value.saturating_add(behind) != first {
            return false;
        }
    }
    behind < 2
}

// Whether a range of all is a state; `None` where it was refused.
fn reads_state(store: &mut TreeStore<'_>) -> Option<bool>
    requires sizes { store.old.store.z.keypos ≡ 1 }
    requires closed { (knows store.old).run ≡ None }
    ensures sizes { store.new.store.z ≡ store.old.store.z }
    ensures closed { (knows store.new).run ≡ None }
{
    let is_state = if open_all(store, BUDGET) {
        match values_of(store) {
            Some(values) => Some(is_state(&values)),
            None => Some(false),
        }
    } else {
        None
    };
    store.close_run();
    is_state
}

impl<'t> Client<'t> {
    fn new(store: TreeStore<'t>, reads: bool) -> Client<'t>
        requires first { store.store.z.keypos ≡ 1 }
        requires closed { (knows store).run ≡ None }
    {
        Client {
            store,
            reads,
            wrong: 0,
        }
    }

    fn carry_out(&mut self, clock: &impl Clock) {
        for round in 0..ROUNDS {
            for key in 0..KEYS {
                if self.reads {
                    self.read(clock);
                } else {
                    self.edit(clock, key, None);
                    self.edit(clock, key, Some(round.saturating_add(1)));
                }
            }
        }
    }

    // Puts the object of this value, or removes the key's object.
    fn edit(&mut self, clock: &impl Clock, key: u32, value: Option<u32>) {
        for _ in 0..TRIES {
            if self.is_done(key, value) {
                return;
            }
            sleep(clock, Duration::from_millis(1));
        }
        self.wrong = self.wrong.saturating_add(1);
    }

    fn is_done(&mut self, key: u32, value: Option<u32>) -> bool {
        match value {
            Some(value) => put(&mut self.store, key, value, BUDGET) == Outcome::Done(()),
            None => matches!(
                remove(&mut self.store, key, &mut Code::new(), BUDGET),
                Outcome::Done(_)
            ),
        }
    }

    fn read(&mut self, clock: &impl Clock) {
        for _ in 0..TRIES {
            match reads_state(&mut self.store) {
                Some(true) => return,
                Some(false) => break,
                None => sleep(clock, Duration::from_millis(1)),
            }
        }
        self.wrong = self.wrong.saturating_add(1);
    }
}

// All work, each on a thread of its own.
fn work<T: Threads + Clock + Sync>(rt: &T, clients: &mut [Client<'_>]) {
    for_each_mut(
        rt,
        clients,
        4,
        &|_number, client: &mut Client<'_>| { client.carry_out(rt) },
    );
}

#[test]
fn a_range_is_a_state_between_two_calls(rt: HostRuntime) {
    // Behind each update of a calm base a join is due, and full bases are split.
    for (rows, leaf, calm) in [(2_000, 3, 0), (500, 2, -2_000), (500, 8, -2_000)] {
        let Ok(mut tree) = tree_of(rt.alloc(), rows, 4, tuning_of((leaf, 64, 250, calm)), ZERO)
        else {
            panic!(rt; "no memory")
        };
        let (Ok(a), Ok(b), Ok(c), Ok(d)) = (
            tree.enroll(rt.alloc()),
            tree.enroll(rt.alloc()),
            tree.enroll(rt.alloc()),
            tree.enroll(rt.alloc()),
        ) else {
            panic!(rt; "no pass")
        };
        let mut clients = [
            Client::new(TreeStore::new(&tree, a), false),
            Client::new(TreeStore::new(&tree, b), true),
            Client::new(TreeStore::new(&tree, c), true),
            Client::new(TreeStore::new(&tree, d), true),
        ];
        for key in 0..KEYS {
            clients[0].edit(&rt, key, Some(0));
        }
        work(&rt, &mut clients);
        for client in &clients {
            assert_eq!(rt; client.wrong, 0, "leaf {leaf}");
        }
        let (splits, joins) = clients[0].store.adapted();
        assert!(rt; splits > 0 && (joins > 0) == (calm < 0), "leaf {leaf}");
    }
}

// Values of three keys, and whether they are those between two calls.
const STATES: [([Option<u32>; 3], bool); 9] = [
    ([Some(5), Some(5), Some(5)], true),
    ([Some(5), Some(4), Some(4)], true),
    ([Some(5), None, Some(4)], true),
    ([None, Some(4), Some(4)], true),
    ([Some(5), Some(5), None], true),
    ([Some(5), None, Some(5)], false),
    ([Some(5), Some(4), None], false),
    ([Some(4), Some(5), Some(5)], false),
    ([Some(5), Some(3), Some(3)], false),
];

#[test]
fn only_values_between_two_calls_are_a_state(rt: HostRuntime) {
    for (values, wanted) in STATES {
        assert_eq!(rt; is_state(&values), wanted);
    }
}
