//! Calls whose budget is one turn, whose counters are at their last values, or beside which a run stays open: each is refused by its cause and changes nothing, and
//! the calls that don't need what is missing are done.
ghost use Rattle.std.specs.Prelude.{◌≡◌, ◌≤◌, None};
ghost use Rattle.ca_replace.specs.Resting.{knows};

use crate::calls::{has, keys_in, put, put_all, remove};
use crate::objects::object;
use crate::trees::{Few, ZERO, tree_of, tuning_of};
use ca_adapt::{Adapted, Why};
use ca_model::{Code, Counter, Edge, FullCause, OrderedStore, Outcome, Spent};
use ca_replace::TreeStore;
use ca_rows::Starts;
use std::alloc::Global;

// At most two objects in a base, and eight levels; no update makes anything due.
const STAIRS: Few = (2, 8, 250, -1);

// Two updates of a base make a join due.
const COLD: Few = (2, 8, 250, -600);

// One base.
const ONE_BASE: Few = (120, 0, 250, -1);

// One turn went to a split.
const ONE_SPLIT: Spent = Spent {
    lost: 0,
    helped: 0,
    passed: 1,
};

// What a put of one turn comes to beside two objects in a full base, which keys there are then, and how many bases were split and joined; the same of another
// such put.
type Turns = ((Outcome<()>, u8, (u64, u64)), (Outcome<()>, u8));

fn two_turns(alloc: Global) -> Option<Turns> {
    let Ok(mut tree) = tree_of(alloc, 384, 1, tuning_of(STAIRS), ZERO) else {
        return None;
    };
    let Ok(pass) = tree.enroll(alloc) else {
        return None;
    };
    let mut store = TreeStore::new(&tree, pass);
    if !put_all(&mut store, &[1, 2], 1) {
        return None;
    }
    let first = put(&mut store, 3, 0, 1);
    let split = (first, keys_in(&mut store), store.adapted());
    let second = put(&mut store, 3, 0, 1);
    Some((split, (second, keys_in(&mut store))))
}

#[test]
fn a_split_takes_the_one_turn_of_a_put(rt: HostRuntime) {
    let split = (Outcome::Busy(ONE_SPLIT), 0b0110, (1, 0));
    let wanted = Some((split, (Outcome::Done(()), 0b1110)));
    assert_eq!(rt; two_turns(rt.alloc()), wanted);
}

// What a range of all objects comes to; its run is closed.
fn range_all(store: &mut TreeStore<'_>, budget: u32) -> Outcome<bool>
    requires sizes { (store.old.store.z.keypos ≡ 1) × (1 ≤ budget) }
    requires closed { (knows store.old).run ≡ None }
    ensures sizes { store.new.store.z ≡ store.old.store.z }
    ensures closed { (knows store.new).run ≡ None }
{
    let outcome = store.range(Edge::Open, Edge::Open, 0, &|_object: &[u8]| true, budget);
    store.close_run();
    outcome
}

// Whether the first object of all is this key's.
fn begins_with(store: &mut TreeStore<'_>, key: u32, budget: u32) -> bool
    requires sizes { 1 ≤ budget }
    requires closed { (knows store.old).run ≡ None }
    ensures sizes { store.new.store.z ≡ store.old.store.z }
    ensures closed { (knows store.new).run ≡ None }
{
    let mut code = Code::new();
    store.above(Edge::Open, &mut code, budget) == Outcome::Done(true)
        && code.as_slice() == object(key, 0).as_slice()
}

// Whether the ten keys in nine bases are read one by one, and no range of several bases is begun any more: call by call.
fn with_last_sequence(alloc: Global) -> Option<[bool; 7]> {
    let last = Starts {
        sequence: (1 << 38) - 1,
        ..ZERO
    };
    let Ok(mut tree) = tree_of(alloc, 384, 1, tuning_of(STAIRS), last) else {
        return None;
    };
    let Ok(pass) = tree.enroll(alloc) else {
        return None;
    };
    let mut store = TreeStore::new(&tree, pass);
    if !put_all(&mut store, &[1, 2, 3, 4, 5, 6, 7, 8, 9, 10], 64) {
        return None;
    }
    Some([
        put(&mut store, 11, 0, 64) == Outcome::Deep(8),
        range_all(&mut store, 64) == Outcome::Worn(Counter::Sequence),
        begins_with(&mut store, 1, 64),
        has(&mut store, 7, 0),
        put(&mut store, 7, 5, 64) == Outcome::Done(()),
        has(&mut store, 7, 5),
        range_all(&mut store, 64) == Outcome::Worn(Counter::Sequence),
    ])
}

#[test]
fn a_worn_sequence_refuses_ranges_alone(rt: HostRuntime) {
    assert_eq!(rt; with_last_sequence(rt.alloc()), Some([true; 7]));
}

// The route of the first split begins with the last attempt that there is, so its bases are never joined.
// What a remove comes to that makes a join due, how many bases were split and joined, what was done about its base, and the keys that there are then.
type Worn = (Outcome<bool>, (u64, u64), (i64, Adapted), u8);

fn with_last_attempt(alloc: Global) -> Option<Worn> {
    let last = Starts {
        attempt: (1 << 62) - 1,
        ..ZERO
    };
    let Ok(mut tree) = tree_of(alloc, 384, 1, tuning_of(COLD), last) else {
        return None;
    };
    let Ok(pass) = tree.enroll(alloc) else {
        return None;
    };
    let mut store = TreeStore::new(&tree, pass);
    if !put_all(&mut store, &[1, 2, 3], 64) {
        return None;
    }
    let removed = remove(&mut store, 3, 64);
    let (adapted, last) = (store.adapted(), store.last_adapted());
    Some((removed, adapted, last, keys_in(&mut store)))
}

#[test]
fn a_worn_attempt_refuses_the_join_alone(rt: HostRuntime) {
    let last = (-1_200, Adapted::NotJoined(Why::Worn));
    let wanted = Some((Outcome::Done(true), (1, 0), last, 0b0110));
    assert_eq!(rt; with_last_attempt(rt.alloc()), wanted);
}

// How often an object was put until that was refused, and the refusal.
fn put_often(store: &mut TreeStore<'_>, key: u32) -> (u32, Outcome<()>)
    requires sizes { store.old.store.z.keypos ≡ 1 }
    requires closed { (knows store.old).run ≡ None }
    ensures sizes { store.new.store.z ≡ store.old.store.z }
    ensures closed { (knows store.new).run ≡ None }
{
    for time in 0..1_000_u32 {
        let outcome = put(store, key, 0, 1);
        if outcome != Outcome::Done(()) {
            return (time, outcome);
        }
    }
    (1_000, Outcome::Done(()))
}

// 383 rows beside the first base: the first put takes two and unlinks one, each other one takes two and unlinks two.
const KEEPS_381: FullCause = FullCause {
    kept: 381,
    lag: Some(2),
};

// What opens a run of another pass; how often an object is put beside it, and what another put comes to; whether the object is there; and how often it is put
// once the run is closed.
type Held = (
    Outcome<bool>,
    (u32, Outcome<()>),
    Outcome<()>,
    bool,
    (u32, Outcome<()>),
);

fn beside_a_run(alloc: Global) -> Option<Held> {
    let Ok(mut tree) = tree_of(alloc, 384, 2, tuning_of(ONE_BASE), ZERO) else {
        return None;
    };
    let Ok(one) = tree.enroll(alloc) else {
        return None;
    };
    let Ok(two) = tree.enroll(alloc) else {
        return None;
    };
    let mut writer = TreeStore::new(&tree, one);
    let mut reader = TreeStore::new(&tree, two);
    let opened = reader.range(Edge::Open, Edge::Open, 0, &|_object: &[u8]| true, 64);
    let often = put_often(&mut writer, 1);
    let once = put(&mut writer, 1, 0, 1);
    let is_there = has(&mut writer, 1, 0);
    reader.close_run();
    Some((opened, often, once, is_there, put_often(&mut writer, 1)))
}

#[test]
fn rows_come_back_once_the_run_of_another_pass_is_closed(rt: HostRuntime) {
    let full = Outcome::Full(KEEPS_381);
    let wanted = (
        Outcome::Done(true),
        (191, full),
        full,
        true,
        (1_000, Outcome::Done(())),
    );
    assert_eq!(rt; beside_a_run(rt.alloc()), Some(wanted));
}
