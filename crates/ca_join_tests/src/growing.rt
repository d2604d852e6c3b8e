//! Trees that grow until no row is free, and shrink to nothing.
ghost use Rattle.std.specs.Prelude.{◌≡◌, None};
ghost use Rattle.ca_replace.specs.Resting.{knows};

use crate::calls::{put, remove};
use crate::trees::{Few, ZERO, tree_of, tuning_of};
use ca_model::Outcome;
use ca_replace::TreeStore;
use std::alloc::Global;

// So many rows a tree has.
const ROWS: u32 = 4_000;

// The key that is put as this one of 4,096 keys: they are far apart, so that the tree doesn't get deep.
fn key_at(place: u32) -> u32 {
    place % 4_096 * 1_597 % 4_096
}

// Puts objects until no row is free. How many they were, where that is why the last put was refused.
fn grow(store: &mut TreeStore<'_>) -> Option<u32>
    requires sizes { store.old.store.z.keypos ≡ 1 }
    requires closed { (knows store.old).run ≡ None }
    ensures sizes { store.new.store.z ≡ store.old.store.z }
    ensures closed { (knows store.new).run ≡ None }
{
    for place in 0..4_096_u32 {
        match put(store, key_at(place), 0, 9) {
            Outcome::Done(()) => {}
            Outcome::Full(_) => return Some(place),
            _ => return None,
        }
    }
    None
}

// Removes the objects that were put, in the same order. Whether each was there.
fn shrink(store: &mut TreeStore<'_>, objects: u32) -> bool
    requires sizes { store.old.store.z.keypos ≡ 1 }
    requires closed { (knows store.old).run ≡ None }
    ensures sizes { store.new.store.z ≡ store.old.store.z }
    ensures closed { (knows store.new).run ≡ None }
{
    for place in 0..objects {
        if remove(store, key_at(place), 9) != Outcome::Done(true) {
            return false;
        }
    }
    true
}

// How many rows are neither linked nor kept: those of the objects are, the first base's, and two for each split that no join undid.
fn free_rows(store: &TreeStore<'_>, objects: u32) -> u64 {
    let (splits, joins) = store.adapted();
    let parted = splits.saturating_sub(joins).saturating_mul(2);
    let used = u64::from(objects) + u64::from(store.kept()) + 1;
    u64::from(ROWS).saturating_sub(used.saturating_add(parted))
}

// How often, of so many times, a store grew until no row was free, to two thousand objects at least, and shrank to none. One row may be left, since a put of a
// new key takes two.
fn rounds(store: &mut TreeStore<'_>, often: u32) -> u32
    requires sizes { store.old.store.z.keypos ≡ 1 }
    requires closed { (knows store.old).run ≡ None }
    ensures sizes { store.new.store.z ≡ store.old.store.z }
    ensures closed { (knows store.new).run ≡ None }
{
    for round in 0..often {
        let Some(objects) = grow(store) else {
            return round;
        };
        if objects < 2_000 || free_rows(store, objects) > 1 || !shrink(store, objects) {
            return round;
        }
    }
    often
}

// The same of a new tree, and how many bases were split and joined by it.
fn rounds_of(alloc: Global, few: Few, often: u32) -> Option<(u32, (u64, u64))> {
    let Ok(mut tree) = tree_of(alloc, ROWS, 1, tuning_of(few), ZERO) else {
        return None;
    };
    let Ok(pass) = tree.enroll(alloc) else {
        return None;
    };
    let mut store = TreeStore::new(&tree, pass);
    let done = rounds(&mut store, often);
    Some((done, store.adapted()))
}

// All rows are linked, kept or free in each round: none is lost.
#[test]
fn trees_grow_and_shrink_a_hundred_times_in_the_same_rows(rt: HostRuntime) {
    assert_eq!(rt;
        rounds_of(rt.alloc(), (8, 64, 250, -600), 100),
        Some((100, (55_300, 55_300)))
    );
}
