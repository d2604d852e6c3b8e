//! Calls of a store on objects, by the numbers of their keys and values.
ghost use Rattle.std.specs.Prelude.{◌≡◌, ◌≤◌, None};
ghost use Rattle.ca_model.specs.Edges.{IsProperBound, bound_of};
ghost use Rattle.ca_replace.specs.Resting.{knows};

use crate::objects::{key_code, object};
use ca_model::{Code, Edge, OrderedStore, Outcome};
use ca_replace::TreeStore;

/// Puts the object.
pub(crate) fn put(store: &mut TreeStore<'_>, key: u32, value: u32, budget: u32) -> Outcome<()>
    requires sizes { (store.old.store.z.keypos ≡ 1) × (1 ≤ budget) }
    requires closed { (knows store.old).run ≡ None }
    ensures sizes { store.new.store.z ≡ store.old.store.z }
    ensures closed { (knows store.new).run ≡ None }
{
    store.put(&object(key, value), 5, 10, budget)
}

/// Removes the key's object.
pub(crate) fn remove(store: &mut TreeStore<'_>, key: u32, budget: u32) -> Outcome<bool>
    requires sizes { (store.old.store.z.keypos ≡ 1) × (1 ≤ budget) }
    requires closed { (knows store.old).run ≡ None }
    ensures sizes { store.new.store.z ≡ store.old.store.z }
    ensures closed { (knows store.new).run ≡ None }
{
    store.remove(&key_code(key), &mut Code::new(), budget)
}

/// Whether the key has the object with this value.
pub(crate) fn has(store: &mut TreeStore<'_>, key: u32, value: u32) -> bool
    requires closed { (knows store.old).run ≡ None }
    ensures sizes { store.new.store.z ≡ store.old.store.z }
    ensures closed { (knows store.new).run ≡ None }
{
    let mut code = Code::new();
    store.get(&key_code(key), &mut code, 1) == Outcome::Done(true)
        && code.as_slice() == object(key, value).as_slice()
}

/// What a range comes to, whose run is closed again.
pub(crate) fn range(
    store: &mut TreeStore<'_>,
    lo: Edge<'_>,
    hi: Edge<'_>,
    budget: u32,
) -> Outcome<bool>
    requires budget { 1 ≤ budget }
    requires closed { (knows store.old).run ≡ None }
    requires edges { IsProperBound (bound_of lo) × IsProperBound (bound_of hi) }
    ensures closed { (knows store.new).run ≡ None }
{
    let outcome = store.range(lo, hi, 0, &|_object: &[u8]| true, budget);
    store.close_run();
    outcome
}

/// Whether objects of these keys were put, each by a call that may lose this many turns.
pub(crate) fn put_all(store: &mut TreeStore<'_>, keys: &[u32], budget: u32) -> bool
    requires sizes { (store.old.store.z.keypos ≡ 1) × (1 ≤ budget) }
    requires closed { (knows store.old).run ≡ None }
    ensures sizes { store.new.store.z ≡ store.old.store.z }
    ensures closed { (knows store.new).run ≡ None }
{
    for place in 0..keys.len() {
        if put(store, keys[place], 0, budget) != Outcome::Done(()) {
            return false;
        }
    }
    true
}

/// Whether the objects of these keys were removed.
pub(crate) fn remove_all(store: &mut TreeStore<'_>, keys: &[u32]) -> bool
    requires sizes { store.old.store.z.keypos ≡ 1 }
    requires closed { (knows store.old).run ≡ None }
    ensures sizes { store.new.store.z ≡ store.old.store.z }
    ensures closed { (knows store.new).run ≡ None }
{
    for place in 0..keys.len() {
        if remove(store, keys[place], 1) != Outcome::Done(true) {
            return false;
        }
    }
    true
}

/// Whether a new tree's store now has the keys from 1 to 7 without 3, in the bases of 1, of 2, of 4 and 5, and of 6 and 7 where each has two objects at most.
pub(crate) fn parts_bases(store: &mut TreeStore<'_>) -> bool
    requires sizes { store.old.store.z.keypos ≡ 1 }
    requires closed { (knows store.old).run ≡ None }
    ensures sizes { store.new.store.z ≡ store.old.store.z }
    ensures closed { (knows store.new).run ≡ None }
{
    put_all(store, &[2, 4, 6, 1, 3, 5, 7], 9) && remove_all(store, &[3])
}

/// Which keys below 8 have an object with the value 0, as a set of bits.
pub(crate) fn keys_in(store: &mut TreeStore<'_>) -> u8
    requires closed { (knows store.old).run ≡ None }
    ensures sizes { store.new.store.z ≡ store.old.store.z }
    ensures closed { (knows store.new).run ≡ None }
{
    let mut keys = 0_u8;
    for key in 0..8_u32 {
        if has(store, key, 0) {
            keys |= 1 << key;
        }
    }
    keys
}
