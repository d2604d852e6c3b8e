//! Calls of a store on a key's object, by the numbers of both.
ghost use Rattle.std.specs.Prelude.{◌≡◌, ◌≤◌, IsTrue, None};
ghost use Rattle.ca_model.specs.Function.{StandsAt};
ghost use Rattle.ca_model.specs.StoreMap.{IsPair};
ghost use Rattle.ca_tree_tests.specs.Objects.{number_code};
ghost use Rattle.ca_replace.specs.Resting.{knows};

use crate::objects::{key_code, object, write_next};
use ca_model::{Changed, Code, OrderedStore, Outcome};
use ca_replace::TreeStore;

/// Puts the object.
pub(crate) fn put(store: &mut TreeStore<'_>, key: u32, value: u32, budget: u32) -> Outcome<()>
    requires sizes { (store.old.store.z.keypos ≡ 1) × (1 ≤ budget) }
    requires closed { (knows store.old).run ≡ None }
    ensures sizes { store.new.store.z ≡ store.old.store.z }
    ensures table { store.new.store.table ≡ store.old.store.table }
    ensures closed { (knows store.new).run ≡ None }
{
    store.put(&object(key, value), 5, 10, budget)
}

/// Puts the object where the key has none.
pub(crate) fn put_new(store: &mut TreeStore<'_>, key: u32, value: u32, budget: u32) -> Outcome<bool>
    requires sizes { (store.old.store.z.keypos ≡ 1) × (1 ≤ budget) }
    requires closed { (knows store.old).run ≡ None }
    ensures sizes { store.new.store.z ≡ store.old.store.z }
    ensures closed { (knows store.new).run ≡ None }
{
    store.put_new(&object(key, value), 5, 10, budget)
}

/// Whether the key has an object; then `into` is that object.
pub(crate) fn get(store: &mut TreeStore<'_>, key: u32, into: &mut Code) -> bool
    requires closed { (knows store.old).run ≡ None }
    ensures sizes { store.new.store.z ≡ store.old.store.z }
    ensures closed { (knows store.new).run ≡ None }
{
    store.get(&key_code(key), into, 1) == Outcome::Done(true)
}

/// Removes the key's object.
pub(crate) fn remove(
    store: &mut TreeStore<'_>,
    key: u32,
    old: &mut Code,
    budget: u32,
) -> Outcome<bool>
    requires sizes { (store.old.store.z.keypos ≡ 1) × (1 ≤ budget) }
    requires closed { (knows store.old).run ≡ None }
    ensures sizes { store.new.store.z ≡ store.old.store.z }
    ensures table { store.new.store.table ≡ store.old.store.table }
    ensures closed { (knows store.new).run ≡ None }
{
    store.remove(&key_code(key), old, budget)
}

/// Removes the key's object where told so.
pub(crate) fn remove_if(
    store: &mut TreeStore<'_>,
    key: u32,
    yes: bool,
    old: &mut Code,
) -> Outcome<Changed>
    requires sizes { store.old.store.z.keypos ≡ 1 }
    requires closed { (knows store.old).run ≡ None }
    ensures sizes { store.new.store.z ≡ store.old.store.z }
    ensures closed { (knows store.new).run ≡ None }
{
    store.remove_if(&key_code(key), &|_object: &[u8]| yes, old, 1)
}

/// Puts the object of the next value in the place of the key's object, where told so.
pub(crate) fn raise(
    store: &mut TreeStore<'_>,
    key: u32,
    yes: bool,
    old: &mut Code,
    budget: u32,
) -> Outcome<Changed>
    requires sizes { (store.old.store.z.keypos ≡ 1) × (1 ≤ budget) }
    requires closed { (knows store.old).run ≡ None }
    ensures sizes { store.new.store.z ≡ store.old.store.z }
    ensures closed { (knows store.new).run ≡ None }
{
    let write = |object: &[u8], into: &mut Code, at: &mut usize| -> bool
        ensures { IsTrue result → IsPair 1 (number_code key, into.new.items) × StandsAt (number_code key) into.new.items at.new }
    { yes && write_next(object, key, into, at) };
    store.change(&key_code(key), &write, old, budget)
}
