//! Objects of a load as a tree takes them.
ghost use Rattle.std.specs.Prelude.{◌≡◌, ◌<◌, ◌≤◌, None, length};
ghost use Rattle.ca_term.specs.Object.{is_object};
ghost use Rattle.ca_term.specs.Tree.{IsTerm};
ghost use Rattle.ca_replace.specs.Resting.{knows};

use crate::player::BUDGET;
use ca_model::{Code, OrderedStore, Outcome};
use ca_order::{encode, object_parts};
use ca_replace::TreeStore;
use ca_term::{Kind, Term};
use std::alloc::{AllocError, Global};
use std::marker::Model;

/// The code of an object, whose first element is its key, and where the key's code stands in it. Contracts see a pair of both.
#[derive(Drop)]
pub struct Coded {
    code: Code,
    key_at: usize,
    key_end: usize,
}

impl Model for Coded {
    ghost use Rattle.ca_model.specs.StoreMap.{Pair};

    ghost Value = { Pair };

    ghost use Rattle.ca_bench.specs.CodedView.{pair_of, IsPlaced};

    ghost view = { pair_of };

    ghost invariant = { IsPlaced };
}

impl Coded {
    /// Whether a store has an object with this key; then `into` is that object.
    pub fn is_in(&self, store: &mut TreeStore<'_>, into: &mut Code) -> bool
        requires closed { (knows store.old).run ≡ None }
        ensures sizes { store.new.store.z ≡ store.old.store.z }
        ensures closed { (knows store.new).run ≡ None }
    {
        let key = &self.code.as_slice()[self.key_at..self.key_end];
        store.get(key, into, BUDGET) == Outcome::Done(true)
    }

    /// Puts it.
    pub fn put_into(&self, store: &mut TreeStore<'_>) -> Outcome<()>
        requires sizes { store.old.store.z.keypos ≡ 1 }
        requires closed { (knows store.old).run ≡ None }
        ensures sizes { store.new.store.z ≡ store.old.store.z }
        ensures closed { (knows store.new).run ≡ None }
    {
        store.put(self.code.as_slice(), self.key_at, self.key_end, BUDGET)
    }

    /// Puts it where the store has no object with its key.
    pub fn put_new_into(&self, store: &mut TreeStore<'_>) -> Outcome<bool>
        requires sizes { store.old.store.z.keypos ≡ 1 }
        requires closed { (knows store.old).run ≡ None }
        ensures sizes { store.new.store.z ≡ store.old.store.z }
        ensures closed { (knows store.new).run ≡ None }
    {
        store.put_new(self.code.as_slice(), self.key_at, self.key_end, BUDGET)
    }

    /// Removes the object with this key, where the store has one. `into` is that object.
    pub fn remove_from(&self, store: &mut TreeStore<'_>, into: &mut Code) -> Outcome<bool>
        requires closed { (knows store.old).run ≡ None }
        ensures sizes { store.new.store.z ≡ store.old.store.z }
        ensures closed { (knows store.new).run ≡ None }
    {
        let key = &self.code.as_slice()[self.key_at..self.key_end];
        store.remove(key, into, BUDGET)
    }
}

/// The codes of these objects, without those that are too long.
pub fn coded_load(alloc: Global, objects: &[Term]) -> Result<Vec<Coded>, AllocError> {
    let mut all = Vec::new(alloc);
    for object in objects {
        if let Some(coded) = encoded(object) {
            all.push(coded)?;
        }
    }
    Ok(all)
}

// An object's code; `None` where it is too long, or the term is no object.
fn encoded(object: &Term) -> Option<Coded> {
    if !is_object(object) {
        return None;
    }
    let mut code = Code::new();
    let Ok(()) = encode(object, &mut code) else {
        return None;
    };
    let (key_at, key_end) = object_parts(code.as_slice(), 1)?;
    if key_at >= key_end {
        return None;
    }
    Some(Coded {
        code,
        key_at,
        key_end,
    })
}

// Whether a term is a tuple with an element.
#[tactic(auto, using(ca_table::proofs::KeyParts::tuple_is))]
fn is_object(object: &Term) -> bool
    ensures value { result ≡ is_object 1 object.now }
    ensures bounded { IsTerm object.now }
{
    match object.kind() {
        Kind::Tuple(items) => items.len() >= 1,
        _ => false,
    }
}
