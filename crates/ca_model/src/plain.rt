//! A store of one owner.
ghost use Rattle.std.specs.Prelude.{◌≡◌, ◌≤◌, ◌<◌, ◌+◌, ◌↔◌, [], None, IsTrue, OnOk, true, length, slice_index_or};
ghost use Rattle.ca_term.specs.declared.bounds.TheConstants.{MOST_ELEMENTS};
ghost use Rattle.ca_model.specs.Slab.{nothing};
ghost use Rattle.ca_model.specs.StoreMap.{IsStoreMap};
ghost use Rattle.ca_model.specs.Known.{Stays};

use crate::edge::Edge;
use crate::outcome::{Changed, Code, Outcome};
use crate::row::copy;
use crate::run::{Run, end_of, start_of};
use crate::slab::Slab;
use crate::store::OrderedStore;
use std::alloc::{AllocError, Global};
use std::marker::Model;

/// A store of one owner: nobody else edits its map, and it refuses nothing. Contracts see its map, and for how many new keys there is room.
///
/// A new key takes one room, and no other call takes any.
///
/// An object stays where it is once put; what moves when a key comes or goes is a number of four bytes an object.
#[derive(Drop)]
pub struct Plain {
    keypos: u32,
    objects: Slab,
    // the open run, if there is one
    run: Option<Run>,
    // where the object stands that a walk or a run came to last: the next call mostly goes on there, and looks there before it searches
    near: usize,
}

impl Model for Plain {
    ghost use Rattle.ca_model.specs.Known.{Known};

    ghost Value = { Known };

    ghost use Rattle.ca_model.specs.PlainView.{known_of, IsKept};

    ghost view = { known_of };

    ghost invariant = { IsKept };
}

impl Plain {
    /// A store with no objects; element number `keypos` of an object, counted from 1, is its key. It takes no memory.
    pub fn new(alloc: Global, keypos: u32) -> Plain
        requires { (1 ≤ keypos) × (keypos ≤ MOST_ELEMENTS) }
        ensures keypos { result.keypos ≡ keypos }
        ensures map { result.map ≡ [] }
        ensures alone { result.alone ≡ true }
        ensures sure { result.sure ≡ true }
        ensures seen { result.seen ≡ None }
        ensures closed { result.run ≡ None }
    {
        Plain {
            keypos,
            objects: Slab::new(alloc),
            run: None,
            near: 0,
        }
    }

    /// Which element of an object is its key, counted from 1.
    pub fn keypos(&self) -> u32
        ensures value { result ≡ self.now.keypos }
        ensures range { (1 ≤ result) × (result ≤ MOST_ELEMENTS) }
    {
        self.keypos
    }

    /// How many objects there are. Their keys stand in order, each once.
    pub fn len(&self) -> usize
        ensures value { result ≡ length self.now.map }
        ensures ordered { IsStoreMap self.now.keypos self.now.map }
    {
        self.objects.len()
    }

    /// Whether there are none.
    pub fn is_empty(&self) -> bool
        ensures { IsTrue result ↔ (self.now.map ≡ []) }
    {
        self.objects.len() == 0
    }

    /// The object whose key is greater than those of `at` others.
    pub fn object(&self, at: usize) -> &[u8]
        requires { at < length self.now.map }
        ensures { result.now ≡ (slice_index_or self.now.map at nothing).1 }
    {
        self.objects.object(at)
    }

    /// Makes room for one more new key than there is room for, and changes nothing else, also where memory is not found.
    pub fn add_room(&mut self) -> Result<(), AllocError>
        ensures room { OnOk result (self.old.spare + 1 ≤ self.new.spare) }
        ensures stays { Stays self.old self.new }
    {
        self.objects.add_room()
    }
}

impl OrderedStore for Plain {
    ghost knows = { λ s. s };

    ghost use Rattle.ca_model.specs.PlainView.{plain_promises};

    ghost promises = { plain_promises };

    fn reserve(&mut self) -> Result<(), AllocError> {
        self.objects.reserve()
    }

    fn get(&mut self, key: &[u8], into: &mut Code, budget: u32) -> Outcome<bool> {
        let _budget = budget;
        let Ok(at) = self.objects.find(key) else {
            into.clear();
            return Outcome::Done(false);
        };
        copy(self.objects.object(at), into);
        Outcome::Done(true)
    }

    fn put(&mut self, object: &[u8], key_at: usize, key_end: usize, budget: u32) -> Outcome<()> {
        let _budget = budget;
        let place = self.objects.find(&object[key_at..key_end]);
        self.objects.put(place, object, key_at, key_end);
        Outcome::Done(())
    }

    fn put_new(
        &mut self,
        object: &[u8],
        key_at: usize,
        key_end: usize,
        budget: u32,
    ) -> Outcome<bool> {
        let _budget = budget;
        let Err(at) = self.objects.find(&object[key_at..key_end]) else {
            return Outcome::Done(false);
        };
        self.objects.put(Err(at), object, key_at, key_end);
        Outcome::Done(true)
    }

    fn remove(&mut self, key: &[u8], old: &mut Code, budget: u32) -> Outcome<bool> {
        let _budget = budget;
        let Ok(at) = self.objects.find(key) else {
            old.clear();
            return Outcome::Done(false);
        };
        copy(self.objects.object(at), old);
        self.objects.remove(at);
        Outcome::Done(true)
    }

    fn remove_if<F: Fn(&[u8]) -> bool>(
        &mut self,
        key: &[u8],
        f: &F,
        old: &mut Code,
        budget: u32,
    ) -> Outcome<Changed> {
        let _budget = budget;
        let Ok(at) = self.objects.find(key) else {
            old.clear();
            return Outcome::Done(Changed::Absent);
        };
        copy(self.objects.object(at), old);
        if !f(old.as_slice()) {
            return Outcome::Done(Changed::Kept);
        }
        self.objects.remove(at);
        Outcome::Done(Changed::Put)
    }

    fn change<F: Fn(&[u8], &mut Code, &mut usize) -> bool>(
        &mut self,
        key: &[u8],
        f: &F,
        old: &mut Code,
        budget: u32,
    ) -> Outcome<Changed> {
        let _budget = budget;
        let Ok(at) = self.objects.find(key) else {
            old.clear();
            return Outcome::Done(Changed::Absent);
        };
        copy(self.objects.object(at), old);
        let mut new = Code::new();
        let mut start = 0;
        if !f(old.as_slice(), &mut new, &mut start) {
            return Outcome::Done(Changed::Kept);
        }
        let end = start + key.len();
        self.objects.put(Ok(at), new.as_slice(), start, end);
        Outcome::Done(Changed::Put)
    }

    fn above(&mut self, lo: Edge<'_>, into: &mut Code, budget: u32) -> Outcome<bool> {
        let _budget = budget;
        let at = start_of(&self.objects, lo, self.near);
        if at == self.objects.len() {
            into.clear();
            return Outcome::Done(false);
        }
        copy(self.objects.object(at), into);
        self.near = at;
        Outcome::Done(true)
    }

    fn below(&mut self, hi: Edge<'_>, into: &mut Code, budget: u32) -> Outcome<bool> {
        let _budget = budget;
        let end = end_of(&self.objects, hi, self.near);
        if end == 0 {
            into.clear();
            return Outcome::Done(false);
        }
        copy(self.objects.object(end - 1), into);
        self.near = end - 1;
        Outcome::Done(true)
    }

    fn range<F: Fn(&[u8]) -> bool>(
        &mut self,
        lo: Edge<'_>,
        hi: Edge<'_>,
        want: u32,
        counts: &F,
        budget: u32,
    ) -> Outcome<bool> {
        // A whole run costs two searches and no more, so none is cut, and nothing is counted.
        let _budget = budget;
        let _want = want;
        let _counts = counts;
        let end = end_of(&self.objects, hi, self.near);
        let next = start_of(&self.objects, lo, self.near).min(end);
        self.run = Some(Run { next, end });
        Outcome::Done(true)
    }

    fn found(&mut self, into: &mut Code) -> bool {
        let Some(run) = self.run else { unreachable!() };
        if run.next == run.end {
            into.clear();
            return false;
        }
        copy(self.objects.object(run.next), into);
        self.near = run.next;
        self.run = Some(Run {
            next: run.next + 1,
            end: run.end,
        });
        true
    }

    fn close_run(&mut self) {
        self.run = None;
    }
}
