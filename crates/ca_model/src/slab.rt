//! A list of objects in which none moves when another one comes or goes.
ghost use Rattle.std.specs.Prelude.{◌≡◌, ◌≤◌, ◌<◌, ◌+◌, ◌-◌, [], ◌∷◌, ◌++◌, length, take, slice_index_or, slice_set, slice_range, IsErr, OnErr, OnOk};
ghost use Rattle.std.specs.List.{insert, remove};
ghost use Rattle.std.specs.List.Sorted.{IsSearchInRange, IsBinarySearchResult};
ghost use Rattle.ca_term.specs.declared.bounds.TheConstants.{MOST_CODE_BYTES};
ghost use Rattle.ca_model.specs.StoreMap.{Pair, bytes_cmp};
ghost use Rattle.ca_model.specs.Slab.{nothing, placed, count_placed, with_moved, with_freed};

use crate::rows::Rows;
use std::alloc::{AllocError, Global};
use std::marker::Model;

// Rows stand in slots, and stay there. `order` holds the number of each slot once: first `len` numbers in the order of the list, then
// those of the free slots. Contracts see the list of the pairs, and for how many more there is room.
#[derive(Drop)]
pub(crate) struct Slab {
    rows: Rows,
    order: Vec<u32>,
    len: usize,
}

impl Model for Slab {
    ghost use Rattle.ca_model.specs.Slab.{PairList};
    ghost use Rattle.ca_model.specs.Stored.{list_stored};

    ghost Value = { PairList };

    ghost coded = { list_stored };

    ghost use Rattle.ca_model.specs.SlabView.{list_of, IsKept};

    ghost view = { list_of };

    ghost invariant = { IsKept };
}

impl Slab {
    // No objects, and no room: it takes no memory.
    pub(crate) fn new(alloc: Global) -> Slab
        ensures pairs { result.pairs ≡ [] }
        ensures spare { result.spare ≡ 0 }
    {
        Slab {
            rows: Rows::new(alloc),
            order: Vec::new(alloc),
            len: 0,
        }
    }

    // Makes room for one more object, where there is none.
    pub(crate) fn reserve(&mut self) -> Result<(), AllocError>
        ensures pairs { self.new.pairs ≡ self.old.pairs }
        ensures room { OnOk result (1 ≤ self.new.spare) }
        ensures lack { OnErr result (self.old.spare ≡ 0) }
        ensures spared { 1 ≤ self.old.spare → self.new ≡ self.old }
        ensures grows { self.old.spare ≤ self.new.spare }
    {
        if self.len < self.order.len() {
            return Ok(());
        }
        self.add_room()
    }

    // Makes room for one more object than there is room for.
    pub(crate) fn add_room(&mut self) -> Result<(), AllocError>
        ensures pairs { self.new.pairs ≡ self.old.pairs }
        ensures room { OnOk result (self.old.spare + 1 ≤ self.new.spare) }
        ensures grows { self.old.spare ≤ self.new.spare }
    {
        let Ok(slot) = u32::try_from(self.rows.len()) else {
            return Err(AllocError);
        };
        self.order.reserve(1)?;
        self.rows.add()?;
        self.order.push_reserved(slot);
        Ok(())
    }

    // Where a key stands, or would stand.
    pub(crate) fn find(&self, key: &[u8]) -> Result<usize, usize>
        ensures bound { IsSearchInRange result (length self.now.pairs) }
        ensures position { IsBinarySearchResult (λ p. bytes_cmp p.0 key.now) self.now.pairs result }
    {
        let rows = &self.rows;
        self.order[..self.len].binary_search_by(|slot| rows.key(*slot as usize).cmp(key))
    }

    // The same, looked for first at a place where it may stand.
    pub(crate) fn find_near(&self, key: &[u8], near: usize) -> Result<usize, usize>
        ensures bound { IsSearchInRange result (length self.now.pairs) }
        ensures position { IsBinarySearchResult (λ p. bytes_cmp p.0 key.now) self.now.pairs result }
    {
        if near < self.len() && self.key(near).cmp(key).is_eq() {
            return Ok(near);
        }
        self.find(key)
    }

    // How many objects there are.
    pub(crate) fn len(&self) -> usize
        ensures { result ≡ length self.now.pairs }
    {
        self.len
    }

    // The key of the object at a place.
    fn key(&self, at: usize) -> &[u8]
        requires { at < length self.now.pairs }
        ensures { result.now ≡ (slice_index_or self.now.pairs at nothing).0 }
    {
        self.rows.key(self.order[at] as usize)
    }

    // The object at a place.
    pub(crate) fn object(&self, at: usize) -> &[u8]
        requires { at < length self.now.pairs }
        ensures { result.now ≡ (slice_index_or self.now.pairs at nothing).1 }
    {
        self.rows.object(self.order[at] as usize)
    }

    // Puts an object at a place: in that of another one, or between two where there is room.
    pub(crate) fn put(
        &mut self,
        place: Result<usize, usize>,
        object: &[u8],
        key_at: usize,
        key_end: usize,
    )
        requires range { IsSearchInRange place (length self.old.pairs) }
        requires room { IsErr place → 1 ≤ self.old.spare }
        requires key { (key_at ≤ key_end) × (key_end ≤ length object.now) }
        requires short { length object.now ≤ MOST_CODE_BYTES }
        ensures pairs { self.new.pairs ≡ placed self.old.pairs place (slice_range object.now key_at key_end, object.now) }
        ensures spare { self.old.spare ≤ self.new.spare + count_placed place }
    {
        match place {
            Ok(at) => {
                let slot = self.order[at] as usize;
                self.rows.set(slot, object, key_at, key_end);
            }
            Err(at) => {
                let slot = self.order[self.len] as usize;
                self.rows.set(slot, object, key_at, key_end);
                take_free(self.order.as_mut_slice(), self.len, at);
                self.len += 1;
            }
        }
    }

    // Takes the object at a place out; its slot is the next one that is used again.
    pub(crate) fn remove(&mut self, at: usize)
        requires { at < length self.old.pairs }
        ensures pairs { self.new.pairs ≡ remove self.old.pairs at }
        ensures spare { self.old.spare ≤ self.new.spare }
    {
        set_free(self.order.as_mut_slice(), self.len, at);
        self.len -= 1;
    }
}

// Moves the number behind the first `len` ones to a place among them.
fn take_free(order: &mut [u32], len: usize, at: usize)
    requires { (at ≤ len) × (len < length order.old) }
    ensures { order.new ≡ with_moved order.old len at }
{
    last_to(&mut order[..len + 1], at);
}

// Moves the number at a place behind the first `len` ones, of which it is one.
fn set_free(order: &mut [u32], len: usize, at: usize)
    requires { (at < len) × (len ≤ length order.old) }
    ensures { order.new ≡ with_freed order.old len at }
{
    to_last(&mut order[..len], at);
}

// Moves the last number to a place, and those behind the place up.
fn last_to(order: &mut [u32], at: usize)
    requires { at < length order.old }
    ensures { order.new ≡ insert (take (length order.old - 1) order.old) at (slice_index_or order.old (length order.old - 1) 0) }
{
    order[at..].rotate_right(1);
}

// Moves the number at a place behind all others, and those behind the place down.
fn to_last(order: &mut [u32], at: usize)
    requires { at < length order.old }
    ensures { order.new ≡ remove order.old at ++ slice_index_or order.old at 0 ∷ [] }
{
    order[at..].rotate_left(1);
}
