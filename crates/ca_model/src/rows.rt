//! Objects in slots.
ghost use Rattle.std.specs.Prelude.{◌≡◌, ◌≤◌, ◌<◌, [], ◌∷◌, ◌++◌, length, slice_index_or, slice_set, slice_range, OnErr, OnOk};
ghost use Rattle.ca_term.specs.declared.bounds.TheConstants.{MOST_CODE_BYTES};
ghost use Rattle.ca_model.specs.Slab.{nothing};

use crate::near::Near;
use crate::row::Row;
use std::alloc::{AllocError, Global};
use std::marker::Model;

// Rows in slots. Rows stand a kilobyte apart, so that many of them lie in as many places of memory; short objects stand close together once more, in their slots'
// order, and are read there. Contracts see the list of the rows' pairs.
#[derive(Drop)]
pub(crate) struct Rows {
    rows: Vec<Row>,
    near: Vec<Near>,
}

impl Model for Rows {
    ghost use Rattle.std.specs.Prelude.{List};
    ghost use Rattle.std.specs.Coded.{coded_list};
    ghost use Rattle.ca_model.specs.StoreMap.{Pair};
    ghost use Rattle.ca_model.specs.Stored.{pair_stored};

    ghost Value = { List Pair };

    ghost coded = { coded_list pair_stored };

    ghost use Rattle.ca_model.specs.RowsView.{pairs_of, AreNear};

    ghost view = { pairs_of };

    ghost invariant = { AreNear };
}

impl Rows {
    // No slots: it takes no memory.
    pub(crate) fn new(alloc: Global) -> Rows
        ensures { result ≡ [] }
    {
        Rows {
            rows: Vec::new(alloc),
            near: Vec::new(alloc),
        }
    }

    // How many slots there are.
    pub(crate) fn len(&self) -> usize
        ensures { result ≡ length self.now }
    {
        self.rows.len()
    }

    // One more slot, with no object. `Err` where memory wasn't found: then nothing is changed.
    pub(crate) fn add(&mut self) -> Result<(), AllocError>
        ensures ok { OnOk result (self.new ≡ self.old ++ nothing ∷ []) }
        ensures err { OnErr result (self.new ≡ self.old) }
    {
        self.rows.reserve(1)?;
        self.near.reserve(1)?;
        self.rows.push_reserved(Row::new());
        self.near.push_reserved(Near::new());
        Ok(())
    }

    // The key in a slot, which is empty where there is no such slot.
    pub(crate) fn key(&self, slot: usize) -> &[u8]
        ensures { result.now ≡ (slice_index_or self.now slot nothing).0 }
    {
        match self.near.get(slot) {
            Some(near) if !near.is_empty() => near.key(),
            _ => self.far_key(slot),
        }
    }

    // The key in a slot, by its row.
    fn far_key(&self, slot: usize) -> &[u8]
        ensures { result.now ≡ (slice_index_or self.now slot nothing).0 }
    {
        match self.rows.get(slot) {
            Some(row) => row.key(),
            None => &[],
        }
    }

    // The object in a slot.
    pub(crate) fn object(&self, slot: usize) -> &[u8]
        requires { slot < length self.now }
        ensures { result.now ≡ (slice_index_or self.now slot nothing).1 }
    {
        let near = &self.near[slot];
        if near.is_empty() {
            self.rows[slot].object()
        } else {
            near.object()
        }
    }

    // Puts an object into a slot.
    pub(crate) fn set(&mut self, slot: usize, object: &[u8], key_at: usize, key_end: usize)
        requires range { slot < length self.old }
        requires key { (key_at ≤ key_end) × (key_end ≤ length object.now) }
        requires short { length object.now ≤ MOST_CODE_BYTES }
        ensures { self.new ≡ slice_set self.old slot (slice_range object.now key_at key_end, object.now) }
    {
        self.rows[slot].set(object, key_at, key_end);
        self.near[slot].set(object, key_at, key_end);
    }
}
