//! The rows that a pass keeps.
ghost use Rattle.std.specs.Prelude.{◌≡◌, ◌↔◌, IsTrue, ℕ, ◌<◌, ◌≤◌, ◌+◌, ◌++◌, ◌∷◌, [], take, drop, slice_index_or, vec_len, vec_capacity, IfOk};
ghost use Rattle.ca_rows.specs.Kept.{AreApart, HasAged, IsChosen, Rises, nobody};
ghost use Rattle.ca_rows.specs.Layout.{row_limit};

use std::alloc::{AllocError, Global};

/// A row that was retired and isn't given back yet.
#[derive(Clone, Copy)]
pub struct Kept {
    pub row: u32,
    /// What the row was, by a number that is the caller's own: it is never looked up in the row.
    pub form: u32,
    /// The epoch that was loaded as it was retired.
    pub at: u64,
}

/// The rows that a pass keeps, from the one that was retired first.
pub struct KeptRows {
    pub(crate) rows: Vec<Kept>,
    pub ghost few: { vec_len rows < row_limit },
}

impl KeptRows {
    // A list with room for so many.
    pub(crate) fn with_room(alloc: Global, room: u32) -> Result<KeptRows, AllocError>
        ensures empty { IfOk result (λ kept. kept.rows.items ≡ []) }
        ensures room { IfOk result (λ kept. vec_capacity kept.rows ≡ room) }
    {
        let rows = Vec::with_capacity(alloc, room as usize)?;
        Ok(KeptRows { rows })
    }

    // One more row, for which there is room.
    pub(crate) fn push(&mut self, row: u32, at: u64, form: u32)
        requires room { vec_len self.old.rows < vec_capacity self.old.rows }
        requires few { vec_len self.old.rows + 1 < row_limit }
        ensures rows { self.new.rows.items ≡ self.old.rows.items ++ record { row = row; at = at; form = form } ∷ [] }
        ensures room { vec_capacity self.old.rows ≤ vec_capacity self.new.rows }
    {
        if let Err(full) = self.rows.push(Kept { row, form, at }) {
            drop(full);
        }
    }

    // Whether the row at a place was retired two epochs before this one, or earlier.
    pub(crate) fn is_old(&self, at: u32, epoch: u64) -> bool
        requires { at < vec_len self.now.rows }
        ensures { IsTrue result ↔ (slice_index_or self.now.rows.items at nobody).at + 2 ≤ epoch }
    {
        epoch >= 2 && self.rows[at as usize].at <= epoch - 2
    }

    // How many rows from the first one on were retired two epochs before this one, or earlier.
    pub(crate) fn old_count(&self, epoch: u64) -> u32
        ensures within { result ≤ vec_len self.now.rows }
        ensures old { (i : ℕ) → i < result → (slice_index_or self.now.rows.items i nobody).at + 2 ≤ epoch }
        ensures young { result < vec_len self.now.rows → epoch < (slice_index_or self.now.rows.items result nobody).at + 2 }
    {
        let mut count = 0;
        while count < self.len() && self.is_old(count, epoch) {
            count += 1;
        }
        count
    }

    // The place of the oldest row of this form, among those that were retired two epochs before this one or earlier; that of the oldest of them all, where
    // none has the form. The list rises, so they stand before all others, and it looks no further than the first one of the form.
    pub(crate) fn oldest(&self, epoch: u64, like: u32) -> Option<u32>
        requires some { 0 < vec_len self.now.rows }
        requires rising { AreApart self.now.rows.items × Rises self.now.rows.items }
        ensures { IsChosen result epoch like self.now.rows.items }
    {
        if !self.is_old(0, epoch) {
            return None;
        }
        let mut at = 0;
        while at < self.len() && self.is_old(at, epoch) {
            if self.form(at) == like {
                return Some(at);
            }
            at += 1;
        }
        Some(0)
    }

    // Whether the first row had been kept for two epochs as the last one was retired, or there is none.
    pub(crate) fn has_aged(&self) -> bool
        ensures { IsTrue result ↔ HasAged self.now.rows.items }
    {
        let len = self.len();
        len == 0 || self.is_old(0, self.rows[len as usize - 1].at)
    }

    // The row at a place.
    pub(crate) fn row(&self, at: u32) -> u32
        requires { at < vec_len self.now.rows }
        ensures { result ≡ (slice_index_or self.now.rows.items at nobody).row }
    {
        self.rows[at as usize].row
    }

    // What the row at a place was.
    pub(crate) fn form(&self, at: u32) -> u32
        requires { at < vec_len self.now.rows }
        ensures { result ≡ (slice_index_or self.now.rows.items at nobody).form }
    {
        self.rows[at as usize].form
    }

    // Takes the row at a place out; those behind it move up.
    pub(crate) fn take_out(&mut self, at: u32)
        requires { at < vec_len self.old.rows }
        ensures rows { self.new.rows.items ≡ take at self.old.rows.items ++ drop (at + 1) self.old.rows.items }
        ensures room { vec_capacity self.new.rows ≡ vec_capacity self.old.rows }
    {
        self.rows.remove(at as usize);
    }

    // Takes the rows from a place to another one out; those behind them move up.
    pub(crate) fn cut(&mut self, at: u32, end: u32)
        requires { (at ≤ end) × (end ≤ vec_len self.old.rows) }
        ensures rows { self.new.rows.items ≡ take at self.old.rows.items ++ drop end self.old.rows.items }
        ensures len { vec_len self.new.rows + end ≡ vec_len self.old.rows + at }
        ensures room { vec_capacity self.new.rows ≡ vec_capacity self.old.rows }
    {
        if at < end {
            drop(self.rows.drain(at as usize..end as usize));
        }
    }

    pub(crate) fn len(&self) -> u32
        ensures { result ≡ vec_len self.now.rows }
    {
        self.rows.len() as u32
    }
}

impl Drop for KeptRows {
    fn drop(self) {
        let Self { rows: _ } = self;
    }
}
