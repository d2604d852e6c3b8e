//! Rows are taken from the pool of free rows, read and written while a pass holds them, and put back.
ghost use Rattle.ca_rows.specs.Layout.{row_words};
ghost use Rattle.std.specs.Prelude.{◌≡◌, ◌≢◌, ℕ, ◌<◌, ◌≤◌, true, List, length, slice_index};
ghost use mathlib.Core.Option.{some};
ghost use Rattle.ca_rows.specs.declared.view.Claim.TheVariants.{Holds as IsHeld};
ghost use Rattle.ca_rows.specs.Claims.{claim_of};
ghost use Rattle.ca_rows.specs.Calls.{TakesRow, PutsRow, WritesWord};
ghost use Rattle.ca_rows.specs.Told.{AreTaken, IsOnly};
ghost use Rattle.ca_rows.specs.declared.taken.Taken.TheVariants.{Empty as IsEmpty, Lost as IsLost};
ghost use Rattle.ca_rows.specs.Words.{next_below};
ghost use Rattle.ca_rows.specs.Passes.{OnlyReads, IsOn, StillKeepsList, sizes, known, view};

use crate::layout::{LAST_TAG, ROW_LIMIT, ROW_WORDS};
use crate::plays::{Give, Glance, Look, Peek, Recall, Take, Write};
use crate::rule::RowRule;
use crate::space::{Pass, Space};
use crate::taken::Taken;

impl<R: RowRule> Space<R> {
    /// Takes a free row by one exchange of the pool's head: none where no row is free (`Empty`), where the head's tag has its last value (`Worn`), or where
    /// that exchange was lost (`Lost`). The exchange of a pass that is the only one which the space is for is never lost. Where that finds none, it knows of
    /// each row that it is linked, or its own.
    pub fn take_row(&self, pass: &mut Pass<R>) -> Taken
        requires own { IsOn self.now pass.old }
        ensures frame { StillKeepsList pass.old pass.new }
        ensures row { TakesRow result (known pass.old) (known pass.new) }
        ensures only { IsOnly (known pass.old) → result ≢ IsLost }
        ensures taken { result ≡ IsEmpty → IsOnly (known pass.old) → AreTaken R.listed (known pass.new) }
    {
        let head = self.table.shared.load::<Look<R>>(&mut pass.seat, 0);
        let tag = head / ROW_LIMIT;
        let row = head % ROW_LIMIT;
        if row == 0 {
            return Taken::Empty;
        }
        if tag == LAST_TAG {
            return Taken::Worn;
        }
        let first = self
            .table
            .shared
            .load::<Peek>(&mut pass.seat, ROW_WORDS * row as usize);
        let next = next_row(self.sizes.rows, row as u32, first);
        let old = tag * ROW_LIMIT + row;
        let new = (tag + 1) * ROW_LIMIT + next % ROW_LIMIT;
        let found = self
            .table
            .shared
            .compare_exchange::<Take>(&mut pass.seat, 0, old, new);
        if found == old {
            Taken::Row(row as u32)
        } else {
            Taken::Lost
        }
    }

    /// Reads the word at this index, from 0 to 135, of a row that the pass holds.
    pub fn read_word(&self, pass: &mut Pass<R>, row: u32, index: u32) -> u64
        requires own { IsOn self.now pass.old }
        requires held { (its : List ℕ) × (claim_of (view pass.old).claims row ≡ some (IsHeld its)) }
        requires inside { (row ≤ (sizes self.now).rows) × (index < row_words) }
        ensures frame { OnlyReads pass.old pass.new }
        ensures word { (its : List ℕ) → claim_of (view pass.old).claims row ≡ some (IsHeld its) → result ≡ slice_index its index }
    {
        self.table
            .shared
            .load::<Recall>(&mut pass.seat, ROW_WORDS * row as usize + index as usize)
    }

    /// Writes the word at this index, from 0 to 135, of a row that the pass holds.
    pub fn write_word(&self, pass: &mut Pass<R>, row: u32, index: u32, value: u64)
        requires own { IsOn self.now pass.old }
        requires held { (its : List ℕ) × (claim_of (view pass.old).claims row ≡ some (IsHeld its)) }
        requires inside { (row ≤ (sizes self.now).rows) × (index < row_words) }
        ensures frame { StillKeepsList pass.old pass.new }
        ensures written { WritesWord row index value (known pass.old) (known pass.new) }
    {
        self.table.shared.store::<Write>(
            &mut pass.seat,
            ROW_WORDS * row as usize + index as usize,
            value,
        );
    }

    /// Puts a row back that the pass holds. False exactly where the exchange lost: the pass holds the row still. That of the only pass isn't lost.
    pub fn put_row(&self, pass: &mut Pass<R>, row: u32) -> bool
        requires own { IsOn self.now pass.old }
        requires held { (its : List ℕ) × (length its ≡ row_words) × (claim_of (view pass.old).claims row ≡ some (IsHeld its)) }
        requires inside { row ≤ (sizes self.now).rows }
        ensures frame { StillKeepsList pass.old pass.new }
        ensures given { PutsRow result row (known pass.old) (known pass.new) }
        ensures only { IsOnly (known pass.old) → result ≡ true }
    {
        let head = self.table.shared.load::<Glance>(&mut pass.seat, 0);
        let tag = head / ROW_LIMIT;
        let below = head % ROW_LIMIT;
        self.write_word(pass, row, 0, below + 1);
        let old = tag * ROW_LIMIT + below;
        let new = tag * ROW_LIMIT + row as u64;
        self.table
            .shared
            .compare_exchange::<Give>(&mut pass.seat, 0, old, new)
            == old
    }
}

// The free row below a free row, or 0, as the first word says.
fn next_row(rows: u32, row: u32, first: u64) -> u64
    requires { row ≤ rows }
    ensures { result ≡ next_below rows row first }
{
    if first > 0 {
        first - 1
    } else if row == rows {
        0
    } else {
        row as u64 + 1
    }
}
