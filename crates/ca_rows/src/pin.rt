//! Passes announce that they read.
ghost use Rattle.std.specs.Prelude.{◌≡◌, ◌+◌, ◌*◌, ◌<◌, ◌≤◌, false};
ghost use Rattle.ca_rows.specs.Calls.{Pins, Unpins};
ghost use Rattle.ca_rows.specs.Layout.{row_words, pass_words};
ghost use Rattle.ca_rows.specs.Told.{IsOnly};
ghost use Rattle.ca_rows.specs.Passes.{IsOn, IsReading, KeepsList, known, sizes, view};

use crate::layout::{PASS_WORDS, ROW_WORDS};
use crate::plays::{Announce, Ask, Leave};
use crate::rule::RowRule;
use crate::space::{Pass, Space};

impl<R: RowRule> Space<R> {
    /// The first of the words that a pass has for itself, which is its announcement. The second one says how far its last range is.
    pub fn own_word(&self, pass: u32) -> usize
        requires { (0 < pass) × (pass ≤ 64) }
        ensures { result + pass_words ≡ row_words * (sizes self.now).rows + row_words + pass_words * pass }
    {
        ROW_WORDS * (self.sizes.rows as usize + 1) + PASS_WORDS * (pass as usize - 1)
    }

    /// Announces the epoch that is loaded: rows that are unlinked from then on stay until the pass unpins. What the pass has met of the pool is noted.
    pub fn pin(&self, pass: &mut Pass<R>)
        requires own { IsOn self.now pass.old }
        requires unpinned { (view pass.old).pin.pinned ≡ false }
        ensures frame { KeepsList pass.old pass.new }
        ensures pinned { Pins R.enters (known pass.old) (known pass.new) }
    {
        let epoch = self.table.shared.load::<Ask>(&mut pass.seat, 1);
        let word = self.own_word(pass.number);
        self.table
            .shared
            .store::<Announce<R>>(&mut pass.seat, word, epoch + 1);
    }

    /// Takes the announcement back. The pass has no note from then on. What it has met of the pool is noted: a pass that is the only one which the space is
    /// for has lost no exchange by then.
    pub fn unpin(&self, pass: &mut Pass<R>)
        requires reading { IsReading self.now pass.old }
        ensures frame { KeepsList pass.old pass.new }
        ensures unpinned { Unpins R.leaves (known pass.old) (known pass.new) }
        ensures only { IsOnly (known pass.old) → (view pass.new).lost ≡ 0 }
    {
        let word = self.own_word(pass.number);
        self.table.shared.store::<Leave<R>>(&mut pass.seat, word, 0);
    }
}
