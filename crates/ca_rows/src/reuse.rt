//! Pinned passes take rows that they keep, once nobody can have a note on them.
ghost use Rattle.std.specs.Prelude.{◌≡◌, ℕ, ◌+◌, ◌≤◌, true, vec_len};
ghost use mathlib.Core.Option.{some};
ghost use Rattle.ca_rows.specs.declared.view.Claim.TheVariants.{Keeps as IsKept};
ghost use Rattle.ca_rows.specs.Claims.{claim_of};
ghost use Rattle.ca_rows.specs.Kept.{AreKept};
ghost use Rattle.ca_rows.specs.Reclaiming.{Reuses};
ghost use Rattle.ca_rows.specs.Told.{HoldsAgain};
ghost use Rattle.ca_rows.specs.Passes.{IsOn, IsReading, IsStillPass, KeepsList, OnlyReads, sizes, known, view};

use crate::plays::{Named, Regain, Reread};
use crate::rule::RowRule;
use crate::space::{Pass, Space};
use std::marker::Brand;

impl<R: RowRule> Space<R> {
    // The epoch that the pass announced.
    fn told(&self, pass: &mut Pass<R>) -> u64
        requires reading { IsReading self.now pass.old }
        ensures frame { OnlyReads pass.old pass.new }
        ensures told { result ≡ (view pass.old).pin.told }
    {
        let word = self.own_word(pass.number);
        self.table.shared.load::<Reread>(&mut pass.seat, word) - 1
    }

    // The pass holds the row again that K names.
    fn reuse_as<K: Named>(&self, pass: &mut Pass<R>, _row: u32)
        requires own { IsOn self.now pass.old }
        requires old { (t : ℕ) × (claim_of (view pass.old).claims K.about ≡ some (IsKept t)) × (t + 2 ≤ (view pass.old).pin.told) }
        ensures frame { KeepsList pass.old pass.new }
        ensures held { HoldsAgain K.about (known pass.old) (known pass.new) }
    {
        self.table.shared.load::<Regain<K>>(&mut pass.seat, 1);
    }

    /// The oldest row of this form, of those that the pass keeps and retired two epochs before the one that it announced, or earlier; the oldest of them
    /// all, where none has the form; and none where none was retired so early. The pass holds it then, and keeps it no more. It loads the pass's own
    /// announcement, and takes no step that others may wait for.
    pub fn reuse_row(&self, pass: &mut Pass<R>, like: u32) -> Option<u32>
        requires reading { IsReading self.now pass.old }
        requires list { AreKept (sizes self.now).rows (view pass.old).claims pass.old.kept.rows }
        ensures frame { IsStillPass pass.old pass.new }
        ensures list { AreKept (sizes self.now).rows (view pass.new).claims pass.new.kept.rows }
        ensures reused { Reuses result like (known pass.old) (known pass.new) pass.old.kept pass.new.kept }
    {
        if pass.kept.len() == 0 {
            return None;
        }
        let told = self.told(pass);
        let Some(at) = pass.kept.oldest(told, like) else {
            return None;
        };
        let row = pass.kept.row(at);
        self.reuse_as::<Brand>(pass, row);
        pass.kept.take_out(at);
        Some(row)
    }
}
