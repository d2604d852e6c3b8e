//! Passes keep rows that they unlinked.
ghost use Rattle.ca_rows.specs.Kept.{AreKept, MayRetire};
ghost use Rattle.ca_rows.specs.Reclaiming.{IsRetired};
ghost use Rattle.ca_rows.specs.Told.{KeepsSince};
ghost use Rattle.ca_rows.specs.Passes.{IsOn, IsSamePass, KeepsList, sizes, known, view};

use crate::plays::{Named, Retire};
use crate::rule::RowRule;
use crate::space::{Pass, Space};
use std::marker::Brand;

impl<R: RowRule> Space<R> {
    // Loads the epoch, since which the row is kept that K names.
    fn retire_as<K: Named>(&self, pass: &mut Pass<R>, _row: u32) -> u64
        requires own { IsOn self.now pass.old }
        requires mine { MayRetire R.lent R.fact (sizes self.now) pass.old.seat.id (view pass.old) K.about }
        ensures frame { KeepsList pass.old pass.new }
        ensures keeps { KeepsSince K.about result (known pass.old) (known pass.new) }
    {
        self.table.shared.load::<Retire<K>>(&mut pass.seat, 1)
    }

    /// Keeps a row that the pass holds, that it unlinked, or that it lent to an operation which is finished, with the epoch that is loaded. The form says
    /// what the row was, by a number of the caller's own: `reuse_row` may ask for such a row.
    pub fn retire(&self, pass: &mut Pass<R>, row: u32, form: u32)
        requires own { IsOn self.now pass.old }
        requires list { AreKept (sizes self.now).rows (view pass.old).claims pass.old.kept.rows }
        requires mine { MayRetire R.lent R.fact (sizes self.now) pass.old.seat.id (view pass.old) row }
        ensures frame { IsSamePass pass.old pass.new }
        ensures list { AreKept (sizes self.now).rows (view pass.new).claims pass.new.kept.rows }
        ensures retired { IsRetired row form (known pass.old) (known pass.new) pass.old.kept.rows.items pass.new.kept.rows.items }
    {
        let at = self.retire_as::<Brand>(pass, row);
        pass.kept.push(row, at, form);
    }
}
