//! Steps of the structure above the rows.
ghost use Rattle.std.specs.Prelude.{◌≡◌, []};
ghost use Rattle.atomic_table.specs.Table.{Splits, Joins};
ghost use Rattle.ca_rows.specs.Above.{HasSwapped, IsStepOn, LoadKeeps, StoreKeeps, SwapKeeps, step_at};
ghost use Rattle.ca_rows.specs.Calls.{IsRaised, IsSwapped};
ghost use Rattle.ca_rows.specs.Closed.{joined};
ghost use Rattle.ca_rows.specs.Rule.{Ruled};
ghost use Rattle.ca_rows.specs.Passes.{CountsJoin, CountsSplit, KeepsList, sizes, known, view};

use crate::plays::{Put, Raise, Relink};
use crate::rule::RowRule;
use crate::space::{Half, Pass, Space};
use crate::view::View;
use atomic_table::{Join, Play, Split};

impl<R: RowRule> Space<R> {
    /// One load of a word, by the structure above: what the pass knows of the rows and counts of them stays.
    pub fn load<M: Play<(), View<R::Upper>>>(&self, pass: &mut Pass<R>, word: u32) -> u64
        requires step { IsStepOn self.now pass.old word }
        requires rule { LoadKeeps self.now (Ruled R.linked R.lent R.noted R.fact (sizes self.now)) R.loads M.then pass.old word }
        ensures frame { KeepsList pass.old pass.new }
        ensures above { IsRaised (known pass.old) (known pass.new) }
        ensures told { M.then (step_at self.now word 0 0) (known pass.old) result (known pass.new) }
    {
        self.table
            .shared
            .load::<Raise<R, M>>(&mut pass.seat, word as usize)
    }

    /// One store in a word by the structure above: what the pass knows of the rows and counts of them stays.
    pub fn store<M: Play<(), View<R::Upper>>>(&self, pass: &mut Pass<R>, word: u32, new: u64)
        requires step { IsStepOn self.now pass.old word }
        requires rule { StoreKeeps self.now (Ruled R.linked R.lent R.noted R.fact (sizes self.now)) R.stores M.then pass.old word new }
        ensures frame { KeepsList pass.old pass.new }
        ensures above { IsRaised (known pass.old) (known pass.new) }
        ensures told { M.then (step_at self.now word new 0) (known pass.old) new (known pass.new) }
    {
        self.table
            .shared
            .store::<Put<R, M>>(&mut pass.seat, word as usize, new);
    }

    /// One exchange of a word by the structure above, where it is `old`; false exactly where it wasn't. What the pass knows of the rows and counts
    /// of them stays, and whose the rows are changes only where it won.
    pub fn swap<M: Play<(), View<R::Upper>>>(
        &self,
        pass: &mut Pass<R>,
        word: u32,
        old: u64,
        new: u64,
    ) -> bool
        requires step { IsStepOn self.now pass.old word }
        requires rule { SwapKeeps self.now (Ruled R.linked R.lent R.noted R.fact (sizes self.now)) R.swaps M.then pass.old word old new }
        ensures frame { KeepsList pass.old pass.new }
        ensures above { IsSwapped result (known pass.old) (known pass.new) }
        ensures told { HasSwapped self.now M.then pass.old pass.new word old new result }
    {
        self.table
            .shared
            .compare_exchange::<Relink<R, M>>(&mut pass.seat, word as usize, old, new)
            == old
    }

    /// The same exchange, which carries out a split where it wins: the pass's tally counts it then, up to the last number that 64 bits hold.
    pub fn swap_split<M: Play<(), View<R::Upper>>>(
        &self,
        pass: &mut Pass<R>,
        word: u32,
        old: u64,
        new: u64,
    ) -> bool
        requires step { IsStepOn self.now pass.old word }
        requires rule { SwapKeeps self.now (Ruled R.linked R.lent R.noted R.fact (sizes self.now)) R.swaps M.then pass.old word old new }
        ensures frame { CountsSplit result pass.old pass.new }
        ensures above { IsSwapped result (known pass.old) (known pass.new) }
        ensures told { HasSwapped self.now M.then pass.old pass.new word old new result }
    {
        let won = self.swap::<M>(pass, word, old, new);
        if won {
            pass.tally.splits = pass.tally.splits.saturating_add(1);
        }
        won
    }

    /// The same exchange, which carries out a join where it wins: the pass's tally counts it then, up to the last number that 64 bits hold.
    pub fn swap_join<M: Play<(), View<R::Upper>>>(
        &self,
        pass: &mut Pass<R>,
        word: u32,
        old: u64,
        new: u64,
    ) -> bool
        requires step { IsStepOn self.now pass.old word }
        requires rule { SwapKeeps self.now (Ruled R.linked R.lent R.noted R.fact (sizes self.now)) R.swaps M.then pass.old word old new }
        ensures frame { CountsJoin result pass.old pass.new }
        ensures above { IsSwapped result (known pass.old) (known pass.new) }
        ensures told { HasSwapped self.now M.then pass.old pass.new word old new result }
    {
        let won = self.swap::<M>(pass, word, old, new);
        if won {
            pass.tally.joins = pass.tally.joins.saturating_add(1);
        }
        won
    }

    /// Makes a half that knows what `M` says. The pass knows what it knew.
    pub fn split<M: Split<View<R::Upper>>>(&self, pass: &mut Pass<R>) -> Half<R>
        requires table { pass.old.seat.table_id ≡ self.now.table.shared.table_id }
        requires rule { Splits (Ruled R.linked R.lent R.noted R.fact (sizes self.now)) pass.old.seat.id (view pass.old) (M.left (view pass.old))
            (M.right (view pass.old)) }
        requires above { M.left (view pass.old) ≡ view pass.old }
        ensures frame { KeepsList pass.old pass.new }
        ensures left { known pass.new ≡ known pass.old }
        ensures right { (result.seat.table_id ≡ pass.old.seat.table_id) × (result.seat.me ≡ (M.right (view pass.old), [])) }
    {
        Half {
            seat: self.table.shared.split_seat::<M>(&mut pass.seat),
        }
    }

    /// Joins what was split off into a pass, which learns of it what the rule above says.
    pub fn join<M: Join<View<R::Upper>>>(&self, pass: &mut Pass<R>, half: Half<R>)
        requires table { (pass.old.seat.table_id ≡ self.now.table.shared.table_id) × (half.seat.table_id ≡ self.now.table.shared.table_id)
            × (half.seat.me.1 ≡ []) }
        requires rule { Joins (Ruled R.linked R.lent R.noted R.fact (sizes self.now)) pass.old.seat.id (view pass.old) half.seat.id half.seat.me.0
            (M.both (view pass.old) half.seat.me.0) M.spent }
        requires above { M.both (view pass.old) half.seat.me.0 ≡ joined R.learns (view pass.old) half.seat.me.0 }
        ensures frame { KeepsList pass.old pass.new }
        ensures both { known pass.new ≡ (joined R.learns (view pass.old) half.seat.me.0, pass.old.seat.me.1) }
    {
        self.table
            .shared
            .join_seat::<M>(&mut pass.seat, half.into_seat());
    }
}
