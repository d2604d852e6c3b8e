//! Snapshots of what is within two edges.
ghost use Rattle.std.specs.Prelude.{◌≡◌, ◌+◌, ◌<◌, ◌≤◌, [], vec_len};
ghost use Rattle.ca_adapt.specs.Tuned.{IsTuned};
ghost use Rattle.ca_base.specs.Putting.{first_note};
ghost use Rattle.ca_base.specs.Readiness.{IsReady, StaysReady};
ghost use Rattle.ca_model.specs.Edges.{bound_of, IsProperBound};
ghost use Rattle.ca_model.specs.Function.{MayBeAskedForAll};
ghost use Rattle.ca_node.specs.Inventory.{HasFewRows};
ghost use Rattle.ca_node.specs.States.{IsAlone};
ghost use Rattle.ca_node.specs.Told.{IsKnown};
ghost use Rattle.ca_node.specs.TreePasses.{tree_of};
ghost use Rattle.ca_node.specs.TreeView.{Quiet};
ghost use Rattle.ca_range.specs.Ahead.{IsAtLast};
ghost use Rattle.ca_range.specs.Filling.{IsInUse, turns_of};
ghost use Rattle.ca_range.specs.Gathering.{EndsInBudget, HasBegun, IsOver};
ghost use Rattle.ca_range.specs.Loading.{EndsBy, begin_loads, snapshot_loads};
ghost use Rattle.ca_range.specs.Lonely.{ComesAlone, SnapsAlone};
ghost use Rattle.ca_range.specs.Meeting.{AreMet};
ghost use Rattle.ca_range.specs.Snapping.{IsRefused, StaysPinned, snapped_so};
ghost use Rattle.ca_range.specs.Snapshots.{HasSnapped, IsInBudget, OnlyRanges};
ghost use Rattle.ca_base.specs.Spending.{IsSpentOn};
ghost use Rattle.ca_rows.specs.Passes.{sizes, known};

use crate::account::Account;
use crate::filling::range_in_use;
use crate::gathering::{Further, gather};
use crate::helped::Helped;
use crate::helping::help_ranges;
use crate::looking::{Looked, look, walk_to_first};
use crate::marks::MarkedBase;
use crate::opening::begin_range;
use crate::sought::{Run, Search, Snapped, Sought};
use ca_adapt::Tuning;
use ca_model::{Code, Counter};
use ca_node::{TreePass, TreeSpace};

/// Finds bases that have together what one state of the history has within the edges, one since the pin. Where one base has it all, it only looks at that.
pub fn snapshot<F: Fn(&[u8]) -> bool>(
    space: &TreeSpace,
    pass: &mut TreePass,
    sought: &Sought<'_, F>,
    tuning: &Tuning,
    budget: u32,
    account: &mut Account,
) -> Snapped
    requires ready { IsReady space.now pass.old }
    requires number { pass.old.number ≡ (tree_of pass.old).number }
    requires quiet { (tree_of pass.old).ranges.own ≡ Quiet }
    requires tuned { IsTuned (sizes space.now) tuning.now }
    requires edge { IsProperBound (bound_of sought.now.hi) }
    requires function { MayBeAskedForAll F.Fn sought.now.counts.now (sizes space.now).keypos }
    requires met { AreMet account.old.met.numbers (tree_of pass.old).ranges.unfinished }
    requires unspent { turns_of account.old.spent < budget }
    ensures frame { StaysReady space.now pass.old pass.new }
    ensures steps { OnlyRanges (sizes space.now) (tree_of pass.old) (tree_of pass.new) }
    ensures met { AreMet account.new.met.numbers (tree_of pass.new).ranges.unfinished }
    ensures snapped { HasSnapped F.Fn sought.now (sizes space.now) budget account.new.spent result (known pass.old) (known pass.new) }
    ensures in_budget { IsInBudget budget account.new.spent result }
    ensures loads { (tree_of pass.new).loads ≤ (tree_of pass.old).loads + snapshot_loads (sizes space.now) }
    ensures counted { IsSpentOn account.old.spent account.new.spent (known pass.old) (known pass.new) }
    ensures alone { IsAlone (sizes space.now) (tree_of pass.old) → IsKnown (sizes space.now) (tree_of pass.old) → (tree_of pass.old).ranges.unfinished ≡ []
        → SnapsAlone (sizes space.now) result (vec_len pass.old.kept.rows) (vec_len pass.new.kept.rows) (known pass.old) (known pass.new) }
{
    let search = Search {
        sought,
        tuning,
        budget,
    };
    match begin_snapshot(space, pass, &search, account) {
        Further::On(first) => gather(space, pass, first, &search, account),
        Further::Ended(snapped) => snapped,
    }
}

/// The first step of a snapshot: where one base has all that is sought, it only looks at that; else a range of the pass is begun, and its first base is marked.
pub fn begin_snapshot<F: Fn(&[u8]) -> bool>(
    space: &TreeSpace,
    pass: &mut TreePass,
    search: &Search<'_, F>,
    account: &mut Account,
) -> Further
    requires ready { IsReady space.now pass.old }
    requires number { pass.old.number ≡ (tree_of pass.old).number }
    requires quiet { (tree_of pass.old).ranges.own ≡ Quiet }
    requires tuned { IsTuned (sizes space.now) search.now.tuning.now }
    requires edge { IsProperBound (bound_of search.now.sought.now.hi) }
    requires function { MayBeAskedForAll F.Fn search.now.sought.now.counts.now (sizes space.now).keypos }
    requires met { AreMet account.old.met.numbers (tree_of pass.old).ranges.unfinished }
    requires unspent { turns_of account.old.spent < search.now.budget }
    ensures frame { StaysPinned space.now pass.old pass.new }
    ensures quiet { IsOver result (tree_of pass.new) }
    ensures steps { OnlyRanges (sizes space.now) (tree_of pass.old) (tree_of pass.new) }
    ensures met { AreMet account.new.met.numbers (tree_of pass.new).ranges.unfinished }
    ensures begun { HasBegun F.Fn search.now.sought.now (sizes space.now) search.now.budget account.new.spent result (known pass.old) (known pass.new) }
    ensures in_budget { EndsInBudget search.now.budget account.new.spent result }
    ensures loads { (tree_of pass.new).loads ≤ (tree_of pass.old).loads + begin_loads (sizes space.now) result }
    ensures counted { IsSpentOn account.old.spent account.new.spent (known pass.old) (known pass.new) }
    ensures alone { IsAlone (sizes space.now) (tree_of pass.old) → (tree_of pass.old).ranges.unfinished ≡ [] → HasFewRows (tree_of pass.old)
        × ComesAlone (sizes space.now) result (vec_len pass.old.kept.rows) (vec_len pass.new.kept.rows) (known pass.old) (known pass.new) }
{
    let first = walk_to_first(space, pass, search.sought.lo);
    let mut key = Code::new();
    match look(space, pass, &first, search.sought, 0, &mut key) {
        Looked::Done(whole) => {
            let (last, chained) = (first.base, false);
            return Further::Ended(Snapped::Run(Run {
                last,
                chained,
                whole,
            }));
        }
        Looked::On(_) => {}
    }
    match range_in_use(space, pass, first, account) {
        Ok(None) => {}
        Ok(Some(range)) => {
            let cursor = first;
            let from = MarkedBase { cursor, range };
            let (tuning, budget) = (search.tuning, search.budget);
            return Further::Ended(help_first(space, pass, from, tuning, budget, account));
        }
        Err(helped) => return Further::Ended(after_help(helped)),
    }
    begin_range(space, pass, first, search, account)
}

/// Helps a range of another pass that is in the way of a snapshot.
pub(crate) fn help_first(
    space: &TreeSpace,
    pass: &mut TreePass,
    from: MarkedBase,
    tuning: &Tuning,
    budget: u32,
    account: &mut Account,
) -> Snapped
    requires ready { IsReady space.now pass.old }
    requires number { pass.old.number ≡ (tree_of pass.old).number }
    requires quiet { (tree_of pass.old).ranges.own ≡ Quiet }
    requires tuned { IsTuned (sizes space.now) tuning.now }
    requires met { AreMet account.old.met.numbers (tree_of pass.old).ranges.unfinished }
    requires at { IsAtLast (sizes space.now) (tree_of pass.old) from.cursor }
    requires used { IsInUse (tree_of pass.old) (first_note (tree_of pass.old).notes) from.range }
    ensures frame { StaysReady space.now pass.old pass.new }
    ensures steps { OnlyRanges (sizes space.now) (tree_of pass.old) (tree_of pass.new) }
    ensures met { AreMet account.new.met.numbers (tree_of pass.new).ranges.unfinished }
    ensures refused { IsRefused budget account.new.spent result (known pass.old) (known pass.new) }
    ensures loads { EndsBy (sizes space.now) (tree_of pass.old) (tree_of pass.new) }
    ensures counted { IsSpentOn account.old.spent account.new.spent (known pass.old) (known pass.new) }
{
    after_help(help_ranges(space, pass, from, tuning, budget, account))
}

/// What a snapshot comes to behind help, by what became of that.
pub(crate) fn after_help(helped: Helped) -> Snapped
    ensures { result ≡ snapped_so helped }
{
    match helped {
        Helped::Finished => Snapped::Again,
        Helped::Lost(_) => Snapped::Again,
        Helped::Busy(_) => Snapped::Busy,
        Helped::NoRow => Snapped::NoRow,
        Helped::Worn(_) => Snapped::Worn(Counter::PoolTag),
    }
}
