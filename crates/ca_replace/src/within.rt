//! Attempts of calls that read what is within edges: a run, and the first object within a lower edge.
ghost use Rattle.std.specs.Prelude.{◌≡◌, ◌≤◌, ◌+◌, ◌<◌, [], IfErr, IfOk, None, Some, cond, false};
ghost use Rattle.ca_base.specs.Counting.{HasMet};
ghost use Rattle.ca_base.specs.Readiness.{StaysReady};
ghost use Rattle.ca_model.specs.Edges.{bound_of, first_object, from, IsProperBound};
ghost use Rattle.ca_model.specs.Event.{Above};
ghost use Rattle.ca_model.specs.Function.{MayBeAskedForAll};
ghost use Rattle.ca_model.specs.StoreMap.{IsStoreMap};
ghost use Rattle.ca_model.specs.declared.edge.Edge.TheVariants.{Open as IsOpen};
ghost use Rattle.ca_node.specs.States.{IsReadSince};
ghost use Rattle.ca_node.specs.Told.{IsEntered};
ghost use Rattle.ca_node.specs.TreePasses.{tree_of};
ghost use Rattle.ca_range.specs.Looking.{IsNotEnough};
ghost use Rattle.ca_range.specs.Snapshots.{HasRun, IsRemembered};
ghost use Rattle.ca_range.specs.Loading.{snapshot_loads};
ghost use Rattle.ca_replace.specs.Attempting.{IsPaid, total};
ghost use Rattle.ca_replace.specs.LoneReads.{bases_at, LooksIfAlone};
ghost use Rattle.ca_replace.specs.Ranging.{HasMissedBy, IsAtWork, MayTryAgain, NeverVanishes};
ghost use Rattle.ca_replace.specs.Running.{all_of};
ghost use Rattle.ca_replace.specs.Within.{FindsAbove, HasLearnt, HasOpened, NeedsAbove, above_event};
ghost use Rattle.ca_rows.specs.Passes.{KeepsList, OnlyReads, IsReading, sizes, known};

use crate::ending::{Read, enter, enter_run};
use crate::missing::Miss;
use crate::opened::OpenRun;
use crate::ranging::Look;
use crate::running::{found_next, open_run};
use crate::tree::Tree;
use crate::warming::warm;
use ca_model::{Code, Edge, Spent};
use ca_node::{TreePass, TreeSpace};
use ca_range::{Account, Run, Snapped, Sought, snapshot};

/// The call that opens a run: whether it reaches the upper edge. It leaves the run.
#[derive(Drop)]
pub(crate) struct RangeCall<'a, F> {
    pub(crate) sought: Sought<'a, F>,
}

impl<F: Fn(&[u8]) -> bool> Look for RangeCall<'_, F> {
    type Answer = bool;

    type Left = OpenRun;

    ghost may = { λ call z. IsProperBound (bound_of call.sought.lo) × IsProperBound (bound_of call.sought.hi)
        × MayBeAskedForAll F.Fn call.sought.counts.now z.keypos };

    ghost tells = { λ call z whole opened u event. HasOpened F.Fn call.sought z whole opened u event };

    ghost needs = { λ call note. IsNotEnough F.Fn call.sought note };

    ghost vanished = { λ call z. NeverVanishes };

    fn look(
        &self,
        tree: &Tree,
        pass: &mut TreePass,
        opened: &mut OpenRun,
        budget: u32,
        spent: &mut Spent,
    ) -> Result<bool, Miss> {
        let sought = &self.sought;
        match snap(tree, pass, sought, budget, spent) {
            Ok(run) => {
                let space = &tree.space;
                enter_run(space, pass, run, sought.lo, sought.hi);
                let end = end_of(run, sought.hi);
                open_run(space, pass, run, sought.lo, end, opened);
                warm(space, pass, opened);
                Ok(run.whole)
            }
            Err(why) => Err(why),
        }
    }
}

/// The call that reads the first object within a lower edge, and answers whether there is one.
#[derive(Clone, Copy)]
pub(crate) struct AboveCall<'a> {
    pub(crate) lo: Edge<'a>,
}

impl Look for AboveCall<'_> {
    type Answer = bool;

    type Left = Code;

    ghost may = { λ call z. IsProperBound (bound_of call.lo) };

    ghost tells = { λ call z found into u event. FindsAbove (bound_of call.lo) found into.items event };

    ghost needs = { λ call note. NeedsAbove (bound_of call.lo) note };

    ghost vanished = { λ call z. NeverVanishes };

    fn look(
        &self,
        tree: &Tree,
        pass: &mut TreePass,
        into: &mut Code,
        budget: u32,
        spent: &mut Spent,
    ) -> Result<bool, Miss> {
        let counts = |_object: &[u8]| true;
        let sought = Sought {
            lo: self.lo,
            hi: Edge::Open,
            want: 1,
            counts: &counts,
        };
        match snap(tree, pass, &sought, budget, spent) {
            Ok(run) => Ok(read_first(&tree.space, pass, run, self.lo, into)),
            Err(why) => Err(why),
        }
    }
}

// Reads the first object within a lower edge, if there is one, of bases that have the first one of a state since the pin: whether there is one. Then `into` is
// the object, else it is empty. The call is entered in the log.
fn read_first(
    space: &TreeSpace,
    pass: &mut TreePass,
    run: Run,
    lo: Edge<'_>,
    into: &mut Code,
) -> bool
    requires reading { IsReading space.now pass.old }
    requires remembered { IsRemembered (sizes space.now) (tree_of pass.old) run }
    requires ordered { IsStoreMap (sizes space.now).keypos (all_of run (tree_of pass.old)) }
    requires answers { IsReadSince (Above (bound_of lo) (first_object (from (bound_of lo) (all_of run (tree_of pass.old))))) (tree_of pass.old) }
    ensures frame { KeepsList pass.old pass.new }
    ensures entered { IsEntered (above_event (bound_of lo.entry) result into.new.items) (known pass.old) (known pass.new) }
    ensures emptied { result ≡ false → into.new.items ≡ [] }
{
    if first_within(space, pass, run, lo, into) {
        enter(space, pass, run.last, Read::First(lo, into.as_slice()));
        return true;
    }
    enter(space, pass, run.last, Read::NoneAbove(lo));
    false
}

// The first object within a lower edge that the bases of a run have, if one is; else `into` is empty.
fn first_within(
    space: &TreeSpace,
    pass: &mut TreePass,
    run: Run,
    lo: Edge<'_>,
    into: &mut Code,
) -> bool
    requires reading { IsReading space.now pass.old }
    requires remembered { IsRemembered (sizes space.now) (tree_of pass.old) run }
    requires ordered { IsStoreMap (sizes space.now).keypos (all_of run (tree_of pass.old)) }
    ensures frame { OnlyReads pass.old pass.new }
    ensures first { first_object (from (bound_of lo.entry) (all_of run (tree_of pass.old))) ≡ cond result (Some into.new.items) None }
    ensures emptied { result ≡ false → into.new.items ≡ [] }
{
    let mut open = OpenRun::none();
    open_run(space, pass, run, lo, Edge::Open, &mut open);
    found_next(space, pass, &mut open, into)
}

// Up to where a run is read: up to the upper edge, where it is whole, and else to its end.
fn end_of(run: Run, hi: Edge<'_>) -> Edge<'_>
    ensures { bound_of result ≡ cond run.whole (bound_of hi.entry) (bound_of IsOpen) }
{
    if run.whole { hi } else { Edge::Open }
}

/// Bases that have together what one state of the history has within the edges, one since the pin; what that spends is added to what was spent before.
pub(crate) fn snap<F: Fn(&[u8]) -> bool>(
    tree: &Tree,
    pass: &mut TreePass,
    sought: &Sought<'_, F>,
    budget: u32,
    spent: &mut Spent,
) -> Result<Run, Miss>
    requires work { IsAtWork tree.now.space pass.old }
    requires edge { IsProperBound (bound_of sought.now.hi) }
    requires function { MayBeAskedForAll F.Fn sought.now.counts.now (sizes tree.now.space).keypos }
    requires none_met { (tree_of pass.old).ranges.unfinished ≡ [] }
    requires unspent { total spent.old < budget }
    ensures frame { StaysReady tree.now.space pass.old pass.new }
    ensures learnt { HasLearnt (sizes tree.now.space) (tree_of pass.old) (tree_of pass.new) }
    ensures run { IfOk result (λ run. HasRun F.Fn sought.now (sizes tree.now.space) (tree_of pass.new) run) }
    ensures met { IfOk result (λ _. HasMet 0 0 (known pass.old) (known pass.new)) }
    ensures counted { IsPaid spent.old spent.new (known pass.old) (known pass.new) }
    ensures missed { HasMissedBy (IsNotEnough F.Fn sought.now) budget spent.new result (known pass.old) (known pass.new) }
    ensures again { IfErr result (λ why. MayTryAgain NeverVanishes why (known pass.old) (known pass.new)) }
    ensures in_budget { IfOk result (λ _. total spent.new < budget) }
    ensures loads { (tree_of pass.new).loads ≤ (tree_of pass.old).loads + snapshot_loads (sizes tree.now.space) }
    ensures alone { LooksIfAlone tree.now.space (bases_at (known pass.old)) result pass.old pass.new }
{
    let mut account = Account::new();
    account.spent = *spent;
    let snapped = snapshot(
        &tree.space,
        pass,
        sought,
        &tree.tuning,
        budget,
        &mut account,
    );
    *spent = account.spent;
    match snapped {
        Snapped::Run(run) => Ok(run),
        Snapped::Again => Err(Miss::Again),
        Snapped::Busy => Err(Miss::Busy),
        Snapped::NoRow => Err(Miss::NoRow),
        Snapped::Worn(counter) => Err(Miss::Worn(counter)),
    }
}
