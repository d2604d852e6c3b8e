//! Attempts of the call that reads the last object within an upper edge.
ghost use Rattle.std.specs.Prelude.{◌≡◌, ◌+◌, ◌<◌, ◌≤◌, [], IfErr, IfOk, None, Some, cond, false, map};
ghost use Rattle.ca_model.specs.Edges.{Included, Unbounded, bound_of, last_object, up_to, IsProperBound};
ghost use Rattle.ca_base.specs.Counting.{HasMet};
ghost use Rattle.ca_base.specs.Putting.{first_note};
ghost use Rattle.ca_base.specs.Readiness.{StaysReady};
ghost use Rattle.ca_node.specs.Row.{pair};
ghost use Rattle.ca_node.specs.States.{IsReadSince};
ghost use Rattle.ca_node.specs.Told.{IsEntered};
ghost use Rattle.ca_node.specs.TreePasses.{tree_of};
ghost use Rattle.ca_node.specs.Walking.{IsWalked};
ghost use Rattle.ca_range.specs.Loading.{snapshot_loads};
ghost use Rattle.ca_replace.specs.Attempting.{IsPaid, total};
ghost use Rattle.ca_replace.specs.LoneReads.{bases_at, LooksIfAlone};
ghost use Rattle.ca_replace.specs.Ranging.{HasMissedBy, IsAtWork, MayTryAgain, NeverVanishes};
ghost use Rattle.ca_replace.specs.Within.{FindsBelow, HasAllUpTo, HasLearnt, HasVanished, NeedsBelow, below_event, spot_at};
ghost use Rattle.ca_rows.specs.Passes.{KeepsList, IsReading, sizes, known};

use crate::aside::look_left;
use crate::ending::{Read, enter};
use crate::missing::Miss;
use crate::ranging::Look;
use crate::running::last_within;
use crate::tree::Tree;
use crate::within::snap;
use ca_model::{Code, Edge, Spent};
use ca_node::{Cursor, Spot, TreePass, TreeSpace, walk};
use ca_range::{Run, Sought};

/// The call that reads the last object within an upper edge, and answers whether there is one.
#[derive(Clone, Copy)]
pub(crate) struct BelowCall<'a> {
    pub(crate) hi: Edge<'a>,
}

impl Look for BelowCall<'_> {
    type Answer = bool;

    type Left = Code;

    ghost may = { λ call z. IsProperBound (bound_of call.hi) };

    ghost tells = { λ call z found into u event. FindsBelow (bound_of call.hi) found into.items event };

    ghost needs = { λ call note. NeedsBelow (bound_of call.hi) note };

    ghost vanished = { λ call z. HasVanished call.hi z };

    fn look(
        &self,
        tree: &Tree,
        pass: &mut TreePass,
        into: &mut Code,
        budget: u32,
        spent: &mut Spent,
    ) -> Result<bool, Miss> {
        let (space, hi) = (&tree.space, self.hi);
        let (cursor, near) = look_near(space, pass, hi, into);
        if near {
            enter_last(space, pass, cursor.base, hi, true, into);
            return Ok(true);
        }
        let Some(route) = cursor.low else {
            enter_last(space, pass, cursor.base, hi, false, into);
            return Ok(false);
        };
        let mut low = Code::new();
        let Some(bounded) = look_left(space, pass, route, budget, spent, &mut low) else {
            return Err(Miss::Busy);
        };
        let lo = edge_at(bounded, &low);
        match take_run(tree, pass, (lo, hi), budget, spent) {
            Ok(run) => {
                let found = last_within(space, pass, run, hi, into);
                if bounded && !found {
                    return Err(Miss::Again);
                }
                enter_last(space, pass, run.last, hi, found, into);
                Ok(found)
            }
            Err(why) => Err(why),
        }
    }
}

// The edge from this key on, where there is a bound.
fn edge_at(bounded: bool, low: &[u8]) -> Edge<'_>
    ensures { bound_of result ≡ cond bounded (Included low.now) Unbounded }
{
    if bounded { Edge::At(low) } else { Edge::Open }
}

// Bases that have together what one state of the history has within a lower edge and an upper one, one since the pin.
fn take_run(
    tree: &Tree,
    pass: &mut TreePass,
    edges: (Edge<'_>, Edge<'_>),
    budget: u32,
    spent: &mut Spent,
) -> Result<Run, Miss>
    requires work { IsAtWork tree.now.space pass.old }
    requires edge { IsProperBound (bound_of edges.1) }
    requires none_met { (tree_of pass.old).ranges.unfinished ≡ [] }
    requires unspent { total spent.old < budget }
    ensures frame { StaysReady tree.now.space pass.old pass.new }
    ensures learnt { HasLearnt (sizes tree.now.space) (tree_of pass.old) (tree_of pass.new) }
    ensures run { IfOk result (λ run. HasAllUpTo (bound_of edges.entry.0) (bound_of edges.entry.1) (sizes tree.now.space) (tree_of pass.new) run) }
    ensures met { IfOk result (λ _. HasMet 0 0 (known pass.old) (known pass.new)) }
    ensures counted { IsPaid spent.old spent.new (known pass.old) (known pass.new) }
    ensures missed { HasMissedBy (NeedsBelow (bound_of edges.entry.1)) budget spent.new result (known pass.old) (known pass.new) }
    ensures again { IfErr result (λ why. MayTryAgain NeverVanishes why (known pass.old) (known pass.new)) }
    ensures in_budget { IfOk result (λ _. total spent.new < budget) }
    ensures loads { (tree_of pass.new).loads ≤ (tree_of pass.old).loads + snapshot_loads (sizes tree.now.space) }
    ensures alone { LooksIfAlone tree.now.space (bases_at (known pass.old)) result pass.old pass.new }
{
    let counts = |_object: &[u8]| true;
    let (lo, hi) = edges;
    let sought = Sought {
        lo,
        hi,
        want: 0,
        counts: &counts,
    };
    match snap(tree, pass, &sought, budget, spent) {
        Ok(run) => Ok(run),
        Err(why) => Err(why),
    }
}

// Enters the read of the last object within an upper edge in the log: whether there is one, and which.
fn enter_last(
    space: &TreeSpace,
    pass: &mut TreePass,
    row: u32,
    hi: Edge<'_>,
    found: bool,
    object: &Code,
)
    requires reading { IsReading space.now pass.old }
    requires inside { row ≤ (sizes space.now).rows }
    requires answer { IsReadSince (below_event (bound_of hi) found object.now.items) (tree_of pass.old) }
    ensures frame { KeepsList pass.old pass.new }
    ensures entered { IsEntered (below_event (bound_of hi.entry) found object.now.items) (known pass.old) (known pass.new) }
{
    if found {
        enter(space, pass, row, Read::Last(hi, object.as_slice()));
    } else {
        enter(space, pass, row, Read::NoneBelow(hi));
    }
}

// The last object within an upper edge that the base has which has the keys right below it, if one is; else `into` is empty.
fn look_near(
    space: &TreeSpace,
    pass: &mut TreePass,
    hi: Edge<'_>,
    into: &mut Code,
) -> (Cursor, bool)
    requires reading { IsReading space.now pass.old }
    requires leaf { (sizes space.now).leaf ≤ 120 }
    ensures frame { KeepsList pass.old pass.new }
    ensures walked { IsWalked (sizes space.now) (spot_at hi.entry) (known pass.old) result.0 (known pass.new) }
    ensures last { last_object (up_to (bound_of hi.entry) (map pair (first_note (tree_of pass.new).notes).objects)) ≡ cond result.1 (Some into.new.items) None }
    ensures emptied { result.1 ≡ false → into.new.items ≡ [] }
{
    let spot = match hi {
        Edge::Open => Spot::Last,
        Edge::At(key) => Spot::At(key),
        Edge::Past(key) => Spot::Below(key),
    };
    let cursor = walk(space, pass, spot);
    let base = Run {
        last: cursor.base,
        chained: false,
        whole: false,
    };
    let found = last_within(space, pass, base, hi, into);
    (cursor, found)
}
