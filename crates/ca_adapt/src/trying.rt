//! A base is joined with its sibling.
ghost use Rattle.std.specs.Prelude.{◌≡◌, ◌≤◌, [], Some};
ghost use Rattle.ca_adapt.specs.Carrying.{Holds, StaysPinned, outcome_of};
ghost use Rattle.ca_adapt.specs.Joins.{shown_on};
ghost use Rattle.ca_adapt.specs.Trying.{IsForkAt, IsHungUnder, IsJoinOutcome, IsJoinSteps, IsLoneTry, IsSpentTrying};
ghost use Rattle.ca_adapt.specs.Tuned.{IsTuned};
ghost use Rattle.ca_base.specs.Finding.{IsAtCursor, IsBaseShown};
ghost use Rattle.ca_base.specs.Readiness.{IsReady, StaysReady, shown_last};
ghost use Rattle.ca_node.specs.Inventory.{IsListed};
ghost use Rattle.ca_node.specs.States.{IsAlone};
ghost use Rattle.ca_node.specs.Told.{IsKnown, IsSettled};
ghost use Rattle.ca_node.specs.TreePasses.{tree_of};
ghost use Rattle.ca_node.specs.TreeView.{Quiet};
ghost use Rattle.ca_rows.specs.Passes.{sizes, known};

use crate::adapted::{Adapted, Why};
use crate::carrying::carry_out;
use crate::joining::try_begin;
use crate::looking::{Fork, base_level, fork_at, look_aside};
use crate::marking::Pair;
use crate::tuning::Tuning;
use ca_model::Spent;
use ca_node::{Cursor, TreePass, TreeSpace};

/// Joins the base under the cursor, which was shown last and which no range has and no join, with its sibling: an attempt is begun, both are marked for it, it
/// is secured, and a base with the objects of both takes the place of their route. That is `NotJoined` with `Root` where the base hangs on the root link, with
/// `SiblingRoute` where its sibling is a route, with `TooMany` where both have more objects together than a base may have, with `Taken` where the sibling is in
/// use by a range or an attempt of the route is under way, with `NoRow` and `Worn` where no row was free and where the pool's tag or the route's attempts can
/// rise no more, and with `Lost` where an exchange was lost, or another pass gave the attempt up. No attempt of its own is left under way.
#[tactic(auto, using(crate::proofs::LoneLooks::lone_root))]
pub fn try_join(
    space: &TreeSpace,
    pass: &mut TreePass,
    cursor: Cursor,
    tuning: &Tuning,
    spent: &mut Spent,
) -> Adapted
    requires ready { IsReady space.now pass.old }
    requires tuned { IsTuned (sizes space.now) tuning.now }
    requires shown { IsBaseShown (sizes space.now) (tree_of pass.old) cursor.base (shown_last pass.old) }
    requires at { IsAtCursor (sizes space.now) (shown_last pass.old) cursor }
    requires settled { IsSettled (tree_of pass.old) (shown_last pass.old).its }
    requires hung { IsHungUnder (sizes space.now) (tree_of pass.old) cursor.link cursor.above }
    requires quiet { (tree_of pass.old).ranges.own ≡ Quiet }
    ensures frame { StaysReady space.now pass.old pass.new }
    ensures steps { IsJoinSteps (sizes space.now) (tree_of pass.old) (tree_of pass.new) }
    ensures joined { IsJoinOutcome (sizes space.now) cursor.link (shown_last pass.old) result (known pass.old) (known pass.new) }
    ensures counted { IsSpentTrying spent.old spent.new (known pass.old) (known pass.new) }
    ensures alone { IsAlone (sizes space.now) (tree_of pass.old) → IsKnown (sizes space.now) (tree_of pass.old)
        → IsListed (tree_of pass.old).inventory (shown_last pass.old) → IsLoneTry result (known pass.old) (known pass.new) }
{
    let Some(fork) = fork_at(cursor) else {
        return Adapted::NotJoined(Why::Root);
    };
    outcome(join_under(space, pass, cursor, fork, u32::from(tuning.leaf), spent))
}

// Joins the base under the cursor with its sibling, under this route.
fn join_under(
    space: &TreeSpace,
    pass: &mut TreePass,
    cursor: Cursor,
    fork: Fork,
    leaf: u32,
    spent: &mut Spent,
) -> Result<(), Why>
    requires ready { IsReady space.now pass.old }
    requires leaf { (leaf ≡ (sizes space.now).leaf) × (leaf ≤ 120) }
    requires shown { IsBaseShown (sizes space.now) (tree_of pass.old) cursor.base (shown_on pass.old cursor.link) }
    requires at { IsAtCursor (sizes space.now) (shown_on pass.old cursor.link) cursor }
    requires settled { IsSettled (tree_of pass.old) (shown_on pass.old cursor.link).its }
    requires fork { IsForkAt (sizes space.now) (tree_of pass.old) cursor.link (Some fork) }
    requires quiet { (tree_of pass.old).ranges.own ≡ Quiet }
    ensures frame { StaysPinned pass.old pass.new }
    ensures none { Holds space.now pass.new [] }
    ensures own { (tree_of pass.new).ranges.own ≡ Quiet }
    ensures steps { IsJoinSteps (sizes space.now) (tree_of pass.old) (tree_of pass.new) }
    ensures joined { IsJoinOutcome (sizes space.now) cursor.link (shown_on pass.old cursor.link) (outcome_of result) (known pass.old) (known pass.new) }
    ensures alone { IsAlone (sizes space.now) (tree_of pass.old) → IsKnown (sizes space.now) (tree_of pass.old)
        → IsListed (tree_of pass.old).inventory (shown_on pass.old cursor.link) → IsLoneTry (outcome_of result) (known pass.old) (known pass.new) }
    ensures counted { IsSpentTrying spent.old spent.new (known pass.old) (known pass.new) }
{
    let base = look_aside(space, pass, cursor, fork, leaf)?;
    let level = base_level(space, pass, base);
    let attempt = try_begin(space, pass, fork.route, spent)?;
    let link = fork.other;
    let other = Cursor {
        base,
        link,
        level,
        ..cursor
    };
    let pair = Pair {
        one: cursor,
        other,
        attempt,
    };
    carry_out(space, pass, pair, fork.above, spent)
}

// What became of the base, by what a try to join it came to.
fn outcome(tried: Result<(), Why>) -> Adapted
    ensures { result ≡ outcome_of tried }
{
    match tried {
        Ok(()) => Adapted::Joined,
        Err(why) => Adapted::NotJoined(why),
    }
}
