//! A range whose bases are all marked is decided.
ghost use Rattle.std.specs.Prelude.{◌≡◌, ◌≢◌, ◌<◌, ◌≤◌};
ghost use Rattle.ca_base.specs.Counting.{HasMet};
ghost use Rattle.ca_base.specs.Readiness.{IsReady, StaysReady};
ghost use Rattle.ca_node.specs.TreePasses.{tree_of};
ghost use Rattle.ca_range.specs.Ahead.{IsAtMarked, IsKnownOver, IsWhole};
ghost use Rattle.ca_range.specs.Meeting.{AreMet};
ghost use Rattle.ca_base.specs.Spending.{IsSpentOn};
ghost use Rattle.ca_range.specs.Staying.{OnlySteps};
ghost use Rattle.ca_rows.specs.Passes.{sizes, known};

use crate::account::{Account, Range};
use crate::watching::finish;
use ca_node::{Cursor, TreePass, TreeSpace};
use std::marker::Brand;

/// Decides a range of another pass, with the base that was shown last as the last one of its run. It is over then.
pub(crate) fn decide(
    space: &TreeSpace,
    pass: &mut TreePass,
    last: &Cursor,
    range: Range,
    account: &mut Account,
)
    requires ready { IsReady space.now pass.old }
    requires other { (0 < range.owner) × (range.owner ≤ 64) × (range.owner ≢ (tree_of pass.old).number) }
    requires met { AreMet account.old.met.numbers (tree_of pass.old).ranges.unfinished }
    requires at { IsAtMarked (sizes space.now) (tree_of pass.old) range last.now }
    requires whole { IsWhole (tree_of pass.old) range }
    ensures frame { StaysReady space.now pass.old pass.new }
    ensures steps { OnlySteps (sizes space.now) 0 (tree_of pass.old) (tree_of pass.new) }
    ensures met { AreMet account.new.met.numbers (tree_of pass.new).ranges.unfinished }
    ensures over { IsKnownOver (tree_of pass.new) range }
    ensures helped { (tree_of pass.old).turns.helped < (tree_of pass.new).turns.helped }
    ensures counted { IsSpentOn account.old.spent account.new.spent (known pass.old) (known pass.new) }
    ensures pool { HasMet 0 0 (known pass.old) (known pass.new) }
    ensures notes { (tree_of pass.new).notes ≡ (tree_of pass.old).notes }
    ensures loads { (tree_of pass.new).loads ≡ (tree_of pass.old).loads }
{
    finish::<Brand>(space, pass, range, last.base, account);
}
