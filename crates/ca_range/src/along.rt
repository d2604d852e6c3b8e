//! Along the bases that a range marked.
ghost use Rattle.std.specs.Prelude.{◌≡◌, ◌≢◌, ◌<◌, ◌≤◌};
ghost use Rattle.ca_node.specs.Told.{with_upper};
ghost use Rattle.ca_node.specs.TreePasses.{tree_of};
ghost use Rattle.ca_range.specs.Ahead.{IsAtMarked};
ghost use Rattle.ca_range.specs.Along.{IsReached};
ghost use Rattle.ca_range.specs.Loading.{GoesBy};
ghost use Rattle.ca_range.specs.Meeting.{AreMet};
ghost use Rattle.ca_base.specs.Spending.{IsSpentOn};
ghost use Rattle.ca_range.specs.Staying.{OnlySteps};
ghost use Rattle.ca_rows.specs.Passes.{IsReading, KeepsList, sizes, known};

use crate::account::{Account, Range};
use crate::ahead::{Ahead, look_ahead};
use crate::marks::is_of;
use ca_node::{Cursor, TreePass, TreeSpace};

/// Where the bases that a range marked end.
#[derive(Clone, Copy)]
pub(crate) enum Reached {
    /// The range is over.
    Over,
    /// This base has all keys up to where the range goes.
    Whole(Cursor),
    /// This base is the last one that the range marked, and this one is the next.
    Before(Cursor, Cursor),
}

/// Goes along the bases that a range of another pass marked, from the one that was shown last. Each goes farther than the one before.
pub(crate) fn go_along(
    space: &TreeSpace,
    pass: &mut TreePass,
    from: Cursor,
    range: Range,
    account: &mut Account,
) -> Reached
    requires reading { IsReading space.now pass.old }
    requires number { pass.old.number ≡ (tree_of pass.old).number }
    requires other { (0 < range.owner) × (range.owner ≤ 64) × (range.owner ≢ (tree_of pass.old).number) }
    requires met { AreMet account.old.met.numbers (tree_of pass.old).ranges.unfinished }
    requires at { IsAtMarked (sizes space.now) (tree_of pass.old) range from }
    ensures frame { KeepsList pass.old pass.new }
    ensures raised { known pass.new ≡ with_upper (known pass.old) (tree_of pass.new) }
    ensures steps { OnlySteps (sizes space.now) 0 (tree_of pass.old) (tree_of pass.new) }
    ensures no_join { (tree_of pass.new).joins ≡ (tree_of pass.old).joins }
    ensures met { AreMet account.new.met.numbers (tree_of pass.new).ranges.unfinished }
    ensures reached { IsReached (sizes space.now) range result (tree_of pass.old) (tree_of pass.new) }
    ensures loads { GoesBy (sizes space.now) (tree_of pass.old) (tree_of pass.new) }
    ensures counted { IsSpentOn account.old.spent account.new.spent (known pass.old) (known pass.new) }
{
    let mut left = from;
    loop {
        match look_ahead(space, pass, &left, range, account) {
            Ahead::Over => return Reached::Over,
            Ahead::Whole => return Reached::Whole(left),
            Ahead::Next(next) => {
                if !is_of(space, pass, next.base, range) {
                    return Reached::Before(left, next);
                }
                left = next;
            }
        }
    }
}
