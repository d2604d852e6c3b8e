//! What is ahead of a base that a range marked.
ghost use Rattle.std.specs.Prelude.{◌≡◌, ◌≢◌, ◌<◌, ◌≤◌, ◌↔◌, ℕ, IsTrue, Some};
ghost use Rattle.ca_node.specs.Told.{with_upper};
ghost use Rattle.ca_node.specs.TreePasses.{tree_of};
ghost use Rattle.ca_range.specs.Ahead.{IsAhead, IsAtMarked};
ghost use Rattle.ca_range.specs.Loading.{GoesBy};
ghost use Rattle.ca_range.specs.Meeting.{AreMet};
ghost use Rattle.ca_base.specs.Spending.{IsSpentOn};
ghost use Rattle.ca_range.specs.Staying.{OnlySteps};
ghost use Rattle.ca_rows.specs.Passes.{IsReading, KeepsList, sizes, known};

use crate::account::{Account, Range};
use crate::reaching::{copy_key, reaches};
use crate::watching::watch;
use ca_model::Code;
use ca_node::{Cursor, Spot, TreePass, TreeSpace, is_active, load_word, walk};

/// What is ahead of a base that a range marked.
#[derive(Clone, Copy)]
pub(crate) enum Ahead {
    /// Nothing: the range is over.
    Over,
    /// Nothing: the base has all keys up to where the range goes.
    Whole,
    /// The next base.
    Next(Cursor),
}

/// Looks what is ahead of the base that was shown last, and that a range of another pass marked.
pub(crate) fn look_ahead(
    space: &TreeSpace,
    pass: &mut TreePass,
    left: &Cursor,
    range: Range,
    account: &mut Account,
) -> Ahead
    requires reading { IsReading space.now pass.old }
    requires number { pass.old.number ≡ (tree_of pass.old).number }
    requires other { (0 < range.owner) × (range.owner ≤ 64) × (range.owner ≢ (tree_of pass.old).number) }
    requires met { AreMet account.old.met.numbers (tree_of pass.old).ranges.unfinished }
    requires at { IsAtMarked (sizes space.now) (tree_of pass.old) range left.now }
    ensures frame { KeepsList pass.old pass.new }
    ensures raised { known pass.new ≡ with_upper (known pass.old) (tree_of pass.new) }
    ensures steps { OnlySteps (sizes space.now) 0 (tree_of pass.old) (tree_of pass.new) }
    ensures no_join { (tree_of pass.new).joins ≡ (tree_of pass.old).joins }
    ensures met { AreMet account.new.met.numbers (tree_of pass.new).ranges.unfinished }
    ensures ahead { IsAhead (sizes space.now) range left.now result (tree_of pass.old) (tree_of pass.new) }
    ensures loads { GoesBy (sizes space.now) (tree_of pass.old) (tree_of pass.new) }
    ensures counted { IsSpentOn account.old.spent account.new.spent (known pass.old) (known pass.new) }
{
    if !is_active(watch(space, pass, range.owner, account), range.number) {
        return Ahead::Over;
    }
    let Some(route) = left.high else {
        return Ahead::Whole;
    };
    let mut key = Code::new();
    copy_key(space, pass, route, &mut key);
    let border = load_word(space, pass, left.base, 6) as u32;
    if reaches(space, pass, border, &key) {
        return Ahead::Whole;
    }
    Ahead::Next(walk(space, pass, Spot::At(&key)))
}
