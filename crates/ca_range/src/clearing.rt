//! What an edit does about the mark of the base that it is to exchange.
ghost use Rattle.std.specs.Prelude.{◌≡◌, ◌≢◌, ◌≤◌, ℕ, []};
ghost use Rattle.ca_adapt.specs.Tuned.{IsTuned};
ghost use Rattle.ca_base.specs.Putting.{first_note};
ghost use Rattle.ca_base.specs.Readiness.{IsReady};
ghost use Rattle.ca_node.specs.LoneStays.{HasNone};
ghost use Rattle.ca_node.specs.Row.{mark};
ghost use Rattle.ca_node.specs.States.{IsAlone};
ghost use Rattle.ca_node.specs.Told.{IsKnown};
ghost use Rattle.ca_node.specs.TreePasses.{tree_of};
ghost use Rattle.ca_node.specs.TreeView.{Quiet};
ghost use Rattle.ca_range.specs.Ahead.{IsAtLast};
ghost use Rattle.ca_range.specs.Clearing.{IsCleared, IsOfBase, IsUnmet};
ghost use Rattle.ca_rows.specs.Passes.{sizes, known};

use crate::account::Account;
use crate::helped::Helped;
use crate::helping::help_ranges;
use crate::joins::{JoinEnd, end_join};
use crate::marks::{MarkedBase, range_of};
use crate::watching::watch;
use ca_adapt::Tuning;
use ca_model::Spent;
use ca_node::{Cursor, TreePass, TreeSpace, is_active};

/// What was found of a base that is to be exchanged.
#[derive(Clone, Copy)]
pub enum Way {
    /// Neither a range has it nor a join. Whether one marked it.
    Free(bool),
    /// A range of another pass has it, and was helped, or an attempt to join, which was given up or carried out: what became of that, and what was spent.
    Helped(Helped, Spent),
}

/// Looks which range or which attempt to join marked the base that was shown last. Where that is a range of another pass that isn't over, the pass helps it,
/// with a budget of its own; where it is an attempt that is prepared, the pass gives it up, and one that is secured it carries out. The pass has no range, and
/// found none unfinished since it was pinned.
pub fn clear(
    space: &TreeSpace,
    pass: &mut TreePass,
    cursor: Cursor,
    tuning: &Tuning,
    budget: u32,
) -> Way
    requires ready { IsReady space.now pass.old }
    requires number { pass.old.number ≡ (tree_of pass.old).number }
    requires quiet { (tree_of pass.old).ranges.own ≡ Quiet }
    requires none_met { (tree_of pass.old).ranges.unfinished ≡ [] }
    requires tuned { IsTuned (sizes space.now) tuning.now }
    requires at { IsAtLast (sizes space.now) (tree_of pass.old) cursor }
    requires budget { 1 ≤ budget }
    ensures cleared { IsCleared space.now result pass.old pass.new }
    ensures way { IsOfBase (sizes space.now) budget result (known pass.old) (known pass.new) }
    ensures alone { IsAlone (sizes space.now) (tree_of pass.old) → IsKnown (sizes space.now) (tree_of pass.old) → IsUnmet result (tree_of pass.new) }
{
    let Some(range) = range_of(space, pass, cursor.base) else {
        return clear_of_join(space, pass, cursor);
    };
    let mut account = Account::new();
    let state = watch(space, pass, range.owner, &mut account);
    if !is_active(state, range.number) {
        return Way::Free(true);
    }
    let from = MarkedBase { cursor, range };
    let helped = help_ranges(space, pass, from, tuning, budget, &mut account);
    Way::Helped(helped, account.spent)
}

// The same of a base that no range marked.
fn clear_of_join(space: &TreeSpace, pass: &mut TreePass, cursor: Cursor) -> Way
    requires ready { IsReady space.now pass.old }
    requires leaf { (sizes space.now).leaf ≤ 120 }
    requires none_met { (tree_of pass.old).ranges.unfinished ≡ [] }
    requires at { IsAtLast (sizes space.now) (tree_of pass.old) cursor }
    requires unranged { mark (first_note (tree_of pass.old).notes).its ≢ 1 }
    requires other { HasNone (tree_of pass.old).ranges.own }
    ensures cleared { IsCleared space.now result pass.old pass.new }
    ensures way { (budget : ℕ) → IsOfBase (sizes space.now) budget result (known pass.old) (known pass.new) }
    ensures unmet { IsUnmet result (tree_of pass.new) }
{
    let mut spent = Spent {
        lost: 0,
        helped: 0,
        passed: 0,
    };
    match end_join(space, pass, cursor, &mut spent) {
        JoinEnd::Unmarked => Way::Free(false),
        JoinEnd::Before => Way::Free(true),
        JoinEnd::Now => Way::Helped(Helped::Finished, spent),
        JoinEnd::Gone(helped) => Way::Helped(helped, spent),
    }
}
