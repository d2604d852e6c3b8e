//! The next base of a range is marked, where no other range has it.
ghost use Rattle.std.specs.Prelude.{◌≡◌, ◌<◌, ◌≤◌, []};
ghost use Rattle.ca_base.specs.Putting.{first_note};
ghost use Rattle.ca_base.specs.Readiness.{IsReady, StaysReady};
ghost use Rattle.ca_node.specs.States.{IsAlone};
ghost use Rattle.ca_node.specs.Told.{IsKnown};
ghost use Rattle.ca_node.specs.TreePasses.{tree_of};
ghost use Rattle.ca_node.specs.TreeView.{Quiet};
ghost use Rattle.ca_range.specs.Ahead.{IsAtLast};
ghost use Rattle.ca_range.specs.Filling.{GoesTo, HasStepped, IsCopyOf, step_lost};
ghost use Rattle.ca_range.specs.Farther.{reach};
ghost use Rattle.ca_range.specs.Loading.{StepsBy};
ghost use Rattle.ca_range.specs.Lonely.{IsFreeOfOthers, LearnsAlone};
ghost use Rattle.ca_range.specs.Marked.{IsNextTo, second_note};
ghost use Rattle.ca_range.specs.Meeting.{AreMet};
ghost use Rattle.ca_base.specs.Spending.{IsSpentOn};
ghost use Rattle.ca_range.specs.Staying.{OnlySteps};
ghost use Rattle.ca_range.specs.Using.{HasFoundUse};
ghost use Rattle.ca_rows.specs.Passes.{sizes, known};

use crate::account::{Account, Range};
use crate::copying::Mark;
use crate::helped::Helped;
use crate::joins::{JoinEnd, end_join};
use crate::marking::mark_base;
use crate::marks::{MarkedBase, range_of};
use crate::watching::watch;
use ca_base::Stop;
use ca_model::Counter;
use ca_node::{Cursor, TreePass, TreeSpace, is_active};

/// What a step comes to that helps a range.
#[derive(Clone, Copy)]
pub(crate) enum Step {
    /// This base is the last one that is marked.
    Marked(Cursor),
    /// The next base is this one, which another range has: that one is to be helped first.
    Met(MarkedBase),
    /// The help ended.
    Ended(Helped),
}

/// Which range of another pass marked the base that the pass was shown last, where that range isn't over; else none. An attempt to join that marked the base is
/// ended: one that is prepared is given up, and where it is secured it answers what became of carrying it out (`Err`).
pub fn range_in_use(
    space: &TreeSpace,
    pass: &mut TreePass,
    cursor: Cursor,
    account: &mut Account,
) -> Result<Option<Range>, Helped>
    requires ready { IsReady space.now pass.old }
    requires number { pass.old.number ≡ (tree_of pass.old).number }
    requires quiet { (tree_of pass.old).ranges.own ≡ Quiet }
    requires met { AreMet account.old.met.numbers (tree_of pass.old).ranges.unfinished }
    requires leaf { (sizes space.now).leaf ≤ 120 }
    requires at { IsAtLast (sizes space.now) (tree_of pass.old) cursor }
    ensures met { AreMet account.new.met.numbers (tree_of pass.new).ranges.unfinished }
    ensures in_use { HasFoundUse space.now cursor.base result pass.old pass.new }
    ensures counted { IsSpentOn account.old.spent account.new.spent (known pass.old) (known pass.new) }
    ensures alone { IsAlone (sizes space.now) (tree_of pass.old) → IsKnown (sizes space.now) (tree_of pass.old) → (tree_of pass.old).ranges.unfinished ≡ []
        → IsFreeOfOthers result × LearnsAlone (tree_of pass.old) (tree_of pass.new) }
{
    let Some(range) = range_of(space, pass, cursor.base) else {
        return match end_join(space, pass, cursor, &mut account.spent) {
            JoinEnd::Unmarked => Ok(None),
            JoinEnd::Before => Ok(None),
            JoinEnd::Now => Ok(None),
            JoinEnd::Gone(helped) => Err(helped),
        };
    };
    let state = watch(space, pass, range.owner, account);
    if !is_active(state, range.number) {
        return Ok(None);
    }
    Ok(Some(range))
}

/// Marks the base that the pass was shown last as the next one of a range, where no other range has it. An attempt to join that has it is given up; or it is
/// carried out, which ends the help.
pub(crate) fn fill_gap(
    space: &TreeSpace,
    pass: &mut TreePass,
    next: Cursor,
    mark: &Mark,
    account: &mut Account,
) -> Step
    requires ready { IsReady space.now pass.old }
    requires number { pass.old.number ≡ (tree_of pass.old).number }
    requires quiet { (tree_of pass.old).ranges.own ≡ Quiet }
    requires leaf { (sizes space.now).leaf ≤ 120 }
    requires at { IsAtLast (sizes space.now) (tree_of pass.old) next }
    requires next { IsNextTo (tree_of pass.old) mark.now (second_note (tree_of pass.old).notes) (first_note (tree_of pass.old).notes) }
    requires owner { (0 < mark.now.range.owner) × (mark.now.range.owner ≤ 64) }
    requires met { AreMet account.old.met.numbers (tree_of pass.old).ranges.unfinished }
    ensures frame { StaysReady space.now pass.old pass.new }
    ensures steps { OnlySteps (sizes space.now) (step_lost result) (tree_of pass.old) (tree_of pass.new) }
    ensures met { AreMet account.new.met.numbers (tree_of pass.new).ranges.unfinished }
    ensures stepped { HasStepped (sizes space.now) mark.now.range result (known pass.old) (known pass.new) }
    ensures copied { IsCopyOf (first_note (tree_of pass.old).notes) mark.now.statistic result (tree_of pass.new) }
    ensures goes { GoesTo (reach (tree_of pass.old)) result (tree_of pass.new) }
    ensures loads { StepsBy (sizes space.now) result (tree_of pass.old) (tree_of pass.new) }
    ensures counted { IsSpentOn account.old.spent account.new.spent (known pass.old) (known pass.new) }
{
    match range_in_use(space, pass, next, account) {
        Ok(None) => {}
        Ok(Some(range)) => {
            let cursor = next;
            return Step::Met(MarkedBase { cursor, range });
        }
        Err(helped) => return Step::Ended(helped),
    }
    match mark_base(space, pass, next, mark, &mut account.spent) {
        Ok(base) => Step::Marked(Cursor { base, ..next }),
        Err(Stop::Lost(exchange)) => Step::Ended(Helped::Lost(exchange)),
        Err(Stop::Empty) => Step::Ended(Helped::NoRow),
        Err(Stop::Worn) => Step::Ended(Helped::Worn(Counter::PoolTag)),
    }
}
