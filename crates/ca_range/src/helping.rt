//! A pass helps ranges of other passes.
ghost use Rattle.std.specs.Prelude.{◌≡◌, ◌≢◌, ◌+◌, ◌<◌, ◌≤◌, slice_index};
ghost use Rattle.ca_adapt.specs.Allowed.{IsAllowed};
ghost use Rattle.ca_adapt.specs.Statistics.{IsPastWord};
ghost use Rattle.ca_adapt.specs.Tuned.{IsTuned};
ghost use Rattle.ca_base.specs.Finding.{IsBaseShown};
ghost use Rattle.ca_base.specs.Readiness.{IsReady, StaysReady};
ghost use Rattle.ca_node.specs.Links.{IsIn};
ghost use Rattle.ca_node.specs.Row.{mark_bound};
ghost use Rattle.ca_node.specs.TreePasses.{tree_of};
ghost use Rattle.ca_node.specs.TreeView.{Note, Quiet, Unfinished};
ghost use Rattle.ca_range.specs.Ahead.{IsAtMarked};
ghost use Rattle.ca_range.specs.Filling.{GoesTo, HasStepped, IsHelpedTo, IsPassedOn, IsTurned, links_lost, step_lost, turns_of};
ghost use Rattle.ca_range.specs.Farther.{reach};
ghost use Rattle.ca_range.specs.Loading.{EndsBy, StepsBy};
ghost use Rattle.ca_range.specs.Meeting.{AreMet};
ghost use Rattle.ca_base.specs.Spending.{IsSpentOn};
ghost use Rattle.ca_range.specs.Staying.{OnlySteps};
ghost use Rattle.ca_rows.specs.Passes.{OnlyReads, IsReading, sizes, known};

use crate::account::{Account, Range};
use crate::along::{Reached, go_along};
use crate::copying::Mark;
use crate::deciding::decide;
use crate::filling::{Step, fill_gap};
use crate::helped::Helped;
use crate::marks::MarkedBase;
use ca_adapt::{Tuning, statistic_of, word_of};
use ca_model::Spent;
use ca_node::{Cursor, TreePass, TreeSpace, load_word};

/// Helps the range of another pass that marked the base which was shown last, and each range that is in its way, until one is over: each next base is marked,
/// and behind the last one the range is decided. It ends, too, where the turns that the call spent come to its budget, or an exchange is lost.
pub fn help_ranges(
    space: &TreeSpace,
    pass: &mut TreePass,
    from: MarkedBase,
    tuning: &Tuning,
    budget: u32,
    account: &mut Account,
) -> Helped
    requires ready { IsReady space.now pass.old }
    requires number { pass.old.number ≡ (tree_of pass.old).number }
    requires quiet { (tree_of pass.old).ranges.own ≡ Quiet }
    requires tuned { IsTuned (sizes space.now) tuning.now }
    requires other { (0 < from.range.owner) × (from.range.owner ≤ 64) × (from.range.owner ≢ (tree_of pass.old).number) }
    requires met { AreMet account.old.met.numbers (tree_of pass.old).ranges.unfinished }
    requires at { IsAtMarked (sizes space.now) (tree_of pass.old) from.range from.cursor }
    ensures frame { StaysReady space.now pass.old pass.new }
    ensures steps { OnlySteps (sizes space.now) (links_lost result) (tree_of pass.old) (tree_of pass.new) }
    ensures met { AreMet account.new.met.numbers (tree_of pass.new).ranges.unfinished }
    ensures helped { IsHelpedTo (sizes space.now) from.range budget account.new.spent result (known pass.old) (known pass.new) }
    ensures turned { IsIn {A = Unfinished} (record { pass = from.range.owner; number = from.range.number }) (tree_of pass.old).ranges.unfinished
        → IsTurned budget account.old.spent account.new.spent result }
    ensures loads { EndsBy (sizes space.now) (tree_of pass.old) (tree_of pass.new) }
    ensures counted { IsSpentOn account.old.spent account.new.spent (known pass.old) (known pass.new) }
{
    let mut range = from.range;
    let mut cursor = from.cursor;
    while turns(&account.spent) < u64::from(budget) {
        match advance(space, pass, MarkedBase { cursor, range }, tuning, account) {
            Step::Marked(next) => cursor = next,
            Step::Met(next) => {
                range = next.range;
                cursor = next.cursor;
            }
            Step::Ended(helped) => return helped,
        }
    }
    Helped::Busy(account.spent)
}

/// How many turns were spent.
pub(crate) fn turns(spent: &Spent) -> u64
    ensures { result ≡ turns_of spent.now }
{
    u64::from(spent.lost) + u64::from(spent.helped) + u64::from(spent.passed)
}

// One step that helps a range of another pass, from a base that it marked: its next base is marked, or is one that another range has; or it is over, or that
// can't be.
fn advance(
    space: &TreeSpace,
    pass: &mut TreePass,
    from: MarkedBase,
    tuning: &Tuning,
    account: &mut Account,
) -> Step
    requires ready { IsReady space.now pass.old }
    requires number { pass.old.number ≡ (tree_of pass.old).number }
    requires quiet { (tree_of pass.old).ranges.own ≡ Quiet }
    requires tuned { IsTuned (sizes space.now) tuning.now }
    requires other { (0 < from.range.owner) × (from.range.owner ≤ 64) × (from.range.owner ≢ (tree_of pass.old).number) }
    requires met { AreMet account.old.met.numbers (tree_of pass.old).ranges.unfinished }
    requires at { IsAtMarked (sizes space.now) (tree_of pass.old) from.range from.cursor }
    ensures frame { StaysReady space.now pass.old pass.new }
    ensures steps { OnlySteps (sizes space.now) (step_lost result) (tree_of pass.old) (tree_of pass.new) }
    ensures met { AreMet account.new.met.numbers (tree_of pass.new).ranges.unfinished }
    ensures stepped { HasStepped (sizes space.now) from.range result (known pass.old) (known pass.new) }
    ensures passed { IsPassedOn tuning.now result (tree_of pass.new) }
    ensures goes { GoesTo (reach (tree_of pass.old) + 1) result (tree_of pass.new) }
    ensures loads { StepsBy (sizes space.now) result (tree_of pass.old) (tree_of pass.new) }
    ensures counted { IsSpentOn account.old.spent account.new.spent (known pass.old) (known pass.new) }
{
    match go_along(space, pass, from.cursor, from.range, account) {
        Reached::Over => Step::Ended(Helped::Finished),
        Reached::Whole(last) => {
            decide(space, pass, &last, from.range, account);
            Step::Ended(Helped::Finished)
        }
        Reached::Before(left, next) => {
            let mark = mark_for(space, pass, left.base, next.base, from.range, tuning);
            fill_gap(space, pass, next, &mark, account)
        }
    }
}

/// How the next base of a range is marked, behind this one that the range marked.
pub(crate) fn mark_for(
    space: &TreeSpace,
    pass: &mut TreePass,
    left: u32,
    next: u32,
    range: Range,
    tuning: &Tuning,
) -> Mark
    requires reading { IsReading space.now pass.old }
    requires allowed { IsAllowed tuning.now }
    requires behind { (note : Note) × IsBaseShown (sizes space.now) (tree_of pass.old) left note × (mark_bound note.its ≤ (sizes space.now).rows) }
    requires shown { (note : Note) × IsBaseShown (sizes space.now) (tree_of pass.old) next note }
    ensures frame { OnlyReads pass.old pass.new }
    ensures range { result.range ≡ range }
    ensures back { result.back ≡ left }
    ensures bound { (note : Note) → IsBaseShown (sizes space.now) (tree_of pass.old) left note → result.bound ≡ mark_bound note.its }
    ensures statistic { (note : Note) → IsBaseShown (sizes space.now) (tree_of pass.old) next note
        → IsPastWord tuning.now (slice_index note.its 1) result.statistic }
{
    let bound = bound_of(space, pass, left);
    let old = statistic_of(load_word(space, pass, next, 1));
    let statistic = word_of(tuning.statistic_past(old));
    let back = left;
    Mark {
        statistic,
        range,
        back,
        bound,
    }
}

// The row that says up to where the range goes that marked a base.
fn bound_of(space: &TreeSpace, pass: &mut TreePass, base: u32) -> u32
    requires reading { IsReading space.now pass.old }
    requires shown { (note : Note) × IsBaseShown (sizes space.now) (tree_of pass.old) base note × (mark_bound note.its ≤ (sizes space.now).rows) }
    ensures frame { OnlyReads pass.old pass.new }
    ensures bound { (note : Note) → IsBaseShown (sizes space.now) (tree_of pass.old) base note → result ≡ mark_bound note.its }
{
    load_word(space, pass, base, 6) as u32
}
