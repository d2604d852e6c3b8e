//! An attempt to join the two bases under a route is begun, and they are marked for it.
ghost use Rattle.std.specs.Prelude.{◌≡◌, ◌≢◌, ◌<◌, ◌≤◌, ℕ, [], ◌∷◌, Err, slice_index};
ghost use Rattle.ca_adapt.specs.Joins.{HasBegunAt, HasMarkedFor, SpellsMarked, shown_on};
ghost use Rattle.ca_adapt.specs.Pairs.{IsThere};
ghost use Rattle.ca_adapt.specs.declared.adapted.Why.TheVariants.{Lost as IsLostBegin};
ghost use Rattle.ca_base.specs.Copied.{HasPut};
ghost use Rattle.ca_base.specs.Counting.{HasFound, IsSpent};
ghost use Rattle.ca_base.specs.Finding.{IsAtCursor, IsBaseShown};
ghost use Rattle.ca_base.specs.Holding.{ReadsAndHolds};
ghost use Rattle.ca_base.specs.Readiness.{IsReady, StaysReady};
ghost use Rattle.ca_base.specs.Taking.{AreHeld};
ghost use Rattle.ca_base.specs.Writing.{HasWritten};
ghost use Rattle.ca_base.specs.declared.stop.Exchange.TheVariants.{Link as IsLink};
ghost use Rattle.ca_base.specs.declared.stop.Stop.TheVariants.{Lost as IsLost};
ghost use Rattle.ca_node.specs.JoinCopies.{IsJoinCopy};
ghost use Rattle.ca_node.specs.JoinSteps.{attempt_of};
ghost use Rattle.ca_node.specs.Joining.{IsRemembered};
ghost use Rattle.ca_node.specs.Links.{IsIn};
ghost use Rattle.ca_node.specs.Place.{IsLinkOf};
ghost use Rattle.ca_node.specs.States.{IsAlone};
ghost use Rattle.ca_node.specs.Told.{IsSettled};
ghost use Rattle.ca_node.specs.TreePasses.{tree_of};
ghost use Rattle.ca_node.specs.TreeView.{Note, Quiet};
ghost use Rattle.ca_rows.specs.Passes.{IsOn, KeepsList, StillKeepsList, sizes, known, view};

use crate::adapted::Why;
use crate::splitting::LAST_ATTEMPT;
use ca_base::{Exchange, Stop, give_back, lose, retire_unlinked, take, write_copy};
use ca_model::Spent;
use ca_node::{
    BASE_FORM, Cursor, JoinState, MARKED_BY_JOIN, Marking, TreePass, TreeSpace, begin_join,
    load_join, load_word, mark_for_join,
};
use std::marker::Brand;

/// An attempt to join the two bases under a route, by its number.
#[derive(Clone, Copy)]
pub struct Attempt {
    pub route: u32,
    pub number: u64,
}

/// Begins the next attempt to join the two bases under a route that the pass was shown: it is the pass's own, to be secured or left. It answers `Taken` where
/// an attempt is under way, `Worn` where the last one had the last number that there is, and `Lost` where its exchange was lost, since another pass came first.
/// A pass that is the only one of the space loses none.
pub fn begin_attempt(space: &TreeSpace, pass: &mut TreePass, route: u32) -> Result<Attempt, Why>
    requires ready { IsReady space.now pass.old }
    requires inside { route ≤ (sizes space.now).rows }
    requires remembered { IsRemembered (tree_of pass.old).ways route }
    requires quiet { (tree_of pass.old).ranges.own ≡ Quiet }
    ensures frame { KeepsList pass.old pass.new }
    ensures begun { HasBegunAt route result (known pass.old) (known pass.new) }
    ensures won { IsAlone (sizes space.now) (tree_of pass.old) → result ≢ Err IsLostBegin }
{
    let mut spent = Spent {
        lost: 0,
        helped: 0,
        passed: 0,
    };
    try_begin(space, pass, route, &mut spent)
}

/// The same, as a part of a call that counts what it spends: an exchange that was lost is added.
pub(crate) fn try_begin(
    space: &TreeSpace,
    pass: &mut TreePass,
    route: u32,
    spent: &mut Spent,
) -> Result<Attempt, Why>
    requires ready { IsReady space.now pass.old }
    requires inside { route ≤ (sizes space.now).rows }
    requires remembered { IsRemembered (tree_of pass.old).ways route }
    requires quiet { (tree_of pass.old).ranges.own ≡ Quiet }
    ensures frame { KeepsList pass.old pass.new }
    ensures begun { HasBegunAt route result (known pass.old) (known pass.new) }
    ensures won { IsAlone (sizes space.now) (tree_of pass.old) → result ≢ Err IsLostBegin }
    ensures counted { IsSpent spent.old spent.new (known pass.old) (known pass.new) }
{
    let JoinState::Idle(last) = load_join(space, pass, route) else {
        return Err(Why::Taken);
    };
    if last >= LAST_ATTEMPT {
        return Err(Why::Worn);
    }
    let number = last + 1;
    if begin_join(space, pass, route, number) {
        Ok(Attempt { route, number })
    } else {
        lose(spent);
        Err(Why::Lost)
    }
}

/// Marks the base that was shown last on the cursor's link for an attempt that was begun, of the route on whose link it hangs: a copy with the attempt's mark
/// and the base's statistic takes its place, by one exchange of the link. Neither a range has the base nor a join, as the pass knows. It answers the row of the
/// copy. The turn is the caller's to count.
pub fn mark_for(
    space: &TreeSpace,
    pass: &mut TreePass,
    cursor: Cursor,
    attempt: Attempt,
    spent: &mut Spent,
) -> Result<u32, Stop>
    requires ready { IsReady space.now pass.old }
    requires leaf { (sizes space.now).leaf ≤ 120 }
    requires shown { IsBaseShown (sizes space.now) (tree_of pass.old) cursor.base (shown_on pass.old cursor.link) }
    requires at { IsAtCursor (sizes space.now) (shown_on pass.old cursor.link) cursor }
    requires settled { IsSettled (tree_of pass.old) (shown_on pass.old cursor.link).its }
    requires link { IsLinkOf attempt.route (shown_on pass.old cursor.link).place.link }
    requires begun { IsIn (attempt_of attempt.route attempt.number) (tree_of pass.old).ranges.joins.begun }
    ensures frame { StaysReady space.now pass.old pass.new }
    ensures marked { HasMarkedFor (sizes space.now) (shown_on pass.old cursor.link) attempt result (tree_of pass.old) (tree_of pass.new) }
    ensures won { IsAlone (sizes space.now) (tree_of pass.old) → IsThere (tree_of pass.old).inventory (shown_on pass.old cursor.link)
        → result ≢ Err (IsLost IsLink) }
    ensures counted { IsSpent spent.old spent.new (known pass.old) (known pass.new) }
    ensures found { HasFound result (known pass.old) (known pass.new) }
{
    let row = take(space, pass, BASE_FORM, spent)?;
    write_marked(space, pass, row, cursor.base, attempt);
    match put_marked::<Brand>(space, pass, cursor, row, spent) {
        Ok(()) => Ok(row),
        Err(why) => Err(why),
    }
}

// Writes a copy of a base that the pass was shown, with the attempt's mark, to a row that it holds.
fn write_marked(space: &TreeSpace, pass: &mut TreePass, row: u32, base: u32, attempt: Attempt)
    requires row { ReadsAndHolds space.now pass.old row }
    requires leaf { (sizes space.now).leaf ≤ 120 }
    requires shown { (note : Note) × IsBaseShown (sizes space.now) (tree_of pass.old) base note }
    ensures frame { StillKeepsList pass.old pass.new }
    ensures written { (note : Note) → IsBaseShown (sizes space.now) (tree_of pass.old) base note
        → HasWritten row (SpellsMarked note attempt) (known pass.old) (known pass.new) }
{
    let statistic = load_word(space, pass, base, 1);
    let route = u64::from(attempt.route);
    let words = [statistic, MARKED_BY_JOIN, route, attempt.number, 0, 0];
    write_copy(space, pass, row, base, words);
}

// Puts the copy that `K` names in the place of its base, by one exchange of a link. Where that is lost the row is put back.
fn put_marked<K: Marking>(
    space: &TreeSpace,
    pass: &mut TreePass,
    cursor: Cursor,
    row: u32,
    spent: &mut Spent,
) -> Result<(), Stop>
    requires own { IsOn space.now pass.old }
    requires copy { IsJoinCopy (sizes space.now) (known pass.old) row K.copy }
    requires at { IsAtCursor (sizes space.now) K.copy.old cursor }
    requires held { AreHeld (sizes space.now).rows pass.old.kept.rows (view pass.old) (row ∷ []) }
    ensures frame { StaysReady space.now pass.old pass.new }
    ensures done { HasPut K.copy row result (tree_of pass.old) (tree_of pass.new) }
    ensures won { IsAlone (sizes space.now) (tree_of pass.old) → IsThere (tree_of pass.old).inventory K.copy.old → result ≢ Err (IsLost IsLink) }
    ensures counted { IsSpent spent.old spent.new (known pass.old) (known pass.new) }
    ensures found { HasFound result (known pass.old) (known pass.new) }
{
    let base = cursor.base;
    if !mark_for_join::<K>(space, pass, cursor.link, base, row) {
        lose(spent);
        give_back(space, pass, row, BASE_FORM, spent);
        return Err(Stop::Lost(Exchange::Link));
    }
    retire_unlinked(space, pass, base, BASE_FORM);
    Ok(())
}
