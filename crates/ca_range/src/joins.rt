//! The attempt to join that marked a base, which is in the way of whoever is to exchange the base.
ghost use Rattle.std.specs.Prelude.{◌≡◌, ◌<◌, ◌≤◌, ℕ, false, true};
ghost use Rattle.ca_base.specs.Finding.{IsBaseShown};
ghost use Rattle.ca_base.specs.Putting.{first_note};
ghost use Rattle.ca_base.specs.Readiness.{IsReady};
ghost use Rattle.ca_base.specs.Spending.{IsSpentOn};
ghost use Rattle.ca_node.specs.JoinSteps.{attempt_of, join_state};
ghost use Rattle.ca_node.specs.Links.{IsIn};
ghost use Rattle.ca_node.specs.LoneStays.{HasNone};
ghost use Rattle.ca_node.specs.TreePasses.{tree_of};
ghost use Rattle.ca_node.specs.TreeView.{Note};
ghost use Rattle.ca_node.specs.Walking.{IsHungOn};
ghost use Rattle.ca_range.specs.Ahead.{IsAtLast};
ghost use Rattle.ca_range.specs.Attempts.{HasCarriedOut, HasEndedJoin, HasFoundJoin, HasGivenUp, IsAttemptOn, IsFoundPrepared, IsMarkTold, IsOnBase, IsProgress, KeepsDecided, helped_by, spent_with};
ghost use Rattle.ca_rows.specs.Passes.{OnlyReads, IsReading, KeepsList, sizes, known};

use crate::helped::Helped;
use ca_adapt::{Attempt, Finish, finish_join};
use ca_base::Exchange;
use ca_model::{Counter, Spent};
use ca_node::{
    Cursor, JoinState, Link, MARKED_BY_JOIN, TreePass, TreeSpace, abort_join, load_join, load_word,
};

/// What became of the attempt to join that marked a base.
#[derive(Clone, Copy)]
pub(crate) enum JoinEnd {
    /// None marked it.
    Unmarked,
    /// It was finished before.
    Before,
    /// It was found prepared, and is finished now.
    Now,
    /// It was secured, and was to be finished. Where that came to something the base is gone.
    Gone(Helped),
}

/// How far an attempt to join is.
#[derive(Clone, Copy)]
pub(crate) enum Found {
    /// It is finished.
    Finished,
    /// Bases may be marked for it, and it may be given up.
    Prepared,
    /// Both bases are marked, and it is to be carried out.
    Secured,
}

/// Ends the attempt to join that marked the base which the pass was shown last: one that is prepared is given up, and one that is secured is carried out.
/// Behind that the pass knows that it is finished, or the base is gone; it counts as one operation that was helped. Where the pass is the only one of the
/// space, none is found under way.
pub(crate) fn end_join(
    space: &TreeSpace,
    pass: &mut TreePass,
    cursor: Cursor,
    spent: &mut Spent,
) -> JoinEnd
    requires ready { IsReady space.now pass.old }
    requires leaf { (sizes space.now).leaf ≤ 120 }
    requires at { IsAtLast (sizes space.now) (tree_of pass.old) cursor }
    requires other { HasNone (tree_of pass.old).ranges.own }
    ensures ended { HasEndedJoin space.now cursor.base result pass.old pass.new }
    ensures marked { IsMarkTold result (first_note (tree_of pass.old).notes).its }
    ensures counted { IsSpentOn spent.old spent.new (known pass.old) (known pass.new) }
{
    let Some(attempt) = attempt_on(space, pass, cursor.base) else {
        return JoinEnd::Unmarked;
    };
    let Some(above) = cursor.above else {
        unreachable!()
    };
    match look_at(space, pass, attempt) {
        Found::Finished => JoinEnd::Before,
        Found::Prepared => give_up_join(space, pass, attempt, above, spent),
        Found::Secured => JoinEnd::Gone(carry_out(space, pass, attempt, above, false, spent)),
    }
}

// Which attempt to join marked a base that the pass was shown, if one did.
fn attempt_on(space: &TreeSpace, pass: &mut TreePass, base: u32) -> Option<Attempt>
    requires reading { IsReading space.now pass.old }
    requires shown { (note : Note) × IsBaseShown (sizes space.now) (tree_of pass.old) base note }
    ensures frame { OnlyReads pass.old pass.new }
    ensures attempt { (note : Note) → IsBaseShown (sizes space.now) (tree_of pass.old) base note
        → IsAttemptOn (sizes space.now) (tree_of pass.old) note result }
{
    if load_word(space, pass, base, 2) != MARKED_BY_JOIN {
        return None;
    }
    let route = load_word(space, pass, base, 3) as u32;
    let number = load_word(space, pass, base, 4);
    Some(Attempt { route, number })
}

// Looks how far an attempt is that marked a base which the pass was shown.
fn look_at(space: &TreeSpace, pass: &mut TreePass, attempt: Attempt) -> Found
    requires reading { IsReading space.now pass.old }
    requires marked { IsOnBase (sizes space.now) (tree_of pass.old) attempt }
    requires number { 0 < (tree_of pass.old).number }
    requires other { HasNone (tree_of pass.old).ranges.own }
    ensures frame { KeepsList pass.old pass.new }
    ensures found { HasFoundJoin result (sizes space.now) attempt (known pass.old) (known pass.new) }
    ensures decided { KeepsDecided (known pass.old) (known pass.new) }
{
    progress_of(load_join(space, pass, attempt.route), attempt.number)
}

// How far the attempt with this number is.
fn progress_of(state: JoinState, number: u64) -> Found
    ensures { (word : ℕ) → state ≡ join_state word → IsProgress result number word }
{
    match state {
        JoinState::Idle(_) => Found::Finished,
        JoinState::Prep(prepared) => {
            if prepared == number {
                Found::Prepared
            } else {
                Found::Finished
            }
        }
        JoinState::Secured(secured) => {
            if secured == number {
                Found::Secured
            } else {
                Found::Finished
            }
        }
    }
}

// Gives up an attempt that was found prepared. Where it isn't prepared any more it is finished, or it is secured, and is carried out. Either way that counts as
// one operation that was helped.
fn give_up_join(
    space: &TreeSpace,
    pass: &mut TreePass,
    attempt: Attempt,
    above: Link,
    spent: &mut Spent,
) -> JoinEnd
    requires ready { IsReady space.now pass.old }
    requires leaf { (sizes space.now).leaf ≤ 120 }
    requires marked { IsOnBase (sizes space.now) (tree_of pass.old) attempt }
    requires prepared { IsFoundPrepared (sizes space.now) (tree_of pass.old) attempt }
    requires above { IsHungOn (sizes space.now) (tree_of pass.old).ways attempt.route above }
    requires several { 1 < (sizes space.now).passes }
    requires other { HasNone (tree_of pass.old).ranges.own }
    ensures given_up { HasGivenUp space.now attempt result pass.old pass.new }
    ensures counted { IsSpentOn spent.old spent.new (known pass.old) (known pass.new) }
{
    let won = abort_join(space, pass, attempt.route, attempt.number);
    spent.helped = spent.helped.saturating_add(1);
    if won {
        return JoinEnd::Now;
    }
    match look_at(space, pass, attempt) {
        Found::Finished => JoinEnd::Now,
        Found::Prepared => unreachable!(),
        Found::Secured => JoinEnd::Gone(carry_out(space, pass, attempt, above, true, spent)),
    }
}

// Carries out an attempt that was secured, which may be counted as helped already.
fn carry_out(
    space: &TreeSpace,
    pass: &mut TreePass,
    attempt: Attempt,
    above: Link,
    counted: bool,
    spent: &mut Spent,
) -> Helped
    requires ready { IsReady space.now pass.old }
    requires leaf { (sizes space.now).leaf ≤ 120 }
    requires secured { IsIn (attempt_of attempt.route attempt.number) (tree_of pass.old).ranges.joins.secured }
    requires above { IsHungOn (sizes space.now) (tree_of pass.old).ways attempt.route above }
    requires decided { counted ≡ true → IsIn (attempt_of attempt.route attempt.number) (tree_of pass.old).ranges.joins.decided }
    requires other { HasNone (tree_of pass.old).ranges.own }
    ensures carried { HasCarriedOut space.now counted result pass.old pass.new }
    ensures counted { IsSpentOn spent.old spent.new (known pass.old) (known pass.new) }
{
    let mut more = Spent {
        lost: 0,
        helped: 0,
        passed: 0,
    };
    let finish = finish_join(space, pass, attempt, above, counted, &mut more);
    spend(spent, &more);
    helped_so(finish, more.lost > 0)
}

// Adds what was spent, each count up to the last number that 32 bits hold.
fn spend(spent: &mut Spent, more: &Spent)
    ensures { spent.new ≡ spent_with spent.old more.now }
{
    spent.lost = spent.lost.saturating_add(more.lost);
    spent.helped = spent.helped.saturating_add(more.helped);
    spent.passed = spent.passed.saturating_add(more.passed);
}

// What became of an attempt that was to be carried out, by whether an exchange was lost.
fn helped_so(finish: Finish, lost: bool) -> Helped
    ensures { result ≡ helped_by finish lost }
{
    match (finish, lost) {
        (Finish::Done, false) => Helped::Finished,
        (Finish::Done, true) => Helped::Lost(Exchange::Link),
        (Finish::NoRow, _) => Helped::NoRow,
        (Finish::Lost, _) => Helped::Lost(Exchange::Head),
        (Finish::Worn, _) => Helped::Worn(Counter::PoolTag),
    }
}
