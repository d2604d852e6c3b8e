//! Calls of a pass that rests: attempts, the turns of each, and how a call ends.
ghost use Rattle.std.specs.Prelude.{◌⊎◌, ◌≡◌, ◌≢◌, ◌↔◌, ◌+◌, ◌<◌, ◌≤◌, Err, None, [], IfErr, IsTrue, false, vec_len};
ghost use Rattle.ca_model.specs.Answer.{IfBusy, IfDone, IfRefused};
ghost use Rattle.ca_base.specs.declared.stop.Stop.TheVariants.{Empty as IsEmpty};
ghost use Rattle.ca_replace.specs.declared.attempting.Halt.TheVariants.{Deep as IsDeep, Stopped as IsStopped};
ghost use Rattle.ca_node.specs.Told.{with_upper};
ghost use Rattle.ca_replace.specs.Attempting.{IsPaidTo, total, HasAttempted, HasDoneSuch, HasNext, HasStopped, HasTriedTo, IfDeep, refused_as};
ghost use Rattle.ca_replace.specs.Alone.{IsCrowdedCause};
ghost use Rattle.ca_replace.specs.Bounded.{IsBounded, IsPaced};
ghost use Rattle.ca_replace.specs.Loading.{LoadsInAttempts, LoadsInTurns};
ghost use Rattle.ca_replace.specs.Causes.{EndsAtLag, HasPinned, IsCausedBy, IsFullSince, KeepsFew};
ghost use Rattle.ca_replace.specs.Crowding.{Crowds, HasFewAlone};
ghost use Rattle.ca_replace.specs.Seen.{HasToldBy};
ghost use Rattle.ca_base.specs.Progress.{IsRefused};
ghost use Rattle.ca_model.specs.Known.{one_more};
ghost use Rattle.ca_replace.specs.Turning.{TakesTurns};
ghost use Rattle.ca_replace.specs.Between.{GoesOn, MayBegin};
ghost use Rattle.ca_rows.specs.Passes.{sizes, known};
ghost use Rattle.ca_node.specs.TreePasses.{tree_of};
ghost use Rattle.ca_replace.specs.Resting.{IsAtRest, StaysAtRest};

use crate::adapting::{Adapting, Course, Last};
use crate::attempting::{Attempt, Halt};
use crate::giving::{add, keep_few, refill, spent_in_all};
use crate::refusing::{outcome_by, refuse};
use crate::tree::Tree;
use ca_base::{Exchange, Stop};
use ca_model::{Cause, Code, Counter, Outcome, Spent};
use ca_node::TreePass;

// So many attempts are made under one pin at most, so that a call that loses many doesn't hold back the epoch.
const ATTEMPTS_OF_A_PIN: u8 = 16;

/// A call that is to be made, and by how many turns it may be lost.
#[derive(Drop)]
pub(crate) struct Order<'a, A> {
    pub(crate) what: &'a A,
    pub(crate) budget: u32,
}

impl<A> Order<'_, A> {
    /// The budget. A proof learns from the answer that it is one of 32 bits.
    pub(crate) fn budget(&self) -> u32
        ensures { result ≡ self.now.budget }
    {
        self.budget
    }
}

/// Makes a call: attempts of it, until one isn't stopped by want of rows that the pass may give back itself.
pub(crate) fn call<A: Attempt>(
    tree: &Tree,
    pass: &mut TreePass,
    order: &Order<'_, A>,
    left: &mut A::Left,
    room: &mut A::Room,
    last: &mut Last,
) -> Outcome<A::Answer>
    requires resting { IsAtRest tree.now.space pass.old }
    requires may { A.may order.now.what.now (sizes tree.now.space) }
    requires budget { 1 ≤ order.now.budget }
    ensures frame { StaysAtRest tree.now.space pass.old pass.new }
    ensures done { IfDone result (λ answer. HasDoneSuch (A.tells order.now.what.now answer left.new) (tree_of pass.old) (tree_of pass.new)) }
    ensures refused { IfRefused result (λ rise. IsRefused rise (tree_of pass.old) (tree_of pass.new)) }
    ensures deep { IfDeep result (A.adds order.now.what.now ≢ None) }
    ensures busy { IfBusy result (λ spent. order.now.budget ≤ spent) }
    ensures told { HasToldBy (A.edits order.now.what.now) (A.adds order.now.what.now) order.now.budget tree.now pass.old last.old pass.new last.new result }
{
    let mut course = Course {
        adapting: Adapting {
            lost: false,
            last: *last,
        },
        spent: Spent {
            lost: 0,
            helped: 0,
            passed: 0,
        },
        again: None,
        marked: false,
        budget: order.budget,
    };
    match attempts(tree, pass, order, left, room, &mut course) {
        Ok(answer) => {
            *last = course.adapting.last;
            Outcome::Done(answer)
        }
        Err(why) => {
            give_up(tree, pass, why);
            outcome_by(why)
        }
    }
}

/// Empties the Code of a call that was refused.
pub(crate) fn empty_if_refused<T>(outcome: &Outcome<T>, old: &mut Code)
    ensures done { IfDone outcome.now (λ _. old.new ≡ old.old) }
    ensures refused { IfRefused outcome.now (λ _. old.new.items ≡ []) }
{
    if !matches!(outcome, Outcome::Done(_)) {
        old.clear();
    }
}

// Attempts of a call: one that finds no free row is followed by another one, where rows could be given back.
fn attempts<A: Attempt>(
    tree: &Tree,
    pass: &mut TreePass,
    order: &Order<'_, A>,
    left: &mut A::Left,
    room: &mut A::Room,
    course: &mut Course,
) -> Result<A::Answer, Cause>
    requires resting { IsAtRest tree.now.space pass.old }
    requires may { A.may order.now.what.now (sizes tree.now.space) }
    requires budget { 1 ≤ order.now.budget }
    requires none { (course.old.spent.lost ≡ 0) × (course.old.spent.helped ≡ 0) × (course.old.spent.passed ≡ 0) }
    ensures frame { StaysAtRest tree.now.space pass.old pass.new }
    ensures come { HasAttempted (λ answer. A.tells order.now.what.now answer left.new) result (tree_of pass.old) (tree_of pass.new) }
    ensures caused { IfErr result (λ why. IsCausedBy tree.now.space order.now.budget (A.adds order.now.what.now) why pass.old pass.new) }
    ensures crowded { (sizes tree.now.space).passes ≡ 1 → IfErr result (λ why. IsCrowdedCause (sizes tree.now.space) 11 (tree_of pass.old) why) }
    ensures few { KeepsFew (known pass.old) (known pass.new) pass.new.kept.rows }
    ensures lags { EndsAtLag (known pass.old) (known pass.new) }
    ensures bounded { IsBounded (vec_len pass.old.kept.rows) (known pass.old) (known pass.new) }
    ensures loads { LoadsInAttempts (A.edits order.now.what.now) (sizes tree.now.space) result (known pass.old) (known pass.new) }
    ensures turns { TakesTurns (A.edits order.now.what.now) (A.adds order.now.what.now) tree.now course.old course.new result pass.old pass.new }
{
    loop {
        let kept = pass.kept();
        let come = turns(tree, pass, order, left, room, course);
        if is_empty(&come) {
            if let Err(why) = refill(tree, pass, kept, order.budget, &mut course.spent) {
                return Err(why);
            }
        } else {
            course.spent.lost = add(course.spent.lost, keep_few(tree, pass));
            return or_refusal(come, course.spent, tree.tuning.levels);
        }
    }
}

// Whether an attempt found no free row.
fn is_empty<T>(tried: &Result<T, Halt>) -> bool
    ensures { IsTrue result ↔ (tried.now ≡ Err (IsStopped IsEmpty)) }
{
    matches!(tried, Err(Halt::Stopped(Stop::Empty)))
}

// What an attempt came to that found the rows it wanted.
fn or_refusal<T>(tried: Result<T, Halt>, spent: Spent, levels: u16) -> Result<T, Cause>
    requires { tried ≢ Err (IsStopped IsEmpty) }
    ensures { result ≡ refused_as tried spent levels }
{
    match tried {
        Ok(answer) => Ok(answer),
        Err(Halt::Split | Halt::Helped | Halt::Stopped(Stop::Lost(_) | Stop::Empty)) => Err(
            Cause::Busy(spent),
        ),
        Err(Halt::Deep) => Err(Cause::Deep(levels)),
        Err(Halt::Stopped(Stop::Worn)) => Err(Cause::Worn(Counter::PoolTag)),
    }
}

// Attempts, until one isn't lost to another pass and neither splits a full base nor helps a range, or the budget is spent. What the last one comes to is the answer. One that
// lost the exchange of its link is followed by one that begins with this link, under the same pin, and any other one by one that begins at the root.
fn turns<A: Attempt>(
    tree: &Tree,
    pass: &mut TreePass,
    order: &Order<'_, A>,
    left: &mut A::Left,
    room: &mut A::Room,
    course: &mut Course,
) -> Result<A::Answer, Halt>
    requires resting { IsAtRest tree.now.space pass.old }
    requires may { A.may order.now.what.now (sizes tree.now.space) }
    requires unspent { total course.old.spent < order.now.budget }
    ensures frame { StaysAtRest tree.now.space pass.old pass.new }
    ensures tried { HasTriedTo (λ answer. A.tells order.now.what.now answer left.new) (sizes tree.now.space) result (tree_of pass.old) (tree_of pass.new) }
    ensures deep { result ≡ Err IsDeep → IsFullSince (sizes tree.now.space) (A.adds order.now.what.now) (tree_of pass.new) }
    ensures counted { IsPaidTo result course.old.spent course.new.spent (known pass.old) (known pass.new) }
    ensures found { HasStopped result (known pass.old) (known pass.new) }
    ensures pinned { HasPinned (known pass.old) (known pass.new) }
    ensures paced { IsPaced (known pass.old) (known pass.new) }
    ensures loads { LoadsInTurns (A.edits order.now.what.now) (sizes tree.now.space) result (known pass.old) (known pass.new) }
    ensures crowds { Crowds tree.now.space result pass.old pass.new }
    ensures few_rows { IfErr result (λ _. HasFewAlone (sizes tree.now.space) (tree_of pass.old)) }
    ensures lost { HasNext result → order.now.budget ≤ total course.new.spent }
    ensures turns { TakesTurns (A.edits order.now.what.now) (A.adds order.now.what.now) tree.now course.old course.new result pass.old pass.new }
{
    let space = &tree.space;
    let budget = order.budget();
    let mut made = 0_u8;
    space.pin(pass);
    course.again = None;
    loop {
        let tried = order.what.attempt(tree, pass, left, room, course);
        if !has_next(&tried) || spent_in_all(&course.spent) >= budget {
            space.unpin(pass);
            return tried;
        }
        made = made.wrapping_add(1);
        let anew = begins_anew(&tried, made, course.marked);
        go_on(tree, pass, order, anew, course);
    }
}

// Whether another turn may follow an attempt: it was lost to another pass, split a full base, or helped a range.
fn has_next<T>(tried: &Result<T, Halt>) -> bool
    ensures { IsTrue result ↔ HasNext tried.now }
{
    matches!(
        tried,
        Err(Halt::Split | Halt::Helped | Halt::Stopped(Stop::Lost(_)))
    )
}

// Whether the next attempt begins under a new pin: it doesn't where this one lost the exchange of its link, unless it met a mark, or many were made.
fn begins_anew<T>(tried: &Result<T, Halt>, made: u8, marked: bool) -> bool
    ensures { result ≡ false → marked ≡ false }
{
    marked || !has_lost_link(tried) || made % ATTEMPTS_OF_A_PIN == 0
}

// Whether an attempt lost the exchange of its link.
fn has_lost_link<T>(tried: &Result<T, Halt>) -> bool {
    matches!(tried, Err(Halt::Stopped(Stop::Lost(Exchange::Link))))
}

// What comes between two attempts: where the next one is to begin anew, the pass pins anew, and remembers no link.
fn go_on<A: Attempt>(
    tree: &Tree,
    pass: &mut TreePass,
    order: &Order<'_, A>,
    anew: bool,
    course: &mut Course,
)
    requires may { MayBegin tree.now.space (A.about order.now.what.now) course.old.again course.old.marked pass.old }
    requires marked { anew ≡ false → course.old.marked ≡ false }
    ensures may { MayBegin tree.now.space (A.about order.now.what.now) course.new.again false pass.new }
    ensures still { GoesOn pass.old pass.new }
    ensures course { (course.new.adapting ≡ course.old.adapting) × (course.new.spent ≡ course.old.spent) }
{
    if anew {
        tree.space.unpin(pass);
        tree.space.pin(pass);
        course.again = None;
    }
}

/// Counts a refusal.
pub(crate) fn give_up(tree: &Tree, pass: &mut TreePass, why: Cause)
    requires resting { IsAtRest tree.now.space pass.old }
    ensures frame { StaysAtRest tree.now.space pass.old pass.new }
    ensures kept { pass.new.kept ≡ pass.old.kept }
    ensures counted { known pass.new ≡ with_upper (known pass.old) (record (tree_of pass.old) { counts = one_more why (tree_of pass.old).counts }) }
    ensures refused { IsRefused (one_more why) (tree_of pass.old) (tree_of pass.new) }
{
    refuse(&tree.space, pass, why);
}
