//! Calls of a pass that rests which read ranges: attempts, each under a pin of its own, and how such a call ends.
ghost use Rattle.std.specs.Prelude.{◌≡◌, ◌↔◌, ◌*◌, ◌<◌, ◌≤◌, Err, IfErr, IfOk, IsTrue, vec_len};
ghost use Rattle.ca_base.specs.Readiness.{StaysReady};
ghost use Rattle.ca_model.specs.Event.{Event};
ghost use Rattle.ca_node.specs.States.{IsAlone};
ghost use Rattle.ca_node.specs.Told.{MyTree};
ghost use Rattle.ca_node.specs.TreePasses.{tree_of};
ghost use Rattle.ca_node.specs.TreeView.{Note, TreeView};
ghost use Rattle.ca_replace.specs.Attempting.{IsPaid, total};
ghost use Rattle.ca_replace.specs.Bounded.{IsPaced, PinsNow};
ghost use Rattle.ca_replace.specs.Causes.{HasPinned, KeepsFew};
ghost use Rattle.ca_replace.specs.Loading.{LoadsInLook, LoadsInRead};
ghost use Rattle.ca_replace.specs.LoneReads.{ReadsAlone, bases_at, LooksIfAlone};
ghost use Rattle.ca_replace.specs.Ranging.{HasMissedBy, HasRanged, IsAtWork, IsRangeCausedBy, MayTryAgain, cause_of, WorksOrRests, HasJustPinned, RangesTo, EndsReading, IsReadBounded, AnswersInBudget};
ghost use Rattle.ca_replace.specs.Resting.{IsAtRest};
ghost use Rattle.ca_replace.specs.declared.missing.Miss.TheVariants.{Again as IsAgain, NoRow as IsNoRow};
ghost use Rattle.ca_rows.specs.declared.sizes.Sizes.{Sizes};
ghost use Rattle.ca_rows.specs.Passes.{sizes, known};

use crate::calls::{Order, give_up};
use crate::giving::{add, keep_few, refill, spent_in_all};
use crate::missing::Miss;
use crate::tree::Tree;
use ca_model::{Cause, Spent};
use ca_node::TreePass;

/// A call that reads a range, and what one attempt of it does.
pub(crate) trait Look {
    /// What the call answers.
    type Answer: Copy;

    /// What it leaves with its caller beside the answer.
    type Left;

    /// Whether the call may be made on a tree of these sizes.
    ghost may: { Self → Sizes → Type 0 };

    /// Whether the call is this event, given its answer, what it left, and what its pass knows then.
    ghost tells: { Self → Sizes → Self.Answer → Self.Left → TreeView → Event → Type 0 };

    /// Whether it needs more than such a base.
    ghost needs: { Self → Note → Type 0 };

    /// What vanished before it, where an attempt came to nothing.
    ghost vanished: { Self → Sizes → MyTree → MyTree → Type 0 };

    /// One attempt, of a pass that was just pinned. What it spends is added to what the call spent before.
    fn look(
        &self,
        tree: &Tree,
        pass: &mut TreePass,
        left: &mut Self::Left,
        budget: u32,
        spent: &mut Spent,
    ) -> Result<Self::Answer, Miss>
        requires work { IsAtWork tree.now.space pass.old }
        requires may { may self.now (sizes tree.now.space) }
        requires fresh { HasJustPinned (tree_of pass.old) }
        requires unspent { total spent.old < budget }
        ensures frame { StaysReady tree.now.space pass.old pass.new }
        ensures tried { RangesTo (λ answer. tells self.now (sizes tree.now.space) answer left.new) tree.now.space result pass.old pass.new }
        ensures counted { IsPaid spent.old spent.new (known pass.old) (known pass.new) }
        ensures missed { HasMissedBy (needs self.now) budget spent.new result (known pass.old) (known pass.new) }
        ensures again { IfErr result (λ why. MayTryAgain (vanished self.now (sizes tree.now.space)) why (known pass.old) (known pass.new)) }
        ensures in_budget { IfOk result (λ _. total spent.new < budget) }
        ensures loads { LoadsInLook (sizes tree.now.space) (known pass.old) (known pass.new) }
        ensures alone { LooksIfAlone tree.now.space (2 * bases_at (known pass.old)) result pass.old pass.new };
}

/// Makes a call that reads a range. Where it is done the pass is pinned; where it is refused, for this cause, it rests.
pub(crate) fn read_or_refuse<L: Look>(
    tree: &Tree,
    pass: &mut TreePass,
    order: &Order<'_, L>,
    left: &mut L::Left,
) -> Result<L::Answer, Cause>
    requires resting { IsAtRest tree.now.space pass.old }
    requires may { L.may order.now.what.now (sizes tree.now.space) }
    requires budget { 1 ≤ order.now.budget }
    ensures frame { WorksOrRests tree.now.space result pass.old pass.new }
    ensures come { EndsReading (λ answer. L.tells order.now.what.now (sizes tree.now.space) answer left.new) result (tree_of pass.old) (tree_of pass.new) }
    ensures caused { IfErr result (λ why. IsRangeCausedBy (L.needs order.now.what.now) tree.now.space order.now.budget why pass.old pass.new) }
    ensures few { IfErr result (λ _. KeepsFew (known pass.old) (known pass.new) pass.new.kept.rows) }
    ensures bounds { IsReadBounded (sizes tree.now.space) (vec_len pass.old.kept.rows) (known pass.old) (known pass.new) }
    ensures alone { IsAlone (sizes tree.now.space) (tree_of pass.old) → ReadsAlone (sizes tree.now.space) result (known pass.old) (known pass.new) }
    ensures answered { IfOk result (λ _. AnswersInBudget order.now.budget (known pass.old) (known pass.new)) }
{
    let mut spent = Spent {
        lost: 0,
        helped: 0,
        passed: 0,
    };
    match attempts(tree, pass, order, left, &mut spent) {
        Ok(answer) => Ok(answer),
        Err(why) => {
            give_up(tree, pass, why);
            Err(why)
        }
    }
}

// Attempts of a call: one that finds no free row is followed by another one, where rows could be given back.
fn attempts<L: Look>(
    tree: &Tree,
    pass: &mut TreePass,
    order: &Order<'_, L>,
    left: &mut L::Left,
    spent: &mut Spent,
) -> Result<L::Answer, Cause>
    requires resting { IsAtRest tree.now.space pass.old }
    requires may { L.may order.now.what.now (sizes tree.now.space) }
    requires budget { 1 ≤ order.now.budget }
    requires none { (spent.old.lost ≡ 0) × (spent.old.helped ≡ 0) × (spent.old.passed ≡ 0) }
    ensures frame { WorksOrRests tree.now.space result pass.old pass.new }
    ensures come { HasRanged (λ answer. L.tells order.now.what.now (sizes tree.now.space) answer left.new) result (tree_of pass.old) (tree_of pass.new) }
    ensures caused { IfErr result (λ why. IsRangeCausedBy (L.needs order.now.what.now) tree.now.space order.now.budget why pass.old pass.new) }
    ensures few { IfErr result (λ _. KeepsFew (known pass.old) (known pass.new) pass.new.kept.rows) }
    ensures bounds { IsReadBounded (sizes tree.now.space) (vec_len pass.old.kept.rows) (known pass.old) (known pass.new) }
    ensures alone { IsAlone (sizes tree.now.space) (tree_of pass.old) → ReadsAlone (sizes tree.now.space) result (known pass.old) (known pass.new) }
    ensures answered { IfOk result (λ _. AnswersInBudget order.now.budget (known pass.old) (known pass.new)) }
{
    loop {
        let kept = pass.kept();
        match tries(tree, pass, order, left, spent) {
            Ok(answer) => return Ok(answer),
            Err(why) => {
                if !is_without_row(why) {
                    spent.lost = add(spent.lost, keep_few(tree, pass));
                    return Err(refusal(why, *spent));
                }
                if let Err(cause) = refill(tree, pass, kept, order.budget, spent) {
                    return Err(cause);
                }
            }
        }
    }
}

// Whether an attempt found no free row.
fn is_without_row(why: Miss) -> bool
    ensures { IsTrue result ↔ (why ≡ IsNoRow) }
{
    matches!(why, Miss::NoRow)
}

// Why a call is refused whose last attempt came to this.
fn refusal(why: Miss, spent: Spent) -> Cause
    ensures { result ≡ cause_of why spent }
{
    match why {
        Miss::Again | Miss::Busy | Miss::NoRow => Cause::Busy(spent),
        Miss::Worn(counter) => Cause::Worn(counter),
    }
}

// Attempts, until one comes to something, or may not be tried again, or the budget is spent.
fn tries<L: Look>(
    tree: &Tree,
    pass: &mut TreePass,
    order: &Order<'_, L>,
    left: &mut L::Left,
    spent: &mut Spent,
) -> Result<L::Answer, Miss>
    requires resting { IsAtRest tree.now.space pass.old }
    requires may { L.may order.now.what.now (sizes tree.now.space) }
    requires unspent { total spent.old < order.now.budget }
    ensures frame { WorksOrRests tree.now.space result pass.old pass.new }
    ensures tried { RangesTo (λ answer. L.tells order.now.what.now (sizes tree.now.space) answer left.new) tree.now.space result pass.old pass.new }
    ensures counted { IsPaid spent.old spent.new (known pass.old) (known pass.new) }
    ensures missed { HasMissedBy (L.needs order.now.what.now) order.now.budget spent.new result (known pass.old) (known pass.new) }
    ensures in_budget { IfOk result (λ _. total spent.new < order.now.budget) }
    ensures spent_all { result ≡ Err IsAgain → order.now.budget ≤ total spent.new }
    ensures pinned { HasPinned (known pass.old) (known pass.new) }
    ensures paced { IsPaced (known pass.old) (known pass.new) }
    ensures loads { LoadsInRead (sizes tree.now.space) (known pass.old) (known pass.new) }
    ensures alone { LooksIfAlone tree.now.space (2 * bases_at (known pass.old)) result pass.old pass.new }
{
    loop {
        let tried = try_once(tree, pass, order, left, spent);
        if !is_again(&tried) || spent_in_all(spent) >= order.budget() {
            return tried;
        }
    }
}

// Whether an attempt came to nothing, and may be tried again.
fn is_again<T>(tried: &Result<T, Miss>) -> bool
    ensures { IsTrue result ↔ (tried.now ≡ Err IsAgain) }
{
    matches!(tried, Err(Miss::Again))
}

// One attempt, under a pin of its own. Where it comes to something the pass stays pinned.
fn try_once<L: Look>(
    tree: &Tree,
    pass: &mut TreePass,
    order: &Order<'_, L>,
    left: &mut L::Left,
    spent: &mut Spent,
) -> Result<L::Answer, Miss>
    requires resting { IsAtRest tree.now.space pass.old }
    requires may { L.may order.now.what.now (sizes tree.now.space) }
    requires unspent { total spent.old < order.now.budget }
    ensures frame { WorksOrRests tree.now.space result pass.old pass.new }
    ensures tried { RangesTo (λ answer. L.tells order.now.what.now (sizes tree.now.space) answer left.new) tree.now.space result pass.old pass.new }
    ensures counted { IsPaid spent.old spent.new (known pass.old) (known pass.new) }
    ensures missed { HasMissedBy (L.needs order.now.what.now) order.now.budget spent.new result (known pass.old) (known pass.new) }
    ensures in_budget { IfOk result (λ _. total spent.new < order.now.budget) }
    ensures pinned { HasPinned (known pass.old) (known pass.new) }
    ensures once { PinsNow (known pass.old) (known pass.new) }
    ensures loads { LoadsInRead (sizes tree.now.space) (known pass.old) (known pass.new) }
    ensures alone { LooksIfAlone tree.now.space (2 * bases_at (known pass.old)) result pass.old pass.new }
{
    tree.space.pin(pass);
    match order.what.look(tree, pass, left, order.budget, spent) {
        Ok(answer) => Ok(answer),
        Err(why) => {
            tree.space.unpin(pass);
            Err(why)
        }
    }
}
