//! The pass's own range goes on to the next base.
ghost use Rattle.std.specs.Prelude.{◌≡◌, ◌↔◌, ◌<◌, ℕ, IsTrue, vec_len};
ghost use Rattle.ca_adapt.specs.Tuned.{IsTuned};
ghost use Rattle.ca_base.specs.Finding.{IsBaseShown};
ghost use Rattle.ca_base.specs.Putting.{first_note};
ghost use Rattle.ca_base.specs.Readiness.{IsReady};
ghost use Rattle.ca_model.specs.declared.outcome.Spent.{Spent};
ghost use Rattle.ca_node.specs.States.{IsAlone};
ghost use Rattle.ca_node.specs.Told.{MyTree, IsSettled};
ghost use Rattle.ca_node.specs.TreePasses.{tree_of};
ghost use Rattle.ca_node.specs.TreeView.{Note};
ghost use Rattle.ca_range.specs.Farther.{reach};
ghost use Rattle.ca_range.specs.Gathering.{HasNoRun, IsFurther, IsGatheredNext, IsOver, refused_by};
ghost use Rattle.ca_range.specs.Loading.{GathersBy};
ghost use Rattle.ca_range.specs.Lonely.{ComesAlone, GathersNext};
ghost use Rattle.ca_range.specs.Marked.{IsBehindRow, IsOwnLast};
ghost use Rattle.ca_range.specs.Meeting.{AreMet};
ghost use Rattle.ca_range.specs.Snapping.{GoesOn};
ghost use Rattle.ca_rows.specs.Passes.{IsReading, OnlyReads, sizes, known};

use crate::account::{Account, Range};
use crate::gathering::Further;
use crate::helping::mark_for;
use crate::marking::mark_base;
use crate::marks::{MarkedBase, is_of};
use crate::own::Gathered;
use crate::settling::give_up;
use crate::snapping::{after_help, help_first};
use crate::sought::{Search, Snapped, Sought};
use crate::using::{Use, use_of};
use ca_base::Stop;
use ca_model::Counter;
use ca_node::{Cursor, TreePass, TreeSpace, load_word};

/// Goes on to the next base, which was shown behind the last one that the pass's range marked: it is marked, where no range has it. Else the range is given
/// up; one of another pass that is in the way is helped then. So it is where an attempt to join was in the way, and was carried out.
pub(crate) fn go_to<F: Fn(&[u8]) -> bool>(
    space: &TreeSpace,
    pass: &mut TreePass,
    from: Gathered,
    next: Cursor,
    search: &Search<'_, F>,
    account: &mut Account,
) -> Further
    requires ready { IsReady space.now pass.old }
    requires number { pass.old.number ≡ (tree_of pass.old).number }
    requires tuned { IsTuned (sizes space.now) search.now.tuning.now }
    requires met { AreMet account.old.met.numbers (tree_of pass.old).ranges.unfinished }
    requires next { IsGatheredNext F.Fn search.now.sought.now (sizes space.now) (tree_of pass.old) from next }
    ensures goes { GoesOn space.now account.old.spent account.new.spent pass.old pass.new }
    ensures met { AreMet account.new.met.numbers (tree_of pass.new).ranges.unfinished }
    ensures further { (far : ℕ) → far < reach (tree_of pass.old)
        → IsFurther F.Fn search.now.sought.now (sizes space.now) far search.now.budget account.new.spent result (known pass.old) (known pass.new) }
    ensures quiet { IsOver result (tree_of pass.new) }
    ensures no_run { HasNoRun result }
    ensures loads { GathersBy (sizes space.now) 0 result (tree_of pass.old) (tree_of pass.new) }
    ensures alone { (kept : ℕ) (m : MyTree) → IsAlone (sizes space.now) (tree_of pass.old) → GathersNext kept (vec_len pass.old.kept.rows) m (known pass.old)
        → ComesAlone (sizes space.now) result kept (vec_len pass.new.kept.rows) m (known pass.new) }
{
    match use_of(space, pass, next, account) {
        Use::Free => mark_on(space, pass, from, next, search, account),
        Use::Own => follow(space, pass, from, next, search.sought),
        Use::Other(range) => {
            give_up(space, pass, from.own);
            let cursor = next;
            let other = MarkedBase { cursor, range };
            let tuning = search.tuning;
            Further::Ended(help_first(space, pass, other, tuning, search.budget, account))
        }
        Use::Gone(helped) => {
            give_up(space, pass, from.own);
            Further::Ended(after_help(helped))
        }
    }
}

// Goes on to the next base, which another pass marked for the pass's range, where its mark names the last base and the row that says up to where the range
// goes. Else the range is given up.
fn follow<F: Fn(&[u8]) -> bool>(
    space: &TreeSpace,
    pass: &mut TreePass,
    from: Gathered,
    next: Cursor,
    sought: &Sought<'_, F>,
) -> Further
    requires ready { IsReady space.now pass.old }
    requires number { pass.old.number ≡ (tree_of pass.old).number }
    requires next { IsGatheredNext F.Fn sought.now (sizes space.now) (tree_of pass.old) from next }
    requires own { IsOwnLast (tree_of pass.old) (first_note (tree_of pass.old).notes) }
    ensures goes { (spent : Spent) → GoesOn space.now spent spent pass.old pass.new }
    ensures unfinished { (tree_of pass.new).ranges.unfinished ≡ (tree_of pass.old).ranges.unfinished }
    ensures further { (far budget : ℕ) (spent : Spent) → far < reach (tree_of pass.old)
        → IsFurther F.Fn sought.now (sizes space.now) far budget spent result (known pass.old) (known pass.new) }
    ensures quiet { IsOver result (tree_of pass.new) }
    ensures no_run { HasNoRun result }
    ensures loads { (tree_of pass.new).loads ≡ (tree_of pass.old).loads }
    ensures alone { (kept : ℕ) (m : MyTree) → IsAlone (sizes space.now) (tree_of pass.old) → GathersNext kept (vec_len pass.old.kept.rows) m (known pass.old)
        → ComesAlone (sizes space.now) result kept (vec_len pass.new.kept.rows) m (known pass.new) }
{
    let _sought = sought;
    let range = Range {
        owner: pass.number(),
        number: from.own.number,
    };
    if is_behind(space, pass, next.base, range, &from) {
        return Further::On(Gathered { left: next, ..from });
    }
    give_up(space, pass, from.own);
    Further::Ended(Snapped::Again)
}

// Whether this range marked a base that the pass was shown, as the next one behind the last base that is gathered.
fn is_behind(
    space: &TreeSpace,
    pass: &mut TreePass,
    base: u32,
    range: Range,
    last: &Gathered,
) -> bool
    requires reading { IsReading space.now pass.old }
    requires shown { (note : Note) × IsBaseShown (sizes space.now) (tree_of pass.old) base note }
    ensures frame { OnlyReads pass.old pass.new }
    ensures behind { (note : Note) → IsBaseShown (sizes space.now) (tree_of pass.old) base note
        → IsTrue result ↔ IsBehindRow note range.owner range.number last.now.left.base last.now.own.border }
{
    if !is_of(space, pass, base, range) {
        return false;
    }
    let back = load_word(space, pass, base, 5);
    if back != u64::from(last.left.base) {
        return false;
    }
    let bound = load_word(space, pass, base, 6);
    if bound != u64::from(last.own.border) {
        return false;
    }
    true
}

// Marks the next base, which no range has. Where that comes to nothing the range is given up.
fn mark_on<F: Fn(&[u8]) -> bool>(
    space: &TreeSpace,
    pass: &mut TreePass,
    from: Gathered,
    next: Cursor,
    search: &Search<'_, F>,
    account: &mut Account,
) -> Further
    requires ready { IsReady space.now pass.old }
    requires number { pass.old.number ≡ (tree_of pass.old).number }
    requires tuned { IsTuned (sizes space.now) search.now.tuning.now }
    requires met { AreMet account.old.met.numbers (tree_of pass.old).ranges.unfinished }
    requires next { IsGatheredNext F.Fn search.now.sought.now (sizes space.now) (tree_of pass.old) from next }
    requires settled { IsSettled (tree_of pass.old) (first_note (tree_of pass.old).notes).its }
    ensures goes { GoesOn space.now account.old.spent account.new.spent pass.old pass.new }
    ensures met { AreMet account.new.met.numbers (tree_of pass.new).ranges.unfinished }
    ensures further { (far : ℕ) → far < reach (tree_of pass.old)
        → IsFurther F.Fn search.now.sought.now (sizes space.now) far search.now.budget account.new.spent result (known pass.old) (known pass.new) }
    ensures quiet { IsOver result (tree_of pass.new) }
    ensures no_run { HasNoRun result }
    ensures loads { (tree_of pass.new).loads ≡ (tree_of pass.old).loads }
    ensures alone { (kept : ℕ) (m : MyTree) → IsAlone (sizes space.now) (tree_of pass.old) → GathersNext kept (vec_len pass.old.kept.rows) m (known pass.old)
        → ComesAlone (sizes space.now) result kept (vec_len pass.new.kept.rows) m (known pass.new) }
{
    let range = Range {
        owner: pass.number(),
        number: from.own.number,
    };
    let mark = mark_for(space, pass, from.left.base, next.base, range, search.tuning);
    match mark_base(space, pass, next, &mark, &mut account.spent) {
        Ok(base) => {
            let left = Cursor { base, ..next };
            Further::On(Gathered { left, ..from })
        }
        Err(why) => {
            give_up(space, pass, from.own);
            Further::Ended(refusal(why))
        }
    }
}

// What a snapshot comes to, where a base couldn't be marked.
fn refusal(why: Stop) -> Snapped
    ensures { result ≡ refused_by why }
{
    match why {
        Stop::Lost(_) => Snapped::Again,
        Stop::Empty => Snapped::NoRow,
        Stop::Worn => Snapped::Worn(Counter::PoolTag),
    }
}
