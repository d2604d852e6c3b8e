//! The pass's own range begins, with the first base of a snapshot.
ghost use Rattle.std.specs.Prelude.{◌≡◌, ◌≢◌, ◌+◌, ◌/◌, ◌<◌, ◌≤◌, ℕ, [], ◌∷◌, false, slice_index, vec_len};
ghost use Rattle.ca_adapt.specs.Allowed.{IsAllowed};
ghost use Rattle.ca_adapt.specs.Tuned.{IsTuned};
ghost use Rattle.ca_base.specs.Counting.{losses, HasMet};
ghost use Rattle.ca_base.specs.Finding.{IsBaseShown};
ghost use Rattle.ca_base.specs.Putting.{first_note};
ghost use Rattle.ca_base.specs.Readiness.{IsReady};
ghost use Rattle.ca_base.specs.Taking.{AreHeld};
ghost use Rattle.ca_model.specs.Edges.{bound_of, IsProperBound};
ghost use Rattle.ca_node.specs.Layout.{sequence_unit};
ghost use Rattle.ca_node.specs.Inventory.{IsListed};
ghost use Rattle.ca_node.specs.OwnRanges.{opened};
ghost use Rattle.ca_node.specs.States.{IsAlone};
ghost use Rattle.ca_node.specs.Told.{IsSettled, status_of, with_upper};
ghost use Rattle.ca_node.specs.TreePasses.{tree_of, IsOwner};
ghost use Rattle.ca_node.specs.TreeView.{Note, Quiet};
ghost use Rattle.ca_range.specs.Gathering.{EndsInBudget, HasBegun, IsOver};
ghost use Rattle.ca_range.specs.Lonely.{ComesAlone, IsThere, PutsAlone};
ghost use Rattle.ca_range.specs.Looking.{IsFirst, IsNotEnough};
ghost use Rattle.ca_range.specs.Meeting.{AreMet};
ghost use Rattle.ca_range.specs.Opening.{begun_at, IsKeptWord, HasNumbered, HasPutFirst, HasWrittenFirst, IsFirstReady, IsNumberOf};
ghost use Rattle.ca_range.specs.Snapping.{GoesOn, StaysPinned};
ghost use Rattle.ca_range.specs.Snapshots.{OnlyRanges};
ghost use Rattle.ca_base.specs.Spending.{IsSpentOn};
ghost use Rattle.ca_rows.specs.Calls.{IsNumbered};
ghost use Rattle.ca_rows.specs.Passes.{IsReading, KeepsList, OnlyReads, StillKeepsList, sizes, known, view};

use crate::account::{Account, Range};
use crate::copying::{Mark, write_copy};
use crate::edging::write_border;
use crate::gathering::Further;
use crate::own::{Gathered, Own};
use crate::sought::{Search, Snapped};
use ca_adapt::{Tuning, statistic_of, word_of};
use ca_base::{Stop, give_back, lose, retire_unlinked, take_two};
use ca_model::{Counter, Edge, Spent};
use ca_node::{
    BASE_FORM, BORDER_FORM, Cursor, Owning, RangeState, TreePass, TreeSpace, leave_range,
    load_own_status, load_word, mark_first, open_range,
};
use ca_rows::LAST_SEQUENCE;
use std::marker::Brand;

/// The rows that a range begins with: the one that says up to where it goes, and a copy of its first base.
#[derive(Clone, Copy)]
pub(crate) struct Rows {
    pub(crate) own: Own,
    pub(crate) copy: u32,
}

/// Begins a range of the pass with the base that was shown last, which no range has and which isn't enough: it is marked.
pub(crate) fn begin_range<F: Fn(&[u8]) -> bool>(
    space: &TreeSpace,
    pass: &mut TreePass,
    first: Cursor,
    search: &Search<'_, F>,
    account: &mut Account,
) -> Further
    requires ready { IsReady space.now pass.old }
    requires number { pass.old.number ≡ (tree_of pass.old).number }
    requires quiet { (tree_of pass.old).ranges.own ≡ Quiet }
    requires tuned { IsTuned (sizes space.now) search.now.tuning.now }
    requires edge { IsProperBound (bound_of search.now.sought.now.hi) }
    requires met { AreMet account.old.met.numbers (tree_of pass.old).ranges.unfinished }
    requires first { IsFirst (sizes space.now) (bound_of search.now.sought.now.lo) (tree_of pass.old) first }
    requires settled { IsSettled (tree_of pass.old) (first_note (tree_of pass.old).notes).its }
    requires needed { IsNotEnough F.Fn search.now.sought.now (tree_of pass.old).last × ((tree_of pass.old).last ≡ first_note (tree_of pass.old).notes) }
    ensures frame { StaysPinned space.now pass.old pass.new }
    ensures quiet { IsOver result (tree_of pass.new) }
    ensures steps { OnlyRanges (sizes space.now) (tree_of pass.old) (tree_of pass.new) }
    ensures met { AreMet account.new.met.numbers (tree_of pass.new).ranges.unfinished }
    ensures begun { HasBegun F.Fn search.now.sought.now (sizes space.now) search.now.budget account.new.spent result (known pass.old) (known pass.new) }
    ensures in_budget { EndsInBudget search.now.budget account.new.spent result }
    ensures loads { (tree_of pass.new).loads ≡ (tree_of pass.old).loads }
    ensures counted { IsSpentOn account.old.spent account.new.spent (known pass.old) (known pass.new) }
    ensures alone { IsAlone (sizes space.now) (tree_of pass.old) → (tree_of pass.old).ranges.unfinished ≡ []
        → IsListed (tree_of pass.old).inventory (first_note (tree_of pass.old).notes)
        → ComesAlone (sizes space.now) result (vec_len pass.old.kept.rows) (vec_len pass.new.kept.rows) (known pass.old) (known pass.new) }
{
    let Some(number) = next_number(space, pass) else {
        return Further::Ended(Snapped::Worn(Counter::Sequence));
    };
    match take_two(space, pass, (BASE_FORM, BORDER_FORM), &mut account.spent) {
        Ok((copy, border)) => {
            let own = Own { number, border };
            begin_with(space, pass, first, Rows { own, copy }, search, account)
        }
        Err(Stop::Lost(_)) => Further::Ended(Snapped::Again),
        Err(Stop::Empty) => Further::Ended(Snapped::NoRow),
        Err(Stop::Worn) => Further::Ended(Snapped::Worn(Counter::PoolTag)),
    }
}

// The number of the pass's next range, if there is one more.
fn next_number(space: &TreeSpace, pass: &mut TreePass) -> Option<u64>
    requires owner { IsOwner space.now pass.old }
    requires quiet { (tree_of pass.old).ranges.own ≡ Quiet }
    ensures frame { KeepsList pass.old pass.new }
    ensures numbered { HasNumbered result (known pass.old) (known pass.new) }
{
    let last = number_in(load_own_status(space, pass));
    if last < LAST_SEQUENCE {
        Some(last + 1)
    } else {
        None
    }
}

// The number of a pass's last range.
fn number_in(state: RangeState) -> u64
    ensures { (word : ℕ) → state ≡ status_of word → result ≡ word / sequence_unit }
{
    match state {
        RangeState::Idle(number) => number,
        RangeState::Active(number) => number,
        RangeState::Decided(number, _) => number,
    }
}

// Begins the range with these rows, which the pass holds: its first base is marked, or that exchange is lost.
fn begin_with<F: Fn(&[u8]) -> bool>(
    space: &TreeSpace,
    pass: &mut TreePass,
    first: Cursor,
    rows: Rows,
    search: &Search<'_, F>,
    account: &mut Account,
) -> Further
    requires owner { IsOwner space.now pass.old }
    requires numbered { IsNumbered pass.old.number (view pass.old).pin }
    requires held { AreHeld (sizes space.now).rows pass.old.kept.rows (view pass.old) (rows.copy ∷ rows.own.border ∷ []) × (rows.copy ≢ rows.own.border) }
    requires number { IsNumberOf (tree_of pass.old) rows.own.number }
    requires quiet { (tree_of pass.old).ranges.own ≡ Quiet }
    requires tuned { IsTuned (sizes space.now) search.now.tuning.now }
    requires edge { IsProperBound (bound_of search.now.sought.now.hi) }
    requires met { AreMet account.old.met.numbers (tree_of pass.old).ranges.unfinished }
    requires first { IsFirst (sizes space.now) (bound_of search.now.sought.now.lo) (tree_of pass.old) first }
    requires settled { IsSettled (tree_of pass.old) (first_note (tree_of pass.old).notes).its }
    requires needed { IsNotEnough F.Fn search.now.sought.now (first_note (tree_of pass.old).notes) }
    ensures goes { GoesOn space.now account.old.spent account.new.spent pass.old pass.new }
    ensures quiet { IsOver result (tree_of pass.new) }
    ensures met { AreMet account.new.met.numbers (tree_of pass.new).ranges.unfinished }
    ensures in_budget { EndsInBudget search.now.budget account.new.spent result }
    ensures loads { (tree_of pass.new).loads ≡ (tree_of pass.old).loads }
    ensures begun { HasBegun F.Fn search.now.sought.now (sizes space.now) search.now.budget account.new.spent result (known pass.old) (known pass.new) }
    ensures alone { IsAlone (sizes space.now) (tree_of pass.old) → (tree_of pass.old).ranges.unfinished ≡ []
        → IsListed (tree_of pass.old).inventory (first_note (tree_of pass.old).notes)
        → ComesAlone (sizes space.now) result (vec_len pass.old.kept.rows) (vec_len pass.new.kept.rows) (known pass.old) (known pass.new) }
{
    let mark = first_mark(space, pass, first.base, rows.own, search.tuning);
    write_first(space, pass, first.base, rows, &mark, search.sought.hi);
    open_own::<Brand>(space, pass, rows.own, search.sought.lo);
    if !put_first(space, pass, first, rows, &mut account.spent) {
        return Further::Ended(Snapped::Again);
    }
    let (own, counted) = (rows.own, 0);
    let left = Cursor {
        base: rows.copy,
        ..first
    };
    Further::On(Gathered { own, left, counted })
}

// Opens the range, which `K` names: it goes from this lower edge on.
fn open_own<K: Owning>(space: &TreeSpace, pass: &mut TreePass, own: Own, lo: Edge<'_>)
    requires owner { IsOwner space.now pass.old }
    requires begun { K.begun ≡ begun_at own (bound_of lo) }
    requires quiet { (tree_of pass.old).ranges.own ≡ Quiet }
    requires number { IsNumberOf (tree_of pass.old) own.number }
    ensures frame { KeepsList pass.old pass.new }
    ensures opened { known pass.new ≡ with_upper (known pass.old) (opened (begun_at own (bound_of lo.entry)) (tree_of pass.old)) }
{
    let _lo = lo;
    open_range::<K>(space, pass, own.number);
}

// How the first base of a range is marked: its statistic stays as it is, or is 0 where it was outside of its bounds.
fn first_mark(space: &TreeSpace, pass: &mut TreePass, base: u32, own: Own, tuning: &Tuning) -> Mark
    requires reading { IsReading space.now pass.old }
    requires allowed { IsAllowed tuning.now }
    requires shown { (note : Note) × IsBaseShown (sizes space.now) (tree_of pass.old) base note }
    ensures frame { OnlyReads pass.old pass.new }
    ensures range { (result.range.owner ≡ pass.old.number) × (result.range.number ≡ own.number) }
    ensures back { result.back ≡ 0 }
    ensures bound { result.bound ≡ own.border }
    ensures statistic { (note : Note) → IsBaseShown (sizes space.now) (tree_of pass.old) base note
        → IsKeptWord tuning.now (slice_index note.its 1) result.statistic }
{
    let old = statistic_of(load_word(space, pass, base, 1));
    let statistic = word_of(tuning.kept(old));
    let range = Range {
        owner: pass.number(),
        number: own.number,
    };
    Mark {
        statistic,
        range,
        back: 0,
        bound: own.border,
    }
}

// Writes the rows that a range begins with.
fn write_first(
    space: &TreeSpace,
    pass: &mut TreePass,
    base: u32,
    rows: Rows,
    mark: &Mark,
    hi: Edge<'_>,
)
    requires reading { IsReading space.now pass.old }
    requires held { AreHeld (sizes space.now).rows pass.old.kept.rows (view pass.old) (rows.copy ∷ rows.own.border ∷ []) × (rows.copy ≢ rows.own.border) }
    requires leaf { (sizes space.now).leaf ≤ 120 }
    requires edge { IsProperBound (bound_of hi) }
    requires shown { IsBaseShown (sizes space.now) (tree_of pass.old) base (first_note (tree_of pass.old).notes) }
    ensures frame { StillKeepsList pass.old pass.new }
    ensures held { AreHeld (sizes space.now).rows pass.new.kept.rows (view pass.new) (rows.copy ∷ rows.own.border ∷ []) }
    ensures written { HasWrittenFirst pass.old.number (bound_of hi.entry) mark.now rows (first_note (tree_of pass.old).notes) (known pass.old) (known pass.new) }
{
    write_border(space, pass, rows.own.border, hi);
    write_copy(space, pass, rows.copy, base, mark);
}

// Puts the copy in the place of the first base, by one exchange of a link. Where that is lost the range is left, and the rows are put back.
fn put_first(
    space: &TreeSpace,
    pass: &mut TreePass,
    first: Cursor,
    rows: Rows,
    spent: &mut Spent,
) -> bool
    requires owner { IsOwner space.now pass.old }
    requires held { AreHeld (sizes space.now).rows pass.old.kept.rows (view pass.old) (rows.copy ∷ rows.own.border ∷ []) × (rows.copy ≢ rows.own.border) }
    requires ready { IsFirstReady (sizes space.now) (known pass.old) rows first }
    ensures frame { StaysPinned space.now pass.old pass.new }
    ensures done { HasPutFirst result rows (known pass.old) (known pass.new) }
    ensures counted { IsSpentOn spent.old spent.new (known pass.old) (known pass.new) }
    ensures met { HasMet 0 0 (known pass.old) (known pass.new) }
    ensures lost { result ≡ false → losses (known pass.old) < losses (known pass.new) }
    ensures alone { IsAlone (sizes space.now) (tree_of pass.old) → IsThere (tree_of pass.old) (first_note (tree_of pass.old).notes)
        → PutsAlone result (vec_len pass.old.kept.rows) (vec_len pass.new.kept.rows) (known pass.old) (known pass.new) }
{
    let base = first.base;
    if !mark_first::<Brand>(space, pass, first.link, base, rows.copy) {
        lose(spent);
        leave_range::<Brand>(space, pass, rows.own.number);
        give_back(space, pass, rows.copy, BASE_FORM, spent);
        give_back(space, pass, rows.own.border, BORDER_FORM, spent);
        return false;
    }
    retire_unlinked(space, pass, base, BASE_FORM);
    spent.passed = spent.passed.saturating_add(1);
    true
}
