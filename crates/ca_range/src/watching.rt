//! How far ranges of other passes are, noted and counted.
ghost use Rattle.std.specs.Prelude.{◌≡◌, ◌+◌, ◌<◌, ◌≤◌, ℕ, Bool, Option, min, slice_index_or, slice_set, None};
ghost use Rattle.ca_node.specs.Endings.{IsHelping, HasHelped};
ghost use Rattle.ca_node.specs.Row.{mark_bound};
ghost use Rattle.ca_node.specs.Told.{HasWatched, IsKnown, status_of, active_of};
ghost use Rattle.ca_node.specs.TreePasses.{tree_of};
ghost use Rattle.ca_range.specs.Meeting.{AreMet, finished_of};
ghost use Rattle.ca_base.specs.Spending.{IsSpentOn};
ghost use Rattle.ca_rows.specs.Layout.{last_sequence, row_limit};
ghost use Rattle.ca_rows.specs.Passes.{IsOn, IsReading, KeepsList, sizes, known};

use crate::account::{Account, Met, Range};
use ca_model::Spent;
use ca_node::{Finishing, RangeState, TreePass, TreeSpace, decide_for, load_status};

/// Loads how far the last range of a pass is. One of another pass that is unfinished is noted, and one that was is counted as helped where it isn't any more.
pub fn watch(
    space: &TreeSpace,
    pass: &mut TreePass,
    owner: u32,
    account: &mut Account,
) -> RangeState
    requires reading { IsReading space.now pass.old }
    requires number { pass.old.number ≡ (tree_of pass.old).number }
    requires owner { (0 < owner) × (owner ≤ 64) }
    requires met { AreMet account.old.met.numbers (tree_of pass.old).ranges.unfinished }
    ensures frame { KeepsList pass.old pass.new }
    ensures met { AreMet account.new.met.numbers (tree_of pass.new).ranges.unfinished }
    ensures known { IsKnown (sizes space.now) (tree_of pass.old) → IsKnown (sizes space.now) (tree_of pass.new) }
    ensures watched { (word : ℕ) × (result ≡ status_of word) × HasWatched owner (known pass.old) word (known pass.new) × (word < 18446744073709551616) }
    ensures counted { IsSpentOn account.old.spent account.new.spent (known pass.old) (known pass.new) }
{
    let state = load_status(space, pass, owner);
    if owner != pass.number() {
        note(account, owner as usize, active(state));
    }
    state
}

/// Decides a range of another pass that was found unfinished, by one exchange. Won or lost, it is over, and is counted as helped.
pub fn finish<K: Finishing>(
    space: &TreeSpace,
    pass: &mut TreePass,
    range: Range,
    last: u32,
    account: &mut Account,
)
    requires own { IsOn space.now pass.old }
    requires helping { IsHelping (known pass.old) K.pass K.number K.last K.border }
    requires owner { (K.pass ≡ range.owner) × (0 < range.owner) × (range.owner ≤ 64) }
    requires number { (K.number ≡ range.number) × (range.number ≤ last_sequence) }
    requires last { (K.last.row ≡ last) × (last < row_limit) }
    requires met { AreMet account.old.met.numbers (tree_of pass.old).ranges.unfinished }
    ensures frame { KeepsList pass.old pass.new }
    ensures met { AreMet account.new.met.numbers (tree_of pass.new).ranges.unfinished }
    ensures done { (won : Bool) × HasHelped won range.owner range.number (mark_bound K.last.its) (known pass.old) (known pass.new) }
    ensures counted { IsSpentOn account.old.spent account.new.spent (known pass.old) (known pass.new) }
{
    decide_for::<K>(space, pass, range.owner, range.number, last);
    account.met.numbers[range.owner as usize] = None;
    help(&mut account.spent, 1);
}

// The number of the range that is active, if one is.
fn active(state: RangeState) -> Option<u64>
    ensures { (word : ℕ) → state ≡ status_of word → result ≡ active_of word }
{
    match state {
        RangeState::Idle(_) => None,
        RangeState::Active(number) => Some(number),
        RangeState::Decided(_, _) => None,
    }
}

// Notes that this range of a pass is unfinished, or none; and counts the one that was noted before, where it is finished.
fn note(account: &mut Account, owner: usize, now: Option<u64>)
    requires inside { owner < 65 }
    ensures numbers { account.new.met.numbers ≡ slice_set account.old.met.numbers owner now }
    ensures helped { (word : ℕ) → now ≡ active_of word → account.new.spent.helped
        ≡ min 4294967295 (account.old.spent.helped + finished_of word (slice_index_or account.old.met.numbers owner None)) }
    ensures others { (account.new.spent.lost ≡ account.old.spent.lost) × (account.new.spent.passed ≡ account.old.spent.passed) }
{
    let before = account.met.numbers[owner];
    account.met.numbers[owner] = now;
    help(&mut account.spent, finished(before, now));
}

// How many of the ranges of a pass are finished of which this one was unfinished before, and this one is now.
fn finished(before: Option<u64>, now: Option<u64>) -> u32
    ensures { (word : ℕ) → now ≡ active_of word → result ≡ finished_of word before }
{
    match (before, now) {
        (None, _) => 0,
        (Some(_), None) => 1,
        (Some(was), Some(number)) => u32::from(was != number),
    }
}

// Counts operations that were helped, up to the last number that 32 bits hold.
fn help(spent: &mut Spent, more: u32)
    ensures helped { spent.new.helped ≡ min 4294967295 (spent.old.helped + more) }
    ensures others { (spent.new.lost ≡ spent.old.lost) × (spent.new.passed ≡ spent.old.passed) }
{
    spent.helped = spent.helped.saturating_add(more);
}
