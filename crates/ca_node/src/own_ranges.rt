//! Single steps on the word of the pass's own range.
ghost use Rattle.std.specs.Prelude.{◌≡◌, ℕ, ◌<◌, ◌≤◌, false};
ghost use Rattle.ca_node.specs.OwnRanges.{IsOpening, opened, IsFoundSo, IsOwnEnding, HasDecidedOwn, given_up, IsLeaving, IsGivingUp, HasAborted};
ghost use Rattle.ca_node.specs.States.{IsAlone};
ghost use Rattle.ca_node.specs.Told.{status_of, with_upper};
ghost use Rattle.ca_node.specs.TreePasses.{tree_of, IsOwner};
ghost use Rattle.ca_rows.specs.Layout.{last_sequence, row_limit};
ghost use Rattle.ca_rows.specs.Passes.{KeepsList, sizes, known, view};
ghost use Rattle.ca_rows.specs.Told.{relinked};

use crate::layout::SEQUENCE;
use crate::plays::{AbortOwn, DecideOwn, LeaveOwn, OpenOwn, Owning, WatchOwn};
use crate::range_state::RangeState;
use crate::ranges::{state_of, status_word_of};
use crate::rule::{TreePass, TreeSpace};
use ca_rows::ROW_LIMIT;

/// One load of how far the pass's own last range is. The pass knows from then on which number that one has. Where it had marked a base for it and another pass
/// has decided it since, the run is shown: it is what a state of the history has since the pass was pinned, and goes to where the range goes.
pub fn load_own_status(space: &TreeSpace, pass: &mut TreePass) -> RangeState
    requires owner { IsOwner space.now pass.old }
    ensures frame { KeepsList pass.old pass.new }
    ensures found { (word : ℕ) × (result ≡ status_of word) × IsFoundSo (known pass.old) word (known pass.new) (tree_of pass.old).ranges.own
        × (word < 18446744073709551616) }
{
    let word = status_word_of(space, pass.number());
    state_of(space.load::<WatchOwn>(pass, word))
}

/// One store, by which a range begins, which `K` names: it is active from then on, and its number is the one behind that of the pass's last range.
pub fn open_range<K: Owning>(space: &TreeSpace, pass: &mut TreePass, number: u64)
    requires owner { IsOwner space.now pass.old }
    requires opening { IsOpening (known pass.old) K.begun }
    requires number { (K.begun.number ≡ number) × (number ≤ last_sequence) }
    ensures frame { KeepsList pass.old pass.new }
    ensures opened { known pass.new ≡ with_upper (known pass.old) (opened K.begun (tree_of pass.old)) }
{
    let word = status_word_of(space, pass.number());
    space.store::<OpenOwn<K>>(pass, word, SEQUENCE * number + ROW_LIMIT);
}

/// One exchange by which the pass gives its own range up, for which it had marked nothing, so nobody else can have ended it.
pub fn leave_range<K: Owning>(space: &TreeSpace, pass: &mut TreePass, number: u64)
    requires owner { IsOwner space.now pass.old }
    requires leaving { IsLeaving (known pass.old) K.begun }
    requires number { (K.begun.number ≡ number) × (number ≤ last_sequence) }
    ensures frame { KeepsList pass.old pass.new }
    ensures left { known pass.new ≡ relinked (known pass.old) (view pass.old).claims (given_up K.begun.number (tree_of pass.old)) }
{
    let word = status_word_of(space, pass.number());
    let idle = SEQUENCE * number;
    space.swap::<LeaveOwn<K>>(pass, word, idle + ROW_LIMIT, idle);
}

/// One exchange of how far the pass's own range is, which `K` names: it is decided, with a base that it marked as the last one of its run, which is shown.
/// False exactly where another pass had decided it, and so never for a pass that is alone; then `load_own_status` tells with which base.
pub fn decide_own<K: Owning>(space: &TreeSpace, pass: &mut TreePass, number: u64, last: u32) -> bool
    requires owner { IsOwner space.now pass.old }
    requires ending { IsOwnEnding (known pass.old) K.begun K.border K.last }
    requires number { (K.begun.number ≡ number) × (number ≤ last_sequence) }
    requires last { (K.last.row ≡ last) × (last < row_limit) }
    ensures frame { KeepsList pass.old pass.new }
    ensures done { HasDecidedOwn result K.begun K.border K.last (known pass.old) (known pass.new) }
    ensures several { result ≡ false → ¬ IsAlone (sizes space.now) (tree_of pass.old) }
{
    let word = status_word_of(space, pass.number());
    let active = SEQUENCE * number + ROW_LIMIT;
    let decided = active + ROW_LIMIT + last as u64;
    space.swap::<DecideOwn<K>>(pass, word, active, decided)
}

/// One exchange by which the pass gives its own range up, for which it had marked a base. False exactly where another pass had decided it, and so never for a
/// pass that is alone; either way it is over.
pub fn abort_own<K: Owning>(space: &TreeSpace, pass: &mut TreePass, number: u64) -> bool
    requires owner { IsOwner space.now pass.old }
    requires giving { IsGivingUp (known pass.old) K.begun K.border }
    requires number { (K.begun.number ≡ number) × (number ≤ last_sequence) }
    ensures frame { KeepsList pass.old pass.new }
    ensures done { HasAborted result K.begun K.border (known pass.old) (known pass.new) }
    ensures several { result ≡ false → ¬ IsAlone (sizes space.now) (tree_of pass.old) }
{
    let word = status_word_of(space, pass.number());
    let idle = SEQUENCE * number;
    space.swap::<AbortOwn<K>>(pass, word, idle + ROW_LIMIT, idle)
}
