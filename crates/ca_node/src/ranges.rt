//! Single steps on the words of ranges.
ghost use Rattle.std.specs.Prelude.{◌≡◌, ◌↔◌, ℕ, ◌+◌, ◌/◌, ◌%◌, ◌<◌, ◌≤◌, IsTrue, Some};
ghost use Rattle.ca_node.specs.Told.{HasWatched, active_of, status_of, status_word};
ghost use Rattle.ca_node.specs.Endings.{IsHelping, HasHelped};
ghost use Rattle.ca_node.specs.Layout.{sequence_unit};
ghost use Rattle.ca_node.specs.Row.{mark_bound};
ghost use Rattle.ca_rows.specs.Layout.{last_sequence, row_limit};
ghost use Rattle.ca_rows.specs.Passes.{IsOn, IsReading, KeepsList, sizes, known};

use crate::layout::SEQUENCE;
use crate::plays::{Finishing, Help, Watch};
use crate::range_state::RangeState;
use crate::rule::{TreePass, TreeSpace};
use ca_rows::ROW_LIMIT;

/// One load of how far the last range of this pass is. The pass that loads it knows from then on of each range of that pass that was begun, but for an
/// active one, that it is over. A range that marked a base which it was shown was begun.
pub fn load_status(space: &TreeSpace, pass: &mut TreePass, owner: u32) -> RangeState
    requires reading { IsReading space.now pass.old }
    requires owner { (0 < owner) × (owner ≤ 64) }
    ensures frame { KeepsList pass.old pass.new }
    ensures watched { (word : ℕ) × (result ≡ status_of word) × HasWatched owner (known pass.old) word (known pass.new) × (word < 18446744073709551616) }
{
    let word = status_word_of(space, owner);
    state_of(space.load::<Watch>(pass, word))
}

/// One exchange of how far a range of another pass is, which `K` names: it is decided, with this base as the last one of its run. The pass was shown the base
/// and that the range marked it, and the base has all keys up to where the range goes. False exactly where another pass had ended it; either way the pass
/// knows that it is over, and it is counted as one that the pass helped where the exchange won.
pub fn decide_for<K: Finishing>(
    space: &TreeSpace,
    pass: &mut TreePass,
    owner: u32,
    number: u64,
    last: u32,
) -> bool
    requires own { IsOn space.now pass.old }
    requires helping { IsHelping (known pass.old) K.pass K.number K.last K.border }
    requires owner { (K.pass ≡ owner) × (0 < owner) × (owner ≤ 64) }
    requires number { (K.number ≡ number) × (number ≤ last_sequence) }
    requires last { (K.last.row ≡ last) × (last < row_limit) }
    ensures frame { KeepsList pass.old pass.new }
    ensures done { HasHelped result K.pass K.number (mark_bound K.last.its) (known pass.old) (known pass.new) }
{
    let word = status_word_of(space, owner);
    let active = SEQUENCE * number + ROW_LIMIT;
    let decided = active + ROW_LIMIT + last as u64;
    space.swap::<Help<K>>(pass, word, active, decided)
}

/// Whether the range of a pass with this number is active, where the pass's last range is so far.
pub fn is_active(state: RangeState, number: u64) -> bool
    ensures words { (word : ℕ) → state ≡ status_of word → (IsTrue result ↔ ((word % sequence_unit ≡ row_limit) × (word / sequence_unit ≡ number))) }
    ensures active { (word : ℕ) → state ≡ status_of word → (IsTrue result ↔ (active_of word ≡ Some number)) }
{
    match state {
        RangeState::Idle(_) => false,
        RangeState::Active(active) => active == number,
        RangeState::Decided(_, _) => false,
    }
}

// The word that says how far the last range of this pass is.
pub(crate) fn status_word_of(space: &TreeSpace, owner: u32) -> u32
    requires owner { (0 < owner) × (owner ≤ 64) }
    ensures word { result ≡ status_word (sizes space.now) owner }
    ensures inside { result < space.now.table.shared.table_id.words }
{
    space.own_word(owner) as u32 + 1
}

// How far a range is, by its word.
pub(crate) fn state_of(word: u64) -> RangeState
    ensures { result ≡ status_of word }
{
    let sequence = word / SEQUENCE;
    if word % SEQUENCE == ROW_LIMIT {
        RangeState::Active(sequence)
    } else if word / ROW_LIMIT % 4 == 2 {
        RangeState::Decided(sequence, (word % ROW_LIMIT) as u32)
    } else {
        RangeState::Idle(sequence)
    }
}
