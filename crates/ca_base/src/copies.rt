//! A copy of a base is written, with another mark.
ghost use Rattle.std.specs.Prelude.{◌≡◌, ◌+◌, ◌<◌, ◌≤◌, ℕ, slice_index};
ghost use Rattle.ca_base.specs.Copied.{SpellsCopy};
ghost use Rattle.ca_base.specs.Finding.{IsBaseShown};
ghost use Rattle.ca_base.specs.Holding.{ReadsAndHolds};
ghost use Rattle.ca_base.specs.Writing.{HasFilled, HasWritten};
ghost use Rattle.ca_node.specs.TreePasses.{tree_of};
ghost use Rattle.ca_node.specs.TreeView.{Note};
ghost use Rattle.ca_rows.specs.Passes.{StillKeepsList, sizes, known};

use crate::writing::{set_word, write_words};
use ca_node::{COUNT_LIMIT, ITEMS, PREFIX, TreePass, TreeSpace, load_word};

// How many words have room for a base's prefix.
const PREFIX_WORDS: u32 = ITEMS - PREFIX;

/// Writes a copy of a base that the pass was shown to a row that it holds, with these six words behind the first one: the word for its statistic, and its mark,
/// which is what kind of operation marks it, whose that is, its number, the base to the left, and the row that says up to where a range goes.
pub fn write_copy(space: &TreeSpace, pass: &mut TreePass, row: u32, base: u32, words: [u64; 6])
    requires row { ReadsAndHolds space.now pass.old row }
    requires leaf { (sizes space.now).leaf ≤ 120 }
    requires shown { (note : Note) × IsBaseShown (sizes space.now) (tree_of pass.old) base note }
    ensures frame { StillKeepsList pass.old pass.new }
    ensures written { (note : Note) → IsBaseShown (sizes space.now) (tree_of pass.old) base note
        → HasWritten row (SpellsCopy note words) (known pass.old) (known pass.new) }
{
    let form = load_word(space, pass, base, 0);
    let [statistic, kind, owner, number, back, bound] = words;
    let front = [form, statistic, kind, owner, number, back, bound];
    write_words(space, pass, row, &front);
    copy_words(space, pass, row, base, (form % COUNT_LIMIT) as u32);
}

// Copies the words of a base behind its mark: its prefix, and so many items.
fn copy_words(space: &TreeSpace, pass: &mut TreePass, row: u32, base: u32, many: u32)
    requires row { ReadsAndHolds space.now pass.old row }
    requires few { many ≤ 120 }
    requires shown { (note : Note) × IsBaseShown (sizes space.now) (tree_of pass.old) base note }
    ensures frame { StillKeepsList pass.old pass.new }
    ensures filled { (note : Note) → IsBaseShown (sizes space.now) (tree_of pass.old) base note
        → HasFilled row 7 (4 + many) (λ k word. word ≡ slice_index note.its (7 + k)) (known pass.old) (known pass.new) }
{
    for place in 0..PREFIX_WORDS + many {
        let word = load_word(space, pass, base, PREFIX + place);
        set_word(space, pass, row, PREFIX + place, word);
    }
}
