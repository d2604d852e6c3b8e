//! A copy of a base is written, with the mark of a range.
ghost use Rattle.std.specs.Prelude.{◌≤◌};
ghost use Rattle.ca_base.specs.Finding.{IsBaseShown};
ghost use Rattle.ca_base.specs.Holding.{ReadsAndHolds};
ghost use Rattle.ca_base.specs.Writing.{HasWritten};
ghost use Rattle.ca_node.specs.TreePasses.{tree_of};
ghost use Rattle.ca_node.specs.TreeView.{Note};
ghost use Rattle.ca_range.specs.Copying.{SpellsCopy};
ghost use Rattle.ca_rows.specs.Passes.{StillKeepsList, sizes, known};

use crate::account::Range;
use ca_node::{MARKED_BY_RANGE, TreePass, TreeSpace};

/// What a copy of a base says beside what the base had: the word for its statistic, which range marked it, the base to its left in that range, and the row
/// that says up to where the range goes.
#[derive(Clone, Copy)]
pub(crate) struct Mark {
    pub(crate) statistic: u64,
    pub(crate) range: Range,
    pub(crate) back: u32,
    pub(crate) bound: u32,
}

/// Writes a copy of a base that the pass was shown, with this mark, to a row that it holds.
pub(crate) fn write_copy(space: &TreeSpace, pass: &mut TreePass, row: u32, base: u32, mark: &Mark)
    requires row { ReadsAndHolds space.now pass.old row }
    requires leaf { (sizes space.now).leaf ≤ 120 }
    requires shown { (note : Note) × IsBaseShown (sizes space.now) (tree_of pass.old) base note }
    ensures frame { StillKeepsList pass.old pass.new }
    ensures written { (note : Note) → IsBaseShown (sizes space.now) (tree_of pass.old) base note
        → HasWritten row (SpellsCopy note mark.now) (known pass.old) (known pass.new) }
{
    let range = mark.range;
    let owner = u64::from(range.owner);
    let (back, bound) = (u64::from(mark.back), u64::from(mark.bound));
    let words = [
        mark.statistic,
        MARKED_BY_RANGE,
        owner,
        range.number,
        back,
        bound,
    ];
    ca_base::write_copy(space, pass, row, base, words);
}
