//! Which range marked a base.
ghost use Rattle.std.specs.Prelude.{◌≡◌, ◌↔◌, IsTrue};
ghost use Rattle.ca_base.specs.Finding.{IsBaseShown};
ghost use Rattle.ca_node.specs.Row.{IsMarkedBy};
ghost use Rattle.ca_node.specs.TreePasses.{tree_of};
ghost use Rattle.ca_node.specs.TreeView.{Note};
ghost use Rattle.ca_range.specs.Meeting.{IsRangeOf};
ghost use Rattle.ca_rows.specs.Passes.{OnlyReads, IsReading, sizes};

use crate::account::Range;
use ca_node::{Cursor, MARKED_BY_RANGE, TreePass, TreeSpace, load_word};

/// A base that a range marked, where it hangs, and which range did.
#[derive(Clone, Copy)]
pub struct MarkedBase {
    pub cursor: Cursor,
    pub range: Range,
}

/// Which range marked a base that the pass was shown; none where no operation marked it, or a join.
pub fn range_of(space: &TreeSpace, pass: &mut TreePass, base: u32) -> Option<Range>
    requires reading { IsReading space.now pass.old }
    requires shown { (note : Note) × IsBaseShown (sizes space.now) (tree_of pass.old) base note }
    ensures frame { OnlyReads pass.old pass.new }
    ensures range { (note : Note) → IsBaseShown (sizes space.now) (tree_of pass.old) base note → IsRangeOf note.its result }
{
    if load_word(space, pass, base, 2) != MARKED_BY_RANGE {
        return None;
    }
    let owner = load_word(space, pass, base, 3) as u32;
    let number = load_word(space, pass, base, 4);
    Some(Range { owner, number })
}

/// Whether this range marked a base that the pass was shown.
pub(crate) fn is_of(space: &TreeSpace, pass: &mut TreePass, base: u32, range: Range) -> bool
    requires reading { IsReading space.now pass.old }
    requires shown { (note : Note) × IsBaseShown (sizes space.now) (tree_of pass.old) base note }
    ensures frame { OnlyReads pass.old pass.new }
    ensures marked { (note : Note) → IsBaseShown (sizes space.now) (tree_of pass.old) base note
        → (IsTrue result ↔ IsMarkedBy note.its range.owner range.number) }
{
    match range_of(space, pass, base) {
        Some(other) => is_same(other, range),
        None => false,
    }
}

// Whether two ranges are one.
fn is_same(one: Range, other: Range) -> bool
    ensures { IsTrue result ↔ ((one.owner ≡ other.owner) × (one.number ≡ other.number)) }
{
    one.owner == other.owner && one.number == other.number
}
