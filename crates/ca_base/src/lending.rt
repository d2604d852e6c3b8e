//! A row that was lent to the pass's own range is retired.
ghost use Rattle.std.specs.Prelude.{◌≡◌, ◌<◌, ℕ, [], ◌∷◌};
ghost use Rattle.ca_base.specs.Counting.{losses, HasMet, KeepsMore};
ghost use Rattle.ca_base.specs.Crowded.{StaysCrowded};
ghost use Rattle.ca_base.specs.Taking.{AreHeld, HasLent, IsOwnBorder};
ghost use Rattle.ca_node.specs.Layout.{border_form};
ghost use Rattle.ca_node.specs.TreePasses.{tree_of};
ghost use Rattle.ca_node.specs.TreeView.{Quiet};
ghost use Rattle.ca_rows.specs.Passes.{IsOn, IsStillPass, sizes, known, view};

use ca_node::{BORDER_FORM, TreePass, TreeSpace};

/// Retires the row that says up to where a range of the pass's own went, and which the pass lent to it, once no range of its own is active.
pub fn retire_border(space: &TreeSpace, pass: &mut TreePass, row: u32)
    requires own { IsOn space.now pass.old }
    requires number { 0 < (tree_of pass.old).number }
    requires quiet { (tree_of pass.old).ranges.own ≡ Quiet }
    requires border { IsOwnBorder (tree_of pass.old) row }
    requires lent { HasLent (sizes space.now).rows pass.old.kept.rows (view pass.old) row }
    ensures frame { IsStillPass pass.old pass.new }
    ensures none { AreHeld (sizes space.now).rows pass.new.kept.rows (view pass.new) [] }
    ensures met { (losses (known pass.new) ≡ losses (known pass.old)) × HasMet 0 0 (known pass.old) (known pass.new) }
    ensures crowded { StaysCrowded (known pass.old) (known pass.new) }
    ensures kept { KeepsMore border_form (row ∷ []) pass.old.kept.rows.items pass.new.kept.rows.items }
{
    space.retire(pass, row, BORDER_FORM);
}
