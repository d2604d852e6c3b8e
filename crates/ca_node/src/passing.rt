//! A step by which a pass counts that it looked to the left.
ghost use Rattle.std.specs.Prelude.{◌≡◌};
ghost use Rattle.ca_node.specs.Aside.{IsAside, passed_on};
ghost use Rattle.ca_node.specs.Told.{with_upper};
ghost use Rattle.ca_node.specs.TreePasses.{tree_of};
ghost use Rattle.ca_rows.specs.Passes.{IsOn, KeepsList, known};

use crate::plays::PassOn;
use crate::rule::{TreePass, TreeSpace};

// The word that it loads: any one would do.
const HEAD: u32 = 0;

/// One load by which the pass counts, as a call's budget does, that its last walk came to a base on the left of all that it was shown since it was pinned, right
/// below one of them. Each such walk counts once. It tells nothing of the tree.
pub fn pass_on(space: &TreeSpace, pass: &mut TreePass)
    requires own { IsOn space.now pass.old }
    requires aside { IsAside (tree_of pass.old) }
    ensures frame { KeepsList pass.old pass.new }
    ensures passed { known pass.new ≡ with_upper (known pass.old) (passed_on (tree_of pass.old)) }
{
    space.load::<PassOn>(pass, HEAD);
}
