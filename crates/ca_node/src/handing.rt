//! What a pass has seen, handed to another one.
ghost use Rattle.std.specs.Prelude.{◌≡◌, ◌≤◌, length, false};
ghost use Rattle.ca_node.specs.Told.{with_upper, learnt};
ghost use Rattle.ca_rows.specs.Passes.{OnlyReads, IsOn, KeepsList, known, view};
ghost use Rattle.ca_node.specs.TreePasses.{tree_of};

use crate::handed::Front;
use crate::plays::{Fork, Learn};
use crate::rule::{TreePass, TreeSpace};

/// A copy of what the pass has seen.
pub fn front(space: &TreeSpace, pass: &mut TreePass) -> Front
    requires own { IsOn space.now pass.old }
    ensures frame { OnlyReads pass.old pass.new }
    ensures table { result.half.seat.table_id ≡ space.now.table.shared.table_id }
    ensures seen { result.half.seat.me.0.upper.seen ≡ (tree_of pass.old).seen }
{
    let half = space.split::<Fork>(pass);
    Front::of(half)
}

/// Takes a front in: the pass has seen from then on what the pass had seen that gave it. No later call of the pass has a place before that.
pub fn learn(space: &TreeSpace, pass: &mut TreePass, front: Front)
    requires own { IsOn space.now pass.old }
    requires unpinned { (view pass.old).pin.pinned ≡ false }
    requires table { front.half.seat.table_id ≡ space.now.table.shared.table_id }
    ensures frame { KeepsList pass.old pass.new }
    ensures learnt { known pass.new ≡ with_upper (known pass.old) (learnt (tree_of pass.old) front.half.seat.me.0.upper) }
    ensures seen { length front.half.seat.me.0.upper.seen ≤ length (tree_of pass.new).seen }
    ensures seen_before { length (tree_of pass.old).seen ≤ length (tree_of pass.new).seen }
{
    space.join::<Learn>(pass, front.into_half());
}
