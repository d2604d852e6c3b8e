//! A tree that nobody shares any more.
ghost use Rattle.std.specs.Prelude.{◌≡◌, ◌≤◌, map, vec_len};
ghost use Rattle.std.specs.List.{All};
ghost use Rattle.std.specs.Mem.Slots.{slots_items};
ghost use Rattle.ca_node.specs.LastTree.{IsLastTree};
ghost use Rattle.ca_rows.specs.Closed.{IsClosable};

use crate::rule::{TreePass, TreeSpace};
use ca_rows::Words;

/// Ends a tree whose passes are all here, and none is pinned. Their logs are lawful for one history, and the objects under the root link are its
/// last state, in the order of their keys.
pub fn close_words(space: TreeSpace, passes: Vec<TreePass>) -> Words
    requires all { space.made ≤ vec_len passes }
    requires closable { All (λ pass. IsClosable space.table.shared.table_id pass.seat) passes.items }
    ensures last { IsLastTree space.table.shared.key space.made (map (λ pass. pass.seat.me.0.upper) passes.items) (slots_items result.closed.words) }
{
    space.close(passes)
}
