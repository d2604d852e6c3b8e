//! The rule of the tree.
ghost use Rattle.ca_node.specs.FirstTree.{tree_opening};
ghost use Rattle.ca_node.specs.Inventory.{HasListed};
ghost use Rattle.ca_node.specs.Laws.{tree_frames, tree_lends, tree_listing, tree_pinning, tree_making, tree_closing};
ghost use Rattle.ca_node.specs.Links.{IsLinked, IsLent, IsNoted};
ghost use Rattle.ca_node.specs.Opened.{opens_at, result_at};
ghost use Rattle.ca_node.specs.May.{MayLoad, MaySwap, MayStore};
ghost use Rattle.ca_node.specs.Told.{learnt};
ghost use Rattle.ca_node.specs.Tree.{IsTree};
ghost use Rattle.ca_node.specs.TreeView.{blank, ended_with, pinned, unpinned};

use crate::layout::{BASE, FIRST_BASE, ROOT, SEQUENCE};
use crate::view::Knowledge;
use ca_rows::{Pass, RowRule, Sizes, Space};

/// The rule of the tree over the rows: one base under the root link.
pub struct TreeRule;

/// The words of a tree, which passes share.
pub type TreeSpace = Space<TreeRule>;

/// The right to take steps on a tree, by a number from 1 to 64, with what is known of it.
pub type TreePass = Pass<TreeRule>;

impl RowRule for TreeRule {
    type Upper = Knowledge;

    ghost first = { blank 0 };

    ghost opens = { opens_at };

    ghost result_word = { result_at };

    ghost linked = { IsLinked };

    ghost lent = { IsLent };

    ghost noted = { IsNoted };

    ghost listed = { HasListed };

    ghost fact = { IsTree };

    ghost begins = { blank };

    ghost enters = { pinned };

    ghost leaves = { unpinned };

    ghost loads = { MayLoad };

    ghost swaps = { MaySwap };

    ghost stores = { MayStore };

    ghost learns = { learnt };

    ghost both = { ended_with };

    ghost spent = { blank 0 };

    fn open(sizes: &Sizes, word: u32) -> u64 {
        match word {
            ROOT => 1,
            131 => sizes.keypos as u64,
            132 => sizes.leaf as u64,
            133 => sizes.levels as u64,
            FIRST_BASE => BASE,
            137 => 1 << 32,
            _ => 0,
        }
    }

    fn first_result(sizes: &Sizes) -> u64 {
        SEQUENCE * sizes.starts.sequence
    }

    ghost frames = { tree_frames };

    ghost lends = { tree_lends };

    ghost listing = { tree_listing };

    ghost pinning = { tree_pinning };

    ghost making = { tree_making };

    ghost closing = { tree_closing };

    ghost opening = { tree_opening };
}
