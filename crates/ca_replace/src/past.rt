//! What contracts know of a tree that was closed.
ghost use Rattle.std.specs.Prelude.{◌≡◌};

use crate::tree::Tree;
use ca_node::TreePass;
use std::marker::Model;
use std::snapshot::Snapshot;

/// Which tree was closed, what it was made with, and what its passes did. It takes no memory, and contracts alone see what it says. It is made where a tree
/// is closed, of that tree, and nowhere else.
#[derive(Drop)]
pub struct Past {
    tree: Snapshot<Tree>,
    passes: Snapshot<Vec<TreePass>>,
}

impl Model for Past {
    ghost use Rattle.ca_replace.specs.Past.{TreePast};

    ghost Value = { TreePast };

    ghost use Rattle.ca_replace.specs.PastSeen.{view_of};

    ghost view = { view_of };
}

impl Past {
    ghost use Rattle.ca_replace.specs.Past.{past_of};

    // That of this tree, whose passes are these.
    pub(crate) fn of(tree: &Tree, passes: &Vec<TreePass>) -> Past
        ensures { result ≡ past_of tree.now passes.now.items }
    {
        Past {
            tree: Snapshot::of(tree),
            passes: Snapshot::of(passes),
        }
    }
}
