//! What a seat knows of the tree.
ghost use Rattle.ca_node.specs.TreeView.{TreeView, blank};

use std::marker::Model;

/// It exists in proofs alone: contracts see a record of lists.
pub struct Knowledge;

impl Model for Knowledge {
    ghost Value = { TreeView };

    ghost view = { λ _. blank 0 };
}
