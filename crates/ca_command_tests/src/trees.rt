//! Trees of small bases that are split and joined often.
ghost use Rattle.std.specs.Prelude.{◌≡◌, IfOk};

use ca_adapt::Tuning;
use ca_replace::{Tree, TreeFault};
use ca_rows::Starts;
use std::alloc::Global;

/// How many objects a base has at most, and what an update adds to its base's statistic: one that lost an exchange, and any other.
pub(crate) type Few = (u8, i32, i32);

// Bases are split where they are full, and where they are hot: after every second update, or every fifth one. In the others a join is due behind each
// update that lost no exchange.
const FEW: [Few; 4] = [
    (2, 250, 600),
    (7, 250, 250),
    (2, 250, -2_000),
    (8, 250, -2_000),
];

/// What the tree of this number has.
pub(crate) fn few_of(tree: u32) -> Few {
    match FEW.get((tree % 4) as usize) {
        Some(few) => *few,
        None => (2, 250, 600),
    }
}

/// Whether bases of the tree of this number are joined.
pub(crate) fn is_joined(tree: u32) -> bool {
    few_of(tree).2 < 0
}

// A base is split above 1,000, and joined below -1,000.
fn tuning_of((leaf, lost, calm): Few) -> Tuning {
    Tuning {
        leaf,
        levels: 64,
        lost,
        calm,
        range: -100,
        high: 1_000,
        low: -1_000,
    }
}

const ZERO: Starts = Starts {
    tag: 0,
    epoch: 0,
    sequence: 0,
    attempt: 0,
};

/// A tree on so many rows for so many passes.
pub(crate) fn tree_of(alloc: Global, rows: u32, passes: u32, few: Few) -> Result<Tree, TreeFault>
    ensures { IfOk result (λ tree. tree.space.sizes.keypos ≡ 1) }
{
    Tree::new(alloc, rows, passes, 1, tuning_of(few), ZERO)
}
