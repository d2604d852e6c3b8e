//! Trees, by what their tests change of them.
ghost use Rattle.std.specs.Prelude.{◌≡◌, IfOk};

use ca_adapt::Tuning;
use ca_replace::{Tree, TreeFault};
use ca_rows::Starts;
use std::alloc::Global;

/// Numbers that counters begin with where nothing else is said.
pub(crate) const ZERO: Starts = Starts {
    tag: 0,
    epoch: 0,
    sequence: 0,
    attempt: 0,
};

/// How many objects a base has at most, at how many levels, and what an update adds to its base's statistic: one that lost an exchange, and any other.
pub(crate) type Few = (u8, u16, i32, i32);

/// A tuning with these numbers.
pub(crate) fn tuning_of(few: Few) -> Tuning
    ensures leaf { result.leaf ≡ few.0 }
{
    let (leaf, levels, lost, calm) = few;
    Tuning {
        leaf,
        levels,
        lost,
        calm,
        range: -100,
        high: 1_000,
        low: -1_000,
    }
}

/// A tree on so many rows, for so many passes.
pub(crate) fn tree_of(
    alloc: Global,
    rows: u32,
    passes: u32,
    tuning: Tuning,
    starts: Starts,
) -> Result<Tree, TreeFault>
    ensures keypos { IfOk result (λ tree. tree.space.sizes.keypos ≡ 1) }
    ensures tuning { IfOk result (λ tree. tree.tuning ≡ tuning) }
{
    Tree::new(alloc, rows, passes, 1, tuning, starts)
}
