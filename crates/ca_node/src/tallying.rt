//! How many splits and joins a pass carried out.
ghost use Rattle.std.specs.Prelude.{◌≡◌};

use crate::rule::TreePass;

/// How many splits (`divide_base`) and how many joins (`unlink_route`) the pass carried out: what it knows of it, each up to 2^64 - 1 (`IsTallied`).
pub fn adapted(pass: &TreePass) -> (u64, u64)
    ensures splits { result.0 ≡ pass.now.tally.splits }
    ensures joins { result.1 ≡ pass.now.tally.joins }
{
    let tally = pass.tally();
    (tally.splits, tally.joins)
}
