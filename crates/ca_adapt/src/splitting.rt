//! Splits of a base.
ghost use Rattle.std.specs.Prelude.{◌≡◌, ◌<◌, true};
ghost use Rattle.ca_adapt.specs.Splits.{HasSplitBack, IsOneTry, IsSplitOutcome, IsPoolsLoss, answer_to, attempts_at_first};
ghost use Rattle.ca_adapt.specs.Tuned.{IsTuned};
ghost use Rattle.ca_base.specs.Counting.{IsSpent};
ghost use Rattle.ca_base.specs.Finding.{IsAtCursor, IsReadable};
ghost use Rattle.ca_node.specs.Inventory.{IsListed};
ghost use Rattle.ca_node.specs.States.{IsAlone};
ghost use Rattle.ca_node.specs.Told.{IsSettled};
ghost use Rattle.ca_rows.specs.Passes.{sizes, known};
ghost use Rattle.ca_node.specs.TreePasses.{tree_of};
ghost use Rattle.ca_base.specs.Readiness.{IsReady, StaysReady, shown_last};

use crate::adapted::{Adapted, Why};
use crate::tuning::Tuning;
use ca_base::{Stop, count, split_at};
use ca_model::Spent;
use ca_node::{Cursor, TreePass, TreeSpace};

// The last value of an attempt to join what is under a route. No space is made with a greater one.
pub(crate) const LAST_ATTEMPT: u64 = (1 << 62) - 1;

/// Splits the base under the cursor, which was shown last and which no range has: a route takes its place, over two bases with its halves, whose
/// statistic is 0. That is `NotSplit` with `OneObject` where it has fewer than two objects, with `AtLevel` where it stands at the last level, with
/// `NoRow` and `Worn` where no row was free and where the pool's tag can rise no more, and with `Lost` where an exchange was lost, of the base or of
/// the pool's head. Of a base that it lists, a pass that is alone loses none.
pub fn split(space: &TreeSpace, pass: &mut TreePass, cursor: &Cursor, tuning: &Tuning) -> Adapted
    requires ready { IsReady space.now pass.old }
    requires tuned { IsTuned (sizes space.now) tuning.now }
    requires readable { IsReadable (sizes space.now) (tree_of pass.old) cursor.now.base (shown_last pass.old) }
    requires at { IsAtCursor (sizes space.now) (shown_last pass.old) cursor.now }
    requires settled { IsSettled (tree_of pass.old) (shown_last pass.old).its }
    ensures frame { StaysReady space.now pass.old pass.new }
    ensures split { IsSplitOutcome (sizes space.now) (shown_last pass.old) result (known pass.old) (known pass.new) }
    ensures once { IsOneTry result (known pass.old) (known pass.new) }
    ensures back { HasSplitBack result (known pass.old) (known pass.new) pass.old.kept pass.new.kept }
    ensures won { IsAlone (sizes space.now) (tree_of pass.old) → IsListed (tree_of pass.old).inventory (shown_last pass.old)
        → IsPoolsLoss result (known pass.old) (known pass.new) }
{
    let mut spent = Spent {
        lost: 0,
        helped: 0,
        passed: 0,
    };
    try_split(space, pass, *cursor, tuning, &mut spent)
}

/// The same, as a part of a call that counts what it spends: the exchanges that were lost are added.
pub fn try_split(
    space: &TreeSpace,
    pass: &mut TreePass,
    cursor: Cursor,
    tuning: &Tuning,
    spent: &mut Spent,
) -> Adapted
    requires ready { IsReady space.now pass.old }
    requires tuned { IsTuned (sizes space.now) tuning.now }
    requires readable { IsReadable (sizes space.now) (tree_of pass.old) cursor.base (shown_last pass.old) }
    requires at { IsAtCursor (sizes space.now) (shown_last pass.old) cursor }
    requires settled { IsSettled (tree_of pass.old) (shown_last pass.old).its }
    ensures frame { StaysReady space.now pass.old pass.new }
    ensures split { IsSplitOutcome (sizes space.now) (shown_last pass.old) result (known pass.old) (known pass.new) }
    ensures once { IsOneTry result (known pass.old) (known pass.new) }
    ensures back { HasSplitBack result (known pass.old) (known pass.new) pass.old.kept pass.new.kept }
    ensures won { IsAlone (sizes space.now) (tree_of pass.old) → IsListed (tree_of pass.old).inventory (shown_last pass.old)
        → IsPoolsLoss result (known pass.old) (known pass.new) }
    ensures counted { IsSpent spent.old spent.new (known pass.old) (known pass.new) }
{
    let many = count(space, pass, cursor.base);
    if many < 2 {
        return Adapted::NotSplit(Why::OneObject);
    }
    if cursor.level >= tuning.levels {
        return Adapted::NotSplit(Why::AtLevel);
    }
    let attempt = first_attempt(space);
    answer(split_at(space, pass, cursor, many, attempt, spent))
}

/// How many attempts to join a new route is said to have had: as many as the space was made with.
pub fn first_attempt(space: &TreeSpace) -> u64
    ensures value { result ≡ attempts_at_first (sizes space.now) }
    ensures bound { result < 4611686018427387904 }
{
    space.starts().attempt.min(LAST_ATTEMPT)
}

// What became of the base, by what became of its exchange.
fn answer(split: Result<(), Stop>) -> Adapted
    ensures { result ≡ answer_to split }
{
    match split {
        Ok(()) => Adapted::Split,
        Err(Stop::Lost(_)) => Adapted::NotSplit(Why::Lost),
        Err(Stop::Empty) => Adapted::NotSplit(Why::NoRow),
        Err(Stop::Worn) => Adapted::NotSplit(Why::Worn),
    }
}
