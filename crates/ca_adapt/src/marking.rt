//! Both bases under a route are marked for an attempt to join them.
ghost use Rattle.std.specs.Prelude.{◌≤◌};
ghost use Rattle.ca_adapt.specs.Pairs.{AreMarkedBoth, HasMarkedOne, IsLoneMark, IsMarkable, IsPair, IsThere};
ghost use Rattle.ca_adapt.specs.Trying.{IsLoneBy, IsSpentTrying};
ghost use Rattle.ca_adapt.specs.Joins.{shown_on};
ghost use Rattle.ca_base.specs.Counting.{HasFound};
ghost use Rattle.ca_base.specs.Readiness.{IsReady, StaysReady};
ghost use Rattle.ca_node.specs.Inventory.{IsListed};
ghost use Rattle.ca_node.specs.States.{IsAlone};
ghost use Rattle.ca_node.specs.TreePasses.{tree_of};
ghost use Rattle.ca_rows.specs.Passes.{sizes, known};

use crate::joining::{Attempt, mark_for};
use ca_base::Stop;
use ca_model::Spent;
use ca_node::{Cursor, TreePass, TreeSpace};

/// The two bases under a route, and an attempt to join them.
#[derive(Clone, Copy)]
pub struct Pair {
    pub one: Cursor,
    pub other: Cursor,
    pub attempt: Attempt,
}

/// The rows of both copies that are marked.
#[derive(Clone, Copy)]
pub struct Marked {
    pub one: u32,
    pub other: u32,
}

/// Marks both bases of a pair, one behind the other. Each mark is a turn that passed.
pub(crate) fn mark_both(
    space: &TreeSpace,
    pass: &mut TreePass,
    pair: Pair,
    spent: &mut Spent,
) -> Result<Marked, Stop>
    requires ready { IsReady space.now pass.old }
    requires leaf { (sizes space.now).leaf ≤ 120 }
    requires pair { IsPair (sizes space.now) (tree_of pass.old) pair (shown_on pass.old pair.one.link) (shown_on pass.old pair.other.link) }
    ensures frame { StaysReady space.now pass.old pass.new }
    ensures marked { AreMarkedBoth (sizes space.now) pair (shown_on pass.old pair.one.link) (shown_on pass.old pair.other.link) result (tree_of pass.old)
        (tree_of pass.new) }
    ensures alone { IsAlone (sizes space.now) (tree_of pass.old) → IsListed (tree_of pass.old).inventory (shown_on pass.old pair.one.link)
        → IsThere (tree_of pass.old).inventory (shown_on pass.old pair.other.link) → IsLoneBy 0 (tree_of pass.old) (tree_of pass.new) }
    ensures counted { IsSpentTrying spent.old spent.new (known pass.old) (known pass.new) }
    ensures found { HasFound result (known pass.old) (known pass.new) }
{
    let one = mark_counted(space, pass, pair.one, pair.attempt, spent)?;
    let other = mark_counted(space, pass, pair.other, pair.attempt, spent)?;
    Ok(Marked { one, other })
}

// Marks a base, and counts that as a turn that passed.
fn mark_counted(
    space: &TreeSpace,
    pass: &mut TreePass,
    cursor: Cursor,
    attempt: Attempt,
    spent: &mut Spent,
) -> Result<u32, Stop>
    requires ready { IsReady space.now pass.old }
    requires leaf { (sizes space.now).leaf ≤ 120 }
    requires markable { IsMarkable (sizes space.now) (tree_of pass.old) cursor attempt (shown_on pass.old cursor.link) }
    ensures frame { StaysReady space.now pass.old pass.new }
    ensures marked { HasMarkedOne (sizes space.now) (shown_on pass.old cursor.link) attempt result (tree_of pass.old) (tree_of pass.new) }
    ensures alone { IsAlone (sizes space.now) (tree_of pass.old) → IsThere (tree_of pass.old).inventory (shown_on pass.old cursor.link)
        → IsLoneMark (shown_on pass.old cursor.link) (tree_of pass.old) (tree_of pass.new) }
    ensures counted { IsSpentTrying spent.old spent.new (known pass.old) (known pass.new) }
    ensures found { HasFound result (known pass.old) (known pass.new) }
{
    match mark_for(space, pass, cursor, attempt, spent) {
        Ok(row) => {
            spent.passed = spent.passed.saturating_add(1);
            Ok(row)
        }
        Err(why) => Err(why),
    }
}
