//! Looks from base to base to the left.
ghost use Rattle.std.specs.Prelude.{◌≡◌, ◌+◌, ◌<◌, ◌≤◌, ℕ, min};
ghost use Rattle.ca_node.specs.States.{IsAlone};
ghost use Rattle.ca_node.specs.Told.{IsKnown};
ghost use Rattle.ca_node.specs.TreePasses.{tree_of};
ghost use Rattle.ca_replace.specs.Aside.{HasGoneLeft, HasLookedAside, HasLookedLeft, IsEndOfLooks, IsLeftEnd};
ghost use Rattle.ca_replace.specs.Attempting.{total};
ghost use Rattle.ca_replace.specs.Loading.{LoadsFew};
ghost use Rattle.ca_replace.specs.LoneReads.{GoesLeftAlone};
ghost use Rattle.ca_rows.specs.Passes.{IsReading, KeepsList, known, sizes};

use crate::giving::{add, spent_in_all};
use ca_base::count;
use ca_model::{Code, Spent};
use ca_node::{Cursor, Spot, TreePass, TreeSpace, pass_on, walk};
use ca_range::copy_key;

/// Looks from base to base to the left of a route's key, until one has an object or is the leftmost one. Whether that one has a lower bound, which is `low` then;
/// or nothing, where the budget was spent before.
pub(crate) fn look_left(
    space: &TreeSpace,
    pass: &mut TreePass,
    from: u32,
    budget: u32,
    spent: &mut Spent,
    low: &mut Code,
) -> Option<bool>
    requires reading { IsReading space.now pass.old }
    requires leaf { (sizes space.now).leaf ≤ 120 }
    requires from { IsLeftEnd (sizes space.now) (tree_of pass.old) from }
    requires unspent { total spent.old < budget }
    ensures frame { KeepsList pass.old pass.new }
    ensures looked { HasLookedLeft (sizes space.now) spent.old spent.new (known pass.old) (known pass.new) }
    ensures gone { HasGoneLeft (sizes space.now) from (known pass.old) (known pass.new) }
    ensures ends { IsEndOfLooks budget spent.new result low.new.items (tree_of pass.new) }
    ensures loads { LoadsFew ((sizes space.now).levels + 1) 0 (tree_of pass.new).loads (known pass.old) (known pass.new) }
    ensures alone { IsAlone (sizes space.now) (tree_of pass.old) → IsKnown (sizes space.now) (tree_of pass.old)
        → GoesLeftAlone (sizes space.now) (known pass.old) (known pass.new) }
{
    let mut route = from;
    loop {
        let cursor = look_aside(space, pass, route, spent);
        if spent_in_all(spent) >= budget {
            return None;
        }
        let Some(next) = cursor.low else {
            return Some(false);
        };
        if count(space, pass, cursor.base) > 0 {
            copy_key(space, pass, next, low);
            return Some(true);
        }
        route = next;
    }
}

// Looks at the base that has the keys right below a route's key. That is one turn.
fn look_aside(space: &TreeSpace, pass: &mut TreePass, route: u32, spent: &mut Spent) -> Cursor
    requires reading { IsReading space.now pass.old }
    requires from { IsLeftEnd (sizes space.now) (tree_of pass.old) route }
    ensures frame { KeepsList pass.old pass.new }
    ensures looked { HasLookedAside (sizes space.now) route result (known pass.old) (known pass.new) }
    ensures passed { spent.new.passed ≡ min (spent.old.passed + 1) 4294967295 }
    ensures others { (spent.new.lost ≡ spent.old.lost) × (spent.new.helped ≡ spent.old.helped) }
{
    let mut key = Code::new();
    copy_key(space, pass, route, &mut key);
    let cursor = walk(space, pass, Spot::Below(&key));
    pass_on(space, pass);
    spent.passed = add(spent.passed, 1);
    cursor
}
