//! Which range has the next base of the pass's own range.
ghost use Rattle.std.specs.Prelude.{◌≡◌, ◌≤◌, []};
ghost use Rattle.ca_base.specs.Readiness.{IsReady};
ghost use Rattle.ca_node.specs.LoneStays.{HasNone};
ghost use Rattle.ca_node.specs.States.{IsAlone};
ghost use Rattle.ca_node.specs.Told.{IsKnown};
ghost use Rattle.ca_node.specs.TreePasses.{tree_of};
ghost use Rattle.ca_range.specs.Ahead.{IsAtLast};
ghost use Rattle.ca_range.specs.Lonely.{IsUsedAlone, LearnsAlone};
ghost use Rattle.ca_range.specs.Meeting.{AreMet};
ghost use Rattle.ca_base.specs.Spending.{IsSpentOn};
ghost use Rattle.ca_range.specs.Using.{IsUsedBy};
ghost use Rattle.ca_rows.specs.Passes.{sizes, known};

use crate::account::{Account, Range};
use crate::helped::Helped;
use crate::joins::{JoinEnd, end_join};
use crate::marks::range_of;
use crate::watching::watch;
use ca_node::{Cursor, TreePass, TreeSpace, is_active};

/// Which range has a base.
#[derive(Clone, Copy)]
pub(crate) enum Use {
    /// None.
    Free,
    /// The pass's own.
    Own,
    /// This one of another pass, which isn't over.
    Other(Range),
    /// An attempt to join had it, which was secured, and was to be carried out: what became of that.
    Gone(Helped),
}

/// Looks which range marked the base that the pass was shown last, and whether that one is over. The pass may have a range of its own. An attempt to join that
/// marked the base is given up where it is prepared, and carried out where it is secured.
pub(crate) fn use_of(
    space: &TreeSpace,
    pass: &mut TreePass,
    cursor: Cursor,
    account: &mut Account,
) -> Use
    requires ready { IsReady space.now pass.old }
    requires number { pass.old.number ≡ (tree_of pass.old).number }
    requires met { AreMet account.old.met.numbers (tree_of pass.old).ranges.unfinished }
    requires leaf { (sizes space.now).leaf ≤ 120 }
    requires at { IsAtLast (sizes space.now) (tree_of pass.old) cursor }
    requires other { HasNone (tree_of pass.old).ranges.own }
    ensures met { AreMet account.new.met.numbers (tree_of pass.new).ranges.unfinished }
    ensures used { IsUsedBy space.now cursor.base result pass.old pass.new }
    ensures counted { IsSpentOn account.old.spent account.new.spent (known pass.old) (known pass.new) }
    ensures alone { IsAlone (sizes space.now) (tree_of pass.old) → IsKnown (sizes space.now) (tree_of pass.old) → (tree_of pass.old).ranges.unfinished ≡ []
        → IsUsedAlone result × LearnsAlone (tree_of pass.old) (tree_of pass.new) }
{
    let Some(range) = range_of(space, pass, cursor.base) else {
        return match end_join(space, pass, cursor, &mut account.spent) {
            JoinEnd::Unmarked => Use::Free,
            JoinEnd::Before => Use::Free,
            JoinEnd::Now => Use::Free,
            JoinEnd::Gone(helped) => Use::Gone(helped),
        };
    };
    let state = watch(space, pass, range.owner, account);
    if !is_active(state, range.number) {
        return Use::Free;
    }
    if range.owner == pass.number() {
        Use::Own
    } else {
        Use::Other(range)
    }
}
