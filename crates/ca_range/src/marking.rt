//! A base is marked as the next one of a range.
ghost use Rattle.std.specs.Prelude.{◌≡◌, ◌<◌, ◌≤◌, [], ◌∷◌, vec_len};
ghost use Rattle.ca_base.specs.Counting.{HasFound};
ghost use Rattle.ca_base.specs.Finding.{IsAtCursor, IsBaseShown};
ghost use Rattle.ca_base.specs.Readiness.{IsReady, StaysReady, shown_last};
ghost use Rattle.ca_base.specs.Taking.{AreHeld};
ghost use Rattle.ca_node.specs.Copies.{IsCopy, IsNextCopy};
ghost use Rattle.ca_node.specs.States.{IsAlone};
ghost use Rattle.ca_node.specs.Told.{IsSettled};
ghost use Rattle.ca_node.specs.TreePasses.{tree_of};
ghost use Rattle.ca_range.specs.Lonely.{IsThere, MarksAlone};
ghost use Rattle.ca_range.specs.Marked.{HasMarked, HasPut, IsNextTo, second_note};
ghost use Rattle.ca_base.specs.Spending.{IsSpentOn};
ghost use Rattle.ca_rows.specs.Passes.{IsOn, sizes, known, view};

use crate::copying::{Mark, write_copy};
use ca_base::{Exchange, Stop, give_back, lose, retire_unlinked, take};
use ca_model::Spent;
use ca_node::{BASE_FORM, Cursor, Marking, TreePass, TreeSpace, mark_next};
use std::marker::Brand;

/// Marks the base that the pass was shown last, which no range has, as the next one behind the base that it was shown before: a copy with this mark takes its
/// place, by one exchange of a link. It answers the copy's row.
pub(crate) fn mark_base(
    space: &TreeSpace,
    pass: &mut TreePass,
    next: Cursor,
    mark: &Mark,
    spent: &mut Spent,
) -> Result<u32, Stop>
    requires ready { IsReady space.now pass.old }
    requires leaf { (sizes space.now).leaf ≤ 120 }
    requires shown { IsBaseShown (sizes space.now) (tree_of pass.old) next.base (shown_last pass.old) }
    requires at { IsAtCursor (sizes space.now) (shown_last pass.old) next }
    requires settled { IsSettled (tree_of pass.old) (shown_last pass.old).its }
    requires next { IsNextTo (tree_of pass.old) mark.now (second_note (tree_of pass.old).notes) (shown_last pass.old) }
    requires owner { (0 < mark.now.range.owner) × (mark.now.range.owner ≤ 64) }
    ensures frame { StaysReady space.now pass.old pass.new }
    ensures marked { HasMarked (sizes space.now) (shown_last pass.old) mark.now result (tree_of pass.old) (tree_of pass.new) }
    ensures counted { IsSpentOn spent.old spent.new (known pass.old) (known pass.new) }
    ensures found { HasFound result (known pass.old) (known pass.new) }
    ensures alone { IsAlone (sizes space.now) (tree_of pass.old) → IsThere (tree_of pass.old) (shown_last pass.old)
        → MarksAlone result (vec_len pass.old.kept.rows) (vec_len pass.new.kept.rows) (known pass.old) (known pass.new) }
{
    let row = take(space, pass, BASE_FORM, spent)?;
    write_copy(space, pass, row, next.base, mark);
    match put_copy::<Brand>(space, pass, next, row, spent) {
        Ok(()) => Ok(row),
        Err(why) => Err(why),
    }
}

// Puts the copy that `K` names in the place of its base, by one exchange of a link. Where that is lost the row is put back.
fn put_copy<K: Marking>(
    space: &TreeSpace,
    pass: &mut TreePass,
    next: Cursor,
    row: u32,
    spent: &mut Spent,
) -> Result<(), Stop>
    requires own { IsOn space.now pass.old }
    requires copy { IsCopy (sizes space.now) (known pass.old) row K.copy }
    requires next { IsNextCopy (known pass.old) K.copy K.left }
    requires at { IsAtCursor (sizes space.now) K.copy.old next }
    requires held { AreHeld (sizes space.now).rows pass.old.kept.rows (view pass.old) (row ∷ []) }
    ensures frame { StaysReady space.now pass.old pass.new }
    ensures done { HasPut K.copy row result (tree_of pass.old) (tree_of pass.new) }
    ensures counted { IsSpentOn spent.old spent.new (known pass.old) (known pass.new) }
    ensures found { HasFound result (known pass.old) (known pass.new) }
    ensures alone { IsAlone (sizes space.now) (tree_of pass.old) → IsThere (tree_of pass.old) K.copy.old → (shown_last pass.old ≡ K.copy.old)
        → MarksAlone result (vec_len pass.old.kept.rows) (vec_len pass.new.kept.rows) (known pass.old) (known pass.new) }
{
    let base = next.base;
    if !mark_next::<K>(space, pass, next.link, base, row) {
        lose(spent);
        give_back(space, pass, row, BASE_FORM, spent);
        return Err(Stop::Lost(Exchange::Link));
    }
    retire_unlinked(space, pass, base, BASE_FORM);
    spent.passed = spent.passed.saturating_add(1);
    Ok(())
}
