//! A base that a pass wrote takes the place of the one that it was shown last.
ghost use Rattle.std.specs.Prelude.{◌≡◌, ◌≢◌, ◌<◌, ◌≤◌, ℕ, List, [], ◌∷◌, length, Err, slice_index};
ghost use Rattle.ca_node.specs.Inventory.{IsListed};
ghost use Rattle.ca_node.specs.Links.{IsIn, AreApart};
ghost use Rattle.ca_node.specs.Notes.{IsBaseNote};
ghost use Rattle.ca_node.specs.Told.{IsUpdate};
ghost use Rattle.ca_node.specs.States.{IsAlone};
ghost use Rattle.ca_base.specs.Counting.{losses, IsSpent, HasCleared, HasFound, HasMet, KeepsMore, PutsBack};
ghost use Rattle.ca_base.specs.Crowded.{FindsCrowded, StaysCrowded};
ghost use Rattle.ca_base.specs.Finding.{IsAtCursor};
ghost use Rattle.ca_base.specs.Putting.{HasRenewed, HasTried, IsNewRow, first_note};
ghost use Rattle.ca_base.specs.declared.stop.Exchange.TheVariants.{Link as IsLink};
ghost use Rattle.ca_base.specs.declared.stop.Stop.TheVariants.{Lost as IsLost};
ghost use Rattle.ca_base.specs.Taking.{AreHeld, AreUnlinked};
ghost use Rattle.ca_rows.specs.Told.{met_of};
ghost use Rattle.ca_rows.specs.Passes.{IsOn, IsStillPass, sizes, known, view};
ghost use Rattle.ca_node.specs.TreePasses.{tree_of};
ghost use Rattle.ca_base.specs.Readiness.{StaysReady};

use crate::spending::lose;
use crate::stop::{Exchange, Stop};
use crate::taking::give_back;
use crate::updating::Putting;
use ca_model::Spent;
use ca_node::{BASE_FORM, Cursor, Intent, OBJECT_FORM, TreePass, TreeSpace, replace_base};

/// What an update does. The code hands it on and never looks at it: a proof names the update by it.
#[derive(Clone, Copy)]
pub enum Deed {
    /// By this call, an object is put at a place of the base, and its row is the last one here.
    Put(Putting, Result<u32, u32>, u32),
    /// The object at a place of the base is taken away.
    Remove(u32),
}

/// The rows of an update: the new base, the rows that it brings, and those that go.
#[derive(Clone, Copy)]
pub(crate) struct Rows<'a> {
    pub(crate) new: u32,
    pub(crate) comes: &'a [u32],
    pub(crate) goes: &'a [u32],
}

/// The word of a new base for a statistic of 0.
pub const STATISTIC: u64 = 1 << 32;

// Carries out the update that `K` names, by one exchange of the link where the base hangs that was shown last: the new base takes the place of
// that one, and what goes by that is retired. Where the exchange is lost, the rows that were written are put back.
pub(crate) fn swap_in<K: Intent>(
    space: &TreeSpace,
    pass: &mut TreePass,
    cursor: Cursor,
    rows: &Rows<'_>,
    _deed: Deed,
    spent: &mut Spent,
) -> Result<(), Stop>
    requires own { IsOn space.now pass.old }
    requires update { IsUpdate (sizes space.now) (known pass.old) rows.now.new K.update }
    requires old_base { IsBaseNote (sizes space.now) K.update.old }
    requires last { first_note (tree_of pass.old).notes ≡ K.update.old }
    requires cursor { IsAtCursor (sizes space.now) K.update.old cursor }
    requires rows { (K.update.comes ≡ rows.now.comes.now) × (K.update.goes ≡ rows.now.goes.now) }
    requires apart { AreApart (rows.now.new ∷ rows.now.comes.now) × AreApart rows.now.goes.now }
    requires held { AreHeld (sizes space.now).rows pass.old.kept.rows (view pass.old) (rows.now.new ∷ rows.now.comes.now) }
    requires few { (length rows.now.comes.now ≤ 1) × (length rows.now.goes.now ≤ 1) }
    ensures frame { StaysReady space.now pass.old pass.new }
    ensures done { HasTried K.update.event (sizes space.now) result (tree_of pass.old) (tree_of pass.new) }
    ensures won { IsAlone (sizes space.now) (tree_of pass.old) → IsListed (tree_of pass.old).inventory K.update.old → result ≢ Err (IsLost IsLink) }
    ensures renewed { HasRenewed (sizes space.now) (met_of (known pass.new)) (slice_index K.update.its 1) K.update.edit result (tree_of pass.old)
        (tree_of pass.new) }
    ensures placed { IsNewRow rows.now.new result (tree_of pass.new) }
    ensures counted { IsSpent spent.old spent.new (known pass.old) (known pass.new) }
    ensures found { HasFound result (known pass.old) (known pass.new) }
    ensures crowded { FindsCrowded result (known pass.old) (known pass.new) }
    ensures back { HasCleared [] cursor.base rows.now.goes.now result (known pass.old) (known pass.new) pass.old.kept pass.new.kept }
{
    let base = cursor.base;
    if !replace_base::<K>(space, pass, cursor.link, base, rows.new) {
        lose(spent);
        give_back(space, pass, rows.new, BASE_FORM, spent);
        give_back_all(space, pass, rows.comes, OBJECT_FORM, spent);
        return Err(Stop::Lost(Exchange::Link));
    }
    retire_unlinked(space, pass, base, BASE_FORM);
    retire_all(space, pass, rows.goes, OBJECT_FORM);
    Ok(())
}

// Puts rows back that the pass holds. Those that are lost are kept, as rows of this form.
pub(crate) fn give_back_all(
    space: &TreeSpace,
    pass: &mut TreePass,
    rows: &[u32],
    form: u32,
    spent: &mut Spent,
)
    requires own { IsOn space.now pass.old }
    requires apart { AreApart rows.now }
    requires held { AreHeld (sizes space.now).rows pass.old.kept.rows (view pass.old) rows.now }
    ensures frame { IsStillPass pass.old pass.new }
    ensures none { AreHeld (sizes space.now).rows pass.new.kept.rows (view pass.new) [] }
    ensures counted { IsSpent spent.old spent.new (known pass.old) (known pass.new) }
    ensures met { HasMet 0 0 (known pass.old) (known pass.new) }
    ensures crowded { StaysCrowded (known pass.old) (known pass.new) }
    ensures back { PutsBack [] 0 (known pass.old) (known pass.new) pass.old.kept pass.new.kept }
{
    for at in 0..rows.len() {
        give_back(space, pass, rows[at], form, spent);
    }
}

// Retires rows of this form that the pass unlinked.
fn retire_all(space: &TreeSpace, pass: &mut TreePass, rows: &[u32], form: u32)
    requires own { IsOn space.now pass.old }
    requires apart { AreApart rows.now }
    requires unlinked { AreUnlinked (sizes space.now).rows pass.old.kept.rows (view pass.old) rows.now }
    ensures frame { IsStillPass pass.old pass.new }
    ensures none { AreHeld (sizes space.now).rows pass.new.kept.rows (view pass.new) [] }
    ensures met { (losses (known pass.new) ≡ losses (known pass.old)) × HasMet 0 0 (known pass.old) (known pass.new) }
    ensures kept { KeepsMore form rows.now pass.old.kept.rows.items pass.new.kept.rows.items }
{
    for at in 0..rows.len() {
        retire_unlinked(space, pass, rows[at], form);
    }
}

/// Retires a row of this form that the pass unlinked.
pub fn retire_unlinked(space: &TreeSpace, pass: &mut TreePass, row: u32, form: u32)
    requires own { IsOn space.now pass.old }
    requires unlinked { (rest : List ℕ) × (¬ IsIn row rest) × AreUnlinked (sizes space.now).rows pass.old.kept.rows (view pass.old) (row ∷ rest) }
    ensures frame { IsStillPass pass.old pass.new }
    ensures retired { (rest : List ℕ) → ¬ IsIn row rest → AreUnlinked (sizes space.now).rows pass.old.kept.rows (view pass.old) (row ∷ rest)
        → AreUnlinked (sizes space.now).rows pass.new.kept.rows (view pass.new) rest }
    ensures met { (losses (known pass.new) ≡ losses (known pass.old)) × HasMet 0 0 (known pass.old) (known pass.new) }
    ensures kept { KeepsMore form (row ∷ []) pass.old.kept.rows.items pass.new.kept.rows.items }
{
    space.retire(pass, row, form);
}
