//! An object is put into a base.
ghost use Rattle.std.specs.Prelude.{◌≡◌, ◌≢◌, ℕ, List, [], ◌∷◌, map, Err};
ghost use Rattle.ca_model.specs.Places.{IsPlace};
ghost use Rattle.ca_node.specs.Inventory.{IsListed};
ghost use Rattle.ca_node.specs.Layout.{base_form, object_form};
ghost use Rattle.ca_node.specs.Place.{HasKey};
ghost use Rattle.ca_node.specs.Row.{pair};
ghost use Rattle.ca_node.specs.States.{IsAlone};
ghost use Rattle.ca_base.specs.Counting.{IsSpent, HasCleared, HasFound};
ghost use Rattle.ca_base.specs.Crowded.{FindsCrowded};
ghost use Rattle.ca_base.specs.Putting.{gone as gone_at, IsItemAt, IsNewRow, IsRoom, IsFor, HasRenewed, HasTried, last_items};
ghost use Rattle.ca_base.specs.Targets.{IsKeyed, IsTarget, edit_of, event_of, key_in};
ghost use Rattle.ca_rows.specs.Told.{met_of};
ghost use Rattle.ca_base.specs.declared.stop.Exchange.TheVariants.{Link as IsLink};
ghost use Rattle.ca_base.specs.declared.stop.Stop.TheVariants.{Lost as IsLost};
ghost use Rattle.ca_base.specs.Taking.{TakesForBase};
ghost use Rattle.ca_rows.specs.Passes.{sizes, known, view};
ghost use Rattle.ca_node.specs.TreePasses.{tree_of};
ghost use Rattle.ca_base.specs.Readiness.{IsReady, StaysReady, shown_last};

use crate::copying::{Placing, write_base_with};
use crate::stop::Stop;
use crate::swapping::{Deed, Rows, swap_in};
use crate::taking::take_two;
use crate::target::{Insertion, Target};
use crate::writing::write_object;
use ca_model::Spent;
use ca_node::{BASE_FORM, OBJECT_FORM, TreePass, TreeSpace};
use std::marker::Brand;
use std::slice::from_ref;

/// Which call puts an object.
#[derive(Clone, Copy)]
pub enum Putting {
    /// It puts the object, whether there is one with its key or not.
    Put,
    /// It puts the object where there is none with its key.
    PutNew,
    /// It puts an object in the place of one with its key.
    Change,
}

/// Puts an object into the base that was shown last, at its key's place, by one exchange of the link where that base hangs; this enters the call in
/// the log. The key is one of those that are led there. `placed` is the new base's row then.
/// A pass that is alone and lists the base loses no exchange of a link.
pub fn put_at(
    space: &TreeSpace,
    pass: &mut TreePass,
    target: &Target,
    insertion: &Insertion<'_>,
    placed: &mut u32,
    spent: &mut Spent,
) -> Result<(), Stop>
    requires ready { IsReady space.now pass.old }
    requires target { IsTarget (sizes space.now) (tree_of pass.old) target.now.cursor target.now.many }
    requires room { IsRoom insertion.now.place target.now.many (sizes space.now).leaf }
    requires keyed { IsKeyed (sizes space.now).keypos insertion.now.keyed }
    requires place { IsPlace (map pair (shown_last pass.old).objects) (key_in insertion.now.keyed) insertion.now.place }
    requires about { HasKey (shown_last pass.old).place.span (key_in insertion.now.keyed) }
    requires call { IsFor insertion.now.why insertion.now.place }
    ensures frame { StaysReady space.now pass.old pass.new }
    ensures put { HasTried (event_of insertion.now (shown_last pass.old).objects) (sizes space.now) result (tree_of pass.old) (tree_of pass.new) }
    ensures won { IsAlone (sizes space.now) (tree_of pass.old) → IsListed (tree_of pass.old).inventory (shown_last pass.old) → result ≢ Err (IsLost IsLink) }
    ensures renewed { HasRenewed (sizes space.now) (met_of (known pass.new)) target.now.statistic (edit_of insertion.now) result (tree_of pass.old)
        (tree_of pass.new) }
    ensures placed { IsNewRow placed.new result (tree_of pass.new) }
    ensures counted { IsSpent spent.old spent.new (known pass.old) (known pass.new) }
    ensures found { HasFound result (known pass.old) (known pass.new) }
    ensures crowded { FindsCrowded result (known pass.old) (known pass.new) }
    ensures again { TakesForBase result placed.new (view pass.old).pin.told pass.old.kept.rows.items }
    ensures back { HasCleared (base_form ∷ object_form ∷ []) target.now.cursor.base (gone_at insertion.now.place (last_items (tree_of pass.old))) result
        (known pass.old) (known pass.new) pass.old.kept pass.new.kept }
{
    // A row that was a base has most of a new one's words already.
    let (new, row) = take_two(space, pass, (BASE_FORM, OBJECT_FORM), spent)?;
    let keyed = insertion.keyed;
    let place = insertion.place;
    write_object(space, pass, row, keyed.object, keyed.key_at, keyed.key_end);
    let placing = Placing {
        place,
        key: &keyed.object[keyed.key_at..keyed.key_end],
        row,
    };
    *placed = new;
    let old = write_base_with(space, pass, new, target, &placing);
    let rows = Rows {
        new,
        comes: &[row],
        goes: gone(&old, place),
    };
    let deed = Deed::Put(insertion.why, place, row);
    swap_in::<Brand>(space, pass, target.cursor, &rows, deed, spent)
}

// The item, where it is the one whose place it is.
fn gone(item: &u32, place: Result<u32, u32>) -> &[u32]
    ensures { (these : List ℕ) → IsItemAt place these item.now → result.now ≡ gone_at place these }
{
    match place {
        Ok(_at) => from_ref(item),
        Err(_between) => &[],
    }
}
