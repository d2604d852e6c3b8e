//! An object is taken away from a base.
ghost use Rattle.std.specs.Prelude.{◌≢◌, [], ◌∷◌, map, Err, Ok, Some};
ghost use Rattle.ca_model.specs.Places.{IsPlace};
ghost use Rattle.ca_model.specs.Event.{Remove};
ghost use Rattle.ca_model.specs.History.{Del};
ghost use Rattle.ca_model.specs.StoreMap.{IsStoreMap};
ghost use Rattle.ca_node.specs.Inventory.{IsListed};
ghost use Rattle.ca_node.specs.Layout.{base_form};
ghost use Rattle.ca_node.specs.Place.{HasKey};
ghost use Rattle.ca_node.specs.Row.{pair};
ghost use Rattle.ca_node.specs.States.{IsAlone};
ghost use Rattle.ca_base.specs.Counting.{IsSpent, HasCleared, HasFound};
ghost use Rattle.ca_base.specs.Crowded.{FindsCrowded};
ghost use Rattle.ca_base.specs.Targets.{IsTarget};
ghost use Rattle.ca_base.specs.Putting.{gone, last_items, object_at, HasRenewed, IsNewRow, HasTried};
ghost use Rattle.ca_rows.specs.Told.{met_of};
ghost use Rattle.ca_base.specs.declared.stop.Exchange.TheVariants.{Link as IsLink};
ghost use Rattle.ca_base.specs.declared.stop.Stop.TheVariants.{Lost as IsLost};
ghost use Rattle.ca_base.specs.Taking.{TakesForBase};
ghost use Rattle.ca_rows.specs.Passes.{sizes, known, view};
ghost use Rattle.ca_node.specs.TreePasses.{tree_of};
ghost use Rattle.ca_base.specs.Readiness.{IsReady, StaysReady, shown_last};

use crate::copying::write_base_without;
use crate::stop::Stop;
use crate::swapping::{Deed, Rows, swap_in};
use crate::taking::take;
use crate::target::{Removal, Target};
use ca_model::Spent;
use ca_node::{BASE_FORM, TreePass, TreeSpace};
use std::marker::Brand;
use std::slice::from_ref;

/// Takes an object out of the base that was shown last, by one exchange of the link where that base hangs; this enters the call in the log. The key
/// is one of those that are led there. `placed` is the new base's row then. A pass that is alone and lists the base loses no exchange of a link.
pub fn remove_at(
    space: &TreeSpace,
    pass: &mut TreePass,
    target: &Target,
    removal: &Removal<'_>,
    placed: &mut u32,
    spent: &mut Spent,
) -> Result<(), Stop>
    requires ready { IsReady space.now pass.old }
    requires target { IsTarget (sizes space.now) (tree_of pass.old) target.now.cursor target.now.many }
    requires about { HasKey (shown_last pass.old).place.span removal.now.key.now }
    requires ordered { IsStoreMap (sizes space.now).keypos (map pair (shown_last pass.old).objects) }
    requires place { IsPlace (map pair (shown_last pass.old).objects) removal.now.key.now (Ok removal.now.at) }
    ensures frame { StaysReady space.now pass.old pass.new }
    ensures removed { HasTried (Remove removal.now.key.now (Some (object_at (Ok removal.now.at) (shown_last pass.old).objects))) (sizes space.now) result
        (tree_of pass.old) (tree_of pass.new) }
    ensures won { IsAlone (sizes space.now) (tree_of pass.old) → IsListed (tree_of pass.old).inventory (shown_last pass.old) → result ≢ Err (IsLost IsLink) }
    ensures renewed { HasRenewed (sizes space.now) (met_of (known pass.new)) target.now.statistic (Del removal.now.key.now) result (tree_of pass.old)
        (tree_of pass.new) }
    ensures placed { IsNewRow placed.new result (tree_of pass.new) }
    ensures counted { IsSpent spent.old spent.new (known pass.old) (known pass.new) }
    ensures found { HasFound result (known pass.old) (known pass.new) }
    ensures crowded { FindsCrowded result (known pass.old) (known pass.new) }
    ensures again { TakesForBase result placed.new (view pass.old).pin.told pass.old.kept.rows.items }
    ensures back { HasCleared (base_form ∷ []) target.now.cursor.base (gone (Ok removal.now.at) (last_items (tree_of pass.old))) result
        (known pass.old) (known pass.new) pass.old.kept pass.new.kept }
{
    let new = take(space, pass, BASE_FORM, spent)?;
    *placed = new;
    let old = write_base_without(space, pass, new, target, removal.at);
    let rows = Rows {
        new,
        comes: &[],
        goes: from_ref(&old),
    };
    let deed = Deed::Remove(removal.at);
    swap_in::<Brand>(space, pass, target.cursor, &rows, deed, spent)
}
