//! Reads of one key.
ghost use Rattle.std.specs.Prelude.{◌≡◌, ◌<◌, [], length, slice_index_or, true, false};
ghost use Rattle.ca_node.specs.Row.{object};
ghost use Rattle.ca_node.specs.States.{IsUnanswered};
ghost use Rattle.ca_node.specs.Told.{IsEntered};
ghost use Rattle.ca_node.specs.TreeView.{Note};
ghost use Rattle.ca_base.specs.Finding.{HasPlace, IsReadable};
ghost use Rattle.ca_replace.specs.Attempting.{IsLooking};
ghost use Rattle.ca_replace.specs.Reads.{get_event};
ghost use Rattle.ca_rows.specs.Passes.{OnlyReads, IsReading, KeepsList, sizes, known};
ghost use Rattle.ca_node.specs.TreePasses.{tree_of};

use crate::ending::{Read, enter};
use ca_base::{copy_object, item, search};
use ca_model::Code;
use ca_node::{Cursor, TreePass, TreeSpace};

// Whether the base under the cursor, which the pass was shown last, has an object with this key; then `into` is the object, else it is empty. The
// base has what a state since the pin has of the keys that are led there, and this key is one of them. The call is entered in the log.
pub(crate) fn look_up(
    space: &TreeSpace,
    pass: &mut TreePass,
    cursor: Cursor,
    key: &[u8],
    into: &mut Code,
) -> bool
    requires reading { IsReading space.now pass.old }
    requires looking { IsLooking (sizes space.now) (tree_of pass.old) key.now cursor }
    requires unanswered { IsUnanswered (tree_of pass.old) }
    ensures frame { KeepsList pass.old pass.new }
    ensures entered { IsEntered (get_event key.now result into.new.items) (known pass.old) (known pass.new) }
    ensures emptied { result ≡ false → into.new.items ≡ [] }
{
    let base = cursor.base;
    let Ok(place) = search(space, pass, base, key) else {
        into.clear();
        enter(space, pass, base, Read::GotNothing(key));
        return false;
    };
    copy_at(space, pass, base, place, into);
    enter(space, pass, base, Read::Got(key, into.as_slice()));
    true
}

// Copies the object that a base which the pass was shown has at this place.
pub(crate) fn copy_at(
    space: &TreeSpace,
    pass: &mut TreePass,
    base: u32,
    place: u32,
    into: &mut Code,
)
    requires reading { IsReading space.now pass.old }
    requires readable { HasPlace (sizes space.now) (tree_of pass.old) base place }
    ensures frame { OnlyReads pass.old pass.new }
    ensures object { (note : Note) → IsReadable (sizes space.now) (tree_of pass.old) base note → place < length note.objects
        → into.new.items ≡ object (slice_index_or note.objects place []) }
{
    let row = item(space, pass, base, place);
    copy_object(space, pass, row, into);
}
