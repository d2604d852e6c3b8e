//! Objects are counted of which there may be enough.
ghost use Rattle.std.specs.Prelude.{◌≡◌, ◌+◌, ◌<◌, ◌≤◌, ℕ, length, map, max, slice_range};
ghost use Rattle.ca_base.specs.Finding.{IsReadable};
ghost use Rattle.ca_model.specs.Edges.{objects_of};
ghost use Rattle.ca_model.specs.Function.{MayBeAskedForAll};
ghost use Rattle.ca_model.specs.Runs.{HasCounted};
ghost use Rattle.ca_node.specs.Row.{pair};
ghost use Rattle.ca_node.specs.TreePasses.{tree_of};
ghost use Rattle.ca_node.specs.TreeView.{Note};
ghost use Rattle.ca_range.specs.Counted.{IsCountOf};
ghost use Rattle.ca_rows.specs.Passes.{IsReading, OnlyReads, sizes};

use crate::sought::Sought;
use ca_base::{copy_object, item};
use ca_model::Code;
use ca_node::{TreePass, TreeSpace};

/// The objects of a base from one place on, before another one.
#[derive(Clone, Copy)]
pub(crate) struct Part {
    pub(crate) base: u32,
    pub(crate) from: u32,
    pub(crate) end: u32,
}

/// Counts the objects of a part of a base that the pass was shown on which the function answers true, up to as many as are wanted, together with those that
/// were counted before.
pub(crate) fn count_in<F: Fn(&[u8]) -> bool>(
    space: &TreeSpace,
    pass: &mut TreePass,
    part: Part,
    sought: &Sought<'_, F>,
    counted: u32,
) -> u32
    requires reading { IsReading space.now pass.old }
    requires readable { (note : Note) × IsReadable (sizes space.now) (tree_of pass.old) part.base note }
    requires inside { (note : Note) → IsReadable (sizes space.now) (tree_of pass.old) part.base note → part.end ≤ length note.objects }
    requires function { MayBeAskedForAll F.Fn sought.now.counts.now (sizes space.now).keypos }
    ensures frame { OnlyReads pass.old pass.new }
    ensures most { result ≤ max counted sought.now.want }
    ensures counted { (note : Note) → IsReadable (sizes space.now) (tree_of pass.old) part.base note
        → (n : ℕ) × (result ≡ counted + n) × HasCounted F.Fn sought.now.counts.now n (objects_of (slice_range (map pair note.objects) part.from part.end)) }
    ensures all { result < sought.now.want → (note : Note) → IsReadable (sizes space.now) (tree_of pass.old) part.base note
        → (n : ℕ) × (result ≡ counted + n) × IsCountOf F.Fn sought.now.counts.now n (objects_of (slice_range (map pair note.objects) part.from part.end)) }
{
    let mut counted = counted;
    let mut object = Code::new();
    for place in part.from..part.end {
        if counted >= sought.want {
            return counted;
        }
        let row = item(space, pass, part.base, place);
        copy_object(space, pass, row, &mut object);
        if (sought.counts)(&object) {
            counted += 1;
        }
    }
    counted
}
