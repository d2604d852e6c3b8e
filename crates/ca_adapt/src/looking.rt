//! The sibling of a base is looked for, which is what hangs on the other link of its route.
ghost use Rattle.std.specs.Prelude.{◌≡◌, ◌≢◌, ◌↔◌, ◌+◌, ◌*◌, ◌/◌, ◌%◌, ◌<◌, ◌≤◌, ℕ, IsTrue};
ghost use Rattle.ca_adapt.specs.Finishing.{IsHungBy};
ghost use Rattle.ca_adapt.specs.Trying.{HasLookedFor, HasSeenBase, IsForkAt, IsFoundInUse, IsHungUnder, IsJoinSteps, OnlyLooks, other_link, route_of};
ghost use Rattle.ca_base.specs.Finding.{IsBaseShown};
ghost use Rattle.ca_node.specs.Told.{IsAnyLink, link_word, status_of};
ghost use Rattle.ca_node.specs.Layout.{sequence_unit};
ghost use Rattle.ca_node.specs.declared.link.Link.TheVariants.{Root as IsRoot};
ghost use Rattle.ca_node.specs.TreePasses.{tree_of};
ghost use Rattle.ca_node.specs.TreeView.{Note, TreeView};
ghost use Rattle.ca_rows.specs.Layout.{row_limit, row_words};
ghost use Rattle.ca_rows.specs.declared.sizes.Sizes.{Sizes};
ghost use Rattle.ca_rows.specs.Passes.{OnlyReads, IsReading, KeepsList, sizes, known};

use crate::adapted::Why;
use ca_base::items_of;
use ca_node::{
    COUNT_LIMIT, Cursor, FORM, Link, MARKED_BY_RANGE, ROUTE, TreePass, TreeSpace, is_active,
    load_link, load_status, load_word,
};

/// A route on whose link a base hangs: its row, the link on which it hangs itself, and its other link.
#[derive(Clone, Copy)]
pub struct Fork {
    pub route: u32,
    pub above: Link,
    pub other: Link,
}

/// The route on whose link the base under the cursor hangs, or none where that is the root link.
pub fn fork_at(cursor: Cursor) -> Option<Fork>
    ensures { (z : Sizes) (u : TreeView) → IsHungUnder z u cursor.link cursor.above → IsForkAt z u cursor.link result }
{
    let (route, other) = match cursor.link {
        Link::Root => return None,
        Link::Left(route) => (route, Link::Right(route)),
        Link::Right(route) => (route, Link::Left(route)),
    };
    let Some(above) = cursor.above else {
        return None;
    };
    Some(Fork {
        route,
        above,
        other,
    })
}

/// Looks for the sibling of a base that the pass was shown: the base on the other link of its route. It answers why they can't be joined: `SiblingRoute` where
/// a route hangs there, `TooMany` where both together have more than so many objects, `Taken` where a range has the sibling.
pub fn look_aside(
    space: &TreeSpace,
    pass: &mut TreePass,
    cursor: Cursor,
    fork: Fork,
    leaf: u32,
) -> Result<u32, Why>
    requires reading { IsReading space.now pass.old }
    requires leaf { (leaf ≡ (sizes space.now).leaf) × (leaf ≤ 120) }
    requires shown { (note : Note) × IsBaseShown (sizes space.now) (tree_of pass.old) cursor.base note }
    requires fork { (cursor.link ≢ IsRoot) × (fork.other ≡ other_link cursor.link) × IsHungBy (sizes space.now) (tree_of pass.old) fork.route fork.above
        × (fork.route ≡ route_of cursor.link) }
    ensures frame { KeepsList pass.old pass.new }
    ensures steps { IsJoinSteps (sizes space.now) (tree_of pass.old) (tree_of pass.new) }
    ensures looks { OnlyLooks (known pass.old) (known pass.new) }
    ensures looked { (note : Note) → IsBaseShown (sizes space.now) (tree_of pass.old) cursor.base note
        → HasLookedFor (sizes space.now) cursor.link note result (known pass.old) (known pass.new) }
{
    let Some(sibling) = load_base(space, pass, fork.other) else {
        return Err(Why::SiblingRoute);
    };
    let many = items_of(space, pass, cursor.base);
    if many + items_of(space, pass, sibling) > leaf {
        return Err(Why::TooMany);
    }
    if is_in_range(space, pass, sibling) {
        return Err(Why::Taken);
    }
    Ok(sibling)
}

// The base that a link names, which is loaded, if it names one.
fn load_base(space: &TreeSpace, pass: &mut TreePass, link: Link) -> Option<u32>
    requires reading { IsReading space.now pass.old }
    requires rows { 0 < (sizes space.now).rows }
    requires inside { link_word link < row_words * (sizes space.now).rows + row_words }
    requires known { IsAnyLink (tree_of pass.old) (link_word link) }
    ensures frame { KeepsList pass.old pass.new }
    ensures seen { HasSeenBase (link_word link) result (known pass.old) (known pass.new) }
{
    let row = load_link(space, pass, link);
    let word = load_word(space, pass, row, 0);
    if word / FORM == ROUTE / FORM {
        None
    } else {
        Some(row)
    }
}

/// The level of a base that the pass was shown.
pub fn base_level(space: &TreeSpace, pass: &mut TreePass, base: u32) -> u16
    requires reading { IsReading space.now pass.old }
    requires shown { (note : Note) × IsBaseShown (sizes space.now) (tree_of pass.old) base note }
    ensures frame { OnlyReads pass.old pass.new }
    ensures level { (note : Note) → IsBaseShown (sizes space.now) (tree_of pass.old) base note → result ≡ note.place.level }
{
    (load_word(space, pass, base, 0) / COUNT_LIMIT % COUNT_LIMIT) as u16
}

// Whether a range has a base that the pass was shown: one marked it, and isn't over.
fn is_in_range(space: &TreeSpace, pass: &mut TreePass, base: u32) -> bool
    requires reading { IsReading space.now pass.old }
    requires shown { (note : Note) × IsBaseShown (sizes space.now) (tree_of pass.old) base note }
    ensures frame { KeepsList pass.old pass.new }
    ensures found { (note : Note) → IsBaseShown (sizes space.now) (tree_of pass.old) base note → IsFoundInUse result note (known pass.old) (known pass.new) }
{
    if load_word(space, pass, base, 2) != MARKED_BY_RANGE {
        return false;
    }
    let owner = load_word(space, pass, base, 3) as u32;
    let number = load_word(space, pass, base, 4);
    is_active(load_status(space, pass, owner), number)
}
