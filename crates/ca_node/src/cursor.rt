//! Walks down to a base, from the root or from a link.
ghost use Rattle.std.specs.Prelude.{◌≡◌, ◌+◌, ◌≤◌, ℕ, List, true};
ghost use Rattle.ca_node.specs.Row.{route_key};
ghost use Rattle.ca_node.specs.Told.{MyTree};
ghost use Rattle.ca_node.specs.Place.{Span};
ghost use Rattle.ca_node.specs.Walking.{IsBegin, IsSought, HasFront, IsWalked, IsAtRoute, IsWalking, IsRouteShown, IsSide};
ghost use Rattle.ca_rows.specs.Passes.{OnlyReads, IsReading, KeepsList, sizes, known, view};
ghost use Rattle.ca_node.specs.TreePasses.{tree_of};

use crate::comparing::{compare, top_of};
use crate::layout::{COUNT_LIMIT, FORM, ROUTE};
use crate::link::Link;
use crate::rule::{TreePass, TreeSpace};
use crate::steps::{descend, load_word};

/// Which base is looked for.
#[derive(Clone, Copy)]
pub enum Spot<'a> {
    /// The first one.
    First,
    /// The one that has this key.
    At(&'a [u8]),
    /// The one that has the keys right below this one.
    Below(&'a [u8]),
    /// The last one.
    Last,
}

/// A base, and where it hangs.
#[derive(Clone, Copy)]
pub struct Cursor {
    /// The base's row.
    pub base: u32,
    /// The link that held the base.
    pub link: Link,
    /// The link that held the base's parent, if it has one.
    pub above: Option<Link>,
    /// The level that the base stands at.
    pub level: u16,
    /// The rows of the routes whose keys bound the base's interval: it goes from the key of `low` on, and up to right below that of `high`. There is none where
    /// it begins with the first key, or goes to the last one.
    pub low: Option<u32>,
    pub high: Option<u32>,
}

/// Walks to the base that is looked for, from the root link down: at a route, a key below its key goes left, any other one right, and where the
/// keys right below one are looked for, that one goes left at its own key, too. It loads at most one link more than there are levels.
// It is inlined with all that it calls, since each caller knows whether it looks for a key: so a step down is half as many instructions.
#[inline(always)]
pub fn walk(space: &TreeSpace, pass: &mut TreePass, spot: Spot<'_>) -> Cursor
    requires reading { IsReading space.now pass.old }
    ensures frame { KeepsList pass.old pass.new }
    ensures walked { IsWalked (sizes space.now) spot.entry (known pass.old) result (known pass.new) }
{
    let root = Cursor {
        base: 0,
        link: Link::Root,
        above: None,
        level: 0,
        low: None,
        high: None,
    };
    walk_from(space, pass, root, spot)
}

/// The same from the link of this cursor down, to which what is looked for is led: it is the root link, or one of a route that is remembered.
/// The link is loaded anew, whichever base the cursor is at.
#[inline(always)]
pub fn walk_from(space: &TreeSpace, pass: &mut TreePass, from: Cursor, spot: Spot<'_>) -> Cursor
    requires reading { IsReading space.now pass.old }
    requires begins { (span : Span) × IsBegin (sizes space.now) (tree_of pass.old) span from × IsSought spot span }
    ensures frame { KeepsList pass.old pass.new }
    ensures walked { IsWalked (sizes space.now) spot.entry (known pass.old) result (known pass.new) }
{
    let front = front_of(spot);
    let base = descend(space, pass, from.link);
    let mut cursor = Cursor { base, ..from };
    loop {
        let word = load_word(space, pass, cursor.base, 0);
        if word / FORM != ROUTE / FORM {
            let level = (word / COUNT_LIMIT % COUNT_LIMIT) as u16;
            return Cursor { level, ..cursor };
        }
        cursor = go_down(space, pass, cursor, spot, front);
    }
}

// The first eight bytes of the key that tells which base is looked for, as a word, if there is one.
#[inline(always)]
fn front_of(spot: Spot<'_>) -> u64
    ensures { HasFront spot.entry result }
{
    match spot {
        Spot::First => 0,
        Spot::At(key) => top_of(key),
        Spot::Below(key) => top_of(key),
        Spot::Last => 0,
    }
}

// One step down, from a route to the row that one of its links names.
#[inline(always)]
fn go_down(
    space: &TreeSpace,
    pass: &mut TreePass,
    cursor: Cursor,
    spot: Spot<'_>,
    front: u64,
) -> Cursor
    requires reading { IsReading space.now pass.old }
    requires front { HasFront spot front }
    requires at { (m : MyTree) × IsAtRoute (sizes space.now) spot m cursor (known pass.old) }
    ensures frame { KeepsList pass.old pass.new }
    ensures pinned { (view pass.new).pin ≡ (view pass.old).pin }
    ensures sizes { (view pass.new).sizes ≡ (view pass.old).sizes }
    ensures loads { (tree_of pass.new).loads ≡ (tree_of pass.old).loads + 1 }
    ensures walking { (m : MyTree) → IsAtRoute (sizes space.now) spot.entry m cursor (known pass.old)
        → IsWalking (sizes space.now) spot.entry m result (known pass.new) }
{
    let route = cursor.base;
    let above = Some(cursor.link);
    if goes_left(space, pass, route, spot, front) {
        Cursor {
            base: descend(space, pass, Link::Left(route)),
            link: Link::Left(route),
            above,
            high: Some(route),
            ..cursor
        }
    } else {
        Cursor {
            base: descend(space, pass, Link::Right(route)),
            link: Link::Right(route),
            above,
            low: Some(route),
            ..cursor
        }
    }
}

// Whether what is looked for is left of a route's key.
#[inline(always)]
fn goes_left(space: &TreeSpace, pass: &mut TreePass, route: u32, spot: Spot<'_>, front: u64) -> bool
    requires reading { IsReading space.now pass.old }
    requires front { HasFront spot front }
    requires inside { route ≤ (sizes space.now).rows }
    requires shown { (its : List ℕ) × IsRouteShown (tree_of pass.old) route its }
    ensures frame { OnlyReads pass.old pass.new }
    ensures side { (its : List ℕ) → IsRouteShown (tree_of pass.old) route its → IsSide result spot.entry (route_key its) }
{
    match spot {
        Spot::First => true,
        Spot::At(key) => compare(space, pass, route, key, front).is_gt(),
        Spot::Below(key) => compare(space, pass, route, key, front).is_ge(),
        Spot::Last => false,
    }
}
