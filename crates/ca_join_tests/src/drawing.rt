//! A tree is drawn before and behind joins, as in docs/ARCHITECTURE.md.
ghost use Rattle.std.specs.Prelude.{◌≡◌, false};
ghost use Rattle.ca_rows.specs.Calls.{IsOf, IsNumbered};

use crate::calls::{keys_in, put_all, remove_all};
use crate::trees::{ZERO, tree_of, tuning_of};
use ca_node::{Spot, TreePass, TreeSpace, walk};
use ca_replace::TreeStore;
use std::alloc::Global;
use std::fmt::Write;

// A line for each base, with its keys, and one for each route, with its key, further right by each level: turned to the left, it is the tree. On the left it
// is before the joins, and on the right behind them.
const DRAWING: &str =
    "        base 1\n    route 2\n        base 2 3                    base 1 2\nroute 4                         route 4\n        base 4 5                    base 4 6\n    route 6\n        base 6 7\n";

/// The bases to which the keys from 1 to 7 are led, and their levels.
pub(crate) fn places(space: &TreeSpace, pass: &mut TreePass) -> [(u32, u16); 7]
    requires own { IsOf space.now.table.shared.table_id space.now.table.shared.key pass.old.seat }
    requires number { IsNumbered pass.old.number pass.old.seat.me.0.pin }
    requires unpinned { pass.old.seat.me.0.pin.pinned ≡ false }
    ensures own { IsOf space.now.table.shared.table_id space.now.table.shared.key pass.new.seat }
    ensures number { IsNumbered pass.new.number pass.new.seat.me.0.pin }
    ensures unpinned { pass.new.seat.me.0.pin.pinned ≡ false }
{
    let mut places = [(0, 0); 7];
    space.pin(pass);
    for n in 0..7_u8 {
        let cursor = walk(space, pass, Spot::At(&[0x24, 1, 0, 0, n + 1]));
        places[n as usize] = (cursor.base, cursor.level);
    }
    space.unpin(pass);
    places
}

fn indent(level: u16, into: &mut String) -> Option<()> {
    for _ in 0..level {
        write!(into, "    ").ok()?;
    }
    Some(())
}

// Draws the tree whose bases these are, in their order, with those of the keys that are there. Between two bases stands the route that parts them: a route for
// each level above a base is passed on the way to the left, and the last one of them is next.
fn draw(alloc: Global, places: &[(u32, u16)], keys: u8) -> Option<String> {
    let mut into = String::new(alloc);
    let mut routes = Vec::new(alloc);
    let mut open = 0;
    let mut last = 0;
    let mut key = 0_u8;
    for (base, level) in places {
        key = key.wrapping_add(1);
        if *base != last {
            if last != 0 {
                let route = routes.pop()?;
                write!(into, "\n").ok()?;
                indent(route, &mut into)?;
                write!(into, "route {key}\n").ok()?;
                open = route.saturating_add(1);
            }
            for route in open..*level {
                routes.push(route).ok()?;
            }
            indent(*level, &mut into)?;
            write!(into, "base").ok()?;
            last = *base;
        }
        if keys >> (key % 8) & 1 == 1 {
            write!(into, " {key}").ok()?;
        }
    }
    write!(into, "\n").ok()?;
    Some(into)
}

// Both drawings beside each other, the second one in the middle.
fn beside(alloc: Global, left: &str, right: &str) -> Option<String> {
    let mut into = String::new(alloc);
    let above = left.lines().count().saturating_sub(right.lines().count()) / 2;
    let mut number = 0_usize;
    let mut others = right.lines();
    for line in left.lines() {
        number = number.wrapping_add(1);
        let other = if number > above {
            others.next().unwrap_or("")
        } else {
            ""
        };
        if other.is_empty() {
            write!(into, "{line}\n").ok()?;
        } else {
            write!(into, "{line:<32}{other}\n").ok()?;
        }
    }
    Some(into)
}

// A new tree before and behind joins, and how many bases were split and joined.
fn drawn(alloc: Global) -> Option<(String, (u64, u64))> {
    let Ok(mut tree) = tree_of(alloc, 384, 2, tuning_of((2, 8, 250, -600)), ZERO) else {
        return None;
    };
    let Ok(one) = tree.enroll(alloc) else {
        return None;
    };
    let Ok(mut other) = tree.enroll(alloc) else {
        return None;
    };
    let mut store = TreeStore::new(&tree, one);
    if !put_all(&mut store, &[2, 4, 6, 1, 3, 5, 7], 9) {
        return None;
    }
    let before = draw(
        alloc,
        &places(tree.space(), &mut other),
        keys_in(&mut store),
    )?;
    if !remove_all(&mut store, &[5, 7, 3]) {
        return None;
    }
    let behind = draw(
        alloc,
        &places(tree.space(), &mut other),
        keys_in(&mut store),
    )?;
    let drawing = beside(alloc, before.as_str(), behind.as_str())?;
    Some((drawing, store.adapted()))
}

#[test]
fn a_tree_is_drawn_before_and_behind_joins(rt: HostRuntime) {
    let Some((drawing, adapted)) = drawn(rt.alloc()) else {
        panic!(rt; "no drawing")
    };
    assert_eq!(rt; drawing.as_str(), DRAWING);
    assert_eq!(rt; adapted, (3, 2));
}
