//! How many objects fit into a tree.
use crate::draws::shuffled;
use crate::player::{Player, numbers_below};
use crate::trees::{tree_of, tuning_of};
use ca_model::Outcome;
use ca_replace::TreeStore;
use std::alloc::Global;
use std::io;
use std::rt::Clock;
use std::time::Instant;

// How many objects a leaf may have, how many levels the tree may have, and on how many rows it is.
const SHAPES: [(u8, u16, u32); 6] = [
    (60, 64, 4_000),
    (60, 64, 16_000),
    (60, 64, 65_535),
    (24, 64, 65_535),
    (60, 4_096, 65_535),
    (60, 64, 1_000_000),
];

// How many puts of new keys were done before one was refused, and what refused it.
#[derive(Clone, Copy)]
struct Fit {
    objects: u32,
    end: &'static str,
}

// Puts objects of these keys until one is refused.
fn put_until_refused(player: &mut Player<'_>, keys: &[u32]) -> Fit {
    let mut objects = 0_u32;
    for key in keys {
        let end = match player.try_put(*key) {
            Outcome::Done(()) => "",
            Outcome::Busy(_) => "busy",
            Outcome::Full(_) => "full",
            Outcome::Deep(_) => "deep",
            Outcome::Worn(_) => "worn",
        };
        if !end.is_empty() {
            return Fit { objects, end };
        }
        objects = objects.saturating_add(1);
    }
    Fit { objects, end: "" }
}

// Prints a line: how many objects fit into a tree of this shape where their keys come in this order.
fn time_fit<R: Clock + Print + Alloc<A = Global>>(
    rt: &R,
    order: &str,
    keys: &[u32],
    (leaf, levels, rows): (u8, u16, u32),
) -> io::Result<()> {
    let alloc = rt.alloc();
    let before = Instant::now(rt)?;
    let Ok(mut tree) = tree_of(alloc, rows, 1, tuning_of(leaf, levels)) else {
        return println!(rt; "no memory");
    };
    let opening = before.elapsed(rt)?.as_micros();
    let Ok(pass) = tree.enroll(alloc) else {
        return println!(rt; "no memory");
    };
    let mut player = Player::new(TreeStore::new(&tree, pass), numbers_below(rows), 1);
    let start = Instant::now(rt)?;
    let Fit { objects, end } = put_until_refused(&mut player, keys);
    let nanos = start.elapsed(rt)?.as_nanos();
    let rate = u128::from(objects) * 1_000_000 / nanos.max(1);
    println!(rt; "tree,{order},{leaf},{levels},{rows},{objects},{end},{rate},{opening}")
}

/// Prints a line of comma-separated values for each order of keys and shape of a tree: who, the order, how many objects a leaf may have, how many
/// levels the tree may have, how many rows it has, how many objects were put before one was refused, what refused it, how many thousand were put
/// a second, and in how many microseconds the tree was opened.
pub fn time_rows<R: Clock + Print + Alloc<A = Global>>(rt: &R) -> io::Result<()> {
    let alloc = rt.alloc();
    for shape in SHAPES {
        let Ok(mut keys) = shuffled(alloc, shape.2) else {
            return println!(rt; "no memory");
        };
        time_fit(rt, "random", keys.as_slice(), shape)?;
        keys.as_mut_slice().sort_unstable();
        time_fit(rt, "rising", keys.as_slice(), shape)?;
    }
    Ok(())
}
