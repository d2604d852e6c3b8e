//! A tree's words at the start, and its first base.
ghost use Rattle.std.specs.Prelude.{◌≡◌, ◌<◌, ◌≤◌, false};
ghost use Rattle.ca_rows.specs.Calls.{IsOf, IsNumbered};

use crate::trees::ZERO;
use ca_node::{
    RangeState, Spot, TreePass, TreeSpace, load_own_status, load_status, load_word, walk,
};
use ca_rows::Starts;

// The root's base, and its first word.
fn first_word(space: &TreeSpace, pass: &mut TreePass) -> (u32, u64)
    requires own { IsOf space.now.table.shared.table_id space.now.table.shared.key pass.old.seat }
    requires number { IsNumbered pass.old.number pass.old.seat.me.0.pin }
    requires unpinned { pass.old.seat.me.0.pin.pinned ≡ false }
{
    space.pin(pass);
    let cursor = walk(space, pass, Spot::First);
    let word = load_word(space, pass, cursor.base, 0);
    space.unpin(pass);
    (cursor.base, word)
}

#[test]
fn begins_with_one_empty_base(rt: HostRuntime) {
    let Ok(mut space) = TreeSpace::new(rt.alloc(), 384, 1, 1, 120, 0, ZERO) else {
        panic!(rt; "no memory")
    };
    let Ok(mut pass) = space.enroll(rt.alloc()) else {
        panic!(rt; "no pass")
    };
    assert_eq!(rt; first_word(&space, &mut pass), (1, 2 << 56));
}

// The number of the last range of this pass, where none is active and none was decided.
fn idle_number(space: &TreeSpace, pass: &mut TreePass, owner: u32) -> Option<u64>
    requires own { IsOf space.now.table.shared.table_id space.now.table.shared.key pass.old.seat }
    requires number { IsNumbered pass.old.number pass.old.seat.me.0.pin }
    requires unpinned { pass.old.seat.me.0.pin.pinned ≡ false }
    requires owner { (0 < owner) × (owner ≤ 64) }
{
    space.pin(pass);
    let state = load_status(space, pass, owner);
    space.unpin(pass);
    idle(state)
}

// The same of the pass's own one.
fn own_number(space: &TreeSpace, pass: &mut TreePass) -> Option<u64>
    requires own { IsOf space.now.table.shared.table_id space.now.table.shared.key pass.old.seat }
    requires number { IsNumbered pass.old.number pass.old.seat.me.0.pin }
    requires same { pass.old.seat.me.0.upper.number ≡ pass.old.number }
    requires unpinned { pass.old.seat.me.0.pin.pinned ≡ false }
{
    space.pin(pass);
    let state = load_own_status(space, pass);
    space.unpin(pass);
    idle(state)
}

// The number of a range that isn't active, and wasn't decided.
fn idle(state: RangeState) -> Option<u64> {
    match state {
        RangeState::Idle(number) => Some(number),
        RangeState::Active(_) | RangeState::Decided(_, _) => None,
    }
}

#[test]
fn begins_with_no_range(rt: HostRuntime) {
    let starts = Starts {
        sequence: (1 << 38) - 1,
        ..ZERO
    };
    let Ok(mut space) = TreeSpace::new(rt.alloc(), 384, 2, 1, 120, 0, starts) else {
        panic!(rt; "no memory")
    };
    let Ok(mut pass) = space.enroll(rt.alloc()) else {
        panic!(rt; "no pass")
    };
    assert_eq!(rt; idle_number(&space, &mut pass, 1), Some((1 << 38) - 1));
    let Ok(mut pass) = space.enroll(rt.alloc()) else {
        panic!(rt; "no pass")
    };
    assert_eq!(rt; own_number(&space, &mut pass), Some((1 << 38) - 1));
}

#[test]
fn begins_with_these_words(rt: HostRuntime) {
    let starts = Starts {
        sequence: 3,
        ..ZERO
    };
    let Ok(space) = TreeSpace::new(rt.alloc(), 384, 2, 5, 120, 7, starts) else {
        panic!(rt; "no memory")
    };
    let words = space.close(Vec::new(rt.alloc()));
    for (word, value) in [
        (0, 2),
        (1, 0),
        (2, 0),
        (129, 0),
        (130, 1),
        (131, 5),
        (132, 120),
        (133, 7),
        (134, 0),
        (136, 2 << 56),
        (137, 1 << 32),
        (138, 0),
        (272, 0),
        (383 * 136, 0),
        (384 * 136, 0),
        (385 * 136, 0),
        (385 * 136 + 1, 3 << 26),
        (385 * 136 + 2, 0),
        (385 * 136 + 63 * 8 + 1, 3 << 26),
        (385 * 136 + 63 * 8 + 7, 0),
    ] {
        if word < 52_872 {
            assert_eq!(rt; words.at(word), value, "in {word}");
        }
    }
}
