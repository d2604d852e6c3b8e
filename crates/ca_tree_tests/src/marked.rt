//! What a range wrote into the bases of its run is drawn, as in docs/ARCHITECTURE.md.
ghost use Rattle.std.specs.Prelude.{◌≡◌, ◌<◌, false};
ghost use Rattle.ca_rows.specs.Calls.{IsOf, IsNumbered};

use crate::ranges::open_all;
use crate::scripts::Answer::{Has, Many};
use crate::scripts::Call::{PutRising, Splits};
use crate::scripts::{Answer, Row, wrong_row};
use crate::trees::{ZERO, tree_of, tuning_of};
use ca_model::Outcome;
use ca_node::{RangeState, Spot, TreePass, TreeSpace, load_status, load_word, walk};
use ca_replace::TreeStore;
use std::alloc::Global;
use std::fmt::Write;

const ONE: Answer = Many(1, Outcome::Done(()));

const PUTS: [Row; 8] = [
    (PutRising(2, 3), ONE),
    (PutRising(4, 5), ONE),
    (PutRising(6, 7), ONE),
    (PutRising(1, 2), ONE),
    (PutRising(3, 4), ONE),
    (PutRising(5, 6), ONE),
    (PutRising(7, 8), ONE),
    (Splits, Has(3, 0)),
];

// The first key of each base, from left to right.
const FIRST: [u8; 4] = [1, 2, 4, 6];

// A line for each base, named by its first key: which range marked it, and which base that range has on its left. Below, how far the range is.
const DRAWING: &str =
    "base 1: range 1 of pass 1, the first\nbase 2: range 1 of pass 1, behind base 1\nbase 4: range 1 of pass 1, behind base 2\nbase 6: range 1 of pass 1, behind base 4\npass 1: range 1 is decided, and base 6 is its last\n";

// The row of a base, and its words 2 to 6: that a range marked it, of which pass, which one of that pass's, the base on its left, and the row that says up to
// where the range goes.
#[derive(Clone, Copy)]
struct Marked {
    row: u32,
    words: [u64; 5],
}

const UNMARKED: Marked = Marked {
    row: 0,
    words: [0; 5],
};

// The row of the base to which a key is led, and a word of it.
fn word_at(space: &TreeSpace, pass: &mut TreePass, key: u8, index: u32) -> (u32, u64)
    requires own { IsOf space.now.table.shared.table_id space.now.table.shared.key pass.old.seat }
    requires number { IsNumbered pass.old.number pass.old.seat.me.0.pin }
    requires unpinned { pass.old.seat.me.0.pin.pinned ≡ false }
    requires inside { index < 136 }
    ensures own { IsOf space.now.table.shared.table_id space.now.table.shared.key pass.new.seat }
    ensures number { IsNumbered pass.new.number pass.new.seat.me.0.pin }
    ensures unpinned { pass.new.seat.me.0.pin.pinned ≡ false }
{
    space.pin(pass);
    let cursor = walk(space, pass, Spot::At(&[0x24, 1, 0, 0, key]));
    let word = load_word(space, pass, cursor.base, index);
    space.unpin(pass);
    (cursor.base, word)
}

// How the base to which a key is led is marked.
fn mark_at(space: &TreeSpace, pass: &mut TreePass, key: u8) -> Marked
    requires own { IsOf space.now.table.shared.table_id space.now.table.shared.key pass.old.seat }
    requires number { IsNumbered pass.old.number pass.old.seat.me.0.pin }
    requires unpinned { pass.old.seat.me.0.pin.pinned ≡ false }
    ensures own { IsOf space.now.table.shared.table_id space.now.table.shared.key pass.new.seat }
    ensures number { IsNumbered pass.new.number pass.new.seat.me.0.pin }
    ensures unpinned { pass.new.seat.me.0.pin.pinned ≡ false }
{
    let (row, kind) = word_at(space, pass, key, 2);
    let (_, owner) = word_at(space, pass, key, 3);
    let (_, number) = word_at(space, pass, key, 4);
    let (_, left) = word_at(space, pass, key, 5);
    let (_, border) = word_at(space, pass, key, 6);
    let words = [kind, owner, number, left, border];
    Marked { row, words }
}

// How all bases are marked, and how far the last range of the first pass is.
fn marks(space: &TreeSpace, pass: &mut TreePass) -> ([Marked; 4], RangeState)
    requires own { IsOf space.now.table.shared.table_id space.now.table.shared.key pass.old.seat }
    requires number { IsNumbered pass.old.number pass.old.seat.me.0.pin }
    requires unpinned { pass.old.seat.me.0.pin.pinned ≡ false }
{
    let mut marks = [UNMARKED; 4];
    for n in 0..4_usize {
        marks[n] = mark_at(space, pass, FIRST[n]);
    }
    space.pin(pass);
    let state = load_status(space, pass, 1);
    space.unpin(pass);
    (marks, state)
}

// The first key of the base in this row, and 0 where none of them is.
fn key_of(marks: &[Marked; 4], row: u64) -> u8 {
    for (mark, key) in marks.iter().zip(FIRST) {
        if u64::from(mark.row) == row {
            return key;
        }
    }
    0
}

// Whether all bases are marked with one border, whose row is none of theirs.
fn has_one_border(marks: &[Marked; 4]) -> bool {
    let [_, _, _, _, border] = marks[0].words;
    for mark in marks {
        if mark.words[4] != border || u64::from(mark.row) == border {
            return false;
        }
    }
    border != 0
}

// Draws the marks.
fn draw(alloc: Global, marks: &[Marked; 4], state: RangeState) -> Option<String> {
    let mut into = String::new(alloc);
    for (mark, key) in marks.iter().zip(FIRST) {
        let [kind, owner, number, left, _] = mark.words;
        write!(into, "base {key}: ").ok()?;
        match (kind, left) {
            (1, 0) => write!(into, "range {number} of pass {owner}, the first\n").ok()?,
            (1, _) => {
                let left = key_of(marks, left);
                write!(into, "range {number} of pass {owner}, behind base {left}\n").ok()?;
            }
            _ => write!(into, "no range\n").ok()?,
        }
    }
    match state {
        RangeState::Idle(number) => write!(into, "pass 1: range {number} is over\n").ok()?,
        RangeState::Active(number) => write!(into, "pass 1: range {number} is active\n").ok()?,
        RangeState::Decided(number, last) => {
            let last = key_of(marks, u64::from(last));
            write!(
                into,
                "pass 1: range {number} is decided, and base {last} is its last\n"
            )
            .ok()?;
        }
    }
    Some(into)
}

// Whether a range of all marked all bases of a new tree with one border, and the drawing of these marks.
fn drawn(alloc: Global) -> Option<(bool, String)> {
    let Ok(mut tree) = tree_of(alloc, 384, 2, tuning_of((2, 8, 1_000, -1)), ZERO) else {
        return None;
    };
    let Ok(one) = tree.enroll(alloc) else {
        return None;
    };
    let Ok(mut other) = tree.enroll(alloc) else {
        return None;
    };
    let mut store = TreeStore::new(&tree, one);
    if wrong_row(&mut store, &PUTS).is_some() || !open_all(&mut store, 5) {
        return None;
    }
    let (marks, state) = marks(tree.space(), &mut other);
    let drawing = draw(alloc, &marks, state)?;
    Some((has_one_border(&marks), drawing))
}

#[test]
fn a_marked_run_is_drawn(rt: HostRuntime) {
    let Some((one_border, drawing)) = drawn(rt.alloc()) else {
        panic!(rt; "no drawing")
    };
    assert!(rt; one_border);
    assert_eq!(rt; drawing.as_str(), DRAWING);
}
