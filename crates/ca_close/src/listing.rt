//! The object rows under a link of a closed tree, in the order of their keys.
ghost use Rattle.std.specs.Prelude.{◌≡◌, ◌↔◌, ℕ, ◌+◌, ◌≤◌, ◌++◌, IsTrue, length, slice_index, vec_len, vec_capacity};
ghost use Rattle.std.specs.Mem.Slots.{slots_items};
ghost use Rattle.ca_close.specs.Listing.{IsInside, IsWalkable};
ghost use Rattle.ca_node.specs.LastTree.{rows_under};
ghost use Rattle.ca_node.specs.Row.{row_at, count, items, IsRouteRow};
ghost use Rattle.ca_rows.specs.declared.sizes.Sizes.{Sizes as TheSizes};

use ca_node::{COUNT_LIMIT, FORM, ITEMS, ROUTE};
use ca_rows::{ROW_LIMIT, ROW_WORDS, Words};

/// Appends the object rows under a link, for which there is room. No base is more than `deep` links from there.
pub(crate) fn gather(words: &Words, link: u32, deep: u32, rows: &mut Vec<u32>)
    requires walkable { (z : TheSizes) × IsWalkable z (slots_items words.now.closed.words) link deep }
    requires room { vec_len rows.old + length (rows_under deep (slots_items words.now.closed.words) link) ≤ vec_capacity rows.old }
    ensures rows { rows.new.items ≡ rows.old.items ++ rows_under deep (slots_items words.now.closed.words) link }
    ensures room_is { vec_capacity rows.new ≡ vec_capacity rows.old }
{
    let (row, is_route) = follow(words, link);
    if is_route {
        gather(words, ROW_WORDS as u32 * row + 1, deep - 1, rows);
        gather(words, ROW_WORDS as u32 * row + 2, deep - 1, rows);
    } else {
        push_items(words, row, rows);
    }
}

// The row that a link names, and whether it is a route.
fn follow(words: &Words, link: u32) -> (u32, bool)
    requires walkable { (z : TheSizes) × (deep : ℕ) × IsWalkable z (slots_items words.now.closed.words) link deep }
    ensures row { result.0 ≡ slice_index (slots_items words.now.closed.words) link }
    ensures inside { IsInside (slots_items words.now.closed.words) result.0 }
    ensures route { IsTrue result.1 ↔ IsRouteRow (row_at (slots_items words.now.closed.words) result.0) }
{
    let row = words.at(link) as u32;
    let first = words.at(ROW_WORDS as u32 * row);
    (row, first / FORM == ROUTE / FORM)
}

// Appends the object rows that a base names, for which there is room.
fn push_items(words: &Words, base: u32, rows: &mut Vec<u32>)
    requires inside { IsInside (slots_items words.now.closed.words) base }
    requires few { count (row_at (slots_items words.now.closed.words) base) ≤ 120 }
    requires room { vec_len rows.old + length (items (row_at (slots_items words.now.closed.words) base)) ≤ vec_capacity rows.old }
    ensures rows { rows.new.items ≡ rows.old.items ++ items (row_at (slots_items words.now.closed.words) base) }
    ensures room_is { vec_capacity rows.new ≡ vec_capacity rows.old }
{
    let first = ROW_WORDS as u32 * base;
    let many = (words.at(first) % COUNT_LIMIT) as u32;
    for place in 0..many {
        let word = words.at(first + ITEMS + place);
        rows.push_reserved((word % ROW_LIMIT) as u32);
    }
}
