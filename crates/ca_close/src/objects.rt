//! The objects of a closed tree.
ghost use Rattle.std.specs.Prelude.{◌≡◌, ℕ, suc, ◌<◌, ◌≤◌, [], length, slice_index_or, vec_capacity};
ghost use Rattle.std.specs.Mem.Slots.{slots_items};
ghost use Rattle.ca_close.specs.Listing.{IsInside, IsListable, objects_of};
ghost use Rattle.ca_model.specs.Slab.{nothing};
ghost use Rattle.ca_node.specs.LastTree.{rows_under};
ghost use Rattle.ca_node.specs.Layout.{root_word};
ghost use Rattle.ca_node.specs.Row.{row_at, object};

use crate::listing::gather;
use arrayvec::ArrayVec;
use ca_base::append;
use ca_model::Code;
use ca_node::{CODE, COUNT_LIMIT, ROOT};
use ca_rows::{ROW_WORDS, Words};
use ca_term::MOST_CODE_BYTES;
use std::marker::Model;

/// The objects of a closed tree, in the order of their keys. Contracts see them with their keys, as a map.
///
/// They stay in the tree's words: beside those it has a number of four bytes for each object, and a byte is copied only where an object is asked for.
#[derive(Drop)]
pub struct Objects {
    words: Words,
    // the rows of the objects
    rows: Vec<u32>,
}

impl Model for Objects {
    ghost use Rattle.ca_model.specs.StoreMap.{StoreMap};

    ghost Value = { StoreMap };

    ghost use Rattle.ca_close.specs.Listed.{view_of, IsListed};

    ghost view = { view_of };

    ghost invariant = { IsListed };
}

impl Objects {
    /// The objects of a closed tree that has so many levels, listed in a vector without items which has room for as many as there are rows.
    pub fn list(words: Words, levels: u16, room: Vec<u32>) -> Objects
        requires tree { IsListable (slots_items words.closed.words) levels (vec_capacity room) }
        requires empty { room.items ≡ [] }
        ensures { result ≡ objects_of (slots_items words.closed.words) (rows_under (suc levels) (slots_items words.closed.words) root_word) }
    {
        let mut rows = room;
        gather(&words, ROOT, u32::from(levels) + 1, &mut rows);
        Objects { words, rows }
    }

    /// How many objects there are.
    pub fn len(&self) -> usize
        ensures { result ≡ length self.now }
    {
        self.rows.len()
    }

    /// Copies the object whose key is greater than those of `at` others.
    pub fn copy(&self, at: usize, into: &mut Code)
        requires { at < length self.now }
        ensures { into.new.items ≡ (slice_index_or self.now at nothing).1 }
    {
        copy_row(&self.words, self.rows[at], into);
    }
}

// Copies the object of a row, eight bytes at a time.
fn copy_row(words: &Words, row: u32, into: &mut Code)
    requires { IsInside (slots_items words.now.closed.words) row }
    ensures { into.new.items ≡ object (row_at (slots_items words.now.closed.words) row) }
{
    let first = ROW_WORDS as u32 * row;
    let len = MOST_CODE_BYTES.min((words.at(first) % COUNT_LIMIT) as usize);
    into.clear();
    for i in 0..(len + 7) / 8 {
        let bytes = words.at(first + CODE + i as u32).to_be_bytes();
        append(into, &bytes[..(len - 8 * i).min(8)]);
    }
}
