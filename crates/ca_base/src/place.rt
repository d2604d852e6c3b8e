//! Where a key stands among the objects of a base.
ghost use Rattle.ca_node.specs.TreeView.{Note};
ghost use Rattle.ca_base.specs.Finding.{IsReadable, IsPlaceIn};
ghost use Rattle.ca_rows.specs.Passes.{OnlyReads, IsReading, sizes};
ghost use Rattle.ca_node.specs.TreePasses.{tree_of};

use crate::comparing::compare_by;
use crate::prefixes::{compare_prefix, prefix_len};
use crate::reading::{count, item_word};
use crate::writing::{head_of, word_of};
use ca_leaf::{Line, find_among};
use ca_node::{TreePass, TreeSpace};
use ca_rows::ROW_LIMIT;
use std::cmp::Ordering;

// The objects of a base that a pass was shown stand in a line, in the order of their keys, and a key is looked for that begins with the base's prefix. Its
// head behind that and its first eight bytes were made words before. Where its head differs from that of an item, no object is loaded.
#[derive(Clone, Copy)]
struct Objects<'a> {
    space: &'a TreeSpace,
    base: u32,
    key: &'a [u8],
    head: u64,
    front: u64,
}

impl Line<TreePass> for Objects<'_> {
    ghost use Rattle.ca_base.specs.Objects.{IsComparable, IsOrderAt, comparable_on, reads_none, reads_on, stood};
    ghost use Rattle.ca_rows.specs.Passes.{OnlyReads, sizes};
    ghost use Rattle.ca_node.specs.TreePasses.{tree_of};

    ghost stands = { λ line pass place order. IsOrderAt (sizes line.space.now) (tree_of pass) line.base line.key.now place order };

    ghost knows = { λ line pass place. IsComparable line.space.now pass line.base line.key.now line.head line.front place };

    ghost goes_on = { λ line a b. OnlyReads a b };

    fn compare(&self, pass: &mut TreePass, place: u32) -> Ordering {
        let word = item_word(self.space, pass, self.base, place);
        let head = word / ROW_LIMIT;
        if head != self.head {
            return head.cmp(&self.head);
        }
        let row = (word % ROW_LIMIT) as u32;
        compare_by(self.space, pass, row, self.key, self.front)
    }

    ghost stays = { λ line a. reads_none a };

    ghost chains = { λ line a b c one two. reads_on a b c one two };

    ghost stood = { λ line a b on place order is. stood (sizes line.space.now) line.base line.key.now a b on place order is };

    ghost knows_on = { λ line a b on place known. comparable_on line.space.now line.base line.key.now line.head line.front a b on place known };
}

/// The place of the object with this key among those of a base that the pass was shown, counted from 0 (`Ok`), or else where it would stand (`Err`). A key
/// that doesn't begin with the base's prefix stands before all objects or behind them. Else only the items that are compared are loaded, at most seven, and
/// an object where its key's head is the wanted one's.
pub fn search(space: &TreeSpace, pass: &mut TreePass, base: u32, key: &[u8]) -> Result<u32, u32>
    requires reading { IsReading space.now pass.old }
    requires readable { (note : Note) × IsReadable (sizes space.now) (tree_of pass.old) base note }
    ensures frame { OnlyReads pass.old pass.new }
    ensures place { IsPlaceIn (sizes space.now) (tree_of pass.old) base key.now result }
{
    let many = count(space, pass, base);
    let skip = prefix_len(space, pass, base);
    let front = word_of(key);
    match compare_prefix(space, pass, base, key, front, skip) {
        Ordering::Less => return Err(many),
        Ordering::Equal => {}
        Ordering::Greater => return Err(0),
    }
    let objects = Objects {
        space,
        base,
        key,
        head: head_of(&key[skip..]),
        front,
    };
    find_among(&objects, many, pass)
}
