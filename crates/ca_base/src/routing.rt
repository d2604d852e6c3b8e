//! The rows of a split are written: a route, its key, and the halves of a base.
ghost use Rattle.std.specs.Prelude.{◌≡◌, ℕ, ◌+◌, ◌*◌, ◌<◌, ◌≤◌, List, length, take, drop, slice_index};
ghost use Rattle.ca_node.specs.Layout.{items_word};
ghost use Rattle.ca_node.specs.Row.{head_of, pair};
ghost use Rattle.ca_base.specs.Finding.{IsObjectShown, IsReadable};
ghost use Rattle.ca_base.specs.Prefixes.{SpellsHalf, worded};
ghost use Rattle.ca_base.specs.Putting.{first_note, last_items};
ghost use Rattle.ca_base.specs.Splitting.{SpellsRoute};
ghost use Rattle.ca_base.specs.Writing.{HasFilled, HasWritten};
ghost use Rattle.ca_rows.specs.Layout.{row_limit};
ghost use Rattle.ca_base.specs.Holding.{HoldsRow, ReadsAndHolds};
ghost use Rattle.ca_base.specs.Objects.{IsObjectRead};
ghost use Rattle.ca_rows.specs.Passes.{OnlyReads, StillKeepsList, sizes, known};
ghost use Rattle.ca_node.specs.TreePasses.{tree_of};

use crate::comparing::key_bytes;
use crate::copying::Run;
use crate::prefixes::{Prefix, shared};
use crate::reading::{append, item};
use crate::swapping::STATISTIC;
use crate::writing::{Front, set_word, word_of_item, write_bytes, write_head, write_words};
use arrayvec::ArrayVec;
use ca_model::Code;
use ca_node::{CODE, COUNT_LIMIT, ITEMS, KEY, ROUTE, TreePass, TreeSpace, load_word};

/// The rows of a split: a route, and the two bases under it.
#[derive(Clone, Copy)]
pub(crate) struct Fork {
    pub(crate) route: u32,
    pub(crate) left: u32,
    pub(crate) right: u32,
}

/// Writes the route of a fork: its level, its key, eight bytes a word, with zeros behind their end to the end of the word, its links, and the number of
/// its attempts to join, none of which is under way.
pub(crate) fn write_route(
    space: &TreeSpace,
    pass: &mut TreePass,
    fork: Fork,
    level: u16,
    key: &[u8],
    attempt: u64,
)
    requires row { HoldsRow space.now pass.old fork.route }
    requires short { length key.now ≤ 1000 }
    requires attempt { attempt < 4611686018427387904 }
    ensures frame { StillKeepsList pass.old pass.new }
    ensures written { HasWritten fork.route (SpellsRoute level key.now fork.left fork.right attempt) (known pass.old) (known pass.new) }
{
    let form = ROUTE + level as u64 * COUNT_LIMIT + key.len() as u64;
    let (left, right) = (fork.left as u64, fork.right as u64);
    write_words(space, pass, fork.route, &[form, left, right, attempt * 4]);
    write_bytes(space, pass, fork.route, KEY, key);
}

/// Writes a half of the base that was shown last: a base row of this level without a mark, with these of its items, and with a statistic of 0. Its prefix is
/// the longest one that their first key and their last one share, as far as a base has room for it.
pub(crate) fn write_half(space: &TreeSpace, pass: &mut TreePass, row: u32, level: u16, run: Run)
    requires row { ReadsAndHolds space.now pass.old row }
    requires readable { IsReadable (sizes space.now) (tree_of pass.old) run.base (first_note (tree_of pass.old).notes) }
    requires places { (0 < run.count) × (run.from + run.count ≤ length (first_note (tree_of pass.old).notes).objects) }
    ensures frame { StillKeepsList pass.old pass.new }
    ensures written { HasWritten row (SpellsHalf (first_note (tree_of pass.old).notes) run.from run.count level) (known pass.old) (known pass.new) }
{
    let first = item(space, pass, run.base, run.from);
    let mut low = Prefix::new();
    copy_part(space, pass, first, 0, &mut low);
    let last = item(space, pass, run.base, run.from + run.count - 1);
    let mut high = Prefix::new();
    copy_part(space, pass, last, 0, &mut high);
    let skip = shared(&low, &high);
    let front = Front {
        level,
        statistic: STATISTIC,
        prefix: &low[..skip],
    };
    write_head(space, pass, row, &front, run.count);
    write_behind(space, pass, row, skip, run);
}

// Writes items of the base that was shown last to a base row that the pass holds, with the heads of their objects' keys behind so many bytes.
fn write_behind(space: &TreeSpace, pass: &mut TreePass, row: u32, skip: usize, run: Run)
    requires row { ReadsAndHolds space.now pass.old row }
    requires readable { IsReadable (sizes space.now) (tree_of pass.old) run.base (first_note (tree_of pass.old).notes) }
    requires places { (run.from + run.count ≤ length (first_note (tree_of pass.old).notes).objects) × (run.from + run.count ≤ 120) }
    ensures frame { StillKeepsList pass.old pass.new }
    ensures filled { HasFilled row items_word run.count (λ k word. word ≡ slice_index (worded skip (last_items (tree_of pass.old))
        (first_note (tree_of pass.old).notes).objects) (run.from + k)) (known pass.old) (known pass.new) }
{
    for place in 0..run.count {
        let object = item(space, pass, run.base, run.from + place);
        let word = word_behind(space, pass, object, skip);
        set_word(space, pass, row, ITEMS + place, word);
    }
}

// The word of an item for an object that the pass was shown, with the head of its key behind so many bytes.
fn word_behind(space: &TreeSpace, pass: &mut TreePass, row: u32, skip: usize) -> u64
    requires object { IsObjectRead space.now pass.old row }
    ensures frame { OnlyReads pass.old pass.new }
    ensures word { (its : List ℕ) → IsObjectShown (tree_of pass.old) row its → result ≡ head_of skip its * row_limit + row }
{
    let mut head = ArrayVec::<u8, 5>::new();
    copy_part(space, pass, row, skip, &mut head);
    word_of_item(&head, row)
}

/// Copies the key of an object that the pass was shown.
pub(crate) fn copy_key(space: &TreeSpace, pass: &mut TreePass, row: u32, into: &mut Code)
    requires object { IsObjectRead space.now pass.old row }
    ensures frame { OnlyReads pass.old pass.new }
    ensures key { (its : List ℕ) → IsObjectShown (tree_of pass.old) row its → into.new.items ≡ (pair its).0 }
{
    copy_part(space, pass, row, 0, into);
}

// Copies the bytes of such a key behind so many, a word at a time, as far as there is room.
fn copy_part<const N: usize>(
    space: &TreeSpace,
    pass: &mut TreePass,
    row: u32,
    skip: usize,
    into: &mut ArrayVec<u8, N>,
)
    requires object { IsObjectRead space.now pass.old row }
    ensures frame { OnlyReads pass.old pass.new }
    ensures part { (its : List ℕ) → IsObjectShown (tree_of pass.old) row its → into.new.items ≡ take N (drop skip (pair its).0) }
{
    let (first, last) = key_bytes(space, pass, row);
    let start = first + skip.min(last - first);
    let end = start + N.min(last - start);
    into.clear();
    let mut at = start;
    while at < end {
        let to = end.min(at / 8 * 8 + 8);
        let bytes = load_word(space, pass, row, (CODE as usize + at / 8) as u32).to_be_bytes();
        let front = at % 8;
        append(into, &bytes[front..front + (to - at)]);
        at = to;
    }
}
