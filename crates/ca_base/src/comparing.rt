//! How the key of an object that was shown stands to another key.
ghost use Rattle.std.specs.Prelude.{◌≡◌, ℕ, ◌+◌, ◌-◌, ◌*◌, ◌/◌, ◌<◌, ◌≤◌, ◌++◌, List, length, take, drop, slice_index, slice_range};
ghost use Rattle.std.specs.Int.{to_be_bytes, w64};
ghost use Rattle.ca_model.specs.StoreMap.{bytes_cmp};
ghost use Rattle.ca_node.specs.Row.{code_words, pair};
ghost use Rattle.ca_node.specs.Walking.{HasBytesFrom};
ghost use Rattle.ca_base.specs.Finding.{IsObjectShown, all_bytes};
ghost use Rattle.ca_base.specs.Writing.{HasBytes};
ghost use Rattle.ca_base.specs.Objects.{IsObjectRead};
ghost use Rattle.ca_rows.specs.Passes.{OnlyReads};
ghost use Rattle.ca_node.specs.TreePasses.{tree_of};

use crate::writing::word_of;
use ca_node::{CODE, COUNT_LIMIT, TreePass, TreeSpace, compare_tops, load_word};
use ca_term::MOST_CODE_BYTES;
use std::cmp::Ordering;

// How the key of an object that the pass was shown stands to this key, of which the first eight bytes were made a word before. They are compared as
// numbers, eight bytes at a time, and each word of the row is loaded once. It loads no more than one word behind the first difference.
pub(crate) fn compare_by(
    space: &TreeSpace,
    pass: &mut TreePass,
    row: u32,
    key: &[u8],
    front: u64,
) -> Ordering
    requires object { IsObjectRead space.now pass.old row }
    requires front { HasBytes key.now front }
    ensures frame { OnlyReads pass.old pass.new }
    ensures order { (its : List ℕ) → IsObjectShown (tree_of pass.old) row its → result ≡ bytes_cmp (pair its).0 key.now }
{
    let (start, end) = key_bytes(space, pass, row);
    let stop = start + key.len().min(end - start);
    let mut at = start;
    let mut word = word_with(space, pass, row, at, stop);
    let mut other = front;
    while at < stop {
        let next = word_with(space, pass, row, at / 8 * 8 + 8, stop);
        let count = (stop - at).min(8);
        let order = compare_tops(joined(word, next, at % 8), other, count);
        if order.is_ne() {
            return order;
        }
        at += count;
        word = next;
        other = next_word(key, at - start);
    }
    (end - start).cmp(&key.len())
}

// Between which bytes of an object that the pass was shown its key stands.
pub(crate) fn key_bytes(space: &TreeSpace, pass: &mut TreePass, row: u32) -> (usize, usize)
    requires object { IsObjectRead space.now pass.old row }
    ensures frame { OnlyReads pass.old pass.new }
    ensures range { (result.0 ≤ result.1) × (result.1 ≤ 1000) }
    ensures key { (its : List ℕ) → IsObjectShown (tree_of pass.old) row its → (pair its).0 ≡ slice_range (all_bytes its) result.0 result.1 }
{
    let word = load_word(space, pass, row, 0);
    let end = MOST_CODE_BYTES.min((word % COUNT_LIMIT) as usize);
    let start = end.min((word / COUNT_LIMIT % COUNT_LIMIT) as usize);
    let len = (end - start).min((word / 4_294_967_296 % 16_777_216) as usize);
    (start, start + len)
}

// The word with a byte of an object that the pass was shown. Behind the last byte that is wanted nothing is loaded.
fn word_with(space: &TreeSpace, pass: &mut TreePass, row: u32, at: usize, stop: usize) -> u64
    requires object { IsObjectRead space.now pass.old row }
    requires few { stop ≤ 1000 }
    ensures frame { OnlyReads pass.old pass.new }
    ensures word { (its : List ℕ) → IsObjectShown (tree_of pass.old) row its → at < stop → result ≡ slice_index (code_words its) (at / 8) }
{
    if at < stop {
        load_word(space, pass, row, (CODE as usize + at / 8) as u32)
    } else {
        0
    }
}

// The next bytes of a key, of which the first eight bytes were made a word before.
pub(crate) fn word_from(key: &[u8], from: usize, front: u64) -> u64
    requires inside { from ≤ length key.now }
    requires front { HasBytes key.now front }
    ensures { HasBytesFrom key.now from result }
{
    if from == 0 {
        front
    } else {
        next_word(key, from)
    }
}

// The next bytes of a key, eight where there are as many. Less than eight behind others are those of its last eight.
fn next_word(key: &[u8], from: usize) -> u64
    requires { from ≤ length key.now }
    ensures { take (length key.now - from) (to_be_bytes w64 result) ≡ take 8 (drop from key.now) }
{
    let left = key.len() - from;
    if left == 0 {
        0
    } else if left >= 8 || from < 8 {
        word_of(&key[from..])
    } else {
        joined(word_of(&key[key.len() - 8..]), 0, 8 - left)
    }
}

// The eight bytes of two words from a byte of the first one on.
fn joined(word: u64, next: u64, skip: usize) -> u64
    requires { skip < 8 }
    ensures { to_be_bytes w64 result ≡ drop skip (to_be_bytes w64 word) ++ take skip (to_be_bytes w64 next) }
{
    word << (8 * skip) | next >> 8 >> (56 - 8 * skip)
}
