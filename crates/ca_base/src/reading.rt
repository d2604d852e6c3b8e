//! What bases and objects that were shown say.
ghost use Rattle.std.specs.Prelude.{◌≡◌, ℕ, ◌+◌, ◌<◌, ◌≤◌, ◌++◌, List, get_or, length, slice_index};
ghost use Rattle.std.specs.Int.{to_be_bytes, w64};
ghost use Rattle.arrayvec.specs.ArrayVec.{array_vec_len};
ghost use Rattle.ca_node.specs.Row.{code_words, pair, row_in, head_in};
ghost use Rattle.ca_base.specs.Fours.{four_of};
ghost use Rattle.ca_node.specs.TreeView.{Note};
ghost use Rattle.ca_base.specs.Finding.{IsReadable, IsObjectShown, HasPlace, IsItem, HasHead};
ghost use Rattle.ca_term.specs.declared.bounds.TheConstants.{MOST_CODE_BYTES};
ghost use Rattle.ca_rows.specs.Passes.{OnlyReads, IsReading, sizes};
ghost use Rattle.ca_node.specs.TreePasses.{tree_of};

use arrayvec::ArrayVec;
use ca_model::Code;
use ca_node::{CODE, COUNT_LIMIT, ITEMS, TreePass, TreeSpace, load_word};
use ca_rows::ROW_LIMIT;
use ca_term::MOST_CODE_BYTES;

/// How many objects a base names that the pass was shown: 120 at most.
pub fn count(space: &TreeSpace, pass: &mut TreePass, base: u32) -> u32
    requires reading { IsReading space.now pass.old }
    requires readable { (note : Note) × IsReadable (sizes space.now) (tree_of pass.old) base note }
    ensures frame { OnlyReads pass.old pass.new }
    ensures few { result ≤ 120 }
    ensures count { (note : Note) → IsReadable (sizes space.now) (tree_of pass.old) base note → result ≡ length note.objects }
{
    (load_word(space, pass, base, 0) % COUNT_LIMIT) as u32
}

/// The word for the statistic of a base that the pass was shown.
pub fn statistic_word(space: &TreeSpace, pass: &mut TreePass, base: u32) -> u64
    requires reading { IsReading space.now pass.old }
    requires readable { (note : Note) × IsReadable (sizes space.now) (tree_of pass.old) base note }
    ensures frame { OnlyReads pass.old pass.new }
    ensures word { (note : Note) → IsReadable (sizes space.now) (tree_of pass.old) base note → result ≡ slice_index note.its 1 }
{
    load_word(space, pass, base, 1)
}

/// The object row that a base names at a place, which is counted from 0 in the order of keys.
pub fn item(space: &TreeSpace, pass: &mut TreePass, base: u32, place: u32) -> u32
    requires reading { IsReading space.now pass.old }
    requires readable { HasPlace (sizes space.now) (tree_of pass.old) base place }
    ensures frame { OnlyReads pass.old pass.new }
    ensures inside { (0 < result) × (result ≤ (sizes space.now).rows) }
    ensures item { IsItem (sizes space.now) (tree_of pass.old) base place result }
{
    (item_word(space, pass, base, place) % ROW_LIMIT) as u32
}

// The word for what a base names at a place: the object row, and above it the head of the object's key.
pub(crate) fn item_word(space: &TreeSpace, pass: &mut TreePass, base: u32, place: u32) -> u64
    requires reading { IsReading space.now pass.old }
    requires readable { HasPlace (sizes space.now) (tree_of pass.old) base place }
    ensures frame { OnlyReads pass.old pass.new }
    ensures inside { (0 < row_in result) × (row_in result ≤ (sizes space.now).rows) }
    ensures item { IsItem (sizes space.now) (tree_of pass.old) base place (row_in result) }
    ensures head { HasHead (sizes space.now) (tree_of pass.old) base place (head_in result) }
{
    load_word(space, pass, base, ITEMS + place)
}

/// Copies the bytes of an object that the pass was shown in place of those that `into` has, 32 at a time, and the rest eight.
pub fn copy_object(space: &TreeSpace, pass: &mut TreePass, row: u32, into: &mut Code)
    requires reading { IsReading space.now pass.old }
    requires inside { row ≤ (sizes space.now).rows }
    requires shown { (its : List ℕ) × IsObjectShown (tree_of pass.old) row its }
    ensures frame { OnlyReads pass.old pass.new }
    ensures object { (its : List ℕ) → IsObjectShown (tree_of pass.old) row its → into.new.items ≡ (pair its).1 }
{
    let len = MOST_CODE_BYTES.min((load_word(space, pass, row, 0) % COUNT_LIMIT) as usize);
    into.clear();
    let whole = len / 32;
    for four in 0..whole {
        let words = four_words(space, pass, row, 4 * four as u32);
        append(into, words.as_flattened());
    }
    for i in 4 * whole..(len + 7) / 8 {
        let bytes = word_bytes(space, pass, row, i as u32);
        append(into, &bytes[..(len - 8 * i).min(8)]);
    }
}

// The bytes of a word of an object's code that the pass was shown.
fn word_bytes(space: &TreeSpace, pass: &mut TreePass, row: u32, at: u32) -> [u8; 8]
    requires reading { IsReading space.now pass.old }
    requires inside { (row ≤ (sizes space.now).rows) × (at < 125) }
    requires shown { (its : List ℕ) × IsObjectShown (tree_of pass.old) row its }
    ensures frame { OnlyReads pass.old pass.new }
    ensures bytes { (its : List ℕ) → IsObjectShown (tree_of pass.old) row its → result ≡ to_be_bytes w64 (get_or (code_words its) at 0) }
{
    let word = load_word(space, pass, row, CODE + at);
    word.to_be_bytes()
}

// The bytes of four words of an object that the pass was shown, from this one of its code on.
#[inline(always)]
fn four_words(space: &TreeSpace, pass: &mut TreePass, row: u32, at: u32) -> [[u8; 8]; 4]
    requires reading { IsReading space.now pass.old }
    requires inside { (row ≤ (sizes space.now).rows) × (at + 4 ≤ 124) }
    requires shown { (its : List ℕ) × IsObjectShown (tree_of pass.old) row its }
    ensures frame { OnlyReads pass.old pass.new }
    ensures words { (its : List ℕ) → IsObjectShown (tree_of pass.old) row its → result ≡ four_of (code_words its) at }
{
    let first = word_bytes(space, pass, row, at);
    let second = word_bytes(space, pass, row, at + 1);
    let third = word_bytes(space, pass, row, at + 2);
    let fourth = word_bytes(space, pass, row, at + 3);
    [first, second, third, fourth]
}

/// Appends bytes, for which there is room. Where they are eight, as those of a word mostly are, one move copies them.
pub fn append<const N: usize>(into: &mut ArrayVec<u8, N>, more: &[u8])
    requires { array_vec_len into.old + length more.now ≤ N }
    ensures { into.new.items ≡ into.old.items ++ more.now }
{
    if more.len() == 8 {
        let Ok(()) = into.try_extend_from_slice(&more[..8]) else {
            return;
        };
        return;
    }
    let Ok(()) = into.try_extend_from_slice(more) else {
        return;
    };
}
