//! The prefix of a base, with which the keys of all its objects begin.
ghost use Rattle.std.specs.Prelude.{◌≡◌, ℕ, ◌<◌, ◌≤◌, List, length, take, slice_index};
ghost use Rattle.ca_model.specs.StoreMap.{bytes_cmp};
ghost use Rattle.ca_node.specs.Row.{prefix as prefix_of, prefix_length};
ghost use Rattle.ca_node.specs.TreeView.{Note};
ghost use Rattle.ca_base.specs.Finding.{IsBaseSeen};
ghost use Rattle.ca_base.specs.Writing.{HasBytes};
ghost use Rattle.ca_base.specs.Prefixes.{AreShared, IsShift, IsTrimmed, reheaded};
ghost use Rattle.ca_rows.specs.Passes.{OnlyReads, IsReading, sizes};
ghost use Rattle.ca_node.specs.TreePasses.{tree_of};

use crate::comparing::word_from;
use crate::reading::append;
use crate::writing::head_of;
use arrayvec::ArrayVec;
use ca_node::{PREFIX, PREFIX_LENGTH, TreePass, TreeSpace, compare_tops, load_word};
use ca_rows::ROW_LIMIT;
use std::cmp::Ordering;

/// Room for the prefix of a base. (A `Code` would do, but a kilobyte would be cleared for it at each edit.)
pub(crate) type Prefix = ArrayVec<u8, 32>;

/// What becomes of the heads of a base's items where its prefix gets shorter: each loses so many of its last bytes, and others come before it, of which
/// `lead` is the head.
#[derive(Clone, Copy)]
pub(crate) struct Shift {
    pub(crate) lead: u64,
    pub(crate) bytes: u32,
}

/// The prefix of a new base, and what becomes of the heads of the base that was shown last.
#[derive(Clone, Copy)]
pub(crate) struct Trimmed<'a> {
    pub(crate) prefix: &'a [u8],
    pub(crate) shift: Shift,
}

// How many bytes the prefix of a base has that the pass was shown.
pub(crate) fn prefix_len(space: &TreeSpace, pass: &mut TreePass, base: u32) -> usize
    requires reading { IsReading space.now pass.old }
    requires shown { (note : Note) × IsBaseSeen (sizes space.now) (tree_of pass.old) base note }
    ensures frame { OnlyReads pass.old pass.new }
    ensures few { result ≤ 32 }
    ensures len { (note : Note) → IsBaseSeen (sizes space.now) (tree_of pass.old) base note → result ≡ prefix_length note.its }
{
    (load_word(space, pass, base, 0) / PREFIX_LENGTH % 16_777_216) as usize
}

// How the prefix of a base that the pass was shown, which has so many bytes, stands to as many bytes of a key, of which the first eight bytes were made a
// word before: equal where the key begins with it. It loads no word behind the first difference.
pub(crate) fn compare_prefix(
    space: &TreeSpace,
    pass: &mut TreePass,
    base: u32,
    key: &[u8],
    front: u64,
    len: usize,
) -> Ordering
    requires reading { IsReading space.now pass.old }
    requires shown { (note : Note) × IsBaseSeen (sizes space.now) (tree_of pass.old) base note }
    requires front { HasBytes key.now front }
    requires few { len ≤ 32 }
    ensures frame { OnlyReads pass.old pass.new }
    ensures order { (note : Note) → IsBaseSeen (sizes space.now) (tree_of pass.old) base note → len ≡ prefix_length note.its
        → result ≡ bytes_cmp (prefix_of note.its) (take len key.now) }
{
    let stop = len.min(key.len());
    for place in 0..stop.div_ceil(8) {
        let word = load_word(space, pass, base, PREFIX + place as u32);
        let count = (stop - 8 * place).min(8);
        let order = compare_tops(word, word_from(key, 8 * place, front), count);
        if order.is_ne() {
            return order;
        }
    }
    len.cmp(&stop)
}

// Copies the prefix of a base that the pass was shown, a word at a time.
pub(crate) fn copy_prefix(space: &TreeSpace, pass: &mut TreePass, base: u32, into: &mut Prefix)
    requires reading { IsReading space.now pass.old }
    requires shown { (note : Note) × IsBaseSeen (sizes space.now) (tree_of pass.old) base note }
    ensures frame { OnlyReads pass.old pass.new }
    ensures prefix { (note : Note) → IsBaseSeen (sizes space.now) (tree_of pass.old) base note → into.new.items ≡ prefix_of note.its }
{
    let len = prefix_len(space, pass, base);
    into.clear();
    for i in 0..len.div_ceil(8) {
        let bytes = load_word(space, pass, base, PREFIX + i as u32).to_be_bytes();
        append(into, &bytes[..(len - 8 * i).min(8)]);
    }
}

// With how many bytes both begin.
pub(crate) fn shared(a: &[u8], b: &[u8]) -> usize
    ensures { AreShared a.now b.now result }
{
    let most = a.len().min(b.len());
    for n in 0..most {
        if a[n] != b[n] {
            return n;
        }
    }
    most
}

// The prefix of a base that gets a key: what that key begins with of the prefix that the base has.
pub(crate) fn trim<'a>(prefix: &'a [u8], key: &[u8]) -> Trimmed<'a>
    ensures { IsTrimmed prefix.now key.now result.prefix.now result.shift.lead result.shift.bytes }
{
    let len = shared(prefix, key);
    let behind = &prefix[len..];
    let shift = Shift {
        lead: head_of(behind),
        bytes: behind.len().min(5) as u32,
    };
    Trimmed {
        prefix: &prefix[..len],
        shift,
    }
}

// The word of an item with its head shifted so.
pub(crate) fn shifted(word: u64, shift: Shift) -> u64
    requires { IsShift shift.lead shift.bytes }
    ensures { result ≡ reheaded shift.lead shift.bytes word }
{
    if shift.bytes == 0 {
        return word;
    }
    let head = shift.lead + (word / ROW_LIMIT >> (8 * shift.bytes));
    head * ROW_LIMIT + word % ROW_LIMIT
}
