//! Rows that a pass holds are written: objects and bases.
ghost use Rattle.ca_node.specs.Layout.{code_word, items_word, prefix_word, form_unit, count_limit};
ghost use Rattle.ca_node.specs.Row.{front_of, row_in, head_in};
ghost use Rattle.ca_rows.specs.Layout.{row_words, row_limit};
ghost use Rattle.std.specs.Prelude.{◌≡◌, ◌+◌, ◌-◌, ◌*◌, ◌/◌, ◌%◌, ◌<◌, ◌≤◌, length, slice_index};
ghost use Rattle.ca_base.specs.Writing.{HasSet, HasFilled, HasBytes, HasEight, SpellsObject, HasWritten, IsHeadWord};
ghost use Rattle.ca_base.specs.Holding.{HoldsRow};
ghost use Rattle.ca_rows.specs.Passes.{StillKeepsList, known};

use ca_node::{
    BASE, CODE, COUNT_LIMIT, ITEMS, OBJECT, PREFIX, PREFIX_LENGTH, TreePass, TreeSpace, top_of,
};
use ca_rows::ROW_LIMIT;

/// Writes an object row: the first word, and the object's bytes, eight a word, with zeros behind their end to the end of their last word. What stands
/// behind that word stays. Its key stands in it from `key_at` to `key_end`.
pub(crate) fn write_object(
    space: &TreeSpace,
    pass: &mut TreePass,
    row: u32,
    object: &[u8],
    key_at: usize,
    key_end: usize,
)
    requires row { HoldsRow space.now pass.old row }
    requires place { (key_at ≤ key_end) × (key_end ≤ length object.now) × (length object.now ≤ 1000) }
    ensures frame { StillKeepsList pass.old pass.new }
    ensures written { HasWritten row (SpellsObject object.now key_at key_end) (known pass.old) (known pass.new) }
{
    let form = object_form(object.len(), key_at, key_end);
    set_word(space, pass, row, 0, form);
    write_bytes(space, pass, row, CODE, object);
}

/// What the words of a base row tell before its items: the level, the word for the statistic, and the prefix. It has no mark.
#[derive(Clone, Copy)]
pub(crate) struct Front<'a> {
    pub(crate) level: u16,
    pub(crate) statistic: u64,
    pub(crate) prefix: &'a [u8],
}

// Writes the words of a base row that stand before its items, of which there are so many.
pub(crate) fn write_head(
    space: &TreeSpace,
    pass: &mut TreePass,
    row: u32,
    front: &Front<'_>,
    many: u32,
)
    requires row { HoldsRow space.now pass.old row }
    requires short { length front.now.prefix.now ≤ 32 }
    ensures frame { StillKeepsList pass.old pass.new }
    ensures filled { HasFilled row 0 11 (IsHeadWord front.now.prefix.now front.now.level many front.now.statistic) (known pass.old) (known pass.new) }
{
    let bytes = front.prefix.len() as u64 * PREFIX_LENGTH;
    let form = BASE + bytes + front.level as u64 * COUNT_LIMIT + many as u64;
    write_words(space, pass, row, &[form, front.statistic, 0, 0, 0, 0, 0]);
    write_prefix(space, pass, row, front.prefix);
}

// Writes the bytes of a base's prefix, with zeros behind their end to the last word that has room for them.
fn write_prefix(space: &TreeSpace, pass: &mut TreePass, row: u32, prefix: &[u8])
    requires row { HoldsRow space.now pass.old row }
    ensures frame { StillKeepsList pass.old pass.new }
    ensures filled { HasFilled row prefix_word 4 (HasEight prefix.now) (known pass.old) (known pass.new) }
{
    for place in 0..4_usize {
        let from = (8 * place).min(prefix.len());
        set_word(
            space,
            pass,
            row,
            PREFIX + place as u32,
            word_of(&prefix[from..]),
        );
    }
}

// The first word of an object row.
fn object_form(length: usize, key_at: usize, key_end: usize) -> u64
    requires { (key_at ≤ key_end) × (key_end ≤ length) × (length ≤ 1000) }
    ensures form { result / form_unit ≡ 1 }
    ensures key_length { result / 4294967296 % 16777216 ≡ key_end - key_at }
    ensures key_place { result / count_limit % count_limit ≡ key_at }
    ensures count { result % count_limit ≡ length }
{
    let key_length = (key_end - key_at) as u64;
    OBJECT + key_length * 4_294_967_296 + key_at as u64 * COUNT_LIMIT + length as u64
}

/// Sets a word. It isn't stored where it is that number already, since a load takes an eighth of the time.
pub fn set_word(space: &TreeSpace, pass: &mut TreePass, row: u32, index: u32, value: u64)
    requires row { HoldsRow space.now pass.old row }
    requires inside { index < row_words }
    ensures frame { StillKeepsList pass.old pass.new }
    ensures set { HasSet row index value (known pass.old) (known pass.new) }
{
    if space.read_word(pass, row, index) != value {
        space.write_word(pass, row, index, value);
    }
}

/// Sets words from the first one on.
pub fn write_words(space: &TreeSpace, pass: &mut TreePass, row: u32, words: &[u64])
    requires row { HoldsRow space.now pass.old row }
    requires few { length words.now ≤ row_words }
    ensures frame { StillKeepsList pass.old pass.new }
    ensures filled { HasFilled row 0 (length words.now) (λ k word. word ≡ slice_index words.now k) (known pass.old) (known pass.new) }
{
    for place in 0..words.len() {
        set_word(space, pass, row, place as u32, words[place]);
    }
}

// Writes the words of items of a base, to the places from `at` on.
pub(crate) fn write_items(space: &TreeSpace, pass: &mut TreePass, row: u32, at: u32, words: &[u64])
    requires row { HoldsRow space.now pass.old row }
    requires few { at + length words.now ≤ 120 }
    ensures frame { StillKeepsList pass.old pass.new }
    ensures filled { HasFilled row (items_word + at) (length words.now) (λ k word. word ≡ slice_index words.now k) (known pass.old) (known pass.new) }
{
    for place in 0..words.len() {
        set_word(space, pass, row, ITEMS + at + place as u32, words[place]);
    }
}

/// Writes bytes, eight a word, from this word on, with zeros behind their end to the end of the word.
pub fn write_bytes(space: &TreeSpace, pass: &mut TreePass, row: u32, from: u32, bytes: &[u8])
    requires row { HoldsRow space.now pass.old row }
    requires inside { from + 125 ≤ row_words }
    requires short { length bytes.now ≤ 1000 }
    ensures frame { StillKeepsList pass.old pass.new }
    ensures filled { HasFilled row from ((length bytes.now + 7) / 8) (HasEight bytes.now) (known pass.old) (known pass.new) }
{
    for place in 0..bytes.len().div_ceil(8) {
        let word = word_of(&bytes[8 * place..]);
        set_word(space, pass, row, from + place as u32, word);
    }
}

// The eight bytes at the front as a word, the highest first, with zeros behind their end.
pub(crate) fn word_of(bytes: &[u8]) -> u64
    ensures { HasBytes bytes.now result }
{
    top_of(bytes)
}

// The head of a key: its first five bytes as a number, the highest first, with zeros behind their end.
pub(crate) fn head_of(key: &[u8]) -> u64
    ensures head { result ≡ front_of 5 key.now }
    ensures fits { result < 1099511627776 }
{
    word_of(key) >> 24
}

// The word of an item: the head of the key of an object above its row.
pub(crate) fn word_of_item(key: &[u8], row: u32) -> u64
    requires { row < row_limit }
    ensures row { row_in result ≡ row }
    ensures head { head_in result ≡ front_of 5 key.now }
{
    head_of(key) * ROW_LIMIT + row as u64
}
