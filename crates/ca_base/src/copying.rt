//! A new base gets the items of the base that was shown last, with one more or without one.
ghost use Rattle.ca_node.specs.Layout.{items_word};
ghost use Rattle.ca_node.specs.Row.{prefix as prefix_of, item_words};
ghost use Rattle.ca_node.specs.TreeView.{Note};
ghost use Rattle.ca_base.specs.Finding.{IsBaseSeen};
ghost use Rattle.ca_base.specs.Joined.{HasRun};
ghost use Rattle.ca_rows.specs.Layout.{row_limit};
ghost use Rattle.std.specs.Prelude.{◌≡◌, ℕ, List, [], ◌+◌, ◌-◌, ◌<◌, ◌≤◌, ◌++◌, length, take, drop, slice_index};
ghost use Rattle.std.specs.List.{remove};
ghost use Rattle.ca_base.specs.Putting.{first_note, put_in, IsItemAt, IsPlaceFor, IsShownLast, IsShownWith, last_items, last_words};
ghost use Rattle.ca_base.specs.Prefixes.{IsShift, SpellsLeft, SpellsPut};
ghost use Rattle.ca_base.specs.Trimming.{IsFront, shifted_words};
ghost use Rattle.ca_base.specs.Writing.{HasFilled, SpellsBase, HasWritten};
ghost use Rattle.ca_base.specs.Holding.{ReadsAndHolds};
ghost use Rattle.ca_rows.specs.Passes.{OnlyReads, IsReading, StillKeepsList, sizes, known};
ghost use Rattle.ca_node.specs.TreePasses.{tree_of};

use crate::prefixes::{Prefix, Shift, Trimmed, copy_prefix, shifted, trim};
use crate::target::Target;
use crate::writing::{Front, set_word, word_of_item, write_head, write_items};
use ca_node::{ITEMS, TreePass, TreeSpace, load_word};
use ca_rows::ROW_LIMIT;

/// Items of a base that was shown, in this row: so many, from a place on.
#[derive(Clone, Copy)]
pub(crate) struct Run {
    pub(crate) base: u32,
    pub(crate) from: u32,
    pub(crate) count: u32,
}

/// An object that is put at a place of a base: its key, and its row.
#[derive(Clone, Copy)]
pub(crate) struct Placing<'a> {
    pub(crate) place: Result<u32, u32>,
    pub(crate) key: &'a [u8],
    pub(crate) row: u32,
}

// The same as a word, with what becomes of the base's prefix and of the heads of its other items.
#[derive(Clone, Copy)]
struct Placed<'a> {
    trimmed: Trimmed<'a>,
    place: Result<u32, u32>,
    word: u64,
}

// What becomes of a base's items: those before one place stay, with their heads shifted, then these come, then those from another place on. It has this
// prefix then.
#[derive(Clone, Copy)]
struct Around<'a> {
    trimmed: Trimmed<'a>,
    before: u32,
    these: &'a [u64],
    behind: u32,
}

/// Writes the base row that takes the target's place, without a mark: the target's items with that of an object put at its place. Its prefix is what the
/// object's key begins with of the target's. It answers the item in whose place it is put, or 0.
pub(crate) fn write_base_with(
    space: &TreeSpace,
    pass: &mut TreePass,
    row: u32,
    target: &Target,
    placing: &Placing<'_>,
) -> u32
    requires row { ReadsAndHolds space.now pass.old row }
    requires shown { IsShownWith (sizes space.now) (tree_of pass.old) target.now.cursor.base target.now.many }
    requires place { IsPlaceFor placing.now.place target.now.many }
    requires inside { placing.now.row < row_limit }
    ensures frame { StillKeepsList pass.old pass.new }
    ensures written { HasWritten row (SpellsPut (first_note (tree_of pass.old).notes) placing.now.place placing.now.key.now placing.now.row
        target.now.cursor.level
        target.now.statistic) (known pass.old) (known pass.new) }
    ensures gone { IsItemAt placing.now.place (last_items (tree_of pass.old)) result }
{
    let mut prefix = Prefix::new();
    copy_prefix(space, pass, target.cursor.base, &mut prefix);
    let trimmed = trim(&prefix, placing.key);
    let placed = Placed {
        trimmed,
        place: placing.place,
        word: word_of_item(&placing.key[trimmed.prefix.len()..], placing.row),
    };
    write_placed(space, pass, row, target, &placed)
}

// Writes such a row with this prefix: the target's items, with their heads shifted, and with the one that this word says put at the place.
fn write_placed(
    space: &TreeSpace,
    pass: &mut TreePass,
    row: u32,
    target: &Target,
    placed: &Placed<'_>,
) -> u32
    requires row { ReadsAndHolds space.now pass.old row }
    requires shown { IsShownWith (sizes space.now) (tree_of pass.old) target.now.cursor.base target.now.many }
    requires place { IsPlaceFor placed.now.place target.now.many }
    requires prefix { IsFront placed.now.trimmed }
    ensures frame { StillKeepsList pass.old pass.new }
    ensures written { HasWritten row (SpellsBase placed.now.trimmed.prefix.now (put_in (shifted_words placed.now.trimmed.shift (last_words (tree_of pass.old)))
        placed.now.place placed.now.word) target.now.cursor.level target.now.statistic) (known pass.old) (known pass.new) }
    ensures gone { IsItemAt placed.now.place (last_items (tree_of pass.old)) result }
{
    let these = &[placed.word];
    let trimmed = placed.trimmed;
    match placed.place {
        Ok(at) => {
            let old = item_at(space, pass, target.cursor.base, at);
            let around = Around {
                trimmed,
                before: at,
                these,
                behind: at + 1,
            };
            write_around(space, pass, row, target, &around);
            old
        }
        Err(at) => {
            let around = Around {
                trimmed,
                before: at,
                these,
                behind: at,
            };
            write_around(space, pass, row, target, &around);
            0
        }
    }
}

/// Writes such a row without the item at a place, and answers that item. It keeps the target's prefix, where an item is left.
pub(crate) fn write_base_without(
    space: &TreeSpace,
    pass: &mut TreePass,
    row: u32,
    target: &Target,
    at: u32,
) -> u32
    requires row { ReadsAndHolds space.now pass.old row }
    requires shown { IsShownWith (sizes space.now) (tree_of pass.old) target.now.cursor.base target.now.many }
    requires place { at < target.now.many }
    ensures frame { StillKeepsList pass.old pass.new }
    ensures written { HasWritten row (SpellsLeft (first_note (tree_of pass.old).notes) at target.now.cursor.level target.now.statistic) (known pass.old)
        (known pass.new) }
    ensures gone { result ≡ slice_index (last_items (tree_of pass.old)) at }
{
    let mut prefix = Prefix::new();
    keep_prefix(space, pass, target, &mut prefix);
    write_left(space, pass, row, target, at, &prefix)
}

// The prefix of a base that lacks one of the target's objects: that of the target, or none where no object is left.
fn keep_prefix(space: &TreeSpace, pass: &mut TreePass, target: &Target, into: &mut Prefix)
    requires reading { IsReading space.now pass.old }
    requires shown { (note : Note) × IsBaseSeen (sizes space.now) (tree_of pass.old) target.now.cursor.base note }
    ensures frame { OnlyReads pass.old pass.new }
    ensures kept { 1 < target.now.many → (note : Note) → IsBaseSeen (sizes space.now) (tree_of pass.old) target.now.cursor.base note
        → into.new.items ≡ prefix_of note.its }
    ensures none { target.now.many ≤ 1 → into.new.items ≡ [] }
{
    into.clear();
    if target.many > 1 {
        copy_prefix(space, pass, target.cursor.base, into);
    }
}

// Writes such a row without the item at a place, with this prefix and the heads as they are, and answers that item.
fn write_left(
    space: &TreeSpace,
    pass: &mut TreePass,
    row: u32,
    target: &Target,
    at: u32,
    prefix: &[u8],
) -> u32
    requires row { ReadsAndHolds space.now pass.old row }
    requires shown { IsShownWith (sizes space.now) (tree_of pass.old) target.now.cursor.base target.now.many }
    requires place { at < target.now.many }
    requires short { length prefix.now ≤ 32 }
    ensures frame { StillKeepsList pass.old pass.new }
    ensures written { HasWritten row (SpellsBase prefix.now (remove (last_words (tree_of pass.old)) at) target.now.cursor.level target.now.statistic)
        (known pass.old) (known pass.new) }
    ensures gone { result ≡ slice_index (last_items (tree_of pass.old)) at }
{
    let old = item_at(space, pass, target.cursor.base, at);
    let shift = Shift { lead: 0, bytes: 0 };
    let around = Around {
        trimmed: Trimmed { prefix, shift },
        before: at,
        these: &[],
        behind: at + 1,
    };
    write_around(space, pass, row, target, &around);
    old
}

// The item at a place of the base that was shown last.
fn item_at(space: &TreeSpace, pass: &mut TreePass, base: u32, at: u32) -> u32
    requires reading { IsReading space.now pass.old }
    requires shown { IsShownLast (sizes space.now) (tree_of pass.old) base }
    requires place { (at < length (last_words (tree_of pass.old))) × (at < 120) }
    ensures frame { OnlyReads pass.old pass.new }
    ensures item { result ≡ slice_index (last_items (tree_of pass.old)) at }
{
    (load_word(space, pass, base, ITEMS + at) % ROW_LIMIT) as u32
}

// Writes such a row: the items before one place of the base that was shown last, these, and the items from another place on.
fn write_around(
    space: &TreeSpace,
    pass: &mut TreePass,
    row: u32,
    target: &Target,
    around: &Around<'_>,
)
    requires row { ReadsAndHolds space.now pass.old row }
    requires shown { IsShownWith (sizes space.now) (tree_of pass.old) target.now.cursor.base target.now.many }
    requires prefix { IsFront around.now.trimmed }
    requires places { (around.now.before ≤ target.now.many) × (around.now.behind ≤ target.now.many) }
    requires few { around.now.before + length around.now.these.now + (target.now.many - around.now.behind) ≤ 120 }
    ensures frame { StillKeepsList pass.old pass.new }
    ensures written { (words : List ℕ) → words ≡ shifted_words around.now.trimmed.shift (last_words (tree_of pass.old)) → HasWritten row (SpellsBase
        around.now.trimmed.prefix.now (take around.now.before words ++ (around.now.these.now ++ drop around.now.behind words)) target.now.cursor.level
        target.now.statistic) (known pass.old) (known pass.new) }
{
    let next = around.before + around.these.len() as u32;
    let rest = target.many - around.behind;
    let base = target.cursor.base;
    let first = Run {
        base,
        from: 0,
        count: around.before,
    };
    let last = Run {
        base,
        from: around.behind,
        count: rest,
    };
    let front = Front {
        level: target.cursor.level,
        statistic: target.statistic,
        prefix: around.trimmed.prefix,
    };
    let shift = around.trimmed.shift;
    write_head(space, pass, row, &front, next + rest);
    copy_items(space, pass, row, 0, first, shift);
    write_items(space, pass, row, around.before, around.these);
    copy_items(space, pass, row, next, last, shift);
}

// Copies items of a base that the pass was shown to a base row that it holds, with their heads shifted: so many, to the places from `to` on those from `from`
// on.
pub(crate) fn copy_items(
    space: &TreeSpace,
    pass: &mut TreePass,
    row: u32,
    to: u32,
    run: Run,
    shift: Shift,
)
    requires row { ReadsAndHolds space.now pass.old row }
    requires shown { (note : Note) × HasRun (sizes space.now) (tree_of pass.old) run note }
    requires places { (run.from + run.count ≤ 120) × (to + run.count ≤ 120) }
    requires shift { IsShift shift.lead shift.bytes }
    ensures frame { StillKeepsList pass.old pass.new }
    ensures filled { (note : Note) → HasRun (sizes space.now) (tree_of pass.old) run note → HasFilled row (items_word + to) run.count
        (λ k word. word ≡ slice_index (shifted_words shift (item_words note.its)) (run.from + k)) (known pass.old) (known pass.new) }
{
    for place in 0..run.count {
        let word = load_word(space, pass, run.base, ITEMS + run.from + place);
        set_word(space, pass, row, ITEMS + to + place, shifted(word, shift));
    }
}
