//! The edges of a range: where they are among the objects of a base, whether a base has all keys up to the upper one, and the row that says up to where.
ghost use Rattle.std.specs.Prelude.{◌≡◌, ◌≤◌, false, drop, length, map, take};
ghost use Rattle.ca_base.specs.Finding.{IsReadable};
ghost use Rattle.ca_base.specs.Holding.{HoldsRow};
ghost use Rattle.ca_base.specs.Readiness.{shown_last};
ghost use Rattle.ca_base.specs.Writing.{HasWritten};
ghost use Rattle.ca_model.specs.Edges.{Excluded, IsProperBound, bound_of, from, up_to};
ghost use Rattle.ca_model.specs.RunView.{ArePlaces};
ghost use Rattle.ca_node.specs.Row.{pair};
ghost use Rattle.ca_node.specs.TreePasses.{tree_of};
ghost use Rattle.ca_node.specs.TreeView.{Note};
ghost use Rattle.ca_node.specs.Layout.{below_key};
ghost use Rattle.ca_range.specs.Ahead.{IsAtLast};
ghost use Rattle.ca_range.specs.Edged.{SpellsBorder, SpellsKeyed, reaches_to};
ghost use Rattle.ca_rows.specs.Passes.{IsReading, OnlyReads, StillKeepsList, known, sizes};

use crate::reaching::copy_key;
use ca_base::{count, search, write_bytes, write_words};
use ca_model::{Code, Edge};
use ca_node::{
    BELOW_KEY, BORDER, COUNT_LIMIT, Cursor, KEY, TO_KEY, TO_NO_END, TreePass, TreeSpace,
};

/// How many objects of a base that the pass was shown stand before a lower edge.
pub fn place_from(space: &TreeSpace, pass: &mut TreePass, base: u32, lo: Edge<'_>) -> u32
    requires reading { IsReading space.now pass.old }
    requires readable { (note : Note) × IsReadable (sizes space.now) (tree_of pass.old) base note }
    ensures frame { OnlyReads pass.old pass.new }
    ensures inside { (note : Note) → IsReadable (sizes space.now) (tree_of pass.old) base note → result ≤ length note.objects }
    ensures start { (note : Note) → IsReadable (sizes space.now) (tree_of pass.old) base note
        → from (bound_of lo.entry) (map pair note.objects) ≡ drop result (map pair note.objects) }
{
    match lo {
        Edge::Open => 0,
        Edge::At(key) => places(space, pass, base, key).0,
        Edge::Past(key) => places(space, pass, base, key).1,
    }
}

/// How many objects of a base that the pass was shown stand before the end of an upper edge.
pub fn place_to(space: &TreeSpace, pass: &mut TreePass, base: u32, hi: Edge<'_>) -> u32
    requires reading { IsReading space.now pass.old }
    requires readable { (note : Note) × IsReadable (sizes space.now) (tree_of pass.old) base note }
    ensures frame { OnlyReads pass.old pass.new }
    ensures inside { (note : Note) → IsReadable (sizes space.now) (tree_of pass.old) base note → result ≤ length note.objects }
    ensures end { (note : Note) → IsReadable (sizes space.now) (tree_of pass.old) base note
        → up_to (bound_of hi.entry) (map pair note.objects) ≡ take result (map pair note.objects) }
{
    match hi {
        Edge::Open => count(space, pass, base),
        Edge::At(key) => places(space, pass, base, key).1,
        Edge::Past(key) => places(space, pass, base, key).0,
    }
}

// How many objects of a base that the pass was shown have a less key, and how many have no greater one.
fn places(space: &TreeSpace, pass: &mut TreePass, base: u32, key: &[u8]) -> (u32, u32)
    requires reading { IsReading space.now pass.old }
    requires readable { (note : Note) × IsReadable (sizes space.now) (tree_of pass.old) base note }
    ensures frame { OnlyReads pass.old pass.new }
    ensures places { (note : Note) → IsReadable (sizes space.now) (tree_of pass.old) base note
        → ArePlaces (map pair note.objects) key.now result.0 result.1 }
{
    match search(space, pass, base, key) {
        Ok(at) => (at, at + 1),
        Err(at) => (at, at),
    }
}

/// Whether a base that has all keys less than this one, from where it begins, has all up to the upper edge.
pub(crate) fn goes_to(hi: Edge<'_>, key: &[u8]) -> bool
    ensures { result ≡ reaches_to (bound_of hi.entry) (Excluded key.now) }
{
    match hi {
        Edge::Open => false,
        Edge::At(end) => end.cmp(key).is_lt(),
        Edge::Past(end) => end.cmp(key).is_le(),
    }
}

/// Whether the base that was shown last has all keys up to the upper edge. Else `key` is the one that its keys end below.
pub(crate) fn is_whole(
    space: &TreeSpace,
    pass: &mut TreePass,
    hi: Edge<'_>,
    cursor: &Cursor,
    key: &mut Code,
) -> bool
    requires reading { IsReading space.now pass.old }
    requires at { IsAtLast (sizes space.now) (tree_of pass.old) cursor.now }
    ensures frame { OnlyReads pass.old pass.new }
    ensures whole { result ≡ reaches_to (bound_of hi.entry) (shown_last pass.old).place.span.high }
    ensures key { result ≡ false → (shown_last pass.old).place.span.high ≡ Excluded key.new.items }
{
    let Some(route) = cursor.high else {
        return true;
    };
    copy_key(space, pass, route, key);
    goes_to(hi, key)
}

/// Writes a row that says up to where a range of this pass goes: which edge it is, the key that it is at, and the pass's number.
pub(crate) fn write_border(space: &TreeSpace, pass: &mut TreePass, row: u32, hi: Edge<'_>)
    requires row { HoldsRow space.now pass.old row }
    requires proper { IsProperBound (bound_of hi) }
    ensures frame { StillKeepsList pass.old pass.new }
    ensures written { HasWritten row (SpellsBorder pass.old.number (bound_of hi.entry)) (known pass.old) (known pass.new) }
{
    match hi {
        Edge::Open => write_keyed(space, pass, row, TO_NO_END, &[]),
        Edge::At(key) => write_keyed(space, pass, row, TO_KEY, key),
        Edge::Past(key) => write_keyed(space, pass, row, BELOW_KEY, key),
    }
}

// Writes such a row, with this end and this key, eight bytes a word, with zeros behind their end to the end of the word.
fn write_keyed(space: &TreeSpace, pass: &mut TreePass, row: u32, end: u64, key: &[u8])
    requires row { HoldsRow space.now pass.old row }
    requires end { end ≤ below_key }
    requires short { length key.now ≤ 1000 }
    ensures frame { StillKeepsList pass.old pass.new }
    ensures written { HasWritten row (SpellsKeyed pass.old.number end key.now) (known pass.old) (known pass.new) }
{
    let form = BORDER + end * COUNT_LIMIT + key.len() as u64;
    let number = u64::from(pass.number());
    write_words(space, pass, row, &[form, number]);
    write_bytes(space, pass, row, KEY, key);
}
