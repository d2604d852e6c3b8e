//! Calls of the plain store inside, which are always done.
ghost use Rattle.std.specs.Prelude.{ℕ, List, ◌≡◌, ◌≤◌, ◌+◌, ◌∷◌, [], length, slice_range, OnOk};
ghost use Rattle.ca_term.specs.declared.bounds.TheConstants.{MOST_CODE_BYTES};
ghost use Rattle.ca_model.specs.declared.outcome.Outcome.TheVariants.{Done};
ghost use Rattle.ca_model.specs.StoreMap.{IsPair};
ghost use Rattle.ca_model.specs.Event.{Write, WriteNew};
ghost use Rattle.ca_model.specs.Answer.{IsDone};
ghost use Rattle.ca_model.specs.Known.{Stays};
ghost use Rattle.ca_model.specs.Edges.{bound_of, IsProperBound};
ghost use Rattle.ca_model.specs.Function.{KeepsKey, MayBeAskedFor, MayBeAskedForAll};
ghost use Rattle.ca_test_store.specs.Played.{GotSuch, RemovedSuch, RemovedIfSuch, AlteredSuch, AboveSuch, BelowSuch};
ghost use Rattle.ca_test_store.specs.Inner.{IsInner, IsReady, HasMade, Answers, InnerOpens};

use crate::foreign::{Foreign, ForeignEdit};
use ca_model::{Changed, Code, Edge, OrderedStore, Outcome, Plain};
use std::alloc::AllocError;

const BUDGET: u32 = 1;

// Makes room for so many more keys than there is room for.
pub(crate) fn add_rooms(objects: &mut Plain, count: usize) -> Result<(), AllocError>
    ensures room { OnOk result (objects.old.spare + count ≤ objects.new.spare) }
    ensures stays { Stays objects.old objects.new }
{
    let mut left = count;
    while left > 0 {
        let Ok(()) = objects.add_room() else {
            return Err(AllocError);
        };
        left -= 1;
    }
    Ok(())
}

// Makes these edits of others.
pub(crate) fn make(objects: &mut Plain, edits: &[Foreign])
    requires { IsReady objects.old edits.now }
    ensures { HasMade objects.old objects.new edits.now }
{
    let mut rest = edits;
    while let Some((edit, behind)) = rest.split_first() {
        make_one(objects, edit);
        rest = behind;
    }
}

fn make_one(objects: &mut Plain, edit: &Foreign)
    requires { IsReady objects.old (edit.now ∷ []) }
    ensures { HasMade objects.old objects.new (edit.now ∷ []) }
{
    let placed = match &edit.edit {
        ForeignEdit::Put(placed) => placed,
        ForeignEdit::Remove(key) => {
            remove(objects, key.as_slice(), &mut Code::new());
            return;
        }
    };
    put(
        objects,
        placed.object.as_slice(),
        placed.key_at,
        placed.key_end,
    );
}

// The value of a call that was done.
fn value<T>(outcome: Outcome<T>) -> T
    requires { IsDone outcome }
    ensures { outcome ≡ Done result }
{
    let Outcome::Done(value) = outcome else {
        unreachable!()
    };
    value
}

// Whether an object has the key; then `into` is the object.
pub(crate) fn get(objects: &mut Plain, key: &[u8], into: &mut Code) -> bool
    requires inner { IsInner objects.old }
    requires key { (1 ≤ length key.now) × (length key.now ≤ MOST_CODE_BYTES) }
    ensures { GotSuch (Answers objects.old objects.new 0) key.now result into.new.items }
{
    value(objects.get(key, into, BUDGET))
}

// Puts the object, in the place of its key's object where there is one.
pub(crate) fn put(objects: &mut Plain, object: &[u8], key_at: usize, key_end: usize)
    requires inner { IsInner objects.old }
    requires room { 1 ≤ objects.old.spare }
    requires place { (key_at ≤ key_end) × (key_end ≤ length object.now) }
    requires pair { IsPair objects.old.keypos (slice_range object.now key_at key_end, object.now) }
    ensures { Answers objects.old objects.new 1 (Write (slice_range object.now key_at key_end) object.now) }
{
    value(objects.put(object, key_at, key_end, BUDGET))
}

// Puts the object where no object has its key, and answers whether it did.
pub(crate) fn put_new(objects: &mut Plain, object: &[u8], key_at: usize, key_end: usize) -> bool
    requires inner { IsInner objects.old }
    requires room { 1 ≤ objects.old.spare }
    requires place { (key_at ≤ key_end) × (key_end ≤ length object.now) }
    requires pair { IsPair objects.old.keypos (slice_range object.now key_at key_end, object.now) }
    ensures { Answers objects.old objects.new 1 (WriteNew (slice_range object.now key_at key_end) object.now result) }
{
    value(objects.put_new(object, key_at, key_end, BUDGET))
}

// Removes the key's object, and answers whether there was one; then `old` is the object.
pub(crate) fn remove(objects: &mut Plain, key: &[u8], old: &mut Code) -> bool
    requires inner { IsInner objects.old }
    requires key { (1 ≤ length key.now) × (length key.now ≤ MOST_CODE_BYTES) }
    ensures { RemovedSuch (Answers objects.old objects.new 0) key.now result old.new.items }
{
    value(objects.remove(key, old, BUDGET))
}

// Removes the key's object where `f` answers true on it.
pub(crate) fn remove_if<F: Fn(&[u8]) -> bool>(
    objects: &mut Plain,
    key: &[u8],
    f: &F,
    old: &mut Code,
) -> Changed
    requires inner { IsInner objects.old }
    requires key { (1 ≤ length key.now) × (length key.now ≤ MOST_CODE_BYTES) }
    requires function { MayBeAskedFor F.Fn f.now objects.old.keypos key.now }
    ensures { RemovedIfSuch F.Fn f.now (Answers objects.old objects.new 0) key.now result old.new.items }
{
    value(objects.remove_if(key, f, old, BUDGET))
}

// Replaces the key's object by what `f` writes, where it answers true.
pub(crate) fn change<F: Fn(&[u8], &mut Code, &mut usize) -> bool>(
    objects: &mut Plain,
    key: &[u8],
    f: &F,
    old: &mut Code,
) -> Changed
    requires inner { IsInner objects.old }
    requires key { (1 ≤ length key.now) × (length key.now ≤ MOST_CODE_BYTES) }
    requires function { KeepsKey F.Fn f.now objects.old.keypos key.now }
    ensures { AlteredSuch F.Fn f.now (Answers objects.old objects.new 0) key.now result old.new.items }
{
    value(objects.change(key, f, old, BUDGET))
}

// Whether an object is within the lower edge; then `into` is the first one.
pub(crate) fn above(objects: &mut Plain, lo: Edge<'_>, into: &mut Code) -> bool
    requires inner { IsInner objects.old }
    requires edge { IsProperBound (bound_of lo) }
    ensures { AboveSuch (Answers objects.old objects.new 0) (bound_of lo.entry) result into.new.items }
{
    value(objects.above(lo, into, BUDGET))
}

// Whether an object is within the upper edge; then `into` is the last one.
pub(crate) fn below(objects: &mut Plain, hi: Edge<'_>, into: &mut Code) -> bool
    requires inner { IsInner objects.old }
    requires edge { IsProperBound (bound_of hi) }
    ensures { BelowSuch (Answers objects.old objects.new 0) (bound_of hi.entry) result into.new.items }
{
    value(objects.below(hi, into, BUDGET))
}

// Opens a run of the objects within both edges.
pub(crate) fn range<F: Fn(&[u8]) -> bool>(
    objects: &mut Plain,
    lo: Edge<'_>,
    hi: Edge<'_>,
    want: u32,
    counts: &F,
)
    requires inner { IsInner objects.old }
    requires lower_edge { IsProperBound (bound_of lo) }
    requires upper_edge { IsProperBound (bound_of hi) }
    requires function { MayBeAskedForAll F.Fn counts.now objects.old.keypos }
    ensures { (found : List (List ℕ)) × InnerOpens objects.old objects.new (bound_of lo.entry) (bound_of hi.entry) found }
{
    value(objects.range(lo, hi, want, counts, BUDGET));
}
