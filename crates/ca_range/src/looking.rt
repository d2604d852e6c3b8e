//! What is found in the bases that a snapshot goes to.
ghost use Rattle.std.specs.Prelude.{◌≡◌, ◌+◌, ◌<◌, ◌≤◌};
ghost use Rattle.ca_base.specs.Finding.{IsReadable};
ghost use Rattle.ca_base.specs.Putting.{first_note};
ghost use Rattle.ca_model.specs.Edges.{bound_of};
ghost use Rattle.ca_model.specs.Function.{MayBeAskedForAll};
ghost use Rattle.ca_node.specs.Place.{Span};
ghost use Rattle.ca_node.specs.States.{HasState, IsAlone};
ghost use Rattle.ca_node.specs.Told.{with_upper};
ghost use Rattle.ca_node.specs.TreePasses.{tree_of};
ghost use Rattle.ca_node.specs.Walking.{IsSought};
ghost use Rattle.ca_range.specs.Lonely.{WalksAlone};
ghost use Rattle.ca_range.specs.Looking.{BeginsFor, HasAdded, HasCountedAll, HasLooked, HoldsEdge, IsFirst, IsGoneTo};
ghost use Rattle.ca_range.specs.Staying.{OnlySteps};
ghost use Rattle.ca_rows.specs.Passes.{OnlyReads, IsReading, KeepsList, sizes, known};

use crate::counting::{Part, count_in};
use crate::edging::{is_whole, place_from};
use crate::sought::Sought;
use ca_base::count;
use ca_model::{Code, Edge};
use ca_node::{Cursor, Spot, TreePass, TreeSpace, walk};

/// What is found in a base that a snapshot goes to.
#[derive(Clone, Copy)]
pub(crate) enum Looked {
    /// No more bases are needed. Whether the base has all keys up to the upper edge.
    Done(bool),
    /// The next base is needed, too. So many objects were counted.
    On(u32),
}

/// Walks to the first base that has keys within a lower edge.
pub(crate) fn walk_to_first(space: &TreeSpace, pass: &mut TreePass, lo: Edge<'_>) -> Cursor
    requires reading { IsReading space.now pass.old }
    requires leaf { (sizes space.now).leaf ≤ 120 }
    ensures frame { KeepsList pass.old pass.new }
    ensures raised { known pass.new ≡ with_upper (known pass.old) (tree_of pass.new) }
    ensures steps { OnlySteps (sizes space.now) 0 (tree_of pass.old) (tree_of pass.new) }
    ensures no_join { (tree_of pass.new).joins ≡ (tree_of pass.old).joins }
    ensures turns { (tree_of pass.new).turns ≡ (tree_of pass.old).turns }
    ensures loads { (tree_of pass.new).loads ≤ (tree_of pass.old).loads + ((sizes space.now).levels + 1) }
    ensures unfinished { (tree_of pass.new).ranges.unfinished ≡ (tree_of pass.old).ranges.unfinished }
    ensures last { (tree_of pass.new).last ≡ first_note (tree_of pass.new).notes }
    ensures holds { HoldsEdge (bound_of lo.entry) (tree_of pass.new).last.place.span }
    ensures first { IsFirst (sizes space.now) (bound_of lo.entry) (tree_of pass.new) result }
    ensures has { HasState (sizes space.now) (tree_of pass.new) (first_note (tree_of pass.new).notes) }
    ensures alone { IsAlone (sizes space.now) (tree_of pass.old) → WalksAlone (tree_of pass.old) (tree_of pass.new) }
{
    walk(space, pass, spot_of(lo))
}

// Where the first keys within a lower edge are.
fn spot_of<'a>(lo: Edge<'a>) -> Spot<'a>
    ensures begins { (span : Span) → IsSought result span → BeginsFor (bound_of lo.entry) span }
    ensures holds { (span : Span) → IsSought result span → HoldsEdge (bound_of lo.entry) span }
{
    match lo {
        Edge::Open => Spot::First,
        Edge::At(key) => Spot::At(key),
        Edge::Past(key) => Spot::At(key),
    }
}

/// Looks whether a snapshot ends with the base that was shown last, where so many objects were counted in those before. Where it goes on `key` is where the
/// base ends.
pub(crate) fn look<F: Fn(&[u8]) -> bool>(
    space: &TreeSpace,
    pass: &mut TreePass,
    cursor: &Cursor,
    sought: &Sought<'_, F>,
    counted: u32,
    key: &mut Code,
) -> Looked
    requires reading { IsReading space.now pass.old }
    requires gone { IsGoneTo (sizes space.now) (tree_of pass.old) cursor.now }
    requires function { MayBeAskedForAll F.Fn sought.now.counts.now (sizes space.now).keypos }
    ensures frame { OnlyReads pass.old pass.new }
    ensures looked { HasLooked F.Fn sought.now counted result key.new.items (first_note (tree_of pass.old).notes) }
{
    if is_whole(space, pass, sought.hi, cursor, key) {
        return Looked::Done(true);
    }
    let now = count_on(space, pass, cursor.base, sought, counted);
    if sought.want > 0 && now >= sought.want {
        Looked::Done(false)
    } else {
        Looked::On(now)
    }
}

// How many objects are counted with those of a base. Where none are wanted, none are looked at.
fn count_on<F: Fn(&[u8]) -> bool>(
    space: &TreeSpace,
    pass: &mut TreePass,
    base: u32,
    sought: &Sought<'_, F>,
    counted: u32,
) -> u32
    requires reading { IsReading space.now pass.old }
    requires readable { IsReadable (sizes space.now) (tree_of pass.old) base (first_note (tree_of pass.old).notes) }
    requires function { MayBeAskedForAll F.Fn sought.now.counts.now (sizes space.now).keypos }
    ensures frame { OnlyReads pass.old pass.new }
    ensures added { HasAdded F.Fn sought.now counted result (first_note (tree_of pass.old).notes) }
    ensures all { 1 ≤ sought.now.want → result < sought.now.want → HasCountedAll F.Fn sought.now counted result (first_note (tree_of pass.old).notes) }
{
    if sought.want == 0 {
        return counted;
    }
    let from = place_from(space, pass, base, sought.lo);
    let end = count(space, pass, base);
    count_in(space, pass, Part { base, from, end }, sought, counted)
}
