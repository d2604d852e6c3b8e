//! Ends of calls that edit nothing.
ghost use Rattle.std.specs.Prelude.{◌≡◌, ◌≤◌, [], None};
ghost use Rattle.ca_model.specs.Edges.{bound_of};
ghost use Rattle.ca_model.specs.Event.{Event, Get};
ghost use Rattle.ca_node.specs.States.{IsReadSince};
ghost use Rattle.ca_node.specs.Told.{IsEntered, ReadsLast};
ghost use Rattle.ca_replace.specs.Reads.{event_of};
ghost use Rattle.ca_replace.specs.Within.{range_event};
ghost use Rattle.ca_rows.specs.Passes.{IsOn, KeepsList, sizes, known};
ghost use Rattle.ca_node.specs.TreePasses.{tree_of};

use atomic_table::Play;
use ca_model::Edge;
use ca_node::{Knowledge, TreePass, TreeSpace};
use ca_range::Run;
use ca_rows::{ROW_WORDS, View};
use std::marker::{Brand, PhantomData};

// A call that edits nothing, with its answer.
#[derive(Clone, Copy)]
pub(crate) enum Read<'a> {
    // The key, and the object that has it.
    Got(&'a [u8], &'a [u8]),
    // A key that no object has.
    GotNothing(&'a [u8]),
    // The key of an object that was to be put, and that object: there is one with the key.
    NotNew(&'a [u8], &'a [u8]),
    // A key of which the object was to be removed: there is none.
    NothingToRemove(&'a [u8]),
    // A key of which the object was to be changed: there is none.
    NothingToChange(&'a [u8]),
    // The key, and the object that has it, which was not changed.
    Unchanged(&'a [u8], &'a [u8]),
    // A lower edge, and the first object within it.
    First(Edge<'a>, &'a [u8]),
    // A lower edge that no object is within.
    NoneAbove(Edge<'a>),
    // An upper edge, and the last object within it.
    Last(Edge<'a>, &'a [u8]),
    // An upper edge that no object is within.
    NoneBelow(Edge<'a>),
}

// Which event a step enters in the log. It exists in proofs alone.
pub(crate) trait Entered {
    ghost event: { Event };
}

impl Entered for Brand {
    ghost event = { Get [] None };
}

// A load that enters a call in the log.
pub(crate) struct ReadLast<K> {
    entered: PhantomData<K>,
}

impl<K: Entered> Play<(), View<Knowledge>> for ReadLast<K> {
    ghost then = { λ st m n m'. ReadsLast K.event st m n m' };
}

// Ends a call that edits nothing, by one load of a row's first word: the call is entered in the log, at the place of a state since the pin by which
// it answers. No call was answered since the pin.
pub(crate) fn enter(space: &TreeSpace, pass: &mut TreePass, row: u32, read: Read<'_>)
    requires own { IsOn space.now pass.old }
    requires inside { row ≤ (sizes space.now).rows }
    requires answer { IsReadSince (event_of read) (tree_of pass.old) }
    ensures frame { KeepsList pass.old pass.new }
    ensures entered { IsEntered (event_of read.entry) (known pass.old) (known pass.new) }
{
    enter_as::<Brand>(space, pass, row, read);
}

// The load that enters the event which K names.
fn enter_as<K: Entered>(space: &TreeSpace, pass: &mut TreePass, row: u32, _read: Read<'_>)
    requires own { IsOn space.now pass.old }
    requires inside { row ≤ (sizes space.now).rows }
    requires answer { IsReadSince K.event (tree_of pass.old) }
    ensures frame { KeepsList pass.old pass.new }
    ensures entered { IsEntered K.event (known pass.old) (known pass.new) }
{
    space.load::<ReadLast<K>>(pass, ROW_WORDS as u32 * row);
}

// Ends a call that opens a run of these bases, by one load of the last one's first word. What they have is that of a state since the pin, and no call was
// answered since.
pub(crate) fn enter_run(
    space: &TreeSpace,
    pass: &mut TreePass,
    run: Run,
    lo: Edge<'_>,
    hi: Edge<'_>,
)
    requires own { IsOn space.now pass.old }
    requires inside { run.last ≤ (sizes space.now).rows }
    requires answer { IsReadSince (range_event run (tree_of pass.old) (bound_of lo) (bound_of hi)) (tree_of pass.old) }
    ensures frame { KeepsList pass.old pass.new }
    ensures entered { IsEntered (range_event run (tree_of pass.old) (bound_of lo.entry) (bound_of hi.entry)) (known pass.old) (known pass.new) }
{
    enter_run_as::<Brand>(space, pass, run, lo, hi);
}

// The load that enters the event which K names.
fn enter_run_as<K: Entered>(
    space: &TreeSpace,
    pass: &mut TreePass,
    run: Run,
    _lo: Edge<'_>,
    _hi: Edge<'_>,
)
    requires own { IsOn space.now pass.old }
    requires inside { run.last ≤ (sizes space.now).rows }
    requires answer { IsReadSince K.event (tree_of pass.old) }
    ensures frame { KeepsList pass.old pass.new }
    ensures entered { IsEntered K.event (known pass.old) (known pass.new) }
{
    space.load::<ReadLast<K>>(pass, ROW_WORDS as u32 * run.last);
}
