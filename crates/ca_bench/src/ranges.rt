//! Ranges of keys of numbers, read to their ends.
ghost use Rattle.std.specs.Prelude.{◌≡◌, None};
ghost use Rattle.ca_model.specs.Runs.{IsOpen};
ghost use Rattle.ca_replace.specs.Resting.{knows};

use crate::numbers::key_code;
use crate::player::BUDGET;
use ca_model::{Code, Edge, OrderedStore, Outcome};
use ca_replace::TreeStore;

/// Opens a run of the objects whose keys are this number or one of so many behind it, and reads it to its end: what became of it, and how many objects
/// it had. `into` is the last object that was read, or empty.
pub fn count_range(
    store: &mut TreeStore<'_>,
    from: u32,
    width: u32,
    into: &mut Code,
) -> (Outcome<bool>, u32)
    requires sizes { store.old.store.z.keypos ≡ 1 }
    requires closed { (knows store.old).run ≡ None }
    ensures sizes { store.new.store.z ≡ store.old.store.z }
    ensures closed { (knows store.new).run ≡ None }
{
    let (lo, hi) = (key_code(from), key_code(from.wrapping_add(width)));
    let outcome = store.range(
        Edge::At(&lo),
        Edge::At(&hi),
        0,
        &|_object: &[u8]| true,
        BUDGET,
    );
    let count = match outcome {
        Outcome::Done(_whole) => count_found(store, width, into),
        _ => 0,
    };
    store.close_run();
    (outcome, count)
}

// How many objects an open run has, which has no more than one beside so many.
fn count_found(store: &mut TreeStore<'_>, most: u32, into: &mut Code) -> u32
    requires open { IsOpen (knows store.old) }
    ensures sizes { store.new.store.z ≡ store.old.store.z }
{
    for count in 0..most.saturating_add(2) {
        if !next(store, into) {
            return count;
        }
    }
    u32::MAX
}

// The open run's next object.
fn next(store: &mut TreeStore<'_>, into: &mut Code) -> bool
    requires open { IsOpen (knows store.old) }
    ensures sizes { store.new.store.z ≡ store.old.store.z }
    ensures open { IsOpen (knows store.new) }
{
    store.found(into)
}
