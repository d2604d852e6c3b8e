//! Walks, selections and batches on tables over a plain store, of three sizes.
use crate::load::{term_of, usual_load};
use crate::point_calls::filled;
use ca_ets::{Cont, Reply};
use ca_model::{Outcome, Plain};
use ca_table::{Played, Table};
use ca_term::{Term, Terms, int};
use std::alloc::Global;
use std::io;
use std::rt::Clock;
use std::time::Instant;

const BUDGET: u32 = 1;

const SIZES: [u32; 3] = [1_000, 10_000, 40_000];

// How many results a batch has.
const LIMIT: i64 = 100;

// How many objects are looked at in a run that is timed, and how often it is; the least time counts.
const LOOKED_AT: usize = 200_000;

const RUNS: u32 = 5;

#[derive(Clone, Copy)]
enum Walk {
    // `first`, and `next` up to the end.
    Next,
    // A `select_range` of so many objects.
    Range(usize),
    // A `select` of all.
    Select,
    // A `batch`, and `more` up to the end.
    Batch,
}

const WALKS: [(&str, Walk); 6] = [
    ("next", Walk::Next),
    ("range-10", Walk::Range(10)),
    ("range-100", Walk::Range(100)),
    ("range-1000", Walk::Range(1_000)),
    ("select", Walk::Select),
    ("batch-100", Walk::Batch),
];

// Calls that were done without an error, and how many keys or results they gave.
#[derive(Clone, Copy)]
struct Tally {
    calls: usize,
    found: usize,
}

impl Tally {
    // One call more, and what it gave; it tells whether the call gave something.
    fn add(&mut self, played: Played) -> bool {
        let Some(found) = found_by(played) else {
            return false;
        };
        self.calls = self.calls.wrapping_add(1);
        self.found = self.found.wrapping_add(found);
        found != 0
    }
}

// How many keys or results a call gave; `None` where it wasn't done, or with an error.
fn found_by(played: Played) -> Option<usize> {
    let Ok(Outcome::Done(reply)) = played else {
        return None;
    };
    match reply {
        Reply::Value(_key) => Some(1),
        Reply::List(results) => Some(results.len()),
        Reply::Batch(results, _more) => Some(results.len()),
        Reply::Coded(results) => Some(results.len()),
        Reply::CodedBatch(results, _more) => Some(results.len()),
        Reply::End => Some(0),
        _ => None,
    }
}

// Chooses all objects.
const SPECIFICATION: &str = "[{{'$1','$2','_'},[{'>','$2',0}],['$1']}]";

// The table's keys in order; `None` where a call failed.
fn keys_in_order(alloc: Global, table: &mut Table<Plain>, size: u32) -> Option<Terms> {
    let mut keys = Terms::new(alloc);
    let mut played = table.first(alloc, BUDGET);
    for _ in 0..size {
        let Ok(Outcome::Done(Reply::Value(key))) = played else {
            return None;
        };
        played = table.next(alloc, &key, BUDGET);
        keys.push(key).ok()?;
    }
    Some(keys)
}

// A selection between two keys with so many objects, each turn at another place.
fn select_some(
    alloc: Global,
    table: &mut Table<Plain>,
    keys: &[Term],
    spec: &Term,
    count: usize,
    turn: usize,
    tally: &mut Tally,
) {
    let places = keys.len().wrapping_sub(count).wrapping_add(1);
    let at = turn.wrapping_mul(7_919) % places.max(1);
    let end = at.wrapping_add(count);
    if let (Some(lo), Some(hi)) = (keys.get(at), keys.get(end.wrapping_sub(1))) {
        tally.add(table.select_range(alloc, lo, hi, spec, BUDGET));
    }
}

// All batches, the last of which answers that there are no more.
fn take_batches(
    alloc: Global,
    table: &mut Table<Plain>,
    spec: &Term,
    most: usize,
    tally: &mut Tally,
) {
    let mut cont = Cont::Never;
    let mut going = tally.add(table.batch(alloc, spec, &int(LIMIT), &mut cont, BUDGET));
    for _ in 0..most {
        if !going {
            return;
        }
        going = tally.add(table.more(alloc, &mut cont, BUDGET));
    }
}

// Walks so often over the table, or a part of it.
fn walk_often(
    alloc: Global,
    table: &mut Table<Plain>,
    walk: Walk,
    keys: &[Term],
    spec: &Term,
    rounds: usize,
) -> Tally {
    let mut tally = Tally { calls: 0, found: 0 };
    for turn in 0..rounds {
        match walk {
            Walk::Next => {
                for key in keys {
                    tally.add(table.next(alloc, key, BUDGET));
                }
            }
            Walk::Range(count) => select_some(alloc, table, keys, spec, count, turn, &mut tally),
            Walk::Select => {
                tally.add(table.select(alloc, spec, BUDGET));
            }
            Walk::Batch => take_batches(alloc, table, spec, keys.len(), &mut tally),
        }
    }
    tally
}

// Prints a line for a walk over these keys.
fn time_walk<R: Clock + Print + Alloc<A = Global>>(
    rt: &R,
    table: &mut Table<Plain>,
    name: &str,
    walk: Walk,
    keys: &[Term],
    spec: &Term,
) -> io::Result<()> {
    let size = keys.len();
    let (objects, wanted) = match walk {
        Walk::Next => (size, size.wrapping_sub(1)),
        Walk::Range(count) => (count, count),
        Walk::Select | Walk::Batch => (size, size),
    };
    let rounds = LOOKED_AT / objects.max(1);
    let mut least = u128::MAX;
    let mut tally = Tally { calls: 0, found: 0 };
    for _ in 0..RUNS {
        let start = Instant::now(rt)?;
        tally = walk_often(rt.alloc(), table, walk, keys, spec, rounds);
        least = least.min(start.elapsed(rt)?.as_nanos());
    }
    if tally.found != rounds.wrapping_mul(wanted) {
        return println!(rt; "{size} {name} failed");
    }
    let call = least / tally.calls.max(1) as u128;
    let one = least / tally.found.max(1) as u128;
    println!(rt; "{size} {name} {call} {one}")
}

/// Prints a line for each size and kind of walk: the size of the table, the kind's name, the nanoseconds of a call, and those of each key or object
/// that it gave.
pub fn time_walks<R: Clock + Print + Alloc<A = Global>>(rt: &R) -> io::Result<()> {
    let alloc = rt.alloc();
    for size in SIZES {
        let (Some(load), Some(spec)) = (usual_load(alloc, size), term_of(alloc, SPECIFICATION))
        else {
            return println!(rt; "no memory");
        };
        let mut table = filled(alloc, &load);
        let Some(keys) = keys_in_order(alloc, &mut table, size) else {
            return println!(rt; "no keys");
        };
        for (name, walk) in WALKS {
            time_walk(rt, &mut table, name, walk, keys.as_slice(), &spec)?;
        }
    }
    Ok(())
}
