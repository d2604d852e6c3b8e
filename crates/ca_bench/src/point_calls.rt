//! Point calls on a table over a plain store.
use crate::load::{Load, OBJECTS, usual_load};
use ca_ets::Reply;
use ca_model::{Outcome, Plain};
use ca_table::{Played, Table};
use ca_term::{Term, int};
use std::alloc::Global;
use std::io;
use std::rt::Clock;
use std::time::Instant;

const BUDGET: u32 = 1;

// How many calls are timed at once, and how often; the least time counts.
const CALLS: u32 = 1_000_000;

const RUNS: u32 = 5;

#[derive(Clone, Copy)]
enum Call {
    Lookup,
    Member,
    Insert,
    UpdateCounter,
}

fn play(
    alloc: Global,
    table: &mut Table<Plain>,
    call: Call,
    key: &Term,
    object: &Term,
    by: &Term,
) -> Played {
    match call {
        Call::Lookup => table.lookup(alloc, key, BUDGET),
        Call::Member => table.member(key, BUDGET),
        Call::Insert => table.insert(object, BUDGET),
        Call::UpdateCounter => table.update_counter(alloc, key, by, BUDGET),
    }
}

fn is_good(played: Played) -> bool {
    match played {
        Ok(Outcome::Done(Reply::Error(_))) => false,
        Ok(Outcome::Done(_)) => true,
        _ => false,
    }
}

// Calls at keys in an order without pattern; answers how many calls were done without an error.
fn play_many(alloc: Global, table: &mut Table<Plain>, call: Call, load: &Load) -> u32 {
    let by = int(1);
    let mut good = 0_u32;
    for i in 0..CALLS {
        let at = (i.wrapping_mul(7_919) % OBJECTS) as usize;
        if let (Some(key), Some(object)) = (
            load.keys.as_slice().get(at),
            load.objects.as_slice().get(at),
        ) {
            if is_good(play(alloc, table, call, key, object, &by)) {
                good = good.wrapping_add(1);
            }
        }
    }
    good
}

/// A table of these objects.
pub fn filled(alloc: Global, load: &Load) -> Table<Plain> {
    let mut table = Table::new(Plain::new(alloc, 1), 1);
    for object in load.objects.as_slice() {
        let _ = table.insert(object, BUDGET);
    }
    table
}

/// Prints a line for each kind of call: its name, and the nanoseconds of one.
pub fn time_point_calls<R: Clock + Print + Alloc<A = Global>>(rt: &R) -> io::Result<()> {
    let alloc = rt.alloc();
    let Some(load) = usual_load(alloc, OBJECTS) else {
        return println!(rt; "no memory");
    };
    let mut table = filled(alloc, &load);
    for (name, call) in [
        ("lookup", Call::Lookup),
        ("member", Call::Member),
        ("insert", Call::Insert),
        ("update_counter", Call::UpdateCounter),
    ] {
        let mut least = u128::MAX;
        let mut good = 0;
        for _ in 0..RUNS {
            let start = Instant::now(rt)?;
            good = play_many(alloc, &mut table, call, &load);
            least = least.min(start.elapsed(rt)?.as_nanos());
        }
        let nanos = least / u128::from(CALLS);
        if good == CALLS {
            println!(rt; "{name} {nanos}")?;
        } else {
            println!(rt; "{name} failed")?;
        }
    }
    Ok(())
}
