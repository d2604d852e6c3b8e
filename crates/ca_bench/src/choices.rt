//! Selections of none, a tenth and all of the objects of tables over a plain store, by a guard.
use crate::load::{term_of, terms_of};
use ca_ets::Reply;
use ca_model::{Outcome, Plain};
use ca_table::Table;
use ca_term::{Term, Terms};
use std::alloc::Global;
use std::fmt::Write;
use std::io;
use std::rt::Clock;
use std::time::Instant;

const BUDGET: u32 = 1;

const SIZES: [u32; 2] = [1_000, 10_000];

// How many objects are looked at in a run that is timed, and how often it is; the least time counts.
const LOOKED_AT: usize = 100_000;

const RUNS: u32 = 5;

// Objects by their number of elements: the parts between which an object's number stands, and the head that they are matched by.
struct Kind {
    elements: u32,
    parts: &'static [&'static str],
    head: &'static str,
}

const KINDS: [Kind; 2] = [
    Kind {
        elements: 3,
        parts: &["{<<\"user", "\">>,", ",active}"],
        head: "{'$1','$2',active}",
    },
    Kind {
        elements: 10,
        parts: &[
            "{<<\"user",
            "\">>,",
            ",active,1700000000,0,1,2,[{ip,<<\"10.0.0.7\">>}],web,eu}",
        ],
        head: "{'$1','$2',active,'_','_','_','_','_','_','_'}",
    },
];

// How many of a hundred objects are chosen.
const SHARES: [u32; 3] = [0, 10, 100];

const RESULTS: [&str; 3] = ["'$_'", "'$1'", "true"];

// The specification that chooses the objects with numbers below this one.
fn specification(alloc: Global, head: &str, below: u32, body: &str) -> Option<Term> {
    let mut text = String::new(alloc);
    write!(text, "[{{{head},[{{'<','$2',{below}}}],[{body}]}}]").ok()?;
    term_of(alloc, text.as_str())
}

fn filled(alloc: Global, objects: &Terms) -> Table<Plain> {
    let mut table = Table::new(Plain::new(alloc, 1), 1);
    for object in objects.as_slice() {
        let _ = table.insert(object, BUDGET);
    }
    table
}

// How many results a selection has; `None` where it failed.
fn chosen(alloc: Global, table: &mut Table<Plain>, spec: &Term) -> Option<usize> {
    match table.select(alloc, spec, BUDGET) {
        Ok(Outcome::Done(Reply::List(results))) => Some(results.len()),
        Ok(Outcome::Done(Reply::Coded(results))) => Some(results.len()),
        _ => None,
    }
}

// The least time of some runs, each of so many selections, and how many results the last selection had.
fn least_time<R: Clock + Alloc<A = Global>>(
    rt: &R,
    table: &mut Table<Plain>,
    spec: &Term,
    rounds: usize,
) -> io::Result<(u128, Option<usize>)> {
    let mut least = u128::MAX;
    let mut found = None;
    for _ in 0..RUNS {
        let start = Instant::now(rt)?;
        for _ in 0..rounds {
            found = chosen(rt.alloc(), table, spec);
        }
        least = least.min(start.elapsed(rt)?.as_nanos());
    }
    Ok((least, found))
}

/// Prints a line for each kind of object, size, share and result: these four, and the nanoseconds of an object of the table.
pub fn time_choices<R: Clock + Print + Alloc<A = Global>>(rt: &R) -> io::Result<()> {
    let alloc = rt.alloc();
    for kind in &KINDS {
        for size in SIZES {
            let Some(objects) = terms_of(alloc, kind.parts, size) else {
                return println!(rt; "no memory");
            };
            let mut table = filled(alloc, &objects);
            for share in SHARES {
                time_results(rt, kind, &mut table, size, share)?;
            }
        }
    }
    Ok(())
}

// A line for each result.
fn time_results<R: Clock + Print + Alloc<A = Global>>(
    rt: &R,
    kind: &Kind,
    table: &mut Table<Plain>,
    size: u32,
    share: u32,
) -> io::Result<()> {
    let rounds = LOOKED_AT / size.max(1) as usize;
    let below = (size / 100).wrapping_mul(share);
    for result in RESULTS {
        let Some(spec) = specification(rt.alloc(), kind.head, below, result) else {
            return println!(rt; "no memory");
        };
        let (least, found) = least_time(rt, table, &spec, rounds)?;
        let each = least / LOOKED_AT as u128;
        if found == Some(below as usize) {
            println!(rt; "{} {size} {share} {result} {each}", kind.elements)?;
        } else {
            println!(rt; "{} {size} {share} {result} failed", kind.elements)?;
        }
    }
    Ok(())
}
