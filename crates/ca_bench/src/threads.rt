//! Calls of clients on threads, each with a pass of its own on one tree that is one leaf.
use crate::coded::coded_load;
use crate::load::{USUAL, terms_of};
use crate::player::{Load, Mix};
use crate::trees::rate_of;
use ca_adapt::Tuning;
use std::alloc::{AllocError, Global};
use std::io;
use std::rt::Clock;
use std::thread::Threads;

// How many calls all clients together play in a run.
const CALLS: u32 = 1_000_000;

// How many objects a leaf may have, and how many it has.
const LEAVES: [(u8, u32); 4] = [(12, 10), (24, 20), (60, 45), (120, 90)];

const MIXES: [(&str, Mix); 3] = [
    ("lookups", Mix::Present),
    ("puts", Mix::Puts),
    ("mixed", Mix::ComeAndGo),
];

const THREADS: [u32; 3] = [1, 2, 4];

// The tuning of a tree that is one leaf.
const ONE_LEAF: Tuning = Tuning {
    leaf: 120,
    levels: 0,
    lost: 0,
    calm: 0,
    range: 0,
    high: 0,
    low: 0,
};

// Prints the lines of a leaf with these objects.
fn time_leaf<R: Clock + Print + Threads + Sync + Alloc<A = Global>>(
    rt: &R,
    leaf: u8,
    load: Load<'_>,
    first: &[u32],
) -> io::Result<()> {
    let tuning = Tuning { leaf, ..ONE_LEAF };
    let count = load.present;
    for (name, mix) in MIXES {
        for threads in THREADS {
            match rate_of(rt, tuning, (load, first), (mix, CALLS), threads)? {
                Some((rate, _)) => {
                    println!(rt; "tree,{name},{leaf},{count},{threads},{rate}")?;
                }
                None => println!(rt; "tree,{name},{leaf},{count},{threads},failed")?,
            }
        }
    }
    Ok(())
}

/// Prints a line of comma-separated values for each mix of calls, size of the leaf and number of threads: who, the mix, how many objects the leaf
/// may have and how many it has, how many threads, and how many thousand calls a second they carry out together.
pub fn time_threads<R: Clock + Print + Threads + Sync + Alloc<A = Global>>(
    rt: &R,
) -> io::Result<()> {
    let alloc = rt.alloc();
    for (leaf, present) in LEAVES {
        let keys = u32::from(leaf);
        let Some(objects) = terms_of(alloc, USUAL, keys) else {
            return println!(rt; "no memory");
        };
        let (Ok(coded), Ok(first)) = (
            coded_load(alloc, objects.as_slice()),
            numbers(alloc, present),
        ) else {
            return println!(rt; "no memory");
        };
        let load = Load {
            keys,
            present,
            coded: coded.as_slice(),
        };
        time_leaf(rt, leaf, load, first.as_slice())?;
    }
    Ok(())
}

// The numbers below the count.
fn numbers(alloc: Global, count: u32) -> Result<Vec<u32>, AllocError> {
    let mut numbers = Vec::new(alloc);
    for number in 0..count {
        numbers.push(number)?;
    }
    Ok(numbers)
}
