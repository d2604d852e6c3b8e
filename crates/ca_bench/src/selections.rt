//! A match specification on objects, beside reading them from their codes.
use crate::load::{term_of, terms_of};
use ca_order::{Code, decode, encode};
use ca_spec::{Spec, apply, compile};
use ca_term::Term;
use std::alloc::{AllocError, Global};
use std::io;
use std::rt::Clock;
use std::time::Instant;

// How many objects there are, how often all are matched at once, and how often that is timed; the least time counts.
const OBJECTS: u32 = 1_000;

const ROUNDS: u32 = 1_000;

const RUNS: u32 = 5;

// The parts of the object `{<<"userN">>,N,active,1700000000,[{ip,<<"10.0.0.7">>}]}`, between which its number stands.
const SESSION: &[&str] = &[
    "{<<\"user",
    "\">>,",
    ",active,1700000000,[{ip,<<\"10.0.0.7\">>}]}",
];

const SPECIFICATION: &str = "[{{'$1','$2',active,'_','_'},[{'>','$2',499}],['$1']}]";

// Matches each object; answers how many were chosen.
fn select(alloc: Global, spec: &Spec, objects: &[Term]) -> u32 {
    let mut chosen = 0_u32;
    for object in objects {
        if let Ok(Some(_)) = apply(alloc, spec, object) {
            chosen = chosen.wrapping_add(1);
        }
    }
    chosen
}

// Reads each object from its code; answers how many were read.
fn read(alloc: Global, codes: &[Code]) -> u32 {
    let mut read = 0_u32;
    for code in codes {
        if decode(alloc, code.as_slice()).is_ok() {
            read = read.wrapping_add(1);
        }
    }
    read
}

fn codes_of(alloc: Global, objects: &[Term]) -> Result<Vec<Code>, AllocError> {
    let mut codes = Vec::new(alloc);
    for object in objects {
        let mut code = Code::new();
        if encode(object, &mut code).is_ok() {
            codes.push(code)?;
        }
    }
    Ok(codes)
}

// Calls it so often, and so often again; answers the least time of a round in nanoseconds, and what the last call answered.
fn least_time<R: Clock, F: Fn() -> u32>(rt: &R, call: F) -> io::Result<(u128, u32)>
    requires { F.IsAlwaysCallable call }
{
    let mut least = u128::MAX;
    let mut answer = 0_u32;
    for _ in 0..RUNS {
        let start = Instant::now(rt)?;
        for _ in 0..ROUNDS {
            answer = call();
        }
        least = least.min(start.elapsed(rt)?.as_nanos());
    }
    Ok((least / u128::from(ROUNDS), answer))
}

/// Prints the nanoseconds of one object, and of how many objects that came out: those chosen, and those read from their codes.
pub fn time_selections<R: Clock + Print + Alloc<A = Global>>(rt: &R) -> io::Result<()> {
    let alloc = rt.alloc();
    let (Some(objects), Some(spec)) = (
        terms_of(alloc, SESSION, OBJECTS),
        term_of(alloc, SPECIFICATION),
    ) else {
        return println!(rt; "no memory");
    };
    let (Ok(spec), Ok(codes)) = (compile(alloc, &spec), codes_of(alloc, objects.as_slice())) else {
        return println!(rt; "no memory");
    };
    let (apply_time, chosen) = least_time(rt, || select(alloc, &spec, objects.as_slice()))?;
    let (decode_time, known) = least_time(rt, || read(alloc, codes.as_slice()))?;
    println!(rt; "apply {} {chosen}", apply_time / u128::from(OBJECTS))?;
    println!(rt; "decode {} {known}", decode_time / u128::from(OBJECTS))
}
