//! Calls of the crate of codes for a program that is not Rattle, the speed harness.
//!
//! Terms come in as their codes, and a call answers 0 where a code is no term's or memory is lacking.
#![tactic(auto)]

ghost use Rattle.std.specs.Prelude.{◌≤◌};

use ca_order::{Code, compare, decode, encode};
use ca_term::Terms;
use std::alloc::Global;
use std::cmp::Ordering;

/// Encodes the term of a code so many times, and answers how many bytes were written, modulo 2^64.
#[unsafe(no_mangle)]
pub extern "C" fn ca_exports_encode(alloc: Global, code: &[u8], rounds: u32) -> u64 {
    let Ok(term) = decode(alloc, code) else {
        return 0;
    };
    let mut into = Code::new();
    let mut written = 0u64;
    for _ in 0..rounds {
        if encode(&term, &mut into).is_ok() {
            written = written.wrapping_add(into.len() as u64);
        }
    }
    written
}

/// Decodes a code so many times, and answers how many times it was a term's.
#[unsafe(no_mangle)]
pub extern "C" fn ca_exports_decode(alloc: Global, code: &[u8], rounds: u32) -> u64 {
    let mut read = 0u64;
    for _ in 0..rounds {
        if decode(alloc, code).is_ok() {
            read = read.wrapping_add(1);
        }
    }
    read
}

/// Compares each term of codes of `len` bytes each, one behind another, with the first one, so many times, and answers how
/// many times it was greater, modulo 2^64.
#[unsafe(no_mangle)]
pub extern "C" fn ca_exports_compare(alloc: Global, codes: &[u8], len: usize, rounds: u32) -> u64
    requires { 1 ≤ len }
{
    let mut terms = Terms::new(alloc);
    for code in codes.chunks(len) {
        let Ok(term) = decode(alloc, code) else {
            return 0;
        };
        if terms.push(term).is_err() {
            return 0;
        }
    }
    let Some((first, others)) = terms.as_slice().split_first() else {
        return 0;
    };
    let mut greater = 0u64;
    for _ in 0..rounds {
        for other in others {
            if compare(other, first) == Ordering::Greater {
                greater = greater.wrapping_add(1);
            }
        }
    }
    greater
}
