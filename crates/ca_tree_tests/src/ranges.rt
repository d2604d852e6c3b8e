//! Calls that read ranges, by the numbers of their edges, and what they found of objects with numbers below 64 and the value 0.
ghost use Rattle.std.specs.Prelude.{◌≡◌, ◌≤◌, IsTrue, None, length};
ghost use Rattle.ca_model.specs.Edges.{bound_of, IsProperBound};
ghost use Rattle.ca_model.specs.Runs.{IsOpen};
ghost use Rattle.ca_replace.specs.Resting.{knows};
ghost use Rattle.ca_term.specs.declared.bounds.TheConstants.{MOST_CODE_BYTES};

use crate::objects::{key_code, value_of};
use ca_model::{Code, Edge, OrderedStore, Outcome};
use ca_replace::TreeStore;

/// An edge, by the number of its key.
#[derive(Clone, Copy)]
pub(crate) enum End {
    Open,
    At(u32),
    Past(u32),
}

/// What a run handed out: the keys as a set of bits, and how many objects, each with a greater key than the one before.
pub(crate) type Handed = (u64, u32);

fn code_of(end: End) -> [u8; 5]
    ensures { length result ≡ 5 }
{
    match end {
        End::Open => key_code(0),
        End::At(n) => key_code(n),
        End::Past(n) => key_code(n),
    }
}

fn edge_of(end: End, code: &[u8]) -> Edge<'_>
    requires { (1 ≤ length code.now) × (length code.now ≤ MOST_CODE_BYTES) }
    ensures { IsProperBound (bound_of result) }
{
    match end {
        End::Open => Edge::Open,
        End::At(_) => Edge::At(code),
        End::Past(_) => Edge::Past(code),
    }
}

// The key of an object with the value 0, if the bytes are one.
fn key_of(bytes: &[u8]) -> Option<u32> {
    let key = match bytes {
        [.., x, y, z, _, _, _, _, _] => u32::from_be_bytes([0, *x, *y, *z]),
        _ => 0,
    };
    if value_of(bytes, key) == 0 {
        Some(key)
    } else {
        None
    }
}

/// The outcome, and the key of the object that was found, if one was.
pub(crate) fn above(store: &mut TreeStore<'_>, lo: End, budget: u32) -> (Outcome<bool>, Option<u32>)
    requires sizes { 1 ≤ budget }
    requires closed { (knows store.old).run ≡ None }
    ensures sizes { store.new.store.z ≡ store.old.store.z }
    ensures closed { (knows store.new).run ≡ None }
{
    let (code, mut into) = (code_of(lo), Code::new());
    let outcome = store.above(edge_of(lo, &code), &mut into, budget);
    (outcome, key_of(into.as_slice()))
}

/// The outcome, and the key of the object that was found, if one was.
pub(crate) fn below(store: &mut TreeStore<'_>, hi: End, budget: u32) -> (Outcome<bool>, Option<u32>)
    requires sizes { 1 ≤ budget }
    requires closed { (knows store.old).run ≡ None }
    ensures sizes { store.new.store.z ≡ store.old.store.z }
    ensures closed { (knows store.new).run ≡ None }
{
    let (code, mut into) = (code_of(hi), Code::new());
    let outcome = store.below(edge_of(hi, &code), &mut into, budget);
    (outcome, key_of(into.as_slice()))
}

/// The open run's next object.
pub(crate) fn next(store: &mut TreeStore<'_>, into: &mut Code) -> bool
    requires open { IsOpen (knows store.old) }
    ensures sizes { store.new.store.z ≡ store.old.store.z }
    ensures open { IsOpen (knows store.new) }
{
    store.found(into)
}

// What an open run hands out; `None` where that is anything but objects in rising order.
fn handed_out(store: &mut TreeStore<'_>) -> Option<Handed>
    requires open { IsOpen (knows store.old) }
    ensures sizes { store.new.store.z ≡ store.old.store.z }
{
    let mut into = Code::new();
    let (mut keys, mut count) = (0_u64, 0_u32);
    for _ in 0..65 {
        if !next(store, &mut into) {
            return if into.is_empty() {
                Some((keys, count))
            } else {
                None
            };
        }
        let key = key_of(into.as_slice()).unwrap_or(64);
        if key > 63 || keys >> key != 0 {
            return None;
        }
        keys |= 1 << key;
        count = count.saturating_add(1);
    }
    None
}

/// The outcome of a range that counts all objects, and what its run handed out, if one was opened and handed out just objects in rising order.
pub(crate) fn range(
    store: &mut TreeStore<'_>,
    lo: End,
    hi: End,
    want: u32,
    budget: u32,
) -> (Outcome<bool>, Option<Handed>)
    requires sizes { (store.old.store.z.keypos ≡ 1) × (1 ≤ budget) }
    requires closed { (knows store.old).run ≡ None }
    ensures sizes { store.new.store.z ≡ store.old.store.z }
    ensures closed { (knows store.new).run ≡ None }
{
    let (from, to) = (code_of(lo), code_of(hi));
    let outcome = store.range(
        edge_of(lo, &from),
        edge_of(hi, &to),
        want,
        &|_object: &[u8]| true,
        budget,
    );
    let handed = match outcome {
        Outcome::Done(_whole) => handed_out(store),
        _ => None,
    };
    store.close_run();
    (outcome, handed)
}

/// Whether a range of all was opened.
pub(crate) fn open_all(store: &mut TreeStore<'_>, budget: u32) -> bool
    requires sizes { (store.old.store.z.keypos ≡ 1) × (1 ≤ budget) }
    requires closed { (knows store.old).run ≡ None }
    ensures sizes { store.new.store.z ≡ store.old.store.z }
    ensures opened { IsTrue result → IsOpen (knows store.new) }
{
    match store.range(Edge::Open, Edge::Open, 0, &|_object: &[u8]| true, budget) {
        Outcome::Done(_whole) => true,
        _ => false,
    }
}
