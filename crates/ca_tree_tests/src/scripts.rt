//! Scripts of calls on a store: each call with what it comes to.
ghost use Rattle.std.specs.Prelude.{◌≡◌, ◌≤◌, None};
ghost use Rattle.ca_replace.specs.Resting.{knows};

use crate::calls::{get, put, put_new, raise, remove, remove_if};
use crate::objects::value_of;
use ca_adapt::Adapted;
use ca_model::{Changed, Code, Outcome};
use ca_replace::TreeStore;

/// A call, or many of them. Objects have the value 0, where a change doesn't raise it.
#[derive(Clone, Copy)]
pub(crate) enum Call {
    /// Puts an object.
    Put(u32),
    /// Puts an object where its key has none.
    PutNew(u32),
    /// Looks an object up.
    Get(u32),
    /// Removes an object.
    Remove(u32),
    /// Removes an object where the function says so.
    RemoveIf(u32, bool),
    /// Raises an object's value where the function says so.
    Raise(u32, bool),
    /// Puts an object a thousand times, until a put is refused.
    PutOften(u32),
    /// Puts an object a thousand times, and counts the puts behind which the store keeps few rows.
    PutSparing(u32),
    /// Puts the objects from one number up to another one in rising order, until a put is refused. A put may lose many turns.
    PutRising(u32, u32),
    /// Puts so many objects, in falling order of their numbers. A put may lose four turns.
    PutFalling(u32),
    /// Removes so many objects, from the first one on each second one.
    RemoveEven(u32),
    /// Counts the objects with numbers below this one that are there as they were put.
    Count(u32),
    /// Puts an object, and asks for what was done about its base.
    Adapt(u32),
    /// Asks for what was done about the base of the last update.
    Last,
    /// Asks how many bases were split and joined.
    Splits,
}

/// What it comes to.
#[derive(Clone, Copy, PartialEq, Eq)]
pub(crate) enum Answer {
    /// A put. `Put` is an object that was put, and `Kept` one that was there.
    Puts(Outcome<Changed>),
    /// Any other call: `Put` is an object that was removed or raised, `Kept` one that stays, and beside it stands the value of the object that was found.
    Finds(Outcome<Changed>, Option<u32>),
    /// So many puts, and what the last call came to.
    Many(u32, Outcome<()>),
    /// So many puts, until no row was free.
    Fills(u32),
    /// So many.
    Number(u32),
    /// The statistic of a base, and what was done about the base.
    Is(i64, Adapted),
    /// So many splits and joins.
    Has(u64, u64),
}

/// A call and what it comes to.
pub(crate) type Row = (Call, Answer);

/// The place of the first row whose call comes to something else.
pub(crate) fn wrong_row(store: &mut TreeStore<'_>, script: &[Row]) -> Option<usize>
    requires sizes { store.old.store.z.keypos ≡ 1 }
    requires closed { (knows store.old).run ≡ None }
    ensures sizes { store.new.store.z ≡ store.old.store.z }
    ensures closed { (knows store.new).run ≡ None }
{
    for place in 0..script.len() {
        let (call, wanted) = script[place];
        if come_to(store, call) != wanted {
            return Some(place);
        }
    }
    None
}

fn come_to(store: &mut TreeStore<'_>, call: Call) -> Answer
    requires sizes { store.old.store.z.keypos ≡ 1 }
    requires closed { (knows store.old).run ≡ None }
    ensures sizes { store.new.store.z ≡ store.old.store.z }
    ensures closed { (knows store.new).run ≡ None }
{
    match call {
        Call::Put(n) => Answer::Puts(with(put(store, n, 0, 1), Changed::Put)),
        Call::PutNew(n) => Answer::Puts(by_truth(put_new(store, n, 0, 1), Changed::Kept)),
        Call::PutOften(n) => put_often(store, n),
        Call::PutRising(first, end) => put_rising(store, first, end),
        Call::PutSparing(_) => Answer::Number(tally(store, call, 1_000)),
        Call::PutFalling(count) => Answer::Number(tally(store, call, count)),
        Call::RemoveEven(count) => Answer::Number(tally(store, call, count)),
        Call::Count(end) => Answer::Number(tally(store, call, end)),
        Call::Adapt(n) => adapt(store, n),
        Call::Last => last(store),
        Call::Splits => splits(store),
        Call::Get(n) => find(store, call, n),
        Call::Remove(n) => find(store, call, n),
        Call::RemoveIf(n, _) => find(store, call, n),
        Call::Raise(n, _) => find(store, call, n),
    }
}

// A call that finds an object. What stood in the Code before doesn't stay.
fn find(store: &mut TreeStore<'_>, call: Call, n: u32) -> Answer
    requires sizes { store.old.store.z.keypos ≡ 1 }
    requires closed { (knows store.old).run ≡ None }
    ensures sizes { store.new.store.z ≡ store.old.store.z }
    ensures closed { (knows store.new).run ≡ None }
{
    let mut old = Code::new();
    let _pushed = old.try_push(7);
    let outcome = found(store, call, n, &mut old);
    let value = if old.is_empty() {
        None
    } else {
        Some(value_of(old.as_slice(), n))
    };
    Answer::Finds(outcome, value)
}

fn found(store: &mut TreeStore<'_>, call: Call, n: u32, old: &mut Code) -> Outcome<Changed>
    requires sizes { store.old.store.z.keypos ≡ 1 }
    requires closed { (knows store.old).run ≡ None }
    ensures sizes { store.new.store.z ≡ store.old.store.z }
    ensures closed { (knows store.new).run ≡ None }
{
    match call {
        Call::Remove(_) => by_truth(remove(store, n, old, 1), Changed::Absent),
        Call::RemoveIf(_, yes) => remove_if(store, n, yes, old),
        Call::Raise(_, yes) => raise(store, n, yes, old, 1),
        _ => {
            let is_there = get(store, n, old);
            Outcome::Done(if is_there {
                Changed::Kept
            } else {
                Changed::Absent
            })
        }
    }
}

// The outcome of a call that answers true where it did its work, and else this.
fn by_truth(outcome: Outcome<bool>, other: Changed) -> Outcome<Changed> {
    let done = if outcome == Outcome::Done(true) {
        Changed::Put
    } else {
        other
    };
    with(outcome, done)
}

// The outcome with this in the place of its answer.
fn with<T: Drop>(outcome: Outcome<T>, done: Changed) -> Outcome<Changed> {
    match outcome {
        Outcome::Done(_) => Outcome::Done(done),
        Outcome::Busy(spent) => Outcome::Busy(spent),
        Outcome::Full(cause) => Outcome::Full(cause),
        Outcome::Deep(level) => Outcome::Deep(level),
        Outcome::Worn(counter) => Outcome::Worn(counter),
    }
}

// Puts objects from one number on, each by so much higher than the one before, until a put is refused.
fn put_many(
    store: &mut TreeStore<'_>,
    first: u32,
    step: u32,
    times: u32,
    budget: u32,
) -> (u32, Outcome<()>)
    requires sizes { (store.old.store.z.keypos ≡ 1) × (1 ≤ budget) }
    requires closed { (knows store.old).run ≡ None }
    ensures sizes { store.new.store.z ≡ store.old.store.z }
    ensures closed { (knows store.new).run ≡ None }
{
    for done in 0..times {
        let outcome = put(
            store,
            first.wrapping_add(done.wrapping_mul(step)),
            0,
            budget,
        );
        if outcome != Outcome::Done(()) {
            return (done, outcome);
        }
    }
    (times, Outcome::Done(()))
}

fn put_often(store: &mut TreeStore<'_>, n: u32) -> Answer
    requires sizes { store.old.store.z.keypos ≡ 1 }
    requires closed { (knows store.old).run ≡ None }
    ensures sizes { store.new.store.z ≡ store.old.store.z }
    ensures closed { (knows store.new).run ≡ None }
{
    let (done, last) = put_many(store, n, 0, 1_000, 1);
    Answer::Many(done, last)
}

fn put_rising(store: &mut TreeStore<'_>, first: u32, end: u32) -> Answer
    requires sizes { store.old.store.z.keypos ≡ 1 }
    requires closed { (knows store.old).run ≡ None }
    ensures sizes { store.new.store.z ≡ store.old.store.z }
    ensures closed { (knows store.new).run ≡ None }
{
    let (done, last) = put_many(store, first, 1, end.wrapping_sub(first), 100);
    if matches!(last, Outcome::Full(_)) {
        Answer::Fills(done)
    } else {
        Answer::Many(done, last)
    }
}

// How many of so many parts of a call are done.
fn tally(store: &mut TreeStore<'_>, call: Call, end: u32) -> u32
    requires sizes { store.old.store.z.keypos ≡ 1 }
    requires closed { (knows store.old).run ≡ None }
    ensures sizes { store.new.store.z ≡ store.old.store.z }
    ensures closed { (knows store.new).run ≡ None }
{
    let mut count = 0_u32;
    for n in 0..end {
        if does(store, call, n) {
            count = count.wrapping_add(1);
        }
    }
    count
}

// Whether a part of a call is done.
fn does(store: &mut TreeStore<'_>, call: Call, n: u32) -> bool
    requires sizes { store.old.store.z.keypos ≡ 1 }
    requires closed { (knows store.old).run ≡ None }
    ensures sizes { store.new.store.z ≡ store.old.store.z }
    ensures closed { (knows store.new).run ≡ None }
{
    let mut old = Code::new();
    match call {
        Call::PutSparing(key) => put(store, key, 0, 1) == Outcome::Done(()) && store.kept() <= 64,
        Call::PutFalling(count) => put(store, count.wrapping_sub(n).wrapping_sub(1), 0, 4)
            == Outcome::Done(()),
        Call::RemoveEven(_) => remove(store, n.wrapping_mul(2), &mut old, 1) == Outcome::Done(true),
        _ => get(store, n, &mut old) && value_of(old.as_slice(), n) == 0,
    }
}

fn adapt(store: &mut TreeStore<'_>, n: u32) -> Answer
    requires sizes { store.old.store.z.keypos ≡ 1 }
    requires closed { (knows store.old).run ≡ None }
    ensures sizes { store.new.store.z ≡ store.old.store.z }
    ensures closed { (knows store.new).run ≡ None }
{
    let outcome = put(store, n, 0, 1);
    if outcome == Outcome::Done(()) {
        last(store)
    } else {
        Answer::Many(0, outcome)
    }
}

fn last(store: &TreeStore<'_>) -> Answer {
    let (statistic, adapted) = store.last_adapted();
    Answer::Is(statistic, adapted)
}

fn splits(store: &TreeStore<'_>) -> Answer {
    let (splits, joins) = store.adapted();
    Answer::Has(splits, joins)
}
