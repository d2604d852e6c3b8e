//! A range that stopped behind its first mark, and others that come to its bases. Whoever is to exchange a marked base, or is to mark it, helps the range to its
//! end, which counts as one operation; whoever stops in between leaves its marks, and the range goes on from there. Once the range is decided its pass takes
//! that run, whatever was edited since; and once it is given up it is in nobody's way.
ghost use Rattle.std.specs.Prelude.{◌≡◌, ◌≤◌, None, ℕ};
ghost use Rattle.ca_model.specs.Edges.{IsProperBound, bound_of};
ghost use Rattle.ca_model.specs.Function.{MayBeAskedForAll};
ghost use Rattle.ca_replace.specs.Resting.{IsAtRest, knows};

use crate::calls::parts_bases;
use crate::halts::{Progress, begin, find, go_on, help, load_progress, stop};
use crate::objects::key_code;
use crate::stopped::{Call, come_to, outcome_of};
use crate::trees::{ZERO, tree_of, tuning_of};
use ca_adapt::Tuning;
use ca_model::{Edge, Spent};
use ca_node::TreePass;
use ca_range::{Search, Sought};
use ca_replace::{Tree, TreeStore};
use std::alloc::Global;

// A store's call with its budget, and what it comes to: its answer, or so many turns of help and other turns where it is busy.
type Order = (Call, u32, Result<bool, (u32, u32)>);

// The range from this key to the key 5 that stops behind its first mark, and the call of a store beside it. The keys that the range's run has then, and how many
// places its pass passed in all.
type Beside = (u32, Order, u8, u32);

// The bases are those of 1, of 2, of 4 and 5, and of 6 and 7.
const BESIDE: &[Beside] = &[
    (1, (Call::Put(1), 1, Err((0, 1))), 0b0011_0110, 2),
    (1, (Call::Put(1), 2, Err((0, 2))), 0b0011_0110, 1),
    (1, (Call::Put(1), 3, Err((1, 2))), 0b0011_0110, 3),
    (1, (Call::Put(1), 4, Ok(true)), 0b0011_0110, 3),
    (1, (Call::Remove(1), 3, Err((1, 2))), 0b0011_0110, 3),
    (1, (Call::Remove(1), 4, Ok(true)), 0b0011_0110, 3),
    (1, (Call::Put(2), 1, Ok(true)), 0b0011_0110, 3),
    (1, (Call::Put(3), 1, Ok(true)), 0b0011_1110, 3),
    (1, (Call::Remove(4), 1, Ok(true)), 0b0010_0110, 3),
    (1, (Call::Put(6), 1, Ok(true)), 0b0011_0110, 3),
    (1, (Call::Get(1), 1, Ok(true)), 0b0011_0110, 3),
    (1, (Call::Get(3), 1, Ok(false)), 0b0011_0110, 3),
    (1, (Call::One(1), 1, Ok(true)), 0b0011_0110, 3),
    (1, (Call::One(2), 1, Ok(true)), 0b0011_0110, 3),
    (1, (Call::Above(1), 1, Ok(true)), 0b0011_0110, 3),
    (1, (Call::Below(1), 1, Ok(true)), 0b0011_0110, 3),
    (1, (Call::Above(3), 2, Err((0, 2))), 0b0011_0110, 3),
    (1, (Call::Above(3), 3, Ok(true)), 0b0011_0110, 3),
    (1, (Call::All, 2, Err((0, 2))), 0b0011_0110, 1),
    (1, (Call::All, 3, Err((1, 2))), 0b0011_0110, 3),
    (1, (Call::All, 7, Err((1, 6))), 0b0011_0110, 3),
    (1, (Call::All, 8, Ok(true)), 0b0011_0110, 3),
    (2, (Call::All, 2, Err((0, 2))), 0b0011_0100, 1),
    (2, (Call::All, 3, Err((1, 2))), 0b0011_0100, 2),
    (2, (Call::All, 7, Err((1, 6))), 0b0011_0100, 2),
    (2, (Call::All, 8, Ok(true)), 0b0011_0100, 2),
    (2, (Call::Below(3), 1, Ok(true)), 0b0011_0100, 2),
];

// The answer of the store's call, as it is told; the keys of the range's run behind it, and how many places its pass passed.
fn beside(
    tree: &Tree,
    store: &mut TreeStore<'_>,
    first: &mut TreePass,
    from: u32,
    order: Order,
    tuning: &Tuning,
) -> Option<(bool, u8, Spent)>
    requires budget { 1 ≤ order.1 }
    requires keypos { store.old.store.z.keypos ≡ 1 }
    requires closed { (knows store.old).run ≡ None }
    requires rests { IsAtRest tree.now.space first.old }
    requires tuning { tree.now.tuning ≡ tuning.now }
    ensures closed { (knows store.new).run ≡ None }
{
    let space = tree.space();
    let counts = |_object: &[u8]| true;
    let (low, high) = (key_code(from), key_code(5));
    let sought = &Sought {
        lo: Edge::At(&low),
        hi: Edge::At(&high),
        want: 0,
        counts: &counts,
    };
    let budget = 9;
    let search = Search {
        sought,
        tuning,
        budget,
    };
    let halted = begin(space, first, &search)?;
    let (call, budget, comes) = order;
    let told = come_to(store, call, budget) == outcome_of(comes);
    let (run, spent) = go_on(space, first, &search, halted);
    let run = run?;
    Some((told, run.keys, spent))
}

// The same of a new tree.
fn beside_of(alloc: Global, from: u32, order: Order) -> Option<(bool, u8, Spent)>
    requires { 1 ≤ order.1 }
{
    let tuning = tuning_of((2, 8, 1_000, -1));
    let Ok(mut tree) = tree_of(alloc, 384, 2, tuning, ZERO) else {
        return None;
    };
    let Ok(one) = tree.enroll(alloc) else {
        return None;
    };
    let Ok(mut first) = tree.enroll(alloc) else {
        return None;
    };
    let mut store = TreeStore::new(&tree, one);
    if !parts_bases(&mut store) {
        return None;
    }
    beside(&tree, &mut store, &mut first, from, order, &tuning)
}

#[test]
fn a_store_beside_a_stopped_range(rt: HostRuntime) {
    for row in BESIDE {
        let (from, order, keys, passed) = *row;
        let (_, budget, _) = order;
        if budget == 0 {
            break;
        }
        let spent = Spent {
            lost: 0,
            helped: 0,
            passed,
        };
        let ends = Some((true, keys, spent));
        assert_eq!(rt;
            beside_of(rt.alloc(), from, order),
            ends,
            "{from}, {budget}"
        );
    }
}

// What the first pass does, whose range from the key 1 to the key 5 stopped, as a second one comes to the marked base to help.
#[derive(Clone, Copy)]
enum First {
    /// It gives the range up, right before the help.
    GaveUp,
    /// It gives the range up behind the help.
    GivesUp,
    /// It goes on with the range, behind a call of a store.
    GoesOn,
}

// How far a range is.
#[derive(Clone, Copy, Debug, PartialEq, Eq)]
enum Seen {
    /// It is over without a run.
    Idle,
    /// It is under way.
    Active,
    /// It is decided.
    Decided,
}

// What comes of the help with the range: whether it is over, and how many operations were helped, and places passed. How far it is behind that. Whether a call
// of a store is answered then as it is to be. The keys of the run that the first pass takes, if it takes one; and how many places it passed.
type Ends = ((bool, u32, u32), Seen, bool, Option<u8>, u32);

// What the first pass does, the budget of the help, the call, and what comes of all.
type Met = (First, u32, Order, Ends);

const TOOK: (bool, u32, u32) = (true, 1, 2);

const KEYS: Option<u8> = Some(0b0011_0110);

const FOUR: Order = (Call::Get(4), 1, Ok(true));

const MET: &[Met] = &[
    (
        First::GoesOn,
        0,
        FOUR,
        ((false, 0, 0), Seen::Active, true, KEYS, 3),
    ),
    (
        First::GoesOn,
        1,
        FOUR,
        ((false, 0, 1), Seen::Active, true, KEYS, 2),
    ),
    (
        First::GoesOn,
        2,
        FOUR,
        ((false, 0, 2), Seen::Active, true, KEYS, 1),
    ),
    (First::GoesOn, 3, FOUR, (TOOK, Seen::Decided, true, KEYS, 3)),
    (First::GoesOn, 9, FOUR, (TOOK, Seen::Decided, true, KEYS, 3)),
    // The run is that which was decided, whatever is edited then. The first pass knows that its range is over, and marks all bases up to the edge by itself
    // before it takes the run.
    (
        First::GoesOn,
        3,
        (Call::Remove(1), 1, Ok(true)),
        (TOOK, Seen::Decided, true, KEYS, 3),
    ),
    (
        First::GoesOn,
        3,
        (Call::Remove(5), 1, Ok(true)),
        (TOOK, Seen::Decided, true, KEYS, 3),
    ),
    (
        First::GoesOn,
        3,
        (Call::Put(7), 1, Ok(true)),
        (TOOK, Seen::Decided, true, KEYS, 3),
    ),
    (
        First::GoesOn,
        3,
        (Call::Remove(2), 1, Ok(true)),
        (TOOK, Seen::Decided, true, KEYS, 3),
    ),
    // While it is under way, who is to edit a marked base helps it.
    (
        First::GoesOn,
        1,
        (Call::Remove(1), 2, Err((1, 1))),
        ((false, 0, 1), Seen::Active, true, KEYS, 3),
    ),
    (
        First::GoesOn,
        1,
        (Call::Remove(1), 3, Ok(true)),
        ((false, 0, 1), Seen::Active, true, KEYS, 3),
    ),
    (
        First::GoesOn,
        2,
        (Call::Remove(2), 2, Ok(true)),
        ((false, 0, 2), Seen::Active, true, KEYS, 3),
    ),
    (
        First::GoesOn,
        1,
        (Call::Remove(5), 1, Ok(true)),
        ((false, 0, 1), Seen::Active, true, Some(0b0001_0110), 2),
    ),
    // A range that is given up is in nobody's way.
    (
        First::GaveUp,
        1,
        (Call::Remove(1), 1, Ok(true)),
        ((true, 1, 0), Seen::Idle, true, None, 1),
    ),
    (
        First::GivesUp,
        0,
        (Call::Remove(1), 1, Ok(true)),
        ((false, 0, 0), Seen::Idle, true, None, 1),
    ),
    (
        First::GivesUp,
        1,
        (Call::Remove(2), 1, Ok(true)),
        ((false, 0, 1), Seen::Idle, true, None, 1),
    ),
    (
        First::GivesUp,
        2,
        (Call::Put(5), 1, Ok(true)),
        ((false, 0, 2), Seen::Idle, true, None, 1),
    ),
    (
        First::GivesUp,
        3,
        (Call::Remove(1), 1, Ok(true)),
        (TOOK, Seen::Decided, true, None, 1),
    ),
];

fn seen_of(progress: Progress) -> Seen {
    match progress {
        Progress::Idle => Seen::Idle,
        Progress::Active => Seen::Active,
        Progress::Decided(_) => Seen::Decided,
    }
}

// Whether the run is the one that was decided, if one was then.
fn is_decided(progress: Progress, last: u32) -> bool {
    match progress {
        Progress::Idle => false,
        Progress::Active => true,
        Progress::Decided(row) => row == last,
    }
}

// The first pass goes on with its range.
fn goes_on<F: Fn(&[u8]) -> bool>(
    tree: &Tree,
    store: &mut TreeStore<'_>,
    first: &mut TreePass,
    second: &mut TreePass,
    search: &Search<'_, F>,
    met: (u32, Order),
) -> Option<Ends>
    requires budget { (1 ≤ met.1.1) × (1 ≤ search.now.budget) }
    requires keypos { store.old.store.z.keypos ≡ 1 }
    requires closed { (knows store.old).run ≡ None }
    requires first { IsAtRest tree.now.space first.old }
    requires second { IsAtRest tree.now.space second.old }
    requires tuning { tree.now.tuning ≡ search.now.tuning.now }
    requires edge { IsProperBound (bound_of search.now.sought.now.hi) }
    requires function { (keypos : ℕ) → MayBeAskedForAll F.Fn search.now.sought.now.counts.now keypos }
    ensures closed { (knows store.new).run ≡ None }
{
    let space = tree.space();
    let (by, (call, budget, comes)) = met;
    let halted = begin(space, first, search)?;
    let found = find(space, second, 1)?;
    let (over, spent) = help(space, second, found, search.tuning, by);
    let progress = load_progress(space, second, first.number())?;
    let told = come_to(store, call, budget) == outcome_of(comes);
    let helped = (over, spent.helped, spent.passed);
    let (run, spent) = go_on(space, first, search, halted);
    let Some(run) = run else {
        return Some((helped, seen_of(progress), told, None, spent.passed));
    };
    if !is_decided(progress, run.last) {
        return None;
    }
    Some((
        helped,
        seen_of(progress),
        told,
        Some(run.keys),
        spent.passed,
    ))
}

// It gives the range up, before the help or behind it.
fn gives_up<F: Fn(&[u8]) -> bool>(
    tree: &Tree,
    store: &mut TreeStore<'_>,
    first: &mut TreePass,
    second: &mut TreePass,
    search: &Search<'_, F>,
    met: (u32, Order),
) -> Option<Ends>
    requires budget { (1 ≤ met.1.1) × (1 ≤ search.now.budget) }
    requires keypos { store.old.store.z.keypos ≡ 1 }
    requires closed { (knows store.old).run ≡ None }
    requires first { IsAtRest tree.now.space first.old }
    requires second { IsAtRest tree.now.space second.old }
    requires tuning { tree.now.tuning ≡ search.now.tuning.now }
    requires edge { IsProperBound (bound_of search.now.sought.now.hi) }
    requires function { (keypos : ℕ) → MayBeAskedForAll F.Fn search.now.sought.now.counts.now keypos }
    ensures closed { (knows store.new).run ≡ None }
{
    let space = tree.space();
    let (by, (call, budget, comes)) = met;
    let halted = begin(space, first, search)?;
    let found = find(space, second, 1)?;
    let (over, spent) = help(space, second, found, search.tuning, by);
    stop(space, first, search, halted);
    let seen = seen_of(load_progress(space, second, first.number())?);
    let told = come_to(store, call, budget) == outcome_of(comes);
    let passed = halted.account.spent.passed;
    Some(((over, spent.helped, spent.passed), seen, told, None, passed))
}

fn gave_up<F: Fn(&[u8]) -> bool>(
    tree: &Tree,
    store: &mut TreeStore<'_>,
    first: &mut TreePass,
    second: &mut TreePass,
    search: &Search<'_, F>,
    met: (u32, Order),
) -> Option<Ends>
    requires budget { (1 ≤ met.1.1) × (1 ≤ search.now.budget) }
    requires keypos { store.old.store.z.keypos ≡ 1 }
    requires closed { (knows store.old).run ≡ None }
    requires first { IsAtRest tree.now.space first.old }
    requires second { IsAtRest tree.now.space second.old }
    requires tuning { tree.now.tuning ≡ search.now.tuning.now }
    requires edge { IsProperBound (bound_of search.now.sought.now.hi) }
    requires function { (keypos : ℕ) → MayBeAskedForAll F.Fn search.now.sought.now.counts.now keypos }
    ensures closed { (knows store.new).run ≡ None }
{
    let space = tree.space();
    let (by, (call, budget, comes)) = met;
    let halted = begin(space, first, search)?;
    let found = find(space, second, 1)?;
    stop(space, first, search, halted);
    let (over, spent) = help(space, second, found, search.tuning, by);
    let seen = seen_of(load_progress(space, second, first.number())?);
    let told = come_to(store, call, budget) == outcome_of(comes);
    let passed = halted.account.spent.passed;
    Some(((over, spent.helped, spent.passed), seen, told, None, passed))
}

fn meet(
    tree: &Tree,
    store: &mut TreeStore<'_>,
    first: &mut TreePass,
    second: &mut TreePass,
    case: (First, u32, Order),
    tuning: &Tuning,
) -> Option<Ends>
    requires budget { 1 ≤ case.2.1 }
    requires keypos { store.old.store.z.keypos ≡ 1 }
    requires closed { (knows store.old).run ≡ None }
    requires first { IsAtRest tree.now.space first.old }
    requires second { IsAtRest tree.now.space second.old }
    requires tuning { tree.now.tuning ≡ tuning.now }
    ensures closed { (knows store.new).run ≡ None }
{
    let counts = |_object: &[u8]| true;
    let (low, high) = (key_code(1), key_code(5));
    let sought = &Sought {
        lo: Edge::At(&low),
        hi: Edge::At(&high),
        want: 0,
        counts: &counts,
    };
    let budget = 9;
    let search = &Search {
        sought,
        tuning,
        budget,
    };
    let (does, by, order) = case;
    match does {
        First::GoesOn => goes_on(tree, store, first, second, search, (by, order)),
        First::GivesUp => gives_up(tree, store, first, second, search, (by, order)),
        First::GaveUp => gave_up(tree, store, first, second, search, (by, order)),
    }
}

// What comes of a case on a new tree.
fn met_of(alloc: Global, case: (First, u32, Order)) -> Option<Ends>
    requires { 1 ≤ case.2.1 }
{
    let tuning = tuning_of((2, 8, 1_000, -1));
    let Ok(mut tree) = tree_of(alloc, 384, 3, tuning, ZERO) else {
        return None;
    };
    let Ok(one) = tree.enroll(alloc) else {
        return None;
    };
    let Ok(mut first) = tree.enroll(alloc) else {
        return None;
    };
    let Ok(mut second) = tree.enroll(alloc) else {
        return None;
    };
    let mut store = TreeStore::new(&tree, one);
    if !parts_bases(&mut store) {
        return None;
    }
    meet(&tree, &mut store, &mut first, &mut second, case, &tuning)
}

#[test]
fn a_pass_that_helps_a_stopped_range(rt: HostRuntime) {
    for row in MET {
        let (does, by, order, ends) = *row;
        let (_, budget, _) = order;
        if budget == 0 {
            break;
        }
        assert_eq!(rt;
            met_of(rt.alloc(), (does, by, order)),
            Some(ends),
            "{by}, {budget}"
        );
    }
}
