//! Attempts to join that are in the way of a store's calls: another pass began one, marked a base for it, and stopped there. Whoever is to exchange that base
//! gives the attempt up, which counts as one operation that was helped.
ghost use Rattle.std.specs.Prelude.{◌≡◌, ◌≤◌, None};
ghost use Rattle.std.specs.Option.{ForSome};
ghost use Rattle.ca_node.specs.Joining.{IsRemembered};
ghost use Rattle.ca_node.specs.Place.{IsLinkOf};
ghost use Rattle.ca_node.specs.Told.{link_word};
ghost use Rattle.ca_node.specs.TreePasses.{tree_of as view_of};
ghost use Rattle.ca_replace.specs.Resting.{IsAtRest, knows};
ghost use Rattle.ca_rows.specs.Calls.{IsNumbered};
ghost use Rattle.ca_rows.specs.Passes.{IsReading, sizes, view};

use crate::calls::{put, put_all};
use crate::trees::{ZERO, tree_of, tuning_of};
use ca_adapt::{Attempt, begin_attempt, mark_for};
use ca_model::{Edge, OrderedStore, Outcome, Spent};
use ca_node::{JoinState, Link, Spot, TreePass, TreeSpace, load_join, load_word, walk};
use ca_replace::{Tree, TreeStore};
use std::alloc::Global;

// The route on whose link a base hangs, if it hangs on one.
fn route_of(link: Link) -> Option<u32>
    ensures { ForSome result (λ route. IsLinkOf route (link_word link)) }
{
    match link {
        Link::Root => None,
        Link::Left(route) => Some(route),
        Link::Right(route) => Some(route),
    }
}

// Begins an attempt to join the base to which a key is led with its neighbour, and marks the base for it. The pass stays pinned, and has the attempt under way.
fn prepare(space: &TreeSpace, pass: &mut TreePass, key: u8) -> Option<Attempt>
    requires rests { IsAtRest space.now pass.old }
    requires leaf { (sizes space.now).leaf ≤ 120 }
    ensures number { ForSome result (λ _x. IsNumbered pass.new.number (view pass.new).pin) }
    ensures reading { ForSome result (λ _x. IsReading space.now pass.new) }
    ensures remembered { ForSome result (λ x. IsRemembered (view_of pass.new).ways x.route × (x.route ≤ (sizes space.now).rows)) }
{
    space.pin(pass);
    let cursor = walk(space, pass, Spot::At(&[0x24, 1, 0, 0, key]));
    let kind = load_word(space, pass, cursor.base, 2);
    let Some(route) = route_of(cursor.link) else {
        return None;
    };
    if kind != 0 {
        return None;
    }
    let Ok(attempt) = begin_attempt(space, pass, route) else {
        return None;
    };
    let mut spent = Spent {
        lost: 0,
        helped: 0,
        passed: 0,
    };
    match mark_for(space, pass, cursor, attempt, &mut spent) {
        Ok(_copy) => Some(attempt),
        Err(_why) => None,
    }
}

// A call that comes to the base that is marked.
#[derive(Clone, Copy)]
enum Meets {
    /// A put of this key.
    Put(u32),
    /// A range of all.
    All,
}

// What the call comes to with this budget.
fn come_to(store: &mut TreeStore<'_>, meets: Meets, budget: u32) -> Outcome<bool>
    requires sizes { (store.old.store.z.keypos ≡ 1) × (1 ≤ budget) }
    requires closed { (knows store.old).run ≡ None }
{
    match meets {
        Meets::Put(key) => match put(store, key, 0, budget) {
            Outcome::Done(()) => Outcome::Done(true),
            Outcome::Busy(spent) => Outcome::Busy(spent),
            Outcome::Full(cause) => Outcome::Full(cause),
            Outcome::Deep(level) => Outcome::Deep(level),
            Outcome::Worn(counter) => Outcome::Worn(counter),
        },
        Meets::All => store.range(Edge::Open, Edge::Open, 0, &|_object: &[u8]| true, budget),
    }
}

// The key whose base is marked, the call that meets it, its budget, and what it comes to: so many turns of help and other turns where it is busy, or it is
// done.
#[derive(Clone, Copy)]
struct Case {
    key: u8,
    meets: Meets,
    budget: u32,
    turns: Option<(u32, u32)>,
}

const CASES: &[(u8, Meets, u32, Option<(u32, u32)>)] = &[
    (1, Meets::Put(1), 1, Some((1, 0))),
    (1, Meets::Put(1), 2, None),
    (1, Meets::Put(2), 1, None),
    (6, Meets::Put(8), 1, Some((1, 0))),
    (6, Meets::Put(8), 2, Some((1, 1))),
    (6, Meets::Put(8), 3, None),
    (1, Meets::All, 5, Some((1, 4))),
    (1, Meets::All, 6, None),
    (4, Meets::All, 6, None),
];

// The outcome that such turns tell.
fn outcome_of(turns: Option<(u32, u32)>) -> Outcome<bool> {
    match turns {
        Some((helped, passed)) => Outcome::Busy(Spent {
            lost: 0,
            helped,
            passed,
        }),
        None => Outcome::Done(true),
    }
}

// Whether the attempt with this number is finished, or prepared.
fn is_over(state: JoinState, number: u64) -> Option<bool> {
    match state {
        JoinState::Idle(last) => Some(last >= number),
        JoinState::Prep(last) => Some(last > number),
        JoinState::Secured(_) => None,
    }
}

// Whether the attempt is over behind a call that comes to this, of a store beside a pass that rests.
fn is_given_up(
    tree: &Tree,
    store: &mut TreeStore<'_>,
    other: &mut TreePass,
    case: Case,
) -> Option<bool>
    requires budget { 1 ≤ case.budget }
    requires sizes { store.old.store.z.keypos ≡ 1 }
    requires closed { (knows store.old).run ≡ None }
    requires rests { IsAtRest tree.now.space other.old }
{
    let space = tree.space();
    let attempt = prepare(space, other, case.key)?;
    if come_to(store, case.meets, case.budget) != outcome_of(case.turns) {
        return None;
    }
    let state = load_join(space, other, attempt.route);
    space.unpin(other);
    is_over(state, attempt.number)
}

// The same of a new tree.
fn ends_of(alloc: Global, case: Case) -> Option<bool>
    requires { 1 ≤ case.budget }
{
    let Ok(mut tree) = tree_of(alloc, 384, 2, tuning_of((2, 8, 1_000, -1)), ZERO) else {
        return None;
    };
    let Ok(one) = tree.enroll(alloc) else {
        return None;
    };
    let Ok(mut other) = tree.enroll(alloc) else {
        return None;
    };
    let mut store = TreeStore::new(&tree, one);
    if !put_all(&mut store, &[2, 4, 6, 1, 3, 5, 7], 9) {
        return None;
    }
    is_given_up(&tree, &mut store, &mut other, case)
}

#[test]
fn a_prepared_join_that_is_in_the_way_is_given_up(rt: HostRuntime) {
    for row in CASES {
        let (key, meets, budget, turns) = *row;
        let case = Case {
            key,
            meets,
            budget,
            turns,
        };
        if budget == 0 {
            break;
        }
        let met = !matches!(meets, Meets::Put(2));
        assert_eq!(rt; ends_of(rt.alloc(), case), Some(met), "{key}, {budget}");
    }
}
