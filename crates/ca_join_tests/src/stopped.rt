//! Stores beside a pass that stopped right behind it secured an attempt to join. Whoever is to exchange one of both bases carries the join out, which counts as
//! one operation that was helped. Reads within one base meet no join.
ghost use Rattle.std.specs.Prelude.{◌≡◌, ◌≤◌, None};
ghost use Rattle.ca_replace.specs.Resting.{IsAtRest, knows};

use crate::calls::{keys_in, parts_bases, put, range, remove};
use crate::objects::key_code;
use crate::steps::{secure, stop, unlink};
use crate::trees::{ZERO, tree_of, tuning_of};
use ca_model::{Code, Edge, OrderedStore, Outcome, Spent};
use ca_node::{TreePass, adapted};
use ca_replace::{Tree, TreeStore};
use std::alloc::Global;

/// A call of a store.
#[derive(Clone, Copy)]
pub(crate) enum Call {
    /// A put of this key.
    Put(u32),
    /// A remove of this key.
    Remove(u32),
    /// A get of this key.
    Get(u32),
    /// A range of this key alone.
    One(u32),
    /// A range of all.
    All,
    /// The first object from this key on.
    Above(u32),
    /// The last object up to this key.
    Below(u32),
}

/// What the call comes to with this budget.
pub(crate) fn come_to(store: &mut TreeStore<'_>, call: Call, budget: u32) -> Outcome<bool>
    requires sizes { (store.old.store.z.keypos ≡ 1) × (1 ≤ budget) }
    requires closed { (knows store.old).run ≡ None }
    ensures closed { (knows store.new).run ≡ None }
{
    let mut code = Code::new();
    match call {
        Call::Put(key) => match put(store, key, 0, budget) {
            Outcome::Done(()) => Outcome::Done(true),
            Outcome::Busy(spent) => Outcome::Busy(spent),
            Outcome::Full(cause) => Outcome::Full(cause),
            Outcome::Deep(level) => Outcome::Deep(level),
            Outcome::Worn(counter) => Outcome::Worn(counter),
        },
        Call::Remove(key) => remove(store, key, budget),
        Call::Get(key) => store.get(&key_code(key), &mut code, budget),
        Call::One(key) => {
            let edge = key_code(key);
            range(store, Edge::At(&edge), Edge::At(&edge), budget)
        }
        Call::All => range(store, Edge::Open, Edge::Open, budget),
        Call::Above(key) => store.above(Edge::At(&key_code(key)), &mut code, budget),
        Call::Below(key) => store.below(Edge::At(&key_code(key)), &mut code, budget),
    }
}

// The key whose base was looked at for the join, the call beside it, its budget, and what it comes to: its answer, or so many turns of help and other turns
// where it is busy.
#[derive(Clone, Copy)]
struct Case {
    key: u8,
    call: Call,
    budget: u32,
    comes: Result<bool, (u32, u32)>,
}

// Each begins with the bases of 1, of 2, of 4 and 5, and of 6 and 7. The first two of them are joined. Behind the case stands whether the call carries the
// join out, and the keys that there are behind it, as a set of bits.
const CASES: &[(u8, Call, u32, Result<bool, (u32, u32)>, bool, u8)] = &[
    (1, Call::Put(1), 1, Err((1, 0)), true, 0b1111_0110),
    (1, Call::Put(1), 2, Ok(true), true, 0b1111_0110),
    (2, Call::Put(1), 2, Ok(true), true, 0b1111_0110),
    (1, Call::Put(2), 1, Err((1, 0)), true, 0b1111_0110),
    (1, Call::Put(3), 1, Err((1, 0)), true, 0b1111_0110),
    (1, Call::Put(3), 2, Err((1, 1)), true, 0b1111_0110),
    (1, Call::Put(3), 3, Ok(true), true, 0b1111_1110),
    (1, Call::Put(4), 1, Ok(true), false, 0b1111_0110),
    (1, Call::Remove(1), 1, Err((1, 0)), true, 0b1111_0110),
    (1, Call::Remove(1), 2, Ok(true), true, 0b1111_0100),
    (2, Call::Remove(2), 2, Ok(true), true, 0b1111_0010),
    (1, Call::Get(1), 1, Ok(true), false, 0b1111_0110),
    (1, Call::Get(3), 1, Ok(false), false, 0b1111_0110),
    (1, Call::One(2), 1, Ok(true), false, 0b1111_0110),
    (1, Call::All, 4, Err((1, 3)), true, 0b1111_0110),
    (1, Call::All, 5, Ok(true), true, 0b1111_0110),
    (2, Call::All, 5, Ok(true), true, 0b1111_0110),
    (1, Call::Above(1), 1, Ok(true), false, 0b1111_0110),
    (1, Call::Below(2), 1, Ok(true), false, 0b1111_0110),
];

/// The outcome that is told so.
pub(crate) fn outcome_of(comes: Result<bool, (u32, u32)>) -> Outcome<bool> {
    match comes {
        Ok(answer) => Outcome::Done(answer),
        Err((helped, passed)) => Outcome::Busy(Spent {
            lost: 0,
            helped,
            passed,
        }),
    }
}

// Whether the exchange that was to unlink the route won, and how many were lost, where a store's call came between.
fn beside(
    tree: &Tree,
    store: &mut TreeStore<'_>,
    first: &mut TreePass,
    case: Case,
) -> Option<(bool, u32)>
    requires budget { 1 ≤ case.budget }
    requires keypos { store.old.store.z.keypos ≡ 1 }
    requires closed { (knows store.old).run ≡ None }
    requires rests { IsAtRest tree.now.space first.old }
    requires leaf { tree.now.tuning.leaf ≡ 2 }
    ensures closed { (knows store.new).run ≡ None }
{
    let space = tree.space();
    let stopped = stop(space, first, case.key, 2)?;
    let uniting = secure(space, first, stopped)?;
    if come_to(store, case.call, case.budget) != outcome_of(case.comes) {
        return None;
    }
    Some(unlink(space, first, uniting))
}

// What `beside` tells of a new tree; the keys that there are behind it, and how many joins the store and the pass carried out.
type Ends = ((bool, u32), u8, (u64, u64));

fn ends_of(alloc: Global, case: Case) -> Option<Ends>
    requires { 1 ≤ case.budget }
{
    let Ok(mut tree) = tree_of(alloc, 384, 2, tuning_of((2, 8, 1_000, -1)), ZERO) else {
        return None;
    };
    let Ok(one) = tree.enroll(alloc) else {
        return None;
    };
    let Ok(mut first) = tree.enroll(alloc) else {
        return None;
    };
    let mut store = TreeStore::new(&tree, one);
    if !parts_bases(&mut store) {
        return None;
    }
    let ends = beside(&tree, &mut store, &mut first, case)?;
    let keys = keys_in(&mut store);
    let (_, by_store) = store.adapted();
    let (splits, by_pass) = adapted(&first);
    if splits != 0 {
        return None;
    }
    Some((ends, keys, (by_store, by_pass)))
}

#[test]
fn a_secured_join_that_is_in_the_way_is_carried_out(rt: HostRuntime) {
    for row in CASES {
        let (key, call, budget, comes, joins, keys) = *row;
        let case = Case {
            key,
            call,
            budget,
            comes,
        };
        if budget == 0 {
            break;
        }
        let each = (u64::from(joins), u64::from(!joins));
        let ends = ((!joins, u32::from(joins)), keys, each);
        assert_eq!(rt; ends_of(rt.alloc(), case), Some(ends), "{key}, {budget}");
    }
}
