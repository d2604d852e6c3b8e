//! Trees that are closed behind drawn calls: what is listed are the objects that the calls left, in order.
use crate::calls::put;
use crate::objects::object;
use crate::own_keys::{Client, Left};
use crate::trees::{Few, ZERO, tree_of, tuning_of};
use ca_close::Objects;
use ca_model::{Code, Outcome};
use ca_replace::{CloseFault, TreeStore};
use std::alloc::Global;
use std::time::Clock;

// Whether these are the objects that clients with the numbers from 0 on left, in the order of their keys.
fn are_left(objects: &Objects, lefts: &[Left]) -> bool {
    let mut code = Code::new();
    let mut at = 0_usize;
    let mut key = 0_u32;
    for left in lefts {
        for value in left {
            if *value > 0 {
                if at >= objects.len() {
                    return false;
                }
                objects.copy(at, &mut code);
                if code.as_slice() != object(key, *value - 1).as_slice() {
                    return false;
                }
                at = at.wrapping_add(1);
            }
            key = key.wrapping_add(1);
        }
    }
    at == objects.len()
}

// How many objects a base has at most, at how many levels, and what an update adds to its statistic.
const TUNINGS: [Few; 4] = [
    (120, 0, 1_000, -1),
    (2, 64, 1_000, -1),
    (5, 64, 250, 600),
    (120, 64, 250, 600),
];

// Whether a tree that one client plays on is closed with what it left.
fn closes_one(alloc: Global, clock: &impl Clock, few: Few) -> Option<bool> {
    let Ok(mut tree) = tree_of(alloc, 2_000, 1, tuning_of(few), ZERO) else {
        return None;
    };
    let Ok(pass) = tree.enroll(alloc) else {
        return None;
    };
    let mut client = Client::new(TreeStore::new(&tree, pass), 0);
    client.play(clock);
    let (pass, left, refused) = client.into_parts();
    let mut passes = Vec::new(alloc);
    passes.push(pass).ok()?;
    let closed = tree.close(alloc, passes).ok()?;
    Some(refused == 0 && are_left(&closed.objects, &[left]))
}

#[test]
fn what_one_client_left_is_listed(rt: HostRuntime) {
    for few in TUNINGS {
        assert_eq!(rt; closes_one(rt.alloc(), &rt, few), Some(true));
    }
}

// Whether a tree that two clients play on, one after the other, is closed with what both left.
fn closes_two(alloc: Global, clock: &impl Clock, few: Few) -> Option<bool> {
    let Ok(mut tree) = tree_of(alloc, 2_000, 2, tuning_of(few), ZERO) else {
        return None;
    };
    let (Ok(one), Ok(two)) = (tree.enroll(alloc), tree.enroll(alloc)) else {
        return None;
    };
    let mut first = Client::new(TreeStore::new(&tree, one), 0);
    let mut second = Client::new(TreeStore::new(&tree, two), 1);
    first.play(clock);
    second.play(clock);
    let (one, left_by_one, refused_by_one) = first.into_parts();
    let (two, left_by_two, refused_by_two) = second.into_parts();
    let mut passes = Vec::new(alloc);
    passes.push(one).ok()?;
    passes.push(two).ok()?;
    let closed = tree.close(alloc, passes).ok()?;
    let is_left = are_left(&closed.objects, &[left_by_one, left_by_two]);
    Some(is_left && refused_by_one == 0 && refused_by_two == 0)
}

#[test]
fn what_two_clients_left_is_listed(rt: HostRuntime) {
    for few in TUNINGS {
        assert_eq!(rt; closes_two(rt.alloc(), &rt, few), Some(true));
    }
}

// A tree of two passes, which is closed by the first one and then by both: why not the first time, how many passes came back, and whether it had the one
// object that the first pass put.
fn closes_late(alloc: Global) -> Option<(CloseFault, usize, bool)> {
    let Ok(mut tree) = tree_of(alloc, 384, 2, tuning_of((120, 0, 1_000, -1)), ZERO) else {
        return None;
    };
    let (Ok(one), Ok(two)) = (tree.enroll(alloc), tree.enroll(alloc)) else {
        return None;
    };
    let mut store = TreeStore::new(&tree, one);
    if put(&mut store, 7, 8, 1) != Outcome::Done(()) {
        return None;
    }
    let mut passes = Vec::new(alloc);
    passes.push(store.into_pass()).ok()?;
    let Err((tree, mut passes, fault)) = tree.close(alloc, passes) else {
        return None;
    };
    let back = passes.len();
    passes.push(two).ok()?;
    let closed = tree.close(alloc, passes).ok()?;
    let mut code = Code::new();
    if closed.objects.len() != 1 {
        return None;
    }
    closed.objects.copy(0, &mut code);
    Some((fault, back, code.as_slice() == object(7, 8).as_slice()))
}

#[test]
fn a_missing_pass_is_told_and_the_others_come_back(rt: HostRuntime) {
    assert_eq!(rt;
        closes_late(rt.alloc()),
        Some((CloseFault::Missing, 1, true))
    );
}
