//! Two and four clients on threads.
use crate::events::{Entry, Event};
use crate::merges::{events_of, is_explained};
use crate::player::{Player, Work};
use crate::sums::{Values, balance, is_rising, raises};
use crate::trees::{ZERO, tree_of, tuning_of};
use ca_replace::TreeStore;
use std::alloc::{AllocError, Global};
use std::thread::{Threads, for_each_mut};
use std::time::Clock;

// How many turns each client plays.
const TURNS: u32 = 4_000;

// All clients work, each on a thread of its own.
fn work_all<T: Threads + Clock + Sync>(rt: &T, clients: &mut [Player<'_>], work: Work) {
    for_each_mut(
        rt,
        clients,
        4,
        &|_number, client: &mut Player<'_>| { client.carry_out(rt, work) },
    );
}

// How many calls were refused for good.
fn refused(clients: &[Player<'_>]) -> u32 {
    let mut refused = 0_u32;
    for client in clients {
        refused = refused.saturating_add(client.refused());
    }
    refused
}

// How many bases they split, and how many times they joined two.
fn adapted(clients: &[Player<'_>]) -> (u64, u64) {
    let (mut splits, mut joins) = (0_u64, 0_u64);
    for client in clients {
        let (split, joined) = client.adapted();
        splits = splits.saturating_add(split);
        joins = joins.saturating_add(joined);
    }
    (splits, joins)
}

// Whether some merge explains what both noted of a key, and what it has in the end.
fn explains(
    alloc: Global,
    first: &[Entry],
    second: &[Entry],
    key: u32,
    end: Option<u32>,
) -> Result<bool, AllocError> {
    let (first, second) = (
        events_of(alloc, first, key)?,
        events_of(alloc, second, key)?,
    );
    is_explained(alloc, first.as_slice(), second.as_slice(), end)
}

// Trees: how many rows they have, how many objects a base has at most, how many keys the clients share, and what a calm update adds. Bases are split
// where they are full, or where they are hot: after every second update. Where calm updates cool them, they are joined as well.
const TREES: [(u32, u8, u32, i32); 4] = [
    (32_768, 2, 6, 0),
    (32_768, 120, 6, 600),
    (500, 2, 6, -2_000),
    (500, 8, 24, -2_000),
];

#[test]
fn replies_of_two_clients_are_those_of_one_history(rt: HostRuntime) {
    for (rows, leaf, shared, calm) in TREES {
        let Ok(mut tree) = tree_of(rt.alloc(), rows, 2, tuning_of((leaf, 64, 250, calm)), ZERO)
        else {
            panic!(rt; "no memory")
        };
        let (Ok(one), Ok(two)) = (tree.enroll(rt.alloc()), tree.enroll(rt.alloc())) else {
            panic!(rt; "no pass")
        };
        let mut clients = [
            Player::new(rt.alloc(), TreeStore::new(&tree, one), 1),
            Player::new(rt.alloc(), TreeStore::new(&tree, two), 2),
        ];
        work_all(&rt, &mut clients, Work::Play(TURNS, shared));
        assert_eq!(rt; refused(&clients), 0);
        let (splits, joins) = adapted(&clients);
        assert!(rt; splits > 0 && (joins > 0) == (calm < 0), "leaf {leaf}");
        for key in 0..256 {
            let end = clients[0].value(key);
            let explained = explains(rt.alloc(), clients[0].log(), clients[1].log(), key, end);
            assert!(rt; matches!(explained, Ok(true)), "leaf {leaf}, key {key}");
        }
    }
}

// A counter, beside the keys that clients draw.
const COUNTER: u32 = 255;

#[test]
fn a_counter_ends_with_as_much_as_it_was_raised(rt: HostRuntime) {
    let Ok(mut tree) = tree_of(rt.alloc(), 2_000, 2, tuning_of((120, 0, 250, 0)), ZERO) else {
        panic!(rt; "no memory")
    };
    let (Ok(one), Ok(two)) = (tree.enroll(rt.alloc()), tree.enroll(rt.alloc())) else {
        panic!(rt; "no pass")
    };
    let mut clients = [
        Player::new(rt.alloc(), TreeStore::new(&tree, one), 1),
        Player::new(rt.alloc(), TreeStore::new(&tree, two), 2),
    ];
    clients[0].start_counter(COUNTER);
    work_all(&rt, &mut clients, Work::Count(TURNS, COUNTER));
    assert_eq!(rt; refused(&clients), 0);
    let raised = raises(clients[0].log(), COUNTER).wrapping_add(raises(clients[1].log(), COUNTER));
    assert_eq!(rt; clients[0].value(COUNTER), Some(raised));
    assert_eq!(rt; raised, TURNS.wrapping_mul(2));
}

// How many turns each of four clients plays, and how many keys they share.
const LONG: u32 = 100_000;

const HUNDRED: u32 = 100;

// Whether the clients' replies are such as any history demands.
fn are_explained(alloc: Global, clients: &[Player<'_>]) -> Result<bool, AllocError> {
    let mut values = Values::new(alloc)?;
    for client in clients {
        values.add(client.log());
    }
    for client in clients {
        if !values.explain(client.log()) || !is_rising(alloc, client.log())? {
            return Ok(false);
        }
    }
    Ok(true)
}

// How many objects the keys' calls left there, where the answers tell.
fn left(clients: &[Player<'_>], key: u32) -> i64 {
    let mut left = 0_i64;
    for client in clients {
        left = left.wrapping_add(balance(client.log(), key));
    }
    left
}

#[test]
fn four_clients_share_a_hundred_keys_on_few_rows(rt: HostRuntime) {
    let Ok(mut tree) = tree_of(rt.alloc(), 2_000, 4, tuning_of((8, 64, 250, -2_000)), ZERO) else {
        panic!(rt; "no memory")
    };
    let (Ok(a), Ok(b), Ok(c), Ok(d)) = (
        tree.enroll(rt.alloc()),
        tree.enroll(rt.alloc()),
        tree.enroll(rt.alloc()),
        tree.enroll(rt.alloc()),
    ) else {
        panic!(rt; "no pass")
    };
    let mut clients = [
        Player::new(rt.alloc(), TreeStore::new(&tree, a), 1),
        Player::new(rt.alloc(), TreeStore::new(&tree, b), 2),
        Player::new(rt.alloc(), TreeStore::new(&tree, c), 3),
        Player::new(rt.alloc(), TreeStore::new(&tree, d), 4),
    ];
    work_all(&rt, &mut clients, Work::Play(LONG, HUNDRED));
    assert_eq!(rt; refused(&clients), 0);
    let (splits, joins) = adapted(&clients);
    assert!(rt; splits > 0 && joins > 0);
    assert!(rt; matches!(are_explained(rt.alloc(), &clients), Ok(true)));
    for key in 0..HUNDRED {
        let end = clients[0].value(key);
        if key % 2 == 1 {
            assert_eq!(rt; left(&clients, key), i64::from(end.is_some()), "key {key}");
        }
    }
}

// Whether a merge explains a key's events where each client has one or two.
fn is_possible(alloc: Global, first: &[Event], second: &[Event], end: Option<u32>) -> bool {
    matches!(is_explained(alloc, first, second, end), Ok(true))
}

// What the second client noted, what the key has in the end, and whether one history allows that.
const NOTED: [([Event; 2], Option<u32>, bool); 13] = [
    ([Event::Put(2), Event::Got(Some(2))], Some(2), true),
    ([Event::Put(2), Event::Got(Some(2))], Some(1), false),
    ([Event::Put(2), Event::Got(Some(1))], Some(2), false),
    ([Event::Got(None), Event::Put(2)], Some(2), true),
    ([Event::PutNew(2), Event::NotNew], Some(2), false),
    ([Event::Got(Some(1)), Event::Put(2)], Some(2), true),
    ([Event::Put(2), Event::Got(Some(3))], Some(2), false),
    ([Event::NotNew, Event::Put(2)], Some(2), true),
    ([Event::Removed(Some(1)), Event::Put(2)], Some(2), true),
    ([Event::Put(2), Event::Removed(Some(1))], None, false),
    ([Event::Removed(None), Event::Put(2)], Some(2), true),
    ([Event::Raised(Some(1)), Event::Got(None)], None, false),
    ([Event::Raised(Some(1)), Event::Got(Some(2))], Some(2), true),
];

#[test]
fn only_what_one_history_allows_is_explained(rt: HostRuntime) {
    let first = [Event::Put(1), Event::Got(Some(2))];
    let mut row = 0_u32;
    for (second, end, possible) in NOTED {
        row = row.wrapping_add(1);
        assert_eq!(rt;
            is_possible(rt.alloc(), &first, &second, end),
            possible,
            "row {row}"
        );
    }
}
