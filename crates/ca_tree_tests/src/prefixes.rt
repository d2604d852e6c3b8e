//! Keys that begin alike: a base stores 32 bytes of what its keys share, and compares five bytes behind that.
ghost use Rattle.std.specs.Prelude.{◌≡◌, ◌≤◌, ◌<◌, IfSome, None, length, slice_range};
ghost use Rattle.ca_model.specs.StoreMap.{IsPair};
ghost use Rattle.ca_replace.specs.Resting.{knows};

use crate::trees::{Few, ZERO, tree_of, tuning_of};
use ca_model::{Code, OrderedStore, Outcome};
use ca_replace::TreeStore;
use std::alloc::Global;

// Each base has at most eight objects.
const FEW: Few = (8, 64, 1_000, -1);

// How many turns a call may lose to splits.
const BUDGET: u32 = 100;

// How many keys there are of a kind.
const MANY: u32 = 100;

// What keys share behind their tag.
const FILLER: [u8; 48] = [0x75; 48];

// The code of the tuple of one binary, whose code shares so many bytes with those of other numbers. The binary's code is its key, from byte 5 on.
fn object(share: usize, number: u32) -> Option<Code>
    requires { (1 ≤ share) × (share ≤ 48) × (number < 200) }
    ensures { IfSome result (λ code. IsPair 1 (slice_range code.items 5 (length code.items), code.items)) }
{
    let mut code = Code::new();
    let Ok(()) = code.try_extend_from_slice(&[0x40, 0, 0, 0, 1, 0x80]) else {
        return None;
    };
    let Ok(()) = code.try_extend_from_slice(&FILLER[..share - 1]) else {
        return None;
    };
    let Ok(()) = code.try_extend_from_slice(&[number as u8 + 1, 0x76, 0, 0]) else {
        return None;
    };
    Some(code)
}

// How many keys of a kind were put that weren't there.
fn put_all(store: &mut TreeStore<'_>, share: usize) -> u32
    requires sizes { (store.old.store.z.keypos ≡ 1) × (1 ≤ share) × (share ≤ 48) }
    requires closed { (knows store.old).run ≡ None }
    ensures sizes { store.new.store.z ≡ store.old.store.z }
    ensures closed { (knows store.new).run ≡ None }
{
    let mut done = 0_u32;
    for turn in 0..MANY {
        if let Some(code) = object(share, turn * 37 % MANY) {
            if store.put_new(&code, 5, code.len(), BUDGET) == Outcome::Done(true) {
                done = done.saturating_add(1);
            }
        }
    }
    done
}

// How many are there.
fn found(store: &mut TreeStore<'_>, share: usize) -> u32
    requires share { (1 ≤ share) × (share ≤ 48) }
    requires closed { (knows store.old).run ≡ None }
    ensures sizes { store.new.store.z ≡ store.old.store.z }
    ensures closed { (knows store.new).run ≡ None }
{
    let mut there = 0_u32;
    for number in 0..MANY {
        if let Some(code) = object(share, number) {
            let mut into = Code::new();
            if store.get(&code[5..], &mut into, BUDGET) == Outcome::Done(true)
                && into.as_slice() == code.as_slice()
            {
                there = there.saturating_add(1);
            }
        }
    }
    there
}

// How many are removed, from this number on each second one.
fn remove_some(store: &mut TreeStore<'_>, share: usize, first: u32) -> u32
    requires sizes { (store.old.store.z.keypos ≡ 1) × (1 ≤ share) × (share ≤ 48) }
    requires closed { (knows store.old).run ≡ None }
    ensures sizes { store.new.store.z ≡ store.old.store.z }
    ensures closed { (knows store.new).run ≡ None }
{
    let mut done = 0_u32;
    for number in 0..MANY {
        if number % 2 == first {
            if let Some(code) = object(share, number) {
                let mut old = Code::new();
                if store.remove(&code[5..], &mut old, BUDGET) == Outcome::Done(true) {
                    done = done.saturating_add(1);
                }
            }
        }
    }
    done
}

// What calls come to on keys that share so many bytes, beside keys that share one byte less and one more.
fn story(alloc: Global, share: usize) -> Option<[u32; 14]>
    requires { (2 ≤ share) × (share ≤ 47) }
{
    let Ok(mut tree) = tree_of(alloc, 2_000, 1, tuning_of(FEW), ZERO) else {
        return None;
    };
    let Ok(pass) = tree.enroll(alloc) else {
        return None;
    };
    let mut store = TreeStore::new(&tree, pass);
    let alone = put_all(&mut store, share);
    let there = found(&mut store, share);
    let less = found(&mut store, share - 1);
    let more = found(&mut store, share + 1);
    let behind = put_all(&mut store, share + 1);
    let beside = found(&mut store, share);
    let before = put_all(&mut store, share - 1);
    let all = [
        found(&mut store, share - 1),
        found(&mut store, share),
        found(&mut store, share + 1),
    ];
    let even = remove_some(&mut store, share, 0);
    let left = found(&mut store, share);
    let odd = remove_some(&mut store, share, 1);
    let again = put_all(&mut store, share);
    Some([
        alone, there, less, more, behind, beside, before, all[0], all[1], all[2], even, left, odd,
        again,
    ])
}

const STORY: [u32; 14] = [
    100, 100, 0, 0, 100, 100, 100, 100, 100, 100, 50, 50, 50, 100,
];

#[test]
fn keys_that_begin_alike_are_told_apart(rt: HostRuntime) {
    for share in [3, 31, 32, 33, 40] {
        assert_eq!(rt; story(rt.alloc(), share), Some(STORY), "{share} bytes");
    }
}
