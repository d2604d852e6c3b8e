//! One client's calls on a store, alone and beside a pass that reads all the while.
use crate::scripts::Answer::{Fills, Finds, Has, Is, Many, Number, Puts};
use crate::scripts::Call::{
    Adapt, Count, Get, Last, Put, PutFalling, PutNew, PutOften, PutRising, PutSparing, Raise,
    Remove, RemoveEven, RemoveIf, Splits,
};
use crate::scripts::{Row, wrong_row};
use crate::trees::{Few, LAST, ZERO, tree_of, tuning_of};
use ca_adapt::{Adapted, Why};
use ca_model::{Changed, Code, Counter, FullCause, Outcome, Spent};
use ca_replace::TreeStore;
use ca_rows::Starts;
use std::alloc::Global;

const PUT: Outcome<Changed> = Outcome::Done(Changed::Put);

const KEPT: Outcome<Changed> = Outcome::Done(Changed::Kept);

const ABSENT: Outcome<Changed> = Outcome::Done(Changed::Absent);

// All bases of the tree have at most 120 objects, and its statistics never are above their bound.
const CALM: Few = (120, 0, 1_000, -1);

// The first row of the script whose call on a new tree comes to something else; `Some(usize::MAX)` where no memory is left.
fn alone(alloc: Global, rows: u32, few: Few, starts: Starts, script: &[Row]) -> Option<usize> {
    let Ok(mut tree) = tree_of(alloc, rows, 1, tuning_of(few), starts) else {
        return Some(usize::MAX);
    };
    let Ok(pass) = tree.enroll(alloc) else {
        return Some(usize::MAX);
    };
    wrong_row(&mut TreeStore::new(&tree, pass), script)
}

// The first rows of two scripts whose calls come to something else. During the first one another pass is pinned.
fn beside(alloc: Global, script: &[Row], then: &[Row]) -> Option<(Option<usize>, Option<usize>)> {
    let Ok(mut tree) = tree_of(alloc, 384, 2, tuning_of(CALM), ZERO) else {
        return None;
    };
    let (Ok(one), Ok(mut two)) = (tree.enroll(alloc), tree.enroll(alloc)) else {
        return None;
    };
    let mut store = TreeStore::new(&tree, one);
    tree.space().pin(&mut two);
    let wrong = wrong_row(&mut store, script);
    tree.space().unpin(&mut two);
    Some((wrong, wrong_row(&mut store, then)))
}

// A tree on 384 rows whose counters begin with 0, each base of which has at most so many objects.
const FEW: [(&str, Few, &[Row]); 14] = [
    ("a thousand puts find their rows again", CALM, &SPARING),
    (
        "a new key finds no place in a full base",
        (2, 0, 1_000, -1),
        &FULL_BASE,
    ),
    ("an object is removed once", CALM, &REMOVED),
    (
        "a function says whether an object is removed",
        CALM,
        &REMOVED_IF,
    ),
    ("a function changes an object", CALM, &RAISED),
    (
        "full bases are split down to the last level",
        (2, 8, 1_000, -1),
        &LEVELS,
    ),
    ("a split is a turn", (2, 8, 1_000, -1), &TURN),
    ("rising keys fill all rows", (64, 64, 1_000, -1), &ROWS),
    ("a hot base is split", (120, 64, 250, 600), &HOT),
    (
        "a hot base of one object stays",
        (120, 64, 250, 600),
        &ONE_OBJECT,
    ),
    (
        "a hot base at the last level stays",
        (120, 0, 250, 600),
        &LAST_LEVEL,
    ),
    (
        "a calm base is joined with its sibling",
        (2, 64, 250, -600),
        &COLD,
    ),
    (
        "a calm base stays where both have too many objects",
        (2, 64, 250, -600),
        &TOO_MANY,
    ),
    (
        "a calm base stays beside a route",
        (2, 64, 250, -600),
        &BESIDE_ROUTE,
    ),
];

const SPARING: [Row; 2] = [
    (PutSparing(1), Number(1_000)),
    (Get(1), Finds(KEPT, Some(0))),
];

const FULL_BASE: [Row; 6] = [
    (PutNew(2), Puts(PUT)),
    (PutNew(1), Puts(PUT)),
    (PutNew(3), Puts(Outcome::Deep(0))),
    (Put(3), Puts(Outcome::Deep(0))),
    (Put(1), Puts(PUT)),
    (PutNew(2), Puts(KEPT)),
];

const REMOVED: [Row; 6] = [
    (Remove(2), Finds(ABSENT, None)),
    (PutNew(3), Puts(PUT)),
    (PutNew(2), Puts(PUT)),
    (Remove(2), Finds(PUT, Some(0))),
    (Remove(2), Finds(ABSENT, None)),
    (Get(3), Finds(KEPT, Some(0))),
];

const REMOVED_IF: [Row; 5] = [
    (Put(1), Puts(PUT)),
    (RemoveIf(1, false), Finds(KEPT, Some(0))),
    (RemoveIf(1, true), Finds(PUT, Some(0))),
    (RemoveIf(1, true), Finds(ABSENT, None)),
    (Get(1), Finds(ABSENT, None)),
];

const RAISED: [Row; 5] = [
    (Raise(1, true), Finds(ABSENT, None)),
    (Put(1), Puts(PUT)),
    (Raise(1, false), Finds(KEPT, Some(0))),
    (Raise(1, true), Finds(PUT, Some(0))),
    (Get(1), Finds(KEPT, Some(1))),
];

const LEVELS: [Row; 6] = [
    (PutRising(1, 12), Many(10, Outcome::Deep(8))),
    (Splits, Has(8, 0)),
    (Count(12), Number(10)),
    (Put(9), Puts(PUT)),
    (PutFalling(1), Number(1)),
    (Count(12), Number(11)),
];

// One turn went to a split.
const ONE_TURN: Spent = Spent {
    lost: 0,
    helped: 0,
    passed: 1,
};

const TURN: [Row; 5] = [
    (PutRising(1, 3), Many(2, Outcome::Done(()))),
    (Put(3), Puts(Outcome::Busy(ONE_TURN))),
    (Count(5), Number(2)),
    (Put(3), Puts(PUT)),
    (Count(5), Number(3)),
];

const ROWS: [Row; 5] = [
    (PutRising(1, 364), Fills(362)),
    (Count(364), Number(362)),
    (Remove(1), Finds(PUT, Some(0))),
    (PutRising(363, 364), Many(1, Outcome::Done(()))),
    (Count(364), Number(362)),
];

const HOT: [Row; 7] = [
    (Last, Is(0, Adapted::Stay)),
    (Adapt(1), Is(600, Adapted::Stay)),
    (Adapt(2), Is(1_200, Adapted::Split)),
    (Adapt(3), Is(600, Adapted::Stay)),
    (Adapt(4), Is(1_200, Adapted::Split)),
    (Splits, Has(2, 0)),
    (Count(9), Number(4)),
];

const ONE_OBJECT: [Row; 7] = [
    (Adapt(1), Is(600, Adapted::Stay)),
    (Adapt(1), Is(1_200, Adapted::NotSplit(Why::OneObject))),
    (Adapt(2), Is(600, Adapted::Stay)),
    (Get(2), Finds(KEPT, Some(0))),
    (Last, Is(600, Adapted::Stay)),
    (Raise(2, true), Finds(PUT, Some(0))),
    (Last, Is(1_200, Adapted::Split)),
];

// Beside a pass that reads all the while.
const UNREAD: [Row; 4] = [
    (PutOften(1), Many(191, Outcome::Full(KEEPS_381))),
    (Get(1), Finds(KEPT, Some(0))),
    (PutNew(1), Puts(KEPT)),
    (PutNew(2), Puts(Outcome::Full(KEEPS_381))),
];

const KEEPS_381: FullCause = FullCause {
    kept: 381,
    lag: Some(2),
};

// Once it reads no more.
const READ: [Row; 1] = [(PutSparing(1), Number(1_000))];

const REFUSED: [Row; 9] = [
    (Put(2), Puts(PUT)),
    (PutOften(1), Many(190, Outcome::Full(KEEPS_380))),
    (Remove(1), Finds(PUT, Some(0))),
    (Remove(2), Finds(Outcome::Full(KEEPS_382), None)),
    (RemoveIf(2, true), Finds(Outcome::Full(KEEPS_382), None)),
    (Raise(2, true), Finds(Outcome::Full(KEEPS_382), None)),
    (Raise(2, false), Finds(KEPT, Some(0))),
    (Get(1), Finds(ABSENT, None)),
    (Get(2), Finds(KEPT, Some(0))),
];

// The first put leaves 381 rows and each one takes two, so one row is left; another one is kept behind each put, and two from the third put on.
const KEEPS_380: FullCause = FullCause {
    kept: 380,
    lag: Some(2),
};

const KEEPS_382: FullCause = FullCause {
    kept: 382,
    lag: Some(2),
};

// Counters that can rise no more: the epoch, and all of them.
const EPOCH_WORN: [Row; 1] = [(PutOften(1), Many(191, Outcome::Worn(Counter::Epoch)))];

const ALL_WORN: [Row; 3] = [
    (Put(1), Puts(Outcome::Worn(Counter::PoolTag))),
    (PutNew(1), Puts(Outcome::Worn(Counter::PoolTag))),
    (Get(1), Finds(ABSENT, None)),
];

// On more rows.
const FALLING: [Row; 6] = [
    (PutFalling(300), Number(300)),
    (Count(310), Number(300)),
    (RemoveEven(150), Number(150)),
    (Count(310), Number(150)),
    (Raise(7, true), Finds(PUT, Some(0))),
    (Count(310), Number(149)),
];

const LAST_LEVEL: [Row; 7] = [
    (Adapt(1), Is(600, Adapted::Stay)),
    (Adapt(1), Is(1_200, Adapted::NotSplit(Why::OneObject))),
    (Adapt(2), Is(600, Adapted::Stay)),
    (Get(2), Finds(KEPT, Some(0))),
    (Last, Is(600, Adapted::Stay)),
    (Raise(2, true), Finds(PUT, Some(0))),
    (Last, Is(1_200, Adapted::NotSplit(Why::AtLevel))),
];

// Bases that are to be joined: {2} with {1}, once 3 is removed.
const COLD: [Row; 8] = [
    (Adapt(1), Is(-600, Adapted::Stay)),
    (Adapt(2), Is(-1_200, Adapted::NotJoined(Why::Root))),
    (PutRising(3, 4), Many(1, Outcome::Done(()))),
    (Last, Is(-600, Adapted::Stay)),
    (Remove(3), Finds(PUT, Some(0))),
    (Last, Is(-1_200, Adapted::Joined)),
    (Splits, Has(1, 1)),
    (Count(4), Number(2)),
];

// {1} beside {2, 3}.
const TOO_MANY: [Row; 5] = [
    (PutRising(1, 4), Many(3, Outcome::Done(()))),
    (Adapt(1), Is(-600, Adapted::Stay)),
    (Adapt(1), Is(-1_200, Adapted::NotJoined(Why::TooMany))),
    (Splits, Has(1, 0)),
    (Count(4), Number(3)),
];

// {1} beside a route with {2} and {3, 4}.
const BESIDE_ROUTE: [Row; 5] = [
    (PutRising(1, 5), Many(4, Outcome::Done(()))),
    (Adapt(1), Is(-600, Adapted::Stay)),
    (Adapt(1), Is(-1_200, Adapted::NotJoined(Why::SiblingRoute))),
    (Splits, Has(2, 0)),
    (Count(5), Number(4)),
];

#[test]
fn calls_come_to_what_scripts_say(rt: HostRuntime) {
    let epoch = Starts {
        epoch: 1 << 62,
        ..ZERO
    };
    for (name, few, script) in FEW {
        assert_eq!(rt; alone(rt.alloc(), 384, few, ZERO, script), None, "{name}");
    }
    for (name, rows, few, starts, script) in [
        (
            "no row is given again once the epoch is worn",
            384,
            CALM,
            epoch,
            EPOCH_WORN.as_slice(),
        ),
        (
            "no row is taken once the tag is worn",
            384,
            CALM,
            LAST,
            ALL_WORN.as_slice(),
        ),
        (
            "falling keys are found and removed again",
            2_000,
            (3, 400, 1_000, -1),
            ZERO,
            FALLING.as_slice(),
        ),
    ] {
        assert_eq!(rt;
            alone(rt.alloc(), rows, few, starts, script),
            None,
            "{name}"
        );
    }
}

#[test]
fn no_row_is_given_again_while_another_pass_reads(rt: HostRuntime) {
    assert_eq!(rt; beside(rt.alloc(), &UNREAD, &READ), Some((None, None)));
    assert_eq!(rt; beside(rt.alloc(), &REFUSED, &[]), Some((None, None)));
}
