//! Trees at the bounds of their sizes and tunings, and as many passes as there may be.
ghost use Rattle.std.specs.Prelude.{◌≡◌, None};
ghost use Rattle.ca_replace.specs.Resting.{knows};

use crate::trees::{ZERO, tree_of, tuning_of};
use ca_adapt::{Due, Tuning};
use ca_model::{Code, OrderedStore, Outcome};
use ca_node::TreeSpace;
use ca_replace::{Tree, TreeFault, TreeStore};
use ca_rows::{RowsFault, Starts};
use std::alloc::Global;

const CALM: Tuning = Tuning {
    leaf: 120,
    levels: 0,
    lost: 1_000,
    calm: -1,
    range: -100,
    high: 1_000,
    low: -1_000,
};

// Why no tree is made, where none is.
fn refusal(
    alloc: Global,
    rows: u32,
    passes: u32,
    tuning: Tuning,
    starts: Starts,
) -> Option<TreeFault> {
    tree_of(alloc, rows, passes, tuning, starts).err()
}

// Whether rows of these sizes are refused.
fn is_bad(alloc: Global, rows: u32, passes: u32, starts: Starts) -> bool {
    let made = TreeSpace::new(alloc, rows, passes, 1, 120, 0, starts);
    matches!(made, Err(RowsFault::BadSize))
}

// The numbers of rows and passes, the starts of the counters, and whether they are refused.
const SIZES: [(u32, u32, u64, u64, u64, u64, bool); 16] = [
    (383, 1, 0, 0, 0, 0, true),
    (384, 1, 0, 0, 0, 0, false),
    (65_536, 1, 0, 0, 0, 0, false),
    (1 << 24, 1, 0, 0, 0, 0, true),
    (384, 0, 0, 0, 0, 0, true),
    (384, 64, 0, 0, 0, 0, false),
    (384, 65, 0, 0, 0, 0, true),
    (384, 1, (1 << 40) - 1, 0, 0, 0, false),
    (384, 1, 1 << 40, 0, 0, 0, true),
    (384, 1, 0, 1 << 62, 0, 0, false),
    (384, 1, 0, (1 << 62) + 1, 0, 0, true),
    (384, 1, 0, 0, (1 << 38) - 1, 0, false),
    (384, 1, 0, 0, 1 << 38, 0, true),
    (384, 1, 0, 0, 0, (1 << 62) - 1, false),
    (384, 1, 0, 0, 0, 1 << 62, true),
    (
        384,
        64,
        (1 << 40) - 1,
        1 << 62,
        (1 << 38) - 1,
        (1 << 62) - 1,
        false,
    ),
];

// Sizes are looked at before the tuning is.
#[test]
fn is_made_within_the_bounds_of_its_size(rt: HostRuntime) {
    let wrong = tuning_of((1, 0, 1_000, -1));
    for (rows, passes, tag, epoch, sequence, attempt, bad) in SIZES {
        let starts = Starts {
            tag,
            epoch,
            sequence,
            attempt,
        };
        let (good_tuning, bad_tuning) = if bad {
            (Some(TreeFault::BadSize), Some(TreeFault::BadSize))
        } else {
            (None, Some(TreeFault::BadTuning))
        };
        assert!(rt;
            is_bad(rt.alloc(), rows, passes, starts) == bad
                && refusal(rt.alloc(), rows, passes, CALM, starts) == good_tuning
                && refusal(rt.alloc(), rows, passes, wrong, starts) == bad_tuning,
            "{rows} rows, {passes} passes, {tag}, {epoch}, {sequence}, {attempt}"
        );
    }
}

// The numbers of a tuning, and whether it is allowed.
const TUNINGS: [(u8, u16, i32, i32, i32, i32, i32, bool); 26] = [
    (120, 0, 1_000, -1, -100, 1_000, -1_000, true),
    (2, 0, 1_000, -1, -100, 1_000, -1_000, true),
    (1, 0, 1_000, -1, -100, 1_000, -1_000, false),
    (121, 0, 1_000, -1, -100, 1_000, -1_000, false),
    (120, 4_096, 1_000, -1, -100, 1_000, -1_000, true),
    (120, 4_097, 1_000, -1, -100, 1_000, -1_000, false),
    (120, 0, 0, -1, -100, 1_000, -1_000, true),
    (120, 0, -1, -1, -100, 1_000, -1_000, false),
    (120, 0, 1_000_000, -1, -100, 1_000, -1_000, true),
    (120, 0, 1_000_001, -1, -100, 1_000, -1_000, false),
    (120, 0, 1_000, -1_000_000, -100, 1_000, -1_000, true),
    (120, 0, 1_000, -1_000_001, -100, 1_000, -1_000, false),
    (120, 0, 1_000, 1_000_000, -100, 1_000, -1_000, true),
    (120, 0, 1_000, 1_000_001, -100, 1_000, -1_000, false),
    (120, 0, 1_000, -1, -1_000_000, 1_000, -1_000, true),
    (120, 0, 1_000, -1, -1_000_001, 1_000, -1_000, false),
    (120, 0, 1_000, -1, 0, 1_000, -1_000, true),
    (120, 0, 1_000, -1, 1, 1_000, -1_000, false),
    (120, 0, 1_000, -1, -100, 0, -1_000, true),
    (120, 0, 1_000, -1, -100, -1, -1_000, false),
    (120, 0, 1_000, -1, -100, 1_000_000, -1_000, true),
    (120, 0, 1_000, -1, -100, 1_000_001, -1_000, false),
    (120, 0, 1_000, -1, -100, 1_000, -1_000_000, true),
    (120, 0, 1_000, -1, -100, 1_000, -1_000_001, false),
    (120, 0, 1_000, -1, -100, 1_000, 0, true),
    (120, 0, 1_000, -1, -100, 1_000, 1, false),
];

#[test]
fn is_made_within_the_bounds_of_its_tuning(rt: HostRuntime) {
    for (leaf, levels, lost, calm, range, high, low, good) in TUNINGS {
        let tuning = Tuning {
            leaf,
            levels,
            lost,
            calm,
            range,
            high,
            low,
        };
        let wanted = if good {
            None
        } else {
            Some(TreeFault::BadTuning)
        };
        assert!(rt;
            tuning.is_allowed() == good && refusal(rt.alloc(), 384, 1, tuning, ZERO) == wanted,
            "{tuning:?}"
        );
    }
}

// What a tree's next pass is given: its number.
fn next_number(alloc: Global, tree: &mut Tree) -> Result<u32, TreeFault> {
    match tree.enroll(alloc) {
        Ok(pass) => Ok(pass.number()),
        Err(fault) => Err(fault),
    }
}

#[test]
fn makes_as_many_passes_as_it_is_for(rt: HostRuntime) {
    let Ok(mut tree) = tree_of(rt.alloc(), 384, 64, CALM, ZERO) else {
        panic!(rt; "no memory")
    };
    for number in 1..65 {
        assert_eq!(rt; next_number(rt.alloc(), &mut tree), Ok(number));
    }
    assert_eq!(rt; next_number(rt.alloc(), &mut tree), Err(TreeFault::NoPass));
    assert!(rt; tree.space().enrolled() == 64 && tree.space().starts() == ZERO);
}

// One store takes in what another one has seen.
fn hand_on(giver: &mut TreeStore<'_>, taker: &mut TreeStore<'_>)
    requires table { giver.old.store.table ≡ taker.old.store.table }
    requires closed { ((knows giver.old).run ≡ None) × ((knows taker.old).run ≡ None) }
    ensures giver { (giver.new.store.table ≡ giver.old.store.table) × (giver.new.store.z ≡ giver.old.store.z) }
    ensures taker { (taker.new.store.table ≡ taker.old.store.table) × (taker.new.store.z ≡ taker.old.store.z) }
    ensures closed { ((knows giver.new).run ≡ None) × ((knows taker.new).run ≡ None) }
{
    let seen = giver.front();
    taker.learn(seen);
}

#[test]
fn a_pass_becomes_a_store_and_comes_back(rt: HostRuntime) {
    let Ok(mut tree) = tree_of(rt.alloc(), 384, 2, CALM, ZERO) else {
        panic!(rt; "no memory")
    };
    let (Ok(one), Ok(two)) = (tree.enroll(rt.alloc()), tree.enroll(rt.alloc())) else {
        panic!(rt; "no pass")
    };
    let mut giver = TreeStore::new(&tree, one);
    let mut taker = TreeStore::new(&tree, two);
    hand_on(&mut giver, &mut taker);
    hand_on(&mut taker, &mut giver);
    let (one, two) = (giver.into_pass(), taker.into_pass());
    assert_eq!(rt; (one.number(), two.number()), (1, 2));
    assert_eq!(rt; (one.kept(), two.kept()), (0, 0));
    assert_eq!(rt; TreeStore::new(&tree, one).into_pass().number(), 1);
}

#[test]
fn an_empty_tree_has_no_object(rt: HostRuntime) {
    let Ok(mut tree) = tree_of(rt.alloc(), 384, 1, CALM, ZERO) else {
        panic!(rt; "no memory")
    };
    let Ok(pass) = tree.enroll(rt.alloc()) else {
        panic!(rt; "no pass")
    };
    let mut store = TreeStore::new(&tree, pass);
    let mut into = Code::new();
    for len in [1, 7, 8, 9, 1_000] {
        let key = [0x80_u8; 1_000];
        let _ = into.try_push(7);
        let outcome = store.get(&key[..len], &mut into, 1);
        assert!(rt;
            outcome == Outcome::Done(false) && into.is_empty(),
            "a key of {len} bytes"
        );
    }
}

#[test]
fn moves_its_statistic_and_says_what_is_due(rt: HostRuntime) {
    let hot = tuning_of((120, 0, 600, 0));
    for (tuning, old, lost, new) in [
        (hot, 0, true, 600),
        (hot, 600, true, 1_200),
        (hot, 1_200, true, 600),
        (CALM, -1_000, false, -1_001),
        (CALM, -1_001, false, -1),
    ] {
        assert!(rt;
            tuning.is_allowed() && tuning.statistic_after(old, lost) == new,
            "{old}"
        );
    }
    for (statistic, due) in [
        (1_000, Due::Nothing),
        (1_001, Due::Split),
        (-1_000, Due::Nothing),
        (-1_001, Due::Join),
    ] {
        assert!(rt; CALM.due(statistic) == due, "{statistic}");
    }
}
