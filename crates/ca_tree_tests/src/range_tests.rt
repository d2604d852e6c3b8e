//! What calls that read ranges come to: row by row, and beside a plain definition of what is within two edges.
ghost use Rattle.std.specs.Prelude.{◌≡◌, ◌≤◌, None};
ghost use Rattle.ca_replace.specs.Resting.{knows};

use crate::calls::{get, put};
use crate::ranges::{End, Handed, above, below, open_all, range};
use crate::scripts::Answer::{Finds, Many};
use crate::scripts::Call::{Put, PutFalling, PutOften, PutRising, PutSparing, Remove, RemoveEven};
use crate::scripts::{Answer, Row, wrong_row};
use crate::trees::{Few, ZERO, tree_of, tuning_of};
use ca_model::{Changed, Code, FullCause, OrderedStore, Outcome, Spent};
use ca_replace::TreeStore;
use std::alloc::Global;

// A call: a range of all that may be cut behind so many objects, or not if that is 0, or a call that looks for one object.
#[derive(Clone, Copy)]
enum Reads {
    All(u32),
    Above(End),
    Below(End),
}

// What it comes to: true, and the key of the object that was found or the number of those that the run handed out; a cut run, and that number;
// false; or so many bases that it had passed when it gave up.
#[derive(Clone, Copy)]
enum Comes {
    Whole(u32),
    Cut(u32),
    Nothing,
    Passes(u32),
}

// A call, its budget, and what it comes to.
type Turn = (Reads, u32, Comes);

// The outcome of a call that gave up behind so many bases.
fn busy(passed: u32) -> Outcome<bool> {
    Outcome::Busy(Spent {
        lost: 0,
        helped: 0,
        passed,
    })
}

// At most two objects in a base: ten keys in rising order are in nine bases.
const STAIRS: Few = (2, 8, 1_000, -1);

const TEN: [Row; 1] = [(PutRising(1, 12), Many(10, Outcome::Deep(8)))];

const TURNS: [Turn; 14] = [
    (Reads::All(0), 9, Comes::Passes(9)),
    (Reads::All(0), 10, Comes::Whole(10)),
    (Reads::All(3), 20, Comes::Cut(3)),
    (Reads::All(100), 20, Comes::Whole(10)),
    (Reads::Above(End::Past(3)), 2, Comes::Passes(2)),
    (Reads::Above(End::Past(3)), 3, Comes::Whole(4)),
    (Reads::Above(End::At(3)), 1, Comes::Whole(3)),
    (Reads::Above(End::Past(10)), 20, Comes::Nothing),
    (Reads::Above(End::Open), 20, Comes::Whole(1)),
    (Reads::Below(End::Past(3)), 20, Comes::Whole(2)),
    (Reads::Below(End::At(3)), 20, Comes::Whole(3)),
    (Reads::Below(End::Open), 20, Comes::Whole(10)),
    (Reads::Below(End::Past(1)), 20, Comes::Nothing),
    (Reads::All(0), 10, Comes::Whole(10)),
];

fn told(comes: Comes) -> (Outcome<bool>, Option<u32>) {
    match comes {
        Comes::Whole(number) => (Outcome::Done(true), Some(number)),
        Comes::Cut(number) => (Outcome::Done(false), Some(number)),
        Comes::Nothing => (Outcome::Done(false), None),
        Comes::Passes(passed) => (busy(passed), None),
    }
}

fn read(store: &mut TreeStore<'_>, reads: Reads, budget: u32) -> (Outcome<bool>, Option<u32>)
    requires sizes { (store.old.store.z.keypos ≡ 1) × (1 ≤ budget) }
    requires closed { (knows store.old).run ≡ None }
    ensures sizes { store.new.store.z ≡ store.old.store.z }
    ensures closed { (knows store.new).run ≡ None }
{
    match reads {
        Reads::Above(lo) => above(store, lo, budget),
        Reads::Below(hi) => below(store, hi, budget),
        Reads::All(want) => {
            let (outcome, handed) = range(store, End::Open, End::Open, want, budget);
            (outcome, handed.map(|(_, count)| count))
        }
    }
}

// The place of the first row whose call comes to something else, with what it comes to.
fn wrong_read(
    store: &mut TreeStore<'_>,
    turns: &[Turn],
) -> Option<(usize, Outcome<bool>, Option<u32>)>
    requires sizes { store.old.store.z.keypos ≡ 1 }
    requires closed { (knows store.old).run ≡ None }
    ensures sizes { store.new.store.z ≡ store.old.store.z }
    ensures closed { (knows store.new).run ≡ None }
{
    for place in 0..turns.len() {
        let (reads, budget, comes) = turns[place];
        let (outcome, number) = read(store, reads, budget.max(1));
        if (outcome, number) != told(comes) {
            return Some((place, outcome, number));
        }
    }
    None
}

// Rows of a script, and turns behind them.
type Part<'a> = (&'a [Row], &'a [Turn]);

const NO_PART: Part<'static> = (&[], &[]);

// The first row of a part that comes to something else, and the first turn that does, with what it comes to.
type Wrong = (Option<usize>, Option<(usize, Outcome<bool>, Option<u32>)>);

fn wrong_in(store: &mut TreeStore<'_>, part: Part<'_>) -> Wrong
    requires sizes { store.old.store.z.keypos ≡ 1 }
    requires closed { (knows store.old).run ≡ None }
    ensures sizes { store.new.store.z ≡ store.old.store.z }
    ensures closed { (knows store.new).run ≡ None }
{
    let (script, turns) = part;
    let row = wrong_row(store, script);
    (row, wrong_read(store, turns))
}

// The same of parts that follow each other, on a new tree whose bases have two objects at most.
fn wrong_on_stairs(alloc: Global, parts: [Part<'_>; 4]) -> Option<[Wrong; 4]> {
    let Ok(mut tree) = tree_of(alloc, 384, 1, tuning_of(STAIRS), ZERO) else {
        return None;
    };
    let Ok(pass) = tree.enroll(alloc) else {
        return None;
    };
    let mut store = TreeStore::new(&tree, pass);
    let [first, second, third, last] = parts;
    let before = [wrong_in(&mut store, first), wrong_in(&mut store, second)];
    let behind = [wrong_in(&mut store, third), wrong_in(&mut store, last)];
    Some([before[0], before[1], behind[0], behind[1]])
}

// Nothing is wrong.
const RIGHT: Option<[Wrong; 4]> = Some([(None, None); 4]);

#[test]
fn a_range_takes_a_turn_for_each_base_that_it_passes(rt: HostRuntime) {
    let parts = [
        (TEN.as_slice(), TURNS.as_slice()),
        NO_PART,
        NO_PART,
        NO_PART,
    ];
    assert_eq!(rt; wrong_on_stairs(rt.alloc(), parts), RIGHT);
}

const REMOVED: Answer = Finds(Outcome::Done(Changed::Put), Some(0));

// Three bases in the middle have no object any more.
const MIDDLE: [Row; 3] = [
    (Remove(5), REMOVED),
    (Remove(6), REMOVED),
    (Remove(7), REMOVED),
];

// Each base that is looked at to the left is a turn, and then each that the run passes, from the last one that was looked at on: with as many turns a call gives
// up, and with one more it is done. The base right below the edge costs none, nor does a call that ends there.
const BEHIND_THREE: [Turn; 14] = [
    (Reads::Below(End::Past(5)), 1, Comes::Whole(4)),
    (Reads::Below(End::At(8)), 1, Comes::Whole(8)),
    // one look, and two bases
    (Reads::Below(End::At(5)), 1, Comes::Passes(1)),
    (Reads::Below(End::At(5)), 2, Comes::Passes(2)),
    (Reads::Below(End::At(5)), 3, Comes::Passes(3)),
    (Reads::Below(End::At(5)), 4, Comes::Whole(4)),
    // two looks, and three bases
    (Reads::Below(End::Past(7)), 5, Comes::Passes(5)),
    (Reads::Below(End::Past(7)), 6, Comes::Whole(4)),
    // three looks, and four bases
    (Reads::Below(End::At(7)), 3, Comes::Passes(3)),
    (Reads::Below(End::At(7)), 7, Comes::Passes(7)),
    (Reads::Below(End::At(7)), 8, Comes::Whole(4)),
    (Reads::Below(End::Past(8)), 4, Comes::Passes(4)),
    (Reads::Below(End::Past(8)), 7, Comes::Passes(7)),
    (Reads::Below(End::Past(8)), 8, Comes::Whole(4)),
];

// Nor have all on the left of them, and the last one.
const LEFT: [Row; 6] = [
    (Remove(1), REMOVED),
    (Remove(2), REMOVED),
    (Remove(3), REMOVED),
    (Remove(4), REMOVED),
    (Remove(9), REMOVED),
    (Remove(10), REMOVED),
];

const BEHIND_ALL: [Turn; 8] = [
    // the first base
    (Reads::Below(End::At(1)), 1, Comes::Nothing),
    // one look, and two bases
    (Reads::Below(End::At(2)), 3, Comes::Passes(3)),
    (Reads::Below(End::At(2)), 4, Comes::Nothing),
    (Reads::Below(End::Open), 3, Comes::Passes(3)),
    (Reads::Below(End::Open), 4, Comes::Whole(8)),
    // six looks, and seven bases
    (Reads::Below(End::Past(8)), 6, Comes::Passes(6)),
    (Reads::Below(End::Past(8)), 13, Comes::Passes(13)),
    (Reads::Below(End::Past(8)), 14, Comes::Nothing),
];

// The first one has its object again.
const FIRST: [Row; 1] = [(Put(1), Answer::Puts(Outcome::Done(Changed::Put)))];

const BEHIND_FIRST: [Turn; 4] = [
    // two looks, and three bases
    (Reads::Below(End::At(3)), 5, Comes::Passes(5)),
    (Reads::Below(End::At(3)), 6, Comes::Whole(1)),
    // six looks, and seven bases
    (Reads::Below(End::Past(8)), 13, Comes::Passes(13)),
    (Reads::Below(End::Past(8)), 14, Comes::Whole(1)),
];

#[test]
fn the_last_object_takes_a_turn_for_each_base_on_the_left(rt: HostRuntime) {
    let parts = [
        (TEN.as_slice(), NO_PART.1),
        (MIDDLE.as_slice(), BEHIND_THREE.as_slice()),
        (LEFT.as_slice(), BEHIND_ALL.as_slice()),
        (FIRST.as_slice(), BEHIND_FIRST.as_slice()),
    ];
    assert_eq!(rt; wrong_on_stairs(rt.alloc(), parts), RIGHT);
}

// Whether a key is from a lower edge on.
fn is_from(key: u32, lo: End) -> bool {
    match lo {
        End::Open => true,
        End::At(n) => n <= key,
        End::Past(n) => n < key,
    }
}

// Whether a key is up to an upper edge.
fn is_up_to(key: u32, hi: End) -> bool {
    match hi {
        End::Open => true,
        End::At(n) => key <= n,
        End::Past(n) => key < n,
    }
}

// Which of these keys are within two edges, and how many.
fn within(keys: u64, lo: End, hi: End) -> Handed {
    let (mut some, mut count) = (0_u64, 0_u32);
    for key in 0..64 {
        if keys >> key & 1 == 1 && is_from(key, lo) && is_up_to(key, hi) {
            some |= 1 << key;
            count = count.saturating_add(1);
        }
    }
    (some, count)
}

// The least of these keys.
fn least(keys: u64) -> Option<u32> {
    for key in 0..64 {
        if keys >> key & 1 == 1 {
            return Some(key);
        }
    }
    None
}

// The greatest of these keys.
fn greatest(keys: u64) -> Option<u32> {
    let mut greatest = None;
    for key in 0..64 {
        if keys >> key & 1 == 1 {
            greatest = Some(key);
        }
    }
    greatest
}

// All edges whose keys are below 33: none, and two at each key.
fn end(place: u32) -> End {
    let key = place / 2;
    if place == 66 {
        End::Open
    } else if place % 2 == 0 {
        End::At(key)
    } else {
        End::Past(key)
    }
}

// Whether a run that may be cut handed out the first of all, and three or more where it was cut.
fn is_beginning(told: (Outcome<bool>, Option<Handed>), all: Handed) -> bool {
    let (outcome, Some((keys, count))) = told else {
        return false;
    };
    let last = greatest(keys).map_or(End::Past(0), End::At);
    let begins = (keys, count) == within(all.0, End::Open, last);
    begins
        && (outcome == Outcome::Done(true) && count == all.1
            || outcome == Outcome::Done(false) && count >= 3)
}

// How many turns a call may take.
const ENOUGH: u32 = 100;

// Whether the ranges within two edges are what they should be where the tree has these keys.
fn is_right(store: &mut TreeStore<'_>, keys: u64, lo: End, hi: End) -> bool
    requires sizes { store.old.store.z.keypos ≡ 1 }
    requires closed { (knows store.old).run ≡ None }
    ensures sizes { store.new.store.z ≡ store.old.store.z }
    ensures closed { (knows store.new).run ≡ None }
{
    let all = within(keys, lo, hi);
    let whole = range(store, lo, hi, 0, ENOUGH);
    let begun = range(store, lo, hi, 3, ENOUGH);
    whole == (Outcome::Done(true), Some(all)) && is_beginning(begun, all)
}

// Whether the first object above an edge, and the last one below it, are what they should be.
fn finds_ends(store: &mut TreeStore<'_>, keys: u64, edge: End) -> bool
    requires sizes { store.old.store.z.keypos ≡ 1 }
    requires closed { (knows store.old).run ≡ None }
    ensures sizes { store.new.store.z ≡ store.old.store.z }
    ensures closed { (knows store.new).run ≡ None }
{
    let first = least(within(keys, edge, End::Open).0);
    let last = greatest(within(keys, End::Open, edge).0);
    above(store, edge, ENOUGH) == (Outcome::Done(first.is_some()), first)
        && below(store, edge, ENOUGH) == (Outcome::Done(last.is_some()), last)
}

// The first upper edge with which a range from this lower one isn't what it should be.
fn wrong_upper(store: &mut TreeStore<'_>, keys: u64, lo: End) -> Option<u32>
    requires sizes { store.old.store.z.keypos ≡ 1 }
    requires closed { (knows store.old).run ≡ None }
    ensures sizes { store.new.store.z ≡ store.old.store.z }
    ensures closed { (knows store.new).run ≡ None }
{
    for hi in 0..67 {
        if !is_right(store, keys, lo, end(hi)) {
            return Some(hi);
        }
    }
    None
}

// The first edge at which an object isn't found as it should be, or two edges between which a range isn't what it should be.
fn wrong_edges(store: &mut TreeStore<'_>, keys: u64) -> Option<(u32, Option<u32>)>
    requires sizes { store.old.store.z.keypos ≡ 1 }
    requires closed { (knows store.old).run ≡ None }
    ensures sizes { store.new.store.z ≡ store.old.store.z }
    ensures closed { (knows store.new).run ≡ None }
{
    for lo in 0..67 {
        if !finds_ends(store, keys, end(lo)) {
            return Some((lo, None));
        }
        let upper = wrong_upper(store, keys, end(lo));
        if upper.is_some() {
            return Some((lo, upper));
        }
    }
    None
}

const ODD: [Row; 2] = [
    (PutRising(0, 32), Many(32, Outcome::Done(()))),
    (RemoveEven(16), Answer::Number(16)),
];

// Bases in the middle and at the end have no object any more.
const GAPS: [Row; 11] = [
    (PutFalling(24), Answer::Number(24)),
    (Remove(8), REMOVED),
    (Remove(9), REMOVED),
    (Remove(10), REMOVED),
    (Remove(11), REMOVED),
    (Remove(12), REMOVED),
    (Remove(13), REMOVED),
    (Remove(20), REMOVED),
    (Remove(21), REMOVED),
    (Remove(22), REMOVED),
    (Remove(23), REMOVED),
];

const NONE: [Row; 0] = [];

// The first row of a script that comes to something else on a new tree, and the first edges that do then, where the keys are these.
type Within = (Option<usize>, Option<(u32, Option<u32>)>);

fn wrong_within(alloc: Global, script: &[Row], keys: u64) -> Option<Within> {
    let Ok(mut tree) = tree_of(alloc, 2_000, 1, tuning_of((3, 64, 1_000, -1)), ZERO) else {
        return None;
    };
    let Ok(pass) = tree.enroll(alloc) else {
        return None;
    };
    let mut store = TreeStore::new(&tree, pass);
    let row = wrong_row(&mut store, script);
    Some((row, wrong_edges(&mut store, keys)))
}

#[test]
fn ranges_are_what_is_within_their_edges(rt: HostRuntime) {
    for (name, script, keys) in [
        ("odd keys", ODD.as_slice(), 0xaaaa_aaaa_u64),
        ("two gaps", GAPS.as_slice(), 0x000f_c0ff),
        ("an empty tree", NONE.as_slice(), 0),
    ] {
        let wrong = wrong_within(rt.alloc(), script, keys);
        assert_eq!(rt; wrong, Some((None, None)), "{name}");
    }
}

// Whether a range of the ten keys comes to its end, and one of them can be put and looked up behind it.
fn reads_and_puts(store: &mut TreeStore<'_>, turn: u32) -> bool
    requires sizes { store.old.store.z.keypos ≡ 1 }
    requires closed { (knows store.old).run ≡ None }
    ensures sizes { store.new.store.z ≡ store.old.store.z }
    ensures closed { (knows store.new).run ≡ None }
{
    let mut into = Code::new();
    let key = 1 + turn % 10;
    range(store, End::Open, End::Open, 0, ENOUGH) == (Outcome::Done(true), Some((0x7fe, 10)))
        && put(store, key, 0, ENOUGH) == Outcome::Done(())
        && get(store, key, &mut into)
}

// The first of so many turns in which that isn't so.
fn wrong_turn(store: &mut TreeStore<'_>, turns: u32) -> Option<u32>
    requires sizes { store.old.store.z.keypos ≡ 1 }
    requires closed { (knows store.old).run ≡ None }
    ensures sizes { store.new.store.z ≡ store.old.store.z }
    ensures closed { (knows store.new).run ≡ None }
{
    for turn in 0..turns {
        if !reads_and_puts(store, turn) {
            return Some(turn);
        }
    }
    None
}

// The first row of a script that comes to something else on a new tree, and the first turn of three hundred that does then.
fn wrong_in_turns(alloc: Global) -> Option<(Option<usize>, Option<u32>)> {
    let Ok(mut tree) = tree_of(alloc, 384, 1, tuning_of(STAIRS), ZERO) else {
        return None;
    };
    let Ok(pass) = tree.enroll(alloc) else {
        return None;
    };
    let mut store = TreeStore::new(&tree, pass);
    let row = wrong_row(&mut store, &TEN);
    Some((row, wrong_turn(&mut store, 300)))
}

#[test]
fn the_rows_of_ranges_come_back(rt: HostRuntime) {
    assert_eq!(rt; wrong_in_turns(rt.alloc()), Some((None, None)));
}

// While another pass's run is open.
const HELD: [Row; 1] = [(PutOften(1), Many(191, Outcome::Full(KEEPS_381)))];

const KEEPS_381: FullCause = FullCause {
    kept: 381,
    lag: Some(1),
};

// Once it is closed.
const FREED: [Row; 1] = [(PutSparing(1), Answer::Number(1_000))];

// Whether a run was opened, and the first rows of scripts that come to something else beside it and behind it.
fn beside_a_run(alloc: Global) -> Option<(bool, Option<usize>, Option<usize>)> {
    let Ok(mut tree) = tree_of(alloc, 384, 2, tuning_of((120, 0, 1_000, -1)), ZERO) else {
        return None;
    };
    let Ok(one) = tree.enroll(alloc) else {
        return None;
    };
    let Ok(two) = tree.enroll(alloc) else {
        return None;
    };
    let mut reader = TreeStore::new(&tree, one);
    let mut writer = TreeStore::new(&tree, two);
    let opened = open_all(&mut reader, ENOUGH);
    let held = wrong_row(&mut writer, &HELD);
    reader.close_run();
    Some((opened, held, wrong_row(&mut writer, &FREED)))
}

#[test]
fn no_row_is_given_again_while_a_run_is_open(rt: HostRuntime) {
    assert_eq!(rt; beside_a_run(rt.alloc()), Some((true, None, None)));
}
