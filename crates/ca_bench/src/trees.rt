//! Calls of clients on threads, each with a pass of its own on one tree, which grows to many leaves.
ghost use Rattle.std.specs.Prelude.{◌≡◌, IfOk};

use crate::coded::coded_load;
use crate::draws::shuffled;
use crate::load::{USUAL, terms_of};
use crate::player::{Load, Mix, Player, numbers_below};
use ca_adapt::Tuning;
use ca_replace::{Tree, TreeFault, TreeStore};
use ca_rows::Starts;
use std::alloc::{AllocError, Global};
use std::io;
use std::rt::Clock;
use std::thread::{Threads, for_each_mut};
use std::time::Instant;

// How many rows these trees have, where that is enough.
const ROWS: u32 = 65_535;

// How often a measure is taken, each time on a new tree; the times are added.
const RUNS: u32 = 3;

// How many calls all clients together play in a run.
const CALLS: u32 = 400_000;

// Behind how many calls of all clients together a hot spot moves, and how many spots a run has.
const SPOT_CALLS: u32 = 100_000;

const SPOTS: u32 = 20;

// How many calls they play of a mix: fewer, where ranges are longer.
fn calls_of(mix: Mix) -> u32 {
    match mix {
        Mix::Ranges(most) => 20_000_000 / most.saturating_add(40),
        Mix::Moving(_) => SPOTS * SPOT_CALLS,
        _ => CALLS,
    }
}

// The mix where so many clients play it.
fn shared(mix: Mix, threads: u32) -> Mix {
    match mix {
        Mix::Moving(calls) => Mix::Moving(calls / threads.max(1)),
        Mix::Waves(_) => Mix::Waves(threads),
        mix => mix,
    }
}

// How many objects there are where the number of threads grows.
const OBJECTS: u32 = 10_000;

const THREADS: [u32; 3] = [1, 2, 4];

const MIXES: [(&str, Mix); 9] = [
    ("lookups", Mix::Lookups),
    ("mixed", Mix::Mixed),
    ("skewed-lookups", Mix::SkewedLookups),
    ("skewed-mixed", Mix::SkewedMixed),
    ("counter", Mix::Counters(1)),
    ("counters", Mix::Counters(4)),
    ("ranges-10", Mix::Ranges(10)),
    ("ranges-100", Mix::Ranges(100)),
    ("ranges-1000", Mix::Ranges(1_000)),
];

// The mixes by which a tree is to grow and to shrink.
const SHAPING: [(&str, Mix); 2] = [
    ("moving", Mix::Moving(SPOT_CALLS)),
    ("waves", Mix::Waves(1)),
];

// The trees that all mixes are played on, and by which numbers they adapt. The first one plays on other numbers of objects, too.
const TREES: [(&str, Tuning); 2] = [("tree", TUNING), ("tree-32", Tuning { leaf: 32, ..TUNING })];

// Trees whose bases are joined behind few updates without contention, and whose bases never are: they play the mixes by which a tree grows and shrinks.
const SHAPED: [(&str, Tuning); 2] = [
    (
        "tree-joins",
        Tuning {
            low: -100,
            ..TUNING
        },
    ),
    (
        "tree-unjoined",
        Tuning {
            calm: 0,
            range: 0,
            ..TUNING
        },
    ),
];

// How many objects there are where one client alone plays, beside `OBJECTS`.
const SIZES: [u32; 5] = [100, 400, 1_000, 4_000, 40_000];

const SIZE_MIXES: [(&str, Mix); 2] = [("lookups", Mix::Lookups), ("mixed", Mix::Mixed)];

// How many objects there are in large trees, and how many threads play on these.
const LARGE: [u32; 2] = [100_000, 1_000_000];

const LARGE_THREADS: [u32; 2] = [1, 4];

// The mixes of objects whose keys begin alike.
const USER_MIXES: [(&str, Mix); 2] = [("user-lookups", Mix::Lookups), ("user-mixed", Mix::Mixed)];

const TUNING: Tuning = Tuning {
    leaf: 60,
    levels: 64,
    lost: 250,
    calm: -1,
    range: -100,
    high: 1_000,
    low: -1_000,
};

const STARTS: Starts = Starts {
    tag: 0,
    epoch: 0,
    sequence: 0,
    attempt: 0,
};

/// A tree on so many rows for so many passes, by this tuning.
pub fn tree_of(alloc: Global, rows: u32, passes: u32, tuning: Tuning) -> Result<Tree, TreeFault>
    ensures { IfOk result (λ tree. tree.space.sizes.keypos ≡ 1) }
{
    Tree::new(alloc, rows, passes, 1, tuning, STARTS)
}

/// A tuning with this many objects in a leaf, and levels.
pub fn tuning_of(leaf: u8, levels: u16) -> Tuning {
    Tuning {
        leaf,
        levels,
        ..TUNING
    }
}

// How many rows a tree has that begins with so many objects.
fn rows_for(objects: usize) -> u32 {
    let objects = objects.min(10_000_000) as u32;
    ROWS.max(objects + objects / 2)
}

// The clients play so many calls each, on a thread each. It answers the nanoseconds from the first start to the last end.
fn play_all<R: Clock + Threads + Sync>(
    rt: &R,
    players: &mut [Player<'_>],
    mix: Mix,
    calls: u32,
) -> io::Result<u128> {
    let threads = players.len().max(1);
    let start = Instant::now(rt)?;
    for_each_mut(
        rt,
        players,
        threads,
        &|_number, player: &mut Player<'_>| { player.play(mix, calls) },
    );
    Ok(start.elapsed(rt)?.as_nanos())
}

// How many calls of all clients were answered as they must be.
fn good_calls(players: &[Player<'_>]) -> u32 {
    let mut good = 0_u32;
    for player in players {
        good = good.wrapping_add(player.good());
    }
    good
}

/// What a measure took, how often its calls were refused, for want of rows or for another reason, how many splits and joins there were, and how many
/// more of the former since the tree was new: one less than its bases.
#[derive(Clone, Copy)]
pub struct Taken {
    pub nanos: u128,
    pub full: u32,
    pub busy: u32,
    pub splits: u64,
    pub joins: u64,
    pub routes: u64,
}

impl Taken {
    // Both measures together; the tree is that of the other one.
    fn and(self, other: Taken) -> Taken {
        Taken {
            nanos: self.nanos.saturating_add(other.nanos),
            full: self.full.saturating_add(other.full),
            busy: self.busy.saturating_add(other.busy),
            splits: self.splits.saturating_add(other.splits),
            joins: self.joins.saturating_add(other.joins),
            routes: other.routes,
        }
    }

    // What this client did too.
    fn with(self, player: &Player<'_>) -> Taken {
        let (splits, joins) = player.adapted();
        Taken {
            nanos: self.nanos,
            full: self.full.saturating_add(player.full()),
            busy: self.busy.saturating_add(player.busy()),
            splits: self.splits.saturating_add(splits),
            joins: self.joins.saturating_add(joins),
            routes: 0,
        }
    }

    // The same without the splits and joins before it.
    fn behind(self, (splits, joins): (u64, u64)) -> Taken {
        Taken {
            splits: self.splits.saturating_sub(splits),
            joins: self.joins.saturating_sub(joins),
            ..self
        }
    }
}

const NOTHING: Taken = Taken {
    nanos: 0,
    full: 0,
    busy: 0,
    splits: 0,
    joins: 0,
    routes: 0,
};

// What a run of these clients took.
fn taken_by(nanos: u128, players: &[Player<'_>]) -> Taken {
    let mut taken = Taken { nanos, ..NOTHING };
    for player in players {
        taken = taken.with(player);
    }
    taken.routes = taken.splits.saturating_sub(taken.joins);
    taken
}

// What the counters must add up to behind so many calls.
fn wanted_total(mix: Mix, calls: u32) -> u32 {
    match mix {
        Mix::Counters(_) => calls,
        _ => 0,
    }
}

// One run; `None` where a call wasn't answered as it must be.
fn run<R: Clock + Threads + Sync + Alloc<A = Global>>(
    rt: &R,
    tuning: Tuning,
    (load, first): (Load<'_>, &[u32]),
    (mix, calls): (Mix, u32),
    threads: usize,
) -> io::Result<Option<Taken>> {
    let alloc = rt.alloc();
    let Ok(mut tree) = tree_of(alloc, rows_for(first.len()), 4, tuning) else {
        return Ok(None);
    };
    let (Ok(a), Ok(b), Ok(c), Ok(d)) = (
        tree.enroll(alloc),
        tree.enroll(alloc),
        tree.enroll(alloc),
        tree.enroll(alloc),
    ) else {
        return Ok(None);
    };
    let mut players = [
        Player::new(TreeStore::new(&tree, a), load, 1),
        Player::new(TreeStore::new(&tree, b), load, 2),
        Player::new(TreeStore::new(&tree, c), load, 3),
        Player::new(TreeStore::new(&tree, d), load, 4),
    ];
    players[0].fill(first);
    let before = players[0].adapted();
    let threads = threads.min(4);
    let nanos = play_all(rt, &mut players[..threads], mix, calls)?;
    let played = calls.wrapping_mul(threads as u32);
    let is_good = good_calls(&players) as usize == played as usize + first.len()
        && players[0].total() == wanted_total(mix, played);
    Ok(if is_good {
        Some(taken_by(nanos, &players).behind(before))
    } else {
        None
    })
}

/// How many thousand calls a second so many clients carry out together, of so many calls of all, and what these took; `None` where a call wasn't
/// answered as it must be. A tree is filled with objects of the first keys.
pub fn rate_of<R: Clock + Threads + Sync + Alloc<A = Global>>(
    rt: &R,
    tuning: Tuning,
    (load, first): (Load<'_>, &[u32]),
    (mix, calls): (Mix, u32),
    threads: u32,
) -> io::Result<Option<(u128, Taken)>> {
    let each = calls / threads.max(1);
    let mut taken = NOTHING;
    for _ in 0..RUNS {
        let Some(more) = run(rt, tuning, (load, first), (mix, each), threads as usize)? else {
            return Ok(None);
        };
        taken = taken.and(more);
    }
    let all = u128::from(each) * u128::from(threads) * u128::from(RUNS);
    Ok(Some((all * 1_000_000 / taken.nanos.max(1), taken)))
}

// Twice the numbers below the count, in an order without pattern.
fn even_numbers(alloc: Global, count: u32) -> Result<Vec<u32>, AllocError> {
    let mut numbers = shuffled(alloc, count)?;
    for number in numbers.as_mut_slice() {
        *number = number.wrapping_mul(2);
    }
    Ok(numbers)
}

// Prints a line for a mix of calls on trees that are filled with objects of the first keys.
fn time_line<R: Clock + Print + Threads + Sync + Alloc<A = Global>>(
    rt: &R,
    (who, tuning): (&str, Tuning),
    (load, first): (Load<'_>, &[u32]),
    (name, mix): (&str, Mix),
    threads: u32,
) -> io::Result<()> {
    let objects = first.len();
    let played = (shared(mix, threads), calls_of(mix));
    let Some((rate, taken)) = rate_of(rt, tuning, (load, first), played, threads)? else {
        return println!(rt; "{who},{name},{objects},{threads},failed,,,,,");
    };
    let Taken {
        full,
        busy,
        splits,
        joins,
        routes,
        ..
    } = taken;
    println!(rt; "{who},{name},{objects},{threads},{rate},{full},{busy},{splits},{joins},{routes}")
}

// Prints a line for a mix of calls on objects of numbers. The even keys are there at the start.
fn time_mix<R: Clock + Print + Threads + Sync + Alloc<A = Global>>(
    rt: &R,
    tree: (&str, Tuning),
    objects: u32,
    mix: (&str, Mix),
    threads: u32,
) -> io::Result<()> {
    let Ok(numbers) = even_numbers(rt.alloc(), objects) else {
        return println!(rt; "no memory");
    };
    let load = numbers_below(objects.wrapping_mul(2));
    time_line(rt, tree, (load, numbers.as_slice()), mix, threads)
}

// Prints a line for a mix of calls on objects of the usual kind, whose keys are `<<"userN">>`. Those with even numbers are there at the start.
fn time_user_mix<R: Clock + Print + Threads + Sync + Alloc<A = Global>>(
    rt: &R,
    tree: (&str, Tuning),
    objects: u32,
    mix: (&str, Mix),
    threads: u32,
) -> io::Result<()> {
    let alloc = rt.alloc();
    let keys = objects.wrapping_mul(2);
    let Some(terms) = terms_of(alloc, USUAL, keys) else {
        return println!(rt; "no memory");
    };
    let (Ok(coded), Ok(numbers)) = (
        coded_load(alloc, terms.as_slice()),
        even_numbers(alloc, objects),
    ) else {
        return println!(rt; "no memory");
    };
    let load = Load {
        keys,
        present: 0,
        coded: coded.as_slice(),
    };
    time_line(rt, tree, (load, numbers.as_slice()), mix, threads)
}

// Prints the lines of objects of the usual kind.
fn time_users<R: Clock + Print + Threads + Sync + Alloc<A = Global>>(rt: &R) -> io::Result<()> {
    for tree in TREES {
        for mix in USER_MIXES {
            for threads in THREADS {
                time_user_mix(rt, tree, OBJECTS, mix, threads)?;
            }
        }
    }
    Ok(())
}

// Prints the lines of other numbers of objects than the usual one.
fn time_sizes<R: Clock + Print + Threads + Sync + Alloc<A = Global>>(rt: &R) -> io::Result<()> {
    for mix in SIZE_MIXES {
        for objects in SIZES {
            time_mix(rt, TREES[0], objects, mix, 1)?;
        }
        for objects in LARGE {
            for threads in LARGE_THREADS {
                time_mix(rt, TREES[0], objects, mix, threads)?;
            }
        }
    }
    Ok(())
}

/// Prints a line of comma-separated values for each tree, mix of calls, number of objects and number of threads: which tree, the mix, how many objects
/// there are at the start, how many threads, how many thousand calls a second they carry out together, how often a call was refused for want of
/// rows, and how often for another reason, how many splits and joins there were in three runs, and how many routes the tree has behind the last one.
pub fn time_trees<R: Clock + Print + Threads + Sync + Alloc<A = Global>>(rt: &R) -> io::Result<()> {
    time_all(rt, &TREES, &MIXES)?;
    time_all(rt, &TREES[..1], &SHAPING)?;
    time_all(rt, &SHAPED, &SHAPING)?;
    time_users(rt)?;
    time_sizes(rt)
}

// Prints a line for each of these trees and mixes, and each number of threads.
fn time_all<R: Clock + Print + Threads + Sync + Alloc<A = Global>>(
    rt: &R,
    trees: &[(&str, Tuning)],
    mixes: &[(&str, Mix)],
) -> io::Result<()> {
    for tree in trees {
        for mix in mixes {
            for threads in THREADS {
                time_mix(rt, *tree, OBJECTS, *mix, threads)?;
            }
        }
    }
    Ok(())
}

// The beginning of a line: a tree, a mix, and how many objects and threads there are.
#[derive(Clone, Copy)]
struct Wanted<'w> {
    tree: &'w str,
    mix: &'w str,
    objects: u32,
    threads: u32,
}

/// Prints the line that begins with these words, as `tree,mixed,10000,4`: the tree, the mix, the number of objects, and that of threads. It prints nothing
/// where there is no such line.
pub fn time_named<R: Clock + Print + Threads + Sync + Alloc<A = Global>>(
    rt: &R,
    line: &str,
) -> io::Result<()> {
    let Some(wanted) = wanted_by(line) else {
        return Ok(());
    };
    time_wanted(rt, &TREES, &MIXES, wanted)?;
    time_wanted(rt, &TREES, &SHAPING, wanted)?;
    time_wanted(rt, &SHAPED, &MIXES, wanted)?;
    time_wanted(rt, &SHAPED, &SHAPING, wanted)?;
    time_wanted_users(rt, wanted)
}

// Prints the line that is wanted, where it is one of objects of the usual kind.
fn time_wanted_users<R: Clock + Print + Threads + Sync + Alloc<A = Global>>(
    rt: &R,
    wanted: Wanted<'_>,
) -> io::Result<()> {
    for tree in TREES {
        for mix in USER_MIXES {
            if tree.0 == wanted.tree && mix.0 == wanted.mix {
                time_user_mix(rt, tree, wanted.objects, mix, wanted.threads)?;
            }
        }
    }
    Ok(())
}

// Prints the line that is wanted, where the tree and the mix are among these.
fn time_wanted<R: Clock + Print + Threads + Sync + Alloc<A = Global>>(
    rt: &R,
    trees: &[(&str, Tuning)],
    mixes: &[(&str, Mix)],
    wanted: Wanted<'_>,
) -> io::Result<()> {
    let Wanted {
        tree,
        mix,
        objects,
        threads,
    } = wanted;
    for named in trees {
        for calls in mixes {
            if named.0 == tree && calls.0 == mix {
                time_mix(rt, *named, objects, *calls, threads)?;
            }
        }
    }
    Ok(())
}

// What the words of a line say, where there are four, of which the last two are numbers.
fn wanted_by(line: &str) -> Option<Wanted<'_>> {
    let mut words = line.split(',');
    let tree = words.next()?;
    let mix = words.next()?;
    let objects = words.next()?.parse().ok()?;
    let threads = words.next()?.parse().ok()?;
    Some(Wanted {
        tree,
        mix,
        objects,
        threads,
    })
}
