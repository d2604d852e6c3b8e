//! The same commands of one client on a table over a plain store, and on one over a tree, as the program has it.
ghost use Rattle.std.specs.Prelude.{◌≡◌};
ghost use Rattle.ca_ets.specs.Command.{IsContinuation, continuation_of};

use crate::draws::{Draws, even};
use crate::load::{OBJECTS, term_of};
use crate::trees::{tree_of, tuning_of};
use ca_ets::{Cmd, Cont, Reply};
use ca_model::{OrderedStore, Outcome, Plain};
use ca_replace::TreeStore;
use ca_table::{Played, Table};
use ca_term::{Term, int};
use std::alloc::Global;
use std::fmt::Write;
use std::io;
use std::rt::Clock;
use std::time::Instant;

// What a command may spend at its first try, as in the program, and how often it is tried again, each time with twice as much.
const FIRST_BUDGET: u32 = 64;

const TRIES: u32 = 25;

// How many rows the tree has, how many objects a leaf may have, and how many levels the tree may have: as the program has it where no option says it.
const ROWS: u32 = 65_535;

const LEAF: u8 = 64;

const LEVELS: u16 = 4_096;

// How often the commands are played on each table, in turns; the time in the middle counts.
const ROUNDS: usize = 5;

#[derive(Clone, Copy)]
enum Work {
    // Lookups of keys that are there.
    Lookups,
    // Inserts of objects whose keys are there.
    Inserts,
    // Half lookups, a quarter inserts and a quarter deletes.
    Mixes,
    // One is added to one of four counters, which stand beside the other objects.
    Counters,
    // Selections of a tenth of the objects, by a guard.
    Selects,
    // Batches of a hundred objects, up to about the middle of the table.
    Batches,
}

// Each kind of work, and how many commands of it are played at once.
const WORKS: [(&str, Work, u32); 6] = [
    ("lookups", Work::Lookups, 40_000),
    ("inserts", Work::Inserts, 40_000),
    ("mixes", Work::Mixes, 40_000),
    ("counters", Work::Counters, 40_000),
    ("selects", Work::Selects, 40),
    ("batches", Work::Batches, 2_000),
];

const COUNTERS: [&str; 4] = ["hits", "misses", "puts", "ends"];

// Chooses a tenth of the objects as they are at the start.
const TENTH: &str = "[{{'$1','$2','_'},[{'<','$2',1000}],['$_']}]";

const ALL: &str = "[{'_',[],['$_']}]";

// How many results a batch has, and how many commands read one selection.
const LIMIT: i64 = 100;

const BATCHES: u32 = 50;

fn key(alloc: Global, number: u32) -> Option<Term> {
    let mut text = String::new(alloc);
    write!(text, "<<\"user{number}\">>").ok()?;
    term_of(alloc, text.as_str())
}

fn insert(alloc: Global, key: u32, number: u32) -> Option<Cmd> {
    let mut text = String::new(alloc);
    write!(
        text,
        "{{<<\"user{key}\">>,{number},[{{ip,<<\"10.0.0.7\">>}}]}}"
    )
    .ok()?;
    Some(Cmd::Insert(term_of(alloc, text.as_str())?))
}

fn insert_counter(alloc: Global, name: &str) -> Option<Cmd> {
    let mut text = String::new(alloc);
    write!(text, "{{{name},0}}").ok()?;
    Some(Cmd::Insert(term_of(alloc, text.as_str())?))
}

// The commands that fill a table, in the order of the keys' numbers.
fn filling(alloc: Global) -> Option<Vec<Cmd>> {
    let mut commands = Vec::new(alloc);
    for name in COUNTERS {
        commands.push(insert_counter(alloc, name)?).ok()?;
    }
    for number in 0..OBJECTS {
        commands.push(insert(alloc, number, number)?).ok()?;
    }
    Some(commands)
}

// The command of this number, from 0 on.
fn command(alloc: Global, work: Work, drawn: u32, number: u32) -> Option<Cmd> {
    let drawn_key = even(drawn, OBJECTS);
    let cmd = match (work, drawn % 4) {
        (Work::Lookups, _) | (Work::Mixes, 0 | 1) => Cmd::Lookup(key(alloc, drawn_key)?),
        (Work::Inserts, _) | (Work::Mixes, 2) => insert(alloc, drawn_key, number)?,
        (Work::Mixes, _) => Cmd::Delete(key(alloc, drawn_key)?),
        (Work::Counters, counter) => {
            let name = COUNTERS.get(counter as usize)?;
            Cmd::UpdateCounter(term_of(alloc, name)?, int(1))
        }
        (Work::Selects, _) => Cmd::Select(term_of(alloc, TENTH)?),
        (Work::Batches, _) if number % BATCHES == 0 => {
            Cmd::Batch(term_of(alloc, ALL)?, int(LIMIT))
        }
        (Work::Batches, _) => Cmd::More,
    };
    Some(cmd)
}

// So many commands of a kind of work.
fn commands_of(alloc: Global, work: Work, count: u32) -> Option<Vec<Cmd>> {
    let mut commands = Vec::new(alloc);
    let mut draws = Draws::new(1);
    for number in 0..count {
        commands
            .push(command(alloc, work, draws.draw(), number)?)
            .ok()?;
    }
    Some(commands)
}

// How many commands were done without an error, how many results they gave, and how often one of them was tried again.
#[derive(Clone, Copy)]
struct Tally {
    done: usize,
    found: usize,
    again: usize,
}

const NOTHING: Tally = Tally {
    done: 0,
    found: 0,
    again: 0,
};

impl Tally {
    // Whether all of so many commands were done, with as many results as on another table.
    fn is_as(&self, other: &Tally, commands: usize) -> bool {
        self.done == commands && other.done == commands && self.found == other.found
    }

    // One command more, and what it came to.
    fn add(&mut self, played: Played) {
        let Some(found) = found_by(played) else {
            return;
        };
        self.done = self.done.wrapping_add(1);
        self.found = self.found.wrapping_add(found);
    }
}

// How many results a command gave; `None` where it wasn't done, or with an error.
fn found_by(played: Played) -> Option<usize> {
    let Ok(Outcome::Done(reply)) = played else {
        return None;
    };
    match reply {
        Reply::Truth(_) => Some(1),
        Reply::Value(_value) => Some(1),
        Reply::List(results) => Some(results.len()),
        Reply::Batch(results, _more) => Some(results.len()),
        Reply::Coded(results) => Some(results.len()),
        Reply::CodedBatch(results, _more) => Some(results.len()),
        Reply::End => Some(0),
        Reply::Error(_) => None,
    }
}

// Plays one command, which is tried again where it spent all that it may.
fn play_one<S: OrderedStore + Drop>(
    alloc: Global,
    table: &mut Table<S>,
    cmd: &Cmd,
    cont: &mut Cont,
    tally: &mut Tally,
)
    requires { IsContinuation (continuation_of cont.old) }
    ensures { IsContinuation (continuation_of cont.new) }
{
    let mut budget = FIRST_BUDGET;
    for _ in 0..TRIES {
        let played = table.apply(alloc, cmd, cont, budget);
        if !matches!(played, Ok(Outcome::Busy(_))) {
            tally.add(played);
            return;
        }
        tally.again = tally.again.wrapping_add(1);
        budget = budget.saturating_mul(2);
    }
}

// Plays the commands of one client.
fn play<S: OrderedStore + Drop>(alloc: Global, table: &mut Table<S>, commands: &[Cmd]) -> Tally {
    let mut tally = NOTHING;
    let mut cont = Cont::Never;
    for cmd in commands {
        play_one(alloc, table, cmd, &mut cont, &mut tally);
    }
    tally
}

// How many nanoseconds the commands take, and what they come to.
fn time_of<R: Clock + Alloc<A = Global>, S: OrderedStore + Drop>(
    rt: &R,
    table: &mut Table<S>,
    commands: &[Cmd],
) -> io::Result<(u128, Tally)> {
    let start = Instant::now(rt)?;
    let tally = play(rt.alloc(), table, commands);
    Ok((start.elapsed(rt)?.as_nanos(), tally))
}

// What the commands took on one table, by round, and how often one was tried again in all rounds.
#[derive(Clone, Copy)]
struct Rounds {
    nanos: [u128; ROUNDS],
    again: usize,
}

impl Rounds {
    // The time in the middle.
    fn middle(&mut self) -> u128 {
        self.nanos.sort_unstable();
        self.nanos[ROUNDS / 2]
    }
}

const NO_ROUNDS: Rounds = Rounds {
    nanos: [0; ROUNDS],
    again: 0,
};

// What both tables took for the same commands, and how many results these had in all rounds.
#[derive(Clone, Copy)]
struct Taken {
    plain: Rounds,
    tree: Rounds,
    found: usize,
}

// Plays the commands on both tables in turns; `None` where a command wasn't done, or had more results on one table than on the other.
fn take_turns<R: Clock + Alloc<A = Global>, S: OrderedStore + Drop, T: OrderedStore + Drop>(
    rt: &R,
    on_plain: &mut Table<S>,
    on_tree: &mut Table<T>,
    commands: &[Cmd],
) -> io::Result<Option<Taken>> {
    let (mut plain, mut tree) = (NO_ROUNDS, NO_ROUNDS);
    let mut found = 0_usize;
    for round in 0..ROUNDS {
        let (plain_nanos, plain_tally) = time_of(rt, on_plain, commands)?;
        let (tree_nanos, tree_tally) = time_of(rt, on_tree, commands)?;
        if !plain_tally.is_as(&tree_tally, commands.len()) {
            return Ok(None);
        }
        plain.nanos[round] = plain_nanos;
        tree.nanos[round] = tree_nanos;
        plain.again = plain.again.wrapping_add(plain_tally.again);
        tree.again = tree.again.wrapping_add(tree_tally.again);
        found = found.wrapping_add(plain_tally.found);
    }
    Ok(Some(Taken { plain, tree, found }))
}

// Prints the lines of a kind of work: that of the plain store, and that of the tree.
fn time_work<R: Clock + Print + Alloc<A = Global>>(
    rt: &R,
    (name, work, count): (&str, Work, u32),
) -> io::Result<()> {
    let alloc = rt.alloc();
    let (Some(first), Some(commands)) = (filling(alloc), commands_of(alloc, work, count)) else {
        return println!(rt; "no memory");
    };
    let Ok(mut tree) = tree_of(alloc, ROWS, 1, tuning_of(LEAF, LEVELS)) else {
        return println!(rt; "no memory");
    };
    let Ok(pass) = tree.enroll(alloc) else {
        return println!(rt; "no memory");
    };
    let mut on_plain = Table::new(Plain::new(alloc, 1), 1);
    let mut on_tree = Table::new(TreeStore::new(&tree, pass), 1);
    let filled = play(alloc, &mut on_plain, first.as_slice());
    if !filled.is_as(&play(alloc, &mut on_tree, first.as_slice()), first.len()) {
        return println!(rt; "{name} failed");
    }
    let Some(taken) = take_turns(rt, &mut on_plain, &mut on_tree, commands.as_slice())? else {
        return println!(rt; "{name} failed");
    };
    show(rt, name, taken, u128::from(count))
}

// Prints what so many commands took on both.
fn show<R: Print>(rt: &R, name: &str, taken: Taken, count: u128) -> io::Result<()> {
    let Taken {
        mut plain,
        mut tree,
        found,
    } = taken;
    let (plain_nanos, tree_nanos) = (plain.middle(), tree.middle());
    let ratio = tree_nanos.saturating_mul(100) / plain_nanos.max(1);
    let (whole, hundredths) = (ratio / 100, ratio % 100);
    let (plain_each, tree_each) = (plain_nanos / count.max(1), tree_nanos / count.max(1));
    println!(rt; "{name} plain {plain_each} 1.00 {found} {}", plain.again)?;
    println!(rt;
        "{name} tree {tree_each} {whole}.{hundredths:02} {found} {}",
        tree.again
    )
}

/// Prints two lines for each kind of work, that of the plain store and that of the tree: the work, the store, the nanoseconds of a command, the time as a
/// multiple of the plain store's, how many results all rounds had, and how often a command was tried again, as it spent all that it might.
pub fn time_stores<R: Clock + Print + Alloc<A = Global>>(rt: &R) -> io::Result<()> {
    for work in WORKS {
        time_work(rt, work)?;
    }
    Ok(())
}
