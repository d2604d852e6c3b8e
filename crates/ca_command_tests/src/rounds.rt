//! Two and four clients on threads, whose answers some merge of their files must explain. By hand, with 500 trees of each sort, 20,000 histories are
//! played in some minutes.
use crate::altered::alter;
use crate::clients::{Log, Part, ROUNDS, Script};
use crate::draws::Draws;
use crate::gate::Gate;
use crate::merges::{Merges, Side, explained};
use crate::states::table_copied;
use crate::trees::{few_of, tree_of};
use ca_ets::ListTable;
use ca_replace::TreeStore;
use std::alloc::{AllocError, Global};
use std::test::Fail;
use std::thread::{Threads, map_vec};
use std::time::Clock;

// How many trees: two clients have 20 rounds on each of them, and four have as many.
const TREES_OF_TWO: u32 = 20;

const TREES_OF_FOUR: u32 = 10;

// How many rows a tree has besides 64 for each client: few, so they are used again and again.
const ROWS: u32 = 320;

// On every third tree a line may lose few turns, and is refused more often. A walk to the left takes a turn for each base without objects, and there are
// at most 22 keys.
fn budget_of(tree: u32) -> u32 {
    if tree % 3 == 2 { 30 } else { 1_000 }
}

fn two(tree: u32, number: u32) -> Script {
    Script {
        tree,
        number,
        least: 6,
        most: 16,
        budget: budget_of(tree),
    }
}

fn four(tree: u32, number: u32) -> Script {
    Script {
        tree,
        number,
        least: 4,
        most: 8,
        budget: budget_of(tree),
    }
}

// What histories came to: how many there were, how many no merge explains, how many no order of whole files explains, how many rounds went wrong, and
// how many bases were split and joined; of how many one answer was altered then, and how many of these a merge explains still.
#[derive(Drop)]
struct Figures {
    histories: u32,
    unexplained: u32,
    mixed: u32,
    wrong: u32,
    splits: u64,
    joins: u64,
    altered: u32,
    missed: u32,
}

impl Figures {
    fn new() -> Figures {
        Figures {
            histories: 0,
            unexplained: 0,
            mixed: 0,
            wrong: 0,
            splits: 0,
            joins: 0,
            altered: 0,
            missed: 0,
        }
    }

    // Whether clients mixed their lines in more than a twentieth of the histories, and less than a quarter of the altered ones is explained. On one
    // processor a quarter of the histories is mixed, since in every third round a client lets others go on before each line.
    fn are_telling(&self) -> bool {
        self.mixed > self.histories / 20 && self.missed < self.altered / 4
    }

    // Checks the rounds of a tree, each of which begins with the table that the one before left.
    fn add(
        &mut self,
        alloc: Global,
        scripts: &[Script],
        mut logs: Vec<Log>,
    ) -> Result<(), AllocError> {
        for log in logs.as_slice() {
            self.wrong = self.wrong.saturating_add(log.wrong);
            self.splits = self.splits.saturating_add(log.splits);
            self.joins = self.joins.saturating_add(log.joins);
        }
        let mut table = ListTable::new(alloc, 1);
        for round in 0..ROUNDS {
            let mut sides = sides_of(alloc, scripts, logs.as_mut_slice(), round)?;
            let end = end_of(logs.as_slice(), round);
            let next = self.check(alloc, &table, sides.as_slice(), end)?;
            self.alter(alloc, &table, sides.as_mut_slice(), end)?;
            table = next;
        }
        Ok(())
    }

    // Counts a history that begins with this table, and gives the table that it ends with. Where nothing explains it, the later ones of the tree mostly
    // aren't explained either, since what they begin with isn't known.
    fn check(
        &mut self,
        alloc: Global,
        start: &ListTable,
        sides: &[Side],
        end: &[u8],
    ) -> Result<ListTable, AllocError> {
        self.histories = self.histories.saturating_add(1);
        if explained(alloc, start, sides, end, Merges::Whole)?.is_none() {
            self.mixed = self.mixed.saturating_add(1);
        }
        match explained(alloc, start, sides, end, Merges::All)? {
            Some(table) => Ok(table),
            None => {
                self.unexplained = self.unexplained.saturating_add(1);
                table_copied(alloc, start)
            }
        }
    }

    // Alters the history in one answer, and counts whether it is explained still.
    fn alter(
        &mut self,
        alloc: Global,
        start: &ListTable,
        sides: &mut [Side],
        end: &[u8],
    ) -> Result<(), AllocError> {
        if alter(alloc, sides, &mut Draws::new(self.histories))? {
            self.altered = self.altered.saturating_add(1);
            if explained(alloc, start, sides, end, Merges::All)?.is_some() {
                self.missed = self.missed.saturating_add(1);
            }
        }
        Ok(())
    }
}

// What each client played in a round, and was answered.
fn sides_of(
    alloc: Global,
    scripts: &[Script],
    logs: &mut [Log],
    round: u32,
) -> Result<Vec<Side>, AllocError> {
    let mut sides = Vec::new(alloc);
    for (script, log) in scripts.iter().zip(logs) {
        let mut answers = Vec::new(alloc);
        if let Some(noted) = log.noted.as_mut_slice().get_mut(round as usize) {
            answers.append(&mut noted.answers)?;
        }
        let lines = script.lines(alloc, round)?;
        sides.push(Side { lines, answers })?;
    }
    Ok(sides)
}

// The text of the table behind a round, as the first client read it.
fn end_of(logs: &[Log], round: u32) -> &[u8] {
    match logs.first() {
        Some(first) => match first.noted.as_slice().get(round as usize) {
            Some(noted) => noted.end.as_slice(),
            None => b"",
        },
        None => b"",
    }
}

// So many clients play their rounds, each on a thread of its own.
fn play_all<T: Threads + Clock + Sync>(
    rt: &T,
    alloc: Global,
    count: u32,
    parts: Vec<Part<'_>>,
) -> Result<Vec<Log>, AllocError> {
    let gate = Gate::new(count);
    map_vec(
        rt,
        parts,
        &|part: Part<'_>| part.carry_out(rt, alloc, &gate),
    )
}

// Two clients play on a new tree.
fn play_two<T: Threads + Clock + Sync>(
    rt: &T,
    alloc: Global,
    scripts: [Script; 2],
) -> Result<Vec<Log>, AllocError> {
    let Ok(mut tree) = tree_of(alloc, ROWS + 128, 2, few_of(scripts[0].tree)) else {
        return Err(AllocError);
    };
    let Ok(a) = tree.enroll(alloc) else {
        return Err(AllocError);
    };
    let Ok(b) = tree.enroll(alloc) else {
        return Err(AllocError);
    };
    let mut parts = Vec::new(alloc);
    parts.push(Part::new(TreeStore::new(&tree, a), scripts[0]))?;
    parts.push(Part::new(TreeStore::new(&tree, b), scripts[1]))?;
    play_all(rt, alloc, 2, parts)
}

// Four clients play on a new tree.
fn play_four<T: Threads + Clock + Sync>(
    rt: &T,
    alloc: Global,
    scripts: [Script; 4],
) -> Result<Vec<Log>, AllocError> {
    let Ok(mut tree) = tree_of(alloc, ROWS + 256, 4, few_of(scripts[0].tree)) else {
        return Err(AllocError);
    };
    let Ok(a) = tree.enroll(alloc) else {
        return Err(AllocError);
    };
    let Ok(b) = tree.enroll(alloc) else {
        return Err(AllocError);
    };
    let Ok(c) = tree.enroll(alloc) else {
        return Err(AllocError);
    };
    let Ok(d) = tree.enroll(alloc) else {
        return Err(AllocError);
    };
    let mut parts = Vec::new(alloc);
    parts.push(Part::new(TreeStore::new(&tree, a), scripts[0]))?;
    parts.push(Part::new(TreeStore::new(&tree, b), scripts[1]))?;
    parts.push(Part::new(TreeStore::new(&tree, c), scripts[2]))?;
    parts.push(Part::new(TreeStore::new(&tree, d), scripts[3]))?;
    play_all(rt, alloc, 4, parts)
}

#[test]
fn one_history_explains_two_clients(rt: HostRuntime) -> Result<(), Fail> {
    let mut figures = Figures::new();
    for tree in 0..TREES_OF_TWO {
        let scripts = [two(tree, 0), two(tree, 1)];
        let logs = play_two(&rt, rt.alloc(), scripts)?;
        figures.add(rt.alloc(), &scripts, logs)?;
    }
    assert_eq!(rt; (figures.unexplained, figures.wrong), (0, 0));
    assert!(rt; figures.splits > u64::from(TREES_OF_TWO));
    assert!(rt; figures.joins > u64::from(TREES_OF_TWO));
    assert!(rt; figures.are_telling());
    Ok(())
}

#[test]
fn one_history_explains_four_clients(rt: HostRuntime) -> Result<(), Fail> {
    let mut figures = Figures::new();
    for tree in 0..TREES_OF_FOUR {
        let scripts = [four(tree, 0), four(tree, 1), four(tree, 2), four(tree, 3)];
        let logs = play_four(&rt, rt.alloc(), scripts)?;
        figures.add(rt.alloc(), &scripts, logs)?;
    }
    assert_eq!(rt; (figures.unexplained, figures.wrong), (0, 0));
    assert!(rt; figures.splits > u64::from(TREES_OF_FOUR));
    assert!(rt; figures.joins > u64::from(TREES_OF_FOUR));
    assert!(rt; figures.are_telling());
    Ok(())
}
