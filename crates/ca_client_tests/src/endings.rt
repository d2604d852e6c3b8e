//! What is done to a client's store at the client's end.
use crate::files::{lines_of, played_open};
use ca_adapt::Tuning;
use ca_client::{Client, Gate, play_all};
use ca_cmd::Answer;
use ca_model::Plain;
use ca_replace::{Tree, TreeStore};
use ca_rows::{Reclaimed, Starts};
use ca_table::{Table, Upkeep};
use std::alloc::{AllocError, Global};
use std::sync::Wait;
use std::sync::atomic::{AtomicU32, Ordering};
use std::test::Fail;
use std::thread::yield_now;

// How often a client that is held looks whether it may go on.
const LOOKS: u32 = 10_000_000;

// Counts how often a store is tended, and asks for more the first two times.
#[derive(Drop)]
struct Counting {
    tended: AtomicU32,
}

impl Upkeep<Plain> for Counting {
    fn tend(&self, _store: &mut Plain) -> bool {
        self.tended.fetch_add(1, Ordering::SeqCst) < 2
    }
}

// Holds client 2 until a store was tended three times.
#[derive(Drop)]
struct Holding<'u> {
    upkeep: &'u Counting,
}

impl Gate for Holding<'_> {
    fn before(&self, client: u32, _line: u32) {
        if client != 2 {
            return;
        }
        for _ in 0..LOOKS {
            if self.upkeep.tended.load(Ordering::SeqCst) >= 3 {
                return;
            }
            yield_now();
        }
    }

    fn after(&self, _client: u32, _line: u32, _answer: &Answer) {}
}

#[test]
fn a_store_is_tended_at_its_clients_end_while_others_play(rt: HostRuntime) -> Result<(), Fail> {
    let alloc = rt.alloc();
    let lines = lines_of(alloc, "insert {1}")?;
    let mut clients = Vec::new(alloc);
    for number in 1..=2_u32 {
        clients.push(Client {
            number,
            table: Table::new(Plain::new(alloc, 1), 1),
            lines: &lines,
            answers: None,
        })?;
    }
    let upkeep = Counting {
        tended: AtomicU32::new(0),
    };
    let gate = Holding { upkeep: &upkeep };
    play_all(&rt, alloc, clients.as_mut_slice(), &gate, &upkeep);
    assert_eq!(rt; upkeep.tended.load(Ordering::SeqCst), 3);
    for client in clients.as_slice() {
        assert!(rt; client.answers.is_some());
    }
    Ok(())
}

// How many rows a store keeps behind some updates, and what comes of it that it gives them back.
fn kept_and_given<R: Wait>(rt: &R, alloc: Global) -> Result<(u32, Reclaimed), AllocError> {
    let tuning = Tuning {
        leaf: 2,
        levels: 8,
        lost: 250,
        calm: -1,
        range: -100,
        high: 1_000,
        low: -1_000,
    };
    let starts = Starts {
        tag: 0,
        epoch: 0,
        sequence: 0,
        attempt: 0,
    };
    let Ok(tree) = Tree::new(alloc, 384, 1, 1, tuning, starts) else {
        return Err(AllocError);
    };
    let mut tree = tree;
    let Ok(pass) = tree.enroll(alloc) else {
        return Err(AllocError);
    };
    let mut table = Table::new(TreeStore::new(&tree, pass), 1);
    played_open(
        rt,
        alloc,
        &mut table,
        "insert {1};insert {1,a};insert {1,b}",
    )?;
    let mut store = table.into_store();
    Ok((store.kept(), store.give_back()))
}

#[test]
fn a_store_that_is_alone_gives_back_all_rows_that_it_keeps(rt: HostRuntime) -> Result<(), Fail> {
    let (kept, given) = kept_and_given(&rt, rt.alloc())?;
    assert!(rt; kept > 0);
    assert_eq!(rt; (given.freed, given.kept), (kept, 0));
    assert_eq!(rt; (given.lag, given.lost), (None, false));
    Ok(())
}
