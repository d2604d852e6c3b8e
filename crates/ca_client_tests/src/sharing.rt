//! Clients that share a tree: their answers and the final table, where both are known.
ghost use Rattle.std.specs.Prelude.{◌≡◌, IfOk};

use crate::files::{lines_of, text_of};
use ca_adapt::Tuning;
use ca_client::{Gate, OpenGate, Ran, Rendezvous, run_clients};
use ca_cmd::{Answer, show_end, show_object, show_start};
use ca_replace::Tree;
use ca_rows::Starts;
use ca_text::put;
use std::alloc::{AllocError, Global};
use std::sync::Wait;
use std::test::Fail;
use std::thread::Threads;

const ZERO: Starts = Starts {
    tag: 0,
    epoch: 0,
    sequence: 0,
    attempt: 0,
};

// The keys from 1 to 11, one after the other, and then all objects.
const ELEVEN: &str =
    "insert {1};insert {2};insert {3};insert {4};insert {5};insert {6};insert {7};insert {8};insert {9};insert {10};insert {11};select *";

const ELEVEN_ANSWERS: &[u8] =
    b"true;true;true;true;true;true;true;true;true;true;refused deep;[{1},{2},{3},{4},{5},{6},{7},{8},{9},{10}];";

const MEETING: &str = "insert_new {1};member 1;insert {2};insert {3}";

// What clients that play the commands of these texts come to, on a tree whose bases have two objects at most, and which has so many levels.
fn ran_of<R: Threads + Wait + Sync, G: Gate + Sync>(
    rt: &R,
    alloc: Global,
    levels: u16,
    texts: &[&str],
    gate: &G,
) -> Result<Ran, AllocError> {
    let tuning = Tuning {
        leaf: 2,
        levels,
        lost: 250,
        calm: -1,
        range: -100,
        high: 1_000,
        low: -1_000,
    };
    let mut files = Vec::new(alloc);
    for text in texts {
        files.push(lines_of(alloc, text)?)?;
    }
    if files.len() > 64 {
        return Err(AllocError);
    }
    let Ok(tree) = Tree::new(alloc, 4_096, files.len() as u32, 1, tuning, ZERO) else {
        return Err(AllocError);
    };
    run_clients(rt, alloc, tree, files.as_slice(), 1, gate)
}

// The text of the final table.
fn table_of(alloc: Global, ran: &Ran) -> Result<Vec<u8>, AllocError> {
    let mut text = Vec::new(alloc);
    show_start(&mut text)?;
    for at in 0..ran.table.len() {
        let object = ran.table.object(alloc, at)?;
        show_object(&object, &mut text)?;
    }
    show_end(ran.table.len() as u64, &mut text)?;
    Ok(text)
}

#[test]
fn one_client_splits_bases_until_no_level_is_left(rt: HostRuntime) -> Result<(), Fail> {
    let alloc = rt.alloc();
    let ran = ran_of(&rt, alloc, 8, &[ELEVEN], &OpenGate)?;
    assert_eq!(rt; ran.answers.len(), 1);
    for answers in ran.answers.as_slice() {
        let text = text_of(alloc, answers)?;
        assert_eq!(rt; text.as_slice(), ELEVEN_ANSWERS);
        assert_eq!(rt; answers.refused, 1);
    }
    assert_eq!(rt; (ran.splits, ran.joins), (8, 0));
    assert_eq!(rt; ran.table.len(), 10);
    Ok(())
}

#[test]
fn two_clients_that_meet_share_one_table(rt: HostRuntime) -> Result<(), Fail> {
    let alloc = rt.alloc();
    let gate = Rendezvous::new();
    let ran = ran_of(&rt, alloc, 0, &[MEETING, MEETING], &gate)?;
    assert!(rt; gate.met());
    assert_eq!(rt; ran.answers.len(), 2);
    let mut client = 0_u32;
    let mut first = 0_u32;
    for answers in ran.answers.as_slice() {
        client = client.saturating_add(1);
        let text = text_of(alloc, answers)?;
        let was_first = gate.told(client, 1) == 1;
        let wanted = match was_first {
            true => b"true;true;true;refused deep;".as_slice(),
            false => b"false;true;true;refused deep;".as_slice(),
        };
        assert_eq!(rt; text.as_slice(), wanted);
        assert_eq!(rt; gate.told(client, 2), 1);
        assert_eq!(rt; gate.told(client, 3), 1);
        assert_eq!(rt; gate.told(client, 4), 3);
        first = first.saturating_add(u32::from(was_first));
    }
    assert_eq!(rt; first, 1);
    let table = table_of(alloc, &ran)?;
    assert_eq!(rt; table.as_slice(), b"table\n{1}.\n{2}.\nend 2\n".as_slice());
    Ok(())
}

// A rendezvous to which each client comes twice with the line of this number.
#[derive(Drop)]
struct Twice {
    gate: Rendezvous,
    line: u32,
}

impl Gate for Twice {
    fn before(&self, client: u32, line: u32) {
        self.gate.before(client, line);
        if line == self.line {
            self.gate.before(client, line);
        }
    }

    fn after(&self, client: u32, line: u32, answer: &Answer) {
        self.gate.after(client, line, answer);
    }
}

#[test]
fn who_comes_to_a_gate_twice_does_not_meet(rt: HostRuntime) -> Result<(), Fail> {
    for line in [1, 2, 3] {
        let gate = Twice {
            gate: Rendezvous::new(),
            line,
        };
        let ran = ran_of(&rt, rt.alloc(), 0, &[MEETING, MEETING], &gate)?;
        assert_eq!(rt; ran.answers.len(), 2);
        assert_eq!(rt; gate.gate.met(), line == 3);
    }
    Ok(())
}

#[test]
fn three_clients_have_each_its_own_answers(rt: HostRuntime) -> Result<(), Fail> {
    let alloc = rt.alloc();
    let texts = ["insert {1};member 1", "", "lookup 2;insert {2,b};lookup 2"];
    let ran = ran_of(&rt, alloc, 8, &texts, &OpenGate)?;
    let mut all = Vec::new(alloc);
    for answers in ran.answers.as_slice() {
        put(text_of(alloc, answers)?.as_slice(), &mut all)?;
        all.push(b'|')?;
    }
    assert_eq!(rt; all.as_slice(), b"true;true;||[];true;[{2,b}];|".as_slice());
    let table = table_of(alloc, &ran)?;
    assert_eq!(rt;
        table.as_slice(),
        b"table\n{1}.\n{2,b}.\nend 2\n".as_slice()
    );
    assert_eq!(rt; (ran.splits, ran.joins), (0, 0));
    Ok(())
}

#[test]
fn a_client_without_lines_leaves_an_empty_table(rt: HostRuntime) -> Result<(), Fail> {
    let ran = ran_of(&rt, rt.alloc(), 8, &[""], &OpenGate)?;
    let table = table_of(rt.alloc(), &ran)?;
    assert_eq!(rt; table.as_slice(), b"table\nend 0\n".as_slice());
    Ok(())
}
