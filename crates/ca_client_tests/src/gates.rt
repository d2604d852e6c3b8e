//! What gates are told.
use crate::files::{lines_of, played};
use ca_client::{Gate, OpenGate, Rendezvous, play};
use ca_cmd::Answer;
use ca_model::Plain;
use ca_table::Table;
use std::alloc::Global;
use std::sync::atomic::{AtomicU64, Ordering};
use std::test::Fail;

// Notes all that it is told, as decimal digits: 1 before a line and 2 behind it, the client, the line, and 1 where the answer is a reply.
#[derive(Drop)]
struct Noting {
    told: AtomicU64,
}

impl Noting {
    fn note(&self, digits: u64) {
        let before = self.told.load(Ordering::SeqCst);
        let told = before.wrapping_mul(10_000).wrapping_add(digits);
        self.told.store(told, Ordering::SeqCst);
    }
}

impl Gate for Noting {
    fn before(&self, client: u32, line: u32) {
        let place = u64::from(client.wrapping_mul(100).wrapping_add(line.wrapping_mul(10)));
        self.note(place.wrapping_add(1_000));
    }

    fn after(&self, client: u32, line: u32, answer: &Answer) {
        let place = u64::from(client.wrapping_mul(100).wrapping_add(line.wrapping_mul(10)));
        let replied = match answer {
            Answer::Replied(_) => 1,
            _ => 0,
        };
        self.note(place.wrapping_add(2_000).wrapping_add(replied));
    }
}

fn table_of(alloc: Global) -> Table<Plain> {
    Table::new(Plain::new(alloc, 1), 1)
}

#[test]
fn a_gate_is_told_before_a_line_and_behind_it(rt: HostRuntime) -> Result<(), Fail> {
    let gate = Noting {
        told: AtomicU64::new(0),
    };
    // The second line has no command.
    let commands = "insert {1};% note;lookup 1";
    let answers = played(&rt, rt.alloc(), &mut table_of(rt.alloc()), commands, &gate)?;
    assert_eq!(rt; answers.as_slice(), b"true;[{1}];".as_slice());
    assert_eq!(rt; gate.told.load(Ordering::SeqCst), 1110_2111_1130_2131);
    Ok(())
}

#[test]
fn a_rendezvous_tells_what_its_lines_were_answered(rt: HostRuntime) -> Result<(), Fail> {
    let gate = Rendezvous::new();
    assert!(rt; !gate.met());
    // From the third line on nobody waits.
    let commands = "% one;% two;insert_new {1};insert_new {1};lookup 1";
    let answers = played(&rt, rt.alloc(), &mut table_of(rt.alloc()), commands, &gate)?;
    assert_eq!(rt; answers.as_slice(), b"true;false;[{1}];".as_slice());
    assert_eq!(rt; gate.told(1, 2), 0);
    assert_eq!(rt; gate.told(1, 3), 1);
    assert_eq!(rt; gate.told(1, 4), 2);
    assert_eq!(rt; gate.told(2, 3), 0);
    assert_eq!(rt; gate.told(3, 3), 0);
    assert!(rt; !gate.met());
    gate.after(2, 1, &Answer::Deep);
    gate.after(2, 4, &Answer::Worn);
    gate.after(2, 5, &Answer::Worn);
    assert_eq!(rt; gate.told(2, 1), 3);
    assert_eq!(rt; gate.told(2, 4), 4);
    assert_eq!(rt; gate.told(2, 5), 0);
    Ok(())
}

#[test]
fn an_open_gate_lets_all_pass(rt: HostRuntime) -> Result<(), Fail> {
    let lines = lines_of(rt.alloc(), "first")?;
    let mut table = table_of(rt.alloc());
    let answers = play(&rt, rt.alloc(), 7, &mut table, &lines, &OpenGate)?;
    assert_eq!(rt; answers.text.as_slice(), b"1 '$end_of_table'\n".as_slice());
    assert_eq!(rt; answers.refused, 0);
    Ok(())
}
