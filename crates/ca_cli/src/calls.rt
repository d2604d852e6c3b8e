//! Tests of whole calls, on files and an output in memory.
use crate::status::Status;
use crate::top::run;
use ca_client::{Gate, OpenGate, Rendezvous};
use ca_cmd::Answer;
use ca_outside::{Drawer, SureDrawer, SureTape, Tape};
use std::alloc::{AllocError, Global};
use std::sync::atomic::{AtomicU64, Ordering};
use std::test::Fail;

fn words_of(alloc: Global, words: &[&str]) -> Result<Vec<String>, AllocError> {
    let mut texts = Vec::new(alloc);
    for word in words {
        texts.push(String::from_str(alloc, word)?)?;
    }
    Ok(texts)
}

// Files of these names, each with these commands.
fn files_of(
    alloc: Global,
    names: &[&str],
    commands: &str,
) -> Result<Vec<(String, Vec<u8>)>, AllocError> {
    let mut files = Vec::new(alloc);
    for name in names {
        let file = (
            String::from_str(alloc, name)?,
            Vec::from_slice(alloc, commands.as_bytes())?,
        );
        files.push(file)?;
    }
    Ok(files)
}

// The tree is one base, which holds two objects and can't be split.
const SMALL: [&str; 7] = ["run", "--leaf", "2", "--levels", "0", "a", "b"];

const MEETING: &str = "insert_new {1}\nmember 1\ninsert {2}\ninsert {3}\n";

// What is printed where the clients' first commands are answered so.
fn output_of(alloc: Global, one: &str, two: &str) -> Result<String, AllocError> {
    let mut output = String::new(alloc);
    for (client, first) in [(1, one), (2, two)] {
        write!(
            output,
            "client {client}\n1 {first}\n2 true\n3 true\n4 refused deep\n"
        )?;
    }
    output.push_str("table\n{1}.\n{2}.\nend 2\n")?;
    Ok(output)
}

// Each client comes to its first line before the other one's is answered, and to its second line behind that. So one of them finds no object and the other
// one does, each sees what the other one left, and the gate is told what is printed. Clients that play in turn don't meet.
#[test]
fn two_clients_meet(rt: HostRuntime) -> Result<(), Fail> {
    let alloc = rt.alloc();
    let words = words_of(alloc, SMALL.as_slice())?;
    let mut shelf = SureDrawer::new(files_of(alloc, ["a", "b"].as_slice(), MEETING)?);
    let mut sink = SureTape::new(alloc, 1_000)?;
    let gate = Rendezvous::new();
    let mut ran = None;
    let status = run(
        &rt,
        alloc,
        words.as_slice(),
        &mut shelf,
        &mut sink,
        &gate,
        &mut ran,
    );
    assert_eq!(rt; status, Status::Done);
    assert!(rt; gate.met());
    let wanted = match gate.told(1, 1) {
        1 => output_of(alloc, "true", "false")?,
        _ => output_of(alloc, "false", "true")?,
    };
    assert_eq!(rt; sink.taken(), wanted.as_bytes());
    assert!(rt; matches!((gate.told(1, 1), gate.told(2, 1)), (1, 2) | (2, 1)));
    for client in [1, 2] {
        assert_eq!(rt; gate.told(client, 2), 1);
        assert_eq!(rt; gate.told(client, 3), 1);
        assert_eq!(rt; gate.told(client, 4), 3);
    }
    Ok(())
}

// Counts the lines of which it is told: before anybody plays, before each line, and behind each.
#[derive(Drop)]
struct Counting {
    in_all: AtomicU64,
    before: AtomicU64,
    behind: AtomicU64,
}

impl Gate for Counting {
    fn begin(&self, lines: u64) {
        self.in_all.fetch_add(lines, Ordering::SeqCst);
    }

    fn before(&self, _client: u32, _line: u32) {
        self.before.fetch_add(1, Ordering::SeqCst);
    }

    fn after(&self, _client: u32, _line: u32, _answer: &Answer) {
        self.behind.fetch_add(1, Ordering::SeqCst);
    }
}

#[test]
fn a_gate_is_told_of_each_line_once(rt: HostRuntime) -> Result<(), Fail> {
    let alloc = rt.alloc();
    let words = words_of(alloc, SMALL.as_slice())?;
    let mut shelf = SureDrawer::new(files_of(alloc, ["a", "b"].as_slice(), MEETING)?);
    let mut sink = SureTape::new(alloc, 1_000)?;
    let gate = Counting {
        in_all: AtomicU64::new(0),
        before: AtomicU64::new(0),
        behind: AtomicU64::new(0),
    };
    let mut ran = None;
    let status = run(
        &rt,
        alloc,
        words.as_slice(),
        &mut shelf,
        &mut sink,
        &gate,
        &mut ran,
    );
    assert_eq!(rt; status, Status::Done);
    assert_eq!(rt; gate.in_all.load(Ordering::SeqCst), 8);
    assert_eq!(rt; gate.before.load(Ordering::SeqCst), 8);
    assert_eq!(rt; gate.behind.load(Ordering::SeqCst), 8);
    Ok(())
}

// The output takes nine bytes and fails then.
#[test]
fn the_run_is_kept_where_the_output_fails(rt: HostRuntime) -> Result<(), Fail> {
    let alloc = rt.alloc();
    let words = words_of(alloc, ["run", "a"].as_slice())?;
    let mut shelf = SureDrawer::new(files_of(alloc, ["a"].as_slice(), "insert {1,a}\nlookup 1\n")?);
    let mut sink = Tape::new(alloc, 9, 9, Vec::new(alloc))?;
    let mut ran = None;
    let status = run(
        &rt,
        alloc,
        words.as_slice(),
        &mut shelf,
        &mut sink,
        &OpenGate,
        &mut ran,
    );
    assert_eq!(rt; status, Status::SinkFault);
    assert_eq!(rt; sink.taken(), b"client 1\n".as_slice());
    let kept = match &ran {
        Some(ran) => (ran.answers.len(), ran.table.len()),
        None => (0, 0),
    };
    assert_eq!(rt; kept, (1, 1));
    Ok(())
}

const FIRST: &str = "insert {1,a}\nlookup 1\n";

const FIRST_OUTPUT: &[u8] = b"client 1\n1 true\n2 [{1,a}]\ntable\n{1,a}.\nend 1\n";

// The output takes one byte with each write, and so many writes are done.
#[test]
fn what_was_taken_is_the_beginning_whichever_write_fails(rt: HostRuntime) -> Result<(), Fail> {
    let alloc = rt.alloc();
    let words = words_of(alloc, ["run", "a"].as_slice())?;
    assert_eq!(rt; FIRST_OUTPUT.len(), 45);
    for taken in 0..=45_usize {
        let mut shelf = SureDrawer::new(files_of(alloc, ["a"].as_slice(), FIRST)?);
        let mut fails = Vec::new(alloc);
        fails.push(taken as u64 + 1)?;
        let mut sink = Tape::new(alloc, 100, 1, fails)?;
        let mut ran = None;
        let status = run(
            &rt,
            alloc,
            words.as_slice(),
            &mut shelf,
            &mut sink,
            &OpenGate,
            &mut ran,
        );
        let wanted = match taken {
            45 => Status::Done,
            _ => Status::SinkFault,
        };
        assert_eq!(rt; status, wanted, "behind {taken}");
        assert_eq!(rt;
            Some(sink.taken()),
            FIRST_OUTPUT.get(..taken),
            "behind {taken}"
        );
        assert!(rt; ran.is_some());
    }
    Ok(())
}

#[test]
fn the_first_file_that_cannot_be_read_is_named(rt: HostRuntime) -> Result<(), Fail> {
    let alloc = rt.alloc();
    let words = words_of(alloc, ["run", "a", "b", "c"].as_slice())?;
    for file in 1..=3_u32 {
        let files = files_of(alloc, ["a", "b", "c"].as_slice(), FIRST)?;
        let mut fails = Vec::new(alloc);
        fails.push(u64::from(file))?;
        let mut shelf = Drawer::new(files, fails);
        let mut sink = SureTape::new(alloc, 100)?;
        let mut ran = None;
        let status = run(
            &rt,
            alloc,
            words.as_slice(),
            &mut shelf,
            &mut sink,
            &OpenGate,
            &mut ran,
        );
        assert_eq!(rt; status, Status::ShelfFault { file });
        let mut wanted = String::new(alloc);
        write!(wanted, "cannot read file {file}\n")?;
        assert_eq!(rt; sink.taken(), wanted.as_bytes());
        assert!(rt; ran.is_none());
    }
    Ok(())
}
