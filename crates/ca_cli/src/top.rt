//! The top call.
ghost use Rattle.std.specs.Prelude.{◌≡◌, ◌≤◌, ◌⊎◌, ℕ, List, [], length, map, None, IsSome, IfOk, IfErr, IsErrOf};
ghost use Rattle.std.specs.String.{string_bytes};
ghost use Rattle.ca_outside.specs.Known.{HasRisen};
ghost use Rattle.ca_term.specs.Tree.{Tree};
ghost use Rattle.ca_ets.specs.Command.{Answer};
ghost use Rattle.ca_cmd.specs.Lines.{numbered};
ghost use Rattle.ca_words.specs.Grammar.{IsBounded, IsWithin};
ghost use Rattle.ca_words.specs.Words.{request_in};
ghost use Rattle.ca_cli.specs.Call.{change_of, call_of};
ghost use Rattle.ca_cli.specs.Causes.{IsCause};
ghost use Rattle.ca_cli.specs.Complete.{IsWellFormed, IsDoneOrWant};
ghost use Rattle.ca_cli.specs.Headline.{Prints};
ghost use Rattle.ca_cli.specs.Kept.{IsKept};
ghost use Rattle.ca_cli.specs.Run.{HasPlayed, IsRunOf, text_of_ran};
ghost use Rattle.ca_cli.specs.StatusText.{text_of_status};
ghost use Rattle.ca_cli.specs.Written.{HasLeft, IsOutcome, IsFaultless};

use crate::lines::lines_of;
use crate::message::message;
use crate::opening::open_tree;
use crate::printed::{keypos_of, printed};
use crate::status::Status;
use ca_client::{Gate, Ran, run_clients};
use ca_cmd::Lines;
use ca_outside::{Shelf, Sink, write_out};
use ca_words::{CommandLine, command_line_of};
use std::alloc::{AllocError, Global};
use std::sync::Wait;
use std::thread::Threads;

// A run of clients, and the bytes that tell of it.
#[derive(Drop)]
struct Report {
    ran: Ran,
    bytes: Vec<u8>,
}

// What a call comes to before anything is written.
#[derive(Drop)]
struct End {
    status: Status,
    bytes: Vec<u8>,
    ran: Option<Ran>,
}

// A status with its message, or want of memory.
fn told(alloc: Global, status: Status) -> (Status, Vec<u8>)
    ensures { ((result.0 ≡ status) × (result.1.items ≡ text_of_status status)) ⊎ ((result.0 ≡ Status.NoMemory) × (result.1.items ≡ [])) }
{
    match message(alloc, status) {
        Ok(bytes) => (status, bytes),
        Err(_) => (Status::NoMemory, Vec::new(alloc)),
    }
}

// Clients with these lines play on a tree that is opened for them as the command line says.
fn play<R: Threads + Wait + Sync, G: Gate + Sync>(
    rt: &R,
    alloc: Global,
    line: CommandLine<'_>,
    files: &[Lines],
    gate: &G,
) -> Result<Report, AllocError>
    requires bounds { IsBounded (request_in line.request) }
    requires options { IsWithin line.tree }
    requires clients { (1 ≤ length files.now) × (length files.now ≤ 64) }
    ensures run { IfOk result (λ report. IsRunOf (request_in line.entry.request) line.entry.tree (map numbered files.now) report.ran) }
    ensures bytes { IfOk result (λ report. report.bytes.items
        ≡ text_of_ran (request_in line.entry.request) line.entry.tree report.ran) }
{
    let keypos = keypos_of(line.request);
    let tree = open_tree(alloc, keypos, line.tree, files)?;
    let ran = run_clients(rt, alloc, tree, files, keypos, gate)?;
    let bytes = printed(alloc, line, &ran)?;
    Ok(Report { ran, bytes })
}

// The run of what the words ask for, or how the call ends early.
fn played<R: Threads + Wait + Sync, F: Shelf, G: Gate + Sync>(
    rt: &R,
    alloc: Global,
    words: &[String],
    shelf: &mut F,
    gate: &G,
) -> Result<Report, Status>
    ensures played { let call = call_of (map string_bytes words.now) (F.content shelf.old)
        (change_of (F.fetches shelf.old) (F.fetches shelf.new) (F.faults shelf.old) (F.faults shelf.new)) in
        IfOk result (λ report. HasPlayed call report.ran report.bytes.items) }
    ensures early { let call = call_of (map string_bytes words.now) (F.content shelf.old)
        (change_of (F.fetches shelf.old) (F.fetches shelf.new) (F.faults shelf.old) (F.faults shelf.new)) in
        IfErr result (λ status. IsCause call status) }
    ensures complete { let call = call_of (map string_bytes words.now) (F.content shelf.old)
        (change_of (F.fetches shelf.old) (F.fetches shelf.new) (F.faults shelf.old) (F.faults shelf.new)) in
        IsWellFormed call → ¬ HasRisen (F.faults shelf.old) (F.faults shelf.new) → IfErr result (λ status. status ≡ Status.NoMemory) }
    ensures told { ¬ IsErrOf result Status.NoMemory → IsSome (F.fetches shelf.old) → IsSome (F.fetches shelf.new) }
    ensures later { F.faults shelf.old ≤ F.faults shelf.new }
{
    let Ok(line) = command_line_of(alloc, words) else {
        return Err(Status::NoMemory);
    };
    let Some(line) = line else {
        return Err(Status::Usage);
    };
    let files = lines_of(rt, alloc, line.request, shelf)?;
    let Ok(report) = play(rt, alloc, line, files.as_slice(), gate) else {
        return Err(Status::NoMemory);
    };
    Ok(report)
}

// What the call comes to, before anything is written.
fn outcome<R: Threads + Wait + Sync, F: Shelf, G: Gate + Sync>(
    rt: &R,
    alloc: Global,
    words: &[String],
    shelf: &mut F,
    gate: &G,
) -> End
    ensures outcome { IsOutcome
        (call_of (map string_bytes words.now) (F.content shelf.old)
        (change_of (F.fetches shelf.old) (F.fetches shelf.new) (F.faults shelf.old) (F.faults shelf.new)))
        result.ran result.status result.bytes.items }
    ensures complete { let call = call_of (map string_bytes words.now) (F.content shelf.old)
        (change_of (F.fetches shelf.old) (F.fetches shelf.new) (F.faults shelf.old) (F.faults shelf.new)) in
        IsWellFormed call → ¬ HasRisen (F.faults shelf.old) (F.faults shelf.new) → IsDoneOrWant result.status }
    ensures told { ¬ (result.status ≡ Status.NoMemory) → IsSome (F.fetches shelf.old) → IsSome (F.fetches shelf.new) }
    ensures later { F.faults shelf.old ≤ F.faults shelf.new }
{
    match played(rt, alloc, words, shelf, gate) {
        Ok(Report { ran, bytes }) => End {
            status: Status::Done,
            bytes,
            ran: Some(ran),
        },
        Err(status) => {
            let (status, bytes) = told(alloc, status);
            End {
                status,
                bytes,
                ran: None,
            }
        }
    }
}

/// Reads the files that the words name, plays their commands on one empty table, a file a client and each client on a thread of its own, and writes every
/// answer and the final table. `words` are the words after the program's name. All files are read before anybody plays. Where the words ask for lines
/// that are made from a seed, these take the place of the files', and a summary is written. With `--shape` it is written too how many bases of the table's
/// tree were split and joined. The gate is told of each line as it is played.
///
/// The whole output is made before its first byte is written, so without memory nothing is written. What the clients' run came to is put into `ran`, also
/// where the output can't be written.
pub fn run<R: Threads + Wait + Sync, F: Shelf, S: Sink, G: Gate + Sync>(
    rt: &R,
    alloc: Global,
    words: &[String],
    shelf: &mut F,
    sink: &mut S,
    gate: &G,
    ran: &mut Option<Ran>,
) -> Status
    requires { ran.old ≡ None }

    // The cause of each status, the fetches that were made, the bytes that go with it, and which of them the sink took.
    ensures run { let call = call_of (map string_bytes words.now) (F.content shelf.old)
        (change_of (F.fetches shelf.old) (F.fetches shelf.new) (F.faults shelf.old) (F.faults shelf.new)) in
        let output = change_of (S.taken sink.old) (S.taken sink.new) (S.faults sink.old) (S.faults sink.new) in
        (status : Status) × (bytes : List ℕ) × HasLeft call output ran.new result status bytes }

    // The headline: where the status is `Done`, the answers and the table are those of one thread.
    ensures headline { let call = call_of (map string_bytes words.now) (F.content shelf.old)
        (change_of (F.fetches shelf.old) (F.fetches shelf.new) (F.faults shelf.old) (F.faults shelf.new)) in
        let output = change_of (S.taken sink.old) (S.taken sink.new) (S.faults sink.old) (S.faults sink.new) in
        result ≡ Status.Done → (answers : List (List Answer)) × (table : List Tree) × (bytes : List ℕ)
        × Prints call output answers table bytes }

    // The run of the clients that was printed is kept.
    ensures ran { let call = call_of (map string_bytes words.now) (F.content shelf.old)
        (change_of (F.fetches shelf.old) (F.fetches shelf.new) (F.faults shelf.old) (F.faults shelf.new)) in
        let output = change_of (S.taken sink.old) (S.taken sink.new) (S.faults sink.old) (S.faults sink.new) in
        IsKept call output result ran.new }

    // Right words, files of the form within the limit and no fault give the answers, or want of memory.
    ensures complete { let call = call_of (map string_bytes words.now) (F.content shelf.old)
        (change_of (F.fetches shelf.old) (F.fetches shelf.new) (F.faults shelf.old) (F.faults shelf.new)) in
        let output = change_of (S.taken sink.old) (S.taken sink.new) (S.faults sink.old) (S.faults sink.new) in
        IsWellFormed call → IsFaultless call output → IsDoneOrWant result }

    // The fetches are told, where they were, unless memory was wanted.
    ensures told { ¬ (result ≡ Status.NoMemory) → IsSome (F.fetches shelf.old) → IsSome (F.fetches shelf.new) }

    // With any other status than that of a failed output the sink had no fault.
    ensures sink_steady { ¬ (result ≡ Status.SinkFault) → S.faults sink.new ≡ S.faults sink.old }

    ensures shelf_later { F.faults shelf.old ≤ F.faults shelf.new }
    ensures sink_later { S.faults sink.old ≤ S.faults sink.new }
{
    let end = outcome(rt, alloc, words, shelf, gate);
    *ran = end.ran;
    match write_out(sink, end.bytes.as_slice()) {
        Ok(()) => end.status,
        Err(_) => Status::SinkFault,
    }
}
