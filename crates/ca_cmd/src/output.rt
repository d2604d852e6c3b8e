//! The output of a run as text, piece by piece: an answer is text as soon as it was given, and its terms can go.
//! Where memory lacks, the bytes are as before.
ghost use Rattle.std.specs.Prelude.{◌≡◌, ◌++◌, flat_map, OnOk, OnErr};
ghost use Rattle.ca_text.specs.Written.{BeginsWith};
ghost use Rattle.ca_cmd.specs.Answers.{answer_of};
ghost use Rattle.ca_cmd.specs.Output.{answer_line, client_line, end_line, object_line, table_line, table_text};

use crate::answer::{Answer, put_answer, put_term};
use ca_term::Term;
use ca_text::{put, put_number};
use std::alloc::AllocError;

/// Appends the line that stands before a client's answers. Clients count from 1.
pub fn show_client(client: u64, into: &mut Vec<u8>) -> Result<(), AllocError>
    ensures ok { OnOk result (into.new.items ≡ into.old.items ++ client_line client) }
    ensures err { OnErr result (into.new.items ≡ into.old.items) }
{
    let before = into.len();
    let outcome = put_client(client, into);
    if outcome.is_err() {
        into.truncate(before);
    }
    outcome
}

fn put_client(client: u64, into: &mut Vec<u8>) -> Result<(), AllocError>
    ensures ok { OnOk result (into.new.items ≡ into.old.items ++ client_line client) }
    ensures front { BeginsWith into.new.items into.old.items }
{
    put(b"client ", into)?;
    put_number(client, into)?;
    put(b"\n", into)
}

/// Appends the line of an answer to the command that stands in the line of this number, counted from 1.
pub fn show_answer(number: u32, answer: &Answer, into: &mut Vec<u8>) -> Result<(), AllocError>
    ensures ok { OnOk result (into.new.items ≡ into.old.items ++ answer_line number (answer_of answer.now)) }
    ensures err { OnErr result (into.new.items ≡ into.old.items) }
{
    let before = into.len();
    let outcome = put_answer_line(number, answer, into);
    if outcome.is_err() {
        into.truncate(before);
    }
    outcome
}

fn put_answer_line(number: u32, answer: &Answer, into: &mut Vec<u8>) -> Result<(), AllocError>
    ensures ok { OnOk result (into.new.items ≡ into.old.items ++ answer_line number (answer_of answer.now)) }
    ensures front { BeginsWith into.new.items into.old.items }
{
    put_number(u64::from(number), into)?;
    put(b" ", into)?;
    put_answer(answer, into)?;
    put(b"\n", into)
}

/// Appends the line that stands before a table's objects.
pub fn show_start(into: &mut Vec<u8>) -> Result<(), AllocError>
    ensures ok { OnOk result (into.new.items ≡ into.old.items ++ table_line) }
    ensures err { OnErr result (into.new.items ≡ into.old.items) }
{
    let before = into.len();
    let outcome = put(b"table\n", into);
    if outcome.is_err() {
        into.truncate(before);
    }
    outcome
}

/// Appends the line of an object of a table.
pub fn show_object(object: &Term, into: &mut Vec<u8>) -> Result<(), AllocError>
    ensures ok { OnOk result (into.new.items ≡ into.old.items ++ object_line object.now) }
    ensures err { OnErr result (into.new.items ≡ into.old.items) }
{
    let before = into.len();
    let outcome = put_object(object, into);
    if outcome.is_err() {
        into.truncate(before);
    }
    outcome
}

/// Appends the last line, which stands behind a table's objects: how many they are.
pub fn show_end(count: u64, into: &mut Vec<u8>) -> Result<(), AllocError>
    ensures ok { OnOk result (into.new.items ≡ into.old.items ++ end_line count) }
    ensures err { OnErr result (into.new.items ≡ into.old.items) }
{
    let before = into.len();
    let outcome = put_end(count, into);
    if outcome.is_err() {
        into.truncate(before);
    }
    outcome
}

/// Appends the objects of a table, a line each, and how many they are.
pub fn show_table(table: &[Term], into: &mut Vec<u8>) -> Result<(), AllocError>
    ensures ok { OnOk result (into.new.items ≡ into.old.items ++ table_text table.now) }
    ensures err { OnErr result (into.new.items ≡ into.old.items) }
{
    let before = into.len();
    let outcome = put_table(table, into);
    if outcome.is_err() {
        into.truncate(before);
    }
    outcome
}

fn put_table(table: &[Term], into: &mut Vec<u8>) -> Result<(), AllocError>
    ensures ok { OnOk result (into.new.items ≡ into.old.items ++ table_text table.now) }
    ensures front { BeginsWith into.new.items into.old.items }
{
    put(b"table\n", into)?;
    put_objects(table, into)?;
    put_end(table.len() as u64, into)
}

fn put_end(count: u64, into: &mut Vec<u8>) -> Result<(), AllocError>
    ensures ok { OnOk result (into.new.items ≡ into.old.items ++ end_line count) }
    ensures front { BeginsWith into.new.items into.old.items }
{
    put(b"end ", into)?;
    put_number(count, into)?;
    put(b"\n", into)
}

fn put_objects(table: &[Term], into: &mut Vec<u8>) -> Result<(), AllocError>
    ensures ok { OnOk result (into.new.items ≡ into.old.items ++ flat_map object_line table.now) }
    ensures front { BeginsWith into.new.items into.old.items }
{
    for object in table {
        put_object(object, into)?;
    }
    Ok(())
}

fn put_object(object: &Term, into: &mut Vec<u8>) -> Result<(), AllocError>
    ensures ok { OnOk result (into.new.items ≡ into.old.items ++ object_line object.now) }
    ensures front { BeginsWith into.new.items into.old.items }
{
    put_term(object, into)?;
    put(b".\n", into)
}
