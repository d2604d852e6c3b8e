//! What is printed of runs of lines that are made from a seed.
ghost use Rattle.std.specs.Prelude.{◌≡◌, ◌++◌, codes, IfOk, OnOk};
ghost use Rattle.ca_cli.specs.Summary.{generated_line, integer_of, number_line, second_in, second_of, sum_line, sum_of, summary_text};
ghost use Rattle.ca_cli.specs.Texts.{told_refusals};

use ca_client::ClosedTable;
use ca_cmd::Answers;
use ca_term::{Kind, Term};
use ca_text::{put, put_number};
use itoa::Buffer;
use std::alloc::{AllocError, Global};

// The integer that a term is, else 0.
fn integer(term: &Term) -> i64
    ensures { result ≡ integer_of term.now }
{
    match term.kind() {
        Kind::Int(value) => value,
        _ => 0,
    }
}

fn second_in(items: &[Term]) -> i64
    ensures { result ≡ second_in items.now }
{
    match items {
        [_, value, ..] => integer(value),
        _ => 0,
    }
}

// The second element of an object, where it is an integer, else 0.
fn second(object: &Term) -> i64
    ensures { result ≡ second_of object.now }
{
    match object.kind() {
        Kind::Tuple(items) => second_in(items),
        _ => 0,
    }
}

// The sum of the second elements of objects. Each is of 64 bits, and there are fewer than 2^63 of them.
fn sum(alloc: Global, table: &ClosedTable) -> Result<i128, AllocError>
    ensures { IfOk result (λ sum. sum ≡ sum_of table.now) }
{
    let mut sum = 0;
    for at in 0..table.len() {
        let object = table.object(alloc, at)?;
        sum += i128::from(second(&object));
    }
    Ok(sum)
}

// How many commands were refused. A client tells fewer than 2^64 of them, and there are fewer than 2^63 clients.
fn all_refusals(all: &[Answers]) -> u128
    ensures { result ≡ told_refusals all.now }
{
    let mut count = 0;
    for told in all {
        count += u128::from(told.refused);
    }
    count
}

fn put_generated(clients: u32, lines: u32, into: &mut Vec<u8>) -> Result<(), AllocError>
    ensures { OnOk result (into.new.items ≡ into.old.items ++ generated_line clients lines) }
{
    put(b"generated ", into)?;
    put_number(u64::from(clients), into)?;
    put_number_line(b" ", u64::from(lines), into)
}

/// Appends a text and a number, up to the end of the line.
pub fn put_number_line(name: &[u8], n: u64, into: &mut Vec<u8>) -> Result<(), AllocError>
    ensures { OnOk result (into.new.items ≡ into.old.items ++ number_line name.now n) }
{
    put(name, into)?;
    put_number(n, into)?;
    put(b"\n", into)
}

fn put_refused(all: &[Answers], into: &mut Vec<u8>) -> Result<(), AllocError>
    ensures { OnOk result (into.new.items ≡ into.old.items ++ number_line (codes "refused ") (told_refusals all.now)) }
{
    put(b"refused ", into)?;
    put(Buffer::new().format(all_refusals(all)).as_bytes(), into)?;
    put(b"\n", into)
}

fn put_sum(sum: i128, into: &mut Vec<u8>) -> Result<(), AllocError>
    ensures { OnOk result (into.new.items ≡ into.old.items ++ sum_line sum) }
{
    put(b"sum ", into)?;
    put(Buffer::new().format(sum).as_bytes(), into)?;
    put(b"\n", into)
}

/// Appends the summary of clients' answers and of a table, where so many clients had so many lines each: how many commands were refused, how many objects
/// there are, and the sum of their second elements.
pub fn put_summary(
    alloc: Global,
    clients: u32,
    lines: u32,
    all: &[Answers],
    table: &ClosedTable,
    into: &mut Vec<u8>,
) -> Result<(), AllocError>
    ensures { OnOk result (into.new.items
        ≡ into.old.items ++ summary_text clients lines (told_refusals all.now) table.now) }
{
    put_generated(clients, lines, into)?;
    put_refused(all, into)?;
    put_number_line(b"end ", table.len() as u64, into)?;
    put_sum(sum(alloc, table)?, into)
}
