//! What is printed of a run of clients.
ghost use Rattle.std.specs.Prelude.{◌≡◌, ◌++◌, IfOk, OnOk};
ghost use Rattle.ca_words.specs.Words.{request_in};
ghost use Rattle.ca_cli.specs.Printed.{keypos_of, shape_if, shape_line};
ghost use Rattle.ca_cli.specs.Run.{text_of_ran};
ghost use Rattle.ca_cli.specs.Texts.{told_text};

use crate::answer::put_run;
use crate::summary::{put_number_line, put_summary};
use ca_client::Ran;
use ca_text::{put, put_number};
use ca_words::{CommandLine, Request};
use std::alloc::{AllocError, Global};

// Which element of an object is its key in lines that are made from a seed, counted from 1.
const KEYPOS_OF_GENERATED: u32 = 1;

/// Which element of an object is its key, counted from 1.
pub fn keypos_of(request: Request<'_>) -> u32
    ensures { result ≡ keypos_of (request_in request.entry) }
{
    match request {
        Request::Files { keypos, names: _ } => keypos,
        Request::Generated {
            seed: _,
            clients: _,
            lines: _,
        } => KEYPOS_OF_GENERATED,
    }
}

// Appends the answers and the table, or their summary.
fn put_text(
    alloc: Global,
    request: Request<'_>,
    ran: &Ran,
    into: &mut Vec<u8>,
) -> Result<(), AllocError>
    ensures { OnOk result (into.new.items ≡ into.old.items ++ told_text (request_in request.entry) ran.now.answers.items ran.now.table) }
{
    let answers = ran.answers.as_slice();
    let table = &ran.table;
    match request {
        Request::Files {
            keypos: _,
            names: _,
        } => put_run(alloc, answers, table, into),
        Request::Generated {
            seed: _,
            clients,
            lines,
        } => put_summary(alloc, clients, lines, answers, table, into),
    }
}

// Appends how many bases were split and how many were joined.
fn put_shape(splits: u64, joins: u64, into: &mut Vec<u8>) -> Result<(), AllocError>
    ensures { OnOk result (into.new.items ≡ into.old.items ++ shape_line splits joins) }
{
    put(b"shape ", into)?;
    put_number(splits, into)?;
    put_number_line(b" ", joins, into)
}

// Appends the line of the shape, where it is asked for.
fn put_shape_if(asked: bool, splits: u64, joins: u64, into: &mut Vec<u8>) -> Result<(), AllocError>
    ensures { OnOk result (into.new.items ≡ into.old.items ++ shape_if asked splits joins) }
{
    if asked {
        put_shape(splits, joins, into)
    } else {
        Ok(())
    }
}

/// What is printed of a run of clients, where the command line asks for it: the answers and the table, or their summary, and behind them the line of the
/// shape, where it is asked for.
pub fn printed(alloc: Global, line: CommandLine<'_>, ran: &Ran) -> Result<Vec<u8>, AllocError>
    ensures { IfOk result (λ bytes. bytes.items ≡ text_of_ran (request_in line.entry.request) line.entry.tree ran.now) }
{
    let mut bytes = Vec::new(alloc);
    put_text(alloc, line.request, ran, &mut bytes)?;
    put_shape_if(line.tree.shape, ran.splits, ran.joins, &mut bytes)?;
    Ok(bytes)
}
