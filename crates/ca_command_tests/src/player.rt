//! Command files, played on a table over a store and on the table of a list, and their answers as text.
ghost use Rattle.ca_ets.specs.Command.{IsContinuation, continuation_of};

use ca_cmd::{Answer, Line, read_file, show_reply};
use ca_ets::{Cont, ListTable, Reply};
use ca_model::{OrderedStore, Outcome};
use ca_table::Table;
use ca_text::put;
use std::alloc::{AllocError, Global};

/// The match specification that chooses all objects.
pub(crate) const ALL: &[u8] = b"[{'_',[],['$_']}]";

// How many turns a call may lose to splits.
const BUDGET: u32 = 1_000;

/// The commands of a file; `Err` also where it isn't one.
pub(crate) fn lines_of(alloc: Global, file: &[u8]) -> Result<Vec<Line>, AllocError> {
    if file.len() > 1_000_000 {
        return Err(AllocError);
    }
    match read_file(alloc, file) {
        Ok(lines) => lines.to_vec(alloc),
        Err(_) => Err(AllocError),
    }
}

/// The command that reads the whole table.
pub(crate) fn read_all(alloc: Global) -> Result<Vec<Line>, AllocError> {
    let mut file = Vec::new(alloc);
    put(b"select ", &mut file)?;
    put(ALL, &mut file)?;
    lines_of(alloc, file.as_slice())
}

/// Appends a reply's text.
pub(crate) fn put_reply(reply: Reply, into: &mut Vec<u8>) -> Result<(), AllocError> {
    show_reply(&Answer::Replied(reply), into)
}

// Appends the reply, or `refused`, and ends the line.
fn put_outcome(outcome: Outcome<Reply>, into: &mut Vec<u8>) -> Result<(), AllocError> {
    match outcome {
        Outcome::Done(reply) => put_reply(reply, into)?,
        _ => put(b"refused", into)?,
    }
    put(b"\n", into)
}

/// Gives a client's commands to a table, and appends the answers, a line each.
pub(crate) fn play<S: OrderedStore + Drop>(
    alloc: Global,
    table: &mut Table<S>,
    lines: &[Line],
    into: &mut Vec<u8>,
) -> Result<(), AllocError> {
    let mut cont = Cont::Never;
    for line in lines {
        let outcome = table.apply(alloc, &line.cmd, &mut cont, BUDGET)?;
        put_outcome(outcome, into)?;
    }
    Ok(())
}

/// The same on the table of a list.
pub(crate) fn play_list(
    alloc: Global,
    list: &mut ListTable,
    lines: &[Line],
    into: &mut Vec<u8>,
) -> Result<(), AllocError> {
    let mut cont = Cont::Never;
    for line in lines {
        let reply = list.apply(alloc, &line.cmd, &mut cont)?;
        put_outcome(Outcome::Done(reply), into)?;
    }
    Ok(())
}
