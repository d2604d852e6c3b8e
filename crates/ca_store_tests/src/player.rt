//! Commands as text, played on a table, and their answers as text.
ghost use Rattle.ca_ets.specs.Command.{IsContinuation, continuation_of};

use ca_cmd::{Answer, Line, read_file, show_reply};
use ca_ets::{Cont, Reply};
use ca_model::{Counter, FullCause, OrderedStore, Outcome, Spent};
use ca_table::Table;
use ca_text::put;
use std::alloc::{AllocError, Global};

pub(crate) const BUDGET: u32 = 3;

/// The cause that a script tells of a store without room.
pub(crate) const CAUSE: FullCause = FullCause {
    kept: 64,
    lag: Some(2),
};

/// The level that a script tells of a store without levels.
pub(crate) const LEVEL: u16 = 7;

// A call lost its whole budget, or one turn to another client's object.
const ALL_LOST: Spent = Spent {
    lost: BUDGET,
    helped: 0,
    passed: 0,
};

const ONE_LOST: Spent = Spent {
    lost: 1,
    helped: 0,
    passed: 0,
};

// The match specification that chooses all objects.
const ALL: &[u8] = b"[{'_',[],['$_']}]";

// The command file of a text: commands are parted by `;`, and `*` stands for the specification of all objects.
fn file_of(alloc: Global, text: &str) -> Result<Vec<u8>, AllocError> {
    let mut file = Vec::new(alloc);
    for byte in text.bytes() {
        match byte {
            b';' => file.push(b'\n')?,
            b'*' => put(ALL, &mut file)?,
            _ => file.push(byte)?,
        }
    }
    Ok(file)
}

/// The commands of a text; `Err` also where it isn't of commands.
pub(crate) fn lines_of(alloc: Global, text: &str) -> Result<Vec<Line>, AllocError> {
    let file = file_of(alloc, text)?;
    if file.len() > 1_000_000 {
        return Err(AllocError);
    }
    match read_file(alloc, file.as_slice()) {
        Ok(lines) => lines.to_vec(alloc),
        Err(_) => Err(AllocError),
    }
}

// The word for a refusal, if all that it tells is as the script has it.
fn word_of(refusal: &Outcome<Reply>) -> &'static [u8] {
    match refusal {
        Outcome::Busy(spent) if *spent == ALL_LOST => b"busy",
        Outcome::Busy(spent) if *spent == ONE_LOST => b"overtaken",
        Outcome::Full(cause) if *cause == CAUSE => b"full",
        Outcome::Deep(level) if *level == LEVEL => b"deep",
        Outcome::Worn(Counter::Epoch) => b"worn",
        _ => b"another refusal",
    }
}

/// Appends a reply and `;`.
pub(crate) fn put_reply(reply: Reply, into: &mut Vec<u8>) -> Result<(), AllocError> {
    show_reply(&Answer::Replied(reply), into)?;
    put(b";", into)
}

fn put_outcome(outcome: Outcome<Reply>, into: &mut Vec<u8>) -> Result<(), AllocError> {
    if let Outcome::Done(reply) = outcome {
        return put_reply(reply, into);
    }
    put(word_of(&outcome), into)?;
    put(b";", into)
}

/// Gives a client's commands to a table, one after the other, and appends the answers, each with `;` behind it. `cont` tells where the client's
/// batches stand.
pub(crate) fn play_on<S: OrderedStore + Drop>(
    alloc: Global,
    table: &mut Table<S>,
    cont: &mut Cont,
    lines: &[Line],
    into: &mut Vec<u8>,
) -> Result<(), AllocError>
    requires { IsContinuation (continuation_of cont.old) }
    ensures { IsContinuation (continuation_of cont.new) }
{
    for line in lines {
        let outcome = table.apply(alloc, &line.cmd, cont, BUDGET)?;
        put_outcome(outcome, into)?;
    }
    Ok(())
}

/// The same with a client's first commands.
pub(crate) fn play<S: OrderedStore + Drop>(
    alloc: Global,
    table: &mut Table<S>,
    lines: &[Line],
    into: &mut Vec<u8>,
) -> Result<(), AllocError> {
    play_on(alloc, table, &mut Cont::Never, lines, into)
}
