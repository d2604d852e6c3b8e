//! Whether some merge of clients' files, each in its order, explains what their lines were answered and the table in the end.
use crate::states::{State, put_objects, table_copied};
use ca_cmd::Line;
use ca_ets::{Cmd, ListTable};
use std::alloc::{AllocError, Global};

/// A client's file, and the texts of its answers.
#[derive(Drop)]
pub(crate) struct Side {
    pub lines: Vec<Line>,
    pub answers: Vec<Vec<u8>>,
}

/// Which merges are tried: all of them, or those alone in which each file stands as a whole.
#[derive(Clone, Copy, PartialEq, Eq)]
pub(crate) enum Merges {
    All,
    Whole,
}

// How many lines all clients have.
fn lines_of_all(sides: &[Side]) -> usize {
    let mut lines = 0_usize;
    for side in sides {
        lines = lines.saturating_add(side.lines.len());
    }
    lines
}

// Whether another client than this one is in the middle of its file.
fn has_begun_other(state: &State, client: usize, sides: &[Side]) -> bool {
    for (other, side) in sides.iter().enumerate() {
        let played = state.played(other);
        if other != client && played > 0 && played < side.lines.len() {
            return true;
        }
    }
    false
}

fn has(states: &[State], state: &State) -> bool {
    for known in states {
        if known.text() == state.text() {
            return true;
        }
    }
    false
}

// The client's next line, and its answer.
fn next_of<'a>(state: &State, client: usize, side: &'a Side) -> Option<(&'a Cmd, &'a [u8])> {
    let at = state.played(client);
    match (
        side.lines.as_slice().get(at),
        side.answers.as_slice().get(at),
    ) {
        (Some(line), Some(answer)) => Some((&line.cmd, answer.as_slice())),
        _ => None,
    }
}

fn only_reads(cmd: &Cmd) -> bool {
    matches!(
        cmd,
        Cmd::Lookup(_)
            | Cmd::Member(_)
            | Cmd::First
            | Cmd::Last
            | Cmd::Next(_)
            | Cmd::Prev(_)
            | Cmd::Select(_)
            | Cmd::SelectRange(_, _, _)
    )
}

// Whether a line with this answer changed nothing, wherever it is played.
fn is_still(answer: &[u8]) -> bool {
    answer == b"false".as_slice() || answer == b"[]".as_slice() || answer.starts_with(b"error")
}

// Plays the next line of some client, if one only reads and is answered so at this state.
fn reads_one(alloc: Global, state: &mut State, sides: &[Side]) -> Result<bool, AllocError> {
    for (client, side) in sides.iter().enumerate() {
        if let Some((cmd, answer)) = next_of(state, client, side) {
            if only_reads(cmd) && state.reads(alloc, client, cmd, answer)? {
                return Ok(true);
            }
        }
    }
    Ok(false)
}

// Plays all lines that only read and are answered so at this state: a merge in which one of them stands later explains no more than that with it moved
// here.
fn read_on(alloc: Global, state: &mut State, sides: &[Side]) -> Result<(), AllocError> {
    for _ in 0..lines_of_all(sides) {
        if !reads_one(alloc, state, sides)? {
            break;
        }
    }
    Ok(())
}

// The state behind a line that changed nothing and is answered so at this state, if some client's next line is one.
fn after_still(alloc: Global, state: &State, sides: &[Side]) -> Result<Option<State>, AllocError> {
    for (client, side) in sides.iter().enumerate() {
        if let Some((cmd, answer)) = next_of(state, client, side) {
            if is_still(answer) && !only_reads(cmd) {
                if let Some(next) = state.after(alloc, client, cmd, answer)? {
                    return Ok(Some(next));
                }
            }
        }
    }
    Ok(None)
}

// Adds a state with all that can be read at it, if it isn't there.
fn add(
    alloc: Global,
    states: &mut Vec<State>,
    mut state: State,
    sides: &[Side],
    merges: Merges,
) -> Result<(), AllocError> {
    if merges == Merges::All {
        read_on(alloc, &mut state, sides)?;
    }
    state.spell()?;
    if !has(states.as_slice(), &state) {
        states.push(state)?;
    }
    Ok(())
}

// Whether the client's next line may be tried: of whole files one at a time; and else none that only reads, since all that can were played.
fn may_be_next(state: &State, client: usize, cmd: &Cmd, sides: &[Side], merges: Merges) -> bool {
    match merges {
        Merges::All => !only_reads(cmd),
        Merges::Whole => !has_begun_other(state, client, sides),
    }
}

// Adds the states behind one line more.
fn add_all(
    alloc: Global,
    state: &State,
    sides: &[Side],
    merges: Merges,
    all: &mut Vec<State>,
) -> Result<(), AllocError> {
    for (client, side) in sides.iter().enumerate() {
        if let Some((cmd, answer)) = next_of(state, client, side) {
            if may_be_next(state, client, cmd, sides, merges) {
                if let Some(next) = state.after(alloc, client, cmd, answer)? {
                    add(alloc, all, next, sides, merges)?;
                }
            }
        }
    }
    Ok(())
}

// The states behind one line more. Where one that changed nothing can be next, no other one is tried.
fn further(
    alloc: Global,
    states: &[State],
    sides: &[Side],
    merges: Merges,
) -> Result<Vec<State>, AllocError> {
    let mut all = Vec::new(alloc);
    for state in states {
        let still = match merges {
            Merges::All => after_still(alloc, state, sides)?,
            Merges::Whole => None,
        };
        match still {
            Some(next) => add(alloc, &mut all, next, sides, merges)?,
            None => add_all(alloc, state, sides, merges, &mut all)?,
        }
    }
    Ok(all)
}

// Whether all lines were played, and the table's text is this one.
fn has_come_to(
    alloc: Global,
    state: &State,
    sides: &[Side],
    end: &[u8],
) -> Result<bool, AllocError> {
    for (client, side) in sides.iter().enumerate() {
        if state.played(client) < side.lines.len() {
            return Ok(false);
        }
    }
    let mut text = Vec::new(alloc);
    put_objects(state.table(), &mut text)?;
    Ok(text.as_slice() == end)
}

// The table of a state at which all lines were played, if its text is this one.
fn table_behind(
    alloc: Global,
    states: &[State],
    sides: &[Side],
    end: &[u8],
) -> Result<Option<ListTable>, AllocError> {
    for state in states {
        if has_come_to(alloc, state, sides, end)? {
            return Ok(Some(table_copied(alloc, state.table())?));
        }
    }
    Ok(None)
}

/// The table behind a merge that explains all answers, begun with this table, and the text of the table in the end; `None` where no merge does.
pub(crate) fn explained(
    alloc: Global,
    start: &ListTable,
    sides: &[Side],
    end: &[u8],
    merges: Merges,
) -> Result<Option<ListTable>, AllocError> {
    let mut states = Vec::new(alloc);
    let first = State::start(alloc, start, sides.len())?;
    add(alloc, &mut states, first, sides, merges)?;
    for _ in 0..lines_of_all(sides) {
        let table = table_behind(alloc, states.as_slice(), sides, end)?;
        if table.is_some() {
            return Ok(table);
        }
        states = further(alloc, states.as_slice(), sides, merges)?;
    }
    table_behind(alloc, states.as_slice(), sides, end)
}
