//! Command files, and answers as text.
use ca_client::{Gate, OpenGate, play};
use ca_cmd::{Answers, Lines, read_file};
use ca_model::OrderedStore;
use ca_table::Table;
use ca_text::put;
use std::alloc::{AllocError, Global};
use std::sync::Wait;

// The match specification that chooses all objects.
const ALL: &[u8] = b"[{'_',[],['$_']}]";

// The command file of a text: commands are parted by `;`, and `*` stands for the specification of all objects.
fn file_of(alloc: Global, text: &str) -> Result<Vec<u8>, AllocError> {
    let mut file = Vec::new(alloc);
    for byte in text.bytes() {
        match byte {
            b';' => file.push(b'\n')?,
            b'*' => put(ALL, &mut file)?,
            _ => file.push(byte)?,
        }
    }
    Ok(file)
}

/// The commands of a text; `Err` also where it isn't of commands.
pub(crate) fn lines_of(alloc: Global, text: &str) -> Result<Lines, AllocError> {
    let file = file_of(alloc, text)?;
    if file.len() > 1_000_000 {
        return Err(AllocError);
    }
    match read_file(alloc, file.as_slice()) {
        Ok(lines) => Ok(lines),
        Err(_) => Err(AllocError),
    }
}

/// The text of these answers without the numbers of their lines, each with `;` behind it.
pub(crate) fn text_of(alloc: Global, answers: &Answers) -> Result<Vec<u8>, AllocError> {
    let mut text = Vec::new(alloc);
    let mut is_number = true;
    for byte in answers.text.as_slice() {
        match *byte {
            b'\n' => {
                text.push(b';')?;
                is_number = true;
            }
            b' ' if is_number => is_number = false,
            _ if is_number => {}
            other => text.push(other)?,
        }
    }
    Ok(text)
}

/// What a client is answered that plays the commands of a text.
pub(crate) fn played<R: Wait, S: OrderedStore + Drop, G: Gate>(
    rt: &R,
    alloc: Global,
    table: &mut Table<S>,
    text: &str,
    gate: &G,
) -> Result<Vec<u8>, AllocError> {
    let lines = lines_of(alloc, text)?;
    let answers = play(rt, alloc, 1, table, &lines, gate)?;
    text_of(alloc, &answers)
}

/// The same with a gate that does nothing.
pub(crate) fn played_open<R: Wait, S: OrderedStore + Drop>(
    rt: &R,
    alloc: Global,
    table: &mut Table<S>,
    text: &str,
) -> Result<Vec<u8>, AllocError> {
    played(rt, alloc, table, text, &OpenGate)
}
