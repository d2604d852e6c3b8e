//! Tables over a store with a script.
use crate::edit::edits;
use crate::player::{CAUSE, LEVEL, lines_of, play};
use ca_model::{Counter, OrderedStore};
use ca_table::Table;
use ca_test_store::{Refusal, Scripted, Turn};
use std::alloc::{AllocError, Global};

// What a table has before its script begins.
const START: &str = "insert {1,10}; insert {2,20}";

fn refusal_of(word: &str) -> Option<Refusal> {
    match word {
        "busy" => Some(Refusal::Busy),
        "full" => Some(Refusal::Full(CAUSE)),
        "deep" => Some(Refusal::Deep(LEVEL)),
        "worn" => Some(Refusal::Worn(Counter::Epoch)),
        _ => None,
    }
}

// Adds a turn: `Err` also where the text has no three parts.
fn add_turn(alloc: Global, store: &mut Scripted, text: &str) -> Result<(), AllocError> {
    let Some((before, rest)) = text.split_once('|') else {
        return Err(AllocError);
    };
    let Some((word, after)) = rest.split_once('|') else {
        return Err(AllocError);
    };
    let keypos = store.keypos();
    let before = edits(alloc, keypos, before)?;
    let after = edits(alloc, keypos, after)?;
    store.add_turn(Turn::new(before, refusal_of(word), after))
}

// The table of a store, whose run is ended if one is open.
fn table_over(store: Scripted) -> Table<Scripted> {
    let mut store = store;
    store.close_run();
    let keypos = store.keypos();
    Table::new(store, keypos)
}

fn play_text(
    alloc: Global,
    table: &mut Table<Scripted>,
    text: &str,
    into: &mut Vec<u8>,
) -> Result<(), AllocError> {
    let lines = lines_of(alloc, text)?;
    play(alloc, table, lines.as_slice(), into)
}

// The table with the first objects, over a store with this script.
fn start(alloc: Global, script: &str) -> Result<Table<Scripted>, AllocError> {
    let mut table = Table::new(Scripted::new(alloc, 1), 1);
    play_text(alloc, &mut table, START, &mut Vec::new(alloc))?;
    let mut store = table.into_store();
    for turn in script.split(" / ") {
        add_turn(alloc, &mut store, turn)?;
    }
    Ok(table_over(store))
}

/// The answers to these commands under this script, and then all objects as a list.
pub(crate) fn answers(alloc: Global, script: &str, commands: &str) -> Result<Vec<u8>, AllocError> {
    let mut table = start(alloc, script)?;
    let mut answers = Vec::new(alloc);
    play_text(alloc, &mut table, commands, &mut answers)?;
    play_text(alloc, &mut table, "select *", &mut answers)?;
    Ok(answers)
}
