//! The answers of clients and the final table, as text.
ghost use Rattle.std.specs.Prelude.{◌≡◌, ◌++◌, flat_map, OnOk};
ghost use Rattle.ca_cmd.specs.Output.{object_line, table_text};
ghost use Rattle.ca_cli.specs.Texts.{told_lines};

use ca_client::ClosedTable;
use ca_cmd::{Answers, show_client, show_end, show_object, show_start};
use ca_text::put;
use std::alloc::{AllocError, Global};

// How many bytes the lines of all clients have together, up to the last number of its type.
fn size_of(all: &[Answers]) -> usize {
    let mut size = 0_usize;
    for told in all {
        size = size.saturating_add(told.text.len());
    }
    size
}

// Appends each client's answers.
fn put_clients(all: &[Answers], into: &mut Vec<u8>) -> Result<(), AllocError>
    ensures { OnOk result (into.new.items ≡ into.old.items ++ told_lines 1 all.now) }
{
    into.reserve(size_of(all))?;
    let mut client = 0_u64;
    for told in all {
        client += 1;
        show_client(client, into)?;
        put(told.text.as_slice(), into)?;
    }
    Ok(())
}

// Appends the objects of a table, a line each. One of them at a time is a term.
fn put_objects(alloc: Global, table: &ClosedTable, into: &mut Vec<u8>) -> Result<(), AllocError>
    ensures { OnOk result (into.new.items ≡ into.old.items ++ flat_map object_line table.now) }
{
    for at in 0..table.len() {
        let object = table.object(alloc, at)?;
        show_object(&object, into)?;
    }
    Ok(())
}

// Appends a table.
fn put_table(alloc: Global, table: &ClosedTable, into: &mut Vec<u8>) -> Result<(), AllocError>
    ensures { OnOk result (into.new.items ≡ into.old.items ++ table_text table.now) }
{
    show_start(into)?;
    put_objects(alloc, table, into)?;
    show_end(table.len() as u64, into)
}

/// Appends what is printed of clients' answers, and of a table.
pub fn put_run(
    alloc: Global,
    all: &[Answers],
    table: &ClosedTable,
    into: &mut Vec<u8>,
) -> Result<(), AllocError>
    ensures { OnOk result (into.new.items ≡ into.old.items ++ (told_lines 1 all.now ++ table_text table.now)) }
{
    put_clients(all, into)?;
    put_table(alloc, table, into)
}
