//! Clients that share a tree: from their lines to their answers and the final table.
ghost use Rattle.std.specs.Prelude.{◌≡◌, ℕ, ◌≤◌, IfOk, IfSome, OnOk, length, map, vec_len};
ghost use Rattle.ca_cmd.specs.Lines.{numbered};
ghost use Rattle.ca_client.specs.Clients.{lines_in};
ghost use Rattle.ca_client.specs.Ran.{HasRun, IsPastOf};
ghost use Rattle.ca_node.specs.Tallied.{IsTallied};
ghost use Rattle.ca_node.specs.TreePasses.{tree_of};
ghost use Rattle.ca_client.specs.Sharing.{AreLeft, AreNew, AreReady, IsNew, IsPart, IsReady};

use crate::clients::{Client, play_all};
use crate::following::OnTree;
use crate::gate::Gate;
use crate::giving::GivesRowsBack;
use crate::table::ClosedTable;
use ca_cmd::{Answers, Lines};
use ca_node::{TreePass, adapted};
use ca_replace::{Past, Tree, TreeStore};
use ca_table::Table;
use std::alloc::{AllocError, Global};
use std::sync::Wait;
use std::thread::Threads;

/// What a run of clients comes to.
#[derive(Drop)]
pub struct Ran {
    /// The answers to each client's commands, as text.
    pub answers: Vec<Answers>,
    /// The final table.
    pub table: ClosedTable,
    /// How many splits and how many joins the passes carried out, each up to the last number that 64 bits hold.
    pub splits: u64,
    pub joins: u64,
    /// Which tree they played on, what it was made with, and what each of its passes did, as contracts see it.
    pub past: Past,
}

// What clients that played leave: their answers and their passes, in order, and what the passes did to the tree, as `Ran` says it.
#[derive(Drop)]
struct Parts {
    answers: Vec<Answers>,
    passes: Vec<TreePass>,
    splits: u64,
    joins: u64,
}

// Makes so many passes of a tree that has none, and may have so many.
fn enroll_all(alloc: Global, tree: &mut Tree, count: usize) -> Result<Vec<TreePass>, AllocError>
    requires fresh { tree.old.space.made ≡ 0 }
    requires few { count ≤ tree.old.space.sizes.passes }
    ensures same { (tree.new.space.table.shared ≡ tree.old.space.table.shared) × (tree.new.space.sizes ≡ tree.old.space.sizes)
        × (tree.new.tuning ≡ tree.old.tuning) }
    ensures made { OnOk result (tree.new.space.made ≡ count) }
    ensures passes { IfOk result (λ passes. (vec_len passes ≡ count)
        × AreNew tree.new.space.table.shared.table_id tree.new.space.table.shared.key 1 passes.items) }
{
    let mut made = Vec::with_capacity(alloc, count)?;
    while made.len() < count {
        let Ok(pass) = tree.enroll(alloc) else {
            return Err(AllocError);
        };
        made.push_reserved(pass);
    }
    Ok(made)
}

// A client for each file, each with a table on a pass of its own.
fn clients_of<'t, 'l>(
    alloc: Global,
    tree: &'t Tree,
    keypos: u32,
    passes: Vec<TreePass>,
    files: &'l [Lines],
) -> Result<Vec<Client<'l, TreeStore<'t>, OnTree>>, AllocError>
    requires keypos { (keypos ≡ tree.now.space.table.shared.key.keypos) × (1 ≤ keypos) }
    requires all { vec_len passes ≡ length files.now }
    requires passes { AreNew tree.now.space.table.shared.table_id tree.now.space.table.shared.key 1 passes.items }
    ensures ready { IfOk result (λ clients.
        AreReady tree.now.space.table.shared.table_id tree.now.space.table.shared.key 1 files.now clients.items) }
{
    let mut clients = Vec::with_capacity(alloc, files.len())?;
    let mut place = 0_usize;
    for pass in passes {
        clients.push_reserved(client_on(tree, keypos, pass, &files[place]));
        place += 1;
    }
    Ok(clients)
}

// The client that plays these lines by a pass of its own.
fn client_on<'t, 'l>(
    tree: &'t Tree,
    keypos: u32,
    pass: TreePass,
    lines: &'l Lines,
) -> Client<'l, TreeStore<'t>, OnTree>
    requires keypos { (keypos ≡ tree.now.space.table.shared.key.keypos) × (1 ≤ keypos) }
    requires pass { (number : ℕ) × IsNew tree.now.space.table.shared.table_id tree.now.space.table.shared.key number pass }
    ensures { (number : ℕ) → IsNew tree.now.space.table.shared.table_id tree.now.space.table.shared.key number pass
        → IsReady tree.now.space.table.shared.table_id tree.now.space.table.shared.key number lines.now result }
{
    Client {
        number: pass.number(),
        table: Table::followed(TreeStore::new(tree, pass), keypos),
        lines,
        answers: None,
    }
}

// What a client that played leaves: its answers and its pass. There is nothing where it found no memory.
fn part_of(client: Client<'_, TreeStore<'_>, OnTree>) -> Option<(Answers, TreePass)>
    ensures { IfSome result (λ part. IsPart client.entry part.0 part.1 × IsTallied part.1.tally (tree_of part.1)) }
{
    let answers = client.answers?;
    Some((answers, client.table.into_store().into_pass()))
}

// What clients that played leave. `Err` where one of them found no memory.
fn parts_of(
    alloc: Global,
    clients: Vec<Client<'_, TreeStore<'_>, OnTree>>,
) -> Result<Parts, AllocError>
    ensures { IfOk result (λ parts. AreLeft clients.entry.items parts) }
{
    let mut all = Vec::with_capacity(alloc, clients.len())?;
    let mut passes = Vec::with_capacity(alloc, clients.len())?;
    let mut splits = 0_u64;
    let mut joins = 0_u64;
    for client in clients {
        let Some((answers, pass)) = part_of(client) else {
            return Err(AllocError);
        };
        let (splits_more, joins_more) = adapted(&pass);
        splits = splits.saturating_add(splits_more);
        joins = joins.saturating_add(joins_more);
        all.push_reserved(answers);
        passes.push_reserved(pass);
    }
    Ok(Parts {
        answers: all,
        passes,
        splits,
        joins,
    })
}

// How many lines all files have together, up to the last number that 64 bits hold.
fn lines_of(files: &[Lines]) -> u64
    ensures { result ≡ lines_in files.now }
{
    let mut lines = 0_u64;
    for file in files {
        lines = lines.saturating_add(file.len() as u64);
    }
    lines
}

/// Plays a client for each file on the tree, each by a pass of its own, on threads as `play_all` has it; closes the tree, and gives back the clients'
/// answers and the final table. The element `keypos` of an object is its key, counted from 1, in the tree too. `Err` where memory wasn't found; a client
/// that finds none lets the others play to their ends.
pub fn run_clients<R: Threads + Wait + Sync, G: Gate + Sync>(
    rt: &R,
    alloc: Global,
    tree: Tree,
    files: &[Lines],
    keypos: u32,
    gate: &G,
) -> Result<Ran, AllocError>
    requires fresh { tree.space.made ≡ 0 }
    requires few { length files.now ≤ tree.space.sizes.passes }
    requires keypos { (keypos ≡ tree.space.sizes.keypos) × (1 ≤ keypos) }
    ensures ran { IfOk result (λ ran. HasRun keypos (map numbered files.now) ran) }
    ensures past { IfOk result (λ ran. IsPastOf tree ran.past) }
{
    let mut tree = tree;
    let passes = enroll_all(alloc, &mut tree, files.len())?;
    let mut clients = clients_of(alloc, &tree, keypos, passes, files)?;
    gate.begin(lines_of(files));
    play_all(rt, alloc, clients.as_mut_slice(), gate, &GivesRowsBack);
    let parts = parts_of(alloc, clients)?;
    let Ok(closed) = tree.close(alloc, parts.passes) else {
        return Err(AllocError);
    };
    Ok(Ran {
        answers: parts.answers,
        table: ClosedTable::of(closed.objects),
        splits: parts.splits,
        joins: parts.joins,
        past: closed.past,
    })
}
