//! The lines that the clients of a call play: those of files, or those made from a seed.
ghost use Rattle.std.specs.Prelude.{◌≡◌, ℕ, ◌≤◌, List, map, IsSome, IfOk, IfErr, IsErrOf};
ghost use Rattle.ca_outside.specs.Known.{HasRisen};
ghost use Rattle.ca_cmd.specs.Lines.{numbered};
ghost use Rattle.ca_words.specs.Grammar.{IsBounded, IsLineOf};
ghost use Rattle.ca_words.specs.Words.{request_in};
ghost use Rattle.ca_words.specs.declared.tree.TreeOptions.{TreeOptions};
ghost use Rattle.ca_cli.specs.Accepted.{AreLinesOf};
ghost use Rattle.ca_cli.specs.Call.{change_of, call_of};
ghost use Rattle.ca_cli.specs.Causes.{IsCause};
ghost use Rattle.ca_cli.specs.Complete.{IsThere};
ghost use Rattle.ca_cli.specs.Summary.{clients_from};

use crate::files::read_all;
use crate::status::Status;
use ca_cmd::{Lines, generate};
use ca_outside::Shelf;
use ca_words::Request;
use std::alloc::{AllocError, Global};
use std::thread::Threads;

// So many lines for each of so many clients, made from a seed.
fn make_all(alloc: Global, seed: u32, clients: u32, count: u32) -> Result<Vec<Lines>, AllocError>
    ensures { IfOk result (λ all. map numbered all.items ≡ clients_from seed count 1 clients) }
{
    let mut all = Vec::with_capacity(alloc, clients as usize)?;
    for i in 0..clients {
        let lines = generate(alloc, seed, i + 1, count)?;
        all.push_reserved(lines);
    }
    Ok(all)
}

/// The lines that are asked for, a list a client: those of the files, each of which is fetched and read before the next one is fetched, up to the first one
/// that is not accepted; or those that are made from the seed.
pub fn lines_of<R: Threads + Sync, F: Shelf>(
    rt: &R,
    alloc: Global,
    request: Request<'_>,
    shelf: &mut F,
) -> Result<Vec<Lines>, Status>
    requires { IsBounded (request_in request) }
    ensures found { IfOk result (λ all. AreLinesOf (F.content shelf.old)
        (change_of (F.fetches shelf.old) (F.fetches shelf.new) (F.faults shelf.old) (F.faults shelf.new))
        (request_in request.entry) (map numbered all.items)) }
    ensures refused { IfErr result (λ status. (words : List (List ℕ)) (options : TreeOptions) → IsLineOf words (request_in request.entry) options
        → IsCause (call_of words (F.content shelf.old)
        (change_of (F.fetches shelf.old) (F.fetches shelf.new) (F.faults shelf.old) (F.faults shelf.new))) status) }
    ensures complete { IsThere (F.content shelf.old) (request_in request.entry) → ¬ HasRisen (F.faults shelf.old) (F.faults shelf.new)
        → IfErr result (λ status. status ≡ Status.NoMemory) }
    ensures told { ¬ IsErrOf result Status.NoMemory → IsSome (F.fetches shelf.old) → IsSome (F.fetches shelf.new) }
    ensures later { F.faults shelf.old ≤ F.faults shelf.new }
{
    match request {
        Request::Files { keypos: _, names } => read_all(rt, alloc, shelf, names),
        Request::Generated {
            seed,
            clients,
            lines,
        } => match make_all(alloc, seed, clients, lines) {
            Ok(all) => Ok(all),
            Err(_) => Err(Status::NoMemory),
        },
    }
}
