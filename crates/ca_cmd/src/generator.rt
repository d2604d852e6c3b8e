//! The generator: a client's commands, made from a number. Source: this project's own, with the numbers of the C standard's example of `rand`.
ghost use Rattle.std.specs.Prelude.{◌≡◌, ◌≤◌, ◌<◌, [], ◌∷◌, pos, Ok, IfOk};
ghost use Rattle.ca_term.specs.Tree.{Integer, Tuple, Nil, row_of, list_of};
ghost use Rattle.ca_cmd.specs.Generator.{command_at, command_of, drawn, drawn_command, every_object, generated, integers, next_number, range_of, start_of, two};
ghost use Rattle.ca_cmd.specs.Lines.{numbered};

use crate::kept::{Held, Place, Source, may_add};
use crate::line::Lines;
use ca_ets::Cmd;
use ca_term::{Term, TermFault, Terms, atom, cons, int, nil, tuple};
use std::alloc::{AllocError, Global};

// The numbers of the draws are below 2^31, so a product of two of them fits 64 bits.
const NUMBERS: u64 = 2_147_483_648;

// The number after a draw.
pub(crate) fn next_number(x: u32) -> u32
    ensures { result ≡ next_number x }
{
    ((u64::from(x) * 1_103_515_245 + 12_345) % NUMBERS) as u32
}

// The number from which a client's draws begin.
pub(crate) fn start_of(seed: u32, client: u32) -> u32
    requires { 1 ≤ client }
    ensures { result ≡ start_of seed client }
{
    ((u64::from(seed) + 1_000 * u64::from(client - 1)) % NUMBERS) as u32
}

// What a draw gives, with the number after it.
pub(crate) fn drawn(x: u32) -> u32
    ensures { result ≡ drawn x }
{
    x / 65_536
}

// Any refusal is for want of memory: the tuples and lists of the generator are small and shallow.
fn kept(built: Result<Term, TermFault>) -> Result<Term, AllocError>
    ensures { IfOk result (λ t. built ≡ Ok t) }
{
    match built {
        Ok(term) => Ok(term),
        Err(_) => Err(AllocError),
    }
}

// The tuple of two terms.
fn two(alloc: Global, a: Term, b: Term) -> Result<Term, AllocError>
    ensures { IfOk result (λ t. t ≡ two a b) }
{
    let mut terms = Terms::new(alloc);
    let Ok(()) = terms.push(a) else {
        return Err(AllocError);
    };
    let Ok(()) = terms.push(b) else {
        return Err(AllocError);
    };
    kept(tuple(terms))
}

// The tuple of two integers: a client's key, and an object of such a key is the tuple of the key and a value.
fn integers(alloc: Global, a: u32, b: u32) -> Result<Term, AllocError>
    ensures { IfOk result (λ t. t ≡ integers a b) }
{
    two(alloc, int(i64::from(a)), int(i64::from(b)))
}

// The object of a client's key of this number with this value.
fn object(alloc: Global, client: u32, k: u32, v: u32) -> Result<Term, AllocError>
    ensures { IfOk result (λ t. t ≡ two (integers client k) (Integer (pos v))) }
{
    two(alloc, integers(alloc, client, k)?, int(i64::from(v)))
}

// The tuple of three terms.
fn three(alloc: Global, a: Term, b: Term, c: Term) -> Result<Term, AllocError>
    ensures { IfOk result (λ t. t ≡ Tuple (row_of (a ∷ b ∷ c ∷ []))) }
{
    let mut terms = Terms::new(alloc);
    let Ok(()) = terms.push(a) else {
        return Err(AllocError);
    };
    let Ok(()) = terms.push(b) else {
        return Err(AllocError);
    };
    let Ok(()) = terms.push(c) else {
        return Err(AllocError);
    };
    kept(tuple(terms))
}

// The list of one term.
fn only(alloc: Global, term: Term) -> Result<Term, AllocError>
    ensures { IfOk result (λ t. t ≡ list_of (term ∷ []) Nil) }
{
    kept(cons(alloc, term, nil()))
}

// The match specification that chooses every object, `[{'_',[],['$_']}]`.
fn every_object(alloc: Global) -> Result<Term, AllocError>
    ensures { IfOk result (λ t. t ≡ every_object) }
{
    let body = only(alloc, kept(atom(alloc, "$_"))?)?;
    let clause = three(alloc, kept(atom(alloc, "_"))?, nil(), body)?;
    only(alloc, clause)
}

// The command of an operation, below 8, for the key of this number, with this value.
fn command_of(alloc: Global, client: u32, a: u32, k: u32, v: u32) -> Result<Cmd, AllocError>
    requires { a < 8 }
    ensures { IfOk result (λ cmd. cmd ≡ command_of client a k v) }
{
    match a {
        0 | 1 => Ok(Cmd::Insert(object(alloc, client, k, v)?)),
        2 => Ok(Cmd::InsertNew(object(alloc, client, k, v)?)),
        3 => Ok(Cmd::Lookup(integers(alloc, client, k)?)),
        4 => Ok(Cmd::Delete(integers(alloc, client, k)?)),
        5 => Ok(Cmd::Take(integers(alloc, client, k)?)),
        6 => Ok(Cmd::UpdateCounter(integers(alloc, client, k)?, int(1))),
        _ => Ok(Cmd::Next(integers(alloc, client, k)?)),
    }
}

// The objects of the client's keys from this number on, up to the one 20 behind.
fn range_of(alloc: Global, client: u32, k: u32) -> Result<Cmd, AllocError>
    requires { k < 500 }
    ensures { IfOk result (λ cmd. cmd ≡ range_of client k) }
{
    let from = integers(alloc, client, k)?;
    let to = integers(alloc, client, k + 20)?;
    Ok(Cmd::SelectRange(from, to, every_object(alloc)?))
}

// The command of the line of this number, by the number after each of its three draws.
fn command_at(
    alloc: Global,
    client: u32,
    number: u32,
    a: u32,
    k: u32,
    v: u32,
) -> Result<Cmd, AllocError>
    ensures { IfOk result (λ cmd. cmd ≡ command_at client number a k v) }
{
    if number % 16 == 0 {
        return range_of(alloc, client, drawn(k) % 500);
    }
    command_of(
        alloc,
        client,
        drawn(a) % 8,
        drawn(k) % 500,
        drawn(v) % 1_000,
    )
}

// The command of the line of this number, by the number before its draws.
#[tactic(auto, unfolding(crate::specs::Generator::drawn_command))]
pub(crate) fn drawn_command(
    alloc: Global,
    client: u32,
    number: u32,
    x: u32,
) -> Result<Cmd, AllocError>
    ensures { IfOk result (λ cmd. cmd ≡ drawn_command client number x) }
{
    let a = next_number(x);
    let k = next_number(a);
    command_at(alloc, client, number, a, k, next_number(k))
}

/// So many lines of a client, which counts from 1, made from this number: the same lines from the same numbers, always. The key of each
/// command is `{client,k}`, so no two clients have a key in common. Any `u32` is a seed; seeds that differ by a multiple of 2^31 give the same lines.
pub fn generate(alloc: Global, seed: u32, client: u32, lines: u32) -> Result<Lines, AllocError>
    requires { 1 ≤ client }
    ensures { IfOk result (λ found. numbered found ≡ generated seed client lines) }
{
    let mut held = Held::new(alloc);
    let mut x = start_of(seed, client);
    for i in 0..lines {
        let place = Place {
            number: i + 1,
            start: x,
        };
        let cmd = drawn_command(alloc, client, i + 1, x)?;
        held.add(place, may_add(&cmd))?;
        let a = next_number(x);
        let k = next_number(a);
        let v = next_number(k);
        x = v;
    }
    Ok(Lines::of(Source::Draws(client), held))
}
