//! A client plays its lines. One that others kept from being done is tried again, with a greater budget or after a wait.
ghost use Rattle.std.specs.Prelude.{◌≡◌, ◌*◌, ◌≤◌, ◌<◌, ◌⊎◌, min, IfOk, OnErr, IsSome, None, MatchBool};
ghost use Rattle.ca_ets.specs.Command.{IsContinuation, continuation_of};
ghost use Rattle.ca_cmd.specs.Answers.{answer_of};
ghost use Rattle.ca_cmd.specs.File.{commands_in};
ghost use Rattle.ca_cmd.specs.Lines.{numbered};
ghost use Rattle.ca_client.specs.Chain.{HasBeenAnswered};
ghost use Rattle.ca_client.specs.Played.{HasAnswered, HasRead, HasStopped};
ghost use Rattle.ca_client.specs.Told.{HasTold};

use crate::gate::Gate;
use ca_cmd::{Answer, Answers, Lines};
use ca_ets::{Cmd, Cont};
use ca_model::{FullCause, OrderedStore, Outcome};
use ca_table::{Follower, Table};
use std::alloc::{AllocError, Global};
use std::sync::Wait;
use std::thread::yield_now;

// How many turns a command may lose to others at its first try, and at most.
const FIRST_BUDGET: u32 = 64;

const MOST_BUDGET: u32 = 1 << 31;

/// How often a command waits for room.
pub(crate) const MOST_WAITS: u32 = 1_000;

// Whether it is worth to wait for room: rows come free when the pass that lags goes on.
fn is_worth_a_wait(why: FullCause, waits: u32) -> bool
    ensures { MatchBool result (IsSome why.lag × (waits < 1000)) ((why.lag ≡ None) ⊎ (1000 ≤ waits)) }
{
    match why.lag {
        Some(_) => waits < MOST_WAITS,
        None => false,
    }
}

// How often other threads are let run in one wait at most.
const MOST_YIELDS: u32 = 2_000;

// How often other threads are let run in the wait of this number, counted from 1. Where other programs have taken all processors, a yield often comes back
// before the thread whose pass lags ran again, and a thousand waits of a few yields each are over while it stands still. So waits grow fast.
fn yields_in(wait: u32) -> u32
    ensures { result ≡ min 2000 (wait * wait) }
{
    wait.saturating_mul(wait).min(MOST_YIELDS)
}

/// Lets other threads run, in the wait of this number, counted from 1.
pub(crate) fn pause(wait: u32) {
    for _ in 0..yields_in(wait) {
        yield_now();
    }
}

// Behind how many of its lines that found no room a client lets other threads run.
const MOST_RESTS: u32 = 50;

// What is done behind an answer, where so many lines before it found no room; how many there are now. The refusal stands; but clients that ended may give
// rows back as soon as their threads run, which were waiting for this client's pass to go on, and then the lines that follow find room.
fn rest(answer: &Answer, refused: u32) -> u32 {
    match answer {
        Answer::Full => {
            if refused < MOST_RESTS {
                pause(refused + 1);
            }
            refused.saturating_add(1)
        }
        _ => refused,
    }
}

// What is done behind each line: where the store keeps many rows since the pass of another client lags, as the system has stopped its thread, other threads
// are let run, the longer the more lines in a row that was so; how many lines that are now. Else clients that go on would take all rows meanwhile, and keep
// them when that pass has gone on, until their own threads run again.
fn let_others_go_on<S: OrderedStore + Drop, W: Follower<S>>(
    table: &Table<S, W>,
    held_up: u32,
) -> u32 {
    if !table.is_held_up() {
        return 0;
    }
    let held_up = held_up.saturating_add(1);
    pause(held_up);
    held_up
}

// Plays one command until it is answered.
fn answer_to<R: Wait, S: OrderedStore + Drop, W: Follower<S>>(
    rt: &R,
    alloc: Global,
    table: &mut Table<S, W>,
    cmd: &Cmd,
    cont: &mut Cont,
) -> Result<Answer, AllocError>
    requires { IsContinuation (continuation_of cont.old) }
    ensures continuation { IsContinuation (continuation_of cont.new) }
    ensures answered { IfOk result (λ answer.
        HasAnswered (S.knows table.old) (S.knows table.new) (continuation_of cont.old) cmd.now (answer_of answer) (continuation_of cont.new)) }
    ensures made { IfOk result (λ answer. HasBeenAnswered S.knows S.promises W.asked cmd.now (answer_of answer) table.old table.new) }
    ensures stopped { OnErr result (HasRead (S.knows table.old) (S.knows table.new)) }
{
    let mut budget = FIRST_BUDGET;
    let mut waits = 0_u32;
    for _ in rt.forever() {
        match table.apply(alloc, cmd, cont, budget)? {
            Outcome::Done(reply) => return Ok(Answer::Replied(reply)),
            Outcome::Busy(_) => {
                if budget < MOST_BUDGET {
                    budget *= 2;
                }
            }
            Outcome::Full(why) => {
                if !is_worth_a_wait(why, waits) {
                    return Ok(Answer::Full);
                }
                waits += 1;
                pause(waits);
            }
            Outcome::Deep(_) => return Ok(Answer::Deep),
            Outcome::Worn(_) => return Ok(Answer::Worn),
        }
    }
    unreachable!()
}

/// Plays the lines of a client, in order, as the client of this number, counted from 1: each has one answer, and the gate is told of each before it is
/// played and behind it. A line that is busy is played again with twice the budget, from 64 up to 2^31, until it is answered; one that finds no room
/// while another pass lags waits and is played again, 1,000 times at most. Behind a line that found no room, or that leaves the store held up by others,
/// other threads are let run. Each command is made from the text of its line when it is played, and an answer is text as soon as it was given. `Err` where
/// memory wasn't found; what was played before stands.
pub fn play<R: Wait, S: OrderedStore + Drop, W: Follower<S>, G: Gate>(
    rt: &R,
    alloc: Global,
    client: u32,
    table: &mut Table<S, W>,
    lines: &Lines,
    gate: &G,
) -> Result<Answers, AllocError>
    ensures played { IfOk result (λ told. HasTold S.knows S.promises W.asked table.old table.new (numbered lines.now) told) }
    ensures stopped { OnErr result (HasStopped (S.knows table.old) (S.knows table.new) (commands_in (numbered lines.now))) }
{
    let mut cont = Cont::Never;
    let mut answers = Answers::new(alloc);
    let mut refused = 0_u32;
    let mut held_up = 0_u32;
    for at in 0..lines.len() {
        let line = lines.line(alloc, at)?;
        gate.before(client, line.number);
        let answer = answer_to(rt, alloc, table, &line.cmd, &mut cont)?;
        gate.after(client, line.number, &answer);
        refused = rest(&answer, refused);
        held_up = let_others_go_on(table, held_up);
        answers.add(line.number, &answer)?;
    }
    Ok(answers)
}
