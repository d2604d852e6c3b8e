//! Clients of a tree, each with a pass, a table, and a file of its own for each round, which note what their lines were answered.
ghost use Rattle.std.specs.Prelude.{◌≡◌, None};
ghost use Rattle.ca_ets.specs.Command.{IsContinuation, continuation_of};
ghost use Rattle.ca_replace.specs.Resting.{knows};

use crate::draws::Draws;
use crate::gate::Gate;
use crate::keys::{KINDS, Keys};
use crate::made::Maker;
use crate::player::{lines_of, put_reply, read_all};
use ca_cmd::Line;
use ca_ets::{Cmd, Cont};
use ca_model::Outcome;
use ca_replace::TreeStore;
use ca_table::Table;
use std::alloc::{AllocError, Global};
use std::hint::spin_loop;
use std::thread::{sleep, yield_now};
use std::time::{Clock, Duration};

/// How many rounds clients play on one tree.
pub(crate) const ROUNDS: u32 = 20;

// How often a line that is refused is tried again, a millisecond later each time: while another client's thread is kept from going on in the middle
// of a call, rows that were retired since can't come free.
const TRIES: u32 = 30_000;

/// Which files a client plays: by the number of the tree, and its own one, from 0 on; each file has at least and at most so many lines. The budget says
/// how many turns a line may lose to other clients before it is refused.
#[derive(Clone, Copy)]
pub(crate) struct Script {
    pub tree: u32,
    pub number: u32,
    pub least: u32,
    pub most: u32,
    pub budget: u32,
}

impl Script {
    /// The lines of a round.
    pub(crate) fn lines(self, alloc: Global, round: u32) -> Result<Vec<Line>, AllocError> {
        let keys = Keys {
            count: 6,
            kind: self.tree % KINDS,
        };
        let place = round.wrapping_mul(4).wrapping_add(self.number);
        let start = self.tree.wrapping_mul(1_000).wrapping_add(place);
        let mut maker = Maker::new(start, keys, 0, place.wrapping_mul(100));
        let more = maker.below(self.most.saturating_sub(self.least).saturating_add(1));
        let file = maker.file(alloc, self.least.saturating_add(more))?;
        lines_of(alloc, file.as_slice())
    }
}

/// What a client noted of a round: the text of each answer; and the first client that of the table behind the round.
#[derive(Drop)]
pub(crate) struct Noted {
    pub answers: Vec<Vec<u8>>,
    pub end: Vec<u8>,
}

// A client on its thread, and what it noted.
#[derive(Drop)]
struct Client<'t> {
    table: Table<TreeStore<'t>>,
    script: Script,
    noted: Vec<Noted>,
    wrong: u32,
}

impl Client<'_> {
    // Plays all rounds. All clients begin a round together, and end it together.
    fn carry_out(&mut self, clock: &impl Clock, alloc: Global, gate: &Gate) {
        for round in 0..ROUNDS {
            let lines = self.script.lines(alloc, round);
            let come = gate.pass(clock, round * 2 + 1);
            let answers = self.play(clock, alloc, round, lines);
            let left = gate.pass(clock, round * 2 + 2);
            if !come || !left || self.note(clock, alloc, answers).is_err() {
                self.wrong = self.wrong.saturating_add(1);
            }
        }
    }

    // Plays the lines of a round, with the answers.
    fn play(
        &mut self,
        clock: &impl Clock,
        alloc: Global,
        round: u32,
        lines: Result<Vec<Line>, AllocError>,
    ) -> Result<Vec<Vec<u8>>, AllocError> {
        let lines = lines?;
        let mut draws = Draws::new(round.wrapping_mul(4).wrapping_add(self.script.number));
        let mut cont = Cont::Never;
        let mut answers = Vec::new(alloc);
        for line in lines.as_slice() {
            pause(round, &mut draws);
            answers.push(self.answer(clock, alloc, &line.cmd, &mut cont)?)?;
        }
        Ok(answers)
    }

    // Notes a round. The first client reads the table, while all others wait for it.
    fn note(
        &mut self,
        clock: &impl Clock,
        alloc: Global,
        answers: Result<Vec<Vec<u8>>, AllocError>,
    ) -> Result<(), AllocError> {
        let answers = answers?;
        let mut end = Vec::new(alloc);
        if self.script.number == 0 {
            for line in read_all(alloc)?.as_slice() {
                end = self.answer(clock, alloc, &line.cmd, &mut Cont::Never)?;
            }
        }
        Ok(self.noted.push(Noted { answers, end })?)
    }

    // The text of the reply to a command, which is tried again where it was refused.
    fn answer(
        &mut self,
        clock: &impl Clock,
        alloc: Global,
        cmd: &Cmd,
        cont: &mut Cont,
    ) -> Result<Vec<u8>, AllocError>
        requires { IsContinuation (continuation_of cont.old) }
        ensures { IsContinuation (continuation_of cont.new) }
    {
        let budget = self.script.budget.max(1);
        for turn in 0..TRIES {
            if turn > 0 {
                sleep(clock, Duration::from_millis(1));
            }
            if let Outcome::Done(reply) = self.table.apply(alloc, cmd, cont, budget)? {
                let mut text = Vec::new(alloc);
                put_reply(reply, &mut text)?;
                return Ok(text);
            }
        }
        Err(AllocError)
    }
}

/// What a client noted in all rounds, in how many something was refused for good, found no memory, or waited in vain, and how many bases it split and joined.
#[derive(Drop)]
pub(crate) struct Log {
    pub noted: Vec<Noted>,
    pub wrong: u32,
    pub splits: u64,
    pub joins: u64,
}

/// A client's part: the store of its pass, and its files.
pub(crate) struct Part<'t> {
    store: TreeStore<'t>,
    script: Script,
    pub ghost first: { store.store.z.keypos ≡ 1 },
    pub ghost closed: { (knows store).run ≡ None },
}

impl Drop for Part<'_> {
    fn drop(self) {
        let Self {
            store: _,
            script: _,
        } = self;
    }
}

impl<'t> Part<'t> {
    /// The part of a client of this store.
    pub(crate) fn new(store: TreeStore<'t>, script: Script) -> Part<'t>
        requires first { store.store.z.keypos ≡ 1 }
        requires closed { (knows store).run ≡ None }
    {
        Part { store, script }
    }

    /// Plays all rounds.
    pub(crate) fn carry_out(self, clock: &impl Clock, alloc: Global, gate: &Gate) -> Log {
        let Self { store, script } = self;
        let mut client = Client {
            table: Table::new(store, 1),
            script,
            noted: Vec::new(alloc),
            wrong: 0,
        };
        client.carry_out(clock, alloc, gate);
        let (splits, joins) = client.table.into_store().adapted();
        Log {
            noted: client.noted,
            wrong: client.wrong,
            splits,
            joins,
        }
    }
}

// What comes between two lines of a round: nothing, some hundred nanoseconds, or another thread's turn.
fn pause(round: u32, draws: &mut Draws) {
    match round % 3 {
        0 => {}
        1 => {
            for _ in 0..draws.below(100) {
                spin_loop();
            }
        }
        _ => yield_now(),
    }
}
