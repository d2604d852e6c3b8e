//! A store with a script.
ghost use Rattle.std.specs.Prelude.{◌≡◌, ◌≤◌, ◌∷◌, ◌++◌, [], None, false, true, IfOk, IfErr, OnOk, OnErr};
ghost use Rattle.ca_term.specs.declared.bounds.TheConstants.{MOST_ELEMENTS};
ghost use Rattle.ca_model.specs.Known.{Stays};
ghost use Rattle.ca_test_store.specs.Script.{IsProperTurn};
ghost use Rattle.ca_test_store.specs.Inner.{Begins, Refuses};

use crate::foreign::Foreign;
use crate::inner;
use crate::refusal::{Call, Refusal};
use crate::tally::Tally;
use crate::turn::{Turn, take_turn};
use ca_model::{Changed, Code, Edge, OrderedStore, Outcome, Plain};
use std::alloc::{AllocError, Global};
use std::collections::VecDeque;
use std::marker::Model;

/// A store whose map others edit by a script, and which refuses calls by it. It serves to run whatever stands over a store through every
/// answer that a shared store may give.
///
/// Each call but `reserve`, `found` and `close_run` takes the script's next turn. It learns of the others' edits that the turn has before its own,
/// makes its own or is refused, and learns of those that the turn has behind it. A `get` is never refused, and a call that puts no new key never
/// for want of levels: their turns count as if they said no refusal there. A run is never cut, and the edits that the turn of its call has behind
/// it don't show in it. Behind the last turn nothing is learnt and nothing refused. Contracts see what is known of the store, the turns that are
/// left, and for how many objects there is room.
#[derive(Drop)]
pub struct Scripted {
    alloc: Global,
    objects: Plain,
    turns: VecDeque<Turn>,
    tally: Tally,
    // for how many new keys of its own there is room, beside that for the script's
    spare: usize,
    // how many turns the script had in all
    made: usize,
    // others' edits behind the state of the open run: they are known, and made in `objects` once the run is ended
    waiting: Vec<Foreign>,
    // the budget of the last call that took a turn
    last_budget: u32,
}

impl Model for Scripted {
    ghost use Rattle.ca_test_store.specs.Script.{ScriptedStore};

    ghost Value = { ScriptedStore };

    ghost use Rattle.ca_test_store.specs.ScriptedView.{store_of, IsKept};

    ghost view = { store_of };

    ghost invariant = { IsKept };
}

impl Scripted {
    /// A store with no objects and an empty script; element number `keypos` of an object, counted from 1, is its key. It takes no memory.
    pub fn new(alloc: Global, keypos: u32) -> Scripted
        requires { (1 ≤ keypos) × (keypos ≤ MOST_ELEMENTS) }
        ensures keypos { result.known.keypos ≡ keypos }
        ensures map { result.known.map ≡ [] }
        ensures pass { result.known.pass ≡ 1 }
        ensures passes { result.known.passes ≡ 2 }
        ensures alone { result.known.alone ≡ false }
        ensures sure { result.known.sure ≡ false }
        ensures seen { result.known.seen ≡ None }
        ensures counts { result.known.counts ≡ record { busy = 0; full = 0; deep = 0; worn = 0; last = None } }
        ensures closed { result.known.run ≡ None }
        ensures turns { result.turns ≡ [] }
    {
        Scripted {
            alloc,
            objects: Plain::new(alloc, keypos),
            turns: VecDeque::new(alloc),
            tally: Tally::new(),
            spare: 0,
            made: 0,
            waiting: Vec::new(alloc),
            last_budget: 0,
        }
    }

    /// Which element of an object is its key, counted from 1.
    pub fn keypos(&self) -> u32
        ensures value { result ≡ self.now.known.keypos }
        ensures range { (1 ≤ result) × (result ≤ MOST_ELEMENTS) }
    {
        self.objects.keypos()
    }

    /// The budget of the last call that took a turn; 0 where none did. Contracts don't tell it.
    pub fn last_budget(&self) -> u32 {
        self.last_budget
    }

    /// Adds a turn behind the others, and makes room for its edits. Without memory for them the script stays as it is.
    pub fn add_turn(&mut self, turn: Turn) -> Result<(), AllocError>
        requires { IsProperTurn self.old.known.keypos turn }
        ensures added { OnOk result (self.new.turns ≡ self.old.turns ++ turn ∷ []) }
        ensures not_added { OnErr result (self.new.turns ≡ self.old.turns) }
        ensures stays { Stays self.old.known self.new.known }
    {
        let Some(made) = self.made.checked_add(1) else {
            return Err(AllocError);
        };
        let Ok(()) = inner::add_rooms(&mut self.objects, turn.before().len()) else {
            return Err(AllocError);
        };
        let Ok(()) = inner::add_rooms(&mut self.objects, turn.after().len()) else {
            return Err(AllocError);
        };
        let Ok(()) = self.turns.push_back(turn) else {
            return Err(AllocError);
        };
        self.made = made;
        Ok(())
    }

    // Takes the next turn, for a call with this budget, and learns of the edits before the call's own; where it refuses a call of this kind,
    // also of those behind it.
    fn begin(&mut self, asked: Call, budget: u32) -> Result<Turn, Refusal>
        requires { self.old.known.run ≡ None }
        ensures begins { IfOk result (λ turn. Begins self.old self.new asked turn) }
        ensures refuses { IfErr result (λ refusal. Refuses self.old self.new asked budget refusal) }
    {
        self.last_budget = budget;
        let turn = take_turn(&mut self.turns, self.alloc);
        inner::make(&mut self.objects, turn.before());
        let Some(refusal) = turn.refusal_at(asked) else {
            return Ok(turn);
        };
        self.tally.count(refusal, budget);
        inner::make(&mut self.objects, turn.after());
        Err(refusal)
    }
}

impl OrderedStore for Scripted {
    ghost knows = { λ s. s.known };

    ghost use Rattle.ca_test_store.specs.Promises.{script_promises};

    ghost promises = { script_promises };

    fn reserve(&mut self) -> Result<(), AllocError> {
        if self.spare > 0 {
            return Ok(());
        }
        let Ok(()) = self.objects.add_room() else {
            return Err(AllocError);
        };
        self.spare = 1;
        Ok(())
    }

    fn get(&mut self, key: &[u8], into: &mut Code, budget: u32) -> Outcome<bool> {
        let Ok(turn) = self.begin(Call::Get, budget) else {
            unreachable!()
        };
        let found = inner::get(&mut self.objects, key, into);
        inner::make(&mut self.objects, turn.after());
        Outcome::Done(found)
    }

    fn put(&mut self, object: &[u8], key_at: usize, key_end: usize, budget: u32) -> Outcome<()> {
        let turn = match self.begin(Call::Put, budget) {
            Ok(turn) => turn,
            Err(refusal) => return refusal.outcome(budget),
        };
        inner::put(&mut self.objects, object, key_at, key_end);
        inner::make(&mut self.objects, turn.after());
        self.spare -= 1;
        Outcome::Done(())
    }

    fn put_new(
        &mut self,
        object: &[u8],
        key_at: usize,
        key_end: usize,
        budget: u32,
    ) -> Outcome<bool> {
        let turn = match self.begin(Call::Put, budget) {
            Ok(turn) => turn,
            Err(refusal) => return refusal.outcome(budget),
        };
        let new = inner::put_new(&mut self.objects, object, key_at, key_end);
        inner::make(&mut self.objects, turn.after());
        self.spare -= 1;
        Outcome::Done(new)
    }

    fn remove(&mut self, key: &[u8], old: &mut Code, budget: u32) -> Outcome<bool> {
        let turn = match self.begin(Call::Other, budget) {
            Ok(turn) => turn,
            Err(refusal) => {
                old.clear();
                return refusal.outcome(budget);
            }
        };
        let was = inner::remove(&mut self.objects, key, old);
        inner::make(&mut self.objects, turn.after());
        Outcome::Done(was)
    }

    fn remove_if<F: Fn(&[u8]) -> bool>(
        &mut self,
        key: &[u8],
        f: &F,
        old: &mut Code,
        budget: u32,
    ) -> Outcome<Changed> {
        let turn = match self.begin(Call::Other, budget) {
            Ok(turn) => turn,
            Err(refusal) => {
                old.clear();
                return refusal.outcome(budget);
            }
        };
        let changed = inner::remove_if(&mut self.objects, key, f, old);
        inner::make(&mut self.objects, turn.after());
        Outcome::Done(changed)
    }

    fn change<F: Fn(&[u8], &mut Code, &mut usize) -> bool>(
        &mut self,
        key: &[u8],
        f: &F,
        old: &mut Code,
        budget: u32,
    ) -> Outcome<Changed> {
        let turn = match self.begin(Call::Other, budget) {
            Ok(turn) => turn,
            Err(refusal) => {
                old.clear();
                return refusal.outcome(budget);
            }
        };
        let changed = inner::change(&mut self.objects, key, f, old);
        inner::make(&mut self.objects, turn.after());
        Outcome::Done(changed)
    }

    fn above(&mut self, lo: Edge<'_>, into: &mut Code, budget: u32) -> Outcome<bool> {
        let turn = match self.begin(Call::Other, budget) {
            Ok(turn) => turn,
            Err(refusal) => {
                into.clear();
                return refusal.outcome(budget);
            }
        };
        let found = inner::above(&mut self.objects, lo, into);
        inner::make(&mut self.objects, turn.after());
        Outcome::Done(found)
    }

    fn below(&mut self, hi: Edge<'_>, into: &mut Code, budget: u32) -> Outcome<bool> {
        let turn = match self.begin(Call::Other, budget) {
            Ok(turn) => turn,
            Err(refusal) => {
                into.clear();
                return refusal.outcome(budget);
            }
        };
        let found = inner::below(&mut self.objects, hi, into);
        inner::make(&mut self.objects, turn.after());
        Outcome::Done(found)
    }

    fn range<F: Fn(&[u8]) -> bool>(
        &mut self,
        lo: Edge<'_>,
        hi: Edge<'_>,
        want: u32,
        counts: &F,
        budget: u32,
    ) -> Outcome<bool> {
        let turn = match self.begin(Call::Other, budget) {
            Ok(turn) => turn,
            Err(told) => return told.outcome(budget),
        };
        inner::range(&mut self.objects, lo, hi, want, counts);
        self.waiting = turn.into_after();
        Outcome::Done(true)
    }

    fn found(&mut self, into: &mut Code) -> bool {
        self.objects.found(into)
    }

    fn close_run(&mut self) {
        self.objects.close_run();
        inner::make(&mut self.objects, self.waiting.as_slice());
        self.waiting.clear();
    }
}
