//! Selections of a table over a store.
ghost use Rattle.std.specs.Prelude.{◌≡◌, ◌≢◌, ◌≤◌, IfOk, MatchOption, None, Some, false};
ghost use Rattle.ca_term.specs.Tree.{Tree};
ghost use Rattle.ca_term.specs.Object.{fits, key_of};
ghost use Rattle.ca_ets.specs.declared.command.Cmd.TheVariants.{Select, SelectRange};
ghost use Rattle.ca_ets.specs.declared.command.Fault.TheVariants.{BadArg};
ghost use Rattle.ca_match.specs.Match.{result_of};
ghost use Rattle.ca_match.specs.Specification.{IsSpecification};
ghost use Rattle.ca_ets.specs.Step.{fault_of_specification};
ghost use Rattle.ca_model.specs.Answer.{IsDone};
ghost use Rattle.ca_model.specs.Known.{Stays};
ghost use Rattle.ca_plan.specs.Plan.{shared_key};
ghost use Rattle.ca_table.specs.ComesTo.{ComesTo};
ghost use Rattle.ca_table.specs.Made.{HasMade};

use crate::codes::key_code;
use crate::follower::Follower;
use crate::outcome::{Played, Stop};
use crate::run::Collected;
use crate::table::Table;
use ca_ets::{Fault, Reply};
use ca_model::{Code, Edge, OrderedStore, Outcome};
use ca_plan::{Plan, plan};
use ca_spec::{Spec, SpecFault, compile};
use ca_term::{Term, Terms};
use std::alloc::{AllocError, Global};

// The match specification that a term is, compiled; `None` where it is none.
pub(crate) fn specification(alloc: Global, spec: &Term) -> Result<Option<Spec>, AllocError>
    ensures { IfOk result (λ compiled. MatchOption compiled (fault_of_specification spec.now ≡ Some BadArg)
        (λ c. (c ≡ spec.now) × IsSpecification spec.now)) }
{
    match compile(alloc, spec) {
        Ok(compiled) => Ok(Some(compiled)),
        Err(SpecFault::BadSpec { clause: _, why: _ }) => Ok(None),
        Err(SpecFault::NoMemory) => Err(AllocError),
    }
}

impl<S: OrderedStore + Drop, W: Follower<S>> Table<S, W> {
    /// `select`: the results of all objects that the match specification chooses, in key order, at one state. Where the specification fixes
    /// the key of the objects, that key's object alone is looked for, the call is never refused, and no call of the store is made for a key that is
    /// too long. `Err` where memory for the specification or the results wasn't found; then nothing was edited.
    pub fn select(&mut self, alloc: Global, spec: &Term, budget: u32) -> Played
        requires { 1 ≤ budget }
        ensures comes { ComesTo (S.knows self.old) (S.knows self.new) budget (Select spec.now) result }
        ensures made { HasMade S.knows S.promises W.asked (Select spec.now) self.old self.new result }
        ensures done { shared_key (S.knows self.old).keypos spec.now ≢ None → IfOk result (λ outcome. IsDone outcome) }
        ensures stays { (key : Tree) → shared_key (S.knows self.old).keypos spec.now ≡ Some key
            → fits key ≡ false → Stays (S.knows self.old) (S.knows self.new) }
    {
        let Ok(compiled) = specification(alloc, spec) else {
            return Err(AllocError);
        };
        let Some(spec) = compiled else {
            return Ok(Outcome::Done(Reply::Error(Fault::BadArg)));
        };
        match plan(alloc, &spec, self.keypos()) {
            Ok(Plan::Key(key)) => self.select_key(alloc, &spec, &key, budget),
            Ok(Plan::All) => self.select_all(alloc, &spec, budget),
            Err(_) => Err(AllocError),
        }
    }

    /// `select_range`: the results of the objects from one key to another, both included, in key order, at one state. The specification is checked
    /// first, then the lower key, then the upper one. `Err` where memory for the specification or the results wasn't found; then nothing was edited.
    pub fn select_range(
        &mut self,
        alloc: Global,
        lo: &Term,
        hi: &Term,
        spec: &Term,
        budget: u32,
    ) -> Played
        requires { 1 ≤ budget }
        ensures comes { ComesTo (S.knows self.old) (S.knows self.new) budget (SelectRange lo.now hi.now spec.now) result }
        ensures made { HasMade S.knows S.promises W.asked (SelectRange lo.now hi.now spec.now) self.old self.new result }
    {
        let Ok(compiled) = specification(alloc, spec) else {
            return Err(AllocError);
        };
        let Some(spec) = compiled else {
            return Ok(Outcome::Done(Reply::Error(Fault::BadArg)));
        };
        let mut low = Code::new();
        if let Err(fault) = key_code(lo, &mut low) {
            return Ok(Outcome::Done(Reply::Error(fault)));
        }
        let mut high = Code::new();
        if let Err(fault) = key_code(hi, &mut high) {
            return Ok(Outcome::Done(Reply::Error(fault)));
        }
        let lower = Edge::At(low.as_slice());
        let upper = Edge::At(high.as_slice());
        match self.within(alloc, &spec, lower, upper, None, budget) {
            Ok(found) => Ok(Outcome::Done(found.results.into_reply())),
            Err(Stop::Refused(refusal)) => Ok(refusal),
            Err(Stop::NoMemory) => Err(AllocError),
        }
    }

    // The results of all objects.
    fn select_all(&mut self, alloc: Global, spec: &Spec, budget: u32) -> Played
        requires budget { 1 ≤ budget }
        requires specification { IsSpecification spec.now }
        requires several { shared_key (S.knows self.old).keypos spec.now ≡ None }
        ensures comes { ComesTo (S.knows self.old) (S.knows self.new) budget (Select spec.now) result }
        ensures made { HasMade S.knows S.promises W.asked (Select spec.now) self.old self.new result }
    {
        match self.within(alloc, spec, Edge::Open, Edge::Open, None, budget) {
            Ok(found) => Ok(Outcome::Done(found.results.into_reply())),
            Err(Stop::Refused(refusal)) => Ok(refusal),
            Err(Stop::NoMemory) => Err(AllocError),
        }
    }

    // The result of the key's object, where objects with another key have none. An object whose key is too long is in no table.
    fn select_key(&mut self, alloc: Global, spec: &Spec, key: &Term, budget: u32) -> Played
        requires budget { 1 ≤ budget }
        requires specification { IsSpecification spec.now }
        requires positive { 1 ≤ (S.knows self.old).keypos }
        requires covers { (object : Tree) → result_of spec.now object ≢ None → key_of (S.knows self.old).keypos object ≡ key.now }
        ensures comes { ComesTo (S.knows self.old) (S.knows self.new) budget (Select spec.now) result }
        ensures made { HasMade S.knows S.promises W.asked (Select spec.now) self.old self.new result }
        ensures done { IfOk result (λ outcome. IsDone outcome) }
        ensures stays { fits key.now ≡ false → Stays (S.knows self.old) (S.knows self.new) }
    {
        let mut code = Code::new();
        let Ok(()) = key_code(key, &mut code) else {
            return Ok(Outcome::Done(Reply::List(Terms::new(alloc))));
        };
        let mut object = Code::new();
        if !self.get(&code, &mut object, budget) {
            return Ok(Outcome::Done(Reply::List(Terms::new(alloc))));
        }
        let mut found = Collected::new(alloc);
        let Ok(()) = found.add(alloc, spec, None, &object) else {
            return Err(AllocError);
        };
        Ok(Outcome::Done(found.results.into_reply()))
    }
}
