//! Batches of a table over a store.
ghost use Rattle.std.specs.Prelude.{◌≡◌, ◌≤◌, ℕ, IfErr, IfOk, IfSome, MatchOption, Some, is_some, true};
ghost use Rattle.ca_term.specs.Object.{is_object};
ghost use Rattle.ca_term.specs.Tree.{Tree};
ghost use Rattle.ca_ets.specs.Command.{At, IsContinuation, continuation_of, response_of};
ghost use Rattle.ca_ets.specs.declared.command.Cmd.TheVariants.{Batch, More};
ghost use Rattle.ca_match.specs.Specification.{IsSpecification};
ghost use Rattle.ca_ets.specs.declared.command.Fault.TheVariants.{BadArg};
ghost use Rattle.ca_ets.specs.Step.{fault_of_specification, limit_of};
ghost use Rattle.ca_model.specs.Edges.{IsProperBound, bound_of};
ghost use Rattle.ca_table.specs.Collected.{HasReadToStop, IsBatch, IsNextOf, IsPlaceOf, IsStopped, going_on, reply_of_batch};
ghost use Rattle.ca_table.specs.ComesTo.{ComesToFrom};
ghost use Rattle.ca_table.specs.ResultsView.{results_of};
ghost use Rattle.ca_table.specs.Made.{HasMade, HasRead};

use crate::codes::key_code;
use crate::follower::Follower;
use crate::kept::Object;
use crate::outcome::{Played, Stop};
use crate::results::Results;
use crate::run::is_full;
use crate::select::specification;
use crate::table::Table;
use ca_ets::{Cont, Fault, Reply};
use ca_model::{Code, Edge, OrderedStore, Outcome};
use ca_spec::Spec;
use ca_term::{Kind, Term, term_order, try_copy};
use std::alloc::{AllocError, Global};

// Where a client's batches go on.
#[derive(Drop)]
pub(crate) enum Place {
    // No batch was asked for yet.
    Nowhere,
    // Behind a key, whose code is beside it.
    Behind { spec: Spec, limit: u64 },
    AtEnd,
}

impl<S: OrderedStore + Drop, W: Follower<S>> Table<S, W> {
    /// `batch`: the first results, as many as `limit` says, at one state, and whether there may be more; the manual's call is `select` with a limit.
    /// The next batch goes on behind the last object that gave one. It is refused as `badarg` where the specification is none, or the limit is no
    /// integer of at least 1. A batch alone moves the continuation: with an error, a refusal or `Err`, where memory wasn't found, it stays.
    pub fn batch(
        &mut self,
        alloc: Global,
        spec: &Term,
        limit: &Term,
        cont: &mut Cont,
        budget: u32,
    ) -> Played
        requires budget { 1 ≤ budget }
        requires continuation { IsContinuation (continuation_of cont.old) }
        ensures comes { ComesToFrom (S.knows self.old) (S.knows self.new) budget (Batch spec.now limit.now)
            (continuation_of cont.old) (continuation_of cont.new) result }
        ensures made { HasMade S.knows S.promises W.asked (Batch spec.now limit.now) self.old self.new result }
        ensures continuation { IsContinuation (continuation_of cont.new) }
    {
        let Some(limit) = limit_of(limit) else {
            return Ok(Outcome::Done(Reply::Error(Fault::BadArg)));
        };
        let Ok(compiled) = specification(alloc, spec) else {
            return Err(AllocError);
        };
        let Some(spec) = compiled else {
            return Ok(Outcome::Done(Reply::Error(Fault::BadArg)));
        };
        let Ok(source) = try_copy(alloc, spec.source()) else {
            return Err(AllocError);
        };
        match self.next_batch(alloc, spec, limit, Edge::Open, budget) {
            Ok((reply, next)) => {
                *cont = begun(source, limit, next);
                Ok(Outcome::Done(reply))
            }
            Err(Stop::Refused(refusal)) => Ok(refusal),
            Err(Stop::NoMemory) => Err(AllocError),
        }
    }

    /// `more`: the next batch, behind the key where the client's last one ended; the manual's call is `select` of a continuation. It is refused as
    /// `badarg` where the client asked for no batch yet. A batch alone moves the continuation: with an error, a refusal or `Err`, where
    /// memory wasn't found, it stays.
    pub fn more(&mut self, alloc: Global, cont: &mut Cont, budget: u32) -> Played
        requires budget { 1 ≤ budget }
        requires continuation { IsContinuation (continuation_of cont.old) }
        ensures comes { ComesToFrom (S.knows self.old) (S.knows self.new) budget More (continuation_of cont.old) (continuation_of cont.new) result }
        ensures made { HasMade S.knows S.promises W.asked More self.old self.new result }
        ensures continuation { IsContinuation (continuation_of cont.new) }
    {
        let recent = self.take_recent();
        let mut code = Code::new();
        let (spec, limit) = match place_of(alloc, cont, recent, &mut code) {
            Ok(Place::Behind { spec, limit }) => (spec, limit),
            Ok(Place::Nowhere) => return Ok(Outcome::Done(Reply::Error(Fault::BadArg))),
            Ok(Place::AtEnd) => return Ok(Outcome::Done(Reply::End)),
            Err(_) => return Err(AllocError),
        };
        match self.next_batch(alloc, spec, limit, Edge::Past(code.as_slice()), budget) {
            Ok((reply, next)) => {
                go_on(cont, next);
                Ok(Outcome::Done(reply))
            }
            Err(Stop::Refused(refusal)) => Ok(refusal),
            Err(Stop::NoMemory) => Err(AllocError),
        }
    }

    // The batch of the objects within a lower edge, and the key that the next one goes on behind, if any. The specification is kept for the client's
    // next batch.
    fn next_batch(
        &mut self,
        alloc: Global,
        spec: Spec,
        limit: u64,
        lo: Edge<'_>,
        budget: u32,
    ) -> Result<(Reply, Option<Term>), Stop>
        requires budget { 1 ≤ budget }
        requires edge { IsProperBound (bound_of lo) }
        requires limit { 1 ≤ limit }
        requires specification { IsSpecification spec }
        ensures read { IfOk result (λ _. HasRead S.promises self.old self.new) }
        ensures halted { IfErr result (λ stop. HasReadToStop S.promises self.old self.new stop) }
        ensures batch { IfOk result (λ b.
            IsBatch (S.knows self.old) (S.knows self.new) (bound_of lo.entry) spec limit (response_of b.0) (going_on spec limit b.1)) }
        ensures next { IfOk result (λ b. IsContinuation (going_on spec limit b.1)) }
        ensures stopped { IfErr result (λ stop. IsStopped (S.knows self.old) (S.knows self.new) budget stop) }
    {
        let found = self.batch_within(alloc, &spec, limit, lo, budget);
        self.keep_recent(spec);
        found
    }

    // The batch of the objects within a lower edge, and the key.
    fn batch_within(
        &mut self,
        alloc: Global,
        spec: &Spec,
        limit: u64,
        lo: Edge<'_>,
        budget: u32,
    ) -> Result<(Reply, Option<Term>), Stop>
        requires budget { 1 ≤ budget }
        requires edge { IsProperBound (bound_of lo) }
        requires limit { 1 ≤ limit }
        requires specification { IsSpecification spec.now }
        ensures read { IfOk result (λ _. HasRead S.promises self.old self.new) }
        ensures halted { IfErr result (λ stop. HasReadToStop S.promises self.old self.new stop) }
        ensures batch { IfOk result (λ b.
            IsBatch (S.knows self.old) (S.knows self.new) (bound_of lo.entry) spec.now limit (response_of b.0) (going_on spec.now limit b.1)) }
        ensures next { IfOk result (λ b. IsContinuation (going_on spec.now limit b.1)) }
        ensures stopped { IfErr result (λ stop. IsStopped (S.knows self.old) (S.knows self.new) budget stop) }
    {
        let keypos = self.keypos();
        let found = match self.within(alloc, spec, lo, Edge::Open, Some(limit), budget) {
            Ok(found) => found,
            Err(stop) => return Err(stop),
        };
        let full = is_full(Some(limit), found.results.len());
        let Ok(next) = next_of(alloc, keypos, found.last, full) else {
            return Err(Stop::NoMemory);
        };
        Ok((reply_of(found.results, full), next))
    }
}

// How many results a batch asks for: an integer of at least 1.
fn limit_of(limit: &Term) -> Option<u64>
    ensures { result ≡ limit_of limit.now }
{
    match limit.kind() {
        Kind::Int(count) if count >= 1 => Some(count as u64),
        _ => None,
    }
}

// Where a client's batches go on; then `code` is the code of the key that they stand behind. The specification of the last batch is taken where it is
// the client's.
fn place_of(
    alloc: Global,
    cont: &Cont,
    recent: Option<Spec>,
    code: &mut Code,
) -> Result<Place, AllocError>
    requires { IsContinuation (continuation_of cont.now) }
    ensures { IfOk result (λ place. IsPlaceOf (continuation_of cont.now) place code.new.items) }
{
    match cont {
        Cont::Never => Ok(Place::Nowhere),
        Cont::AtEnd => Ok(Place::AtEnd),
        Cont::At { spec, limit, key } => {
            let Ok(()) = key_code(key, code) else {
                unreachable!()
            };
            let Ok(compiled) = specification_again(alloc, spec, recent) else {
                return Err(AllocError);
            };
            let Some(spec) = compiled else { unreachable!() };
            Ok(Place::Behind {
                spec,
                limit: *limit,
            })
        }
    }
}

// The match specification that a term is: the one that was compiled last, where it is of this term, or else compiled now.
fn specification_again(
    alloc: Global,
    spec: &Term,
    recent: Option<Spec>,
) -> Result<Option<Spec>, AllocError>
    ensures { IfOk result (λ compiled. MatchOption compiled (fault_of_specification spec.now ≡ Some BadArg)
        (λ c. (c ≡ spec.now) × IsSpecification spec.now)) }
{
    match recent {
        Some(own) if term_order(own.source(), spec).is_eq() => Ok(Some(own)),
        _ => specification(alloc, spec),
    }
}

// The reply with the results of a batch, which are as many as were wanted, or the last ones.
fn reply_of(results: Results, full: bool) -> Reply
    ensures { response_of result ≡ reply_of_batch full (results_of results) }
{
    if !full && results.len() == 0 {
        Reply::End
    } else {
        results.into_batch(full)
    }
}

// The key that the next batch goes on behind, where there are as many results as were wanted: that of the last object with one.
fn next_of(
    alloc: Global,
    keypos: u32,
    last: Option<Object>,
    full: bool,
) -> Result<Option<Term>, AllocError>
    requires keypos { 1 ≤ keypos }
    requires last { full ≡ true → is_some last ≡ true }
    requires object { IfSome last (λ o. is_object keypos o ≡ true) }
    ensures { IfOk result (λ next. (spec : Tree) (limit : ℕ) → IsNextOf keypos spec limit last full (going_on spec limit next)) }
{
    if !full {
        return Ok(None);
    }
    let Some(object) = last else { unreachable!() };
    let key = object.key(alloc, keypos)?;
    Ok(Some(key))
}

// Where the batches of a client who began them go on.
fn begun(spec: Term, limit: u64, next: Option<Term>) -> Cont
    ensures { continuation_of result ≡ going_on spec limit next }
{
    match next {
        Some(key) => Cont::At { spec, limit, key },
        None => Cont::AtEnd,
    }
}

// Lets a client's batches go on behind this key, or at the end. What they are of isn't touched.
fn go_on(cont: &mut Cont, next: Option<Term>)
    ensures { (spec : Tree) (limit : ℕ) (key : Tree) → continuation_of cont.old ≡ At spec limit key → continuation_of cont.new ≡ going_on spec limit next }
{
    match next {
        Some(next) => {
            if let Cont::At { key, .. } = cont {
                *key = next;
            }
        }
        None => *cont = Cont::AtEnd,
    }
}
