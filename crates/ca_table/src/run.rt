//! Results of the objects of a run.
ghost use Rattle.std.specs.Prelude.{◌≡◌, ◌≤◌, [], IfErr, IfOk, IfSome, OnOk, None, Some, true, length, if◌then◌else◌};
ghost use Rattle.ca_term.specs.Code.{code_of};
ghost use Rattle.ca_term.specs.Tree.{IsTerm, Tree};
ghost use Rattle.ca_order.specs.Languages.{IsTermCode};
ghost use Rattle.ca_spec.specs.SieveView.{IsSieveOf};
ghost use Rattle.ca_model.specs.Edges.{IsProperBound, bound_of};
ghost use Rattle.ca_model.specs.Known.{StaysBesideRun};
ghost use Rattle.ca_table.specs.ResultsView.{results_of};
ghost use Rattle.ca_table.specs.Collected.{AddsObject, AreCollected, AreWithin, CountsOnly, HasNoResult, HasReadToStop, IsOpenRun, IsStopped, WasAsked, is_full, left_of, wanted};
ghost use Rattle.ca_table.specs.Made.{HasRead};

use crate::kept::Object;
use crate::outcome::{Stop, done};
use crate::results::Results;
use ca_model::{Code, Edge, OrderedStore};
use ca_spec::{Found, Sieve, Spec, apply_code, chooses, told_by_code};
use std::alloc::{AllocError, Global};

// What is collected of a run: results in key order, and the last object that gave one, where there are as many as are wanted.
#[derive(Drop)]
pub(crate) struct Collected {
    pub results: Results,
    pub last: Option<Object>,
    // how many of the newest objects had a result, one after the other
    in_a_row: u32,
}

// Behind so many objects in a row with a result a sieve would seldom stop one.
const MANY: u32 = 16;

impl Collected {
    // Nothing yet.
    pub(crate) fn new(alloc: Global) -> Collected
        ensures results { results_of result.results ≡ [] }
        ensures last { result.last ≡ None }
    {
        Collected {
            results: Results::new(alloc),
            last: None,
            in_a_row: 0,
        }
    }

    // With the result of the object of this code, if the specification gives it one. The object itself is kept where there are as many results then as are
    // wanted: the next batch goes on behind it.
    pub(crate) fn add(
        &mut self,
        alloc: Global,
        spec: &Spec,
        limit: Option<u64>,
        code: &Code,
    ) -> Result<(), AllocError>
        requires { IsTermCode code.now.items }
        ensures { OnOk result (AddsObject limit spec.now code.now.items (results_of self.old.results) self.old.last (results_of self.new.results) self.new.last) }
    {
        match told_by_code(spec, code.as_slice()) {
            Some(Some(part)) => {
                self.results.push(alloc, Found::Coded(part))?;
                self.keep(limit, code);
                Ok(())
            }
            Some(None) => Ok(()),
            None => self.add_found(alloc, spec, limit, code),
        }
    }

    // The same where the code alone doesn't tell.
    #[inline(never)]
    fn add_found(
        &mut self,
        alloc: Global,
        spec: &Spec,
        limit: Option<u64>,
        code: &Code,
    ) -> Result<(), AllocError>
        requires { IsTermCode code.now.items }
        ensures { OnOk result (AddsObject limit spec.now code.now.items (results_of self.old.results) self.old.last (results_of self.new.results) self.new.last) }
    {
        let Some(found) = apply_code(alloc, spec, code.as_slice())? else {
            return Ok(());
        };
        self.results.push(alloc, found)?;
        self.keep(limit, code);
        Ok(())
    }

    // The same where there may be a sieve of the specification. It isn't asked behind many objects in a row with a result, up to the next one without.
    #[inline(always)]
    #[tactic(auto, using(crate::proofs::Collecting::adds_none))]
    fn sift(
        &mut self,
        alloc: Global,
        spec: &Spec,
        sieve: Option<Sieve<'_>>,
        limit: Option<u64>,
        code: &Code,
    ) -> Result<(), AllocError>
        requires code { IsTermCode code.now.items }
        requires sieve { IfSome sieve (λ sieve. IsSieveOf spec.now sieve) }
        ensures { OnOk result (AddsObject limit spec.now code.now.items (results_of self.old.results) self.old.last (results_of self.new.results) self.new.last) }
    {
        if self.in_a_row < MANY && stops(sieve, code.as_slice()) {
            self.in_a_row = 0;
            Ok(())
        } else {
            let before = self.results.len();
            self.add(alloc, spec, limit, code)?;
            self.in_a_row = if before < self.results.len() {
                self.in_a_row.saturating_add(1)
            } else {
                0
            };
            Ok(())
        }
    }

    // With the object of this code where there are as many results as are wanted.
    #[inline(always)]
    fn keep(&mut self, limit: Option<u64>, code: &Code)
        requires { IsTermCode code.now.items }
        ensures results { self.new.results ≡ self.old.results }
        ensures last { (o : Tree) → IsTerm o → code.now.items ≡ code_of o
            → self.new.last ≡ (if is_full limit (length (results_of self.old.results)) then Some o else self.old.last) }
    {
        if is_full(limit, self.results.len()) {
            self.set_last(code);
        }
    }

    // With the object of this code. It stands apart, since a function clears the room of all its values at each call, and an object is long.
    #[inline(never)]
    fn set_last(&mut self, code: &Code)
        requires { IsTermCode code.now.items }
        ensures results { self.new.results ≡ self.old.results }
        ensures last { (o : Tree) → IsTerm o → code.now.items ≡ code_of o → self.new.last ≡ Some o }
    {
        self.last = Some(Object::of(code));
    }
}

// Whether so many results are as many as are wanted; without a limit none are.
pub(crate) fn is_full(limit: Option<u64>, found: usize) -> bool
    ensures { result ≡ is_full limit found }
{
    match limit {
        Some(limit) => limit <= found as u64,
        None => false,
    }
}

// Whether a sieve tells of the object of this code that it has no result.
#[inline(always)]
#[tactic(auto, using(crate::proofs::Collecting::stopped_none))]
fn stops(sieve: Option<Sieve<'_>>, code: &[u8]) -> bool
    requires { IsTermCode code.now }
    ensures { result ≡ true → (s : Tree) → IfSome sieve.entry (λ sieve. IsSieveOf s sieve) → HasNoResult s code.now }
{
    match sieve {
        Some(sieve) => !sieve.passes(code),
        None => false,
    }
}

// Collects the results of the open run, as many as are wanted, or all. Only objects are handed out.
fn collect<S: OrderedStore>(
    store: &mut S,
    alloc: Global,
    spec: &Spec,
    sieve: Option<Sieve<'_>>,
    limit: Option<u64>,
) -> Result<Collected, AllocError>
    requires run { IsOpenRun (S.knows store.old) }
    requires sieve { IfSome sieve (λ sieve. IsSieveOf spec.now sieve) }
    ensures collected { IfOk result (λ c. AreCollected (S.knows store.old).keypos spec.now limit (left_of (S.knows store.old)) (results_of c.results) c.last) }
    ensures stays { StaysBesideRun (S.knows store.old) (S.knows store.new) }
    ensures read { HasRead S.promises store.old store.new }
{
    let mut collected = Collected::new(alloc);
    let mut code = Code::new();
    'objects: while !is_full(limit, collected.results.len()) {
        if !store.found(&mut code) {
            return Ok(collected);
        }
        collected.sift(alloc, spec, sieve, limit, &code)?;
    }
    Ok(collected)
}

// Whether a specification gives the object of this code a result; also false where memory wasn't found, since a run is only longer then.
fn gives_result(alloc: Global, spec: &Spec, sieve: Option<Sieve<'_>>, code: &[u8]) -> bool
    requires { IsTermCode code.now }
    ensures { CountsOnly spec.now code.now result }
{
    if stops(sieve, code) {
        return false;
    }
    matches!(chooses(alloc, spec, code), Ok(true))
}

// How many results a run wants that may be cut; 0 where it may not: without a limit, and where the limit is more than a run may want.
fn wanted(limit: Option<u64>) -> u32
    ensures { result ≡ wanted limit }
{
    match limit {
        Some(limit) => u32::try_from(limit).unwrap_or(0),
        None => 0,
    }
}

// The results of the objects within two edges at one state, as many as are wanted, or all. The store is asked for so many, or for all where 32 bits
// don't hold their number. The run is closed on every way out.
pub(crate) fn results_within<S: OrderedStore>(
    store: &mut S,
    alloc: Global,
    spec: &Spec,
    lo: Edge<'_>,
    hi: Edge<'_>,
    limit: Option<u64>,
    budget: u32,
) -> Result<Collected, Stop>
    requires budget { 1 ≤ budget }
    requires closed { (S.knows store.old).run ≡ None }
    requires lower_edge { IsProperBound (bound_of lo) }
    requires upper_edge { IsProperBound (bound_of hi) }
    requires keypos { 1 ≤ (S.knows store.old).keypos }
    ensures within { IfOk result (λ c.
        AreWithin (S.knows store.old) (S.knows store.new) (bound_of lo.entry) (bound_of hi.entry) spec.now limit (results_of c.results) c.last) }
    ensures stopped { IfErr result (λ stop. IsStopped (S.knows store.old) (S.knows store.new) budget stop) }
    ensures asked { WasAsked (S.promises.range budget store.old) (bound_of lo.entry) (bound_of hi.entry) (wanted limit) }
    ensures read { IfOk result (λ _. HasRead S.promises store.old store.new) }
    ensures halted { IfErr result (λ stop. HasReadToStop S.promises store.old store.new stop) }
    ensures closed { (S.knows store.new).run ≡ None }
{
    let sieve = Sieve::of(spec);
    let counts = |code: &[u8]| -> bool
        requires { IsTermCode code.now }
        ensures { CountsOnly spec.entry.now code.now result }
    { gives_result(alloc, spec, sieve, code) };
    if let Err(refusal) = done(store.range(lo, hi, wanted(limit), &counts, budget)) {
        return Err(Stop::Refused(refusal));
    }
    let collected = collect(store, alloc, spec, sieve, limit);
    store.close_run();
    match collected {
        Ok(collected) => Ok(collected),
        Err(_) => Err(Stop::NoMemory),
    }
}
