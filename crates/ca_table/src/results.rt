//! Results that a selection collects.
ghost use Rattle.std.specs.Prelude.{◌≡◌, ◌++◌, ◌∷◌, [], length, OnOk};
ghost use Rattle.ca_ets.specs.Command.{Items, Results as Batched, response_of};
ghost use Rattle.ca_order.specs.CodesView.{tree_of};
ghost use Rattle.ca_spec.specs.FoundView.{tree_of_found};
ghost use Rattle.ca_table.specs.ResultsView.{results_of};

use ca_ets::Reply;
use ca_order::{CodeList, Part};
use ca_spec::Found;
use ca_term::{Term, Terms};
use std::alloc::{AllocError, Global};

// Results in key order: by their codes, as long as each one is told so, or as terms.
#[derive(Drop)]
pub(crate) enum Results {
    Coded(CodeList),
    Made(Terms),
}

// Puts one more term behind some.
fn add(terms: &mut Terms, term: Term) -> Result<(), AllocError>
    ensures { OnOk result (terms.new.items ≡ terms.old.items ++ term ∷ []) }
{
    match terms.push(term) {
        Ok(()) => Ok(()),
        Err(_) => Err(AllocError),
    }
}

impl Results {
    // None yet.
    pub(crate) fn new(alloc: Global) -> Results
        ensures { results_of result ≡ [] }
    {
        Results::Coded(CodeList::new(alloc))
    }

    // How many there are.
    #[inline(always)]
    pub(crate) fn len(&self) -> usize
        ensures { result ≡ length (results_of self.now) }
    {
        match self {
            Results::Coded(codes) => codes.len(),
            Results::Made(terms) => terms.len(),
        }
    }

    // Puts one more behind the others.
    #[inline(always)]
    pub(crate) fn push(&mut self, alloc: Global, found: Found<'_>) -> Result<(), AllocError>
        ensures { OnOk result (results_of self.new ≡ results_of self.old ++ tree_of_found found.entry ∷ []) }
    {
        match found {
            Found::Coded(part) => self.push_part(alloc, part),
            Found::Made(term) => self.push_term(alloc, term),
        }
    }

    #[inline(always)]
    fn push_part(&mut self, alloc: Global, part: Part<'_>) -> Result<(), AllocError>
        ensures { OnOk result (results_of self.new ≡ results_of self.old ++ tree_of part.entry ∷ []) }
    {
        match self {
            Results::Coded(codes) => codes.push(part),
            Results::Made(terms) => add(terms, part.term(alloc)?),
        }
    }

    // Behind a result that had to be a term all are terms.
    #[inline(never)]
    fn push_term(&mut self, alloc: Global, term: Term) -> Result<(), AllocError>
        ensures { OnOk result (results_of self.new ≡ results_of self.old ++ term ∷ []) }
    {
        match self {
            Results::Coded(codes) => {
                let mut terms = codes.terms(alloc)?;
                add(&mut terms, term)?;
                *self = Results::Made(terms);
                Ok(())
            }
            Results::Made(terms) => add(terms, term),
        }
    }

    // The reply with them.
    pub(crate) fn into_reply(self) -> Reply
        ensures { response_of result ≡ Items (results_of self) }
    {
        match self {
            Results::Coded(codes) => Reply::Coded(codes),
            Results::Made(terms) => Reply::List(terms),
        }
    }

    // The batch with them, and whether there may be more.
    pub(crate) fn into_batch(self, more: bool) -> Reply
        ensures { response_of result ≡ Batched (results_of self) more }
    {
        match self {
            Results::Coded(codes) => Reply::CodedBatch(codes, more),
            Results::Made(terms) => Reply::Batch(terms, more),
        }
    }
}
