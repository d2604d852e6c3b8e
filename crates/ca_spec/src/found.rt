//! Results of specifications, as they are told.
ghost use Rattle.std.specs.Prelude.{◌≡◌, IfOk};
ghost use Rattle.ca_spec.specs.FoundView.{tree_of_found};

use ca_order::Part;
use ca_term::Term;
use std::alloc::{AllocError, Global};

/// A result of an object by its code: where it is a part of the object or a constant, its own code, which isn't decoded; else a term. Contracts see it by
/// `tree_of_found`.
#[derive(Drop)]
pub enum Found<'a> {
    Coded(Part<'a>),
    Made(Term),
}

impl<'a> Found<'a> {
    /// The term.
    pub fn term(self, alloc: Global) -> Result<Term, AllocError>
        ensures { IfOk result (λ term. term ≡ tree_of_found self.entry) }
    {
        match self {
            Found::Coded(part) => Ok(part.term(alloc)?),
            Found::Made(term) => Ok(term),
        }
    }
}
