//! Match specifications, compiled.

use crate::clause::Clause;
use ca_term::Term;
use std::marker::Model;

/// A match specification. Contracts see it as the term that it was compiled from.
#[derive(Drop)]
pub struct Spec {
    pub(crate) source: Term,
    pub(crate) clauses: Vec<Clause>,
}

impl Model for Spec {
    ghost use Rattle.ca_term.specs.Tree.{Tree};
    ghost use Rattle.ca_term.specs.Stored.{tree_stored};

    ghost Value = { Tree };

    ghost coded = { tree_stored };

    ghost use Rattle.ca_spec.specs.SpecView.{IsCompiled};

    ghost view = { λ spec. spec.source };

    ghost invariant = { IsCompiled };
}

impl Spec {
    ghost use Rattle.std.specs.Prelude.{◌≡◌};
    ghost use Rattle.ca_match.specs.Specification.{IsSpecification};

    /// The term that it was compiled from, which is a match specification.
    pub fn source(&self) -> &Term
        ensures term { result.now ≡ self.now }
        ensures specification { IsSpecification self.now }
    {
        &self.source
    }
}
