//! What the expressions of a clause may speak of.
ghost use Rattle.ca_spec.specs.Faults.{IsStop};
ghost use Rattle.ca_spec.specs.ScopeView.{bad_in};

use crate::fault::{SpecWhy, Stop};
use crate::held::Variables;
use ca_term::Term;

/// Where an expression stands.
#[derive(Clone, Copy)]
pub(crate) enum Part {
    Guard,
    Body,
}

/// The head of an expression's clause, the variables that the head holds, and the part where the expression stands.
#[derive(Clone, Copy)]
pub(crate) struct Scope<'a> {
    pub(crate) head: &'a Term,
    pub(crate) variables: &'a Variables,
    pub(crate) part: Part,
}

impl Scope<'_> {
    // A tuple that is no expression there.
    pub(crate) fn bad(&self) -> Stop
        ensures { IsStop (bad_in self.now) result }
    {
        match self.part {
            Part::Guard => Stop::Fault(SpecWhy::BadGuard),
            Part::Body => Stop::Fault(SpecWhy::BadBody),
        }
    }
}
