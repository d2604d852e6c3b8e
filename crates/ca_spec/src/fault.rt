//! Why a term is no match specification.
ghost use Rattle.std.specs.Prelude.{◌≡◌};
ghost use Rattle.ca_spec.specs.declared.fault.SpecFault.TheVariants as spec_fault;
ghost use Rattle.ca_spec.specs.declared.fault.Stop.TheVariants as stop;

use ca_term::TermFault;
use std::alloc::{AllocError, AllocFailed};

/// Why a term is no match specification. Source: the ERTS user's guide, "Match Specifications in Erlang"; that a body is one expression
/// without operators is this project's own.
#[derive(Clone, Copy, Debug, PartialEq, Eq)]
pub enum SpecWhy {
    /// It is no proper list.
    NotAList,
    /// A clause is no tuple of three elements, or its guards are no proper list.
    NotAClause,
    /// A head is no tuple, no variable and not `'_'`.
    BadHead,
    /// In a guard stands a tuple that is no expression.
    BadGuard,
    /// A body is no proper list of one expression, or in it stands a tuple that is no expression or an operator.
    BadBody,
    /// A guard or a body has a variable that its head doesn't hold.
    Unbound,
}

/// Why a term was not compiled.
#[derive(Clone, Copy, Debug, PartialEq, Eq)]
pub enum SpecFault {
    /// The term is no match specification: the clause with the first fault, counted from 1, or 0 where the term is no proper list, and the fault.
    /// A clause past number 2^32 - 1 is named by 2^32 - 1.
    BadSpec { clause: u32, why: SpecWhy },
    /// Memory was not found.
    NoMemory,
}

impl From<TermFault> for SpecFault {
    ghost from_gives = { λ _ e. e ≡ spec_fault.NoMemory };

    fn from(_e: TermFault) -> SpecFault {
        SpecFault::NoMemory
    }
}

impl<T: Drop> From<AllocFailed<T>> for SpecFault {
    ghost from_gives = { λ _ e. e ≡ spec_fault.NoMemory };

    fn from(_e: AllocFailed<T>) -> SpecFault {
        SpecFault::NoMemory
    }
}

// Why compiling a part stopped.
#[derive(Clone, Copy)]
pub(crate) enum Stop {
    Fault(SpecWhy),
    NoMemory,
}

impl From<AllocError> for Stop {
    ghost from_gives = { λ _ e. e ≡ stop.NoMemory };

    fn from(_e: AllocError) -> Stop {
        Stop::NoMemory
    }
}

impl<T: Drop> From<AllocFailed<T>> for Stop {
    ghost from_gives = { λ _ e. e ≡ stop.NoMemory };

    fn from(_e: AllocFailed<T>) -> Stop {
        Stop::NoMemory
    }
}

impl From<TermFault> for Stop {
    ghost from_gives = { λ _ e. e ≡ stop.NoMemory };

    fn from(_e: TermFault) -> Stop {
        Stop::NoMemory
    }
}
