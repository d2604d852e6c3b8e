//! Refusals of a script.
ghost use Rattle.std.specs.Prelude.{◌≡◌};
ghost use Rattle.ca_test_store.specs.Refusals.{cause_of, refused};
ghost use Rattle.ca_test_store.specs.Inner.{refusal_at};

use ca_model::{Cause, Counter, FullCause, Outcome, Spent};

/// How a call is refused. `Busy` loses the call's whole budget.
#[derive(Clone, Copy, Debug, PartialEq, Eq)]
pub enum Refusal {
    Busy,
    Full(FullCause),
    Deep(u16),
    Worn(Counter),
}

// What kind of call asks for its turn: one that is never refused, one that may want a level for a new key, or any other.
#[derive(Clone, Copy)]
pub(crate) enum Call {
    Get,
    Put,
    Other,
}

impl Refusal {
    // Why the call is refused, given its budget.
    pub(crate) fn cause(self, budget: u32) -> Cause
        ensures { result ≡ cause_of self budget }
    {
        match self {
            Refusal::Busy => Cause::Busy(Spent {
                lost: budget,
                helped: 0,
                passed: 0,
            }),
            Refusal::Full(cause) => Cause::Full(cause),
            Refusal::Deep(level) => Cause::Deep(level),
            Refusal::Worn(counter) => Cause::Worn(counter),
        }
    }

    // The outcome of a refused call.
    pub(crate) fn outcome<T>(self, budget: u32) -> Outcome<T>
        ensures { result ≡ refused self budget }
    {
        match self {
            Refusal::Busy => Outcome::Busy(Spent {
                lost: budget,
                helped: 0,
                passed: 0,
            }),
            Refusal::Full(cause) => Outcome::Full(cause),
            Refusal::Deep(level) => Outcome::Deep(level),
            Refusal::Worn(counter) => Outcome::Worn(counter),
        }
    }
}

// How a call of this kind is refused.
pub(crate) fn refusal_at(asked: Call, told: Option<Refusal>) -> Option<Refusal>
    ensures { result ≡ refusal_at asked told }
{
    match asked {
        Call::Get => None,
        Call::Put => told,
        Call::Other => match told {
            Some(Refusal::Deep(_)) => None,
            other => other,
        },
    }
}
