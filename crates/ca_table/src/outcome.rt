//! What calls of a table come to, and what they pass on of a store.
ghost use Rattle.ca_table.specs.Refusals.{IsParted};

use ca_ets::Reply;
use ca_model::{Outcome, Spent};
use std::alloc::AllocError;

/// What a call of a table comes to: its reply, a refusal of the store, or want of memory.
pub type Played = Result<Outcome<Reply>, AllocError>;

// One turn, lost to another's edit.
pub(crate) const ONE_LOST: Spent = Spent {
    lost: 1,
    helped: 0,
    passed: 0,
};

// Why nothing was found.
#[derive(Drop)]
pub(crate) enum Stop {
    // The store refused its call: this is the table's answer.
    Refused(Outcome<Reply>),
    NoMemory,
}

// The value of a call that was done, or its refusal as the table's answer.
pub(crate) fn done<T>(outcome: Outcome<T>) -> Result<T, Outcome<Reply>>
    ensures { IsParted outcome result }
{
    match outcome {
        Outcome::Done(value) => Ok(value),
        Outcome::Busy(spent) => Err(Outcome::Busy(spent)),
        Outcome::Full(cause) => Err(Outcome::Full(cause)),
        Outcome::Deep(level) => Err(Outcome::Deep(level)),
        Outcome::Worn(counter) => Err(Outcome::Worn(counter)),
    }
}
