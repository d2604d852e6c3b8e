//! How many calls were refused, and why the last one was.
ghost use Rattle.std.specs.Prelude.{◌≡◌, None};
ghost use Rattle.ca_test_store.specs.Refusals.{counted};
ghost use Rattle.ca_test_store.specs.Inner.{AreBelow};

use crate::refusal::Refusal;
use ca_model::Cause;
use std::marker::Model;

// Refused calls by the refusal, and why the last one was refused.
#[derive(Drop)]
pub(crate) struct Tally {
    busy: usize,
    full: usize,
    deep: usize,
    worn: usize,
    last: Option<Cause>,
}

impl Model for Tally {
    ghost use Rattle.ca_model.specs.Known.{Counts};

    ghost Value = { Counts };

    ghost view = { λ t. record { busy = t.busy; full = t.full; deep = t.deep; worn = t.worn; last = t.last } };
}

impl Tally {
    pub(crate) fn new() -> Tally
        ensures { result ≡ record { busy = 0; full = 0; deep = 0; worn = 0; last = None } }
    {
        Tally {
            busy: 0,
            full: 0,
            deep: 0,
            worn: 0,
            last: None,
        }
    }

    // One more of this refusal, of a call with this budget.
    pub(crate) fn count(&mut self, refusal: Refusal, budget: u32)
        requires { AreBelow usize.MAX self.old }
        ensures { self.new ≡ counted refusal budget self.old }
    {
        match refusal {
            Refusal::Busy => self.busy += 1,
            Refusal::Full(_) => self.full += 1,
            Refusal::Deep(_) => self.deep += 1,
            Refusal::Worn(_) => self.worn += 1,
        }
        self.last = Some(refusal.cause(budget));
    }
}
