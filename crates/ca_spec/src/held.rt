//! The variables that a head holds.
ghost use Rattle.std.specs.Prelude.{◌≡◌, ◌<◌, ◌≤◌};

use std::marker::Model;

/// The variables of a head that were met so far.
#[derive(Drop)]
pub(crate) struct Variables {
    // which they are, by their numbers
    table: [bool; 100],
    // how many places a table by numbers needs that has them all
    places: usize,
}

impl Model for Variables {
    ghost use Rattle.std.specs.Prelude.{◌≤◌};
    ghost use Rattle.ca_spec.specs.Held.{Held};

    ghost Value = { Held };

    ghost view = { λ variables. record { table = variables.table; places = variables.places } };

    ghost invariant = { λ variables. variables.places ≤ 100 };
}

impl Variables {
    ghost use Rattle.std.specs.Prelude.{Some, false, slice_index_or};
    ghost use Rattle.ca_spec.specs.Held.{none_met, with_variable};

    // None of them.
    pub(crate) fn none() -> Variables
        ensures { result ≡ none_met }
    {
        Variables {
            table: [false; 100],
            places: 0,
        }
    }

    // One more, or one that was met before.
    pub(crate) fn add(&mut self, number: u8)
        requires { number < 100 }
        ensures { self.new ≡ with_variable (Some number) self.old }
    {
        self.table[number as usize] = true;
        self.places = self.places.max(number as usize + 1);
    }

    // How many places a table by numbers needs that has them all.
    pub(crate) fn places(&self) -> usize
        ensures value { result ≡ self.now.places }
        ensures within { result ≤ 100 }
    {
        self.places
    }

    // Whether this one was met.
    pub(crate) fn has(&self, number: u8) -> bool
        requires { number < 100 }
        ensures { result ≡ slice_index_or self.now.table number false }
    {
        self.table[number as usize]
    }
}
