//! What a call notes as it helps ranges.
ghost use Rattle.std.specs.Prelude.{◌≡◌, []};
ghost use Rattle.ca_range.specs.Clearing.{none_spent};
ghost use Rattle.ca_range.specs.Meeting.{AreMet};

use ca_model::Spent;

/// A range: whose it is, and its number.
#[derive(Clone, Copy)]
pub struct Range {
    /// The number of its pass, from 1 to 64.
    pub owner: u32,
    /// Counted for each pass, one more for each range, up to `LAST_SEQUENCE`.
    pub number: u64,
}

/// The ranges of other passes that a pass found unfinished since it was pinned: at the place of each pass's number, from 1 to 64, that of its range, or none.
#[derive(Clone, Copy)]
pub struct Met {
    pub numbers: [Option<u64>; 65],
}

/// What a call spent, and what it met of ranges.
#[derive(Clone, Copy)]
pub struct Account {
    pub spent: Spent,
    pub met: Met,
}

impl Account {
    /// Nothing was spent, and no range met.
    pub fn new() -> Account
        ensures spent { result.spent ≡ none_spent }
        ensures met { AreMet result.met.numbers [] }
    {
        let numbers = [None; 65];
        let spent = Spent {
            lost: 0,
            helped: 0,
            passed: 0,
        };
        Account {
            spent,
            met: Met { numbers },
        }
    }
}
