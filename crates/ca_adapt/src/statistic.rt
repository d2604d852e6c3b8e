//! How a base's statistic moves, and what is due by it.
ghost use Rattle.std.specs.Prelude.{◌≡◌, cond, neg_ℤ, pos};
ghost use Rattle.ca_adapt.specs.Allowed.{IsAllowed, IsWithin};
ghost use Rattle.ca_adapt.specs.Statistics.{IsAfter, IsDue, IsKept, IsPast, IsStatisticOf, IsWordOf};

use crate::tuning::Tuning;
use ca_base::STATISTIC;

// The word for a statistic of 0, and those between which the words of all statistics are.
const ZERO: i64 = STATISTIC as i64;

const LEAST: u64 = STATISTIC - (1 << 31);

const END: u64 = STATISTIC + (1 << 31);

/// The word for a statistic in a base's row: 2^32 more than the statistic.
pub fn word_of(statistic: i32) -> u64
    ensures { IsWordOf statistic result }
{
    (ZERO + i64::from(statistic)) as u64
}

/// The statistic that a word of a base's row is for; 0 where the word isn't from 2^32 - 2^31 to 2^32 + 2^31 - 1, as those of all statistics are.
pub fn statistic_of(word: u64) -> i32
    ensures { IsStatisticOf word result }
{
    if LEAST <= word && word < END {
        (word as i64 - ZERO) as i32
    } else {
        0
    }
}

/// What is due to a base by its statistic.
#[derive(Clone, Copy, Debug, PartialEq, Eq)]
pub enum Due {
    /// It is within its bounds.
    Nothing,
    /// It is above its upper bound.
    Split,
    /// It is below its lower bound.
    Join,
}

impl Tuning {
    /// The statistic of the base that an update writes: the old base's, or 0 where that is outside of its bounds, and a step up where the update
    /// lost an exchange of a link, or else a calm step. So contention that lasts splits a base, and calm joins two.
    pub fn statistic_after(&self, old: i32, lost: bool) -> i32
        requires { IsAllowed self.now }
        ensures { IsAfter self.now old lost result }
    {
        self.kept(old) + self.step(lost)
    }

    /// The statistic of the copy of a base that a range marks behind its first one: the base's, or 0 where that is outside of its bounds, and a step
    /// of a range, but no less than the lower bound: by ranges alone no join is due.
    pub fn statistic_past(&self, old: i32) -> i32
        requires { IsAllowed self.now }
        ensures { IsPast self.now old result }
    {
        let moved = self.kept(old) + self.range;
        if moved < self.low { self.low } else { moved }
    }

    /// What is due to a base with this statistic.
    pub fn due(&self, statistic: i32) -> Due
        ensures { IsDue self.now statistic result }
    {
        if statistic > self.high {
            Due::Split
        } else if statistic < self.low {
            Due::Join
        } else {
            Due::Nothing
        }
    }

    // The step up, or the calm one.
    fn step(&self, lost: bool) -> i32
        requires { IsAllowed self.now }
        ensures step { result ≡ cond lost self.now.lost self.now.calm }
        ensures small { IsWithin (neg_ℤ (pos 1000000)) (pos 1000000) result }
    {
        if lost { self.lost } else { self.calm }
    }

    /// The statistic, or 0 where it is outside of its bounds.
    pub fn kept(&self, statistic: i32) -> i32
        requires { IsAllowed self.now }
        ensures kept { IsKept self.now statistic result }
        ensures small { IsWithin (neg_ℤ (pos 1000000)) (pos 1000000) result }
    {
        if self.low <= statistic && statistic <= self.high {
            statistic
        } else {
            0
        }
    }
}
