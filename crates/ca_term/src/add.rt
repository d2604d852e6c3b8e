//! An operation on a counter.
ghost use Rattle.std.specs.Prelude.{◌≡◌};
ghost use Rattle.ca_term.specs.Add.{addition_of};
ghost use Rattle.ca_term.specs.Updates.{counter_place, is_past, value_of};

/// Adds `incr` to the element at position `pos`, counted from 1. Of `cap`, a threshold and a value, the value takes the place of a sum past
/// the threshold: above it where `incr` is at least 0, else below it. (The ets manual, `update_counter`.)
#[derive(Clone, Copy, Debug, PartialEq, Eq)]
pub struct Add {
    pub pos: i64,
    pub incr: i64,
    pub cap: Option<(i64, i64)>,
}

impl Add {
    /// Where its element stands among so many, counted from 0. None where there is no such element, or it is the key, element number `keypos`.
    pub fn place(&self, keypos: u32, size: usize) -> Option<usize>
        ensures { result ≡ counter_place keypos size self.now.pos }
    {
        if self.pos < 1 || self.pos == i64::from(keypos) {
            return None;
        }
        let place = self.pos as usize - 1;
        if place < size { Some(place) } else { None }
    }

    /// The value that it gives a counter of this number. It is exact, and may have more than 64 bits.
    pub fn value(&self, number: i64) -> i128
        ensures { result ≡ value_of (addition_of self.now) number }
    {
        let sum = i128::from(number) + i128::from(self.incr);
        match self.cap {
            Some((threshold, value)) => {
                if is_past(self.incr, threshold, sum) {
                    i128::from(value)
                } else {
                    sum
                }
            }
            None => sum,
        }
    }
}

// Whether a sum is past the threshold in the direction of the increment.
fn is_past(incr: i64, threshold: i64, sum: i128) -> bool
    ensures { result ≡ is_past incr threshold sum }
{
    if incr >= 0 {
        sum > i128::from(threshold)
    } else {
        sum < i128::from(threshold)
    }
}
