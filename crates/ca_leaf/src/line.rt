//! Things in a line, among which one is looked for.
ghost use Rattle.std.specs.Prelude.{ℕ, ◌<◌};
ghost use Rattle.std.specs.declared.cmp.Ordering.{Ordering};
ghost use Rattle.ca_leaf.specs.Place.{IsPlaceAmong};

use std::cmp::Ordering;

/// Things in a line, one at each place, and one that is looked for. They are read through a source, which may change by that: while it is only
/// read, it `goes_on`, and each thing stands as it stood before.
pub trait Line<S> {
    /// Whether the thing at a place stands like this to the one that is looked for.
    ghost stands: { Self → S → ℕ → Ordering → Type 0 };

    /// Whether the thing at a place may be compared.
    ghost knows: { Self → S → ℕ → Type 0 };

    /// What a source is after it was read any number of times.
    ghost goes_on: { Self → S → S → Type 0 };

    /// How the thing at a place stands to the one that is looked for.
    fn compare(&self, source: &mut S, place: u32) -> Ordering
        requires { knows self.now source.old place }
        ensures answer { stands self.now source.old place result }
        ensures read { goes_on self.now source.old source.new };

    ghost stays: { (line : Self) (a : S) → goes_on line a a };

    ghost chains: { (line : Self) (a b c : S) → goes_on line a b → goes_on line b c → goes_on line a c };

    ghost stood: { (line : Self) (a b : S) → goes_on line a b → (place : ℕ) (order : Ordering) → stands line b place order
        → stands line a place order };

    ghost knows_on: { (line : Self) (a b : S) → goes_on line a b → (place : ℕ) → knows line a place → knows line b place };
}

/// A place among the first ones of a line, so many: one where the thing that is looked for stands, or one where it may stand, between a lesser
/// thing and a greater one. Where the things ascend, there is no other. It compares about as many as the count has binary digits.
pub fn find_among<S, L: Line<S>>(line: &L, count: u32, source: &mut S) -> Result<u32, u32>
    requires known { (place : ℕ) → place < count → L.knows line.now source.old place }
    ensures place { IsPlaceAmong (L.stands line.now source.old) count result }
    ensures read { L.goes_on line.now source.old source.new }
{
    let mut low = 0;
    let mut high = count;
    while low < high {
        let middle = low + (high - low) / 2;
        match line.compare(source, middle) {
            Ordering::Less => low = middle + 1,
            Ordering::Equal => return Ok(middle),
            Ordering::Greater => high = middle,
        }
    }
    Err(low)
}
