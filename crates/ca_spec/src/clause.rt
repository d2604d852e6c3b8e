//! Clauses, compiled.
ghost use Rattle.std.specs.Prelude.{◌≡◌, ◌≤◌};
ghost use Rattle.ca_spec.specs.PartBound.{AreAsked, AreAsked-prop};
ghost use Rattle.ca_spec.specs.Places.{places as places_of};

use crate::expression::Expression;
use crate::pattern::Pattern;

/// A clause. A table with room for each variable of the head at the place of its number has `places` places, or more. Where the head is a tuple, its
/// parts behind the first `asked` ones are '_'.
#[derive(Drop)]
pub(crate) struct Clause {
    pub(crate) head: Pattern,
    pub(crate) guards: Vec<Expression>,
    pub(crate) body: Expression,
    pub(crate) places: usize,
    pub(crate) asked: usize,
    ghost exact: { places ≡ places_of head },
    ghost in_range: { places ≤ 100 },
    ghost front: { AreAsked head asked } by { AreAsked-prop head asked },
}
