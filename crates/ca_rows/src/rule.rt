//! What stands above the rows, and the rule that holds between any two steps.
ghost use Rattle.std.specs.Prelude.{◌≡◌, ℕ, ◌<◌, ◌≤◌, List};
ghost use Rattle.atomic_table.specs.Table.{Step};
ghost use Rattle.ca_rows.specs.declared.sizes.Sizes.{Sizes as TheSizes};
ghost use Rattle.ca_rows.specs.Laws.{Frames, Lends, Listing, Pinning, Making, Closing, Opening};
ghost use Rattle.ca_rows.specs.Opening.{AreInBounds};
ghost use Rattle.ca_rows.specs.Rule.{Ruled, fresh};
ghost use Rattle.ca_rows.specs.Told.{Mine};

use crate::sizes::Sizes;
use crate::view::View;
use atomic_table::TableRule;
use std::marker::PhantomData;

/// The rule above the rows: a structure whose nodes are rows.
pub trait RowRule {
    /// What a seat knows of it.
    type Upper;

    /// What the space's own seat knows at the start.
    ghost first: { Self.Upper };

    /// What the words from 2 to 271 are at the start: control words, and row 1.
    ghost opens: { TheSizes → ℕ → ℕ };

    /// What the word of each pass's ranges is at the start.
    ghost result_word: { TheSizes → ℕ };

    /// Which rows are linked.
    ghost linked: { List ℕ → ℕ → Type 0 };

    /// Which linked rows are lent to an operation that isn't finished.
    ghost lent: { List ℕ → ℕ → Type 0 };

    /// Which rows a pass has a note on. The words tell it too: what others do may give a pass a note.
    ghost noted: { List ℕ → Self.Upper → ℕ → Type 0 };

    /// Which rows a seat knows to be linked, where one pass was made at most.
    ghost listed: { Self.Upper → ℕ → Type 0 };

    /// What holds of the sizes, the number of passes that were made, the words, and all that is known: the upper fact.
    ghost fact: { TheSizes → ℕ → List ℕ → List Self.Upper → Type 0 };

    /// What a pass knows as it is made, by its number, after it pinned, and after it unpinned.
    ghost begins: { ℕ → Self.Upper };

    ghost enters: { Self.Upper → Self.Upper };

    ghost leaves: { Self.Upper → Self.Upper };

    /// All that a load of the structure above may tell, all that an exchange may, and all that a store may: as `then` of a play.
    ghost loads: { Step (Unit {0}) → Mine Self.Upper → ℕ → Mine Self.Upper → Type 0 };

    ghost swaps: { Step (Unit {0}) → Mine Self.Upper → ℕ → Mine Self.Upper → Type 0 };

    ghost stores: { Step (Unit {0}) → Mine Self.Upper → ℕ → Mine Self.Upper → Type 0 };

    /// What a seat knows that learnt what was split off another one.
    ghost learns: { Self.Upper → Self.Upper → Self.Upper };

    /// What a seat knows that takes in another one, and what is left of that one.
    ghost both: { Self.Upper → Self.Upper → Self.Upper };

    ghost spent: { Self.Upper };

    /// A word at the start.
    fn open(sizes: &Sizes, word: u32) -> u64
        requires bounds { AreInBounds sizes.now }
        requires word { (2 ≤ word) × (word < 272) }
        ensures { result ≡ opens sizes.now word };

    /// The word of a pass's ranges at the start.
    fn first_result(sizes: &Sizes) -> u64
        requires bounds { AreInBounds sizes.now }
        ensures { result ≡ result_word sizes.now };

    ghost frames: { Frames linked lent noted fact };

    ghost lends: { Lends linked lent noted fact };

    ghost listing: { Listing linked lent noted fact listed };

    ghost pinning: { Pinning linked lent noted fact enters leaves };

    ghost making: { Making linked lent noted fact begins };

    ghost closing: { Closing linked lent noted fact both spent };

    ghost opening: { Opening linked lent noted fact opens result_word first };
}

/// The rule of a table whose rows stand under the rule `R`.
pub struct Rows<R> {
    rule: PhantomData<R>,
}

impl<R: RowRule> TableRule<(), View<R::Upper>, Sizes> for Rows<R> {
    ghost holds = { Ruled R.linked R.lent R.noted R.fact };

    ghost first = { λ z. fresh z 0 R.first };
}
