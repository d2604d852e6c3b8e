//! The words of a space that nobody shares any more.
ghost use Rattle.std.specs.Prelude.{◌≡◌, ◌<◌};
ghost use Rattle.std.specs.Mem.Slots.{slots_items, slots_len, IsFull};
ghost use mathlib.Core.Option.{some};
ghost use lib.ListN.{get_elem?};

use atomic_table::Closed;
use std::alloc::Global;

/// The words of a space that nobody shares any more, from word 0 on: those before the rows, row 1 and the other rows, and those of the passes.
pub struct Words {
    pub(crate) closed: Closed<(), Global>,
    pub ghost full: { IsFull closed.words },
    pub ghost no_slots: { slots_len closed.slots ≡ 0 },
}

impl Words {
    pub(crate) fn of(closed: Closed<(), Global>) -> Words
        requires { IsFull closed.words × (slots_len closed.slots ≡ 0) }
        ensures { result.closed ≡ closed }
    {
        Words { closed }
    }

    /// The word at this place, counted from 0.
    pub fn at(&self, word: u32) -> u64
        requires { word < slots_len self.now.closed.words }
        ensures { get_elem? (slots_items self.now.closed.words) word ≡ some result }
    {
        self.closed.word(word as usize)
    }
}

impl Drop for Words {
    fn drop(self) {
        let Self { closed } = self;
        closed.free();
    }
}
