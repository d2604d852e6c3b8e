//! What came of a change to an object's code.
ghost use Rattle.std.specs.Prelude.{List, []};
ghost use Rattle.ca_term.specs.Tree.{Tree, Tuple, row_of};
ghost use Rattle.ca_term.specs.Code.{code_of};
ghost use Rattle.ca_term.specs.Updates.{object_of};
ghost use Rattle.ca_order.specs.Patches.{IsPatched};
ghost use Rattle.ca_order.specs.Puts.{Puts};

use crate::room::{Code, TooLong};

/// What came of a change to an object's code.
#[derive(Clone, Copy, Debug, PartialEq, Eq)]
pub enum Patched {
    /// The new object's code was written.
    Done,
    /// There is no such element, or it is the key, or no integer where one is wanted.
    BadArg,
    /// A value that would be stored has more than 64 bits.
    Range,
    /// The new object's code has over `MOST_CODE_BYTES` bytes.
    TooLong,
}

// What came of writing an object's code into an empty room. Where it didn't fit, the room is left empty.
pub(crate) fn finish(put: Result<(), TooLong>, into: &mut Code) -> Patched
    ensures { (items : List Tree) → Puts put [] (code_of (Tuple (row_of items))) into.old.items → IsPatched (object_of items) result into.new.items }
{
    match put {
        Ok(()) => {
            // That the room holds at most `MOST_CODE_BYTES` bytes is told by its length.
            let _length = into.len();
            Patched::Done
        }
        Err(_) => {
            into.clear();
            Patched::TooLong
        }
    }
}
