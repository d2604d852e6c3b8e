//! Terms that are gathered in a list of terms.
ghost use Rattle.std.specs.Prelude.{◌≡◌, [], ◌∷◌, ◌++◌, OnOk};

use ca_term::{Term, Terms, try_copy};
use std::alloc::{AllocError, Global};

/// Puts a copy of a term behind these. `Err` where memory for it, or for the list, wasn't found.
pub fn push_copy(alloc: Global, terms: &mut Terms, term: &Term) -> Result<(), AllocError>
    ensures { OnOk result (terms.new.items ≡ terms.old.items ++ term.now ∷ []) }
{
    let Ok(copy) = try_copy(alloc, term) else {
        return Err(AllocError);
    };
    push(terms, copy)
}

/// Puts a term behind these. `Err` where memory for the list wasn't found.
pub fn push(terms: &mut Terms, term: Term) -> Result<(), AllocError>
    ensures { OnOk result (terms.new.items ≡ terms.old.items ++ term ∷ []) }
{
    match terms.push(term) {
        Ok(()) => Ok(()),
        Err(_) => Err(AllocError),
    }
}
