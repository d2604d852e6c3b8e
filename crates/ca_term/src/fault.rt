//! Why a term was not made.
ghost use Rattle.std.specs.Prelude.{◌≡◌};
ghost use Rattle.ca_term.specs.declared.fault.TermFault.TheVariants.{NoMemory};

use std::alloc::{AllocError, AllocFailed};

/// Why a term was not made.
#[derive(Clone, Copy, Debug, PartialEq, Eq)]
pub enum TermFault {
    /// The atom would have over `MOST_CODE_POINTS` code points.
    AtomTooLong,
    /// The term would be over `MOST_DEPTH` deep.
    TooDeep,
    /// The tuple would have over `MOST_ELEMENTS` elements.
    TooWide,
    /// Memory was not found.
    NoMemory,
}

impl From<AllocError> for TermFault {
    ghost from_gives = { λ _ e. e ≡ NoMemory };

    fn from(_e: AllocError) -> TermFault {
        TermFault::NoMemory
    }
}

impl<T: Drop> From<AllocFailed<T>> for TermFault {
    ghost from_gives = { λ _ e. e ≡ NoMemory };

    fn from(_e: AllocFailed<T>) -> TermFault {
        TermFault::NoMemory
    }
}
