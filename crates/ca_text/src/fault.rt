//! Why a text is not read.
ghost use Rattle.std.specs.Prelude.{◌≡◌, length};
ghost use Rattle.ca_text.specs.Inner.Place.{IsWithin, text_fault};
ghost use Rattle.ca_text.specs.declared.fault.Stop.TheVariants.{NoMemory};

use ca_term::TermFault;
use std::alloc::{AllocError, AllocFailed};

#[derive(Clone, Copy)]
pub(crate) enum Why {
    Syntax,
    AtomTooLong,
    TooDeep,
    TooWide,
}

// A fault at the byte that so many bytes before the end begins, or at the end.
#[derive(Clone, Copy)]
pub(crate) struct Fault {
    pub(crate) why: Why,
    pub(crate) left: usize,
}

#[derive(Clone, Copy)]
pub(crate) enum Stop {
    NoMemory,
    At(Fault),
}

impl From<AllocError> for Stop {
    ghost from_gives = { λ _ e. e ≡ NoMemory };

    fn from(_e: AllocError) -> Stop {
        Stop::NoMemory
    }
}

impl<T: Drop> From<AllocFailed<T>> for Stop {
    ghost from_gives = { λ _ e. e ≡ NoMemory };

    fn from(_e: AllocFailed<T>) -> Stop {
        Stop::NoMemory
    }
}

// The readers keep every bound of a term, so that a builder refuses for want of memory alone.
impl From<TermFault> for Stop {
    ghost from_gives = { λ _ e. e ≡ NoMemory };

    fn from(_e: TermFault) -> Stop {
        Stop::NoMemory
    }
}

// A fault at the first of these bytes, or at the end where there are none.
pub(crate) fn fault_at(why: Why, bytes: &[u8]) -> Stop
    ensures { result ≡ Stop.At (record { why = why; left = length bytes.now }) }
{
    Stop::At(Fault {
        why,
        left: bytes.len(),
    })
}

pub(crate) fn syntax_at(bytes: &[u8]) -> Stop
    ensures { result ≡ Stop.At (record { why = Why.Syntax; left = length bytes.now }) }
{
    fault_at(Why::Syntax, bytes)
}

/// Why no term was read, with the place of the fault as a number of bytes from the first one.
#[derive(Clone, Copy, Debug, PartialEq, Eq)]
pub enum TextFault {
    /// The bytes before this place begin some term text, and with the byte there, or at the end, they begin none.
    Syntax { at: usize },
    /// At this byte a code point or escape of an atom begins that would be one more than `ca_term::MOST_CODE_POINTS`.
    AtomTooLong { at: usize },
    /// At this byte a term begins that would stand one level below the last, which is [`crate::MOST_LEVELS`].
    TooDeep { at: usize },
    /// At this byte stands the comma before an element of a tuple that would be one more than `ca_term::MOST_ELEMENTS`.
    TooWide { at: usize },
    /// Memory was not found.
    NoMemory,
}

// The fault of a stop in so many bytes.
pub(crate) fn fault_of(stop: Stop, length: usize) -> TextFault
    requires { IsWithin stop length }
    ensures { result ≡ text_fault stop length }
{
    let Stop::At(fault) = stop else {
        return TextFault::NoMemory;
    };
    let at = length - fault.left;
    match fault.why {
        Why::Syntax => TextFault::Syntax { at },
        Why::AtomTooLong => TextFault::AtomTooLong { at },
        Why::TooDeep => TextFault::TooDeep { at },
        Why::TooWide => TextFault::TooWide { at },
    }
}
