//! Why bytes are no code.
ghost use Rattle.std.specs.Prelude.{◌≡◌, length};
ghost use Rattle.ca_order.specs.declared.fault.ReadFault.TheVariants.{NoMemory as ReadNoMemory};

use ca_term::TermFault;
use std::alloc::{AllocError, AllocFailed};

/// Why bytes were not decoded.
#[derive(Clone, Copy, Debug, PartialEq, Eq)]
pub enum DecodeFault {
    /// They are not the code of a term. `at` is the length in bytes of their longest start that begins some term's code.
    NotACode { at: usize },
    /// Memory was not found.
    NoMemory,
}

// Why a part of a code was not read: the number of bytes behind the longest start that begins such a part, or want of memory.
#[derive(Clone, Copy)]
pub(crate) enum ReadFault {
    Stuck { left: usize },
    NoMemory,
}

// Stuck in front of these bytes.
pub(crate) fn stuck(behind: &[u8]) -> ReadFault
    ensures { result ≡ ReadFault.Stuck (length behind.now) }
{
    ReadFault::Stuck { left: behind.len() }
}

impl From<AllocError> for ReadFault {
    ghost from_gives = { λ _ e. e ≡ ReadNoMemory };

    fn from(_e: AllocError) -> ReadFault {
        ReadFault::NoMemory
    }
}

impl<T: Drop> From<AllocFailed<T>> for ReadFault {
    ghost from_gives = { λ _ e. e ≡ ReadNoMemory };

    fn from(_e: AllocFailed<T>) -> ReadFault {
        ReadFault::NoMemory
    }
}

// What was read is within the bounds of terms, so a builder refuses it for want of memory alone.
impl From<TermFault> for ReadFault {
    ghost from_gives = { λ _ e. e ≡ ReadNoMemory };

    fn from(_e: TermFault) -> ReadFault {
        ReadFault::NoMemory
    }
}
