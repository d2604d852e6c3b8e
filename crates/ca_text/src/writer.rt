//! Writing at the end of a vector. Where memory lacks, what was there stands in front still.
ghost use Rattle.std.specs.Prelude.{◌≡◌, ◌++◌, decimal, OnOk};
ghost use Rattle.ca_text.specs.Written.{BeginsWith};

use itoa::Buffer;
use std::alloc::AllocError;

/// Appends these bytes.
#[inline]
pub fn put(bytes: &[u8], into: &mut Vec<u8>) -> Result<(), AllocError>
    ensures ok { OnOk result (into.new.items ≡ into.old.items ++ bytes.now) }
    ensures front { BeginsWith into.new.items into.old.items }
{
    into.extend_from_slice(bytes)
}

/// Appends a number in decimal digits.
pub fn put_number(n: u64, into: &mut Vec<u8>) -> Result<(), AllocError>
    ensures ok { OnOk result (into.new.items ≡ into.old.items ++ decimal n) }
    ensures front { BeginsWith into.new.items into.old.items }
{
    put(Buffer::new().format(n).as_bytes(), into)
}
