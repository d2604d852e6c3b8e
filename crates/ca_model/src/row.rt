//! An object with the place of its key, and a copy of bytes.
ghost use Rattle.std.specs.Prelude.{◌≡◌, ◌≤◌, [], length, slice_range};
ghost use Rattle.ca_term.specs.declared.bounds.TheConstants.{MOST_CODE_BYTES};

use crate::outcome::Code;
use ca_term::MOST_CODE_BYTES;
use std::marker::Model;

// An object's code, and where its key's code stands in it. Contracts see a pair of the key and the object. The numbers stand before the bytes: so a call that
// looks for a key, or reads a short object, reads one place of memory and not two, which takes twice as long where there are many objects.
#[derive(Drop)]
pub(crate) struct Row {
    len: u16,
    key_at: u16,
    key_end: u16,
    bytes: [u8; MOST_CODE_BYTES],
}

impl Model for Row {
    ghost use Rattle.ca_model.specs.StoreMap.{Pair};
    ghost use Rattle.ca_model.specs.Stored.{pair_stored};

    ghost Value = { Pair };

    ghost coded = { pair_stored };

    ghost use Rattle.ca_model.specs.RowView.{pair_of, IsPlaced};

    ghost view = { pair_of };

    ghost invariant = { IsPlaced };
}

impl Row {
    // No object.
    pub(crate) fn new() -> Row
        ensures { result ≡ ([], []) }
    {
        Row {
            len: 0,
            key_at: 0,
            key_end: 0,
            bytes: [0; MOST_CODE_BYTES],
        }
    }

    pub(crate) fn key(&self) -> &[u8]
        ensures { result.now ≡ self.now.0 }
    {
        &self.object()[self.key_at as usize..self.key_end as usize]
    }

    pub(crate) fn object(&self) -> &[u8]
        ensures { result.now ≡ self.now.1 }
    {
        &self.bytes[..self.len as usize]
    }

    // Puts an object in the place of the one that is here.
    pub(crate) fn set(&mut self, object: &[u8], key_at: usize, key_end: usize)
        requires place { (key_at ≤ key_end) × (key_end ≤ length object.now) }
        requires short { length object.now ≤ MOST_CODE_BYTES }
        ensures { self.new ≡ (slice_range object.now key_at key_end, object.now) }
    {
        self.bytes[..object.len()].copy_from_slice(object);
        self.len = object.len() as u16;
        self.key_at = key_at as u16;
        self.key_end = key_end as u16;
    }
}

// Copies bytes into a room. What the room held is written over, so only what it held beyond them is cleared.
pub(crate) fn copy(from: &[u8], into: &mut Code)
    requires { length from.now ≤ MOST_CODE_BYTES }
    ensures { into.new.items ≡ from.now }
{
    into.truncate(from.len());
    let (front, rest) = from.split_at(into.len());
    into.as_mut_slice().copy_from_slice(front);
    if !rest.is_empty() {
        let _ = into.try_extend_from_slice(rest);
    }
}
