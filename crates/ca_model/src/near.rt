//! Short objects, close together.
ghost use Rattle.std.specs.Prelude.{◌≡◌, ◌≤◌, ◌==◌, [], length, slice_range};
ghost use Rattle.ca_model.specs.NearView.{near_of};

use std::marker::Model;

// An object of at most so many bytes is short; with its numbers it has 128 bytes.
pub(crate) const SHORT: usize = 122;

// A short object's code, and where its key's code stands in it; or nothing. Contracts see a pair of the key and the object.
#[derive(Drop)]
pub(crate) struct Near {
    len: u16,
    key_at: u16,
    key_end: u16,
    bytes: [u8; SHORT],
}

impl Model for Near {
    ghost use Rattle.ca_model.specs.StoreMap.{Pair};
    ghost use Rattle.ca_model.specs.Stored.{pair_stored};

    ghost Value = { Pair };

    ghost coded = { pair_stored };

    ghost use Rattle.ca_model.specs.NearView.{pair_of, IsPlaced};

    ghost view = { pair_of };

    ghost invariant = { IsPlaced };
}

impl Near {
    // No object.
    pub(crate) fn new() -> Near
        ensures { result ≡ ([], []) }
    {
        Near {
            len: 0,
            key_at: 0,
            key_end: 0,
            bytes: [0; SHORT],
        }
    }

    // Whether there is no object here.
    pub(crate) fn is_empty(&self) -> bool
        ensures { result ≡ (length self.now.1 == 0) }
    {
        self.len == 0
    }

    pub(crate) fn key(&self) -> &[u8]
        ensures { result.now ≡ self.now.0 }
    {
        &self.object()[self.key_at as usize..self.key_end as usize]
    }

    pub(crate) fn object(&self) -> &[u8]
        ensures { result.now ≡ self.now.1 }
    {
        &self.bytes[..self.len as usize]
    }

    // Puts an object here where it is short, or else nothing.
    pub(crate) fn set(&mut self, object: &[u8], key_at: usize, key_end: usize)
        requires { (key_at ≤ key_end) × (key_end ≤ length object.now) }
        ensures { self.new ≡ near_of (slice_range object.now key_at key_end, object.now) }
    {
        if object.len() <= SHORT {
            self.bytes[..object.len()].copy_from_slice(object);
            self.len = object.len() as u16;
            self.key_at = key_at as u16;
            self.key_end = key_end as u16;
        } else {
            self.len = 0;
            self.key_at = 0;
            self.key_end = 0;
        }
    }
}
