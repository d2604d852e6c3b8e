//! Edits of another pass.
ghost use Rattle.std.specs.Prelude.{◌≡◌, ◌≤◌, length, slice_range};
ghost use Rattle.ca_term.specs.declared.bounds.TheConstants.{MOST_CODE_BYTES};
ghost use Rattle.ca_model.specs.History.{Put, Del};

use ca_model::Code;
use std::marker::Model;

/// An edit that another pass makes. Contracts see the edit.
#[derive(Drop)]
pub struct Foreign {
    pub(crate) edit: ForeignEdit,
}

// An edit with its bytes.
#[derive(Drop)]
pub(crate) enum ForeignEdit {
    Put(PlacedObject),
    Remove(Code),
}

// An object's code, and where its key's code stands in it.
#[derive(Drop)]
pub(crate) struct PlacedObject {
    pub object: Code,
    pub key_at: usize,
    pub key_end: usize,
}

impl Model for Foreign {
    ghost use Rattle.ca_model.specs.History.{Edit};

    ghost Value = { Edit };

    ghost use Rattle.ca_test_store.specs.ForeignView.{edit_of, IsPlaced};

    ghost view = { edit_of };

    ghost invariant = { IsPlaced };
}

impl Foreign {
    /// The object is put, in the place of its key's object where there is one. Its key stands in it from `key_at` to `key_end`.
    pub fn put(object: &[u8], key_at: usize, key_end: usize) -> Foreign
        requires place { (key_at ≤ key_end) × (key_end ≤ length object.now) }
        requires short { length object.now ≤ MOST_CODE_BYTES }
        ensures { result ≡ Put (slice_range object.now key_at key_end) object.now }
    {
        let object = code(object);
        Foreign {
            edit: ForeignEdit::Put(PlacedObject {
                object,
                key_at,
                key_end,
            }),
        }
    }

    /// The key's object is removed, where there is one.
    pub fn remove(key: &[u8]) -> Foreign
        requires { length key.now ≤ MOST_CODE_BYTES }
        ensures { result ≡ Del key.now }
    {
        let key = code(key);
        Foreign {
            edit: ForeignEdit::Remove(key),
        }
    }
}

// A copy of bytes.
fn code(bytes: &[u8]) -> Code
    requires { length bytes.now ≤ MOST_CODE_BYTES }
    ensures { result.items ≡ bytes.now }
{
    let mut code = Code::new();
    let _ = code.try_extend_from_slice(bytes);
    code
}
