//! The objects that clients put.
ghost use Rattle.std.specs.Prelude.{◌≡◌, IsTrue, slice_range};
ghost use Rattle.ca_model.specs.Function.{StandsAt};
ghost use Rattle.ca_model.specs.StoreMap.{IsPair};
ghost use Rattle.ca_tree_tests.specs.Objects.{number_code};

use ca_model::Code;

/// The code of the tuple of the numbers 2 ^ 24 + key and 2 ^ 24 + value, of both of which the lower 24 bits count. Its key stands from byte 5 to
/// byte 10.
pub(crate) fn object(key: u32, value: u32) -> [u8; 15]
    ensures pair { IsPair 1 (slice_range result 5 10, result) }
    ensures key { IsPair 1 (number_code key, result) × StandsAt (number_code key) result 5 }
{
    let [_, high, middle, low] = key.to_be_bytes();
    let [_, x, y, z] = value.to_be_bytes();
    [
        0x40, 0, 0, 0, 2, 0x24, 1, high, middle, low, 0x24, 1, x, y, z,
    ]
}

/// The code of the number 2 ^ 24 + key.
pub(crate) fn key_code(key: u32) -> [u8; 5]
    ensures { result ≡ number_code key }
{
    let [_, high, middle, low] = key.to_be_bytes();
    [0x24, 1, high, middle, low]
}

/// The value of an object that was put under a key; of any other bytes one that no client puts.
pub(crate) fn value_of(bytes: &[u8], key: u32) -> u32 {
    let value = match bytes {
        [.., x, y, z] => u32::from_be_bytes([0, *x, *y, *z]),
        _ => 0,
    };
    if bytes == object(key, value).as_slice() {
        value
    } else {
        u32::MAX
    }
}

/// Writes the object with the next value, as `change` wants it.
pub(crate) fn write_next(old: &[u8], key: u32, into: &mut Code, at: &mut usize) -> bool
    ensures { IsTrue result → IsPair 1 (number_code key, into.new.items) × StandsAt (number_code key) into.new.items at.new }
{
    let next = object(key, value_of(old, key).wrapping_add(1));
    into.clear();
    *at = 5;
    into.try_extend_from_slice(&next).is_ok()
}
