//! Objects of numbers, with a counter each.
ghost use Rattle.std.specs.Prelude.{◌≡◌, IsTrue, slice_range};
ghost use Rattle.ca_bench.specs.Numbers.{number_code};
ghost use Rattle.ca_model.specs.Function.{StandsAt};
ghost use Rattle.ca_model.specs.StoreMap.{IsPair};

use ca_model::Code;

/// The code of the tuple of seven numbers: 2 ^ 24 + key, 2 ^ 24 + 1 and so on up to 2 ^ 24 + 5, and 2 ^ 24 + counter. Of the key and the counter the
/// lower 24 bits count. The key stands from byte 5 to byte 10.
pub fn object(key: u32, counter: u32) -> [u8; 40]
    ensures pair { IsPair 1 (slice_range result 5 10, result) }
    ensures key { IsPair 1 (number_code key, result) × StandsAt (number_code key) result 5 }
{
    let [_, high, middle, low] = key.to_be_bytes();
    let [_, x, y, z] = counter.to_be_bytes();
    [
        0x40, 0, 0, 0, 7, 0x24, 1, high, middle, low, 0x24, 1, 0, 0, 1, 0x24, 1, 0, 0, 2, 0x24, 1,
        0, 0, 3, 0x24, 1, 0, 0, 4, 0x24, 1, 0, 0, 5, 0x24, 1, x, y, z,
    ]
}

/// The code of the number 2 ^ 24 + key.
pub fn key_code(key: u32) -> [u8; 5]
    ensures { result ≡ number_code key }
{
    let [_, high, middle, low] = key.to_be_bytes();
    [0x24, 1, high, middle, low]
}

/// The counter of an object; 0 of fewer than three bytes.
pub fn counter_of(object: &[u8]) -> u32 {
    match object {
        [.., x, y, z] => u32::from_be_bytes([0, *x, *y, *z]),
        _ => 0,
    }
}

/// Writes the object whose counter is one more, as `change` wants it.
pub fn write_next(old: &[u8], key: u32, into: &mut Code, at: &mut usize) -> bool
    ensures { IsTrue result → IsPair 1 (number_code key, into.new.items) × StandsAt (number_code key) into.new.items at.new }
{
    let next = object(key, counter_of(old).wrapping_add(1));
    into.clear();
    *at = 5;
    into.try_extend_from_slice(&next).is_ok()
}
