//! The objects that clients put.
ghost use Rattle.std.specs.Prelude.{◌≡◌, slice_range};
ghost use Rattle.ca_model.specs.StoreMap.{IsPair};
ghost use Rattle.ca_join_tests.specs.Objects.{number_code};

/// The code of the tuple of the numbers 2 ^ 24 + key and 2 ^ 24 + value, of both of which the lower 24 bits count. Its key stands from byte 5 to
/// byte 10.
pub(crate) fn object(key: u32, value: u32) -> [u8; 15]
    ensures pair { IsPair 1 (slice_range result 5 10, result) }
    ensures key { slice_range result 5 10 ≡ number_code key }
{
    let [_, high, middle, low] = key.to_be_bytes();
    let [_, x, y, z] = value.to_be_bytes();
    [
        0x40, 0, 0, 0, 2, 0x24, 1, high, middle, low, 0x24, 1, x, y, z,
    ]
}

/// The code of the number 2 ^ 24 + key.
pub(crate) fn key_code(key: u32) -> [u8; 5]
    ensures { result ≡ number_code key }
{
    let [_, high, middle, low] = key.to_be_bytes();
    [0x24, 1, high, middle, low]
}
