//! The digits of an id.

ghost use Rattle.std.specs.Prelude.{◌≡◌, ◌<◌, slice_index};
ghost use Rattle.hex.specs.Hex.{encode_lower, lower_digits};
ghost use Rattle.item_key.specs.Keys.{IsId};

use item_key::Id;

/// The lower-case hex digit of a number below 16.
fn hex_digit(value: u8) -> u8
    requires { value < 16 }
    ensures { result ≡ slice_index lower_digits value }
{
    if value < 10 { value + b'0' } else { value + 87 }
}

/// The lower-case hex digits of an id, those of its first byte first.
pub fn digits_of(id: &Id) -> [u8; 64]
    ensures digits { result ≡ encode_lower id.now.0 }
    ensures id { IsId id.now }
{
    let bytes = id.as_bytes();
    let mut text = [0; 64];
    for i in 0..32 {
        let byte = bytes[i];
        text[2 * i] = hex_digit(byte / 16);
        text[2 * i + 1] = hex_digit(byte % 16);
    }
    text
}
