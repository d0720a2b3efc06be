//! The id that a text tells.

ghost use Rattle.std.specs.Prelude.{◌≡◌, ◌≢◌, ◌<◌, ◌≤◌, ◌⊎◌, ◌/◌, ◌%◌, ℕ, All, length, map, IfSome, IfNone, slice_index};
ghost use Rattle.hex.specs.Hex.{encode_lower, lower_digits};
ghost use Rattle.item_key.specs.declared.Id.{Id as AnId};
ghost use Rattle.item_key.specs.Keys.{IsId};

use item_key::Id;

/// The value of a lower-case hex digit, and 16 for another byte.
pub(crate) fn hex_digit(byte: u8) -> u8
    ensures digit { result < 16 → byte ≡ slice_index lower_digits result }
    ensures other { 16 ≤ result → (d : ℕ) → d < 16 → byte ≢ slice_index lower_digits d }
    ensures small { result ≤ 16 }
{
    let number = byte.wrapping_sub(b'0');
    let letter = byte.wrapping_sub(b'a');
    if number < 10 {
        number
    } else if letter < 6 {
        letter + 10
    } else {
        16
    }
}

/// The greater of two.
pub(crate) fn greater(a: u8, b: u8) -> u8
    ensures above { (a ≤ result) × (b ≤ result) }
    ensures one { (result ≡ a) ⊎ (result ≡ b) }
{
    if a < b { b } else { a }
}

/// The values of 64 digits, and the greatest of them. All digits are looked at before one is refused, so that none costs a
/// branch and this becomes vector code.
fn values_of(text: &[u8]) -> ([u8; 64], u8)
    requires { length text.now ≡ 64 }
    ensures digits { result.1 < 16 → text.now ≡ map (slice_index lower_digits) result.0 }
    ensures small { result.1 < 16 → All (λ v. v < 16) result.0 }
    ensures other { 16 ≤ result.1 → (id : AnId) → IsId id → text.now ≢ encode_lower id.0 }
{
    let mut values = [0; 64];
    let mut most = 0;
    for i in 0..64 {
        let value = hex_digit(text[i]);
        values[i] = value;
        most = greater(most, value);
    }
    (values, most)
}

/// The byte of two digits.
pub(crate) fn byte_of(high: u8, low: u8) -> u8
    ensures high { high < 16 → low < 16 → result / 16 ≡ high }
    ensures low { high < 16 → low < 16 → result % 16 ≡ low }
{
    high.wrapping_mul(16).wrapping_add(low)
}

/// The id whose digits have these values. It stays a function of its own: where this loop and that of `values_of` stand in one, the
/// compiler makes of this one code that takes three times as long.
#[inline(never)]
fn id_of(values: &[u8; 64]) -> Id
    requires { All (λ v. v < 16) values.now }
    ensures digits { map (slice_index lower_digits) values.now ≡ encode_lower result.0 }
    ensures id { IsId result }
{
    let mut id = [0; 32];
    for i in 0..32 {
        id[i] = byte_of(values[2 * i], values[2 * i + 1]);
    }
    Id(id)
}

/// The id of a text of 64 lower-case hex digits, in the order of its bytes.
pub fn parse_id(text: &[u8]) -> Option<Id>
    ensures found { IfSome result (λ id. text.now ≡ encode_lower id.0) }
    ensures id { IfSome result IsId }
    ensures none { IfNone result ((id : AnId) → IsId id → text.now ≢ encode_lower id.0) }
{
    if text.len() != 64 {
        return None;
    }
    let (values, most) = values_of(text);
    if most > 15 {
        return None;
    }
    Some(id_of(&values))
}
