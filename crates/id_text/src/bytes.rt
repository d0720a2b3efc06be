//! The bytes that a text tells.

ghost use Rattle.std.specs.Prelude.{◌≡◌, ◌≢◌, ◌<◌, ℕ, List, [], ◌∷◌, All, length, IfOk, IfSome, IfNone};
ghost use Rattle.hex.specs.Hex.{encode_lower};

use crate::parsing::{byte_of, greater, hex_digit, parse_id};
use std::alloc::{AllocError, Global};

/// So many digits are read at once.
const BLOCK: usize = 64;

/// The byte of two digits.
fn pair_byte(pair: &[u8]) -> Option<u8>
    requires { length pair.now ≡ 2 }
    ensures found { IfSome result (λ b. pair.now ≡ encode_lower (b ∷ [])) }
    ensures none { IfNone result ((b : ℕ) → b < 256 → pair.now ≢ encode_lower (b ∷ [])) }
{
    let high = hex_digit(pair[0]);
    let low = hex_digit(pair[1]);
    if greater(high, low) > 15 {
        return None;
    }
    Some(byte_of(high, low))
}

/// The bytes of a text of lower-case hex digits, two for each. A pass over the text.
///
/// # Errors
///
/// Where a growth was refused.
pub fn parse_bytes(alloc: Global, text: &[u8]) -> Result<Option<Vec<u8>>, AllocError>
    ensures found { IfOk result (λ o. IfSome o (λ v. text.now ≡ encode_lower v.items)) }
    ensures none { IfOk result (λ o. IfNone o ((bytes : List ℕ) → All (λ b. b < 256) bytes → text.now ≢ encode_lower bytes)) }
{
    let mut bytes = Vec::with_capacity(alloc, text.len() / 2)?;
    let mut rest = text;
    while rest.len() >= BLOCK {
        let (front, after) = rest.split_at(BLOCK);
        let Some(block) = parse_id(front) else {
            return Ok(None);
        };
        bytes.extend_from_slice(&block.0)?;
        rest = after;
    }
    while rest.len() >= 2 {
        let (front, after) = rest.split_at(2);
        let Some(byte) = pair_byte(front) else {
            return Ok(None);
        };
        bytes.push(byte)?;
        rest = after;
    }
    if rest.is_empty() {
        return Ok(Some(bytes));
    }
    Ok(None)
}
