// Texts of lower-case hexadecimal digits.
ghost use Rattle.std.specs.Prelude.{◌≡◌, ◌++◌, List, ℕ, IfSome, None, IfOk, IfErr};
ghost use Rattle.hex.specs.Hex.{encode_lower};
ghost use Rattle.nostr_event.specs.EventView.{IsBytesOf};

use crate::fault::{EventFault, EventField};
use id_text::{digits_of, parse_id};
use item_key::Id;

/// The 32 bytes that the text spells in 64 lower-case hexadecimal digits, if it does.
pub fn bytes32_of(text: &str) -> Option<[u8; 32]>
    ensures found { IfSome result (λ b. IsBytesOf 32 b × (text.now ≡ encode_lower b)) }
    ensures missing { result ≡ None → (b : List ℕ) → IsBytesOf 32 b → ¬ (text.now ≡ encode_lower b) }
{
    let id = parse_id(text.as_bytes())?;
    Some(id.0)
}

// The first bytes, and the second behind them.
fn joined(first: &[u8; 32], second: &[u8; 32]) -> [u8; 64]
    ensures { result ≡ first.now ++ second.now }
{
    let mut both = [0; 64];
    both[..32].copy_from_slice(first);
    both[32..].copy_from_slice(second);
    both
}

/// The 64 bytes that the text spells in 128 lower-case hexadecimal digits, if it does.
pub fn bytes64_of(text: &str) -> Option<[u8; 64]>
    ensures found { IfSome result (λ b. IsBytesOf 64 b × (text.now ≡ encode_lower b)) }
    ensures missing { result ≡ None → (b : List ℕ) → IsBytesOf 64 b → ¬ (text.now ≡ encode_lower b) }
{
    let digits = text.as_bytes();
    if digits.len() != 128 {
        return None;
    }
    let (first, second) = digits.split_at(64);
    let first = parse_id(first)?;
    let second = parse_id(second)?;
    Some(joined(&first.0, &second.0))
}

// The 32 bytes that the field's text spells.
pub fn hex32_at(text: &str, field: EventField) -> Result<[u8; 32], EventFault>
    ensures ok { IfOk result (λ b. IsBytesOf 32 b × (text.now ≡ encode_lower b)) }
    ensures err { IfErr result (λ e. (e ≡ EventFault.Hex field)
        × ((b : List ℕ) → IsBytesOf 32 b → ¬ (text.now ≡ encode_lower b))) }
{
    match bytes32_of(text) {
        Some(bytes) => Ok(bytes),
        None => Err(EventFault::Hex(field)),
    }
}

// The 64 bytes that the field's text spells.
pub fn hex64_at(text: &str, field: EventField) -> Result<[u8; 64], EventFault>
    ensures ok { IfOk result (λ b. IsBytesOf 64 b × (text.now ≡ encode_lower b)) }
    ensures err { IfErr result (λ e. (e ≡ EventFault.Hex field)
        × ((b : List ℕ) → IsBytesOf 64 b → ¬ (text.now ≡ encode_lower b))) }
{
    match bytes64_of(text) {
        Some(bytes) => Ok(bytes),
        None => Err(EventFault::Hex(field)),
    }
}

// The digits of 32 bytes, those of the first byte first.
pub fn digits32_of(bytes: &[u8; 32]) -> [u8; 64]
    ensures { result ≡ encode_lower bytes.now }
{
    digits_of(&Id(*bytes))
}

// The first 32 bytes, and the others.
fn halves_of(bytes: &[u8; 64]) -> ([u8; 32], [u8; 32])
    ensures { bytes.now ≡ result.0 ++ result.1 }
{
    let (front, back) = bytes.split_at(32);
    let mut first = [0; 32];
    first.copy_from_slice(front);
    let mut second = [0; 32];
    second.copy_from_slice(back);
    (first, second)
}

// The first digits, and the second behind them.
fn joined_digits(first: &[u8; 64], second: &[u8; 64]) -> [u8; 128]
    ensures { result ≡ first.now ++ second.now }
{
    let mut both = [0; 128];
    both[..64].copy_from_slice(first);
    both[64..].copy_from_slice(second);
    both
}

// The digits of 64 bytes, those of the first byte first.
pub fn digits64_of(bytes: &[u8; 64]) -> [u8; 128]
    ensures { result ≡ encode_lower bytes.now }
{
    let (first, second) = halves_of(bytes);
    joined_digits(&digits32_of(&first), &digits32_of(&second))
}
