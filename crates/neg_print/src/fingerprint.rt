//! Fingerprints.

ghost use Rattle.std.specs.Prelude.{◌≡◌, ◌++◌};
ghost use Rattle.neg_print.specs.Print.{print_by, little_bytes};
ghost use Rattle.neg_print.specs.Total.{limb_number, total_of};

use crate::Sum;
use sha2::{Digest, Sha256};

/// The digits' bytes, the lowest first, and ten more.
fn text_of(limbs: &[u64; 4], last: &[u8; 10]) -> [u8; 42]
    ensures { result ≡ little_bytes 32 (limb_number limbs.now) ++ last.now }
{
    let _ = limbs.as_slice();
    let _ = last.as_slice();
    let mut text = [0; 42];
    text[..8].copy_from_slice(&limbs[0].to_le_bytes());
    text[8..16].copy_from_slice(&limbs[1].to_le_bytes());
    text[16..24].copy_from_slice(&limbs[2].to_le_bytes());
    text[24..32].copy_from_slice(&limbs[3].to_le_bytes());
    text[32..].copy_from_slice(last);
    text
}

/// The fingerprint of a sum by its digits.
fn print_limbs(limbs: &[u64; 4], count: u64) -> [u8; 16]
    ensures { result ≡ print_by (limb_number limbs.now) count }
{
    let _ = limbs.as_slice();
    let (spelling, len) = neg_varint::spell(count);
    let text = text_of(limbs, &spelling);
    let mut hasher = Sha256::new();
    hasher.update(&text[..32 + len]);
    let digest = hasher.finalize();
    let mut print = [0; 16];
    print.copy_from_slice(&digest[..16]);
    print
}

/// The fingerprint of a set of `count` ids with that sum: the first 16 bytes of SHA-256 (FIPS 180-4)
/// over the sum in 32 little-endian bytes and the count as a varint.
pub fn print(sum: Sum, count: u64) -> [u8; 16]
    ensures { result ≡ print_by (total_of sum) count }
{
    print_limbs(&sum.limbs(), count)
}
