//! Numbers in base 128, most significant digit first (Negentropy protocol V1, "Varint").
#![tactic(auto)]

ghost use Rattle.std.specs.Prelude.{◌≡◌, ℕ, ◌+◌, ◌-◌, ◌++◌, ◌%◌, ◌^◌, ◌<◌, ◌≤◌, length, take, replicate, List, IfOk, OnOk, OnErr, if◌then◌else◌};
ghost use Rattle.neg_varint.specs.Spelling.{IsSpelling, OneSpelling, spelling};
ghost use Rattle.neg_varint.specs.Reading.{GivesNumber};

use std::alloc::AllocError;
use thiserror::Error;

/// Why bytes begin with no number: the first fault from left to right.
#[derive(Clone, Copy, Debug, PartialEq, Eq, Error)]
pub enum VarintFault {
    /// The bytes end before the last digit.
    #[error("a number is cut short")]
    Truncated,
    /// The first of several digits is 0.
    #[error("a number begins with a digit 0")]
    Padded,
    /// The number reaches 2^64.
    #[error("a number is 2^64 or more")]
    TooLarge,
}

/// How many digits a number has in base 128, at least one.
fn digit_count(n: u64) -> usize
    ensures few { 0 < result × result ≤ 10 }
    ensures below { n < 128 ^ result }
    ensures least { 1 < result → 128 ^ (result - 1) ≤ n }
{
    if n < 1 << 7 {
        1
    } else if n < 1 << 14 {
        2
    } else if n < 1 << 21 {
        3
    } else if n < 1 << 28 {
        4
    } else if n < 1 << 35 {
        5
    } else if n < 1 << 42 {
        6
    } else if n < 1 << 49 {
        7
    } else if n < 1 << 56 {
        8
    } else if n < 1 << 63 {
        9
    } else {
        10
    }
}

/// The last digit of a number, marked unless it is the last byte.
fn marked_digit(n: u64, is_last: bool) -> u8
    ensures { result ≡ (if is_last then n % 128 else 128 + n % 128) }
{
    let digit = (n % 128) as u8;
    if is_last { digit } else { 128 + digit }
}

/// The spelling, then zeros, and the spelling's length.
fn digits_of(n: u64) -> ([u8; 10], usize)
    ensures few { 0 < result.1 × result.1 ≤ 10 }
    ensures spelled { (text : List ℕ) × IsSpelling n text × (length text ≡ result.1) × (result.0 ≡ text ++ replicate (10 - result.1) 0) }
{
    let mut bytes = [0; 10];
    let len = digit_count(n);
    let mut rest = n;
    let mut at = len;
    while at > 0 {
        at -= 1;
        bytes[at] = marked_digit(rest, at + 1 == len);
        rest /= 128;
    }
    (bytes, len)
}

/// The spelling of a number, then zeros, and the spelling's length in bytes.
pub fn spell(n: u64) -> ([u8; 10], usize)
    ensures value { result.0 ≡ spelling n ++ replicate (10 - result.1) 0 }
    ensures len { result.1 ≡ length (spelling n) }
    ensures few { 0 < result.1 × result.1 ≤ 10 }
    ensures spelled { IsSpelling n (spelling n) }
{
    digits_of(n)
}

/// A law: each number below 2^64 has one spelling, the one that its digits give.
pub fn one_spelling()
    ensures { OneSpelling }
{}

/// Appends the spelling of a number.
pub fn put(out: &mut Vec<u8>, n: u64) -> Result<(), AllocError>
    ensures ok { OnOk result (out.new.items ≡ out.old.items ++ spelling n) }
    ensures err { OnErr result (out.new.items ≡ out.old.items) }
    ensures spelled { IsSpelling n (spelling n) }
{
    if n < 128 {
        out.push(n as u8)?;
        return Ok(());
    }
    let (bytes, len) = spell(n);
    out.extend_from_slice(&bytes[..len])
}

fn first_number(bytes: &[u8]) -> Result<(u64, usize), VarintFault>
    ensures some { IfOk result (λ x. 0 < x.1) }
    ensures exact { GivesNumber result bytes.now }
{
    if bytes.starts_with(&[128]) {
        return Err(VarintFault::Padded);
    }
    let mut value: u64 = 0;
    for (i, byte) in bytes.iter().enumerate() {
        let byte = *byte;
        if value >= 1 << 57 {
            return Err(VarintFault::TooLarge);
        }
        value = 128 * value + u64::from(byte % 128);
        if byte < 128 {
            return Ok((value, i + 1));
        }
    }
    Err(VarintFault::Truncated)
}

/// The number at the front, and how many bytes spell it. A padded number is refused.
pub fn take(bytes: &[u8]) -> Result<(u64, usize), VarintFault>
    // A spelling has a byte.
    ensures some { IfOk result (λ x. 0 < x.1) }
    // What is read is spelled so, and what is spelled so is read.
    ensures found { IfOk result (λ x. (x.1 ≤ length bytes.now) × IsSpelling x.0 (take x.1 bytes.now)) }
    ensures only { (n k : ℕ) → k ≤ length bytes.now → IsSpelling n (take k bytes.now) → result ≡ Ok (n, k) }
    // Which fault it is.
    ensures exact { GivesNumber result bytes.now }
{
    first_number(bytes)
}
