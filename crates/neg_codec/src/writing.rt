//! How messages are written.

ghost use Rattle.std.specs.Prelude.{◌≡◌, ◌++◌, ◌+◌, ◌-◌, ◌≤◌, IsTrue, IfOk, OnOk, length, take, drop, replicate};
ghost use Rattle.std.specs.List.{flat_map};
ghost use Rattle.neg_codec.specs.Ranges.{edge_of, claim_of, span_of};
ghost use Rattle.neg_codec.specs.Text.{Spells};
ghost use Rattle.neg_codec.specs.Encoding.{length_kept, bound_text, claim_text, range_text, text_of};

use crate::{Bound, Message, Payload, Range};
use item_key::{Id, Key};
use neg_varint::put;
use std::alloc::{AllocError, Global};

/// Most ranges with a fingerprint take no more bytes.
const RANGE_BYTES: usize = 24;

/// Whether eight bytes of an id, those from a place on, are zeros.
fn are_zeros(id: &[u8; 32], from: usize) -> bool
    requires { from + 8 ≤ 32 }
    ensures { IsTrue result → take 8 (drop from id.now) ≡ replicate 8 0 }
{
    let mut word = [0; 8];
    word.copy_from_slice(&id[from..from + 8]);
    u64::from_be_bytes(word) == 0
}

/// How many bytes of an id are left without zeros at its end, of which eight at a time are left out.
fn words_kept(id: &[u8; 32]) -> usize
    ensures within { result ≤ 32 }
    ensures zeros { drop result id.now ≡ replicate (32 - result) 0 }
{
    let mut len = 32;
    while len >= 8 {
        if !are_zeros(id, len - 8) {
            return len;
        }
        len -= 8;
    }
    len
}

/// How many bytes of an id are left without the zeros at its end.
pub(crate) fn len_kept(id: &[u8; 32]) -> usize
    ensures value { result ≡ length_kept id.now }
    ensures within { result ≤ length id.now }
{
    let mut len = words_kept(id);
    while len > 0 {
        if id[len - 1] != 0 {
            return len;
        }
        len -= 1;
    }
    0
}

/// Appends a bound that isn't infinite, above the time before.
fn put_key(out: &mut Vec<u8>, before: u64, key: &Key) -> Result<(), AllocError>
    requires { before ≤ key.now.time }
    ensures { OnOk result (out.new.items ≡ out.old.items ++ bound_text before key.now) }
{
    let item = key.item();
    let id = item.id.as_bytes();
    let len = len_kept(id);
    put(out, 1 + (key.time() - before))?;
    put(out, len as u64)?;
    out.extend_from_slice(&id[..len])
}

/// Appends a bound.
fn put_bound(out: &mut Vec<u8>, before: u64, upper: &Bound) -> Result<(), AllocError>
    requires { before ≤ (edge_of upper.now).time }
    ensures { OnOk result (out.new.items ≡ out.old.items ++ bound_text before (edge_of upper.now)) }
{
    match upper {
        Bound::At(key) => put_key(out, before, key),
        Bound::Infinite => out.extend_from_slice(&[0, 0]),
    }
}

/// Appends ids.
fn put_ids(out: &mut Vec<u8>, list: &[Id]) -> Result<(), AllocError>
    ensures { OnOk result (out.new.items ≡ out.old.items ++ flat_map (λ i. i.0) list.now) }
{
    for id in list {
        out.extend_from_slice(id.as_bytes())?;
    }
    Ok(())
}

/// Appends a mode and a payload.
fn put_payload(out: &mut Vec<u8>, payload: &Payload) -> Result<(), AllocError>
    ensures { OnOk result (out.new.items ≡ out.old.items ++ claim_text (claim_of payload.now)) }
{
    match payload {
        Payload::Skip => put(out, 0),
        Payload::Print(bytes) => {
            put(out, 1)?;
            out.extend_from_slice(bytes)
        }
        Payload::Ids(list) => {
            put(out, 2)?;
            put(out, list.len() as u64)?;
            put_ids(out, list)
        }
    }
}

/// Appends a range, above the time before.
fn put_range(out: &mut Vec<u8>, before: u64, range: &Range) -> Result<(), AllocError>
    requires { before ≤ (edge_of range.now.upper).time }
    ensures { OnOk result (out.new.items ≡ out.old.items ++ range_text before (span_of range.now)) }
{
    put_bound(out, before, &range.upper)?;
    put_payload(out, &range.payload)
}

/// The bytes of a message: each bound with the shortest length that leaves only zeros out, and
/// infinity as two zeros (Negentropy protocol V1, "Bound").
pub fn encode(alloc: Global, message: &Message) -> Result<Vec<u8>, AllocError>
    ensures text { IfOk result (λ v. v.items ≡ text_of message.now) }
    ensures spelled { IfOk result (λ v. Spells v.items message.now) }
{
    let ranges = message.ranges();
    let mut out = Vec::with_capacity(alloc, ranges.len().saturating_mul(RANGE_BYTES))?;
    out.push(0x61)?;
    let mut before = 0;
    for range in ranges {
        put_range(&mut out, before, range)?;
        before = range.upper.time();
    }
    Ok(out)
}
