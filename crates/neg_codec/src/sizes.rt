//! How many bytes ranges take.

ghost use Rattle.std.specs.Prelude.{◌≡◌, ◌<◌, ◌≤◌, ◌^◌, length};
ghost use Rattle.neg_codec.specs.Ranges.{edge_of, claim_of, span_of, IsSpan};
ghost use Rattle.neg_codec.specs.Encoding.{bound_text, claim_text, range_text, IsShort};

use crate::message::{ids_have_their_lengths, print_has_its_length, span_has_its_lengths};
use crate::writing::len_kept;
use crate::{Bound, Payload, Range};
use item_key::Key;
use neg_varint::spell;

/// How many bytes a bound takes that isn't infinite, above the time before.
fn key_len(before: u64, key: &Key) -> usize
    requires { before ≤ key.now.time }
    ensures value { result ≡ length (bound_text before key.now) }
    ensures few { result ≤ 64 }
{
    let item = key.item();
    let (_, code) = spell(1 + (key.time() - before));
    let len = len_kept(item.id.as_bytes());
    let (_, count) = spell(len as u64);
    code + count + len
}

/// How many bytes a bound takes.
fn bound_len(before: u64, upper: &Bound) -> usize
    requires { before ≤ (edge_of upper.now).time }
    ensures value { result ≡ length (bound_text before (edge_of upper.now)) }
    ensures few { result ≤ 64 }
{
    match upper {
        Bound::At(key) => key_len(before, key),
        Bound::Infinite => 2,
    }
}

/// How many bytes a mode and a payload take.
fn payload_len(payload: &Payload) -> usize
    requires { IsShort (claim_of payload.now) }
    ensures value { result ≡ length (claim_text (claim_of payload.now)) }
    ensures few { result < 2 ^ 27 }
{
    match payload {
        Payload::Skip => 1,
        Payload::Print(print) => {
            print_has_its_length(print);
            17
        }
        Payload::Ids(list) => {
            ids_have_their_lengths(list);
            let (_, count) = spell(list.len() as u64);
            1 + count + 32 * list.len()
        }
    }
}

impl Range {
    /// How many bytes the range takes in a message, behind one that ends at a time in seconds
    /// (Negentropy protocol V1, "Range").
    pub fn len_after(&self, before: u64) -> usize
        requires after { before ≤ (edge_of self.now.upper).time }
        requires short { IsShort (claim_of self.now.payload) }
        ensures value { result ≡ length (range_text before (span_of self.now)) }
        ensures span { IsSpan (span_of self.now) }
    {
        span_has_its_lengths(self);
        bound_len(before, &self.upper) + payload_len(&self.payload)
    }
}
