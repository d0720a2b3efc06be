//! Messages, and how they are read.

ghost use Rattle.std.specs.Prelude.{All, None, Some, IfNone, IfSome, ◌≡◌, ℕ, ◌+◌, ◌*◌, ◌<◌, ◌≤◌, ◌↔◌, List, ◌⊎◌, length, map, Ok, Err, Result, IfOk, IfErr, OnOk, IsOk};
ghost use Rattle.item_key.specs.Keys.{least, IsId};
ghost use Rattle.neg_codec.specs.declared.CodecFault.{CodecFault};
ghost use Rattle.neg_codec.specs.Ranges.{Claim, print, Span, edge_of, span_of, claim_of, Ascends, IsSpan, IsClaim, IsMessage};
ghost use Rattle.neg_codec.specs.Misplaced.{first_misplaced};
ghost use Rattle.neg_codec.specs.Text.{Spells};
ghost use Rattle.neg_codec.specs.Lending.{claim_lent, IsWhole};
ghost use Rattle.neg_codec.specs.Reading.{Gives, ids_of, range_at, ranges_at, message_at, longest};

use crate::fields::{Lent, range_of};
use crate::{Bound, CodecFault, Payload, Range};
use item_key::Id;
use std::alloc::{AllocError, Global};
use std::marker::Model;

/// Ranges whose bounds don't descend, none of them after an infinite bound (Negentropy protocol V1,
/// "Message").
#[derive(Drop)]
pub struct Message {
    ranges: Vec<Range>,
}

impl Model for Message {
    ghost use Rattle.std.specs.Prelude.{List, map};
    ghost use Rattle.neg_codec.specs.Ranges.{Span, span_of, IsMessage};

    ghost Value = { List Span };

    ghost view = { λ m. map span_of m.ranges.items };

    ghost invariant = { λ m. IsMessage (map span_of m.ranges.items) };
}

/// That a print has its length, of bytes.
pub(crate) fn print_has_its_length(bytes: &[u8; 16])
    ensures { IsClaim (print bytes.now) }
{
    let _ = bytes.as_slice();
}

/// That ids have their lengths, of bytes.
pub(crate) fn ids_have_their_lengths(list: &[Id])
    ensures { All IsId list.now }
{
    for id in list {
        let _ = id.as_bytes();
    }
}

/// That a range has what its parts have by their types.
pub(crate) fn span_has_its_lengths(range: &Range)
    ensures { IsSpan (span_of range.now) }
{
    let _ = range.upper.edge();
    match &range.payload {
        Payload::Skip => {}
        Payload::Print(bytes) => print_has_its_length(bytes),
        Payload::Ids(list) => {
            ids_have_their_lengths(list);
            let _ = list.len();
        }
    }
}

/// That ranges have what their parts have by their types.
fn spans_have_their_lengths(ranges: &[Range])
    ensures { All IsSpan (map span_of ranges.now) }
{
    for range in ranges {
        span_has_its_lengths(range);
    }
}

/// The first range out of place, with its index.
fn misplaced(ranges: &[Range]) -> Option<CodecFault>
    ensures { result ≡ first_misplaced (map span_of ranges.now) }
{
    let mut before = Bound::lowest();
    for (i, range) in ranges.iter().enumerate() {
        if range.upper.is_below(&before) {
            return Some(CodecFault::Descending(i));
        }
        if before.time() == u64::MAX {
            return Some(CodecFault::AfterInfinity(i));
        }
        before = range.upper;
    }
    None
}

impl Message {
    /// The message of ranges. They are handed back where one is out of place, with the fault of the
    /// first such range and its index: `Descending` where its bound is below the one before, else
    /// `AfterInfinity`. It takes no memory.
    pub fn of(ranges: Vec<Range>) -> Result<Message, (CodecFault, Vec<Range>)>
        ensures keeps { IfOk result (λ m. m ≡ map span_of ranges.items) }
        ensures in_place { IsOk result ↔ Ascends least (map span_of ranges.items) }
        ensures fault { IfErr result (λ e. first_misplaced (map span_of ranges.items) ≡ Some e.0) }
        ensures hands_back { IfErr result (λ e. e.1 ≡ ranges) }
    {
        spans_have_their_lengths(&ranges);
        match misplaced(&ranges) {
            Some(fault) => Err((fault, ranges)),
            None => Ok(Message { ranges }),
        }
    }

    /// The ranges, in order.
    pub fn ranges(&self) -> &[Range]
        ensures value { map span_of result.now ≡ self.now }
        ensures ordered { IsMessage self.now }
    {
        &self.ranges
    }
}

/// The ids that stand in bytes.
fn ids_listed(alloc: Global, count: u64, bytes: &[u8]) -> Result<Vec<Id>, AllocError>
    requires { length bytes.now ≡ 32 * count }
    ensures { IfOk result (λ v. v.items ≡ ids_of count bytes.now) }
{
    let mut list = Vec::with_capacity(alloc, bytes.len() / 32)?;
    let mut rest = bytes;
    for _ in 0..count {
        let (front, after) = rest.split_at(32);
        let mut id = [0; 32];
        id.copy_from_slice(front);
        list.push(Id(id))?;
        rest = after;
    }
    Ok(list)
}

/// What was read from bytes, apart from them.
fn payload_from(alloc: Global, claim: Lent<'_>) -> Result<Payload, AllocError>
    requires { IsWhole claim }
    ensures { IfOk result (λ p. claim_of p ≡ claim_lent claim.entry) }
{
    match claim {
        Lent::Skip => Ok(Payload::Skip),
        Lent::Print(print) => Ok(Payload::Print(print)),
        Lent::Ids(count, bytes) => Ok(Payload::Ids(ids_listed(alloc, count, bytes)?)),
    }
}

/// The range at the front, apart from the bytes.
fn next_range<'a>(
    alloc: Global,
    total: usize,
    lower: &Bound,
    bytes: &'a [u8],
) -> Result<(Range, &'a [u8]), CodecFault>
    ensures reads { Gives (λ x. (span_of x.0, x.1.now)) result (range_at total (edge_of lower.now) bytes.now) }
    ensures shorter { IfOk result (λ x. length x.1.now < length bytes.now) }
{
    match range_of(total, lower, bytes) {
        Err(fault) => Err(fault),
        Ok((upper, claim, rest)) => match payload_from(alloc, claim) {
            Err(_) => Err(CodecFault::Memory),
            Ok(payload) => Ok((Range { upper, payload }, rest)),
        },
    }
}

/// The ranges to the end of the bytes, with room for so many.
fn ranges_of(
    alloc: Global,
    total: usize,
    bytes: &[u8],
    count: usize,
) -> Result<Vec<Range>, CodecFault>
    ensures { Gives (λ v. map span_of v.items) result (ranges_at (length bytes.now) total least bytes.now) }
{
    let mut ranges = Vec::with_capacity(alloc, count)?;
    let mut lower = Bound::lowest();
    let mut rest = bytes;
    while !rest.is_empty() {
        let (range, after) = next_range(alloc, total, &lower, rest)?;
        lower = range.upper;
        ranges.push(range)?;
        rest = after;
    }
    Ok(ranges)
}

/// Goes past the range at the front: the bytes after it, and in lower where it ends.
fn skip_range<'a>(total: usize, lower: &mut Bound, bytes: &'a [u8]) -> Result<&'a [u8], CodecFault>
    ensures found { IfOk result (λ x. (c : Claim) × (range_at total (edge_of lower.old) bytes.now ≡ Ok (record { upper = edge_of lower.new; claim = c }, x.now))) }
    ensures fault { IfErr result (λ f. range_at total (edge_of lower.old) bytes.now ≡ Err f) }
    ensures shorter { IfOk result (λ x. length x.now < length bytes.now) }
{
    match range_of(total, &*lower, bytes) {
        Err(fault) => Err(fault),
        Ok((upper, _, rest)) => {
            *lower = upper;
            Ok(rest)
        }
    }
}

/// Whether ranges stand to the end of the bytes, and how many. It takes no memory.
fn scan_ranges(total: usize, bytes: &[u8]) -> Result<usize, CodecFault>
    ensures found { OnOk result ((rs : List Span) × (ranges_at (length bytes.now) total least bytes.now ≡ Ok rs)) }
    ensures fault { IfErr result (λ f. ranges_at (length bytes.now) total least bytes.now ≡ Err f) }
{
    let mut lower = Bound::lowest();
    let mut rest = bytes;
    let mut count: usize = 0;
    while !rest.is_empty() {
        rest = skip_range(total, &mut lower, rest)?;
        count = count.saturating_add(1);
    }
    Ok(count)
}

/// The ranges of the message that the bytes spell.
fn message_ranges(alloc: Global, bytes: &[u8]) -> Result<Vec<Range>, CodecFault>
    ensures reads { Gives (λ v. map span_of v.items) result (message_at bytes.now) }
    ensures first { (f : CodecFault) → message_at bytes.now ≡ Err f → result ≡ Err f }
{
    if bytes.len() > 1 << 20 {
        return Err(CodecFault::TooLong);
    }
    if bytes.is_empty() {
        return Err(CodecFault::Empty);
    }
    let version = bytes[0];
    if version != 0x61 {
        return Err(CodecFault::Version(version));
    }
    let (_, rest) = bytes.split_at(1);
    match scan_ranges(bytes.len(), rest) {
        Err(fault) => Err(fault),
        Ok(count) => ranges_of(alloc, bytes.len(), rest, count),
    }
}

/// The message that the bytes spell, at most 1,048,576 of them (Negentropy protocol V1, "Message"),
/// or the first fault from left to right with its place. Every fault is found before memory is taken.
pub fn decode(alloc: Global, bytes: &[u8]) -> Result<Message, CodecFault>
    // What is read is spelled so.
    ensures found { IfOk result (λ m. (length bytes.now ≤ longest) × Spells bytes.now m) }
    // What is spelled so is read, unless memory runs out.
    ensures only { (m : List Span) → length bytes.now ≤ longest → Spells bytes.now m → Gives (λ r. r) result (Ok m) }
    // Which fault it is, and where.
    ensures exact { Gives (λ m. m) result (message_at bytes.now) }
    // It is answered before memory is asked for.
    ensures first { (f : CodecFault) → message_at bytes.now ≡ Err f → result ≡ Err f }
{
    match message_ranges(alloc, bytes) {
        Ok(ranges) => {
            spans_have_their_lengths(&ranges);
            Ok(Message { ranges })
        }
        Err(fault) => Err(fault),
    }
}
