//! A message that is being written.

ghost use Rattle.std.specs.Prelude.{◌≡◌, ◌+◌, ◌<◌, ◌≤◌, ◌↔◌, [], ◌∷◌, IfOk, IfSome, IfNone, OnOk, OnErr, IsTrue, length};
ghost use Rattle.item_key.specs.Keys.{place, least, infinity};
ghost use Rattle.neg_codec.specs.Ranges.{edge_of, claim_of, span_of};
ghost use Rattle.neg_codec.specs.Encoding.{text_of, IsShort};
ghost use Rattle.neg_draft.specs.Coverage.{Written, Tells, passed, told_more, before_payload, IsDraft};

use crate::ranges::Ranges;
use neg_codec::{Bound, Message, Range};
use std::alloc::{AllocError, Global};
use std::marker::Model;

/// The bound, the mode and the count of a range take no more bytes.
const MOST_HEAD: usize = 48;

/// So many bytes are kept free for the two ranges that end a message which is cut: the Skip that waits, at most 44 bytes,
/// and one fingerprint up to infinity, 19 bytes.
const SPARE: usize = 64;

/// Ranges that are written from front to back (Negentropy protocol V1, "Message"), up to a number of
/// bytes. Nothing is said of what lies between two of them, and behind the last: neighbouring Skips are
/// one range, and a Skip at the end isn't written.
#[derive(Drop)]
pub struct Draft {
    /// How many bytes the message may have.
    limit: usize,
    ranges: Ranges,
    /// Up to where the draft has come: from where the ranges end to here all is skipped.
    end: Bound,
    /// Where in a roll the two bounds stand that were looked up last: others are looked for from there on.
    pub(crate) places: (usize, usize),
}

impl Model for Draft {
    ghost use Rattle.std.specs.Prelude.{◌<◌, ◌^◌};
    ghost use Rattle.neg_codec.specs.Ranges.{edge_of};
    ghost use Rattle.neg_draft.specs.Coverage.{Written, IsDraft};

    ghost Value = { Written };

    ghost view = { λ d. record { limit = d.limit; spans = d.ranges; end = edge_of d.end } };

    ghost invariant = { λ d. IsDraft (record { limit = d.limit; spans = d.ranges; end = edge_of d.end }) × (d.limit < 2 ^ 64) };
}

impl Draft {
    /// A draft that says nothing and has come no further than the least key. Its message will have no
    /// more bytes than the limit. It takes no memory.
    pub fn new(alloc: Global, limit: usize) -> Draft
        requires { 4096 ≤ limit }
        ensures { result ≡ record { limit = limit; spans = []; end = least } }
    {
        Draft {
            limit,
            ranges: Ranges::none(alloc),
            end: Bound::lowest(),
            places: (0, 0),
        }
    }

    /// Up to where the draft has come, exclusive.
    pub fn end(&self) -> Bound
        ensures end { edge_of result ≡ self.now.end }
        ensures draft { IsDraft self.now }
    {
        self.end
    }

    /// Whether the draft has come to infinity, so that no key is left.
    pub fn is_over(&self) -> bool
        ensures over { IsTrue result ↔ place infinity ≤ place self.now.end }
        ensures draft { IsDraft self.now }
    {
        !self.end.is_below(&Bound::Infinite)
    }

    /// Goes up to a bound, unless it has come further, and says nothing of the keys below it. It takes no
    /// memory.
    pub fn skip(self, upper: Bound) -> Draft
        ensures now { result ≡ passed self (edge_of upper) }
        ensures draft { IsDraft self }
    {
        let _ = upper.edge();
        let Draft {
            limit,
            ranges,
            end,
            places,
        } = self;
        let end = if end.is_below(&upper) { upper } else { end };
        Draft {
            limit,
            ranges,
            end,
            places,
        }
    }

    /// How many bytes of payload the next range may have, if any range fits.
    pub(crate) fn room(&self) -> Option<usize>
        requires { place self.now.end < place infinity }
        ensures some { IfSome result (λ n. before_payload self.now + n + 64 ≡ self.now.limit) }
        ensures none { IfNone result (self.now.limit < before_payload self.now + 64) }
    {
        let waits = self.ranges.end().is_below(&self.end);
        let head = if waits { 2 * MOST_HEAD } else { MOST_HEAD };
        (self.limit - SPARE - self.ranges.spent()).checked_sub(head)
    }

    /// Tells a range, more than a Skip, from where the draft has come to. Where memory is refused, nothing is told.
    pub(crate) fn add(&mut self, range: Range) -> Result<(), AllocError>
        requires tells { Tells self.old.end (edge_of range.upper) (span_of range ∷ []) }
        requires short { IsShort (claim_of range.payload) }
        requires fits { length (text_of (told_more self.old (edge_of range.upper) (span_of range ∷ [])).spans) ≤ self.old.limit }
        requires room { place (edge_of range.upper) < place infinity → length (text_of (told_more self.old (edge_of range.upper) (span_of range ∷ [])).spans) + 64 ≤ self.old.limit }
        ensures ok { OnOk result (self.new ≡ told_more self.old (edge_of range.upper) (span_of range ∷ [])) }
        ensures err { OnErr result (self.new ≡ self.old) }
    {
        let upper = range.upper;
        let _ = upper.edge();
        self.ranges.push_from(self.end, range)?;
        self.end = upper;
        Ok(())
    }

    /// Tells a range as `add` does. Where memory is refused, the draft is gone.
    pub(crate) fn tell(self, range: Range) -> Result<Draft, AllocError>
        requires tells { Tells self.end (edge_of range.upper) (span_of range ∷ []) }
        requires short { IsShort (claim_of range.payload) }
        requires fits { length (text_of (told_more self (edge_of range.upper) (span_of range ∷ [])).spans) ≤ self.limit }
        requires room { place (edge_of range.upper) < place infinity → length (text_of (told_more self (edge_of range.upper) (span_of range ∷ [])).spans) + 64 ≤ self.limit }
        ensures { IfOk result (λ d. d ≡ told_more self (edge_of range.upper) (span_of range ∷ [])) }
    {
        let mut draft = self;
        draft.add(range)?;
        Ok(draft)
    }

    /// The message of what was told, which says nothing of the keys behind that. It costs a pass over the
    /// ranges, and takes no memory.
    pub fn into_message(self) -> Message
        ensures value { result ≡ self.spans }
        ensures draft { IsDraft self }
    {
        let Draft { ranges, .. } = self;
        match Message::of(ranges.into_list()) {
            Ok(message) => message,
            Err(_) => unreachable!(),
        }
    }
}
