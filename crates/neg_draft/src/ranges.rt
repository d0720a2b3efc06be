//! Ranges, with how many bytes they take.

ghost use Rattle.std.specs.Prelude.{◌≡◌, ◌+◌, ◌<◌, ◌≤◌, ◌↔◌, ◌^◌, [], ◌∷◌, ◌++◌, IsTrue, OnOk, OnErr, length, map, take};
ghost use Rattle.item_key.specs.Keys.{place, least};
ghost use Rattle.neg_codec.specs.Ranges.{edge_of, claim_of, span_of};
ghost use Rattle.neg_codec.specs.Encoding.{text_of, IsShort};
ghost use Rattle.neg_draft.specs.Coverage.{end_of, gap};

use neg_codec::{Bound, Payload, Range};
use std::alloc::{AllocError, Global};
use std::marker::Model;

/// The ranges of a message that is being written.
#[derive(Drop)]
pub struct Ranges {
    list: Vec<Range>,
    /// How many bytes the message takes.
    spent: usize,
    /// Where the ranges end.
    end: Bound,
}

impl Model for Ranges {
    ghost use Rattle.std.specs.Prelude.{List, ◌≡◌, map, length};
    ghost use Rattle.item_key.specs.Keys.{least};
    ghost use Rattle.neg_codec.specs.Ranges.{Span, edge_of, span_of};
    ghost use Rattle.neg_codec.specs.Encoding.{text_of};
    ghost use Rattle.neg_draft.specs.Coverage.{end_of};

    ghost Value = { List Span };

    ghost view = { λ r. map span_of r.list.items };

    ghost invariant = { λ r. (r.spent ≡ length (text_of (map span_of r.list.items))) × (edge_of r.end ≡ end_of least (map span_of r.list.items)) };
}

impl Ranges {
    /// No ranges. It takes no memory.
    pub fn none(alloc: Global) -> Ranges
        ensures { result ≡ [] }
    {
        Ranges {
            list: Vec::new(alloc),
            spent: 1,
            end: Bound::lowest(),
        }
    }

    /// How many bytes the message takes.
    pub fn spent(&self) -> usize
        ensures { result ≡ length (text_of self.now) }
    {
        self.spent
    }

    /// Where the ranges end.
    pub fn end(&self) -> Bound
        ensures { edge_of result ≡ end_of least self.now }
    {
        self.end
    }

    /// One range more.
    pub fn push(&mut self, range: Range) -> Result<(), AllocError>
        requires above { place (end_of least self.old) ≤ place (edge_of range.upper) }
        requires short { IsShort (claim_of range.payload) }
        requires fits { length (text_of (self.old ++ span_of range ∷ [])) < 2 ^ 64 }
        ensures ok { OnOk result (self.new ≡ self.old ++ span_of range ∷ []) }
        ensures err { OnErr result (self.new ≡ self.old) }
    {
        let upper = range.upper;
        let _ = upper.edge();
        let spent = self.spent + range.len_after(self.end.time());
        self.list.push(range)?;
        self.spent = spent;
        self.end = upper;
        Ok(())
    }

    /// The Skip up to a bound, where the ranges end below it.
    pub fn fill(&mut self, upper: Bound) -> Result<(), AllocError>
        requires { length (text_of (self.old ++ gap (end_of least self.old) (edge_of upper))) < 2 ^ 64 }
        ensures ok { OnOk result (self.new ≡ self.old ++ gap (end_of least self.old) (edge_of upper)) }
        ensures err { OnErr result (self.new ≡ self.old) }
    {
        if self.end().is_below(&upper) {
            self.push(Range {
                upper,
                payload: Payload::Skip,
            })?;
        }
        Ok(())
    }

    /// Goes back to so many ranges, which took so many bytes and ended there.
    fn go_back(&mut self, count: usize, spent: usize, end: Bound)
        requires spent { spent ≡ length (text_of (take count self.old)) }
        requires end { edge_of end ≡ end_of least (take count self.old) }
        ensures { self.new ≡ take count self.old }
    {
        self.list.truncate(count);
        self.spent = spent;
        self.end = end;
    }

    /// One range more, after the Skip up to a bound where the ranges end below that. Where memory is refused, all stays as
    /// it was.
    pub fn push_from(&mut self, from: Bound, range: Range) -> Result<(), AllocError>
        requires above { place (end_of least (self.old ++ gap (end_of least self.old) (edge_of from))) ≤ place (edge_of range.upper) }
        requires short { IsShort (claim_of range.payload) }
        requires skip { length (text_of (self.old ++ gap (end_of least self.old) (edge_of from))) < 2 ^ 64 }
        requires fits { length (text_of ((self.old ++ gap (end_of least self.old) (edge_of from)) ++ span_of range ∷ [])) < 2 ^ 64 }
        ensures ok { OnOk result (self.new ≡ (self.old ++ gap (end_of least self.old) (edge_of from)) ++ span_of range ∷ []) }
        ensures err { OnErr result (self.new ≡ self.old) }
    {
        let (count, spent, end) = (self.list.len(), self.spent, self.end);
        self.fill(from)?;
        match self.push(range) {
            Ok(()) => Ok(()),
            Err(error) => {
                self.go_back(count, spent, end);
                Err(error)
            }
        }
    }

    /// The ranges as a list.
    pub fn into_list(self) -> Vec<Range>
        ensures { map span_of result.items ≡ self }
    {
        let Ranges { list, .. } = self;
        list
    }
}
