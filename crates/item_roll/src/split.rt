//! How a piece of a roll is told by ranges.

ghost use Rattle.std.specs.Prelude.{◌≡◌, ◌+◌, ◌-◌, ◌/◌, ◌^◌, ◌<◌, ◌≤◌, [], ◌∷◌, length, map, take, All, IfOk, IfSome, slice_range, slice_index_or};
ghost use Rattle.item_key.specs.declared.Item.{Item};
ghost use Rattle.item_key.specs.Keys.{place, least, IsKey};
ghost use Rattle.neg_codec.specs.Ranges.{print, ids, edge_of, span_of, Ascends};
ghost use Rattle.neg_print.specs.Print.{print_of};
ghost use Rattle.neg_print.specs.Total.{total_of};
ghost use Rattle.item_roll.specs.Parts.{IsRoll, ids_of, count_below};
ghost use Rattle.item_roll.specs.Sums.{sum_at};
ghost use Rattle.item_roll.specs.Splits.{minimal_bound_of, prints_at, split_of};
ghost use Rattle.item_roll.specs.Truth.{IsTrueOf};
ghost use Rattle.item_roll.specs.Closed.{closed_from, Reaches};

use crate::{Roll, minimal_bound};
use neg_codec::{Bound, Payload, Range};
use neg_print::Sum;
use std::alloc::{AllocError, Global};

/// How many fingerprints tell of a piece.
const PIECES: usize = 16;

/// A piece of fewer items is listed.
pub const LISTED_BELOW: usize = 32;

/// Where the first of that many pieces ends, the larger ones first.
fn piece_end(from: usize, hi: usize, pieces: usize) -> usize
    requires some { 2 ≤ pieces }
    requires few { pieces ≤ 16 }
    requires enough { from + pieces ≤ hi }
    ensures value { result ≡ from + (hi - from + pieces - 1) / pieces }
    ensures more { from < result }
    ensures left { result + pieces ≤ hi + 1 }
{
    from + (hi - from).div_ceil(pieces)
}

/// The range of the items from place lo on, below place next, by their fingerprint. Where the sum of all items below lo is
/// known, it needn't be found. That of all below next is handed on where it was found.
fn printed(roll: &Roll, lo: usize, next: usize, below: Option<Sum>) -> (Range, Option<Sum>)
    requires some { lo < next }
    requires within { next < length roll.now }
    requires below { IfSome below (λ s. total_of s ≡ sum_at (take lo roll.now)) }
    ensures range { span_of result.0 ≡ record { upper = minimal_bound_of (slice_index_or roll.now (next - 1) least) (slice_index_or roll.now next least); claim = print (print_of (ids_of (slice_range roll.now lo next))) } }
    ensures below { IfSome result.1 (λ s. total_of s ≡ sum_at (take next roll.now)) }
{
    let (before, at) = roll.pair(next);
    let upper = minimal_bound(&before, &at);
    let (own, below) = roll.print_from(lo, next, below);
    let payload = Payload::Print(own);
    (Range { upper, payload }, below)
}

/// A piece by 16 fingerprints.
fn told_by_prints(
    roll: &Roll,
    alloc: Global,
    lo: usize,
    hi: usize,
    upper: &Bound,
) -> Result<Vec<Range>, AllocError>
    requires enough { lo + 16 ≤ hi }
    requires within { hi ≤ length roll.now }
    ensures { IfOk result (λ v. map span_of v.items ≡ prints_at 15 roll.now lo hi (edge_of upper.now)) }
{
    let mut ranges = Vec::with_capacity(alloc, PIECES)?;
    let mut from = lo;
    let mut below = None;
    for done in 0..PIECES - 1 {
        let next = piece_end(from, hi, PIECES - done);
        let (range, sum) = printed(roll, from, next, below);
        ranges.push(range)?;
        from = next;
        below = sum;
    }
    let (last, _) = roll.print_from(from, hi, below);
    ranges.push(Range {
        upper: *upper,
        payload: Payload::Print(last),
    })?;
    Ok(ranges)
}

/// A piece by its ids.
fn told_by_ids(
    roll: &Roll,
    alloc: Global,
    lo: usize,
    hi: usize,
    upper: &Bound,
) -> Result<Vec<Range>, AllocError>
    requires { lo ≤ hi × hi ≤ length roll.now }
    ensures { IfOk result (λ v. map span_of v.items ≡ record { upper = edge_of upper.now; claim = ids (ids_of (slice_range roll.now lo hi)) } ∷ []) }
{
    let list = roll.ids(alloc, lo, hi)?;
    let mut ranges = Vec::new(alloc);
    ranges.push(Range {
        upper: *upper,
        payload: Payload::Ids(list),
    })?;
    Ok(ranges)
}

impl Roll {
    /// The ranges that tell of the items from place lo on, below place hi, the last up to the bound:
    /// fewer than 32 items are listed, others are told by 16 fingerprints.
    #[tactic(auto, unfolding(crate::specs::Splits::split_of))]
    pub fn split(
        &self,
        alloc: Global,
        lo: usize,
        hi: usize,
        upper: &Bound,
    ) -> Result<Vec<Range>, AllocError>
        requires piece { lo ≤ hi × hi ≤ length self.now }
        requires upper { count_below self.now (edge_of upper.now) ≡ hi }
        ensures exact { IfOk result (λ v. map span_of v.items ≡ split_of self.now lo hi (edge_of upper.now)) }
        // Begun at any bound with lo items below it, each range is true of the roll.
        ensures holds { IfOk result (λ v. (lower : Item) → IsKey lower → count_below self.now lower ≡ lo → place lower ≤ place (edge_of upper.now) → All (IsTrueOf self.now) (closed_from lower (map span_of v.items)) × Ascends lower (map span_of v.items)) }
        // They reach up to the bound, and none of them is a Skip.
        ensures last { IfOk result (λ v. Reaches (edge_of upper.now) (map span_of v.items)) }
    {
        self.items_rise();
        if hi - lo < LISTED_BELOW {
            told_by_ids(self, alloc, lo, hi, upper)
        } else {
            told_by_prints(self, alloc, lo, hi, upper)
        }
    }
}
