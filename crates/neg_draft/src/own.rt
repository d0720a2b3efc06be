//! What a roll has between two bounds.

ghost use Rattle.std.specs.Prelude.{◌≡◌, ◌+◌, ◌-◌, ◌*◌, ◌<◌, ◌≤◌, ◌↔◌, ◌⊎◌, [], ◌∷◌, All, IfOk, OnOk, IsTrue, length, map, slice_range};
ghost use Rattle.item_key.specs.Keys.{place, infinity};
ghost use Rattle.neg_codec.specs.Ranges.{ids, edge_of, span_of};
ghost use Rattle.neg_codec.specs.Ranges as told;
ghost use Rattle.neg_codec.specs.Encoding.{text_of};
ghost use Rattle.neg_print.specs.Print.{print_of};
ghost use Rattle.item_roll.specs.Parts.{part, ids_of, count_below};
ghost use Rattle.item_roll.specs.Splits.{split_of};
ghost use Rattle.item_roll.specs.Truth.{IsTrueOf};
ghost use Rattle.item_roll.specs.Closed.{closed_from};
ghost use Rattle.neg_draft.specs.Coverage.{told_more, before_payload, all_left, Tells, IsPrint, Cut, Told};

use crate::Draft;
use item_roll::{LISTED_BELOW, Roll, minimal_bound};
use neg_codec::{Bound, Payload, Range};
use std::alloc::{AllocError, Global};

/// How many bytes an id has.
const ID_BYTES: usize = 32;

/// How many bytes a fingerprint has.
const PRINT_BYTES: usize = 16;

impl Draft {
    /// How many of the roll's items stand below each of two bounds. They are found in fewer steps where the bounds stand
    /// just behind those of the last call.
    pub fn places(&mut self, roll: &Roll, lower: &Bound, upper: &Bound) -> (usize, usize)
        requires { place (edge_of lower.now) ≤ place (edge_of upper.now) }
        ensures kept { self.new ≡ self.old }
        ensures lower { result.0 ≡ count_below roll.now (edge_of lower.now) }
        ensures upper { result.1 ≡ count_below roll.now (edge_of upper.now) }
        ensures within { result.0 ≤ result.1 × result.1 ≤ length roll.now }
        // The items between them.
        ensures part { part roll.now (edge_of lower.now) (edge_of upper.now) ≡ slice_range roll.now result.0 result.1 }
    {
        let lo = roll.find_near(lower, self.places.1);
        let hi = roll.find_near(upper, lo);
        self.places = (lo, hi);
        (lo, hi)
    }

    /// Whether a fingerprint is the roll's own between two bounds, the lower inclusive (Negentropy protocol V1,
    /// "Fingerprint"). It takes fewer steps where the bounds stand just behind those of the last call.
    pub fn has_print(&mut self, roll: &Roll, lower: &Bound, upper: &Bound, print: &[u8; 16]) -> bool
        requires { place (edge_of lower.now) ≤ place (edge_of upper.now) }
        ensures kept { self.new ≡ self.old }
        ensures own { IsTrue result ↔ (print.now ≡ print_of (ids_of (part roll.now (edge_of lower.now) (edge_of upper.now)))) }
    {
        let (lo, hi) = self.places(roll, lower, upper);
        let own = roll.print(lo, hi);
        *print == own
    }

    /// Tells all that the roll has left by one fingerprint up to infinity.
    fn add_last(&mut self, roll: &Roll) -> Result<(), AllocError>
        requires { place self.old.end < place infinity }
        ensures { OnOk result (self.new ≡ told_more self.old infinity (all_left (print_of (ids_of (part roll.now self.old.end infinity))))) }
    {
        let end = self.end();
        let _ = end.edge();
        let print = roll.print(roll.find(&end), roll.find(&Bound::Infinite));
        self.add(Range {
            upper: Bound::Infinite,
            payload: Payload::Print(print),
        })
    }

    /// The draft after `add_last`.
    fn close(self, roll: &Roll) -> Result<Draft, AllocError>
        requires { place self.end < place infinity }
        ensures { IfOk result (λ d. d ≡ told_more self infinity (all_left (print_of (ids_of (part roll.now self.end infinity))))) }
    {
        let mut draft = self;
        draft.add_last(roll)?;
        Ok(draft)
    }

    /// Lists the roll's ids from where the draft has come to up to a bound. These two have the places lo and hi.
    fn list_ids(
        self,
        alloc: Global,
        roll: &Roll,
        lo: usize,
        hi: usize,
        upper: Bound,
    ) -> Result<Draft, AllocError>
        requires ahead { place self.end < place (edge_of upper) }
        requires lower { lo ≡ count_below roll.now self.end }
        requires upper { hi ≡ count_below roll.now (edge_of upper) }
        requires within { hi ≤ length roll.now }
        requires fits { before_payload self + 32 * (hi - lo) + 64 ≤ self.limit }
        ensures { IfOk result (λ d. d ≡ told_more self (edge_of upper) (record { upper = edge_of upper; claim = ids (ids_of (part roll.now self.end (edge_of upper))) } ∷ [])) }
    {
        let _ = (self.end().edge(), upper.edge(), roll.len());
        let ids = roll.ids(alloc, lo, hi)?;
        let payload = Payload::Ids(ids);
        self.tell(Range { upper, payload })
    }

    /// Lists so many of the roll's ids, fewer than there are up to a bound, and closes.
    fn cut_ids(
        self,
        alloc: Global,
        roll: &Roll,
        upper: &Bound,
        count: usize,
    ) -> Result<Draft, AllocError>
        requires ahead { place self.end < place (edge_of upper.now) }
        requires fewer { count_below roll.now self.end + count < count_below roll.now (edge_of upper.now) }
        requires fits { before_payload self + 32 * count + 64 ≤ self.limit }
        requires full { self.limit < before_payload self + 32 * count + 96 }
        ensures { IfOk result (Cut roll.now self (edge_of upper.now)) }
    {
        let end = self.end();
        let _ = (end.edge(), upper.edge(), roll.find(upper));
        if count == 0 {
            return self.close(roll);
        }
        let lo = roll.find(&end);
        let next = lo + count;
        let bound = minimal_bound(&roll.get(next - 1), &roll.get(next));
        let draft = self.list_ids(alloc, roll, lo, next, bound)?;
        draft.close(roll)
    }

    /// The same as `tell_ids`, where the two bounds have the places lo and hi.
    fn tell_ids_at(
        self,
        alloc: Global,
        roll: &Roll,
        lo: usize,
        hi: usize,
        upper: Bound,
    ) -> Result<Draft, AllocError>
        requires ahead { place self.end < place (edge_of upper) }
        requires lower { lo ≡ count_below roll.now self.end }
        requires upper { hi ≡ count_below roll.now (edge_of upper) }
        requires within { hi ≤ length roll.now }
        ensures told { IfOk result (Told roll.now self (edge_of upper)) }
        ensures exact { IfOk result (λ d. (d ≡ told_more self (edge_of upper) (record { upper = edge_of upper; claim = ids (ids_of (part roll.now self.end (edge_of upper))) } ∷ [])) ⊎ Cut roll.now self (edge_of upper) d) }
    {
        let lower = self.end();
        let _ = (lower.edge(), upper.edge());
        let Some(room) = self.room() else {
            return self.close(roll);
        };
        let most = room / ID_BYTES;
        if most < hi - lo {
            return self.cut_ids(alloc, roll, &upper, most);
        }
        self.list_ids(alloc, roll, lo, hi, upper)
    }

    /// Lists the roll's ids from where the draft has come to up to a bound, however many there are. Where
    /// that doesn't fit, some are listed, and one fingerprint of all that is left ends the message, which
    /// then is at most 256 bytes shorter than it may be.
    pub fn tell_ids(self, alloc: Global, roll: &Roll, upper: Bound) -> Result<Draft, AllocError>
        requires { place self.end < place (edge_of upper) }
        ensures told { IfOk result (Told roll.now self (edge_of upper)) }
        ensures exact { IfOk result (λ d. (d ≡ told_more self (edge_of upper) (record { upper = edge_of upper; claim = ids (ids_of (part roll.now self.end (edge_of upper))) } ∷ [])) ⊎ Cut roll.now self (edge_of upper) d) }
    {
        let lo = roll.find_near(&self.end(), self.places.1);
        let hi = roll.find_near(&upper, lo);
        self.tell_ids_at(alloc, roll, lo, hi, upper)
    }

    /// Tells a fingerprint of the roll's items from where the draft has come to up to a bound. Where it
    /// doesn't fit, one of all that is left ends the message.
    fn add_print(&mut self, roll: &Roll, upper: Bound, print: [u8; 16]) -> Result<(), AllocError>
        requires finite { place self.old.end < place infinity }
        requires ahead { place self.old.end < place (edge_of upper) }
        requires own { print ≡ print_of (ids_of (part roll.now self.old.end (edge_of upper))) }
        ensures { OnOk result ((self.new ≡ told_more self.old (edge_of upper) (record { upper = edge_of upper; claim = told.print print } ∷ [])) ⊎ Cut roll.now self.old (edge_of upper) self.new) }
    {
        let lower = self.end();
        let _ = lower.edge();
        let _ = upper.edge();
        let Some(room) = self.room() else {
            return self.add_last(roll);
        };
        if room < PRINT_BYTES {
            return self.add_last(roll);
        }
        let payload = Payload::Print(print);
        self.add(Range { upper, payload })
    }

    /// Tells fingerprints of the roll up to a bound. Where one doesn't fit, one of all that is left ends
    /// the message.
    fn tell_prints(self, roll: &Roll, prints: &[Range], upper: &Bound) -> Result<Draft, AllocError>
        requires finite { place self.end < place infinity }
        requires tells { Tells self.end (edge_of upper.now) (map span_of prints.now) }
        requires holds { All (IsTrueOf roll.now) (closed_from self.end (map span_of prints.now)) }
        requires prints { All IsPrint (map span_of prints.now) }
        ensures { IfOk result (λ d. (d ≡ told_more self (edge_of upper.now) (map span_of prints.now)) ⊎ Cut roll.now self (edge_of upper.now) d) }
    {
        let _ = self.end();
        let mut draft = self;
        for range in prints {
            let _ = draft.end().edge();
            if draft.is_over() {
                return Ok(draft);
            }
            match range.payload {
                Payload::Print(print) => draft.add_print(roll, range.upper, print)?,
                _ => unreachable!(),
            }
        }
        Ok(draft)
    }

    /// Tells what the roll has from where the draft has come to up to a bound: the ids where it has fewer
    /// than 32 items there, else 16 fingerprints. What doesn't fit is told by one fingerprint of all that is
    /// left, which ends the message.
    pub fn tell_split(self, alloc: Global, roll: &Roll, upper: Bound) -> Result<Draft, AllocError>
        requires { place self.end < place (edge_of upper) }
        ensures told { IfOk result (Told roll.now self (edge_of upper)) }
        ensures exact { IfOk result (λ d. (d ≡ told_more self (edge_of upper) (split_of roll.now (count_below roll.now self.end) (count_below roll.now (edge_of upper)) (edge_of upper))) ⊎ Cut roll.now self (edge_of upper) d) }
    {
        let lower = self.end();
        let _ = (lower.edge(), upper.edge(), roll.len());
        let lo = roll.find_near(&lower, self.places.0);
        let hi = roll.find_near(&upper, self.places.1);
        if hi - lo < LISTED_BELOW {
            return self.tell_ids_at(alloc, roll, lo, hi, upper);
        }
        let split = roll.split(alloc, lo, hi, &upper)?;
        self.tell_prints(roll, &split, &upper)
    }
}
