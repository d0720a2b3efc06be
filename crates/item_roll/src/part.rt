//! The parts of a roll.

ghost use Rattle.std.specs.Prelude.{◌≡◌, ℕ, ◌+◌, ◌<◌, ◌≤◌, length, List, take, slice_get, slice_range, Some, IfOk, OnOk, OnErr, MatchOption};
ghost use Rattle.std.specs.List.{insert};
ghost use Rattle.item_key.specs.declared.Item.{Item as AnItem};
ghost use Rattle.neg_print.specs.Total.{total_of};
ghost use Rattle.item_roll.specs.Halves.{IsPart, IsHalved};
ghost use Rattle.item_roll.specs.Parts.{Ascending, count_below};
ghost use Rattle.item_roll.specs.Sums.{sum_at};

use item_key::Item;
use neg_print::Sum;
use std::alloc::{AllocError, Global};

/// Items in a roll's order, and the sum of their ids: a chunk, or a run of parts.
pub trait Part: Drop + Sized {
    ghost items: { Self → List AnItem };

    // A part has no more items.
    ghost most: { ℕ };

    /// How many items a part has that is made full.
    fn full_len() -> usize
        ensures some { 0 < result }
        ensures most { result ≤ most };

    /// A part of these items.
    fn of(alloc: Global, list: &[Item]) -> Result<Self, AllocError>
        requires part { IsPart most list.now }
        requires few { length list.now ≤ 1000000 }
        ensures { IfOk result (λ p. items p ≡ list.now) };

    /// A part of the same items, which can be changed by itself.
    fn copied(&self, alloc: Global) -> Result<Self, AllocError>
        ensures { IfOk result (λ p. items p ≡ items self.now) };

    /// The items in two parts, where the part is to be cut before one more is put in; none if it has room for one more.
    fn halves(&self, alloc: Global) -> Result<Option<(Self, Self)>, AllocError>
        requires few { length (items self.now) < 1000000 }
        requires part { IsPart most (items self.now) }
        ensures { IfOk result (λ o. MatchOption o (length (items self.now) < most) (λ h. IsHalved (items self.now) (items h.0) (items h.1))) };

    /// Puts an item before the one at that place.
    fn insert(&mut self, alloc: Global, at: usize, item: Item) -> Result<(), AllocError>
        requires within { at ≤ length (items self.old) }
        requires some { 0 < length (items self.old) }
        requires few { length (items self.old) < 1000000 }
        ensures ok { OnOk result (items self.new ≡ insert (items self.old) at item) }
        ensures err { OnErr result (self.new ≡ self.old) };

    /// How many items there are.
    fn len(&self) -> usize
        ensures { result ≡ length (items self.now) };

    /// The sum of the items' ids.
    fn sum(&self) -> Sum
        ensures { total_of result ≡ sum_at (items self.now) };

    /// The item at a place, the first at 0.
    fn get(&self, i: usize) -> Item
        requires { i < length (items self.now) }
        ensures { slice_get (items self.now) i ≡ Some result };

    /// How many items stand below another.
    fn below(&self, edge: &Item) -> usize
        requires { Ascending (items self.now) }
        ensures value { result ≡ count_below (items self.now) edge.now }
        ensures within { result ≤ length (items self.now) };

    /// The items from place lo on, below place hi, as far as they stand in one chunk.
    fn piece(&self, lo: usize, hi: usize) -> &[Item]
        requires { lo < hi × hi ≤ length (items self.now) }
        ensures some { 0 < length result.now }
        ensures within { lo + length result.now ≤ hi }
        ensures items { result.now ≡ slice_range (items self.now) lo (lo + length result.now) };

    /// The sum of the ids of the items before a place.
    fn sum_before(&self, place: usize) -> Sum
        requires { place ≤ length (items self.now) }
        ensures { total_of result ≡ sum_at (take place (items self.now)) };
}
