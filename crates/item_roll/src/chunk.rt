//! Chunks of items.

ghost use Rattle.std.specs.Prelude.{◌≡◌, ◌+◌, ◌<◌, ◌≤◌, length, take, slice_get, slice_range, Some, IfOk, OnOk, OnErr, MatchOption};
ghost use Rattle.std.specs.List.{insert};
ghost use Rattle.neg_print.specs.Total.{total_of};
ghost use Rattle.item_roll.specs.Halves.{IsPart, IsHalved};
ghost use Rattle.item_roll.specs.Parts.{Ascending, count_below};
ghost use Rattle.item_roll.specs.Sums.{sum_at};

use crate::marks::{MARK_ITEMS, MARKS, mark_from, sum_upto};
use crate::order::is_before;
use crate::part::Part;
use item_key::Item;
use neg_print::Sum;
use std::alloc::{AllocError, Global};
use std::marker::Model;

/// A chunk has no more items.
pub const CHUNK_ITEMS: usize = 256;

/// A chunk that has so many, or more, is cut into halves before one more is put in: an insert copies a chunk that is shared,
/// so smaller ones are cheaper to put items in, as larger ones are to read.
const CUT_ITEMS: usize = 128;

/// Some items, and sums of their ids.
#[derive(Drop)]
pub struct Chunk {
    items: Vec<Item>,
    sum: Sum,
    /// The sum of the items before each 16th one.
    marks: [Sum; MARKS],
}

impl Model for Chunk {
    ghost use Rattle.std.specs.Prelude.{◌≡◌, List};
    ghost use Rattle.item_key.specs.declared.Item.{Item};
    ghost use Rattle.neg_print.specs.Total.{total_of};
    ghost use Rattle.item_roll.specs.Sums.{sum_at, AreMarked};

    ghost Value = { List Item };

    ghost view = { λ c. c.items.items };

    ghost invariant = { λ c. (total_of c.sum ≡ sum_at c.items.items) × AreMarked c.items.items c.marks };
}

/// How many items of a list in order stand below another.
pub fn items_below(items: &[Item], edge: &Item) -> usize
    requires { Ascending items.now }
    ensures value { result ≡ count_below items.now edge.now }
    ensures within { result ≤ length items.now }
{
    items.partition_point(|item| is_before(item, edge))
}

impl Chunk {
    /// The items, in the roll's order.
    pub fn items(&self) -> &[Item]
        ensures { result.now ≡ self.now }
    {
        self.items.as_slice()
    }

    /// The sum of the items' ids.
    pub fn sum(&self) -> Sum
        ensures { total_of result ≡ sum_at self.now }
    {
        self.sum
    }

    /// A chunk of these items, with room for so many.
    fn with_room(alloc: Global, items: &[Item], room: usize) -> Result<Chunk, AllocError>
        ensures { IfOk result (λ c. c ≡ items.now) }
    {
        let mut own = Vec::with_capacity(alloc, room)?;
        own.extend_from_slice(items)?;
        let mut marks = [Sum::zero(); MARKS];
        mark_from(&mut marks, items, 0);
        let sum = sum_upto(&marks, items, items.len());
        Ok(Chunk {
            items: own,
            sum,
            marks,
        })
    }
}

impl Part for Chunk {
    ghost use Rattle.std.specs.Prelude.{List};
    ghost use Rattle.item_key.specs.declared.Item.{Item};

    ghost items = { λ (c : List Item). c };

    ghost most = { 512 };

    fn full_len() -> usize {
        CHUNK_ITEMS
    }

    fn of(alloc: Global, list: &[Item]) -> Result<Chunk, AllocError> {
        Chunk::with_room(alloc, list, list.len())
    }

    fn copied(&self, alloc: Global) -> Result<Chunk, AllocError> {
        let mut items = Vec::with_capacity(alloc, CUT_ITEMS)?;
        items.extend_from_slice(self.items())?;
        Ok(Chunk {
            items,
            sum: self.sum,
            marks: self.marks,
        })
    }

    fn halves(&self, alloc: Global) -> Result<Option<(Chunk, Chunk)>, AllocError> {
        let len = self.items.len();
        if len < CUT_ITEMS {
            return Ok(None);
        }
        let (first, second) = self.items().split_at(len / 2);
        let left = Chunk::with_room(alloc, first, CUT_ITEMS)?;
        let right = Chunk::with_room(alloc, second, CUT_ITEMS)?;
        Ok(Some((left, right)))
    }

    fn insert(&mut self, _alloc: Global, at: usize, item: Item) -> Result<(), AllocError> {
        if self.items.insert(at, item).is_err() {
            return Err(AllocError);
        }
        self.sum = self.sum.add(Sum::of(&item.id));
        let mark = (at / MARK_ITEMS).min(MARKS - 1);
        mark_from(&mut self.marks, self.items.as_slice(), mark);
        Ok(())
    }

    fn len(&self) -> usize {
        self.items.len()
    }

    fn sum(&self) -> Sum {
        self.sum
    }

    fn get(&self, i: usize) -> Item {
        self.items()[i]
    }

    fn below(&self, edge: &Item) -> usize {
        items_below(self.items(), edge)
    }

    fn piece(&self, lo: usize, hi: usize) -> &[Item] {
        &self.items()[lo..hi]
    }

    fn sum_before(&self, place: usize) -> Sum {
        sum_upto(&self.marks, self.items(), place)
    }
}
