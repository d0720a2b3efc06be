//! Runs of parts.

ghost use Rattle.std.specs.Prelude.{◌≡◌, ◌+◌, ◌*◌, ◌<◌, ◌≤◌, [], ◌++◌, length, take, slice_get, slice_range, Some, All, IfOk, OnOk, OnErr, MatchOption};
ghost use Rattle.std.specs.List.{insert};
ghost use Rattle.std.specs.Arc.{arc_value};
ghost use Rattle.neg_print.specs.Total.{total_of};
ghost use Rattle.item_roll.specs.Halves.{IsPart, IsHalved};
ghost use Rattle.item_roll.specs.Parts.{Ascending, count_below};
ghost use Rattle.item_roll.specs.Chunks.{joined, items_at};
ghost use Rattle.item_roll.specs.Sums.{sum_at};

use crate::chunk::Chunk;
use crate::entries::{Entry, entry_at, entry_below, insert_into, make_room};
use crate::part::Part;
use item_key::Item;
use neg_print::Sum;
use std::alloc::{AllocError, Global};
use std::marker::Model;
use std::sync::Arc;

/// A run in a roll has no more parts.
const RUN_PARTS: usize = 64;

/// How many parts of a full run go into its first half.
const HALF: usize = RUN_PARTS / 2;

/// A run has no more items.
const MOST_ITEMS: usize = 1_000_000;

/// Parts one behind the other, which runs share.
#[derive(Drop)]
pub struct Run<P: Part> {
    entries: Vec<Entry<P>>,
    // Of all parts.
    len: usize,
    sum: Sum,
}

impl<P: Part> Model for Run<P> {
    ghost use Rattle.std.specs.Prelude.{List};
    ghost use Rattle.item_key.specs.declared.Item.{Item};
    ghost use Rattle.item_roll.specs.Chunks.{IsKept, joined};

    ghost Value = { List Item };

    ghost view = { λ r. joined P.items r.entries.items };

    ghost invariant = { λ r. IsKept P.items P.most r.entries.items r.len r.sum };
}

impl<P: Part> Run<P> {
    /// No items, with room for so many parts.
    pub fn empty(alloc: Global, parts: usize) -> Result<Run<P>, AllocError>
        ensures { IfOk result (λ r. r ≡ []) }
    {
        Ok(Run {
            entries: Vec::with_capacity(alloc, parts)?,
            len: 0,
            sum: Sum::zero(),
        })
    }

    /// Where its memory comes from.
    pub fn allocator(&self) -> Global {
        *self.entries.allocator()
    }

    /// Puts a part behind the others.
    fn push(&mut self, part: Arc<P, Global>) -> Result<(), AllocError>
        requires part { IsPart P.most (P.items (arc_value part)) }
        requires few { length (self.old ++ P.items (arc_value part)) ≤ 1000000 }
        ensures ok { OnOk result (self.new ≡ self.old ++ P.items (arc_value part)) }
        ensures err { OnErr result (self.new ≡ self.old) }
    {
        let (count, sum) = (part.len(), part.sum());
        self.entries.push(Entry {
            before: self.len,
            sum_before: self.sum,
            part,
        })?;
        self.len += count;
        self.sum = self.sum.add(sum);
        Ok(())
    }

    /// The items in order, in full parts.
    pub fn of_items(alloc: Global, items: &[Item]) -> Result<Run<P>, AllocError>
        requires few { length items.now ≤ 1000000 }
        ensures { IfOk result (λ r. r ≡ items.now) }
    {
        let len = P::full_len();
        let mut run = Run::empty(alloc, items.len().div_ceil(len))?;
        let mut at = 0;
        'parts: while at < items.len() {
            let next = at + len.min(items.len() - at);
            let part = P::of(alloc, &items[at..next])?;
            run.push(Arc::new(alloc, part)?)?;
            at = next;
        }
        Ok(run)
    }

    /// A run of the same parts, and room for one more. It costs their number, and copies none.
    fn of_parts(alloc: Global, entries: &[Entry<P>]) -> Result<Run<P>, AllocError>
        requires parts { All (λ e. IsPart P.most (items_at P.items e)) entries.now }
        requires few { length (joined P.items entries.now) ≤ 1000000 }
        ensures { IfOk result (λ r. r ≡ joined P.items entries.now) }
    {
        let mut run = Run::empty(alloc, entries.len().saturating_add(1))?;
        for entry in entries {
            run.push(Arc::try_clone(&entry.part)?)?;
        }
        Ok(run)
    }

    /// The parts. Joined, they are the run's list.
    pub fn parts(&self) -> &[Entry<P>]
        ensures list { joined P.items result.now ≡ self.now }
        ensures parts { All (λ e. IsPart P.most (items_at P.items e)) result.now }
        // What is true of each run.
        ensures few { length self.now ≤ 1000000 }
    {
        self.entries.as_slice()
    }
}

impl Run<Chunk> {
    /// How many chunks there are.
    pub fn chunks(&self) -> usize
        ensures few { result ≤ length self.now }
        ensures enough { length self.now ≤ result * 512 }
    {
        self.entries.len()
    }
}

impl<P: Part> Part for Run<P> {
    ghost use Rattle.std.specs.Prelude.{List};
    ghost use Rattle.item_key.specs.declared.Item.{Item};

    ghost items = { λ (r : List Item). r };

    ghost most = { 1000000 };

    fn full_len() -> usize {
        P::full_len().saturating_mul(RUN_PARTS).min(MOST_ITEMS)
    }

    fn of(alloc: Global, list: &[Item]) -> Result<Run<P>, AllocError> {
        Run::of_items(alloc, list)
    }

    fn copied(&self, alloc: Global) -> Result<Run<P>, AllocError> {
        Run::of_parts(alloc, self.parts())
    }

    fn halves(&self, alloc: Global) -> Result<Option<(Run<P>, Run<P>)>, AllocError> {
        let parts = self.parts();
        if parts.len() < RUN_PARTS {
            return Ok(None);
        }
        let (first, second) = parts.split_at(HALF);
        let left = Run::of_parts(alloc, first)?;
        let right = Run::of_parts(alloc, second)?;
        Ok(Some((left, right)))
    }

    fn insert(&mut self, alloc: Global, at: usize, item: Item) -> Result<(), AllocError> {
        let (i, j) = make_room(&mut self.entries, alloc, at)?;
        insert_into(self.entries.as_mut_slice(), alloc, i, j, item)?;
        self.len += 1;
        self.sum = self.sum.add(Sum::of(&item.id));
        Ok(())
    }

    fn len(&self) -> usize {
        self.len
    }

    fn sum(&self) -> Sum {
        self.sum
    }

    fn get(&self, i: usize) -> Item {
        let at = entry_at(&self.entries, i);
        let entry = &self.entries[at];
        entry.part.get(i - entry.before)
    }

    fn below(&self, edge: &Item) -> usize {
        let entries = self.entries.as_slice();
        if entries.is_empty() {
            return 0;
        }
        let at = entry_below(entries, edge);
        let entry = &entries[at];
        entry.before + entry.part.below(edge)
    }

    fn piece(&self, lo: usize, hi: usize) -> &[Item] {
        let at = entry_at(&self.entries, lo);
        let entry = &self.entries[at];
        let end = (hi - entry.before).min(entry.part.len());
        entry.part.piece(lo - entry.before, end)
    }

    fn sum_before(&self, place: usize) -> Sum {
        if place == self.len {
            return self.sum;
        }
        let at = entry_at(&self.entries, place);
        let entry = &self.entries[at];
        entry
            .sum_before
            .add(entry.part.sum_before(place - entry.before))
    }
}
