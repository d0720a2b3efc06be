//! The parts of a roll, and what stands beside each.

ghost use Rattle.std.specs.Prelude.{◌≡◌, ◌+◌, ◌<◌, ◌≤◌, true, length, get_or, IfOk, OnOk, OnErr};
ghost use Rattle.std.specs.List.{insert};
ghost use Rattle.std.specs.Arc.{arc_value};
ghost use Rattle.neg_print.specs.Total.{total_of};
ghost use Rattle.item_roll.specs.Halves.{IsHalved};
ghost use Rattle.item_roll.specs.Parts.{Ascending, begins_below, count_below};
ghost use Rattle.item_roll.specs.Chunks.{joined, items_at, Tells, IsAt, Ends, Raised, Grown, AreHalves, Cut, HasRoom, AreFew};

use crate::order::is_before;
use crate::part::Part;
use item_key::Item;
use neg_print::Sum;
use std::alloc::{AllocError, Global};
use std::sync::Arc;

/// A part of a roll, how many items stand before it in the run of parts, and the sum of their ids.
#[derive(Drop)]
pub struct Entry<P> {
    pub(crate) before: usize,
    pub(crate) sum_before: Sum,
    pub(crate) part: Arc<P, Global>,
}

impl<P> Entry<P> {
    /// The part.
    pub fn part(&self) -> &P
        ensures { result.now ≡ arc_value self.now.part }
    {
        &self.part
    }
}

/// Whether the item at a place is in a part that has others behind it.
fn is_in<P: Part>(entries: &[Entry<P>], place: usize, i: usize) -> bool
    requires tells { Tells P.items P.most 0 0 entries.now }
    requires within { i + 1 < length entries.now }
    ensures { result ≡ true → IsAt P.items entries.now place i }
{
    let (entry, next) = (&entries[i], &entries[i + 1]);
    entry.before <= place && place < next.before
}

/// The part of the item at a place.
pub fn entry_at<P: Part>(entries: &[Entry<P>], place: usize) -> usize
    requires tells { Tells P.items P.most 0 0 entries.now }
    requires within { place < length (joined P.items entries.now) }
    ensures { IsAt P.items entries.now place result }
{
    // Where the parts before it are full, it is this one.
    let guess = place / P::full_len();
    if guess < entries.len().saturating_sub(1) && is_in(entries, place, guess) {
        return guess;
    }
    entries
        .partition_point(|entry| entry.before <= place)
        .saturating_sub(1)
}

/// Whether a part has items of which the first stands before another.
fn begins_below<P: Part>(entry: &Entry<P>, edge: &Item) -> bool
    ensures { result ≡ begins_below (items_at P.items entry.now) edge.now }
{
    entry.part.len() > 0 && is_before(&entry.part.get(0), edge)
}

/// The part in which the items below another end.
pub fn entry_below<P: Part>(entries: &[Entry<P>], edge: &Item) -> usize
    requires tells { Tells P.items P.most 0 0 entries.now }
    requires some { 0 < length entries.now }
    requires ascending { Ascending (joined P.items entries.now) }
    ensures { Ends P.items entries.now (count_below (joined P.items entries.now) edge.now) result }
{
    entries
        .partition_point(|entry| begins_below(entry, edge))
        .saturating_sub(1)
}

/// Counts one more item before each entry from a place on.
fn raise<P>(entries: &mut [Entry<P>], from: usize, by: Sum)
    requires few { AreFew entries.old }
    requires within { from ≤ length entries.old }
    ensures { Raised (total_of by) from (length entries.old) entries.old entries.new }
{
    for k in from..entries.len() {
        let entry = &mut entries[k];
        entry.before += 1;
        entry.sum_before = entry.sum_before.add(by);
    }
}

/// Puts an item into a copy of a part, which takes the part's place.
fn put_in_copy<P: Part>(
    part: &mut Arc<P, Global>,
    alloc: Global,
    at: usize,
    item: Item,
) -> Result<(), AllocError>
    requires within { at ≤ length (P.items (arc_value part.old)) }
    requires some { 0 < length (P.items (arc_value part.old)) }
    requires few { length (P.items (arc_value part.old)) < 1000000 }
    ensures ok { OnOk result (P.items (arc_value part.new) ≡ insert (P.items (arc_value part.old)) at item) }
    ensures err { OnErr result (part.new ≡ part.old) }
{
    let mut copy = part.copied(alloc)?;
    copy.insert(alloc, at, item)?;
    *part = Arc::new(alloc, copy)?;
    Ok(())
}

/// Puts an item into a part, or where that is shared into a copy.
fn put_in<P: Part>(
    part: &mut Arc<P, Global>,
    alloc: Global,
    at: usize,
    item: Item,
) -> Result<(), AllocError>
    requires within { at ≤ length (P.items (arc_value part.old)) }
    requires some { 0 < length (P.items (arc_value part.old)) }
    requires few { length (P.items (arc_value part.old)) < 1000000 }
    ensures ok { OnOk result (P.items (arc_value part.new) ≡ insert (P.items (arc_value part.old)) at item) }
    ensures err { OnErr result (part.new ≡ part.old) }
{
    match Arc::get_mut(part) {
        Some(own) => own.insert(alloc, at, item),
        None => put_in_copy(part, alloc, at, item),
    }
}

/// Puts an item into the part at an index, before the part's j-th.
pub fn insert_into<P: Part>(
    entries: &mut [Entry<P>],
    alloc: Global,
    at: usize,
    j: usize,
    item: Item,
) -> Result<(), AllocError>
    requires few { AreFew entries.old }
    requires within { at < length entries.old }
    requires place { (d : _) → j ≤ length (items_at P.items (get_or entries.old at d)) }
    requires some { (d : _) → 0 < length (items_at P.items (get_or entries.old at d)) }
    requires less { (d : _) → length (items_at P.items (get_or entries.old at d)) < 1000000 }
    ensures ok { OnOk result (Grown P.items entries.old at j item entries.new) }
    ensures err { OnErr result (entries.new ≡ entries.old) }
{
    let entry = &mut entries[at];
    put_in(&mut entry.part, alloc, j, item)?;
    raise(entries, at + 1, Sum::of(&item.id));
    Ok(())
}

/// Two parts that stand in the place of one.
fn beside<P: Part>(
    alloc: Global,
    whole: &Entry<P>,
    left: P,
    right: P,
) -> Result<(Entry<P>, Entry<P>), AllocError>
    requires few { whole.now.before ≤ 1000000 }
    requires less { length (items_at P.items whole.now) ≤ 1000000 }
    requires halves { IsHalved (items_at P.items whole.now) (P.items left) (P.items right) }
    ensures halves { IfOk result (λ h. AreHalves P.items whole.now h.0 h.1) }
    ensures first { IfOk result (λ h. items_at P.items h.0 ≡ P.items left) }
{
    let before = whole.before + left.len();
    let sum_before = whole.sum_before.add(left.sum());
    let left = Entry {
        before: whole.before,
        sum_before: whole.sum_before,
        part: Arc::new(alloc, left)?,
    };
    let right = Entry {
        before,
        sum_before,
        part: Arc::new(alloc, right)?,
    };
    Ok((left, right))
}

/// Puts two parts in the place of one.
fn cut<P: Part>(
    entries: &mut Vec<Entry<P>>,
    alloc: Global,
    at: usize,
    left: P,
    right: P,
) -> Result<(), AllocError>
    requires few { AreFew entries.old.items }
    requires within { at < length entries.old.items }
    requires less { (d : _) → length (items_at P.items (get_or entries.old.items at d)) ≤ 1000000 }
    requires halves { (d : _) → IsHalved (items_at P.items (get_or entries.old.items at d)) (P.items left) (P.items right) }
    ensures ok { OnOk result (Cut P.items entries.old.items at (P.items left) entries.new.items) }
    ensures err { OnErr result (entries.new.items ≡ entries.old.items) }
{
    let (left, right) = beside(alloc, &entries[at], left, right)?;
    entries.insert(at + 1, right)?;
    entries[at] = left;
    Ok(())
}

/// The part with room for one more item at a place, and where in it that is. A full one is cut in two.
pub fn make_room<P: Part>(
    entries: &mut Vec<Entry<P>>,
    alloc: Global,
    place: usize,
) -> Result<(usize, usize), AllocError>
    requires tells { Tells P.items P.most 0 0 entries.old.items }
    requires some { 0 < length entries.old.items }
    requires few { length (joined P.items entries.old.items) < 1000000 }
    requires within { place ≤ length (joined P.items entries.old.items) }
    ensures list { joined P.items entries.new.items ≡ joined P.items entries.old.items }
    ensures tells { Tells P.items P.most 0 0 entries.new.items }
    ensures room { IfOk result (λ r. HasRoom P.items P.most entries.new.items place r.0 r.1) }
{
    let at = entry_at(entries, place.saturating_sub(1));
    let entry = &entries[at];
    let j = place - entry.before;
    let Some((left, right)) = entry.part.halves(alloc)? else {
        return Ok((at, j));
    };
    let len = left.len();
    cut(entries, alloc, at, left, right)?;
    if j <= len {
        Ok((at, j))
    } else {
        Ok((at + 1, j - len))
    }
}
