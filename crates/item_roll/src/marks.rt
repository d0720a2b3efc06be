//! Sums of the ids of items, and marks among these that keep some.

ghost use Rattle.std.specs.Prelude.{◌≡◌, ◌+◌, ◌*◌, ◌<◌, ◌≤◌, length, take};
ghost use Rattle.neg_print.specs.Total.{total_of};
ghost use Rattle.item_roll.specs.Sums.{sum_at, AreMarked, AreMarkedTo};

use item_key::Item;
use neg_print::Sum;

/// How many items stand between two marks.
pub const MARK_ITEMS: usize = 16;

/// How many marks a chunk has: one before each 16th item of a full one, the first before its first item.
pub const MARKS: usize = 16;

/// The sum of the items' ids.
pub fn sum_of_items(items: &[Item]) -> Sum
    ensures { total_of result ≡ sum_at items.now }
{
    let mut sum = Sum::zero();
    for item in items {
        sum = sum.add(Sum::of(&item.id));
    }
    sum
}

/// Sets the marks behind one, as far as the items reach, where that one and those before it are set.
pub fn mark_from(marks: &mut [Sum], items: &[Item], first: usize)
    requires within { first < length marks.old }
    requires reached { 16 * first ≤ length items.now }
    requires marked { AreMarkedTo (first + 1) items.now marks.old }
    ensures marked { AreMarked items.now marks.new }
    ensures len { length marks.new ≡ length marks.old }
{
    let end = marks.len().min(items.len() / MARK_ITEMS + 1);
    let mut sum = marks[first];
    for mark in first + 1..end {
        let next = mark * MARK_ITEMS;
        sum = sum.add(sum_of_items(&items[next - MARK_ITEMS..next]));
        marks[mark] = sum;
    }
}

/// The sum of the ids of the items before a place, of which a mark knows all but the last few.
pub fn sum_upto(marks: &[Sum], items: &[Item], place: usize) -> Sum
    requires some { 0 < length marks.now }
    requires marked { AreMarked items.now marks.now }
    requires within { place ≤ length items.now }
    ensures { total_of result ≡ sum_at (take place items.now) }
{
    let mark = (place / MARK_ITEMS).min(marks.len() - 1);
    marks[mark].add(sum_of_items(&items[mark * MARK_ITEMS..place]))
}
