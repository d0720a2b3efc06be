//! Items put in order, and those that no roll takes.

ghost use Rattle.std.specs.Prelude.{◌≡◌, ◌<◌, ◌≤◌, true, false, length, All, IfOk, IsPermutation};
ghost use Rattle.std.specs.List.Sorted.{IsNonDecreasingBy};
ghost use Rattle.item_key.specs.Keys.{place, endless, IsKey};
ghost use Rattle.item_roll.specs.Parts.{Ascending};
ghost use Rattle.item_roll.specs.Repeats.{HasRepeat, HasEndless};

use crate::order::is_before;
use item_key::Item;
use std::alloc::{AllocError, Global};

/// Whether no item stands at infinity.
pub fn all_finite(items: &[Item]) -> bool
    ensures finite { result ≡ true → All IsKey items.now }
    ensures endless { result ≡ false → HasEndless items.now }
{
    for item in items {
        let _ = item.id.as_bytes();
        if item.time == u64::MAX {
            return false;
        }
    }
    true
}

/// A copy.
pub fn copied(alloc: Global, items: &[Item]) -> Result<Vec<Item>, AllocError>
    ensures { IfOk result (λ v. v.items ≡ items.now) }
{
    let mut copy = Vec::new(alloc);
    copy.extend_from_slice(items)?;
    Ok(copy)
}

/// The items, each before those that come after it.
pub fn in_order(mut items: Vec<Item>) -> Vec<Item>
    ensures all { IsPermutation items.items result.items }
    ensures rises { IsNonDecreasingBy place result.items }
{
    items.sort_unstable_by(|a, b| a.compare(b));
    items
}

/// Whether an item stands twice in items that are in order.
pub fn has_repeat(items: &[Item]) -> bool
    requires keys { All IsKey items.now }
    requires rises { IsNonDecreasingBy place items.now }
    ensures repeat { result ≡ true → HasRepeat items.now }
    ensures distinct { result ≡ false → Ascending items.now }
{
    item_key::one_place();
    for i in 1..items.len() {
        if !is_before(&items[i - 1], &items[i]) {
            return true;
        }
    }
    false
}
