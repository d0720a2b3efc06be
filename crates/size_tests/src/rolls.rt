//! A roll that has as many items as it takes.

use item_key::{Id, Item};
use item_roll::{Roll, RollFault};
use std::alloc::{AllocError, Global};
use std::test::*;

/// An item at a time, its id one byte 32 times.
fn item(time: u64, byte: u8) -> Item {
    Item {
        time,
        id: Id([byte; 32]),
    }
}

/// One item more than a roll takes, the last time first.
fn too_many(alloc: Global) -> Result<Vec<Item>, AllocError> {
    let mut items = Vec::new(alloc);
    for at in 0..1_000_001_u64 {
        items.push(item(1_000_001 - at, (at % 256) as u8))?;
    }
    Ok(items)
}

/// Why there is no roll of these items.
fn refusal(alloc: Global, items: &[Item]) -> Option<RollFault> {
    Roll::from_items(alloc, items).err()
}

/// Whether a roll of 1,000,000 items takes no more.
fn is_full(alloc: Global) -> Option<bool> {
    let mut items = too_many(alloc).ok()?;
    let is_refused = refusal(alloc, &items) == Some(RollFault::Full);
    items.push(item(1, 0x40)).ok()?;
    let is_repeated = refusal(alloc, &items) == Some(RollFault::Present);
    items.truncate(1_000_000);
    let mut roll = Roll::from_items(alloc, &items).ok()?;
    let takes_none = roll.insert(item(0, 0)) == Err(RollFault::Full)
        && roll.insert(item(1_000_001, 0)) == Err(RollFault::Present);
    Some(is_refused && is_repeated && takes_none && roll.len() == 1_000_000)
}

#[test]
fn a_full_roll_takes_no_more(rt: HostRuntime) -> Result<(), Fail> {
    assert!(rt; is_full(rt.alloc()) == Some(true));
    Ok(())
}
