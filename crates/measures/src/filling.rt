//! Rolls that items are put into, for measuring.

use crate::End;
use item_key::{Id, Item};
use item_roll::{Roll, RollFault};
use std::alloc::{AllocError, Global};
use std::io;
use std::io::Write;

/// How many items a roll has that is shared.
const SHARED_ITEMS: u64 = 440_000;

/// Prints how many items a roll has at last: `scattered` puts so many items one by one into an empty roll, in an order
/// without order; `ascending` in order; `shares` makes a roll of 440,000 items and so often shares it and puts one more in.
pub fn fill(rt: &HostRuntime, alloc: Global, what: &str, times: &str) -> io::Result<End> {
    let Ok(times) = times.parse::<u64>() else {
        return Ok(End::Unknown);
    };
    let filled = match what {
        "scattered" => inserted(alloc, times, false),
        "ascending" => inserted(alloc, times, true),
        "shares" => shared(alloc, times),
        _ => return Ok(End::Unknown),
    };
    match filled {
        Ok(items) => {
            println!(rt; "{items}")?;
            Ok(End::Done)
        }
        Err(_) => {
            eprintln!(rt; "refused")?;
            Ok(End::Refused)
        }
    }
}

/// The bits of a number in disorder, another number for each.
fn scattered(n: u64) -> u64 {
    let x = (n ^ (n >> 30)).wrapping_mul(0xbf58_476d_1ce4_e5b9);
    let y = (x ^ (x >> 27)).wrapping_mul(0x94d0_49bb_1331_11eb);
    (y ^ (y >> 31)) >> 1
}

/// An item at a time, whose id ends with the time's bytes.
fn timed(time: u64) -> Item {
    let mut id = [0xe7; 32];
    id[24..].copy_from_slice(&time.to_le_bytes());
    Item { time, id: Id(id) }
}

/// How many items an empty roll has after so many were put in; scattered ones or ascending ones.
fn inserted(alloc: Global, items: u64, in_order: bool) -> Result<usize, RollFault> {
    let mut roll = Roll::from_items(alloc, &[])?;
    for n in 0..items {
        roll.insert(timed(if in_order { n } else { scattered(n) }))?;
    }
    Ok(roll.len())
}

/// The items of a roll that is shared.
fn many(alloc: Global) -> Result<Vec<Item>, AllocError> {
    let mut items = Vec::new(alloc);
    for n in 0..SHARED_ITEMS {
        items.push(timed(scattered(n)))?;
    }
    Ok(items)
}

/// How many items a roll has that was shared so often, with an item put in each time.
fn shared(alloc: Global, times: u64) -> Result<usize, RollFault> {
    let mut roll = Roll::from_items(alloc, &many(alloc)?)?;
    for n in 0..times {
        let share = roll.share(alloc)?;
        roll.insert(timed(scattered(SHARED_ITEMS.wrapping_add(n))))?;
        drop(share);
    }
    Ok(roll.len())
}
