//! Names for the sets of offers, by a table of hashes: mostly one for all equal sets. Nothing here promises anything, not
//! even that: whoever takes the names sees to it that they do no harm. What counts here is speed.

use crate::RelaySet;
use item_key::Id;
use std::alloc::{AllocError, Global};
use std::cmp::Ordering;

/// Stands in a slot that is free.
const FREE: u32 = u32::MAX;

/// How many slots are looked at for a set. So no choice of sets makes their names cost more than this.
const MOST_STEPS: usize = 8;

/// A name for each offer's set, and the set of each name.
#[derive(Drop)]
pub(crate) struct Names {
    pub names: Vec<u32>,
    pub sets: Vec<RelaySet>,
}

/// A number that tells most sets apart by its low bits.
fn hash_of(set: RelaySet) -> usize {
    let mut hash: u64 = 0;
    for word in 0..4 {
        hash = (hash ^ set.word(word)).wrapping_mul(0x9e37_79b9_7f4a_7c15);
        hash ^= hash >> 32;
    }
    hash as usize
}

/// The slot that has the name of this set, or a free one for it, if a few steps find such a slot.
fn slot_of(table: &[u32], sets: &[RelaySet], set: RelaySet) -> Option<usize> {
    let start = hash_of(set);
    for step in 0..MOST_STEPS {
        let slot = start.wrapping_add(step) & table.len().wrapping_sub(1);
        let name = *table.get(slot)?;
        if name == FREE {
            return Some(slot);
        }
        if let Some(named) = sets.get(name as usize) {
            match named.compare(set) {
                Ordering::Equal => return Some(slot),
                _ => {}
            }
        }
    }
    None
}

/// The name of a set. A set that has none is added.
fn name_of(table: &mut [u32], sets: &mut Vec<RelaySet>, set: RelaySet) -> Result<u32, AllocError> {
    let slot = slot_of(table, sets, set).unwrap_or(usize::MAX);
    let known = table.get(slot).copied().unwrap_or(FREE);
    if known != FREE {
        return Ok(known);
    }
    let name = u32::try_from(sets.len()).unwrap_or(0);
    sets.push(set)?;
    if let Some(entry) = table.get_mut(slot) {
        *entry = name;
    }
    Ok(name)
}

/// The names of the sets of offers, in the order in which they first stand there.
pub(crate) fn names_of(alloc: Global, offers: &[(Id, RelaySet)]) -> Result<Names, AllocError> {
    let size = offers.len().saturating_mul(2).checked_next_power_of_two();
    let mut table = vec![in alloc; FREE; size.unwrap_or(1)]?;
    let mut names = Vec::with_capacity(alloc, offers.len())?;
    let mut sets = Vec::new(alloc);
    for offer in offers {
        names.push(name_of(&mut table, &mut sets, offer.1)?)?;
    }
    Ok(Names { names, sets })
}
