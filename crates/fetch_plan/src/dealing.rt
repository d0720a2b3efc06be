//! Dealing: the pieces that relays hold as single ids.

use crate::balance::Balance;
use item_key::Id;
use offer_table::{Bases, Kinds, OfferTable, RelaySet};
use sharing::RELAYS;
use std::alloc::{AllocError, Global};

/// Some ids of a group that a relay holds, and where the group's next part stands: one more than its place, or 0.
#[derive(Clone, Copy)]
struct Part {
    relay: u16,
    count: u32,
    next: u32,
}

/// The parts of all groups, and for each group where the first one stands.
#[derive(Drop)]
struct Parts {
    firsts: Vec<u32>,
    parts: Vec<Part>,
}

impl Parts {
    /// Adds some ids of a group that a relay holds.
    fn add(&mut self, group: u32, relay: u16, count: u32) -> Result<(), AllocError> {
        if let Some(first) = self.firsts.get_mut(group as usize) {
            self.parts.push(Part {
                relay,
                count,
                next: *first,
            })?;
            *first = u32::try_from(self.parts.len()).unwrap_or(0);
        }
        Ok(())
    }

    /// The relay for the next id of a group.
    fn next(&mut self, group: u32) -> Option<u16> {
        let first = self.firsts.get_mut(group as usize)?;
        let place = first.checked_sub(1)?;
        let part = self.parts.get_mut(place as usize)?;
        part.count = part.count.saturating_sub(1);
        if part.count == 0 {
            *first = part.next;
        }
        Some(part.relay)
    }
}

/// The parts of all groups.
fn parts_of(alloc: Global, balance: &Balance, groups: usize) -> Result<Parts, AllocError> {
    let mut all = Parts {
        firsts: vec![in alloc; 0u32; groups]?,
        parts: Vec::with_capacity(alloc, groups)?,
    };
    for relay in 0..RELAYS {
        if let Some(pieces) = balance.held.get(usize::from(relay)) {
            for piece in pieces {
                if piece.count > 0 {
                    all.add(piece.group, relay, piece.count)?;
                }
            }
        }
    }
    Ok(all)
}

/// The relay that each id had best go to, in the order of the ids, of each of which this is the group. Of each group
/// these are the relays, and how many ids it has.
fn dealt(
    alloc: Global,
    sets: Vec<RelaySet>,
    counts: &[u32],
    numbers: &[u32],
    bases: &Bases,
) -> Result<Vec<u16>, AllocError> {
    let balance = Balance::of(alloc, sets, counts, bases)?;
    let mut parts = parts_of(alloc, &balance, counts.len())?;
    let mut relays = Vec::with_capacity(alloc, numbers.len())?;
    for group in numbers {
        relays.push(parts.next(*group).unwrap_or(0))?;
    }
    Ok(relays)
}

/// The relay that each id of a table had best go to, in the order of the ids.
pub(crate) fn suggested(
    alloc: Global,
    table: &OfferTable,
    bases: &Bases,
) -> Result<Vec<u16>, AllocError> {
    let mut sets = Vec::with_capacity(alloc, table.groups())?;
    let mut counts = Vec::with_capacity(alloc, table.groups())?;
    for place in 0..table.groups() {
        let (relays, ids) = table.group_at(place);
        sets.push(relays)?;
        counts.push(u32::try_from(ids.len()).unwrap_or(0))?;
    }
    dealt(alloc, sets, &counts, table.numbers(), bases)
}

/// The relay that the id of each of these offers had best go to.
pub(crate) fn suggested_of(
    alloc: Global,
    offers: &[(Id, RelaySet)],
    bases: &Bases,
) -> Result<Vec<u16>, AllocError> {
    let Kinds {
        sets,
        counts,
        kinds,
    } = Kinds::of(alloc, offers)?;
    dealt(alloc, sets, &counts, &kinds, bases)
}
