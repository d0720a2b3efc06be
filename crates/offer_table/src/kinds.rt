//! Offers of one kind: those of the same relays. Nothing here promises that all of them are of one kind: whoever takes the
//! kinds sees to it that this does no harm. What counts here is speed.

use crate::RelaySet;
use crate::hashed::names_of;
use item_key::Id;
use std::alloc::{AllocError, Global};

/// The kinds of offers: mostly one for all offers of the same relays.
#[derive(Drop)]
pub struct Kinds {
    /// The relays of each kind.
    pub sets: Vec<RelaySet>,
    /// How many offers there are of each kind.
    pub counts: Vec<u32>,
    /// The kind of each offer, by its place.
    pub kinds: Vec<u32>,
}

impl Kinds {
    /// The kinds of these offers. One pass.
    pub fn of(alloc: Global, offers: &[(Id, RelaySet)]) -> Result<Kinds, AllocError> {
        let named = names_of(alloc, offers)?;
        let mut counts = vec![in alloc; 0u32; named.sets.len()]?;
        for name in &named.names {
            if let Some(count) = counts.get_mut(*name as usize) {
                *count = count.wrapping_add(1);
            }
        }
        Ok(Kinds {
            sets: named.sets,
            counts,
            kinds: named.names,
        })
    }
}
