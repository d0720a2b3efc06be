//! The relays' loads while ids are shared out. Nothing here promises anything: what counts is speed.

use offer_table::{Bases, RelaySet};
use sharing::{RELAYS, SLOTS};

/// The load of each relay.
#[derive(Drop)]
pub(crate) struct Loads {
    loads: [u64; SLOTS],
}

/// A sum in so many equal parts, rounded up.
fn part_of(sum: u64, parts: u64) -> u64 {
    if parts == 0 {
        0
    } else {
        sum.saturating_add(parts - 1) / parts
    }
}

impl Loads {
    /// What the loads begin with.
    pub(crate) fn new(bases: &Bases) -> Loads {
        let mut loads = [0; SLOTS];
        for relay in 0..RELAYS {
            loads[usize::from(relay)] = bases.of(relay);
        }
        Loads { loads }
    }

    /// The load of a relay.
    pub(crate) fn of(&self, relay: u16) -> u64 {
        self.loads.get(usize::from(relay)).copied().unwrap_or(0)
    }

    /// Adds some ids to a relay's load.
    pub(crate) fn add(&mut self, relay: u16, count: u64) {
        if let Some(load) = self.loads.get_mut(usize::from(relay)) {
            *load = load.saturating_add(count);
        }
    }

    /// Takes some ids from a relay's load.
    pub(crate) fn take(&mut self, relay: u16, count: u64) {
        if let Some(load) = self.loads.get_mut(usize::from(relay)) {
            *load = load.saturating_sub(count);
        }
    }

    /// The first of these relays with the least load of them.
    pub(crate) fn least_loaded(&self, relays: RelaySet) -> u16 {
        let mut best = 0;
        let mut least = u64::MAX;
        for relay in relays.iter() {
            let load = self.of(relay);
            if load < least {
                least = load;
                best = relay;
            }
        }
        best
    }

    /// The sum of the loads of these relays that are below a level, and how many they are.
    fn below(&self, relays: RelaySet, level: u64) -> (u64, u64) {
        let mut sum: u64 = 0;
        let mut count: u64 = 0;
        for relay in relays.iter() {
            let load = self.of(relay);
            if load < level {
                sum = sum.saturating_add(load);
                count = count.saturating_add(1);
            }
        }
        (sum, count)
    }

    /// The level to which so many ids fill the loads of these relays.
    pub(crate) fn level_of(&self, relays: RelaySet, ids: u64) -> u64 {
        let mut level = u64::MAX;
        for _ in 0..SLOTS {
            let (sum, count) = self.below(relays, level);
            let next = part_of(sum.saturating_add(ids), count);
            if next == level {
                break;
            }
            level = next;
        }
        level
    }

    /// The mean load of these relays, rounded up.
    pub(crate) fn mean(&self, relays: RelaySet) -> u64 {
        let (sum, count) = self.below(relays, u64::MAX);
        part_of(sum, count)
    }
}
