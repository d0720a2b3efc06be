//! Where the events that a source gave stand, by their ids.

ghost use Rattle.std.specs.Prelude.{◌≡◌, ◌<◌, length, Contains, Some, slice_get, IfOk, MatchOption};
ghost use Rattle.event_source.specs.Fetching.{ids_of};
ghost use Rattle.mirror_core.specs.IdPlaces.{ArePlacesOf};

use item_key::Id;
use nostr_event::Event;
use std::alloc::{AllocError, Global};
use std::collections::BTreeMap;
use std::sync::Arc;

/// A place of each id among some events. An id that stands there twice has its last one.
#[derive(Drop)]
pub(crate) struct Places {
    by_id: BTreeMap<Id, usize>,
}

impl Places {
    /// The places of these events.
    pub(crate) fn of(alloc: Global, given: &[Arc<Event>]) -> Result<Places, AllocError>
        ensures { IfOk result (λ p. ArePlacesOf (ids_of given.now) p.by_id) }
    {
        let mut by_id = BTreeMap::new(alloc);
        for k in 0..given.len() {
            by_id.insert(given[k].id(), k)?;
        }
        Ok(Places { by_id })
    }

    /// A place of an event with this id, if it was given.
    pub(crate) fn find(&self, given: &[Arc<Event>], id: &Id) -> Option<usize>
        requires { ArePlacesOf (ids_of given.now) self.now.by_id }
        ensures { MatchOption result (Contains (ids_of given.now) id.now → ⊥) (λ k. (k < length given.now) × (slice_get (ids_of given.now) k ≡ Some id.now)) }
    {
        self.by_id.get(id).copied()
    }
}
