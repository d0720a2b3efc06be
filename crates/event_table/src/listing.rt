//! Events with distinct ids, with what finds each of them.
ghost use Rattle.std.specs.Prelude.{◌≡◌, ◌<◌, ◌≤◌, false, [], ◌∷◌, ◌++◌, length, map, take, IfOk};
ghost use Rattle.std.specs.Arc.{arc_value};
ghost use Rattle.newest.specs.Newest.{AreOf};
ghost use Rattle.event_table.specs.Events.{has_id, place_in, DistinctIds, freshness, with_events, EndsRightly};

use event_list::EventList;
use id_map::IdMap;
use item_key::Id;
use newest::Newest;
use nostr_event::Event;
use std::alloc::{AllocError, Global};
use std::marker::Model;
use std::sync::Arc;

/// Events in the order in which they were published, the place of each id, and the events in the order in which they are sent.
/// Contracts see it as the list of the events.
pub struct Listing {
    events: EventList,
    ids: IdMap,
    newest: Newest,
}

// By hand, as a derived one is proved anew wherever a value is dropped.
impl Drop for Listing {
    fn drop(self) {
        let Self {
            events: _,
            ids: _,
            newest: _,
        } = self;
    }
}

impl Model for Listing {
    ghost use Rattle.std.specs.Prelude.{List};
    ghost use Rattle.nostr_event.specs.EventView.{EventView};
    ghost use Rattle.event_table.specs.States.{IsListing};

    ghost Value = { List EventView };

    ghost view = { λ l. l.events };

    ghost invariant = { λ l. IsListing l.events l.ids l.newest };
}

impl Listing {
    pub fn new(alloc: Global) -> Result<Listing, AllocError>
        ensures { IfOk result (λ l. l ≡ []) }
    {
        Ok(Listing {
            events: EventList::new(alloc)?,
            ids: IdMap::new(alloc)?,
            newest: Newest::new(alloc)?,
        })
    }

    pub fn events(&self) -> &EventList
        ensures list { result.now ≡ self.now }
        ensures distinct { DistinctIds self.now }
    {
        &self.events
    }

    /// The events in the order in which they are sent.
    pub fn newest(&self) -> &Newest
        ensures { AreOf self.now result.now }
    {
        &self.newest
    }

    /// The place of the event with this id.
    pub fn place(&self, id: &Id) -> Option<usize>
        ensures { result ≡ place_in self.now id.now }
    {
        self.ids.get(id)
    }

    /// Whether an event with this id is there.
    pub fn has(&self, id: &Id) -> bool
        ensures { result ≡ has_id id.now self.now }
    {
        self.place(id).is_some()
    }

    /// The same, shared. It copies nothing.
    pub fn share(&self) -> Result<Listing, AllocError>
        ensures { IfOk result (λ l. l ≡ self.now) }
    {
        Ok(Listing {
            events: self.events.share()?,
            ids: self.ids.share()?,
            newest: self.newest.share()?,
        })
    }

    /// These events and one more. What no other listing shares is changed in place.
    pub fn with(self, alloc: Global, event: &Arc<Event>) -> Result<Listing, AllocError>
        requires fresh { has_id (arc_value event.now).id self ≡ false }
        requires room { length self < 1000000 }
        ensures { IfOk result (λ l. l ≡ self ++ arc_value event.now ∷ []) }
    {
        let Listing {
            mut events,
            ids,
            newest,
        } = self;
        let place = events.len();
        events.push(alloc, event)?;
        let ids = ids.with(alloc, event.id(), place)?;
        let newest = newest.insert(alloc, place, Arc::try_clone(event)?)?;
        Ok(Listing {
            events,
            ids,
            newest,
        })
    }

    /// These events, and behind them the others in their order, except those whose ids are there by then. It ends before the
    /// first new one that would be more than so many, and says of each that it took whether it is new.
    pub fn with_all(
        self,
        alloc: Global,
        others: &[Arc<Event>],
        most: usize,
    ) -> Result<(Listing, Vec<bool>), AllocError>
        requires few { most ≤ 1000000 }
        requires room { length self ≤ most }
        ensures list { IfOk result (λ r. r.0 ≡ with_events (take (length r.1.items) (map arc_value others.now)) self) }
        ensures fresh { IfOk result (λ r. r.1.items ≡ freshness (take (length r.1.items) (map arc_value others.now)) self) }
        ensures few { IfOk result (λ r. length r.1.items ≤ length others.now) }
        ensures room { IfOk result (λ r. length r.0 ≤ most) }
        ensures ends { IfOk result (λ r. EndsRightly most (map arc_value others.now) (length r.1.items) r.0) }
    {
        let mut all = self;
        let mut fresh = Vec::with_capacity(alloc, others.len())?;
        for at in 0..others.len() {
            let other = &others[at];
            if all.has(&other.id()) {
                fresh.push_reserved(false);
                continue;
            }
            if all.events().len() >= most {
                return Ok((all, fresh));
            }
            all = all.with(alloc, other)?;
            fresh.push_reserved(true);
        }
        Ok((all, fresh))
    }
}
