//! Tables of events.
ghost use Rattle.std.specs.Prelude.{◌≡◌, ◌<◌, ◌≤◌, false, [], ◌∷◌, ◌++◌, length, map, take, IsPermutation, IfOk};
ghost use mathlib.Core.List.{IsPrefix};
ghost use Rattle.nostr_event.specs.EventView.{item_of};
ghost use Rattle.std.specs.Arc.{arc_value};
ghost use Rattle.event_table.specs.Events.{has_id, place_in, DistinctIds, freshness, with_events, EndsRightly};
ghost use Rattle.newest.specs.Newest.{AreOf};
ghost use Rattle.event_table.specs.States.{IsRolled, IsIndexed};

use crate::indexing::index_over;
use crate::listing::Listing;
use crate::rolling::{roll_of_all, roll_over};
use event_index::Index;
use event_list::EventList;
use item_key::Id;
use item_roll::Roll;
use newest::Newest;
use nostr_event::Event;
use std::alloc::{AllocError, Global};
use std::marker::Model;
use std::sync::Arc;

/// Events with distinct ids, in the order in which they were put in, with what finds them. It never changes: a longer one shares with
/// it what both have. Contracts see it as the list of the events.
pub struct EventTable {
    listing: Listing,
    roll: Arc<Roll>,
    index: Arc<Index>,
}

// By hand, as a derived one is proved anew wherever a value is dropped.
impl Drop for EventTable {
    fn drop(self) {
        let Self {
            listing: _,
            roll: _,
            index: _,
        } = self;
    }
}

impl Model for EventTable {
    ghost use Rattle.std.specs.Prelude.{List};
    ghost use Rattle.nostr_event.specs.EventView.{EventView};
    ghost use Rattle.std.specs.Arc.{arc_value};
    ghost use Rattle.event_table.specs.States.{IsState};

    ghost Value = { List EventView };

    ghost view = { λ s. s.listing };

    ghost invariant = { λ s. IsState s.listing (arc_value s.roll) (arc_value s.index) };
}

impl EventTable {
    /// A table without events.
    pub fn new(alloc: Global) -> Result<EventTable, AllocError>
        ensures { IfOk result (λ s. s ≡ []) }
    {
        let Ok(roll) = Roll::from_items(alloc, &[]) else {
            return Err(AllocError);
        };
        Ok(EventTable {
            listing: Listing::new(alloc)?,
            roll: Arc::new(alloc, roll)?,
            index: Arc::new(alloc, Index::new(alloc))?,
        })
    }

    /// The events, in their order.
    pub fn events(&self) -> &EventList
        ensures list { result.now ≡ self.now }
        ensures distinct { DistinctIds self.now }
    {
        self.listing.events()
    }

    /// The items of the first of the events.
    pub(crate) fn roll(&self) -> &Roll
        ensures { IsRolled self.now result.now }
    {
        &self.roll
    }

    /// The items of all events.
    pub fn whole_roll(&self, alloc: Global) -> Result<Arc<Roll>, AllocError>
        ensures { IfOk result (λ r. IsPermutation (map item_of self.now) (arc_value r)) }
    {
        roll_of_all(alloc, &self.roll, self.listing.events())
    }

    /// The events in the order in which they are sent.
    pub(crate) fn newest(&self) -> &Newest
        ensures { AreOf self.now result.now }
    {
        self.listing.newest()
    }

    /// Where the first of the events stand, by what filters ask for.
    pub(crate) fn index(&self) -> &Index
        ensures { IsIndexed self.now result.now }
    {
        &self.index
    }

    /// The place of the event with this id.
    pub(crate) fn place(&self, id: &Id) -> Option<usize>
        ensures { result ≡ place_in self.now id.now }
    {
        self.listing.place(id)
    }

    /// Whether an event with this id is there.
    pub fn has(&self, id: &Id) -> bool
        ensures { result ≡ has_id id.now self.now }
    {
        self.listing.has(id)
    }

    /// The same, shared. It copies nothing.
    pub fn share(&self) -> Result<EventTable, AllocError>
        ensures { IfOk result (λ s. s ≡ self.now) }
    {
        self.longer(self.listing.share()?)
    }

    // The table of a listing that begins with these events, of which the roll and the index have those that they have here.
    fn longer(&self, listing: Listing) -> Result<EventTable, AllocError>
        requires { IsPrefix self.now listing }
        ensures { IfOk result (λ s. s ≡ listing) }
    {
        Ok(EventTable {
            listing,
            roll: Arc::try_clone(&self.roll)?,
            index: Arc::try_clone(&self.index)?,
        })
    }

    /// The same events, of which the roll and the index have all but less than a batch.
    pub fn indexed(self, alloc: Global) -> Result<EventTable, AllocError>
        requires { length self ≤ 1000000 }
        ensures { IfOk result (λ s. s ≡ self) }
    {
        let EventTable {
            listing,
            roll,
            index,
        } = self;
        let roll = roll_over(alloc, &roll, listing.events())?;
        let index = index_over(alloc, &index, listing.events())?;
        Ok(EventTable {
            listing,
            roll,
            index,
        })
    }

    /// These events and one more. Of what stands here the last events are copied, and the nodes and runs that change.
    pub fn with(&self, alloc: Global, event: &Arc<Event>) -> Result<EventTable, AllocError>
        requires fresh { has_id (arc_value event.now).id self.now ≡ false }
        requires room { length self.now < 1000000 }
        ensures { IfOk result (λ s. s ≡ self.now ++ arc_value event.now ∷ []) }
    {
        let listing = self.listing.share()?;
        self.longer(listing.with(alloc, event)?)?.indexed(alloc)
    }

    /// These events, and behind them the others in their order, except those whose ids are there by then. It ends before the
    /// first new one that would be more than so many, and says of each that it took whether it is new. The roll and the index
    /// get none of them before `indexed`.
    pub fn with_all(
        &self,
        alloc: Global,
        others: &[Arc<Event>],
        most: usize,
    ) -> Result<(EventTable, Vec<bool>), AllocError>
        requires few { most ≤ 1000000 }
        requires room { length self.now ≤ most }
        ensures list { IfOk result (λ r. r.0 ≡ with_events (take (length r.1.items) (map arc_value others.now)) self.now) }
        ensures fresh { IfOk result (λ r. r.1.items ≡ freshness (take (length r.1.items) (map arc_value others.now)) self.now) }
        ensures few { IfOk result (λ r. length r.1.items ≤ length others.now) }
        ensures room { IfOk result (λ r. length r.0 ≤ most) }
        ensures ends { IfOk result (λ r. EndsRightly most (map arc_value others.now) (length r.1.items) r.0) }
    {
        let listing = self.listing.share()?;
        let (listing, fresh) = listing.with_all(alloc, others, most)?;
        Ok((self.longer(listing)?, fresh))
    }
}
