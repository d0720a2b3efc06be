//! Events with their places.
ghost use Rattle.std.specs.Prelude.{◌≡◌, IfOk};
ghost use Rattle.nostr_filter.specs.Matching.{met, has_text, matches_of};
ghost use Rattle.newest.specs.Newest.{rank, comes_before};

use item_key::Id;
use nostr_event::Event;
use nostr_filter::{Filter, Rank, rank_at};
use std::alloc::AllocError;
use std::cmp::Ordering;
use std::marker::Model;
use std::sync::Arc;

/// A shared event with its place among all events, and beside them what most filters ask for, so that a search reads no event but
/// for its tags, and for its id where another has the same time. It takes 64 bytes. Contracts see it as the place with the event.
#[derive(Drop)]
pub struct Entry {
    time: u64,
    place: usize,
    author: [u8; 32],
    kind: u16,
    event: Arc<Event>,
}

impl Model for Entry {
    ghost use Rattle.std.specs.Prelude.{◌≡◌, ℕ};
    ghost use Rattle.std.specs.Arc.{arc_value};
    ghost use Rattle.nostr_event.specs.EventView.{EventView};

    ghost Value = { ℕ × EventView };

    ghost view = { λ e. (e.place, arc_value e.event) };

    ghost invariant = { λ e. (e.time ≡ (arc_value e.event).draft.created_at)
        × (e.author ≡ (arc_value e.event).draft.pubkey) × (e.kind ≡ (arc_value e.event).draft.kind) };
}

impl Entry {
    pub fn new(place: usize, event: Arc<Event>) -> Entry
        ensures { result ≡ (place, event.value) }
    {
        let time = event.created_at();
        let author = *event.pubkey();
        let kind = event.kind();
        Entry {
            time,
            place,
            author,
            kind,
            event,
        }
    }

    /// The event's time.
    pub fn time(&self) -> u64
        ensures { result ≡ self.now.1.draft.created_at }
    {
        self.time
    }

    /// What orders it. The event is read.
    pub fn rank(&self) -> Rank
        ensures { result ≡ rank self.now }
    {
        rank_at(self.place, &self.event)
    }

    /// Whether it comes before another. The events are read only where they have one time.
    pub fn comes_before(&self, other: &Entry) -> bool
        ensures { result ≡ comes_before (rank self.now) (rank other.now) }
    {
        match other.time.cmp(&self.time) {
            Ordering::Less => true,
            Ordering::Equal => self.rank().cmp(&other.rank()).is_lt(),
            Ordering::Greater => false,
        }
    }

    /// The same, with the event shared.
    pub fn share(&self) -> Result<Entry, AllocError>
        ensures { IfOk result (λ e. e ≡ self.now) }
    {
        let event = Arc::try_clone(&self.event)?;
        Ok(Entry {
            time: self.time,
            place: self.place,
            author: self.author,
            kind: self.kind,
            event,
        })
    }

    // What stands for the event's id in the filter's condition on ids. The event is read only where there is one.
    fn id_for(&self, filter: &Filter) -> Id
        ensures { met (λ ids. has_text ids result.0) filter.now.ids ≡ met (λ ids. has_text ids self.now.1.id.0) filter.now.ids }
    {
        match &filter.ids {
            Some(_) => self.event.id(),
            None => Id([0; 32]),
        }
    }

    /// Whether the filter matches the event. The event is read only where the filter asks for ids or tags.
    pub fn matches(&self, filter: &Filter) -> bool
        ensures { result ≡ matches_of filter.now self.now.1 }
    {
        filter.meets(&self.id_for(filter), &self.author, self.kind, self.time)
            && filter.meets_tags(&self.event)
    }
}
