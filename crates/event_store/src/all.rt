//! All events.
ghost use Rattle.std.specs.Prelude.{◌≡◌, List, length, map, IfOk};
ghost use Rattle.std.specs.declared.alloc.Global.{Global as AGlobal};
ghost use Rattle.std.specs.declared.sync.Arc.{Arc as AnArc};
ghost use Rattle.std.specs.Arc.{arc_value};
ghost use Rattle.nostr_event.specs.EventView.{EventView};
ghost use Rattle.nostr_filter.specs.Choice.{chosen};

use event_list::EventList;
use event_table::{EventTable, choose};
use nostr_filter::Filter;
use std::alloc::{AllocError, Global};
use std::marker::Model;
use std::sync::Arc;

/// The events that a store had published. Contracts see it as their list. It never changes.
pub struct AllEvents {
    state: Arc<EventTable>,
}

// By hand, as a derived one is proved anew wherever a value is dropped.
impl Drop for AllEvents {
    fn drop(self) {
        let Self { state: _ } = self;
    }
}

impl Model for AllEvents {
    ghost use Rattle.std.specs.Prelude.{List};
    ghost use Rattle.std.specs.Arc.{arc_value};
    ghost use Rattle.nostr_event.specs.EventView.{EventView};

    ghost Value = { List EventView };

    ghost view = { λ a. arc_value a.state };
}

impl AllEvents {
    pub(crate) fn of(state: Arc<EventTable>) -> AllEvents
        ensures { result ≡ arc_value state }
    {
        AllEvents { state }
    }

    /// How many events were published.
    pub fn front(&self) -> usize
        ensures { result ≡ length self.now }
    {
        self.state.events().len()
    }

    /// The events, in the order in which they were published.
    pub fn events(&self) -> &EventList
        ensures { result.now ≡ self.now }
    {
        self.state.events()
    }

    /// The places in `events` of those that the filters choose, in the order in which they are sent: each filter chooses the newest
    /// that it matches, as many as the lesser of its limit and 5,000, and each event comes once. A filter with ids looks these up, and
    /// each other one reads from the newest event on until it has its number.
    pub fn choose(&self, alloc: Global, filters: &[Filter]) -> Result<Vec<usize>, AllocError>
        ensures { (events : List (AnArc EventView AGlobal)) → map arc_value events ≡ self.now → IfOk result (λ v. v.items ≡ chosen filters.now events) }
    {
        choose(alloc, &self.state, filters)
    }
}
