//! Lists of events, of which an insert copies few.
ghost use Rattle.std.specs.Prelude.{◌≡◌, ◌<◌, ◌≤◌, ◌+◌, ◌^◌, [], ◌∷◌, ◌++◌, length, slice_get, Some, IfOk, OnOk, OnErr};
ghost use Rattle.std.specs.Arc.{arc_value};

use crate::chunk::{Chunk, put_last};
use crate::events::Events;
use nostr_event::Event;
use std::alloc::{AllocError, Global};
use std::marker::Model;
use std::mem::replace;
use std::sync::Arc;

// As many events as stand behind the chunks at most. A list with one more copies them, and once in so many times the last chunk.
const FEW: usize = 8;

/// Events in the order in which they were put in. Contracts see them as their list.
pub struct EventList {
    events: Events,
    few: Arc<Chunk<Event>>,
}

// By hand, as a derived one is proved anew wherever a value is dropped.
impl Drop for EventList {
    fn drop(self) {
        let Self { events: _, few: _ } = self;
    }
}

impl Model for EventList {
    ghost use Rattle.std.specs.Prelude.{◌<◌, ◌≤◌, ◌^◌, ◌++◌, List, length};
    ghost use Rattle.std.specs.Arc.{arc_value};
    ghost use Rattle.nostr_event.specs.EventView.{EventView};

    ghost Value = { List EventView };

    ghost view = { λ l. l.events ++ arc_value l.few };

    ghost invariant = { λ l. (length (arc_value l.few) ≤ 8) × (length (l.events ++ arc_value l.few) < 2 ^ 64) };
}

// Puts the events of a chunk behind all others.
fn put_all(events: &mut Events, alloc: Global, few: &Chunk<Event>) -> Result<(), AllocError>
    requires { length (events.old ++ few.now) < 2 ^ 64 }
    ensures ok { OnOk result (events.new ≡ events.old ++ few.now) }
    ensures err { OnErr result (length events.new ≤ length events.old + length few.now) }
{
    for i in 0..few.len() {
        events.push(alloc, few.get(i))?;
    }
    Ok(())
}

impl EventList {
    /// A list without events.
    pub fn new(alloc: Global) -> Result<EventList, AllocError>
        ensures { IfOk result (λ l. l ≡ []) }
    {
        Ok(EventList {
            events: Events::new(alloc)?,
            few: Arc::new(alloc, Chunk::new(alloc))?,
        })
    }

    /// How many events there are.
    pub fn len(&self) -> usize
        ensures { result ≡ length self.now }
    {
        self.events.len() + self.few.len()
    }

    /// The event at a place, the first at 0.
    pub fn get(&self, place: usize) -> &Arc<Event>
        requires { place < length self.now }
        ensures { slice_get self.now place ≡ Some (arc_value result.now) }
    {
        let before = self.events.len();
        if place < before {
            self.events.get(place)
        } else {
            self.few.get(place - before)
        }
    }

    /// The same list. No event is copied, and no chunk.
    pub fn share(&self) -> Result<EventList, AllocError>
        ensures { IfOk result (λ l. l ≡ self.now) }
    {
        Ok(EventList {
            events: self.events.share()?,
            few: Arc::try_clone(&self.few)?,
        })
    }

    /// Puts the event behind all others. What is shared with other lists is copied: of the events one chunk at most, and the few
    /// behind it. After a fault the last events may be lost.
    pub fn push(&mut self, alloc: Global, event: &Arc<Event>) -> Result<(), AllocError>
        requires { length self.old + 1 < 2 ^ 64 }
        ensures { OnOk result (self.new ≡ self.old ++ arc_value event.now ∷ []) }
    {
        if self.few.len() >= FEW {
            let next = Arc::new(alloc, Chunk::new(alloc))?;
            let few = replace(&mut self.few, next);
            put_all(&mut self.events, alloc, &few)?;
        }
        put_last(&mut self.few, alloc, event)
    }
}
