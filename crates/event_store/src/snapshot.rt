//! What a pin gives.
ghost use Rattle.std.specs.Prelude.{◌≡◌, ◌<◌, ◌≤◌, None, length, map, IfOk, IfSome, IsPermutation};
ghost use Rattle.std.specs.Arc.{arc_value};
ghost use Rattle.nostr_event.specs.EventView.{item_of};
ghost use Rattle.item_roll.specs.Parts.{IsRoll};
ghost use Rattle.event_table.specs.Events.{matching, DistinctIds};

use event_list::EventList;
use event_table::{EventTable, leaves_none_out, matching_events};
use item_roll::Roll;
use nostr_filter::Filter;
use std::alloc::{AllocError, Global};
use std::marker::Model;
use std::sync::Arc;

/// The matching ones of the first events of a store. Contracts see it as a `Pinned`. It never changes.
pub struct Snapshot {
    state: Arc<EventTable>,
    events: EventList,
    roll: Arc<Roll>,
}

// By hand, as a derived one is proved anew wherever a value is dropped.
impl Drop for Snapshot {
    fn drop(self) {
        let Self {
            state: _,
            events: _,
            roll: _,
        } = self;
    }
}

impl Model for Snapshot {
    ghost use Rattle.std.specs.Arc.{arc_value};
    ghost use Rattle.event_store.specs.Events.{Pinned, pinned};

    ghost Value = { Pinned };

    ghost view = { λ s. pinned (arc_value s.state) s.events (arc_value s.roll) };
}

impl Snapshot {
    pub(crate) fn of(
        alloc: Global,
        state: Arc<EventTable>,
        filter: &Filter,
    ) -> Result<Snapshot, AllocError>
        ensures all { IfOk result (λ s. s.all ≡ arc_value state) }
        ensures distinct { IfOk result (λ s. DistinctIds s.all) }
        ensures events { IfOk result (λ s. s.events ≡ matching filter.now (arc_value state)) }
        ensures items { IfOk result (λ s. IsPermutation (map item_of s.events) s.roll) }
        ensures sorted { IfOk result (λ s. IsRoll s.roll) }
    {
        let all = state.events();
        if leaves_none_out(filter) {
            let events = all.share()?;
            let roll = state.whole_roll(alloc)?;
            let _ = roll.len();
            return Ok(Snapshot {
                state,
                events,
                roll,
            });
        }
        let events = matching_events(alloc, &state, filter)?;
        Snapshot::with(alloc, state, events)
    }

    // The same with these events.
    fn with(
        alloc: Global,
        state: Arc<EventTable>,
        events: EventList,
    ) -> Result<Snapshot, AllocError>
        ensures all { IfOk result (λ s. s.all ≡ arc_value state) }
        ensures distinct { IfOk result (λ s. DistinctIds s.all) }
        ensures events { IfOk result (λ s. s.events ≡ events) }
        ensures items { IfOk result (λ s. IsPermutation (map item_of s.events) s.roll) }
        ensures sorted { IfOk result (λ s. IsRoll s.roll) }
    {
        let _ = state.events();
        let roll = roll_of(alloc, &events)?;
        let _ = roll.len();
        let roll = Arc::new(alloc, roll)?;
        Ok(Snapshot {
            state,
            events,
            roll,
        })
    }

    /// The same, unless more events match than so many: these are counted before they are put into a roll.
    pub(crate) fn of_few(
        alloc: Global,
        state: Arc<EventTable>,
        filter: &Filter,
        most: usize,
    ) -> Result<Option<Snapshot>, AllocError>
        ensures many { IfOk result (λ o. o ≡ None → most < length (matching filter.now (arc_value state))) }
        ensures few { IfOk result (λ o. IfSome o (λ s. length s.events ≤ most)) }
        ensures all { IfOk result (λ o. IfSome o (λ s. s.all ≡ arc_value state)) }
        ensures distinct { IfOk result (λ o. IfSome o (λ s. DistinctIds s.all)) }
        ensures events { IfOk result (λ o. IfSome o (λ s. s.events ≡ matching filter.now (arc_value state))) }
        ensures items { IfOk result (λ o. IfSome o (λ s. IsPermutation (map item_of s.events) s.roll)) }
        ensures sorted { IfOk result (λ o. IfSome o (λ s. IsRoll s.roll)) }
    {
        if leaves_none_out(filter) {
            if state.events().len() > most {
                return Ok(None);
            }
            return Ok(Some(Snapshot::of(alloc, state, filter)?));
        }
        let events = matching_events(alloc, &state, filter)?;
        if events.len() > most {
            return Ok(None);
        }
        Ok(Some(Snapshot::with(alloc, state, events)?))
    }

    /// How many events were published.
    pub fn front(&self) -> usize
        ensures { result ≡ length self.now.all }
    {
        self.state.events().len()
    }

    /// The matching events, in the order in which they were published.
    pub fn events(&self) -> &EventList
        ensures { result.now ≡ self.now.events }
    {
        &self.events
    }

    /// Their items, in order.
    pub fn roll(&self) -> &Roll
        ensures { result.now ≡ self.now.roll }
    {
        &self.roll
    }
}

fn roll_of(alloc: Global, events: &EventList) -> Result<Roll, AllocError>
    ensures { IfOk result (λ r. IsPermutation (map item_of events.now) r) }
{
    let mut items = Vec::with_capacity(alloc, events.len())?;
    for place in 0..events.len() {
        items.push(events.get(place).item())?;
    }
    Roll::from_vec(alloc, items).map_err(|_| AllocError)
}
