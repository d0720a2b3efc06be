//! The index of a store's events, and what it finds.
ghost use Rattle.std.specs.Prelude.{◌≡◌, ◌≤◌, ◌<◌, ℕ, length, map, drop, All, Contains, IfOk, IfSome, OnOk};
ghost use Rattle.std.specs.Arc.{arc_value};
ghost use Rattle.event_table.specs.States.{IsIndexed};
ghost use Rattle.event_table.specs.Places.{HaveMatching};

use crate::matching::put_in_order;
use crate::table::EventTable;
use event_index::{BATCH, Index};
use event_list::EventList;
use nostr_event::Event;
use nostr_filter::Filter;
use std::alloc::{AllocError, Global};
use std::sync::Arc;

// The events from a place on.
fn tail(alloc: Global, events: &EventList, start: usize) -> Result<Vec<Arc<Event>>, AllocError>
    requires { start ≤ length events.now }
    ensures { IfOk result (λ v. map arc_value v.items ≡ drop start events.now) }
{
    let mut all = Vec::new(alloc);
    for place in start..events.len() {
        all.push(Arc::try_clone(events.get(place))?)?;
    }
    Ok(all)
}

/// The index over the events, which covers more of them where a whole batch wasn't covered.
pub fn index_over(
    alloc: Global,
    index: &Arc<Index>,
    events: &EventList,
) -> Result<Arc<Index>, AllocError>
    requires indexed { IsIndexed events.now (arc_value index.now) }
    requires few { length events.now ≤ 1000000 }
    ensures { IfOk result (λ x. IsIndexed events.now (arc_value x)) }
{
    let covered = index.count();
    if events.len() - covered < BATCH {
        return Ok(Arc::try_clone(index)?);
    }
    let more = tail(alloc, events, covered)?;
    Ok(Arc::new(alloc, index.grown(alloc, more.as_slice())?)?)
}

/// Puts the places from one on below another behind the others.
pub fn put_range(places: &mut Vec<usize>, start: usize, end: usize) -> Result<(), AllocError>
    ensures below { OnOk result (All (λ p. p < end) places.old.items → All (λ p. p < end) places.new.items) }
    ensures kept { OnOk result ((i : ℕ) → Contains places.old.items i → Contains places.new.items i) }
    ensures put { OnOk result ((i : ℕ) → start ≤ i → i < end → Contains places.new.items i) }
{
    for place in start..end {
        places.push(place)?;
    }
    Ok(())
}

/// Places of events in order, among them those of all that the filter matches: of the events that the index covers those that
/// have what one of its conditions asks for, if they are no more than so many, and all others.
pub fn places_by_marks(
    alloc: Global,
    table: &EventTable,
    filter: &Filter,
    most: usize,
) -> Result<Option<Vec<usize>>, AllocError>
    ensures { IfOk result (λ o. IfSome o (λ v. HaveMatching filter.now table.now v.items)) }
{
    let index = table.index();
    let Some(found) = index.find(alloc, filter, most)? else {
        return Ok(None);
    };
    let mut places = found;
    put_range(&mut places, index.count(), table.events().len())?;
    put_in_order(&mut places);
    Ok(Some(places))
}
