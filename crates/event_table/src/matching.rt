//! The events of a store that a filter matches.
ghost use Rattle.std.specs.Prelude.{◌≡◌, ◌≤◌, ◌<◌, ◌+◌, ◌^◌, ◌++◌, ◌∷◌, [], map, length, true, option_to_list, IsTrue, IfOk, IfSome, OnOk};
ghost use Rattle.std.specs.Arc.{arc_value};
ghost use Rattle.std.specs.Ordering.{nat_cmp};
ghost use Rattle.item_key.specs.declared.Item.{Item};
ghost use Rattle.item_key.specs.Keys.{id_of_bytes, place, IsKey};
ghost use Rattle.neg_codec.specs.Ranges.{edge_of};
ghost use Rattle.nostr_event.specs.EventView.{EventView};
ghost use Rattle.nostr_filter.specs.Matching.{matches_of, within_of};
ghost use Rattle.nostr_filter.specs.Choice.{in_order};
ghost use Rattle.event_table.specs.Events.{matching, places_in};
ghost use Rattle.event_table.specs.Places.{AreWithin, HaveMatching};

use crate::indexing::{places_by_marks, put_range};
use crate::table::EventTable;
use event_list::EventList;
use item_key::{Id, Key};
use item_roll::Roll;
use neg_codec::Bound;
use nostr_event::Event;
use nostr_filter::{Bytes32List, Filter};
use std::alloc::{AllocError, Global};
use std::sync::Arc;

// Where fewer events than one in so many stand between two times, or have what a condition asks for, they are looked up. Else all
// events are read.
const FEW: usize = 8;

/// Whether a filter has no condition.
pub fn leaves_none_out(filter: &Filter) -> bool
    ensures { IsTrue result → (e : EventView) → matches_of filter.now e ≡ true }
{
    filter.ids.is_none()
        && filter.authors.is_none()
        && filter.kinds.is_none()
        && filter.tags.as_slice().is_empty()
        && filter.since.is_none()
        && filter.until.is_none()
}

/// The events that the filter matches, in the order in which they were published.
pub fn matching_events(
    alloc: Global,
    table: &EventTable,
    filter: &Filter,
) -> Result<EventList, AllocError>
    ensures { IfOk result (λ l. l ≡ matching filter.now table.now) }
{
    match places_by_ids_or_times(alloc, table, filter)? {
        Some(places) => matching_at(alloc, table.events(), filter, places.as_slice()),
        None => matching_marked(alloc, table, filter),
    }
}

// The same by what the filter asks for, where few events have it.
fn matching_marked(
    alloc: Global,
    table: &EventTable,
    filter: &Filter,
) -> Result<EventList, AllocError>
    ensures { IfOk result (λ l. l ≡ matching filter.now table.now) }
{
    let events = table.events();
    match places_by_marks(alloc, table, filter, events.len() / FEW)? {
        Some(places) => matching_at(alloc, events, filter, places.as_slice()),
        None => matching_all(alloc, events, filter),
    }
}

// Places of events in order, among them those of all that the filter matches: of its ids, or else of what stands within its times,
// where that is few.
fn places_by_ids_or_times(
    alloc: Global,
    table: &EventTable,
    filter: &Filter,
) -> Result<Option<Vec<usize>>, AllocError>
    ensures { IfOk result (λ o. IfSome o (λ v. HaveMatching filter.now table.now v.items)) }
{
    match &filter.ids {
        Some(ids) => Ok(Some(places_by_ids(alloc, table, filter, ids)?)),
        None => places_by_times(alloc, table, filter),
    }
}

/// The places of the events with the filter's ids, in order.
pub fn places_by_ids(
    alloc: Global,
    table: &EventTable,
    filter: &Filter,
    ids: &Bytes32List,
) -> Result<Vec<usize>, AllocError>
    requires { filter.now.ids ≡ Some ids.now }
    ensures { IfOk result (λ v. HaveMatching filter.now table.now v.items) }
{
    let ids = ids_of(alloc, ids)?;
    let _ = table.events();
    let mut places = places_of(alloc, table, ids.as_slice())?;
    put_in_order(&mut places);
    Ok(places)
}

// Of the events of which the roll has the items the places of those within the filter's times, if they are few, and those of all
// others.
fn places_by_times(
    alloc: Global,
    table: &EventTable,
    filter: &Filter,
) -> Result<Option<Vec<usize>>, AllocError>
    ensures { IfOk result (λ o. IfSome o (λ v. HaveMatching filter.now table.now v.items)) }
{
    let roll = table.roll();
    let Some(ids) = ids_within(alloc, roll, filter)? else {
        return Ok(None);
    };
    let mut places = places_of(alloc, table, ids.as_slice())?;
    put_range(&mut places, roll.len(), table.events().len())?;
    put_in_order(&mut places);
    Ok(Some(places))
}

// The ids of the items from the filter's first time on, up to its last, where they are few.
fn ids_within(alloc: Global, roll: &Roll, filter: &Filter) -> Result<Option<Vec<Id>>, AllocError>
    ensures { IfOk result (λ o. IfSome o (λ ids. AreWithin filter.now roll.now ids.items)) }
{
    let lower = first_bound(filter);
    let upper = last_bound(filter);
    let hi = roll.find(&upper);
    if upper.is_below(&lower) {
        // No event is from a time on and up to an earlier one.
        return Ok(Some(Vec::new(alloc)));
    }
    let lo = roll.find(&lower);
    if lo <= hi && hi - lo < roll.len() / FEW {
        Ok(Some(roll.ids(alloc, lo, hi)?))
    } else {
        Ok(None)
    }
}

// The bound at the filter's first time.
fn first_bound(filter: &Filter) -> Bound
    ensures { (k : Item) → within_of filter.now k.time ≡ true → place (edge_of result) ≤ place k }
{
    match filter.since {
        Some(since) if since < u64::MAX => Bound::At(Key::new(since, Id([0; 32]))),
        _ => Bound::lowest(),
    }
}

// The bound behind the filter's last time.
fn last_bound(filter: &Filter) -> Bound
    ensures { (k : Item) → IsKey k → within_of filter.now k.time ≡ true → place k < place (edge_of result) }
{
    match filter.until {
        Some(until) if until < u64::MAX - 1 => Bound::At(Key::new(until + 1, Id([0; 32]))),
        _ => Bound::Infinite,
    }
}

fn ids_of(alloc: Global, ids: &Bytes32List) -> Result<Vec<Id>, AllocError>
    ensures { IfOk result (λ v. v.items ≡ map id_of_bytes ids.now) }
{
    ids.as_slice().iter().map(|bytes| Id(*bytes)).collect(alloc)
}

// The places of the events with these ids.
fn places_of(alloc: Global, table: &EventTable, ids: &[Id]) -> Result<Vec<usize>, AllocError>
    ensures { IfOk result (λ v. v.items ≡ places_in table.now ids.now) }
{
    let mut places = Vec::new(alloc);
    for id in ids {
        put_place(&mut places, table.place(id))?;
    }
    Ok(places)
}

// Puts the place behind the others, if there is one.
fn put_place(places: &mut Vec<usize>, place: Option<usize>) -> Result<(), AllocError>
    ensures { OnOk result (places.new.items ≡ places.old.items ++ option_to_list place) }
{
    if let Some(place) = place {
        places.push(place)?;
    }
    Ok(())
}

/// Puts the places in order, each once.
pub fn put_in_order(places: &mut Vec<usize>)
    ensures { places.new.items ≡ in_order nat_cmp places.old.items }
{
    places.sort_unstable();
    places.dedup();
}

// The events that the filter matches, of those at the places.
fn matching_at(
    alloc: Global,
    events: &EventList,
    filter: &Filter,
    places: &[usize],
) -> Result<EventList, AllocError>
    requires { HaveMatching filter.now events.now places.now }
    ensures { IfOk result (λ l. l ≡ matching filter.now events.now) }
{
    let mut all = EventList::new(alloc)?;
    for place in places {
        put_matching(&mut all, alloc, filter, events.get(*place))?;
    }
    Ok(all)
}

// Puts the event behind the others, if the filter matches it.
fn put_matching(
    all: &mut EventList,
    alloc: Global,
    filter: &Filter,
    event: &Arc<Event>,
) -> Result<(), AllocError>
    requires { length all.old + 1 < 2 ^ 64 }
    ensures { OnOk result (all.new ≡ all.old ++ matching filter.now (arc_value event.now ∷ [])) }
{
    if filter.matches(event) {
        all.push(alloc, event)?;
    }
    Ok(())
}

fn matching_all(alloc: Global, events: &EventList, filter: &Filter) -> Result<EventList, AllocError>
    ensures { IfOk result (λ l. l ≡ matching filter.now events.now) }
{
    let mut all = EventList::new(alloc)?;
    for place in 0..events.len() {
        put_matching(&mut all, alloc, filter, events.get(place))?;
    }
    Ok(all)
}
