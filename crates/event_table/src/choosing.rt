//! The events of a store that filters choose (NIP-01).
ghost use Rattle.std.specs.Prelude.{◌≡◌, ◌++◌, ◌∷◌, [], List, Some, IfOk, OnOk, map, take};
ghost use Rattle.std.specs.Arc.{arc_value};
ghost use Rattle.std.specs.declared.alloc.Global.{Global as AGlobal};
ghost use Rattle.std.specs.declared.sync.Arc.{Arc as AnArc};
ghost use Rattle.nostr_event.specs.EventView.{EventView};
ghost use Rattle.nostr_filter.specs.Choice.{newest_first, in_order, cut_of, picked, chosen};
ghost use Rattle.event_table.specs.Places.{HaveMatching, ranks_from};

use crate::indexing::places_by_marks;
use crate::matching::places_by_ids;
use crate::table::EventTable;
use event_list::EventList;
use nostr_event::Event;
use nostr_filter::{Bytes32List, Filter, Rank, cut, put_in_order, rank_at};
use std::alloc::{AllocError, Global};
use std::sync::Arc;

/// The places of the events that the filters choose, in the order in which they are sent. A filter with ids looks these up, and one
/// of which a condition names what few events have, these. Each other one walks from the newest on, and ends once it has as many as
/// it may.
pub fn choose(
    alloc: Global,
    table: &EventTable,
    filters: &[Filter],
) -> Result<Vec<usize>, AllocError>
    ensures { (events : List (AnArc EventView AGlobal)) → map arc_value events ≡ table.now → IfOk result (λ v. v.items ≡ chosen filters.now events) }
{
    let mut all = Vec::new(alloc);
    for filter in filters {
        all.append(&mut ranks_chosen(alloc, table, filter)?)?;
    }
    put_in_order(&mut all);
    all.iter().map(|rank| rank.place).collect(alloc)
}

// What orders the events that the filter chooses.
fn ranks_chosen(alloc: Global, table: &EventTable, filter: &Filter) -> Result<Vec<Rank>, AllocError>
    ensures { (events : List (AnArc EventView AGlobal)) → map arc_value events ≡ table.now → IfOk result (λ v. v.items ≡ picked events filter.now) }
{
    match &filter.ids {
        Some(ids) => chosen_by_ids(alloc, table, filter, ids),
        None => chosen_by_marks(alloc, table, filter),
    }
}

// How many conditions on authors, kinds and tags the filter has.
fn count_of_conditions(filter: &Filter) -> usize {
    let mut count = filter.tags.as_slice().len();
    if filter.authors.is_some() {
        count = count.saturating_add(1);
    }
    if filter.kinds.is_some() {
        count = count.saturating_add(1);
    }
    count
}

// As many events as are worth being looked up one by one, where the newest few of so many are chosen. A walk from the newest on passes
// as many as all for each that has what is asked for, and one that is looked up takes twice the time of one that is passed. Where
// several conditions are to hold together, a walk passes more.
fn worth_reading(events: usize, few: usize, filter: &Filter) -> usize {
    let most = events.saturating_mul(few).isqrt();
    if count_of_conditions(filter) > 1 {
        most
    } else {
        most / 2
    }
}

fn chosen_by_marks(
    alloc: Global,
    table: &EventTable,
    filter: &Filter,
) -> Result<Vec<Rank>, AllocError>
    ensures { (events : List (AnArc EventView AGlobal)) → map arc_value events ≡ table.now → IfOk result (λ v. v.items ≡ picked events filter.now) }
{
    let most = worth_reading(table.events().len(), cut(filter), filter);
    match places_by_marks(alloc, table, filter, most)? {
        Some(places) => chosen_at(alloc, table.events(), filter, places.as_slice()),
        None => table.newest().pick(alloc, filter),
    }
}

fn chosen_by_ids(
    alloc: Global,
    table: &EventTable,
    filter: &Filter,
    ids: &Bytes32List,
) -> Result<Vec<Rank>, AllocError>
    requires { filter.now.ids ≡ Some ids.now }
    ensures { (events : List (AnArc EventView AGlobal)) → map arc_value events ≡ table.now → IfOk result (λ v. v.items ≡ picked events filter.now) }
{
    let places = places_by_ids(alloc, table, filter, ids)?;
    chosen_at(alloc, table.events(), filter, places.as_slice())
}

// The same from the places, where these have all that the filter matches.
fn chosen_at(
    alloc: Global,
    list: &EventList,
    filter: &Filter,
    places: &[usize],
) -> Result<Vec<Rank>, AllocError>
    requires { HaveMatching filter.now list.now places.now }
    ensures { (events : List (AnArc EventView AGlobal)) → map arc_value events ≡ list.now → IfOk result (λ v. v.items ≡ picked events filter.now) }
{
    let mut ranks = ranks_at(alloc, list, filter, places)?;
    keep_first(&mut ranks, filter);
    Ok(ranks)
}

// Puts the ranks in order, and keeps as many as the filter chooses at most.
fn keep_first(ranks: &mut Vec<Rank>, filter: &Filter)
    ensures { ranks.new.items ≡ take (cut_of filter.now) (in_order newest_first ranks.old.items) }
{
    put_in_order(ranks);
    ranks.truncate(cut(filter));
}

// Whether the event has a time or an id, as each has, which are to read where they stand: both of them.
fn has_parts(event: &Event) -> bool {
    let has_time = event.created_at() < u64::MAX;
    let has_id = event.id().0[0] > 0;
    has_time | has_id
}

// How many of the places have an event. Each event is read where its time and its id stand before the first is matched: these reads
// don't wait for one another, so that the memory of events that lie far apart is fetched side by side, and not event by event.
fn count_at(events: &EventList, places: &[usize]) -> usize {
    let mut count: usize = 0;
    for place in places {
        if *place < events.len() && has_parts(events.get(*place)) {
            count = count.saturating_add(1);
        }
    }
    count
}

// What orders the events that the filter matches, of those at the places.
fn ranks_at(
    alloc: Global,
    events: &EventList,
    filter: &Filter,
    places: &[usize],
) -> Result<Vec<Rank>, AllocError>
    requires { HaveMatching filter.now events.now places.now }
    ensures { IfOk result (λ v. v.items ≡ ranks_from 0 filter.now events.now) }
{
    let mut ranks = Vec::with_capacity(alloc, count_at(events, places))?;
    for place in places {
        put_rank(&mut ranks, filter, *place, events.get(*place))?;
    }
    Ok(ranks)
}

// Puts what orders the event behind the others, if the filter matches it.
fn put_rank(
    ranks: &mut Vec<Rank>,
    filter: &Filter,
    place: usize,
    event: &Arc<Event>,
) -> Result<(), AllocError>
    ensures { OnOk result (ranks.new.items ≡ ranks.old.items ++ ranks_from place filter.now (arc_value event.now ∷ [])) }
{
    if filter.matches(event) {
        ranks.push(rank_at(place, event))?;
    }
    Ok(())
}
