// Which of the matching events are sent, and in which order.
ghost use Rattle.std.specs.Prelude.{◌≡◌, ◌++◌, IfOk, OnOk, map, take, flat_map};
ghost use Rattle.nostr_filter.specs.Choice.{newest_first, in_order, rank_of, matching_from, cut_of, picked, chosen};

use crate::filter::Filter;
use item_key::Id;
use nostr_event::Event;
use std::alloc::{AllocError, Global};
use std::cmp::Reverse;
use std::sync::Arc;

/// What orders an event, and its place in the list.
#[derive(Clone, Copy, PartialEq, Eq, PartialOrd, Ord)]
pub struct Rank {
    pub time: Reverse<u64>,
    pub id: Id,
    pub place: usize,
}

// The greatest number of events that a filter chooses.
const GREATEST_LIMIT: usize = 5000;

/// What orders an event at a place.
#[tactic(auto, unfolding(crate::specs::Choice::rank_of))]
pub fn rank_at(place: usize, event: &Event) -> Rank
    ensures { result ≡ rank_of place event.now }
{
    Rank {
        time: Reverse(event.created_at()),
        id: event.id(),
        place,
    }
}

/// How many events a filter chooses at most.
pub fn cut(filter: &Filter) -> usize
    ensures { result ≡ cut_of filter.now }
{
    match filter.limit {
        Some(limit) if limit < 5000 => limit as usize,
        _ => GREATEST_LIMIT,
    }
}

/// Puts the ranks in order, each once.
pub fn put_in_order(ranks: &mut Vec<Rank>)
    ensures { ranks.new.items ≡ in_order newest_first ranks.old.items }
{
    ranks.sort_unstable();
    ranks.dedup();
}

// The ranks of the events that the filter matches.
fn matching(alloc: Global, filter: &Filter, events: &[Arc<Event>]) -> Result<Vec<Rank>, AllocError>
    ensures { IfOk result (λ v. v.items ≡ matching_from 0 filter.now events.now) }
{
    let mut ranks = Vec::new(alloc);
    for (place, event) in events.iter().enumerate() {
        if filter.matches(event) {
            ranks.push(rank_at(place, event))?;
        }
    }
    Ok(ranks)
}

// The ranks of the events that the filter chooses.
fn pick(alloc: Global, filter: &Filter, events: &[Arc<Event>]) -> Result<Vec<Rank>, AllocError>
    ensures { IfOk result (λ v. v.items ≡ picked events.now filter.now) }
{
    let mut ranks = matching(alloc, filter, events)?;
    put_in_order(&mut ranks);
    ranks.truncate(cut(filter));
    Ok(ranks)
}

/// The places of the events that the filters choose, in the order in which they are sent: each filter chooses the newest that it
/// matches, as many as the lesser of its limit and 5,000, and each place comes once. The events' ids are to be distinct; then each
/// event comes once.
pub fn choose(
    alloc: Global,
    filters: &[Filter],
    events: &[Arc<Event>],
) -> Result<Vec<usize>, AllocError>
    ensures { IfOk result (λ v. v.items ≡ chosen filters.now events.now) }
{
    let mut all = Vec::new(alloc);
    for filter in filters {
        all.append(&mut pick(alloc, filter, events)?)?;
    }
    put_in_order(&mut all);
    all.iter().map(|rank| rank.place).collect(alloc)
}
