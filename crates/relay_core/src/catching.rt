//! What was published since the subscriptions were last served.
ghost use Rattle.std.specs.Prelude.{◌≡◌, ◌≤◌, ◌∷◌, ◌++◌, [], map, length, take, nat_eq, IfOk, IfErr, OnOk};
ghost use Rattle.std.specs.List.{AllByRecursion, list_any};
ghost use Rattle.std.specs.Arc.{arc_value};
ghost use mathlib.Core.List.{IsPrefix};
ghost use Rattle.nostr_filter.specs.Matching.{matches_of};
ghost use Rattle.nostr_wire.specs.Forms.{relay_form};
ghost use Rattle.nostr_filter.specs.TagOrders.{IsOrderOf};
ghost use Rattle.relay_core.specs.Acknowledging.{AcknowledgeNone};
ghost use Rattle.relay_core.specs.Due.{is_due as due_at, sent_at, due as all_due, CatchesUp};

use crate::fault::Broken;
use crate::messages::{copied, event_for};
use crate::subs::Subscription;
use crate::talk::Talk;
use event_list::EventList;
use event_store::{Naming, Reader};
use nostr_event::Event;
use nostr_filter::{Filter, TagOrder};
use nostr_wire::{FromRelay, Name};
use std::alloc::{AllocError, Global};
use std::sync::Arc;

// So many events are looked at in one catch-up.
const MOST_PLACES: usize = 256;

// Once so many bytes are given, no more are in that catch-up.
const MOST_BYTES: usize = 1_048_576;

// So many bytes are counted for a message beside those of its event.
const BESIDE: usize = 128;

// Where there are more filters, an event's tags are put in order before they are looked at.
const FEW_FILTERS: usize = 64;

/// What a catch-up gives.
#[derive(Drop)]
pub struct Caught {
    /// What is sent, in this order.
    pub out: Vec<FromRelay>,
    /// How many of the published events it came to.
    pub front: usize,
    /// Whether these are all: else what is left comes with the next call.
    pub is_all: bool,
}

// The lowest mark, or the front where that is lower.
fn lowest(subs: &[Subscription], front: usize) -> usize
    ensures marks { AllByRecursion (λ s. result ≤ s.mark) subs.now }
    ensures front { result ≤ front }
{
    let mut low = front;
    for sub in subs {
        if sub.mark < low {
            low = sub.mark;
        }
    }
    low
}

// Whether the event at the place is due to the subscription.
fn is_due(sub: &Subscription, place: usize, event: &Event, order: &TagOrder) -> bool
    requires { IsOrderOf event.now.draft.tags order.now }
    ensures { result ≡ due_at place event.now sub.now }
{
    sub.mark <= place && is_wanted(sub.filters.as_slice(), event, order)
}

fn is_wanted(filters: &[Filter], event: &Event, order: &TagOrder) -> bool
    requires { IsOrderOf event.now.draft.tags order.now }
    ensures { result ≡ list_any (λ f. matches_of f event.now) filters.now }
{
    for filter in filters {
        if filter.matches_by(event, order) {
            return true;
        }
    }
    false
}

// Puts the event at the place behind the others, if it is due to the subscription.
fn put_if_due(
    out: &mut Vec<FromRelay>,
    alloc: Global,
    sub: &Subscription,
    place: usize,
    event: &Arc<Event>,
    order: &TagOrder,
) -> Result<(), AllocError>
    requires { IsOrderOf (arc_value event.now).draft.tags order.now }
    ensures { OnOk result (map relay_form out.new.items ≡ map relay_form out.old.items ++ sent_at place (arc_value event.now) (sub.now ∷ [])) }
{
    if is_due(sub, place, event, order) {
        let name = Name::own(copied(alloc, &sub.name)?);
        out.push(event_for(name, event)?)?;
    }
    Ok(())
}

// Puts the event at the place behind the others, once for each subscription that it is due to.
fn put_due(
    out: &mut Vec<FromRelay>,
    alloc: Global,
    subs: &[Subscription],
    place: usize,
    event: &Arc<Event>,
    order: &TagOrder,
) -> Result<(), AllocError>
    requires { IsOrderOf (arc_value event.now).draft.tags order.now }
    ensures { OnOk result (map relay_form out.new.items ≡ map relay_form out.old.items ++ sent_at place (arc_value event.now) subs.now) }
{
    for sub in subs {
        put_if_due(out, alloc, sub, place, event, order)?;
    }
    Ok(())
}

// Puts the event at the place behind the others, as `put_due` says. Its tags are put in order first, where many filters look at them.
fn put_at(
    out: &mut Vec<FromRelay>,
    alloc: Global,
    subs: &[Subscription],
    place: usize,
    event: &Arc<Event>,
    is_crowd: bool,
) -> Result<(), AllocError>
    ensures { OnOk result (map relay_form out.new.items ≡ map relay_form out.old.items ++ sent_at place (arc_value event.now) subs.now) }
{
    if is_crowd {
        let order = TagOrder::new(alloc, event)?;
        put_due(out, alloc, subs, place, event, &order)
    } else {
        put_due(out, alloc, subs, place, event, &TagOrder::none())
    }
}

// Whether the subscriptions have many filters.
fn are_crowd(subs: &[Subscription]) -> bool {
    let mut count: usize = 0;
    for sub in subs {
        count = count.saturating_add(sub.filters.as_slice().len());
    }
    count > FEW_FILTERS
}

// The events behind the marks, from the lowest on: at most so many places are looked at, and once so many bytes are given no more.
fn due(alloc: Global, subs: &[Subscription], events: &EventList) -> Result<Caught, AllocError>
    ensures within { IfOk result (λ c. c.front ≤ length events.now) }
    ensures given { IfOk result (λ c. map relay_form c.out.items ≡ all_due subs.now (take c.front events.now)) }
    ensures all { IfOk result (λ c. c.is_all ≡ nat_eq c.front (length events.now)) }
{
    let mut out = Vec::new(alloc);
    let is_crowd = are_crowd(subs);
    let low = lowest(subs, events.len());
    let mut room = MOST_BYTES;
    for place in low..events.len() {
        if room == 0 || place - low >= MOST_PLACES {
            return Ok(Caught {
                out,
                front: place,
                is_all: false,
            });
        }
        let event = events.get(place);
        let before = out.len();
        put_at(&mut out, alloc, subs, place, event, is_crowd)?;
        let given = out.len().saturating_sub(before);
        let size = event.text().len().saturating_add(BESIDE);
        room = room.saturating_sub(given.saturating_mul(size));
    }
    Ok(Caught {
        out,
        front: events.len(),
        is_all: true,
    })
}

/// Sends each subscription what was published behind its mark, up to a front, and moves the marks there.
pub fn catch_up<J: Naming>(
    talk: &mut Talk,
    alloc: Global,
    reader: &mut Reader<J>,
) -> Result<Caught, Broken>
    ensures caught { IfOk result (λ c. CatchesUp reader.new c.front (map relay_form c.out.items) talk.old talk.new) }
    ensures none_acknowledged { IfOk result (λ c. AcknowledgeNone (map relay_form c.out.items)) }
    ensures all { IfOk result (λ c. c.is_all ≡ nat_eq c.front (length reader.new)) }
    ensures gone { IfErr result (λ b. b ≡ Broken.Gone → reader.new ≡ reader.old) }
    ensures reader { IsPrefix reader.old reader.new }
{
    let all = reader.all()?;
    let caught = due(alloc, talk.subs(), all.events())?;
    talk.mark_all(caught.front);
    Ok(caught)
}
