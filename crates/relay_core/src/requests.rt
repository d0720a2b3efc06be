//! Requests for events (REQ of NIP-01).
ghost use Rattle.std.specs.Prelude.{◌≡◌, ◌≤◌, ◌+◌, ◌-◌, List, [], ◌∷◌, ◌++◌, false, nat_le, map, filter_map, slice_get, option_to_list, bytes_eq, None, IfOk, IfErr, OnOk, SomeIff};
ghost use Rattle.std.specs.List.{list_any};
ghost use Rattle.std.specs.Arc.{arc_value};
ghost use Rattle.std.specs.declared.alloc.Global.{Global as AGlobal};
ghost use Rattle.std.specs.declared.sync.Arc.{Arc as AnArc};
ghost use mathlib.Core.List.{IsPrefix};
ghost use Rattle.nostr_event.specs.EventView.{EventView};
ghost use Rattle.nostr_filter.specs.Choice.{chosen};
ghost use Rattle.nostr_filter.specs.Sizes.{sizes_of};
ghost use Rattle.nostr_wire.specs.Forms.{relay_form};
ghost use Rattle.nostr_wire.specs.declared.messages.FromClient.{FromClient};
ghost use Rattle.relay_core.specs.Asking.{Asks};
ghost use Rattle.relay_core.specs.Limits.{most_values};
ghost use Rattle.relay_core.specs.Messages.{event_to, closed as closed_form};
ghost use Rattle.relay_core.specs.Requests.{stored_events as all_stored, open_sizes, subscribed, Requests};
ghost use Rattle.relay_core.specs.Turns.{turn_of};

use crate::fault::Broken;
use crate::limits::RelayLimits;
use crate::messages::{closed, copied, event_for};
use crate::step::Step;
use crate::subs::Subscription;
use crate::talk::Talk;
use event_list::EventList;
use event_store::{Naming, Reader};
use nostr_event::Event;
use nostr_filter::room_behind;
use nostr_wire::{Filters, FromRelay, Heading, Name, Sub};
use std::alloc::{AllocError, Global};
use std::sync::Arc;

// So many bytes the values of all open subscriptions may have.
const MOST_VALUES: usize = 4_000_000;

// Whether the event's text is there, which is to read where it begins.
fn has_text(event: &Event) -> bool {
    event.text().as_bytes().first() == Some(&b'{')
}

// How many of the places have an event. Each text is read where it begins before the first event is shared: these reads don't wait
// for one another, so that the memory of events that lie far apart is fetched side by side, and not event by event.
fn texts_at(events: &EventList, places: &[usize]) -> usize {
    let mut texts: usize = 0;
    for place in places {
        if *place < events.len() && has_text(events.get(*place)) {
            texts = texts.saturating_add(1);
        }
    }
    texts
}

// The events at the places, in their order, and that these were all.
fn stored_events(
    alloc: Global,
    name: &Sub,
    events: &EventList,
    places: &[usize],
) -> Result<Vec<FromRelay>, AllocError>
    ensures { IfOk result (λ v. map relay_form v.items ≡ all_stored name.now events.now places.now) }
{
    let texts = texts_at(events, places);
    let mut out = Vec::with_capacity(alloc, texts.saturating_add(1))?;
    let heading = Arc::new(alloc, Heading::new(alloc, copied(alloc, name)?)?)?;
    for place in places {
        put_event(&mut out, &heading, events, *place)?;
    }
    out.push(FromRelay::Eose {
        sub: copied(alloc, name)?,
    })?;
    Ok(out)
}

// Puts the event at the place behind the others, if there is one.
fn put_event(
    out: &mut Vec<FromRelay>,
    heading: &Arc<Heading>,
    events: &EventList,
    place: usize,
) -> Result<(), AllocError>
    ensures { OnOk result (map relay_form out.new.items ≡ map relay_form out.old.items ++ map (event_to (arc_value heading.now)) (option_to_list (slice_get events.now place))) }
{
    if place < events.len() {
        out.push(event_for(Name::shared(heading)?, events.get(place))?)?;
    }
    Ok(())
}

// Sends what the filters choose, of all that is published, and keeps the subscription.
fn subscribe<J: Naming>(
    talk: &mut Talk,
    alloc: Global,
    reader: &mut Reader<J>,
    name: Sub,
    filters: Filters,
) -> Result<Step, Broken>
    requires { list_any (λ s. bytes_eq s.name name) talk.old.subs ≡ false }
    ensures turn { IfOk result (λ s. (shared : List (AnArc EventView AGlobal)) → map arc_value shared ≡ reader.new → turn_of s talk.new ≡ subscribed reader.new name filters (chosen filters shared) talk.old) }
    ensures gone { IfErr result (λ b. b ≡ Broken.Gone → reader.new ≡ reader.old) }
    ensures reader { IsPrefix reader.old reader.new }
{
    let all = reader.all()?;
    let places = all.choose(alloc, filters.as_slice())?;
    let out = stored_events(alloc, &name, all.events(), places.as_slice())?;
    talk.put_sub(Subscription {
        name,
        filters,
        mark: all.front(),
    })?;
    Ok(Step { out, store: None })
}

// What is left of the room behind the values of the subscriptions, if these fit.
fn room_behind_subs(room: usize, subs: &[Subscription]) -> Option<usize>
    ensures { SomeIff result (open_sizes subs.now ≤ room) (room - open_sizes subs.now) }
{
    let mut left = room;
    for sub in subs {
        match room_behind(left, sub.filters.as_slice()) {
            Some(rest) => left = rest,
            None => return None,
        }
    }
    Some(left)
}

// Whether the values of the subscriptions and those of the filters are together no more than they may be.
fn are_within(subs: &[Subscription], filters: &Filters) -> bool
    ensures { result ≡ nat_le (open_sizes subs.now + sizes_of filters.now) most_values }
{
    match room_behind_subs(MOST_VALUES, subs) {
        Some(room) => room_behind(room, filters.as_slice()).is_some(),
        None => false,
    }
}

// A request is refused.
fn refuse(alloc: Global, name: Sub, why: &str) -> Result<Step, AllocError>
    ensures { IfOk result (λ s. (map relay_form s.out.items ≡ closed_form name why.now ∷ []) × (s.store ≡ None)) }
{
    Step::one(alloc, closed(alloc, name, why)?)
}

/// Serves a request, which ends the subscription of its name.
pub fn request<J: Naming>(
    talk: &mut Talk,
    alloc: Global,
    limits: &RelayLimits,
    reader: &mut Reader<J>,
    name: Sub,
    filters: Filters,
) -> Result<Step, Broken>
    ensures turn { IfOk result (λ s. Requests limits.now reader.new name filters talk.old (turn_of s talk.new)) }
    ensures gone { IfErr result (λ b. b ≡ Broken.Gone → Asks limits.now talk.old (FromClient.Req name filters) × (reader.new ≡ reader.old)) }
    ensures reader { IsPrefix reader.old reader.new }
{
    talk.end_sub(&name);
    if filters.as_slice().len() > limits.filters || !are_within(talk.subs(), &filters) {
        return Ok(refuse(alloc, name, "blocked: too many filters")?);
    }
    if talk.subs().len() >= limits.subs {
        return Ok(refuse(alloc, name, "blocked: too many subscriptions")?);
    }
    subscribe(talk, alloc, reader, name, filters)
}
