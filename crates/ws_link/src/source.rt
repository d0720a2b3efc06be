//! A source over a WebSocket.
ghost use Rattle.std.specs.Prelude.{◌≡◌, ◌≢◌, ◌⊎◌, ◌+◌, ◌<◌, ◌^◌, ◌-◌, [], ◌∷◌, ◌++◌, map, List, IfOk, IfErr, OnOk, OnErr, true, false, Some, None, Err, Ok};
ghost use Rattle.std.specs.Arc.{arc_value};
ghost use Rattle.std.specs.Option.{option_copied};
ghost use Rattle.event_source.specs.Fetching.{Fetching, fetching, ids_of};
ghost use Rattle.item_key.specs.declared.Id.{Id};
ghost use Rattle.nostr_event.specs.EventView.{EventView};
ghost use Rattle.nostr_wire.specs.Forms.{client_form};
ghost use Rattle.nostr_wire.specs.Writing.{text_of};
ghost use Rattle.wire.specs.Line.{talk_of};
ghost use Rattle.wire.specs.Talk.{Says, Grows};
ghost use Rattle.ws_socket.specs.Faults.{IsOfStream};
ghost use Rattle.ws_link.specs.Wired.{Wired, unused, failed_by, with_bytes_of, GoesOn};
ghost use Rattle.ws_link.specs.Failing.{gives, MissesBy};
ghost use Rattle.ws_link.specs.Fetched.{fetch, with_ids, requesting, closing, is_due, keep, Answers, IsFetched, WasFetched, Gives};
ghost use Rattle.ws_link.specs.Taken.{Tells, MayTell, AreDue, TakesDue};

use crate::client::{close, connected, copy_of, heard, named, say};
use crate::link::Link;
use crate::notes::{Explains, Notes};
use event_source::{Fetch, Source, SourceFault};
use event_text::EventScratch;
use item_key::Id;
use nostr_event::{Event, Text};
use nostr_filter::{Bytes32List, Filter};
use nostr_wire::{Filters, FromClient, FromRelay, Sub};
use std::alloc::{AllocError, Global};
use std::collections::BTreeSet;
use std::io::{Read, Write};
use std::marker::Model;
use std::random::RandomSource;
use std::sync::Arc;
use tungstenite::{MaskKeys, RandomKeys};
use wire::Wire;
use ws_socket::{LinkFault, Reason};

/// The name of the subscription.
const NAME: &str = "fetch";

/// How many messages that aren't asked for are too many.
const TOO_MANY: usize = 1_000;

/// A source behind a stream: a relay that is asked for events by their ids (NIP-01). `K` gives the masking keys. Once a call
/// has failed, every fetch fails.
pub struct WsSource<S, K> {
    link: Link<S, K, Fetch>,
}

// By hand, as a derived one is proved anew wherever a value is dropped.
impl<S: Drop, K: Drop> Drop for WsSource<S, K> {
    fn drop(self) {
        let Self { link: _ } = self;
    }
}

impl<S, K> Model for WsSource<S, K> {
    ghost use Rattle.std.specs.Prelude.{None};
    ghost use Rattle.std.specs.Option.{is_some};
    ghost use Rattle.event_source.specs.Fetching.{Fetching};
    ghost use Rattle.ws_link.specs.Wired.{Wired};
    ghost use Rattle.ws_link.specs.Held.{given_by, taken_by, StandsFetched};

    ghost Value = { Wired Fetching };

    ghost view = { λ s. record {
      live = is_some s.link.wire;
      log = s.link.log.items;
      faults = s.link.failures;
      last = s.link.last_fault;
      opens = None;
      given = given_by s.link.wire s.link.given;
      taken = taken_by s.link.wire s.link.taken;
    } };

    ghost invariant = { λ s. StandsFetched s.link.log.items s.link.wire s.link.given s.link.taken };
}

impl<S: Read + Write + Drop, R: RandomSource + Drop> WsSource<S, RandomKeys<R>> {
    /// Does the client's handshake with the host. The masking keys come from `source`.
    pub fn start(
        alloc: Global,
        source: R,
        stream: S,
        host: &str,
    ) -> Result<WsSource<S, RandomKeys<R>>, LinkFault>
        ensures ok { IfOk result (λ s. s ≡ unused true None s.given) }
        ensures err { IfErr result IsOfStream }
    {
        WsSource::start_at(alloc, source, stream, host, "/", &mut Notes::none())
    }

    /// The same with the host and this path, which begins with a slash. It notes why it fails.
    pub fn start_at(
        alloc: Global,
        source: R,
        stream: S,
        host: &str,
        path: &str,
        notes: &mut Notes,
    ) -> Result<WsSource<S, RandomKeys<R>>, LinkFault>
        ensures ok { IfOk result (λ s. s ≡ unused true None s.given) }
        ensures err { IfErr result IsOfStream }
    {
        let wire = connected(alloc, source, stream, host, path, notes)?;
        Ok(WsSource {
            link: Link::new(alloc, Some(wire), Notes::none()),
        })
    }
}

impl<S: Drop, K: Drop> WsSource<S, K> {
    /// Why the last fetch that failed did so.
    pub fn last_fault(&self) -> Option<&LinkFault>
        ensures { option_copied result ≡ self.now.last }
    {
        self.link.last_fault.as_ref()
    }

    /// What it gave was heard: of each fetch that is logged the request went out, the events that were given are those of messages
    /// for it, read behind that up to the end of the stored events, in bytes that the stream took and gave.
    pub fn always_fetched(&self)
        ensures { WasFetched self.now }
    {
        let _log = &self.link.log;
    }

    // Notes the fault. Want of memory is no failure of the source.
    fn fail(&mut self, fault: LinkFault) -> SourceFault
        requires few { self.old.faults < 2 ^ 64 - 1 }
        requires dead { self.old.live ≡ false }
        ensures source { self.new ≡ failed_by fault self.old }
        ensures answer { result ≡ gives fault }
    {
        if self.link.fail(fault) {
            SourceFault::Failed
        } else {
            SourceFault::Memory
        }
    }
}

impl<S: Read + Write + Drop, K: MaskKeys + Drop> WsSource<S, K> {
    // Asks for the events, and keeps the ids. Where that fails, the stream is let go.
    fn try_fetch(&mut self, ids: &[Id]) -> Result<Vec<Arc<Event>>, LinkFault>
        ensures ok { IfOk result (λ given. (self.old.live ≡ true) × (self.new ≡ with_bytes_of self.new (record self.old { log = self.old.log ++ fetching ids.now (ids_of given.items) ∷ [] }))) }
        ensures err { OnErr result (self.new ≡ with_bytes_of self.new (record self.old { live = false })) }
        ensures gives { IfOk result (λ given. Gives ids.now (map arc_value given.items) self.old self.new) }
        ensures grows { GoesOn self.old self.new }
        ensures dead { self.old.live ≡ false → result ≡ Err LinkFault.Link }
    {
        let mut wire = self.link.take_out()?;
        let fetched = fetch_over(
            self.link.alloc,
            &mut wire,
            ids,
            &mut self.link.log,
            &mut self.link.notes,
        );
        self.link.put_back(wire, fetched)
    }

    /// Closes the connection.
    pub fn finish(self) -> Result<(), LinkFault>
        ensures dead { self.live ≡ false → result ≡ Err LinkFault.Link }
        ensures err { IfErr result IsOfStream }
    {
        let Self { mut link } = self;
        let mut wire = link.take_out()?;
        close(&mut wire, &mut link.notes)
    }
}

/// Asks for the events over the wire, and keeps the ids.
#[tactic(auto, using(wire::proofs::Growing::grows_same, wire::proofs::Growing::grows_chain))]
fn fetch_over<S: Read + Write, K: MaskKeys>(
    alloc: Global,
    wire: &mut Wire<S, K>,
    ids: &[Id],
    fetches: &mut Vec<Fetch>,
    notes: &mut Notes,
) -> Result<Vec<Arc<Event>>, LinkFault>
    ensures fetched { IfOk result (λ given. IsFetched ids.now (map arc_value given.items) (talk_of wire.old) (talk_of wire.new)) }
    ensures logged { IfOk result (λ given. fetches.new.items ≡ fetches.old.items ++ fetching ids.now (ids_of given.items) ∷ []) }
    ensures kept { OnErr result (fetches.new.items ≡ fetches.old.items) }
    ensures grows { Grows (talk_of wire.old) (talk_of wire.new) }
{
    ask(alloc, wire, ids, notes)?;
    let events = read_events(alloc, wire, ids, notes)?;
    end(alloc, wire, notes)?;
    fetches.push(Fetch::of(alloc, ids, &events)?)?;
    Ok(events)
}

/// Asks for the events with these ids.
fn ask<S: Read + Write, K: MaskKeys>(
    alloc: Global,
    wire: &mut Wire<S, K>,
    ids: &[Id],
    notes: &mut Notes,
) -> Result<(), LinkFault>
    ensures said { OnOk result (Says (talk_of wire.old) (talk_of wire.new) (text_of (requesting ids.now))) }
    ensures grows { Grows (talk_of wire.old) (talk_of wire.new) }
{
    let request = request(alloc, ids)?;
    say(alloc, wire, request, notes)
}

/// Ends the subscription.
fn end<S: Read + Write, K: MaskKeys>(
    alloc: Global,
    wire: &mut Wire<S, K>,
    notes: &mut Notes,
) -> Result<(), LinkFault>
    ensures said { OnOk result (Says (talk_of wire.old) (talk_of wire.new) (text_of closing)) }
    ensures grows { Grows (talk_of wire.old) (talk_of wire.new) }
{
    let sub = subscription(alloc)?;
    say(alloc, wire, FromClient::Close { sub }, notes)
}

/// The subscription's name.
fn subscription(alloc: Global) -> Result<Sub, LinkFault>
    ensures value { IfOk result (λ s. s ≡ fetch) }
    ensures err { IfErr result IsOfStream }
{
    named(alloc, NAME)
}

/// The bytes of these ids.
fn bytes_of(alloc: Global, ids: &[Id]) -> Result<Vec<[u8; 32]>, AllocError>
    ensures { IfOk result (λ v. v.items ≡ map (λ i. i.0) ids.now) }
{
    let mut bytes = Vec::new(alloc);
    for id in ids {
        bytes.push(id.0)?;
    }
    Ok(bytes)
}

/// The filter that just the events with these ids match.
fn filter_of(alloc: Global, ids: &[Id]) -> Result<Filter, AllocError>
    ensures { IfOk result (λ f. f ≡ with_ids ids.now) }
{
    let mut filter = Filter::all();
    filter.ids = Some(Bytes32List::new(bytes_of(alloc, ids)?));
    Ok(filter)
}

/// The request for the events with these ids.
fn request(alloc: Global, ids: &[Id]) -> Result<FromClient, LinkFault>
    ensures { IfOk result (λ m. client_form m ≡ requesting ids.now) }
{
    let sub = subscription(alloc)?;
    let filter = filter_of(alloc, ids)?;
    let mut filters = Vec::new(alloc);
    filters.push(filter)?;
    match Filters::new(filters) {
        Ok(filters) => Ok(FromClient::Req { sub, filters }),
        Err(_) => unreachable!(),
    }
}

/// The ids that are due before any event came: those that were asked for. One sort.
fn due_at_first(alloc: Global, ids: &[Id]) -> Result<BTreeSet<Id>, AllocError>
    ensures { IfOk result (λ due. AreDue ids.now [] due.keys) }
{
    let due: BTreeSet<Id> = ids.iter().copied().collect(alloc)?;
    Ok(due)
}

/// Whether the event is due. From then on it isn't.
fn comes_due(due: &mut BTreeSet<Id>, event: &Event) -> bool
    ensures due { (asked : List Id) (kept : List EventView) → AreDue asked kept due.old.keys → result ≡ is_due asked kept event.now }
    ensures left { (asked : List Id) (kept : List EventView) → AreDue asked kept due.old.keys → AreDue asked (keep asked kept (Some event.now)) due.new.keys }
{
    due.remove(&event.id())
}

/// Reads until the end of the stored events, past at most 999 other messages. Events that weren't asked for, or came already, are
/// let go at once, and count among these.
#[tactic(auto, using(wire::proofs::Growing::grows_same, wire::proofs::Growing::grows_chain))]
fn read_events<S: Read + Write, K: MaskKeys>(
    alloc: Global,
    wire: &mut Wire<S, K>,
    ids: &[Id],
    notes: &mut Notes,
) -> Result<Vec<Arc<Event>>, LinkFault>
    ensures answers { IfOk result (λ events. Answers ids.now (map arc_value events.items) (talk_of wire.old) (talk_of wire.new)) }
    ensures grows { Grows (talk_of wire.old) (talk_of wire.new) }
{
    let mut due = due_at_first(alloc, ids)?;
    let mut events = Vec::new(alloc);
    let mut others = 0usize;
    let mut scratch = EventScratch::new();
    for _read in 0..ids.len().saturating_add(TOO_MANY) {
        match read_event(alloc, wire, &mut scratch, &mut due, &mut events, notes)? {
            Came::Due => {}
            Came::End => return Ok(events),
            Came::Other => others = others.saturating_add(1),
        }
        if others >= TOO_MANY {
            break;
        }
    }
    notes.tell(Reason::TooManyOthers);
    Err(LinkFault::TooManyOthers)
}

/// What a message was to a fetch.
#[derive(Clone, Copy)]
enum Came {
    /// An event that was due.
    Due,
    /// The end of the stored events.
    End,
    /// Nothing to do with it.
    Other,
}

/// Reads a message, and keeps an event that is due.
#[tactic(auto, using(wire::proofs::Growing::grows_same, wire::proofs::Growing::grows_chain))]
fn read_event<S: Read + Write, K: MaskKeys>(
    alloc: Global,
    wire: &mut Wire<S, K>,
    scratch: &mut EventScratch,
    due: &mut BTreeSet<Id>,
    events: &mut Vec<Arc<Event>>,
    notes: &mut Notes,
) -> Result<Came, LinkFault>
    ensures takes { IfOk result (TakesDue (talk_of wire.old) (map arc_value events.old.items) due.old.keys (talk_of wire.new) (map arc_value events.new.items) due.new.keys) }
    ensures grows { Grows (talk_of wire.old) (talk_of wire.new) }
{
    match hear(alloc, wire, scratch, notes)? {
        Part::Event(event) => {
            if comes_due(due, &event) {
                events.push(event)?;
                Ok(Came::Due)
            } else {
                Ok(Came::Other)
            }
        }
        Part::End => Ok(Came::End),
        Part::Closed(text) => {
            notes.tell(Reason::ClosedSub(copy_of(alloc, &text)?));
            Err(LinkFault::Refused(text))
        }
        Part::Other => Ok(Came::Other),
    }
}

/// A part of what is given.
#[derive(Drop)]
enum Part {
    Event(Arc<Event>),
    /// All stored events were given.
    End,
    /// The fetch was refused.
    Closed(Text),
    /// A message that has nothing to do with the fetch.
    Other,
}

/// Reads a part.
fn hear<S: Read + Write, K: MaskKeys>(
    alloc: Global,
    wire: &mut Wire<S, K>,
    scratch: &mut EventScratch,
    notes: &mut Notes,
) -> Result<Part, LinkFault>
    ensures tells { IfOk result (MayTell (talk_of wire.old) (talk_of wire.new)) }
    ensures grows { Grows (talk_of wire.old) (talk_of wire.new) }
{
    match heard(alloc, wire, scratch, notes)? {
        Some(message) => Ok(part_in(message)),
        None => Ok(Part::Other),
    }
}

fn part_in(message: FromRelay) -> Part
    ensures { Tells message result }
{
    match message {
        FromRelay::Event { sub, event } => if_ours(sub.as_str(), Part::Event(event)),
        FromRelay::Eose { sub } => if_ours(sub.as_str(), Part::End),
        FromRelay::Closed { sub, text } => if_ours(sub.as_str(), Part::Closed(text)),
        FromRelay::Okay {
            id: _,
            taken: _,
            text: _,
        } => Part::Other,
        FromRelay::Notice { text: _ } => Part::Other,
        FromRelay::NegMsg { sub: _, message: _ } => Part::Other,
        FromRelay::NegErr { sub: _, reason: _ } => Part::Other,
    }
}

/// The part, if this is the name of the fetch's subscription.
fn if_ours(name: &str, part: Part) -> Part
    ensures { ((name.now ≡ fetch) × (result ≡ part)) ⊎ ((name.now ≢ fetch) × (result ≡ Part.Other)) }
{
    if is_ours(name) { part } else { Part::Other }
}

fn is_ours(name: &str) -> bool
    ensures ours { result ≡ true → name.now ≡ fetch }
    ensures other { result ≡ false → name.now ≢ fetch }
{
    name == NAME
}

impl<S, K> Explains for WsSource<S, K> {
    fn notes(&self) -> &Notes {
        &self.link.notes
    }
}

impl<S: Read + Write + Drop, K: MaskKeys + Drop> Source for WsSource<S, K> {
    ghost use Rattle.std.specs.Prelude.{◌≡◌, false};

    ghost log = { λ s. s.log };

    ghost faults = { λ s. s.faults };

    // Once it has failed it asks no more.
    ghost becomes = { λ s t. s.live ≡ false → t.live ≡ false };

    ghost stays = { λ s h. h };

    ghost goes_on = { λ s t u h k l. k (h l) };

    fn fetch(&mut self, ids: &[Id]) -> Result<Vec<Arc<Event>>, SourceFault>
        requires { self.old.faults < 2 ^ 64 - 1 }
        ensures ok { IfOk result (λ given. (self.new.log ≡ self.old.log ++ fetching ids.now (ids_of given.items) ∷ []) × (self.new.faults ≡ self.old.faults)) }
        ensures err { OnErr result (self.new.log ≡ self.old.log) }
        ensures failed { result ≡ Err SourceFault.Failed → self.old.faults < self.new.faults }
        ensures memory { result ≡ Err SourceFault.Memory → self.new.faults ≡ self.old.faults }
        ensures becomes { self.old.live ≡ false → self.new.live ≡ false }
        // What else it leaves.
        ensures lives { IfOk result (λ _. (self.old.live ≡ true) × (self.new.live ≡ true) × (self.new.last ≡ self.old.last)) }
        ensures goes_on { GoesOn self.old self.new }
        ensures gives { IfOk result (λ given. Gives ids.now (map arc_value given.items) self.old self.new) }
        ensures fault { IfErr result (MissesBy self.old self.new) }
        ensures dead { self.old.live ≡ false → (result ≡ Err SourceFault.Failed) × (self.new.last ≡ Some LinkFault.Link) }
    {
        match self.try_fetch(ids) {
            Ok(events) => Ok(events),
            Err(fault) => Err(self.fail(fault)),
        }
    }

    fn fetches(&self) -> &[Fetch] {
        self.link.log.as_slice()
    }

    fn failures(&self) -> u64 {
        self.link.failures
    }
}
