//! A subscription over a WebSocket.
ghost use Rattle.std.specs.Prelude.{◌≡◌, IfOk, OnOk, true};
ghost use Rattle.nostr_wire.specs.Forms.{client_form};
ghost use Rattle.nostr_wire.specs.Writing.{text_of};
ghost use Rattle.wire.specs.Line.{talk_of};
ghost use Rattle.wire.specs.Talk.{Says};
ghost use Rattle.ws_link.specs.Messages.{Means};
ghost use Rattle.ws_link.specs.Live.{live, requesting, Asked, Tells, MayTell, Brings};

use crate::client::{connected, copy_of, meant, named, say};
use crate::notes::{Explains, Notes};
use event_text::EventScratch;
use nostr_event::{Event, Text};
use nostr_filter::Filter;
use nostr_wire::{Filters, FromClient, FromRelay, Sub};
use std::alloc::Global;
use std::io::{ErrorKind, Read, Write};
use std::marker::Model;
use std::random::RandomSource;
use std::sync::{Arc, Mutex, Wait};
use tungstenite::{MaskKeys, RandomKeys};
use wire::{Fault, Message, Wire};
use ws_socket::{LinkFault, Reason};

/// The name of the subscription.
const NAME: &str = "live";

/// A text of more bytes is long. What is read of it may take a hundred times as much memory meanwhile.
const LONG_TEXT: usize = 262_144;

/// A ping without a payload, as a whole frame of a client (RFC 6455, section 5.5.2). Its mask has nothing to mask.
const PING: [u8; 6] = [0x89, 0x80, 0, 0, 0, 0];

/// What a subscription brings.
#[derive(Drop)]
pub enum Brought {
    /// An event, sent for the subscription.
    Event(Arc<Event>),
    /// A message that has nothing to do with it, or an event that is refused.
    Other,
    /// Nothing: no message in time, or a sign that the relay is there.
    Nothing,
}

/// A subscription behind a stream: a relay that sends the events that a filter matches as they come (NIP-01). `K` gives the masking
/// keys.
pub struct WsSubscription<S, K> {
    alloc: Global,
    wire: Wire<S, K>,
    // Whether it was sent a ping, and no message came since.
    is_pinged: bool,
    notes: Notes,
}

// By hand, as a derived one is proved anew wherever a value is dropped.
impl<S: Drop, K: Drop> Drop for WsSubscription<S, K> {
    fn drop(self) {
        let Self {
            alloc: _,
            wire: _,
            is_pinged: _,
            notes: _,
        } = self;
    }
}

impl<S, K> Model for WsSubscription<S, K> {
    ghost use Rattle.wire.specs.Line.{Line};

    ghost Value = { Line S };

    ghost view = { λ s. s.wire };
}

impl<S: Read + Write + Drop, R: RandomSource + Drop> WsSubscription<S, RandomKeys<R>> {
    /// Does the client's handshake with the host and this path, which begins with a slash, and asks for what the filter matches.
    /// The masking keys come from `source`. It notes why it fails.
    pub fn start_at(
        alloc: Global,
        source: R,
        stream: S,
        host: &str,
        path: &str,
        filter: Filter,
        notes: &mut Notes,
    ) -> Result<WsSubscription<S, RandomKeys<R>>, LinkFault>
        ensures { IfOk result (λ s. Asked filter (talk_of s)) }
    {
        let mut wire = connected(alloc, source, stream, host, path, notes)?;
        ask(alloc, &mut wire, filter, notes)?;
        Ok(WsSubscription {
            alloc,
            wire,
            is_pinged: false,
            notes: Notes::none(),
        })
    }
}

/// Asks for what the filter matches.
fn ask<S: Read + Write, K: MaskKeys>(
    alloc: Global,
    wire: &mut Wire<S, K>,
    filter: Filter,
    notes: &mut Notes,
) -> Result<(), LinkFault>
    ensures { OnOk result (Says (talk_of wire.old) (talk_of wire.new) (text_of (requesting filter))) }
{
    let request = request(alloc, filter)?;
    say(alloc, wire, request, notes)
}

/// The subscription's name.
fn subscription(alloc: Global) -> Result<Sub, LinkFault>
    ensures { IfOk result (λ s. s ≡ live) }
{
    named(alloc, NAME)
}

/// The request for the events that the filter matches.
fn request(alloc: Global, filter: Filter) -> Result<FromClient, LinkFault>
    ensures { IfOk result (λ m. client_form m ≡ requesting filter) }
{
    let sub = subscription(alloc)?;
    let mut filters = Vec::new(alloc);
    filters.push(filter)?;
    match Filters::new(filters) {
        Ok(filters) => Ok(FromClient::Req { sub, filters }),
        Err(_) => unreachable!(),
    }
}

impl<S: Read + Write + Drop, K: MaskKeys + Drop> WsSubscription<S, K> {
    /// Waits for a message. Where subscriptions share `turn`, one long text is read at a time of them all. A relay of which no message
    /// comes until the stream would block is sent a ping; where that is so a second time, it is gone. Behind a fault nothing more
    /// comes.
    pub fn next<W: Wait>(&mut self, rt: &W, turn: &Mutex<()>) -> Result<Brought, LinkFault>
        ensures { IfOk result (Brings (talk_of self.old) (talk_of self.new)) }
    {
        match hear(rt, self.alloc, &mut self.wire, turn, &mut self.notes)? {
            Part::Late => {
                self.wait_on()?;
                Ok(Brought::Nothing)
            }
            Part::Closed(text) => {
                self.notes
                    .tell(Reason::ClosedSub(copy_of(self.alloc, &text)?));
                Err(LinkFault::Refused(text))
            }
            Part::Event(event) => Ok(self.came(Brought::Event(event))),
            Part::Other => Ok(self.came(Brought::Other)),
            Part::Sign => Ok(self.came(Brought::Nothing)),
        }
    }

    // A message came.
    fn came(&mut self, brought: Brought) -> Brought
        ensures same { result ≡ brought }
        ensures wire { self.new ≡ self.old }
    {
        self.is_pinged = false;
        brought
    }

    // No message came in time.
    fn wait_on(&mut self) -> Result<(), LinkFault> {
        if self.is_pinged {
            self.notes.tell(Reason::TimedOut);
            return Err(LinkFault::Link);
        }
        self.is_pinged = true;
        self.wire.put_frames(&PING)?;
        match self.wire.send() {
            Ok(()) => Ok(()),
            Err(error) => Err(self.notes.broken(Fault::Stream(error))),
        }
    }
}

impl<S, K> WsSubscription<S, K> {
    /// Notes why it ends.
    pub fn end_by(&mut self, reason: Reason)
        ensures { self.new ≡ self.old }
    {
        self.notes.tell(reason);
    }
}

/// What was heard of a subscription.
#[derive(Drop)]
enum Part {
    /// An event that was sent for it.
    Event(Arc<Event>),
    /// It was ended or refused.
    Closed(Text),
    /// A sign that the relay is there: the end of the stored events, a ping or a pong.
    Sign,
    /// A message that has nothing to do with it, or an event that is refused.
    Other,
    /// No message came in time.
    Late,
}

/// Reads a message, if one comes before the stream would block.
fn hear<S: Read + Write, K: MaskKeys, W: Wait>(
    rt: &W,
    alloc: Global,
    wire: &mut Wire<S, K>,
    turn: &Mutex<()>,
    notes: &mut Notes,
) -> Result<Part, LinkFault>
    ensures { IfOk result (MayTell (talk_of wire.old) (talk_of wire.new)) }
{
    match wire.listen() {
        Ok(Message::Text(text)) => match meant_in_turn(rt, alloc, turn, text.as_str(), notes)? {
            Some(message) => Ok(part_in(message)),
            None => Ok(Part::Other),
        },
        Ok(Message::Close) => {
            notes.tell(Reason::Closed);
            Err(LinkFault::Link)
        }
        Ok(Message::Binary) => Ok(Part::Other),
        Ok(Message::Other) => Ok(Part::Sign),
        Err(fault) => {
            if is_late(&fault) {
                Ok(Part::Late)
            } else {
                Err(notes.broken(fault))
            }
        }
    }
}

/// Whether nothing came in time.
fn is_late(fault: &Fault) -> bool {
    match fault {
        Fault::Stream(error) => matches!(error.kind(), ErrorKind::WouldBlock | ErrorKind::TimedOut),
        Fault::Frame(_) => false,
    }
}

/// What a relay says in the text. A long one waits for its turn.
fn meant_in_turn<W: Wait>(
    rt: &W,
    alloc: Global,
    turn: &Mutex<()>,
    text: &str,
    notes: &mut Notes,
) -> Result<Option<FromRelay>, LinkFault>
    ensures { IfOk result (Means text.now) }
{
    let mut scratch = EventScratch::new();
    if text.len() <= LONG_TEXT {
        return meant(alloc, &mut scratch, text, notes);
    }
    let held = turn.lock(rt);
    let message = meant(alloc, &mut scratch, text, notes);
    drop(held);
    message
}

fn part_in(message: FromRelay) -> Part
    ensures { Tells message result }
{
    match message {
        FromRelay::Event { sub, event } => {
            if is_ours(sub.as_str()) {
                Part::Event(event)
            } else {
                Part::Other
            }
        }
        FromRelay::Eose { sub } => {
            if is_ours(sub.as_str()) {
                Part::Sign
            } else {
                Part::Other
            }
        }
        FromRelay::Closed { sub, text } => {
            if is_ours(sub.as_str()) {
                Part::Closed(text)
            } else {
                Part::Other
            }
        }
        _other => Part::Other,
    }
}

fn is_ours(name: &str) -> bool
    ensures { result ≡ true → name.now ≡ live }
{
    name == NAME
}

impl<S, K> Explains for WsSubscription<S, K> {
    fn notes(&self) -> &Notes {
        &self.notes
    }
}
