//! A peer over a WebSocket.
ghost use Rattle.std.specs.Prelude.{◌≡◌, ◌⊎◌, ◌+◌, ◌<◌, ◌^◌, ◌-◌, [], ◌∷◌, ◌++◌, IfOk, IfErr, IfSome, OnOk, OnErr, true, false, Some, None, Err, Ok};
ghost use Rattle.std.specs.Option.{option_copied};
ghost use Rattle.neg_session.specs.Exchange.{exchange};
ghost use Rattle.nostr_wire.specs.Forms.{client_form};
ghost use Rattle.nostr_wire.specs.Writing.{text_of};
ghost use Rattle.wire.specs.Line.{talk_of};
ghost use Rattle.wire.specs.Talk.{Says, Grows};
ghost use Rattle.ws_socket.specs.Faults.{IsOfStream};
ghost use Rattle.ws_link.specs.Wired.{Wired, unused, failed_by, with_bytes_of, GoesOn};
ghost use Rattle.ws_link.specs.Failing.{answer_of, FailsBy};
ghost use Rattle.ws_link.specs.Spoken.{mirror, asking, Exchanged, WasSpoken};
ghost use Rattle.ws_link.specs.Parts.{Tells, MayAnswer};

use crate::client::{close, connected, copy_of, heard, named, say};
use crate::link::Link;
use crate::notes::{Explains, Notes};
use event_text::EventScratch;
use http_server::Log;
use neg_session::{Pair, Peer, PeerFault};
use nostr_event::Text;
use nostr_filter::{Filter, FilterFault};
use nostr_wire::{Bytes, FromClient, FromRelay, Sub};
use std::alloc::{AllocError, Global};
use std::io::{Read, Write};
use std::marker::Model;
use std::random::RandomSource;
use tungstenite::{MaskKeys, RandomKeys};
use wire::Wire;
use ws_socket::{LinkFault, Reason};

/// The name of the session.
const NAME: &str = "mirror";

/// How many messages are read for one question.
const MOST_READS: u32 = 1_000;

/// A peer behind a stream: a Negentropy session with a relay (NIP-77) over the events that a filter matches. `K` gives the
/// masking keys. Once a call has failed, every question fails.
pub struct WsPeer<S, K> {
    link: Link<S, K, Pair>,
    // What the first question opens the session with.
    filter: Option<Filter>,
    // The same, for proofs alone.
    opens: Log<Filter, bool>,
}

// By hand, as a derived one is proved anew wherever a value is dropped.
impl<S: Drop, K: Drop> Drop for WsPeer<S, K> {
    fn drop(self) {
        let Self {
            link: _,
            filter: _,
            opens: _,
        } = self;
    }
}

impl<S, K> Model for WsPeer<S, K> {
    ghost use Rattle.std.specs.Option.{is_some};
    ghost use Rattle.neg_session.specs.Exchange.{Exchange};
    ghost use Rattle.ws_link.specs.Wired.{Wired};
    ghost use Rattle.ws_link.specs.Held.{noted, given_by, taken_by, Stands};

    ghost Value = { Wired Exchange };

    ghost view = { λ p. record {
      live = is_some p.link.wire;
      log = p.link.log.items;
      faults = p.link.failures;
      last = p.link.last_fault;
      opens = noted p.opens.items;
      given = given_by p.link.wire p.link.given;
      taken = taken_by p.link.wire p.link.taken;
    } };

    ghost invariant = { λ p. Stands (noted p.opens.items) p.link.log.items p.filter p.link.wire p.link.given p.link.taken };
}

impl<S: Read + Write + Drop, R: RandomSource + Drop> WsPeer<S, RandomKeys<R>> {
    /// Does the client's handshake with the host. The masking keys come from `source`. The session begins with the first
    /// question.
    pub fn start(
        alloc: Global,
        source: R,
        stream: S,
        host: &str,
        filter: &Filter,
    ) -> Result<WsPeer<S, RandomKeys<R>>, LinkFault>
        ensures ok { IfOk result (λ p. p ≡ unused true (Some filter.now) p.given) }
        ensures err { IfErr result IsOfStream }
    {
        WsPeer::start_at(alloc, source, stream, host, "/", filter, &mut Notes::none())
    }

    /// The same with the host and this path, which begins with a slash. It notes why it fails.
    pub fn start_at(
        alloc: Global,
        source: R,
        stream: S,
        host: &str,
        path: &str,
        filter: &Filter,
        notes: &mut Notes,
    ) -> Result<WsPeer<S, RandomKeys<R>>, LinkFault>
        ensures ok { IfOk result (λ p. p ≡ unused true (Some filter.now) p.given) }
        ensures err { IfErr result IsOfStream }
    {
        let filter = copied(alloc, filter)?;
        let wire = connected(alloc, source, stream, host, path, notes)?;
        Ok(WsPeer {
            link: Link::new(alloc, Some(wire), Notes::none()),
            opens: Log::new().and(&filter, &true),
            filter: Some(filter),
        })
    }
}

/// The same filter.
fn copied(alloc: Global, filter: &Filter) -> Result<Filter, LinkFault>
    ensures value { IfOk result (λ f. f ≡ filter.now) }
    ensures memory { IfErr result (λ f. f ≡ LinkFault.Memory) }
{
    let value = filter.to_json(alloc)?;
    match Filter::from_json(alloc, &value) {
        Ok(copy) => Ok(copy),
        Err(FilterFault::Memory) => Err(LinkFault::Memory),
        Err(_) => unreachable!(),
    }
}

impl<S: Drop, K: Drop> WsPeer<S, K> {
    /// A peer that can't be reached: every question fails. It takes no memory.
    pub fn unreachable(alloc: Global) -> WsPeer<S, K>
        ensures { result ≡ unused false None [] }
    {
        WsPeer::unreachable_by(alloc, Notes::none())
    }

    /// The same, where it is known why.
    pub fn unreachable_by(alloc: Global, notes: Notes) -> WsPeer<S, K>
        ensures { result ≡ unused false None [] }
    {
        WsPeer {
            link: Link::new(alloc, None, notes),
            filter: None,
            opens: Log::new(),
        }
    }

    /// Why the last question that failed did so.
    pub fn last_fault(&self) -> Option<&LinkFault>
        ensures { option_copied result ≡ self.now.last }
    {
        self.link.last_fault.as_ref()
    }

    /// What it answered was heard: each question that is logged went out as a message of the session, and its answer was read
    /// behind that, in bytes that the stream took and gave.
    pub fn always_spoken(&self)
        ensures { WasSpoken self.now }
    {
        let _log = &self.link.log;
    }

    // Notes the fault. Want of memory is no failure of the peer.
    fn fail(&mut self, fault: LinkFault) -> PeerFault
        requires few { self.old.faults < 2 ^ 64 - 1 }
        requires dead { self.old.live ≡ false }
        ensures peer { self.new ≡ failed_by fault self.old }
        ensures answer { result ≡ answer_of fault }
    {
        if self.link.fail(fault) {
            PeerFault::Failed
        } else {
            PeerFault::Memory
        }
    }
}

impl<S: Read + Write + Drop, K: MaskKeys + Drop> WsPeer<S, K> {
    // Asks, and keeps the pair. Where that fails, the stream is let go.
    fn try_ask(&mut self, question: &[u8]) -> Result<Vec<u8>, LinkFault>
        ensures ok { IfOk result (λ answer. (self.old.live ≡ true) × (self.new ≡ with_bytes_of self.new (record self.old { log = self.old.log ++ exchange question.now answer.items ∷ [] }))) }
        ensures err { OnErr result (self.new ≡ with_bytes_of self.new (record self.old { live = false })) }
        ensures grows { GoesOn self.old self.new }
        ensures dead { self.old.live ≡ false → result ≡ Err LinkFault.Link }
    {
        let mut wire = self.link.take_out()?;
        let asked = ask_over(
            self.link.alloc,
            &mut wire,
            self.filter.take(),
            question,
            &mut self.link.log,
            &mut self.link.notes,
        );
        self.link.put_back(wire, asked)
    }

    /// Ends the session, and closes the connection.
    pub fn finish(self) -> Result<(), LinkFault>
        ensures dead { self.live ≡ false → result ≡ Err LinkFault.Link }
        ensures err { IfErr result IsOfStream }
    {
        let Self {
            link,
            filter: _,
            opens: _,
        } = self;
        end_link(link)
    }
}

/// Ends the session over the link, and closes the connection. `Link` where there is no wire.
fn end_link<S: Read + Write + Drop, K: MaskKeys + Drop>(
    mut link: Link<S, K, Pair>,
) -> Result<(), LinkFault>
    ensures dead { link.wire ≡ None → result ≡ Err LinkFault.Link }
    ensures err { IfErr result IsOfStream }
{
    match link.wire.take() {
        Some(mut wire) => end_over(link.alloc, &mut wire, &mut link.notes),
        None => Err(LinkFault::Link),
    }
}

/// Ends the session over the wire, and closes the connection.
fn end_over<S: Read + Write, K: MaskKeys>(
    alloc: Global,
    wire: &mut Wire<S, K>,
    notes: &mut Notes,
) -> Result<(), LinkFault>
    ensures { IfErr result IsOfStream }
{
    end(alloc, wire, notes)?;
    close(wire, notes)
}

/// Asks over the wire, and keeps the pair. The filter opens the session, if there is one.
#[tactic(auto, using(wire::proofs::Growing::grows_same, wire::proofs::Growing::grows_chain))]
fn ask_over<S: Read + Write, K: MaskKeys>(
    alloc: Global,
    wire: &mut Wire<S, K>,
    filter: Option<Filter>,
    question: &[u8],
    pairs: &mut Vec<Pair>,
    notes: &mut Notes,
) -> Result<Vec<u8>, LinkFault>
    ensures exchanged { IfOk result (λ answer. Exchanged filter (talk_of wire.old) (exchange question.now answer.items) (talk_of wire.new)) }
    ensures logged { IfOk result (λ answer. pairs.new.items ≡ pairs.old.items ++ exchange question.now answer.items ∷ []) }
    ensures kept { OnErr result (pairs.new.items ≡ pairs.old.items) }
    ensures grows { Grows (talk_of wire.old) (talk_of wire.new) }
{
    put(alloc, wire, filter, question, notes)?;
    let answer = answer(alloc, wire, notes)?;
    pairs.push(pair_of(alloc, question, answer.as_slice())?)?;
    Ok(answer)
}

/// Puts a question. The filter opens the session, if there is one.
fn put<S: Read + Write, K: MaskKeys>(
    alloc: Global,
    wire: &mut Wire<S, K>,
    filter: Option<Filter>,
    question: &[u8],
    notes: &mut Notes,
) -> Result<(), LinkFault>
    ensures said { OnOk result (Says (talk_of wire.old) (talk_of wire.new) (text_of (asking filter question.now))) }
    ensures grows { Grows (talk_of wire.old) (talk_of wire.new) }
{
    let message = message(alloc, filter, question)?;
    say(alloc, wire, message, notes)
}

/// A question and its answer.
fn pair_of(alloc: Global, question: &[u8], answer: &[u8]) -> Result<Pair, AllocError>
    ensures { IfOk result (λ p. p ≡ exchange question.now answer.now) }
{
    Ok(Pair {
        asked: question.to_vec(alloc)?,
        answered: answer.to_vec(alloc)?,
    })
}

/// Ends the session.
fn end<S: Read + Write, K: MaskKeys>(
    alloc: Global,
    wire: &mut Wire<S, K>,
    notes: &mut Notes,
) -> Result<(), LinkFault>
    ensures { IfErr result IsOfStream }
{
    let sub = session(alloc)?;
    say(alloc, wire, FromClient::NegClose { sub }, notes)
}

/// The session's name.
fn session(alloc: Global) -> Result<Sub, LinkFault>
    ensures value { IfOk result (λ s. s ≡ mirror) }
    ensures err { IfErr result IsOfStream }
{
    named(alloc, NAME)
}

/// The message of a question: the one that opens the session, if the filter is given, or a further one.
fn message(alloc: Global, filter: Option<Filter>, question: &[u8]) -> Result<FromClient, LinkFault>
    ensures { IfOk result (λ m. client_form m ≡ asking filter question.now) }
{
    let sub = session(alloc)?;
    let message = Bytes::new(question.to_vec(alloc)?);
    Ok(match filter {
        Some(filter) => FromClient::NegOpen {
            sub,
            filter,
            message,
        },
        None => FromClient::NegMsg { sub, message },
    })
}

/// Reads until the answer, past at most 999 other messages.
fn answer<S: Read + Write, K: MaskKeys>(
    alloc: Global,
    wire: &mut Wire<S, K>,
    notes: &mut Notes,
) -> Result<Vec<u8>, LinkFault>
    ensures answers { IfOk result (λ answer. MayAnswer (talk_of wire.old) (talk_of wire.new) (Some answer)) }
    ensures grows { Grows (talk_of wire.old) (talk_of wire.new) }
{
    let mut scratch = EventScratch::new();
    for _read in 0..MOST_READS {
        match answer_in(alloc, wire, &mut scratch, notes)? {
            Some(answer) => return Ok(answer),
            None => {}
        }
    }
    notes.tell(Reason::TooManyOthers);
    Err(LinkFault::TooManyOthers)
}

/// Reads a message, which may be the answer.
fn answer_in<S: Read + Write, K: MaskKeys>(
    alloc: Global,
    wire: &mut Wire<S, K>,
    scratch: &mut EventScratch,
    notes: &mut Notes,
) -> Result<Option<Vec<u8>>, LinkFault>
    ensures answers { IfOk result (MayAnswer (talk_of wire.old) (talk_of wire.new)) }
    ensures grows { Grows (talk_of wire.old) (talk_of wire.new) }
{
    match heard(alloc, wire, scratch, notes)? {
        Some(message) => told(alloc, part_in(message), notes),
        None => Ok(None),
    }
}

/// The answer, if it is told, or why the session was refused.
fn told(alloc: Global, part: Part, notes: &mut Notes) -> Result<Option<Vec<u8>>, LinkFault>
    ensures { IfOk result (λ o. IfSome o (λ answer. part ≡ Part.Answer answer)) }
{
    match part {
        Part::Answer(answer) => Ok(Some(answer)),
        Part::NegErr(text) => {
            notes.tell(Reason::NegErr(copy_of(alloc, &text)?));
            Err(LinkFault::Refused(text))
        }
        Part::Closed(text) => {
            notes.tell(Reason::ClosedSub(copy_of(alloc, &text)?));
            Err(LinkFault::Refused(text))
        }
        Part::Other => Ok(None),
    }
}

/// What a message says of the session.
#[derive(Drop)]
enum Part {
    /// The answer.
    Answer(Vec<u8>),
    /// A refusal by `NEG-ERR`.
    NegErr(Text),
    /// A refusal by `CLOSED`.
    Closed(Text),
    /// A message that has nothing to do with the session.
    Other,
}

fn part_in(message: FromRelay) -> Part
    ensures { Tells message result }
{
    match message {
        FromRelay::NegMsg { sub, message } => if_ours(sub, Part::Answer(message.into_vec())),
        FromRelay::NegErr { sub, reason } => if_ours(sub, Part::NegErr(reason)),
        FromRelay::Closed { sub, text } => if_ours(sub, Part::Closed(text)),
        _other => Part::Other,
    }
}

/// The part, if the session is named.
fn if_ours(sub: Sub, part: Part) -> Part
    ensures { ((sub ≡ mirror) × (result ≡ part)) ⊎ (result ≡ Part.Other) }
{
    if is_ours(&sub) { part } else { Part::Other }
}

fn is_ours(sub: &Sub) -> bool
    ensures { result ≡ true → sub.now ≡ mirror }
{
    sub.as_str() == NAME
}

impl<S, K> Explains for WsPeer<S, K> {
    fn notes(&self) -> &Notes {
        &self.link.notes
    }
}

impl<S: Read + Write + Drop, K: MaskKeys + Drop> Peer for WsPeer<S, K> {
    ghost use Rattle.std.specs.Prelude.{◌≡◌, false, ⊤};

    ghost log = { λ p. p.log };

    ghost faults = { λ p. p.faults };

    // Once it has failed it asks no more.
    ghost becomes = { λ p q. p.live ≡ false → q.live ≡ false };

    // At any question the link may fail.
    ghost fails = { λ q. ⊤ };

    ghost stays = { λ p h. h };

    ghost goes_on = { λ p q r h k l. k (h l) };

    fn ask(&mut self, question: &[u8]) -> Result<Vec<u8>, PeerFault>
        requires { self.old.faults < 2 ^ 64 - 1 }
        ensures ok { IfOk result (λ answer. (self.new.log ≡ self.old.log ++ exchange question.now answer.items ∷ []) × (self.new.faults ≡ self.old.faults)) }
        ensures err { OnErr result (self.new.log ≡ self.old.log) }
        ensures failed { result ≡ Err PeerFault.Failed → (self.old.faults < self.new.faults) × ⊤ }
        ensures memory { result ≡ Err PeerFault.Memory → self.new.faults ≡ self.old.faults }
        ensures becomes { self.old.live ≡ false → self.new.live ≡ false }
        // What else it leaves.
        ensures lives { IfOk result (λ _. (self.old.live ≡ true) × (self.new.live ≡ true) × (self.new.last ≡ self.old.last)) }
        ensures opens { self.new.opens ≡ self.old.opens }
        ensures goes_on { GoesOn self.old self.new }
        ensures fault { IfErr result (FailsBy self.old self.new) }
        ensures dead { self.old.live ≡ false → (result ≡ Err PeerFault.Failed) × (self.new.last ≡ Some LinkFault.Link) }
    {
        match self.try_ask(question) {
            Ok(answer) => Ok(answer),
            Err(fault) => Err(self.fail(fault)),
        }
    }

    fn pairs(&self) -> &[Pair] {
        self.link.log.as_slice()
    }

    fn failures(&self) -> u64 {
        self.link.failures
    }
}
