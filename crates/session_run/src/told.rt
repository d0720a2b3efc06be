//! Peers and sources of which it is told how far they are.

ghost use Rattle.std.specs.Prelude.{◌≡◌, ◌+◌, ◌<◌, ◌^◌, ◌-◌, [], ◌∷◌, ◌++◌, All, IfOk, OnErr, Err};
ghost use Rattle.ws_link.specs.Fetched.{WasFetched};
ghost use Rattle.ws_link.specs.Spoken.{WasSpoken};

use crate::pace::SharedPace;
use crate::progress::{Progress, RelayLine};
use crate::text::SessionLine;
use event_source::{Fetch, Source, SourceFault};
use item_key::Id;
use neg_initiator::Outcome;
use neg_session::{Pair, Peer, PeerFault, SessionFault};
use nostr_event::Event;
use std::io::Write;
use std::rt::Clock;
use std::sync::{Arc, Mutex, Wait};
use std::time::Instant;
use ws_link::{Explains, Notes, Reason, WsPeer, WsSource};

/// What a session with a relay came to.
#[derive(Clone, Copy)]
pub enum Heard {
    /// Nothing: the relay wasn't asked, or its session hasn't ended.
    Nothing,
    /// So many ids are needed of it.
    Needs(usize),
    /// The relay lists more than one session takes, or compares no more than a part of these events. The number is the fault's.
    TooMuch(u8),
    /// It failed, by the fault of this number.
    Failed(u8),
}

/// Whether a relay compares no more than a part of what it was asked for: it says that it is blocked (NIP-77), or its answer is too
/// long.
fn is_too_much(notes: &Notes) -> bool {
    match notes.reason() {
        Some(Reason::TooLong) => true,
        Some(Reason::NegErr(text)) => text.as_str().starts_with("blocked"),
        _ => false,
    }
}

/// What a session came to, whose peer knows no more than that.
fn heard_of(end: Result<&Outcome, SessionFault>, notes: &Notes) -> Heard {
    match end {
        Ok(outcome) => Heard::Needs(outcome.need.len()),
        Err(fault) => {
            let number = fault.number();
            match fault {
                SessionFault::NeedFull | SessionFault::LogFull => Heard::TooMuch(number),
                SessionFault::PeerFailed if is_too_much(notes) => Heard::TooMuch(number),
                _ => Heard::Failed(number),
            }
        }
    }
}

/// A relay, whose session is told as it ends.
#[derive(Drop)]
pub struct ToldPeer<'a, Q, R, P> {
    pub peer: Q,
    pub relay: usize,
    pub name: String,
    /// Else nothing is told of it.
    pub is_asked: bool,
    pub heard: Mutex<Heard>,
    pub rt: &'a R,
    pub progress: &'a Progress<P>,
}

impl<Q: Explains, R: Wait, P: Write> ToldPeer<'_, Q, R, P> {
    /// Tells why the session failed: what is known of the link, or else the fault of the session.
    fn tell_fault(&self, fault: SessionFault) {
        let (relay, name) = (self.relay, self.name.as_str());
        let notes = self.peer.notes();
        if notes.reason().is_some() {
            let why = notes;
            self.progress.fail(self.rt, RelayLine { relay, name, why });
        } else {
            let why = &fault;
            self.progress.fail(self.rt, RelayLine { relay, name, why });
        }
    }
}

impl<Q: Peer + Explains, R: Wait, P: Write> Peer for ToldPeer<'_, Q, R, P> {
    ghost log = { λ p. Q.log p.peer };

    ghost faults = { λ p. Q.faults p.peer };

    ghost becomes = { λ p q. Q.becomes p.peer q.peer };

    ghost fails = { λ q. Q.fails q };

    ghost stays = { λ p. Q.stays p.peer };

    ghost goes_on = { λ p q r h k. Q.goes_on p.peer q.peer r.peer h k };

    fn ask(&mut self, question: &[u8]) -> Result<Vec<u8>, PeerFault> {
        self.peer.ask(question)
    }

    fn pairs(&self) -> &[Pair] {
        self.peer.pairs()
    }

    fn failures(&self) -> u64 {
        self.peer.failures()
    }

    fn ended(&self, end: Result<&Outcome, SessionFault>) {
        self.peer.ended(end);
        if !self.is_asked {
            return;
        }
        *self.heard.lock(self.rt) = heard_of(end, self.peer.notes());
        let line = SessionLine {
            relay: self.relay,
            needed: match end {
                Ok(outcome) => Ok(outcome.need.len()),
                Err(fault) => Err(fault),
            },
        };
        self.progress.say(self.rt, line);
        if let Err(fault) = end {
            self.tell_fault(fault);
        }
    }
}

/// What the peers answered was heard: all that they logged was spoken over their streams.
pub fn all_spoken<S: Drop, K: Drop, R, P>(peers: &[ToldPeer<'_, WsPeer<S, K>, R, P>])
    ensures { All (λ told. WasSpoken told.peer) peers.now }
{
    for told in peers {
        told.peer.always_spoken();
    }
}

/// A relay that is fetched from, whose answers are counted.
#[derive(Drop)]
pub struct ToldSource<'a, S, R, P> {
    pub source: S,
    pub relay: usize,
    pub name: String,
    /// The pace of its fetches, which its stream keeps.
    pub pace: SharedPace,
    pub rt: &'a R,
    pub progress: &'a Progress<P>,
}

impl<S: Source + Explains, R: Wait + Clock, P: Write> Source for ToldSource<'_, S, R, P> {
    ghost log = { λ s. S.log s.source };

    ghost faults = { λ s. S.faults s.source };

    ghost becomes = { λ s t. S.becomes s.source t.source };

    ghost stays = { λ s. S.stays s.source };

    ghost goes_on = { λ s t u h k. S.goes_on s.source t.source u.source h k };

    fn fetch(&mut self, ids: &[Id]) -> Result<Vec<Arc<Event>>, SourceFault> {
        self.pace.lock(self.rt).begin(Instant::now(self.rt).ok());
        let fetched = self.source.fetch(ids);
        match &fetched {
            Ok(events) => self.progress.fetched(self.rt, ids.len(), events.len()),
            Err(_) => self.progress.fail(
                self.rt,
                RelayLine {
                    relay: self.relay,
                    name: self.name.as_str(),
                    why: self.source.notes(),
                },
            ),
        }
        fetched
    }

    fn fetches(&self) -> &[Fetch] {
        self.source.fetches()
    }

    fn failures(&self) -> u64 {
        self.source.failures()
    }
}

/// What the sources gave was heard: all that they logged was fetched over their streams.
pub fn all_fetched<S: Drop, K: Drop, R, P>(sources: &[ToldSource<'_, WsSource<S, K>, R, P>])
    ensures { All (λ told. WasFetched told.source) sources.now }
{
    for told in sources {
        told.source.always_fetched();
    }
}
