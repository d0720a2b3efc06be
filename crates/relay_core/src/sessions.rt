//! Negentropy sessions (NIP-77).
ghost use Rattle.std.specs.Prelude.{◌≡◌, ◌≤◌, ◌∷◌, [], map, option_map, IfOk, IfErr, IfSome, None};
ghost use Rattle.nostr_wire.specs.Forms.{relay_form};
ghost use Rattle.relay_core.specs.Messages.{ended as ended_form};
ghost use mathlib.Core.List.{IsPrefix};
ghost use Rattle.nostr_wire.specs.declared.messages.FromClient.{FromClient};
ghost use Rattle.relay_core.specs.Asking.{Asks};
ghost use Rattle.relay_core.specs.Kept.{other_sessions, session_of};
ghost use Rattle.relay_core.specs.Sessions.{IsBad, IsAnswer, GoesOn, Begins, Opens};
ghost use Rattle.relay_core.specs.Turns.{turn_of};

use crate::fault::Broken;
use crate::limits::RelayLimits;
use crate::messages::{copied, ended};
use crate::step::Step;
use crate::talk::Talk;
use event_store::{Naming, Reader, Snapshot};
use item_roll::Roll;
use neg_responder::{AnswerFault, answer};
use nostr_filter::Filter;
use nostr_wire::{Bytes, FromRelay, Sub};
use std::alloc::{AllocError, Global};

/// A session, with what was pinned when it was opened.
pub struct Session {
    pub name: Sub,
    pub snapshot: Snapshot,
}

// By hand, as a derived one is proved anew wherever a value is dropped.
impl Drop for Session {
    fn drop(self) {
        let Self {
            name: _,
            snapshot: _,
        } = self;
    }
}

/// Ends the session of this name, if there is one.
pub fn end(sessions: &mut Vec<Session>, name: &Sub)
    ensures { sessions.new.items ≡ other_sessions name.now sessions.old.items }
{
    sessions.retain(|session| session.name.as_str() != name.as_str());
}

/// What the session of this name has pinned.
pub fn find<'a>(sessions: &'a [Session], name: &Sub) -> Option<&'a Snapshot>
    ensures { option_map (λ s. s.now) result ≡ session_of name.now sessions.now }
{
    for session in sessions {
        if session.name.as_str() == name.as_str() {
            return Some(&session.snapshot);
        }
    }
    None
}

// The responder's answer, or none to a bad message.
fn reply(
    alloc: Global,
    roll: &Roll,
    query: &[u8],
    limit: usize,
) -> Result<Option<Bytes>, AllocError>
    requires { 4096 ≤ limit }
    ensures answer { IfOk result (λ o. IfSome o (λ b. IsAnswer limit roll.now query.now b)) }
    ensures bad { IfOk result (λ o. o ≡ None → IsBad query.now) }
{
    match answer(alloc, roll, query, limit) {
        Ok(bytes) => Ok(Some(Bytes::new(bytes))),
        Err(AnswerFault::Bad(_fault)) => Ok(None),
        Err(AnswerFault::Memory) => Err(AllocError),
    }
}

// A message is refused.
fn refuse(alloc: Global, name: Sub, why: &str) -> Result<Step, AllocError>
    ensures { IfOk result (λ s. (map relay_form s.out.items ≡ ended_form name why.now ∷ []) × (s.store ≡ None)) }
{
    Step::one(alloc, ended(alloc, name, why)?)
}

/// Answers a message of the session of this name. A bad one ends it.
pub fn go_on(
    talk: &mut Talk,
    alloc: Global,
    limits: &RelayLimits,
    name: Sub,
    query: &[u8],
) -> Result<Step, AllocError>
    ensures { IfOk result (λ s. GoesOn limits.now name query.now talk.old (turn_of s talk.new)) }
{
    let Some(snapshot) = talk.session(&name) else {
        return refuse(alloc, name, "closed: no such session");
    };
    match reply(alloc, snapshot.roll(), query, limits.limit)? {
        Some(message) => Step::one(alloc, FromRelay::NegMsg { sub: name, message }),
        None => {
            talk.end_session(&name);
            refuse(alloc, name, "invalid: bad message")
        }
    }
}

// Begins a session with what was pinned for it.
fn begin(
    talk: &mut Talk,
    alloc: Global,
    limits: &RelayLimits,
    name: Sub,
    snapshot: Snapshot,
    query: &[u8],
) -> Result<Step, AllocError>
    ensures { IfOk result (λ s. Begins limits.now snapshot name query.now talk.old (turn_of s talk.new)) }
{
    let own = copied(alloc, &name)?;
    talk.put_session(Session {
        name: own,
        snapshot,
    })?;
    go_on(talk, alloc, limits, name, query)
}

/// Opens a session, in the place of one of its name, and answers its first message.
pub fn open<J: Naming>(
    talk: &mut Talk,
    alloc: Global,
    limits: &RelayLimits,
    reader: &mut Reader<J>,
    name: Sub,
    filter: &Filter,
    query: &[u8],
) -> Result<Step, Broken>
    ensures turn { IfOk result (λ s. Opens limits.now reader.new name filter.now query.now talk.old (turn_of s talk.new)) }
    ensures gone { IfErr result (λ b. b ≡ Broken.Gone → Asks limits.now talk.old (FromClient.NegOpen name filter.now query.now) × (reader.new ≡ reader.old)) }
    ensures reader { IsPrefix reader.old reader.new }
{
    talk.end_session(&name);
    if talk.sessions_len() >= limits.sessions {
        return Ok(refuse(alloc, name, "blocked: too many sessions")?);
    }
    match reader.pin_few(alloc, filter, limits.records)? {
        Some(snapshot) => Ok(begin(talk, alloc, limits, name, snapshot, query)?),
        None => Ok(refuse(alloc, name, "blocked: this query is too big")?),
    }
}
