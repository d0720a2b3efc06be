//! A client's text, and what it brings about.
ghost use Rattle.std.specs.Prelude.{◌≡◌, ◌≢◌, IfOk, IfErr};
ghost use Rattle.std.specs.Arc.{arc_value};
ghost use mathlib.Core.List.{IsPrefix};
ghost use Rattle.relay_core.specs.Asking.{Asks, TextAsks};
ghost use Rattle.relay_core.specs.Kept.{Kept};
ghost use Rattle.relay_core.specs.Serving.{refusal, Takes, Brings, Serves};
ghost use Rattle.relay_core.specs.Turns.{turn_of, says_one};

use crate::fault::Broken;
use crate::limits::RelayLimits;
use crate::messages::{notice, okay};
use crate::requests::request;
use crate::sessions;
use crate::step::Step;
use crate::talk::Talk;
use event_store::{Naming, Reader};
use event_text::EventScratch;
use nostr_event::Event;
use nostr_wire::{FromClient, WireFault, read_client_few};
use std::alloc::{AllocError, Global};
use std::sync::Arc;

// Tells why a text is no message.
fn refuse(alloc: Global, fault: WireFault) -> Result<Step, AllocError>
    ensures memory { IfOk result (λ _. fault ≢ WireFault.Memory) }
    ensures told { IfOk result (λ s. (k : Kept) → turn_of s k ≡ says_one (refusal fault) k) }
{
    let message = match fault {
        WireFault::Memory => return Err(AllocError),
        WireFault::Event(_, Some(id)) => okay(alloc, id, false, "invalid: bad event")?,
        _ => notice(alloc, "invalid: bad message")?,
    };
    Step::one(alloc, message)
}

// The event is to be stored, unless events are refused.
fn take(alloc: Global, limits: &RelayLimits, event: Arc<Event>) -> Result<Step, AllocError>
    ensures { IfOk result (λ s. (k : Kept) → Takes limits.now (arc_value event) k (turn_of s k)) }
{
    if limits.is_read_only {
        let text = "blocked: this relay takes no events";
        return Step::one(alloc, okay(alloc, event.id(), false, text)?);
    }
    Ok(Step {
        out: Vec::new(alloc),
        store: Some(event),
    })
}

// Does what the message asks for.
fn bring<J: Naming>(
    talk: &mut Talk,
    alloc: Global,
    limits: &RelayLimits,
    reader: &mut Reader<J>,
    message: FromClient,
) -> Result<Step, Broken>
    ensures turn { IfOk result (λ s. Brings limits.now reader.new talk.old message (turn_of s talk.new)) }
    ensures gone { IfErr result (λ b. b ≡ Broken.Gone → Asks limits.now talk.old message × (reader.new ≡ reader.old)) }
    ensures reader { IsPrefix reader.old reader.new }
{
    match message {
        FromClient::Event(event) => Ok(take(alloc, limits, event)?),
        FromClient::Req { sub, filters } => request(talk, alloc, limits, reader, sub, filters),
        FromClient::Close { sub } => {
            talk.end_sub(&sub);
            Ok(Step::quiet(alloc))
        }
        FromClient::NegOpen {
            sub,
            filter,
            message,
        } => sessions::open(
            talk,
            alloc,
            limits,
            reader,
            sub,
            &filter,
            message.as_slice(),
        ),
        FromClient::NegMsg { sub, message } => {
            Ok(sessions::go_on(talk, alloc, limits, sub, message.as_slice())?)
        }
        FromClient::NegClose { sub } => {
            talk.end_session(&sub);
            Ok(Step::quiet(alloc))
        }
    }
}

/// Serves a text.
pub fn serve_text<J: Naming>(
    talk: &mut Talk,
    alloc: Global,
    limits: &RelayLimits,
    reader: &mut Reader<J>,
    scratch: &mut EventScratch,
    text: &str,
) -> Result<Step, Broken>
    ensures turn { IfOk result (λ s. Serves limits.now reader.new text.now talk.old (turn_of s talk.new)) }
    ensures gone { IfErr result (λ b. b ≡ Broken.Gone → TextAsks limits.now text.now talk.old × (reader.new ≡ reader.old)) }
    ensures reader { IsPrefix reader.old reader.new }
{
    if text.len() > limits.text {
        let message = notice(alloc, "invalid: message too long")?;
        return Ok(Step::one(alloc, message)?);
    }
    match read_client_few(alloc, scratch, text, limits.filters) {
        Ok(message) => bring(talk, alloc, limits, reader, message),
        Err(fault) => Ok(refuse(alloc, fault)?),
    }
}
