//! The messages of a relay.
ghost use Rattle.std.specs.Prelude.{◌≡◌, IfOk};
ghost use Rattle.std.specs.Arc.{arc_value};
ghost use Rattle.nostr_wire.specs.Forms.{relay_form};
ghost use Rattle.relay_core.specs.Messages.{event_to, okay as okay_form, closed as closed_form, notice as notice_form, ended as ended_form};

use item_key::Id;
use nostr_event::{Event, Text};
use nostr_wire::{FromRelay, Name, Sub};
use std::alloc::{AllocError, Global};
use std::sync::Arc;

fn text_of(alloc: Global, text: &str) -> Result<Text, AllocError>
    ensures { IfOk result (λ t. t ≡ text.now) }
{
    Ok(Text::new(String::from_str(alloc, text)?))
}

/// The same name.
pub fn copied(alloc: Global, name: &Sub) -> Result<Sub, AllocError>
    ensures { IfOk result (λ s. s ≡ name.now) }
{
    match Sub::new(text_of(alloc, name.as_str())?) {
        Ok(copy) => Ok(copy),
        Err(_) => unreachable!(),
    }
}

/// An event that the subscription asks for.
pub fn event_for(name: Name, event: &Arc<Event>) -> Result<FromRelay, AllocError>
    ensures { IfOk result (λ m. relay_form m ≡ event_to name (arc_value event.now)) }
{
    Ok(FromRelay::Event {
        sub: name,
        event: Arc::try_clone(event)?,
    })
}

/// Whether the event is in the store.
pub fn okay(alloc: Global, id: Id, taken: bool, text: &str) -> Result<FromRelay, AllocError>
    ensures { IfOk result (λ m. relay_form m ≡ okay_form id taken text.now) }
{
    Ok(FromRelay::Okay {
        id,
        taken,
        text: text_of(alloc, text)?,
    })
}

/// A request is refused.
pub fn closed(alloc: Global, sub: Sub, text: &str) -> Result<FromRelay, AllocError>
    ensures { IfOk result (λ m. relay_form m ≡ closed_form sub text.now) }
{
    Ok(FromRelay::Closed {
        sub,
        text: text_of(alloc, text)?,
    })
}

pub fn notice(alloc: Global, text: &str) -> Result<FromRelay, AllocError>
    ensures { IfOk result (λ m. relay_form m ≡ notice_form text.now) }
{
    Ok(FromRelay::Notice {
        text: text_of(alloc, text)?,
    })
}

/// A session is refused or ended.
pub fn ended(alloc: Global, sub: Sub, reason: &str) -> Result<FromRelay, AllocError>
    ensures { IfOk result (λ m. relay_form m ≡ ended_form sub reason.now) }
{
    Ok(FromRelay::NegErr {
        sub,
        reason: text_of(alloc, reason)?,
    })
}
