// Messages that carry an event, which is read from their tokens.
//
// Each function here tells nothing of a text of another form, and of one for which there was no memory.
ghost use Rattle.std.specs.Prelude.{◌≡◌, ◌∷◌, [], ℕ, Option, Some, true, codes, IfOk, IfErr, IfSome};
ghost use Rattle.json.specs.Token.{begin_array, string as string_token};
ghost use Rattle.json.specs.Json.{after_end_array};
ghost use Rattle.json.specs.Lex.{tokens};
ghost use Rattle.serde_json.specs.Data.{Data};
ghost use Rattle.event_text.specs.Fields.{Tells};
ghost use Rattle.nostr_wire.specs.Elements.{event as event_said, is_sub, Says};
ghost use Rattle.nostr_wire.specs.Forms.{client_table, relay_form, relay_table};
ghost use Rattle.nostr_wire.specs.Reading.{Hears, Reads, Refuses};
ghost use Rattle.nostr_wire.specs.Stream.{Gives, IsNoEvent};

use crate::fault::WireFault;
use crate::lists::Sub;
use crate::messages::{FromClient, FromRelay};
use crate::names::Name;
use crate::streaming::{MOST_DEPTH, begins_array};
use event_text::{EventScratch, event_in};
use item_key::Id;
use json::{Reader, Token};
use nostr_event::{Event, EventFault, Text};
use std::alloc::Global;
use std::sync::Arc;

// Most such messages begin so.
const BEGINNING: &[u8] = b"[\"EVENT\"";

// The next token, if it is a string.
fn str_in<'a>(reader: &mut Reader<'a>) -> Option<&'a str>
    ensures { IfSome result (λ s. reader.old ≡ string_token s.now ∷ reader.new) }
{
    match reader.next()? {
        Token::String(text) => Some(text),
        _ => None,
    }
}

// Whether the array of an event's message begins.
fn begins(reader: &mut Reader<'_>) -> bool
    ensures { result ≡ true → reader.old ≡ begin_array ∷ string_token (codes "EVENT") ∷ reader.new }
{
    if !begins_array(reader) {
        return false;
    }
    match str_in(reader) {
        Some(name) => name == "EVENT",
        None => false,
    }
}

// The name of a subscription, if it is next.
fn name_in(alloc: Global, reader: &mut Reader<'_>) -> Option<Name>
    ensures { IfSome result (λ n. (reader.old ≡ string_token n ∷ reader.new) × (is_sub n ≡ true)) }
{
    let text = Text::new(String::from_str(alloc, str_in(reader)?).ok()?);
    Some(Name::own(Sub::new(text).ok()?))
}

// Whether the array ends, and the text with it.
fn ends(reader: &mut Reader<'_>) -> bool
    ensures { result ≡ true → after_end_array reader.old ≡ Some [] }
{
    reader.take_end_array() && reader.next().is_none()
}

// The event, which messages share, or its fault.
fn shared(alloc: Global, read: Result<Event, Id>) -> Option<Result<Arc<Event>, WireFault>>
    ensures { IfSome result (λ r. (d : Data) → Tells d read → IfOk r (λ e. Says d (event_said e.value)) × IfErr r (IsNoEvent d)) }
{
    match read {
        Ok(event) => Some(Ok(Arc::new(alloc, event).ok()?)),
        Err(id) => Some(Err(WireFault::Event(EventFault::WrongId, Some(id)))),
    }
}

// The event that is the last element of the array, with which the text ends.
fn last_event(alloc: Global, reader: &mut Reader<'_>) -> Option<Result<Arc<Event>, WireFault>>
    ensures { IfSome result (λ r. (d : Data) × Gives reader.old (d ∷ []) [] × IfOk r (λ e. Says d (event_said e.value)) × IfErr r (IsNoEvent d)) }
{
    let read = event_in(alloc, reader, MOST_DEPTH)?;
    if ends(reader) {
        shared(alloc, read)
    } else {
        None
    }
}

// Reads the text behind the name, if it begins as an event's message does.
fn reader_of<'a>(alloc: Global, scratch: &'a mut EventScratch, text: &'a str) -> Option<Reader<'a>>
    ensures { IfSome result (λ r. tokens text.now ≡ begin_array ∷ string_token (codes "EVENT") ∷ r) }
{
    if !text.as_bytes().starts_with(BEGINNING) {
        return None;
    }
    let mut reader = Reader::new(text, scratch.lend(alloc)).ok()?;
    if begins(&mut reader) {
        Some(reader)
    } else {
        None
    }
}

/// The message in which a client publishes an event, or its fault.
pub fn published(
    alloc: Global,
    scratch: &mut EventScratch,
    text: &str,
) -> Option<Result<FromClient, WireFault>>
    ensures ok { IfSome result (λ r. IfOk r (λ m. (most : Option ℕ) → Hears most text.now m)) }
    ensures err { IfSome result (λ r. IfErr r (Refuses client_table text.now)) }
{
    let mut reader = reader_of(alloc, scratch, text)?;
    match last_event(alloc, &mut reader)? {
        Ok(event) => Some(Ok(FromClient::Event(event))),
        Err(fault) => Some(Err(fault)),
    }
}

/// The message in which a relay gives an event, or its fault.
pub fn given(
    alloc: Global,
    scratch: &mut EventScratch,
    text: &str,
) -> Option<Result<FromRelay, WireFault>>
    ensures ok { IfSome result (λ r. IfOk r (λ m. Reads relay_table text.now (relay_form m))) }
    ensures err { IfSome result (λ r. IfErr r (Refuses relay_table text.now)) }
{
    let mut reader = reader_of(alloc, scratch, text)?;
    let sub = name_in(alloc, &mut reader)?;
    match last_event(alloc, &mut reader)? {
        Ok(event) => Some(Ok(FromRelay::Event { sub, event })),
        Err(fault) => Some(Err(fault)),
    }
}
