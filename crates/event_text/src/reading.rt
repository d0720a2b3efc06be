// Events, from the tokens of a text.
ghost use Rattle.std.specs.Prelude.{◌≡◌, ◌<◌, length, Some, IfSome, IsUtf8};
ghost use Rattle.serde_json.specs.Data.{Data, Members, object};
ghost use Rattle.serde_json.specs.Read.{read};
ghost use Rattle.event_text.specs.Tokens.{IsNext};
ghost use Rattle.event_text.specs.Fields.{Hold, Tells};

use crate::fields::{Fields, fields_in};
use crate::scratch::EventScratch;
use item_key::Id;
use json::{Reader, Token};
use nostr_event::{Draft, Event, Text};
use simdutf8::compat::from_utf8;
use std::alloc::Global;

// So deep the value of a text nests.
const MOST_DEPTH: usize = 127;

// The event of these fields, or the id that they state and that isn't theirs, unless one is missing.
fn event_of(alloc: Global, fields: Fields<'_>) -> Option<Result<Event, Id>>
    requires { (found : Members) × Hold found fields }
    ensures { IfSome result (λ r. (found : Members) → Hold found fields.entry → Tells (object found) r) }
{
    let Fields {
        id: Some(id),
        pubkey: Some(pubkey),
        created_at: Some(created_at),
        kind: Some(kind),
        content: Some(content),
        sig: Some(sig),
        ..
    } = fields
    else {
        return None;
    };
    let draft = Draft {
        pubkey,
        created_at,
        kind,
        tags: fields.tags?,
        content: Text::new(String::from_str(alloc, content).ok()?),
    };
    match Event::from_parts(alloc, Id(id), draft, sig) {
        Ok(Some(event)) => Some(Ok(event)),
        Ok(None) => Some(Err(Id(id))),
        Err(_) => None,
    }
}

/// The event of the next value, or the id that it states and that isn't its own, where this is an object of an event's
/// fields that nests no deeper than so. Else none, as where there was no memory: then another may tell why.
pub fn event_in(alloc: Global, reader: &mut Reader<'_>, depth: usize) -> Option<Result<Event, Id>>
    ensures ok { IfSome result (λ r. (d : Data) × IsNext depth reader.old d reader.new × Tells d r) }
    ensures shorter { IfSome result (λ r. length reader.new < length reader.old) }
{
    match reader.next()? {
        Token::BeginObject if depth > 0 => event_of(alloc, fields_in(alloc, reader, depth - 1)?),
        _ => None,
    }
}

// The same of a whole text.
fn event_of_text(alloc: Global, scratch: &mut EventScratch, text: &str) -> Option<Result<Event, Id>>
    ensures { IfSome result (λ r. (d : Data) × (read text.now ≡ Some d) × Tells d r) }
{
    let mut reader = Reader::new(text, scratch.lend(alloc)).ok()?;
    let event = event_in(alloc, &mut reader, MOST_DEPTH)?;
    if reader.next().is_some() {
        return None;
    }
    Some(event)
}

/// The same of a whole text, which is in UTF-8.
pub fn event_of_bytes(
    alloc: Global,
    scratch: &mut EventScratch,
    bytes: &[u8],
) -> Option<Result<Event, Id>>
    ensures { IfSome result (λ r. IsUtf8 bytes.now × ((d : Data) × (read bytes.now ≡ Some d) × Tells d r)) }
{
    let event = event_of_text(alloc, scratch, from_utf8(bytes).ok()?);
    scratch.rest(bytes.len());
    event
}
