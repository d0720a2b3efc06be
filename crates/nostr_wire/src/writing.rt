// Messages written as texts.
ghost use Rattle.std.specs.Prelude.{◌≡◌, ◌≢◌, ◌∷◌, ◌++◌, [], map, IfOk, OnOk, string_bytes};
ghost use Rattle.std.specs.Arc.{arc_value};
ghost use Rattle.serde_json.specs.Data.{string};
ghost use Rattle.serde_json.specs.View.{view};
ghost use Rattle.nostr_wire.specs.Elements.{Says, data_of, sub, filter};
ghost use Rattle.nostr_wire.specs.Forms.{client_form, event_form, okay_form, relay_form, client_table, relay_table};
ghost use Rattle.nostr_wire.specs.Reading.{SayEach, IsMessage, Reads};
ghost use Rattle.nostr_wire.specs.Writing.{array_of, text_of};

use crate::elements::Element;
use crate::lists::{Filters, Sub};
use crate::messages::{FromClient, FromRelay};
use crate::names::Name;
use item_key::Id;
use json::{Token, Writer};
use nostr_event::Event;
use nostr_filter::Filter;
use serde_json::Value;
use std::alloc::{AllocError, Global};
use std::sync::Arc;

// The values of an array, of which the first is a name.
fn begun(alloc: Global, name: &str) -> Result<Vec<Value>, AllocError>
    ensures { IfOk result (λ values. map view values.items ≡ string name.now ∷ []) }
{
    let mut values = Vec::new(alloc);
    values.push(Value::try_from_str(alloc, name)?)?;
    Ok(values)
}

// Puts an element's value behind the values.
fn put<A: Element>(values: &mut Vec<Value>, alloc: Global, element: &A) -> Result<(), AllocError>
    ensures values { OnOk result (map view values.new.items ≡ map view values.old.items ++ data_of (A.said element.now) ∷ []) }
    ensures says { OnOk result (Says (data_of (A.said element.now)) (A.said element.now)) }
{
    values.push(element.write(alloc)?)?;
    Ok(())
}

// The array of a name and one element.
fn one<A: Element>(alloc: Global, name: &str, first: &A) -> Result<Value, AllocError>
    ensures value { IfOk result (λ v. view v ≡ array_of (record { name = name.now; said = A.said first.now ∷ [] })) }
    ensures says { IfOk result (λ _. SayEach (A.said first.now ∷ []) (data_of (A.said first.now) ∷ [])) }
{
    let mut values = begun(alloc, name)?;
    put(&mut values, alloc, first)?;
    Ok(Value::Array(values))
}

// The array of a name and two elements.
fn two<A: Element, B: Element>(
    alloc: Global,
    name: &str,
    first: &A,
    second: &B,
) -> Result<Value, AllocError>
    ensures value { IfOk result (λ v. view v ≡ array_of (record { name = name.now; said = A.said first.now ∷ B.said second.now ∷ [] })) }
    ensures says { IfOk result (λ _. SayEach (A.said first.now ∷ B.said second.now ∷ []) (data_of (A.said first.now) ∷ data_of (B.said second.now) ∷ [])) }
{
    let mut values = begun(alloc, name)?;
    put(&mut values, alloc, first)?;
    put(&mut values, alloc, second)?;
    Ok(Value::Array(values))
}

// The array of a name and three elements.
fn three<A: Element, B: Element, C: Element>(
    alloc: Global,
    name: &str,
    first: &A,
    second: &B,
    third: &C,
) -> Result<Value, AllocError>
    ensures value { IfOk result (λ v. view v
        ≡ array_of (record { name = name.now; said = A.said first.now ∷ B.said second.now ∷ C.said third.now ∷ [] })) }
    ensures says { IfOk result (λ _. SayEach (A.said first.now ∷ B.said second.now ∷ C.said third.now ∷ [])
        (data_of (A.said first.now) ∷ data_of (B.said second.now) ∷ data_of (C.said third.now) ∷ [])) }
{
    let mut values = begun(alloc, name)?;
    put(&mut values, alloc, first)?;
    put(&mut values, alloc, second)?;
    put(&mut values, alloc, third)?;
    Ok(Value::Array(values))
}

// Puts the filters behind the values.
fn put_filters(values: &mut Vec<Value>, alloc: Global, filters: &[Filter]) -> Result<(), AllocError>
    ensures values { OnOk result (map view values.new.items ≡ map view values.old.items ++ map data_of (map filter filters.now)) }
    ensures says { OnOk result (SayEach (map filter filters.now) (map data_of (map filter filters.now))) }
{
    for filter in filters {
        values.push(filter.write(alloc)?)?;
    }
    Ok(())
}

// The array of a request.
fn request(alloc: Global, name: &Sub, filters: &Filters) -> Result<Value, AllocError>
    ensures value { IfOk result (λ v. view v ≡ array_of (client_form (FromClient.Req name.now filters.now))) }
    ensures says { IfOk result (λ _. SayEach (sub name.now ∷ map filter filters.now) (map data_of (sub name.now ∷ map filter filters.now))) }
    ensures some { IfOk result (λ _. filters.now ≢ []) }
{
    let mut values = begun(alloc, "REQ")?;
    put(&mut values, alloc, name)?;
    put_filters(&mut values, alloc, filters.as_slice())?;
    Ok(Value::Array(values))
}

fn client_value(alloc: Global, message: &FromClient) -> Result<Value, AllocError>
    ensures value { IfOk result (λ v. view v ≡ array_of (client_form message.now)) }
    ensures message { IfOk result (λ v. IsMessage client_table (view v) (client_form message.now)) }
{
    match message {
        FromClient::Event(event) => one(alloc, "EVENT", event),
        FromClient::Req { sub, filters } => request(alloc, sub, filters),
        FromClient::Close { sub } => one(alloc, "CLOSE", sub),
        FromClient::NegOpen {
            sub,
            filter,
            message,
        } => three(alloc, "NEG-OPEN", sub, filter, message),
        FromClient::NegMsg { sub, message } => two(alloc, "NEG-MSG", sub, message),
        FromClient::NegClose { sub } => one(alloc, "NEG-CLOSE", sub),
    }
}

fn relay_value(alloc: Global, message: &FromRelay) -> Result<Value, AllocError>
    ensures value { IfOk result (λ v. view v ≡ array_of (relay_form message.now)) }
    ensures message { IfOk result (λ v. IsMessage relay_table (view v) (relay_form message.now)) }
{
    match message {
        FromRelay::Event { sub, event } => two(alloc, "EVENT", sub, event),
        FromRelay::Okay { id, taken, text } => three(alloc, "OK", id, taken, text),
        FromRelay::Eose { sub } => one(alloc, "EOSE", sub),
        FromRelay::Closed { sub, text } => two(alloc, "CLOSED", sub, text),
        FromRelay::Notice { text } => one(alloc, "NOTICE", text),
        FromRelay::NegMsg { sub, message } => two(alloc, "NEG-MSG", sub, message),
        FromRelay::NegErr { sub, reason } => two(alloc, "NEG-ERR", sub, reason),
    }
}

/// The text of what a client says: compact JSON, which is read as the same.
pub fn write_client(alloc: Global, message: &FromClient) -> Result<String, AllocError>
    ensures text { IfOk result (λ s. string_bytes s ≡ text_of (client_form message.now)) }
    ensures reads_back { IfOk result (λ s. Reads client_table (string_bytes s) (client_form message.now)) }
{
    let value = client_value(alloc, message)?;
    let text = value.to_string(alloc)?;
    Ok(text)
}

// The text of an event for a subscription: the text that the event keeps, behind the names. It is made where room is.
fn event_text(room: String, name: &Name, event: &Arc<Event>) -> Result<String, AllocError>
    ensures text { IfOk result (λ s. string_bytes s ≡ text_of (event_form name.now (arc_value event.now))) }
    ensures reads_back { IfOk result (λ s. Reads relay_table (string_bytes s) (event_form name.now (arc_value event.now))) }
{
    let text = event.text();
    let mut out = name.begin(room)?;
    // Room for all of it, so that it grows once.
    out.reserve(text.len() + 1)?;
    out.push_str(text)?;
    out.push_str("]")?;
    Ok(out)
}

// The text of whether an event was taken. It is made where room is.
fn okay_text(
    alloc: Global,
    room: String,
    id: &Id,
    taken: bool,
    why: &str,
) -> Result<String, AllocError>
    ensures text { IfOk result (λ s. string_bytes s ≡ text_of (okay_form id.now taken why.now)) }
    ensures reads_back { IfOk result (λ s. Reads relay_table (string_bytes s) (okay_form id.now taken why.now)) }
{
    let digits = hex::encode(alloc, id.as_bytes().as_slice())?;
    let mut bytes = room.into_bytes();
    bytes.clear();
    let mut out = Writer::new(bytes);
    out.begin_array()?;
    out.string("OK")?;
    out.string(digits.as_str())?;
    out.token(Token::Bool(taken))?;
    out.string(why)?;
    out.end_array()?;
    match String::from_utf8(out.into_inner()) {
        Ok(text) => Ok(text),
        Err(_) => unreachable!(),
    }
}

// The text of another message.
fn value_text(alloc: Global, message: &FromRelay) -> Result<String, AllocError>
    ensures text { IfOk result (λ s. string_bytes s ≡ text_of (relay_form message.now)) }
    ensures reads_back { IfOk result (λ s. Reads relay_table (string_bytes s) (relay_form message.now)) }
{
    let value = relay_value(alloc, message)?;
    let text = value.to_string(alloc)?;
    Ok(text)
}

/// The text of what a relay says: compact JSON, which is read as the same.
pub fn write_relay(alloc: Global, message: &FromRelay) -> Result<String, AllocError>
    ensures text { IfOk result (λ s. string_bytes s ≡ text_of (relay_form message.now)) }
    ensures reads_back { IfOk result (λ s. Reads relay_table (string_bytes s) (relay_form message.now)) }
{
    write_relay_in(alloc, String::new(alloc), message)
}

/// The same. An event's text, or that of an answer to one, is made in the memory of `room`, of which what stands there is lost.
pub fn write_relay_in(
    alloc: Global,
    room: String,
    message: &FromRelay,
) -> Result<String, AllocError>
    ensures text { IfOk result (λ s. string_bytes s ≡ text_of (relay_form message.now)) }
    ensures reads_back { IfOk result (λ s. Reads relay_table (string_bytes s) (relay_form message.now)) }
{
    match message {
        FromRelay::Event { sub, event } => event_text(room, sub, event),
        FromRelay::Okay { id, taken, text } => { okay_text(alloc, room, id, *taken, text.as_str()) }
        other => value_text(alloc, other),
    }
}
