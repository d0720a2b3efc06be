// Messages read from their texts.
ghost use Rattle.std.specs.Prelude.{◌≡◌, ◌≢◌, ◌⊎◌, ◌∷◌, [], Some, None, true, List, map, IfOk, IfErr, IfSome, OnOk};
ghost use Rattle.std.specs.List.{list_all};
ghost use Rattle.serde_json.specs.Read.{read};
ghost use Rattle.serde_json.specs.View.{view};
ghost use Rattle.nostr_wire.specs.declared.fault.WireFault.{WireFault};
ghost use Rattle.nostr_wire.specs.Elements.{a_filter, has_type, sub, filter};
ghost use Rattle.nostr_wire.specs.Forms.{Form, client_form, relay_form, client_table, relay_table, request_parts};
ghost use Rattle.nostr_filter.specs.declared.filter.Filter.{Filter as Kept};
ghost use Rattle.nostr_wire.specs.Reading.{kept_filters, keeps_more, with_filter, IsHeard, Hears, name_in, behind_name, AreRead, IsMessage, Reads, AreRefused, IsRefused, Refuses};

use crate::elements::{Element, filter_of, sub_of};
use crate::events::{given, published};
use crate::fault::WireFault;
use crate::lists::{Filters, Sub};
use crate::messages::{FromClient, FromRelay};
use crate::streaming::request_text;
use event_text::EventScratch;
use nostr_filter::Filter;
use serde_json::Value;
use std::alloc::{AllocError, Global};

// A longer request is read an element at a time.
const LONG: usize = 16_384;

// The first element, if it is a string, and those behind it.
fn name_and_rest(value: &mut Value) -> Option<(&str, &mut [Value])>
    ensures found { IfSome result (λ p. (name_in (view value.old) ≡ Some p.0.now) × (behind_name (view value.old) ≡ map view p.1.now)) }
    ensures none { result ≡ None → name_in (view value.old) ≡ None }
{
    let Some(list) = value.as_array_mut() else {
        return None;
    };
    let [first, rest @ ..] = list.as_mut_slice() else {
        return None;
    };
    match first.as_str() {
        Some(name) => Some((name, rest)),
        None => None,
    }
}

// What the only element says.
fn one<A: Element + Drop>(alloc: Global, rest: &mut [Value]) -> Result<A, WireFault>
    ensures ok { IfOk result (λ a. AreRead (A.part ∷ []) (A.said a ∷ []) (map view rest.old)) }
    ensures err { IfErr result (λ f. (f ≡ WireFault.Memory) ⊎ AreRefused (A.part ∷ []) (map view rest.old) f) }
{
    let [first, ..] = rest else {
        return Err(WireFault::Arity);
    };
    if !A::fits(first) {
        return Err(WireFault::Arity);
    }
    let first = A::read(alloc, first)?;
    Ok(first)
}

// What the two elements say.
fn two<A: Element + Drop, B: Element + Drop>(
    alloc: Global,
    rest: &mut [Value],
) -> Result<(A, B), WireFault>
    ensures ok { IfOk result (λ p. AreRead (A.part ∷ B.part ∷ []) (A.said p.0 ∷ B.said p.1 ∷ []) (map view rest.old)) }
    ensures err { IfErr result (λ f. (f ≡ WireFault.Memory) ⊎ AreRefused (A.part ∷ B.part ∷ []) (map view rest.old) f) }
{
    let [first, second, ..] = rest else {
        return Err(WireFault::Arity);
    };
    if !A::fits(first) || !B::fits(second) {
        return Err(WireFault::Arity);
    }
    let first = A::read(alloc, first)?;
    let second = B::read(alloc, second)?;
    Ok((first, second))
}

// What the three elements say.
fn three<A: Element + Drop, B: Element + Drop, C: Element + Drop>(
    alloc: Global,
    rest: &mut [Value],
) -> Result<(A, B, C), WireFault>
    ensures ok { IfOk result (λ p. AreRead (A.part ∷ B.part ∷ C.part ∷ []) (A.said p.0 ∷ B.said p.1 ∷ C.said p.2 ∷ []) (map view rest.old)) }
    ensures err { IfErr result (λ f. (f ≡ WireFault.Memory) ⊎ AreRefused (A.part ∷ B.part ∷ C.part ∷ []) (map view rest.old) f) }
{
    let [first, second, third, ..] = rest else {
        return Err(WireFault::Arity);
    };
    if !A::fits(first) || !B::fits(second) || !C::fits(third) {
        return Err(WireFault::Arity);
    }
    let first = A::read(alloc, first)?;
    let second = B::read(alloc, second)?;
    let third = C::read(alloc, third)?;
    Ok((first, second, third))
}

// Whether each value is an object.
fn are_objects(values: &[Value]) -> bool
    ensures { result ≡ list_all (λ v. has_type a_filter (view v)) values.now }
{
    values.iter().all(|value| value.is_object())
}

// Whether one more filter is kept beside so many.
fn keeps(most: Option<usize>, count: usize) -> bool
    ensures { result ≡ keeps_more most count }
{
    match most {
        Some(most) => count <= most,
        None => true,
    }
}

// Puts the filter behind the others, if it is kept.
pub fn put_filter(
    filters: &mut Vec<Filter>,
    most: Option<usize>,
    filter: Filter,
) -> Result<(), AllocError>
    ensures { OnOk result (filters.new.items ≡ with_filter most filters.old.items filter) }
{
    if keeps(most, filters.len()) {
        filters.push(filter)?;
    }
    Ok(())
}

// The filters that the objects are, of which the first are kept.
fn filters_of(
    alloc: Global,
    values: &mut [Value],
    most: Option<usize>,
) -> Result<Vec<Filter>, WireFault>
    requires { list_all (λ v. has_type a_filter (view v)) values.old ≡ true }
    ensures ok { IfOk result (λ v. (all : List Kept) × (v.items ≡ kept_filters most all) × AreRead (map (λ _. a_filter) values.old) (map filter all) (map view values.old)) }
    ensures err { IfErr result (λ f. (f ≡ WireFault.Memory) ⊎ AreRefused (map (λ _. a_filter) values.old) (map view values.old) f) }
{
    let mut filters = Vec::new(alloc);
    for value in values.iter_mut() {
        put_filter(&mut filters, most, filter_of(alloc, value)?)?;
    }
    Ok(filters)
}

// The name of a subscription, and one filter or more.
fn request(
    alloc: Global,
    rest: &mut [Value],
    most: Option<usize>,
) -> Result<(Sub, Filters), WireFault>
    ensures ok { IfOk result (λ p. (all : List Kept) × (p.1 ≡ kept_filters most all) × AreRead (request_parts (map view rest.old)) (sub p.0 ∷ map filter all) (map view rest.old)) }
    ensures err { IfErr result (λ f. (f ≡ WireFault.Memory) ⊎ AreRefused (request_parts (map view rest.old)) (map view rest.old) f) }
{
    let Some((first, filters)) = rest.split_first_mut() else {
        return Err(WireFault::Arity);
    };
    if filters.is_empty() || !Sub::fits(first) || !are_objects(filters) {
        return Err(WireFault::Arity);
    }
    let sub = sub_of(alloc, first)?;
    match Filters::new(filters_of(alloc, filters, most)?) {
        Ok(filters) => Ok((sub, filters)),
        Err(_) => unreachable!(),
    }
}

fn client_of(alloc: Global, value: &mut Value, most: Option<usize>) -> Result<FromClient, WireFault>
    ensures ok { IfOk result (λ m. IsHeard most (view value.old) m) }
    ensures err { IfErr result (λ f. (f ≡ WireFault.Memory) ⊎ IsRefused client_table (view value.old) f) }
{
    let Some((name, rest)) = name_and_rest(value) else {
        return Err(WireFault::Kind);
    };
    match name {
        "EVENT" => Ok(FromClient::Event(one(alloc, rest)?)),
        "REQ" => {
            let (sub, filters) = request(alloc, rest, most)?;
            Ok(FromClient::Req { sub, filters })
        }
        "CLOSE" => Ok(FromClient::Close {
            sub: one(alloc, rest)?,
        }),
        "NEG-OPEN" => {
            let (sub, filter, message) = three(alloc, rest)?;
            Ok(FromClient::NegOpen {
                sub,
                filter,
                message,
            })
        }
        "NEG-MSG" => {
            let (sub, message) = two(alloc, rest)?;
            Ok(FromClient::NegMsg { sub, message })
        }
        "NEG-CLOSE" => Ok(FromClient::NegClose {
            sub: one(alloc, rest)?,
        }),
        _ => Err(WireFault::Kind),
    }
}

fn relay_of(alloc: Global, value: &mut Value) -> Result<FromRelay, WireFault>
    ensures ok { IfOk result (λ m. IsMessage relay_table (view value.old) (relay_form m)) }
    ensures err { IfErr result (λ f. (f ≡ WireFault.Memory) ⊎ IsRefused relay_table (view value.old) f) }
{
    let Some((name, rest)) = name_and_rest(value) else {
        return Err(WireFault::Kind);
    };
    match name {
        "EVENT" => {
            let (sub, event) = two(alloc, rest)?;
            Ok(FromRelay::Event { sub, event })
        }
        "OK" => {
            let (id, taken, text) = three(alloc, rest)?;
            Ok(FromRelay::Okay { id, taken, text })
        }
        "EOSE" => Ok(FromRelay::Eose {
            sub: one(alloc, rest)?,
        }),
        "CLOSED" => {
            let (sub, text) = two(alloc, rest)?;
            Ok(FromRelay::Closed { sub, text })
        }
        "NOTICE" => Ok(FromRelay::Notice {
            text: one(alloc, rest)?,
        }),
        "NEG-MSG" => {
            let (sub, message) = two(alloc, rest)?;
            Ok(FromRelay::NegMsg { sub, message })
        }
        "NEG-ERR" => {
            let (sub, reason) = two(alloc, rest)?;
            Ok(FromRelay::NegErr { sub, reason })
        }
        _ => Err(WireFault::Kind),
    }
}

// The value of the text.
fn value_of(alloc: Global, text: &str) -> Result<Value, WireFault>
    ensures ok { IfOk result (λ v. read text.now ≡ Some (view v)) }
    ensures err { IfErr result (λ f. (f ≡ WireFault.Memory) ⊎ ((f ≡ WireFault.Json) × (read text.now ≡ None))) }
{
    match Value::from_str(alloc, text) {
        Ok(value) => Ok(value),
        Err(error) => Err(if error.is_memory() {
            WireFault::Memory
        } else {
            WireFault::Json
        }),
    }
}

fn client_text(
    alloc: Global,
    scratch: &mut EventScratch,
    text: &str,
    most: Option<usize>,
) -> Result<FromClient, WireFault>
    ensures ok { IfOk result (λ m. Hears most text.now m) }
    ensures err { IfErr result (λ f. Refuses client_table text.now f) }
{
    let event = published(alloc, scratch, text);
    scratch.rest(text.len());
    if let Some(event) = event {
        return event;
    }
    let mut value = value_of(alloc, text)?;
    let message = client_of(alloc, &mut value, most)?;
    Ok(message)
}

fn relay_text(alloc: Global, scratch: &mut EventScratch, text: &str) -> Result<FromRelay, WireFault>
    ensures ok { IfOk result (λ m. Reads relay_table text.now (relay_form m)) }
    ensures err { IfErr result (λ f. Refuses relay_table text.now f) }
{
    let event = given(alloc, scratch, text);
    scratch.rest(text.len());
    if let Some(event) = event {
        return event;
    }
    let mut value = value_of(alloc, text)?;
    let message = relay_of(alloc, &mut value)?;
    Ok(message)
}

/// What a client says in the text, or the text's first fault.
pub fn read_client(alloc: Global, text: &str) -> Result<FromClient, WireFault>
    ensures message { IfOk result (λ m. Reads client_table text.now (client_form m)) }
    ensures no_other { IfOk result (λ m. (other : Form) → Reads client_table text.now other → other ≡ client_form m) }
    ensures fault { IfErr result (λ f. Refuses client_table text.now f) }
    ensures no_message { IfErr result (λ f. f ≢ WireFault.Memory → (m : Form) → ¬ Reads client_table text.now m) }
{
    let read = client_text(alloc, &mut EventScratch::new(), text, None);
    read
}

// Whether a text may be a request, of which a great one takes much memory when it is read whole.
fn may_be_request(text: &str) -> bool {
    let bytes = text.as_bytes();
    bytes.starts_with(b"[\"REQ\"") || (bytes.len() > LONG && !bytes.starts_with(b"[\"EVENT\""))
}

/// The same, but that of a request's filters only the first are kept, so many and one more: where it has more than so many, these
/// tell that, and take no more memory. Each of the others is read, too, and given back before the next one is. The memory that
/// the reading of an event or a request takes is kept for the next text.
pub fn read_client_few(
    alloc: Global,
    scratch: &mut EventScratch,
    text: &str,
    most: usize,
) -> Result<FromClient, WireFault>
    ensures message { IfOk result (λ m. Hears (Some most) text.now m) }
    ensures fault { IfErr result (λ f. Refuses client_table text.now f) }
{
    if may_be_request(text) {
        let request = request_text(alloc, scratch.lend(alloc), text, Some(most));
        scratch.rest(text.len());
        if let Some(message) = request? {
            return Ok(message);
        }
    }
    client_text(alloc, scratch, text, Some(most))
}

/// What a relay says in the text, or the text's first fault.
pub fn read_relay(alloc: Global, text: &str) -> Result<FromRelay, WireFault>
    ensures message { IfOk result (λ m. Reads relay_table text.now (relay_form m)) }
    ensures no_other { IfOk result (λ m. (other : Form) → Reads relay_table text.now other → other ≡ relay_form m) }
    ensures fault { IfErr result (λ f. Refuses relay_table text.now f) }
    ensures no_message { IfErr result (λ f. f ≢ WireFault.Memory → (m : Form) → ¬ Reads relay_table text.now m) }
{
    read_relay_in(alloc, &mut EventScratch::new(), text)
}

/// The same. The memory that an event's reading takes is kept for the next text.
pub fn read_relay_in(
    alloc: Global,
    scratch: &mut EventScratch,
    text: &str,
) -> Result<FromRelay, WireFault>
    ensures message { IfOk result (λ m. Reads relay_table text.now (relay_form m)) }
    ensures no_other { IfOk result (λ m. (other : Form) → Reads relay_table text.now other → other ≡ relay_form m) }
    ensures fault { IfErr result (λ f. Refuses relay_table text.now f) }
    ensures no_message { IfErr result (λ f. f ≢ WireFault.Memory → (m : Form) → ¬ Reads relay_table text.now m) }
{
    let read = relay_text(alloc, scratch, text);
    read
}
