// Requests read an element at a time, so that no more than one filter beside those that are kept is held.
ghost use Rattle.std.specs.Prelude.{◌≡◌, ◌≢◌, ◌⊎◌, ◌∷◌, ◌++◌, [], List, map, Some, None, true, false, IfOk, IfErr, IfSome, codes};
ghost use Rattle.json.specs.Token.{Token as JsonToken, begin_array};
ghost use Rattle.json.specs.Lex.{tokens};
ghost use Rattle.serde_json.specs.Data.{Data};
ghost use Rattle.serde_json.specs.Find.{as_str};
ghost use Rattle.serde_json.specs.View.{view};
ghost use Rattle.nostr_filter.specs.declared.filter.Filter.{Filter as Kept};
ghost use Rattle.nostr_wire.specs.declared.fault.WireFault.{WireFault};
ghost use Rattle.nostr_wire.specs.Elements.{sub, filter};
ghost use Rattle.nostr_wire.specs.Forms.{client_table, request_parts};
ghost use Rattle.nostr_wire.specs.Reading.{kept_filters, Hears, AreRead, AreRefused, Refuses};
ghost use Rattle.nostr_wire.specs.Stream.{Gives, GivesNone, Stand};

use crate::elements::{Element, filter_of, sub_of};
use crate::fault::WireFault;
use crate::lists::{Filters, Sub};
use crate::messages::FromClient;
use crate::reading::put_filter;
use crate::values::value_in;
use json::{Reader, Scratch, Token};
use nostr_filter::Filter;
use serde_json::Value;
use std::alloc::{AllocError, Global};

// So deep an element of an array nests.
pub const MOST_DEPTH: usize = 126;

/// What elements come to that are to be filters.
#[derive(Drop)]
pub enum Few {
    /// They are filters, of which these are kept.
    Kept(Vec<Filter>),
    /// They are objects, and one is no filter.
    NoFilter,
    /// One is no object.
    NoObject,
}

// What the elements come to with one more.
fn with_element(
    alloc: Global,
    few: Few,
    most: Option<usize>,
    value: &mut Value,
) -> Result<Few, AllocError>
    ensures { IfOk result (λ r. (ds : List Data) → Stand most few ds → Stand most r (ds ++ view value.old ∷ [])) }
{
    if !Filter::fits(value) {
        return Ok(Few::NoObject);
    }
    let Few::Kept(mut filters) = few else {
        return Ok(few);
    };
    match filter_of(alloc, value) {
        Ok(filter) => {
            put_filter(&mut filters, most, filter)?;
            Ok(Few::Kept(filters))
        }
        Err(WireFault::Filter) => Ok(Few::NoFilter),
        // There was no memory.
        Err(_) => Err(AllocError),
    }
}

// What the elements up to the end of the array come to.
fn filters_in(alloc: Global, reader: &mut Reader<'_>, most: Option<usize>) -> Result<Few, WireFault>
    ensures ok { IfOk result (λ r. (ds : List Data) × Stand most r ds × Gives reader.old ds reader.new) }
    ensures err { IfErr result (λ f. (f ≡ WireFault.Memory) ⊎ ((f ≡ WireFault.Json) × GivesNone reader.old)) }
{
    let mut few = Few::Kept(Vec::new(alloc));
    'elements: while !reader.take_end_array() {
        let mut value = value_in(alloc, reader, MOST_DEPTH)?;
        few = with_element(alloc, few, most, &mut value)?;
    }
    Ok(few)
}

// The name of a subscription, and what the elements behind it come to.
fn named(
    alloc: Global,
    first: &Value,
    few: Few,
    most: Option<usize>,
) -> Result<(Sub, Filters), WireFault>
    ensures ok { IfOk result (λ p. (ds : List Data) → Stand most few ds
        → (all : List Kept) × (p.1 ≡ kept_filters most all) × AreRead (request_parts (view first.now ∷ ds)) (sub p.0 ∷ map filter all) (view first.now ∷ ds)) }
    ensures err { IfErr result (λ f. (f ≡ WireFault.Memory) ⊎ ((ds : List Data) → Stand most few ds → AreRefused (request_parts (view first.now ∷ ds)) (view first.now ∷ ds) f)) }
{
    if !Sub::fits(first) {
        return Err(WireFault::Arity);
    }
    match few {
        Few::NoObject => Err(WireFault::Arity),
        Few::NoFilter => {
            let _sub = sub_of(alloc, first)?;
            Err(WireFault::Filter)
        }
        Few::Kept(filters) => match Filters::new(filters) {
            Ok(filters) => Ok((sub_of(alloc, first)?, filters)),
            Err(_) => Err(WireFault::Arity),
        },
    }
}

// Whether an array begins.
pub fn begins_array(reader: &mut Reader<'_>) -> bool
    ensures { result ≡ true → reader.old ≡ begin_array ∷ reader.new }
{
    match reader.next() {
        Some(Token::BeginArray) => true,
        _ => false,
    }
}

// Whether the value is the name of a request.
fn is_request(name: &Value) -> bool
    ensures { result ≡ true → as_str (view name.now) ≡ Some (codes "REQ") }
{
    match name.as_str() {
        Some(name) => name == "REQ",
        None => false,
    }
}

/// The message of a text that begins as a request does, as `Hears` says; else none.
pub fn request_text(
    alloc: Global,
    scratch: &mut Scratch,
    text: &str,
    most: Option<usize>,
) -> Result<Option<FromClient>, WireFault>
    ensures ok { IfOk result (λ o. IfSome o (λ m. Hears most text.now m)) }
    ensures err { IfErr result (λ f. Refuses client_table text.now f) }
{
    let Ok(mut reader) = Reader::new(text, scratch) else {
        return Err(WireFault::Memory);
    };
    if !begins_array(&mut reader) || reader.take_end_array() {
        return Ok(None);
    }
    let name = value_in(alloc, &mut reader, MOST_DEPTH)?;
    if !is_request(&name) || reader.take_end_array() {
        return Ok(None);
    }
    let first = value_in(alloc, &mut reader, MOST_DEPTH)?;
    let few = filters_in(alloc, &mut reader, most)?;
    if reader.next().is_some() {
        return Err(WireFault::Json);
    }
    let (sub, filters) = named(alloc, &first, few, most)?;
    Ok(Some(FromClient::Req { sub, filters }))
}
