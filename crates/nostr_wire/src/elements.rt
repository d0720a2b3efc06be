// The elements of a message's array: their JSON types, what they say, and how they are written.
ghost use Rattle.std.specs.Prelude.{◌≡◌, ◌⊎◌, List, ℕ, true, is_some, IfOk, IfErr};
ghost use Rattle.hex.specs.Hex.{IsBytes};
ghost use Rattle.serde_json.specs.Data.{string};
ghost use Rattle.serde_json.specs.Find.{as_str};
ghost use Rattle.serde_json.specs.View.{view};
ghost use Rattle.nostr_wire.specs.Elements.{Part, Said, part_of, has_type, Says, SaysNo, IsFaultOf, IsIdIn, data_of, a_sub, a_text, a_flag, an_id, some_hex, an_event, a_filter, sub, text, flag, id, hex as hex_said, event, filter};
ghost use Rattle.nostr_wire.specs.declared.fault.WireFault.{WireFault};

use crate::fault::WireFault;
use crate::lists::{Bytes, Sub, is_name};
use crate::names::Name;
use hex::FromHexError;
use id_text::{digits_of, parse_bytes, parse_id};
use item_key::Id;
use nostr_event::{Event, EventFault, Text};
use nostr_filter::{Filter, FilterFault};
use serde_json::Value;
use std::alloc::{AllocError, Global};
use std::sync::Arc;

/// What an element of an array says.
pub trait Element {
    ghost part: { Part };

    ghost said: { Self → Said };

    /// Whether the value is of the element's JSON type.
    fn fits(value: &Value) -> bool
        ensures { result ≡ has_type part (view value.now) };

    /// What the value says, parts of which may be taken from it.
    fn read(alloc: Global, value: &mut Value) -> Result<Self, WireFault>
        requires { has_type part (view value.old) ≡ true }
        ensures ok { IfOk result (λ x. (part_of (said x) ≡ part) × Says (view value.old) (said x)) }
        ensures err { IfErr result (λ f. (f ≡ WireFault.Memory) ⊎ (SaysNo part (view value.old) × IsFaultOf part (view value.old) f)) };

    /// The value that says this.
    fn write(&self, alloc: Global) -> Result<Value, AllocError>
        ensures value { IfOk result (λ v. view v ≡ data_of (said self.now)) }
        ensures reads_back { IfOk result (λ v. Says (view v) (said self.now)) };
}

// The text of a string.
fn text_in(value: &Value) -> &str
    requires { is_some (as_str (view value.now)) ≡ true }
    ensures { view value.now ≡ string result.now }
{
    match value.as_str() {
        Some(text) => text,
        None => unreachable!(),
    }
}

impl Element for Text {
    ghost part = { a_text };

    ghost said = { λ t. text t };

    fn fits(value: &Value) -> bool {
        value.is_string()
    }

    fn read(alloc: Global, value: &mut Value) -> Result<Text, WireFault> {
        let text = text_in(value);
        Ok(Text::new(String::from_str(alloc, text)?))
    }

    fn write(&self, alloc: Global) -> Result<Value, AllocError> {
        Value::try_from_str(alloc, self.as_str())
    }
}

// The name that the string is.
pub fn sub_of(alloc: Global, value: &Value) -> Result<Sub, WireFault>
    requires { has_type a_sub (view value.now) ≡ true }
    ensures ok { IfOk result (λ s. Says (view value.now) (sub s)) }
    ensures err { IfErr result (λ f. (f ≡ WireFault.Memory) ⊎ (SaysNo a_sub (view value.now) × IsFaultOf a_sub (view value.now) f)) }
{
    let text = text_in(value);
    if !is_name(text) {
        return Err(WireFault::Sub);
    }
    match Sub::new(Text::new(String::from_str(alloc, text)?)) {
        Ok(sub) => Ok(sub),
        Err(_) => unreachable!(),
    }
}

impl Element for Sub {
    ghost part = { a_sub };

    ghost said = { λ s. sub s };

    fn fits(value: &Value) -> bool {
        value.is_string()
    }

    fn read(alloc: Global, value: &mut Value) -> Result<Sub, WireFault> {
        sub_of(alloc, value)
    }

    fn write(&self, alloc: Global) -> Result<Value, AllocError> {
        Value::try_from_str(alloc, self.as_str())
    }
}

impl Element for Name {
    ghost part = { a_sub };

    ghost said = { λ s. sub s };

    fn fits(value: &Value) -> bool {
        value.is_string()
    }

    fn read(alloc: Global, value: &mut Value) -> Result<Name, WireFault> {
        Ok(Name::own(sub_of(alloc, value)?))
    }

    fn write(&self, alloc: Global) -> Result<Value, AllocError> {
        Value::try_from_str(alloc, self.as_str())
    }
}

impl Element for bool {
    ghost part = { a_flag };

    ghost said = { λ b. flag b };

    fn fits(value: &Value) -> bool {
        value.is_boolean()
    }

    fn read(_alloc: Global, value: &mut Value) -> Result<bool, WireFault> {
        match value.as_bool() {
            Some(flag) => Ok(flag),
            None => unreachable!(),
        }
    }

    fn write(&self, _alloc: Global) -> Result<Value, AllocError> {
        Ok(Value::Bool(*self))
    }
}

impl Element for Id {
    ghost part = { an_id };

    ghost said = { λ i. id i };

    fn fits(value: &Value) -> bool {
        value.is_string()
    }

    fn read(_alloc: Global, value: &mut Value) -> Result<Id, WireFault> {
        match parse_id(text_in(value).as_bytes()) {
            Some(id) => Ok(id),
            None => Err(WireFault::HexText),
        }
    }

    fn write(&self, alloc: Global) -> Result<Value, AllocError> {
        Ok(Value::from(hex::encode(alloc, self.as_bytes().as_slice())?))
    }
}

// Reads each byte, so that it is known to be one.
fn read_each(bytes: &[u8])
    ensures { IsBytes bytes.now }
{
    for byte in bytes {
        let _byte = *byte;
    }
}

impl Element for Bytes {
    ghost part = { some_hex };

    ghost said = { λ b. hex_said b };

    fn fits(value: &Value) -> bool {
        value.is_string()
    }

    fn read(alloc: Global, value: &mut Value) -> Result<Bytes, WireFault> {
        let text = text_in(value).as_bytes();
        // Most write lower-case digits, which are read by vector code.
        if let Some(bytes) = parse_bytes(alloc, text)? {
            read_each(bytes.as_slice());
            return Ok(Bytes::new(bytes));
        }
        match hex::decode(alloc, text) {
            Ok(bytes) => Ok(Bytes::new(bytes)),
            Err(FromHexError::OutOfMemory) => Err(WireFault::Memory),
            Err(_) => Err(WireFault::HexText),
        }
    }

    fn write(&self, alloc: Global) -> Result<Value, AllocError> {
        read_each(self.as_slice());
        Ok(Value::from(hex::encode(alloc, self.as_slice())?))
    }
}

// The id that the object's field `id` spells, if it does.
fn id_in(value: &Value) -> Option<Id>
    ensures { IsIdIn (view value.now) result }
{
    match value.get("id").and_then(Value::as_str) {
        Some(text) => match parse_id(text.as_bytes()) {
            Some(id) => Some(id),
            None => None,
        },
        None => None,
    }
}

impl Element for Arc<Event> {
    ghost part = { an_event };

    ghost said = { λ e. event e.value };

    fn fits(value: &Value) -> bool {
        value.is_object()
    }

    fn read(alloc: Global, value: &mut Value) -> Result<Arc<Event>, WireFault> {
        let id = id_in(value);
        match Event::from_json(alloc, value) {
            Ok(event) => Ok(Arc::new(alloc, event)?),
            Err(EventFault::Memory) => Err(WireFault::Memory),
            Err(fault) => Err(WireFault::Event(fault, id)),
        }
    }

    fn write(&self, alloc: Global) -> Result<Value, AllocError> {
        let event: &Event = self;
        event.to_json(alloc)
    }
}

// The filter that the value is, parts of which are taken from it.
pub fn filter_of(alloc: Global, value: &mut Value) -> Result<Filter, WireFault>
    ensures ok { IfOk result (λ f. Says (view value.old) (filter f)) }
    ensures err { IfErr result (λ f. (f ≡ WireFault.Memory) ⊎ (SaysNo a_filter (view value.old) × IsFaultOf a_filter (view value.old) f)) }
{
    match Filter::take_json(alloc, value) {
        Ok(filter) => Ok(filter),
        Err(FilterFault::Memory) => Err(WireFault::Memory),
        Err(_) => Err(WireFault::Filter),
    }
}

impl Element for Filter {
    ghost part = { a_filter };

    ghost said = { λ f. filter f };

    fn fits(value: &Value) -> bool {
        value.is_object()
    }

    fn read(alloc: Global, value: &mut Value) -> Result<Filter, WireFault> {
        filter_of(alloc, value)
    }

    fn write(&self, alloc: Global) -> Result<Value, AllocError> {
        self.to_json(alloc)
    }
}
