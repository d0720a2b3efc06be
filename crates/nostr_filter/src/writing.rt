// A filter written as its JSON object.
ghost use Rattle.std.specs.Prelude.{◌≡◌, ◌<◌, ◌^◌, true, IfOk, OnOk, option_map, codes, All};
ghost use Rattle.hex.specs.Hex.{encode_lower};
ghost use Rattle.serde_json.specs.Data.{put as put_member, string, no_members};
ghost use Rattle.serde_json.specs.View.{view, members_view};
ghost use Rattle.nostr_event.specs.EventView.{IsBytesOf};
ghost use Rattle.nostr_filter.specs.Tags.{are_in_order, tag_name};
ghost use Rattle.nostr_filter.specs.FilterJson.{Reads, All32, AllKinds, object_of, named_members, put_given, put_conditions, texts_data, hex_data, kinds_data, whole_data};

use crate::conditions::{Bytes32List, Kinds, TagCondition, Texts};
use crate::filter::Filter;
use serde_json::{Map, Value, put};
use std::alloc::{AllocError, Global};

fn texts_value(alloc: Global, texts: &Texts) -> Result<Value, AllocError>
    ensures { IfOk result (λ v. view v ≡ texts_data texts.now) }
{
    let mut values = Vec::new(alloc);
    for text in texts.as_slice() {
        values.push(Value::try_from_str(alloc, text.as_str())?)?;
    }
    Ok(Value::Array(values))
}

// The text of the bytes.
fn hex_text(alloc: Global, bytes: &[u8; 32]) -> Result<Value, AllocError>
    ensures value { IfOk result (λ v. view v ≡ string (encode_lower bytes.now)) }
    ensures bytes { IfOk result (λ _. IsBytesOf 32 bytes.now) }
{
    let bytes = *bytes;
    let text = hex::encode(alloc, bytes.as_slice())?;
    let value = Value::try_from_str(alloc, text.as_str())?;
    Ok(value)
}

fn hex_value(alloc: Global, list: &Bytes32List) -> Result<Value, AllocError>
    ensures value { IfOk result (λ v. view v ≡ hex_data list.now) }
    ensures bytes { IfOk result (λ _. All (IsBytesOf 32) list.now) }
{
    let mut values = Vec::new(alloc);
    for bytes in list.as_slice() {
        values.push(hex_text(alloc, bytes)?)?;
    }
    Ok(Value::Array(values))
}

fn kinds_value(alloc: Global, kinds: &Kinds) -> Result<Value, AllocError>
    ensures value { IfOk result (λ v. view v ≡ kinds_data kinds.now) }
    ensures fits { IfOk result (λ _. All (λ k. k < 2 ^ 16) kinds.now) }
{
    let mut values = Vec::new(alloc);
    for kind in kinds.as_slice() {
        values.push(Value::from(u64::from(*kind)))?;
    }
    Ok(Value::Array(values))
}

// The value of the list, if it is given.
fn hex_given(alloc: Global, list: &Option<Bytes32List>) -> Result<Option<Value>, AllocError>
    ensures value { IfOk result (λ v. option_map view v ≡ option_map hex_data list.now) }
    ensures bytes { IfOk result (λ _. All32 list.now) }
{
    match list {
        Some(list) => Ok(Some(hex_value(alloc, list)?)),
        None => Ok(None),
    }
}

fn kinds_given(alloc: Global, kinds: &Option<Kinds>) -> Result<Option<Value>, AllocError>
    ensures value { IfOk result (λ v. option_map view v ≡ option_map kinds_data kinds.now) }
    ensures fits { IfOk result (λ _. AllKinds kinds.now) }
{
    match kinds {
        Some(kinds) => Ok(Some(kinds_value(alloc, kinds)?)),
        None => Ok(None),
    }
}

fn whole_given(number: Option<u64>) -> Option<Value>
    ensures { option_map view result ≡ option_map whole_data number }
{
    match number {
        Some(number) => Some(Value::from(number)),
        None => None,
    }
}

// Puts the value at the name, if it is given.
fn put_value(
    map: &mut Map<String, Value>,
    alloc: Global,
    name: &str,
    value: Option<Value>,
) -> Result<(), AllocError>
    ensures { OnOk result (members_view map.new.entries ≡ put_given name.now (option_map view value) (members_view map.old.entries)) }
{
    if let Some(value) = value {
        put(map, alloc, name, value)?;
    }
    Ok(())
}

// The members that are numbers.
fn whole_map(alloc: Global, filter: &Filter) -> Result<Map<String, Value>, AllocError>
    ensures { IfOk result (λ m. members_view m.entries ≡ put_given (codes "limit") (option_map whole_data filter.now.limit)
        (put_given (codes "since") (option_map whole_data filter.now.since) (put_given (codes "until") (option_map whole_data filter.now.until) no_members))) }
{
    let mut map = Map::new(alloc);
    put_value(&mut map, alloc, "until", whole_given(filter.until))?;
    put_value(&mut map, alloc, "since", whole_given(filter.since))?;
    put_value(&mut map, alloc, "limit", whole_given(filter.limit))?;
    Ok(map)
}

// The members but for the conditions on tags.
fn named_map(alloc: Global, filter: &Filter) -> Result<Map<String, Value>, AllocError>
    ensures members { IfOk result (λ m. members_view m.entries ≡ named_members filter.now) }
    ensures authors { IfOk result (λ _. All32 filter.now.authors) }
    ensures ids { IfOk result (λ _. All32 filter.now.ids) }
    ensures kinds { IfOk result (λ _. AllKinds filter.now.kinds) }
{
    let mut map = whole_map(alloc, filter)?;
    let kinds = kinds_given(alloc, &filter.kinds)?;
    put_value(&mut map, alloc, "kinds", kinds)?;
    let ids = hex_given(alloc, &filter.ids)?;
    put_value(&mut map, alloc, "ids", ids)?;
    let authors = hex_given(alloc, &filter.authors)?;
    put_value(&mut map, alloc, "authors", authors)?;
    Ok(map)
}

fn put_condition(
    map: &mut Map<String, Value>,
    alloc: Global,
    condition: &TagCondition,
) -> Result<(), AllocError>
    requires { condition.now.letter < 128 }
    ensures { OnOk result (members_view map.new.entries
        ≡ put_member (tag_name condition.now.letter) (texts_data condition.now.values) (members_view map.old.entries)) }
{
    let values = texts_value(alloc, &condition.values)?;
    let name = [b'#', condition.letter];
    match str::from_utf8(&name) {
        Ok(name) => put(map, alloc, name, values),
        Err(_) => unreachable!(),
    }
}

fn put_all(
    map: &mut Map<String, Value>,
    alloc: Global,
    conditions: &[TagCondition],
) -> Result<(), AllocError>
    requires { are_in_order conditions.now ≡ true }
    ensures { OnOk result (members_view map.new.entries ≡ put_conditions conditions.now (members_view map.old.entries)) }
{
    let mut left = conditions.len();
    while left > 0 {
        left -= 1;
        put_condition(map, alloc, &conditions[left])?;
    }
    Ok(())
}

fn object_value(alloc: Global, filter: &Filter) -> Result<Value, AllocError>
    ensures object { IfOk result (λ v. view v ≡ object_of filter.now) }
    ensures authors { IfOk result (λ _. All32 filter.now.authors) }
    ensures ids { IfOk result (λ _. All32 filter.now.ids) }
    ensures kinds { IfOk result (λ _. AllKinds filter.now.kinds) }
{
    let mut map = named_map(alloc, filter)?;
    put_all(&mut map, alloc, filter.tags.as_slice())?;
    Ok(Value::Object(map))
}

impl Filter {
    /// The JSON object of the fields given (NIP-01).
    pub fn to_json(&self, alloc: Global) -> Result<Value, AllocError>
        ensures object { IfOk result (λ v. view v ≡ object_of self.now) }
        ensures reads_back { IfOk result (λ v. Reads (view v) self.now) }
    {
        let _tags = self.tags.as_slice();
        let value = object_value(alloc, self)?;
        Ok(value)
    }
}
