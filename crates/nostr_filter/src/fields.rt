// The fields of a filter's object.
ghost use Rattle.std.specs.Prelude.{◌≡◌, ◌⊎◌, None, Some, IfOk, IfErr, IfSome, option_map, All};
ghost use Rattle.hex.specs.Hex.{encode_lower};
ghost use Rattle.serde_json.specs.Find.{as_str};
ghost use Rattle.serde_json.specs.View.{view, items_view};
ghost use Rattle.nostr_event.specs.EventView.{IsBytesOf};
ghost use Rattle.nostr_filter.specs.FilterJson.{each_item, texts_of, kind_of, kinds_of, whole_of, field as read_field, hex_texts, All32, IsHex, AreHex, IsHexAt};

use crate::conditions::{Bytes32List, Kinds};
use crate::fault::{FilterFault, FilterField};
use nostr_event::bytes32_of;
use serde_json::Value;
use std::alloc::{AllocError, Global};

// The kinds of an array of numbers.
fn kinds_in(alloc: Global, values: &[Value]) -> Result<Kinds, FilterFault>
    ensures ok { IfOk result (λ k. each_item kind_of (items_view values.now) ≡ Some k) }
    ensures err { IfErr result (λ e. (e ≡ FilterFault.Memory) ⊎ ((e ≡ FilterFault.Shape FilterField.Kinds) × (each_item kind_of (items_view values.now) ≡ None))) }
{
    let mut kinds = Vec::with_capacity(alloc, values.len())?;
    for value in values {
        let Some(kind) = kind_at(value) else {
            return Err(FilterFault::Shape(FilterField::Kinds));
        };
        kinds.push(kind)?;
    }
    Ok(Kinds::searchable(alloc, kinds)?)
}

pub fn kind_at(value: &Value) -> Option<u16>
    ensures { result ≡ kind_of (view value.now) }
{
    match value.as_u64() {
        Some(kind) if kind < 65536 => Some(kind as u16),
        _ => None,
    }
}

// The kinds, if they are there.
pub fn kinds_at(alloc: Global, value: &Value, name: &str) -> Result<Option<Kinds>, FilterFault>
    ensures ok { IfOk result (λ k. read_field kinds_of name.now (view value.now) ≡ Some k) }
    ensures err { IfErr result (λ e. (e ≡ FilterFault.Memory) ⊎ ((e ≡ FilterFault.Shape FilterField.Kinds) × (read_field kinds_of name.now (view value.now) ≡ None))) }
{
    let Some(found) = value.get(name) else {
        return Ok(None);
    };
    match found.as_array() {
        Some(list) => Ok(Some(kinds_in(alloc, list.as_slice())?)),
        None => Err(FilterFault::Shape(FilterField::Kinds)),
    }
}

// The number of the field, if it is there.
pub fn whole_at(value: &Value, at: FilterField, name: &str) -> Result<Option<u64>, FilterFault>
    ensures ok { IfOk result (λ n. read_field whole_of name.now (view value.now) ≡ Some n) }
    ensures err { IfErr result (λ e. (e ≡ FilterFault.Shape at) × (read_field whole_of name.now (view value.now) ≡ None)) }
{
    let Some(found) = value.get(name) else {
        return Ok(None);
    };
    match found.as_u64() {
        Some(number) => Ok(Some(number)),
        None => Err(FilterFault::Shape(at)),
    }
}

// The bytes that the value spells, where it is a text of 64 lower-case hexadecimal digits.
pub fn hex_at(value: &Value) -> Option<[u8; 32]>
    ensures spelled { IfSome result (λ b. IsBytesOf 32 b × (as_str (view value.now) ≡ Some (encode_lower b))) }
    ensures missing { result ≡ None → ¬ IsHex (view value.now) }
{
    match value.as_str() {
        Some(text) => bytes32_of(text),
        None => None,
    }
}

// The bytes that each of the values spells.
fn bytes_in(alloc: Global, values: &[Value]) -> Result<Bytes32List, AllocError>
    requires { AreHex (items_view values.now) }
    ensures { IfOk result (λ v. (each_item as_str (items_view values.now) ≡ Some (hex_texts v)) × All (IsBytesOf 32) v) }
{
    let mut list = Vec::with_capacity(alloc, values.len())?;
    for value in values {
        let Some(bytes) = hex_at(value) else {
            unreachable!();
        };
        list.push(bytes)?;
    }
    Ok(Bytes32List::searchable(alloc, list)?)
}

// The bytes that the field's texts spell, if it is there.
pub fn bytes_at(alloc: Global, value: &Value, name: &str) -> Result<Option<Bytes32List>, AllocError>
    requires { IsHexAt name.now (view value.now) }
    ensures { IfOk result (λ v. (read_field texts_of name.now (view value.now) ≡ Some (option_map hex_texts v)) × All32 v) }
{
    let Some(found) = value.get(name) else {
        return Ok(None);
    };
    match found.as_array() {
        Some(list) => Ok(Some(bytes_in(alloc, list.as_slice())?)),
        None => unreachable!(),
    }
}
