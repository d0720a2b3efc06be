// The fields of an event's object.
ghost use Rattle.std.specs.Prelude.{◌≡◌, map, ◌⊎◌, List, ℕ, IfOk, IfErr, OnOk, unwrap_or, option_map, nat_lt, ◌<◌, Some, is_some, true, false, is_ok, codes};
ghost use Rattle.std.specs.List.{list_all};
ghost use Rattle.serde_json.specs.Data.{string, number, array, unsigned};
ghost use Rattle.serde_json.specs.Find.{get, as_str, as_array, as_u64};
ghost use Rattle.serde_json.specs.View.{view, number_view, items_view};
ghost use Rattle.nostr_event.specs.EventJson.{is_text_at, is_number_at, is_tags_at, is_tag, are_texts, are_tags, tag_items, tags_items, HasShapes, Refuses};

use crate::fault::{EventFault, EventField};
use crate::tags::Tags;
use serde_json::{Number, Value};
use std::alloc::{AllocError, Global};

// The text of the field.
pub fn text_at<'v>(value: &'v Value, field: EventField, name: &str) -> Result<&'v str, EventFault>
    ensures ok { IfOk result (λ s. get name.now (view value.now) ≡ Some (string s.now)) }
    ensures tested { is_ok result ≡ is_text_at name.now (view value.now) }
    ensures err { IfErr result (λ e. e ≡ EventFault.Shape field) }
{
    match value.get(name).and_then(Value::as_str) {
        Some(text) => Ok(text),
        None => Err(EventFault::Shape(field)),
    }
}

// The number of the field.
pub fn number_at<'v>(
    value: &'v Value,
    field: EventField,
    name: &str,
) -> Result<&'v Number, EventFault>
    ensures ok { IfOk result (λ n. get name.now (view value.now) ≡ Some (number (number_view n.now))) }
    ensures tested { is_ok result ≡ is_number_at name.now (view value.now) }
    ensures err { IfErr result (λ e. e ≡ EventFault.Shape field) }
{
    match value.get(name).and_then(Value::as_number) {
        Some(number) => Ok(number),
        None => Err(EventFault::Shape(field)),
    }
}

// Whether each value is a string.
fn are_strings(values: &[Value]) -> bool
    ensures { result ≡ list_all (λ v. is_some (as_str (view v))) values.now }
{
    values.iter().all(|value| value.is_string())
}

// Whether the value is an array of strings.
#[tactic(auto, using(crate::proofs::Find::texts_all))]
fn is_array_of_strings(value: &Value) -> bool
    ensures { result ≡ is_tag (view value.now) }
{
    match value.as_array() {
        Some(list) => are_strings(list.as_slice()),
        None => false,
    }
}

// Whether each value is an array of strings.
fn are_arrays_of_strings(values: &[Value]) -> bool
    ensures { result ≡ list_all (λ v. is_tag (view v)) values.now }
{
    values.iter().all(|value| is_array_of_strings(value))
}

// Whether the field `tags` is an array of arrays of strings.
#[tactic(auto, using(crate::proofs::Find::tags_all))]
fn has_tags(value: &Value) -> bool
    ensures { result ≡ is_tags_at (codes "tags") (view value.now) }
{
    match value.get("tags").and_then(Value::as_array) {
        Some(list) => are_arrays_of_strings(list.as_slice()),
        None => false,
    }
}

// The values of an array.
fn values_of(value: &Value) -> &[Value]
    requires { is_some (as_array (view value.now)) ≡ true }
    ensures { as_array (view value.now) ≡ Some (items_view result.now) }
{
    match value.as_array() {
        Some(values) => values.as_slice(),
        None => unreachable!(),
    }
}

// The text of a string.
fn text_of(value: &Value) -> &str
    requires { is_some (as_str (view value.now)) ≡ true }
    ensures { as_str (view value.now) ≡ Some result.now }
{
    match value.as_str() {
        Some(text) => text,
        None => unreachable!(),
    }
}

// The texts of strings.
fn texts_of(alloc: Global, values: &[Value]) -> Result<Vec<&str>, AllocError>
    requires { are_texts (items_view values.now) ≡ true }
    ensures { IfOk result (λ texts. items_view values.now ≡ tag_items (map (λ t. t.now) texts.items)) }
{
    let mut texts = Vec::with_capacity(alloc, values.len())?;
    for value in values {
        texts.push(text_of(value))?;
    }
    Ok(texts)
}

// The tags of arrays of strings.
fn tags_in(alloc: Global, values: &[Value]) -> Result<Tags, AllocError>
    requires { are_tags (items_view values.now) ≡ true }
    ensures { IfOk result (λ t. items_view values.now ≡ tags_items t) }
{
    let mut tags = Tags::new(alloc);
    for value in values {
        let texts = texts_of(alloc, values_of(value))?;
        tags = tags.with(texts.as_slice())?;
    }
    Ok(tags.fitted())
}

/// The tags of the field `tags`.
pub fn tags_of(alloc: Global, value: &Value) -> Result<Tags, AllocError>
    requires { is_tags_at (codes "tags") (view value.now) ≡ true }
    ensures { IfOk result (λ t. get (codes "tags") (view value.now) ≡ Some (array (tags_items t))) }
{
    match value.get("tags") {
        Some(tags) => tags_in(alloc, values_of(tags)),
        None => unreachable!(),
    }
}

// The fields of an event's object but its tags, with their JSON types.
#[derive(Drop)]
pub struct Shapes<'v> {
    pub id: &'v str,
    pub pubkey: &'v str,
    pub created_at: &'v Number,
    pub kind: &'v Number,
    pub content: &'v str,
    pub sig: &'v str,
}

// The fields, or the first that is missing or of another type.
pub fn shapes_of<'v>(value: &'v Value) -> Result<Shapes<'v>, EventFault>
    ensures ok { IfOk result (λ s. HasShapes (view value.now) s) }
    ensures err { IfErr result (λ e. Refuses (view value.now) e) }
{
    if !value.is_object() {
        return Err(EventFault::Shape(EventField::Object));
    }
    let id = text_at(value, EventField::Id, "id")?;
    let pubkey = text_at(value, EventField::Pubkey, "pubkey")?;
    let created_at = number_at(value, EventField::CreatedAt, "created_at")?;
    let kind = number_at(value, EventField::Kind, "kind")?;
    if !has_tags(value) {
        return Err(EventFault::Shape(EventField::Tags));
    }
    let content = text_at(value, EventField::Content, "content")?;
    let sig = text_at(value, EventField::Sig, "sig")?;
    Ok(Shapes {
        id,
        pubkey,
        created_at,
        kind,
        content,
        sig,
    })
}

// The number, if it is a whole number below the limit.
pub fn below(number: &Number, limit: u64, field: EventField) -> Result<u64, EventFault>
    ensures ok { IfOk result (λ n. (number_view number.now ≡ unsigned n) × (n < limit)) }
    ensures err { IfErr result (λ e. (e ≡ EventFault.Range field)
        × (unwrap_or (option_map (λ k. nat_lt k limit) (as_u64 (number_view number.now))) false ≡ false)) }
{
    match number.as_u64() {
        Some(n) if n < limit => Ok(n),
        _ => Err(EventFault::Range(field)),
    }
}
