// The conditions on tags, whose texts are taken from the filter's object rather than copied.
ghost use Rattle.std.specs.Prelude.{◌≡◌, ◌≢◌, ◌<◌, List, ℕ, [], Some, true, false, is_some, IfOk, option_map};
ghost use Rattle.serde_json.specs.Data.{object};
ghost use Rattle.serde_json.specs.Find.{get, as_str, as_array, as_object};
ghost use Rattle.serde_json.specs.View.{view, items_view, members_view};
ghost use Rattle.nostr_filter.specs.Tags.{letters, tag_name};
ghost use Rattle.nostr_filter.specs.FilterJson.{each_item, texts_of, field as read_field, conditions_of, tag_tests, first_failing};

use crate::conditions::{TagCondition, TagConditions, Texts};
use crate::letters::LETTERS;
use nostr_event::Text;
use serde_json::{Map, Value};
use std::alloc::{AllocError, Global};

// The text of a string.
fn text_of(value: Value) -> Option<Text>
    ensures { result ≡ as_str (view value) }
{
    match value {
        Value::String(text) => Some(Text::new(text)),
        _ => None,
    }
}

// The values of an array.
fn values_of(value: Value) -> Option<Vec<Value>>
    ensures { option_map (λ values. items_view values.items) result ≡ as_array (view value) }
{
    match value {
        Value::Array(values) => Some(values),
        _ => None,
    }
}

// The members of an object.
fn members_of(value: Value) -> Option<Map<String, Value>>
    ensures { option_map (λ members. members_view members.entries) result ≡ as_object (view value) }
{
    match value {
        Value::Object(members) => Some(members),
        _ => None,
    }
}

// The texts of an array of strings.
fn list_of(alloc: Global, values: Vec<Value>) -> Result<Vec<Text>, AllocError>
    requires { is_some (each_item as_str (items_view values.items)) ≡ true }
    ensures { IfOk result (λ t. each_item as_str (items_view values.items) ≡ Some t.items) }
{
    let mut texts = Vec::with_capacity(alloc, values.len())?;
    for value in values {
        let Some(text) = text_of(value) else {
            unreachable!();
        };
        texts.push(text)?;
    }
    Ok(texts)
}

// The texts of the field, if it is there. Its array is given back before they are put in order.
fn take_texts(
    alloc: Global,
    members: &mut Map<String, Value>,
    name: &str,
) -> Result<Option<Texts>, AllocError>
    requires { is_some (read_field texts_of name.now (object (members_view members.old.entries))) ≡ true }
    ensures ok { IfOk result (λ t. read_field texts_of name.now (object (members_view members.old.entries)) ≡ Some t) }
    ensures others { (other : List ℕ) → other ≢ name.now → get other (object (members_view members.new.entries)) ≡ get other (object (members_view members.old.entries)) }
{
    let Some(found) = members.remove(name) else {
        return Ok(None);
    };
    match values_of(found) {
        Some(values) => Ok(Some(Texts::searchable(alloc, list_of(alloc, values)?)?)),
        None => unreachable!(),
    }
}

// The texts of the letter's condition, if it is there.
fn take_condition(
    alloc: Global,
    members: &mut Map<String, Value>,
    letter: u8,
) -> Result<Option<Texts>, AllocError>
    requires letter { letter < 128 }
    requires shape { is_some (read_field texts_of (tag_name letter) (object (members_view members.old.entries))) ≡ true }
    ensures ok { IfOk result (λ t. read_field texts_of (tag_name letter) (object (members_view members.old.entries)) ≡ Some t) }
    ensures others { (other : List ℕ) → other ≢ tag_name letter → get other (object (members_view members.new.entries)) ≡ get other (object (members_view members.old.entries)) }
{
    let name = [b'#', letter];
    match str::from_utf8(&name) {
        Ok(name) => take_texts(alloc, members, name),
        Err(_) => unreachable!(),
    }
}

// The conditions, in the order of their letters.
fn conditions_in(
    alloc: Global,
    mut members: Map<String, Value>,
) -> Result<Vec<TagCondition>, AllocError>
    requires { first_failing (tag_tests letters (object (members_view members.entries))) ≡ None }
    ensures { IfOk result (λ v. conditions_of letters (object (members_view members.entries)) ≡ Some v.items) }
{
    let mut conditions = Vec::new(alloc);
    for letter in LETTERS {
        if let Some(values) = take_condition(alloc, &mut members, *letter)? {
            conditions.push(TagCondition {
                letter: *letter,
                values,
            })?;
        }
    }
    Ok(conditions)
}

/// The conditions of an object that passes their tests. The object is lost with them, if there are any.
pub fn take_conditions(
    alloc: Global,
    value: &mut Value,
    are_there: bool,
) -> Result<TagConditions, AllocError>
    requires object { is_some (as_object (view value.old)) ≡ true }
    requires passes { first_failing (tag_tests letters (view value.old)) ≡ None }
    requires there { are_there ≡ false → conditions_of letters (view value.old) ≡ Some [] }
    ensures { IfOk result (λ t. conditions_of letters (view value.old) ≡ Some t) }
{
    if !are_there {
        return Ok(TagConditions::none());
    }
    let Some(members) = members_of(value.take()) else {
        unreachable!();
    };
    match TagConditions::new(conditions_in(alloc, members)?) {
        Ok(tags) => Ok(tags),
        Err(_) => unreachable!(),
    }
}
