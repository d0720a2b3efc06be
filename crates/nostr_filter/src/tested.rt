// The tests of a filter's fields, which take no memory.
ghost use Rattle.std.specs.Prelude.{◌≡◌, ◌<◌, ◌↔◌, ℕ, [], IsTrue, IfErr, OnOk, Ok, Some, None, false, is_some, codes};
ghost use Rattle.std.specs.List.{list_all};
ghost use Rattle.serde_json.specs.Data.{object};
ghost use Rattle.serde_json.specs.Find.{get, as_str};
ghost use Rattle.serde_json.specs.View.{view, items_view, members_view};
ghost use Rattle.nostr_filter.specs.Tags.{letters, tag_name, begins_tag};
ghost use Rattle.nostr_filter.specs.FilterJson.{texts_of, kind_of, kinds_of, whole_of, field as read_field, conditions_of, first_failing, tag_tests, named_tests, shape_tests, IsHex, AreHex, IsHexAt, Passes, Refuses};

use crate::fault::{FilterFault, FilterField};
use crate::fields::{hex_at, kind_at};
use crate::letters::LETTERS;
use serde_json::{Map, Value};

// Whether each value is a string.
fn are_strings(values: &[Value]) -> bool
    ensures { result ≡ list_all (λ v. is_some (as_str (view v))) values.now }
{
    values.iter().all(|value| value.is_string())
}

// Whether the value is an array of strings.
#[tactic(auto, using(crate::proofs::Items::strings_all))]
fn is_list_of_texts(value: &Value) -> bool
    ensures { result ≡ is_some (texts_of (view value.now)) }
{
    match value.as_array() {
        Some(list) => are_strings(list.as_slice()),
        None => false,
    }
}

// Whether the field is missing, or an array of strings.
#[tactic(auto, using(crate::proofs::Items::given_some))]
fn has_texts(value: &Value, name: &str) -> bool
    ensures { result ≡ is_some (read_field texts_of name.now (view value.now)) }
{
    match value.get(name) {
        Some(found) => is_list_of_texts(found),
        None => true,
    }
}

// Whether the value is a kind.
fn is_kind(value: &Value) -> bool
    ensures { result ≡ is_some (kind_of (view value.now)) }
{
    kind_at(value).is_some()
}

// Whether each value is a kind.
fn are_kinds(values: &[Value]) -> bool
    ensures { result ≡ list_all (λ v. is_some (kind_of (view v))) values.now }
{
    values.iter().all(|value| is_kind(value))
}

// Whether the value is an array of kinds.
#[tactic(auto, using(crate::proofs::Items::kinds_all))]
fn is_list_of_kinds(value: &Value) -> bool
    ensures { result ≡ is_some (kinds_of (view value.now)) }
{
    match value.as_array() {
        Some(list) => are_kinds(list.as_slice()),
        None => false,
    }
}

// Whether the field is missing, or an array of kinds.
#[tactic(auto, using(crate::proofs::Items::given_some))]
fn has_kinds(value: &Value, name: &str) -> bool
    ensures { result ≡ is_some (read_field kinds_of name.now (view value.now)) }
{
    match value.get(name) {
        Some(found) => is_list_of_kinds(found),
        None => true,
    }
}

// Whether the field is missing, or a whole number below 2^64.
#[tactic(auto, using(crate::proofs::Items::given_some))]
fn has_whole(value: &Value, name: &str) -> bool
    ensures { result ≡ is_some (read_field whole_of name.now (view value.now)) }
{
    match value.get(name) {
        Some(found) => found.as_u64().is_some(),
        None => true,
    }
}

// Whether the field is there; none where it isn't an array of strings.
#[tactic(auto, using(crate::proofs::Items::given_some))]
fn texts_found(value: &Value, name: &str) -> Option<bool>
    ensures shape { is_some result ≡ is_some (read_field texts_of name.now (view value.now)) }
    ensures missing { result ≡ Some false → read_field texts_of name.now (view value.now) ≡ Some None }
{
    match value.get(name) {
        Some(found) => if is_list_of_texts(found) {
            Some(true)
        } else {
            None
        },
        None => Some(false),
    }
}

// The same of the letter's condition.
fn condition_found(value: &Value, letter: u8) -> Option<bool>
    requires { letter < 128 }
    ensures shape { is_some result ≡ is_some (read_field texts_of (tag_name letter) (view value.now)) }
    ensures missing { result ≡ Some false → read_field texts_of (tag_name letter) (view value.now) ≡ Some None }
{
    let name = [b'#', letter];
    match str::from_utf8(&name) {
        Ok(name) => texts_found(value, name),
        Err(_) => unreachable!(),
    }
}

// Whether a field's name begins as those of conditions on tags do.
fn begins_tag(name: &str) -> bool
    ensures { result ≡ begins_tag name.now }
{
    name.as_bytes().first() == Some(&b'#')
}

// Whether some field's name does.
fn has_tags(members: &Map<String, Value>) -> bool
    ensures { result ≡ false → (x : ℕ) → get (tag_name x) (object (members_view members.now.entries)) ≡ None }
{
    for name in members.keys() {
        if begins_tag(name.as_str()) {
            return true;
        }
    }
    false
}

// Whether the value may have conditions on tags. Most have none, so that no letter's has to be looked for.
fn may_be_tagged(value: &Value) -> bool
    ensures { result ≡ false → (x : ℕ) → get (tag_name x) (view value.now) ≡ None }
{
    match value.as_object() {
        Some(members) => has_tags(members),
        None => false,
    }
}

// Whether some letter's condition is there, or the first that is something else.
fn letters_found(value: &Value) -> Result<bool, u8>
    ensures none { result ≡ Ok false → conditions_of letters (view value.now) ≡ Some [] }
    ensures passed { OnOk result (first_failing (tag_tests letters (view value.now)) ≡ None) }
    ensures failed { IfErr result (λ x. first_failing (tag_tests letters (view value.now)) ≡ Some (FilterField.Tag x)) }
{
    if !may_be_tagged(value) {
        return Ok(false);
    }
    let mut is_tagged = false;
    for letter in LETTERS {
        let Some(is_there) = condition_found(value, *letter) else {
            return Err(*letter);
        };
        is_tagged |= is_there;
    }
    Ok(is_tagged)
}

// The first other field of another shape.
fn first_named(value: &Value) -> Option<FilterField>
    ensures { result ≡ first_failing (named_tests (view value.now)) }
{
    if !has_texts(value, "authors") {
        Some(FilterField::Authors)
    } else if !has_texts(value, "ids") {
        Some(FilterField::Ids)
    } else if !has_kinds(value, "kinds") {
        Some(FilterField::Kinds)
    } else if !has_whole(value, "limit") {
        Some(FilterField::Limit)
    } else if !has_whole(value, "since") {
        Some(FilterField::Since)
    } else if !has_whole(value, "until") {
        Some(FilterField::Until)
    } else {
        None
    }
}

// Whether there are conditions on tags, or the first field of another shape, which may be the object itself.
fn shapes_tested(value: &Value) -> Result<bool, FilterField>
    ensures none { result ≡ Ok false → conditions_of letters (view value.now) ≡ Some [] }
    ensures passed { OnOk result (first_failing (shape_tests (view value.now)) ≡ None) }
    ensures failed { IfErr result (λ f. first_failing (shape_tests (view value.now)) ≡ Some f) }
{
    if !value.is_object() {
        return Err(FilterField::Object);
    }
    match letters_found(value) {
        Ok(is_tagged) => match first_named(value) {
            Some(field) => Err(field),
            None => Ok(is_tagged),
        },
        Err(letter) => Err(FilterField::Tag(letter)),
    }
}

// Whether the value is a text of 64 lower-case hexadecimal digits.
fn is_hex(value: &Value) -> bool
    ensures { IsTrue result ↔ IsHex (view value.now) }
{
    hex_at(value).is_some()
}

// Whether each value is one.
fn are_hex(values: &[Value]) -> bool
    ensures { IsTrue result ↔ AreHex (items_view values.now) }
{
    for value in values {
        if !is_hex(value) {
            return false;
        }
    }
    true
}

// Whether the field is missing, or an array of such texts.
fn has_hex(value: &Value, name: &str) -> bool
    ensures { IsTrue result ↔ IsHexAt name.now (view value.now) }
{
    let Some(found) = value.get(name) else {
        return true;
    };
    match found.as_array() {
        Some(list) => are_hex(list.as_slice()),
        None => false,
    }
}

/// Tests all fields, and tells whether there are conditions on tags.
pub fn tested(value: &Value) -> Result<bool, FilterFault>
    ensures none { result ≡ Ok false → conditions_of letters (view value.now) ≡ Some [] }
    ensures passes { OnOk result (Passes (view value.now)) }
    ensures err { IfErr result (λ f. Refuses (view value.now) f) }
{
    let is_tagged = match shapes_tested(value) {
        Ok(is_tagged) => is_tagged,
        Err(field) => return Err(FilterFault::Shape(field)),
    };
    if !has_hex(value, "authors") {
        return Err(FilterFault::Hex(FilterField::Authors));
    }
    if !has_hex(value, "ids") {
        return Err(FilterFault::Hex(FilterField::Ids));
    }
    Ok(is_tagged)
}
