// An event's tags in an order in which conditions look them up.
ghost use Rattle.std.specs.Prelude.{◌≡◌, ◌∷◌, [], List, ℕ, map, IfOk};
ghost use Rattle.std.specs.List.{list_all, list_any};
ghost use Rattle.std.specs.Ordering.{nat_cmp};
ghost use Rattle.std.specs.Cmp.Lexicographic.{slice_cmp};
ghost use Rattle.nostr_filter.specs.Matching.{tags_meet, matches_of};
ghost use Rattle.nostr_filter.specs.Members.{text_at as at_place, has_text, AreInOrder};
ghost use Rattle.nostr_filter.specs.TagOrders.{key_is, key_of, keys_of, IsOrderOf};

use crate::conditions::TagCondition;
use crate::filter::{Filter, condition_met};
use crate::members::places_to;
use nostr_event::{Event, Tag, Tags, Text};
use std::alloc::{AllocError, Global};
use std::cmp::Ordering;

// So many tags are put in order; fewer are passed over as quickly.
const MANY_TAGS: usize = 64;

/// The places of an event's tags in the order of their keys, the letter that is a tag's name and the first value behind it; none
/// where no order was made.
#[derive(Drop)]
pub struct TagOrder {
    pub places: Option<Vec<usize>>,
}

// How the tag's key stands to another.
fn compare_key(tag: &Tag<'_>, letter: u8, value: &str) -> Ordering
    ensures { result ≡ slice_cmp nat_cmp (key_of tag.now) (letter ∷ value.now) }
{
    match key_at(tag) {
        Key::Tagged(first, own) => match first.cmp(&letter) {
            Ordering::Equal => own.cmp(value),
            other => other,
        },
        Key::None => Ordering::Less,
    }
}

// How the key of the tag at the place stands to another.
fn compare(tags: &Tags, place: usize, letter: u8, value: &str) -> Ordering
    ensures { result ≡ slice_cmp nat_cmp (at_place (keys_of tags.now) place) (letter ∷ value.now) }
{
    match tags.get(place) {
        Some(tag) => compare_key(&tag, letter, value),
        None => Ordering::Less,
    }
}

/// What a tag is looked up by.
#[derive(Clone, Copy, Drop)]
pub enum Key<'t> {
    /// The letter that is its name, and the first value behind it.
    Tagged(u8, &'t str),
    /// It isn't looked up.
    None,
}

fn key_at<'t>(tag: &Tag<'t>) -> Key<'t>
    ensures { key_is result ≡ key_of tag.now }
{
    let Some((name, values)) = tag.split_first() else {
        return Key::None;
    };
    match (name.as_bytes(), values.split_first()) {
        ([letter], Some((own, _))) => Key::Tagged(*letter, own),
        _ => Key::None,
    }
}

// What the tags are looked up by.
fn keys_in(alloc: Global, tags: &Tags) -> Result<Vec<Key<'_>>, AllocError>
    ensures { IfOk result (λ k. map key_is k.items ≡ keys_of tags.now) }
{
    let mut keys = Vec::with_capacity(alloc, tags.len())?;
    for tag in tags.iter() {
        keys.push(key_at(&tag))?;
    }
    Ok(keys)
}

fn compare_keys(a: Key<'_>, b: Key<'_>) -> Ordering
    ensures { result ≡ slice_cmp nat_cmp (key_is a.entry) (key_is b.entry) }
{
    match (a, b) {
        (Key::Tagged(a, own), Key::Tagged(b, other)) => match a.cmp(&b) {
            Ordering::Equal => own.cmp(other),
            apart => apart,
        },
        (Key::Tagged(_, _), Key::None) => Ordering::Greater,
        (Key::None, Key::Tagged(_, _)) => Ordering::Less,
        (Key::None, Key::None) => Ordering::Equal,
    }
}

// The key at the place, or none.
fn key_or_none<'t>(keys: &[Key<'t>], place: usize) -> Key<'t>
    ensures { key_is result ≡ at_place (map key_is keys.now) place }
{
    match keys.get(place) {
        Some(key) => *key,
        None => Key::None,
    }
}

// How the keys at two places stand to each other.
fn compare_at(keys: &[Key<'_>], a: usize, b: usize) -> Ordering
    ensures { result ≡ slice_cmp nat_cmp (at_place (map key_is keys.now) a) (at_place (map key_is keys.now) b) }
{
    compare_keys(key_or_none(keys, a), key_or_none(keys, b))
}

// The places of the tags, in the order of their keys.
fn ordered(alloc: Global, tags: &Tags) -> Result<Vec<usize>, AllocError>
    ensures { IfOk result (λ p. AreInOrder (keys_of tags.now) p.items) }
{
    let keys = keys_in(alloc, tags)?;
    let keys = keys.as_slice();
    let mut places = places_to(alloc, tags.len())?;
    places.sort_unstable_by(|a, b| compare_at(keys, *a, *b));
    Ok(places)
}

// Whether a tag has the letter for its name, and the value behind it.
fn is_tagged(tags: &Tags, places: &[usize], letter: u8, value: &str) -> bool
    requires { AreInOrder (keys_of tags.now) places.now }
    ensures { result ≡ has_text (keys_of tags.now) (letter ∷ value.now) }
{
    let found = places.binary_search_by(|place| compare(tags, *place, letter, value));
    found.is_ok()
}

// Whether one of the values is behind the letter in some tag.
fn any_tagged(letter: u8, values: &[Text], tags: &Tags, places: &[usize]) -> bool
    requires { AreInOrder (keys_of tags.now) places.now }
    ensures { result ≡ list_any (λ v. has_text (keys_of tags.now) (letter ∷ v)) values.now }
{
    for value in values {
        if is_tagged(tags, places, letter, value.as_str()) {
            return true;
        }
    }
    false
}

// Whether some tag meets the condition, each of whose values is looked up.
fn condition_found(condition: &TagCondition, tags: &Tags, places: &[usize]) -> bool
    requires { AreInOrder (keys_of tags.now) places.now }
    ensures { result ≡ tags_meet tags.now condition.now }
{
    any_tagged(condition.letter, condition.values.as_slice(), tags, places)
}

impl TagOrder {
    /// No order is made: each tag is looked at.
    pub fn none() -> TagOrder
        ensures { (tags : List (List (List ℕ))) → IsOrderOf tags result }
    {
        TagOrder { places: None }
    }

    /// The order of the event's tags, if they are many: n log n in their number.
    pub fn new(alloc: Global, event: &Event) -> Result<TagOrder, AllocError>
        ensures { IfOk result (λ o. IsOrderOf event.now.draft.tags o) }
    {
        let tags = event.tags();
        if tags.len() < MANY_TAGS {
            return Ok(TagOrder { places: None });
        }
        Ok(TagOrder {
            places: Some(ordered(alloc, tags)?),
        })
    }
}

// Whether some tag meets the condition. What is more, values or tags, isn't passed over where the tags are in order.
fn condition_by(condition: &TagCondition, tags: &Tags, order: &TagOrder) -> bool
    requires { IsOrderOf tags.now order.now }
    ensures { result ≡ tags_meet tags.now condition.now }
{
    match &order.places {
        Some(places) if condition.values.as_slice().len() < tags.len() => {
            condition_found(condition, tags, places.as_slice())
        }
        _ => condition_met(condition, tags),
    }
}

// Whether each condition is met by some tag.
fn all_by(conditions: &[TagCondition], tags: &Tags, order: &TagOrder) -> bool
    requires { IsOrderOf tags.now order.now }
    ensures { result ≡ list_all (tags_meet tags.now) conditions.now }
{
    for condition in conditions {
        if !condition_by(condition, tags, order) {
            return false;
        }
    }
    true
}

impl Filter {
    /// Whether the event meets each condition, as `matches` says. Its tags are looked up in their order, if they have one.
    pub fn matches_by(&self, event: &Event, order: &TagOrder) -> bool
        requires { IsOrderOf event.now.draft.tags order.now }
        ensures value { result ≡ matches_of self.now event.now }
    {
        self.meets(
            &event.id(),
            event.pubkey(),
            event.kind(),
            event.created_at(),
        ) && all_by(self.tags.as_slice(), event.tags(), order)
    }
}
