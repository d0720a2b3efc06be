// What tells the members of long lists quickly.
ghost use Rattle.std.specs.Prelude.{◌≡◌, ◌++◌, ◌∷◌, [], List, ℕ, IfOk, IfSome, OnOk, length};
ghost use Rattle.std.specs.BTreeSet.{IsFromIterResult};
ghost use Rattle.std.specs.Ordering.{nat_cmp};
ghost use Rattle.std.specs.Cmp.Lexicographic.{slice_cmp};
ghost use Rattle.nostr_filter.specs.Members.{text_at as at_place, is_at, has_text, AreInOrder};

use nostr_event::Text;
use std::alloc::{AllocError, Global};
use std::cmp::Ordering;
use std::collections::BTreeSet;

// Lists of this length are prepared for look-ups; a shorter one is passed over as quickly.
const LONG: usize = 16;

// The values' set, if they are many.
pub fn set_of<K: Ord + Copy>(alloc: Global, values: &[K]) -> Result<Option<BTreeSet<K>>, AllocError>
    ensures { IfOk result (λ s. IfSome s (IsFromIterResult K.cmp values.now)) }
{
    if values.len() < LONG {
        return Ok(None);
    }
    let set: BTreeSet<K> = values.iter().copied().collect(alloc)?;
    Ok(Some(set))
}

// The text at the place, or an empty one.
fn text_at(texts: &[Text], place: usize) -> &str
    ensures { result.now ≡ at_place texts.now place }
{
    match texts.get(place) {
        Some(text) => text.as_str(),
        None => "",
    }
}

// How the text at the place stands to another one.
fn compare(texts: &[Text], place: usize, text: &str) -> Ordering
    ensures { result ≡ slice_cmp nat_cmp (at_place texts.now place) text.now }
{
    text_at(texts, place).cmp(text)
}

// How the texts at two places stand to each other.
fn compare_at(texts: &[Text], a: usize, b: usize) -> Ordering
    ensures { result ≡ slice_cmp nat_cmp (at_place texts.now a) (at_place texts.now b) }
{
    compare(texts, a, text_at(texts, b))
}

// The places below a number.
pub fn places_to(alloc: Global, count: usize) -> Result<Vec<usize>, AllocError>
    ensures { IfOk result (λ p. (texts : List (List ℕ)) → length texts ≡ count → (text : List ℕ) → is_at texts p.items text ≡ has_text texts text) }
{
    let mut places = Vec::with_capacity(alloc, count)?;
    for place in 0..count {
        places.push(place)?;
    }
    Ok(places)
}

// The places of the texts, in the byte order of the texts, if they are many.
pub fn order_of(alloc: Global, texts: &[Text]) -> Result<Option<Vec<usize>>, AllocError>
    ensures { IfOk result (λ p. IfSome p (λ p. AreInOrder texts.now p.items)) }
{
    if texts.len() < LONG {
        return Ok(None);
    }
    let mut places = places_to(alloc, texts.len())?;
    places.sort_unstable_by(|a, b| compare_at(texts, *a, *b));
    Ok(Some(places))
}

// Whether the text is at one of the places.
pub fn is_listed(texts: &[Text], places: &[usize], text: &str) -> bool
    requires { AreInOrder texts.now places.now }
    ensures { result ≡ has_text texts.now text.now }
{
    let found = places.binary_search_by(|place| compare(texts, *place, text));
    found.is_ok()
}
