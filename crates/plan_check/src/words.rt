//! The words of a line: ids and relays.

ghost use Rattle.std.specs.Prelude.{◌≡◌, ◌≢◌, ◌<◌, ◌≤◌, ◌^◌, ◌+◌, ◌++◌, ◌∷◌, ◌↔◌, IsTrue, ℕ, List, All, IfSome, IfNone, IfOk, decimal, drop, length, slice_index};
ghost use Rattle.hex.specs.Hex.{encode_lower};
ghost use Rattle.item_key.specs.declared.Id.{Id as AnId};
ghost use Rattle.item_key.specs.Keys.{IsId};
ghost use Rattle.sharing.specs.declared.TheConstants.{RELAYS, MOST_BASE};
ghost use Rattle.sharing.specs.Offers.{AreRelays};
ghost use Rattle.plan_check.specs.PlanText.{number_text, relays_text};
ghost use Rattle.plan_check.specs.Lines.{rises};
ghost use Rattle.plan_check.specs.PlanParts.{IsNextWord, AreRelaysText};

use crate::order::comes_next;
use id_text::{parse_id, parse_number};
use item_key::Id;
use sharing::{MOST_BASE, RELAYS};
use std::alloc::{AllocError, Global};

/// Whether two texts of the same length are the same. All bytes are looked at before an answer, so that this becomes
/// vector code, and without a loop where the length is known.
#[inline(always)]
pub(crate) fn are_same(text: &[u8], other: &[u8]) -> bool
    requires { length text.now ≡ length other.now }
    ensures { IsTrue result ↔ text.now ≡ other.now }
{
    let mut same = true;
    for place in 0..text.len() {
        same &= text[place] == other[place];
    }
    same
}

/// The text after this word.
#[inline(always)]
pub(crate) fn skip_word<'a>(text: &'a [u8], word: &[u8]) -> Option<&'a [u8]>
    ensures found { IfSome result (λ rest. text.now ≡ word.now ++ rest.now) }
    ensures none { IfNone result ((rest : List ℕ) → text.now ≢ word.now ++ rest) }
{
    if text.len() < word.len() {
        return None;
    }
    let (front, rest) = text.split_at(word.len());
    if are_same(front, word) {
        Some(rest)
    } else {
        None
    }
}

/// The text after the space at the front.
fn skip_space(text: &[u8]) -> Option<&[u8]>
    ensures found { IfSome result (λ rest. text.now ≡ 32 ∷ rest.now) }
    ensures none { IfNone result ((rest : List ℕ) → text.now ≢ 32 ∷ rest) }
{
    let (first, rest) = text.split_first()?;
    if *first == b' ' { Some(rest) } else { None }
}

/// The id at the front, and the text after it.
pub(crate) fn cut_id(text: &[u8]) -> Option<(Id, &[u8])>
    ensures found { IfSome result (λ cut. text.now ≡ encode_lower cut.0.0 ++ cut.1.now) }
    ensures id { IfSome result (λ cut. IsId cut.0) }
    ensures none { IfNone result ((id : AnId) (rest : List ℕ) → IsId id → text.now ≢ encode_lower id.0 ++ rest) }
{
    if text.len() < 64 {
        return None;
    }
    let (digits, rest) = text.split_at(64);
    let id = parse_id(digits)?;
    Some((id, rest))
}

/// The word at the front, up to a space or the end, and the text after it.
fn cut_word(text: &[u8]) -> (&[u8], &[u8])
    ensures parts { text.now ≡ result.0.now ++ result.1.now }
    ensures word { All (λ b. b ≢ 32) result.0.now }
    ensures rest { IsNextWord result.1.now }
{
    let mut end = 0;
    while end < text.len() && text[end] != b' ' {
        end += 1;
    }
    text.split_at(end)
}

/// The number behind the space at the front, in decimal without leading zeros, and the text after it.
fn cut_number(text: &[u8]) -> Option<(u64, &[u8])>
    ensures found { IfSome result (λ cut. text.now ≡ number_text cut.0 ++ cut.1.now) }
    ensures small { IfSome result (λ cut. cut.0 < 2 ^ 64) }
    ensures rest { IfSome result (λ cut. IsNextWord cut.1.now) }
    ensures none { IfNone result ((n : ℕ) (rest : List ℕ) → n < 2 ^ 64 → IsNextWord rest → text.now ≢ number_text n ++ rest) }
{
    let (word, rest) = cut_word(skip_space(text)?);
    let number = parse_number(word)?;
    Some((number, rest))
}

/// The value of the digit at a place, and 10 or more where none stands there.
#[inline(always)]
fn digit_at(text: &[u8], place: usize) -> u8
    ensures digit { result < 10 → slice_index text.now place ≡ 48 + result }
    ensures within { result < 10 → place < length text.now }
    ensures other { 10 ≤ result → (d : ℕ) → d < 10 → slice_index text.now place ≢ 48 + d }
{
    if place < text.len() {
        text[place].wrapping_sub(b'0')
    } else {
        10
    }
}

/// The relay that a text begins with, up to this place, and the text after it. None is answered where it is none, or more
/// belongs to the word.
#[inline(always)]
fn cut_at(text: &[u8], place: usize, relay: u16) -> Option<(u16, &[u8])>
    requires { place ≤ length text.now }
    ensures found { text.now ≡ decimal relay ++ drop place text.now → IfSome result (λ cut. text.now ≡ decimal cut.0 ++ cut.1.now) }
    ensures small { IfSome result (λ cut. cut.0 < RELAYS) }
    ensures rest { IfSome result (λ cut. IsNextWord cut.1.now) }
    ensures none { IfNone result (relay < RELAYS → ¬ IsNextWord (drop place text.now)) }
{
    let (_, rest) = text.split_at(place);
    if relay < RELAYS && (rest.is_empty() || rest[0] == b' ') {
        Some((relay, rest))
    } else {
        None
    }
}

/// The relay at the front, in decimal without leading zeros, and the text after it. A relay has three digits at most.
#[inline(always)]
fn cut_digits(text: &[u8]) -> Option<(u16, &[u8])>
    ensures found { IfSome result (λ cut. text.now ≡ decimal cut.0 ++ cut.1.now) }
    ensures small { IfSome result (λ cut. cut.0 < RELAYS) }
    ensures rest { IfSome result (λ cut. IsNextWord cut.1.now) }
    ensures none { IfNone result ((r : ℕ) (rest : List ℕ) → r < RELAYS → IsNextWord rest → text.now ≢ decimal r ++ rest) }
{
    let first = digit_at(text, 0);
    if first > 9 {
        return None;
    }
    let second = digit_at(text, 1);
    if second > 9 {
        return cut_at(text, 1, u16::from(first));
    }
    if first == 0 {
        return None;
    }
    let front = 10 * u16::from(first) + u16::from(second);
    let third = digit_at(text, 2);
    if third > 9 {
        return cut_at(text, 2, front);
    }
    cut_at(text, 3, 10 * front + u16::from(third))
}

/// The relay behind the space at the front, and the text after it. None is answered where no number of a relay stands
/// there. It is put into each caller: an answer by way of memory would take as long as the digits.
#[inline(always)]
pub fn cut_relay(text: &[u8]) -> Option<(u16, &[u8])>
    ensures found { IfSome result (λ cut. text.now ≡ number_text cut.0 ++ cut.1.now) }
    ensures small { IfSome result (λ cut. cut.0 < RELAYS) }
    ensures rest { IfSome result (λ cut. IsNextWord cut.1.now) }
    ensures none { IfNone result ((r : ℕ) (rest : List ℕ) → r < RELAYS → IsNextWord rest → text.now ≢ number_text r ++ rest) }
{
    cut_digits(skip_space(text)?)
}

/// The load behind the space at the front that a relay may begin with, and the text after it.
pub(crate) fn cut_load(text: &[u8]) -> Option<(u64, &[u8])>
    ensures found { IfSome result (λ cut. text.now ≡ number_text cut.0 ++ cut.1.now) }
    ensures some { IfSome result (λ cut. 0 < cut.0) }
    ensures small { IfSome result (λ cut. cut.0 ≤ MOST_BASE) }
    ensures rest { IfSome result (λ cut. IsNextWord cut.1.now) }
    ensures none { IfNone result ((n : ℕ) (rest : List ℕ) → 0 < n → n ≤ MOST_BASE → IsNextWord rest → text.now ≢ number_text n ++ rest) }
{
    let (number, rest) = cut_number(text)?;
    if 0 < number && number <= MOST_BASE {
        Some((number, rest))
    } else {
        None
    }
}

/// Whether the relays of a text, each behind a space, rise; none where the text tells no relays.
pub(crate) fn scan_relays(text: &[u8]) -> Option<bool>
    ensures found { IfSome result (λ ok. (relays : List ℕ) × All (λ r. r < RELAYS) relays × (text.now ≡ relays_text relays) × (ok ≡ rises relays)) }
    ensures none { IfNone result (¬ AreRelaysText text.now) }
{
    let mut before = None;
    let mut ok = true;
    let mut rest = text;
    while !rest.is_empty() {
        let (relay, after) = cut_relay(rest)?;
        ok = ok && comes_next(before, relay);
        before = Some(relay);
        rest = after;
    }
    Some(ok)
}

/// The relays of a text, each behind a space, where they rise. A relay takes two bytes or more, and all but ten of them
/// three or more, so that their list needs not grow.
pub(crate) fn parse_relays(alloc: Global, text: &[u8]) -> Result<Option<Vec<u16>>, AllocError>
    ensures found { IfOk result (λ o. IfSome o (λ relays. text.now ≡ relays_text relays.items)) }
    ensures relays { IfOk result (λ o. IfSome o (λ relays. AreRelays relays.items)) }
{
    let most = (text.len() / 2).min((text.len() + 10) / 3);
    let mut relays = Vec::with_capacity(alloc, most)?;
    let mut next = 0;
    let mut rest = text;
    while let Some((relay, after)) = cut_relay(rest) {
        if relay < next {
            return Ok(None);
        }
        relays.push(relay)?;
        next = relay + 1;
        rest = after;
    }
    if rest.is_empty() {
        Ok(Some(relays))
    } else {
        Ok(None)
    }
}
