// Parts of lists that are cut at places.
ghost use Rattle.std.specs.Prelude.{◌≡◌, ◌+◌, ◌++◌, ◌∷◌, [], ℕ, length, get_or, map, IfOk, OnOk};
ghost use Rattle.std.specs.Str.{IsUtf8};
ghost use Rattle.nostr_event.specs.Parts.{part, parts, AreTexts};

use std::alloc::{AllocError, Global};

// What stands from one place to another.
fn part<T>(items: &[T], start: usize, end: usize) -> &[T]
    ensures { result.now ≡ part items.now start end }
{
    let Some(rest) = items.get(start..) else {
        return &[];
    };
    match rest.get(..end.saturating_sub(start)) {
        Some(part) => part,
        None => rest,
    }
}

/// The places from one to another.
pub fn ends_between(ends: &[u32], start: usize, end: usize) -> &[u32]
    ensures { result.now ≡ part ends.now start end }
{
    part(ends, start, end)
}

/// The text from one place to another.
pub fn text_between(bytes: &[u8], start: usize, end: usize) -> &str
    requires { IsUtf8 (part bytes.now start end) }
    ensures { result.now ≡ part bytes.now start end }
{
    // It was a text when it was put there: to look at each byte again would take longer than most that is done with it.
    unsafe { str::from_utf8_unchecked(part(bytes, start, end)) }
}

/// Where the part behind so many begins.
pub fn start_behind(ends: &[u32], count: usize) -> usize
    ensures none { count ≡ 0 → result ≡ 0 }
    ensures some { (k : ℕ) → count ≡ k + 1 → result ≡ get_or ends.now k 0 }
{
    if count == 0 {
        return 0;
    }
    match ends.get(count - 1) {
        Some(end) => *end as usize,
        None => 0,
    }
}

/// A place, which is kept in four bytes. One that is larger is too large for memory.
pub fn place_of(place: usize) -> Result<u32, AllocError>
    ensures { IfOk result (λ p. p ≡ place) }
{
    match u32::try_from(place) {
        Ok(place) => Ok(place),
        Err(_) => Err(AllocError),
    }
}

// Puts a text behind the others.
fn put_text(bytes: &mut Vec<u8>, ends: &mut Vec<u32>, text: &str) -> Result<(), AllocError>
    requires { AreTexts bytes.old.items ends.old.items }
    ensures are { OnOk result (AreTexts bytes.new.items ends.new.items) }
    ensures more { OnOk result (parts bytes.new.items 0 ends.new.items ≡ parts bytes.old.items 0 ends.old.items ++ text.now ∷ []) }
{
    bytes.extend_from_slice(text.as_bytes())?;
    ends.push(place_of(bytes.len())?)?;
    Ok(())
}

/// Puts texts behind the others.
pub fn put_texts(bytes: &mut Vec<u8>, ends: &mut Vec<u32>, texts: &[&str]) -> Result<(), AllocError>
    requires { AreTexts bytes.old.items ends.old.items }
    ensures are { OnOk result (AreTexts bytes.new.items ends.new.items) }
    ensures more { OnOk result (parts bytes.new.items 0 ends.new.items ≡ parts bytes.old.items 0 ends.old.items ++ map (λ t. t.now) texts.now) }
{
    for text in texts {
        put_text(bytes, ends, text)?;
    }
    Ok(())
}
