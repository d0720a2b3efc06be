// The text of an event.
ghost use Rattle.std.specs.Prelude.{◌≡◌, ◌<◌, ◌^◌, ◌++◌, OnOk, IfOk, string_bytes, decimal};
ghost use Rattle.std.specs.Str.{IsUtf8};
ghost use Rattle.serde_json.specs.Written.{compact_text};
ghost use Rattle.nostr_event.specs.EventJson.{object_of};
ghost use Rattle.nostr_event.specs.IdText.{string_text};
ghost use Rattle.nostr_event.specs.declared.draft.Spelling.TheVariants.{Escaped};

use crate::draft::{Draft, Spelling};
use crate::hexes::{digits32_of, digits64_of};
use crate::ids::{put_number, put_quoted, put_string, put_tags};
use item_key::Id;
use std::alloc::{AllocError, Global};

/// As many bytes as most events have.
const MOST_EVENTS: usize = 1_024;

// Puts the text as it is.
fn put_text(out: &mut Vec<u8>, text: &str) -> Result<(), AllocError>
    ensures text { OnOk result (out.new.items ≡ out.old.items ++ text.now) }
    ensures utf8 { OnOk result (IsUtf8 out.old.items → IsUtf8 out.new.items) }
{
    out.extend_from_slice(text.as_bytes())?;
    Ok(())
}

// Puts the text as it is, and a string behind it.
fn put_text_and_string(out: &mut Vec<u8>, text: &str, string: &str) -> Result<(), AllocError>
    ensures text { OnOk result (out.new.items ≡ (out.old.items ++ text.now) ++ string_text Escaped string.now) }
    ensures utf8 { OnOk result (IsUtf8 out.old.items → IsUtf8 out.new.items) }
{
    put_text(out, text)?;
    put_string(out, string, Spelling::Escaped)
}

// Puts the text as it is, and a string of digits behind it.
fn put_text_and_digits(out: &mut Vec<u8>, text: &str, digits: &[u8]) -> Result<(), AllocError>
    ensures text { OnOk result (out.new.items ≡ (out.old.items ++ text.now) ++ string_text Escaped digits.now) }
    ensures utf8 { OnOk result (IsUtf8 digits.now → IsUtf8 out.old.items → IsUtf8 out.new.items) }
{
    put_text(out, text)?;
    put_quoted(out, digits, Spelling::Escaped)
}

// Puts the text as it is, and a number behind it.
fn put_text_and_number(out: &mut Vec<u8>, text: &str, number: u64) -> Result<(), AllocError>
    ensures text { OnOk result (out.new.items ≡ (out.old.items ++ text.now) ++ decimal number) }
    ensures utf8 { OnOk result (IsUtf8 out.old.items → IsUtf8 out.new.items) }
{
    put_text(out, text)?;
    put_number(out, number)
}

// Puts the JSON object of an event of these parts, with no space.
fn put_object(out: &mut Vec<u8>, id: &Id, draft: &Draft, sig: &[u8; 64]) -> Result<(), AllocError>
    ensures text { OnOk result (out.new.items ≡ out.old.items ++ compact_text (object_of (record { id = id.now; draft = draft.now; sig = sig.now }))) }
    ensures utf8 { OnOk result (IsUtf8 out.old.items → IsUtf8 out.new.items) }
{
    put_text_and_string(out, "{\"content\":", draft.content.as_str())?;
    put_text_and_number(out, ",\"created_at\":", draft.created_at)?;
    put_text_and_digits(out, ",\"id\":", &digits32_of(&id.0))?;
    put_text_and_number(out, ",\"kind\":", u64::from(draft.kind))?;
    put_text_and_digits(out, ",\"pubkey\":", &digits32_of(&draft.pubkey))?;
    put_text_and_digits(out, ",\"sig\":", &digits64_of(sig))?;
    put_text(out, ",\"tags\":")?;
    put_tags(out, &draft.tags, Spelling::Escaped)?;
    put_text(out, "}")?;
    Ok(())
}

// The text of the JSON object of an event of these parts, in just as much memory as it takes.
pub fn text_of(alloc: Global, id: &Id, draft: &Draft, sig: &[u8; 64]) -> Result<String, AllocError>
    ensures { IfOk result (λ s. string_bytes s ≡ compact_text (object_of (record { id = id.now; draft = draft.now; sig = sig.now }))) }
{
    let mut out = Vec::with_capacity(alloc, MOST_EVENTS)?;
    put_object(&mut out, id, draft, sig)?;
    // A second look at each byte would take longer than to write them.
    let text = unsafe { str::from_utf8_unchecked(out.as_slice()) };
    String::from_str(alloc, text)
}
