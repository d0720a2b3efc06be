// The text of a draft, and the digest of it that is an event's id.
ghost use Rattle.std.specs.Prelude.{◌≡◌, ◌<◌, ◌∷◌, ◌++◌, flat_map, length, OnOk, IfOk, string_bytes, decimal, codes};
ghost use Rattle.std.specs.Char.{digit_char};
ghost use Rattle.std.specs.Str.{IsUtf8};
ghost use Rattle.hex.specs.Hex.{encode_lower};
ghost use Rattle.sha2.specs.Sha256.{sha256};
ghost use Rattle.nostr_event.specs.IdText.{escape_letter, byte_text, string_text, tag_text, tags_text, id_text_of};

use crate::draft::{Draft, Spelling};
use crate::hexes::digits32_of;
use crate::runs::plain_len;
use crate::tags::{Iter, Tag, Tags};
use item_key::Id;
use itoa::Buffer;
use sha2::{Digest, Sha256};
use std::alloc::{AllocError, Global};

/// As many bytes as the texts of most drafts have.
const MOST_TEXTS: usize = 1_024;

/// As many of them as most drafts have beside their content.
const MOST_OTHERS: usize = 512;

// The letter of the byte's short escape.
fn letter_of(byte: u8) -> Option<u8>
    ensures { result ≡ escape_letter byte }
{
    match byte {
        b'\n' => Some(b'n'),
        b'"' | b'\\' => Some(byte),
        b'\r' => Some(b'r'),
        b'\t' => Some(b't'),
        8 => Some(b'b'),
        12 => Some(b'f'),
        _ => None,
    }
}

// The lower-case hexadecimal digit.
fn digit_of(value: u8) -> u8
    requires { value < 16 }
    ensures { result ≡ digit_char value }
{
    if value < 10 {
        b'0' + value
    } else {
        b'a' + (value - 10)
    }
}

#[tactic(auto, unfolding(crate::specs::IdText::byte_text))]
fn put_byte(out: &mut Vec<u8>, byte: u8, spelling: Spelling) -> Result<(), AllocError>
    ensures { OnOk result (out.new.items ≡ out.old.items ++ byte_text spelling byte) }
{
    if let Some(letter) = letter_of(byte) {
        return out.extend_from_slice(&[b'\\', letter]);
    }
    if byte >= 32 {
        out.push(byte)?;
        return Ok(());
    }
    match spelling {
        Spelling::Plain => {
            out.push(byte)?;
            Ok(())
        }
        Spelling::Escaped => {
            let high = digit_of(byte / 16);
            let low = digit_of(byte % 16);
            out.extend_from_slice(&[b'\\', b'u', b'0', b'0', high, low])
        }
    }
}

// Puts the text of the plain bytes that come first and of the byte behind them, and gives the bytes that follow.
fn put_run<'b>(
    out: &mut Vec<u8>,
    bytes: &'b [u8],
    spelling: Spelling,
) -> Result<&'b [u8], AllocError>
    ensures text { IfOk result (λ rest. out.new.items ++ flat_map (byte_text spelling) rest.now
        ≡ out.old.items ++ flat_map (byte_text spelling) bytes.now) }
    ensures bound { IfOk result (λ rest. 0 < length bytes.now → length rest.now < length bytes.now) }
{
    let (plain, rest) = bytes.split_at(plain_len(bytes));
    out.extend_from_slice(plain)?;
    match rest.split_first() {
        Some((byte, rest)) => {
            put_byte(out, *byte, spelling)?;
            Ok(rest)
        }
        None => Ok(rest),
    }
}

// The string of these bytes, with its quotes.
pub fn put_quoted(out: &mut Vec<u8>, bytes: &[u8], spelling: Spelling) -> Result<(), AllocError>
    ensures text { OnOk result (out.new.items ≡ out.old.items ++ string_text spelling bytes.now) }
    ensures utf8 { OnOk result (IsUtf8 bytes.now → IsUtf8 out.old.items → IsUtf8 out.new.items) }
{
    out.push(b'"')?;
    let mut rest = bytes;
    while !rest.is_empty() {
        rest = put_run(out, rest, spelling)?;
    }
    out.push(b'"')?;
    Ok(())
}

// The string of this text, with its quotes.
pub fn put_string(out: &mut Vec<u8>, text: &str, spelling: Spelling) -> Result<(), AllocError>
    ensures text { OnOk result (out.new.items ≡ out.old.items ++ string_text spelling text.now) }
    ensures utf8 { OnOk result (IsUtf8 out.old.items → IsUtf8 out.new.items) }
{
    put_quoted(out, text.as_bytes(), spelling)
}

fn put_others(out: &mut Vec<u8>, values: Tag<'_>, spelling: Spelling) -> Result<(), AllocError>
    ensures text { OnOk result (out.new.items
        ≡ out.old.items ++ flat_map (λ v. 44 ∷ string_text spelling v) values.entry) }
    ensures utf8 { OnOk result (IsUtf8 out.old.items → IsUtf8 out.new.items) }
{
    for value in values.texts() {
        out.push(b',')?;
        put_string(out, value, spelling)?;
    }
    Ok(())
}

fn put_tag(out: &mut Vec<u8>, tag: Tag<'_>, spelling: Spelling) -> Result<(), AllocError>
    ensures text { OnOk result (out.new.items ≡ out.old.items ++ tag_text spelling tag.entry) }
    ensures utf8 { OnOk result (IsUtf8 out.old.items → IsUtf8 out.new.items) }
{
    out.push(b'[')?;
    if let Some((first, others)) = tag.split_first() {
        put_string(out, first, spelling)?;
        put_others(out, others, spelling)?;
    }
    out.push(b']')?;
    Ok(())
}

fn put_other_tags(out: &mut Vec<u8>, tags: Iter<'_>, spelling: Spelling) -> Result<(), AllocError>
    ensures text { OnOk result (out.new.items
        ≡ out.old.items ++ flat_map (λ v. 44 ∷ tag_text spelling v) tags.entry) }
    ensures utf8 { OnOk result (IsUtf8 out.old.items → IsUtf8 out.new.items) }
{
    for tag in tags {
        out.push(b',')?;
        put_tag(out, tag, spelling)?;
    }
    Ok(())
}

// An array of arrays of strings.
pub fn put_tags(out: &mut Vec<u8>, tags: &Tags, spelling: Spelling) -> Result<(), AllocError>
    ensures text { OnOk result (out.new.items ≡ out.old.items ++ tags_text spelling tags.now) }
    ensures utf8 { OnOk result (IsUtf8 out.old.items → IsUtf8 out.new.items) }
{
    out.push(b'[')?;
    let mut tags = tags.iter();
    if let Some(first) = tags.next() {
        put_tag(out, first, spelling)?;
        put_other_tags(out, tags, spelling)?;
    }
    out.push(b']')?;
    Ok(())
}

// A number in decimal.
pub fn put_number(out: &mut Vec<u8>, number: u64) -> Result<(), AllocError>
    ensures text { OnOk result (out.new.items ≡ out.old.items ++ decimal number) }
    ensures utf8 { OnOk result (IsUtf8 out.old.items → IsUtf8 out.new.items) }
{
    let mut buffer = Buffer::new();
    out.extend_from_slice(buffer.format(number).as_bytes())?;
    Ok(())
}

// As many bytes as the text of most drafts with this content has.
fn room_for(draft: &Draft) -> usize {
    draft
        .content
        .as_str()
        .len()
        .saturating_add(MOST_OTHERS)
        .max(MOST_TEXTS)
}

// The text up to the tags.
fn put_head(out: &mut Vec<u8>, draft: &Draft, spelling: Spelling) -> Result<(), AllocError>
    ensures text { OnOk result (out.new.items ≡ out.old.items ++ (codes "[0," ++ string_text spelling (encode_lower draft.now.pubkey) ++ codes ","
        ++ decimal draft.now.created_at ++ codes "," ++ decimal draft.now.kind ++ codes ",")) }
    ensures utf8 { OnOk result (IsUtf8 out.old.items → IsUtf8 out.new.items) }
{
    out.extend_from_slice(b"[0,")?;
    put_quoted(out, &digits32_of(&draft.pubkey), spelling)?;
    out.push(b',')?;
    put_number(out, draft.created_at)?;
    out.push(b',')?;
    put_number(out, u64::from(draft.kind))?;
    out.push(b',')?;
    Ok(())
}

// The tags, and all behind them.
fn put_tail(out: &mut Vec<u8>, draft: &Draft, spelling: Spelling) -> Result<(), AllocError>
    ensures text { OnOk result (out.new.items ≡ out.old.items ++ (tags_text spelling draft.now.tags ++ codes ","
        ++ string_text spelling draft.now.content ++ codes "]")) }
    ensures utf8 { OnOk result (IsUtf8 out.old.items → IsUtf8 out.new.items) }
{
    put_tags(out, &draft.tags, spelling)?;
    out.push(b',')?;
    put_string(out, draft.content.as_str(), spelling)?;
    out.push(b']')?;
    Ok(())
}

fn id_bytes(alloc: Global, draft: &Draft, spelling: Spelling) -> Result<Vec<u8>, AllocError>
    ensures text { IfOk result (λ v. v.items ≡ id_text_of spelling draft.now) }
    ensures utf8 { IfOk result (λ v. IsUtf8 v.items) }
{
    let mut out = Vec::with_capacity(alloc, room_for(draft))?;
    put_head(&mut out, draft, spelling)?;
    put_tail(&mut out, draft, spelling)?;
    Ok(out)
}

/// The text whose digest is the draft's id, in one of its two spellings.
pub fn id_text(alloc: Global, draft: &Draft, spelling: Spelling) -> Result<String, AllocError>
    ensures { IfOk result (λ t. string_bytes t ≡ id_text_of spelling draft.now) }
{
    let bytes = id_bytes(alloc, draft, spelling)?;
    match String::from_utf8(bytes) {
        Ok(text) => Ok(text),
        Err(_) => unreachable!(),
    }
}

/// The draft's id, by one of the two spellings of its text.
pub fn id_of(alloc: Global, draft: &Draft, spelling: Spelling) -> Result<Id, AllocError>
    ensures { IfOk result (λ id. id.0 ≡ sha256 (id_text_of spelling draft.now)) }
{
    let bytes = id_bytes(alloc, draft, spelling)?;
    Ok(Id(Sha256::digest(bytes.as_slice())))
}
