// The tags of an event, from the tokens of a text.
ghost use Rattle.std.specs.Prelude.{◌<◌, ℕ, length, map, IfSome};
ghost use Rattle.serde_json.specs.Data.{array, string};
ghost use Rattle.nostr_event.specs.EventJson.{tags_items};
ghost use Rattle.event_text.specs.Tokens.{IsNext, Gives, tag_data};

use json::{Reader, Token};
use nostr_event::Tags;
use std::alloc::Global;

// As many texts as most tags have.
const MOST_TEXTS: usize = 4;

// The text of a string.
fn text_in<'a>(reader: &mut Reader<'a>) -> Option<&'a str>
    ensures ok { IfSome result (λ s. (depth : ℕ) → IsNext depth reader.old (string s.now) reader.new) }
    ensures shorter { IfSome result (λ s. length reader.new < length reader.old) }
{
    match reader.next()? {
        Token::String(text) => Some(text),
        _ => None,
    }
}

// The texts up to the end of an array of strings.
fn texts_in<'a>(alloc: Global, reader: &mut Reader<'a>, depth: usize) -> Option<Vec<&'a str>>
    ensures ok { IfSome result (λ texts. Gives depth reader.old (map string (map (λ t. t.now) texts.items)) reader.new) }
    ensures shorter { IfSome result (λ texts. length reader.new < length reader.old) }
{
    let mut texts = Vec::with_capacity(alloc, MOST_TEXTS).ok()?;
    'texts: while !reader.take_end_array() {
        let text = text_in(reader)?;
        texts.push(text).ok()?;
    }
    Some(texts)
}

// The texts of a tag, which is an array of strings.
fn tag_in<'a>(alloc: Global, reader: &mut Reader<'a>, depth: usize) -> Option<Vec<&'a str>>
    ensures ok { IfSome result (λ texts. IsNext depth reader.old (tag_data (map (λ t. t.now) texts.items)) reader.new) }
    ensures shorter { IfSome result (λ texts. length reader.new < length reader.old) }
{
    match reader.next()? {
        Token::BeginArray if depth > 0 => texts_in(alloc, reader, depth - 1),
        _ => None,
    }
}

// The tags up to the end of an array of arrays of strings.
fn each_tag_in(alloc: Global, reader: &mut Reader<'_>, depth: usize) -> Option<Tags>
    ensures ok { IfSome result (λ tags. Gives depth reader.old (map tag_data tags) reader.new) }
    ensures shorter { IfSome result (λ tags. length reader.new < length reader.old) }
{
    let mut tags = Tags::new(alloc);
    'tags: while !reader.take_end_array() {
        let texts = tag_in(alloc, reader, depth)?;
        tags = tags.with(texts.as_slice()).ok()?;
    }
    Some(tags.fitted())
}

/// The tags, where an array of arrays of strings is next, which may nest so deep.
pub fn tags_in(alloc: Global, reader: &mut Reader<'_>, depth: usize) -> Option<Tags>
    ensures ok { IfSome result (λ tags. IsNext depth reader.old (array (tags_items tags)) reader.new) }
    ensures shorter { IfSome result (λ tags. length reader.new < length reader.old) }
{
    match reader.next()? {
        Token::BeginArray if depth > 0 => each_tag_in(alloc, reader, depth - 1),
        _ => None,
    }
}
