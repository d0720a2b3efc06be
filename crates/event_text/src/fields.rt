// The fields of an event, from the tokens of a text.
ghost use Rattle.std.specs.Prelude.{◌≡◌, ◌<◌, ℕ, length, Some, false, IfSome};
ghost use Rattle.hex.specs.Hex.{encode_lower};
ghost use Rattle.serde_json.specs.Data.{Data, Members, no_members, unsigned, number, string, put};
ghost use Rattle.serde_json.specs.Read.{number_of, number_from};
ghost use Rattle.nostr_event.specs.EventView.{IsBytesOf};
ghost use Rattle.event_text.specs.Tokens.{IsNext, GivesMembers};
ghost use Rattle.event_text.specs.Fields.{Hold};

use crate::tags::tags_in;
use fast_float::Numeral;
use json::{Reader, Token};
use nostr_event::{Tags, bytes32_of, bytes64_of};
use std::alloc::Global;

/// The fields that were read of an event's object.
#[derive(Drop)]
pub struct Fields<'a> {
    pub id: Option<[u8; 32]>,
    pub pubkey: Option<[u8; 32]>,
    pub created_at: Option<u64>,
    pub kind: Option<u16>,
    pub tags: Option<Tags>,
    pub content: Option<&'a str>,
    pub sig: Option<[u8; 64]>,
}

// The text of a string.
fn str_in<'a>(reader: &mut Reader<'a>) -> Option<&'a str>
    ensures ok { IfSome result (λ s. (depth : ℕ) → IsNext depth reader.old (string s.now) reader.new) }
    ensures shorter { IfSome result (λ s. length reader.new < length reader.old) }
{
    match reader.next()? {
        Token::String(text) => Some(text),
        _ => None,
    }
}

// The number above zero, where it is whole.
fn whole_above(numeral: &Numeral<'_>) -> Option<u64>
    ensures { IfSome result (λ n. number_from false numeral.now ≡ Some (unsigned n)) }
{
    numeral.to_u64()
}

// The whole number that is written so.
fn whole_of(text: &str) -> Option<u64>
    ensures { IfSome result (λ n. number_of text.now ≡ Some (unsigned n)) }
{
    let bytes = text.as_bytes();
    if bytes.is_empty() || bytes[0] == b'-' {
        return None;
    }
    whole_above(&Numeral::scan(bytes))
}

// A whole number below the limit.
fn below_in(reader: &mut Reader<'_>, limit: u64) -> Option<u64>
    ensures ok { IfSome result (λ n. (depth : ℕ) → IsNext depth reader.old (number (unsigned n)) reader.new) }
    ensures below { IfSome result (λ n. n < limit) }
    ensures shorter { IfSome result (λ n. length reader.new < length reader.old) }
{
    let found = match reader.next()? {
        Token::Number(text) => whole_of(text)?,
        _ => return None,
    };
    if found < limit { Some(found) } else { None }
}

// The 32 bytes that a string spells in lower-case hexadecimal digits.
fn bytes32_in(reader: &mut Reader<'_>) -> Option<[u8; 32]>
    ensures ok { IfSome result (λ b. (depth : ℕ) → IsNext depth reader.old (string (encode_lower b)) reader.new) }
    ensures bytes { IfSome result (IsBytesOf 32) }
    ensures shorter { IfSome result (λ b. length reader.new < length reader.old) }
{
    bytes32_of(str_in(reader)?)
}

// The 64 bytes that a string spells in lower-case hexadecimal digits.
fn bytes64_in(reader: &mut Reader<'_>) -> Option<[u8; 64]>
    ensures ok { IfSome result (λ b. (depth : ℕ) → IsNext depth reader.old (string (encode_lower b)) reader.new) }
    ensures bytes { IfSome result (IsBytesOf 64) }
    ensures shorter { IfSome result (λ b. length reader.new < length reader.old) }
{
    bytes64_of(str_in(reader)?)
}

impl<'a> Fields<'a> {
    // No field.
    fn none() -> Fields<'a>
        ensures { Hold no_members result }
    {
        Fields {
            id: None,
            pubkey: None,
            created_at: None,
            kind: None,
            tags: None,
            content: None,
            sig: None,
        }
    }

    // Reads the field of that name, if an event has one.
    fn read(
        &mut self,
        alloc: Global,
        reader: &mut Reader<'a>,
        depth: usize,
        name: &str,
    ) -> Option<()>
        ensures ok { IfSome result (λ _. (d : Data) × IsNext depth reader.old d reader.new × ((found : Members) → Hold found self.old → Hold (put name.now d found) self.new)) }
        ensures shorter { IfSome result (λ _. length reader.new < length reader.old) }
    {
        match name {
            "id" => self.id = Some(bytes32_in(reader)?),
            "pubkey" => self.pubkey = Some(bytes32_in(reader)?),
            "created_at" => self.created_at = Some(below_in(reader, u64::MAX)?),
            "kind" => self.kind = Some(below_in(reader, 65536)? as u16),
            "tags" => self.tags = Some(tags_in(alloc, reader, depth)?),
            "content" => self.content = Some(str_in(reader)?),
            "sig" => self.sig = Some(bytes64_in(reader)?),
            _ => return None,
        }
        Some(())
    }
}

/// The fields up to the end of an object, which may nest so deep. Where one comes twice, the last stays.
pub fn fields_in<'a>(alloc: Global, reader: &mut Reader<'a>, depth: usize) -> Option<Fields<'a>>
    ensures ok { IfSome result (λ f. (found : Members) × Hold found f × GivesMembers depth reader.old no_members found reader.new) }
    ensures shorter { IfSome result (λ f. length reader.new < length reader.old) }
{
    let mut fields = Fields::none();
    'fields: while let Some(name) = reader.next_key().ok()? {
        fields.read(alloc, reader, depth, name)?;
    }
    Some(fields)
}
