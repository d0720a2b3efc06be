// Values read one after another from the tokens of a text, each as `serde_json` reads a whole one.
ghost use Rattle.std.specs.Prelude.{◌≡◌, ◌⊎◌, ◌<◌, ◌==◌, length, slice_index, true, false, Some, None, Err, option_map, IsTrue, IfOk, IfErr, OnOk};
ghost use Rattle.json.specs.Json.{value, items, members};
ghost use Rattle.serde_json.specs.Data.{no_members};
ghost use Rattle.serde_json.specs.Read.{of_json, of_items, of_members, converted, number_of, number_from};
ghost use Rattle.serde_json.specs.View.{view, number_view, items_view, members_view};
ghost use Rattle.nostr_wire.specs.declared.fault.WireFault.{WireFault};

use crate::fault::WireFault;
use fast_float::Numeral;
use json::{Invalid, Reader, Token};
use serde_json::{Map, Number, Value};
use std::alloc::Global;

impl From<Invalid> for WireFault {
    ghost use Rattle.std.specs.Prelude.{◌≡◌};
    ghost use Rattle.nostr_wire.specs.declared.fault.WireFault.TheVariants.{Json};

    ghost from_gives = { λ _ e. e ≡ Json };

    fn from(_error: Invalid) -> WireFault {
        WireFault::Json
    }
}

fn has_minus(bytes: &[u8]) -> bool
    ensures value { result ≡ (slice_index bytes.now 0 == 45) }
    ensures len { IsTrue result → 0 < length bytes.now }
{
    !bytes.is_empty() && bytes[0] == b'-'
}

// The number above zero, where it is in range.
fn number_above(numeral: &Numeral<'_>) -> Option<Number>
    ensures { option_map number_view result ≡ number_from false numeral.now }
{
    match numeral.to_u64() {
        Some(number) => Some(Number::from(number)),
        None => Number::from_f64(numeral.to_float::<f64>(false)),
    }
}

// The number behind a minus, where it is in range.
fn number_below(numeral: &Numeral<'_>) -> Option<Number>
    ensures { option_map number_view result ≡ number_from true numeral.now }
{
    if let Some(number) = numeral.to_i64(true) {
        if number < 0 {
            return Some(Number::from(number));
        }
    }
    Number::from_f64(numeral.to_float::<f64>(true))
}

// The number that a token writes, where it is in range.
fn number_in(text: &str) -> Option<Number>
    ensures { option_map number_view result ≡ number_of text.now }
{
    let bytes = text.as_bytes();
    if has_minus(bytes) {
        number_below(&Numeral::scan(&bytes[1..]))
    } else {
        number_above(&Numeral::scan(bytes))
    }
}

/// The next value. Arrays and objects may nest so deep.
#[cycle(values)]
pub fn value_in(alloc: Global, reader: &mut Reader<'_>, depth: usize) -> Result<Value, WireFault>
    ensures ok { IfOk result (λ v. converted of_json (value depth reader.old) ≡ Some (view v, reader.new)) }
    ensures shorter { OnOk result (length reader.new < length reader.old) }
    ensures err { result ≡ Err WireFault.Json → converted of_json (value depth reader.old) ≡ None }
    ensures either { IfErr result (λ f. (f ≡ WireFault.Memory) ⊎ (f ≡ WireFault.Json)) }
{
    let token = reader.next().ok_or(Invalid)?;
    match token {
        Token::String(text) => Ok(Value::String(String::from_str(alloc, text)?)),
        Token::Number(text) => match number_in(text) {
            Some(number) => Ok(Value::Number(number)),
            None => Err(WireFault::Json),
        },
        Token::Bool(flag) => Ok(Value::Bool(flag)),
        Token::Null => Ok(Value::Null),
        Token::EndObject | Token::EndArray | Token::Key(_) | Token::Bad => Err(WireFault::Json),
        Token::BeginArray => {
            if depth == 0 {
                return Err(WireFault::Json);
            }
            Ok(Value::Array(items_in(alloc, reader, depth - 1)?))
        }
        Token::BeginObject => {
            if depth == 0 {
                return Err(WireFault::Json);
            }
            Ok(Value::Object(members_in(alloc, reader, depth - 1)?))
        }
    }
}

// The values up to the end of an array.
#[cycle(values)]
fn items_in(alloc: Global, reader: &mut Reader<'_>, depth: usize) -> Result<Vec<Value>, WireFault>
    ensures ok { IfOk result (λ v. converted of_items (items (value depth) (length reader.old) reader.old) ≡ Some (items_view v.items, reader.new)) }
    ensures shorter { OnOk result (length reader.new < length reader.old) }
    ensures err { result ≡ Err WireFault.Json → converted of_items (items (value depth) (length reader.old) reader.old) ≡ None }
    ensures either { IfErr result (λ f. (f ≡ WireFault.Memory) ⊎ (f ≡ WireFault.Json)) }
{
    let mut found = Vec::new(alloc);
    'items: while !reader.take_end_array() {
        let item = value_in(alloc, reader, depth)?;
        found.push(item)?;
    }
    Ok(found)
}

// The members up to the end of an object.
#[cycle(values)]
fn members_in(
    alloc: Global,
    reader: &mut Reader<'_>,
    depth: usize,
) -> Result<Map<String, Value>, WireFault>
    ensures ok { IfOk result (λ m. converted (λ ms. of_members ms no_members) (members (value depth) (length reader.old) reader.old) ≡ Some (members_view m.entries, reader.new)) }
    ensures shorter { OnOk result (length reader.new < length reader.old) }
    ensures err { result ≡ Err WireFault.Json → converted (λ ms. of_members ms no_members) (members (value depth) (length reader.old) reader.old) ≡ None }
    ensures either { IfErr result (λ f. (f ≡ WireFault.Memory) ⊎ (f ≡ WireFault.Json)) }
{
    let mut found = Map::new(alloc);
    'members: while let Some(name) = reader.next_key()? {
        let key = String::from_str(alloc, name)?;
        let member = value_in(alloc, reader, depth)?;
        drop(found.insert(key, member)?);
    }
    Ok(found)
}
