//! From a text to its value, in one pass over the tokens.

ghost use Rattle.std.specs.Prelude.{◌≡◌, ◌≢◌, ◌<◌, ◌==◌, None, Some, Err, IfErr, IfOk, IsTrue, OnOk, false, length, option_map, slice_index, true};
ghost use Rattle.json.specs.Json.{items, members, value};
ghost use Rattle.serde_json.specs.Data.{no_members};
ghost use Rattle.serde_json.specs.Read.{converted, float_of, number_from, number_of, of_items, of_json, of_members, read as read_text};
ghost use Rattle.serde_json.specs.View.{number_view};
ghost use Rattle.json_fields.specs.Values.{items_view, members_view, view};

use crate::fault::LineFault;
use crate::value::JsonValue;
use fast_float::Numeral;
use json::{Reader, Scratch, Token};
use serde_json::Number;
use std::alloc::Global;

/// How deep arrays and objects may nest.
const MAX_DEPTH: usize = 127;

/// Why no value is read.
#[derive(Clone, Copy)]
enum Unread {
    NotJson,
    NoMemory,
}

/// Reads a text that is one value. Texts with escapes go to the scratch, all others are borrowed.
pub(crate) fn parse<'a>(
    alloc: Global,
    text: &'a str,
    scratch: &'a mut Scratch,
) -> Result<JsonValue<'a>, LineFault>
    ensures read { IfOk result (λ v. read_text text.now ≡ Some (view v)) }
    ensures refused { IfErr result (λ e. e ≢ LineFault.NoMemory
        → (e ≡ LineFault.NotJson) × (read_text text.now ≡ None)) }
{
    let Ok(mut reader) = Reader::new(text, scratch) else {
        return Err(LineFault::NoMemory);
    };
    let value = match read(alloc, &mut reader, MAX_DEPTH) {
        Ok(value) => value,
        Err(Unread::NotJson) => return Err(LineFault::NotJson),
        Err(Unread::NoMemory) => return Err(LineFault::NoMemory),
    };
    match reader.next() {
        None => Ok(value),
        Some(_) => Err(LineFault::NotJson),
    }
}

#[cycle(read)]
#[inline(always)]
fn read<'a>(alloc: Global, reader: &mut Reader<'a>, depth: usize) -> Result<JsonValue<'a>, Unread>
    ensures ok { IfOk result
        (λ v. converted of_json (value depth reader.old) ≡ Some (view v, reader.new)) }
    ensures shorter { OnOk result (length reader.new < length reader.old) }
    ensures err { result ≡ Err Unread.NotJson → converted of_json (value depth reader.old) ≡ None }
{
    match reader.next() {
        Some(Token::String(text)) => Ok(JsonValue::String(text)),
        Some(Token::Number(text)) => match number_in(text) {
            Some(number) => Ok(JsonValue::Number(number)),
            None => Err(Unread::NotJson),
        },
        Some(Token::Bool(is_set)) => Ok(JsonValue::Bool(is_set)),
        Some(Token::Null) => Ok(JsonValue::Null),
        Some(Token::BeginArray) => {
            if depth == 0 {
                return Err(Unread::NotJson);
            }
            Ok(JsonValue::Array(read_items(alloc, reader, depth - 1)?))
        }
        Some(Token::BeginObject) => {
            if depth == 0 {
                return Err(Unread::NotJson);
            }
            Ok(JsonValue::Object(read_members(alloc, reader, depth - 1)?))
        }
        Some(Token::EndArray | Token::EndObject | Token::Key(_) | Token::Bad) => {
            Err(Unread::NotJson)
        }
        None => Err(Unread::NotJson),
    }
}

#[cycle(read)]
#[inline(never)]
fn read_items<'a>(
    alloc: Global,
    reader: &mut Reader<'a>,
    depth: usize,
) -> Result<Vec<JsonValue<'a>>, Unread>
    ensures ok { IfOk result
        (λ v. converted of_items (items (value depth) (length reader.old) reader.old)
        ≡ Some (items_view v.items, reader.new)) }
    ensures shorter { OnOk result (length reader.new < length reader.old) }
    ensures err { result ≡ Err Unread.NotJson
        → converted of_items (items (value depth) (length reader.old) reader.old) ≡ None }
{
    let mut found = Vec::new(alloc);
    'items: while !reader.take_end_array() {
        let item = read(alloc, reader, depth)?;
        let Ok(()) = found.push(item) else {
            return Err(Unread::NoMemory);
        };
    }
    Ok(found)
}

#[cycle(read)]
#[inline(never)]
fn read_members<'a>(
    alloc: Global,
    reader: &mut Reader<'a>,
    depth: usize,
) -> Result<Vec<(&'a str, JsonValue<'a>)>, Unread>
    ensures ok { IfOk result
        (λ v. converted (λ ms. of_members ms no_members)
        (members (value depth) (length reader.old) reader.old)
        ≡ Some (members_view v.items, reader.new)) }
    ensures shorter { OnOk result (length reader.new < length reader.old) }
    ensures err { result ≡ Err Unread.NotJson
        → converted (λ ms. of_members ms no_members)
        (members (value depth) (length reader.old) reader.old) ≡ None }
{
    let mut found = Vec::new(alloc);
    'members: loop {
        let key = match reader.next_key() {
            Ok(Some(key)) => key,
            Ok(None) => return Ok(found),
            Err(_) => return Err(Unread::NotJson),
        };
        let member = read(alloc, reader, depth)?;
        let Ok(()) = found.push((key, member)) else {
            return Err(Unread::NoMemory);
        };
    }
}

/// The number that a token writes, where a float or 64 bits hold it.
#[inline(always)]
fn number_in(text: &str) -> Option<Number>
    ensures { option_map number_view result ≡ number_of text.now }
{
    let bytes = text.as_bytes();
    if has_minus(bytes) {
        negative(&Numeral::scan(&bytes[1..]))
    } else {
        unsigned(&Numeral::scan(bytes))
    }
}

#[inline(always)]
fn has_minus(bytes: &[u8]) -> bool
    ensures value { result ≡ (slice_index bytes.now 0 == 45) }
    ensures len { IsTrue result → 0 < length bytes.now }
{
    !bytes.is_empty() && bytes[0] == b'-'
}

#[inline(always)]
fn unsigned(numeral: &Numeral<'_>) -> Option<Number>
    ensures { option_map number_view result ≡ number_from false numeral.now }
{
    match numeral.to_u64() {
        Some(n) => Number::from_u128(u128::from(n)),
        None => nearest(false, numeral),
    }
}

#[inline(always)]
fn negative(numeral: &Numeral<'_>) -> Option<Number>
    ensures { option_map number_view result ≡ number_from true numeral.now }
{
    if let Some(n) = numeral.to_i64(true) {
        if n < 0 {
            return Number::from_i128(i128::from(n));
        }
    }
    nearest(true, numeral)
}

#[inline(always)]
fn nearest(negative: bool, numeral: &Numeral<'_>) -> Option<Number>
    ensures { option_map number_view result ≡ float_of negative numeral.now }
{
    Number::from_f64(numeral.to_float::<f64>(negative))
}
