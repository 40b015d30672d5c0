//! How an object is written.

ghost use Rattle.std.specs.Prelude.{◌≡◌, ◌++◌, ◌∷◌, [], true, decimal, IfOk, OnOk, Some};
ghost use Rattle.std.specs.List.{list_all};
ghost use Rattle.json.specs.Print.{quoted};
ghost use Rattle.serde_json.specs.Data.{array, object};
ghost use Rattle.serde_json.specs.View.{items_of};
ghost use Rattle.serde_json.specs.Written.{comma_if, compact_text};
ghost use Rattle.json_fields.specs.Fields.{json_of};
ghost use Rattle.json_fields.specs.Keys.{name_of};
ghost use Rattle.json_fields.specs.Members.{value_data, front_text, is_plain_byte, without};
ghost use Rattle.json_fields.specs.Written.{members_of, rows_of, with_rows};

use crate::key::Key;
use crate::member::{Member, Written};
use crate::object::JsonObject;
use crate::object::put::place_in;
use crate::rows::JsonRows;
use date_time::print_second;
use json::Writer;
use nsi_base::Second;
use std::alloc::{AllocError, Global};
use std::mem;
use uuid::Uuid;

/// Most lines are shorter.
const USUAL_LENGTH: usize = 512;

impl<'a> JsonObject<'a> {
    /// Writes the object as compact JSON.
    pub fn print(&self, alloc: Global) -> Result<Vec<u8>, AllocError>
        ensures spelled { IfOk result (λ b. b.items ≡ compact_text (object (members_of self.now))) }
        ensures again { IfOk result (λ b. json_of b.items ≡ Some (object (members_of self.now))) }
    {
        let mut text = Vec::with_capacity(alloc, USUAL_LENGTH)?;
        self.spell(alloc, &mut text)?;
        Ok(text)
    }

    /// Puts the object behind a text, as compact JSON.
    pub fn spell(&self, alloc: Global, text: &mut Vec<u8>) -> Result<(), AllocError>
        ensures put { OnOk result (text.new.items
            ≡ text.old.items ++ compact_text (object (members_of self.now))) }
        ensures again { OnOk result (json_of (compact_text (object (members_of self.now)))
            ≡ Some (object (members_of self.now))) }
    {
        text.push(b'{')?;
        spell_members(alloc, text, &self.members, false)?;
        text.push(b'}')?;
        Ok(())
    }

    /// The same with rows at a key more.
    pub fn spell_with(
        &self,
        alloc: Global,
        text: &mut Vec<u8>,
        key: Key,
        rows: &JsonRows,
    ) -> Result<(), AllocError>
        ensures put { OnOk result (text.new.items ≡ text.old.items
            ++ compact_text (object (with_rows key (rows_of rows.now) (members_of self.now)))) }
        ensures again { OnOk result (json_of
            (compact_text (object (with_rows key (rows_of rows.now) (members_of self.now))))
            ≡ Some (object (with_rows key (rows_of rows.now) (members_of self.now)))) }
    {
        let place = place_in(&self.members, key);
        let (front, back) = self.members.split_at(place);
        text.push(b'{')?;
        spell_members(alloc, text, front, false)?;
        spell_key(text, key, !front.is_empty())?;
        spell_rows(alloc, text, rows)?;
        spell_members(alloc, text, behind(back, key), true)?;
        text.push(b'}')?;
        Ok(())
    }
}

/// The members but for a first one that has the key.
fn behind<'b, 'a>(members: &'b [Member<'a>], key: Key) -> &'b [Member<'a>]
    ensures { result.now ≡ without key members.now }
{
    let rank = key.rank();
    match members.first() {
        Some(first) if first.key.rank() == rank => &members[1..],
        _ => members,
    }
}

/// A comma, where something stands before.
fn spell_comma(text: &mut Vec<u8>, is_later: bool) -> Result<(), AllocError>
    ensures put { OnOk result (text.new.items ≡ text.old.items ++ comma_if is_later) }
{
    if is_later {
        text.push(b',')?;
    }
    Ok(())
}

fn spell_key(text: &mut Vec<u8>, key: Key, is_later: bool) -> Result<(), AllocError>
    ensures put { OnOk result (text.new.items
        ≡ (text.old.items ++ comma_if is_later) ++ (quoted (name_of key) ++ 58 ∷ [])) }
{
    spell_comma(text, is_later)?;
    text.extend_from_slice(key.spelled().as_bytes())?;
    Ok(())
}

fn spell_rows(alloc: Global, text: &mut Vec<u8>, rows: &JsonRows) -> Result<(), AllocError>
    ensures put { OnOk result (text.new.items
        ≡ text.old.items ++ compact_text (array (items_of (rows_of rows.now)))) }
{
    text.push(b'[')?;
    let mut is_later = false;
    for row in &rows.items {
        spell_comma(text, is_later)?;
        row.spell(alloc, text)?;
        is_later = true;
    }
    text.push(b']')?;
    Ok(())
}

fn spell_members(
    alloc: Global,
    text: &mut Vec<u8>,
    members: &[Member],
    is_later: bool,
) -> Result<(), AllocError>
    ensures put { OnOk result
        (text.new.items ≡ text.old.items ++ front_text is_later members.now) }
{
    let mut is_later = is_later;
    for member in members {
        spell_key(text, member.key, is_later)?;
        spell_value(alloc, text, &member.value)?;
        is_later = true;
    }
    Ok(())
}

#[tactic(auto, unfolding(nsi_primitive::specs::Ids::id_text, nsi_primitive::specs::Ids::bytes_of, crate::specs::Members::time_scalar))]
fn spell_value(alloc: Global, text: &mut Vec<u8>, value: &Written) -> Result<(), AllocError>
    ensures put { OnOk result
        (text.new.items ≡ text.old.items ++ compact_text (value_data value.now)) }
{
    match value {
        Written::Number(n) => spell_number(text, *n),
        Written::Text(words) => spell_text(alloc, text, words),
        Written::Id(id) => {
            let mut buffer = Uuid::encode_buffer();
            spell_text(
                alloc,
                text,
                Uuid::from_u128(*id).urn().encode_lower(&mut buffer),
            )
        }
        Written::Time(second) => match Second::new(*second) {
            Some(second) => spell_text(alloc, text, print_second(second).as_str()),
            None => spell_number(text, *second),
        },
        Written::Flag(true) => spell_word(text, b"true"),
        Written::Flag(false) => spell_word(text, b"false"),
    }
}

fn spell_word(text: &mut Vec<u8>, word: &[u8]) -> Result<(), AllocError>
    ensures put { OnOk result (text.new.items ≡ text.old.items ++ word.now) }
{
    text.extend_from_slice(word)?;
    Ok(())
}

fn spell_number(text: &mut Vec<u8>, n: u64) -> Result<(), AllocError>
    ensures put { OnOk result (text.new.items ≡ text.old.items ++ decimal n) }
{
    let mut digits = itoa::Buffer::new();
    spell_word(text, digits.format(n).as_bytes())
}

/// A text in quotes.
fn spell_text(alloc: Global, text: &mut Vec<u8>, words: &str) -> Result<(), AllocError>
    ensures put { OnOk result (text.new.items ≡ text.old.items ++ quoted words.now) }
{
    if is_plain(words.as_bytes()) {
        spell_plain(text, words.as_bytes())
    } else {
        spell_escaped(alloc, text, words)
    }
}

/// Whether all bytes stand for themselves in a text.
fn is_plain(bytes: &[u8]) -> bool
    ensures { result ≡ list_all is_plain_byte bytes.now }
{
    bytes.iter().all(|b| is_plain_byte(*b))
}

fn is_plain_byte(b: u8) -> bool
    ensures { result ≡ is_plain_byte b }
{
    32 <= b && b != b'"' && b != b'\\'
}

fn spell_plain(text: &mut Vec<u8>, words: &[u8]) -> Result<(), AllocError>
    requires { list_all is_plain_byte words.now ≡ true }
    ensures put { OnOk result (text.new.items ≡ text.old.items ++ quoted words.now) }
{
    text.push(b'"')?;
    text.extend_from_slice(words)?;
    text.push(b'"')?;
    Ok(())
}

/// A text in quotes, with escapes. Where memory is wanting what was written before it is gone.
fn spell_escaped(alloc: Global, text: &mut Vec<u8>, words: &str) -> Result<(), AllocError>
    ensures put { OnOk result (text.new.items ≡ text.old.items ++ quoted words.now) }
{
    let mut writer = Writer::new(mem::replace(text, Vec::new(alloc)));
    writer.string(words)?;
    *text = writer.into_inner();
    Ok(())
}
