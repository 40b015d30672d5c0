//! A JSON value over the text that it was read from.

ghost use Rattle.std.specs.Prelude.{◌≡◌, is_some, option_map, option_and_then};
ghost use Rattle.serde_json.specs.Find.{get, get_member, as_array, as_bool, as_number, as_object, as_str, as_u64};
ghost use Rattle.json_fields.specs.Values.{items_view, members_view, view};

pub(crate) mod parsing;

use serde_json::Number;

/// A JSON value. It borrows its texts and its keys, so that a line is read without a copy of either. An object has its
/// members as they come: of equal keys the last one counts.
#[derive(Drop)]
pub enum JsonValue<'a> {
    Null,
    Bool(bool),
    Number(Number),
    String(&'a str),
    Array(Vec<JsonValue<'a>>),
    Object(Vec<(&'a str, JsonValue<'a>)>),
}

impl<'a> JsonValue<'a> {
    pub fn is_object(&self) -> bool
        ensures { result ≡ is_some (as_object (view self.now)) }
    {
        matches!(self, JsonValue::Object(_))
    }

    pub fn as_bool(&self) -> Option<bool>
        ensures { result ≡ as_bool (view self.now) }
    {
        match self {
            JsonValue::Bool(is_set) => Some(*is_set),
            _ => None,
        }
    }

    pub fn as_str(&self) -> Option<&'a str>
        ensures { option_map (λ s. s.now) result ≡ as_str (view self.now) }
    {
        match self {
            JsonValue::String(text) => Some(*text),
            _ => None,
        }
    }

    /// A number in digits alone, of 64 bits.
    pub fn as_u64(&self) -> Option<u64>
        ensures { result ≡ option_and_then as_u64 (as_number (view self.now)) }
    {
        match self {
            JsonValue::Number(number) => number.as_u64(),
            _ => None,
        }
    }

    pub fn as_array(&self) -> Option<&[JsonValue<'a>]>
        ensures { option_map (λ v. items_view v.now) result ≡ as_array (view self.now) }
    {
        match self {
            JsonValue::Array(items) => Some(items.as_slice()),
            _ => None,
        }
    }

    /// What stands at a name, where this is an object that has it.
    pub fn get(&self, name: &str) -> Option<&JsonValue<'a>>
        ensures { option_map (λ v. view v.now) result ≡ get name.now (view self.now) }
    {
        match self {
            JsonValue::Object(members) => last_named(members.as_slice(), name),
            _ => None,
        }
    }
}

fn last_named<'v, 'a>(
    members: &'v [(&'a str, JsonValue<'a>)],
    name: &str,
) -> Option<&'v JsonValue<'a>>
    ensures { option_map (λ v. view v.now) result ≡ get_member name.now (members_view members.now) }
{
    let mut left = members.len();
    while left > 0 {
        left -= 1;
        let member = &members[left];
        if member.0 == name {
            return Some(&member.1);
        }
    }
    None
}
