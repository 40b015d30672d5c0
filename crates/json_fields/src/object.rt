//! Objects that are written key by key.

ghost use Rattle.std.specs.Prelude.{◌≡◌, true};
ghost use Rattle.json_fields.specs.Members.{members_from};
ghost use Rattle.json_fields.specs.Plain.{are_plain};

mod put;
mod writing;

use crate::member::Member;

/// A JSON object of numbers, texts and flags on its way to a line. Its keys stand in byte order, whatever the order in
/// which they are put.
#[derive(Drop)]
pub struct JsonObject<'a> {
    pub(crate) members: Vec<Member<'a>>,
    ghost plain: { are_plain (members_from members.items) ≡ true },
}
