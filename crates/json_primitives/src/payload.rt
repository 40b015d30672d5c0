//! The answer to a line that can't be taken.

ghost use Rattle.std.specs.Prelude.{◌≡◌, IfOk, OnOk};
ghost use Rattle.json_fields.specs.Written.{members_of};
ghost use Rattle.json_primitives.specs.Payload.{payload_spelling, put_key};

use json_fields::{JsonObject, Key};
use nsi_primitive::{ErrorName, Kind};
use std::alloc::{AllocError, Global};

/// Writes the fault's name, the key that it is about, and the number of the line, counted from 1.
pub fn print_payload(
    alloc: Global,
    fault: &str,
    key: Option<Key>,
    line: u64,
) -> Result<Vec<u8>, AllocError>
    ensures { IfOk result (λ b. b.items ≡ payload_spelling fault.now key line) }
{
    let mut object = JsonObject::new(alloc)?;
    object.put_text(Key::ErrorId, ErrorName::Payload.text())?;
    object.put_text(Key::Fault, fault)?;
    put_key(&mut object, key)?;
    object.put_text(Key::Kind, Kind::Error.name())?;
    object.put_number(Key::Line, line)?;
    object.print(alloc)
}

#[tactic(auto, unfolding(json_fields::specs::Keys::name_of))]
fn put_key(object: &mut JsonObject<'_>, key: Option<Key>) -> Result<(), AllocError>
    ensures { OnOk result (members_of object.new ≡ put_key key (members_of object.old)) }
{
    match key {
        None => Ok(()),
        Some(key) => object.put_text(Key::Key, key.text()),
    }
}
