//! Which messages an agent took.

ghost use Rattle.std.specs.Prelude.{◌≡◌, ◌<◌, ◌+◌, length, OnOk};
ghost use Rattle.std.specs.List.{list_any};
ghost use Rattle.followed_agent.specs.Kept.{AreNoted, takes, takes_at};

use id_index::IdIndex;
use message_retry::is_of;
use nsi_primitive::{Entry, Identity, Input};
use std::alloc::AllocError;

/// Notes the messages that the entries from a place on take.
pub fn note_all(got: &mut IdIndex, from: usize, journal: &[Entry]) -> Result<(), AllocError>
    requires before { AreNoted got.old from journal.now }
    ensures { OnOk result (AreNoted got.new (length journal.now) journal.now) }
{
    for place in from..journal.len() {
        note(got, place, journal)?;
    }
    Ok(())
}

/// Notes the message that the entry at a place takes.
fn note(got: &mut IdIndex, place: usize, journal: &[Entry]) -> Result<(), AllocError>
    requires within { place < length journal.now }
    requires before { AreNoted got.old place journal.now }
    ensures { OnOk result (AreNoted got.new (place + 1) journal.now) }
{
    if let Input::Got(message) = &journal[place].input {
        got.add(message.header.correlation, place)?;
    }
    Ok(())
}

/// Whether the entry at one of these places takes a message of the identity.
pub fn takes_at_one(journal: &[Entry], places: &[usize], identity: &Identity) -> bool
    ensures { result ≡ list_any (takes_at journal.now identity.now) places.now }
{
    places
        .iter()
        .any(|place| takes_at(journal, *place, identity))
}

/// Whether the entry at that place takes a message of the identity.
fn takes_at(journal: &[Entry], place: usize, identity: &Identity) -> bool
    ensures { result ≡ takes_at journal.now identity.now place }
{
    match journal.get(place) {
        Some(entry) => takes(&entry.input, identity),
        None => false,
    }
}

/// Whether a message of the identity is taken.
fn takes(input: &Input, identity: &Identity) -> bool
    ensures { result ≡ takes input.now identity.now }
{
    match input {
        Input::Got(message) => is_of(message, identity),
        _ => false,
    }
}
