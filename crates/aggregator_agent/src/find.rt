//! How a connection is found.

ghost use Rattle.std.specs.Prelude.{◌≡◌, ◌<◌, ◌++◌, ◌∷◌, [], if◌then◌else◌, length, slice_index_or, IfSome, IfOk, OnOk};
ghost use Rattle.aggregator_agent.specs.declared.connection.Connection.{Connection as ConnectionValue};
ghost use Rattle.connection_record.specs.Refusal.{place_of};
ghost use Rattle.aggregator_agent.specs.Bonds.{bonds, records_of, is_owned};
ghost use Rattle.aggregator_agent.specs.Finding.{AreOwned};

use crate::connection::Connection;
use nsi_base::{Name, RecordNo};
use nsi_primitive::Id;
use std::alloc::AllocError;

/// The place of the connection with that id, where it is the owner's. It is looked for at places among which it is.
pub fn place_among(
    connections: &[Connection],
    places: &[usize],
    id: Id,
    owner: &Name,
) -> Option<usize>
    requires { AreOwned id owner.now connections.now places.now }
    ensures place { result ≡ place_of id owner.now (records_of (bonds connections.now)) }
    ensures within { IfSome result (λ n. n < length connections.now) }
{
    for place in places {
        if is_owned_at(connections, *place, id, owner) {
            return Some(*place);
        }
    }
    None
}

fn is_owned_at(connections: &[Connection], place: usize, id: Id, owner: &Name) -> bool
    requires { place < length connections.now }
    ensures { (x : ConnectionValue) →
        result ≡ is_owned id owner.now (slice_index_or connections.now place x) }
{
    is_of(&connections[place], id, owner)
}

fn is_of(connection: &Connection, id: Id, owner: &Name) -> bool
    ensures { result ≡ is_owned id owner.now connection.now }
{
    id == connection.own.id && owner.is(&connection.own.owner)
}

/// The number of the record at a place. An agent has fewer records than there are numbers.
pub fn number_of(place: usize) -> Result<RecordNo, AllocError>
    ensures { IfOk result (λ number. number ≡ place) }
{
    if place > 4_194_303 {
        return Err(AllocError);
    }
    match RecordNo::new(place as u32) {
        Some(number) => Ok(number),
        None => Err(AllocError),
    }
}

/// Puts a place behind others, where it counts.
pub fn push_if(places: &mut Vec<usize>, place: usize, counts: bool) -> Result<(), AllocError>
    ensures { let more = if counts then place ∷ [] else [] in
        OnOk result (places.new.items ≡ places.old.items ++ more) }
{
    if counts {
        places.push(place)?;
    }
    Ok(())
}
