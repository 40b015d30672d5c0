//! How a record is found.

ghost use Rattle.std.specs.Prelude.{◌≡◌, ◌<◌, length, IfSome};
ghost use Rattle.connection_record.specs.Refusal.{place_of};
ghost use Rattle.provider_agent.specs.Good.{AreOrdered};

use connection_record::Record;
use nsi_base::{AgentNo, Name};
use nsi_primitive::Id;

/// The place of the record with that id, where it is the owner's. Ids rise with the records, so few are looked at.
pub fn place_of(
    agent: AgentNo,
    next: u64,
    records: &[Record],
    id: Id,
    owner: &Name,
) -> Option<usize>
    requires { AreOrdered agent next records.now }
    ensures place { result ≡ place_of id owner.now records.now }
    ensures within { IfSome result (λ n. n < length records.now) }
{
    let number = id.number();
    let Ok(place) = records.binary_search_by_key(&number, |own| own.id.number()) else {
        return None;
    };
    if owner.is(&records[place].owner) {
        Some(place)
    } else {
        None
    }
}
