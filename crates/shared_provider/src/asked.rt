//! The entry that a call asks of a provider.

ghost use Rattle.std.specs.Prelude.{◌≡◌, ◌<◌, ◌≤◌, ℕ, IfSome, length, position};
ghost use Rattle.provider_agent.specs.Good.{AreOrdered};
ghost use Rattle.provider_agent.specs.Steps.{machine_at};
ghost use Rattle.shared_provider.specs.Asked.{took_entry, work_entry, work_on, has_id};

use connection_record::Record;
use nsi_base::RecordNo;
use nsi_primitive::{Entry, Id, Input, Machine, Message};
use provider_agent::Provider;
use std::alloc::AllocError;

/// The entry of a message that wasn't seen.
#[tactic(auto, unfolding(crate::specs::Asked::took_entry))]
pub fn took_entry(provider: &Provider, message: Message) -> Option<Entry>
    ensures { result ≡ took_entry provider.now.state message }
{
    if provider.seen(&message) {
        return None;
    }
    Some(Entry {
        second: provider.now(),
        input: Input::Got(message),
    })
}

/// The place of the record with that id. Ids rise with the records, so few are looked at.
fn place_of(records: &[Record], connection: Id) -> Option<usize>
    requires { (agent next : ℕ) × AreOrdered agent next records.now }
    ensures place { result ≡ position (has_id connection) records.now }
    ensures within { IfSome result (λ n. n < length records.now) }
{
    let number = connection.number();
    let Ok(place) = records.binary_search_by_key(&number, |own| own.id.number()) else {
        return None;
    };
    Some(place)
}

/// The first machine of the record at a place that has work to do.
fn machine_at(records: &[Record], place: usize) -> Option<(RecordNo, Machine)>
    requires within { place < length records.now }
    requires few { length records.now ≤ 4194304 }
    ensures { result ≡ machine_at place records.now }
{
    let machine = records[place].first_machine()?;
    let Some(number) = RecordNo::new(place as u32) else {
        unreachable!()
    };
    Some((number, machine))
}

/// The first work that waits on a connection.
fn work_on(provider: &Provider, connection: Id) -> Option<(RecordNo, Machine)>
    requires few { provider.now.state.taken ≤ 4194304 }
    ensures { result ≡ work_on connection provider.now.state.records }
{
    provider.facts();
    let records = provider.records();
    let place = place_of(records, connection)?;
    machine_at(records, place)
}

/// The entry of the first work that waits on a connection.
#[tactic(auto, unfolding(crate::specs::Asked::work_entry))]
pub fn work_entry(provider: &Provider, connection: Id) -> Option<Entry>
    requires few { provider.now.state.taken ≤ 4194304 }
    ensures { result ≡ work_entry provider.now.state connection }
{
    let (number, machine) = work_on(provider, connection)?;
    Some(Entry {
        second: provider.now(),
        input: Input::Work { number, machine },
    })
}
