//! What is done to one record of many, and what its agent then says.

ghost use Rattle.std.specs.Prelude.{◌≡◌, ◌<◌, length, OnErr};
ghost use Rattle.nsi_primitive.specs.Ids.{id_of};
ghost use Rattle.nsi_primitive.specs.declared.state.Side.{Side as SideValue};
ghost use Rattle.connection_record.specs.Later.{IsLater};
ghost use Rattle.connection_record.specs.Applied.{moves};
ghost use Rattle.provider_agent.specs.State.{record_at};
ghost use Rattle.provider_agent.specs.Steps.{drawn};
ghost use Rattle.provider_agent.specs.Turned.{IsTurned, IsTurnedAt, IsStored};

use crate::agent::Agent;
use agent_state::push_replies;
use connection_record::{Move, Record};
use message_retry::Retry;
use nsi_base::Second;
use nsi_primitive::{Message, Side, id_of};
use std::alloc::{AllocError, Global};

/// When a record is moved, and at which place it stands: the second, and the number of the next id, under which a change of its
/// data plane is told.
#[derive(Clone, Copy)]
pub struct Moment {
    pub place: usize,
    pub second: Second,
    pub next: u64,
}

/// What is said of a record that was moved, and how many ids were drawn for it.
#[derive(Drop)]
pub struct Turned {
    pub out: Vec<Message>,
    pub drawn: u64,
}

/// Moves a record, and gives what its agent then says, which waits. Where memory is wanting, nothing changes.
pub fn turn(
    alloc: Global,
    agent: &Agent,
    own: &mut Record,
    retry: &mut Retry,
    event: Move,
    moment: Moment,
) -> Result<Turned, AllocError>
    requires { moment.next < 4611686018427387904 }
    ensures stored { IsStored retry.old retry.new result }
    ensures turned { let x = moves SideValue.Provider event moment.second own.old in
        IsTurned agent.now moment own.old own.new result x }
    ensures err { OnErr result (own.new ≡ own.old) }
{
    let saved = own.save();
    match try_turn(alloc, agent, own, retry, event, moment) {
        Ok(turn) => Ok(turn),
        Err(error) => {
            own.restore(&saved);
            Err(error)
        }
    }
}

/// The same, but that the record may have been moved where memory is wanting.
fn try_turn(
    alloc: Global,
    agent: &Agent,
    own: &mut Record,
    retry: &mut Retry,
    event: Move,
    moment: Moment,
) -> Result<Turned, AllocError>
    requires { moment.next < 4611686018427387904 }
    ensures stored { IsStored retry.old retry.new result }
    ensures turned { let x = moves SideValue.Provider event moment.second own.old in
        IsTurned agent.now moment own.old own.new result x }
    ensures later { IsLater own.old own.new }
{
    let mut replies = Vec::new(alloc);
    let mut out = Vec::new(alloc);
    let correlation = id_of(agent.number, moment.next);
    let is_told = own.apply(
        &mut replies,
        Side::Provider,
        event,
        correlation,
        moment.second,
    )?;
    push_replies(&mut out, &agent.name, &own.owner, replies)?;
    retry.store(alloc, &out)?;
    let drawn = drawn_for(is_told);
    Ok(Turned { out, drawn })
}

/// How many ids are drawn for the change of a data plane.
pub fn drawn_for(is_told: bool) -> u64
    ensures { result ≡ drawn is_told }
{
    if is_told { 1 } else { 0 }
}

/// Moves the record at a place.
pub fn turn_at(
    alloc: Global,
    agent: &Agent,
    records: &mut Vec<Record>,
    retry: &mut Retry,
    event: Move,
    moment: Moment,
) -> Result<Turned, AllocError>
    requires within { moment.place < length records.old.items }
    requires next { moment.next < 4611686018427387904 }
    ensures stored { IsStored retry.old retry.new result }
    ensures turned { let place = moment.place in
        let own = record_at place records.old.items in
        let x = moves SideValue.Provider event moment.second own in
        IsTurnedAt agent.now moment place records.old.items records.new.items result x }
{
    let own = &mut records[moment.place];
    turn(alloc, agent, own, retry, event, moment)
}
