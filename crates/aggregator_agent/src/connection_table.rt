//! The connections of an aggregator.

ghost use Rattle.std.specs.Prelude.{◌≡◌, ◌<◌, ◌++◌, ◌∷◌, ℕ, [], length, option_to_list, vec_len, vec_capacity, IfOk, IfSome, OnErr};
ghost use Rattle.std.specs.Prelude.{List as Sequence};
ghost use Rattle.agent_state.specs.declared.parent.Leg.{Leg as LegValue};
ghost use Rattle.connection_record.specs.Refusal.{place_of, record_refusal};
ghost use Rattle.aggregator_agent.specs.Bonds.{bond, bonds, bond_at, records_of, answered, clocked_bond, each_bond};
ghost use Rattle.aggregator_agent.specs.Setting.{IsRoute};
ghost use Rattle.aggregator_agent.specs.Step.{IsEntered};
ghost use Rattle.aggregator_agent.specs.Requesting.{IsRequestedAt};
ghost use Rattle.aggregator_agent.specs.Settled.{IsTable};

use crate::clock::Clocking;
use crate::connection::Connection;
use crate::connection_index::ConnectionIndex;
use crate::entering::Entering;
use crate::find::{number_of, place_among};
use crate::outbox::Outbox;
use crate::requesting::{Start, request};
use crate::rounds::{Begun, clock_all, hear_all};
use crate::said::Said;
use id_index::IdIndex;
use nsi_base::{Name, Second};
use nsi_primitive::{Body, ErrorName, Id};
use record_index::Deadlines;
use std::alloc::{AllocError, Global};
use std::marker::Model;
use stp_topology::Topology;

/// Connections in the order in which they were made, each of which is found without looking at the others.
#[derive(Drop)]
pub struct ConnectionTable {
    items: Vec<Connection>,
    index: ConnectionIndex,
}

impl Model for ConnectionTable {
    ghost use Rattle.std.specs.Prelude.{List};
    ghost use Rattle.aggregator_agent.specs.Bonds.{Bond, bonds};
    ghost use Rattle.aggregator_agent.specs.Settled.{IsTable};

    ghost Value = { List Bond };

    ghost view = { λ t. bonds t.items.items };

    ghost invariant = { λ t. IsTable t.index (bonds t.items.items) };
}

impl ConnectionTable {
    pub fn new(alloc: Global) -> ConnectionTable
        ensures { result ≡ [] }
    {
        ConnectionTable {
            items: Vec::new(alloc),
            index: ConnectionIndex {
                ids: IdIndex::new(alloc),
                ends: Deadlines::new(alloc),
            },
        }
    }

    pub fn items(&self) -> &[Connection]
        ensures { bonds result.now ≡ self.now }
    {
        &self.items
    }

    /// The place of the connection with that id, where it is the owner's.
    pub fn place_of(&self, alloc: Global, id: Id, owner: &Name) -> Result<Option<usize>, AllocError>
        ensures place { IfOk result (λ place. place ≡ place_of id owner.now (records_of self.now)) }
        ensures within { IfOk result (λ place. IfSome place (λ n. n < length self.now)) }
    {
        let places = self.index.named(alloc, id, self.items.len())?;
        Ok(place_among(&self.items, places.items(), id, owner))
    }

    /// Why the connection at a place refuses a request that comes at a second.
    pub fn refusal_at(&self, place: usize, body: &Body, now: Second) -> Option<ErrorName>
        requires { place < length self.now }
        ensures { result ≡ record_refusal now body.now (bond_at place self.now).own }
    {
        self.items[place].own.refusal(body, now)
    }

    /// All connections hear a message of a child, and what is answered is said behind all else. Where memory is wanting,
    /// none has heard it.
    pub fn hear(
        &mut self,
        outbox: &mut Outbox,
        entering: &Entering<'_>,
        begun: Begun,
    ) -> Result<Said, AllocError>
        ensures done { let e = entering.now in
            let does = answered e.agent.now e.second e.message.now in
            let all = each_bond does 0 begun.next self.old in
            let out = all.out ++ option_to_list begun.answer in
            IfOk result (λ said. IsEntered self.new
            outbox.old outbox.new said all.bonds out all.dues all.next) }
        ensures back { OnErr result (self.new ≡ self.old) }
        ensures unsaid { OnErr result (outbox.new.retry ≡ outbox.old.retry) }
        ensures undue { OnErr result (outbox.new.dues ≡ outbox.old.dues) }
    {
        let count = self.items.len();
        let places = self.index.hearing(entering.alloc, entering.message, count)?;
        let connections = &mut self.items;
        hear_all(
            connections,
            &mut self.index,
            places.items(),
            outbox,
            entering,
            begun,
        )
    }

    /// The clock of all connections goes on. Where memory is wanting, that of none does.
    pub fn clock(
        &mut self,
        outbox: &mut Outbox,
        clocking: &Clocking<'_>,
        next: u64,
    ) -> Result<Said, AllocError>
        ensures done { let e = clocking.now in
            let all = each_bond (clocked_bond e.agent.now e.second e.late.now) 0 next self.old in
            IfOk result (λ said. IsEntered self.new
            outbox.old outbox.new said all.bonds all.out all.dues all.next) }
        ensures back { OnErr result (self.new ≡ self.old) }
        ensures unsaid { OnErr result (outbox.new.retry ≡ outbox.old.retry) }
        ensures undue { OnErr result (outbox.new.dues ≡ outbox.old.dues) }
    {
        let count = self.items.len();
        let places = self.index.clocked(clocking, count)?;
        let ends = &mut self.index.ends;
        clock_all(
            &mut self.items,
            ends,
            places.items(),
            outbox,
            clocking,
            next,
        )
    }

    /// The connection at a place takes a request of its owner. Where memory is wanting, nothing has changed.
    pub fn request_at(
        &mut self,
        topology: &Topology,
        place: usize,
        outbox: &mut Outbox,
        entering: &Entering<'_>,
        next: u64,
    ) -> Result<Said, AllocError>
        requires { place < length self.old }
        ensures by { (route : ℕ → ℕ → Sequence LegValue) →
            IsRoute topology.now entering.now.agent.now.number route →
            IfOk result (λ said. IsRequestedAt place self.old self.new
            outbox.old outbox.new said entering.now next route) }
        ensures some { IfOk result (λ said. (route : ℕ → ℕ → Sequence LegValue) ×
            IsRequestedAt place self.old self.new
            outbox.old outbox.new said entering.now next route) }
        ensures back { OnErr result (self.new ≡ self.old) }
        ensures unsaid { OnErr result (outbox.new.retry ≡ outbox.old.retry) }
        ensures undue { OnErr result (outbox.new.dues ≡ outbox.old.dues) }
    {
        let start = Start {
            number: number_of(place)?,
            place,
            next,
        };
        let connection = &mut self.items[place];
        request(
            topology,
            connection,
            &mut self.index,
            outbox,
            entering,
            start,
        )
    }

    /// A connection that was asked for nothing yet joins the others, and takes its first request. Where memory is wanting,
    /// nothing has changed.
    pub fn open(
        &mut self,
        topology: &Topology,
        connection: Connection,
        outbox: &mut Outbox,
        entering: &Entering<'_>,
        next: u64,
    ) -> Result<Said, AllocError>
        requires { connection.own.committed ≡ [] }
        ensures by { (route : ℕ → ℕ → Sequence LegValue) →
            IsRoute topology.now entering.now.agent.now.number route →
            IfOk result (λ said. IsRequestedAt (length self.old)
            (self.old ++ bond connection ∷ []) self.new
            outbox.old outbox.new said entering.now next route) }
        ensures some { IfOk result (λ said. (route : ℕ → ℕ → Sequence LegValue) ×
            IsRequestedAt (length self.old) (self.old ++ bond connection ∷ []) self.new
            outbox.old outbox.new said entering.now next route) }
        ensures back { OnErr result (self.new ≡ self.old) }
        ensures unsaid { OnErr result (outbox.new.retry ≡ outbox.old.retry) }
        ensures undue { OnErr result (outbox.new.dues ≡ outbox.old.dues) }
    {
        let items = &mut self.items;
        let index = &mut self.index;
        let opening = Opening { connection, next };
        open_in(topology, items, index, opening, outbox, entering)
    }
}

/// A connection that was asked for nothing yet, and the number of the next id.
#[derive(Drop)]
struct Opening {
    connection: Connection,
    next: u64,
}

/// A connection takes its first request, and joins the others, for which there is room before anything is said.
fn open_in(
    topology: &Topology,
    items: &mut Vec<Connection>,
    index: &mut ConnectionIndex,
    opening: Opening,
    outbox: &mut Outbox,
    entering: &Entering<'_>,
) -> Result<Said, AllocError>
    requires table { IsTable index.old (bonds items.old.items) }
    requires uncommitted { opening.connection.own.committed ≡ [] }
    ensures table { IsTable index.new (bonds items.new.items) }
    ensures by { (route : ℕ → ℕ → Sequence LegValue) →
        IsRoute topology.now entering.now.agent.now.number route →
        IfOk result (λ said. IsRequestedAt (length (bonds items.old.items))
        (bonds items.old.items ++ bond opening.connection ∷ []) (bonds items.new.items)
        outbox.old outbox.new said entering.now opening.next route) }
    ensures some { IfOk result (λ said. (route : ℕ → ℕ → Sequence LegValue) ×
        IsRequestedAt (length (bonds items.old.items))
        (bonds items.old.items ++ bond opening.connection ∷ []) (bonds items.new.items)
        outbox.old outbox.new said entering.now opening.next route) }
    ensures back { OnErr result (bonds items.new.items ≡ bonds items.old.items) }
    ensures unsaid { OnErr result (outbox.new.retry ≡ outbox.old.retry) }
    ensures undue { OnErr result (outbox.new.dues ≡ outbox.old.dues) }
{
    items.reserve(1)?;
    let place = items.len();
    let Opening {
        mut connection,
        next,
    } = opening;
    let start = Start {
        number: number_of(place)?,
        place,
        next,
    };
    let said = request(topology, &mut connection, index, outbox, entering, start)?;
    push_in_room(items, connection);
    Ok(said)
}

/// A connection joins the others, for which there is room.
fn push_in_room(connections: &mut Vec<Connection>, connection: Connection)
    requires { vec_len connections.old < vec_capacity connections.old }
    ensures { connections.new.items ≡ connections.old.items ++ connection ∷ [] }
{
    let Ok(()) = connections.push(connection) else {
        unreachable!()
    };
}
