//! How connections are found.

ghost use Rattle.std.specs.Prelude.{◌≡◌, ◌<◌, ◌⊎◌, ◌↔◌, ◌++◌, ◌∷◌, ℕ, [], All, Contains, IfOk, OnOk, IfSome, Some, true};
ghost use Rattle.child_connection.specs.Views.{open_request};
ghost use Rattle.aggregator_agent.specs.Bonds.{bond};
ghost use Rattle.aggregator_agent.specs.Indexed.{id_at, end_at, StaysIn, Grows, IsViewNamed, IsNamed, IsEndNamedBut, schedule_end_of, numbers_of, MayHear, IsAbout, MayChange};

use crate::clock::Clocking;
use crate::connection::Connection;
use crate::find::push_if;
use agent_state::Due;
use child_connection::ChildConnection;
use id_index::IdIndex;
use nsi_base::Second;
use nsi_primitive::{Id, Kind, Lsm, Message};
use record_index::{Deadlines, Places};
use std::alloc::{AllocError, Global};

/// The places of connections, by the ids under which they are spoken of and by the ends of their schedules. More may be
/// named than there is.
#[derive(Drop)]
pub struct ConnectionIndex {
    pub ids: IdIndex,
    pub ends: Deadlines,
}

impl ConnectionIndex {
    /// Names a connection as it stands behind a turn. Its end is named where it is another than before.
    pub fn name(
        &mut self,
        place: usize,
        connection: &Connection,
        before: Option<Second>,
    ) -> Result<(), AllocError>
        ensures grows { Grows self.old self.new }
        ensures named { OnOk result (IsNamed self.new.ids place (bond connection.now)) }
        ensures end { let end = schedule_end_of (bond connection.now) in
            OnOk result (IsEndNamedBut before self.new.ends place end) }
    {
        name_connection(&mut self.ids, place, connection)?;
        name_end(&mut self.ends, place, &before, connection.end())
    }

    /// The places of the connections that may hear a message, where there are so many.
    pub fn hearing(
        &self,
        alloc: Global,
        message: &Message,
        count: usize,
    ) -> Result<Places, AllocError>
        ensures { IfOk result (λ places. (p : ℕ) →
            Contains places p ↔ (MayHear self.now.ids message.now p × (p < count))) }
    {
        let mut places = Vec::new(alloc);
        self.ids
            .note_places(message.header.correlation, &mut places)?;
        note_named(&self.ids, message, &mut places)?;
        places_below(alloc, &places, count)
    }

    /// The places that are named by an id, where there are so many connections.
    pub fn named(&self, alloc: Global, id: Id, count: usize) -> Result<Places, AllocError>
        ensures { IfOk result (λ places. (p : ℕ) →
            Contains places p ↔ (Contains self.now.ids (id_at id p) × (p < count))) }
    {
        let mut places = Vec::new(alloc);
        self.ids.note_places(id, &mut places)?;
        places_below(alloc, &places, count)
    }

    /// The places of the connections that the clock may change, where there are so many.
    pub fn clocked(&self, clocking: &Clocking<'_>, count: usize) -> Result<Places, AllocError>
        ensures { IfOk result (λ places. (p : ℕ) → let e = clocking.now in
            Contains places p ↔ (MayChange self.now.ends e.second e.late.now p × (p < count))) }
    {
        let due = self.ends.due_by(clocking.alloc, clocking.second)?;
        let mut places = Vec::new(clocking.alloc);
        places.extend_from_slice(due.items())?;
        note_late(clocking.late, &mut places)?;
        places_below(clocking.alloc, &places, count)
    }
}

impl Connection {
    /// When the connection ends with its schedule.
    #[tactic(auto, unfolding(crate::specs::Indexed::end_while, crate::specs::Indexed::is_created))]
    pub fn end(&self) -> Option<Second>
        ensures { result ≡ schedule_end_of (bond self.now) }
    {
        if !matches!(self.own.lsm, Lsm::Created) {
            return None;
        }
        match self.own.last() {
            None => None,
            Some(criteria) => Some(criteria.interval.end()),
        }
    }
}

fn name_connection(
    ids: &mut IdIndex,
    place: usize,
    connection: &Connection,
) -> Result<(), AllocError>
    ensures grows { StaysIn ids.old ids.new }
    ensures named { OnOk result (IsNamed ids.new place (bond connection.now)) }
{
    ids.add(connection.own.id, place)?;
    name_views(ids, place, &connection.children)
}

fn name_views(
    ids: &mut IdIndex,
    place: usize,
    children: &[ChildConnection],
) -> Result<(), AllocError>
    ensures grows { StaysIn ids.old ids.new }
    ensures named { OnOk result (All (IsViewNamed ids.new place) children.now) }
{
    for child in children {
        name_view(ids, place, child)?;
    }
    Ok(())
}

/// Names a view by all that it may hear under.
fn name_view(ids: &mut IdIndex, place: usize, child: &ChildConnection) -> Result<(), AllocError>
    ensures grows { StaysIn ids.old ids.new }
    ensures named { OnOk result (IsViewNamed ids.new place child.now) }
{
    name_child(ids, place, child)?;
    name_attempt(ids, place, child)?;
    name_reserve(ids, place, child)?;
    name_provision(ids, place, child)?;
    name_lifecycle(ids, place, child)
}

fn name_child(ids: &mut IdIndex, place: usize, child: &ChildConnection) -> Result<(), AllocError>
    ensures grows { StaysIn ids.old ids.new }
    ensures named { OnOk result
        (IfSome child.now.connection (λ id. Contains ids.new (id_at id place))) }
{
    match child.connection() {
        None => Ok(()),
        Some(id) => ids.add(id, place),
    }
}

fn name_attempt(ids: &mut IdIndex, place: usize, child: &ChildConnection) -> Result<(), AllocError>
    ensures grows { StaysIn ids.old ids.new }
    ensures named { OnOk result
        (IfSome child.now.attempt (λ c. Contains ids.new (id_at c place))) }
{
    match child.attempt() {
        None => Ok(()),
        Some(correlation) => ids.add(correlation, place),
    }
}

#[tactic(auto, unfolding(child_connection::specs::Views::open_request))]
fn name_reserve(ids: &mut IdIndex, place: usize, child: &ChildConnection) -> Result<(), AllocError>
    ensures grows { StaysIn ids.old ids.new }
    ensures named { OnOk result (IfSome child.now.reserve_request
        (λ q. Contains ids.new (id_at q.correlation place))) }
{
    name_request(ids, place, child, Kind::Reserve)
}

#[tactic(auto, unfolding(child_connection::specs::Views::open_request))]
fn name_provision(
    ids: &mut IdIndex,
    place: usize,
    child: &ChildConnection,
) -> Result<(), AllocError>
    ensures grows { StaysIn ids.old ids.new }
    ensures named { OnOk result (IfSome child.now.provision_request
        (λ q. Contains ids.new (id_at q.correlation place))) }
{
    name_request(ids, place, child, Kind::Provision)
}

#[tactic(auto, unfolding(child_connection::specs::Views::open_request))]
fn name_lifecycle(
    ids: &mut IdIndex,
    place: usize,
    child: &ChildConnection,
) -> Result<(), AllocError>
    ensures grows { StaysIn ids.old ids.new }
    ensures named { OnOk result (IfSome child.now.lifecycle_request
        (λ q. Contains ids.new (id_at q.correlation place))) }
{
    name_request(ids, place, child, Kind::Terminate)
}

fn name_request(
    ids: &mut IdIndex,
    place: usize,
    child: &ChildConnection,
    kind: Kind,
) -> Result<(), AllocError>
    ensures grows { StaysIn ids.old ids.new }
    ensures named { OnOk result
        (IfSome (open_request kind child.now) (λ q. Contains ids.new (id_at q.correlation place))) }
{
    match child.open_request(kind) {
        None => Ok(()),
        Some(sent) => ids.add(sent.correlation, place),
    }
}

fn name_end(
    ends: &mut Deadlines,
    place: usize,
    before: &Option<Second>,
    after: Option<Second>,
) -> Result<(), AllocError>
    ensures grows { StaysIn ends.old ends.new }
    ensures named { OnOk result (IsEndNamedBut before.now ends.new place after) }
{
    match after {
        None => Ok(()),
        Some(end) => name_end_unless(ends, place, before, end),
    }
}

fn name_end_unless(
    ends: &mut Deadlines,
    place: usize,
    before: &Option<Second>,
    end: Second,
) -> Result<(), AllocError>
    ensures grows { StaysIn ends.old ends.new }
    ensures named { OnOk result ((before.now ≡ Some end) ⊎ Contains ends.new (end_at end place)) }
{
    if is_end(before, end) {
        Ok(())
    } else {
        ends.add(end.get(), place)
    }
}

fn is_end(before: &Option<Second>, end: Second) -> bool
    ensures { result ≡ true → before.now ≡ Some end }
{
    match before {
        None => false,
        Some(second) => *second == end,
    }
}

/// Notes the places that are named by the connection that a message is about.
fn note_named(ids: &IdIndex, message: &Message, places: &mut Vec<usize>) -> Result<(), AllocError>
    ensures { OnOk result ((p : ℕ) → Contains places.new.items p ↔
        (Contains places.old.items p ⊎ IsAbout ids.now message.now p)) }
{
    match message.body.named_connection() {
        None => Ok(()),
        Some(id) => ids.note_places(id, places),
    }
}

/// Notes the places of the connections whose requests are late.
#[tactic(auto, unfolding(crate::specs::Indexed::numbers_of))]
fn note_late(late: &[Due], places: &mut Vec<usize>) -> Result<(), AllocError>
    ensures { OnOk result (places.new.items ≡ places.old.items ++ numbers_of late.now) }
{
    for due in late {
        places.push(due.number.get() as usize)?;
    }
    Ok(())
}

/// The places among some that lie below a count.
fn places_below(alloc: Global, places: &[usize], count: usize) -> Result<Places, AllocError>
    ensures { IfOk result (λ below. (p : ℕ) →
        Contains below p ↔ (Contains places.now p × (p < count))) }
{
    let mut below = Vec::new(alloc);
    for place in places {
        push_if(&mut below, *place, *place < count)?;
    }
    Ok(Places::among(below))
}
