//! A parent's view of a child's connection.

ghost use Rattle.std.specs.Prelude.{◌≡◌};
ghost use Rattle.child_connection.specs.Views.{new_view, open_request, is_kind, is_id, is_open, is_open_of, is_asking};

mod asking;
mod copies;
mod hearing;
mod saving;

use crate::state::{Phase, Sent};
use nsi_base::{Name, Version};
use nsi_primitive::{ErrorName, Id, Kind, Plane};
use std::alloc::Global;
use std::marker::Model;

/// What a parent knows of a child's connection: its points, its id once that is known, where its reservation stands, the
/// versions that were committed, which requests are unanswered, and its data plane.
#[derive(Drop)]
pub struct ChildConnection {
    child: Name,
    source: Name,
    dest: Name,
    connection: Option<Id>,
    phase: Phase,
    before: Phase,
    attempt: Option<Id>,
    pending: Option<Version>,
    committed: Vec<Version>,
    error: Option<ErrorName>,
    reserve_request: Option<Sent>,
    provision_request: Option<Sent>,
    lifecycle_request: Option<Sent>,
    provision_error: Option<ErrorName>,
    gone: bool,
    plane: Plane,
    plane_notice: u64,
    room: usize,
}

impl Model for ChildConnection {
    ghost use Rattle.std.specs.Prelude.{◌≡◌, ◌<◌, ◌≤◌, true, length, vec_capacity};
    ghost use Rattle.nsi_primitive.specs.declared.kind.Kind.{Kind};
    ghost use Rattle.child_connection.specs.Views.{is_asking};
    ghost use Rattle.child_connection.specs.Views.{ChildConnection as View};

    ghost Value = { View };

    ghost view = { λ x. record {
      child = x.child;
      source = x.source;
      dest = x.dest;
      connection = x.connection;
      phase = x.phase;
      before = x.before;
      attempt = x.attempt;
      pending = x.pending;
      committed = x.committed.items;
      error = x.error;
      reserve_request = x.reserve_request;
      provision_request = x.provision_request;
      lifecycle_request = x.lifecycle_request;
      provision_error = x.provision_error;
      gone = x.gone;
      plane = x.plane;
      plane_notice = x.plane_notice;
      room = x.room;
    } };

    // While a commit is unanswered there is memory for its version: to take the answer takes none.
    ghost invariant = { λ x. (is_asking x.reserve_request Kind.ReserveCommit ≡ true →
        length x.committed.items < x.room) × (x.room ≤ vec_capacity x.committed) };
}

impl ChildConnection {
    /// A view of a child that was asked nothing yet.
    pub fn new(alloc: Global, child: Name, source: Name, dest: Name) -> ChildConnection
        ensures { result ≡ new_view child source dest }
    {
        ChildConnection {
            child,
            source,
            dest,
            connection: None,
            phase: Phase::Idle,
            before: Phase::Idle,
            attempt: None,
            pending: None,
            committed: Vec::new(alloc),
            error: None,
            reserve_request: None,
            provision_request: None,
            lifecycle_request: None,
            provision_error: None,
            gone: false,
            plane: Plane {
                active: false,
                version: Version::first(),
                consistent: true,
            },
            plane_notice: 0,
            room: 0,
        }
    }

    /// The agent that is asked.
    pub fn child(&self) -> &Name
        ensures { result.now ≡ self.now.child }
    {
        &self.child
    }

    pub fn source(&self) -> &Name
        ensures { result.now ≡ self.now.source }
    {
        &self.source
    }

    pub fn dest(&self) -> &Name
        ensures { result.now ≡ self.now.dest }
    {
        &self.dest
    }

    /// The child's id of the connection, once it is known.
    pub fn connection(&self) -> Option<Id>
        ensures { result ≡ self.now.connection }
    {
        self.connection
    }

    pub fn phase(&self) -> Phase
        ensures { result ≡ self.now.phase }
    {
        self.phase
    }

    /// The phase in which the last request of the reservation machine was asked.
    pub fn before(&self) -> Phase
        ensures { result ≡ self.now.before }
    {
        self.before
    }

    /// The correlationId of the reserve that is asked or held.
    pub fn attempt(&self) -> Option<Id>
        ensures { result ≡ self.now.attempt }
    {
        self.attempt
    }

    /// The version that the child holds.
    pub fn pending(&self) -> Option<Version>
        ensures { result ≡ self.now.pending }
    {
        self.pending
    }

    /// The versions that were committed, the last one behind.
    pub fn committed(&self) -> &[Version]
        ensures { result.now ≡ self.now.committed }
    {
        &self.committed
    }

    /// Why the child refused what was last asked of its reservation, or of its end.
    pub fn error(&self) -> Option<ErrorName>
        ensures { result ≡ self.now.error }
    {
        self.error
    }

    pub fn provision_error(&self) -> Option<ErrorName>
        ensures { result ≡ self.now.provision_error }
    {
        self.provision_error
    }

    /// The unanswered request of the machine that a kind of request belongs to.
    #[tactic(auto, unfolding(crate::specs::Views::open_request))]
    pub fn open_request(&self, kind: Kind) -> Option<Sent>
        ensures { result ≡ open_request kind self.now }
    {
        match kind {
            Kind::Reserve | Kind::ReserveCommit | Kind::ReserveAbort => self.reserve_request,
            Kind::Provision | Kind::Release => self.provision_request,
            Kind::Terminate => self.lifecycle_request,
            _ => None,
        }
    }

    /// Whether the child has confirmed the end of the connection.
    pub fn is_gone(&self) -> bool
        ensures { result ≡ self.now.gone }
    {
        self.gone
    }

    pub fn plane(&self) -> Plane
        ensures { result ≡ self.now.plane }
    {
        self.plane
    }

    /// The number of the notice that told the data plane, or 0.
    pub fn plane_notice(&self) -> u64
        ensures { result ≡ self.now.plane_notice }
    {
        self.plane_notice
    }
}

fn is_id(id: &Option<Id>, correlation: Id) -> bool
    ensures { result ≡ is_id id.now correlation }
{
    match id {
        None => false,
        Some(id) => correlation == *id,
    }
}

fn is_open(request: &Option<Sent>, correlation: Id) -> bool
    ensures { result ≡ is_open request.now correlation }
{
    match request {
        None => false,
        Some(sent) => correlation == sent.correlation,
    }
}

fn is_open_of(request: &Option<Sent>, kind: Kind, correlation: Id) -> bool
    ensures { result ≡ is_open_of request.now kind correlation }
{
    match request {
        None => false,
        Some(sent) => correlation == sent.correlation && is_kind(kind, sent.kind),
    }
}

fn is_asking(request: &Option<Sent>, kind: Kind) -> bool
    ensures { result ≡ is_asking request.now kind }
{
    match request {
        None => false,
        Some(sent) => is_kind(kind, sent.kind),
    }
}

/// Whether both are one kind of those that are asked of a child's machines.
#[tactic(auto, unfolding(crate::specs::Views::is_kind))]
fn is_kind(kind: Kind, other: Kind) -> bool
    ensures { result ≡ is_kind kind other }
{
    match kind {
        Kind::Reserve => matches!(other, Kind::Reserve),
        Kind::ReserveCommit => matches!(other, Kind::ReserveCommit),
        Kind::ReserveAbort => matches!(other, Kind::ReserveAbort),
        Kind::Provision => matches!(other, Kind::Provision),
        Kind::Release => matches!(other, Kind::Release),
        Kind::Terminate => matches!(other, Kind::Terminate),
        _ => false,
    }
}
