//! How messages are taken.

ghost use Rattle.std.specs.Prelude.{◌≡◌, ◌<◌, ◌∷◌, [], length, IfOk, IfSome, IsSome, None, Some};
ghost use Rattle.nsi_primitive.specs.Messages.{is_request, is_query, connection_of};
ghost use Rattle.nsi_primitive.specs.declared.message.Body.{Body as BodyValue};
ghost use Rattle.connection_record.specs.Moves.{fresh, service_of};
ghost use Rattle.connection_record.specs.Refusal.{refusal, unnamed_refusal, points_of};
ghost use Rattle.agent_state.specs.State.{name_or, sends};
ghost use Rattle.agent_state.specs.Entries.{error_reply};
ghost use Rattle.stp_topology.specs.Network.{stp_of};
ghost use Rattle.aggregator_agent.specs.Steps.{receives, serves, answers, opens_between, request_at, is_seen};
ghost use Rattle.aggregator_agent.specs.Step.{IsStep, IsStepBy, takes_new};

use crate::aggregator_core::Core;
use crate::connection::Connection;
use crate::entering::Entering;
use agent_state::{refusal_of, service_of};
use connection_record::Record;
use connection_record::refusal::schedule_refusal;
use nsi_base::StpNo;
use nsi_primitive::{Body, ErrorName, Id, Message, ReserveRequest};
use std::alloc::{AllocError, Global};
use stp_topology::Topology;

impl Core {
    /// Takes a message. One that was taken before changes nothing.
    pub fn receive(
        &mut self,
        alloc: Global,
        topology: &Topology,
        message: &Message,
    ) -> Result<Vec<Message>, AllocError>
        ensures step { let m = message.now in
            IsStepBy topology.now self.old self.new result
            (λ setting s. receives (is_request m.body) (is_seen s m) setting s m) }
        ensures taken { self.new.taken ≡ self.old.taken }
    {
        if self.outbox.retry.is_old(message) {
            return Ok(Vec::new(alloc));
        }
        self.outbox.retry.saw(alloc, message)?;
        match self.take_new(alloc, topology, message) {
            Ok(out) => Ok(out),
            Err(error) => {
                self.outbox.retry.take_back(message);
                Err(error)
            }
        }
    }

    /// Takes a message that was counted just now.
    fn take_new(
        &mut self,
        alloc: Global,
        topology: &Topology,
        message: &Message,
    ) -> Result<Vec<Message>, AllocError>
        ensures step { let m = message.now in
            IsStepBy topology.now self.old self.new result
            (λ setting s. takes_new (is_request m.body) setting s m) }
        ensures taken { self.new.taken ≡ self.old.taken }
    {
        if message.is_request() {
            self.serve(alloc, topology, message)
        } else {
            self.hear(alloc, message)
        }
    }

    /// Serves a request.
    fn serve(
        &mut self,
        alloc: Global,
        topology: &Topology,
        message: &Message,
    ) -> Result<Vec<Message>, AllocError>
        ensures step { let m = message.now in
            IsStepBy topology.now self.old self.new result
            (λ setting s. serves (is_query m.body) setting s m) }
        ensures taken { self.new.taken ≡ self.old.taken }
    {
        if message.is_query() {
            self.query(alloc, message)
        } else {
            self.answer(alloc, topology, message)
        }
    }

    /// Answers a request that is no query.
    fn answer(
        &mut self,
        alloc: Global,
        topology: &Topology,
        message: &Message,
    ) -> Result<Vec<Message>, AllocError>
        ensures step { let m = message.now in
            IsStepBy topology.now self.old self.new result
            (λ setting s. answers
            (refusal s.base.now setting.agent.name setting.stp_of s.base.records m) setting s m) }
        ensures taken { self.new.taken ≡ self.old.taken }
    {
        let header = &message.header;
        if !header.provider.is(&self.agent.name) {
            return self.refuse(alloc, message, ErrorName::WrongProvider);
        }
        let Some(id) = message.body.connection() else {
            return self.open(alloc, topology, message);
        };
        let found = self.connections.place_of(alloc, id, &header.requester)?;
        let Some(place) = found else {
            return self.refuse(alloc, message, ErrorName::Nonexistent);
        };
        match self.connections.refusal_at(place, &message.body, self.now) {
            Some(error) => self.refuse(alloc, message, error),
            None => self.request_at(alloc, topology, place, message),
        }
    }

    /// Takes a first reserve, or refuses it.
    fn open(
        &mut self,
        alloc: Global,
        topology: &Topology,
        message: &Message,
    ) -> Result<Vec<Message>, AllocError>
        requires unnamed { connection_of message.now.body ≡ None }
        ensures step { let m = message.now in
            IsStepBy topology.now self.old self.new result
            (λ setting s. answers (unnamed_refusal s.base.now m.body setting.stp_of) setting s m) }
        ensures taken { self.new.taken ≡ self.old.taken }
    {
        let Body::Reserve(reserve) = &message.body else {
            return Ok(Vec::new(alloc));
        };
        if let Some(error) = schedule_refusal(reserve, self.now) {
            return self.refuse(alloc, message, error);
        }
        match points_of(topology, reserve) {
            None => self.refuse(alloc, message, ErrorName::UnknownStp),
            Some(points) => self.open_between(alloc, topology, message, reserve, points),
        }
    }

    /// Makes a connection between two points, which takes its first request.
    fn open_between(
        &mut self,
        alloc: Global,
        topology: &Topology,
        message: &Message,
        reserve: &ReserveRequest,
        points: (StpNo, StpNo),
    ) -> Result<Vec<Message>, AllocError>
        requires is_of { message.now.body ≡ BodyValue.Reserve reserve.now }
        requires source { IsSome reserve.now.source }
        requires dest { IsSome reserve.now.dest }
        ensures step { IsStepBy topology.now self.old self.new result
            (λ setting s. opens_between (Some points) setting s message.now reserve.now) }
        ensures taken { self.new.taken ≡ self.old.taken }
    {
        let id = self.agent.id(self.next)?;
        let connection = opened(alloc, id, message, reserve, points)?;
        let entering = Entering {
            alloc,
            agent: &self.agent,
            message,
            second: self.now,
        };
        let next = self.next + 1;
        let connections = &mut self.connections;
        let outbox = &mut self.outbox;
        let said = connections.open(topology, connection, outbox, &entering, next)?;
        self.next = said.next;
        Ok(said.out)
    }

    /// The connection at a place takes a request.
    fn request_at(
        &mut self,
        alloc: Global,
        topology: &Topology,
        place: usize,
        message: &Message,
    ) -> Result<Vec<Message>, AllocError>
        requires { place < length self.old.connections }
        ensures step { let m = message.now in
            IsStepBy topology.now self.old self.new result
            (λ setting s. request_at setting s place m) }
        ensures taken { self.new.taken ≡ self.old.taken }
    {
        let entering = Entering {
            alloc,
            agent: &self.agent,
            message,
            second: self.now,
        };
        let next = self.next;
        let connections = &mut self.connections;
        let outbox = &mut self.outbox;
        let said = connections.request_at(topology, place, outbox, &entering, next)?;
        self.next = said.next;
        Ok(said.out)
    }

    /// Refuses a request.
    pub fn refuse(
        &mut self,
        alloc: Global,
        message: &Message,
        error: ErrorName,
    ) -> Result<Vec<Message>, AllocError>
        ensures step { let m = message.now in
            IsStep self.old self.new result
            (λ setting s. sends s (error_reply setting.agent.name m error ∷ [])) }
        ensures taken { self.new.taken ≡ self.old.taken }
    {
        let out = refusal_of(alloc, &self.agent.name, message, error)?;
        self.outbox.retry.store(alloc, &out)?;
        Ok(out)
    }
}

/// A connection that was asked for nothing yet.
fn opened(
    alloc: Global,
    id: Id,
    message: &Message,
    reserve: &ReserveRequest,
    points: (StpNo, StpNo),
) -> Result<Connection, AllocError>
    requires source { IsSome reserve.now.source }
    requires dest { IsSome reserve.now.dest }
    ensures own { let q = reserve.now in
        let service = service_of q (name_or q.source) (name_or q.dest) in
        IfOk result (λ c. c.own
        ≡ fresh id message.now.header.requester service points.0 points.1) }
    ensures children { IfOk result (λ c. c.children.items ≡ []) }
{
    let owner = message.header.requester.copy()?;
    let service = service_of(reserve)?;
    let (source, dest) = points;
    Ok(Connection {
        own: Record::new(alloc, id, owner, service, source, dest),
        children: Vec::new(alloc),
    })
}

/// The two points that a first reserve names, where both are known.
fn points_of(topology: &Topology, reserve: &ReserveRequest) -> Option<(StpNo, StpNo)>
    ensures points { result ≡ points_of (stp_of topology.now) reserve.now }
    ensures source { IfSome result (λ _. IsSome reserve.now.source) }
    ensures dest { IfSome result (λ _. IsSome reserve.now.dest) }
{
    let source = reserve.source.as_ref()?;
    let dest = reserve.dest.as_ref()?;
    let source = topology.stp_of(source.bytes())?;
    let dest = topology.stp_of(dest.bytes())?;
    Some((source, dest))
}
