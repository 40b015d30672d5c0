//! How requests are taken.

ghost use Rattle.std.specs.Prelude.{◌≡◌, ◌<◌, ◌∷◌, ◌++◌, [], length, IfOk, OnErr, IfSome, IsSome, None, Some, Contains};
ghost use Rattle.nsi_primitive.specs.Messages.{is_request, is_query, connection_of};
ghost use Rattle.nsi_primitive.specs.declared.message.Body.{Body as BodyValue};
ghost use Rattle.message_retry.specs.Taken.{is_taken, with_taken};
ghost use Rattle.nsi_primitive.specs.Ids.{id_of};
ghost use Rattle.nsi_primitive.specs.declared.state.Side.{Side as SideValue};
ghost use Rattle.connection_record.specs.Applied.{requested, moves_if};
ghost use Rattle.connection_record.specs.Refusal.{refusal, unnamed_refusal, points_of};
ghost use Rattle.provider_agent.specs.Setting.{own_stp};
ghost use Rattle.provider_agent.specs.State.{record_at, says};
ghost use Rattle.agent_state.specs.Entries.{error_reply};
ghost use Rattle.provider_agent.specs.Steps.{receives, serves, answers, opens_between, taken_at};
ghost use Rattle.provider_agent.specs.Core.{IsConsistent, IsReady};
ghost use Rattle.provider_agent.specs.Step.{IsStep};
ghost use Rattle.provider_agent.specs.Turned.{IsTurned, IsTurnedAt, IsStored};

use crate::agent::Agent;
use crate::find::place_of;
use crate::provider_core::Core;
use crate::records::{Moment, Turned, turn};
use crate::setting::own_stp;
use agent_state::{refusal_of, service_of};
use connection_record::Record;
use connection_record::refusal::schedule_refusal;
use message_retry::Retry;
use nsi_base::{AgentNo, StpNo};
use nsi_primitive::{Body, ErrorName, Message, ReserveRequest, id_of};
use std::alloc::{AllocError, Global};
use stp_topology::Topology;

impl Core {
    /// Takes a message. One that isn't a request, or was taken before, changes nothing.
    #[tactic(auto, unfolding(crate::specs::Steps::receives, message_retry::specs::Taken::with_taken, message_retry::specs::Retry::is_old, message_retry::specs::Retry::saw))]
    pub fn receive(
        &mut self,
        alloc: Global,
        topology: &Topology,
        message: &Message,
    ) -> Result<Vec<Message>, AllocError>
        requires { IsReady self.old }
        ensures step { let m = message.now in
            let stp_of = own_stp topology.now self.old.agent.number in
            IsStep self.old self.new result (λ setting s.
            receives (is_request m.body) (is_taken m.header s.seen) setting stp_of s m) }
        ensures consistent { IsConsistent self.new }
    {
        if !message.is_request() || self.retry.is_old(message) {
            return Ok(Vec::new(alloc));
        }
        self.retry.saw(alloc, message)?;
        match self.serve(alloc, topology, message) {
            Ok(out) => Ok(out),
            Err(error) => {
                self.retry.take_back(message);
                Err(error)
            }
        }
    }

    /// Serves a request that is taken for the first time.
    fn serve(
        &mut self,
        alloc: Global,
        topology: &Topology,
        message: &Message,
    ) -> Result<Vec<Message>, AllocError>
        requires { IsReady self.old }
        ensures step { let m = message.now in
            let stp_of = own_stp topology.now self.old.agent.number in
            IsStep self.old self.new result (λ setting s. serves (is_query m.body) setting stp_of s m) }
        ensures consistent { IsConsistent self.new }
    {
        if message.is_query() {
            self.reply(alloc, message)
        } else {
            self.answer(alloc, topology, message)
        }
    }

    /// Answers a request that is no query.
    #[tactic(auto, unfolding(connection_record::specs::Refusal::refusal, connection_record::specs::Refusal::unnamed_refusal))]
    fn answer(
        &mut self,
        alloc: Global,
        topology: &Topology,
        message: &Message,
    ) -> Result<Vec<Message>, AllocError>
        requires { IsReady self.old }
        ensures step { let m = message.now in
            let stp_of = own_stp topology.now self.old.agent.number in
            IsStep self.old self.new result
            (λ setting s. answers (refusal s.now setting.name stp_of s.records m) setting stp_of s m) }
        ensures consistent { IsConsistent self.new }
    {
        if !message.header.provider.is(&self.agent.name) {
            return self.refuse(alloc, message, ErrorName::WrongProvider);
        }
        let Some(id) = message.body.connection() else {
            return self.open(alloc, topology, message);
        };
        let owner = &message.header.requester;
        let Some(place) = place_of(self.agent.number, self.next, &self.records, id, owner) else {
            return self.refuse(alloc, message, ErrorName::Nonexistent);
        };
        match self.records[place].refusal(&message.body, self.now) {
            Some(error) => self.refuse(alloc, message, error),
            None => self.take_at(alloc, place, message),
        }
    }

    /// Refuses a request.
    fn refuse(
        &mut self,
        alloc: Global,
        message: &Message,
        error: ErrorName,
    ) -> Result<Vec<Message>, AllocError>
        requires { IsReady self.old }
        ensures step { IsStep self.old self.new result
            (λ setting s. says s (error_reply setting.name message.now error ∷ [])) }
        ensures consistent { IsConsistent self.new }
    {
        let out = refusal_of(alloc, &self.agent.name, message, error)?;
        self.retry.store(alloc, &out)?;
        Ok(out)
    }

    /// Takes a first reserve, or refuses it.
    #[tactic(auto, unfolding(connection_record::specs::Refusal::unnamed_refusal))]
    fn open(
        &mut self,
        alloc: Global,
        topology: &Topology,
        message: &Message,
    ) -> Result<Vec<Message>, AllocError>
        requires ready { IsReady self.old }
        requires unnamed { connection_of message.now.body ≡ None }
        ensures step { let m = message.now in
            let stp_of = own_stp topology.now self.old.agent.number in
            IsStep self.old self.new result
            (λ setting s. answers (unnamed_refusal s.now m.body stp_of) setting stp_of s m) }
        ensures consistent { IsConsistent self.new }
    {
        let Body::Reserve(request) = &message.body else {
            return Ok(Vec::new(alloc));
        };
        if let Some(error) = schedule_refusal(request, self.now) {
            return self.refuse(alloc, message, error);
        }
        match points_of(topology, self.agent.number, request) {
            None => self.refuse(alloc, message, ErrorName::UnknownStp),
            Some((source, dest)) => self.open_between(alloc, message, request, source, dest),
        }
    }

    /// Makes a record, which has work to do where its request is taken. Its place is named first.
    fn open_between(
        &mut self,
        alloc: Global,
        message: &Message,
        request: &ReserveRequest,
        source: StpNo,
        dest: StpNo,
    ) -> Result<Vec<Message>, AllocError>
        requires ready { IsReady self.old }
        requires is_of { message.now.body ≡ BodyValue.Reserve request.now }
        requires source { IsSome request.now.source }
        requires dest { IsSome request.now.dest }
        ensures step { IsStep self.old self.new result
            (λ setting s. opens_between (Some (source, dest)) setting s message.now request.now) }
        ensures consistent { IsConsistent self.new }
    {
        self.waiting.add(self.records.len())?;
        self.add_record(alloc, message, request, source, dest)
    }

    /// Adds a record, which is moved by its first request.
    fn add_record(
        &mut self,
        alloc: Global,
        message: &Message,
        request: &ReserveRequest,
        source: StpNo,
        dest: StpNo,
    ) -> Result<Vec<Message>, AllocError>
        requires ready { IsReady self.old }
        requires is_of { message.now.body ≡ BodyValue.Reserve request.now }
        requires source { IsSome request.now.source }
        requires dest { IsSome request.now.dest }
        requires named { Contains self.old.waiting (length self.old.records.items) }
        ensures step { IsStep self.old self.new result
            (λ setting s. opens_between (Some (source, dest)) setting s message.now request.now) }
        ensures consistent { IsConsistent self.new }
    {
        let owner = message.header.requester.copy()?;
        let service = service_of(request)?;
        let id = id_of(self.agent.number, self.next);
        let mut own = Record::new(alloc, id, owner, service, source, dest);
        let next = self.next + 1;
        let moment = Moment {
            place: self.records.len(),
            second: self.now,
            next,
        };
        self.records.reserve(1)?;
        let turn = take(
            alloc,
            &self.agent,
            &mut own,
            &mut self.retry,
            message,
            moment,
        )?;
        let Ok(()) = self.records.push(own) else {
            unreachable!()
        };
        self.next = next + turn.drawn;
        Ok(turn.out)
    }

    /// Takes a request about the record at a place, which then may have work to do. It is named first: where memory is
    /// wanting afterwards, a place that is named for nothing does no harm.
    fn take_at(
        &mut self,
        alloc: Global,
        place: usize,
        message: &Message,
    ) -> Result<Vec<Message>, AllocError>
        requires ready { IsReady self.old }
        requires within { place < length self.old.records.items }
        ensures step { let m = message.now in
            IsStep self.old self.new result (λ setting s. taken_at setting s place m) }
        ensures consistent { IsConsistent self.new }
    {
        self.waiting.add(place)?;
        self.move_at(alloc, place, message)
    }

    /// Moves the record at a place that is named, by a request.
    fn move_at(
        &mut self,
        alloc: Global,
        place: usize,
        message: &Message,
    ) -> Result<Vec<Message>, AllocError>
        requires ready { IsReady self.old }
        requires within { place < length self.old.records.items }
        requires named { Contains self.old.waiting place }
        ensures step { let m = message.now in
            IsStep self.old self.new result (λ setting s. taken_at setting s place m) }
        ensures consistent { IsConsistent self.new }
    {
        let moment = Moment {
            place,
            second: self.now,
            next: self.next,
        };
        let turn = take_among(
            alloc,
            &self.agent,
            &mut self.records,
            &mut self.retry,
            message,
            moment,
        )?;
        self.next += turn.drawn;
        self.free_if_dropped(place);
        Ok(turn.out)
    }
}

/// Moves a record by a request.
#[tactic(auto, using(crate::proofs::Turning::told_still, crate::proofs::Turning::drawn_still))]
fn take(
    alloc: Global,
    agent: &Agent,
    own: &mut Record,
    retry: &mut Retry,
    message: &Message,
    moment: Moment,
) -> Result<Turned, AllocError>
    requires { moment.next < 4611686018427387904 }
    ensures stored { IsStored retry.old retry.new result }
    ensures turned { let m = message.now in
        let event = requested moment.second m.body m.header.correlation own.old in
        let x = moves_if SideValue.Provider event moment.second own.old in
        IsTurned agent.now moment own.old own.new result x }
    ensures err { OnErr result (own.new ≡ own.old) }
{
    match own.requested(&message.body, message.header.correlation, moment.second) {
        None => Ok(Turned {
            out: Vec::new(alloc),
            drawn: 0,
        }),
        Some(event) => turn(alloc, agent, own, retry, event, moment),
    }
}

/// Moves the record at a place by a request.
fn take_among(
    alloc: Global,
    agent: &Agent,
    records: &mut Vec<Record>,
    retry: &mut Retry,
    message: &Message,
    moment: Moment,
) -> Result<Turned, AllocError>
    requires within { moment.place < length records.old.items }
    requires next { moment.next < 4611686018427387904 }
    ensures stored { IsStored retry.old retry.new result }
    ensures turned { let m = message.now in
        let place = moment.place in
        let own = record_at place records.old.items in
        let event = requested moment.second m.body m.header.correlation own in
        let x = moves_if SideValue.Provider event moment.second own in
        IsTurnedAt agent.now moment place records.old.items records.new.items result x }
{
    let own = &mut records[moment.place];
    take(alloc, agent, own, retry, message, moment)
}

/// The two points that a first reserve names, where both are the provider's.
fn points_of(
    topology: &Topology,
    provider: AgentNo,
    request: &ReserveRequest,
) -> Option<(StpNo, StpNo)>
    ensures points { result ≡ points_of (own_stp topology.now provider) request.now }
    ensures source { IfSome result (λ _. IsSome request.now.source) }
    ensures dest { IfSome result (λ _. IsSome request.now.dest) }
{
    let source = request.source.as_ref()?;
    let dest = request.dest.as_ref()?;
    let source = own_stp(topology, provider, source)?;
    let dest = own_stp(topology, provider, dest)?;
    Some((source, dest))
}
