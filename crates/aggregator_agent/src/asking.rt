//! What an aggregator asks of its children.

ghost use Rattle.std.specs.Prelude.{◌≡◌, ◌<◌, ◌++◌, true, length, option_to_list, OnOk};
ghost use Rattle.nsi_primitive.specs.Messages.{kind_of};
ghost use Rattle.nsi_primitive.specs.declared.kind.Kind.{Kind as KindValue};
ghost use Rattle.child_connection.specs.Refusals.{is_about};
ghost use Rattle.std.specs.Option.{option_copied};
ghost use Rattle.aggregator_agent.specs.Asking.{request_if, may_abort, service_for, reserve_if, passed_on, pass_one, next_behind, pass_each};
ghost use Rattle.aggregator_agent.specs.Connections.{view_at, IsAskOf, IsAsked, IsAskedAt, AreAsked};

use crate::agent::Agent;
use crate::connection::Turning;
use child_connection::{ChildConnection, Phase};
use connection_record::Record;
use nsi_base::Name;
use nsi_primitive::{Body, Id, Kind, Message, Service};
use std::alloc::AllocError;

impl Turning {
    /// Keeps a request, which has drawn an id.
    #[tactic(auto, unfolding(crate::specs::Asking::next_behind))]
    pub fn ask(&mut self, request: Option<Message>) -> Result<(), AllocError>
        requires { self.old.next < 4611686018427387904 }
        ensures asked { let asked = self.old.asked.items ++ option_to_list request in
            OnOk result (self.new.asked.items ≡ asked) }
        ensures next { OnOk result (self.new.next ≡ next_behind request self.old.next) }
        ensures replies { self.new.replies ≡ self.old.replies }
        ensures notices { self.new.notices ≡ self.old.notices }
    {
        let Some(request) = request else {
            return Ok(());
        };
        self.asked.push(request)?;
        self.next += 1;
        Ok(())
    }
}

/// Asks a child whose id is known, and whose machine has nothing unanswered, where there is cause to.
#[tactic(auto, unfolding(crate::specs::Asking::request_if, crate::specs::Asking::asked_view, child_connection::specs::Refusals::ask_refusal))]
pub fn ask_if(
    is_due: bool,
    child: &mut ChildConnection,
    agent: &Name,
    kind: Kind,
    correlation: Id,
) -> Result<Option<Message>, AllocError>
    requires { is_about kind ≡ true }
    ensures { let body = request_if is_due kind child.old in
        IsAskOf agent.now correlation kind body child.old child.new result }
{
    if !is_due || child.connection().is_none() || child.open_request(kind).is_some() {
        return Ok(None);
    }
    match child.ask(agent, correlation, kind) {
        Ok(message) => Ok(Some(message)),
        Err(_) => Err(AllocError),
    }
}

/// Asks a child to reserve what the own record has pending, with the service where its id isn't known.
#[tactic(auto, unfolding(crate::specs::Asking::reserve_if, crate::specs::Asking::asked_view))]
fn ask_reserve(
    child: &mut ChildConnection,
    agent: &Name,
    own: &Record,
    correlation: Id,
) -> Result<Option<Message>, AllocError>
    ensures { let body = reserve_if own.now.pending own.now.service child.old in
        IsAskOf agent.now correlation KindValue.Reserve body child.old child.new result }
{
    let Some(criteria) = own.pending else {
        return Ok(None);
    };
    if child.open_request(Kind::Reserve).is_some() || child.source().is(child.dest()) {
        return Ok(None);
    }
    let version = Some(criteria.version);
    let start = criteria.interval.start();
    let end = criteria.interval.end();
    let service = service_for(child, &own.service);
    match child.ask_reserve(
        agent,
        correlation,
        version,
        start,
        end,
        criteria.capacity,
        service,
    ) {
        Ok(message) => Ok(Some(message)),
        Err(_) => Err(AllocError),
    }
}

/// A child whose id isn't known is told the service.
fn service_for<'a>(child: &ChildConnection, service: &'a Service) -> Option<&'a Service>
    ensures { option_copied result ≡ service_for child.now.connection service.now }
{
    match child.connection() {
        None => Some(service),
        Some(_) => None,
    }
}

/// Whether an abort has something to give back at a child.
#[tactic(auto, unfolding(crate::specs::Asking::may_abort))]
fn may_abort(phase: Phase) -> bool
    ensures { result ≡ may_abort phase }
{
    matches!(phase, Phase::Held | Phase::Failed | Phase::TimedOut)
}

/// Asks a child what a request passes on.
#[tactic(auto, unfolding(crate::specs::Asking::passed_on, crate::specs::Asking::asked_view))]
fn pass(
    child: &mut ChildConnection,
    agent: &Name,
    own: &Record,
    body: &Body,
    correlation: Id,
) -> Result<Option<Message>, AllocError>
    ensures { let passed = passed_on body.now own.now child.old in
        IsAskOf agent.now correlation (kind_of body.now) passed child.old child.new result }
{
    match body {
        Body::Reserve(_) => ask_reserve(child, agent, own, correlation),
        Body::ReserveCommit { .. } => ask_if(true, child, agent, Kind::ReserveCommit, correlation),
        Body::ReserveAbort { .. } => {
            let may_abort = may_abort(child.phase());
            ask_if(may_abort, child, agent, Kind::ReserveAbort, correlation)
        }
        Body::Provision { .. } => ask_if(true, child, agent, Kind::Provision, correlation),
        Body::Release { .. } => ask_if(true, child, agent, Kind::Release, correlation),
        Body::Terminate { .. } => ask_if(true, child, agent, Kind::Terminate, correlation),
        _ => Ok(None),
    }
}

/// The same under the next id.
fn pass_to(
    child: &mut ChildConnection,
    turning: &mut Turning,
    agent: &Agent,
    own: &Record,
    message: &Message,
) -> Result<(), AllocError>
    ensures { let one = pass_one message.now agent.now own.now turning.old.next child.old in
        IsAsked turning.old turning.new child.old child.new result one }
{
    let correlation = agent.id(turning.next)?;
    let request = pass(child, &agent.name, own, &message.body, correlation)?;
    turning.ask(request)
}

fn pass_at(
    children: &mut Vec<ChildConnection>,
    place: usize,
    turning: &mut Turning,
    agent: &Agent,
    own: &Record,
    message: &Message,
) -> Result<(), AllocError>
    requires { place < length children.old.items }
    ensures { let child = view_at place children.old.items in
        let one = pass_one message.now agent.now own.now turning.old.next child in
        IsAskedAt turning.old turning.new place children.old.items children.new.items result one }
{
    let child = &mut children[place];
    pass_to(child, turning, agent, own, message)
}

/// Passes a request on to the children, in the order of the segments. Where memory is wanting, some may have been
/// asked.
pub fn pass_all(
    children: &mut Vec<ChildConnection>,
    turning: &mut Turning,
    agent: &Agent,
    own: &Record,
    message: &Message,
) -> Result<(), AllocError>
    ensures { let next = turning.old.next in
        let all = pass_each message.now agent.now own.now next children.old.items in
        AreAsked turning.old turning.new children.new.items result all }
{
    for place in 0..children.len() {
        pass_at(children, place, turning, agent, own, message)?;
    }
    Ok(())
}
