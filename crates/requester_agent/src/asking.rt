//! How a view is asked, and how what can't be kept is taken back.

ghost use Rattle.std.specs.Prelude.{◌≡◌, ◌++◌, ◌∷◌, [], true, false, None, Some, Err, IfOk, IfErr, IfSome, IfNone, OnOk, OnErr};
ghost use Rattle.std.specs.Str.{bytes_eq};
ghost use Rattle.nsi_primitive.specs.declared.kind.Kind.{Kind as K};
ghost use Rattle.nsi_primitive.specs.declared.ask.AskAnswer.{AskAnswer as Answer};
ghost use Rattle.child_connection.specs.declared.state.AskFault.{AskFault as Fault};
ghost use Rattle.child_connection.specs.Views.{ChildConnection as Child, open_request};
ghost use Rattle.child_connection.specs.Asks.{asks, to_child};
ghost use Rattle.child_connection.specs.Refusals.{is_about, ask_refusal, reserve_refusal};
ghost use Rattle.child_connection.specs.Later.{saved_of, IsLater};
ghost use Rattle.requester_agent.specs.Views.{answer_to, refused, sent_as, asks_if_free, asks_if_known, asks_about, service_between, service_if, reserve_of, asks_reserve};
ghost use Rattle.requester_agent.specs.Step.{IsAsked};

use agent_state::View;
use child_connection::{AskFault, ChildConnection, Savepoint};
use message_retry::Retry;
use nsi_base::Name;
use nsi_primitive::{AskAnswer, Directionality, Id, Kind, Message, ReserveAsk, Service};
use std::alloc::{AllocError, Global};

/// Asks a view's child about the connection. What is sent waits for its acknowledgement.
#[tactic(auto, unfolding(crate::specs::Views::asks_if_known, crate::specs::Views::asks_if_free, child_connection::specs::Refusals::ask_refusal))]
pub fn ask_about(
    alloc: Global,
    view: &mut View,
    retry: &mut Retry,
    parent: &Name,
    correlation: Id,
    kind: Kind,
) -> Result<(AskAnswer, Vec<Message>), AllocError>
    requires { is_about kind ≡ true }
    ensures { IsAsked view.old view.new retry.old retry.new result
        (asks_about parent.now correlation kind view.old.child) }
{
    let saved = view.child.save();
    match view.child.ask(parent, correlation, kind) {
        Ok(message) => send(alloc, view, &saved, retry, message),
        Err(fault) => refuse(alloc, fault),
    }
}

/// Asks a view's child to reserve. What is sent waits for its acknowledgement.
#[tactic(auto, unfolding(crate::specs::Views::asks_if_free))]
pub fn ask_reserve(
    alloc: Global,
    view: &mut View,
    retry: &mut Retry,
    parent: &Name,
    correlation: Id,
    q: &ReserveAsk,
) -> Result<(AskAnswer, Vec<Message>), AllocError>
    requires { bytes_eq view.old.child.source view.old.child.dest ≡ false }
    ensures { IsAsked view.old view.new retry.old retry.new result
        (asks_reserve parent.now correlation q.now view.old.child) }
{
    if let Some(open) = view.child.open_request(Kind::Reserve) {
        return Ok((AskAnswer::Outstanding(open.correlation), Vec::new(alloc)));
    }
    let saved = view.child.save();
    let message = reserve(&mut view.child, parent, correlation, q)?;
    send(alloc, view, &saved, retry, message)
}

/// A child whose reservation machine is free is asked to reserve: what is known is modified.
#[tactic(auto, unfolding(child_connection::specs::Refusals::reserve_refusal, child_connection::specs::Views::open_request))]
fn reserve(
    child: &mut ChildConnection,
    parent: &Name,
    correlation: Id,
    q: &ReserveAsk,
) -> Result<Message, AllocError>
    requires apart { bytes_eq child.old.source child.old.dest ≡ false }
    requires free { open_request K.Reserve child.old ≡ None }
    ensures message { IfOk result
        (λ m. m ≡ to_child parent.now correlation child.old (reserve_of q.now child.old)) }
    ensures asked { OnOk result (child.new ≡ asks K.Reserve correlation child.old) }
    ensures later { IsLater child.old child.new }
    ensures kept { OnErr result (child.new ≡ child.old) }
{
    let (version, start, end) = (q.version, q.start, q.end);
    let asked = match child.connection() {
        Some(_) => child.ask_reserve(parent, correlation, version, start, end, q.capacity, None),
        None => {
            let service = service_between(child, q.directionality)?;
            child.ask_reserve(
                parent,
                correlation,
                version,
                start,
                end,
                q.capacity,
                Some(&service),
            )
        }
    };
    asked.map_err(|_fault| AllocError)
}

/// A requester asks between the view's points, in the directions that its user asks for.
fn service_between(
    child: &ChildConnection,
    directionality: Directionality,
) -> Result<Service, AllocError>
    ensures { IfOk result (λ s. s ≡ service_between directionality child.now) }
{
    Ok(Service {
        source: child.source().copy()?,
        dest: child.dest().copy()?,
        directionality,
        symmetric: None,
        global: None,
        description: None,
    })
}

/// What was asked waits for its acknowledgement. Where memory is wanting, the ask is taken back.
fn send(
    alloc: Global,
    view: &mut View,
    saved: &Savepoint,
    retry: &mut Retry,
    message: Message,
) -> Result<(AskAnswer, Vec<Message>), AllocError>
    ensures answer { IfOk result (λ r. r.0 ≡ Answer.Sent) }
    ensures out { IfOk result (λ r. r.1.items ≡ message ∷ []) }
    ensures waits { OnOk result
        (retry.new ≡ record retry.old { waiting = retry.old.waiting ++ message ∷ [] }) }
    ensures asked { OnOk result (view.new ≡ view.old) }
    ensures taken_back { OnErr result ((x : Child) → saved.now ≡ saved_of x →
        IsLater x view.old.child → view.new ≡ record view.old { child = x }) }
    ensures unsaid { OnErr result (retry.new ≡ retry.old) }
{
    match keep(alloc, retry, message) {
        Ok(out) => Ok((AskAnswer::Sent, out)),
        Err(error) => {
            view.child.restore(saved);
            Err(error)
        }
    }
}

/// The message alone, a copy of which waits.
pub fn keep(alloc: Global, retry: &mut Retry, message: Message) -> Result<Vec<Message>, AllocError>
    ensures out { IfOk result (λ out. out.items ≡ message ∷ []) }
    ensures waits { OnOk result
        (retry.new ≡ record retry.old { waiting = retry.old.waiting ++ message ∷ [] }) }
    ensures unsaid { OnErr result (retry.new ≡ retry.old) }
{
    let mut out = Vec::new(alloc);
    out.push(message)?;
    retry.store(alloc, &out)?;
    Ok(out)
}

/// The answer to an ask that is refused.
fn refuse(alloc: Global, fault: AskFault) -> Result<(AskAnswer, Vec<Message>), AllocError>
    ensures out { IfOk result (λ r. r.1.items ≡ []) }
    ensures answer { IfSome (answer_to fault) (λ answer. IfOk result (λ r. r.0 ≡ answer)) }
    ensures answered { IfSome (answer_to fault) (λ answer. OnErr result ⊥) }
    ensures memory { IfNone (answer_to fault) (OnOk result ⊥) }
{
    match fault {
        AskFault::NoId => Ok((AskAnswer::NoId, Vec::new(alloc))),
        AskFault::Outstanding(open) => Ok((AskAnswer::Outstanding(open), Vec::new(alloc))),
        AskFault::NoMemory => Err(AllocError),
    }
}
