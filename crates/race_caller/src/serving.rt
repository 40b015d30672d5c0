//! A caller asks, call after call.

ghost use Rattle.std.specs.Prelude.{◌≡◌, ◌≤◌, ◌<◌, ◌+◌, ◌==◌, ◌∷◌, [], ℕ, List, All, IfOk, OnOk, IfSome, IfNone, Option, Some, length, true, false};
ghost use Rattle.nsi_primitive.specs.Printable.{IsPrintable, IsPrintableAsk};
ghost use Rattle.requester_agent.specs.Setting.{IsRequester};
ghost use Rattle.race_run.specs.Compared.{AllStand};
ghost use Rattle.race_run.specs.declared.item.Item.{Item as AnItem};
ghost use Rattle.shared_provider.specs.Book.{Book as ABook};
ghost use Rattle.sole_requester.specs.Sole.{first_named, named_by};
ghost use Rattle.race_caller.specs.Plays.{IsOwn, HasEnd, is_work_by};
ghost use Rattle.race_caller.specs.Handed.{HandsOver};
ghost use Rattle.race_caller.specs.Askers.{IsAsker, IsAnswer, HasHeard, HasFollowed, HasAsked, HasPlayed};
ghost use Rattle.race_caller.specs.Alone.{IsAlone, IsNewRequest, IsReadyFor, EndsTo, EndsAlone, EndsOwn, idle, sending, waiting, answered, worked, heard_items, done_items};
ghost use Rattle.race_run.specs.Scripts.{ask_by, asks_by, AreAsks, IsPrintableAct};

use crate::asker::{Asker, Sent};
use crate::desk::{Answer, Desk, DoneWork, Work};
use crate::locked::{Door, Gate, LockedDesk};
use journal_entry::Journal;
use nsi_base::{AgentNo, List, Second};
use nsi_primitive::{Ask, Id, Message};
use nsi_script::Act;
use race_run::{Call, Item};
use shared_provider::Pass;
use std::alloc::{AllocError, Global};
use std::sync::Wait;
use stp_topology::Topology;

/// A caller, and its number among the callers.
#[derive(Clone, Copy, Debug, PartialEq, Eq)]
pub struct Job {
    pub call: Call,
    pub number: u16,
}

/// The first connection that the messages name.
fn first_named(messages: &[Message]) -> Option<Id>
    ensures { result ≡ first_named messages.now }
{
    for message in messages {
        if let Some(connection) = message.body.named_connection() {
            return Some(connection);
        }
    }
    None
}

/// The connection of a request, or the first that the messages name.
fn connection_of(request: &Message, messages: &[Message]) -> Option<Id>
    ensures { result ≡ named_by request.now.body messages.now }
{
    match request.body.connection() {
        Some(connection) => Some(connection),
        None => first_named(messages),
    }
}

fn let_go(request: Message) {
    drop(request);
}

/// Takes what work causes that was done. Whether the caller goes on.
#[tactic(auto, using(crate::proofs::Asking::not_heard))]
fn hear_work(
    alloc: Global,
    topology: &Topology,
    asker: &mut Asker,
    done: DoneWork,
) -> Result<bool, AllocError>
    requires is { IsAsker topology.now asker.old }
    requires printable { All IsPrintable done.messages.items }
    ensures heard { IfOk result (HasHeard topology.now asker.old asker.new) }
    ensures alone { (first : List AnItem) (j works : ℕ) (at : Option ℕ) (b : ABook) →
        is_work_by asker.old.call.provider done.event ≡ true →
        IsAlone topology.now first (worked j works at (done_items asker.old done)) b asker.old →
        IfOk result (EndsTo topology.now first (waiting j works at) b asker.new) }
{
    let DoneWork {
        place,
        event,
        messages,
    } = done;
    let on = asker.keep_work(topology, place, event)?;
    if !on {
        return Ok(false);
    }
    let to_end = asker.hear_all(alloc, topology, place, messages)?;
    Ok(to_end)
}

/// Has the work done that waits on a connection. A request leaves one piece at most, so none is asked for behind it. Whether
/// the caller goes on.
#[tactic(auto, using(crate::proofs::Asking::heard_as))]
fn do_work<D: Desk>(
    alloc: Global,
    topology: &Topology,
    desk: &mut D,
    asker: &mut Asker,
    connection: Id,
) -> Result<bool, AllocError>
    requires is { IsAsker topology.now asker.old }
    ensures heard { IfOk result (HasHeard topology.now asker.old asker.new) }
    ensures alone { (first : List AnItem) (j : ℕ) (b : ABook) → D.book desk.old ≡ Some b →
        IsAlone topology.now first (waiting j 1 (Some connection)) b asker.old →
        IfOk result (EndsAlone topology.now first (idle j) (D.book desk.new) asker.new) }
{
    match desk.have_done(alloc, connection)? {
        Work::Idle => Ok(true),
        Work::Refused => Ok(false),
        Work::Done(done) => {
            let on = hear_work(alloc, topology, asker, done)?;
            Ok(on)
        }
    }
}

/// Hands a request to the provider, and takes all that it causes. Whether the caller goes on.
#[tactic(auto, using(crate::proofs::Asking::followed, crate::proofs::Asking::not_followed))]
fn follow<D: Desk>(
    alloc: Global,
    topology: &Topology,
    desk: &mut D,
    asker: &mut Asker,
    request: &Message,
) -> Result<bool, AllocError>
    requires is { IsAsker topology.now asker.old }
    requires printable { IsPrintable request.now }
    ensures followed { IfOk result (HasFollowed topology.now request.now asker.old asker.new) }
    ensures alone { (first : List AnItem) (j : ℕ) (b : ABook) → D.book desk.old ≡ Some b →
        IsAlone topology.now first (sending j) b asker.old → IsNewRequest b asker.old request.now →
        IfOk result (EndsAlone topology.now first (idle j) (D.book desk.new) asker.new) }
{
    let handed = desk.hand(alloc, request)?;
    let Some(answer) = handed else {
        return Ok(false);
    };
    let connection = connection_of(request, &answer.messages);
    asker.keep_request(topology, answer.place, request)?;
    let on = hear_through(alloc, topology, desk, asker, answer, connection)?;
    Ok(on)
}

/// Takes messages, and what the work causes that waits on a connection. Whether the caller goes on.
#[tactic(auto, using(crate::proofs::Asking::not_heard))]
fn hear_through<D: Desk>(
    alloc: Global,
    topology: &Topology,
    desk: &mut D,
    asker: &mut Asker,
    answer: Answer,
    connection: Option<Id>,
) -> Result<bool, AllocError>
    requires is { IsAsker topology.now asker.old }
    requires printable { IsAnswer answer }
    ensures heard { IfOk result (HasHeard topology.now asker.old asker.new) }
    ensures alone { (first : List AnItem) (j : ℕ) (b : ABook) → D.book desk.old ≡ Some b →
        IsAlone topology.now first (answered j connection
        (heard_items asker.old answer.place answer.messages.items)) b asker.old →
        IfOk result (EndsAlone topology.now first (idle j) (D.book desk.new) asker.new) }
{
    let Answer { place, messages } = answer;
    let on = asker.hear_all(alloc, topology, place, messages)?;
    if !on {
        return Ok(false);
    }
    let to_end = work_on(alloc, topology, desk, asker, connection)?;
    Ok(to_end)
}

/// Has the work done that waits on a connection, where there is one. Whether the caller goes on.
fn work_on<D: Desk>(
    alloc: Global,
    topology: &Topology,
    desk: &mut D,
    asker: &mut Asker,
    connection: Option<Id>,
) -> Result<bool, AllocError>
    requires is { IsAsker topology.now asker.old }
    ensures heard { IfOk result (HasHeard topology.now asker.old asker.new) }
    ensures alone { (first : List AnItem) (j : ℕ) (b : ABook) → D.book desk.old ≡ Some b →
        IsAlone topology.now first (waiting j 1 connection) b asker.old →
        IfOk result (EndsAlone topology.now first (idle j) (D.book desk.new) asker.new) }
{
    match connection {
        Some(connection) => do_work(alloc, topology, desk, asker, connection),
        None => Ok(true),
    }
}

/// Asks once. Whether the caller goes on.
fn ask_once<D: Desk>(
    alloc: Global,
    topology: &Topology,
    desk: &mut D,
    asker: &mut Asker,
    ask: &Ask,
) -> Result<bool, AllocError>
    requires is { IsAsker topology.now asker.old }
    requires printable { IsPrintableAsk ask.now }
    ensures asked { IfOk result (HasAsked topology.now ask.now asker.old asker.new) }
    ensures alone { (first : List AnItem) (j : ℕ) (b : ABook) → D.book desk.old ≡ Some b →
        IsAlone topology.now first (idle (j + 1)) b asker.old →
        IfOk result (EndsAlone topology.now first (idle j) (D.book desk.new) asker.new) }
{
    let sent = asker.send(alloc, topology, ask)?;
    match sent {
        Sent::Full => Ok(false),
        Sent::Nothing => Ok(true),
        Sent::Request(request) => {
            let on = follow(alloc, topology, desk, asker, &request);
            let_go(request);
            on
        }
    }
}

/// The ask of an act, where it is the agent's.
fn ask_of(agent: AgentNo, act: &Act) -> Option<&Ask>
    requires { IsPrintableAct act.now }
    ensures own { IfSome result (λ ask. ask_by agent act.now ≡ ask.now ∷ []) }
    ensures none { IfNone result (ask_by agent act.now ≡ []) }
    ensures printable { IfSome result (λ ask. IsPrintableAsk ask.now) }
{
    match act {
        Act::Ask { agent: own, ask } => { if *own == agent { Some(ask) } else { None } }
        Act::Force { .. } => None,
        Act::Restart(_) => None,
    }
}

/// Asks, where an act is an ask of the caller. Whether it goes on.
fn act_once<D: Desk>(
    alloc: Global,
    topology: &Topology,
    desk: &mut D,
    asker: &mut Asker,
    act: &Act,
) -> Result<bool, AllocError>
    requires is { IsAsker topology.now asker.old }
    requires printable { IsPrintableAct act.now }
    ensures played { IfOk result (HasPlayed topology.now
        (ask_by asker.old.call.agent act.now) asker.old asker.new) }
    ensures alone { (first : List AnItem) (j : ℕ) (b : ABook) → D.book desk.old ≡ Some b →
        IsAlone topology.now first
        (idle (j + length (ask_by asker.old.call.agent act.now))) b asker.old →
        IfOk result (EndsAlone topology.now first (idle j) (D.book desk.new) asker.new) }
{
    match ask_of(asker.call.agent, act) {
        Some(ask) => ask_once(alloc, topology, desk, asker, ask),
        None => Ok(true),
    }
}

/// Asks all that the caller is to ask, in order. Whether it came to the end.
fn all_acts<D: Desk>(
    alloc: Global,
    topology: &Topology,
    desk: &mut D,
    asker: &mut Asker,
    acts: &[Act],
) -> Result<bool, AllocError>
    requires is { IsAsker topology.now asker.old }
    requires printable { AreAsks acts.now }
    ensures played { IfOk result (HasPlayed topology.now
        (asks_by asker.old.call.agent acts.now) asker.old asker.new) }
    ensures alone { (first : List AnItem) (b : ABook) → D.book desk.old ≡ Some b →
        IsAlone topology.now first
        (idle (length (asks_by asker.old.call.agent acts.now))) b asker.old →
        IfOk result (EndsAlone topology.now first (idle 0) (D.book desk.new) asker.new) }
{
    for act in acts {
        let on = act_once(alloc, topology, desk, asker, act)?;
        if !on {
            return Ok(false);
        }
    }
    Ok(true)
}

/// What a caller kept.
fn kept_of(asker: Asker) -> List<Item>
    ensures { result ≡ asker.kept }
{
    let Asker {
        call: _,
        requester,
        kept,
        last,
    } = asker;
    drop(requester);
    drop(last);
    kept
}

/// What a caller hands over that ends early.
fn ended(topology: &Topology, asker: Asker) -> Result<List<Item>, AllocError>
    requires is { IsAsker topology.now asker }
    ensures ended { IfOk result HasEnd }
    ensures stand { IfOk result (AllStand topology.now) }
{
    let mut asker = asker;
    let done = asker.end(topology);
    let kept = kept_of(asker);
    done?;
    Ok(kept)
}

/// What a caller hands over, which came to its end or didn't.
fn hand_over(
    topology: &Topology,
    asker: Asker,
    played: Result<bool, AllocError>,
) -> Result<List<Item>, AllocError>
    requires { OnOk played (IsAsker topology.now asker) }
    ensures hands { IfOk result (HandsOver asker played) }
    ensures stand { IfOk result (AllStand topology.now) }
{
    match played {
        Ok(true) => Ok(kept_of(asker)),
        Ok(false) => ended(topology, asker),
        Err(error) => {
            let _kept = kept_of(asker);
            Err(error)
        }
    }
}

/// What a caller keeps: what its requester does, or a list with an item that no history has.
pub fn served_by<D: Desk>(
    alloc: Global,
    topology: &Topology,
    desk: &mut D,
    call: Call,
    start: Option<Second>,
    acts: &[Act],
) -> Result<List<Item>, AllocError>
    requires agent { call.agent < length topology.now.agents }
    requires provider { call.provider < length topology.now.agents }
    requires requester { IsRequester topology.now call.agent }
    requires apart { (call.provider == call.agent) ≡ false }
    requires printable { AreAsks acts.now }
    ensures own { IfOk result (IsOwn topology.now call start (asks_by call.agent acts.now)) }
    ensures stand { IfOk result (AllStand topology.now) }
    ensures alone { (first : List AnItem) (b : ABook) → D.book desk.old ≡ Some b →
        IsReadyFor topology.now first call start (length (asks_by call.agent acts.now)) b →
        IfOk result (EndsOwn topology.now first call (D.book desk.new)) }
{
    let mut asker = Asker::new(alloc, topology, call, start)?;
    let played = all_acts(alloc, topology, desk, &mut asker, acts);
    hand_over(topology, asker, played)
}

/// What a caller of a provider behind a lock keeps: what its requester does, or a list with an item that no history has.
pub fn served<R: Wait, J: Journal + Drop, G: Gate>(
    door: &Door<'_, R, J, G>,
    pass: &mut Pass,
    job: Job,
    start: Option<Second>,
    acts: &[Act],
) -> Result<List<Item>, AllocError>
    requires mark { pass.old.mark ≡ door.now.shared.now }
    requires agent { job.call.agent < length door.now.topology.now.agents }
    requires provider { job.call.provider < length door.now.topology.now.agents }
    requires requester { IsRequester door.now.topology.now job.call.agent }
    requires apart { (job.call.provider == job.call.agent) ≡ false }
    requires printable { AreAsks acts.now }
    ensures mark { pass.new.mark ≡ door.now.shared.now }
    ensures own { IfOk result (IsOwn door.now.topology.now job.call start
        (asks_by job.call.agent acts.now)) }
    ensures stand { IfOk result (AllStand door.now.topology.now) }
{
    let mut desk = LockedDesk {
        door,
        pass: door.shared.split(pass),
        caller: job.number,
        calls: 0,
    };
    served_by(door.alloc, door.topology, &mut desk, job.call, start, acts)
}
