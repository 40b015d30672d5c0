//! One line of a trace.

ghost use Rattle.std.specs.Prelude.{◌≡◌, ◌≤◌, ◌↔◌, ◌+◌, if◌then◌else◌, IfOk, OnOk, true, false};
ghost use Rattle.nsi_primitive.specs.declared.message.Parcel.{Parcel as Taken};
ghost use Rattle.trace_text.specs.Lines.{HasLine};
ghost use Rattle.trace_verify.specs.Lines.{is_closing};
ghost use Rattle.trace_verify.specs.Parcels.{IsDelivery, WasSaid, event_at};
ghost use Rattle.trace_verify.specs.Standing.{IsFollower, Throughout};
ghost use Rattle.trace_verify.specs.Steps.{Behind, HasFew, IsLineAlone, IsStep, step_of};
ghost use Rattle.trace_verify.specs.Traces.{HasAsk, most_asks};

use crate::follower::{Follower, is_ask};
use crate::lines::is_closing;
use crate::parcels::{Delivery, delivery_in};
use crate::verdict::Why;
use ask_text::laws::asks_are_read_again;
use json_primitives::laws::lines_are_read_again;
use nsi_base::{AgentNo, Second};
use nsi_primitive::{Entry, Event, Happening, Identity, Input, Parcel};
use std::alloc::{AllocError, Global};
use stp_topology::Topology;
use trace_reader::{EventFault, read_event};

/// What a line is behind those that were followed.
#[derive(Clone, Copy, Debug, PartialEq, Eq)]
pub enum Step {
    /// The line of an event, which has happened; so many asks came then.
    Event { asks: u32 },
    /// A line that ends a trace, whatever number it tells.
    Closing,
    Not(Why),
}

/// How many asks a trace has at most.
const MOST_ASKS: u32 = 100_000;

/// Follows one more line.
pub fn follow<'t>(
    alloc: Global,
    topology: &'t Topology,
    follower: &mut Follower<'t>,
    asks: u32,
    line: &[u8],
) -> Result<Step, AllocError>
    requires follower { IsFollower topology.now follower.old }
    requires few { asks ≤ most_asks }
    ensures follower { OnOk result (IsFollower topology.now follower.new) }
    ensures few { IfOk result (HasFew most_asks) }
    ensures step { Behind topology.now follower.old asks (λ homes es.
        IfOk result (IsStep topology.now homes es line.now follower.new)) }
{
    if is_closing(line) {
        return Ok(Step::Closing);
    }
    match delivery_in(alloc, topology, follower, line)? {
        Some(delivery) => follow_delivery(alloc, topology, follower, asks, line, delivery),
        None => follow_read(alloc, topology, follower, asks, line),
    }
}

/// Follows a line by which an agent takes a parcel.
fn follow_delivery<'t>(
    alloc: Global,
    topology: &'t Topology,
    follower: &mut Follower<'t>,
    asks: u32,
    line: &[u8],
    delivery: Delivery,
) -> Result<Step, AllocError>
    requires follower { IsFollower topology.now follower.old }
    requires few { asks ≤ most_asks }
    requires ends_none { is_closing line.now ≡ false }
    requires line { IsDelivery topology.now line.now delivery }
    requires said { Throughout topology.now follower.old (λ homes w.
        WasSaid homes w delivery.parcel) }
    ensures follower { OnOk result (IsFollower topology.now follower.new) }
    ensures few { IfOk result (HasFew most_asks) }
    ensures step { Behind topology.now follower.old asks (λ homes es.
        IfOk result (IsStep topology.now homes es line.now follower.new)) }
{
    asks_are_read_again();
    lines_are_read_again();
    topology.facts();
    let Delivery { agent, parcel } = delivery;
    match parcel {
        Parcel::Message(message) => {
            let is_allowed = follower.take_got(alloc, topology, agent, message)?;
            Ok(step_of(asks, is_allowed))
        }
        Parcel::Ack(identity) => {
            let event = acked(agent, follower.second(topology, agent), identity);
            let step = offer(alloc, topology, follower, asks, line, event)?;
            Ok(step)
        }
    }
}

/// An agent takes an acknowledgement.
fn acked(agent: AgentNo, second: Second, identity: Identity) -> Event
    ensures { result ≡ event_at second agent (Taken.Ack identity) }
{
    let input = Input::Acked(identity);
    Event {
        agent,
        what: Happening::Entry {
            entry: Entry { second, input },
            answer: None,
        },
    }
}

/// Reads one more line, and follows it.
fn follow_read<'t>(
    alloc: Global,
    topology: &'t Topology,
    follower: &mut Follower<'t>,
    asks: u32,
    line: &[u8],
) -> Result<Step, AllocError>
    requires follower { IsFollower topology.now follower.old }
    requires few { asks ≤ most_asks }
    requires ends_none { is_closing line.now ≡ false }
    ensures follower { OnOk result (IsFollower topology.now follower.new) }
    ensures few { IfOk result (HasFew most_asks) }
    ensures step { Behind topology.now follower.old asks (λ homes es.
        IfOk result (IsStep topology.now homes es line.now follower.new)) }
{
    let seconds = follower.seconds(alloc, topology)?;
    match read_event(alloc, topology, line, &seconds, asks) {
        Ok(event) => {
            let step = offer(alloc, topology, follower, asks, line, event)?;
            Ok(step)
        }
        Err(EventFault::NotAnEvent) => Ok(Step::Not(Why::Form)),
        Err(EventFault::NoMemory) => Err(AllocError),
    }
}

/// Takes an event, of which this is the line, where it may happen and isn't one ask too many.
fn offer<'t>(
    alloc: Global,
    topology: &'t Topology,
    follower: &mut Follower<'t>,
    asks: u32,
    line: &[u8],
    event: Event,
) -> Result<Step, AllocError>
    requires follower { IsFollower topology.now follower.old }
    requires few { asks ≤ most_asks }
    requires ends_none { is_closing line.now ≡ false }
    requires line { HasLine topology.now event }
    ensures follower { OnOk result (IsFollower topology.now follower.new) }
    ensures few { IfOk result (HasFew most_asks) }
    ensures step { Behind topology.now follower.old asks (λ homes es.
        IsLineAlone topology.now homes es line.now event →
        IfOk result (IsStep topology.now homes es line.now follower.new)) }
{
    topology.facts();
    let is_ask = has_ask(&event.what);
    if is_ask && asks == MOST_ASKS {
        let_go(event);
        return Ok(Step::Not(Why::Form));
    }
    let is_allowed = follower.take(alloc, topology, event)?;
    if is_allowed {
        Ok(Step::Event {
            asks: count_ask(asks, is_ask),
        })
    } else {
        Ok(Step::Not(Why::NotAllowed))
    }
}

/// What an event is that may happen, or may not, behind which so many asks came.
fn step_of(asks: u32, is_allowed: bool) -> Step
    ensures { result ≡ step_of asks is_allowed }
{
    if is_allowed {
        Step::Event { asks }
    } else {
        Step::Not(Why::NotAllowed)
    }
}

fn let_go(_event: Event) {}

/// So many asks, and one more where there is one.
fn count_ask(asks: u32, is_ask: bool) -> u32
    requires { asks ≤ most_asks }
    ensures { result ≡ (if is_ask then asks + 1 else asks) }
{
    if is_ask { asks + 1 } else { asks }
}

fn has_ask(what: &Happening) -> bool
    ensures { (result ≡ true) ↔ HasAsk what.now }
{
    match what {
        Happening::Entry { entry, .. } => is_ask(&entry.input),
        _ => false,
    }
}
