//! An agent takes the entries of a journal again.

ghost use Rattle.std.specs.Prelude.{◌≡◌, ◌<◌, length, Some, IfOk, OnOk};
ghost use Rattle.std.specs.List.{All};
ghost use Rattle.nsi_primitive.specs.Printable.{IsPrintable, IsPrintableEntry};
ghost use Rattle.agent_state.specs.Entries.{is_on_time};
ghost use Rattle.nsi_agent.specs.Steps.{after, may_take};
ghost use Rattle.nsi_agent.specs.Told.{goes_on, told};
ghost use Rattle.agent_node.specs.Seated.{At, is_for};

use nsi_agent::Agent;
use nsi_agent::laws::every_entry;
use nsi_base::{AgentNo, Second};
use nsi_primitive::{Entry, Input, Message};
use std::alloc::{AllocError, Global};
use std::mem;
use stp_topology::{AgentKind, Topology};

/// Whether an agent of that kind takes such an input: asks are a requester's.
fn is_for(kind: AgentKind, input: &Input) -> bool
    ensures { result ≡ is_for (Some kind) input.now }
{
    match kind {
        AgentKind::Requester { .. } => true,
        AgentKind::Provider { .. } | AgentKind::Aggregator => !matches!(input, Input::Ask { .. }),
    }
}

/// Whether an input may come at a second, where the clock stands at another.
fn is_on_time(input: &Input, second: Second, now: Second) -> bool
    ensures { result ≡ is_on_time input.now second now }
{
    match input {
        Input::Tick => now <= second,
        _ => second == now,
    }
}

/// Whether an agent of that kind takes an entry now.
#[tactic(auto, using(crate::proofs::Allowed::may_by_parts))]
fn may_take(kind: AgentKind, agent: &Agent<'_>, entry: &Entry) -> bool
    ensures { result ≡ may_take (Some kind) agent.now.state entry.now }
{
    agent.taken() < 4_194_304
        && is_for(kind, &entry.input)
        && is_on_time(&entry.input, entry.second, agent.now())
}

/// Takes an entry of a journal. One that it doesn't take changes nothing.
fn read_one(
    alloc: Global,
    topology: &Topology,
    agent: &mut Agent<'_>,
    entry: &Entry,
) -> Result<(), AllocError>
    requires network { topology.now ≡ agent.old.network }
    requires printable { IsPrintableEntry entry.now }
    ensures network { agent.new.network ≡ agent.old.network }
    ensures number { agent.new.number ≡ agent.old.number }
    ensures state { At agent.old.network agent.old.number
        (λ h. OnOk result (agent.new.state ≡ (after h agent.old.state entry.now).state)) }
{
    every_entry();
    agent.facts();
    if may_take(topology.kind(agent.number()), agent, entry) {
        agent.next(alloc, entry)?;
    }
    Ok(())
}

/// Takes the entries of a journal, one after another. What they cause isn't said again.
fn read_each(
    alloc: Global,
    topology: &Topology,
    agent: &mut Agent<'_>,
    entries: &[Entry],
) -> Result<(), AllocError>
    requires network { topology.now ≡ agent.old.network }
    requires printable { All IsPrintableEntry entries.now }
    ensures network { agent.new.network ≡ agent.old.network }
    ensures number { agent.new.number ≡ agent.old.number }
    ensures state { At agent.old.network agent.old.number (λ h.
        OnOk result (agent.new.state ≡ (goes_on h agent.old.state entries.now).state)) }
{
    for entry in entries {
        read_one(alloc, topology, agent, entry)?;
    }
    Ok(())
}

fn let_go(agent: Agent<'_>) {
    drop(agent);
}

/// Puts another agent in the place of one, which is let go.
pub fn renew<'t>(place: &mut Agent<'t>, agent: Agent<'t>)
    ensures { place.new ≡ agent.entry }
{
    let_go(mem::replace(place, agent));
}

/// The agent of that number, which has taken these entries.
pub fn read_all<'t>(
    alloc: Global,
    topology: &'t Topology,
    number: AgentNo,
    entries: &[Entry],
) -> Result<Agent<'t>, AllocError>
    requires within { number < length topology.now.agents }
    requires printable { All IsPrintableEntry entries.now }
    ensures network { IfOk result (λ a. a.network ≡ topology.now) }
    ensures number { IfOk result (λ a. a.number ≡ number) }
    ensures state { At topology.now number
        (λ h. IfOk result (λ a. a.state ≡ (told h entries.now).state)) }
{
    let mut agent = Agent::new(alloc, topology, number)?;
    match read_each(alloc, topology, &mut agent, entries) {
        Ok(()) => Ok(agent),
        Err(error) => {
            let_go(agent);
            Err(error)
        }
    }
}

/// The messages that wait for their acknowledgement, in the order in which they were caused.
pub fn copy_waiting(alloc: Global, agent: &Agent<'_>) -> Result<Vec<Message>, AllocError>
    ensures all { IfOk result (λ copies. copies.items ≡ agent.now.state.base.waiting) }
    ensures printable { IfOk result (λ copies. All IsPrintable copies.items) }
{
    agent.facts();
    let mut copies = Vec::new(alloc);
    for message in agent.waiting() {
        copies.push(message.copy()?)?;
    }
    Ok(copies)
}
