//! An agent takes entries, or leaves out those that it doesn't take.

ghost use Rattle.std.specs.Prelude.{◌≡◌, ◌<◌, ◌++◌, drop, length, Some, IfOk, OnOk};
ghost use Rattle.std.specs.List.{All};
ghost use Rattle.nsi_primitive.specs.Printable.{IsPrintable, IsPrintableEntry, is_ask};
ghost use Rattle.agent_state.specs.Entries.{is_on_time};
ghost use Rattle.nsi_agent.specs.Steps.{after, may_take};
ghost use Rattle.nsi_agent.specs.Told.{behind, goes_on, told};
ghost use Rattle.followed_agent.specs.Kept.{At, telling};

use nsi_agent::Agent;
use nsi_agent::laws::every_entry;
use nsi_base::{AgentNo, Second};
use nsi_primitive::{AskAnswer, Entry, Input, Message};
use std::alloc::{AllocError, Global};
use std::mem;
use stp_topology::{AgentKind, Topology};

fn is_ask(input: &Input) -> bool
    ensures { result ≡ is_ask input.now }
{
    matches!(input, Input::Ask { .. })
}

/// Whether an input may come at a second, where the clock stands at another.
fn is_on_time(input: &Input, second: Second, now: Second) -> bool
    ensures { result ≡ is_on_time input.now second now }
{
    match input {
        Input::Tick => now <= second,
        _ => second == now,
    }
}

/// Whether an agent of that kind takes an entry now: asks are a requester's.
#[tactic(auto, using(crate::proofs::Taking::may_by_parts))]
fn may_take(kind: AgentKind, agent: &Agent<'_>, entry: &Entry) -> bool
    ensures { result ≡ may_take (Some kind) agent.now.state entry.now }
{
    let is_served = matches!(kind, AgentKind::Requester { .. }) || !is_ask(&entry.input);
    agent.taken() < 4_194_304 && is_served && is_on_time(&entry.input, entry.second, agent.now())
}

/// Takes an entry, which changes nothing where the agent doesn't take it.
fn take_entry(
    alloc: Global,
    topology: &Topology,
    agent: &mut Agent<'_>,
    entry: &Entry,
) -> Result<(Option<AskAnswer>, Vec<Message>), AllocError>
    requires network { topology.now ≡ agent.old.network }
    requires printable { IsPrintableEntry entry.now }
    ensures network { agent.new.network ≡ agent.old.network }
    ensures number { agent.new.number ≡ agent.old.number }
    ensures state { At agent.old.network agent.old.number
        (λ h. OnOk result (agent.new.state ≡ (after h agent.old.state entry.now).state)) }
    ensures answer { At agent.old.network agent.old.number
        (λ h. IfOk result (λ r. r.0 ≡ (after h agent.old.state entry.now).answer)) }
    ensures out { At agent.old.network agent.old.number
        (λ h. IfOk result (λ r. r.1.items ≡ (after h agent.old.state entry.now).out)) }
    ensures printable { IfOk result (λ r. All IsPrintable r.1.items) }
{
    every_entry();
    agent.facts();
    if may_take(topology.kind(agent.number()), agent, entry) {
        let taken = agent.next(alloc, entry)?;
        Ok(taken)
    } else {
        Ok((None, Vec::new(alloc)))
    }
}

/// Takes an entry, and puts what it causes behind other messages.
pub fn take_one(
    alloc: Global,
    topology: &Topology,
    agent: &mut Agent<'_>,
    entry: &Entry,
    out: &mut Vec<Message>,
) -> Result<Option<AskAnswer>, AllocError>
    requires network { topology.now ≡ agent.old.network }
    requires printable { IsPrintableEntry entry.now }
    requires out { All IsPrintable out.old.items }
    ensures network { agent.new.network ≡ agent.old.network }
    ensures number { agent.new.number ≡ agent.old.number }
    ensures state { At agent.old.network agent.old.number
        (λ h. OnOk result (agent.new.state ≡ (after h agent.old.state entry.now).state)) }
    ensures out { At agent.old.network agent.old.number (λ h.
        OnOk result (out.new.items ≡ out.old.items ++ (after h agent.old.state entry.now).out)) }
    ensures answer { At agent.old.network agent.old.number
        (λ h. IfOk result (λ answer. answer ≡ (after h agent.old.state entry.now).answer)) }
    ensures printable { OnOk result (All IsPrintable out.new.items) }
{
    let (answer, mut caused) = take_entry(alloc, topology, agent, entry)?;
    out.append(&mut caused)?;
    Ok(answer)
}

/// Takes entries, one after another, and puts what they cause behind other messages.
fn take_all(
    alloc: Global,
    topology: &Topology,
    agent: &mut Agent<'_>,
    entries: &[Entry],
    out: &mut Vec<Message>,
) -> Result<(), AllocError>
    requires network { topology.now ≡ agent.old.network }
    requires printable { All IsPrintableEntry entries.now }
    requires out { All IsPrintable out.old.items }
    ensures network { agent.new.network ≡ agent.old.network }
    ensures number { agent.new.number ≡ agent.old.number }
    ensures told { At agent.old.network agent.old.number (λ h.
        OnOk result (telling agent.new.state out.new.items
        ≡ behind out.old.items (goes_on h agent.old.state entries.now))) }
    ensures printable { OnOk result (All IsPrintable out.new.items) }
{
    for entry in entries {
        take_one(alloc, topology, agent, entry, out)?;
    }
    Ok(())
}

fn let_go(agent: Agent<'_>) {
    drop(agent);
}

/// The agent of that number, which has taken these entries; what they cause is put behind other messages.
pub fn fold<'t>(
    alloc: Global,
    topology: &'t Topology,
    number: AgentNo,
    entries: &[Entry],
    out: &mut Vec<Message>,
) -> Result<Agent<'t>, AllocError>
    requires within { number < length topology.now.agents }
    requires printable { All IsPrintableEntry entries.now }
    requires out { All IsPrintable out.old.items }
    ensures network { IfOk result (λ a. a.network ≡ topology.now) }
    ensures number { IfOk result (λ a. a.number ≡ number) }
    ensures told { At topology.now number (λ h. IfOk result (λ a.
        telling a.state out.new.items ≡ behind out.old.items (told h entries.now))) }
    ensures printable { OnOk result (All IsPrintable out.new.items) }
{
    let mut agent = Agent::new(alloc, topology, number)?;
    match take_all(alloc, topology, &mut agent, entries, out) {
        Ok(()) => Ok(agent),
        Err(error) => {
            let_go(agent);
            Err(error)
        }
    }
}

/// Puts an agent in the place of another one.
pub fn put<'t>(place: &mut Agent<'t>, agent: Agent<'t>)
    ensures { place.new ≡ agent.entry }
{
    let_go(mem::replace(place, agent));
}

/// Leaves out the first so many messages.
pub fn leave_out(messages: &mut Vec<Message>, count: usize) -> Result<(), AllocError>
    ensures { OnOk result (messages.new.items ≡ drop count messages.old.items) }
{
    let rest = messages.split_off(count.min(messages.len()))?;
    *messages = rest;
    Ok(())
}
