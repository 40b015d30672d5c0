//! The requesters of a provider that nobody shares, of whom one at most is asked.

ghost use Rattle.std.specs.Prelude.{◌≡◌, ◌==◌, ◌≤◌, ◌<◌, ◌+◌, ◌++◌, [], All, Some, true, option_to_list, length, IfOk, IfSome, IfNone, OnOk};
ghost use Rattle.std.specs.List.{list_all};
ghost use Rattle.stp_topology.specs.Sound.{IsProvider};
ghost use Rattle.race_run.specs.Compared.{AllStand};
ghost use Rattle.race_run.specs.Found.{is_caller};
ghost use Rattle.race_run.specs.Scripts.{AreAsks, asks_by};
ghost use Rattle.race_caller.specs.Plays.{IsOwn};
ghost use Rattle.race_judging.specs.Pairs.{second_of};
ghost use Rattle.race_threads.specs.Raced.{AreKept, AreOfOne, IsAskTo, begun_book, call_of};
ghost use Rattle.race_threads.specs.Alone.{is_ask_of, first_asked, IsOneOf};
ghost use Rattle.race_threads.specs.Serving.{IsServedOne, IsServedAgent, EndsSame};

use crate::callers::{Race, agent_at};
use nsi_base::{AgentNo, List};
use nsi_script::Act;
use race_caller::{Desk, served_by};
use race_judging::{Own, second_of};
use race_run::{Call, Item, is_caller};
use std::alloc::{AllocError, Global};
use stp_topology::Topology;

/// So many asks a script has at most.
const MOST_ASKS: usize = 100_000;

fn is_ask_of(agent: AgentNo, act: &Act) -> bool
    ensures { result ≡ is_ask_of agent act.now }
{
    match act {
        Act::Ask { agent: own, ask: _ } => *own == agent,
        Act::Force { .. } => false,
        Act::Restart(_) => false,
    }
}

/// Whom the first act asks. Where there is no act, it is the one that is given.
fn first_asked(acts: &[Act], given: AgentNo) -> Option<AgentNo>
    ensures { result ≡ first_asked given acts.now }
{
    match acts.first() {
        Some(Act::Ask { agent, ask: _ }) => Some(*agent),
        Some(Act::Force { .. }) => None,
        Some(Act::Restart(_)) => None,
        None => Some(given),
    }
}

/// Whether each act is an ask of the agent.
fn all_ask(agent: AgentNo, acts: &[Act]) -> bool
    ensures { result ≡ list_all (is_ask_of agent) acts.now }
{
    acts.iter().all(|act| is_ask_of(agent, act))
}

/// The agent of whom all is asked that is asked, where it is one. Where nothing is asked, it is the one that is given.
pub fn sole_asker(acts: &[Act], given: AgentNo) -> Option<AgentNo>
    ensures some { IfSome result (λ a. All (IsAskTo a) acts.now) }
    ensures few { IfSome result (λ _. length acts.now ≤ 100000) }
    ensures none { IfNone result (AreOfOne acts.now → ⊥) }
{
    if acts.len() > MOST_ASKS {
        return None;
    }
    let agent = first_asked(acts, given)?;
    if all_ask(agent, acts) {
        Some(agent)
    } else {
        None
    }
}

/// What a requester keeps, of whom all is asked, or nothing.
fn serve_one<D: Desk>(
    alloc: Global,
    topology: &Topology,
    race: &Race<'_>,
    desk: &mut D,
    asked: AgentNo,
    agent: AgentNo,
) -> Result<List<Item>, AllocError>
    requires provider { IsProvider topology.now race.now.provider }
    requires within { race.now.provider < length topology.now.agents }
    requires printable { AreAsks race.now.acts.now }
    requires asks { All (IsAskTo asked) race.now.acts.now }
    requires agent { agent < length topology.now.agents }
    requires caller { is_caller topology.now race.now.provider (Some agent) ≡ true }
    ensures own { IfOk result (IsOwn topology.now
        (call_of race.now.provider agent (second_of race.now.start)) race.now.start
        (asks_by agent race.now.acts.now)) }
    ensures stand { IfOk result (AllStand topology.now) }
    ensures served { length race.now.acts.now ≤ 100000 → IfOk result (IsServedOne
        topology.now race.now.provider race.now.start asked agent
        (D.book desk.old) (D.book desk.new)) }
{
    if agent != asked {
        return Ok(List::new(alloc));
    }
    topology.laws();
    let second = second_of(&race.start);
    let call = Call {
        provider: race.provider,
        agent,
        second,
    };
    let items = served_by(alloc, topology, desk, call, race.start, race.acts)?;
    Ok(items)
}

/// What an agent keeps, where it is a requester of the provider.
fn serve_agent<D: Desk>(
    alloc: Global,
    topology: &Topology,
    race: &Race<'_>,
    desk: &mut D,
    asked: AgentNo,
    agent: AgentNo,
) -> Result<Option<Own>, AllocError>
    requires provider { IsProvider topology.now race.now.provider }
    requires within { race.now.provider < length topology.now.agents }
    requires printable { AreAsks race.now.acts.now }
    requires asks { All (IsAskTo asked) race.now.acts.now }
    requires agent { agent < length topology.now.agents }
    ensures of { IfOk result (IsOneOf topology.now race.now.provider race.now.start
        race.now.acts.now agent) }
    ensures served { length race.now.acts.now ≤ 100000 → IfOk result (IsServedAgent
        topology.now race.now.provider race.now.start asked agent
        (D.book desk.old) (D.book desk.new)) }
{
    if !is_caller(topology, race.provider, Some(agent)) {
        return Ok(None);
    }
    let items = serve_one(alloc, topology, race, desk, asked, agent)?;
    Ok(Some(Own { agent, items }))
}

/// A further list, where there is one.
fn push_some(owns: &mut Vec<Own>, own: Option<Own>) -> Result<(), AllocError>
    ensures { OnOk result (owns.new.items ≡ owns.old.items ++ option_to_list own) }
{
    if let Some(own) = own {
        owns.push(own)?;
    }
    Ok(())
}

/// What the requesters of the provider keep, of whom one alone is asked.
pub fn serve_alone<D: Desk>(
    alloc: Global,
    topology: &Topology,
    race: &Race<'_>,
    desk: &mut D,
    asked: AgentNo,
) -> Result<Vec<Own>, AllocError>
    requires provider { IsProvider topology.now race.now.provider }
    requires within { race.now.provider < length topology.now.agents }
    requires printable { AreAsks race.now.acts.now }
    requires asks { All (IsAskTo asked) race.now.acts.now }
    ensures kept { IfOk result (λ v. AreKept topology.now race.now.provider race.now.start
        race.now.acts.now v.items) }
    ensures same { length race.now.acts.now ≤ 100000 → D.book desk.old
        ≡ Some (begun_book topology.now race.now.provider race.now.start) →
        IfOk result (λ v. EndsSame topology.now race.now.provider race.now.start
        (D.book desk.new) v.items) }
{
    let mut owns = Vec::new(alloc);
    for place in 0..topology.agents() {
        let agent = agent_at(place);
        let own = serve_agent(alloc, topology, race, desk, asked, agent)?;
        push_some(&mut owns, own)?;
    }
    Ok(owns)
}
