//! The agents that lines name.

ghost use Rattle.std.specs.Prelude.{◌≡◌, ◌<◌, ◌==◌, IfOk, Some, length};
ghost use Rattle.std.specs.List.{list_any};
ghost use Rattle.stp_topology.specs.Network.{agent_of, kind_of};
ghost use Rattle.nsi_script.specs.Faults.{Gives};
ghost use Rattle.nsi_script.specs.Fits.{IsOfSort};
ghost use Rattle.nsi_script.specs.Lines.{is_of, known_agent, is_requester_of, is_asking, is_linked};

use crate::fault::{LineRefusal, ScriptFault};
use nsi_base::AgentNo;
use stp_topology::{AgentKind, Topology};

/// Of which sort an agent has to be.
#[derive(Clone, Copy, Debug, PartialEq, Eq)]
pub enum Sort {
    OneRequester,
    OneProvider,
    Any,
}

fn is_of(sort: Sort, kind: AgentKind) -> bool
    ensures { result ≡ is_of sort (Some kind) }
{
    match (sort, kind) {
        (Sort::OneRequester, AgentKind::Requester { provider: _ }) => true,
        (Sort::OneProvider, AgentKind::Provider { hold: _ }) => true,
        (Sort::Any, _) => true,
        _ => false,
    }
}

#[tactic(auto, unfolding(crate::specs::Lines::known_agent), using(crate::proofs::SortLemmas::of_sort))]
pub fn known_agent(topology: &Topology, sort: Sort, name: &[u8]) -> Result<AgentNo, LineRefusal>
    ensures agent { Gives (λ a. a) result (known_agent topology.now sort name.now) }
    ensures sort { IfOk result (IsOfSort topology.now sort) }
    ensures within { IfOk result (λ a. a < length topology.now.agents) }
{
    let Some(a) = topology.agent_of(name) else {
        return Err(LineRefusal::Fault(ScriptFault::Agent));
    };
    if is_of(sort, topology.kind(a)) {
        Ok(a)
    } else {
        Err(LineRefusal::Fault(ScriptFault::Agent))
    }
}

fn is_requester_of(provider: AgentNo, kind: AgentKind) -> bool
    ensures { result ≡ is_requester_of provider (Some kind) }
{
    match kind {
        AgentKind::Requester { provider: own } => own == provider,
        _ => false,
    }
}

fn has_child(children: &[AgentNo], child: AgentNo) -> bool
    ensures { result ≡ list_any (λ c. c == child) children.now }
{
    children.iter().any(|c| *c == child)
}

/// Whether an agent sends requests to another.
fn is_asking(topology: &Topology, a: AgentNo, b: AgentNo) -> bool
    requires { a < length topology.now.agents }
    ensures { result ≡ is_asking topology.now a b }
{
    is_requester_of(b, topology.kind(a)) || has_child(topology.children(a), b)
}

pub fn is_linked(topology: &Topology, a: AgentNo, b: AgentNo) -> bool
    requires first { a < length topology.now.agents }
    requires second { b < length topology.now.agents }
    ensures { result ≡ is_linked topology.now a b }
{
    is_asking(topology, a, b) || is_asking(topology, b, a)
}
