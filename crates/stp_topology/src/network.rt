//! What the lines of a topology have declared.

ghost use Rattle.std.specs.Prelude.{◌≡◌};
ghost use Rattle.stp_topology.specs.Network.{carried};

use crate::children::ChildLines;
use crate::names::Names;
use crate::partners::Partners;
use nsi_base::{AgentNo, Flow, HoldTime, List, Mbps};

/// What an agent is.
#[derive(Clone, Copy, Debug, PartialEq, Eq)]
pub enum AgentKind {
    /// It has STPs, and holds what is reserved for so many seconds until it is committed.
    Provider { hold: HoldTime },
    /// It passes requests on to its children.
    Aggregator,
    /// It asks one provider or aggregator.
    Requester { provider: AgentNo },
}

/// How much traffic an STP can carry at a second.
#[derive(Clone, Copy, Debug, PartialEq, Eq)]
pub enum PointCapacity {
    /// So much in both directions together.
    Shared { mbps: Mbps },
    /// So much into the provider's network, and so much out of it.
    Each { inward: Mbps, outward: Mbps },
}

impl PointCapacity {
    /// How much of a flow the STP can carry, where it has the flow.
    pub fn of(self, flow: Flow) -> Option<Mbps>
        ensures { result ≡ carried flow self }
    {
        match (flow, self) {
            (Flow::Both, PointCapacity::Shared { mbps }) => Some(mbps),
            (Flow::In, PointCapacity::Each { inward, .. }) => Some(inward),
            (Flow::Out, PointCapacity::Each { outward, .. }) => Some(outward),
            _ => None,
        }
    }
}

/// Agents with their names and kinds; points with name, owner, capacity and partner; and the pairs of an aggregator
/// and its child.
#[derive(Drop)]
pub struct Network {
    pub agents: Names,
    pub kinds: List<AgentKind>,
    pub stps: Names,
    pub owners: List<AgentNo>,
    pub capacities: List<PointCapacity>,
    pub partners: Partners,
    pub children: ChildLines,
}
