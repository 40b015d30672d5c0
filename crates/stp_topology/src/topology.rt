//! A topology, line by line.

ghost use Rattle.std.specs.Prelude.{◌≡◌, ◌<◌, ◌≤◌, length, IfSome, Some};
ghost use Rattle.std.specs.List.{position_from};
ghost use Rattle.stp_topology.specs.Faults.{Gives};
ghost use Rattle.stp_topology.specs.Network.{nothing, agent_of, stp_of, name_of, stp_name_of, kind_of, owner_of, capacity_of, partner_of, sdps_of, children_of, first_provider, is_provider};
ghost use Rattle.stp_topology.specs.Rank.{rank_of};
ghost use Rattle.stp_topology.specs.Sound.{IsSound, IsProvider};
ghost use Rattle.stp_topology.specs.Text.{of_line, is_skipped};

use crate::declare::{agent_at, stp_at};
use crate::fault::{LineRefusal, TopologyFault};
use crate::network::{AgentKind, Network};
use crate::rank::rank_to;
use nsi_base::words::words;
use nsi_base::{AgentNo, Blanks, Flow, Mbps, Name, StpNo};
use std::alloc::Global;
use std::marker::Model;

/// The agents of a network, their STPs, which of these are joined, and which agents are children of which aggregators.
/// Agents and STPs are named by their places in the order of declaration.
#[derive(Drop)]
pub struct Topology {
    alloc: Global,
    network: Network,
}

impl Model for Topology {
    ghost use Rattle.stp_topology.specs.Network.{Network as Declared};
    ghost use Rattle.stp_topology.specs.Sound.{IsSound};

    ghost Value = { Declared };

    ghost view = { λ t. t.network };

    ghost invariant = { λ t. IsSound t.network };
}

/// A topology after a line.
#[derive(Drop)]
pub enum Taken {
    /// More lines are to come.
    More(Topology),
    /// The line was the last.
    Whole(Topology),
}

fn is_skipped(line: &[u8]) -> bool
    ensures { result ≡ is_skipped line.now }
{
    line.is_empty() || line[0] == b'#'
}

impl Topology {
    /// A topology of which nothing is declared yet.
    pub fn new(alloc: Global) -> Topology
        ensures { result ≡ nothing }
    {
        Topology {
            alloc,
            network: Network::nothing(alloc),
        }
    }

    /// The topology after a line, which is given without its end. After a refusal it is gone.
    #[tactic(auto, unfolding(crate::specs::Text::of_line))]
    pub fn take_line(self, line: &[u8]) -> Result<Taken, LineRefusal>
        ensures { Gives (λ t. t) result (of_line self line.now) }
    {
        if is_skipped(line) {
            return Ok(Taken::More(self));
        }
        if line == b"---".as_slice() {
            if self.agents() == 0 {
                return Err(LineRefusal::Fault(TopologyFault::Empty));
            }
            return Ok(Taken::Whole(self));
        }
        let Topology { alloc, mut network } = self;
        let Ok(words) = words(alloc, Blanks::SpaceOrTab, line) else {
            return Err(LineRefusal::NoMemory);
        };
        network.declare(alloc, &words)?;
        Ok(Taken::More(Topology { alloc, network }))
    }

    /// How many agents there are.
    pub fn agents(&self) -> usize
        ensures count { result ≡ length self.now.agents }
        ensures few { result ≤ 64 }
    {
        self.network.agents.len()
    }

    pub fn name(&self, a: AgentNo) -> &Name
        requires { a < length self.now.agents }
        ensures { result.now ≡ name_of self.now a }
    {
        self.network.agents.get(a.get() as usize)
    }

    pub fn kind(&self, a: AgentNo) -> AgentKind
        requires { a < length self.now.agents }
        ensures { kind_of self.now a ≡ Some result }
    {
        self.network.kinds.items()[a.get() as usize]
    }

    pub fn agent_of(&self, name: &[u8]) -> Option<AgentNo>
        ensures agent { result ≡ agent_of self.now name.now }
        ensures within { IfSome result (λ a. a < length self.now.agents) }
    {
        match self.network.agents.place(name) {
            Some(a) => Some(agent_at(a)),
            None => None,
        }
    }

    /// The first agent that is a provider.
    pub fn first_provider(&self) -> Option<AgentNo>
        ensures first { result ≡ first_provider self.now }
        ensures is_provider { IfSome result (λ a. IsProvider self.now a) }
        ensures within { IfSome result (λ a. a < length self.now.agents) }
    {
        match first_provider(self.network.kinds.items()) {
            Some(a) => Some(agent_at(a)),
            None => None,
        }
    }

    /// How many STPs there are.
    pub fn stps(&self) -> usize
        ensures count { result ≡ length self.now.stps }
        ensures few { result ≤ 4096 }
    {
        self.network.stps.len()
    }

    pub fn stp_name(&self, s: StpNo) -> &Name
        requires { s < length self.now.stps }
        ensures { result.now ≡ stp_name_of self.now s }
    {
        self.network.stps.get(s.get() as usize)
    }

    pub fn stp_of(&self, name: &[u8]) -> Option<StpNo>
        ensures stp { result ≡ stp_of self.now name.now }
        ensures within { IfSome result (λ s. s < length self.now.stps) }
    {
        match self.network.stps.place(name) {
            Some(s) => Some(stp_at(s)),
            None => None,
        }
    }

    /// The provider that has the STP.
    pub fn owner(&self, s: StpNo) -> AgentNo
        requires { s < length self.now.stps }
        ensures owner { result ≡ owner_of self.now s }
        ensures is_provider { IsProvider self.now result }
        ensures within { result < length self.now.agents }
    {
        self.network.owners.items()[s.get() as usize]
    }

    /// The capacity of an STP for a flow, where it has the flow: both directions of traffic together, or each of them alone.
    pub fn capacity(&self, s: StpNo, flow: Flow) -> Option<Mbps>
        requires { s < length self.now.stps }
        ensures { result ≡ capacity_of self.now s flow }
    {
        self.network.capacities.items()[s.get() as usize].of(flow)
    }

    /// The STP that an STP is joined with by an SDP.
    pub fn partner(&self, s: StpNo) -> Option<StpNo>
        requires { s < length self.now.stps }
        ensures partner { result ≡ partner_of self.now s }
        ensures within { IfSome result (λ p. p < length self.now.stps) }
    {
        self.network.partners.items()[s.get() as usize]
    }

    /// How many SDPs there are, each of which joins two STPs.
    pub fn sdps(&self) -> usize
        ensures { result ≡ sdps_of self.now }
    {
        let partners = self.network.partners.items();
        partners.iter().filter(|p| p.is_some()).count() / 2
    }

    /// The children of an agent, in the order of their `child` lines.
    pub fn children(&self, a: AgentNo) -> &[AgentNo]
        ensures { result.now ≡ children_of self.now a }
    {
        self.network.children.of(a)
    }

    /// The rank of an agent: 0 for a provider, and for an aggregator one more than the greatest of its children's, or 1.
    pub fn rank(&self, a: AgentNo) -> u8
        ensures rank { result ≡ rank_of self.now a }
        ensures within { result ≤ 4 }
    {
        rank_to(5, &self.network, a)
    }

    /// It costs nothing, and tells what is true of every topology.
    pub fn facts(&self)
        ensures { IsSound self.now }
    {
        let _network = &self.network;
    }
}

fn is_provider(kind: AgentKind) -> bool
    ensures { result ≡ is_provider kind }
{
    matches!(kind, AgentKind::Provider { hold: _ })
}

fn first_provider(kinds: &[AgentKind]) -> Option<usize>
    ensures { result ≡ position_from is_provider 0 kinds.now }
{
    kinds.iter().position(|kind| is_provider(*kind))
}
