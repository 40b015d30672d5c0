//! What each line of a topology declares.

ghost use Rattle.std.specs.Prelude.{◌≡◌, ◌<◌, ◌≤◌, List, length, map, IsTrue, true};
ghost use Rattle.nsi_base.specs.Bytes.{is_name};
ghost use Rattle.stp_topology.specs.Faults.{Gives, Leaves, value_or};
ghost use Rattle.stp_topology.specs.Network.{stp_of, nothing};
ghost use Rattle.stp_topology.specs.Lines.{is_of, known_agent, with_agent, add_provider, add_aggregator, add_requester, with_stp, add_stp, add_directed_stp, is_joined, are_same, with_sdp, add_sdp, with_child, add_child, is_form, line_of};
ghost use Rattle.stp_topology.specs.declared.fault.TopologyFault.TheVariants.{Unknown};

use crate::child_lines::{has_pair, is_too_deep, leads_down};
use crate::children::ChildLines;
use crate::fault::{LineRefusal, TopologyFault};
use crate::names::Names;
use crate::network::{AgentKind, Network, PointCapacity};
use crate::partners::Partners;
use crate::words::{capacity, hold, name};
use nsi_base::{AgentNo, List, StpNo};
use std::alloc::Global;

/// Of which sort an agent has to be.
#[derive(Clone, Copy, Debug, PartialEq, Eq)]
pub enum Sort {
    OneProvider,
    OneAggregator,
    Either,
}

pub fn is_of(sort: Sort, kind: Option<AgentKind>) -> bool
    ensures { result ≡ is_of sort kind }
{
    match (sort, kind) {
        (Sort::OneProvider, Some(AgentKind::Provider { hold: _ })) => true,
        (Sort::OneAggregator, Some(AgentKind::Aggregator)) => true,
        (Sort::Either, Some(AgentKind::Provider { hold: _ })) => true,
        (Sort::Either, Some(AgentKind::Aggregator)) => true,
        _ => false,
    }
}

/// The agent of that place.
pub fn agent_at(place: usize) -> AgentNo
    requires { place < 64 }
    ensures { result ≡ place }
{
    match AgentNo::new(place as u16) {
        Some(a) => a,
        None => unreachable!(),
    }
}

/// The STP of that place.
pub fn stp_at(place: usize) -> StpNo
    requires { place < 4096 }
    ensures { result ≡ place }
{
    match StpNo::new(place as u16) {
        Some(s) => s,
        None => unreachable!(),
    }
}

impl Network {
    pub fn nothing(alloc: Global) -> Network
        ensures { result ≡ nothing }
    {
        Network {
            agents: Names::new(alloc),
            kinds: List::new(alloc),
            stps: Names::new(alloc),
            owners: List::new(alloc),
            capacities: List::new(alloc),
            partners: Partners::new(alloc),
            children: ChildLines::new(alloc),
        }
    }

    #[tactic(auto, unfolding(crate::specs::Lines::known_agent))]
    fn known_agent(&self, sort: Sort, name: &[u8]) -> Result<AgentNo, LineRefusal>
        requires { length self.now.agents ≤ 64 }
        ensures { Gives (λ a. a) result (known_agent self.now sort name.now) }
    {
        let Some(a) = self.agents.place(name) else {
            return Err(LineRefusal::Fault(TopologyFault::Unknown));
        };
        if is_of(sort, self.kinds.items().get(a).copied()) {
            Ok(agent_at(a))
        } else {
            Err(LineRefusal::Fault(TopologyFault::Unknown))
        }
    }

    fn known_stp(&self, name: &[u8]) -> Result<StpNo, LineRefusal>
        requires { length self.now.stps ≤ 4096 }
        ensures { Gives (λ s. s) result (value_or Unknown (stp_of self.now name.now)) }
    {
        match self.stps.place(name) {
            Some(s) => Ok(stp_at(s)),
            None => Err(LineRefusal::Fault(TopologyFault::Unknown)),
        }
    }

    #[tactic(auto, unfolding(crate::specs::Lines::with_agent))]
    fn put_agent(&mut self, alloc: Global, name: &[u8], kind: AgentKind) -> Result<(), LineRefusal>
        requires { IsTrue (is_name name.now) }
        ensures { Leaves result self.new (with_agent self.old name.now kind) }
    {
        if self.agents.place(name).is_some() {
            return Err(LineRefusal::Fault(TopologyFault::Twice));
        }
        if 64 <= self.agents.len() {
            return Err(LineRefusal::Fault(TopologyFault::Limit));
        }
        let Ok(()) = self.agents.declare(alloc, name) else {
            return Err(LineRefusal::NoMemory);
        };
        match self.kinds.push(kind) {
            Ok(()) => Ok(()),
            Err(_) => Err(LineRefusal::NoMemory),
        }
    }

    #[tactic(auto, unfolding(crate::specs::Lines::add_provider))]
    fn add_provider(
        &mut self,
        alloc: Global,
        word: &[u8],
        seconds: &[u8],
    ) -> Result<(), LineRefusal>
        ensures { Leaves result self.new (add_provider self.old word.now seconds.now) }
    {
        let name = name(word)?;
        let hold = hold(seconds)?;
        self.put_agent(alloc, name, AgentKind::Provider { hold })
    }

    #[tactic(auto, unfolding(crate::specs::Lines::add_aggregator))]
    fn add_aggregator(&mut self, alloc: Global, word: &[u8]) -> Result<(), LineRefusal>
        ensures { Leaves result self.new (add_aggregator self.old word.now) }
    {
        let name = name(word)?;
        self.put_agent(alloc, name, AgentKind::Aggregator)
    }

    #[tactic(auto, unfolding(crate::specs::Lines::add_requester))]
    fn add_requester(&mut self, alloc: Global, word: &[u8], agent: &[u8]) -> Result<(), LineRefusal>
        requires { length self.old.agents ≤ 64 }
        ensures { Leaves result self.new (add_requester self.old word.now agent.now) }
    {
        let own = name(word)?;
        let agent = name(agent)?;
        let provider = self.known_agent(Sort::Either, agent)?;
        self.put_agent(alloc, own, AgentKind::Requester { provider })
    }

    #[tactic(auto, unfolding(crate::specs::Lines::with_stp))]
    fn put_stp(
        &mut self,
        alloc: Global,
        name: &[u8],
        owner: AgentNo,
        capacity: PointCapacity,
    ) -> Result<(), LineRefusal>
        requires { IsTrue (is_name name.now) }
        ensures { Leaves result self.new (with_stp self.old name.now owner capacity) }
    {
        if self.stps.place(name).is_some() {
            return Err(LineRefusal::Fault(TopologyFault::Twice));
        }
        if 4096 <= self.stps.len() {
            return Err(LineRefusal::Fault(TopologyFault::Limit));
        }
        let Ok(()) = self.stps.declare(alloc, name) else {
            return Err(LineRefusal::NoMemory);
        };
        let Ok(()) = self.owners.push(owner) else {
            return Err(LineRefusal::NoMemory);
        };
        let Ok(()) = self.capacities.push(capacity) else {
            return Err(LineRefusal::NoMemory);
        };
        match self.partners.push_alone() {
            Ok(()) => Ok(()),
            Err(_) => Err(LineRefusal::NoMemory),
        }
    }

    #[tactic(auto, unfolding(crate::specs::Lines::add_stp))]
    fn add_stp(
        &mut self,
        alloc: Global,
        provider: &[u8],
        word: &[u8],
        mbps: &[u8],
    ) -> Result<(), LineRefusal>
        requires { length self.old.agents ≤ 64 }
        ensures { Leaves result self.new (add_stp self.old provider.now word.now mbps.now) }
    {
        let provider = name(provider)?;
        let own = name(word)?;
        let mbps = capacity(mbps)?;
        let owner = self.known_agent(Sort::OneProvider, provider)?;
        self.put_stp(alloc, own, owner, PointCapacity::Shared { mbps })
    }

    #[tactic(auto, unfolding(crate::specs::Lines::add_directed_stp))]
    fn add_directed_stp(
        &mut self,
        alloc: Global,
        provider: &[u8],
        word: &[u8],
        inward: &[u8],
        outward: &[u8],
    ) -> Result<(), LineRefusal>
        requires { length self.old.agents ≤ 64 }
        ensures { Leaves result self.new
            (add_directed_stp self.old provider.now word.now inward.now outward.now) }
    {
        let provider = name(provider)?;
        let own = name(word)?;
        let inward = capacity(inward)?;
        let outward = capacity(outward)?;
        let owner = self.known_agent(Sort::OneProvider, provider)?;
        self.put_stp(alloc, own, owner, PointCapacity::Each { inward, outward })
    }

    #[tactic(auto, unfolding(crate::specs::Lines::with_sdp))]
    fn put_sdp(&mut self, i: StpNo, j: StpNo) -> Result<(), LineRefusal>
        ensures { Leaves result self.new (with_sdp self.old i j) }
    {
        let first = i.get() as usize;
        let second = j.get() as usize;
        if is_joined(self.partners.items().get(first).copied())
            || is_joined(self.partners.items().get(second).copied())
            || are_same(
                self.owners.items().get(first).copied(),
                self.owners.items().get(second).copied(),
            )
        {
            return Err(LineRefusal::Fault(TopologyFault::Twice));
        }
        self.partners.join(i, j);
        Ok(())
    }

    #[tactic(auto, unfolding(crate::specs::Lines::add_sdp))]
    fn add_sdp(&mut self, first: &[u8], second: &[u8]) -> Result<(), LineRefusal>
        requires { length self.old.stps ≤ 4096 }
        ensures { Leaves result self.new (add_sdp self.old first.now second.now) }
    {
        let first = name(first)?;
        let second = name(second)?;
        let i = self.known_stp(first)?;
        let j = self.known_stp(second)?;
        self.put_sdp(i, j)
    }

    #[tactic(auto, unfolding(crate::specs::Lines::with_child))]
    fn put_child(&mut self, alloc: Global, i: AgentNo, j: AgentNo) -> Result<(), LineRefusal>
        ensures { Leaves result self.new (with_child self.old i j) }
    {
        if has_pair(self.children.items(), i, j) {
            return Err(LineRefusal::Fault(TopologyFault::Twice));
        }
        if leads_down(self.children.items(), j, i) {
            return Err(LineRefusal::Fault(TopologyFault::Cycle));
        }
        let Ok(()) = self.children.push(alloc, i, j) else {
            return Err(LineRefusal::NoMemory);
        };
        if is_too_deep(self.kinds.items(), self.children.items()) {
            return Err(LineRefusal::Fault(TopologyFault::TooDeep));
        }
        Ok(())
    }

    #[tactic(auto, unfolding(crate::specs::Lines::add_child))]
    fn add_child(&mut self, alloc: Global, parent: &[u8], child: &[u8]) -> Result<(), LineRefusal>
        requires { length self.old.agents ≤ 64 }
        ensures { Leaves result self.new (add_child self.old parent.now child.now) }
    {
        let parent = name(parent)?;
        let child = name(child)?;
        let i = self.known_agent(Sort::OneAggregator, parent)?;
        let j = self.known_agent(Sort::Either, child)?;
        self.put_child(alloc, i, j)
    }

    /// What a line declares.
    #[tactic(auto, unfolding(crate::specs::Lines::line_of))]
    pub fn declare(&mut self, alloc: Global, words: &[&[u8]]) -> Result<(), LineRefusal>
        requires few_agents { length self.old.agents ≤ 64 }
        requires few_stps { length self.old.stps ≤ 4096 }
        ensures { Leaves result self.new (line_of self.old (map (λ w. w.now) words.now)) }
    {
        if is_form(words, 4, b"agent") && words[2] == b"provider".as_slice() {
            self.add_provider(alloc, words[1], words[3])
        } else if is_form(words, 3, b"agent") && words[2] == b"aggregator".as_slice() {
            self.add_aggregator(alloc, words[1])
        } else if is_form(words, 4, b"agent") && words[2] == b"requester".as_slice() {
            self.add_requester(alloc, words[1], words[3])
        } else if is_form(words, 4, b"stp") {
            self.add_stp(alloc, words[1], words[2], words[3])
        } else if is_form(words, 5, b"stp") {
            self.add_directed_stp(alloc, words[1], words[2], words[3], words[4])
        } else if is_form(words, 3, b"sdp") {
            self.add_sdp(words[1], words[2])
        } else if is_form(words, 3, b"child") {
            self.add_child(alloc, words[1], words[2])
        } else {
            Err(LineRefusal::Fault(TopologyFault::Word))
        }
    }
}

fn is_form(words: &[&[u8]], n: usize, first: &[u8]) -> bool
    requires { 0 < n }
    ensures form { result ≡ is_form (map (λ w. w.now) words.now) n first.now }
    ensures length { result ≡ true → length words.now ≡ n }
{
    words.len() == n && words[0] == first
}

fn is_joined(partner: Option<Option<StpNo>>) -> bool
    ensures { result ≡ is_joined partner }
{
    matches!(partner, Some(Some(_)))
}

fn are_same(a: Option<AgentNo>, b: Option<AgentNo>) -> bool
    ensures { result ≡ are_same a b }
{
    match (a, b) {
        (Some(a), Some(b)) => a == b,
        _ => false,
    }
}
