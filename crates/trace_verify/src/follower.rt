//! All agents of a topology, followed from event to event.

ghost use Rattle.std.specs.Prelude.{◌≡◌, ◌≤◌, ◌<◌, ◌↔◌, ℕ, length, true, IfOk, IfSome, OnOk, Some, slice_get};
ghost use Rattle.std.specs.List.{All};
ghost use Rattle.nsi_primitive.specs.Printable.{IsPrintable, IsPrintableEntry, IsPrintableHappening, IsPrintableInput, is_ask};
ghost use Rattle.nsi_primitive.specs.declared.entry.Happening.{Happening as WhatHappens};
ghost use Rattle.nsi_primitive.specs.declared.entry.Input.{Input as AnInput};
ghost use Rattle.nsi_primitive.specs.declared.message.Parcel.{Parcel as Taken};
ghost use Rattle.stp_topology.specs.declared.network.Network.{Network};
ghost use Rattle.trace_reader.specs.Pasts.{seconds_of};
ghost use Rattle.nsi_agent.specs.Homes.{Routes, role_in};
ghost use Rattle.followed_agent.specs.Kept.{IsKept};
ghost use Rattle.nsi_world.specs.Worlds.{IsSent, empty};
ghost use Rattle.nsi_world.specs.Runs.{IsInTime, MayCome, is_provider, is_requester};
ghost use Rattle.trace_verify.specs.Parcels.{HasRoomFor, IsParcelIn, taken_now};
ghost use Rattle.trace_verify.specs.Standing.{HasHappened, IsFollower, MayTake, Shows, Throughout};
ghost use Rattle.trace_verify.specs.Traces.{seconds_in};

use crate::guesses::identity_in;
use followed_agent::Followed;
use least_routes::laws::routes_exist;
use nsi_agent::laws::every_message;
use nsi_base::{AgentNo, Second};
use nsi_primitive::{AskAnswer, Entry, Event, Happening, Identity, Input, Message};
use std::alloc::{AllocError, Global};
use stp_topology::{AgentKind, Topology};
use trace_reader::laws::names_are_told;

/// The agents by their numbers. After want of memory, and behind an event that isn't allowed, they are of no more use.
#[derive(Drop)]
pub struct Follower<'t> {
    pub agents: Vec<Followed<'t>>,
}

/// An agent of the topology at its place.
fn agent_at(place: usize) -> AgentNo
    requires { place ≤ 63 }
    ensures { result ≡ place }
{
    match AgentNo::new(place as u16) {
        Some(agent) => agent,
        None => unreachable!(),
    }
}

impl<'t> Follower<'t> {
    /// Nothing has happened yet.
    pub fn new(alloc: Global, topology: &'t Topology) -> Result<Follower<'t>, AllocError>
        ensures follower { IfOk result (IsFollower topology.now) }
        ensures shows { IfOk result (λ x. Shows x empty) }
    {
        names_are_told(topology);
        let mut agents = Vec::new(alloc);
        for place in 0..topology.agents() {
            agents.push(Followed::new(alloc, topology, agent_at(place))?)?;
        }
        Ok(Follower { agents })
    }

    /// The agent of that place.
    fn agent(&self, place: usize) -> &Followed<'t>
        requires within { place < length self.now.agents.items }
        requires kept { All IsKept self.now.agents.items }
        ensures stands { slice_get self.now.agents.items place ≡ Some result.now }
        ensures kept { IsKept result.now }
    {
        &self.agents[place]
    }

    /// The second of each agent's clock.
    pub fn seconds(&self, alloc: Global, topology: &Topology) -> Result<Vec<Second>, AllocError>
        requires follower { IsFollower topology.now self.now }
        ensures many { IfOk result (λ seconds. length seconds.items ≡ length topology.now.agents) }
        ensures value { Throughout topology.now self.now (λ homes w. IfOk result (λ seconds.
            (a : ℕ) → a < length topology.now.agents
            → seconds_of seconds.items a ≡ seconds_in homes w a)) }
    {
        let mut seconds = Vec::new(alloc);
        for place in 0..self.agents.len() {
            seconds.push(self.agent(place).now())?;
        }
        Ok(seconds)
    }

    /// The second of the agent's clock.
    pub fn second(&self, topology: &Topology, agent: AgentNo) -> Second
        requires follower { IsFollower topology.now self.now }
        requires within { agent < length topology.now.agents }
        ensures { Throughout topology.now self.now (λ homes w. result ≡ seconds_in homes w agent) }
    {
        self.agent(agent.get() as usize).now()
    }

    /// Whether the event may happen; then it has happened.
    pub fn take(
        &mut self,
        alloc: Global,
        topology: &'t Topology,
        event: Event,
    ) -> Result<bool, AllocError>
        requires follower { IsFollower topology.now self.old }
        requires within { event.agent < length topology.now.agents }
        requires printable { IsPrintableHappening event.what }
        ensures follower { OnOk result (IsFollower topology.now self.new) }
        ensures happened { Throughout topology.now self.old (λ homes w. IfOk result
            (HasHappened homes w event.agent event.what self.new)) }
    {
        let Event { agent, what } = event;
        match what {
            Happening::Entry { entry, answer } => {
                self.take_entry(alloc, topology, agent, entry, answer)
            }
            Happening::Sync { count } => self.sync(alloc, topology, agent, count),
            Happening::Restart { count } => self.restart(alloc, topology, agent, count),
        }
    }

    /// Whether the agent may sync so many entries; then they are synced.
    fn sync(
        &mut self,
        alloc: Global,
        topology: &Topology,
        agent: AgentNo,
        count: u64,
    ) -> Result<bool, AllocError>
        requires follower { IsFollower topology.now self.old }
        requires within { agent < length topology.now.agents }
        ensures follower { OnOk result (IsFollower topology.now self.new) }
        ensures happened { Throughout topology.now self.old (λ homes w. IfOk result
            (HasHappened homes w agent (WhatHappens.Sync count) self.new)) }
    {
        let place = agent.get() as usize;
        if self.agent(place).journal.len() as u64 != count {
            return Ok(false);
        }
        self.agents[place].sync()?;
        Ok(true)
    }

    /// Whether the agent may begin again with so many entries; then it has begun.
    fn restart(
        &mut self,
        alloc: Global,
        topology: &'t Topology,
        agent: AgentNo,
        count: u64,
    ) -> Result<bool, AllocError>
        requires follower { IsFollower topology.now self.old }
        requires within { agent < length topology.now.agents }
        ensures follower { OnOk result (IsFollower topology.now self.new) }
        ensures happened { Throughout topology.now self.old (λ homes w. IfOk result
            (HasHappened homes w agent (WhatHappens.Restart count) self.new)) }
    {
        let place = agent.get() as usize;
        let followed = self.agent(place);
        if count < followed.synced as u64 {
            return Ok(false);
        }
        if (followed.journal.len() as u64) < count {
            return Ok(false);
        }
        self.agents[place].restart(alloc, topology, count as usize)?;
        Ok(true)
    }

    /// Whether the agent may take the entry and answer so; then it has taken it.
    fn take_entry(
        &mut self,
        alloc: Global,
        topology: &Topology,
        agent: AgentNo,
        entry: Entry,
        answer: Option<AskAnswer>,
    ) -> Result<bool, AllocError>
        requires follower { IsFollower topology.now self.old }
        requires within { agent < length topology.now.agents }
        requires printable { IsPrintableEntry entry }
        ensures follower { OnOk result (IsFollower topology.now self.new) }
        ensures happened { Throughout topology.now self.old (λ homes w. IfOk result
            (HasHappened homes w agent (WhatHappens.Entry entry answer) self.new)) }
    {
        match self.may_take(alloc, topology, agent, &entry) {
            Ok(true) => {
                let place = agent.get() as usize;
                let given = self.agents[place].enter(alloc, topology, entry)?;
                Ok(is_same_answer(given, answer))
            }
            Ok(false) => {
                let_go(entry);
                Ok(false)
            }
            Err(error) => {
                let_go(entry);
                Err(error)
            }
        }
    }

    /// Whether the agent may get the message, which some agent has said; then it has got it.
    pub fn take_got(
        &mut self,
        alloc: Global,
        topology: &Topology,
        agent: AgentNo,
        message: Message,
    ) -> Result<bool, AllocError>
        requires follower { IsFollower topology.now self.old }
        requires within { agent < length topology.now.agents }
        requires printable { IsPrintable message }
        requires sent { Throughout topology.now self.old (λ homes w. IsSent homes w message) }
        ensures follower { OnOk result (IsFollower topology.now self.new) }
        ensures happened { Throughout topology.now self.old (λ homes w. IfOk result
            (HasHappened homes w agent (taken_now homes w agent (Taken.Message message)) self.new)) }
    {
        let has_room = self.has_room_for(topology, agent, &message);
        let entry = Entry {
            second: self.second(topology, agent),
            input: Input::Got(message),
        };
        if has_room {
            let given = self.agents[agent.get() as usize].enter(alloc, topology, entry)?;
            Ok(is_same_answer(given, None))
        } else {
            let_go(entry);
            Ok(false)
        }
    }

    /// Whether there is room for one entry more at the agent, and the message is for it.
    fn has_room_for(&self, topology: &Topology, agent: AgentNo, message: &Message) -> bool
        requires follower { IsFollower topology.now self.now }
        requires within { agent < length topology.now.agents }
        ensures { Throughout topology.now self.now (λ homes w.
            (result ≡ true) ↔ HasRoomFor homes w agent message.now) }
    {
        self.agent(agent.get() as usize).journal.len() < 4_194_304
            && message.addressee().is(topology.name(agent))
    }

    /// Whether there is room for the entry, it is in time, and may come to the agent.
    fn may_take(
        &self,
        alloc: Global,
        topology: &Topology,
        agent: AgentNo,
        entry: &Entry,
    ) -> Result<bool, AllocError>
        requires follower { IsFollower topology.now self.now }
        requires within { agent < length topology.now.agents }
        requires printable { IsPrintableEntry entry.now }
        ensures { Throughout topology.now self.now (λ homes w. IfOk result
            (λ is. (is ≡ true) ↔ MayTake homes w agent entry.now)) }
    {
        let followed = self.agent(agent.get() as usize);
        if followed.journal.len() >= 4_194_304 {
            return Ok(false);
        }
        if !is_in_time(&entry.input, entry.second, followed.now()) {
            return Ok(false);
        }
        let may_come = self.may_come(alloc, topology, agent, &entry.input)?;
        Ok(may_come)
    }

    /// Whether the input may come to the agent.
    fn may_come(
        &self,
        alloc: Global,
        topology: &Topology,
        agent: AgentNo,
        input: &Input,
    ) -> Result<bool, AllocError>
        requires follower { IsFollower topology.now self.now }
        requires within { agent < length topology.now.agents }
        requires printable { IsPrintableInput input.now }
        ensures { Throughout topology.now self.now (λ homes w. IfOk result
            (λ is. (is ≡ true) ↔ MayCome homes w agent input.now)) }
    {
        match input {
            Input::Ask { .. } => Ok(is_requester(topology.kind(agent))),
            Input::Got(message) => self.may_get(alloc, topology, agent, message),
            Input::Work { .. } | Input::Force { .. } => Ok(is_provider(topology.kind(agent))),
            Input::Tick => Ok(true),
            Input::Acked(identity) => self.may_hear(alloc, topology, agent, identity),
        }
    }

    /// Whether the message was said by some agent, and to this one.
    fn may_get(
        &self,
        alloc: Global,
        topology: &Topology,
        agent: AgentNo,
        message: &Message,
    ) -> Result<bool, AllocError>
        requires follower { IsFollower topology.now self.now }
        requires within { agent < length topology.now.agents }
        requires printable { IsPrintable message.now }
        ensures { Throughout topology.now self.now (λ homes w. IfOk result
            (λ is. (is ≡ true) ↔ MayCome homes w agent (AnInput.Got message.now))) }
    {
        if !message.addressee().is(topology.name(agent)) {
            return Ok(false);
        }
        let is_sent = self.is_sent(alloc, topology, message)?;
        Ok(is_sent)
    }

    /// Whether some agent has said the message: only that one may, in whose name it is.
    fn is_sent(
        &self,
        alloc: Global,
        topology: &Topology,
        message: &Message,
    ) -> Result<bool, AllocError>
        requires follower { IsFollower topology.now self.now }
        requires printable { IsPrintable message.now }
        ensures { Throughout topology.now self.now (λ homes w. IfOk result
            (λ is. (is ≡ true) ↔ IsSent homes w message.now)) }
    {
        topology.facts();
        every_message();
        let Some(sender) = topology.agent_of(message.sender().bytes()) else {
            return Ok(false);
        };
        let is_said = self.agent(sender.get() as usize).has_said(alloc, message)?;
        Ok(is_said)
    }

    /// The message that a text spells, if it is found that some agent has said it.
    pub fn said_as(
        &self,
        alloc: Global,
        topology: &Topology,
        text: &[u8],
    ) -> Result<Option<Message>, AllocError>
        requires follower { IsFollower topology.now self.now }
        ensures spelled { IfOk result (λ found. IfSome found
            (λ m. IsParcelIn text.now (Taken.Message m))) }
        ensures sent { Throughout topology.now self.now (λ homes w. IfOk result
            (λ found. IfSome found (IsSent homes w))) }
    {
        topology.facts();
        routes_exist();
        let Some(identity) = identity_in(alloc, text, b"kind")? else {
            return Ok(None);
        };
        let Some(sender) = topology.agent_of(identity.sender().bytes()) else {
            return Ok(None);
        };
        let found = self
            .agent(sender.get() as usize)
            .said_as(alloc, &identity, text)?;
        Ok(found)
    }

    /// Whether the agent said a message of the identity which its addressee has taken by a synced entry. What that one
    /// has taken in the agent's name, the agent has said.
    fn may_hear(
        &self,
        alloc: Global,
        topology: &Topology,
        agent: AgentNo,
        identity: &Identity,
    ) -> Result<bool, AllocError>
        requires follower { IsFollower topology.now self.now }
        requires within { agent < length topology.now.agents }
        ensures { Throughout topology.now self.now (λ homes w. IfOk result
            (λ is. (is ≡ true) ↔ MayCome homes w agent (AnInput.Acked identity.now))) }
    {
        topology.facts();
        every_message();
        if !identity.sender().is(topology.name(agent)) {
            return Ok(false);
        }
        let Some(addressee) = topology.agent_of(identity.addressee().bytes()) else {
            return Ok(false);
        };
        let has_taken = self
            .agent(addressee.get() as usize)
            .has_taken(alloc, identity)?;
        Ok(has_taken)
    }
}

fn let_go(entry: Entry) {
    drop(entry);
}

fn is_requester(kind: AgentKind) -> bool
    ensures { (t : Network) (routes : Routes) (a : ℕ) →
        result ≡ is_requester (role_in (Some kind) t routes a) }
{
    matches!(kind, AgentKind::Requester { .. })
}

fn is_provider(kind: AgentKind) -> bool
    ensures { (t : Network) (routes : Routes) (a : ℕ) →
        result ≡ is_provider (role_in (Some kind) t routes a) }
{
    matches!(kind, AgentKind::Provider { .. })
}

pub fn is_ask(input: &Input) -> bool
    ensures { result ≡ is_ask input.now }
{
    matches!(input, Input::Ask { .. })
}

/// A tick may go on to a later second, all else happens now.
fn is_in_time(input: &Input, second: Second, now: Second) -> bool
    ensures { (result ≡ true) ↔ IsInTime input.now second now }
{
    match input {
        Input::Tick => now <= second,
        _ => second == now,
    }
}

fn is_same_answer(given: Option<AskAnswer>, told: Option<AskAnswer>) -> bool
    ensures { (result ≡ true) ↔ (told ≡ given) }
{
    match (&given, &told) {
        (None, None) => true,
        (Some(AskAnswer::Sent), Some(AskAnswer::Sent)) => true,
        (Some(AskAnswer::NoId), Some(AskAnswer::NoId)) => true,
        (Some(AskAnswer::Outstanding(one)), Some(AskAnswer::Outstanding(other))) => one == other,
        _ => false,
    }
}
