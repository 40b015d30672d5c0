//! An agent of a topology.

ghost use Rattle.std.specs.Prelude.{◌≡◌, ◌<◌, ◌≤◌, ◌+◌, length, true, IfOk, OnOk, OnErr};
ghost use Rattle.std.specs.List.{All};
ghost use Rattle.std.specs.Map.Iter.{ShowsInOrder, deref};
ghost use Rattle.nsi_primitive.specs.declared.message.Message.{Message as MessageValue};
ghost use Rattle.nsi_primitive.specs.Printable.{IsPrintable, IsPrintableInput};
ghost use Rattle.stp_topology.specs.Network.{kind_of};
ghost use Rattle.agent_state.specs.State.{blank_agent};
ghost use Rattle.nsi_agent.specs.Homes.{Routes, AreRoutes};
ghost use Rattle.nsi_agent.specs.Steps.{after, may_take, is_new, waits, work_of, works_left};
ghost use Rattle.nsi_agent.specs.Kinds.{IsFit};
ghost use Rattle.nsi_agent.specs.Laws.{IsGood};
ghost use Rattle.nsi_agent.specs.Standing.{IsAfterBySome, home_of};

use crate::kind::Kind;
use nsi_base::{AgentNo, RecordNo, Second};
use nsi_primitive::{AskAnswer, Entry, Identity, Machine, Message};
use std::alloc::{AllocError, Global};
use std::collections::btree_map::Values;
use std::marker::Model;
use stp_topology::Topology;

/// An agent of the topology, of whichever kind. It takes one entry after another.
#[derive(Drop)]
pub struct Agent<'t> {
    topology: &'t Topology,
    number: AgentNo,
    kind: Kind,
}

impl<'t> Model for Agent<'t> {
    ghost use Rattle.nsi_agent.specs.Standing.{Standing};
    ghost use Rattle.nsi_agent.specs.Kinds.{IsAgent, state_in};

    ghost Value = { Standing };

    ghost view = { λ a. record { network = a.topology.now; number = a.number; state = state_in a.kind } };

    ghost invariant = { λ a. IsAgent a.topology.now a.number a.kind };
}

impl<'t> Agent<'t> {
    /// The agent of that number, which has taken nothing yet.
    pub fn new(
        alloc: Global,
        topology: &'t Topology,
        agent: AgentNo,
    ) -> Result<Agent<'t>, AllocError>
        requires within { agent < length topology.now.agents }
        ensures { IfOk result (λ a. a
            ≡ record { network = topology.now; number = agent; state = blank_agent }) }
    {
        let kind = Kind::new(alloc, topology, agent)?;
        Ok(Agent {
            topology,
            number: agent,
            kind,
        })
    }

    /// Takes an entry of a sort that its kind takes. It gives the answer to an ask, and the messages that the entry causes.
    /// Where memory is wanting, nothing has changed. It takes 4,194,304 entries.
    pub fn next(
        &mut self,
        alloc: Global,
        entry: &Entry,
    ) -> Result<(Option<AskAnswer>, Vec<Message>), AllocError>
        requires may_take { let kind = kind_of self.old.network self.old.number in
            may_take kind self.old.state entry.now ≡ true }
        requires printable { IsPrintableInput entry.now.input }

        // It is the definition's step, by the least paths of the topology.
        ensures state { (routes : Routes) → AreRoutes self.old.network routes →
            let state = (after (home_of routes self.old) self.old.state entry.now).state in
            OnOk result (self.new ≡ record self.old { state = state }) }
        ensures answer { (routes : Routes) → AreRoutes self.old.network routes →
            let answer = (after (home_of routes self.old) self.old.state entry.now).answer in
            IfOk result (λ r. r.0 ≡ answer) }
        ensures out { (routes : Routes) → AreRoutes self.old.network routes →
            let said = (after (home_of routes self.old) self.old.state entry.now).out in
            IfOk result (λ r. r.1.items ≡ said) }

        // By some ways it is so in any case.
        ensures some { IfOk result
            (λ r. IsAfterBySome self.old self.new r.0 r.1.items entry.now) }
        ensures err { OnErr result (self.new ≡ self.old) }
        ensures printable { IfOk result (λ r. All IsPrintable r.1.items) }
        ensures network { self.new.network ≡ self.old.network }
        ensures number { self.new.number ≡ self.old.number }
        ensures taken { let before = self.old.state.base.taken in
            OnOk result (self.new.state.base.taken ≡ before + 1) }
        ensures now { OnOk result (self.new.state.base.now ≡ entry.now.second) }
    {
        self.kind.next(alloc, self.topology, entry)
    }

    /// Its number in the topology.
    pub fn number(&self) -> AgentNo
        ensures { result ≡ self.now.number }
    {
        self.number
    }

    /// How many entries it has taken.
    pub fn taken(&self) -> u64
        ensures { result ≡ self.now.state.base.taken }
    {
        self.kind.taken()
    }

    /// The second of its clock; 0 before any tick.
    pub fn now(&self) -> Second
        ensures { result ≡ self.now.state.base.now }
    {
        self.kind.now()
    }

    /// Whether a message makes an entry. It takes no memory.
    pub fn is_new(&self, message: &Message) -> bool
        ensures { (routes : Routes) →
            result ≡ is_new (home_of routes self.now) self.now.state message.now }
    {
        self.kind.is_new(message)
    }

    /// Whether a message of the identity waits for its acknowledgement. It takes no memory, and doesn't go over all that wait.
    #[tactic(auto, unfolding(crate::specs::Steps::waits))]
    pub fn waits(&self, identity: &Identity) -> bool
        ensures { result ≡ waits identity.now self.now.state }
    {
        self.kind.waits(identity)
    }

    /// The messages that wait for their acknowledgement, in the order in which they were caused. It takes no memory.
    pub fn waiting(&self) -> Values<'_, u64, Message>
        ensures rest { result ≡ self.now.state.base.waiting }
        ensures runs { ShowsInOrder (deref {X = MessageValue}) }
    {
        self.kind.waiting()
    }

    /// The first record that has work to do, and the machine.
    pub fn first_work(&self) -> Option<(RecordNo, Machine)>
        ensures { (routes : Routes) →
            result ≡ work_of (home_of routes self.now).role self.now.state }
    {
        self.kind.first_work()
    }

    /// It costs nothing, and tells what is true of every agent: what waits can be written, it has taken no more entries than an
    /// agent takes, and has no more work to do than it took entries.
    pub fn facts(&self)
        ensures within { self.now.number < length self.now.network.agents }
        ensures fit { IsFit self.now.state }
        ensures good { (routes : Routes) →
            IsGood (home_of routes self.now).role self.now.state }
        ensures works { (routes : Routes) →
            works_left (home_of routes self.now).role self.now.state ≤ self.now.state.base.taken }
    {
        self.kind.facts();
    }
}
