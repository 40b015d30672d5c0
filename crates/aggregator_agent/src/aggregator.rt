//! An aggregator.

ghost use Rattle.std.specs.Prelude.{◌≡◌, ◌<◌, ℕ, length, true, None, IfOk, OnOk, OnErr};
ghost use Rattle.std.specs.Prelude.{List as Sequence};
ghost use Rattle.std.specs.List.{All};
ghost use Rattle.std.specs.Map.Iter.{ShowsInOrder, deref};
ghost use Rattle.nsi_primitive.specs.declared.message.Message.{Message as MessageValue};
ghost use Rattle.nsi_primitive.specs.Printable.{IsPrintable, IsPrintableInput};
ghost use Rattle.message_retry.specs.Retry.{is_old, is_waiting};
ghost use Rattle.agent_state.specs.declared.parent.Leg.{Leg as LegValue};
ghost use Rattle.agent_state.specs.State.{blank_agent};
ghost use Rattle.agent_state.specs.Entries.{retry_of};
ghost use Rattle.aggregator_agent.specs.Setting.{agent_in, setting_of, IsRoute};
ghost use Rattle.aggregator_agent.specs.Steps.{after, may_take};
ghost use Rattle.aggregator_agent.specs.Entering.{IsStepBySome};
ghost use Rattle.aggregator_agent.specs.Bonds.{bonds, records_of, children_of};
ghost use Rattle.aggregator_agent.specs.Good.{IsGood};

use crate::aggregator_core::Core;
use crate::connection::Connection;
use crate::laws::every_entry;
use nsi_base::{AgentNo, Second};
use nsi_primitive::{Entry, Identity, Message};
use std::alloc::{AllocError, Global};
use std::collections::btree_map::Values;
use std::marker::Model;
use stp_topology::Topology;

/// The agent that passes requests on to its children, and joins their answers. It takes one entry after another, each of
/// which causes messages.
#[derive(Drop)]
pub struct Aggregator {
    core: Core,
}

impl Model for Aggregator {
    ghost use Rattle.aggregator_agent.specs.Setting.{Standing};
    ghost use Rattle.aggregator_agent.specs.Core.{standing_at, state_at};
    ghost use Rattle.aggregator_agent.specs.Good.{IsGood};

    ghost Value = { Standing };

    ghost view = { λ a. standing_at a.core };

    ghost invariant = { λ a. IsGood (state_at a.core) };
}

impl Aggregator {
    /// An aggregator of the topology, which has taken nothing yet.
    pub fn new(alloc: Global, topology: &Topology, agent: AgentNo) -> Result<Aggregator, AllocError>
        requires within { agent < length topology.now.agents }
        ensures { IfOk result
            (λ a. a ≡ record { agent = agent_in topology.now agent; state = blank_agent }) }
    {
        let core = Core::new(alloc, topology, agent)?;
        Ok(Aggregator { core })
    }

    /// Takes an entry: a message, a second of its clock, or an acknowledgement, and gives the messages that it causes. Where
    /// memory is wanting, nothing has changed. It takes 4,194,304 entries.
    pub fn next(
        &mut self,
        alloc: Global,
        topology: &Topology,
        entry: &Entry,
    ) -> Result<Vec<Message>, AllocError>
        requires printable { IsPrintableInput entry.now.input }
        requires may_take { may_take self.old.state entry.now ≡ true }

        // It is the definition's step, by the least path of the topology between any two points.
        ensures state { (route : ℕ → ℕ → Sequence LegValue) →
            IsRoute topology.now self.old.agent.number route →
            let setting = setting_of topology.now self.old.agent route in
            let state = (after setting self.old.state entry.now).state in
            OnOk result (self.new ≡ record self.old { state = state }) }
        ensures out { (route : ℕ → ℕ → Sequence LegValue) →
            IsRoute topology.now self.old.agent.number route →
            let setting = setting_of topology.now self.old.agent route in
            let said = (after setting self.old.state entry.now).out in
            IfOk result (λ out. out.items ≡ said) }
        ensures answer { (route : ℕ → ℕ → Sequence LegValue) →
            let setting = setting_of topology.now self.old.agent route in
            (after setting self.old.state entry.now).answer ≡ None }

        // By some legs it is so in any case.
        ensures some { IfOk result
            (λ out. IsStepBySome topology.now self.old self.new out.items entry.now) }
        ensures err { OnErr result (self.new ≡ self.old) }
        ensures printable { IfOk result (λ out. All IsPrintable out.items) }
    {
        every_entry();
        self.core.take(alloc, topology, entry)
    }

    /// Its connections, in the order in which they were made.
    pub fn connections(&self) -> &[Connection]
        ensures records { records_of (bonds result.now) ≡ self.now.state.base.records }
        ensures children { children_of (bonds result.now) ≡ self.now.state.children }
    {
        self.core.connections.items()
    }

    /// Whether a message of the identity waits for its acknowledgement. It takes no memory, and doesn't go over all that wait.
    pub fn waits(&self, identity: &Identity) -> bool
        ensures { result ≡ is_waiting identity.now self.now.state.base.waiting }
    {
        self.core.outbox.retry.waits(identity)
    }

    /// The messages that wait for their acknowledgement, in the order in which they were caused. It takes no memory.
    pub fn waiting(&self) -> Values<'_, u64, Message>
        ensures rest { result ≡ self.now.state.base.waiting }
        ensures runs { ShowsInOrder (deref {X = MessageValue}) }
    {
        self.core.outbox.retry.waiting()
    }

    /// How many entries it has taken.
    pub fn taken(&self) -> u64
        ensures { result ≡ self.now.state.base.taken }
    {
        self.core.taken
    }

    /// Whether a message was taken before. It takes no memory.
    pub fn seen(&self, message: &Message) -> bool
        ensures { result ≡ is_old message.now (retry_of self.now.state.base) }
    {
        self.core.outbox.retry.is_old(message)
    }

    /// The second of its clock; 0 before any tick.
    pub fn now(&self) -> Second
        ensures { result ≡ self.now.state.base.now }
    {
        self.core.now
    }

    /// It costs nothing, and tells what is true of every aggregator.
    pub fn facts(&self)
        ensures { IsGood self.now.state }
    {
        let _core = &self.core;
    }
}
