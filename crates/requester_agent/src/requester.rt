//! A requester.

ghost use Rattle.std.specs.Prelude.{◌≡◌, ◌<◌, length, true, IfOk, OnOk, OnErr};
ghost use Rattle.std.specs.List.{All};
ghost use Rattle.std.specs.Map.Iter.{ShowsInOrder, deref};
ghost use Rattle.nsi_primitive.specs.declared.message.Message.{Message as MessageValue};
ghost use Rattle.nsi_primitive.specs.Printable.{IsPrintable, IsPrintableInput};
ghost use Rattle.message_retry.specs.Retry.{is_old, is_waiting};
ghost use Rattle.agent_state.specs.State.{blank_agent};
ghost use Rattle.requester_agent.specs.Setting.{IsRequester, setting_of};
ghost use Rattle.agent_state.specs.Entries.{retry_of};
ghost use Rattle.requester_agent.specs.Steps.{after, may_take};
ghost use Rattle.requester_agent.specs.Good.{IsGood};

use crate::laws::every_entry;
use crate::requester_core::Core;
use agent_state::View;
use nsi_base::{AgentNo, Second};
use nsi_primitive::{AskAnswer, Entry, Identity, Message};
use std::alloc::{AllocError, Global};
use std::collections::btree_map::Values;
use std::marker::Model;
use stp_topology::Topology;

/// The agent of a user, who asks for connections by their labels. It takes one entry after another.
#[derive(Drop)]
pub struct Requester {
    core: Core,
}

impl Model for Requester {
    ghost use Rattle.requester_agent.specs.State.{Standing};
    ghost use Rattle.requester_agent.specs.Good.{IsGood};
    ghost use Rattle.requester_agent.specs.Core.{standing_at, state_at};

    ghost Value = { Standing };

    ghost view = { λ r. standing_at r.core };

    ghost invariant = { λ r. IsGood (state_at r.core) };
}

impl Requester {
    /// A requester of the topology, which has taken nothing yet.
    pub fn new(alloc: Global, topology: &Topology, agent: AgentNo) -> Result<Requester, AllocError>
        requires within { agent < length topology.now.agents }
        requires requester { IsRequester topology.now agent }
        ensures { IfOk result
            (λ r. r ≡ record { setting = setting_of topology.now agent; state = blank_agent }) }
    {
        let core = Core::new(alloc, topology, agent)?;
        Ok(Requester { core })
    }

    /// Takes an entry: an ask of its user, a message, a second of its clock, or an acknowledgement. It gives the answer to
    /// an ask, and the messages that the entry causes. Where memory is wanting, nothing has changed. It takes 4,194,304
    /// entries.
    pub fn next(
        &mut self,
        alloc: Global,
        _topology: &Topology,
        entry: &Entry,
    ) -> Result<(Option<AskAnswer>, Vec<Message>), AllocError>
        requires may_take { may_take self.old.state entry.now ≡ true }
        requires printable { IsPrintableInput entry.now.input }

        // It is the definition's step.
        ensures state { let state = (after self.old.setting self.old.state entry.now).state in
            OnOk result (self.new ≡ record self.old { state = state }) }
        ensures answer { let answer = (after self.old.setting self.old.state entry.now).answer in
            IfOk result (λ r. r.0 ≡ answer) }
        ensures out { let said = (after self.old.setting self.old.state entry.now).out in
            IfOk result (λ r. r.1.items ≡ said) }
        ensures err { OnErr result (self.new ≡ self.old) }
        ensures printable { IfOk result (λ r. All IsPrintable r.1.items) }
    {
        every_entry();
        self.core.take(alloc, entry)
    }

    /// It costs nothing, and tells what is true of every requester.
    pub fn facts(&self)
        ensures { IsGood self.now.state }
    {
        let _core = &self.core;
    }

    /// How many entries it has taken.
    pub fn taken(&self) -> u64
        ensures { result ≡ self.now.state.base.taken }
    {
        self.core.taken
    }

    /// The second of its clock; 0 before any tick.
    pub fn now(&self) -> Second
        ensures { result ≡ self.now.state.base.now }
    {
        self.core.now
    }

    /// Whether a message was taken before. It takes no memory.
    pub fn seen(&self, message: &Message) -> bool
        ensures { result ≡ is_old message.now (retry_of self.now.state.base) }
    {
        self.core.retry.is_old(message)
    }

    /// Whether a message of the identity waits for its acknowledgement. It takes no memory, and doesn't go over all that wait.
    pub fn waits(&self, identity: &Identity) -> bool
        ensures { result ≡ is_waiting identity.now self.now.state.base.waiting }
    {
        self.core.retry.waits(identity)
    }

    /// The messages that wait for their acknowledgement, in the order in which they were caused. It takes no memory.
    pub fn waiting(&self) -> Values<'_, u64, Message>
        ensures rest { result ≡ self.now.state.base.waiting }
        ensures runs { ShowsInOrder (deref {X = MessageValue}) }
    {
        self.core.retry.waiting()
    }

    /// Its views, in the order in which their labels were first reserved.
    pub fn views(&self) -> &[View]
        ensures { result.now ≡ self.now.state.views }
    {
        self.core.views.views()
    }
}
