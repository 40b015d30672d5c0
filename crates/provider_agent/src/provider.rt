//! A provider.

ghost use Rattle.std.specs.Prelude.{◌≡◌, ◌<◌, ◌≤◌, length, All, IfOk, OnOk, OnErr, IfSome, IfNone, true};
ghost use Rattle.std.specs.Map.Iter.{ShowsInOrder, deref};
ghost use Rattle.nsi_primitive.specs.declared.message.Message.{Message as MessageValue};
ghost use Rattle.message_retry.specs.Retry.{is_waiting};
ghost use Rattle.stp_topology.specs.Sound.{IsProvider};
ghost use Rattle.nsi_primitive.specs.Printable.{IsPrintable, IsPrintableInput};
ghost use Rattle.capacity_calendar.specs.Places.{capacity_at};
ghost use Rattle.connection_record.specs.Demand.{load};
ghost use Rattle.provider_agent.specs.Setting.{setting_of, own_stp};
ghost use Rattle.provider_agent.specs.State.{blank};
ghost use Rattle.provider_agent.specs.Steps.{after, may_take, is_seen, waiting_work};
ghost use Rattle.provider_agent.specs.Good.{IsGood};
ghost use Rattle.provider_agent.specs.Safety.{IsCapped, IsRising, Keeps, IsHonest};

use crate::provider_core::Core;
use crate::work::waiting_work;
use connection_record::Record;
use nsi_base::{AgentNo, Flow, RecordNo, Second, StpNo};
use nsi_primitive::{Entry, Identity, Machine, Message};
use std::alloc::{AllocError, Global};
use std::collections::btree_map::Values;
use std::marker::Model;
use stp_topology::Topology;

/// The agent of one network. It takes one entry after another, each of which causes messages.
#[derive(Drop)]
pub struct Provider {
    core: Core,
}

impl Model for Provider {
    ghost use Rattle.provider_agent.specs.State.{Standing};
    ghost use Rattle.provider_agent.specs.Core.{standing_at, IsSteady};

    ghost Value = { Standing };

    ghost view = { λ p. standing_at p.core };

    ghost invariant = { λ p. IsSteady p.core };
}

impl Provider {
    /// A provider of the topology, which has taken nothing yet.
    pub fn new(alloc: Global, topology: &Topology, agent: AgentNo) -> Result<Provider, AllocError>
        requires within { agent < length topology.now.agents }
        requires provider { IsProvider topology.now agent }
        ensures { IfOk result
            (λ p. p ≡ record { setting = setting_of topology.now agent; state = blank }) }
    {
        let core = Core::new(alloc, topology, agent)?;
        Ok(Provider { core })
    }

    /// Takes an entry: a message, work that waits, a second of its clock, or a forced end, and gives the messages that it causes.
    /// Where memory is wanting, nothing has changed. It takes 4,194,304 entries.
    pub fn next(
        &mut self,
        alloc: Global,
        topology: &Topology,
        entry: &Entry,
    ) -> Result<Vec<Message>, AllocError>
        requires may_take { may_take self.old.state entry.now ≡ true }
        requires printable { IsPrintableInput entry.now.input }

        // It is the definition's step.
        ensures state { let stp_of = own_stp topology.now self.old.setting.number in
            let state = (after self.old.setting stp_of self.old.state entry.now).state in
            OnOk result (self.new ≡ record self.old { state = state }) }
        ensures out { let stp_of = own_stp topology.now self.old.setting.number in
            let said = (after self.old.setting stp_of self.old.state entry.now).out in
            IfOk result (λ out. out.items ≡ said) }
        ensures err { OnErr result (self.new ≡ self.old) }
        ensures printable { IfOk result (λ out. All IsPrintable out.items) }

        // No load passes a capacity, versions rise, what was committed stays, and a refusal for bandwidth names the first lack.
        ensures capped { IsCapped self.new.setting self.new.state }
        ensures rising { IsRising self.new.state }
        ensures keeps { Keeps self.old.state self.new.state }
        ensures honest { let stp_of = own_stp topology.now self.old.setting.number in
            IsHonest self.old.setting stp_of self.old.state entry.now }
    {
        self.core.take(alloc, topology, entry)
    }

    /// It costs nothing, and tells what is true of every provider.
    pub fn facts(&self)
        ensures { IsGood self.now.setting self.now.state }
    {
        let _core = &self.core;
    }

    /// How many entries it has taken.
    pub fn taken(&self) -> u64
        ensures { result ≡ self.now.state.taken }
    {
        self.core.taken
    }

    /// The second of its clock; 0 before any tick.
    pub fn now(&self) -> Second
        ensures { result ≡ self.now.state.now }
    {
        self.core.now
    }

    /// The first record that has work to do, and the machine.
    pub fn waiting_work(&self) -> Option<(RecordNo, Machine)>
        ensures work { result ≡ waiting_work self.now.state }
    {
        waiting_work(&self.core.waiting, &self.core.records)
    }

    /// Whether a message was taken before; one that isn't a request never counts. It takes no memory.
    pub fn seen(&self, message: &Message) -> bool
        ensures { result ≡ is_seen self.now.state message.now }
    {
        message.is_request() && self.core.retry.has(&message.header)
    }

    /// Whether a message of the identity waits for its acknowledgement. It takes no memory, and doesn't go over all that wait.
    pub fn waits(&self, identity: &Identity) -> bool
        ensures { result ≡ is_waiting identity.now self.now.state.waiting }
    {
        self.core.retry.waits(identity)
    }

    /// The messages that wait for their acknowledgement, in the order in which they were sent. It takes no memory.
    pub fn waiting(&self) -> Values<'_, u64, Message>
        ensures rest { result ≡ self.now.state.waiting }
        ensures runs { ShowsInOrder (deref {X = MessageValue}) }
    {
        self.core.retry.waiting()
    }

    /// Its records, in the order in which they were made.
    pub fn records(&self) -> &[Record]
        ensures { result.now ≡ self.now.state.records }
    {
        &self.core.records
    }

    /// The Mbps that its records claim of a flow of one of its service termination points at a second.
    pub fn load_at(&self, stp: StpNo, flow: Flow, t: Second) -> u64
        ensures sum { let capacity = capacity_at self.now.setting.capacities stp flow in
            IfSome capacity (λ _. result ≡ load flow stp t self.now.state.records) }
        ensures none { IfNone (capacity_at self.now.setting.capacities stp flow) (result ≡ 0) }
        ensures within { let capacity = capacity_at self.now.setting.capacities stp flow in
            IfSome capacity (λ most. result ≤ most) }
    {
        self.core.calendar.facts();
        self.core.calendar.load_at(stp, flow, t)
    }
}
