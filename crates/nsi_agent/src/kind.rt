//! What an agent of each kind keeps.

ghost use Rattle.std.specs.Prelude.{◌≡◌, ◌<◌, ℕ, length, not, true, IfOk, OnOk, OnErr};
ghost use Rattle.std.specs.Prelude.{List as Sequence};
ghost use Rattle.std.specs.List.{All};
ghost use Rattle.std.specs.Map.Iter.{ShowsInOrder, deref};
ghost use Rattle.nsi_primitive.specs.declared.message.Message.{Message as MessageValue};
ghost use Rattle.nsi_primitive.specs.Printable.{IsPrintable, IsPrintableInput};
ghost use Rattle.message_retry.specs.Retry.{is_waiting};
ghost use Rattle.stp_topology.specs.declared.network.Network.{Network};
ghost use Rattle.agent_state.specs.declared.parent.Leg.{Leg as LegValue};
ghost use Rattle.agent_state.specs.State.{blank_agent};
ghost use Rattle.aggregator_agent.specs.Setting.{IsRoute};
ghost use Rattle.nsi_agent.specs.Steps.{after_as, is_seen, work_of};
ghost use Rattle.nsi_agent.specs.Laws.{IsGood};
ghost use Rattle.nsi_agent.specs.Kinds.{IsAt, IsStepped, IsSteppedBySome, may_take_by, number_in, role_by, state_in};

use aggregator_agent::Aggregator;
use nsi_base::{AgentNo, RecordNo, Second};
use nsi_primitive::{AskAnswer, Entry, Identity, Machine, Message};
use provider_agent::Provider;
use requester_agent::Requester;
use std::alloc::{AllocError, Global};
use std::collections::btree_map::Values;
use stp_topology::{AgentKind, Topology};

#[derive(Drop)]
pub enum Kind {
    Provider(Provider),
    Aggregator(Aggregator),
    Requester(Requester),
}

impl Kind {
    /// The agent of that number, which has taken nothing yet.
    pub fn new(alloc: Global, topology: &Topology, agent: AgentNo) -> Result<Kind, AllocError>
        requires within { agent < length topology.now.agents }
        ensures at { IfOk result (λ k. IsAt topology.now agent k) }
        ensures blank { IfOk result (λ k. state_in k ≡ blank_agent) }
    {
        match topology.kind(agent) {
            AgentKind::Provider { .. } => {
                let provider = Provider::new(alloc, topology, agent)?;
                Ok(Kind::Provider(provider))
            }
            AgentKind::Aggregator => {
                let aggregator = Aggregator::new(alloc, topology, agent)?;
                Ok(Kind::Aggregator(aggregator))
            }
            AgentKind::Requester { .. } => {
                let requester = Requester::new(alloc, topology, agent)?;
                Ok(Kind::Requester(requester))
            }
        }
    }

    /// Takes an entry.
    pub fn next(
        &mut self,
        alloc: Global,
        topology: &Topology,
        entry: &Entry,
    ) -> Result<(Option<AskAnswer>, Vec<Message>), AllocError>
        requires may_take { may_take_by self.old entry.now ≡ true }
        requires printable { IsPrintableInput entry.now.input }
        ensures by { (route : ℕ → ℕ → Sequence LegValue) →
            IsRoute topology.now (number_in self.old) route →
            let role = role_by topology.now route self.old in
            IsStepped self.old self.new result (after_as role (state_in self.old) entry.now) }
        ensures some { OnOk result
            (IsSteppedBySome topology.now self.old self.new result entry.now) }
        ensures err { OnErr result (self.new ≡ self.old) }
        ensures printable { IfOk result (λ r. All IsPrintable r.1.items) }
    {
        match self {
            Kind::Provider(provider) => {
                let out = provider.next(alloc, topology, entry)?;
                Ok((None, out))
            }
            Kind::Aggregator(aggregator) => {
                let out = aggregator.next(alloc, topology, entry)?;
                Ok((None, out))
            }
            Kind::Requester(requester) => requester.next(alloc, topology, entry),
        }
    }

    pub fn taken(&self) -> u64
        ensures { result ≡ (state_in self.now).base.taken }
    {
        match self {
            Kind::Provider(provider) => provider.taken(),
            Kind::Aggregator(aggregator) => aggregator.taken(),
            Kind::Requester(requester) => requester.taken(),
        }
    }

    pub fn now(&self) -> Second
        ensures { result ≡ (state_in self.now).base.now }
    {
        match self {
            Kind::Provider(provider) => provider.now(),
            Kind::Aggregator(aggregator) => aggregator.now(),
            Kind::Requester(requester) => requester.now(),
        }
    }

    /// Whether a message was taken before.
    pub fn seen(&self, message: &Message) -> bool
        ensures { (route : ℕ → ℕ → Sequence LegValue) (t : Network) →
            result ≡ is_seen (role_by t route self.now) (state_in self.now) message.now }
    {
        match self {
            Kind::Provider(provider) => provider.seen(message),
            Kind::Aggregator(aggregator) => aggregator.seen(message),
            Kind::Requester(requester) => requester.seen(message),
        }
    }

    /// Whether a message makes an entry.
    pub fn is_new(&self, message: &Message) -> bool
        ensures { (route : ℕ → ℕ → Sequence LegValue) (t : Network) →
            let role = role_by t route self.now in
            result ≡ not (is_seen role (state_in self.now) message.now) }
    {
        !self.seen(message)
    }

    /// Whether a message of the identity waits for its acknowledgement.
    pub fn waits(&self, identity: &Identity) -> bool
        ensures { result ≡ is_waiting identity.now (state_in self.now).base.waiting }
    {
        match self {
            Kind::Provider(provider) => provider.waits(identity),
            Kind::Aggregator(aggregator) => aggregator.waits(identity),
            Kind::Requester(requester) => requester.waits(identity),
        }
    }

    /// The messages that wait for their acknowledgement, in order.
    pub fn waiting(&self) -> Values<'_, u64, Message>
        ensures rest { result ≡ (state_in self.now).base.waiting }
        ensures runs { ShowsInOrder (deref {X = MessageValue}) }
    {
        match self {
            Kind::Provider(provider) => provider.waiting(),
            Kind::Aggregator(aggregator) => aggregator.waiting(),
            Kind::Requester(requester) => requester.waiting(),
        }
    }

    /// The first record that has work to do, and the machine.
    pub fn first_work(&self) -> Option<(RecordNo, Machine)>
        ensures { (route : ℕ → ℕ → Sequence LegValue) (t : Network) →
            result ≡ work_of (role_by t route self.now) (state_in self.now) }
    {
        match self {
            Kind::Provider(provider) => provider.waiting_work(),
            _ => None,
        }
    }

    /// It costs nothing, and tells what is true of every agent.
    pub fn facts(&self)
        ensures { (route : ℕ → ℕ → Sequence LegValue) (t : Network) →
            IsGood (role_by t route self.now) (state_in self.now) }
    {
        match self {
            Kind::Provider(provider) => provider.facts(),
            Kind::Aggregator(aggregator) => aggregator.facts(),
            Kind::Requester(requester) => requester.facts(),
        }
    }
}
