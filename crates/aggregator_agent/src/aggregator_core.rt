//! What an aggregator keeps.

ghost use Rattle.std.specs.Prelude.{◌≡◌, ◌<◌, length, IfOk};
ghost use Rattle.agent_state.specs.State.{blank_agent};
ghost use Rattle.aggregator_agent.specs.Setting.{agent_in};
ghost use Rattle.aggregator_agent.specs.Steps.{step, ticks, hears};
ghost use Rattle.aggregator_agent.specs.Core.{standing_at};
ghost use Rattle.aggregator_agent.specs.Step.{IsStep, IsStepBy, IsTakenBy};

use crate::agent::Agent;
use crate::clock::Clocking;
use crate::connection_table::ConnectionTable;
use crate::due_table::DueTable;
use crate::entering::Entering;
use crate::late::{Lateness, find_late};
use crate::open_queries::OpenQueries;
use crate::outbox::Outbox;
use crate::rounds::Begun;
use message_retry::Retry;
use nsi_base::{AgentNo, Second};
use nsi_primitive::{Entry, Input, Message};
use std::alloc::{AllocError, Global};
use stp_topology::Topology;

/// An aggregator's fields, without a word on what is true of them.
#[derive(Drop)]
pub struct Core {
    pub agent: Agent,
    pub connections: ConnectionTable,
    pub outbox: Outbox,
    /// The queries that wait for children's answers, in the order in which they came.
    pub queries: OpenQueries,
    pub now: Second,
    /// How many entries were taken.
    pub taken: u64,
    /// The number of the next id.
    pub next: u64,
}

impl Core {
    /// The core of an aggregator that has taken nothing yet.
    pub fn new(alloc: Global, topology: &Topology, agent: AgentNo) -> Result<Core, AllocError>
        requires within { agent < length topology.now.agents }
        ensures { IfOk result (λ d. standing_at d ≡ record {
          agent = agent_in topology.now agent;
          state = blank_agent;
        }) }
    {
        let name = topology.name(agent).copy()?;
        Ok(Core {
            agent: Agent {
                name,
                number: agent,
            },
            connections: ConnectionTable::new(alloc),
            outbox: Outbox {
                retry: Retry::new(alloc),
                dues: DueTable::new(alloc),
            },
            queries: OpenQueries::new(alloc),
            now: Second::first(),
            taken: 0,
            next: 1,
        })
    }

    /// Takes an entry, and counts it.
    pub fn take(
        &mut self,
        alloc: Global,
        topology: &Topology,
        entry: &Entry,
    ) -> Result<Vec<Message>, AllocError>
        requires few { self.old.taken < 4194304 }
        ensures { IsTakenBy topology.now self.old self.new result
            (λ setting s. step entry.now.input entry.now.second setting s) }
    {
        let out = self.enter(alloc, topology, entry)?;
        self.taken += 1;
        Ok(out)
    }

    /// What an entry does. Work and a forced end are a provider's, and an ask is a requester's.
    #[tactic(auto, unfolding(crate::specs::Steps::step))]
    fn enter(
        &mut self,
        alloc: Global,
        topology: &Topology,
        entry: &Entry,
    ) -> Result<Vec<Message>, AllocError>
        ensures step { IsStepBy topology.now self.old self.new result
            (λ setting s. step entry.now.input entry.now.second setting s) }
        ensures taken { self.new.taken ≡ self.old.taken }
    {
        match &entry.input {
            Input::Got(message) => self.receive(alloc, topology, message),
            Input::Tick => self.tick(alloc, entry.second),
            Input::Acked(identity) => {
                self.outbox.acked(identity);
                Ok(Vec::new(alloc))
            }
            Input::Work { .. } => Ok(Vec::new(alloc)),
            Input::Force { .. } => Ok(Vec::new(alloc)),
            Input::Ask { .. } => Ok(Vec::new(alloc)),
        }
    }

    /// All connections hear a message that is no request, and so do the open queries.
    #[tactic(auto, unfolding(crate::specs::Steps::hears))]
    pub fn hear(&mut self, alloc: Global, message: &Message) -> Result<Vec<Message>, AllocError>
        ensures step { IsStep self.old self.new result
            (λ setting s. hears setting s message.now) }
        ensures taken { self.new.taken ≡ self.old.taken }
    {
        let told = self.told_below(alloc, message)?;
        let answer = self.answer_below(alloc, &told)?;
        let begun = Begun {
            next: self.next,
            answer,
        };
        let entering = Entering {
            alloc,
            agent: &self.agent,
            message,
            second: self.now,
        };
        let connections = &mut self.connections;
        let said = connections.hear(&mut self.outbox, &entering, begun)?;
        self.queries.settle(told);
        self.next = said.next;
        Ok(said.out)
    }

    /// The clock goes on.
    #[tactic(auto, unfolding(crate::specs::Steps::ticks))]
    fn tick(&mut self, alloc: Global, now: Second) -> Result<Vec<Message>, AllocError>
        ensures step { IsStep self.old self.new result (λ setting s. ticks setting now s) }
        ensures taken { self.new.taken ≡ self.old.taken }
    {
        let Lateness { late, places } = find_late(alloc, &self.outbox, now)?;
        let clocking = Clocking {
            alloc,
            agent: &self.agent,
            late: &late,
            second: now,
        };
        let connections = &mut self.connections;
        let said = connections.clock(&mut self.outbox, &clocking, self.next)?;
        self.outbox.dues.tell_at(places.items());
        self.now = now;
        self.next = said.next;
        Ok(said.out)
    }
}
