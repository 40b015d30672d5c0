//! What a provider keeps.

ghost use Rattle.std.specs.Prelude.{◌≡◌, ◌<◌, ◌≤◌, length, true, None, IfOk};
ghost use Rattle.stp_topology.specs.Sound.{IsProvider};
ghost use Rattle.provider_agent.specs.Setting.{setting_of, own_stp};
ghost use Rattle.provider_agent.specs.State.{blank};
ghost use Rattle.agent_state.specs.Entries.{is_on_time};
ghost use Rattle.provider_agent.specs.Steps.{step};
ghost use Rattle.provider_agent.specs.Kept.{freed};
ghost use Rattle.provider_agent.specs.Core.{standing_at, IsConsistent, IsReady};
ghost use Rattle.provider_agent.specs.Step.{counted, IsStep};

use crate::agent::Agent;
use crate::setting::capacities_among;
use capacity_calendar::Calendar;
use connection_record::Record;
use message_retry::Retry;
use nsi_base::{AgentNo, RecordNo, Second};
use nsi_primitive::{Entry, Input, Message};
use record_index::{Deadlines, Places};
use std::alloc::{AllocError, Global};
use stp_topology::{AgentKind, Topology};

/// A provider's fields, without a word on what is true of them.
#[derive(Drop)]
pub struct Core {
    pub agent: Agent,
    pub calendar: Calendar,
    pub records: Vec<Record>,
    /// The places of the records that have work to do. Others may be among them.
    pub waiting: Places,
    /// When holds end, and schedules begin and end. Others may be among them.
    pub deadlines: Deadlines,
    /// The messages that wait for their acknowledgement, and the requests that were taken.
    pub retry: Retry,
    /// The number of the next id.
    pub next: u64,
    pub now: Second,
    /// How many entries were taken.
    pub taken: u64,
}

impl Core {
    /// The core of a provider that has taken nothing yet.
    pub fn new(alloc: Global, topology: &Topology, agent: AgentNo) -> Result<Core, AllocError>
        requires within { agent < length topology.now.agents }
        requires provider { IsProvider topology.now agent }
        ensures standing { IfOk result
            (λ d. standing_at d ≡ record {
              setting = setting_of topology.now agent;
              state = blank;
            }) }
        ensures consistent { IfOk result (λ d. IsConsistent d) }
    {
        let AgentKind::Provider { hold } = topology.kind(agent) else {
            unreachable!()
        };
        let name = topology.name(agent).copy()?;
        let capacities = capacities_among(alloc, topology, agent)?;
        let calendar = Calendar::new(alloc, capacities)?;
        Ok(Core {
            agent: Agent {
                name,
                number: agent,
                hold,
            },
            calendar,
            records: Vec::new(alloc),
            waiting: Places::new(alloc),
            deadlines: Deadlines::new(alloc),
            retry: Retry::new(alloc),
            next: 1,
            now: Second::first(),
            taken: 0,
        })
    }

    /// Takes an entry.
    #[tactic(auto, unfolding(crate::specs::Steps::step))]
    pub fn take(
        &mut self,
        alloc: Global,
        topology: &Topology,
        entry: &Entry,
    ) -> Result<Vec<Message>, AllocError>
        requires ready { IsReady self.old }
        requires few { self.old.taken < 4194304 }
        requires on_time { is_on_time entry.now.input entry.now.second self.old.now ≡ true }
        ensures step { let e = entry.now in
            let stp_of = own_stp topology.now self.old.agent.number in
            IsStep self.old self.new result
            (λ setting s. counted (step e.input e.second setting stp_of s)) }
        ensures consistent { IsConsistent self.new }
    {
        let out = match &entry.input {
            Input::Got(message) => self.receive(alloc, topology, message)?,
            Input::Work { number, machine } => self.work(alloc, *number, *machine)?,
            Input::Tick => self.tick(alloc, entry.second)?,
            Input::Force { number } => self.force(alloc, *number)?,
            Input::Acked(identity) => {
                self.retry.acked(identity);
                Vec::new(alloc)
            }
            Input::Ask { .. } => Vec::new(alloc),
        };
        self.taken += 1;
        Ok(out)
    }

    /// What a record doesn't hold any more is free for others.
    pub fn free_if_dropped(&mut self, place: usize)
        requires within { place < length self.old.records.items }
        requires few { place ≤ 4194303 }
        ensures { let bookings = freed place self.old.records.items self.old.calendar.bookings in
            let calendar = record self.old.calendar { bookings = bookings } in
            self.new ≡ record self.old { calendar = calendar } }
    {
        if !self.records[place].is_holding() {
            self.calendar.take_pending(number_of(place));
        }
    }
}

/// The number of the record at a place.
pub fn number_of(place: usize) -> RecordNo
    requires { place ≤ 4194303 }
    ensures { result ≡ place }
{
    match RecordNo::new(place as u32) {
        Some(number) => number,
        None => unreachable!(),
    }
}
