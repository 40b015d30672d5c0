//! What a script says.

use agent_link::LinkFault;
use nsi_base::{AgentNo, List, RecordNo, Second};
use nsi_disk::Stop;
use nsi_primitive::Ask;

/// A parcel of a link that is lost or comes twice: a line `lose` or `repeat`.
#[derive(Clone, Copy, Debug, PartialEq, Eq)]
pub struct PlanLine {
    pub from: AgentNo,
    pub to: AgentNo,
    pub fault: LinkFault,
}

/// A stop of an agent's disk: a line `stop`.
#[derive(Clone, Copy, Debug, PartialEq, Eq)]
pub struct StopLine {
    pub agent: AgentNo,
    pub stop: Stop,
}

/// What is done to an agent.
#[derive(Debug, Drop)]
pub enum Act {
    /// A requester is asked for something.
    Ask { agent: AgentNo, ask: Ask },
    /// A record of a provider ends before its time.
    Force { agent: AgentNo, number: RecordNo },
    /// The agent is restarted.
    Restart(AgentNo),
}

/// What is done at a second, in order.
#[derive(Debug, Drop)]
pub struct Group {
    pub at: Second,
    pub acts: List<Act>,
}

/// What is lost and stopped, and the groups of acts in order of their seconds.
#[derive(Debug, Drop)]
pub struct Script {
    pub lose: List<PlanLine>,
    pub stops: List<StopLine>,
    pub groups: List<Group>,
}
