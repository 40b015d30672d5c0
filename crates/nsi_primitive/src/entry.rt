//! What an agent takes, one after another.

use crate::ask::{Ask, AskAnswer};
use crate::message::{Identity, Message};
use crate::state::Machine;
use nsi_base::{AgentNo, RecordNo, Second};

/// What happened to an agent, and at which second of its clock.
#[derive(Debug, Drop)]
pub struct Entry {
    pub second: Second,
    pub input: Input,
}

#[derive(Debug, Drop)]
pub enum Input {
    /// Its user asks for something: the asks of a run are numbered from 0.
    Ask { number: u32, ask: Ask },
    /// A message came.
    Got(Message),
    /// A machine of a record does what it has to do.
    Work { number: RecordNo, machine: Machine },
    /// The clock goes on to the second of the entry.
    Tick,
    /// The agent ends the connection of a record before its time (GFD.237, errorEvent).
    Force { number: RecordNo },
    /// A message that it sent was acknowledged.
    Acked(Identity),
}

/// What happened at an agent of a run.
#[derive(Debug, Drop)]
pub struct Event {
    pub agent: AgentNo,
    pub what: Happening,
}

#[derive(Debug, Drop)]
pub enum Happening {
    /// It took an entry; an ask was answered.
    Entry {
        entry: Entry,
        answer: Option<AskAnswer>,
    },
    /// Its first so many entries are kept on its disk.
    Sync {
        count: u64,
    },
    /// It began again with as many entries as its disk has kept.
    Restart {
        count: u64,
    },
}
