//! What the user of a requester asks.

use crate::id::Id;
use crate::kind::Directionality;
use nsi_base::{Mbps, Name, Second, Version};

/// An ask about the connection with a label, which the user chooses. Only a summary may do without one.
#[derive(Debug, Drop)]
pub struct Ask {
    pub label: Option<Name>,
    pub what: What,
}

#[derive(Debug, Drop)]
pub enum What {
    /// A new connection between two points that differ, or a modification.
    Reserve(ReserveAsk),
    Commit,
    Abort,
    Provision,
    Release,
    Terminate,
    /// Of the connection, or of all connections.
    Summary,
    Notifications(Option<NumbersAsked>),
    Results(Option<NumbersAsked>),
    Recursive,
}

/// A modification keeps the direction of its connection, whatever is asked here.
#[derive(Debug, Drop)]
pub struct ReserveAsk {
    pub source: Name,
    pub dest: Name,
    pub capacity: Mbps,
    pub start: Second,
    pub end: Second,
    pub version: Option<Version>,
    pub directionality: Directionality,
}

/// From the first number to the last one, both included.
#[derive(Clone, Copy, Debug, PartialEq, Eq)]
pub struct NumbersAsked {
    pub from: u64,
    pub to: u64,
}

/// What a requester answers to an ask.
#[derive(Clone, Copy, Debug, PartialEq, Eq)]
pub enum AskAnswer {
    /// A request was sent.
    Sent,
    /// The connection's id isn't known.
    NoId,
    /// The connection has a request to the same machine that isn't answered: its correlationId.
    Outstanding(Id),
}
