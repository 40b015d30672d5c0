//! An agent as a trace tells of it: its journal, how much of it is synced, and what it said by that.
#![tactic(auto)]

mod agent;
mod folding;
mod messages;
mod receipts;

pub use agent::Followed;
