//! The agent that asks for connections: one view of a connection for each label.
#![tactic(auto)]

mod asking;
mod hearing;
mod labels;
pub mod laws;
mod query;
pub mod requester;
mod requester_core;
mod view_table;

pub use requester::Requester;
