//! The agent that passes requests on to its children, and joins their answers.
#![tactic(auto)]

mod agent;
pub mod aggregator;
mod aggregator_core;
mod asking;
mod clock;
pub mod connection;
mod connection_index;
mod connection_table;
mod due_table;
mod entering;
mod find;
mod hearing;
mod keeping;
mod late;
pub mod laws;
mod moving;
mod open;
mod open_queries;
mod outbox;
mod parts;
mod passing;
mod planes;
mod query;
mod receive;
mod requesting;
mod rounds;
mod route;
mod said;
mod saying;
mod seeking;
mod settling;
mod turning;
mod verdicts;

pub use agent::Agent;
pub use aggregator::Aggregator;
pub use connection::{Connection, Turning};
pub use route::views_between;
