//! The agent of one network, which reserves within the capacities of its own points.
#![tactic(auto)]

mod agent;
mod find;
mod force;
pub mod laws;
pub mod provider;
mod provider_core;
mod query;
mod receive;
mod records;
mod setting;
mod tick;
mod work;

pub use provider::Provider;
