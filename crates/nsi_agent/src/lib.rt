//! An agent of a topology, of whichever kind.
#![tactic(auto)]

pub mod agent;
pub mod kind;
pub mod laws;

pub use agent::Agent;
pub use kind::Kind;
