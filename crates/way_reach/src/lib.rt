//! How many agents a reserve comes to, by the least paths of the topology.
#![tactic(auto)]

pub mod laws;
