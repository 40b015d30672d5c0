//! Worlds and runs: what may happen at the agents of a topology, whatever is lost, comes twice or comes late; and the law that what
//! a script makes them do is a run.
#![tactic(auto)]

pub mod laws;
