//! What the agents of a topology do in a run of a script: definitions, and laws over them.
#![tactic(auto)]

pub mod laws;
