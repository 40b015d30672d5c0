//! How many changes of the data plane, and how many messages, are told in runs.
#![tactic(auto)]

pub mod laws;
