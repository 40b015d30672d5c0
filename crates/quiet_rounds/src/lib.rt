//! Rounds without events come to an end.
#![tactic(auto)]

pub mod laws;
