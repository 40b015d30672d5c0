//! What aggregators tell in runs of the data planes below them.
#![tactic(auto)]

pub mod laws;
