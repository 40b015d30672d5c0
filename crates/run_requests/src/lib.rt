//! How many requests agents say and take in a run: no more than their users' asks are worth.
#![tactic(auto)]

pub mod laws;
