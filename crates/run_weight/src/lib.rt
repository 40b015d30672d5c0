//! How many events a play makes at most: a number that one can compute from topology and script.
#![tactic(auto)]

pub mod laws;
