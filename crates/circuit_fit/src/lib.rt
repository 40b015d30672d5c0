//! How an aggregator's own record fits the views of its children, whatever they answer.
#![tactic(auto)]

pub mod laws;
