//! At the end of a play each request is answered: by the agent that got it, or, at an aggregator, an answer of a child is missing.
#![tactic(auto)]

pub mod laws;
