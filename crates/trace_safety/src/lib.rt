//! What is known of a trace that was found to be the text of a run.
#![tactic(auto)]

pub mod laws;
