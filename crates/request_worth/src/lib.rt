//! What requests are worth: no agent asks for more than it was asked for.
#![tactic(auto)]

pub mod laws;
