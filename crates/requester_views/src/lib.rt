//! What the views of a requester stand for: between which points the connections are that they know.
#![tactic(auto)]

pub mod laws;
