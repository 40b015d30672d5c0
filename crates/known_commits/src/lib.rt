//! What a requester knows of a commit once it gets the confirmation.
#![tactic(auto)]

pub mod laws;
