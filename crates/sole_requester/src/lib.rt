//! What a provider does where one requester alone asks it: laws of each entry.
#![tactic(auto)]

mod laws;

pub use laws::entries;
