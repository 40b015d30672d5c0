//! How the views of a parent stand against the records of its child, in every run and every cut of its worlds; and that every run is safe:
//! at each agent, and of each parent and its children together.
#![tactic(auto)]

pub mod laws;
pub mod safety;
