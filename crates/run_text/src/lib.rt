//! The law that the printed text of a run is of that run alone.
#![tactic(auto)]

pub mod laws;
