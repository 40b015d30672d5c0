//! Every topology has least ways: the legs that all promises about runs speak of are there, whatever the topology, and
//! there is one choice of them.
#![tactic(auto)]

pub mod laws;
