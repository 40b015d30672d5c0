//! The provision machine (GFD.237, the Provision State Machine).
#![tactic(auto)]

pub mod table;

pub use table::{PsmEvent, step};
