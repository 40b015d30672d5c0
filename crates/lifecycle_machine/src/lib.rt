//! The lifecycle machine (GFD.237, the Lifecycle State Machine).
#![tactic(auto)]

pub mod table;

pub use table::{LsmEvent, step};
