//! The status of a connection's data plane, apart from its machines (GFD.237, the data plane).
#![tactic(auto)]

pub mod plane;

pub use plane::{announces, joined, status};
