//! Which of an agent's records have something to do, and when.
#![tactic(auto)]

pub mod deadlines;
pub mod places;

pub use deadlines::{Deadline, Deadlines};
pub use places::Places;
