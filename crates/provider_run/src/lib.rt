//! A provider's run: an entry, and then all work that waits.
#![tactic(auto)]

pub mod works;

pub use works::{Taken, take_with_works};
