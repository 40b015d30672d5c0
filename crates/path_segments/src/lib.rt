//! The least path between two STPs through the children of an aggregator.
#![tactic(auto)]

mod child_search;
mod laws;
mod least_path;
pub mod path;
mod points;
mod reach;
mod search;

pub use laws::one_least;
pub use least_path::find;
pub use path::{Path, PathFault, Segment};
