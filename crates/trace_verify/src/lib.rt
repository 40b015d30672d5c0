//! Whether the lines of a trace are the text of a run, told by the topology and the lines alone.
#![tactic(auto)]

mod checking;
mod follower;
mod guesses;
mod lines;
mod parcels;
mod step;
mod verdict;

pub use checking::verify;
pub use verdict::{Verdict, VerifyFault, Why};
