//! Runs of scripts: all agents of a topology, round after round.
#![tactic(auto)]

mod act;
pub mod fault;
mod group;
mod meeting;
mod report;
mod resources;
mod restart;
mod rounds;
mod run;

pub use fault::{RoundFault, RunFault};
pub use report::{RunOptions, written};
pub use resources::Resources;
pub use rounds::{round, settled};
pub use run::{Play, play_all, write_text};
