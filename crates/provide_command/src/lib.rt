//! The command `provide`: the first provider of a topology serves lines, each answered behind the sync of what it made.
#![tactic(auto)]

mod command;
mod declaring;
mod output;
mod payload;
mod receiving;
mod replay;
mod service;
mod serving;
mod status;

pub use command::provide;
pub use output::{Fault, read_fault, write_text};
pub use status::Status;
