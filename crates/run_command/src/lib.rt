//! The command `run`: all agents of a topology play a script, and each of their steps is written, or how many there
//! were.
#![tactic(auto)]

mod command;
mod texts;

pub use command::{RunEnd, begins_with_nothing, run};
