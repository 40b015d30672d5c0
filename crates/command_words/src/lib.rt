//! The words of a command line: which command they name.
#![tactic(auto)]

mod command;
mod parsing;
mod words;

pub use command::{Command, Load, Play};
pub use words::{command_of, race_of};
