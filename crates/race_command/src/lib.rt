//! The command `race`: requesters of one provider ask at once, each in a thread of its own.
#![tactic(auto)]

mod command;
mod ending;
mod reading;
mod texts;

pub use command::{Means, race};
pub use ending::RaceEnd;
