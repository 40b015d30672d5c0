//! The commands of the program.
#![tactic(auto)]

mod asked;
mod calls;
mod check;
mod generating;
mod paths;
mod racing;
mod running;
mod verifying;

pub use calls::{top, top_plain};
pub use check::one_check;
pub use provide_command::Status;
pub use racing::top_or_race;
