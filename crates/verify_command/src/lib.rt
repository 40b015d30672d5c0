//! The command `verify`: a topology and the lines of a trace come in, and what is found of them goes out.
#![tactic(auto)]

mod command;
mod end;
mod texts;

pub use command::verify;
pub use end::VerifyEnd;
