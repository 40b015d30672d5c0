//! Asks as words and as texts, both ways.
#![tactic(auto)]

pub mod laws;
pub mod printing;
pub mod reading;

pub use printing::print_ask;
pub use reading::{AskTextFault, ask_in, read_ask};
