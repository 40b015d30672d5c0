//! Seconds as the texts of date-times, after RFC 3339.
#![tactic(auto)]

pub mod laws;
mod printing;
mod reading;

pub use printing::{SecondText, print_second};
pub use reading::read_second;
