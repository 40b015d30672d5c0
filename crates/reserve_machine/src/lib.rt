//! The reservation machine (GFD.237, section 6.1, the Reservation State Machine).
#![tactic(auto)]

pub mod table;

pub use table::{RsmEvent, step};
