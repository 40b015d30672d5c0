//! Requesters that race for one provider, each in a thread of its own, and what its history then says of them.
#![tactic(auto)]

mod alone;
mod callers;
mod racing;

pub use callers::{Race, race_of};
pub use racing::{BookParts, NoGate, RaceCause, RaceFault, Raced, race};
