//! A line of a run's text, read back into the event that it is printed for.
#![tactic(auto)]

pub mod fault;
mod inputs;
pub mod laws;
pub mod reading;
mod words;

pub use fault::EventFault;
pub use reading::read_event;
