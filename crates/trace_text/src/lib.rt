//! What happened in a run, as text: a line for each event.
#![tactic(auto)]

mod printing;
mod spelled;

pub use printing::{print_event, print_events, print_spelled, push_event};
pub use spelled::SpelledEvent;
