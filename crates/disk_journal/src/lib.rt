//! A journal over a disk that may fail or stop.
#![tactic(auto)]

mod batches;
mod journal;
pub mod laws;
mod opening;
mod reading;

pub use journal::{DiskJournal, StartFault};
pub use opening::StartCause;
