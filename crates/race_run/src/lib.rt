//! Callers that race for one provider behind a lock, and what its history has of each of them.
#![tactic(auto)]

mod item;
mod replayed;
mod same;

pub use item::{Difference, Item};
pub use replayed::{Call, Lists, is_caller, push_entry, push_got, replay};
pub use same::compare;
