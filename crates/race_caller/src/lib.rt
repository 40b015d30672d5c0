//! One caller of a provider: a requester that asks, call after call, and keeps what it is told.
#![tactic(auto)]

mod asker;
mod desk;
mod locked;
mod serving;

pub use asker::Asker;
pub use desk::{Answer, Desk, DoneWork, Work};
pub use locked::{Door, Gate};
pub use serving::{Job, served, served_by};
