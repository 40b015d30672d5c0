//! One provider with its journal and its history, and the lock by which threads share it.
#![tactic(auto)]

mod asked;
mod book;
mod call;
mod disk_book;
mod journal;
mod register;
mod reply;
mod shared;

pub use book::Book;
pub use call::{CallFault, CallReply};
pub use reply::{BookFault, Reply};
pub use shared::{Pass, SharedProvider};
