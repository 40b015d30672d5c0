//! A parent's view of a child's connection: what it asked, and what the child's answers made of it.
#![tactic(auto)]

pub mod laws;
pub mod savepoint;
pub mod state;
pub mod view;

pub use savepoint::Savepoint;
pub use state::{AskFault, Phase, Sent, Taken};
pub use view::ChildConnection;
