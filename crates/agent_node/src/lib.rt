//! One agent of a net: it takes what comes to it, keeps what it took, and says what that causes.
#![tactic(auto)]

pub mod fault;
mod links;
mod lists;
pub mod node;
pub mod opening;
mod queue;
mod reading;
pub mod reopen;
mod restart;
mod seated;
mod turn;

pub use fault::TurnFault;
pub use node::Node;
pub use opening::NodeFault;
pub use reopen::{Reopen, ReopenFault, Reread};
