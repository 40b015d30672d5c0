//! Which messages an agent has taken, so that one that comes again is known, and which of its own wait for their acknowledgement.
#![tactic(auto)]

mod exchange;
pub mod heard;
mod mark;
mod names;
pub mod outbox;
pub mod retry;
mod span;
pub mod taken;

pub use heard::HeardMessages;
pub use outbox::{Outbox, is_of};
pub use retry::Retry;
pub use taken::TakenRequests;
