//! What an agent keeps of a connection, and what its machines do to it.
#![tactic(auto)]

pub mod apply;
mod copies;
pub mod laws;
pub mod life;
pub mod moves;
pub mod provisioning;
pub mod record;
pub mod refusal;
mod reply;
pub mod savepoint;

pub use apply::Move;
pub use life::LifecycleMove;
pub use moves::{Origin, Reply, ReservationMove};
pub use provisioning::ProvisionMove;
pub use record::Record;
pub use savepoint::Savepoint;
