//! A whole net: its agents are begun on the disks of a shelf, play a script, and give their disks back.
#![tactic(auto)]

mod closing;
mod joints;
mod opening;
mod world;

pub use closing::close_net;
pub use joints::Joint;
pub use opening::open_net;
pub use world::run_world;
