//! The topology of a network: its agents, their service termination points (STPs) and how these are joined.
#![tactic(auto)]

mod child_lines;
mod children;
mod declare;
pub mod fault;
mod laws;
mod names;
mod network;
mod partners;
mod rank;
pub mod text;
pub mod topology;
pub mod words;

pub use children::ChildLines;
pub use fault::{LineRefusal, TopologyFault, TopologyRefusal};
pub use laws::every_topology;
pub use names::Names;
pub use network::{AgentKind, Network, PointCapacity};
pub use partners::Partners;
pub use text::read_topology;
pub use topology::{Taken, Topology};
