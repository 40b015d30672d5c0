//! Links: what one agent sends to another is known there after a meeting.
#![tactic(auto)]

pub mod ends;
pub mod laws;
pub mod plan;
mod spelled;

pub use ends::{Incoming, Outgoing, PushFault, link, meet};
pub use plan::{How, LinkFault, ParcelKind, Pushed};
