//! Events with their places in a history.

use nsi_primitive::Event;

/// An event, and the place in the history of the entry that caused it.
#[derive(Debug, Drop)]
pub struct Item {
    pub place: u64,
    pub event: Event,
}

/// Where what a caller kept and what the history has of it differ first.
#[derive(Debug, Drop)]
pub struct Difference {
    pub place: u64,
    pub kept: Option<Event>,
    pub found: Option<Event>,
}
