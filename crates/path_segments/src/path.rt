//! Paths and the segments that they are made of.

use nsi_base::{AgentNo, List, StpNo};

/// A child of an aggregator, with the STP where traffic enters it and the one where it leaves.
#[derive(Clone, Copy, Debug, PartialEq, Eq)]
pub struct Segment {
    pub child: AgentNo,
    pub entry: StpNo,
    pub exit: StpNo,
}

/// The segments from a source to a destination, in order.
#[derive(Debug, Drop)]
pub struct Path {
    pub segments: List<Segment>,
}

/// Why there is no answer.
#[derive(Clone, Copy, Debug, PartialEq, Eq)]
pub enum PathFault {
    /// No path leads from the source to the destination.
    NoPath,
    NoMemory,
}

/// A segment by its child's place among the aggregator's children.
#[derive(Clone, Copy, Debug, PartialEq, Eq)]
pub struct PlacedSegment {
    pub place: usize,
    pub entry: u16,
    pub exit: u16,
}
