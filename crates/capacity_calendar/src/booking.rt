//! What is booked between service termination points.

use nsi_base::{Flow, Interval, Mbps, RecordNo, Second, StpNo};

/// What a flow of a service termination point can carry.
#[derive(Clone, Copy, Debug, PartialEq, Eq)]
pub struct Capacity {
    pub stp: StpNo,
    pub flow: Flow,
    pub mbps: Mbps,
}

/// A bandwidth over an interval, between two points.
#[derive(Clone, Copy, Debug, PartialEq, Eq)]
pub struct Slot {
    pub source: StpNo,
    pub dest: StpNo,
    pub both_ways: bool,
    pub interval: Interval,
    pub mbps: Mbps,
}

/// All that one record books: at most one committed and one pending slot, each between points of its own.
#[derive(Clone, Copy, Debug, PartialEq, Eq)]
pub struct Booking {
    pub number: RecordNo,
    pub committed: Option<Slot>,
    pub pending: Option<Slot>,
}

/// Where and when bandwidth is lacking, with what the other records have booked there.
#[derive(Clone, Copy, Debug, PartialEq, Eq)]
pub struct Lack {
    pub stp: StpNo,
    pub flow: Flow,
    pub second: Second,
    pub load: u64,
    pub capacity: Mbps,
}

/// A flow of a service termination point, with its capacity.
#[derive(Clone, Copy, Debug, PartialEq, Eq)]
pub struct Place {
    pub stp: StpNo,
    pub flow: Flow,
    pub capacity: Mbps,
}

/// The capacities of a point by flow, where it has the flow.
#[derive(Clone, Copy, Debug, PartialEq, Eq)]
pub(crate) struct PointCapacities {
    pub(crate) both: Option<Mbps>,
    pub(crate) inward: Option<Mbps>,
    pub(crate) outward: Option<Mbps>,
}

/// A second at which slots start or end, how many they are, and the load from it to the next.
#[derive(Clone, Copy, Debug, PartialEq, Eq)]
pub(crate) struct Point {
    pub(crate) second: Second,
    pub(crate) load: u64,
    pub(crate) ends: u32,
}

/// A slot that comes to the other slot of its record, or goes from it.
#[derive(Clone, Copy, Debug, PartialEq, Eq)]
pub(crate) struct Change {
    pub(crate) number: RecordNo,
    pub(crate) slot: Slot,
    pub(crate) other: Option<Slot>,
    pub(crate) comes: bool,
}

/// A second at which bandwidth is lacking, and the load of the other records there.
#[derive(Clone, Copy, Debug, PartialEq, Eq)]
pub(crate) struct Shortage {
    pub(crate) second: Second,
    pub(crate) load: u64,
}

/// What a record asks for.
#[derive(Clone, Copy, Debug, PartialEq, Eq)]
pub(crate) struct Wish {
    pub(crate) number: RecordNo,
    pub(crate) slot: Slot,
}

/// What a record asks for at one place.
#[derive(Clone, Copy, Debug, PartialEq, Eq)]
pub(crate) struct Demand {
    pub(crate) number: RecordNo,
    pub(crate) place: Place,
    pub(crate) interval: Interval,
    pub(crate) mbps: Mbps,
}
