//! The first second at which a place lacks bandwidth.

ghost use Rattle.std.specs.Prelude.{◌≡◌, ◌≤◌, ◌<◌, ◌+◌, ◌-◌, MatchOption, IfSome, nat_lt};
ghost use Rattle.capacity_calendar.specs.Index.{IsIndexFor};
ghost use Rattle.capacity_calendar.specs.Load.{claim, load, others};
ghost use Rattle.capacity_calendar.specs.Lack.{is_lacking};
ghost use Rattle.capacity_calendar.specs.Search.{IsFirst, HasRoom, sooner};
ghost use Rattle.capacity_calendar.specs.Steps.{IsQuick};

use crate::booking::{Booking, Demand, Lack, Point, Shortage};
use crate::bookings::Bookings;
use crate::index::Index;
use crate::load::{claim, own};
use crate::steps::Steps;
use nsi_base::Second;
use std::sync::ledger::Ledger;

/// What the other records have booked, of a load that has the record's own bookings in it.
fn load_of_others(demand: &Demand, own: &Booking, load: u64, t: Second) -> u64
    requires { let p = demand.now.place in claim p.flow p.stp t own.now ≤ load }
    ensures { let p = demand.now.place in result ≡ load - claim p.flow p.stp t own.now }
{
    load - claim(own, demand.place.flow, demand.place.stp, t)
}

/// Whether a load and what is asked beside it are more than the capacity.
fn is_too_much(demand: &Demand, load: u64) -> bool
    requires { load ≤ demand.now.place.capacity }
    ensures { result ≡ nat_lt demand.now.place.capacity (load + demand.now.mbps) }
{
    let capacity = demand.place.capacity.get();
    load + demand.mbps.get() > capacity
}

/// The first second of the interval at which the bookings of the other records leave too little.
pub(crate) fn first_second<L: Ledger>(
    bookings: &Bookings,
    index: &Index,
    demand: &Demand,
    steps: &mut Steps<L>,
) -> Option<Shortage>
    requires { IsIndexFor demand.now.place bookings.now index.now.points }
    ensures ordered { demand.now.interval.start < demand.now.interval.end }
    ensures first { let rest = others demand.now.number bookings.now in
        let lacks = is_lacking demand.now.place rest demand.now.mbps in
        MatchOption result (HasRoom lacks demand.now.interval)
        (λ s. IsFirst lacks demand.now.interval s.second) }
    ensures load { let p = demand.now.place in
        IfSome result
        (λ s. s.load ≡ load p.flow p.stp s.second (others demand.now.number bookings.now)) }
    ensures quick { let p = demand.now.place in
        IsQuick p.flow p.stp bookings.now demand.now.interval steps.old steps.new }
{
    let own = own(bookings, demand.number);
    let start = demand.interval.start();
    let mut place = index.count_before(start.get() + 1, steps);
    let load = load_of_others(demand, &own, index.load_before(place, steps), start);
    if is_too_much(demand, load) {
        return Some(Shortage {
            second: start,
            load,
        });
    }
    while place < index.len() {
        let Point { second, load, .. } = index.point(place, steps);
        if second >= demand.interval.end() {
            return None;
        }
        let load = load_of_others(demand, &own, load, second);
        if is_too_much(demand, load) {
            return Some(Shortage { second, load });
        }
        place += 1;
    }
    None
}

/// The lack at the lesser second, the first where both are at the same.
pub(crate) fn sooner(lack: Option<Lack>, other: Option<Lack>) -> Option<Lack>
    ensures { result ≡ sooner lack other }
{
    match (lack, other) {
        (None, other) => other,
        (Some(a), None) => Some(a),
        (Some(a), Some(b)) => Some(if a.second <= b.second { a } else { b }),
    }
}
