//! The capacities of service termination points, found by their points.

ghost use Rattle.std.specs.Prelude.{List as Sequence};
ghost use Rattle.std.specs.Prelude.{◌≡◌, ◌≤◌, ◌∷◌, ◌++◌, [], IfOk, Some, length, replicate, if◌then◌else◌};
ghost use Rattle.nsi_base.specs.declared.flow.Flow.{Flow as AFlow};
ghost use Rattle.capacity_calendar.specs.declared.booking.Capacity.{Capacity as ACapacity};
ghost use Rattle.capacity_calendar.specs.ByPoint.{of_flow, nothing, AreByPoint};
ghost use Rattle.capacity_calendar.specs.Lack.{or_else};
ghost use Rattle.capacity_calendar.specs.Places.{capacity_at, is_same_flow};

use crate::booking::{Capacity, PointCapacities};
use nsi_base::{Flow, List, Mbps, StpNo};
use std::alloc::{AllocError, Global};
use std::marker::Model;

/// Capacities, which contracts see as a list. Of two of one flow of a point the first counts.
#[derive(Debug, Drop)]
pub(crate) struct Capacities {
    all: List<Capacity>,
    by_point: Vec<PointCapacities>,
}

impl Model for Capacities {
    ghost use Rattle.std.specs.Prelude.{◌≤◌, List, length};
    ghost use Rattle.capacity_calendar.specs.declared.booking.Capacity.{Capacity};
    ghost use Rattle.capacity_calendar.specs.ByPoint.{AreByPoint};

    ghost Value = { List Capacity };

    ghost view = { λ c. c.all };

    ghost invariant = { λ c. (4096 ≤ length c.by_point.items) × AreByPoint c.all c.by_point.items };
}

impl Capacities {
    pub(crate) fn new(alloc: Global, all: List<Capacity>) -> Result<Self, AllocError>
        ensures { IfOk result (λ c. c ≡ all) }
    {
        let mut by_point = no_capacities(alloc)?;
        for capacity in all.items() {
            note(&mut by_point, capacity);
        }
        Ok(Capacities { all, by_point })
    }

    /// The capacity of a flow of a point, where the point has the flow.
    pub(crate) fn of(&self, stp: StpNo, flow: Flow) -> Option<Mbps>
        ensures { result ≡ capacity_at self.now stp flow }
    {
        self.by_point[stp.get() as usize].of(flow)
    }
}

fn no_capacities(alloc: Global) -> Result<Vec<PointCapacities>, AllocError>
    ensures { IfOk result (λ v. v.items ≡ replicate 4096 nothing) }
{
    let none = PointCapacities {
        both: None,
        inward: None,
        outward: None,
    };
    vec![in alloc; none; 4096]
}

/// Keeps a capacity, unless its point has one of this flow.
fn note(by_point: &mut Vec<PointCapacities>, capacity: &Capacity)
    requires { 4096 ≤ length by_point.old.items }
    ensures length { length by_point.new.items ≡ length by_point.old.items }
    ensures kept { (front : Sequence ACapacity) → AreByPoint front by_point.old.items →
        AreByPoint (front ++ capacity.now ∷ []) by_point.new.items }
{
    let place = capacity.stp.get() as usize;
    let kept = by_point[place].with(capacity.flow, capacity.mbps);
    by_point[place] = kept;
}

impl PointCapacities {
    fn of(&self, flow: Flow) -> Option<Mbps>
        ensures { result ≡ of_flow flow self.now }
    {
        match flow {
            Flow::Both => self.both,
            Flow::In => self.inward,
            Flow::Out => self.outward,
        }
    }

    /// With a capacity more, unless there is one of this flow.
    fn with(&self, flow: Flow, mbps: Mbps) -> PointCapacities
        ensures { (f : AFlow) → of_flow f result ≡
            (if is_same_flow flow f then or_else (of_flow f self.now) (Some mbps)
            else of_flow f self.now) }
    {
        let first = Some(self.of(flow).unwrap_or(mbps));
        match flow {
            Flow::Both => PointCapacities {
                both: first,
                ..*self
            },
            Flow::In => PointCapacities {
                inward: first,
                ..*self
            },
            Flow::Out => PointCapacities {
                outward: first,
                ..*self
            },
        }
    }
}
