//! The index of each flow of each point.

ghost use Rattle.std.specs.Prelude.{◌≡◌, ◌≢◌, ◌≤◌, ℕ, IfOk, OnOk, Some, [], true};
ghost use Rattle.nsi_base.specs.declared.flow.Flow.{Flow as AFlow};
ghost use Rattle.capacity_calendar.specs.Load.{load};
ghost use Rattle.capacity_calendar.specs.Places.{capacity_at};
ghost use Rattle.capacity_calendar.specs.Changes.{all_before, all_after, IsWithinFlow};
ghost use Rattle.capacity_calendar.specs.Index.{timeline_at, IsIndexed, IsIndexedAt};
ghost use Rattle.capacity_calendar.specs.Tables.{AreIndexed, HasRoomAt, KeepsPoints, KeepsRoom, StayWithin, line_of, table_of};

use crate::booking::{Change, Place, Slot};
use crate::bookings::Bookings;
use crate::capacities::Capacities;
use crate::index::Index;
use crate::load::books;
use nsi_base::{Flow, StpNo};
use std::alloc::{AllocError, Global};
use std::marker::Model;

/// For each point the index of one flow.
#[derive(Debug, Drop)]
pub(crate) struct Table {
    by_point: Vec<Index>,
}

impl Model for Table {
    ghost use Rattle.std.specs.Prelude.{◌≤◌, List, length};
    ghost use Rattle.capacity_calendar.specs.Index.{Timeline};

    ghost Value = { List Timeline };

    ghost view = { λ t. t.by_point.items };

    ghost invariant = { λ t. 4096 ≤ length t.by_point.items };
}

impl Table {
    fn new(alloc: Global) -> Result<Self, AllocError>
        ensures { IfOk result (λ table. (stp : ℕ) → (timeline_at table stp).points ≡ []) }
    {
        let mut by_point = Vec::new(alloc);
        for n in 0usize..4096 {
            by_point.push(Index::new(alloc))?;
        }
        Ok(Table { by_point })
    }

    pub(crate) fn at(&self, stp: StpNo) -> &Index
        ensures value { result.now ≡ timeline_at self.now stp }
        ensures in_range { stp ≤ 4095 }
    {
        &self.by_point[stp.get() as usize]
    }

    fn make_room(&mut self, stp: StpNo) -> Result<(), AllocError>
        ensures points { (q : ℕ) →
            (timeline_at self.new q).points ≡ (timeline_at self.old q).points }
        ensures more { (q : ℕ) → (timeline_at self.old q).room ≤ (timeline_at self.new q).room }
        ensures room { OnOk result (2 ≤ (timeline_at self.new stp).room) }
    {
        self.by_point[stp.get() as usize].make_room()
    }

    /// Follows a change of a booking at one point.
    fn turn_at(
        &mut self,
        stp: StpNo,
        flow: Flow,
        capacities: &Capacities,
        change: &Change,
        bookings: &Bookings,
    )
        requires room { change.now.comes ≡ true → 2 ≤ (timeline_at self.old stp).room }
        requires within { IsWithinFlow capacities.now flow (all_after change.now bookings.now) }
        requires index { IsIndexedAt capacities.now flow stp
            (all_before change.now bookings.now) (timeline_at self.old stp) }
        ensures index { IsIndexedAt capacities.now flow stp
            (all_after change.now bookings.now) (timeline_at self.new stp) }
        ensures others { (q : ℕ) → q ≢ stp → timeline_at self.new q ≡ timeline_at self.old q }
    {
        let Some(capacity) = capacities.of(stp, flow) else {
            return;
        };
        if books(&change.slot, flow, stp) {
            let place = Place {
                stp,
                flow,
                capacity,
            };
            self.by_point[stp.get() as usize].turn(&place, change, bookings);
        }
    }

    /// Follows a change of a booking at the points of its slot.
    fn turn(&mut self, flow: Flow, capacities: &Capacities, change: &Change, bookings: &Bookings)
        requires source { change.now.comes ≡ true →
            2 ≤ (timeline_at self.old change.now.slot.source).room }
        requires dest { change.now.comes ≡ true →
            2 ≤ (timeline_at self.old change.now.slot.dest).room }
        requires within { IsWithinFlow capacities.now flow (all_after change.now bookings.now) }
        requires index { IsIndexed capacities.now flow
            (all_before change.now bookings.now) self.old }
        ensures { IsIndexed capacities.now flow (all_after change.now bookings.now) self.new }
    {
        let Slot { source, dest, .. } = change.slot;
        self.turn_at(source, flow, capacities, change, bookings);
        if dest != source {
            self.turn_at(dest, flow, capacities, change, bookings);
        }
    }
}

/// The tables of the flows.
#[derive(Debug, Drop)]
pub(crate) struct Tables {
    both: Table,
    inward: Table,
    outward: Table,
}

impl Tables {
    pub(crate) fn new(alloc: Global) -> Result<Self, AllocError>
        ensures { IfOk result (λ tables. (flow : AFlow) (stp : ℕ) →
            (line_of flow tables stp).points ≡ []) }
    {
        Ok(Tables {
            both: Table::new(alloc)?,
            inward: Table::new(alloc)?,
            outward: Table::new(alloc)?,
        })
    }

    pub(crate) fn of(&self, flow: Flow) -> &Table
        ensures { result.now ≡ table_of flow self.now }
    {
        match flow {
            Flow::Both => &self.both,
            Flow::In => &self.inward,
            Flow::Out => &self.outward,
        }
    }

    /// Room at a point for the start and the end of a slot.
    pub(crate) fn make_room(&mut self, stp: StpNo) -> Result<(), AllocError>
        ensures points { KeepsPoints self.old self.new }
        ensures more { KeepsRoom self.old self.new }
        ensures room { OnOk result (HasRoomAt self.new stp) }
    {
        self.both.make_room(stp)?;
        self.inward.make_room(stp)?;
        self.outward.make_room(stp)
    }

    /// Follows a change of a booking, for which there is room.
    pub(crate) fn turn(&mut self, capacities: &Capacities, change: &Change, bookings: &Bookings)
        requires source { change.now.comes ≡ true → HasRoomAt self.old change.now.slot.source }
        requires dest { change.now.comes ≡ true → HasRoomAt self.old change.now.slot.dest }
        requires within { StayWithin capacities.now (all_after change.now bookings.now) }
        requires index { AreIndexed capacities.now (all_before change.now bookings.now) self.old }
        ensures { AreIndexed capacities.now (all_after change.now bookings.now) self.new }
    {
        self.both.turn(Flow::Both, capacities, change, bookings);
        self.inward.turn(Flow::In, capacities, change, bookings);
        self.outward.turn(Flow::Out, capacities, change, bookings);
    }
}
