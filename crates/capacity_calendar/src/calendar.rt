//! The bookings of a provider.

ghost use Rattle.std.specs.Prelude.{◌≡◌, ℕ, ◌≤◌, ◌<◌, IfSome, IfNone, IsSome, OnOk, OnErr, IfOk, Some, None, true, [], ◌∷◌, ◌++◌};
ghost use Rattle.std.specs.Option.{option_copied};
ghost use Rattle.capacity_calendar.specs.Changes.{booking_with};
ghost use Rattle.capacity_calendar.specs.Steps.{IsQuick};
ghost use Rattle.capacity_calendar.specs.Tables.{AreIndexed, StayWithin};
ghost use Rattle.capacity_calendar.specs.Load.{load, others};
ghost use Rattle.capacity_calendar.specs.Lack.{first_lack_among};
ghost use Rattle.capacity_calendar.specs.Plan.{booking_of, committed_of, pending_of, pending_set, with_pending, settled};
ghost use Rattle.capacity_calendar.specs.Places.{capacity_at, booked_place, places_at};

use crate::booking::{Booking, Capacity, Change, Demand, Lack, Place, Slot, Wish};
use crate::bookings::Bookings;
use crate::capacities::Capacities;
use crate::lack::{first_second, sooner};
use crate::load::{after, books, own};
use crate::steps::Steps;
use crate::tables::Tables;
use nsi_base::{Flow, Interval, List, Mbps, RecordNo, Second, StpNo};
use std::alloc::{AllocError, Global};
use std::marker::Model;
use std::sync::ledger::Ledger;

/// The capacities of service termination points, and bookings within them.
#[derive(Debug, Drop)]
pub struct Calendar {
    capacities: Capacities,
    bookings: Bookings,
    tables: Tables,
}

impl Model for Calendar {
    ghost use Rattle.capacity_calendar.specs.Tables.{AreIndexed};
    ghost use Rattle.capacity_calendar.specs.Plan.{Plan, IsSound};

    ghost Value = { Plan };

    ghost view = { λ c. record { capacities = c.capacities; bookings = c.bookings } };

    ghost invariant = { λ c. IsSound (record { capacities = c.capacities; bookings = c.bookings })
        × AreIndexed c.capacities c.bookings c.tables };
}

impl Calendar {
    ghost use Rattle.capacity_calendar.specs.Plan.{Plan, IsSound, Fits, IsFirstLack, first_lack, first_lack_at};
    ghost use Rattle.capacity_calendar.specs.Places.{capacity_at};

    pub fn new(alloc: Global, capacities: List<Capacity>) -> Result<Calendar, AllocError>
        ensures empty { IfOk result (λ c. c ≡ record { capacities = capacities; bookings = [] }) }
        ensures sound { IfOk result IsSound }
    {
        Ok(Calendar {
            capacities: Capacities::new(alloc, capacities)?,
            bookings: Bookings::new(alloc),
            tables: Tables::new(alloc)?,
        })
    }

    /// It costs nothing, and tells what is true of every calendar.
    pub fn facts(&self)
        ensures { IsSound self.now }
    {
        let _bookings = &self.bookings;
    }

    /// The capacity of a flow of a service termination point, where the point has the flow.
    pub fn capacity(&self, stp: StpNo, flow: Flow) -> Option<Mbps>
        ensures { result ≡ capacity_at self.now.capacities stp flow }
    {
        self.capacities.of(stp, flow)
    }

    /// What a record has booked.
    pub fn booking(&self, number: RecordNo) -> Option<&Booking>
        ensures { option_copied result ≡ booking_of number self.now.bookings }
    {
        self.bookings.of(number)
    }

    /// The Mbps that are booked of a flow at a second, where the point has the flow.
    pub fn load_at(&self, stp: StpNo, flow: Flow, t: Second) -> u64
        ensures sum { IfSome (capacity_at self.now.capacities stp flow)
            (λ _. result ≡ load flow stp t self.now.bookings) }
        ensures none { IfNone (capacity_at self.now.capacities stp flow) (result ≡ 0) }
        ensures within { IfSome (capacity_at self.now.capacities stp flow) (λ c. result ≤ c) }
    {
        if self.capacities.of(stp, flow).is_none() {
            return 0;
        }
        self.tables.of(flow).at(stp).load(t)
    }

    /// The first second at which the other records leave too little of a flow for what a record asks.
    pub fn check(
        &self,
        stp: StpNo,
        flow: Flow,
        interval: Interval,
        mbps: Mbps,
        number: RecordNo,
    ) -> Option<Lack>
        requires { IsSome (capacity_at self.now.capacities stp flow) }
        ensures none { IfNone result (Fits self.now number stp flow interval mbps) }
        ensures first { IfSome result (IsFirstLack self.now number stp flow interval mbps) }
        ensures function { result ≡ first_lack_at self.now number stp flow interval mbps }
    {
        self.check_counted(stp, flow, interval, mbps, number, &mut Steps::new())
    }

    /// The same, and counts the points that are read: those of a search by halves, those inside the interval, and two.
    pub fn check_counted<L: Ledger>(
        &self,
        stp: StpNo,
        flow: Flow,
        interval: Interval,
        mbps: Mbps,
        number: RecordNo,
        steps: &mut Steps<L>,
    ) -> Option<Lack>
        requires { IsSome (capacity_at self.now.capacities stp flow) }
        ensures none { IfNone result (Fits self.now number stp flow interval mbps) }
        ensures first { IfSome result (IsFirstLack self.now number stp flow interval mbps) }
        ensures function { result ≡ first_lack_at self.now number stp flow interval mbps }
        ensures quick { IsQuick flow stp self.now.bookings interval steps.old steps.new }
    {
        let capacity = self.capacities.of(stp, flow)?;
        let place = Place {
            stp,
            flow,
            capacity,
        };
        let demand = Demand {
            number,
            place,
            interval,
            mbps,
        };
        let index = self.tables.of(flow).at(stp);
        let found = first_second(&self.bookings, index, &demand, steps)?;
        Some(Lack {
            stp,
            flow,
            second: found.second,
            load: found.load,
            capacity,
        })
    }

    /// The first lack of what a record asks between two points: the least second, there the source before the
    /// destination, and in before out.
    pub fn first_lack(
        &self,
        number: RecordNo,
        source: StpNo,
        dest: StpNo,
        both_ways: bool,
        interval: Interval,
        mbps: Mbps,
    ) -> Option<Lack>
        ensures { result ≡ first_lack self.now number source dest both_ways interval mbps }
    {
        let slot = Slot {
            source,
            dest,
            both_ways,
            interval,
            mbps,
        };
        let wish = Wish { number, slot };
        let at_source = self.lack_at_point(&wish, source);
        let at_dest = self.lack_at_point(&wish, dest);
        sooner(at_source, at_dest)
    }

    fn lack_at_point(&self, wish: &Wish, stp: StpNo) -> Option<Lack>
        ensures { let s = wish.now.slot in
            let places = places_at self.now.capacities s.source s.dest s.both_ways stp in
            let rest = others wish.now.number self.now.bookings in
            result ≡ first_lack_among places rest s.interval s.mbps }
    {
        let both = self.lack_in_flow(wish, stp, Flow::Both);
        let inward = self.lack_in_flow(wish, stp, Flow::In);
        let outward = self.lack_in_flow(wish, stp, Flow::Out);
        sooner(both, sooner(inward, outward))
    }

    fn lack_in_flow(&self, wish: &Wish, stp: StpNo, flow: Flow) -> Option<Lack>
        ensures { let s = wish.now.slot in
            let place = booked_place self.now.capacities s.source s.dest s.both_ways stp flow in
            let rest = others wish.now.number self.now.bookings in
            result ≡ first_lack_among place rest s.interval s.mbps }
    {
        if !books(&wish.slot, flow, stp) {
            return None;
        }
        self.capacities.of(stp, flow)?;
        self.check(stp, flow, wish.slot.interval, wish.slot.mbps, wish.number)
    }

    /// Adds a pending slot of a record, in its booking or in a new one. Where memory is wanting, nothing is changed.
    pub fn put(
        &mut self,
        number: RecordNo,
        source: StpNo,
        dest: StpNo,
        both_ways: bool,
        interval: Interval,
        mbps: Mbps,
    ) -> Result<(), AllocError>
        requires fits { first_lack self.old number source dest both_ways interval mbps ≡ None }
        requires free { pending_of number self.old.bookings ≡ None }
        ensures ok { let bookings = with_pending number (record {
          source = source;
          dest = dest;
          both_ways = both_ways;
          interval = interval;
          mbps = mbps;
        }) self.old.bookings in
            OnOk result (self.new ≡ record self.old { bookings = bookings }) }
        ensures err { OnErr result (self.new ≡ self.old) }
        ensures sound { IsSound self.new }
    {
        let change = Change {
            number,
            slot: Slot {
                source,
                dest,
                both_ways,
                interval,
                mbps,
            },
            other: self.bookings.committed_of(number),
            comes: true,
        };
        self.tables.make_room(source)?;
        self.tables.make_room(dest)?;
        self.bookings.put(&after(&change))?;
        self.tables.turn(&self.capacities, &change, &self.bookings);
        Ok(())
    }

    /// Makes the pending slot of a record its committed one, in place of the former.
    pub fn settle(&mut self, number: RecordNo)
        requires { IsSome (pending_of number self.old.bookings) }
        ensures settled { self.new ≡
            record self.old { bookings = settled number self.old.bookings } }
        ensures sound { IsSound self.new }
    {
        let former = own(&self.bookings, number);
        self.bookings.settle(number);
        release(
            &mut self.tables,
            &self.capacities,
            &self.bookings,
            number,
            &former.committed,
            &former.pending,
        );
    }

    /// Takes the pending slot of a record away, where it has one. The booking stays.
    pub fn take_pending(&mut self, number: RecordNo)
        ensures taken { self.new ≡
            record self.old { bookings = pending_set number None self.old.bookings } }
        ensures sound { IsSound self.new }
    {
        let former = own(&self.bookings, number);
        self.bookings.take_pending(number);
        release(
            &mut self.tables,
            &self.capacities,
            &self.bookings,
            number,
            &former.pending,
            &former.committed,
        );
    }

    /// Takes the booking of a record away, where it has one.
    pub fn take_all(&mut self, number: RecordNo)
        ensures taken { self.new ≡ record self.old { bookings = others number self.old.bookings } }
        ensures sound { IsSound self.new }
    {
        let former = own(&self.bookings, number);
        self.bookings.take_all(number);
        release(
            &mut self.tables,
            &self.capacities,
            &self.bookings,
            number,
            &former.committed,
            &former.pending,
        );
        release(
            &mut self.tables,
            &self.capacities,
            &self.bookings,
            number,
            &former.pending,
            &None,
        );
    }
}

/// Follows a slot that goes, where there is one, beside the other slot of its record.
fn release(
    tables: &mut Tables,
    capacities: &Capacities,
    bookings: &Bookings,
    number: RecordNo,
    slot: &Option<Slot>,
    other: &Option<Slot>,
)
    requires within { let all = booking_with number other.now None ∷ others number bookings.now in
        StayWithin capacities.now all }
    requires index { let all =
        booking_with number other.now slot.now ∷ others number bookings.now in
        AreIndexed capacities.now all tables.old }
    ensures { let all = booking_with number other.now None ∷ others number bookings.now in
        AreIndexed capacities.now all tables.new }
{
    if let Some(slot) = slot {
        let change = Change {
            number,
            slot: *slot,
            other: *other,
            comes: false,
        };
        tables.turn(capacities, &change, bookings);
    }
}
