//! The seconds at which the load of a flow of a point may change.

ghost use Rattle.std.specs.Prelude.{List as Sequence};
ghost use Rattle.std.specs.Prelude.{◌≡◌, ◌≢◌, ◌≤◌, ◌<◌, ◌+◌, ◌-◌, ◌^◌, ◌==◌, ℕ, [], OnOk, length, true, false, if◌then◌else◌, vec_capacity, vec_len, slice_set, insert, min};
ghost use Rattle.nsi_base.specs.Range.{is_covered};
ghost use Rattle.capacity_calendar.specs.Load.{books_slot, claim, load};
ghost use Rattle.capacity_calendar.specs.Changes.{all_before, all_after};
ghost use Rattle.capacity_calendar.specs.Steps.{HasHalved};
ghost use Rattle.capacity_calendar.specs.Index.{AreRestated, ClaimSame, HaveClaims, HaveRoom, IsIndexAt, StaysWithin, one_if, point_at, second_at, ends_by, load_before, restated, AreLoads, IsCount, IsIndex, IsOrderly, IsRestated, Tells};

use crate::booking::{Booking, Change, Place, Point};
use crate::bookings::Bookings;
use crate::load::{after, before, claim};
use crate::steps::Steps;
use nsi_base::{Interval, Second};
use std::alloc::{AllocError, Global};
use std::marker::Model;
use std::sync::ledger::Ledger;

/// The points of a flow, which contracts see with the room that there is for more.
#[derive(Debug, Drop)]
pub(crate) struct Index {
    points: Vec<Point>,
}

impl Model for Index {
    ghost use Rattle.std.specs.Prelude.{◌-◌, vec_capacity, vec_len};
    ghost use Rattle.capacity_calendar.specs.Index.{Timeline, IsOrderly};

    ghost Value = { Timeline };

    ghost view = { λ i.
        record { points = i.points.items; room = vec_capacity i.points - vec_len i.points } };

    ghost invariant = { λ i. IsOrderly i.points.items };
}

impl Index {
    pub(crate) fn new(alloc: Global) -> Self
        ensures { result.points ≡ [] }
    {
        Index {
            points: Vec::new(alloc),
        }
    }

    pub(crate) fn len(&self) -> usize
        ensures { result ≡ length self.now.points }
    {
        self.points.len()
    }

    /// The point at a place. A reading is a step.
    pub(crate) fn point<L: Ledger>(&self, place: usize, steps: &mut Steps<L>) -> Point
        requires { place < length self.now.points }
        ensures point { result ≡ point_at self.now.points place }
        ensures step { steps.new ≡ min (steps.old + 1) (2 ^ 64 - 1) }
    {
        steps.add();
        self.points[place]
    }

    /// How many points come before a second.
    pub(crate) fn count_before<L: Ledger>(&self, bound: u64, steps: &mut Steps<L>) -> usize
        ensures count { IsCount self.now.points bound result }
        ensures orderly { IsOrderly self.now.points }
        ensures halved { HasHalved (length self.now.points) 0 steps.old steps.new }
    {
        let mut low = 0;
        let mut high = self.points.len();
        while low < high {
            let middle = low + (high - low) / 2;
            if self.point(middle, steps).second.get() < bound {
                low = middle + 1;
            } else {
                high = middle;
            }
        }
        low
    }

    /// The load behind the point in front of this place.
    pub(crate) fn load_before<L: Ledger>(&self, place: usize, steps: &mut Steps<L>) -> u64
        requires { place ≤ length self.now.points }
        ensures load { result ≡ load_before self.now.points place }
        ensures step { steps.new ≤ steps.old + 1 }
    {
        if place == 0 {
            0
        } else {
            self.point(place - 1, steps).load
        }
    }

    pub(crate) fn load(&self, t: Second) -> u64
        ensures { (f : ℕ → ℕ) → Tells f self.now.points → result ≡ f t }
    {
        let mut steps = Steps::new();
        let place = self.count_before(t.get() + 1, &mut steps);
        self.load_before(place, &mut steps)
    }

    /// Room for the start and the end of a slot.
    pub(crate) fn make_room(&mut self) -> Result<(), AllocError>
        ensures points { self.new.points ≡ self.old.points }
        ensures more { self.old.room ≤ self.new.room }
        ensures room { OnOk result (2 ≤ self.new.room) }
    {
        self.points.reserve(2)
    }

    /// Whether the point at a place is at this second.
    fn is_at(&self, place: usize, t: Second) -> bool
        ensures within { result ≡ true → place < length self.now.points }
        ensures same { result ≡ true → second_at self.now.points place ≡ t }
        ensures other { result ≡ false →
            place < length self.now.points → second_at self.now.points place ≢ t }
    {
        place < self.points.len() && self.points[place].second == t
    }

    /// Counts an end of a slot more at a second.
    fn mark(&mut self, t: Second)
        requires room { 0 < self.old.room }
        requires few { ends_by self.old.points t + 1 < 2 ^ 32 }
        ensures ends { (u : ℕ) →
            ends_by self.new.points u ≡ ends_by self.old.points u + one_if (t == u) }
        ensures tells { (f : ℕ → ℕ) → Tells f self.old.points → Tells f self.new.points }
        ensures room { self.old.room ≤ self.new.room + 1 }
    {
        let mut steps = Steps::new();
        let place = self.count_before(t.get(), &mut steps);
        if self.is_at(place, t) {
            count_more(&mut self.points, place);
        } else {
            let load = self.load_before(place, &mut steps);
            let point = Point {
                second: t,
                load,
                ends: 1,
            };
            enter(&mut self.points, place, point);
        }
    }

    /// Counts an end of a slot less at a second.
    fn unmark(&mut self, t: Second)
        requires { 0 < ends_by self.old.points t }
        ensures ends { (u : ℕ) →
            ends_by self.new.points u + one_if (t == u) ≡ ends_by self.old.points u }
        ensures loads { (f : ℕ → ℕ) → AreLoads f self.old.points → AreLoads f self.new.points }
    {
        let mut steps = Steps::new();
        let place = self.count_before(t.get(), &mut steps);
        if self.is_at(place, t) {
            if self.point(place, &mut steps).ends == 1 {
                let _point = self.points.remove(place);
            } else {
                count_less(&mut self.points, place);
            }
        }
    }

    /// Puts what a record claims after a change in place of what it claimed before, at the points of an interval.
    fn restate(&mut self, place: &Place, interval: Interval, before: &Booking, after: &Booking)
        requires same { (t : ℕ) → is_covered interval t ≡ false →
            ClaimSame place.now before.now after.now t }
        requires least { HaveClaims place.now before.now self.old.points }
        requires most { HaveRoom place.now before.now after.now self.old.points }
        ensures length { length self.new.points ≡ length self.old.points }
        ensures points { AreRestated place.now before.now after.now
            self.old.points self.new.points }
    {
        let mut steps = Steps::new();
        let from = self.count_before(interval.start().get(), &mut steps);
        let to = self.count_before(interval.end().get(), &mut steps);
        restate_between(&mut self.points, (from, to), place, before, after);
    }

    /// Takes in a slot that comes.
    fn come(&mut self, place: &Place, change: &Change, bookings: &Bookings)
        requires comes { change.now.comes ≡ true }
        requires booked { books_slot place.now.flow place.now.stp change.now.slot ≡ true }
        requires room { 2 ≤ self.old.room }
        requires index { IsIndexAt place.now (all_before change.now bookings.now) self.old.points }
        requires within { StaysWithin place.now (all_after change.now bookings.now) }
        ensures { IsIndexAt place.now (all_after change.now bookings.now) self.new.points }
    {
        bookings.facts();
        self.mark(change.slot.interval.start());
        self.mark(change.slot.interval.end());
        self.restate(place, change.slot.interval, &before(change), &after(change));
    }

    /// Takes out a slot that goes.
    fn go(&mut self, place: &Place, change: &Change, bookings: &Bookings)
        requires goes { change.now.comes ≡ false }
        requires booked { books_slot place.now.flow place.now.stp change.now.slot ≡ true }
        requires index { IsIndexAt place.now (all_before change.now bookings.now) self.old.points }
        requires within { StaysWithin place.now (all_after change.now bookings.now) }
        ensures { IsIndexAt place.now (all_after change.now bookings.now) self.new.points }
    {
        bookings.facts();
        self.restate(place, change.slot.interval, &before(change), &after(change));
        self.unmark(change.slot.interval.start());
        self.unmark(change.slot.interval.end());
    }

    /// Follows a change of a booking.
    pub(crate) fn turn(&mut self, place: &Place, change: &Change, bookings: &Bookings)
        requires booked { books_slot place.now.flow place.now.stp change.now.slot ≡ true }
        requires room { change.now.comes ≡ true → 2 ≤ self.old.room }
        requires index { IsIndexAt place.now (all_before change.now bookings.now) self.old.points }
        requires within { StaysWithin place.now (all_after change.now bookings.now) }
        ensures { IsIndexAt place.now (all_after change.now bookings.now) self.new.points }
    {
        if change.comes {
            self.come(place, change, bookings);
        } else {
            self.go(place, change, bookings);
        }
    }
}

fn count_more(points: &mut Vec<Point>, place: usize)
    requires within { place < length points.old.items }
    requires few { (point_at points.old.items place).ends + 1 < 2 ^ 32 }
    ensures items { let p = point_at points.old.items place in
        points.new.items ≡ slice_set points.old.items place (record p { ends = p.ends + 1 }) }
    ensures capacity { vec_capacity points.new ≡ vec_capacity points.old }
{
    points[place].ends += 1;
}

fn count_less(points: &mut Vec<Point>, place: usize)
    requires within { place < length points.old.items }
    requires some { 0 < (point_at points.old.items place).ends }
    ensures { let p = point_at points.old.items place in
        points.new.items ≡ slice_set points.old.items place (record p { ends = p.ends - 1 }) }
{
    points[place].ends -= 1;
}

/// Enters a point at a place, for which there is room.
fn enter(points: &mut Vec<Point>, place: usize, point: Point)
    requires within { place ≤ vec_len points.old }
    requires room { vec_len points.old < vec_capacity points.old }
    ensures items { points.new.items ≡ insert points.old.items place point }
    ensures capacity { vec_capacity points.old ≤ vec_capacity points.new }
{
    let Ok(()) = points.insert(place, point) else {
        unreachable!();
    };
}

/// States the loads anew from a place up to another.
fn restate_between(
    points: &mut Vec<Point>,
    places: (usize, usize),
    place: &Place,
    before: &Booking,
    after: &Booking,
)
    requires between { places.0 ≤ places.1 }
    requires within { places.1 ≤ length points.old.items }
    requires least { HaveClaims place.now before.now points.old.items }
    requires most { HaveRoom place.now before.now after.now points.old.items }
    ensures { let p = place.now in
        IsRestated p.flow p.stp before.now after.now places.0 places.1
        points.old.items points.new.items }
{
    let (from, to) = places;
    for k in from..to {
        restate_at(points, k, place, before, after);
    }
}

fn restate_at(points: &mut Vec<Point>, k: usize, place: &Place, before: &Booking, after: &Booking)
    requires within { k < length points.old.items }
    requires least { let p = place.now in
        let point = point_at points.old.items k in
        claim p.flow p.stp point.second before.now ≤ point.load }
    requires most { let p = place.now in
        let point = point_at points.old.items k in
        let claims = claim p.flow p.stp point.second in
        point.load + claims after.now ≤ claims before.now + p.capacity }
    ensures { let p = place.now in
        points.new.items ≡ slice_set points.old.items k
        (restated p.flow p.stp before.now after.now (point_at points.old.items k)) }
{
    let _most = place.capacity.get();
    let Point { second, load, .. } = points[k];
    let others = load - claim(before, place.flow, place.stp, second);
    points[k].load = others + claim(after, place.flow, place.stp, second);
}
