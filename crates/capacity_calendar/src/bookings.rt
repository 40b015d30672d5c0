//! The bookings of records, each found by the number of its record.

ghost use Rattle.std.specs.Prelude.{◌≡◌, ◌≤◌, ◌<◌, ◌+◌, OnOk, OnErr, get_or, slice_set, length, None, []};
ghost use Rattle.std.specs.Option.{option_copied};
ghost use Rattle.capacity_calendar.specs.Kept.{present, IsNumbered};
ghost use Rattle.capacity_calendar.specs.Load.{others};
ghost use Rattle.capacity_calendar.specs.Plan.{HasOneEach, booking_of, committed_of, pending_of, pending_set, placed, settled};

use crate::booking::{Booking, Slot};
use nsi_base::RecordNo;
use std::alloc::{AllocError, Global};
use std::marker::Model;

/// Bookings, which contracts see as a list in the order of their records' numbers.
#[derive(Debug, Drop)]
pub(crate) struct Bookings {
    by_number: Vec<Option<Booking>>,
}

impl Model for Bookings {
    ghost use Rattle.std.specs.Prelude.{◌≤◌, List, length};
    ghost use Rattle.capacity_calendar.specs.declared.booking.Booking.{Booking};
    ghost use Rattle.capacity_calendar.specs.Kept.{present, IsNumbered};

    ghost Value = { List Booking };

    ghost view = { λ b. present b.by_number.items };

    ghost invariant = { λ b. IsNumbered 0 b.by_number.items ×
        (length b.by_number.items ≤ 4194304) };
}

impl Bookings {
    pub(crate) fn new(alloc: Global) -> Self
        ensures { result ≡ [] }
    {
        Bookings {
            by_number: Vec::new(alloc),
        }
    }

    /// It costs nothing, and tells what is true of all bookings.
    pub(crate) fn facts(&self)
        ensures one_each { HasOneEach self.now }
        ensures few { length self.now ≤ 4194304 }
    {
        let _bookings = &self.by_number;
    }

    pub(crate) fn of(&self, number: RecordNo) -> Option<&Booking>
        ensures value { option_copied result ≡ booking_of number self.now }
        ensures one_each { HasOneEach self.now }
    {
        at(&self.by_number, number)
    }

    pub(crate) fn committed_of(&self, number: RecordNo) -> Option<Slot>
        ensures { result ≡ committed_of number self.now }
    {
        self.of(number)?.committed
    }

    pub(crate) fn pending_of(&self, number: RecordNo) -> Option<Slot>
        ensures { result ≡ pending_of number self.now }
    {
        self.of(number)?.pending
    }

    /// Places a booking, instead of the former one of its record.
    pub(crate) fn put(&mut self, booking: &Booking) -> Result<(), AllocError>
        ensures ok { OnOk result (self.new ≡ placed booking.now self.old) }
        ensures err { OnErr result (self.new ≡ self.old) }
        ensures one_each { HasOneEach self.new }
    {
        make_room(&mut self.by_number, booking.number)?;
        set(&mut self.by_number, booking.number, &Some(*booking));
        Ok(())
    }

    pub(crate) fn settle(&mut self, number: RecordNo)
        ensures { self.new ≡ settled number self.old }
    {
        let Some(booking) = at(&self.by_number, number) else {
            return;
        };
        let committed = settled(booking);
        set(&mut self.by_number, number, &Some(committed));
    }

    pub(crate) fn take_pending(&mut self, number: RecordNo)
        ensures { self.new ≡ pending_set number None self.old }
    {
        let Some(booking) = at(&self.by_number, number) else {
            return;
        };
        let committed = without_pending(booking);
        set(&mut self.by_number, number, &Some(committed));
    }

    pub(crate) fn take_all(&mut self, number: RecordNo)
        ensures { self.new ≡ others number self.old }
    {
        set(&mut self.by_number, number, &None);
    }
}

fn settled(booking: &Booking) -> Booking
    ensures { result ≡ record booking.now { committed = booking.now.pending; pending = None } }
{
    Booking {
        number: booking.number,
        committed: booking.pending,
        pending: None,
    }
}

fn without_pending(booking: &Booking) -> Booking
    ensures { result ≡ record booking.now { pending = None } }
{
    Booking {
        number: booking.number,
        committed: booking.committed,
        pending: None,
    }
}

/// Empty places up to that of the record.
fn make_room(by_number: &mut Vec<Option<Booking>>, number: RecordNo) -> Result<(), AllocError>
    ensures same { present by_number.new.items ≡ present by_number.old.items }
    ensures numbered { IsNumbered 0 by_number.old.items → IsNumbered 0 by_number.new.items }
    ensures room { OnOk result (number < length by_number.new.items) }
    ensures few { length by_number.old.items ≤ 4194304 → length by_number.new.items ≤ 4194304 }
{
    let end = number.get() as usize + 1;
    if by_number.len() < end {
        by_number.resize(end, None)?;
    }
    Ok(())
}

fn at(by_number: &[Option<Booking>], number: RecordNo) -> Option<&Booking>
    ensures { option_copied result ≡ get_or by_number.now number None }
{
    let place = number.get() as usize;
    if place < by_number.len() {
        by_number[place].as_ref()
    } else {
        None
    }
}

fn set(by_number: &mut Vec<Option<Booking>>, number: RecordNo, booking: &Option<Booking>)
    ensures { by_number.new.items ≡ slice_set by_number.old.items number booking.now }
{
    let place = number.get() as usize;
    if place < by_number.len() {
        by_number[place] = *booking;
    }
}
