//! What is booked at a second.

ghost use Rattle.std.specs.Prelude.{◌≡◌};
ghost use Rattle.capacity_calendar.specs.Changes.{before, after, booking_with};
ghost use Rattle.capacity_calendar.specs.Load.{books_slot, taken, claim};
ghost use Rattle.capacity_calendar.specs.Plan.{committed_of, pending_of};

use crate::booking::{Booking, Change, Slot};
use crate::bookings::Bookings;
use nsi_base::{Flow, RecordNo, Second, StpNo};

fn taken(slot: &Option<Slot>, flow: Flow, stp: StpNo, t: Second) -> u64
    ensures { result ≡ taken flow stp t slot.now }
{
    match slot {
        Some(slot) if books(slot, flow, stp) && slot.interval.covers(t) => slot.mbps.get(),
        _ => 0,
    }
}

/// Whether the slot books the flow of the point.
pub(crate) fn books(slot: &Slot, flow: Flow, stp: StpNo) -> bool
    ensures { result ≡ books_slot flow stp slot.now }
{
    flow.is_booked(slot.both_ways, slot.source == stp, slot.dest == stp)
}

#[tactic(auto, unfolding(crate::specs::Load::larger_taken))]
pub(crate) fn claim(booking: &Booking, flow: Flow, stp: StpNo, t: Second) -> u64
    ensures { result ≡ claim flow stp t booking.now }
{
    let committed = taken(&booking.committed, flow, stp, t);
    let pending = taken(&booking.pending, flow, stp, t);
    committed.max(pending)
}

/// The booking of a change's record before it, as far as it matters.
pub(crate) fn before(change: &Change) -> Booking
    ensures { result ≡ before change.now }
{
    Booking {
        number: change.number,
        committed: change.other,
        pending: if change.comes {
            None
        } else {
            Some(change.slot)
        },
    }
}

/// The same after it.
pub(crate) fn after(change: &Change) -> Booking
    ensures { result ≡ after change.now }
{
    Booking {
        number: change.number,
        committed: change.other,
        pending: if change.comes {
            Some(change.slot)
        } else {
            None
        },
    }
}

/// What a record has booked, which may be nothing.
pub(crate) fn own(bookings: &Bookings, number: RecordNo) -> Booking
    ensures { result ≡ booking_with number (committed_of number bookings.now)
        (pending_of number bookings.now) }
{
    Booking {
        number,
        committed: bookings.committed_of(number),
        pending: bookings.pending_of(number),
    }
}
