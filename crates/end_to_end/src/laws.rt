//! The law of circuits from end to end. Each function is its contract.

ghost use Rattle.end_to_end.specs.Laws.{ConnectionsStand, ViewsAreBetween, VersionsAreKnown, EveryRunStands, NothingStands, ItIsReached};

use circuit_laws::laws::{asked_for, circuits, known, views};
use nsi_world::laws::sent;

/// Whatever a crash leaves of a requester and of the agent that it asks, the record of a view is between the view's two points.
pub fn between()
    ensures { ViewsAreBetween }
{}

/// In every run, whatever a crash leaves of an aggregator: what a connection of it has as committed is booked from end to end, at providers whose
/// ports join from the connection's source to its destination, with that version's schedule and capacity, by what they have synced; and while the
/// connection lives, so does each booking. And whatever a crash leaves of a requester: so is each version that it knows as committed, between the
/// two points of its view, as it was asked for. No record is counted twice.
pub fn end_to_end()
    ensures connections { ConnectionsStand }
    ensures versions { VersionsAreKnown }
{
    between();
    sent();
    known();
    views();
    asked_for();
    circuits();
}

/// So it is in each world of every run.
pub fn every_run()
    ensures { EveryRunStands }
{
    end_to_end();
}

/// And where nothing has happened, whatever the topology is.
pub fn nothing()
    ensures { NothingStands }
{}

/// And there are such circuits: in a topology that a text gives, over the legs of its least paths, a run reaches one of two bookings at least.
pub fn reached()
    ensures { ItIsReached }
{
    sent();
    known();
    circuits();
    circuit_laws::laws::reached();
}
