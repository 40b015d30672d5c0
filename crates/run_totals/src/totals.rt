//! Numbers over the events of a run.

ghost use Rattle.std.specs.Prelude.{◌≡◌, ◌≤◌, ◌<◌, ◌+◌, ◌^◌, [], length};
ghost use Rattle.std.specs.List.{All};
ghost use Rattle.nsi_primitive.specs.declared.entry.Event.{Event as EventOf};
ghost use Rattle.stp_topology.specs.declared.network.Network.{Network as NetworkOf};
ghost use Rattle.run_totals.specs.Totals.{AreWithin, IsOf, kind_in, kind_got, is_confirmed, plus, one_of, totals_of};

use nsi_primitive::{Event, Happening, Input, Kind};
use stp_topology::{AgentKind, Topology};
use trace_text::SpelledEvent;

/// How many events there are, and in how many of them a requester got an answer to a reservation.
#[derive(Clone, Copy, Debug, PartialEq, Eq)]
pub struct Totals {
    pub events: u64,
    /// It got a `reserveConfirmed`.
    pub confirmed: u64,
    /// It got a `reserveCommitConfirmed`.
    pub committed: u64,
    /// It got a `reserveFailed`.
    pub failed: u64,
}

impl Totals {
    /// Those of no events.
    pub fn none() -> Self
        ensures totals { (t : NetworkOf) → result ≡ totals_of t [] }
        ensures within { AreWithin result }
    {
        Totals {
            events: 0,
            confirmed: 0,
            committed: 0,
            failed: 0,
        }
    }

    /// Those of an event more.
    fn and_one(self, got: Option<Kind>) -> Self
        requires few { self.events < 2 ^ 63 }
        requires within { AreWithin self }
        ensures totals { result ≡ plus self (one_of got) }
        ensures within { AreWithin result }
    {
        let events = self.events + 1;
        match got {
            Some(Kind::ReserveConfirmed) => Totals {
                events,
                confirmed: self.confirmed + 1,
                ..self
            },
            Some(Kind::ReserveCommitConfirmed) => Totals {
                events,
                committed: self.committed + 1,
                ..self
            },
            Some(Kind::ReserveFailed) => Totals {
                events,
                failed: self.failed + 1,
                ..self
            },
            _ => Totals { events, ..self },
        }
    }

    /// Those of further events of the agents of a topology.
    pub fn and_more(self, topology: &Topology, events: &[SpelledEvent]) -> Self
        requires few { self.events + length events.now ≤ 2 ^ 63 }
        requires within { AreWithin self }
        requires agents { All (IsOf topology.now) events.now }
        ensures totals { result ≡ plus self (totals_of topology.now events.now) }
        ensures within { AreWithin result }
    {
        let mut totals = self;
        for event in events {
            totals = totals.and_one(kind_got(topology, event.event()));
        }
        totals
    }
}

fn kind_in(input: &Input) -> Option<Kind>
    ensures { result ≡ kind_in input.now }
{
    match input {
        Input::Got(message) => Some(message.kind()),
        _ => None,
    }
}

/// The kind of the message that a requester got.
fn kind_got(topology: &Topology, event: &Event) -> Option<Kind>
    requires { IsOf topology.now event.now }
    ensures { result ≡ kind_got topology.now event.now }
{
    let AgentKind::Requester { .. } = topology.kind(event.agent) else {
        return None;
    };
    match &event.what {
        Happening::Entry { entry, .. } => kind_in(&entry.input),
        _ => None,
    }
}
