//! Events with the JSON of what they took.

ghost use Rattle.std.specs.Prelude.{◌≡◌, ◌<◌, length};
ghost use Rattle.trace_text.specs.Spelled.{IsSpelling};

use nsi_primitive::Event;
use std::alloc::Global;
use std::marker::Model;

/// An event, which may have the JSON of the parcel that it took by it, so that this needn't be spelled again.
#[derive(Drop)]
pub struct SpelledEvent {
    event: Event,
    line: Vec<u8>,
}

impl Model for SpelledEvent {
    ghost use Rattle.nsi_primitive.specs.declared.entry.Event.{Event as AnEvent};
    ghost use Rattle.trace_text.specs.Spelled.{IsSpelling};

    ghost Value = { AnEvent };

    ghost view = { λ e. e.event };

    ghost invariant = { λ e. IsSpelling e.event e.line.items };
}

impl SpelledEvent {
    /// An event, and nothing or the JSON of the parcel that it took.
    pub fn new(event: Event, line: Vec<u8>) -> Self
        requires { IsSpelling event line.items }
        ensures { result ≡ event }
    {
        SpelledEvent { event, line }
    }

    /// An event alone.
    pub fn bare(alloc: Global, event: Event) -> Self
        ensures { result ≡ event }
    {
        SpelledEvent {
            event,
            line: Vec::new(alloc),
        }
    }

    pub fn event(&self) -> &Event
        ensures { result.now ≡ self.now }
    {
        &self.event
    }

    /// The JSON of the parcel that it took, or nothing where it isn't at hand.
    pub fn line(&self) -> &[u8]
        ensures { IsSpelling self.now result.now }
    {
        &self.line
    }
}
