//! Schedules.

ghost use Rattle.std.specs.Prelude.{◌≡◌, ◌<◌};
ghost use Rattle.nsi_base.specs.Range.{span_of, is_covered};

use crate::number::Second;
use std::marker::Model;

/// The seconds from a start up to and without an end, of which there is one at least.
#[derive(Clone, Copy, Debug, PartialEq, Eq)]
pub struct Interval {
    start: Second,
    end: Second,
}

impl Model for Interval {
    ghost use Rattle.std.specs.Prelude.{◌<◌};
    ghost use Rattle.nsi_base.specs.Range.{Span};

    ghost Value = { Span };

    ghost view = { λ i. record { start = i.start; end = i.end } };

    ghost invariant = { λ i. i.start < i.end };

    ghost inverse = { λ s. record { start = s.start; end = s.end } };
}

impl Interval {
    pub fn new(start: Second, end: Second) -> Option<Self>
        ensures { result ≡ span_of start end }
    {
        if start < end {
            Some(Interval { start, end })
        } else {
            None
        }
    }

    pub fn start(&self) -> Second
        ensures start { result ≡ self.now.start }
        ensures ordered { self.now.start < self.now.end }
    {
        self.start
    }

    pub fn end(&self) -> Second
        ensures end { result ≡ self.now.end }
        ensures ordered { self.now.start < self.now.end }
    {
        self.end
    }

    pub fn covers(&self, t: Second) -> bool
        ensures { result ≡ is_covered self.now t }
    {
        self.start <= t && t < self.end
    }
}
