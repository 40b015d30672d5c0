//! The directions of traffic at a service termination point.

ghost use Rattle.std.specs.Prelude.{◌≡◌};

/// A direction of traffic at a service termination point: the one that both share, into the provider's network, or
/// out of it. A point has `Both` alone, or `In` and `Out`.
#[derive(Clone, Copy, Debug, PartialEq, Eq)]
pub enum Flow {
    Both,
    In,
    Out,
}

impl Flow {
    ghost use Rattle.nsi_base.specs.Flows.{books};

    /// Whether a connection books this direction at a point that is its source, its destination, both or neither.
    pub fn is_booked(self, both_ways: bool, is_source: bool, is_dest: bool) -> bool
        ensures { result ≡ books self both_ways is_source is_dest }
    {
        match self {
            Flow::Both => is_source || is_dest,
            Flow::In => is_source || (both_ways && is_dest),
            Flow::Out => is_dest || (both_ways && is_source),
        }
    }
}
