//! Why a line is no event.

ghost use Rattle.std.specs.Prelude.{◌≡◌};

use std::alloc::AllocError;

/// Why a line was not taken as an event.
#[derive(Clone, Copy, Debug, PartialEq, Eq)]
pub enum EventFault {
    NotAnEvent,
    NoMemory,
}

impl From<AllocError> for EventFault {
    ghost use Rattle.trace_reader.specs.declared.fault.EventFault.TheVariants.{NoMemory};

    ghost from_gives = { λ _ e. e ≡ NoMemory };

    fn from(_e: AllocError) -> EventFault {
        EventFault::NoMemory
    }
}
