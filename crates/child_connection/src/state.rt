//! Where a view stands, and what asks and messages come to.

ghost use Rattle.std.specs.Prelude.{◌≡◌};

use nsi_primitive::{Id, Kind};
use std::alloc::AllocError;

/// Where a parent thinks that its child's reservation stands.
#[derive(Clone, Copy, Debug, PartialEq, Eq)]
pub enum Phase {
    Idle,
    Reserving,
    Held,
    Failed,
    TimedOut,
    Committing,
    Aborting,
}

/// A request that was asked: its correlationId, and its kind.
#[derive(Clone, Copy, Debug, PartialEq, Eq)]
pub struct Sent {
    pub correlation: Id,
    pub kind: Kind,
}

/// What a message was to a view.
#[derive(Clone, Copy, Debug, PartialEq, Eq)]
pub enum Taken {
    /// It changed nothing.
    Ignored,
    /// The child's id is known now.
    Learnt,
    /// A request of this kind is answered.
    Answered(Kind),
    /// What was held isn't any more.
    TimedOut,
    /// The child's connection has ended before its time.
    Ended,
    /// The child's data plane is another.
    Plane,
}

/// Why a request wasn't asked, in the order in which that is looked at.
#[derive(Clone, Copy, Debug, PartialEq, Eq)]
pub enum AskFault {
    /// The child's id isn't known.
    NoId,
    /// A request of the same machine is unanswered, with this correlationId.
    Outstanding(Id),
    NoMemory,
}

impl From<AllocError> for AskFault {
    ghost use Rattle.child_connection.specs.declared.state.AskFault.TheVariants.{NoMemory};

    ghost from_gives = { λ _ e. e ≡ NoMemory };

    fn from(_e: AllocError) -> AskFault {
        AskFault::NoMemory
    }
}
