//! Why an agent of a net doesn't go on.

use journal_entry::JournalFault;
use std::alloc::AllocError;

/// Why a turn wasn't made.
#[derive(Clone, Copy, Debug, PartialEq, Eq)]
pub enum TurnFault {
    /// It needs more events than there is room for.
    Long,
    /// A call of its disk failed.
    DiskFault,
    /// Its disk stopped.
    Stopped,
    NoMemory,
}

impl From<AllocError> for TurnFault {
    ghost use Rattle.std.specs.Prelude.{◌≡◌};
    ghost use Rattle.agent_node.specs.declared.fault.TurnFault.TheVariants.{NoMemory};

    ghost from_gives = { λ _ e. e ≡ NoMemory };

    fn from(_: AllocError) -> Self {
        TurnFault::NoMemory
    }
}

impl From<JournalFault> for TurnFault {
    ghost use Rattle.std.specs.Prelude.{◌≡◌};
    ghost use Rattle.agent_node.specs.Faults.{fault_by};

    ghost from_gives = { λ j e. e ≡ fault_by j };

    fn from(fault: JournalFault) -> Self {
        match fault {
            JournalFault::DiskFault => TurnFault::DiskFault,
            JournalFault::Stopped => TurnFault::Stopped,
            JournalFault::NoMemory => TurnFault::NoMemory,
        }
    }
}
