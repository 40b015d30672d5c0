//! Why a round or a run doesn't go on.

use nsi_base::AgentNo;
use std::alloc::AllocError;

/// Why a round wasn't made.
#[derive(Clone, Copy, Debug, PartialEq, Eq)]
pub enum RoundFault {
    /// A turn needs more events than there is room for.
    Long,
    /// A call of the agent's disk failed.
    DiskFault(AgentNo),
    /// The agent's disk stopped.
    Stopped(AgentNo),
    NoMemory,
}

impl From<AllocError> for RoundFault {
    ghost use Rattle.std.specs.Prelude.{◌≡◌};
    ghost use Rattle.agent_threads.specs.declared.fault.RoundFault.TheVariants.{NoMemory};

    ghost from_gives = { λ _ e. e ≡ NoMemory };

    fn from(_: AllocError) -> Self {
        RoundFault::NoMemory
    }
}

/// Why a run has ended before its script. A stop in a turn is none: the agent goes on behind the round.
#[derive(Clone, Copy, Debug, PartialEq, Eq)]
pub enum RunFault {
    /// It has more events than are allowed.
    Long,
    /// The text was not written whole.
    WriteFault,
    /// The agent's disk failed, or stopped while its journal was made or read.
    DiskFault(AgentNo),
    /// The agent's journal was to be read again, and the bytes of its disk are none from this place on; or it has more than the agent
    /// took, and this is 0.
    NotAJournal { agent: AgentNo, place: u64 },
    NoMemory,
}

impl From<AllocError> for RunFault {
    ghost use Rattle.std.specs.Prelude.{◌≡◌};
    ghost use Rattle.agent_threads.specs.declared.fault.RunFault.TheVariants.{NoMemory};

    ghost from_gives = { λ _ e. e ≡ NoMemory };

    fn from(_: AllocError) -> Self {
        RunFault::NoMemory
    }
}
