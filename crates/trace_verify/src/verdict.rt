//! What is found of a trace.

ghost use Rattle.std.specs.Prelude.{◌≡◌};

use std::alloc::AllocError;

/// Why the lines of a trace are not the text of a run.
#[derive(Clone, Copy, Debug, PartialEq, Eq)]
pub enum Why {
    /// The line is that of no event, or of one ask too many.
    Form,
    /// It is the line of an event that may not happen there.
    NotAllowed,
    /// The lines end without `settled`, and the number of events behind it; or they go on behind it.
    End,
}

/// What is found of a trace.
#[derive(Clone, Copy, Debug, PartialEq, Eq)]
pub enum Verdict {
    /// Its lines are the text of a run of so many events.
    Run { events: u64 },
    /// They are not: the first line that no run goes on with.
    Not { line: u32, why: Why },
}

/// Why nothing is found of a trace.
#[derive(Clone, Copy, Debug, PartialEq, Eq)]
pub enum VerifyFault {
    /// There are more events than were to be followed.
    Long,
    NoMemory,
}

impl From<AllocError> for VerifyFault {
    ghost use Rattle.trace_verify.specs.declared.verdict.VerifyFault.TheVariants.{NoMemory};

    ghost from_gives = { λ _ e. e ≡ NoMemory };

    fn from(_e: AllocError) -> VerifyFault {
        VerifyFault::NoMemory
    }
}
