//! What the program is asked to do.

use command_limits::{EventLimit, Workers};
use run_totals::Report;

/// A load that is to be made: the number that it is drawn from, and how many reserves it has.
#[derive(Clone, Copy, Debug, PartialEq, Eq)]
pub struct Load {
    pub from: u64,
    pub size: u32,
}

/// How a script is to be played: in how many events at most, each round by how many workers at most, and what is written of it.
#[derive(Clone, Copy, Debug, PartialEq, Eq)]
pub struct Play {
    pub most: EventLimit,
    pub workers: Workers,
    pub report: Report,
}

/// What the program is asked to do.
#[derive(Clone, Copy, Debug, PartialEq, Eq)]
pub enum Command {
    /// One provider answers lines, in no more events than that.
    Provide(EventLimit),
    /// All agents play a script.
    Run(Play),
    /// The input's questions on a topology are answered.
    Check,
    /// A topology and a script are made.
    Generate(Load),
    /// A printed run is checked, of no more events than that.
    Verify(EventLimit),
}
