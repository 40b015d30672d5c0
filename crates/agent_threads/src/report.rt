//! What is written of a run.

ghost use Rattle.std.specs.Prelude.{◌≡◌, IfOk};
ghost use Rattle.std.specs.List.{All};
ghost use Rattle.trace_text.specs.Lines.{HasLine};
ghost use Rattle.agent_threads.specs.Reports.{written};

use run_totals::Report;
use std::alloc::{AllocError, Global};
use stp_topology::Topology;
use trace_text::{SpelledEvent, print_spelled};

/// How far a run may go, and what is written of it.
#[derive(Clone, Copy, Debug, PartialEq, Eq)]
pub struct RunOptions {
    /// So many events at most.
    pub limit: u64,
    pub report: Report,
}

/// What is written of events.
pub fn written(
    alloc: Global,
    report: Report,
    topology: &Topology,
    events: &[SpelledEvent],
) -> Result<Vec<u8>, AllocError>
    requires { All (HasLine topology.now) events.now }
    ensures { IfOk result (λ text. text.items ≡ written report topology.now events.now) }
{
    match report {
        Report::Trace => print_spelled(alloc, topology, events),
        Report::Summary => Ok(Vec::new(alloc)),
    }
}
