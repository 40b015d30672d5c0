//! Laws of traces. Each function is its contract.

ghost use Rattle.trace_safety.specs.Laws.{RunsAreFound, RunsAreVerified, RunsFoundAreSafe};

use circuit_laws::safety::every_run_safe;

/// A trace that is found to be a run is the text of one, whoever printed it, and that run is safe: no load passes a capacity, refusals for
/// bandwidth are honest, committed versions rise, and a circuit that is confirmed stands in each network on its way.
pub fn runs_found_are_safe()
    ensures { RunsFoundAreSafe }
{
    every_run_safe();
}

/// Whatever is printed of a run of 100,000 asks at most is found to be one: no other answer than `run` and the number of its events can be
/// told of it, by whoever follows as many events and has memory for it. And so the command answers.
pub fn runs_are_found()
    ensures found { RunsAreFound }
    ensures verified { RunsAreVerified }
{}
