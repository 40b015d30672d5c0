//! Laws of the text of a run. Each function is its contract.

ghost use Rattle.run_text.specs.Committed.{ConfirmedIsCommitted};
ghost use Rattle.run_text.specs.Laws.{RunsAreTold};

use ask_text::laws::asks_are_read_again;
use json_primitives::laws::lines_are_read_again;

/// The text of a run is of no other run: whoever reads what `run` printed knows every step of every agent.
pub fn runs_are_told()
    ensures { RunsAreTold }
{
    asks_are_read_again();
    lines_are_read_again();
}

/// Where a requester gets the confirmation of a commit that it hadn't got before, the view that awaits it has the version as its last committed
/// one then.
pub fn confirmed_is_committed()
    ensures { ConfirmedIsCommitted }
{}
