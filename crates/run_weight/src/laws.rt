//! The laws of weights. Each function is its contract.

ghost use Rattle.run_weight.specs.Laws.{StoppedPlaysSettle, PlaysSettle, StoppedLongIsOver, LongIsOver};

use due_events::laws::{plays_are_scripted, plays_are_short};
use run_changes::laws::messages_are_few;
use run_requests::laws::plays_ask_few;

/// No play has more events than the weight of its script, whichever disks stop, whatever they keep, whatever is lost and whatever comes
/// twice, as long as agents have room for so many entries.
pub fn plays_settle()
    ensures stopped { StoppedPlaysSettle }
    ensures calm { PlaysSettle }
{
    messages_are_few();
    plays_are_scripted();
    plays_are_short();
    plays_ask_few();
}

/// So a limit is passed only where it is below the weight.
pub fn long_is_over()
    ensures stopped { StoppedLongIsOver }
    ensures calm { LongIsOver }
{
    messages_are_few();
    plays_are_scripted();
    plays_are_short();
    plays_ask_few();
}
