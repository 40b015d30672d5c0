//! The laws of a requester. Each function is its contract.

ghost use Rattle.requester_agent.specs.Laws.{BlankIsGood, EntriesKeepGood, CausedIsPrintable};

use child_connection::laws::{messages, places};

/// What is true of a requester stays true whatever it takes, and what it sends can be written.
pub fn every_entry()
    ensures blank { BlankIsGood }
    ensures good { EntriesKeepGood }
    ensures printable { CausedIsPrintable }
{
    places();
    messages();
}
