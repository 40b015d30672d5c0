//! The laws of an aggregator. Each function is its contract.

ghost use Rattle.aggregator_agent.specs.Laws.{BlankIsGood, EntriesKeepGood, CausedIsPrintable, RequestsHaveIds, NothingIsAnswered};

use child_connection::laws::messages;

/// What is true of an aggregator stays true whatever it takes, what it sends can be written, each request to a child has an
/// id of its own, drawn in order, and it answers no asks.
pub fn every_entry()
    ensures blank { BlankIsGood }
    ensures good { EntriesKeepGood }
    ensures printable { CausedIsPrintable }
    ensures ids { RequestsHaveIds }
    ensures answer { NothingIsAnswered }
{
    messages();
}
