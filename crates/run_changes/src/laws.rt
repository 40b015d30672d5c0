//! The laws of how many changes of the data plane, and how many messages, are told in runs. Each function is its contract.

ghost use Rattle.run_changes.specs.Laws.{ChangesAreHeardOnce, RequestersTellNone, ChangesAreFew, MessagesAreFew};

use heard_changes::laws::heard;
use nsi_agent::laws::every_message;
use nsi_world::laws::sent;
use speech_cost::laws::{aggregators_pay, lates_are_few, providers_pay};

/// In every run the changes of the data plane that an aggregator has heard are messages that its children have said, each counted once.
pub fn heard_from_children()
    ensures { ChangesAreHeardOnce }
{
    every_message();
    sent();
}

/// In every run a requester tells no change of the data plane, and all agents together tell no more than five times as many as the providers:
/// an aggregator tells no more than its children have told it, and no more than four aggregators stand one above the other.
pub fn changes_are_few()
    ensures requesters { RequestersTellNone }
    ensures all { ChangesAreFew }
{
    every_message();
    sent();
    heard();
}

/// So in every run all agents together tell no more messages, of whatever kind, than thirty for each request that one of them has taken, and two
/// for each that one of them has asked.
pub fn messages_are_few()
    ensures { MessagesAreFew }
{
    every_message();
    sent();
    heard();
    providers_pay();
    aggregators_pay();
    lates_are_few();
}
