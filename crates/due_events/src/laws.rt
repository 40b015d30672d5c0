//! The laws of events that are due. Each function is its contract.

ghost use Rattle.due_events.specs.Laws.{FrontsAreDue, PlaysAreDue, PlaysAreScripted, AsksAreScripted, GotsAreFew, GotsTogetherAreFew, AckedsAreFew, WorksAreFew, EntriesAreEvents, JournalsAreShort, EventsAreFew, RunsAreShort, PlaysAreShort, CalmPlaysAreShort};

use nsi_agent::laws::{every_message, every_state};
use nsi_world::laws::{agents, sent};

/// The events of a play are due, whichever disks stop, whatever they keep and however often they stop again; and so is each front of
/// events that are due.
pub fn plays_are_due()
    ensures plays { PlaysAreDue }
    ensures fronts { FrontsAreDue }
{}

/// A play makes no more asks and forced ends than its script has, a tick of each agent in each group, and no more restarts than its script
/// has and disks stop. Whatever an ask may be worth, those in journals are worth no more than those of the script.
pub fn plays_are_scripted()
    ensures counts { PlaysAreScripted }
    ensures worth { AsksAreScripted }
{}

/// Where events are due an agent gets no more messages than there are for it, since it gets each once: a provider, which takes note of
/// requests alone, is sent nothing else.
pub fn gots_are_few()
    ensures one { GotsAreFew }
    ensures all { GotsTogetherAreFew }
{
    every_message();
    sent();
}

/// Where events are due an agent takes no more acknowledgements than there are messages that it has caused, and does no more work than it
/// gets messages. Of every kind the journals of agents have no more entries than there are among the events.
pub fn due_entries_are_few()
    ensures ackeds { AckedsAreFew }
    ensures works { WorksAreFew }
    ensures events { EntriesAreEvents }
{
    every_state();
}

/// So all journals together have no more entries than there are ticks, asks and forced ends among the events, and three for each message
/// that they cause.
pub fn journals_are_short()
    ensures { JournalsAreShort }
{
    every_message();
    every_state();
    sent();
}

/// Events that are due are few where journals are short: twice as many as all entries, once more for each restart, and the restarts. So
/// they are few where there are few ticks, asks, forced ends and restarts, and few messages are caused.
pub fn events_are_few()
    ensures events { EventsAreFew }
    ensures runs { RunsAreShort }
{
    every_message();
    every_state();
    sent();
}

/// So a play is short where few messages are caused in those of its fronts that are runs. All of them are, as there is room for so many
/// entries.
pub fn plays_are_short()
    ensures stopped { PlaysAreShort }
    ensures calm { CalmPlaysAreShort }
{
    agents();
    every_state();
    sent();
}
