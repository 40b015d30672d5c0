//! The laws of runs. Each function is its contract.

ghost use Rattle.nsi_agent.specs.Laws.{WhatIsSaidIsItsOwn, RequestsAreDrawnOnce};
ghost use Rattle.nsi_world.specs.Agents.{CausedIsPrintable};
ghost use Rattle.nsi_world.specs.Laws.{HeardWasSent, SentStaysSent, RequestsAreOne, TurnRuns, RoundRuns, PlayRuns, PlayIsRun, PlayStands, PlayRests, AsksWhole};

use nsi_agent::laws::{every_message, every_request, every_state};

/// What an agent says is its own and can be written, and no two of its requests have one correlationId.
pub fn agents()
    ensures own { WhatIsSaidIsItsOwn }
    ensures once { RequestsAreDrawnOnce }
    ensures printable { CausedIsPrintable }
{
    every_message();
    every_request();
    every_state();
    aggregator_agent::laws::every_entry();
    requester_agent::laws::every_entry();
}

/// In every run each message that an agent took was said before, by some agent and to him, and what was said stays said, whatever is
/// lost, comes twice or comes late, and whoever begins again from what was synced.
pub fn sent()
    ensures heard { HeardWasSent }
    ensures stays { SentStaysSent }
{}

/// In every run two requests under one header are one.
pub fn requests()
    ensures { RequestsAreOne }
{
    agents();
}

/// A turn of an agent goes on by events that are allowed, and what lies in its links then was said.
pub fn turn_runs()
    ensures { TurnRuns }
{
    agents();
}

/// So does a round of all agents.
pub fn round_runs()
    ensures { RoundRuns }
{
    agents();
}

/// Each front of a play is a run, and so is the whole. The agents at its end have the journals of the world that its
/// events make; these are synced whole, and no work waits.
pub fn play_runs()
    ensures front { PlayRuns }
    ensures whole { PlayIsRun }
    ensures stands { PlayStands }
    ensures rests { PlayRests }
{
    agents();
}

/// A play asks the whole script, in order.
pub fn asks_whole()
    ensures { AsksWhole }
{
    agents();
}
