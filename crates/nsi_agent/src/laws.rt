//! The laws of an agent of any kind. Each function is its contract.

ghost use Rattle.nsi_agent.specs.Laws.{EntriesAreTaken, OthersAreLeftOut, BlankIsGood, EntriesKeepGood, WorkIsDone, NoneIsLeft, TellingIsInParts, ClocksRise, WaitingWasCaused, SeenWasGot, WhatIsSaidIsItsOwn, IsNamedAsDeclared, AsksGoAlongLinks, RequestsHaveIds, RequestsAreDrawnOnce};

use child_connection::laws::places;
use provider_agent::laws::every_run_safe;

/// An entry that may be taken is counted, the clock is at its second then, what it causes waits behind what waited, and an
/// acknowledgement takes the first message of its identity out. One that may not be taken changes nothing.
pub fn every_entry()
    ensures taken { EntriesAreTaken }
    ensures left_out { OthersAreLeftOut }
{}

/// What is true of an agent stays true whatever it takes.
pub fn every_state()
    ensures blank { BlankIsGood }
    ensures good { EntriesKeepGood }
{
    every_run_safe();
    aggregator_agent::laws::every_entry();
    requester_agent::laws::every_entry();
}

/// The first work that waits takes one off, and none waits exactly where none is left.
pub fn works()
    ensures done { WorkIsDone }
    ensures none { NoneIsLeft }
{}

/// Entries one after another: no clock goes back, what waits was caused, and a message that isn't new was got.
pub fn every_telling()
    ensures parts { TellingIsInParts }
    ensures clocks { ClocksRise }
    ensures waiting { WaitingWasCaused }
    ensures seen { SeenWasGot }
{}

/// What an agent says is its own, and goes to one whom it asks or whose request it got. In the topology it has this name, and
/// whom it asks is its provider or one of its children.
pub fn every_message()
    ensures own { WhatIsSaidIsItsOwn }
    ensures named { IsNamedAsDeclared }
    ensures links { AsksGoAlongLinks }
{
    places();
}

/// Each request that an agent causes has an id of its own, so that no two have one correlationId.
pub fn every_request()
    ensures ids { RequestsHaveIds }
    ensures apart { RequestsAreDrawnOnce }
{
    places();
    aggregator_agent::laws::every_entry();
    every_state();
}
