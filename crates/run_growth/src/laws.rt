//! What agents keep and say in every run. Each function is its contract.

ghost use Rattle.run_growth.specs.AgentLaws.{EntriesGrow, EntriesLeaveAll, IsAlwaysGood, RecordsRise};
ghost use Rattle.run_growth.specs.InStep.{InStepRises};
ghost use Rattle.run_growth.specs.Laws.{RunsAreCapped, RunsAreHonest, NothingElseRefuses, RunsAreRising, SyncedStays};
ghost use Rattle.run_growth.specs.SafeLaws.{EveryRunIsSafe, EveryPlayIsSafe};
ghost use Rattle.run_growth.specs.SentLaws.{CutsAreGrown, IdentitiesAreOne, AnswersAreOfRequests, OneIsOutstanding, EachReserveSaysItsStart};

use nsi_agent::laws::{every_message, every_state};
use nsi_world::laws::{play_runs, sent};

/// Each record of an agent, each view of a label and each view of a child stays at its place, and whatever was committed stays, with
/// more behind it. The committed versions of each record rise.
pub fn every_agent()
    ensures grow { EntriesGrow }
    ensures leave { EntriesLeaveAll }
    ensures good { IsAlwaysGood }
    ensures rise { RecordsRise }
{
    every_state();
}

/// In every world of every run no load of a provider passes a capacity that the topology declares, whatever a crash leaves of it.
pub fn capped()
    ensures { RunsAreCapped }
{
    every_agent();
}

/// Each work on a reserve that is checked, in any journal of any run, confirms or refuses as it should, and a refusal for bandwidth
/// names the first second that lacks it. Nothing else refuses for bandwidth, whichever agent says it and in whichever name.
pub fn honest()
    ensures checks { RunsAreHonest }
    ensures alone { NothingElseRefuses }
{
    every_agent();
    every_message();
}

/// Committed versions rise in each record of each agent, and what is synced stays whatever happens: records and views at their
/// places, with all that was committed.
pub fn rising()
    ensures rise { RunsAreRising }
    ensures stay { SyncedStays }
{
    every_agent();
}

/// Where a parent has the versions of a record that rise, or all but the last, its own rise.
pub fn in_step()
    ensures { InStepRises }
{}

/// In every world of every run, whatever a crash leaves of an agent: no load of a provider passes a capacity that the topology declares, and
/// the committed versions of each record rise. What is synced stays in every later world. Each work on a reserve that is checked says what it
/// should, and nothing else refuses for bandwidth.
pub fn every_run_safe_at_each_agent()
    ensures { EveryRunIsSafe }
{
    capped();
    honest();
    rising();
}

/// So is every play of a script.
pub fn every_play_safe_at_each_agent()
    ensures { EveryPlayIsSafe }
{
    every_run_safe_at_each_agent();
    play_runs();
}

/// Each cut of each world of a run is made by entries alone: syncs and restarts leave nothing in it.
pub fn cuts()
    ensures { CutsAreGrown }
{}

/// In every run two sent messages of one identity are one, of whatever kind.
pub fn identities()
    ensures { IdentitiesAreOne }
{
    sent();
}

/// In every run each answer that an agent takes answers a request that it sent, and that who answers had taken.
pub fn answers()
    ensures { AnswersAreOfRequests }
{
    sent();
}

/// In every run each request of the reservation machine that a parent caused was taken by its child, or is held by just one of its
/// views as unanswered.
pub fn outstanding()
    ensures { OneIsOutstanding }
{
    sent();
}

/// Whatever an agent has taken, each reserve that it sends says its start.
pub fn starts()
    ensures { EachReserveSaysItsStart }
{}
