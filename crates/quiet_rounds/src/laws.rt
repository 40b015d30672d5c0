//! The laws of rounds without events. Each function is its contract.

ghost use Rattle.quiet_rounds.specs.Laws.{OpeningsAreBounded, StepsKeepBounds, PlaysKeepBounds, LeftFalls, TellingLeaves, LeftIsFew, RoundsEnd, EnoughRounds, EnoughIsFew, PlaysEnd, ScriptsEnd};

/// Nets are bounded in every play: no link holds more than a turn lets through, all that was let through is known behind the
/// meetings, and each agent's links go to different agents of the net.
pub fn nets_are_bounded()
    ensures opening { OpeningsAreBounded }
    ensures steps { StepsKeepBounds }
    ensures plays { PlaysKeepBounds }
{}

/// In a round in which nothing happens less is left to do, where not all agents are quiet.
pub fn left_falls()
    ensures falls { LeftFalls }
    ensures told { TellingLeaves }
    ensures few { LeftIsFew }
{}

/// Rounds without events come to an end with all agents quiet, and so many rounds are enough for that or for more than so many events.
pub fn rounds_end()
    ensures end { RoundsEnd }
    ensures enough { EnoughRounds }
    ensures few { EnoughIsFew }
{}

/// Every play comes to its end, or passes every limit of events.
pub fn plays_end()
    ensures nets { PlaysEnd }
    ensures scripts { ScriptsEnd }
{}
