//! The laws of plays in which disks stop. Each function is its contract.

ghost use Rattle.stopped_play.specs.Laws.{CalmTapes, CalmPlays, StoppedPlayRuns, StoppedPlayStands, StoppedPlayRests, StoppedPlayAsks, StoppedPlaySettles, CutsKeepBounds, NoCutIsARound, RestartsAreStops};

use agent_speech::laws::every_step;
use nsi_world::laws::agents;

/// Where no disk stops such a play is the play of the script: so many calm rounds for each group are the play of so many rounds.
pub fn calm()
    ensures tapes { CalmTapes }
    ensures plays { CalmPlays }
{}

/// Whichever disks stop, whether what they were syncing is kept, and however often they stop again while they are read: each front of
/// the play is a run. The agents at its end have the journals of the world that its events make; these are synced whole, and no work
/// waits.
pub fn runs()
    ensures front { StoppedPlayRuns }
    ensures stands { StoppedPlayStands }
    ensures rests { StoppedPlayRests }
{
    agents();
}

/// It asks the whole script, in order.
pub fn asks_whole()
    ensures { StoppedPlayAsks }
{
    agents();
}

/// It leaves open no more than lines of the script lose, where the addressee has no restart behind the last tick or restart of the one that
/// said it.
pub fn settled()
    ensures { StoppedPlaySettles }
{
    agents();
    every_step();
}

/// An act, a round and its restarts keep nets bounded, and a round in which no agent of the net is cut is one of `nsi_play`; so what is
/// proved of rounds in which nothing happens holds of those by a tape, since each restart is an event.
pub fn rounds()
    ensures bounded { CutsKeepBounds }
    ensures whole { NoCutIsARound }
    ensures counted { RestartsAreStops }
{}
