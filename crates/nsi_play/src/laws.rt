//! The laws of plays. Each function is its contract.

ghost use Rattle.nsi_play.specs.Laws.{OnePlay, NoLonger, PlayNeedsNoPast, FrontNeedsNoPast};

/// A script has one play from the same agents: its events, and the agents in its end.
pub fn one_play()
    ensures { OnePlay }
{}

/// A play that is over passes no limit that it keeps, so a run ends in one way alone.
pub fn no_longer()
    ensures { NoLonger }
{}

/// A play without restarts is the same where it isn't told which entries are synced: only a restart reads them.
pub fn needs_no_past()
    ensures play { PlayNeedsNoPast }
    ensures front { FrontNeedsNoPast }
{}
