//! The laws of a mark. Each function is its contract.

ghost use Rattle.durable_mark.specs.Laws.{NewIsAtMost, LoadsKeep, RaisesKeep, SplitsKeep, JoinsKeep};

/// No seat has ever seen more than the word, whichever seats make which steps, in whatever order.
pub fn every_step()
    ensures new { NewIsAtMost }
    ensures load { LoadsKeep }
    ensures raise { RaisesKeep }
    ensures split { SplitsKeep }
    ensures join { JoinsKeep }
{}
