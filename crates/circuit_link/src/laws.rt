//! The laws of a view and its child's record. Each function is its contract.

ghost use Rattle.circuit_link.specs.Laws.{AskingKeepsLink, CoursesKeepLink, TakingKeepsLink, RefusingKeepsLink, HearingKeepsLink, LinkedStands, LinkedWaits, LinkedIsInStep, CommitsWhatWasHeld, PassingKeepsMate, OwnKeepsMate, AskingKeepsMate, HearingKeepsMate, AlikeKeepsMate, ProvidersServe, AggregatorsServe};

/// A link is kept by all that a view and its child's record do: by asking, taking, refusing, by whatever the record does by itself, and
/// by hearing what was said, whenever that is.
pub fn every_link()
    ensures asking { AskingKeepsLink }
    ensures courses { CoursesKeepLink }
    ensures taking { TakingKeepsLink }
    ensures refusing { RefusingKeepsLink }
    ensures hearing { HearingKeepsLink }
{}

/// While nothing is unanswered the record stands where the view's phase says, and else it works on the request, has answered it, or hasn't
/// taken it yet. The view's committed versions are the record's, or all but the last.
pub fn every_phase()
    ensures stands { LinkedStands }
    ensures waits { LinkedWaits }
    ensures in_step { LinkedIsInStep }
    ensures commits { CommitsWhatWasHeld }
{}

/// A view and its child stay mates: whatever entry the child takes, and whatever the view asks and hears, in whichever order.
pub fn every_mate()
    ensures passing { PassingKeepsMate }
    ensures own { OwnKeepsMate }
    ensures asking { AskingKeepsMate }
    ensures hearing { HearingKeepsMate }
    ensures alike { AlikeKeepsMate }
{}

/// What an entry does at a provider, and at an aggregator, is one of the things by which a view and its child stay mates.
pub fn every_service()
    ensures provider { ProvidersServe }
    ensures aggregator { AggregatorsServe }
{}
