//! The laws of a view. Each function is its contract.

ghost use Rattle.child_connection.specs.Laws.{IgnoredLeaves, NewHearsNothing, AsksKeepThePlace, MessagesKeepThePlace, SameIsLater, LaterIsLater, AsksAreLater, MessagesAreLater, AsksNameTheConnection, FirstNamesNone, ModificationNamesTheConnection, AsksArePrintable, FirstIsPrintable, ModificationIsPrintable, AskedStands, AskedIsHeld, NoneWasHeld, OthersHoldTheSame, HeldUntilAnswered, NewFits, AsksKeepTheFit, MessagesKeepTheFit, ApartIsTheSame, OnlySettlingChanges, OthersAreAlike, SameHearTheSame, RequestStaysOrEnds, AttemptIsAsked, HeldKeepsTheAttempt, AsksKeepWhatIsKnown, MessagesTeach, FirstAnswerTeaches, MessagesCommit, AskedMayGoBack, RefusedGoesBack, SameIsQuiet, ConfirmedRests, FailedRests, TimedOutRests, CommitRests, FailedCommitRests, AbortRests};

/// What is ignored changes nothing, and a view that asked nothing hears nothing.
pub fn ignoring()
    ensures leaves { IgnoredLeaves }
    ensures new { NewHearsNothing }
{}

/// The child and its points stay what they are.
pub fn places()
    ensures asks { AsksKeepThePlace }
    ensures messages { MessagesKeepThePlace }
{}

/// What is asked, and what is heard, can be taken back.
pub fn later()
    ensures same { SameIsLater }
    ensures then { LaterIsLater }
    ensures asks { AsksAreLater }
    ensures messages { MessagesAreLater }
{}

/// What is asked names the view's connection, where it is known, and can be written.
pub fn messages()
    ensures about { AsksNameTheConnection }
    ensures first { FirstNamesNone }
    ensures modification { ModificationNamesTheConnection }
    ensures about_printable { AsksArePrintable }
    ensures first_printable { FirstIsPrintable }
    ensures modification_printable { ModificationIsPrintable }
{}

/// A view has one unanswered request of the reservation machine at a time, and has it until its child answers it.
pub fn outstanding()
    ensures stands { AskedStands }
    ensures asked { AskedIsHeld }
    ensures none { NoneWasHeld }
    ensures others { OthersHoldTheSame }
    ensures answered { HeldUntilAnswered }
{}

/// In each view the unanswered request fits the phase.
pub fn phases()
    ensures new { NewFits }
    ensures asks { AsksKeepTheFit }
    ensures messages { MessagesKeepTheFit }
{}

/// What concerns the reservation, and what leaves it alone.
pub fn reservations()
    ensures apart { ApartIsTheSame }
    ensures settling { OnlySettlingChanges }
    ensures alike { OthersAreAlike }
    ensures same { SameHearTheSame }
    ensures request { RequestStaysOrEnds }
    ensures attempt { AttemptIsAsked }
    ensures held { HeldKeepsTheAttempt }
{}

/// From which messages a connection is learnt, and which versions they add.
pub fn learning()
    ensures asks { AsksKeepWhatIsKnown }
    ensures teach { MessagesTeach }
    ensures first { FirstAnswerTeaches }
    ensures commit { MessagesCommit }
{}

/// A view that has nothing unanswered stands as the table of phases says against its child's record: what is asked may go
/// back to that, and each answer leads to it.
pub fn at_rest()
    ensures asked { AskedMayGoBack }
    ensures refused { RefusedGoesBack }
    ensures same { SameIsQuiet }
    ensures confirmed { ConfirmedRests }
    ensures failed { FailedRests }
    ensures timed_out { TimedOutRests }
    ensures commit { CommitRests }
    ensures failed_commit { FailedCommitRests }
    ensures abort { AbortRests }
{}
