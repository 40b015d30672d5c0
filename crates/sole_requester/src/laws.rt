//! Laws of entries. It costs nothing to call them.

ghost use Rattle.sole_requester.specs.Laws.{RequestsWaitWhereNamed, WorkEndsWaiting, AsksSendFreshRequests, MessagesSendNothing};

/// Where one requester alone asks a provider, each request makes work wait only where it, or an answer to it, names; one
/// work does it. Each request is new.
pub fn entries()
    ensures requests { RequestsWaitWhereNamed }
    ensures work { WorkEndsWaiting }
    ensures asks { AsksSendFreshRequests }
    ensures messages { MessagesSendNothing }
{}
