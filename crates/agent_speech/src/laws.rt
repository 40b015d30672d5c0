//! The laws of what agents say. Each function is its contract.

ghost use Rattle.agent_speech.specs.Laws.{EntriesSayWhatIsOwed, NothingIsSaidTwice, BlankIsEven, EntriesKeepEven, EntriesHoldWhatIsAsked, WhatIsAskedIsHeld, OneHoldsIt, AnswersWereAsked, IdsAreApart, NothingUnasked, HoldsWereAsked};

/// What an entry makes an agent say was owed, or is of a request that it takes; so it says nothing twice, and answers only what came.
pub fn every_step()
    ensures step { EntriesSayWhatIsOwed }
    ensures telling { NothingIsSaidTwice }
    ensures asked { AnswersWereAsked }
{}

/// At an aggregator records and the views of their children stand side by side.
pub fn even()
    ensures blank { BlankIsEven }
    ensures entries { EntriesKeepEven }
{}

/// Each request of the reservation machine is held by one view as unanswered until an answer of its child is heard.
pub fn every_parent()
    ensures step { EntriesHoldWhatIsAsked }
    ensures telling { WhatIsAskedIsHeld }
    ensures once { OneHoldsIt }
{}

/// No two records of an agent have one id, nothing is said or owed under a header that no request had, and what is held was asked for.
pub fn every_record()
    ensures ids { IdsAreApart }
    ensures unasked { NothingUnasked }
    ensures holds { HoldsWereAsked }
{}
