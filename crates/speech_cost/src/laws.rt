//! The laws of what agents say against the requests that they take. Each function is its contract.

ghost use Rattle.speech_cost.specs.Laws.{EntriesArePaid, ProvidersSayLittle, OwnEntriesArePaid, AggregatorsSayLittle, LatesWereAsked, LatesAreFew, EntriesPassChangesOn, ChangesArePassedOn, EntriesTellWhatIsHeard, ChangesWereHeard};

/// What an entry makes a provider say was left to say, or is paid by a request that it takes for the first time; so all that it
/// says is paid by the requests that it has taken, and what it may still say is too.
pub fn providers_pay()
    ensures entries { EntriesArePaid }
    ensures telling { ProvidersSayLittle }
{}

/// What an entry makes an aggregator say by itself is paid in the same way: its answers, the ends of its holds, and that a connection
/// was ended by force.
pub fn aggregators_pay()
    ensures entries { OwnEntriesArePaid }
    ensures telling { AggregatorsSayLittle }
{}

/// An aggregator tells of a request that is late once, so of no more than it has asked.
pub fn lates_are_few()
    ensures entries { LatesWereAsked }
    ensures telling { LatesAreFew }
{}

/// An aggregator tells that the data plane has changed only where a view of it hears so from its child, and once: no entry makes it
/// tell more changes than there are views that hear of one. So where no two views of one child know one connection, it tells no more
/// changes than it has heard.
pub fn changes_are_passed_on()
    ensures entries { EntriesPassChangesOn }
    ensures telling { ChangesArePassedOn }
    ensures hearing { EntriesTellWhatIsHeard }
    ensures once { ChangesWereHeard }
{}
