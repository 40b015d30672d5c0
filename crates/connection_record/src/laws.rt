//! The laws of a record. Each function is its contract.

ghost use Rattle.connection_record.specs.Laws.{FreshIsInOrder, MovesKeepOrder, TicksKeepOrder, OwedIsKept, MovesKeepPoints, TicksKeepPoints, MovesSpeak, RequestsSpeak, WorksSpeak, TicksSpeak, TellingSpeaks, MovesName, TicksName, TellingNames, WorksAct, ForcesAct, ClosesAct, TicksAct, TellingActs, CoursesKeep, RequestsLeave, OwingIsSaying, UnrefusedFits, ModificationAsks, FirstAsks, UnrefusedNamesAgent, UnrefusedIsTaken, ReservesByTable, ProvisionsByTable, LivesByTable};

/// A record is in order as it is made, and whatever is done to it leaves it so. What it still has to answer is under a
/// correlation that it has, so no answer is ever under the nil id.
pub fn order()
    ensures fresh { FreshIsInOrder }
    ensures moves { MovesKeepOrder }
    ensures ticks { TicksKeepOrder }
    ensures owed { OwedIsKept }
{}

/// Whatever is done to a record leaves its points those of the names in its service.
pub fn points()
    ensures moves { MovesKeepPoints }
    ensures ticks { TicksKeepPoints }
{}

/// What a record says and still owes never exceeds what it owed and began: nothing is answered twice, nor unasked.
pub fn speaks()
    ensures moves { MovesSpeak }
    ensures requests { RequestsSpeak }
    ensures works { WorksSpeak }
    ensures ticks { TicksSpeak }
    ensures telling { TellingSpeaks }
    ensures silent { OwingIsSaying }
{}

/// All that a record says names its own connection.
pub fn names()
    ensures moves { MovesName }
    ensures ticks { TicksName }
    ensures telling { TellingNames }
{}

/// What an agent does to a record by itself is one move of the reservation machine or none, and begins no request.
pub fn acts()
    ensures works { WorksAct }
    ensures forces { ForcesAct }
    ensures closes { ClosesAct }
    ensures ticks { TicksAct }
    ensures telling { TellingActs }
{}

/// What is true of a record behind any number of such acts, whatever order their messages have.
pub fn courses()
    ensures { CoursesKeep }
{}

/// A request to another machine leaves the reservation alone.
pub fn requests()
    ensures { RequestsLeave }
{}

/// What is known of a request that isn't refused.
pub fn refusals()
    ensures fits { UnrefusedFits }
    ensures modification { ModificationAsks }
    ensures first { FirstAsks }
    ensures agent { UnrefusedNamesAgent }
    ensures taken { UnrefusedIsTaken }
{}

/// The rows of the written tables are what is done to a record.
pub fn tables()
    ensures reservation { ReservesByTable }
    ensures provision { ProvisionsByTable }
    ensures lifecycle { LivesByTable }
{}
