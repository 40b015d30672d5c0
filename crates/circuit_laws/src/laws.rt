//! The laws of circuits in runs. Each function is its contract.

ghost use Rattle.circuit_laws.specs.Laws.{ViewsHavePhases, ChildrenHavePhases, ViewsAreInStep, ChildrenAreInStep, ViewsAreBacked, ChildrenAreBacked, ViewsKnowTheirOwn, ChildrenKnowTheirOwn, RunsAreBacked, ViewsRise, RecordsAreApart, ChildrenLive, CriteriaWereAskedFor, AttemptsWereAskedFor, RecordsWereOpened, RecordsHaveThePoints, ChildrenAreBetween, ChildrenHaveTheCriteria, CircuitsStand, CircuitsAreReached};

use child_connection::laws::places;
use least_routes::laws::{least_path_or_none, routes_exist};
use nsi_world::laws::{agents, sent};
use run_growth::laws::{in_step, rising, starts};

/// In every run, by the phase of a view that a requester has, or an aggregator of a child, one reads off where the record of the agent that
/// it asks stands, whatever cut of either is taken.
pub fn phases()
    ensures views { ViewsHavePhases }
    ensures children { ChildrenHavePhases }
{}

/// The versions that such a view has as committed are the record's, or all but its last.
pub fn steps()
    ensures views { ViewsAreInStep }
    ensures children { ChildrenAreInStep }
{}

/// Each version that such a view has as committed has a commit of its own that was sent, and confirmed; and the record has it as committed by
/// what is synced.
pub fn backing()
    ensures views { ViewsAreBacked }
    ensures children { ChildrenAreBacked }
{
    sent();
}

/// No two such views know one connection, and so no two views of an aggregator are backed by one record.
pub fn known()
    ensures views { ViewsKnowTheirOwn }
    ensures children { ChildrenKnowTheirOwn }
    ensures records { RecordsAreApart }
{}

/// Whatever a crash leaves of an agent, each of its views is of another agent, no requester, and that one backs so all that the view has as
/// committed; and these versions rise.
pub fn views()
    ensures backed { RunsAreBacked }
    ensures rise { ViewsRise }
{
    places();
    sent();
    rising();
    in_step();
}

/// What a record of an agent has as committed was asked for by its owner: a reserve that was sent has its schedule and capacity, and its version
/// where it gives one.
pub fn asked_for()
    ensures { CriteriaWereAskedFor }
{
    sent();
    starts();
}

/// What it has as pending was asked for by its owner too: by the reserve that is the record's attempt.
pub fn attempts()
    ensures { AttemptsWereAskedFor }
{
    sent();
    starts();
}

/// Each record was opened by a first reserve of its owner that was sent, and has that reserve's service: its two points, and all else. Where the
/// owner is an aggregator, these are the points of a view that it has of that agent; and where a view knows its connection, they are its own.
pub fn opened()
    ensures by { RecordsWereOpened }
    ensures points { RecordsHaveThePoints }
    ensures between { ChildrenAreBetween }
{
    sent();
}

/// While a connection of an aggregator lives, so do the records of its children: none is terminated, nor about to be, before the connection is.
pub fn living()
    ensures { ChildrenLive }
{
    agents();
}

/// What an aggregator's own record has as committed, the record of each of its children has too: the same version with the same schedule and capacity,
/// whatever a crash leaves of both.
pub fn criteria()
    ensures { ChildrenHaveTheCriteria }
{
    agents();
}

/// What an aggregator's own record has as committed stands in each network on the least path between its points, by what that network has synced: a
/// circuit that is confirmed from end to end is there, whatever was lost, came twice or came late, and whoever began again from what was synced.
/// Each leg of that path is of a child with a record of its own between the leg's points, which lives while the circuit does, and has the circuit's
/// schedule and capacity.
pub fn circuits()
    ensures { CircuitsStand }
{
    least_path_or_none();
    views();
    living();
    opened();
    criteria();
    sent();
    agents();
}

/// And there are circuits: in a topology that a text gives, over the legs of its least paths, a run reaches one of two children.
pub fn reached()
    ensures { CircuitsAreReached }
{
    least_path_or_none();
    routes_exist();
}
