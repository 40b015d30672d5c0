//! The laws of confirmed commits. Each function is its contract.

ghost use Rattle.known_commits.specs.Laws.{ConfirmationsAreAwaited, ConfirmationsAreKnown, ConfirmationsAreReached};

use least_routes::laws::{least_path_or_none, routes_exist};
use nsi_world::laws::{agents, sent};
use run_text::laws::confirmed_is_committed;

/// In every run, the first confirmation of a commit that a requester gets is awaited by just one of its views: the commit under its header
/// isn't answered, and the view holds a version.
pub fn awaited()
    ensures { ConfirmationsAreAwaited }
{
    agents();
    sent();
}

/// So that confirmation puts a version, the one that was pending, behind those that one of the requester's views has as committed; and the others
/// have what they had.
pub fn known()
    ensures { ConfirmationsAreKnown }
{
    agents();
    sent();
    awaited();
    confirmed_is_committed();
}

/// And there are such confirmations: in a topology that a text gives, over the legs of its least paths, a run goes on with one.
pub fn reached()
    ensures { ConfirmationsAreReached }
{
    least_path_or_none();
    routes_exist();
}
