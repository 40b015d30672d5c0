//! How what is done to a view is taken back.

ghost use Rattle.std.specs.Prelude.{◌≡◌};
ghost use Rattle.child_connection.specs.Views.{ChildConnection as View};
ghost use Rattle.child_connection.specs.Later.{saved_of, IsLater};

use crate::state::{Phase, Sent};
use nsi_base::Version;
use nsi_primitive::{ErrorName, Id, Plane};

/// What changes of a view, how many versions are committed, and for how many there is memory.
#[derive(Clone, Copy, Debug)]
pub struct Savepoint {
    pub connection: Option<Id>,
    pub phase: Phase,
    pub before: Phase,
    pub attempt: Option<Id>,
    pub pending: Option<Version>,
    pub committed: usize,
    pub error: Option<ErrorName>,
    pub reserve_request: Option<Sent>,
    pub provision_request: Option<Sent>,
    pub lifecycle_request: Option<Sent>,
    pub provision_error: Option<ErrorName>,
    pub gone: bool,
    pub plane: Plane,
    pub plane_notice: u64,
    pub room: usize,
}
