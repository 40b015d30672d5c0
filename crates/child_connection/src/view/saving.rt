//! How what is done to a view is taken back.

ghost use Rattle.std.specs.Prelude.{◌≡◌};
ghost use Rattle.child_connection.specs.Views.{ChildConnection as View};
ghost use Rattle.child_connection.specs.Later.{saved_of, IsLater};

use super::{ChildConnection, is_asking};
use crate::savepoint::Savepoint;
use nsi_primitive::Kind;

impl ChildConnection {
    /// What `restore` needs to go back to the view as it is now.
    pub fn save(&self) -> Savepoint
        ensures { result ≡ saved_of self.now }
    {
        Savepoint {
            connection: self.connection,
            phase: self.phase,
            before: self.before,
            attempt: self.attempt,
            pending: self.pending,
            committed: self.committed.len(),
            error: self.error,
            reserve_request: self.reserve_request,
            provision_request: self.provision_request,
            lifecycle_request: self.lifecycle_request,
            provision_error: self.provision_error,
            gone: self.gone,
            plane: self.plane,
            plane_notice: self.plane_notice,
            room: self.room,
        }
    }

    /// Goes back to what was saved. It takes no memory; what was saved of another view may change nothing.
    pub fn restore(&mut self, saved: &Savepoint)
        ensures { (x : View) → saved.now ≡ saved_of x → IsLater x self.old → self.new ≡ x }
    {
        let is_ready = !is_asking(&saved.reserve_request, Kind::ReserveCommit)
            || saved.committed < saved.room;
        if self.room < saved.room || !is_ready {
            return;
        }
        self.connection = saved.connection;
        self.phase = saved.phase;
        self.before = saved.before;
        self.attempt = saved.attempt;
        self.pending = saved.pending;
        self.committed.truncate(saved.committed);
        self.error = saved.error;
        self.reserve_request = saved.reserve_request;
        self.provision_request = saved.provision_request;
        self.lifecycle_request = saved.lifecycle_request;
        self.provision_error = saved.provision_error;
        self.gone = saved.gone;
        self.plane = saved.plane;
        self.plane_notice = saved.plane_notice;
        self.room = saved.room;
    }
}
