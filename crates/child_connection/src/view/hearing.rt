//! What a message makes of a view.

ghost use Rattle.std.specs.Prelude.{◌≡◌, ◌<◌, ◌≤◌, true, vec_len, vec_capacity};
ghost use Rattle.nsi_primitive.specs.declared.kind.Kind.{Kind as K};
ghost use Rattle.child_connection.specs.Hearing.{Heard, heard_if, responded, confirmed, failed, is_reserving_or_held, timed_out, push_version, commit_confirmed, commit_failed, abort_confirmed, answers, errored, provision_confirmed, terminate_confirmed, ended, told_plane, plane_changed, hears, hear};
ghost use Rattle.child_connection.specs.Later.{IsLater};

use super::{ChildConnection, is_id, is_open, is_open_of};
use crate::state::{Phase, Sent, Taken};
use nsi_base::Version;
use nsi_primitive::{Body, ErrorName, Id, Kind, Message, Plane, PlaneNotice};

impl ChildConnection {
    /// Takes a message, and says what it was: an answer to what was asked, a notification, or nothing of the view's, as
    /// what another agent says. It takes no memory.
    pub fn take(&mut self, message: &Message) -> Taken
        ensures view { self.new ≡ (hear message.now self.old).view }
        ensures taken { result ≡ (hear message.now self.old).taken }
        ensures later { IsLater self.old self.new }
    {
        if message.header.provider.is(&self.child) {
            self.hears(&message.body, message.header.correlation)
        } else {
            Taken::Ignored
        }
    }

    #[tactic(auto, unfolding(crate::specs::Hearing::hears))]
    fn hears(&mut self, body: &Body, correlation: Id) -> Taken
        ensures view { self.new ≡ (hears body.now correlation self.old).view }
        ensures taken { result ≡ (hears body.now correlation self.old).taken }
    {
        match body {
            Body::ReserveResponse { connection } => self.responded(*connection, correlation),
            Body::ReserveConfirmed(confirmation) => {
                self.confirmed(confirmation.connection, confirmation.version, correlation)
            }
            Body::ReserveFailed {
                connection,
                exception,
            } => self.failed(*connection, exception.error(), correlation),
            Body::ReserveTimeout(timeout) => self.timed_out(timeout.connection, correlation),
            Body::ReserveCommitConfirmed { .. } => self.commit_confirmed(correlation),
            Body::ReserveCommitFailed { exception, .. } => {
                self.commit_failed(exception.error(), correlation)
            }
            Body::ReserveAbortConfirmed { .. } => self.abort_confirmed(correlation),
            Body::Error { exception, .. } => self.errored(exception.error(), correlation),
            Body::ProvisionConfirmed { .. } => {
                self.provision_confirmed(Kind::Provision, correlation)
            }
            Body::ReleaseConfirmed { .. } => self.provision_confirmed(Kind::Release, correlation),
            Body::TerminateConfirmed { .. } => self.terminate_confirmed(correlation),
            Body::ErrorEvent(notice) => self.ended(notice.connection),
            Body::DataPlaneStateChange(notice) => self.plane_changed(notice),
            _ => Taken::Ignored,
        }
    }

    fn responded(&mut self, connection: Id, correlation: Id) -> Taken
        ensures view { self.new ≡ (responded connection correlation self.old).view }
        ensures taken { result ≡ (responded connection correlation self.old).taken }
    {
        if !(is_id(&self.attempt, correlation) && self.connection.is_none()) {
            return Taken::Ignored;
        }
        self.connection = Some(connection);
        Taken::Learnt
    }

    fn confirmed(&mut self, connection: Id, version: Version, correlation: Id) -> Taken
        ensures view { self.new ≡ (confirmed connection version correlation self.old).view }
        ensures taken { result ≡ (confirmed connection version correlation self.old).taken }
    {
        if !is_open_of(&self.reserve_request, Kind::Reserve, correlation) {
            return Taken::Ignored;
        }
        self.connection = Some(connection);
        self.phase = Phase::Held;
        self.pending = Some(version);
        self.reserve_request = None;
        Taken::Answered(Kind::Reserve)
    }

    fn failed(&mut self, connection: Id, error: ErrorName, correlation: Id) -> Taken
        ensures view { self.new ≡ (failed connection error correlation self.old).view }
        ensures taken { result ≡ (failed connection error correlation self.old).taken }
    {
        if !is_open_of(&self.reserve_request, Kind::Reserve, correlation) {
            return Taken::Ignored;
        }
        self.connection = Some(connection);
        self.phase = Phase::Failed;
        self.error = Some(error);
        self.reserve_request = None;
        Taken::Answered(Kind::Reserve)
    }

    fn timed_out(&mut self, connection: Id, correlation: Id) -> Taken
        ensures view { self.new ≡ (timed_out connection correlation self.old).view }
        ensures taken { result ≡ (timed_out connection correlation self.old).taken }
    {
        if !(is_id(&self.attempt, correlation) && is_reserving_or_held(self.phase)) {
            return Taken::Ignored;
        }
        self.connection = Some(connection);
        self.phase = Phase::TimedOut;
        self.error = Some(ErrorName::Timeout);
        self.pending = None;
        self.reserve_request = None;
        Taken::TimedOut
    }

    fn commit_confirmed(&mut self, correlation: Id) -> Taken
        ensures view { self.new ≡ (commit_confirmed correlation self.old).view }
        ensures taken { result ≡ (commit_confirmed correlation self.old).taken }
    {
        if !is_open_of(&self.reserve_request, Kind::ReserveCommit, correlation) {
            return Taken::Ignored;
        }
        push_in_room(&mut self.committed, &self.pending);
        self.phase = Phase::Idle;
        self.pending = None;
        self.attempt = None;
        self.error = None;
        self.reserve_request = None;
        Taken::Answered(Kind::ReserveCommit)
    }

    fn commit_failed(&mut self, error: ErrorName, correlation: Id) -> Taken
        ensures view { self.new ≡ (commit_failed error correlation self.old).view }
        ensures taken { result ≡ (commit_failed error correlation self.old).taken }
    {
        if !is_open_of(&self.reserve_request, Kind::ReserveCommit, correlation) {
            return Taken::Ignored;
        }
        self.phase = Phase::Idle;
        self.pending = None;
        self.attempt = None;
        self.error = Some(error);
        self.reserve_request = None;
        Taken::Answered(Kind::ReserveCommit)
    }

    fn abort_confirmed(&mut self, correlation: Id) -> Taken
        ensures view { self.new ≡ (abort_confirmed correlation self.old).view }
        ensures taken { result ≡ (abort_confirmed correlation self.old).taken }
    {
        if !is_open_of(&self.reserve_request, Kind::ReserveAbort, correlation) {
            return Taken::Ignored;
        }
        self.phase = Phase::Idle;
        self.pending = None;
        self.attempt = None;
        self.error = None;
        self.reserve_request = None;
        Taken::Answered(Kind::ReserveAbort)
    }

    /// An error answers the request that has its correlationId, of whichever machine.
    fn errored(&mut self, error: ErrorName, correlation: Id) -> Taken
        ensures view { self.new ≡ (errored error correlation self.old).view }
        ensures taken { result ≡ (errored error correlation self.old).taken }
    {
        if is_open(&self.reserve_request, correlation) {
            let taken = answers(&self.reserve_request);
            self.phase = self.before;
            self.error = Some(error);
            self.reserve_request = None;
            if self.before != Phase::Held {
                self.attempt = None;
            }
            return taken;
        }
        if is_open(&self.provision_request, correlation) {
            let taken = answers(&self.provision_request);
            self.provision_error = Some(error);
            self.provision_request = None;
            return taken;
        }
        if is_open(&self.lifecycle_request, correlation) {
            let taken = answers(&self.lifecycle_request);
            self.error = Some(error);
            self.lifecycle_request = None;
            return taken;
        }
        Taken::Ignored
    }

    fn provision_confirmed(&mut self, kind: Kind, correlation: Id) -> Taken
        ensures view { self.new ≡ (provision_confirmed kind correlation self.old).view }
        ensures taken { result ≡ (provision_confirmed kind correlation self.old).taken }
    {
        if !is_open_of(&self.provision_request, kind, correlation) {
            return Taken::Ignored;
        }
        self.provision_error = None;
        self.provision_request = None;
        Taken::Answered(kind)
    }

    fn terminate_confirmed(&mut self, correlation: Id) -> Taken
        ensures view { self.new ≡ (terminate_confirmed correlation self.old).view }
        ensures taken { result ≡ (terminate_confirmed correlation self.old).taken }
    {
        if !is_open_of(&self.lifecycle_request, Kind::Terminate, correlation) {
            return Taken::Ignored;
        }
        self.gone = true;
        self.lifecycle_request = None;
        Taken::Answered(Kind::Terminate)
    }

    fn ended(&self, connection: Id) -> Taken
        ensures view { self.now ≡ (ended connection self.now).view }
        ensures taken { result ≡ (ended connection self.now).taken }
    {
        if is_id(&self.connection, connection) {
            Taken::Ended
        } else {
            Taken::Ignored
        }
    }

    fn plane_changed(&mut self, notice: &PlaneNotice) -> Taken
        ensures view { self.new ≡ (plane_changed notice.now self.old).view }
        ensures taken { result ≡ (plane_changed notice.now self.old).taken }
    {
        if !(is_id(&self.connection, notice.connection)
            && self.plane_notice < notice.notification)
        {
            return Taken::Ignored;
        }
        self.plane = Plane {
            active: notice.active,
            version: notice.version,
            consistent: notice.consistent,
        };
        self.plane_notice = notice.notification;
        Taken::Plane
    }
}

fn is_reserving_or_held(phase: Phase) -> bool
    ensures { result ≡ is_reserving_or_held phase }
{
    matches!(phase, Phase::Reserving | Phase::Held)
}

/// The request that is answered.
fn answers(request: &Option<Sent>) -> Taken
    ensures { result ≡ answers request.now }
{
    match request {
        None => Taken::Ignored,
        Some(sent) => Taken::Answered(sent.kind),
    }
}

/// A version joins the others, for which there is room.
fn push_in_room(versions: &mut Vec<Version>, version: &Option<Version>)
    requires { vec_len versions.old < vec_capacity versions.old }
    ensures pushed { versions.new.items ≡ push_version versions.old.items version.now }
    ensures room { vec_capacity versions.old ≤ vec_capacity versions.new }
{
    if let Some(version) = version {
        let _pushed = versions.push(*version);
    }
}
