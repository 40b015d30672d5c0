//! What a parent asks of a child: the message, and what the view keeps of it.

ghost use Rattle.std.specs.Prelude.{◌≡◌, ◌↔◌, true, false, Err, Some, None, IfOk, IfErr, IfSome, IfNone, IsSome, OnOk, OnErr};
ghost use Rattle.std.specs.Option.{option_copied};
ghost use Rattle.std.specs.Str.{bytes_eq};
ghost use Rattle.nsi_primitive.specs.declared.kind.Kind.{Kind as K};
ghost use Rattle.nsi_primitive.specs.declared.message.Body.{Body as B};
ghost use Rattle.child_connection.specs.declared.state.AskFault.{AskFault as Fault};
ghost use Rattle.child_connection.specs.Asks.{asks, request_about, told_direction, first_reserve, modification, reserve_for, header_to, to_child};
ghost use Rattle.child_connection.specs.Refusals.{is_about, outstanding, ask_refusal, reserve_refusal};
ghost use Rattle.child_connection.specs.Later.{IsLater};

use super::ChildConnection;
use crate::state::{AskFault, Phase, Sent};
use nsi_base::{Mbps, Name, Second, Version, copy_text};
use nsi_primitive::{Body, Directionality, Header, Id, Kind, Message, ReserveRequest, Service};
use std::alloc::AllocError;

impl ChildConnection {
    /// Asks the child to reserve from a second up to another, so many Mbps: a first reserve with the service, or without
    /// one a modification of the connection that is known. It is refused while a request of the reservation machine is
    /// unanswered. What is refused, and want of memory, change nothing.
    #[tactic(auto, unfolding(crate::specs::Refusals::reserve_refusal))]
    pub fn ask_reserve(
        &mut self,
        parent: &Name,
        correlation: Id,
        version: Option<Version>,
        start: Second,
        end: Second,
        capacity: Mbps,
        service: Option<&Service>,
    ) -> Result<Message, AskFault>
        requires first { IsSome (option_copied service) ↔ (self.old.connection ≡ None) }
        requires apart { IfSome (option_copied service)
            (λ _. bytes_eq self.old.source self.old.dest ≡ false) }
        ensures refused { IfSome (reserve_refusal self.old) (λ fault. result ≡ Err fault) }
        ensures memory { IfNone (reserve_refusal self.old)
            (IfErr result (λ fault. fault ≡ Fault.NoMemory)) }
        ensures message { let asked =
            reserve_for (option_copied service.entry) version start end capacity self.old in
            IfOk result (λ m. m ≡ to_child parent.now correlation self.old (B.Reserve asked)) }
        ensures asked { OnOk result (self.new ≡ asks K.Reserve correlation self.old) }
        ensures kept { OnErr result (self.new ≡ self.old) }
        ensures later { IsLater self.old self.new }
    {
        if let Some(open) = self.reserve_request {
            return Err(AskFault::Outstanding(open.correlation));
        }
        let request = self.reserve_for(version, start, end, capacity, service)?;
        let header = self.header_to(parent, correlation)?;
        self.reserve_is_asked(correlation);
        Ok(Message {
            header,
            body: Body::Reserve(request),
        })
    }

    /// Asks the child to commit, to abort, to provision, to release or to terminate. It is refused while the child's id
    /// isn't known, and then while a request of the same machine is unanswered. What is refused, and want of memory,
    /// change nothing.
    #[tactic(auto, unfolding(crate::specs::Refusals::ask_refusal))]
    pub fn ask(&mut self, parent: &Name, correlation: Id, kind: Kind) -> Result<Message, AskFault>
        requires { is_about kind ≡ true }
        ensures refused { IfSome (ask_refusal kind self.old) (λ fault. result ≡ Err fault) }
        ensures memory { IfNone (ask_refusal kind self.old)
            (IfErr result (λ fault. fault ≡ Fault.NoMemory)) }
        ensures message { IfSome self.old.connection (λ id. IfOk result
            (λ m. m ≡ to_child parent.now correlation self.old (request_about kind id))) }
        ensures asked { OnOk result (self.new ≡ asks kind correlation self.old) }
        ensures kept { OnErr result (self.new ≡ self.old) }
        ensures later { IsLater self.old self.new }
    {
        let Some(connection) = self.connection else {
            return Err(AskFault::NoId);
        };
        if let Some(open) = self.open_request(kind) {
            return Err(AskFault::Outstanding(open.correlation));
        }
        let header = self.header_to(parent, correlation)?;
        self.is_asked(kind, correlation)?;
        Ok(Message {
            header,
            body: request_about(kind, connection),
        })
    }

    fn header_to(&self, parent: &Name, correlation: Id) -> Result<Header, AllocError>
        ensures { IfOk result (λ h. h ≡ header_to parent.now correlation self.now) }
    {
        Ok(Header {
            correlation,
            requester: parent.copy()?,
            provider: self.child.copy()?,
        })
    }

    #[tactic(auto, unfolding(crate::specs::Asks::reserve_for))]
    fn reserve_for(
        &self,
        version: Option<Version>,
        start: Second,
        end: Second,
        capacity: Mbps,
        service: Option<&Service>,
    ) -> Result<ReserveRequest, AllocError>
        ensures { IfOk result (λ r. r ≡
            reserve_for (option_copied service.entry) version start end capacity self.now) }
    {
        match service {
            Some(service) => Ok(ReserveRequest {
                capacity,
                connection: None,
                description: copy_text(&service.description)?,
                dest: Some(self.dest.copy()?),
                directionality: told_direction(service.directionality),
                end,
                global: copy_text(&service.global)?,
                source: Some(self.source.copy()?),
                start: Some(start),
                symmetric: service.symmetric,
                version,
            }),
            None => Ok(ReserveRequest {
                capacity,
                connection: self.connection,
                description: None,
                dest: None,
                directionality: None,
                end,
                global: None,
                source: None,
                start: Some(start),
                symmetric: None,
                version,
            }),
        }
    }

    #[tactic(auto, unfolding(crate::specs::Asks::asks, crate::specs::Views::is_kind))]
    fn reserve_is_asked(&mut self, correlation: Id)
        ensures { self.new ≡ asks K.Reserve correlation self.old }
    {
        self.reserve_request = Some(Sent {
            correlation,
            kind: Kind::Reserve,
        });
        self.before = self.phase;
        self.phase = Phase::Reserving;
        self.attempt = Some(correlation);
        self.error = None;
    }

    /// A request about the connection is kept until it is answered. For a commit room is made for the version.
    #[tactic(auto, unfolding(crate::specs::Asks::asks))]
    fn is_asked(&mut self, kind: Kind, correlation: Id) -> Result<(), AllocError>
        requires { is_about kind ≡ true }
        ensures asked { OnOk result (self.new ≡ asks kind correlation self.old) }
        ensures kept { OnErr result (self.new ≡ self.old) }
    {
        match kind {
            Kind::ReserveCommit => return self.commit_is_asked(correlation),
            Kind::ReserveAbort => self.abort_is_asked(correlation),
            Kind::Provision | Kind::Release => self.provision_is_asked(kind, correlation),
            Kind::Terminate => self.terminate_is_asked(correlation),
            _ => {}
        }
        Ok(())
    }

    #[tactic(auto, unfolding(crate::specs::Asks::asks))]
    fn commit_is_asked(&mut self, correlation: Id) -> Result<(), AllocError>
        ensures asked { OnOk result (self.new ≡ asks K.ReserveCommit correlation self.old) }
        ensures kept { OnErr result (self.new ≡ self.old) }
    {
        self.committed.reserve(1)?;
        self.reserve_request = Some(Sent {
            correlation,
            kind: Kind::ReserveCommit,
        });
        self.before = self.phase;
        self.phase = Phase::Committing;
        self.room = self.room.max(self.committed.len() + 1);
        Ok(())
    }

    #[tactic(auto, unfolding(crate::specs::Asks::asks, crate::specs::Views::is_kind))]
    fn abort_is_asked(&mut self, correlation: Id)
        ensures { self.new ≡ asks K.ReserveAbort correlation self.old }
    {
        self.reserve_request = Some(Sent {
            correlation,
            kind: Kind::ReserveAbort,
        });
        self.before = self.phase;
        self.phase = Phase::Aborting;
    }

    #[tactic(auto, unfolding(crate::specs::Asks::asks))]
    fn provision_is_asked(&mut self, kind: Kind, correlation: Id)
        ensures provision { kind ≡ K.Provision → self.new ≡ asks K.Provision correlation self.old }
        ensures release { kind ≡ K.Release → self.new ≡ asks K.Release correlation self.old }
    {
        self.provision_request = Some(Sent { correlation, kind });
        self.provision_error = None;
    }

    #[tactic(auto, unfolding(crate::specs::Asks::asks))]
    fn terminate_is_asked(&mut self, correlation: Id)
        ensures { self.new ≡ asks K.Terminate correlation self.old }
    {
        self.lifecycle_request = Some(Sent {
            correlation,
            kind: Kind::Terminate,
        });
    }
}

fn told_direction(directionality: Directionality) -> Option<Directionality>
    ensures { result ≡ told_direction directionality }
{
    match directionality {
        Directionality::Bidirectional => None,
        Directionality::Unidirectional => Some(Directionality::Unidirectional),
    }
}

#[tactic(auto, unfolding(crate::specs::Asks::request_about))]
fn request_about(kind: Kind, connection: Id) -> Body
    ensures { result ≡ request_about kind connection }
{
    match kind {
        Kind::ReserveCommit => Body::ReserveCommit { connection },
        Kind::ReserveAbort => Body::ReserveAbort { connection },
        Kind::Provision => Body::Provision { connection },
        Kind::Release => Body::Release { connection },
        Kind::Terminate => Body::Terminate { connection },
        _ => Body::QueryRecursive { connection },
    }
}
