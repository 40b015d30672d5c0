//! Messages: a header and a body (GFD.237, section 8).

ghost use Rattle.std.specs.Prelude.{◌≡◌, IfOk};
ghost use Rattle.nsi_primitive.specs.Messages.{kind_of, is_request, is_query, connection_of, named_connection, start_at, error_of, identity, sender, addressee};

use crate::id::Id;
use crate::kind::{Directionality, ErrorName, FaultEvent, Kind};
use crate::state::{Lsm, Psm, Rsm};
use nsi_base::{Flow, HoldTime, Interval, List, Mbps, Name, Second, Text, Version};
use std::alloc::AllocError;

/// Who asks whom, and under which correlationId. An answer has the header of its request.
#[derive(Debug, Drop)]
pub struct Header {
    pub correlation: Id,
    pub requester: Name,
    pub provider: Name,
}

/// A notification that was sent of a connection (GFD.237, queryNotification): its number, counted from 1, and when.
#[derive(Clone, Copy, Debug, PartialEq, Eq)]
pub struct Notice {
    pub number: u64,
    pub kind: Kind,
    pub correlation: Id,
    pub second: Second,
}

/// A request that was answered (GFD.237, queryResult): its number, counted from 1, by what, and when.
#[derive(Clone, Copy, Debug, PartialEq, Eq)]
pub struct Outcome {
    pub number: u64,
    pub kind: Kind,
    pub correlation: Id,
    pub second: Second,
}

/// When, and how much, under which version.
#[derive(Clone, Copy, Debug, PartialEq, Eq)]
pub struct Criteria {
    pub version: Version,
    pub interval: Interval,
    pub capacity: Mbps,
}

/// Between which points, and how (GFD.237, the point-to-point service).
#[derive(Debug, Drop)]
pub struct Service {
    pub source: Name,
    pub dest: Name,
    pub directionality: Directionality,
    pub symmetric: Option<bool>,
    pub global: Option<Text>,
    pub description: Option<Text>,
}

/// Why a request failed. `Plain` has a name without further keys, so neither `Bandwidth` nor `Child`.
#[derive(Debug, Drop)]
pub enum Cause {
    Plain(ErrorName),
    /// The first second at which a point lacks bandwidth in a direction, with the load of the others there, in Mbps.
    Bandwidth {
        stp: Name,
        flow: Flow,
        second: Second,
        load: u64,
        capacity: Mbps,
    },
    /// A child refused, and why.
    Child {
        child: Name,
        error: ErrorName,
    },
}

/// The agent that refused, and why (GFD.237, serviceException).
#[derive(Debug, Drop)]
pub struct Exception {
    pub nsa: Name,
    pub cause: Cause,
}

/// What a requester asks. Without a connection it is a first reserve, which names both points; with one it is a
/// modification. Without a start it starts when it is taken.
#[derive(Debug, Drop)]
pub struct ReserveRequest {
    pub capacity: Mbps,
    pub connection: Option<Id>,
    pub description: Option<Text>,
    pub dest: Option<Name>,
    pub directionality: Option<Directionality>,
    pub end: Second,
    pub global: Option<Text>,
    pub source: Option<Name>,
    pub start: Option<Second>,
    pub symmetric: Option<bool>,
    pub version: Option<Version>,
}

/// What a provider holds for its requester until it is committed.
#[derive(Debug, Drop)]
pub struct ReserveConfirmation {
    pub capacity: Mbps,
    pub connection: Id,
    pub description: Option<Text>,
    pub dest: Name,
    pub directionality: Directionality,
    pub end: Second,
    pub global: Option<Text>,
    pub source: Name,
    pub start: Second,
    pub symmetric: Option<bool>,
    pub version: Version,
}

/// A hold that ended before it was committed, where that was, and after how many seconds.
#[derive(Debug, Drop)]
pub struct HoldTimeout {
    pub connection: Id,
    pub notification: u64,
    pub originating_connection: Id,
    pub originating_nsa: Name,
    pub time: Second,
    pub value: HoldTime,
}

/// A connection that failed, by what, and where that was (GFD.237, errorEvent).
#[derive(Debug, Drop)]
pub struct FaultNotice {
    pub connection: Id,
    pub event: FaultEvent,
    pub notification: u64,
    pub originating_connection: Id,
    pub originating_nsa: Name,
    pub time: Second,
}

/// A data plane that changed (GFD.237, dataPlaneStateChange): whether it carries traffic, and by which version. It is
/// consistent where all parts of the connection have this version.
#[derive(Clone, Copy, Debug, PartialEq, Eq)]
pub struct PlaneNotice {
    pub active: bool,
    pub connection: Id,
    pub notification: u64,
    pub time: Second,
    pub version: Version,
    pub consistent: bool,
}

/// A message that wasn't acknowledged in time (GFD.237, messageDeliveryTimeout), by its correlationId.
#[derive(Clone, Copy, Debug, PartialEq, Eq)]
pub struct DeliveryTimeout {
    pub connection: Id,
    pub delivery: Id,
    pub notification: u64,
    pub time: Second,
}

/// Which notifications or results of a connection are asked for, by their numbers (GFD.237, queryNotification and
/// queryResult): from `start` to `end`, both of them included. Without a start they are all from the first one, and
/// without an end all up to the last.
#[derive(Clone, Copy, Debug, PartialEq, Eq)]
pub struct NumberRange {
    pub connection: Id,
    pub end: Option<u64>,
    pub start: Option<u64>,
}

/// A connection in the answer to a querySummary (GFD.237, querySummaryConfirmed). Capacity, times and version are those
/// of the last committed criteria, where there are some.
#[derive(Debug, Drop)]
pub struct SummaryRow {
    pub active: bool,
    pub capacity: Option<Mbps>,
    pub connection: Id,
    pub description: Option<Text>,
    pub dest: Name,
    pub directionality: Directionality,
    pub end: Option<Second>,
    pub global: Option<Text>,
    pub lifecycle: Lsm,
    pub provision: Psm,
    pub reservation: Rsm,
    pub source: Name,
    pub start: Option<Second>,
    pub version: Option<Version>,
}

/// A connection in the answer to a queryRecursive (GFD.237, queryRecursiveConfirmed): that of the agent that answers at
/// depth 0, and below it those of its children, one deeper.
#[derive(Debug, Drop)]
pub struct RecursiveRow {
    pub connection: Id,
    pub depth: u8,
    pub lifecycle: Lsm,
    pub provider: Name,
    pub provision: Psm,
    pub reservation: Rsm,
    pub version: Option<Version>,
}

/// What a message says, by its kind.
#[derive(Debug, Drop)]
pub enum Body {
    Reserve(ReserveRequest),
    ReserveResponse {
        connection: Id,
    },
    ReserveConfirmed(ReserveConfirmation),
    ReserveFailed {
        connection: Id,
        exception: Exception,
    },
    ReserveCommit {
        connection: Id,
    },
    ReserveCommitConfirmed {
        connection: Id,
    },
    ReserveCommitFailed {
        connection: Id,
        exception: Exception,
    },
    ReserveAbort {
        connection: Id,
    },
    ReserveAbortConfirmed {
        connection: Id,
    },
    Provision {
        connection: Id,
    },
    ProvisionConfirmed {
        connection: Id,
    },
    Release {
        connection: Id,
    },
    ReleaseConfirmed {
        connection: Id,
    },
    Terminate {
        connection: Id,
    },
    TerminateConfirmed {
        connection: Id,
    },
    Error {
        connection: Option<Id>,
        exception: Exception,
    },
    ReserveTimeout(HoldTimeout),
    ErrorEvent(FaultNotice),
    DataPlaneStateChange(PlaneNotice),
    MessageDeliveryTimeout(DeliveryTimeout),
    /// Of one connection, or of all.
    QuerySummary {
        connection: Option<Id>,
    },
    QueryNotification(NumberRange),
    QueryResult(NumberRange),
    QueryRecursive {
        connection: Id,
    },
    /// `more` where rows were left out, here and below.
    QuerySummaryConfirmed {
        more: bool,
        reservations: List<SummaryRow>,
    },
    QueryNotificationConfirmed {
        connection: Id,
        more: bool,
        notifications: List<Notice>,
    },
    QueryResultConfirmed {
        connection: Id,
        more: bool,
        results: List<Outcome>,
    },
    QueryRecursiveConfirmed {
        connection: Id,
        more: bool,
        reservations: List<RecursiveRow>,
    },
}

/// A primitive on its way from one agent to another.
#[derive(Debug, Drop)]
pub struct Message {
    pub header: Header,
    pub body: Body,
}

/// By which a message is known: two of one identity are the same message.
#[derive(Debug, Drop)]
pub struct Identity {
    pub requester: Name,
    pub provider: Name,
    pub correlation: Id,
    pub kind: Kind,
}

/// What comes to an agent: a message, or the acknowledgement of one that it sent.
#[derive(Debug, Drop)]
pub enum Parcel {
    Message(Message),
    Ack(Identity),
}

impl Cause {
    /// The name of the error that it is.
    pub fn error(&self) -> ErrorName
        ensures { result ≡ error_of self.now }
    {
        match self {
            Cause::Plain(error) => *error,
            Cause::Bandwidth { .. } => ErrorName::Bandwidth,
            Cause::Child { .. } => ErrorName::Child,
        }
    }
}

impl Exception {
    pub fn error(&self) -> ErrorName
        ensures { result ≡ error_of self.now.cause }
    {
        self.cause.error()
    }
}

impl ReserveRequest {
    /// When it starts, where it is taken at that second.
    pub fn start_at(&self, now: Second) -> Second
        ensures { result ≡ start_at now self.now }
    {
        self.start.unwrap_or(now)
    }
}

impl Body {
    /// The connection that a request is about, where it names one.
    #[tactic(auto, unfolding(crate::specs::Messages::connection_of))]
    pub fn connection(&self) -> Option<Id>
        ensures { result ≡ connection_of self.now }
    {
        match self {
            Body::Reserve(request) => request.connection,
            Body::ReserveCommit { connection }
            | Body::ReserveAbort { connection }
            | Body::Provision { connection }
            | Body::Release { connection }
            | Body::Terminate { connection }
            | Body::QueryRecursive { connection } => Some(*connection),
            Body::QuerySummary { connection } => *connection,
            Body::QueryNotification(range) | Body::QueryResult(range) => Some(range.connection),
            _ => None,
        }
    }

    /// The connection that it is about, of whatever kind it is, where it names one.
    #[tactic(auto, unfolding(crate::specs::Messages::named_connection))]
    pub fn named_connection(&self) -> Option<Id>
        ensures { result ≡ named_connection self.now }
    {
        match self {
            Body::ReserveResponse { connection }
            | Body::ReserveFailed { connection, .. }
            | Body::ReserveCommitConfirmed { connection }
            | Body::ReserveCommitFailed { connection, .. }
            | Body::ReserveAbortConfirmed { connection }
            | Body::ProvisionConfirmed { connection }
            | Body::ReleaseConfirmed { connection }
            | Body::TerminateConfirmed { connection }
            | Body::QueryNotificationConfirmed { connection, .. }
            | Body::QueryResultConfirmed { connection, .. }
            | Body::QueryRecursiveConfirmed { connection, .. } => Some(*connection),
            Body::Error { connection, .. } => *connection,
            Body::ReserveConfirmed(confirmation) => Some(confirmation.connection),
            Body::ReserveTimeout(timeout) => Some(timeout.connection),
            Body::ErrorEvent(notice) => Some(notice.connection),
            Body::DataPlaneStateChange(notice) => Some(notice.connection),
            Body::MessageDeliveryTimeout(timeout) => Some(timeout.connection),
            Body::QuerySummaryConfirmed { .. } => None,
            _ => self.connection(),
        }
    }
}

impl Message {
    pub fn kind(&self) -> Kind
        ensures { result ≡ kind_of self.now.body }
    {
        match &self.body {
            Body::Reserve(_) => Kind::Reserve,
            Body::ReserveResponse { .. } => Kind::ReserveResponse,
            Body::ReserveConfirmed(_) => Kind::ReserveConfirmed,
            Body::ReserveFailed { .. } => Kind::ReserveFailed,
            Body::ReserveCommit { .. } => Kind::ReserveCommit,
            Body::ReserveCommitConfirmed { .. } => Kind::ReserveCommitConfirmed,
            Body::ReserveCommitFailed { .. } => Kind::ReserveCommitFailed,
            Body::ReserveAbort { .. } => Kind::ReserveAbort,
            Body::ReserveAbortConfirmed { .. } => Kind::ReserveAbortConfirmed,
            Body::Provision { .. } => Kind::Provision,
            Body::ProvisionConfirmed { .. } => Kind::ProvisionConfirmed,
            Body::Release { .. } => Kind::Release,
            Body::ReleaseConfirmed { .. } => Kind::ReleaseConfirmed,
            Body::Terminate { .. } => Kind::Terminate,
            Body::TerminateConfirmed { .. } => Kind::TerminateConfirmed,
            Body::Error { .. } => Kind::Error,
            Body::ReserveTimeout(_) => Kind::ReserveTimeout,
            Body::ErrorEvent(_) => Kind::ErrorEvent,
            Body::DataPlaneStateChange(_) => Kind::DataPlaneStateChange,
            Body::MessageDeliveryTimeout(_) => Kind::MessageDeliveryTimeout,
            Body::QuerySummary { .. } => Kind::QuerySummary,
            Body::QueryNotification(_) => Kind::QueryNotification,
            Body::QueryResult(_) => Kind::QueryResult,
            Body::QueryRecursive { .. } => Kind::QueryRecursive,
            Body::QuerySummaryConfirmed { .. } => Kind::QuerySummaryConfirmed,
            Body::QueryNotificationConfirmed { .. } => Kind::QueryNotificationConfirmed,
            Body::QueryResultConfirmed { .. } => Kind::QueryResultConfirmed,
            Body::QueryRecursiveConfirmed { .. } => Kind::QueryRecursiveConfirmed,
        }
    }

    /// Whether it asks for something.
    pub fn is_request(&self) -> bool
        ensures { result ≡ is_request self.now.body }
    {
        self.kind().is_request()
    }

    /// Whether it asks what an agent knows, and changes nothing.
    pub fn is_query(&self) -> bool
        ensures { result ≡ is_query self.now.body }
    {
        self.kind().is_query()
    }

    pub fn identity(&self) -> Result<Identity, AllocError>
        ensures { IfOk result (λ i. i ≡ identity self.now) }
    {
        Ok(Identity {
            requester: self.header.requester.copy()?,
            provider: self.header.provider.copy()?,
            correlation: self.header.correlation,
            kind: self.kind(),
        })
    }

    pub fn sender(&self) -> &Name
        ensures { result.now ≡ sender (identity self.now) }
    {
        if self.is_request() {
            &self.header.requester
        } else {
            &self.header.provider
        }
    }

    pub fn addressee(&self) -> &Name
        ensures { result.now ≡ addressee (identity self.now) }
    {
        if self.kind().is_request() {
            &self.header.provider
        } else {
            &self.header.requester
        }
    }
}

impl Identity {
    /// Who sends the messages of this identity.
    pub fn sender(&self) -> &Name
        ensures { result.now ≡ sender self.now }
    {
        if self.kind.is_request() {
            &self.requester
        } else {
            &self.provider
        }
    }

    /// To whom they are sent.
    pub fn addressee(&self) -> &Name
        ensures { result.now ≡ addressee self.now }
    {
        if self.kind.is_request() {
            &self.provider
        } else {
            &self.requester
        }
    }
}
