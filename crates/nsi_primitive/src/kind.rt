//! The kinds of primitives, the names of errors, and directions.

ghost use Rattle.std.specs.Prelude.{◌≡◌};
ghost use Rattle.nsi_primitive.specs.Kinds.{first_named, first_error_named};

const KINDS: [Kind; 28] = [
    Kind::Reserve,
    Kind::ReserveResponse,
    Kind::ReserveConfirmed,
    Kind::ReserveFailed,
    Kind::ReserveCommit,
    Kind::ReserveCommitConfirmed,
    Kind::ReserveCommitFailed,
    Kind::ReserveAbort,
    Kind::ReserveAbortConfirmed,
    Kind::Provision,
    Kind::ProvisionConfirmed,
    Kind::Release,
    Kind::ReleaseConfirmed,
    Kind::Terminate,
    Kind::TerminateConfirmed,
    Kind::Error,
    Kind::ReserveTimeout,
    Kind::ErrorEvent,
    Kind::DataPlaneStateChange,
    Kind::MessageDeliveryTimeout,
    Kind::QuerySummary,
    Kind::QuerySummaryConfirmed,
    Kind::QueryNotification,
    Kind::QueryNotificationConfirmed,
    Kind::QueryResult,
    Kind::QueryResultConfirmed,
    Kind::QueryRecursive,
    Kind::QueryRecursiveConfirmed,
];

const ERRORS: [ErrorName; 14] = [
    ErrorName::Payload,
    ErrorName::Version,
    ErrorName::WrongProvider,
    ErrorName::Nonexistent,
    ErrorName::Gone,
    ErrorName::InvalidTransition,
    ErrorName::VersionLow,
    ErrorName::UnknownStp,
    ErrorName::Schedule,
    ErrorName::Bandwidth,
    ErrorName::Passed,
    ErrorName::NoPath,
    ErrorName::Child,
    ErrorName::Timeout,
];

/// A primitive of the Connection Service (GFD.237, section 8). Each kind is written by the standard's name.
#[derive(Clone, Copy, Debug, PartialEq, Eq)]
pub enum Kind {
    Reserve,
    ReserveResponse,
    ReserveConfirmed,
    ReserveFailed,
    ReserveCommit,
    ReserveCommitConfirmed,
    ReserveCommitFailed,
    ReserveAbort,
    ReserveAbortConfirmed,
    Provision,
    ProvisionConfirmed,
    Release,
    ReleaseConfirmed,
    Terminate,
    TerminateConfirmed,
    Error,
    ReserveTimeout,
    ErrorEvent,
    DataPlaneStateChange,
    MessageDeliveryTimeout,
    QuerySummary,
    QuerySummaryConfirmed,
    QueryNotification,
    QueryNotificationConfirmed,
    QueryResult,
    QueryResultConfirmed,
    QueryRecursive,
    QueryRecursiveConfirmed,
}

impl Kind {
    ghost use Rattle.nsi_primitive.specs.Kinds.{kind_name, kind_named, is_request_kind, is_query_kind};

    /// The name by which the kind is written.
    #[tactic(auto, unfolding(crate::specs::Kinds::kind_name))]
    pub fn name(self) -> &'static str
        ensures { result.now ≡ kind_name self }
    {
        match self {
            Kind::Reserve => "reserve",
            Kind::ReserveResponse => "reserveResponse",
            Kind::ReserveConfirmed => "reserveConfirmed",
            Kind::ReserveFailed => "reserveFailed",
            Kind::ReserveCommit => "reserveCommit",
            Kind::ReserveCommitConfirmed => "reserveCommitConfirmed",
            Kind::ReserveCommitFailed => "reserveCommitFailed",
            Kind::ReserveAbort => "reserveAbort",
            Kind::ReserveAbortConfirmed => "reserveAbortConfirmed",
            Kind::Provision => "provision",
            Kind::ProvisionConfirmed => "provisionConfirmed",
            Kind::Release => "release",
            Kind::ReleaseConfirmed => "releaseConfirmed",
            Kind::Terminate => "terminate",
            Kind::TerminateConfirmed => "terminateConfirmed",
            Kind::Error => "error",
            Kind::ReserveTimeout => "reserveTimeout",
            Kind::ErrorEvent => "errorEvent",
            Kind::DataPlaneStateChange => "dataPlaneStateChange",
            Kind::MessageDeliveryTimeout => "messageDeliveryTimeout",
            Kind::QuerySummary => "querySummary",
            Kind::QuerySummaryConfirmed => "querySummaryConfirmed",
            Kind::QueryNotification => "queryNotification",
            Kind::QueryNotificationConfirmed => "queryNotificationConfirmed",
            Kind::QueryResult => "queryResult",
            Kind::QueryResultConfirmed => "queryResultConfirmed",
            Kind::QueryRecursive => "queryRecursive",
            Kind::QueryRecursiveConfirmed => "queryRecursiveConfirmed",
        }
    }

    /// The kind that is written so.
    #[tactic(auto, unfolding(crate::specs::Kinds::kind_named))]
    pub fn named(name: &[u8]) -> Option<Kind>
        ensures { result ≡ kind_named name.now }
    {
        first_named(name, &KINDS)
    }

    /// Whether an agent asks for something by it. Every other kind goes from the provider to the requester.
    pub fn is_request(self) -> bool
        ensures { result ≡ is_request_kind self }
    {
        matches!(
            self,
            Kind::Reserve
                | Kind::ReserveCommit
                | Kind::ReserveAbort
                | Kind::Provision
                | Kind::Release
                | Kind::Terminate
                | Kind::QuerySummary
                | Kind::QueryNotification
                | Kind::QueryResult
                | Kind::QueryRecursive
        )
    }

    /// Whether it is one of the requests that ask what an agent knows (GFD.237, section 8, the queries).
    pub fn is_query(self) -> bool
        ensures { result ≡ is_query_kind self }
    {
        matches!(
            self,
            Kind::QuerySummary | Kind::QueryNotification | Kind::QueryResult | Kind::QueryRecursive
        )
    }
}

#[tactic(auto, unfolding(crate::specs::Kinds::first_named))]
fn first_named(name: &[u8], kinds: &[Kind]) -> Option<Kind>
    ensures { result ≡ first_named name.now kinds.now }
{
    for kind in kinds {
        if name == kind.name().as_bytes() {
            return Some(*kind);
        }
    }
    None
}

/// Why a request was refused. The names are this project's own; the standard gives numbers.
#[derive(Clone, Copy, Debug, PartialEq, Eq)]
pub enum ErrorName {
    Payload,
    Version,
    WrongProvider,
    Nonexistent,
    Gone,
    InvalidTransition,
    VersionLow,
    UnknownStp,
    Schedule,
    Bandwidth,
    Passed,
    NoPath,
    Child,
    Timeout,
}

impl ErrorName {
    ghost use Rattle.nsi_primitive.specs.Kinds.{error_text, error_named};

    /// The name by which the error is written.
    #[tactic(auto, unfolding(crate::specs::Kinds::error_text))]
    pub fn text(self) -> &'static str
        ensures { result.now ≡ error_text self }
    {
        match self {
            ErrorName::Payload => "PAYLOAD",
            ErrorName::Version => "VERSION",
            ErrorName::WrongProvider => "WRONG_PROVIDER",
            ErrorName::Nonexistent => "NONEXISTENT",
            ErrorName::Gone => "GONE",
            ErrorName::InvalidTransition => "INVALID_TRANSITION",
            ErrorName::VersionLow => "VERSION_LOW",
            ErrorName::UnknownStp => "UNKNOWN_STP",
            ErrorName::Schedule => "SCHEDULE",
            ErrorName::Bandwidth => "BANDWIDTH",
            ErrorName::Passed => "PASSED",
            ErrorName::NoPath => "NO_PATH",
            ErrorName::Child => "CHILD",
            ErrorName::Timeout => "TIMEOUT",
        }
    }

    /// The error that is written so.
    #[tactic(auto, unfolding(crate::specs::Kinds::error_named))]
    pub fn named(name: &[u8]) -> Option<ErrorName>
        ensures { result ≡ error_named name.now }
    {
        first_error_named(name, &ERRORS)
    }
}

#[tactic(auto, unfolding(crate::specs::Kinds::first_error_named))]
fn first_error_named(name: &[u8], errors: &[ErrorName]) -> Option<ErrorName>
    ensures { result ≡ first_error_named name.now errors.now }
{
    for error in errors {
        if name == error.text().as_bytes() {
            return Some(*error);
        }
    }
    None
}

/// What ended a connection before its time (GFD.237, errorEvent). Of the standard's events this one occurs.
#[derive(Clone, Copy, Debug, PartialEq, Eq)]
pub enum FaultEvent {
    ForcedEnd,
}

impl FaultEvent {
    ghost use Rattle.nsi_primitive.specs.Kinds.{event_text, event_named};

    /// The name by which the event is written.
    #[tactic(auto, unfolding(crate::specs::Kinds::event_text))]
    pub fn text(self) -> &'static str
        ensures { result.now ≡ event_text self }
    {
        match self {
            FaultEvent::ForcedEnd => "forcedEnd",
        }
    }

    /// The event that is written so.
    pub fn named(name: &[u8]) -> Option<FaultEvent>
        ensures { result ≡ event_named name.now }
    {
        if name == FaultEvent::ForcedEnd.text().as_bytes() {
            Some(FaultEvent::ForcedEnd)
        } else {
            None
        }
    }
}

/// Whether a connection carries traffic both ways (GFD.237, directionality).
#[derive(Clone, Copy, Debug, PartialEq, Eq)]
pub enum Directionality {
    Bidirectional,
    Unidirectional,
}

impl Directionality {
    ghost use Rattle.nsi_primitive.specs.Kinds.{direction_text, direction_named, is_both_ways};

    /// The name by which the directionality is written.
    #[tactic(auto, unfolding(crate::specs::Kinds::direction_text))]
    pub fn text(self) -> &'static str
        ensures { result.now ≡ direction_text self }
    {
        match self {
            Directionality::Bidirectional => "Bidirectional",
            Directionality::Unidirectional => "Unidirectional",
        }
    }

    /// The directionality that is written so.
    pub fn named(name: &[u8]) -> Option<Directionality>
        ensures { result ≡ direction_named name.now }
    {
        if name == Directionality::Bidirectional.text().as_bytes() {
            Some(Directionality::Bidirectional)
        } else if name == Directionality::Unidirectional.text().as_bytes() {
            Some(Directionality::Unidirectional)
        } else {
            None
        }
    }

    pub fn is_both_ways(self) -> bool
        ensures { result ≡ is_both_ways self }
    {
        matches!(self, Directionality::Bidirectional)
    }
}
