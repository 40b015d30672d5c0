//! The keys of a line.

ghost use Rattle.std.specs.Prelude.{◌≡◌, ◌++◌, ◌∷◌, []};
ghost use Rattle.json.specs.Print.{quoted};

/// A key that a line of some kind may have (GFD.237, the elements of the same names).
#[derive(Clone, Copy, Debug, PartialEq, Eq)]
pub enum Key {
    Active,
    Capacity,
    Child,
    ChildErrorId,
    ConnectionId,
    CorrelationId,
    DeliveryCorrelationId,
    Depth,
    Description,
    DestStp,
    Direction,
    Directionality,
    EndNotificationId,
    EndResultId,
    EndTime,
    Ero,
    ErrorId,
    Event,
    Fault,
    GlobalReservationId,
    Key,
    Kind,
    LifecycleState,
    Line,
    Load,
    More,
    NotificationId,
    Notifications,
    NsaId,
    Of,
    OriginatingConnectionId,
    OriginatingNsa,
    ProviderNsa,
    ProvisionState,
    RequesterNsa,
    ReservationState,
    Reservations,
    ResultId,
    Results,
    Second,
    SourceStp,
    StartNotificationId,
    StartResultId,
    StartTime,
    Stp,
    SymmetricPath,
    TimeStamp,
    TimeoutValue,
    Version,
    VersionConsistent,
}

impl Key {
    ghost use Rattle.json_fields.specs.Keys.{name_of};
    ghost use Rattle.json_fields.specs.Ranks.{rank_of};

    /// The name by which the key stands in a line.
    #[tactic(auto, unfolding(crate::specs::Keys::name_of))]
    pub fn text(self) -> &'static str
        ensures { result.now ≡ name_of self }
    {
        match self {
            Key::Active => "active",
            Key::Capacity => "capacity",
            Key::Child => "child",
            Key::ChildErrorId => "childErrorId",
            Key::ConnectionId => "connectionId",
            Key::CorrelationId => "correlationId",
            Key::DeliveryCorrelationId => "deliveryCorrelationId",
            Key::Depth => "depth",
            Key::Description => "description",
            Key::DestStp => "destSTP",
            Key::Direction => "direction",
            Key::Directionality => "directionality",
            Key::EndNotificationId => "endNotificationId",
            Key::EndResultId => "endResultId",
            Key::EndTime => "endTime",
            Key::Ero => "ero",
            Key::ErrorId => "errorId",
            Key::Event => "event",
            Key::Fault => "fault",
            Key::GlobalReservationId => "globalReservationId",
            Key::Key => "key",
            Key::Kind => "kind",
            Key::LifecycleState => "lifecycleState",
            Key::Line => "line",
            Key::Load => "load",
            Key::More => "more",
            Key::NotificationId => "notificationId",
            Key::Notifications => "notifications",
            Key::NsaId => "nsaId",
            Key::Of => "of",
            Key::OriginatingConnectionId => "originatingConnectionId",
            Key::OriginatingNsa => "originatingNSA",
            Key::ProviderNsa => "providerNSA",
            Key::ProvisionState => "provisionState",
            Key::RequesterNsa => "requesterNSA",
            Key::ReservationState => "reservationState",
            Key::Reservations => "reservations",
            Key::ResultId => "resultId",
            Key::Results => "results",
            Key::Second => "second",
            Key::SourceStp => "sourceSTP",
            Key::StartNotificationId => "startNotificationId",
            Key::StartResultId => "startResultId",
            Key::StartTime => "startTime",
            Key::Stp => "stp",
            Key::SymmetricPath => "symmetricPath",
            Key::TimeStamp => "timeStamp",
            Key::TimeoutValue => "timeoutValue",
            Key::Version => "version",
            Key::VersionConsistent => "versionConsistent",
        }
    }

    /// The name in quotes, and the colon behind it.
    #[tactic(auto, unfolding(crate::specs::Keys::name_of, json::specs::Print::escape_byte))]
    pub(crate) fn spelled(self) -> &'static str
        ensures { result.now ≡ quoted (name_of self) ++ 58 ∷ [] }
    {
        match self {
            Key::Active => "\"active\":",
            Key::Capacity => "\"capacity\":",
            Key::Child => "\"child\":",
            Key::ChildErrorId => "\"childErrorId\":",
            Key::ConnectionId => "\"connectionId\":",
            Key::CorrelationId => "\"correlationId\":",
            Key::DeliveryCorrelationId => "\"deliveryCorrelationId\":",
            Key::Depth => "\"depth\":",
            Key::Description => "\"description\":",
            Key::DestStp => "\"destSTP\":",
            Key::Direction => "\"direction\":",
            Key::Directionality => "\"directionality\":",
            Key::EndNotificationId => "\"endNotificationId\":",
            Key::EndResultId => "\"endResultId\":",
            Key::EndTime => "\"endTime\":",
            Key::Ero => "\"ero\":",
            Key::ErrorId => "\"errorId\":",
            Key::Event => "\"event\":",
            Key::Fault => "\"fault\":",
            Key::GlobalReservationId => "\"globalReservationId\":",
            Key::Key => "\"key\":",
            Key::Kind => "\"kind\":",
            Key::LifecycleState => "\"lifecycleState\":",
            Key::Line => "\"line\":",
            Key::Load => "\"load\":",
            Key::More => "\"more\":",
            Key::NotificationId => "\"notificationId\":",
            Key::Notifications => "\"notifications\":",
            Key::NsaId => "\"nsaId\":",
            Key::Of => "\"of\":",
            Key::OriginatingConnectionId => "\"originatingConnectionId\":",
            Key::OriginatingNsa => "\"originatingNSA\":",
            Key::ProviderNsa => "\"providerNSA\":",
            Key::ProvisionState => "\"provisionState\":",
            Key::RequesterNsa => "\"requesterNSA\":",
            Key::ReservationState => "\"reservationState\":",
            Key::Reservations => "\"reservations\":",
            Key::ResultId => "\"resultId\":",
            Key::Results => "\"results\":",
            Key::Second => "\"second\":",
            Key::SourceStp => "\"sourceSTP\":",
            Key::StartNotificationId => "\"startNotificationId\":",
            Key::StartResultId => "\"startResultId\":",
            Key::StartTime => "\"startTime\":",
            Key::Stp => "\"stp\":",
            Key::SymmetricPath => "\"symmetricPath\":",
            Key::TimeStamp => "\"timeStamp\":",
            Key::TimeoutValue => "\"timeoutValue\":",
            Key::Version => "\"version\":",
            Key::VersionConsistent => "\"versionConsistent\":",
        }
    }

    /// The name as bytes.
    pub fn name(self) -> &'static [u8]
        ensures { result.now ≡ name_of self }
    {
        self.text().as_bytes()
    }
    /// How many keys stand before it in byte order.
    #[tactic(auto, unfolding(crate::specs::Ranks::rank_of))]
    pub(crate) fn rank(self) -> u8
        ensures { result ≡ rank_of self }
    {
        self as u8
    }
}
