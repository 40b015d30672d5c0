//! What notifications have besides their header.

ghost use Rattle.std.specs.Prelude.{◌≡◌, OnOk};
ghost use Rattle.json_fields.specs.Objects.{with_fields};
ghost use Rattle.json_fields.specs.Written.{members_of};
ghost use Rattle.json_primitives.specs.Spelling.{timeout_fields, fault_fields, plane_fields, delivery_fields};
ghost use Rattle.json_primitives.specs.Valid.{IsValidTimeout, IsValidFault, IsValidPlane, IsValidDelivery};

use json_fields::{JsonObject, Key};
use nsi_primitive::{DeliveryTimeout, FaultNotice, HoldTimeout, PlaneNotice};
use std::alloc::{AllocError, Global};

#[tactic(auto, unfolding(json_fields::specs::Objects::with_fields))]
pub fn put_timeout<'a>(
    object: &mut JsonObject<'a>,
    timeout: &'a HoldTimeout,
) -> Result<(), AllocError>
    ensures put { OnOk result (members_of object.new
        ≡ with_fields (members_of object.old) (timeout_fields timeout.now)) }
    ensures valid { OnOk result (IsValidTimeout timeout.now) }
{
    let origin = timeout.originating_connection;
    object.put_id(Key::ConnectionId, timeout.connection)?;
    object.put_number(Key::NotificationId, timeout.notification)?;
    object.put_id(Key::OriginatingConnectionId, origin)?;
    object.put_name(Key::OriginatingNsa, &timeout.originating_nsa)?;
    object.put_second(Key::TimeStamp, timeout.time)?;
    object.put_hold(Key::TimeoutValue, timeout.value)
}

#[tactic(auto, unfolding(json_fields::specs::Objects::with_fields))]
pub fn put_fault<'a>(object: &mut JsonObject<'a>, notice: &'a FaultNotice) -> Result<(), AllocError>
    ensures put { OnOk result (members_of object.new
        ≡ with_fields (members_of object.old) (fault_fields notice.now)) }
    ensures valid { OnOk result (IsValidFault notice.now) }
{
    let origin = notice.originating_connection;
    object.put_id(Key::ConnectionId, notice.connection)?;
    object.put_text(Key::Event, notice.event.text())?;
    object.put_number(Key::NotificationId, notice.notification)?;
    object.put_id(Key::OriginatingConnectionId, origin)?;
    object.put_name(Key::OriginatingNsa, &notice.originating_nsa)?;
    object.put_second(Key::TimeStamp, notice.time)
}

#[tactic(auto, unfolding(json_fields::specs::Objects::with_fields))]
pub fn put_plane<'a>(object: &mut JsonObject<'a>, notice: &'a PlaneNotice) -> Result<(), AllocError>
    ensures put { OnOk result (members_of object.new
        ≡ with_fields (members_of object.old) (plane_fields notice.now)) }
    ensures valid { OnOk result (IsValidPlane notice.now) }
{
    object.put_flag(Key::Active, notice.active)?;
    object.put_id(Key::ConnectionId, notice.connection)?;
    object.put_number(Key::NotificationId, notice.notification)?;
    object.put_second(Key::TimeStamp, notice.time)?;
    object.put_version(Key::Version, notice.version)?;
    object.put_flag(Key::VersionConsistent, notice.consistent)
}

#[tactic(auto, unfolding(json_fields::specs::Objects::with_fields))]
pub fn put_delivery<'a>(
    object: &mut JsonObject<'a>,
    timeout: &'a DeliveryTimeout,
) -> Result<(), AllocError>
    ensures put { OnOk result (members_of object.new
        ≡ with_fields (members_of object.old) (delivery_fields timeout.now)) }
    ensures valid { OnOk result (IsValidDelivery timeout.now) }
{
    object.put_id(Key::ConnectionId, timeout.connection)?;
    object.put_id(Key::DeliveryCorrelationId, timeout.delivery)?;
    object.put_number(Key::NotificationId, timeout.notification)?;
    object.put_second(Key::TimeStamp, timeout.time)
}
