//! The notifications, key by key in byte order.

ghost use Rattle.std.specs.Prelude.{IfOk};
ghost use Rattle.json_fields.specs.Values.{view};
ghost use Rattle.nsi_primitive.specs.Printable.{IsPrintable};
ghost use Rattle.json_fields.specs.Faults.{Gives};
ghost use Rattle.json_primitives.specs.Notifications.{timeout_from, fault_from, plane_from, delivery_from};

use crate::reading::headers::header_from;
use json_fields::reading::{
    required_count, required_event, required_flag, required_hold, required_id, required_name,
    required_second, required_version,
};
use json_fields::{JsonValue, Key, LineFault};
use nsi_primitive::{Body, DeliveryTimeout, FaultNotice, HoldTimeout, Message, PlaneNotice};
use std::alloc::Global;

#[tactic(auto, unfolding(crate::specs::Notifications::timeout_from))]
pub fn timeout_from(alloc: Global, value: &JsonValue<'_>) -> Result<Message, LineFault>
    ensures gives { Gives result (timeout_from (view value.now)) }
    ensures printable { IfOk result IsPrintable }
{
    let connection = required_id(value, Key::ConnectionId)?;
    let correlation = required_id(value, Key::CorrelationId)?;
    let notification = required_count(value, Key::NotificationId)?;
    let originating_connection = required_id(value, Key::OriginatingConnectionId)?;
    let originating_nsa = required_name(alloc, value, Key::OriginatingNsa)?;
    let header = header_from(alloc, value, correlation)?;
    let time = required_second(value, Key::TimeStamp)?;
    let seconds = required_hold(value, Key::TimeoutValue)?;
    let body = Body::ReserveTimeout(HoldTimeout {
        connection,
        notification,
        originating_connection,
        originating_nsa,
        time,
        value: seconds,
    });
    Ok(Message { header, body })
}

#[tactic(auto, unfolding(crate::specs::Notifications::fault_from))]
pub fn fault_from(alloc: Global, value: &JsonValue<'_>) -> Result<Message, LineFault>
    ensures gives { Gives result (fault_from (view value.now)) }
    ensures printable { IfOk result IsPrintable }
{
    let connection = required_id(value, Key::ConnectionId)?;
    let correlation = required_id(value, Key::CorrelationId)?;
    let event = required_event(value, Key::Event)?;
    let notification = required_count(value, Key::NotificationId)?;
    let originating_connection = required_id(value, Key::OriginatingConnectionId)?;
    let originating_nsa = required_name(alloc, value, Key::OriginatingNsa)?;
    let header = header_from(alloc, value, correlation)?;
    let time = required_second(value, Key::TimeStamp)?;
    let body = Body::ErrorEvent(FaultNotice {
        connection,
        event,
        notification,
        originating_connection,
        originating_nsa,
        time,
    });
    Ok(Message { header, body })
}

#[tactic(auto, unfolding(crate::specs::Notifications::plane_from))]
pub fn plane_from(alloc: Global, value: &JsonValue<'_>) -> Result<Message, LineFault>
    ensures gives { Gives result (plane_from (view value.now)) }
    ensures printable { IfOk result IsPrintable }
{
    let active = required_flag(value, Key::Active)?;
    let connection = required_id(value, Key::ConnectionId)?;
    let correlation = required_id(value, Key::CorrelationId)?;
    let notification = required_count(value, Key::NotificationId)?;
    let header = header_from(alloc, value, correlation)?;
    let time = required_second(value, Key::TimeStamp)?;
    let version = required_version(value, Key::Version)?;
    let consistent = required_flag(value, Key::VersionConsistent)?;
    let body = Body::DataPlaneStateChange(PlaneNotice {
        active,
        connection,
        notification,
        time,
        version,
        consistent,
    });
    Ok(Message { header, body })
}

#[tactic(auto, unfolding(crate::specs::Notifications::delivery_from))]
pub fn delivery_from(alloc: Global, value: &JsonValue<'_>) -> Result<Message, LineFault>
    ensures gives { Gives result (delivery_from (view value.now)) }
    ensures printable { IfOk result IsPrintable }
{
    let connection = required_id(value, Key::ConnectionId)?;
    let correlation = required_id(value, Key::CorrelationId)?;
    let delivery = required_id(value, Key::DeliveryCorrelationId)?;
    let notification = required_count(value, Key::NotificationId)?;
    let header = header_from(alloc, value, correlation)?;
    let time = required_second(value, Key::TimeStamp)?;
    let body = Body::MessageDeliveryTimeout(DeliveryTimeout {
        connection,
        delivery,
        notification,
        time,
    });
    Ok(Message { header, body })
}
