//! The queries, key by key in byte order.

ghost use Rattle.std.specs.Prelude.{IfOk};
ghost use Rattle.json_fields.specs.Values.{view};
ghost use Rattle.nsi_primitive.specs.Printable.{IsPrintable};
ghost use Rattle.json_fields.specs.Faults.{Gives};
ghost use Rattle.json_primitives.specs.Queries.{summary_from, ranged_from, notifications_from, results_from};

use crate::reading::headers::header_from;
use json_fields::reading::{optional_count, optional_id, required_id};
use json_fields::{JsonValue, Key, LineFault};
use nsi_primitive::{Body, Header, Message, NumberRange};
use std::alloc::Global;

/// Of one connection, or of all.
#[tactic(auto, unfolding(crate::specs::Queries::summary_from))]
pub fn summary_from(alloc: Global, value: &JsonValue<'_>) -> Result<Message, LineFault>
    ensures gives { Gives result (summary_from (view value.now)) }
    ensures printable { IfOk result IsPrintable }
{
    let connection = optional_id(value, Key::ConnectionId)?;
    let correlation = required_id(value, Key::CorrelationId)?;
    let header = header_from(alloc, value, correlation)?;
    let body = Body::QuerySummary { connection };
    Ok(Message { header, body })
}

#[tactic(auto, unfolding(crate::specs::Queries::notifications_from))]
pub fn notifications_from(alloc: Global, value: &JsonValue<'_>) -> Result<Message, LineFault>
    ensures gives { Gives result (notifications_from (view value.now)) }
    ensures printable { IfOk result IsPrintable }
{
    let (range, header) = ranged_from(
        alloc,
        value,
        Key::EndNotificationId,
        Key::StartNotificationId,
    )?;
    let body = Body::QueryNotification(range);
    Ok(Message { header, body })
}

#[tactic(auto, unfolding(crate::specs::Queries::results_from))]
pub fn results_from(alloc: Global, value: &JsonValue<'_>) -> Result<Message, LineFault>
    ensures gives { Gives result (results_from (view value.now)) }
    ensures printable { IfOk result IsPrintable }
{
    let (range, header) = ranged_from(alloc, value, Key::EndResultId, Key::StartResultId)?;
    let body = Body::QueryResult(range);
    Ok(Message { header, body })
}

/// The range of numbers and the header, by the keys of the range's end and start.
#[tactic(auto, unfolding(crate::specs::Queries::ranged_from))]
fn ranged_from(
    alloc: Global,
    value: &JsonValue<'_>,
    end_key: Key,
    start_key: Key,
) -> Result<(NumberRange, Header), LineFault>
    ensures { Gives result (ranged_from end_key start_key (view value.now)) }
{
    let connection = required_id(value, Key::ConnectionId)?;
    let correlation = required_id(value, Key::CorrelationId)?;
    let end = optional_count(value, end_key)?;
    let header = header_from(alloc, value, correlation)?;
    let start = optional_count(value, start_key)?;
    let range = NumberRange {
        connection,
        end,
        start,
    };
    Ok((range, header))
}
