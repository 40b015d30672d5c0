//! The answers to queries with their rows, key by key in byte order.

ghost use Rattle.std.specs.Prelude.{IfOk};
ghost use Rattle.std.specs.List.{All};
ghost use Rattle.json_fields.specs.Values.{view, items_view};
ghost use Rattle.nsi_primitive.specs.Printable.{IsPrintable, IsShort};
ghost use Rattle.json_fields.specs.Faults.{Gives};
ghost use Rattle.json_fields.specs.Fields.{formed};
ghost use Rattle.json_fields.specs.RowFields.{each_from};
ghost use Rattle.json_primitives.specs.RowLines.{summary_row_from, recursive_row_from, notice_from, outcome_from, summary_rows_from, recursive_rows_from, notice_rows_from, outcome_rows_from};

use crate::reading::headers::header_from;
use json_fields::reading::{
    optional_text, optional_version, required_count, required_directionality, required_flag,
    required_id, required_kind, required_name, required_second,
};
use json_fields::row_fields::{
    list_fault, optional_capacity, optional_time, required_depth, required_items, required_lsm,
    required_psm, required_rsm,
};
use json_fields::{JsonValue, Key, LineFault};
use nsi_base::List;
use nsi_primitive::{Body, Message, Notice, Outcome, RecursiveRow, SummaryRow};
use std::alloc::Global;

/// The answer to a querySummary.
#[tactic(auto, unfolding(crate::specs::RowLines::summary_rows_from))]
pub fn summary_rows_from(alloc: Global, value: &JsonValue<'_>) -> Result<Message, LineFault>
    ensures gives { Gives result (summary_rows_from (view value.now)) }
    ensures printable { IfOk result IsPrintable }
{
    let correlation = required_id(value, Key::CorrelationId)?;
    let more = required_flag(value, Key::More)?;
    let header = header_from(alloc, value, correlation)?;
    let items = required_items(value, Key::Reservations)?;
    let rows = summary_rows(alloc, items)?;
    let body = Body::QuerySummaryConfirmed {
        more,
        reservations: rows,
    };
    Ok(Message { header, body })
}

/// The answer to a queryRecursive.
#[tactic(auto, unfolding(crate::specs::RowLines::recursive_rows_from))]
pub fn recursive_rows_from(alloc: Global, value: &JsonValue<'_>) -> Result<Message, LineFault>
    ensures gives { Gives result (recursive_rows_from (view value.now)) }
    ensures printable { IfOk result IsPrintable }
{
    let connection = required_id(value, Key::ConnectionId)?;
    let correlation = required_id(value, Key::CorrelationId)?;
    let more = required_flag(value, Key::More)?;
    let header = header_from(alloc, value, correlation)?;
    let items = required_items(value, Key::Reservations)?;
    let rows = recursive_rows(alloc, items)?;
    let body = Body::QueryRecursiveConfirmed {
        connection,
        more,
        reservations: rows,
    };
    Ok(Message { header, body })
}

/// The answer to a queryNotification.
#[tactic(auto, unfolding(crate::specs::RowLines::notice_rows_from))]
pub fn notice_rows_from(alloc: Global, value: &JsonValue<'_>) -> Result<Message, LineFault>
    ensures gives { Gives result (notice_rows_from (view value.now)) }
    ensures printable { IfOk result IsPrintable }
{
    let connection = required_id(value, Key::ConnectionId)?;
    let correlation = required_id(value, Key::CorrelationId)?;
    let more = required_flag(value, Key::More)?;
    let items = required_items(value, Key::Notifications)?;
    let rows = notices(alloc, items)?;
    let header = header_from(alloc, value, correlation)?;
    let body = Body::QueryNotificationConfirmed {
        connection,
        more,
        notifications: rows,
    };
    Ok(Message { header, body })
}

/// The answer to a queryResult.
#[tactic(auto, unfolding(crate::specs::RowLines::outcome_rows_from))]
pub fn outcome_rows_from(alloc: Global, value: &JsonValue<'_>) -> Result<Message, LineFault>
    ensures gives { Gives result (outcome_rows_from (view value.now)) }
    ensures printable { IfOk result IsPrintable }
{
    let connection = required_id(value, Key::ConnectionId)?;
    let correlation = required_id(value, Key::CorrelationId)?;
    let more = required_flag(value, Key::More)?;
    let header = header_from(alloc, value, correlation)?;
    let items = required_items(value, Key::Results)?;
    let rows = outcomes(alloc, items)?;
    let body = Body::QueryResultConfirmed {
        connection,
        more,
        results: rows,
    };
    Ok(Message { header, body })
}

/// The rows of a list: one that isn't of its form makes the whole list bad.
fn summary_rows(alloc: Global, items: &[JsonValue<'_>]) -> Result<List<SummaryRow>, LineFault>
    ensures gives { Gives result
        (formed Key.Reservations (each_from summary_row_from (items_view items.now))) }
    ensures short { IfOk result (λ rows.
        All (λ r. IsShort 256 r.description × IsShort 128 r.global) rows) }
{
    let mut rows = List::new(alloc);
    for item in items {
        let row = match summary_row_from(alloc, item) {
            Ok(row) => row,
            Err(fault) => return Err(list_fault(Key::Reservations, fault)),
        };
        let Ok(()) = rows.push(row) else {
            return Err(LineFault::NoMemory);
        };
    }
    Ok(rows)
}

/// The rows of a list: one that isn't of its form makes the whole list bad.
fn recursive_rows(alloc: Global, items: &[JsonValue<'_>]) -> Result<List<RecursiveRow>, LineFault>
    ensures gives { Gives result
        (formed Key.Reservations (each_from recursive_row_from (items_view items.now))) }
{
    let mut rows = List::new(alloc);
    for item in items {
        let row = match recursive_row_from(alloc, item) {
            Ok(row) => row,
            Err(fault) => return Err(list_fault(Key::Reservations, fault)),
        };
        let Ok(()) = rows.push(row) else {
            return Err(LineFault::NoMemory);
        };
    }
    Ok(rows)
}

/// The rows of a list: one that isn't of its form makes the whole list bad.
fn notices(alloc: Global, items: &[JsonValue<'_>]) -> Result<List<Notice>, LineFault>
    ensures gives { Gives result
        (formed Key.Notifications (each_from notice_from (items_view items.now))) }
{
    let mut rows = List::new(alloc);
    for item in items {
        let row = match notice_from(item) {
            Ok(row) => row,
            Err(fault) => return Err(list_fault(Key::Notifications, fault)),
        };
        let Ok(()) = rows.push(row) else {
            return Err(LineFault::NoMemory);
        };
    }
    Ok(rows)
}

/// The rows of a list: one that isn't of its form makes the whole list bad.
fn outcomes(alloc: Global, items: &[JsonValue<'_>]) -> Result<List<Outcome>, LineFault>
    ensures gives { Gives result
        (formed Key.Results (each_from outcome_from (items_view items.now))) }
{
    let mut rows = List::new(alloc);
    for item in items {
        let row = match outcome_from(item) {
            Ok(row) => row,
            Err(fault) => return Err(list_fault(Key::Results, fault)),
        };
        let Ok(()) = rows.push(row) else {
            return Err(LineFault::NoMemory);
        };
    }
    Ok(rows)
}

#[tactic(auto, unfolding(crate::specs::RowLines::summary_row_from))]
fn summary_row_from(alloc: Global, value: &JsonValue<'_>) -> Result<SummaryRow, LineFault>
    ensures gives { Gives result (summary_row_from (view value.now)) }
    ensures short { IfOk result (λ r. IsShort 256 r.description × IsShort 128 r.global) }
{
    let active = required_flag(value, Key::Active)?;
    let capacity = optional_capacity(value, Key::Capacity)?;
    let connection = required_id(value, Key::ConnectionId)?;
    let description = optional_text(alloc, value, Key::Description, 256)?;
    let dest = required_name(alloc, value, Key::DestStp)?;
    let directionality = required_directionality(value, Key::Directionality)?;
    let end = optional_time(value, Key::EndTime)?;
    let global = optional_text(alloc, value, Key::GlobalReservationId, 128)?;
    let lifecycle = required_lsm(value, Key::LifecycleState)?;
    let provision = required_psm(value, Key::ProvisionState)?;
    let reservation = required_rsm(value, Key::ReservationState)?;
    let source = required_name(alloc, value, Key::SourceStp)?;
    let start = optional_time(value, Key::StartTime)?;
    let version = optional_version(value, Key::Version)?;
    Ok(SummaryRow {
        active,
        capacity,
        connection,
        description,
        dest,
        directionality,
        end,
        global,
        lifecycle,
        provision,
        reservation,
        source,
        start,
        version,
    })
}

#[tactic(auto, unfolding(crate::specs::RowLines::recursive_row_from))]
fn recursive_row_from(alloc: Global, value: &JsonValue<'_>) -> Result<RecursiveRow, LineFault>
    ensures { Gives result (recursive_row_from (view value.now)) }
{
    let connection = required_id(value, Key::ConnectionId)?;
    let depth = required_depth(value, Key::Depth)?;
    let lifecycle = required_lsm(value, Key::LifecycleState)?;
    let provider = required_name(alloc, value, Key::ProviderNsa)?;
    let provision = required_psm(value, Key::ProvisionState)?;
    let reservation = required_rsm(value, Key::ReservationState)?;
    let version = optional_version(value, Key::Version)?;
    Ok(RecursiveRow {
        connection,
        depth,
        lifecycle,
        provider,
        provision,
        reservation,
        version,
    })
}

#[tactic(auto, unfolding(crate::specs::RowLines::notice_from))]
fn notice_from(value: &JsonValue<'_>) -> Result<Notice, LineFault>
    ensures { Gives result (notice_from (view value.now)) }
{
    let correlation = required_id(value, Key::CorrelationId)?;
    let kind = required_kind(value, Key::Kind)?;
    let number = required_count(value, Key::NotificationId)?;
    let second = required_second(value, Key::TimeStamp)?;
    Ok(Notice {
        number,
        kind,
        correlation,
        second,
    })
}

#[tactic(auto, unfolding(crate::specs::RowLines::outcome_from))]
fn outcome_from(value: &JsonValue<'_>) -> Result<Outcome, LineFault>
    ensures { Gives result (outcome_from (view value.now)) }
{
    let correlation = required_id(value, Key::CorrelationId)?;
    let kind = required_kind(value, Key::Kind)?;
    let number = required_count(value, Key::ResultId)?;
    let second = required_second(value, Key::TimeStamp)?;
    Ok(Outcome {
        number,
        kind,
        correlation,
        second,
    })
}
