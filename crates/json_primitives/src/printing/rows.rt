//! The rows of the answers to queries, key by key in byte order.

ghost use Rattle.std.specs.Prelude.{◌≡◌, IfOk, OnOk, map, option_map};
ghost use Rattle.std.specs.List.{AllByRecursion};
ghost use Rattle.serde_json.specs.Data.{object};
ghost use Rattle.json_fields.specs.Written.{members_of, rows_of};
ghost use Rattle.json_primitives.specs.Rows.{summary_fields, recursive_fields, notice_fields, outcome_fields, row_data, rows_in};
ghost use Rattle.json_primitives.specs.ValidRows.{IsValidSummaryRow, IsValidRecursiveRow, IsValidNotice, IsValidOutcome, IsValidRows};

use json_fields::{JsonObject, JsonRows, Key, TimeForm};
use nsi_primitive::{Body, Notice, Outcome, RecursiveRow, SummaryRow};
use std::alloc::{AllocError, Global};

#[tactic(auto, unfolding(crate::specs::Rows::row_data, json_fields::specs::Objects::with_fields))]
fn summary_row(
    alloc: Global,
    form: TimeForm,
    row: &SummaryRow,
) -> Result<JsonObject<'_>, AllocError>
    ensures row { IfOk result (λ o.
        object (members_of o) ≡ row_data (summary_fields form row.now)) }
    ensures valid { OnOk result (IsValidSummaryRow row.now) }
{
    let mut object = JsonObject::new(alloc)?;
    object.put_flag(Key::Active, row.active)?;
    object.put_optional_capacity(Key::Capacity, row.capacity)?;
    object.put_id(Key::ConnectionId, row.connection)?;
    object.put_optional_text(Key::Description, &row.description)?;
    object.put_name(Key::DestStp, &row.dest)?;
    object.put_text(Key::Directionality, row.directionality.text())?;
    object.put_optional_time(Key::EndTime, form, row.end)?;
    object.put_optional_text(Key::GlobalReservationId, &row.global)?;
    object.put_text(Key::LifecycleState, row.lifecycle.text())?;
    object.put_text(Key::ProvisionState, row.provision.text())?;
    object.put_text(Key::ReservationState, row.reservation.text())?;
    object.put_name(Key::SourceStp, &row.source)?;
    object.put_optional_time(Key::StartTime, form, row.start)?;
    object.put_optional_version(Key::Version, row.version)?;
    Ok(object)
}

fn summary_rows(
    alloc: Global,
    form: TimeForm,
    rows: &[SummaryRow],
) -> Result<JsonRows<'_>, AllocError>
    ensures rows { IfOk result (λ written.
        rows_of written ≡ map (λ r. row_data (summary_fields form r)) rows.now) }
    ensures valid { OnOk result (AllByRecursion IsValidSummaryRow rows.now) }
{
    let mut written = JsonRows::new(alloc);
    for row in rows {
        let object = summary_row(alloc, form, row)?;
        written.push(object)?;
    }
    Ok(written)
}

#[tactic(auto, unfolding(crate::specs::Rows::row_data, json_fields::specs::Objects::with_fields))]
fn recursive_row(alloc: Global, row: &RecursiveRow) -> Result<JsonObject<'_>, AllocError>
    ensures row { IfOk result (λ o. object (members_of o) ≡ row_data (recursive_fields row.now)) }
    ensures valid { OnOk result (IsValidRecursiveRow row.now) }
{
    let mut object = JsonObject::new(alloc)?;
    object.put_id(Key::ConnectionId, row.connection)?;
    object.put_number(Key::Depth, u64::from(row.depth))?;
    object.put_text(Key::LifecycleState, row.lifecycle.text())?;
    object.put_name(Key::ProviderNsa, &row.provider)?;
    object.put_text(Key::ProvisionState, row.provision.text())?;
    object.put_text(Key::ReservationState, row.reservation.text())?;
    object.put_optional_version(Key::Version, row.version)?;
    Ok(object)
}

fn recursive_rows(alloc: Global, rows: &[RecursiveRow]) -> Result<JsonRows<'_>, AllocError>
    ensures rows { IfOk result (λ written.
        rows_of written ≡ map (λ r. row_data (recursive_fields r)) rows.now) }
    ensures valid { OnOk result (AllByRecursion IsValidRecursiveRow rows.now) }
{
    let mut written = JsonRows::new(alloc);
    for row in rows {
        let object = recursive_row(alloc, row)?;
        written.push(object)?;
    }
    Ok(written)
}

#[tactic(auto, unfolding(crate::specs::Rows::row_data, json_fields::specs::Objects::with_fields))]
fn notice_row(alloc: Global, row: &Notice) -> Result<JsonObject<'_>, AllocError>
    ensures row { IfOk result (λ o. object (members_of o) ≡ row_data (notice_fields row.now)) }
    ensures valid { OnOk result (IsValidNotice row.now) }
{
    let mut object = JsonObject::new(alloc)?;
    object.put_id(Key::CorrelationId, row.correlation)?;
    object.put_text(Key::Kind, row.kind.name())?;
    object.put_number(Key::NotificationId, row.number)?;
    object.put_second(Key::TimeStamp, row.second)?;
    Ok(object)
}

fn notice_rows(alloc: Global, rows: &[Notice]) -> Result<JsonRows<'_>, AllocError>
    ensures rows { IfOk result (λ written.
        rows_of written ≡ map (λ r. row_data (notice_fields r)) rows.now) }
    ensures valid { OnOk result (AllByRecursion IsValidNotice rows.now) }
{
    let mut written = JsonRows::new(alloc);
    for row in rows {
        let object = notice_row(alloc, row)?;
        written.push(object)?;
    }
    Ok(written)
}

#[tactic(auto, unfolding(crate::specs::Rows::row_data, json_fields::specs::Objects::with_fields))]
fn outcome_row(alloc: Global, row: &Outcome) -> Result<JsonObject<'_>, AllocError>
    ensures row { IfOk result (λ o. object (members_of o) ≡ row_data (outcome_fields row.now)) }
    ensures valid { OnOk result (IsValidOutcome row.now) }
{
    let mut object = JsonObject::new(alloc)?;
    object.put_id(Key::CorrelationId, row.correlation)?;
    object.put_text(Key::Kind, row.kind.name())?;
    object.put_number(Key::ResultId, row.number)?;
    object.put_second(Key::TimeStamp, row.second)?;
    Ok(object)
}

fn outcome_rows(alloc: Global, rows: &[Outcome]) -> Result<JsonRows<'_>, AllocError>
    ensures rows { IfOk result (λ written.
        rows_of written ≡ map (λ r. row_data (outcome_fields r)) rows.now) }
    ensures valid { OnOk result (AllByRecursion IsValidOutcome rows.now) }
{
    let mut written = JsonRows::new(alloc);
    for row in rows {
        let object = outcome_row(alloc, row)?;
        written.push(object)?;
    }
    Ok(written)
}

/// The rows of a body and their key, where it has some.
#[tactic(auto, unfolding(crate::specs::Rows::rows_in))]
pub fn rows_in(
    alloc: Global,
    form: TimeForm,
    body: &Body,
) -> Result<Option<(Key, JsonRows<'_>)>, AllocError>
    ensures rows { IfOk result (λ o.
        option_map (λ r. (r.0, rows_of r.1)) o ≡ rows_in form body.now) }
    ensures valid { OnOk result (IsValidRows body.now) }
{
    match body {
        Body::QuerySummaryConfirmed { reservations, .. } => {
            let rows = summary_rows(alloc, form, reservations.items())?;
            Ok(Some((Key::Reservations, rows)))
        }
        Body::QueryNotificationConfirmed { notifications, .. } => {
            let rows = notice_rows(alloc, notifications.items())?;
            Ok(Some((Key::Notifications, rows)))
        }
        Body::QueryResultConfirmed { results, .. } => {
            let rows = outcome_rows(alloc, results.items())?;
            Ok(Some((Key::Results, rows)))
        }
        Body::QueryRecursiveConfirmed { reservations, .. } => {
            let rows = recursive_rows(alloc, reservations.items())?;
            Ok(Some((Key::Reservations, rows)))
        }
        _ => Ok(None),
    }
}
