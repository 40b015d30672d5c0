//! From the bytes of a line to a parcel.

ghost use Rattle.std.specs.Prelude.{IfOk, Some};
ghost use Rattle.json_fields.specs.Values.{view};
ghost use Rattle.nsi_primitive.specs.Printable.{IsPrintable, IsPrintableParcel};
ghost use Rattle.json_fields.specs.Faults.{Gives};
ghost use Rattle.json_primitives.specs.Lines.{line_of, object_of, parcel_from, of_text, of_kind, as_parcel, ack_from};

mod answers;
mod connected;
mod headers;
mod notifications;
mod queries;
mod requests;
mod rows;

use answers::{commit_failed_from, confirmation_from, error_message_from, failed_from};
use connected::{
    abort_confirmation_from, abort_from, commit_confirmation_from, commit_from,
    provision_confirmation_from, provision_from, recursive_from, release_confirmation_from,
    release_from, response_from, terminate_confirmation_from, terminate_from,
};
use json::Scratch;
use json_fields::reading::{at, read_json, required_id, required_kind, required_name};
use json_fields::{JsonValue, Key, LineFault};
use notifications::{delivery_from, fault_from, plane_from, timeout_from};
use nsi_primitive::{Identity, Kind, Message, Parcel};
use queries::{notifications_from, results_from, summary_from};
use requests::reserve_from;
use rows::{notice_rows_from, outcome_rows_from, recursive_rows_from, summary_rows_from};
use std::alloc::Global;

/// The bytes of the longest line, without its end.
const LONGEST_LINE: usize = 65_536;

/// Reads one line without its end.
pub fn read_line(alloc: Global, bytes: &[u8]) -> Result<Parcel, LineFault>
    ensures gives { Gives result (line_of bytes.now) }
    ensures printable { IfOk result IsPrintableParcel }
{
    if bytes.len() > LONGEST_LINE {
        return Err(LineFault::TooLong);
    }
    read_object(alloc, bytes)
}

/// Reads an object of any length. Keys that its kind doesn't have are passed over.
#[tactic(auto, unfolding(crate::specs::Lines::object_of))]
pub fn read_object(alloc: Global, bytes: &[u8]) -> Result<Parcel, LineFault>
    ensures gives { Gives result (object_of bytes.now) }
    ensures printable { IfOk result IsPrintableParcel }
{
    let mut scratch = Scratch::new(alloc);
    match read_json(alloc, bytes, &mut scratch) {
        Ok(value) => parcel_from(alloc, &value),
        Err(fault) => Err(fault),
    }
}

fn parcel_from(alloc: Global, value: &JsonValue<'_>) -> Result<Parcel, LineFault>
    ensures gives { Gives result (parcel_from (view value.now)) }
    ensures printable { IfOk result IsPrintableParcel }
{
    if !value.is_object() {
        return Err(LineFault::NotObject);
    }
    let Some(kind) = at(value, Key::Kind) else {
        return Err(LineFault::NoKind);
    };
    match kind.as_str() {
        None => Err(LineFault::Bad(Key::Kind)),
        Some(name) => of_name(alloc, value, name.as_bytes()),
    }
}

fn of_name(alloc: Global, value: &JsonValue<'_>, name: &[u8]) -> Result<Parcel, LineFault>
    ensures gives { Gives result (of_text (view value.now) (Some name.now)) }
    ensures printable { IfOk result IsPrintableParcel }
{
    match Kind::named(name) {
        Some(kind) => as_parcel(alloc, value, kind),
        None if name == b"ack".as_slice() => ack_from(alloc, value),
        None => Err(LineFault::Bad(Key::Kind)),
    }
}

fn as_parcel(alloc: Global, value: &JsonValue<'_>, kind: Kind) -> Result<Parcel, LineFault>
    ensures gives { Gives result (as_parcel (of_kind (view value.now) kind)) }
    ensures printable { IfOk result IsPrintableParcel }
{
    let message = of_kind(alloc, value, kind)?;
    Ok(Parcel::Message(message))
}

/// An acknowledgement has the header of the message that it is for, and that message's kind.
#[tactic(auto, unfolding(crate::specs::Lines::ack_from))]
fn ack_from(alloc: Global, value: &JsonValue<'_>) -> Result<Parcel, LineFault>
    ensures gives { Gives result (ack_from (view value.now)) }
    ensures printable { IfOk result IsPrintableParcel }
{
    let correlation = required_id(value, Key::CorrelationId)?;
    let kind = required_kind(value, Key::Of)?;
    let provider = required_name(alloc, value, Key::ProviderNsa)?;
    let requester = required_name(alloc, value, Key::RequesterNsa)?;
    Ok(Parcel::Ack(Identity {
        requester,
        provider,
        correlation,
        kind,
    }))
}

fn of_kind(alloc: Global, value: &JsonValue<'_>, kind: Kind) -> Result<Message, LineFault>
    ensures gives { Gives result (of_kind (view value.now) kind) }
    ensures printable { IfOk result IsPrintable }
{
    match kind {
        Kind::Reserve => reserve_from(alloc, value),
        Kind::ReserveResponse => response_from(alloc, value),
        Kind::ReserveConfirmed => confirmation_from(alloc, value),
        Kind::ReserveFailed => failed_from(alloc, value),
        Kind::ReserveCommit => commit_from(alloc, value),
        Kind::ReserveCommitConfirmed => commit_confirmation_from(alloc, value),
        Kind::ReserveCommitFailed => commit_failed_from(alloc, value),
        Kind::ReserveAbort => abort_from(alloc, value),
        Kind::ReserveAbortConfirmed => abort_confirmation_from(alloc, value),
        Kind::Provision => provision_from(alloc, value),
        Kind::ProvisionConfirmed => provision_confirmation_from(alloc, value),
        Kind::Release => release_from(alloc, value),
        Kind::ReleaseConfirmed => release_confirmation_from(alloc, value),
        Kind::Terminate => terminate_from(alloc, value),
        Kind::TerminateConfirmed => terminate_confirmation_from(alloc, value),
        Kind::Error => error_message_from(alloc, value),
        Kind::ReserveTimeout => timeout_from(alloc, value),
        Kind::ErrorEvent => fault_from(alloc, value),
        Kind::DataPlaneStateChange => plane_from(alloc, value),
        Kind::MessageDeliveryTimeout => delivery_from(alloc, value),
        Kind::QuerySummary => summary_from(alloc, value),
        Kind::QueryNotification => notifications_from(alloc, value),
        Kind::QueryResult => results_from(alloc, value),
        Kind::QueryRecursive => recursive_from(alloc, value),
        Kind::QuerySummaryConfirmed => summary_rows_from(alloc, value),
        Kind::QueryNotificationConfirmed => notice_rows_from(alloc, value),
        Kind::QueryResultConfirmed => outcome_rows_from(alloc, value),
        Kind::QueryRecursiveConfirmed => recursive_rows_from(alloc, value),
    }
}
