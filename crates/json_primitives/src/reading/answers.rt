//! The answers, key by key in byte order.

ghost use Rattle.std.specs.Prelude.{◌≡◌, IfOk, None};
ghost use Rattle.json_fields.specs.Values.{view};
ghost use Rattle.nsi_primitive.specs.Printable.{IsPrintable, IsPrintableCause};
ghost use Rattle.json_fields.specs.Faults.{Gives};
ghost use Rattle.json_primitives.specs.Answers.{confirmation_from, connection_from, plain_from, flow_or_both, lack_from, child_from, error_in, refused_by, refused_from, named, failed_from, commit_failed_from, error_message_from};

use crate::reading::headers::header_from;
use json_fields::reading::{
    at, error_from, optional_flag, optional_flow, optional_id, optional_text, required_capacity,
    required_count, required_directionality, required_error, required_id, required_name,
    required_plain_error, required_second, required_time, required_version,
};
use json_fields::{JsonValue, Key, LineFault};
use nsi_base::Flow;
use nsi_primitive::{Body, Cause, ErrorName, Exception, Header, Id, Message, ReserveConfirmation};
use std::alloc::Global;

/// Who refused a request and why, and the connection that it was about.
#[derive(Drop)]
pub struct Refusal {
    pub header: Header,
    pub connection: Option<Id>,
    pub exception: Exception,
}

#[tactic(auto, unfolding(crate::specs::Answers::confirmation_from))]
pub fn confirmation_from(alloc: Global, value: &JsonValue<'_>) -> Result<Message, LineFault>
    ensures gives { Gives result (confirmation_from (view value.now)) }
    ensures printable { IfOk result IsPrintable }
{
    let capacity = required_capacity(value, Key::Capacity)?;
    let connection = required_id(value, Key::ConnectionId)?;
    let correlation = required_id(value, Key::CorrelationId)?;
    let description = optional_text(alloc, value, Key::Description, 256)?;
    let dest = required_name(alloc, value, Key::DestStp)?;
    let directionality = required_directionality(value, Key::Directionality)?;
    let end = required_time(value, Key::EndTime)?;
    let global = optional_text(alloc, value, Key::GlobalReservationId, 128)?;
    let header = header_from(alloc, value, correlation)?;
    let source = required_name(alloc, value, Key::SourceStp)?;
    let start = required_time(value, Key::StartTime)?;
    let symmetric = optional_flag(value, Key::SymmetricPath)?;
    let version = required_version(value, Key::Version)?;
    let body = Body::ReserveConfirmed(ReserveConfirmation {
        capacity,
        connection,
        description,
        dest,
        directionality,
        end,
        global,
        source,
        start,
        symmetric,
        version,
    });
    Ok(Message { header, body })
}

/// The connection, which an `error` need not name.
fn connection_from(value: &JsonValue<'_>, is_needed: bool) -> Result<Option<Id>, LineFault>
    ensures { Gives result (connection_from is_needed (view value.now)) }
{
    if !is_needed {
        return optional_id(value, Key::ConnectionId);
    }
    let connection = required_id(value, Key::ConnectionId)?;
    Ok(Some(connection))
}

/// Without further keys.
#[tactic(auto, unfolding(crate::specs::Answers::plain_from))]
fn plain_from(alloc: Global, value: &JsonValue<'_>, is_needed: bool) -> Result<Refusal, LineFault>
    ensures gives { Gives result (plain_from is_needed (view value.now)) }
    ensures printable { IfOk result (λ r. IsPrintableCause r.exception.cause) }
{
    let connection = connection_from(value, is_needed)?;
    let correlation = required_id(value, Key::CorrelationId)?;
    let error = required_plain_error(value, Key::ErrorId)?;
    let nsa = required_name(alloc, value, Key::NsaId)?;
    let header = header_from(alloc, value, correlation)?;
    let cause = Cause::Plain(error);
    Ok(Refusal {
        header,
        connection,
        exception: Exception { nsa, cause },
    })
}

/// Both directions share a point's capacity where none is named.
fn flow_or_both(flow: Option<Flow>) -> Flow
    ensures { result ≡ flow_or_both flow }
{
    match flow {
        Some(flow) => flow,
        None => Flow::Both,
    }
}

/// With BANDWIDTH.
#[tactic(auto, unfolding(crate::specs::Answers::lack_from))]
fn lack_from(alloc: Global, value: &JsonValue<'_>, is_needed: bool) -> Result<Refusal, LineFault>
    ensures gives { Gives result (lack_from is_needed (view value.now)) }
    ensures printable { IfOk result (λ r. IsPrintableCause r.exception.cause) }
{
    let capacity = required_capacity(value, Key::Capacity)?;
    let connection = connection_from(value, is_needed)?;
    let correlation = required_id(value, Key::CorrelationId)?;
    let flow = optional_flow(value, Key::Direction)?;
    let _error = required_error(value, Key::ErrorId)?;
    let load = required_count(value, Key::Load)?;
    let nsa = required_name(alloc, value, Key::NsaId)?;
    let header = header_from(alloc, value, correlation)?;
    let second = required_second(value, Key::Second)?;
    let stp = required_name(alloc, value, Key::Stp)?;
    let cause = Cause::Bandwidth {
        stp,
        flow: flow_or_both(flow),
        second,
        load,
        capacity,
    };
    Ok(Refusal {
        header,
        connection,
        exception: Exception { nsa, cause },
    })
}

/// With CHILD.
#[tactic(auto, unfolding(crate::specs::Answers::child_from))]
fn child_from(alloc: Global, value: &JsonValue<'_>, is_needed: bool) -> Result<Refusal, LineFault>
    ensures gives { Gives result (child_from is_needed (view value.now)) }
    ensures printable { IfOk result (λ r. IsPrintableCause r.exception.cause) }
{
    let child = required_name(alloc, value, Key::Child)?;
    let child_error = required_error(value, Key::ChildErrorId)?;
    let connection = connection_from(value, is_needed)?;
    let correlation = required_id(value, Key::CorrelationId)?;
    let _error = required_error(value, Key::ErrorId)?;
    let nsa = required_name(alloc, value, Key::NsaId)?;
    let header = header_from(alloc, value, correlation)?;
    let cause = Cause::Child {
        child,
        error: child_error,
    };
    Ok(Refusal {
        header,
        connection,
        exception: Exception { nsa, cause },
    })
}

/// The error that an object names.
fn error_in(value: &JsonValue<'_>) -> Option<ErrorName>
    ensures { result ≡ error_in (view value.now) }
{
    error_from(at(value, Key::ErrorId)?)
}

/// By the error that is named, which says which further keys there are.
fn refused_by(
    alloc: Global,
    value: &JsonValue<'_>,
    is_needed: bool,
    error: Option<ErrorName>,
) -> Result<Refusal, LineFault>
    ensures gives { Gives result (refused_by error is_needed (view value.now)) }
    ensures printable { IfOk result (λ r. IsPrintableCause r.exception.cause) }
{
    match error {
        Some(ErrorName::Bandwidth) => lack_from(alloc, value, is_needed),
        Some(ErrorName::Child) => child_from(alloc, value, is_needed),
        _ => plain_from(alloc, value, is_needed),
    }
}

#[tactic(auto, unfolding(crate::specs::Answers::refused_from))]
fn refused_from(alloc: Global, value: &JsonValue<'_>, is_needed: bool) -> Result<Refusal, LineFault>
    ensures gives { Gives result (refused_from is_needed (view value.now)) }
    ensures printable { IfOk result (λ r. IsPrintableCause r.exception.cause) }
{
    refused_by(alloc, value, is_needed, error_in(value))
}

/// The connection of a refusal that has to name one.
fn named(connection: &Option<Id>) -> Result<Id, LineFault>
    ensures { Gives result (named connection.now) }
{
    match connection {
        Some(connection) => Ok(*connection),
        None => Err(LineFault::Missing(Key::ConnectionId)),
    }
}

#[tactic(auto, unfolding(crate::specs::Answers::failed_from))]
pub fn failed_from(alloc: Global, value: &JsonValue<'_>) -> Result<Message, LineFault>
    ensures gives { Gives result (failed_from (view value.now)) }
    ensures printable { IfOk result IsPrintable }
{
    let refusal = refused_from(alloc, value, true)?;
    let connection = named(&refusal.connection)?;
    let body = Body::ReserveFailed {
        connection,
        exception: refusal.exception,
    };
    let header = refusal.header;
    Ok(Message { header, body })
}

#[tactic(auto, unfolding(crate::specs::Answers::commit_failed_from))]
pub fn commit_failed_from(alloc: Global, value: &JsonValue<'_>) -> Result<Message, LineFault>
    ensures gives { Gives result (commit_failed_from (view value.now)) }
    ensures printable { IfOk result IsPrintable }
{
    let refusal = refused_from(alloc, value, true)?;
    let connection = named(&refusal.connection)?;
    let body = Body::ReserveCommitFailed {
        connection,
        exception: refusal.exception,
    };
    let header = refusal.header;
    Ok(Message { header, body })
}

#[tactic(auto, unfolding(crate::specs::Answers::error_message_from))]
pub fn error_message_from(alloc: Global, value: &JsonValue<'_>) -> Result<Message, LineFault>
    ensures gives { Gives result (error_message_from (view value.now)) }
    ensures printable { IfOk result IsPrintable }
{
    let refusal = refused_from(alloc, value, false)?;
    let body = Body::Error {
        connection: refusal.connection,
        exception: refusal.exception,
    };
    let header = refusal.header;
    Ok(Message { header, body })
}
