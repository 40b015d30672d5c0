//! What says a connection and nothing else, key by key in byte order.

ghost use Rattle.std.specs.Prelude.{IfOk};
ghost use Rattle.json_fields.specs.Values.{view};
ghost use Rattle.nsi_primitive.specs.Printable.{IsPrintable};
ghost use Rattle.json_fields.specs.Faults.{Gives};
ghost use Rattle.nsi_primitive.specs.declared.message.Body.{Body};
ghost use Rattle.json_primitives.specs.Connected.{connected_from, about};

use crate::reading::headers::header_from;
use json_fields::reading::required_id;
use json_fields::{JsonValue, Key, LineFault};
use nsi_primitive::{Body, Header, Id, Message};
use std::alloc::Global;

/// The connection and the header.
#[tactic(auto, unfolding(crate::specs::Connected::connected_from))]
fn connected_from(alloc: Global, value: &JsonValue<'_>) -> Result<(Id, Header), LineFault>
    ensures { Gives result (connected_from (view value.now)) }
{
    let connection = required_id(value, Key::ConnectionId)?;
    let correlation = required_id(value, Key::CorrelationId)?;
    let header = header_from(alloc, value, correlation)?;
    Ok((connection, header))
}

#[tactic(auto, unfolding(crate::specs::Connected::about))]
pub fn response_from(alloc: Global, value: &JsonValue<'_>) -> Result<Message, LineFault>
    ensures gives { Gives result (about Body.ReserveResponse (view value.now)) }
    ensures printable { IfOk result IsPrintable }
{
    let (connection, header) = connected_from(alloc, value)?;
    let body = Body::ReserveResponse { connection };
    Ok(Message { header, body })
}

#[tactic(auto, unfolding(crate::specs::Connected::about))]
pub fn commit_from(alloc: Global, value: &JsonValue<'_>) -> Result<Message, LineFault>
    ensures gives { Gives result (about Body.ReserveCommit (view value.now)) }
    ensures printable { IfOk result IsPrintable }
{
    let (connection, header) = connected_from(alloc, value)?;
    let body = Body::ReserveCommit { connection };
    Ok(Message { header, body })
}

#[tactic(auto, unfolding(crate::specs::Connected::about))]
pub fn commit_confirmation_from(alloc: Global, value: &JsonValue<'_>) -> Result<Message, LineFault>
    ensures gives { Gives result (about Body.ReserveCommitConfirmed (view value.now)) }
    ensures printable { IfOk result IsPrintable }
{
    let (connection, header) = connected_from(alloc, value)?;
    let body = Body::ReserveCommitConfirmed { connection };
    Ok(Message { header, body })
}

#[tactic(auto, unfolding(crate::specs::Connected::about))]
pub fn abort_from(alloc: Global, value: &JsonValue<'_>) -> Result<Message, LineFault>
    ensures gives { Gives result (about Body.ReserveAbort (view value.now)) }
    ensures printable { IfOk result IsPrintable }
{
    let (connection, header) = connected_from(alloc, value)?;
    let body = Body::ReserveAbort { connection };
    Ok(Message { header, body })
}

#[tactic(auto, unfolding(crate::specs::Connected::about))]
pub fn abort_confirmation_from(alloc: Global, value: &JsonValue<'_>) -> Result<Message, LineFault>
    ensures gives { Gives result (about Body.ReserveAbortConfirmed (view value.now)) }
    ensures printable { IfOk result IsPrintable }
{
    let (connection, header) = connected_from(alloc, value)?;
    let body = Body::ReserveAbortConfirmed { connection };
    Ok(Message { header, body })
}

#[tactic(auto, unfolding(crate::specs::Connected::about))]
pub fn provision_from(alloc: Global, value: &JsonValue<'_>) -> Result<Message, LineFault>
    ensures gives { Gives result (about Body.Provision (view value.now)) }
    ensures printable { IfOk result IsPrintable }
{
    let (connection, header) = connected_from(alloc, value)?;
    let body = Body::Provision { connection };
    Ok(Message { header, body })
}

#[tactic(auto, unfolding(crate::specs::Connected::about))]
pub fn provision_confirmation_from(
    alloc: Global,
    value: &JsonValue<'_>,
) -> Result<Message, LineFault>
    ensures gives { Gives result (about Body.ProvisionConfirmed (view value.now)) }
    ensures printable { IfOk result IsPrintable }
{
    let (connection, header) = connected_from(alloc, value)?;
    let body = Body::ProvisionConfirmed { connection };
    Ok(Message { header, body })
}

#[tactic(auto, unfolding(crate::specs::Connected::about))]
pub fn release_from(alloc: Global, value: &JsonValue<'_>) -> Result<Message, LineFault>
    ensures gives { Gives result (about Body.Release (view value.now)) }
    ensures printable { IfOk result IsPrintable }
{
    let (connection, header) = connected_from(alloc, value)?;
    let body = Body::Release { connection };
    Ok(Message { header, body })
}

#[tactic(auto, unfolding(crate::specs::Connected::about))]
pub fn release_confirmation_from(alloc: Global, value: &JsonValue<'_>) -> Result<Message, LineFault>
    ensures gives { Gives result (about Body.ReleaseConfirmed (view value.now)) }
    ensures printable { IfOk result IsPrintable }
{
    let (connection, header) = connected_from(alloc, value)?;
    let body = Body::ReleaseConfirmed { connection };
    Ok(Message { header, body })
}

#[tactic(auto, unfolding(crate::specs::Connected::about))]
pub fn terminate_from(alloc: Global, value: &JsonValue<'_>) -> Result<Message, LineFault>
    ensures gives { Gives result (about Body.Terminate (view value.now)) }
    ensures printable { IfOk result IsPrintable }
{
    let (connection, header) = connected_from(alloc, value)?;
    let body = Body::Terminate { connection };
    Ok(Message { header, body })
}

#[tactic(auto, unfolding(crate::specs::Connected::about))]
pub fn terminate_confirmation_from(
    alloc: Global,
    value: &JsonValue<'_>,
) -> Result<Message, LineFault>
    ensures gives { Gives result (about Body.TerminateConfirmed (view value.now)) }
    ensures printable { IfOk result IsPrintable }
{
    let (connection, header) = connected_from(alloc, value)?;
    let body = Body::TerminateConfirmed { connection };
    Ok(Message { header, body })
}

#[tactic(auto, unfolding(crate::specs::Connected::about))]
pub fn recursive_from(alloc: Global, value: &JsonValue<'_>) -> Result<Message, LineFault>
    ensures gives { Gives result (about Body.QueryRecursive (view value.now)) }
    ensures printable { IfOk result IsPrintable }
{
    let (connection, header) = connected_from(alloc, value)?;
    let body = Body::QueryRecursive { connection };
    Ok(Message { header, body })
}
