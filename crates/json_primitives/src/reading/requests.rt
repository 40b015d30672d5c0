//! The reserve, key by key in byte order.

ghost use Rattle.std.specs.Prelude.{◌≡◌, false, IfOk, IfNone, IsSome};
ghost use Rattle.json_fields.specs.Values.{view};
ghost use Rattle.nsi_primitive.specs.Printable.{IsPrintable, AreApart};
ghost use Rattle.json_fields.specs.Faults.{Gives};
ghost use Rattle.json_primitives.specs.Requests.{reserve_from, point_from, is_one_point};

use crate::reading::headers::header_from;
use json_fields::reading::{
    optional_directionality, optional_empty_list, optional_flag, optional_id, optional_name,
    optional_text, optional_version, required_capacity, required_id, required_name, required_time,
};
use json_fields::row_fields::optional_time;
use json_fields::{JsonValue, Key, LineFault};
use nsi_base::Name;
use nsi_primitive::{Body, Id, Message, ReserveRequest};
use std::alloc::Global;

/// A first reserve, or with a connection a modification.
#[tactic(auto, unfolding(crate::specs::Requests::reserve_from))]
pub fn reserve_from(alloc: Global, value: &JsonValue<'_>) -> Result<Message, LineFault>
    ensures gives { Gives result (reserve_from (view value.now)) }
    ensures printable { IfOk result IsPrintable }
{
    let capacity = required_capacity(value, Key::Capacity)?;
    let connection = optional_id(value, Key::ConnectionId)?;
    let correlation = required_id(value, Key::CorrelationId)?;
    let description = optional_text(alloc, value, Key::Description, 256)?;
    let dest = point_from(alloc, value, Key::DestStp, &connection)?;
    let directionality = optional_directionality(value, Key::Directionality)?;
    let end = required_time(value, Key::EndTime)?;
    let _ero = optional_empty_list(value, Key::Ero)?;
    let global = optional_text(alloc, value, Key::GlobalReservationId, 128)?;
    let header = header_from(alloc, value, correlation)?;
    let source = point_from(alloc, value, Key::SourceStp, &connection)?;
    let start = optional_time(value, Key::StartTime)?;
    let symmetric = optional_flag(value, Key::SymmetricPath)?;
    let version = optional_version(value, Key::Version)?;
    if is_one_point(&source, &dest) {
        return Err(LineFault::Bad(Key::DestStp));
    }
    let body = Body::Reserve(ReserveRequest {
        capacity,
        connection,
        description,
        dest,
        directionality,
        end,
        global,
        source,
        start,
        symmetric,
        version,
    });
    Ok(Message { header, body })
}

/// A point, which a reserve has to name where it names no connection.
fn point_from(
    alloc: Global,
    value: &JsonValue<'_>,
    key: Key,
    connection: &Option<Id>,
) -> Result<Option<Name>, LineFault>
    ensures gives { Gives result (point_from connection.now key (view value.now)) }
    ensures complete { IfOk result (λ point. IfNone connection.now (IsSome point)) }
{
    if connection.is_some() {
        return optional_name(alloc, value, key);
    }
    let point = required_name(alloc, value, key)?;
    Ok(Some(point))
}

fn is_one_point(source: &Option<Name>, dest: &Option<Name>) -> bool
    ensures value { result ≡ is_one_point source.now dest.now }
    ensures apart { result ≡ false → AreApart source.now dest.now }
{
    match (source, dest) {
        (Some(source), Some(dest)) => source.is(dest),
        _ => false,
    }
}
