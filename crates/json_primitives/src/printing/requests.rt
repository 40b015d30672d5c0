//! What requests have besides their header, key by key in byte order.

ghost use Rattle.std.specs.Prelude.{◌≡◌, OnOk};
ghost use Rattle.json_fields.specs.Fields.{id_from};
ghost use Rattle.json_fields.specs.Objects.{with_fields, id_scalar, IsReadBack};
ghost use Rattle.json_fields.specs.Written.{members_of};
ghost use Rattle.json_primitives.specs.Spelling.{reserve_fields, range_fields};
ghost use Rattle.json_primitives.specs.Valid.{IsValidReserve};

use json_fields::{JsonObject, Key, TimeForm};
use nsi_primitive::{NumberRange, ReserveRequest};
use std::alloc::{AllocError, Global};

#[tactic(auto, unfolding(json_fields::specs::Objects::with_fields))]
pub fn put_reserve<'a>(
    object: &mut JsonObject<'a>,
    form: TimeForm,
    reserve: &'a ReserveRequest,
) -> Result<(), AllocError>
    ensures put { OnOk result (members_of object.new
        ≡ with_fields (members_of object.old) (reserve_fields form reserve.now)) }
    ensures valid { OnOk result (IsValidReserve reserve.now) }
{
    object.put_capacity(Key::Capacity, reserve.capacity)?;
    object.put_optional_id(Key::ConnectionId, reserve.connection)?;
    object.put_optional_text(Key::Description, &reserve.description)?;
    object.put_optional_name(Key::DestStp, &reserve.dest)?;
    object.put_optional_directionality(Key::Directionality, reserve.directionality)?;
    object.put_time(Key::EndTime, form, reserve.end)?;
    object.put_optional_text(Key::GlobalReservationId, &reserve.global)?;
    object.put_optional_name(Key::SourceStp, &reserve.source)?;
    object.put_optional_time(Key::StartTime, form, reserve.start)?;
    object.put_optional_flag(Key::SymmetricPath, reserve.symmetric)?;
    object.put_optional_version(Key::Version, reserve.version)
}

/// A range of numbers, by the keys of its end and start.
#[tactic(auto, unfolding(json_fields::specs::Objects::with_fields))]
pub fn put_range<'a>(
    object: &mut JsonObject<'a>,
    end_key: Key,
    start_key: Key,
    range: &'a NumberRange,
) -> Result<(), AllocError>
    ensures put { OnOk result (members_of object.new
        ≡ with_fields (members_of object.old) (range_fields end_key start_key range.now)) }
    ensures valid { OnOk result
        (IsReadBack id_from (id_scalar range.now.connection) range.now.connection) }
{
    object.put_id(Key::ConnectionId, range.connection)?;
    object.put_optional_number(end_key, range.end)?;
    object.put_optional_number(start_key, range.start)
}
