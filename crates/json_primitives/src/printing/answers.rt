//! What answers have besides their header.

ghost use Rattle.std.specs.Prelude.{◌≡◌, OnOk, Some, IfSome, option_map};
ghost use Rattle.json_fields.specs.Fields.{id_from};
ghost use Rattle.json_fields.specs.Objects.{with_fields, with_value, words, id_scalar, IsReadBack};
ghost use Rattle.json_fields.specs.Written.{members_of};
ghost use Rattle.json_primitives.specs.Spelling.{confirmation_fields, refusal_fields, cause_fields, exception_fields, listed_fields, flow_text};
ghost use Rattle.json_primitives.specs.Valid.{IsValidConfirmation, IsValidCause, IsValidException};

use json_fields::{JsonObject, Key, TimeForm};
use nsi_base::Flow;
use nsi_primitive::{Cause, ErrorName, Exception, Id, ReserveConfirmation};
use std::alloc::{AllocError, Global};

#[tactic(auto, unfolding(json_fields::specs::Objects::with_fields))]
pub fn put_confirmation<'a>(
    object: &mut JsonObject<'a>,
    form: TimeForm,
    confirmation: &'a ReserveConfirmation,
) -> Result<(), AllocError>
    ensures put { OnOk result (members_of object.new
        ≡ with_fields (members_of object.old) (confirmation_fields form confirmation.now)) }
    ensures valid { OnOk result (IsValidConfirmation confirmation.now) }
{
    object.put_capacity(Key::Capacity, confirmation.capacity)?;
    object.put_id(Key::ConnectionId, confirmation.connection)?;
    object.put_optional_text(Key::Description, &confirmation.description)?;
    object.put_name(Key::DestStp, &confirmation.dest)?;
    object.put_text(Key::Directionality, confirmation.directionality.text())?;
    object.put_time(Key::EndTime, form, confirmation.end)?;
    object.put_optional_text(Key::GlobalReservationId, &confirmation.global)?;
    object.put_name(Key::SourceStp, &confirmation.source)?;
    object.put_time(Key::StartTime, form, confirmation.start)?;
    object.put_optional_flag(Key::SymmetricPath, confirmation.symmetric)?;
    object.put_version(Key::Version, confirmation.version)
}

#[tactic(auto, unfolding(json_fields::specs::Objects::with_fields))]
pub fn put_refusal<'a>(
    object: &mut JsonObject<'a>,
    connection: Id,
    exception: &'a Exception,
) -> Result<(), AllocError>
    ensures put { OnOk result (members_of object.new
        ≡ with_fields (members_of object.old) (refusal_fields (Some connection) exception.now)) }
    ensures connection { OnOk result (IsReadBack id_from (id_scalar connection) connection) }
    ensures exception { OnOk result (IsValidException exception.now) }
{
    object.put_id(Key::ConnectionId, connection)?;
    put_exception(object, exception)
}

#[tactic(auto, unfolding(json_fields::specs::Objects::with_fields))]
pub fn put_error<'a>(
    object: &mut JsonObject<'a>,
    connection: &'a Option<Id>,
    exception: &'a Exception,
) -> Result<(), AllocError>
    ensures put { OnOk result (members_of object.new
        ≡ with_fields (members_of object.old) (refusal_fields connection.now exception.now)) }
    ensures connection { OnOk result (IfSome connection.now (λ n.
        IsReadBack id_from (id_scalar n) n)) }
    ensures exception { OnOk result (IsValidException exception.now) }
{
    object.put_optional_id(Key::ConnectionId, *connection)?;
    put_exception(object, exception)
}

/// The connection that was asked about, and whether rows were left out.
#[tactic(auto, unfolding(json_fields::specs::Objects::with_fields))]
pub fn put_listed(object: &mut JsonObject<'_>, connection: Id, more: bool) -> Result<(), AllocError>
    ensures put { OnOk result (members_of object.new
        ≡ with_fields (members_of object.old) (listed_fields connection more)) }
    ensures valid { OnOk result (IsReadBack id_from (id_scalar connection) connection) }
{
    object.put_id(Key::ConnectionId, connection)?;
    object.put_flag(Key::More, more)
}

#[tactic(auto, unfolding(json_fields::specs::Objects::with_fields))]
fn put_exception<'a>(
    object: &mut JsonObject<'a>,
    exception: &'a Exception,
) -> Result<(), AllocError>
    ensures put { OnOk result (members_of object.new
        ≡ with_fields (members_of object.old) (exception_fields exception.now)) }
    ensures valid { OnOk result (IsValidException exception.now) }
{
    object.put_name(Key::NsaId, &exception.nsa)?;
    put_cause(object, &exception.cause)
}

#[tactic(auto, unfolding(json_fields::specs::Objects::with_fields))]
fn put_cause<'a>(object: &mut JsonObject<'a>, cause: &'a Cause) -> Result<(), AllocError>
    ensures put { OnOk result (members_of object.new
        ≡ with_fields (members_of object.old) (cause_fields cause.now)) }
    ensures valid { OnOk result (IsValidCause cause.now) }
{
    match cause {
        Cause::Plain(error) => object.put_text(Key::ErrorId, error.text()),
        Cause::Bandwidth {
            stp,
            flow,
            second,
            load,
            capacity,
        } => {
            object.put_capacity(Key::Capacity, *capacity)?;
            put_flow(object, *flow)?;
            object.put_text(Key::ErrorId, ErrorName::Bandwidth.text())?;
            object.put_number(Key::Load, *load)?;
            object.put_second(Key::Second, *second)?;
            object.put_name(Key::Stp, stp)
        }
        Cause::Child { child, error } => {
            object.put_name(Key::Child, child)?;
            object.put_text(Key::ChildErrorId, error.text())?;
            object.put_text(Key::ErrorId, ErrorName::Child.text())
        }
    }
}

fn put_flow(object: &mut JsonObject<'_>, flow: Flow) -> Result<(), AllocError>
    ensures { OnOk result (members_of object.new
        ≡ with_value Key.Direction (option_map words (flow_text flow)) (members_of object.old)) }
{
    match flow {
        Flow::Both => Ok(()),
        Flow::In => object.put_text(Key::Direction, "in"),
        Flow::Out => object.put_text(Key::Direction, "out"),
    }
}
