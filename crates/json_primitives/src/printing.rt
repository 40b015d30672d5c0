//! From a parcel to the bytes of its line.

ghost use Rattle.std.specs.Prelude.{◌≡◌, ◌++◌, OnOk, IfOk, Ok};
ghost use Rattle.serde_json.specs.Data.{no_members};
ghost use Rattle.nsi_primitive.specs.Printable.{IsPrintable, IsPrintableInput, IsPrintableParcel};
ghost use Rattle.nsi_primitive.specs.declared.message.Parcel.{Parcel};
ghost use Rattle.json_fields.specs.Objects.{with_fields};
ghost use Rattle.json_fields.specs.Written.{members_of};
ghost use Rattle.json_primitives.specs.Inputs.{input_spelling, IsInputAgain};
ghost use Rattle.json_primitives.specs.Lines.{object_of};
ghost use Rattle.json_primitives.specs.Spelling.{spelling_in, spelling, parcel_spelling_in, parcel_spelling, fields_of, body_fields, told_fields, header_fields, ack_fields};
ghost use Rattle.json_primitives.specs.Valid.{IsValidHeader, IsValidIdentity, IsValidTold, IsValidBody, IsValid};

mod answers;
mod notifications;
mod requests;
mod rows;

use answers::{put_confirmation, put_error, put_listed, put_refusal};
use json_fields::{JsonObject, Key, TimeForm};
use notifications::{put_delivery, put_fault, put_plane, put_timeout};
use nsi_primitive::{Body, Header, Identity, Input, Kind, Message, Parcel};
use requests::{put_range, put_reserve};
use rows::rows_in;
use std::alloc::{AllocError, Global};

/// Most lines are shorter.
const USUAL_LENGTH: usize = 512;

/// Writes a message as compact JSON, without a line's end.
pub fn print_message(alloc: Global, message: &Message) -> Result<Vec<u8>, AllocError>
    requires { IsPrintable message.now }
    ensures spelled { IfOk result (λ b. b.items ≡ spelling message.now) }
    ensures again { IfOk result (λ b. object_of b.items ≡ Ok (Parcel.Message message.now)) }
{
    print_message_in(alloc, TimeForm::DateTime, message)
}

/// Writes a parcel with its times in this form.
pub fn print_line_in(alloc: Global, form: TimeForm, parcel: &Parcel) -> Result<Vec<u8>, AllocError>
    requires { IsPrintableParcel parcel.now }
    ensures spelled { IfOk result (λ b. b.items ≡ parcel_spelling_in form parcel.now) }
    ensures again { IfOk result (λ b. object_of b.items ≡ Ok parcel.now) }
{
    match parcel {
        Parcel::Message(message) => print_message_in(alloc, form, message),
        Parcel::Ack(identity) => print_ack(alloc, identity),
    }
}

/// Writes a message with its times in this form.
pub fn print_message_in(
    alloc: Global,
    form: TimeForm,
    message: &Message,
) -> Result<Vec<u8>, AllocError>
    requires { IsPrintable message.now }
    ensures spelled { IfOk result (λ b. b.items ≡ spelling_in form message.now) }
    ensures again { IfOk result (λ b. object_of b.items ≡ Ok (Parcel.Message message.now)) }
{
    let mut text = Vec::with_capacity(alloc, USUAL_LENGTH)?;
    push_message_in(alloc, form, message, &mut text)?;
    Ok(text)
}

/// Puts a message behind a text, with its times in this form.
fn push_message_in(
    alloc: Global,
    form: TimeForm,
    message: &Message,
    text: &mut Vec<u8>,
) -> Result<(), AllocError>
    requires { IsPrintable message.now }
    ensures put { OnOk result
        (text.new.items ≡ text.old.items ++ spelling_in form message.now) }
    ensures again { OnOk result
        (object_of (spelling_in form message.now) ≡ Ok (Parcel.Message message.now)) }
{
    let object = object_of(alloc, form, message)?;
    match rows_in(alloc, form, &message.body)? {
        None => object.spell(alloc, text),
        Some((key, rows)) => object.spell_with(alloc, text, key, &rows),
    }
}

/// Puts a message behind a text as compact JSON, without a line's end.
pub fn push_message(alloc: Global, message: &Message, text: &mut Vec<u8>) -> Result<(), AllocError>
    requires { IsPrintable message.now }
    ensures put { OnOk result (text.new.items ≡ text.old.items ++ spelling message.now) }
{
    push_message_in(alloc, TimeForm::DateTime, message, text)
}

/// Writes the parcel that an input takes as compact JSON, without a line's end, and nothing where it takes none.
pub fn print_input(alloc: Global, input: &Input) -> Result<Vec<u8>, AllocError>
    requires { IsPrintableInput input.now }
    ensures spelled { IfOk result (λ b. b.items ≡ input_spelling input.now) }
    ensures again { OnOk result (IsInputAgain input.now) }
{
    match input {
        Input::Got(message) => print_message(alloc, message),
        Input::Acked(identity) => print_ack(alloc, identity),
        Input::Ask { .. } | Input::Work { .. } | Input::Tick | Input::Force { .. } => {
            Ok(Vec::new(alloc))
        }
    }
}

/// Writes an acknowledgement of a message of this identity, without a line's end.
pub fn print_ack(alloc: Global, identity: &Identity) -> Result<Vec<u8>, AllocError>
    ensures spelled { IfOk result (λ b. b.items ≡ parcel_spelling (Parcel.Ack identity.now)) }
    ensures again { IfOk result (λ b. object_of b.items ≡ Ok (Parcel.Ack identity.now)) }
{
    let object = ack_of(alloc, identity)?;
    object.print(alloc)
}

/// Puts an acknowledgement of a message of this identity behind a text, without a line's end.
pub fn push_ack(alloc: Global, identity: &Identity, text: &mut Vec<u8>) -> Result<(), AllocError>
    ensures put { OnOk result
        (text.new.items ≡ text.old.items ++ parcel_spelling (Parcel.Ack identity.now)) }
{
    let object = ack_of(alloc, identity)?;
    object.spell(alloc, text)
}

#[tactic(auto, unfolding(json_fields::specs::Objects::with_fields))]
fn ack_of(alloc: Global, identity: &Identity) -> Result<JsonObject<'_>, AllocError>
    ensures fields { IfOk result (λ o.
        members_of o ≡ with_fields no_members (ack_fields identity.now)) }
    ensures valid { OnOk result (IsValidIdentity identity.now) }
{
    let mut object = JsonObject::new(alloc)?;
    object.put_id(Key::CorrelationId, identity.correlation)?;
    object.put_text(Key::Kind, "ack")?;
    object.put_text(Key::Of, identity.kind.name())?;
    object.put_name(Key::ProviderNsa, &identity.provider)?;
    object.put_name(Key::RequesterNsa, &identity.requester)?;
    Ok(object)
}

fn object_of(alloc: Global, form: TimeForm, message: &Message) -> Result<JsonObject<'_>, AllocError>
    ensures fields { IfOk result (λ o.
        members_of o ≡ with_fields no_members (fields_of form message.now)) }
    ensures valid { OnOk result (IsValid message.now) }
{
    let mut object = JsonObject::new(alloc)?;
    put_header(&mut object, message.kind(), &message.header)?;
    put_body(&mut object, form, &message.body)?;
    Ok(object)
}

#[tactic(auto, unfolding(json_fields::specs::Objects::with_fields))]
fn put_header<'a>(
    object: &mut JsonObject<'a>,
    kind: Kind,
    header: &'a Header,
) -> Result<(), AllocError>
    ensures put { OnOk result (members_of object.new
        ≡ with_fields (members_of object.old) (header_fields kind header.now)) }
    ensures valid { OnOk result (IsValidHeader header.now) }
{
    object.put_id(Key::CorrelationId, header.correlation)?;
    object.put_text(Key::Kind, kind.name())?;
    object.put_name(Key::ProviderNsa, &header.provider)?;
    object.put_name(Key::RequesterNsa, &header.requester)
}

#[tactic(auto, unfolding(json_fields::specs::Objects::with_fields))]
fn put_body<'a>(
    object: &mut JsonObject<'a>,
    form: TimeForm,
    body: &'a Body,
) -> Result<(), AllocError>
    ensures put { OnOk result (members_of object.new
        ≡ with_fields (members_of object.old) (body_fields form body.now)) }
    ensures valid { OnOk result (IsValidBody body.now) }
{
    match body {
        Body::Reserve(reserve) => put_reserve(object, form, reserve),
        Body::ReserveResponse { connection }
        | Body::ReserveCommit { connection }
        | Body::ReserveCommitConfirmed { connection }
        | Body::ReserveAbort { connection }
        | Body::ReserveAbortConfirmed { connection }
        | Body::Provision { connection }
        | Body::ProvisionConfirmed { connection }
        | Body::Release { connection }
        | Body::ReleaseConfirmed { connection }
        | Body::Terminate { connection }
        | Body::TerminateConfirmed { connection }
        | Body::QueryRecursive { connection } => { object.put_id(Key::ConnectionId, *connection) }
        Body::QuerySummary { connection } => {
            object.put_optional_id(Key::ConnectionId, *connection)
        }
        Body::QueryNotification(range) => put_range(
            object,
            Key::EndNotificationId,
            Key::StartNotificationId,
            range,
        ),
        Body::QueryResult(range) => {
            put_range(object, Key::EndResultId, Key::StartResultId, range)
        }
        _ => put_told(object, form, body),
    }
}

/// What answers and notifications have, rows aside.
#[tactic(auto, unfolding(json_fields::specs::Objects::with_fields))]
fn put_told<'a>(
    object: &mut JsonObject<'a>,
    form: TimeForm,
    body: &'a Body,
) -> Result<(), AllocError>
    ensures put { OnOk result (members_of object.new
        ≡ with_fields (members_of object.old) (told_fields form body.now)) }
    ensures valid { OnOk result (IsValidTold body.now) }
{
    match body {
        Body::ReserveConfirmed(confirmation) => { put_confirmation(object, form, confirmation) }
        Body::ReserveFailed {
            connection,
            exception,
        }
        | Body::ReserveCommitFailed {
            connection,
            exception,
        } => put_refusal(object, *connection, exception),
        Body::Error {
            connection,
            exception,
        } => put_error(object, connection, exception),
        Body::ReserveTimeout(timeout) => put_timeout(object, timeout),
        Body::ErrorEvent(notice) => put_fault(object, notice),
        Body::DataPlaneStateChange(notice) => put_plane(object, notice),
        Body::MessageDeliveryTimeout(timeout) => put_delivery(object, timeout),
        Body::QuerySummaryConfirmed { more, .. } => object.put_flag(Key::More, *more),
        Body::QueryNotificationConfirmed {
            connection,
            more,
            ..
        }
        | Body::QueryResultConfirmed {
            connection,
            more,
            ..
        }
        | Body::QueryRecursiveConfirmed {
            connection,
            more,
            ..
        } => put_listed(object, *connection, *more),
        _ => Ok(()),
    }
}
