//! What a shared provider answers, and the lines of it.

ghost use Rattle.std.specs.Prelude.{◌≡◌, All, Option, Result, IfOk, IfErr, IfSome, IfNone, Err, map, false, true};
ghost use Rattle.nsi_primitive.specs.Printable.{IsPrintable, IsPrintableParcel, IsRequest};
ghost use Rattle.nsi_primitive.specs.declared.entry.Entry.{Entry};
ghost use Rattle.nsi_primitive.specs.declared.message.Parcel.{Parcel as AParcel};
ghost use Rattle.json_fields.specs.Faults.{Fails};
ghost use Rattle.json_fields.specs.declared.fault.LineFault.{LineFault as AFault};
ghost use Rattle.json_primitives.specs.Lines.{line_of};
ghost use Rattle.json_primitives.specs.Spelling.{spelling};
ghost use Rattle.provider_agent.specs.State.{State};
ghost use Rattle.shared_provider.specs.Holds.{HasHeld};
ghost use Rattle.shared_provider.specs.Calls.{IsPrinted, IsRequestLine, HasRefused, IsHeldFault, is_asking, bytes_of};

use crate::reply::{BookFault, Reply};
use json_primitives::{LineFault, print_message, read_line};
use nsi_primitive::{Event, Message, Parcel};
use std::alloc::{AllocError, Global};

/// What a call of a shared provider did.
#[derive(Drop)]
pub struct CallReply {
    /// The place of the entry in the history; none where the message was seen before, or no work waited.
    pub place: Option<u64>,
    /// What stands at that place.
    pub event: Option<Event>,
    /// The messages that the entry causes, each as a line without its end.
    pub lines: Vec<Vec<u8>>,
    /// How many entries are synced.
    pub durable: u64,
}

/// Why a call did nothing.
#[derive(Clone, Copy, Debug, PartialEq, Eq)]
pub enum CallFault {
    /// The line is no parcel.
    Line(LineFault),
    /// It is an acknowledgement, or a message that asks for nothing.
    NotARequest,
    Full,
    DiskFault { faults: u64 },
    Closed { faults: u64 },
    /// It may come after the entry was made, while its messages are printed.
    NoMemory,
}

/// A fault of the book, as the call tells it.
pub fn call_fault(fault: BookFault) -> CallFault
    ensures { (asked : State → Option Entry) →
        HasHeld asked (Err fault) → IsHeldFault asked result }
{
    match fault {
        BookFault::DiskFault { faults } => CallFault::DiskFault { faults },
        BookFault::Closed { faults } => CallFault::Closed { faults },
        BookFault::Full => CallFault::Full,
        BookFault::NoMemory => CallFault::NoMemory,
    }
}

fn line_fault(fault: LineFault) -> CallFault
    ensures { (read : Result AParcel AFault) → Fails fault read → HasRefused read result }
{
    match fault {
        LineFault::NoMemory => CallFault::NoMemory,
        LineFault::TooLong
        | LineFault::NotJson
        | LineFault::NotObject
        | LineFault::NoKind
        | LineFault::Bad(_)
        | LineFault::Missing(_) => CallFault::Line(fault),
    }
}

/// The request that a parcel is, where it is one.
fn request_of(parcel: Parcel) -> Option<Message>
    requires { IsPrintableParcel parcel }
    ensures request { IfSome result (λ m. parcel ≡ AParcel.Message m) }
    ensures asks { IfSome result IsRequest }
    ensures printable { IfSome result IsPrintable }
    ensures none { IfNone result (is_asking parcel ≡ false) }
{
    match parcel {
        Parcel::Message(message) => asking(message),
        Parcel::Ack(_) => None,
    }
}

/// The message, where it asks for something.
fn asking(message: Message) -> Option<Message>
    ensures same { IfSome result (λ m. m ≡ message) }
    ensures asks { IfSome result IsRequest }
    ensures none { IfNone result (is_asking (AParcel.Message message) ≡ false) }
{
    if message.is_request() {
        Some(message)
    } else {
        None
    }
}

/// The request of a line.
pub fn read_request(alloc: Global, line: &[u8]) -> Result<Message, CallFault>
    ensures request { IfOk result (IsRequestLine (line_of line.now)) }
    ensures printable { IfOk result IsPrintable }
    ensures refused { IfErr result (HasRefused (line_of line.now)) }
{
    match read_line(alloc, line) {
        Ok(parcel) => match request_of(parcel) {
            Some(message) => Ok(message),
            None => Err(CallFault::NotARequest),
        },
        Err(fault) => Err(line_fault(fault)),
    }
}

/// Each message as a line without its end.
fn print_all(alloc: Global, messages: &[Message]) -> Result<Vec<Vec<u8>>, AllocError>
    requires { All IsPrintable messages.now }
    ensures { IfOk result (λ lines. map bytes_of lines.items ≡ map spelling messages.now) }
{
    let mut lines = Vec::new(alloc);
    for message in messages {
        lines.push(print_message(alloc, message)?)?;
    }
    Ok(lines)
}

/// The reply of a book, its messages as lines.
pub fn print_reply(alloc: Global, reply: Reply) -> Result<CallReply, AllocError>
    requires { All IsPrintable reply.messages.items }
    ensures { IfOk result (IsPrinted reply) }
{
    let Reply {
        place,
        event,
        durable,
        messages,
    } = reply;
    let lines = print_all(alloc, &messages)?;
    Ok(CallReply {
        place,
        event,
        lines,
        durable,
    })
}
