//! What a line behind the topology says.

ghost use Rattle.std.specs.Prelude.{◌≡◌, IfOk};
ghost use Rattle.nsi_primitive.specs.Printable.{IsPrintable, IsPrintableParcel};
ghost use Rattle.provider_agent.specs.State.{State};
ghost use Rattle.provide_command.specs.Receiving.{unserved, requested, message_received, parcel_received, second_in, ticked, received, IsTimely};

use crate::payload::PayloadFault;
use json_primitives::{Key, LineFault, read_line};
use nsi_base::Second;
use nsi_base::digits::number_of;
use nsi_primitive::{Entry, Input, Message, Parcel};
use provider_agent::Provider;
use std::alloc::{AllocError, Global};

/// What a line says to a provider.
#[derive(Drop)]
pub enum Received {
    /// The line is empty, an acknowledgement, or a request that was taken before.
    Nothing,
    /// The line can't be read, or isn't served.
    Fault(PayloadFault),
    /// A request that comes now, or a second of the clock.
    Entry(Entry),
}

/// What a line says to the provider.
#[tactic(auto, unfolding(crate::specs::Receiving::received))]
pub(crate) fn receive(
    alloc: Global,
    provider: &Provider,
    line: &[u8],
) -> Result<Received, AllocError>
    ensures received { IfOk result (λ h. h ≡ received provider.now.state line.now) }
    ensures timely { IfOk result (λ h. IsTimely provider.now.state h) }
{
    if line.is_empty() {
        return Ok(Received::Nothing);
    }
    if line.starts_with(b"tick") {
        return Ok(ticked(provider.now(), second_in(line)));
    }
    match read_line(alloc, line) {
        Ok(parcel) => Ok(parcel_received(provider, parcel)),
        Err(LineFault::NoMemory) => Err(AllocError),
        Err(fault) => Ok(Received::Fault(PayloadFault::Line(fault))),
    }
}

/// Nothing waits for an acknowledgement.
fn parcel_received(provider: &Provider, parcel: Parcel) -> Received
    requires { IsPrintableParcel parcel }
    ensures received { result ≡ parcel_received parcel provider.now.state }
    ensures timely { IsTimely provider.now.state result }
{
    match parcel {
        Parcel::Message(message) => message_received(provider, message),
        Parcel::Ack(_) => Received::Nothing,
    }
}

/// A request that is served comes now.
fn message_received(provider: &Provider, message: Message) -> Received
    requires { IsPrintable message }
    ensures received { result ≡ message_received message provider.now.state }
    ensures timely { IsTimely provider.now.state result }
{
    match unserved(&message) {
        Some(fault) => Received::Fault(fault),
        None => requested(provider, message),
    }
}

/// Why a message isn't served: it is no request.
fn unserved(message: &Message) -> Option<PayloadFault>
    ensures { result ≡ unserved message.now.body }
{
    if !message.is_request() {
        return Some(PayloadFault::Line(LineFault::Bad(Key::Kind)));
    }
    None
}

/// A request, where it wasn't taken before.
fn requested(provider: &Provider, message: Message) -> Received
    requires { IsPrintable message }
    ensures received { result ≡ requested message provider.now.state }
    ensures timely { IsTimely provider.now.state result }
{
    if provider.seen(&message) {
        return Received::Nothing;
    }
    Received::Entry(Entry {
        second: provider.now(),
        input: Input::Got(message),
    })
}

/// The second of a line of the clock.
#[tactic(auto, unfolding(nsi_base::specs::Digits::number_of))]
fn second_in(line: &[u8]) -> Option<Second>
    ensures { result ≡ second_in line.now }
{
    if !line.starts_with(b"tick ") {
        return None;
    }
    let second = number_of(0, Second::MAX, &line[5..])?;
    match Second::new(second) {
        Some(second) => Some(second),
        None => unreachable!(),
    }
}

/// The clock goes on to the second, where it doesn't go back.
fn ticked(now: Second, second: Option<Second>) -> Received
    ensures received { (s : State) → s.now ≡ now → result ≡ ticked second s }
    ensures timely { (s : State) → s.now ≡ now → IsTimely s result }
{
    match second {
        Some(second) if now <= second => Received::Entry(Entry {
            second,
            input: Input::Tick,
        }),
        _ => Received::Fault(PayloadFault::Tick),
    }
}
