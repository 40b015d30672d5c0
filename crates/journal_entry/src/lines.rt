//! The lines of messages and acknowledgements, in the one spelling of a form.

ghost use Rattle.std.specs.Prelude.{IfOk};
ghost use Rattle.nsi_primitive.specs.Printable.{IsPrintable, IsPrintableParcel};
ghost use Rattle.json_primitives.specs.Lines.{object_of};
ghost use Rattle.journal_entry.specs.Faults.{Gives};
ghost use Rattle.journal_entry.specs.Lines.{what_is_read, parcel_in, message_in, ack_in};

use crate::fault::EntryFault;
use crate::form::Form;
use json_primitives::{LineFault, print_line_in, read_object};
use nsi_primitive::{Identity, Message, Parcel};
use std::alloc::Global;

fn parcel_of(alloc: Global, text: &[u8]) -> Result<Parcel, EntryFault>
    ensures gives { Gives (λ p. p) result (what_is_read (object_of text.now)) }
    ensures printable { IfOk result IsPrintableParcel }
{
    match read_object(alloc, text) {
        Ok(parcel) => Ok(parcel),
        Err(LineFault::NoMemory) => Err(EntryFault::NoMemory),
        Err(_) => Err(EntryFault::NotAnEntry),
    }
}

#[tactic(auto, unfolding(crate::specs::Lines::parcel_in))]
fn parcel_in(alloc: Global, form: Form, text: &[u8]) -> Result<Parcel, EntryFault>
    ensures gives { Gives (λ p. p) result (parcel_in form text.now) }
    ensures printable { IfOk result IsPrintableParcel }
{
    let parcel = parcel_of(alloc, text)?;
    let spelling = print_line_in(alloc, form.times(), &parcel)?;
    if spelling.as_slice() == text {
        Ok(parcel)
    } else {
        Err(EntryFault::NotAnEntry)
    }
}

#[tactic(auto, unfolding(crate::specs::Lines::message_in))]
pub(crate) fn message_in(alloc: Global, form: Form, text: &[u8]) -> Result<Message, EntryFault>
    ensures gives { Gives (λ m. m) result (message_in form text.now) }
    ensures printable { IfOk result IsPrintable }
{
    let message = match parcel_in(alloc, form, text)? {
        Parcel::Message(message) => message,
        Parcel::Ack(_) => return Err(EntryFault::NotAnEntry),
    };
    if form.holds_message(&message) {
        Ok(message)
    } else {
        Err(EntryFault::NotAnEntry)
    }
}

#[tactic(auto, unfolding(crate::specs::Lines::ack_in))]
pub(crate) fn ack_in(alloc: Global, form: Form, text: &[u8]) -> Result<Identity, EntryFault>
    ensures { Gives (λ i. i) result (ack_in form text.now) }
{
    match parcel_in(alloc, form, text)? {
        Parcel::Message(_) => Err(EntryFault::NotAnEntry),
        Parcel::Ack(identity) => Ok(identity),
    }
}
