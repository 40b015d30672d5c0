//! From bytes to the entry at their front.

ghost use Rattle.std.specs.Prelude.{◌≡◌, ◌≤◌, ◌<◌, ◌++◌, length, take, IfOk};
ghost use Rattle.nsi_primitive.specs.Printable.{IsPrintableAsk, IsPrintableInput, IsPrintableEntry};
ghost use Rattle.ask_text.specs.Reading.{ask_of};
ghost use Rattle.journal_entry.specs.Faults.{Gives};
ghost use Rattle.journal_entry.specs.Entries.{machine_of, held_ask_in, ask_at, got_at, machine_at, work_at, force_at, acked_at, input_at, entry_at};
ghost use Rattle.journal_entry.specs.Spelling.{entry_spelling, entry_of};

use crate::fault::EntryFault;
use crate::fields::{record_at, second_at, text_at, u32_at};
use crate::form::Form;
use crate::lines::{ack_in, message_in};
use ask_text::{AskTextFault, read_ask};
use nsi_primitive::{Ask, Entry, Input, Machine};
use std::alloc::Global;

/// Reads the entry of a form at the front, and answers its length. Anything may follow it.
pub fn read_entry(alloc: Global, form: Form, bytes: &[u8]) -> Result<(Entry, usize), EntryFault>
    ensures gives { Gives (λ x. x) result (entry_of form bytes.now) }
    ensures printable { IfOk result (λ x. IsPrintableEntry x.0) }
    ensures spelled { IfOk result (λ x. take x.1 bytes.now ≡ entry_spelling form x.0) }
    ensures within { IfOk result (λ x. (0 < x.1) × (x.1 ≤ length bytes.now)) }
{
    match entry_at(alloc, form, bytes) {
        Ok((entry, rest)) => Ok((entry, bytes.len() - rest.len())),
        Err(fault) => Err(fault),
    }
}

/// The entry at the front, and the bytes behind it.
pub(crate) fn entry_at(
    alloc: Global,
    form: Form,
    bytes: &[u8],
) -> Result<(Entry, &[u8]), EntryFault>
    ensures gives { Gives (λ x. (x.0, x.1.now)) result (entry_at form bytes.now) }
    ensures printable { IfOk result (λ x. IsPrintableEntry x.0) }
    ensures spelled { IfOk result (λ x. bytes.now ≡ entry_spelling form x.0 ++ x.1.now) }
{
    parts_at(alloc, form, bytes)
}

#[tactic(auto, unfolding(crate::specs::Entries::entry_at))]
fn parts_at(alloc: Global, form: Form, bytes: &[u8]) -> Result<(Entry, &[u8]), EntryFault>
    ensures gives { Gives (λ x. (x.0, x.1.now)) result (entry_at form bytes.now) }
    ensures printable { IfOk result (λ x. IsPrintableEntry x.0) }
{
    let Some((tag, rest)) = bytes.split_first() else {
        return Err(EntryFault::NotAnEntry);
    };
    let (second, rest) = match second_at(rest) {
        Ok(found) => found,
        Err(fault) => return Err(fault),
    };
    match input_at(alloc, form, *tag, rest) {
        Ok((input, rest)) => Ok((Entry { second, input }, rest)),
        Err(fault) => Err(fault),
    }
}

#[tactic(auto, unfolding(crate::specs::Entries::input_at))]
fn input_at(alloc: Global, form: Form, tag: u8, bytes: &[u8]) -> Result<(Input, &[u8]), EntryFault>
    ensures gives { Gives (λ x. (x.0, x.1.now)) result (input_at form tag bytes.now) }
    ensures printable { IfOk result (λ x. IsPrintableInput x.0) }
{
    match tag {
        1 => ask_at(alloc, form, bytes),
        2 => got_at(alloc, form, bytes),
        3 => work_at(bytes),
        4 => Ok((Input::Tick, bytes)),
        5 => force_at(bytes),
        6 => acked_at(alloc, form, bytes),
        _ => Err(EntryFault::NotAnEntry),
    }
}

fn ask_in(alloc: Global, text: &[u8]) -> Result<Ask, EntryFault>
    ensures gives { Gives (λ a. a) result (ask_of text.now) }
    ensures printable { IfOk result IsPrintableAsk }
{
    match read_ask(alloc, text) {
        Ok(ask) => Ok(ask),
        Err(AskTextFault::NotAnAsk) => Err(EntryFault::NotAnEntry),
        Err(AskTextFault::NoMemory) => Err(EntryFault::NoMemory),
    }
}

#[tactic(auto, unfolding(crate::specs::Entries::held_ask_in))]
fn held_ask_in(alloc: Global, form: Form, text: &[u8]) -> Result<Ask, EntryFault>
    ensures gives { Gives (λ a. a) result (held_ask_in form text.now) }
    ensures printable { IfOk result IsPrintableAsk }
{
    let ask = ask_in(alloc, text)?;
    if form.holds_ask(&ask) {
        Ok(ask)
    } else {
        Err(EntryFault::NotAnEntry)
    }
}

#[tactic(auto, unfolding(crate::specs::Entries::ask_at))]
fn ask_at(alloc: Global, form: Form, bytes: &[u8]) -> Result<(Input, &[u8]), EntryFault>
    ensures gives { Gives (λ x. (x.0, x.1.now)) result (ask_at form bytes.now) }
    ensures printable { IfOk result (λ x. IsPrintableInput x.0) }
{
    let (number, rest) = u32_at(bytes)?;
    let (text, rest) = text_at(rest)?;
    let ask = held_ask_in(alloc, form, text)?;
    Ok((Input::Ask { number, ask }, rest))
}

#[tactic(auto, unfolding(crate::specs::Entries::got_at))]
fn got_at(alloc: Global, form: Form, bytes: &[u8]) -> Result<(Input, &[u8]), EntryFault>
    ensures gives { Gives (λ x. (x.0, x.1.now)) result (got_at form bytes.now) }
    ensures printable { IfOk result (λ x. IsPrintableInput x.0) }
{
    let (text, rest) = text_at(bytes)?;
    let message = message_in(alloc, form, text)?;
    Ok((Input::Got(message), rest))
}

fn machine_of(b: u8) -> Option<Machine>
    ensures { result ≡ machine_of b }
{
    match b {
        0 => Some(Machine::Reserve),
        1 => Some(Machine::Provision),
        2 => Some(Machine::Lifecycle),
        _ => None,
    }
}

#[tactic(auto, unfolding(crate::specs::Entries::machine_at))]
fn machine_at(bytes: &[u8]) -> Result<(Machine, &[u8]), EntryFault>
    ensures { Gives (λ x. (x.0, x.1.now)) result (machine_at bytes.now) }
{
    let Some((b, rest)) = bytes.split_first() else {
        return Err(EntryFault::NotAnEntry);
    };
    match machine_of(*b) {
        Some(machine) => Ok((machine, rest)),
        None => Err(EntryFault::NotAnEntry),
    }
}

#[tactic(auto, unfolding(crate::specs::Entries::work_at))]
fn work_at(bytes: &[u8]) -> Result<(Input, &[u8]), EntryFault>
    ensures gives { Gives (λ x. (x.0, x.1.now)) result (work_at bytes.now) }
    ensures printable { IfOk result (λ x. IsPrintableInput x.0) }
{
    let (number, rest) = match record_at(bytes) {
        Ok(found) => found,
        Err(fault) => return Err(fault),
    };
    let (machine, rest) = machine_at(rest)?;
    Ok((Input::Work { number, machine }, rest))
}

#[tactic(auto, unfolding(crate::specs::Entries::force_at))]
fn force_at(bytes: &[u8]) -> Result<(Input, &[u8]), EntryFault>
    ensures gives { Gives (λ x. (x.0, x.1.now)) result (force_at bytes.now) }
    ensures printable { IfOk result (λ x. IsPrintableInput x.0) }
{
    match record_at(bytes) {
        Ok((number, rest)) => Ok((Input::Force { number }, rest)),
        Err(fault) => Err(fault),
    }
}

#[tactic(auto, unfolding(crate::specs::Entries::acked_at))]
fn acked_at(alloc: Global, form: Form, bytes: &[u8]) -> Result<(Input, &[u8]), EntryFault>
    ensures gives { Gives (λ x. (x.0, x.1.now)) result (acked_at form bytes.now) }
    ensures printable { IfOk result (λ x. IsPrintableInput x.0) }
{
    let (text, rest) = text_at(bytes)?;
    let identity = ack_in(alloc, form, text)?;
    Ok((Input::Acked(identity), rest))
}
