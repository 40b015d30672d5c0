//! From the bytes of payloads, the byte of a form and whole entries, to these.

ghost use Rattle.std.specs.Prelude.{length, All, IfOk};
ghost use Rattle.nsi_primitive.specs.Printable.{IsPrintableEntry};
ghost use Rattle.journal_entry.specs.Faults.{GivesAll};
ghost use Rattle.journal_entry.specs.Payloads.{entries_in, payload_of, IsSpelledPayload, batch_of};

use crate::fault::{EntryFault, PayloadFault};
use crate::form::Form;
use crate::reading::entry_at;
use nsi_primitive::Entry;
use std::alloc::Global;

/// Reads the entries of a payload of either form, which may have none.
pub fn read_payload(alloc: Global, bytes: &[u8]) -> Result<Vec<Entry>, PayloadFault>
    ensures gives { GivesAll (λ v. v.items) result (payload_of bytes.now) }
    ensures printable { IfOk result (λ v. All IsPrintableEntry v.items) }
    ensures spelled { IfOk result (λ v. IsSpelledPayload bytes.now v.items) }
{
    payload_of(alloc, bytes)
}

/// Reads the entries of a batch of a journal: a payload that has one entry at least.
pub fn read_batch(alloc: Global, bytes: &[u8]) -> Result<Vec<Entry>, PayloadFault>
    ensures gives { GivesAll (λ v. v.items) result (batch_of bytes.now) }
    ensures printable { IfOk result (λ v. All IsPrintableEntry v.items) }
    ensures spelled { IfOk result (λ v. IsSpelledPayload bytes.now v.items) }
{
    let entries = read_payload(alloc, bytes)?;
    if entries.is_empty() {
        return Err(PayloadFault::NotAPayload);
    }
    Ok(entries)
}

#[tactic(auto, unfolding(crate::specs::Payloads::payload_of))]
fn payload_of(alloc: Global, bytes: &[u8]) -> Result<Vec<Entry>, PayloadFault>
    ensures gives { GivesAll (λ v. v.items) result (payload_of bytes.now) }
    ensures printable { IfOk result (λ v. All IsPrintableEntry v.items) }
{
    let Some((byte, rest)) = bytes.split_first() else {
        return Err(PayloadFault::NotAPayload);
    };
    match Form::of_byte(*byte) {
        Some(form) => entries_in(alloc, form, rest),
        None => Err(PayloadFault::NotAPayload),
    }
}

fn entries_in(alloc: Global, form: Form, bytes: &[u8]) -> Result<Vec<Entry>, PayloadFault>
    ensures gives { GivesAll (λ v. v.items) result
        (entries_in form (length bytes.now) bytes.now) }
    ensures printable { IfOk result (λ v. All IsPrintableEntry v.items) }
{
    let mut entries = Vec::new(alloc);
    let mut rest = bytes;
    'entries: while !rest.is_empty() {
        match entry_at(alloc, form, rest) {
            Ok((entry, behind)) => {
                entries.push(entry)?;
                rest = behind;
            }
            Err(EntryFault::NotAnEntry) => return Err(PayloadFault::NotAPayload),
            Err(EntryFault::NoMemory) => return Err(PayloadFault::NoMemory),
        }
    }
    Ok(entries)
}
