//! Numbers and texts within bytes.

ghost use Rattle.std.specs.Prelude.{◌≡◌, ◌<◌, ◌^◌, ◌++◌, length, OnOk};
ghost use Rattle.std.specs.Int.{w32, w64, to_be_bytes};
ghost use Rattle.nsi_base.specs.Range.{greatest_second, greatest_record};
ghost use Rattle.journal_entry.specs.Faults.{Gives};
ghost use Rattle.journal_entry.specs.Fields.{number_at, bounded_at, text_at, text_field};

use crate::fault::EntryFault;
use nsi_base::{RecordNo, Second};
use std::alloc::AllocError;

#[tactic(auto, unfolding(crate::specs::Fields::number_at))]
pub(crate) fn u32_at(bytes: &[u8]) -> Result<(u32, &[u8]), EntryFault>
    ensures { Gives (λ x. (x.0, x.1.now)) result (number_at w32 bytes.now) }
{
    if bytes.len() < 4 {
        return Err(EntryFault::NotAnEntry);
    }
    let (front, rest) = bytes.split_at(4);
    let number = u32::from_be_bytes([front[0], front[1], front[2], front[3]]);
    Ok((number, rest))
}

#[tactic(auto, unfolding(crate::specs::Fields::number_at))]
pub(crate) fn u64_at(bytes: &[u8]) -> Result<(u64, &[u8]), EntryFault>
    ensures { Gives (λ x. (x.0, x.1.now)) result (number_at w64 bytes.now) }
{
    if bytes.len() < 8 {
        return Err(EntryFault::NotAnEntry);
    }
    let (front, rest) = bytes.split_at(8);
    let number = u64::from_be_bytes([
        front[0], front[1], front[2], front[3], front[4], front[5], front[6], front[7],
    ]);
    Ok((number, rest))
}

#[tactic(auto, unfolding(crate::specs::Fields::bounded_at))]
pub(crate) fn second_at(bytes: &[u8]) -> Result<(Second, &[u8]), EntryFault>
    ensures { Gives (λ x. (x.0, x.1.now)) result (bounded_at w64 greatest_second bytes.now) }
{
    let (n, rest) = u64_at(bytes)?;
    match Second::new(n) {
        Some(second) => Ok((second, rest)),
        None => Err(EntryFault::NotAnEntry),
    }
}

#[tactic(auto, unfolding(crate::specs::Fields::bounded_at))]
pub(crate) fn record_at(bytes: &[u8]) -> Result<(RecordNo, &[u8]), EntryFault>
    ensures { Gives (λ x. (x.0, x.1.now)) result (bounded_at w32 greatest_record bytes.now) }
{
    let (n, rest) = u32_at(bytes)?;
    match RecordNo::new(n) {
        Some(number) => Ok((number, rest)),
        None => Err(EntryFault::NotAnEntry),
    }
}

/// The text at the front, behind its length.
#[tactic(auto, unfolding(crate::specs::Fields::text_at))]
pub(crate) fn text_at(bytes: &[u8]) -> Result<(&[u8], &[u8]), EntryFault>
    ensures { Gives (λ x. (x.0.now, x.1.now)) result (text_at bytes.now) }
{
    let (length, rest) = u64_at(bytes)?;
    if (rest.len() as u64) < length {
        return Err(EntryFault::NotAnEntry);
    }
    Ok(rest.split_at(length as usize))
}

pub(crate) fn push_u32(out: &mut Vec<u8>, n: u32) -> Result<(), AllocError>
    ensures { OnOk result (out.new.items ≡ out.old.items ++ to_be_bytes w32 n) }
{
    out.extend_from_slice(&n.to_be_bytes())?;
    Ok(())
}

pub(crate) fn push_u64(out: &mut Vec<u8>, n: u64) -> Result<(), AllocError>
    ensures { OnOk result (out.new.items ≡ out.old.items ++ to_be_bytes w64 n) }
{
    out.extend_from_slice(&n.to_be_bytes())?;
    Ok(())
}

pub(crate) fn push_text(out: &mut Vec<u8>, text: &[u8]) -> Result<(), AllocError>
    ensures put { OnOk result (out.new.items ≡ out.old.items ++ text_field text.now) }
    ensures short { length text.now < 2 ^ 64 }
{
    push_u64(out, text.len() as u64)?;
    out.extend_from_slice(text)?;
    Ok(())
}
