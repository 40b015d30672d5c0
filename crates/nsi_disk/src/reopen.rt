//! What a disk in memory reads after a crash.

ghost use Rattle.std.specs.Prelude.{◌≡◌, ◌+◌, ◌-◌, ◌++◌, ◌∷◌, [], List, IfOk};
ghost use Rattle.nsi_disk.specs.declared.content.Past.{Past as PastCall};
ghost use Rattle.nsi_disk.specs.Again.{blot, blotted};
ghost use Rattle.nsi_disk.specs.Images.{old_image, torn_image, image_of, shows};
ghost use Rattle.nsi_disk.specs.Memory.{told, told_by, before_write, made_by};

use crate::content::{Content, Past};
use crate::plan::Image;
use std::alloc::{AllocError, Global};

/// What was there before a write over these bytes.
fn before_write(
    alloc: Global,
    now: &[u8],
    place: u64,
    count: u64,
    over: &[u8],
) -> Result<Vec<u8>, AllocError>
    ensures { IfOk result (λ v. v.items ≡ before_write place count over.now now.now) }
{
    let front = (place as usize).min(now.len());
    let end = place.saturating_add(count).min(now.len() as u64) as usize;
    let (head, _) = now.split_at(front);
    let (_, tail) = now.split_at(end);
    let mut old = Vec::new(alloc);
    old.extend_from_slice(head)?;
    old.extend_from_slice(over)?;
    old.extend_from_slice(tail)?;
    Ok(old)
}

/// Takes back the newest call, with the bytes that were saved for it.
fn undo(
    alloc: Global,
    bytes: Vec<u8>,
    saved: &mut Vec<u8>,
    past: Past,
) -> Result<Vec<u8>, AllocError>
    ensures { IfOk result (λ v. (log : List PastCall)
        → told (log ++ past ∷ []) saved.old.items bytes.items
        ≡ made_by past bytes.items (told log saved.new.items v.items)) }
{
    match past {
        Past::Write { place, count, over } => {
            let kept = saved.len() - (over as usize).min(saved.len());
            let (_, was) = saved.split_at(kept);
            let before = before_write(alloc, &bytes, place, count, was)?;
            saved.truncate(kept);
            Ok(before)
        }
        Past::Cut { count: _, over } => {
            let mut bytes = bytes;
            let kept = saved.len() - (over as usize).min(saved.len());
            let (_, was) = saved.split_at(kept);
            bytes.extend_from_slice(was)?;
            saved.truncate(kept);
            Ok(bytes)
        }
        Past::Sync => Ok(bytes),
        Past::Pause => Ok(bytes),
    }
}

/// What it read at its last sync, and the calls since, the newest first.
fn since_sync(alloc: Global, content: Content) -> Result<(Vec<u8>, Vec<Past>), AllocError>
    ensures synced { IfOk result (λ r. r.0.items ≡ old_image (told_by content)) }
    ensures torn { IfOk result (λ r. blotted r.1.items r.0.items ≡ torn_image (told_by content)) }
{
    let Content {
        mut bytes,
        mut log,
        mut saved,
    } = content;
    let mut calls = Vec::new(alloc);
    while let Some(past) = log.pop() {
        if past.is_sync() {
            return Ok((bytes, calls));
        }
        bytes = undo(alloc, bytes, &mut saved, past)?;
        calls.push(past)?;
    }
    Ok((bytes, calls))
}

/// A call done again, with each of its bytes torn.
fn blot(alloc: Global, bytes: Vec<u8>, past: Past) -> Result<Vec<u8>, AllocError>
    ensures { IfOk result (λ v. v.items ≡ blot past bytes.items) }
{
    match past {
        Past::Write {
            place,
            count,
            over: _,
        } => {
            let torn = vec![in alloc; 0xA5u8; count as usize]?;
            before_write(alloc, &bytes, place, count, &torn)
        }
        Past::Cut { count, over: _ } => {
            let mut bytes = bytes;
            bytes.truncate(count as usize);
            Ok(bytes)
        }
        Past::Sync => Ok(bytes),
        Past::Pause => Ok(bytes),
    }
}

/// These calls done again, the last of the list first.
fn blotted(alloc: Global, bytes: Vec<u8>, calls: Vec<Past>) -> Result<Vec<u8>, AllocError>
    ensures { IfOk result (λ v. v.items ≡ blotted calls.items bytes.items) }
{
    let mut bytes = bytes;
    let mut calls = calls;
    while let Some(past) = calls.pop() {
        bytes = blot(alloc, bytes, past)?;
    }
    Ok(bytes)
}

/// What a crash now leaves, where the disk was stopped with this image, or wasn't.
pub fn left(alloc: Global, image: Option<Image>, content: Content) -> Result<Vec<u8>, AllocError>
    ensures { IfOk result (λ v. v.items ≡ shows image (told_by content)) }
{
    match image {
        None => Ok(content.into_bytes()),
        Some(image) => stopped(alloc, image, content),
    }
}

fn stopped(alloc: Global, image: Image, content: Content) -> Result<Vec<u8>, AllocError>
    ensures { IfOk result (λ v. v.items ≡ image_of image (told_by content)) }
{
    match image {
        Image::New => Ok(content.into_bytes()),
        Image::Old => {
            let (bytes, _) = since_sync(alloc, content)?;
            Ok(bytes)
        }
        Image::Torn => {
            let (bytes, calls) = since_sync(alloc, content)?;
            blotted(alloc, bytes, calls)
        }
    }
}
