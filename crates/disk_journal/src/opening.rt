//! A journal is read from a disk, or begun on it.

ghost use Rattle.std.specs.Prelude.{◌≡◌, ◌≤◌, ◌<◌, ◌^◌, List, ℕ, Option, length, IfSome, IfOk, IfErr, OnOk, All, Some, None, Ok, [], false};
ghost use Rattle.nsi_primitive.specs.Printable.{IsPrintableEntry};
ghost use Rattle.nsi_disk.specs.Disk.{seen, Synced};
ghost use Rattle.journal_entry.specs.Payloads.{batch_of};
ghost use Rattle.journal_entry.specs.Journals.{recovers};
ghost use Rattle.disk_journal.specs.Batches.{Told, Crashes, HasCauses};
ghost use Rattle.disk_journal.specs.StartOf.{StartsFor, KeepsCounts, StaysTold};
ghost use Rattle.disk_journal.specs.Opening.{AsBefore, AsRead, Rests, IsEmptied, Opened};

use crate::reading::{Batches, ReadFault, read_batches};
use nsi_disk::{Disk, DiskError};
use nsi_primitive::Entry;
use std::alloc::Global;

/// Why a journal was not begun.
#[derive(Clone, Copy, Debug, PartialEq, Eq)]
pub enum StartCause {
    /// A call of the disk failed.
    DiskFault,
    /// The disk stopped.
    Stopped,
    /// The bytes of the disk are no journal: the first bad gate, or the gate of the first bad batch, stands at this place.
    NotAJournal { place: u64 },
    NoMemory,
}

impl From<DiskError> for StartCause {
    ghost use Rattle.disk_journal.specs.StartOf.{cause_of};
    ghost use Rattle.std.specs.Prelude.{◌≡◌};

    ghost from_gives = { λ e r. r ≡ cause_of e };

    fn from(error: DiskError) -> Self {
        match error {
            DiskError::Failed => StartCause::DiskFault,
            DiskError::Stopped => StartCause::Stopped,
            DiskError::NoMemory => StartCause::NoMemory,
        }
    }
}

/// The whole disk, after a sync.
fn read_all<D: Disk>(alloc: Global, disk: &mut D) -> Result<Vec<u8>, DiskError>
    requires runs { (D.meter disk.old).stopped ≡ false }
    ensures read { IfOk result (λ bytes. IfSome (D.history disk.old)
        (λ h. (D.history disk.new ≡ Some (Synced h)) × (bytes.items ≡ seen h))) }
    ensures untold { D.history disk.old ≡ None → D.history disk.new ≡ None }
    ensures any_moment { Crashes (D.history disk.old) (D.history disk.new) AsRead }
    ensures cause { HasCauses (D.meter disk.old) (D.meter disk.new) result }
{
    disk.sync()?;
    let length = disk.length()?;
    let mut bytes = vec![in alloc; 0u8; length as usize]?;
    disk.read_at(0, &mut bytes)?;
    Ok(bytes)
}

/// A closed gate at the front of a short file.
fn close<D: Disk>(disk: &mut D) -> Result<(), DiskError>
    requires runs { (D.meter disk.old).stopped ≡ false }
    requires short { IfSome (D.history disk.old) (λ h. length (seen h) < 9) }
    requires rests { IfSome (D.history disk.old) Rests }
    ensures untold { D.history disk.old ≡ None → D.history disk.new ≡ None }
    ensures closed { OnOk result (Told (D.history disk.old) (D.history disk.new) IsEmptied) }
    ensures any_moment { Crashes (D.history disk.old) (D.history disk.new)
        (λ h c. recovers batch_of c ≡ Ok []) }
    ensures cause { HasCauses (D.meter disk.old) (D.meter disk.new) result }
{
    disk.write_at(0, &[0])?;
    disk.sync()?;
    Ok(())
}

/// What was read of a journal, and the places of its closed gate and of its end, in bytes.
#[derive(Drop)]
pub struct Opening {
    pub gate: u64,
    pub longest: u64,
    pub entries: Vec<Entry>,
}

/// Reads the journal of a disk. A file shorter than a batch is an empty one, and gets a closed gate.
pub fn open<D: Disk>(alloc: Global, disk: &mut D) -> Result<Opening, StartCause>
    requires runs { (D.meter disk.old).stopped ≡ false }
    ensures untold { D.history disk.old ≡ None → D.history disk.new ≡ None }
    ensures opened { IfOk result
        (λ o. Told (D.history disk.old) (D.history disk.new)
        (Opened o.entries.items o.gate o.longest)) }
    ensures printable { IfOk result (λ o. All IsPrintableEntry o.entries.items) }
    ensures any_moment { Crashes (D.history disk.old) (D.history disk.new) AsBefore }
    ensures cause { IfErr result
        (StartsFor (D.meter disk.old) (D.meter disk.new) (D.history disk.old)) }
    ensures quiet { OnOk result (KeepsCounts (D.meter disk.old) (D.meter disk.new)) }
    ensures runs { OnOk result ((D.meter disk.new).stopped ≡ false) }
{
    let bytes = read_all(alloc, disk)?;
    if bytes.len() < 9 {
        close(disk)?;
        return Ok(Opening {
            gate: 0,
            longest: 9,
            entries: Vec::new(alloc),
        });
    }
    match read_batches(alloc, &bytes) {
        Ok(batches) => {
            let Batches { gate, entries } = batches;
            Ok(Opening {
                gate,
                longest: bytes.len() as u64,
                entries,
            })
        }
        Err(ReadFault::NotAJournal(place)) => Err(StartCause::NotAJournal { place }),
        Err(ReadFault::NoMemory) => Err(StartCause::NoMemory),
    }
}

/// Empties the disk, and begins a journal on it.
pub fn empty<D: Disk>(disk: &mut D) -> Result<(), DiskError>
    requires runs { (D.meter disk.old).stopped ≡ false }
    ensures untold { D.history disk.old ≡ None → D.history disk.new ≡ None }
    ensures told { StaysTold (D.history disk.old) (D.history disk.new) }
    ensures closed { OnOk result (Told (D.history disk.old) (D.history disk.new) IsEmptied) }
    ensures cause { HasCauses (D.meter disk.old) (D.meter disk.new) result }
{
    disk.cut(0)?;
    disk.sync()?;
    close(disk)
}
