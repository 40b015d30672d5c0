//! A file of batches: a gate, the length of the payload and the payload; behind the last one a closed gate.

ghost use Rattle.std.specs.Prelude.{◌≡◌, ◌≤◌, ◌<◌, ◌^◌, ◌+◌, false, List, ℕ, Option, None, length, IfSome, IfOk, OnOk, OnErr, IsErrOf};
ghost use Rattle.journal_entry.specs.Journal.{HasSameCounts};
ghost use Rattle.disk_journal.specs.Batches.{Settled, Waits, Grew, Held, Told, Means, MeansOneOf, Crashes, HasSyncRoom, HasCauses, payloads, waiting, framed};

use nsi_disk::{Disk, DiskError};
use std::alloc::{AllocError, Global};

/// A disk that has batches, and where the next one goes.
#[derive(Drop)]
pub struct BatchFile<D: Disk> {
    pub disk: D,
    /// The place of the closed gate behind the synced batches, in bytes.
    pub gate: u64,
    /// The place of the one behind the waiting batch; the same where none waits.
    pub next: u64,
    /// The disk isn't longer, in bytes.
    pub longest: u64,
}

impl<D: Disk> BatchFile<D> {
    /// Writes a batch behind the closed gate, after it has made room for this and for `settle`.
    pub fn hold(&mut self, alloc: Global, payload: &[u8]) -> Result<(), DiskError>
        requires settled { IfSome (D.history self.old.disk)
            (Settled self.old.gate self.old.longest) }
        requires none { self.old.next ≡ self.old.gate }
        requires runs { (D.meter self.old.disk).stopped ≡ false }
        ensures cause { HasCauses (D.meter self.old.disk) (D.meter self.new.disk) result }
        ensures untold { D.history self.old.disk ≡ None → D.history self.new.disk ≡ None }
        ensures same { IsErrOf result DiskError.NoMemory →
            D.history self.new.disk ≡ D.history self.old.disk }
        ensures places { IsErrOf result DiskError.NoMemory →
            (self.new.next ≡ self.old.next) × (self.new.longest ≡ self.old.longest) }
        ensures runs { IsErrOf result DiskError.NoMemory → (D.meter self.new.disk).stopped ≡ false }
        ensures counts { IsErrOf result DiskError.NoMemory →
            HasSameCounts (D.meter self.old.disk) (D.meter self.new.disk) }
        ensures gate { self.new.gate ≡ self.old.gate }
        ensures next { OnOk result (self.old.gate < self.new.next) }
        ensures held { OnOk result
            (Told (D.history self.old.disk) (D.history self.new.disk)
            (Held payload.now self.new.gate self.new.next self.new.longest)) }
        ensures room { OnOk result
            (HasSyncRoom (D.meter self.new.disk) self.new.gate self.new.longest) }
        ensures any_moment { Crashes (D.history self.old.disk) (D.history self.new.disk)
            (λ h. Means (payloads h)) }
    {
        let piece = frame(alloc, payload)?;
        let next = self.gate.checked_add(piece.len() as u64).ok_or(AllocError)?;
        let end = next.checked_add(1).ok_or(AllocError)?;
        let longest = if end > self.longest {
            end
        } else {
            self.longest
        };
        self.disk.make_room(4, longest, piece.len() as u64 + 1)?;
        self.disk.write_at(self.gate + 1, &piece)?;
        self.next = next;
        self.longest = longest;
        Ok(())
    }

    /// Makes the waiting batch durable: it is synced, then its gate is opened, and that is synced.
    pub fn settle(&mut self) -> Result<(), DiskError>
        requires waits { self.old.gate < self.old.next →
            IfSome (D.history self.old.disk) (Waits self.old.gate self.old.next self.old.longest) }
        requires none { self.old.gate ≤ self.old.next }
        requires runs { (D.meter self.old.disk).stopped ≡ false }
        ensures cause { HasCauses (D.meter self.old.disk) (D.meter self.new.disk) result }
        ensures untold { D.history self.old.disk ≡ None → D.history self.new.disk ≡ None }
        ensures next { OnOk result (self.new.next ≡ self.old.next) }
        ensures fits { self.old.next < 2 ^ 64 }
        ensures errs { OnErr result (self.old.gate < self.old.next) }
        ensures idle { OnOk result (self.old.next ≡ self.old.gate →
            (D.history self.new.disk ≡ D.history self.old.disk)
            × (self.new.longest ≡ self.old.longest)) }
        ensures synced { OnOk result (self.old.gate < self.old.next →
            Told (D.history self.old.disk) (D.history self.new.disk)
            (λ h. Grew (waiting self.old.gate self.old.next h) self.new.gate self.new.longest h)) }
        ensures settled { OnOk result (self.new.gate ≡ self.old.next) }
        ensures any_moment { self.old.gate < self.old.next →
            Crashes (D.history self.old.disk) (D.history self.new.disk)
            (λ h. MeansOneOf (payloads h) (waiting self.old.gate self.old.next h)) }
        ensures room { self.old.gate < self.old.next →
            HasSyncRoom (D.meter self.old.disk) self.old.gate self.old.longest →
            IsErrOf result DiskError.NoMemory → ⊥ }
    {
        if self.next == self.gate {
            return Ok(());
        }
        self.disk.sync()?; // the batch stands
        self.disk.write_at(self.gate, &[1])?;
        self.disk.sync()?; // its gate is open
        self.gate = self.next;
        Ok(())
    }
}

// The length, the payload and a closed gate.
fn frame(alloc: Global, payload: &[u8]) -> Result<Vec<u8>, AllocError>
    ensures framed { IfOk result (λ piece. piece.items ≡ framed payload.now) }
{
    let mut piece = Vec::with_capacity(alloc, payload.len() + 9)?;
    piece.extend_from_slice(&(payload.len() as u64).to_be_bytes())?;
    piece.extend_from_slice(payload)?;
    piece.push(0)?;
    Ok(piece)
}
