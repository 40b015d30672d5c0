//! A journal of entries on a disk.

ghost use Rattle.std.specs.Prelude.{◌≡◌, List, ℕ, IfOk, IfErr, IfSome, OnOk, Some, None, Ok, [], false, All};
ghost use Rattle.nsi_primitive.specs.Printable.{IsPrintableEntry};
ghost use Rattle.nsi_disk.specs.Disk.{seen};
ghost use Rattle.journal_entry.specs.Payloads.{batch_of};
ghost use Rattle.journal_entry.specs.Journals.{recovers};
ghost use Rattle.disk_journal.specs.Batches.{Crashes};
ghost use Rattle.disk_journal.specs.Opening.{AsBefore};
ghost use Rattle.disk_journal.specs.StartOf.{StartsFor, KeepsCounts, Keeps, LeavesNow, ReadsAsJournal, ReadsNothing, StaysTold};

use crate::batches::BatchFile;
use crate::opening::{Opening, StartCause, empty, open};
use journal_entry::{Batch, Journal, JournalFault};
use nsi_disk::Disk;
use nsi_primitive::Entry;
use std::alloc::Global;

/// A journal of entries on a disk.
#[derive(Drop)]
pub struct DiskJournal<D: Disk> {
    batches: BatchFile<D>,
    /// How many entries are synced.
    count: u64,
    /// How many entries wait.
    more: u64,
}

/// Why a journal was not begun, and its disk.
#[derive(Drop)]
pub struct StartFault<D> {
    pub cause: StartCause,
    pub disk: D,
}

impl<D: Disk> DiskJournal<D> {
    /// Reads what is there: the entries of the bytes that the disk has.
    pub fn start(alloc: Global, disk: D) -> Result<(DiskJournal<D>, Vec<Entry>), StartFault<D>>
        requires runs { (D.meter disk).stopped ≡ false }
        ensures ready { IfOk result (λ r. ⟦<DiskJournal<D> as Journal>⟧.is_ready r.0) }
        ensures none { IfOk result (λ r. ⟦<DiskJournal<D> as Journal>⟧.waits r.0 ≡ false) }
        ensures entries { IfOk result (λ r. ReadsAsJournal r.1.items (D.history disk)) }
        ensures printable { IfOk result (λ r. All IsPrintableEntry r.1.items) }
        ensures kept { IfOk result
            (λ r. Keeps r.1.items (D.history disk) (⟦<DiskJournal<D> as Journal>⟧.kept r.0)) }
        ensures crashes { IfOk result
            (λ r. Crashes (D.history disk) (⟦<DiskJournal<D> as Journal>⟧.history r.0) AsBefore) }
        ensures fault_crashes { IfErr result
            (λ f. Crashes (D.history disk) (D.history f.disk) AsBefore) }
        ensures fault_left { IfErr result
            (λ f. LeavesNow (D.history disk) (D.history f.disk) AsBefore) }
        ensures cause { IfErr result
            (λ f. StartsFor (D.meter disk) (D.meter f.disk) (D.history disk) f.cause) }
        ensures quiet { IfOk result
            (λ r. KeepsCounts (D.meter disk) (⟦<DiskJournal<D> as Journal>⟧.meter r.0)) }
        ensures untold { D.history disk ≡ None →
            IfOk result (λ r. ⟦<DiskJournal<D> as Journal>⟧.history r.0 ≡ None) }
    {
        let mut disk = disk;
        match open(alloc, &mut disk) {
            Ok(opening) => {
                let Opening {
                    gate,
                    longest,
                    entries,
                } = opening;
                let batches = BatchFile {
                    disk,
                    gate,
                    next: gate,
                    longest,
                };
                let count = entries.len() as u64;
                Ok((
                    DiskJournal {
                        batches,
                        count,
                        more: 0,
                    },
                    entries,
                ))
            }
            Err(cause) => Err(StartFault { cause, disk }),
        }
    }

    /// Empties the disk first, and begins a journal without entries. A crash within it may leave anything.
    pub fn fresh(disk: D) -> Result<DiskJournal<D>, StartFault<D>>
        requires runs { (D.meter disk).stopped ≡ false }
        ensures ready { IfOk result (λ j. ⟦<DiskJournal<D> as Journal>⟧.is_ready j) }
        ensures none { IfOk result (λ j. ⟦<DiskJournal<D> as Journal>⟧.waits j ≡ false) }
        ensures kept { IfOk result
            (λ j. Keeps [] (D.history disk) (⟦<DiskJournal<D> as Journal>⟧.kept j)) }
        ensures cause { IfErr result (λ f. StartsFor (D.meter disk) (D.meter f.disk) None f.cause) }
        ensures unread { IfErr result (λ f. ReadsNothing f.cause) }
        ensures told { IfErr result (λ f. StaysTold (D.history disk) (D.history f.disk)) }
        ensures quiet { IfOk result
            (λ j. KeepsCounts (D.meter disk) (⟦<DiskJournal<D> as Journal>⟧.meter j)) }
        ensures untold { D.history disk ≡ None →
            IfOk result (λ j. ⟦<DiskJournal<D> as Journal>⟧.history j ≡ None) }
    {
        let mut disk = disk;
        match empty(&mut disk) {
            Ok(()) => {
                let batches = BatchFile {
                    disk,
                    gate: 0,
                    next: 0,
                    longest: 9,
                };
                Ok(DiskJournal {
                    batches,
                    count: 0,
                    more: 0,
                })
            }
            Err(error) => Err(StartFault {
                cause: StartCause::from(error),
                disk,
            }),
        }
    }

    /// Its disk.
    pub fn into_disk(self) -> D
        ensures history { D.history result ≡ ⟦<DiskJournal<D> as Journal>⟧.history self }
        ensures meter { D.meter result ≡ ⟦<DiskJournal<D> as Journal>⟧.meter self }
    {
        let DiskJournal {
            batches,
            count: _,
            more: _,
        } = self;
        let BatchFile {
            disk,
            gate: _,
            next: _,
            longest: _,
        } = batches;
        disk
    }
}

impl<D: Disk> Journal for DiskJournal<D> {
    ghost use Rattle.std.specs.Prelude.{nat_lt};
    ghost use Rattle.disk_journal.specs.Keeping.{kept_of, IsReady, IsCounted};
    ghost use Rattle.disk_journal.specs.Leaving.{leaves_synced as leaves, tells as told, none_waits as none, reads_kept as is_kept};

    ghost history = { λ j. D.history j.batches.disk };

    ghost meter = { λ j. D.meter j.batches.disk };

    ghost reading = { recovers batch_of };

    ghost kept = { λ j. kept_of j.batches.gate j.batches.next (D.history j.batches.disk) };

    ghost waits = { λ j. nat_lt j.batches.gate j.batches.next };

    ghost is_ready = { λ j. IsReady (D.history j.batches.disk) (D.meter j.batches.disk)
        j.batches.gate j.batches.next j.batches.longest
        × IsCounted (D.history j.batches.disk) j.batches.gate j.batches.next j.count j.more };

    ghost tells = { λ j. told j.batches.gate j.batches.next (D.history j.batches.disk) };

    ghost leaves_synced = { λ j ready.
        leaves j.batches.gate j.batches.next j.batches.longest j.count j.more
        (D.history j.batches.disk) (D.meter j.batches.disk) ready.0 ready.1 };

    ghost none_waits = { λ j waits. none j.batches.gate j.batches.next
        (D.history j.batches.disk) waits };

    ghost reads_image = { λ j. D.reads_image j.batches.disk };

    ghost reads_kept = { λ j es. is_kept j.batches.gate j.batches.next (D.history j.batches.disk) es };

    fn append(&mut self, alloc: Global, batch: &Batch) -> Result<(), JournalFault> {
        self.batches.hold(alloc, batch.payload())?;
        self.more = batch.len() as u64;
        Ok(())
    }

    fn sync(&mut self) -> Result<(), JournalFault> {
        self.batches.settle()?;
        self.count = self.count.saturating_add(self.more);
        self.more = 0;
        Ok(())
    }

    fn forget(&mut self) {
        self.batches.next = self.batches.gate;
        self.more = 0;
    }

    fn synced(&self) -> u64 {
        self.count
    }
}
