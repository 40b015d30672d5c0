//! Where journals are read again.

ghost use Rattle.std.specs.Prelude.{◌≡◌, ◌≤◌, List, ℕ, Bool, true, false, length, Ok, Err, IfOk, IfErr, OnOk, OnErr};
ghost use Rattle.std.specs.List.{All};
ghost use Rattle.nsi_primitive.specs.Printable.{IsPrintableEntry};
ghost use Rattle.nsi_disk.specs.ShelfCounts.{Raised, RaisedFrom};
ghost use Rattle.journal_entry.specs.Payloads.{batch_of};
ghost use Rattle.journal_entry.specs.Journals.{recovers};
ghost use Rattle.disk_journal.specs.StartOf.{Keeps, KeepsCounts};
ghost use Rattle.agent_node.specs.Kept.{HasSynced};
ghost use Rattle.agent_node.specs.Tries.{HasTryCause};
ghost use Rattle.agent_node.specs.Reopening.{MayRead, KeepsRead, HasStopped, HasReopenCause};

use disk_journal::{DiskJournal, StartCause};
use journal_entry::Journal;
use nsi_base::Name;
use nsi_disk::{Disk, Shelf, ShelfError};
use nsi_primitive::Entry;
use std::alloc::Global;

/// Why a journal wasn't read again.
#[derive(Clone, Copy, Debug, PartialEq, Eq)]
pub enum ReopenFault {
    /// Its disk was given back.
    GivenBack(StartCause),
    /// The shelf didn't give its disk again, which is lost.
    Lost(ShelfError),
}

/// A journal that was read again.
#[derive(Drop)]
pub struct Reread<J> {
    pub journal: J,
    pub entries: Vec<Entry>,
    /// At how many tries before this one its disk stopped.
    pub tries: u64,
}

/// Where journals of this kind are read again after a crash.
pub trait Reopen<J: Journal> {
    /// The names under which journals may be taken back.
    ghost listed: { Self → List ℕ → Bool };

    /// How often calls failed.
    ghost faults: { Self → ℕ };

    /// How often disks stopped.
    ghost stops: { Self → ℕ };

    /// The journal after a crash now, and its entries. Where its disk stops before it is read, that is tried again, until no stop is
    /// left. The stops of one that isn't read are counted here.
    fn reopen(&mut self, alloc: Global, name: &Name, journal: J) -> Result<Reread<J>, ReopenFault>
        requires { listed self.old name.now ≡ true }
        ensures ready { IfOk result (λ r. J.is_ready r.journal) }
        ensures none { IfOk result (λ r. J.waits r.journal ≡ false) }
        ensures read { IfOk result
            (λ r. MayRead J.reading (Ok r.entries.items) (J.history journal)) }
        ensures kept { IfOk result
            (λ r. KeepsRead r.entries.items (J.kept journal) (J.kept r.journal)) }
        ensures counted { IfOk result
            (λ r. HasSynced (length r.entries.items) (J.kept r.journal)) }
        ensures printable { IfOk result (λ r. All IsPrintableEntry r.entries.items) }
        ensures quiet { IfOk result
            (λ r. HasStopped r.tries (J.meter journal) (J.meter r.journal)) }
        ensures same_faults { OnOk result (faults self.new ≡ faults self.old) }
        ensures same_stops { OnOk result (stops self.new ≡ stops self.old) }
        ensures cause { IfErr result (HasReopenCause (faults self.old) (faults self.new)
            (λ place. MayRead J.reading (Err place) (J.history journal))) }
        ensures faults { faults self.old ≤ faults self.new }
        ensures stops { stops self.old ≤ stops self.new }
        ensures lost { OnErr result
            (RaisedFrom (stops self.old) (J.meter journal).stops (stops self.new)) }
        ensures stays { (n : List ℕ) → listed self.old n ≡ true → listed self.new n ≡ true };

    /// Takes a journal back that isn't used any more. Its counts grow by those of the disk.
    fn take_back(&mut self, name: &Name, journal: J)
        requires { listed self.old name.now ≡ true }
        ensures faults { Raised (faults self.old) (J.meter journal).faults (faults self.new) }
        ensures stops { Raised (stops self.old) (J.meter journal).stops (stops self.new) }
        ensures stays { (n : List ℕ) → listed self.old n ≡ true → listed self.new n ≡ true };
}

/// Why a disk wasn't read at one try.
#[derive(Drop)]
enum TryFault<D> {
    /// It has stopped.
    Stopped(D),
    Refused(ReopenFault),
}

/// The journal of a disk after a crash now, and its entries, where the disk doesn't stop before it is read.
fn try_reading<H: Shelf>(
    alloc: Global,
    shelf: &mut H,
    name: &Name,
    disk: H::Disk,
) -> Result<(DiskJournal<H::Disk>, Vec<Entry>), TryFault<H::Disk>>
where
    H::Disk: Drop,
    requires { H.listed shelf.old name.now ≡ true }
    ensures ready { IfOk result (λ r. ⟦<DiskJournal<H::Disk> as Journal>⟧.is_ready r.0) }
    ensures none { IfOk result (λ r. ⟦<DiskJournal<H::Disk> as Journal>⟧.waits r.0 ≡ false) }
    ensures read { IfOk result
        (λ r. MayRead (recovers batch_of) (Ok r.1.items) (H.Disk.history disk)) }
    ensures kept { IfOk result (λ r.
        Keeps r.1.items (H.Disk.history disk) (⟦<DiskJournal<H::Disk> as Journal>⟧.kept r.0)) }
    ensures counted { IfOk result (λ r.
        HasSynced (length r.1.items) (⟦<DiskJournal<H::Disk> as Journal>⟧.kept r.0)) }
    ensures printable { IfOk result (λ r. All IsPrintableEntry r.1.items) }
    ensures quiet { IfOk result (λ r.
        KeepsCounts (H.Disk.meter disk) (⟦<DiskJournal<H::Disk> as Journal>⟧.meter r.0)) }
    ensures same_faults { OnOk result (H.faults shelf.new ≡ H.faults shelf.old) }
    ensures same_stops { OnOk result (H.stops shelf.new ≡ H.stops shelf.old) }
    ensures cause { IfErr result (HasTryCause (recovers batch_of)
        (H.Disk.history disk) (H.Disk.meter disk) (λ d. H.Disk.history d) (λ d. H.Disk.meter d)
        (H.faults shelf.old) (H.faults shelf.new) (H.stops shelf.old) (H.stops shelf.new)) }
    ensures faults { H.faults shelf.old ≤ H.faults shelf.new }
    ensures stops { H.stops shelf.old ≤ H.stops shelf.new }
    ensures stays { (n : List ℕ) → H.listed shelf.old n ≡ true → H.listed shelf.new n ≡ true }
{
    match shelf.fetch_again(alloc, name, disk) {
        Ok(disk) => match DiskJournal::start(alloc, disk) {
            Ok(read) => Ok(read),
            Err(fault) => match fault.cause {
                StartCause::Stopped => Err(TryFault::Stopped(fault.disk)),
                cause => {
                    shelf.give_back(name, fault.disk);
                    Err(TryFault::Refused(ReopenFault::GivenBack(cause)))
                }
            },
        },
        Err(error) => Err(TryFault::Refused(ReopenFault::Lost(error))),
    }
}

impl<H: Shelf> Reopen<DiskJournal<H::Disk>> for H
where
    H::Disk: Drop,
{
    ghost listed = { λ s n. H.listed s n };

    ghost faults = { λ s. H.faults s };

    ghost stops = { λ s. H.stops s };

    fn reopen(
        &mut self,
        alloc: Global,
        name: &Name,
        journal: DiskJournal<H::Disk>,
    ) -> Result<Reread<DiskJournal<H::Disk>>, ReopenFault> {
        let mut disk = journal.into_disk();
        let mut tries: u64 = 0;
        loop {
            match try_reading(alloc, self, name, disk) {
                Ok((journal, entries)) => {
                    return Ok(Reread {
                        journal,
                        entries,
                        tries,
                    });
                }
                Err(TryFault::Stopped(stopped)) => {
                    disk = stopped;
                    tries = tries.saturating_add(1);
                }
                Err(TryFault::Refused(fault)) => return Err(fault),
            }
        }
    }

    fn take_back(&mut self, name: &Name, journal: DiskJournal<H::Disk>) {
        let disk = journal.into_disk();
        self.give_back(name, disk);
    }
}
