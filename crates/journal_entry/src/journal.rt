//! A journal of entries, as its users see it.

ghost use Rattle.std.specs.Prelude.{◌≡◌, ◌<◌, List, ℕ, Option, Result, Ok, Some, None, [], ◌++◌, Bool, false, true, IfSome, OnOk, IsErrOf, length, is_some};
ghost use Rattle.nsi_primitive.specs.declared.entry.Entry.{Entry as AnEntry};
ghost use Rattle.nsi_disk.specs.Disk.{History, Meter};
ghost use Rattle.journal_entry.specs.Journal.{Kept, HasJournalCause, HasSameCounts, Waits, Adds, AddsWaiting, LeavesSynced, LeavesWaiting, LeavesWith, MayLeaveSynced, MayLeaveWith, ReadsImage, ReadsKept, KeepsOneOf};

use crate::batch::Batch;
use nsi_disk::DiskError;
use std::alloc::{AllocError, Global};

/// Why a call of a journal failed.
#[derive(Clone, Copy, Debug, PartialEq, Eq)]
pub enum JournalFault {
    /// A call of its disk failed. The journal is only good for giving its disk back.
    DiskFault,
    /// Its disk stopped. The journal is only good for giving its disk back.
    Stopped,
    /// Nothing has changed.
    NoMemory,
}

impl From<DiskError> for JournalFault {
    ghost use Rattle.journal_entry.specs.Journal.{fault_of};
    ghost use Rattle.std.specs.Prelude.{◌≡◌};

    ghost from_gives = { λ e r. r ≡ fault_of e };

    fn from(error: DiskError) -> Self {
        match error {
            DiskError::Failed => JournalFault::DiskFault,
            DiskError::Stopped => JournalFault::Stopped,
            DiskError::NoMemory => JournalFault::NoMemory,
        }
    }
}

impl From<AllocError> for JournalFault {
    ghost use Rattle.journal_entry.specs.declared.journal.JournalFault.TheVariants.{NoMemory};
    ghost use Rattle.std.specs.Prelude.{◌≡◌};

    ghost from_gives = { λ _ e. e ≡ NoMemory };

    fn from(_: AllocError) -> Self {
        JournalFault::NoMemory
    }
}

/// Entries on a disk, batch by batch. A batch that is appended waits until it is synced: a crash leaves the synced
/// entries, followed by the waiting batch whole or not at all.
pub trait Journal {
    ghost use Rattle.journal_entry.specs.declared.journal.JournalFault.TheVariants.{NoMemory as NoRoom};

    /// What its disk has been through, where that is told.
    ghost history: { Self → Option History };

    /// The counts of its disk.
    ghost meter: { Self → Meter };

    /// The entries of a disk's bytes, or the place of the gate without a reading.
    ghost reading: { List ℕ → Result (List AnEntry) ℕ };

    /// What it keeps, where its disk tells.
    ghost kept: { Self → Option Kept };

    /// Whether a batch waits.
    ghost waits: { Self → Bool };

    /// It may be used: no call has failed but for want of memory.
    ghost is_ready: { Self → Type 0 };

    /// Writes a batch, which waits then. It takes the memory of the next `sync` too.
    fn append(&mut self, alloc: Global, batch: &Batch) -> Result<(), JournalFault>
        requires ready { is_ready self.old }
        requires none { waits self.old ≡ false }
        requires some { 0 < length batch.now }
        ensures ready { OnOk result (is_ready self.new) }
        ensures held { OnOk result (Waits batch.now (kept self.old) (kept self.new)) }
        ensures any_moment { LeavesSynced reading (kept self.old) (history self.old)
            (history self.new) }
        ensures cause { HasJournalCause (meter self.old) (meter self.new) result }
        ensures same_disk { IsErrOf result NoRoom → history self.new ≡ history self.old }
        ensures same { IsErrOf result NoRoom → kept self.new ≡ kept self.old }
        ensures same_counts { IsErrOf result NoRoom
            → HasSameCounts (meter self.old) (meter self.new) }
        ensures usable { IsErrOf result NoRoom → (waits self.new ≡ false) × is_ready self.new }
        ensures untold { history self.old ≡ None → history self.new ≡ None };

    /// Makes the waiting batch durable. It is `Ok` at once where none waits.
    fn sync(&mut self) -> Result<(), JournalFault>
        requires ready { is_ready self.old }
        ensures ready { OnOk result (is_ready self.new) }
        ensures none { OnOk result (waits self.new ≡ false) }
        ensures synced { OnOk result (AddsWaiting (kept self.old) (kept self.new)) }
        ensures any_moment { LeavesWaiting reading (kept self.old) (history self.old)
            (history self.new) }
        ensures cause { HasJournalCause (meter self.old) (meter self.new) result }
        ensures given { IsErrOf result NoRoom → ⊥ }
        ensures untold { history self.old ≡ None → history self.new ≡ None };

    /// Drops the waiting batch. It makes no call of the disk.
    fn forget(&mut self)
        requires ready { is_ready self.old }
        ensures ready { is_ready self.new }
        ensures none { waits self.new ≡ false }
        ensures dropped { Waits [] (kept self.old) (kept self.new) }
        ensures history { history self.new ≡ history self.old }
        ensures meter { meter self.new ≡ meter self.old };

    /// How many entries are synced.
    fn synced(&self) -> u64
        requires ready { is_ready self.now }
        ensures { IfSome (kept self.now) (λ k. result ≡ length k.synced) };

    /// It keeps something exactly where its disk tells.
    ghost tells: { (j : Self) → is_some (kept j) ≡ is_some (history j) };

    /// A crash now leaves the synced entries.
    ghost leaves_synced: { (j : Self) → is_ready j → MayLeaveSynced reading (kept j) (history j) };

    /// Where no batch waits, none is kept as waiting.
    ghost none_waits: { (j : Self) → waits j ≡ false → IfSome (kept j) (λ k. k.waiting ≡ []) };

    /// What its disk reads is one of the disk's images.
    ghost reads_image: { (j : Self) → ReadsImage (history j) };

    /// Where its disk reads as entries, it keeps these as synced, after a fault too.
    ghost reads_kept: { (j : Self) (es : List AnEntry) → ReadsKept reading es (history j) (kept j) };
}

/// Keeps the entries of a batch: they are appended and synced. After an error but `NoMemory` the journal is only good for giving
/// its disk back, and the disk reads as before or with all of these entries.
pub fn keep<J: Journal>(alloc: Global, journal: &mut J, batch: &Batch) -> Result<(), JournalFault>
    requires ready { J.is_ready journal.old }
    requires none { J.waits journal.old ≡ false }
    requires some { 0 < length batch.now }
    ensures ready { OnOk result (J.is_ready journal.new) }
    ensures none { OnOk result (J.waits journal.new ≡ false) }
    ensures kept { OnOk result (Adds batch.now (J.kept journal.old) (J.kept journal.new)) }
    ensures any_moment { LeavesWith J.reading batch.now (J.kept journal.old)
        (J.history journal.old) (J.history journal.new) }
    ensures left { MayLeaveWith J.reading batch.now (J.kept journal.old) (J.history journal.new) }
    ensures front { KeepsOneOf batch.now (J.kept journal.old) (J.kept journal.new) }
    ensures cause { HasJournalCause (J.meter journal.old) (J.meter journal.new) result }
    ensures same_disk { IsErrOf result JournalFault.NoMemory →
        J.history journal.new ≡ J.history journal.old }
    ensures same { IsErrOf result JournalFault.NoMemory → J.kept journal.new ≡ J.kept journal.old }
    ensures same_counts { IsErrOf result JournalFault.NoMemory →
        HasSameCounts (J.meter journal.old) (J.meter journal.new) }
    ensures usable { IsErrOf result JournalFault.NoMemory →
        (J.waits journal.new ≡ false) × J.is_ready journal.new }
    ensures untold { J.history journal.old ≡ None → J.history journal.new ≡ None }
{
    journal.append(alloc, batch)?;
    journal.sync()
}
