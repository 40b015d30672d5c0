//! A journal that is given one entry after another.

ghost use Rattle.std.specs.Prelude.{◌≡◌, ◌<◌, ◌≤◌, ◌++◌, ◌∷◌, [], List, false, IfErr, OnOk, IsErrOf};
ghost use Rattle.nsi_primitive.specs.Printable.{IsPrintableEntry};
ghost use Rattle.nsi_primitive.specs.declared.entry.Entry.{Entry as AnEntry};
ghost use Rattle.journal_entry.specs.Journal.{HasSameCounts};
ghost use Rattle.shared_provider.specs.Book.{counted};
ghost use Rattle.shared_provider.specs.Sound.{Keeps, LeavesThese, LeavesOneOf, HasFailed};

use crate::reply::BookFault;
use journal_entry::{Batch, Journal, JournalFault};
use nsi_primitive::Entry;
use std::alloc::Global;
use std::slice;

/// A fault of a journal, as its book tells it.
fn book_fault(fault: JournalFault) -> BookFault
    ensures memory { fault ≡ JournalFault.NoMemory → result ≡ BookFault.NoMemory }
    ensures disk { (fault ≡ JournalFault.NoMemory → ⊥) → result ≡ BookFault.DiskFault 1 }
{
    match fault {
        JournalFault::DiskFault | JournalFault::Stopped => BookFault::DiskFault { faults: 1 },
        JournalFault::NoMemory => BookFault::NoMemory,
    }
}

/// Writes an entry, which waits then.
pub fn append<J: Journal>(alloc: Global, journal: &mut J, entry: &Entry) -> Result<(), BookFault>
    requires ready { J.is_ready journal.old }
    requires none { J.waits journal.old ≡ false }
    requires printable { IsPrintableEntry entry.now }
    ensures ready { OnOk result (J.is_ready journal.new) }
    ensures keeps { (es : List AnEntry) →
        Keeps (J.history journal.old) (J.kept journal.old) es [] →
        OnOk result (Keeps (J.history journal.new) (J.kept journal.new) es (entry.now ∷ [])) }
    ensures left { (es : List AnEntry) →
        Keeps (J.history journal.old) (J.kept journal.old) es [] →
        LeavesThese J.reading (J.history journal.new) es }
    ensures cause { IfErr result (HasFailed (J.meter journal.old) (J.meter journal.new)) }
    ensures counts { OnOk result (HasSameCounts (J.meter journal.old) (J.meter journal.new)) }
    ensures usable { IsErrOf result BookFault.NoMemory →
        (J.waits journal.new ≡ false) × J.is_ready journal.new }
    ensures same_disk { IsErrOf result BookFault.NoMemory →
        J.history journal.new ≡ J.history journal.old }
    ensures same { IsErrOf result BookFault.NoMemory → J.kept journal.new ≡ J.kept journal.old }
{
    let Ok(batch) = Batch::of(alloc, slice::from_ref(entry)) else {
        return Err(BookFault::NoMemory);
    };
    match journal.append(alloc, &batch) {
        Ok(()) => Ok(()),
        Err(fault) => Err(book_fault(fault)),
    }
}

/// Makes the waiting entries durable.
pub fn sync<J: Journal>(journal: &mut J) -> Result<(), BookFault>
    requires ready { J.is_ready journal.old }
    ensures ready { OnOk result (J.is_ready journal.new) }
    ensures none { OnOk result (J.waits journal.new ≡ false) }
    ensures keeps { (es more : List AnEntry) →
        Keeps (J.history journal.old) (J.kept journal.old) es more →
        OnOk result (Keeps (J.history journal.new) (J.kept journal.new) (es ++ more) []) }
    ensures left { (es more : List AnEntry) →
        Keeps (J.history journal.old) (J.kept journal.old) es more →
        LeavesOneOf J.reading (J.history journal.new) es more }
    ensures counts { OnOk result (HasSameCounts (J.meter journal.old) (J.meter journal.new)) }
    ensures cause { IfErr result (λ f. (f ≡ BookFault.DiskFault 1)
        × (counted (J.meter journal.old) < counted (J.meter journal.new))) }
{
    match journal.sync() {
        Ok(()) => Ok(()),
        Err(fault) => Err(book_fault(fault)),
    }
}

/// Drops the waiting entries.
pub fn forget<J: Journal>(journal: &mut J)
    requires ready { J.is_ready journal.old }
    ensures ready { J.is_ready journal.new }
    ensures none { J.waits journal.new ≡ false }
    ensures keeps { (es more : List AnEntry) →
        Keeps (J.history journal.old) (J.kept journal.old) es more →
        Keeps (J.history journal.new) (J.kept journal.new) es [] }
    ensures meter { J.meter journal.new ≡ J.meter journal.old }
{
    journal.forget();
}
