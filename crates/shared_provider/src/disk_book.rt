//! A book over a disk.

ghost use Rattle.std.specs.Prelude.{◌≡◌, ◌<◌, length, IfOk, IfErr, None, false};
ghost use Rattle.stp_topology.specs.Sound.{IsProvider};
ghost use Rattle.journal_entry.specs.Payloads.{batch_of};
ghost use Rattle.journal_entry.specs.Journals.{recovers};
ghost use Rattle.disk_journal.specs.StartOf.{StartsFor, KeepsCounts, ReadsNothing};
ghost use Rattle.shared_provider.specs.Book.{fresh, counted, Recovers};

use crate::book::Book;
use disk_journal::{DiskJournal, StartCause, StartFault};
use nsi_base::AgentNo;
use nsi_disk::Disk;
use std::alloc::Global;
use stp_topology::Topology;

impl<D: Disk> Book<DiskJournal<D>> {
    /// The book of a provider of the topology, over a disk that has counted no fault and no stop, and is emptied first.
    pub fn new(
        alloc: Global,
        topology: Topology,
        agent: AgentNo,
        disk: D,
    ) -> Result<Book<DiskJournal<D>>, StartFault<D>>
        requires within { agent < length topology.agents }
        requires provider { IsProvider topology agent }
        requires runs { (D.meter disk).stopped ≡ false }
        requires counts { counted (D.meter disk) ≡ 0 }
        ensures fresh { IfOk result (λ b. b.book ≡ fresh topology agent) }
        ensures quiet { IfOk result (λ b. KeepsCounts (D.meter disk) b.meter) }
        ensures cause { IfErr result (λ f. StartsFor (D.meter disk) (D.meter f.disk) None f.cause) }
        ensures unread { IfErr result (λ f. ReadsNothing f.cause) }
    {
        let journal = DiskJournal::fresh(disk)?;
        Book::over(alloc, topology, agent, journal).map_err(|journal| StartFault {
            cause: StartCause::NoMemory,
            disk: journal.into_disk(),
        })
    }

    /// Its disk. A crash leaves the synced entries there; or, where the book is closed, maybe all.
    pub fn into_disk(self) -> D
        ensures left { Recovers (recovers batch_of) self.book (D.history result) }
        ensures meter { D.meter result ≡ self.meter }
    {
        self.into_journal().into_disk()
    }
}
