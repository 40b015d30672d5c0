//! An agent is made anew from its journal.

ghost use Rattle.std.specs.Prelude.{◌≡◌, ◌≤◌, List, ℕ, None, true, false, length, Ok, Err, IfOk, IfErr, OnOk, OnErr};
ghost use Rattle.std.specs.List.{All};
ghost use Rattle.nsi_primitive.specs.Printable.{IsPrintableEntry};
ghost use Rattle.nsi_disk.specs.ShelfCounts.{RaisedFrom};
ghost use Rattle.disk_journal.specs.declared.opening.StartCause.{StartCause as ACause};
ghost use Rattle.agent_node.specs.declared.reopen.ReopenFault.{ReopenFault as AFault};
ghost use Rattle.agent_node.specs.Restarts.{reads};
ghost use Rattle.agent_node.specs.Seated.{AtSeat, IsSameCore};
ghost use Rattle.stp_topology.specs.Network.{name_of};
ghost use Rattle.agent_node.specs.Kept.{kept_with, HasSynced};
ghost use Rattle.agent_node.specs.Reopening.{HasReopenCause, HasRead, MayRead};

use crate::reopen::{Reopen, ReopenFault, Reread};
use crate::seated::Core;
use disk_journal::StartCause;
use journal_entry::Journal;
use nsi_base::Name;
use std::alloc::Global;

/// The agent is made anew from what was read. Where memory is wanting for that, its journal is taken back.
fn remake<J: Journal, B: Reopen<J>>(
    alloc: Global,
    core: &mut Core<'_>,
    reread: Reread<J>,
    name: &Name,
    shelf: &mut B,
) -> Result<J, ReopenFault>
    requires listed { B.listed shelf.old name.now ≡ true }
    requires printable { All IsPrintableEntry reread.entries.items }
    ensures journal { IfOk result (λ j. j ≡ reread.journal) }
    ensures seat { AtSeat core.old
        (λ h. OnOk result (core.new.seat
        ≡ reads h reread.tries reread.entries.items core.old.seat)) }
    ensures synced { OnOk result (core.new.seat.synced ≡ length reread.entries.items) }
    ensures core { IsSameCore core.old core.new }
    ensures same { OnOk result (shelf.new ≡ shelf.old) }
    ensures memory { IfErr result (λ f. f ≡ AFault.GivenBack ACause.NoMemory) }
    ensures faults { B.faults shelf.old ≤ B.faults shelf.new }
    ensures stops { B.stops shelf.old ≤ B.stops shelf.new }
    ensures lost { OnErr result
        (RaisedFrom (B.stops shelf.old) (J.meter reread.journal).stops (B.stops shelf.new)) }
    ensures stays { (n : List ℕ) → B.listed shelf.old n ≡ true → B.listed shelf.new n ≡ true }
{
    let Reread {
        journal,
        entries,
        tries,
    } = reread;
    let made = core.read_again(alloc, &entries, tries);
    drop(entries);
    match made {
        Ok(()) => Ok(journal),
        Err(_) => {
            shelf.take_back(name, journal);
            Err(ReopenFault::GivenBack(StartCause::NoMemory))
        }
    }
}

/// Reads the journal of an agent again, and makes the agent anew from it.
pub fn read_again<J: Journal, B: Reopen<J>>(
    alloc: Global,
    core: &mut Core<'_>,
    journal: J,
    shelf: &mut B,
) -> Result<J, ReopenFault>
    requires listed { B.listed shelf.old (name_of core.old.network core.old.seat.number) ≡ true }
    ensures ready { IfOk result (λ j. J.is_ready j) }
    ensures none { IfOk result (λ j. J.waits j ≡ false) }
    ensures counted { IfOk result (λ j. HasSynced core.new.seat.synced (J.kept j)) }
    ensures made { IfOk result (λ j.
        HasRead (λ es. MayRead J.reading (Ok es) (J.history journal))
        (kept_with core.old None (J.meter journal) (J.kept journal))
        (kept_with core.new None (J.meter j) (J.kept j))) }
    ensures same_faults { OnOk result (B.faults shelf.new ≡ B.faults shelf.old) }
    ensures same_stops { OnOk result (B.stops shelf.new ≡ B.stops shelf.old) }
    ensures cause { IfErr result (HasReopenCause (B.faults shelf.old) (B.faults shelf.new)
        (λ place. MayRead J.reading (Err place) (J.history journal))) }
    ensures faults { B.faults shelf.old ≤ B.faults shelf.new }
    ensures stops { B.stops shelf.old ≤ B.stops shelf.new }
    ensures lost { OnErr result
        (RaisedFrom (B.stops shelf.old) (J.meter journal).stops (B.stops shelf.new)) }
    ensures stays { (n : List ℕ) → B.listed shelf.old n ≡ true → B.listed shelf.new n ≡ true }
{
    let name = core.name();
    match shelf.reopen(alloc, name, journal) {
        Ok(reread) => remake(alloc, core, reread, name, shelf),
        Err(fault) => Err(fault),
    }
}
