//! A turn of an agent with its journal.

ghost use Rattle.std.specs.Prelude.{◌≡◌, ◌≤◌, ◌+◌, None, Some, false, OnOk};
ghost use Rattle.std.specs.List.{All};
ghost use Rattle.agent_state.specs.Entries.{most_entries};
ghost use Rattle.agent_node.specs.Passing.{IsPrintableCome};
ghost use Rattle.agent_node.specs.declared.fault.TurnFault.{TurnFault as AFault};
ghost use Rattle.agent_node.specs.Kept.{kept_with, fault_in, HasSynced, LeavesBatch};
ghost use Rattle.agent_node.specs.Made.{IsSynced, IsTurn, IsTurnWith};

use crate::fault::TurnFault;
use crate::seated::Core;
use journal_entry::{Journal, keep};
use nsi_base::AgentNo;
use nsi_primitive::Parcel;
use std::alloc::Global;

/// Why a turn wasn't made.
pub fn fault_of(made: &Result<(), TurnFault>) -> Option<TurnFault>
    ensures { result ≡ fault_in made.now }
{
    match made {
        Ok(()) => None,
        Err(fault) => Some(*fault),
    }
}

/// Syncs what isn't synced.
fn sync<J: Journal>(
    alloc: Global,
    core: &mut Core<'_>,
    journal: &mut J,
    room: u64,
) -> Result<(), TurnFault>
    requires ready { J.is_ready journal.old }
    requires none { J.waits journal.old ≡ false }
    requires counted { HasSynced core.old.seat.synced (J.kept journal.old) }
    ensures ready { OnOk result (J.is_ready journal.new) }
    ensures none { OnOk result (J.waits journal.new ≡ false) }
    ensures counted { OnOk result (HasSynced core.new.seat.synced (J.kept journal.new)) }
    ensures left { fault_in result ≡ Some AFault.Stopped →
        LeavesBatch J.reading core.new.seat (J.kept journal.new) (J.history journal.new) }
    ensures made { IsSynced room
        (kept_with core.old None (J.meter journal.old) (J.kept journal.old))
        (kept_with core.new (fault_in result) (J.meter journal.new) (J.kept journal.new)) }
{
    if core.fresh().len() == 0 {
        return Ok(());
    }
    if room == 0 {
        return Err(TurnFault::Long);
    }
    keep(alloc, journal, core.fresh())?;
    core.tell_sync()?;
    Ok(())
}

/// A turn in which it takes these parcels.
pub fn make_turn_with<J: Journal>(
    alloc: Global,
    core: &mut Core<'_>,
    journal: &mut J,
    parcels: Vec<(AgentNo, Parcel)>,
    room: u64,
) -> Result<(), TurnFault>
    requires ready { J.is_ready journal.old }
    requires none { J.waits journal.old ≡ false }
    requires counted { HasSynced core.old.seat.synced (J.kept journal.old) }
    requires few { core.old.seat.state.base.taken + room ≤ most_entries }
    requires printable { All IsPrintableCome parcels.items }
    ensures ready { OnOk result (J.is_ready journal.new) }
    ensures none { OnOk result (J.waits journal.new ≡ false) }
    ensures counted { OnOk result (HasSynced core.new.seat.synced (J.kept journal.new)) }
    ensures left { fault_in result ≡ Some AFault.Stopped →
        LeavesBatch J.reading core.new.seat (J.kept journal.new) (J.history journal.new) }
    ensures made { IsTurnWith parcels.items room
        (kept_with core.old None (J.meter journal.old) (J.kept journal.old))
        (kept_with core.new (fault_in result) (J.meter journal.new) (J.kept journal.new)) }
{
    let mut left = room;
    core.take_all(alloc, parcels, &mut left)?;
    core.work(alloc, &mut left)?;
    sync(alloc, core, journal, left)?;
    core.push(alloc)?;
    Ok(())
}

/// A turn in which it takes what came. That of a quiet agent is nothing.
pub fn make_turn<J: Journal>(
    alloc: Global,
    core: &mut Core<'_>,
    journal: &mut J,
    room: u64,
) -> Result<(), TurnFault>
    requires ready { J.is_ready journal.old }
    requires none { J.waits journal.old ≡ false }
    requires counted { HasSynced core.old.seat.synced (J.kept journal.old) }
    requires few { core.old.seat.state.base.taken + room ≤ most_entries }
    ensures ready { OnOk result (J.is_ready journal.new) }
    ensures none { OnOk result (J.waits journal.new ≡ false) }
    ensures counted { OnOk result (HasSynced core.new.seat.synced (J.kept journal.new)) }
    ensures left { fault_in result ≡ Some AFault.Stopped →
        LeavesBatch J.reading core.new.seat (J.kept journal.new) (J.history journal.new) }
    ensures made { IsTurn room
        (kept_with core.old None (J.meter journal.old) (J.kept journal.old))
        (kept_with core.new (fault_in result) (J.meter journal.new) (J.kept journal.new)) }
{
    if core.quiet() {
        return Ok(());
    }
    let parcels = core.gather(alloc)?;
    make_turn_with(alloc, core, journal, parcels, room)
}
