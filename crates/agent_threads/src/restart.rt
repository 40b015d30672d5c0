//! Agents go on from their journals.

ghost use Rattle.std.specs.Prelude.{◌≡◌, ◌≤◌, ◌<◌, ◌++◌, ◌∷◌, [], List, ℕ, Some, None, true, false, IfErr, OnOk, OnErr, length, vec_capacity, nat_le, ◌&&◌};
ghost use Rattle.stp_topology.specs.Network.{name_of};
ghost use Rattle.nsi_script.specs.declared.script.Act.{Act};
ghost use Rattle.agent_threads.specs.Nets.{seats, EachIs, AreUsable, AreApart, AreListed};
ghost use Rattle.agent_node.specs.declared.fault.TurnFault.{TurnFault as AFault};
ghost use Rattle.agent_threads.specs.Stopping.{MayGoOn, MayAllGoOn, GoesOnAgain, RestartsStopped, is_stopped};
ghost use Rattle.agent_threads.specs.Made.{IsRestarted, RestartsAt, IsOfRestart, PutsBack, LosesOne, AreLeft, reopen_fault, counted, KeepsShelf, HasRestartCause, HasRunCause, HasGoOnCause};

use crate::fault::RunFault;
use agent_node::{Node, Reopen, ReopenFault, TurnFault};
use disk_journal::StartCause;
use journal_entry::Journal;
use least_routes::laws::routes_exist;
use nsi_base::{AgentNo, Second};
use nsi_disk::ShelfError;
use std::alloc::Global;

/// Why an agent wasn't made anew.
fn fault_of(agent: AgentNo, fault: ReopenFault) -> RunFault
    ensures { result ≡ reopen_fault agent fault }
{
    match fault {
        ReopenFault::GivenBack(StartCause::DiskFault) => RunFault::DiskFault(agent),
        ReopenFault::GivenBack(StartCause::Stopped) => RunFault::DiskFault(agent),
        ReopenFault::GivenBack(StartCause::NotAJournal { place }) => {
            RunFault::NotAJournal { agent, place }
        }
        ReopenFault::GivenBack(StartCause::NoMemory) => RunFault::NoMemory,
        ReopenFault::Lost(ShelfError::Failed) => RunFault::DiskFault(agent),
        ReopenFault::Lost(ShelfError::NoMemory) => RunFault::NoMemory,
    }
}

/// Whether an agent has taken no more than so many entries, and its clock is no further.
fn is_within<'t, J: Journal + Drop>(node: &Node<'t, J>, taken: u64, now: Second) -> bool
    ensures { result ≡ (nat_le node.now.seat.state.base.taken taken
        && nat_le node.now.seat.state.base.now now) }
{
    node.taken() <= taken && node.now() <= now
}

/// Makes an agent anew from its journal, or from what a stop has left of it, and puts it behind the others. A journal that has more
/// than it took isn't its own.
fn restart_one<'t, J: Journal + Drop, B: Reopen<J>>(
    alloc: Global,
    nodes: &mut Vec<Node<'t, J>>,
    node: Node<'t, J>,
    shelf: &mut B,
) -> Result<(), RunFault>
    requires going { MayGoOn node }
    requires listed { B.listed shelf.old (name_of node.network node.seat.number) ≡ true }
    requires room { length nodes.old.items < vec_capacity nodes.old }
    ensures done { node.entry.fault ≡ None →
        OnOk result (PutsBack IsRestarted node.entry nodes.old.items nodes.new.items) }
    ensures again { node.entry.fault ≡ Some AFault.Stopped →
        OnOk result (PutsBack GoesOnAgain node.entry nodes.old.items nodes.new.items) }
    ensures failed { OnErr result (LosesOne node.entry nodes.old.items nodes.new.items
        (counted (B.faults shelf.old) (B.stops shelf.old))
        (counted (B.faults shelf.new) (B.stops shelf.new))) }
    ensures capacity { vec_capacity nodes.new ≡ vec_capacity nodes.old }
    ensures shelf { KeepsShelf (counted (B.faults shelf.old) (B.stops shelf.old))
        (counted (B.faults shelf.new) (B.stops shelf.new)) result }
    ensures stays { (n : List ℕ) → B.listed shelf.old n ≡ true → B.listed shelf.new n ≡ true }
    ensures cause { IfErr result (HasRestartCause node.entry
        (counted (B.faults shelf.old) (B.stops shelf.old))
        (counted (B.faults shelf.new) (B.stops shelf.new))) }
{
    routes_exist();
    let agent = node.number();
    let taken = node.taken();
    let now = node.now();
    let again = match node.restart(alloc, shelf) {
        Ok(again) => again,
        Err(fault) => return Err(fault_of(agent, fault)),
    };
    let is_own = is_within(&again, taken, now);
    nodes.push_reserved(again);
    if is_own {
        Ok(())
    } else {
        Err(RunFault::NotAJournal { agent, place: 0 })
    }
}

fn has_stopped<'t, J: Journal + Drop>(node: &Node<'t, J>) -> bool
    ensures { result ≡ is_stopped node.now.fault }
{
    matches!(node.fault(), Some(TurnFault::Stopped))
}

/// Those whose disks have stopped are made anew from what these have, in the agents' order.
pub fn restart_stopped<'t, J: Journal + Drop, B: Reopen<J>>(
    alloc: Global,
    nodes: &mut Vec<Node<'t, J>>,
    shelf: &mut B,
) -> Result<(), RunFault>
    requires going { MayAllGoOn nodes.old.items }
    requires listed { AreListed (B.listed shelf.old) nodes.old.items }
    ensures done { OnOk result (EachIs RestartsStopped nodes.old.items nodes.new.items) }
    ensures agents { AreLeft nodes.old.items nodes.new.items
        (counted (B.faults shelf.old) (B.stops shelf.old))
        (counted (B.faults shelf.new) (B.stops shelf.new)) }
    ensures few { length nodes.new.items ≤ length nodes.old.items }
    ensures capacity { vec_capacity nodes.new ≡ vec_capacity nodes.old }
    ensures shelf { KeepsShelf (counted (B.faults shelf.old) (B.stops shelf.old))
        (counted (B.faults shelf.new) (B.stops shelf.new)) result }
    ensures stays { (n : List ℕ) → B.listed shelf.old n ≡ true → B.listed shelf.new n ≡ true }
    ensures cause { IfErr result (HasGoOnCause nodes.old.items
        (counted (B.faults shelf.old) (B.stops shelf.old))
        (counted (B.faults shelf.new) (B.stops shelf.new))) }
    ensures mild { IfErr result IsOfRestart }
{
    let Some(last) = nodes.pop() else {
        return Ok(());
    };
    match restart_stopped(alloc, nodes, shelf) {
        Ok(()) => {}
        Err(fault) => {
            nodes.push_reserved(last);
            return Err(fault);
        }
    }
    if has_stopped(&last) {
        return restart_one(alloc, nodes, last, shelf);
    }
    nodes.push_reserved(last);
    Ok(())
}

/// The agent with this number is made anew from its journal, where it is one of them.
pub fn restart_at<'t, J: Journal + Drop, B: Reopen<J>>(
    alloc: Global,
    nodes: &mut Vec<Node<'t, J>>,
    shelf: &mut B,
    agent: AgentNo,
) -> Result<(), RunFault>
    requires usable { AreUsable nodes.old.items }
    requires apart { AreApart (seats nodes.old.items) }
    requires listed { AreListed (B.listed shelf.old) nodes.old.items }
    ensures done { OnOk result (EachIs (RestartsAt agent) nodes.old.items nodes.new.items) }
    ensures agents { AreLeft nodes.old.items nodes.new.items
        (counted (B.faults shelf.old) (B.stops shelf.old))
        (counted (B.faults shelf.new) (B.stops shelf.new)) }
    ensures few { length nodes.new.items ≤ length nodes.old.items }
    ensures capacity { vec_capacity nodes.new ≡ vec_capacity nodes.old }
    ensures shelf { KeepsShelf (counted (B.faults shelf.old) (B.stops shelf.old))
        (counted (B.faults shelf.new) (B.stops shelf.new)) result }
    ensures stays { (n : List ℕ) → B.listed shelf.old n ≡ true → B.listed shelf.new n ≡ true }
    ensures cause { IfErr result (HasRunCause (Act.Restart agent ∷ []) nodes.old.items
        nodes.new.items
        (counted (B.faults shelf.old) (B.stops shelf.old))
        (counted (B.faults shelf.new) (B.stops shelf.new))) }
    ensures mild { IfErr result IsOfRestart }
{
    let Some(last) = nodes.pop() else {
        return Ok(());
    };
    if last.number() == agent {
        return restart_one(alloc, nodes, last, shelf);
    }
    let done = restart_at(alloc, nodes, shelf, agent);
    nodes.push_reserved(last);
    done
}
