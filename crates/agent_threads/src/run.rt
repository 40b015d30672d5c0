//! A whole run over agents that stand ready.

ghost use Rattle.std.specs.Prelude.{◌≡◌, ◌<◌, ◌≤◌, ◌+◌, ℕ, [], List, length, true, IfOk, IfErr, OnOk, OnErr, IsErrOf};
ghost use Rattle.std.specs.List.{All};
ghost use Rattle.nsi_outside.specs.Stream.{WritesAll, WritesFront};
ghost use Rattle.nsi_primitive.specs.Printable.{IsPrintableEvent};
ghost use Rattle.nsi_primitive.specs.declared.entry.Event.{Event as EventOf};
ghost use Rattle.run_totals.specs.Totals.{AreWithin, plus, totals_of};
ghost use Rattle.nsi_script.specs.Fits.{IsRising};
ghost use Rattle.nsi_script.specs.Lines.{greatest_asks};
ghost use Rattle.nsi_script.specs.Scripts.{acts_of, asks_of, seconds_of};
ghost use Rattle.nsi_play.specs.Rounds.{events_of, all_quiet};
ghost use Rattle.nsi_play.specs.Play.{asks_among};
ghost use Rattle.quiet_rounds.specs.Bounded.{IsBounded};
ghost use Rattle.agent_threads.specs.Nets.{seats, seats_by, AreOf, AreSame, AreCalm, AreUsable, AreNet, AreListed};
ghost use Rattle.agent_threads.specs.Made.{HaveRoom, counted, KeepsShelf, HasSettleCause, IsOfWriting, IsOfAgent, AreLeft};
ghost use Rattle.agent_threads.specs.Bounds.{AreUpTo, AreUnder, AreNumbered, AreReady};
ghost use Rattle.agent_threads.specs.Leaving.{LeavesNet, StayOwned};
ghost use Rattle.agent_threads.specs.Reports.{written};
ghost use Rattle.agent_threads.specs.Stopping.{stops_among, more_stops, NoneStopped, IsOver, Passes};
ghost use Rattle.agent_threads.specs.Promise.{CanDo, CanBePlayed, AtShown, WritesPlay, WritesTooLong, WritesGroups, WritesSomeOfPlay};

use crate::fault::RunFault;
use crate::group::{GroupStart, begin, settle};
use crate::report::{RunOptions, written};
use crate::resources::Resources;
use agent_node::{Node, Reopen};
use journal_entry::Journal;
use least_routes::laws::routes_exist;
use nsi_outside::sink::write_all;
use nsi_outside::{Sink, SinkError};
use nsi_script::Group;
use quiet_rounds::laws::nets_are_bounded;
use run_totals::Totals;
use std::thread::Threads;
use stp_topology::Topology;
use trace_text::SpelledEvent;

/// A group, which nobody is told yet. It gives the number of the ask behind it.
fn make_group<'t, R: Threads + Sync, J: Journal + Drop + Send, B: Reopen<J>>(
    resources: &Resources<'_, R>,
    nodes: &mut Vec<Node<'t, J>>,
    shelf: &mut B,
    group: &Group,
    start: GroupStart,
    events: &mut Vec<SpelledEvent>,
) -> Result<u32, RunFault>
    requires net { AreNet nodes.old.items }
    requires can { CanDo group.now.acts nodes.old.items }
    requires asks { start.number + asks_among group.now.acts ≤ greatest_asks }
    requires none { events.old.items ≡ [] }
    requires told { events_of (seats nodes.old.items) ≡ [] }
    requires few { HaveRoom (start.room + 1) nodes.old.items }
    requires later { AreUpTo group.now.at nodes.old.items }
    requires bounded { IsBounded (seats nodes.old.items) }
    requires listed { AreListed (B.listed shelf.old) nodes.old.items }
    ensures ok { AtShown nodes.old.items group.now.acts (λ homes tells. OnOk result
        (IsOver homes tells (NoneStopped nodes.old.items nodes.new.items [] events.new.items)
        (more_stops nodes.old.items nodes.new.items) group.now start.number (seats_by tells nodes.old.items)
        events.new.items (seats_by tells nodes.new.items))) }
    ensures leaves { OnOk result (LeavesNet group.now.at nodes.old.items nodes.new.items
        events.old.items events.new.items) }
    ensures next { IfOk result (λ n. n ≡ start.number + asks_among group.now.acts) }
    ensures within { OnOk result (length events.new.items ≤ start.room) }
    ensures long { AtShown nodes.old.items group.now.acts (λ homes tells.
        IsErrOf result RunFault.Long →
        Passes homes tells (stops_among nodes.new.items ≡ stops_among nodes.old.items)
        (more_stops nodes.old.items nodes.new.items) start.room 0 group.now start.number (seats_by tells nodes.old.items)) }
    ensures rises { IsErrOf result RunFault.Long →
        stops_among nodes.old.items ≤ stops_among nodes.new.items }
    ensures level { IsErrOf result RunFault.Long → B.stops shelf.new ≡ B.stops shelf.old }
    ensures agents { AreLeft nodes.old.items nodes.new.items
        (counted (B.faults shelf.old) (B.stops shelf.old))
        (counted (B.faults shelf.new) (B.stops shelf.new)) }
    ensures shelf { KeepsShelf (counted (B.faults shelf.old) (B.stops shelf.old))
        (counted (B.faults shelf.new) (B.stops shelf.new)) result }
    ensures stays { (n : List ℕ) → B.listed shelf.old n ≡ true → B.listed shelf.new n ≡ true }
    ensures cause { IfErr result (HasSettleCause group.now.acts nodes.old.items nodes.new.items
        (counted (B.faults shelf.old) (B.stops shelf.old))
        (counted (B.faults shelf.new) (B.stops shelf.new))) }
    ensures mild { IsErrOf result RunFault.WriteFault → ⊥ }
{
    let next = begin(resources.alloc, nodes, shelf, group, start, events)?;
    settle(resources, nodes, shelf, events, start.room)?;
    Ok(next)
}

/// How far a run has come.
#[derive(Clone, Copy, Debug, PartialEq, Eq)]
pub struct Progress {
    pub totals: Totals,
    /// How many asks there were.
    pub asks: u32,
}

/// What is played: groups of acts in a topology, how far, and what is written of it.
#[derive(Clone, Copy)]
pub struct Play<'a> {
    pub topology: &'a Topology,
    pub groups: &'a [Group],
    pub options: RunOptions,
}

/// A group, and what is wanted of it, which isn't written yet.
fn play_group<'t, R: Threads + Sync, J: Journal + Drop + Send, B: Reopen<J>>(
    resources: &Resources<'_, R>,
    play: &Play<'_>,
    nodes: &mut Vec<Node<'t, J>>,
    shelf: &mut B,
    group: &Group,
    before: Progress,
) -> Result<(Vec<u8>, Progress), RunFault>
    requires net { AreNet nodes.old.items }
    requires can { CanDo group.now.acts nodes.old.items }
    requires asks { before.asks + asks_among group.now.acts ≤ greatest_asks }
    requires counted { AreWithin before.totals }
    requires within { before.totals.events ≤ play.now.options.limit }
    requires limit { play.now.options.limit ≤ 2000000 }
    requires numbers { AreNumbered play.now.topology.now nodes.old.items }
    requires told { events_of (seats nodes.old.items) ≡ [] }
    requires few { AreUnder before.totals.events nodes.old.items }
    requires later { AreUpTo group.now.at nodes.old.items }
    requires bounded { IsBounded (seats nodes.old.items) }
    requires listed { AreListed (B.listed shelf.old) nodes.old.items }
    ensures ok { IfOk result (λ r. (own : List EventOf)
        × (r.1.totals ≡ plus before.totals (totals_of play.now.topology.now own))
        × AtShown nodes.old.items group.now.acts (λ homes tells.
        IsOver homes tells (NoneStopped nodes.old.items nodes.new.items [] own)
        (more_stops nodes.old.items nodes.new.items) group.now before.asks (seats_by tells nodes.old.items) own
        (seats_by tells nodes.new.items))
        × (r.0.items ≡ written play.now.options.report play.now.topology.now own)) }
    ensures counted { IfOk result (λ r. AreWithin r.1.totals) }
    ensures next { IfOk result (λ r. r.1.asks ≡ before.asks + asks_among group.now.acts) }
    ensures within { IfOk result (λ r. r.1.totals.events ≤ play.now.options.limit) }
    ensures net { OnOk result (AreNet nodes.new.items) }
    ensures same { OnOk result (AreSame nodes.old.items nodes.new.items) }
    ensures bounded { OnOk result (IsBounded (seats nodes.new.items)) }
    ensures owned { OnOk result (StayOwned nodes.old.items nodes.new.items) }
    ensures long { AtShown nodes.old.items group.now.acts (λ homes tells.
        IsErrOf result RunFault.Long →
        Passes homes tells (stops_among nodes.new.items ≡ stops_among nodes.old.items)
        (more_stops nodes.old.items nodes.new.items) play.now.options.limit before.totals.events group.now before.asks
        (seats_by tells nodes.old.items)) }
    ensures rises { IsErrOf result RunFault.Long →
        stops_among nodes.old.items ≤ stops_among nodes.new.items }
    ensures level { IsErrOf result RunFault.Long → B.stops shelf.new ≡ B.stops shelf.old }
    ensures agents { AreLeft nodes.old.items nodes.new.items
        (counted (B.faults shelf.old) (B.stops shelf.old))
        (counted (B.faults shelf.new) (B.stops shelf.new)) }
    ensures shelf { KeepsShelf (counted (B.faults shelf.old) (B.stops shelf.old))
        (counted (B.faults shelf.new) (B.stops shelf.new)) result }
    ensures stays { (n : List ℕ) → B.listed shelf.old n ≡ true → B.listed shelf.new n ≡ true }
    ensures cause { IfErr result (HasSettleCause group.now.acts nodes.old.items nodes.new.items
        (counted (B.faults shelf.old) (B.stops shelf.old))
        (counted (B.faults shelf.new) (B.stops shelf.new))) }
    ensures mild { IsErrOf result RunFault.WriteFault → ⊥ }
    ensures told { OnOk result (events_of (seats nodes.new.items) ≡ []) }
    ensures few { IfOk result (λ r. AreUnder r.1.totals.events nodes.new.items) }
    ensures clocks { OnOk result (AreUpTo group.now.at nodes.new.items) }
{
    let mut events = Vec::new(resources.alloc);
    let start = GroupStart {
        number: before.asks,
        room: play.options.limit - before.totals.events,
    };
    let asks = make_group(resources, nodes, shelf, group, start, &mut events)?;
    let text = written(resources.alloc, play.options.report, play.topology, &events)?;
    let totals = before.totals.and_more(play.topology, &events);
    Ok((text, Progress { totals, asks }))
}

/// Writes a text whole.
pub fn write_text<K: Sink>(out: &mut K, text: &[u8]) -> Result<(), RunFault>
    ensures all { OnOk result (WritesAll (K.content out.old) (K.content out.new) text.now) }
    ensures front { OnErr result (WritesFront (K.content out.old) (K.content out.new) text.now) }
    ensures cause { IfErr result IsOfWriting }
    ensures write { IsErrOf result RunFault.WriteFault → K.faults out.old < K.faults out.new }
    ensures quiet { OnOk result (K.faults out.new ≡ K.faults out.old) }
    ensures memory { IsErrOf result RunFault.NoMemory → K.faults out.new ≡ K.faults out.old }
{
    match write_all(out, text) {
        Ok(()) => Ok(()),
        Err(SinkError::Failed) => Err(RunFault::WriteFault),
        Err(SinkError::NoMemory) => Err(RunFault::NoMemory),
    }
}

/// Plays groups over agents that stand ready, each round by so many workers at most, and writes what is wanted of each group in its
/// end. It answers the numbers of all. Journals are read again where the shelf gives them. An agent that isn't restarted is gone, and its
/// disk went back to the shelf or is lost.
pub fn play_all<'t, R: Threads + Sync, J: Journal + Drop + Send, B: Reopen<J>, K: Sink>(
    resources: &Resources<'_, R>,
    play: &Play<'_>,
    nodes: &mut Vec<Node<'t, J>>,
    shelf: &mut B,
    out: &mut K,
) -> Result<Totals, RunFault>
    requires net { AreNet nodes.old.items }
    requires of { AreOf play.now.topology.now nodes.old.items }
    requires can { CanBePlayed play.now.topology.now play.now.groups.now }
    requires ready { AreReady play.now.topology.now nodes.old.items }
    requires rising { IsRising (seconds_of play.now.groups.now) }
    requires asks { asks_of play.now.groups.now ≤ greatest_asks }
    requires limit { play.now.options.limit ≤ 2000000 }
    requires listed { AreListed (B.listed shelf.old) nodes.old.items }

    // What is wanted of the play is written, and the agents have played the whole.
    ensures done { IfOk result (λ n. WritesPlay play.now.topology.now play.now.options
        play.now.groups.now nodes.old.items nodes.new.items
        (K.content out.old) (K.content out.new) n) }

    // It is too long only where the play passes the limit, and then the groups that fit were written.
    ensures long { IsErrOf result RunFault.Long → WritesTooLong play.now.topology.now
        play.now.options play.now.groups.now nodes.old.items nodes.new.items
        (K.content out.old) (K.content out.new) }

    // Another fault comes only from outside, and leaves a front of it.
    ensures front { OnErr result (WritesSomeOfPlay play.now.topology.now play.now.options
        play.now.groups.now nodes.old.items nodes.new.items
        (counted (B.faults shelf.old) (B.stops shelf.old))
        (counted (B.faults shelf.new) (B.stops shelf.new))
        (K.content out.old) (K.content out.new)) }

    // Then no agent is lost, and no count of stops has fallen.
    ensures rises { IsErrOf result RunFault.Long →
        stops_among nodes.old.items ≤ stops_among nodes.new.items }
    ensures level { IsErrOf result RunFault.Long → B.stops shelf.new ≡ B.stops shelf.old }

    // Where a disk has failed or a journal has no reading, whole groups were written.
    ensures whole { IfErr result (λ e. IsOfAgent e → WritesGroups play.now.topology.now
        play.now.options play.now.groups.now nodes.old.items nodes.new.items
        (counted (B.faults shelf.old) (B.stops shelf.old))
        (counted (B.faults shelf.new) (B.stops shelf.new))
        (K.content out.old) (K.content out.new)) }
    ensures cause { IfErr result (HasSettleCause (acts_of play.now.groups.now)
        nodes.old.items nodes.new.items
        (counted (B.faults shelf.old) (B.stops shelf.old))
        (counted (B.faults shelf.new) (B.stops shelf.new))) }
    ensures write { IsErrOf result RunFault.WriteFault → K.faults out.old < K.faults out.new }
    ensures quiet { (IsErrOf result RunFault.WriteFault → ⊥) →
        K.faults out.new ≡ K.faults out.old }

    // No fault of a disk is hidden.
    ensures same { OnOk result (AreSame nodes.old.items nodes.new.items) }
    ensures calm { OnOk result (AreCalm nodes.old.items nodes.new.items) }
    ensures shelf { KeepsShelf (counted (B.faults shelf.old) (B.stops shelf.old))
        (counted (B.faults shelf.new) (B.stops shelf.new)) result }
    ensures agents { AreLeft nodes.old.items nodes.new.items
        (counted (B.faults shelf.old) (B.stops shelf.old))
        (counted (B.faults shelf.new) (B.stops shelf.new)) }
    ensures stays { (n : List ℕ) → B.listed shelf.old n ≡ true → B.listed shelf.new n ≡ true }
    ensures usable { OnOk result (AreUsable nodes.new.items) }

    // The agents' journals tell what made them where they did before.
    ensures owned { OnOk result (StayOwned nodes.old.items nodes.new.items) }
{
    routes_exist();
    let mut progress = Progress {
        totals: Totals::none(),
        asks: 0,
    };
    for group in play.groups {
        let (text, next) = play_group(resources, play, nodes, shelf, group, progress)?;
        write_text(out, &text)?;
        progress = next;
    }
    Ok(progress.totals)
}
