//! A group of a script: ticks, acts, and rounds until all agents are quiet.

ghost use Rattle.std.specs.Prelude.{◌≡◌, ◌<◌, ◌≤◌, ◌+◌, ◌-◌, ◌++◌, ℕ, [], ◌∷◌, List, length, map, None, true, false, IfOk, IfErr, OnOk, IsErrOf};
ghost use Rattle.std.specs.List.{All};
ghost use Rattle.nsi_primitive.specs.Printable.{IsPrintableEvent};
ghost use Rattle.nsi_primitive.specs.declared.entry.Event.{Event as EventOf};
ghost use Rattle.nsi_script.specs.Lines.{greatest_asks};
ghost use Rattle.nsi_play.specs.Rounds.{round, events_of, all_quiet};
ghost use Rattle.nsi_play.specs.Play.{asks_among, asks_in, ticked_in};
ghost use Rattle.quiet_rounds.specs.Bounded.{IsBounded};
ghost use Rattle.agent_threads.specs.Nets.{seats, seats_by, EachIs, AtHomes, AreSame, AreUsable, AreNet, AreListed, AreOwned, IsAsPlanned, IsUnstopped};
ghost use Rattle.agent_threads.specs.Made.{Does, tick_to, HasRoom, HaveRoom, behind_fault, HasMetCause, HasSettleCause, HasGoOnCause, counted, KeepsShelf, HasRunCause, IsOfRestart, AreLeft};
ghost use Rattle.agent_threads.specs.Bounds.{AreUpTo, AreOfOne, MovesOn, GoOn};
ghost use Rattle.agent_threads.specs.Leaving.{LeavesNet, StayOwned};
ghost use Rattle.stopped_play.specs.Tapes.{Cuts};
ghost use Rattle.stopped_play.specs.Rounds.{round_by};
ghost use Rattle.stopped_play.specs.Counts.{restarts_in};
ghost use Rattle.agent_threads.specs.Coming.{IsTold};
ghost use Rattle.agent_threads.specs.Stopping.{AreHalted, AgreesWith, seats_before, WereOwned, AtOwned, AtOwnedBefore, Emptied, stopped_in, stops_among, more_stops, NoneStopped, IsDone, HasBegun, BeginsPast, GoOnByCuts, IsStepped, StepOverruns, AreSettled, Overrun};
ghost use Rattle.agent_threads.specs.Promise.{CanAct, CanDo, Shows, AtShown};

use crate::act::act_all;
use crate::fault::{RoundFault, RunFault};
use crate::resources::Resources;
use crate::restart::restart_stopped;
use crate::rounds::{round, settled};
use agent_node::{Node, Reopen};
use journal_entry::Journal;
use least_routes::laws::routes_exist;
use nsi_base::Second;
use nsi_script::{Act, Group};
use quiet_rounds::laws::{left_falls, nets_are_bounded};
use std::alloc::{AllocError, Global};
use std::thread::Threads;
use stopped_play::laws::rounds;
use trace_text::SpelledEvent;

/// An agent's clock goes on.
fn tick_one<'t, J: Journal + Drop>(
    alloc: Global,
    node: &mut Node<'t, J>,
    to: Second,
) -> Result<(), AllocError>
    requires usable { node.old.fault ≡ None }
    requires few { HasRoom 1 node.old }
    requires later { node.old.seat.state.base.now ≤ to }
    ensures done { OnOk result (Does (tick_to to) node.old node.new) }
    ensures agent { IsUnstopped node.old node.new }
{
    node.tick(alloc, to)?;
    Ok(())
}

fn tick_all<'t, J: Journal + Drop>(
    alloc: Global,
    nodes: &mut Vec<Node<'t, J>>,
    to: Second,
) -> Result<(), AllocError>
    requires usable { AreUsable nodes.old.items }
    requires few { HaveRoom 1 nodes.old.items }
    requires later { AreUpTo to nodes.old.items }
    ensures done { OnOk result (EachIs (Does (tick_to to)) nodes.old.items nodes.new.items) }
    ensures agents { EachIs IsUnstopped nodes.old.items nodes.new.items }
{
    for node in nodes.iter_mut() {
        tick_one(alloc, node, to)?;
    }
    Ok(())
}

/// Takes away what has happened at an agent.
fn drain_one<'t, J: Journal + Drop>(
    node: &mut Node<'t, J>,
    events: &mut Vec<SpelledEvent>,
) -> Result<(), AllocError>
    requires printable { All IsPrintableEvent events.old.items }
    ensures made { OnOk result (Emptied node.old node.new) }
    ensures events { OnOk result (events.new.items ≡ events.old.items ++ node.old.seat.events) }
    ensures printable { OnOk result (All IsPrintableEvent events.new.items) }
    ensures agent { IsUnstopped node.old node.new }
{
    node.move_events(events)?;
    Ok(())
}

/// Takes away what has happened, in the agents' order.
fn drain<'t, J: Journal + Drop>(
    nodes: &mut Vec<Node<'t, J>>,
    events: &mut Vec<SpelledEvent>,
) -> Result<(), AllocError>
    requires printable { All IsPrintableEvent events.old.items }
    ensures made { OnOk result (EachIs Emptied nodes.old.items nodes.new.items) }
    ensures events { OnOk result
        (events.new.items ≡ events.old.items ++ events_of (seats nodes.old.items)) }
    ensures printable { OnOk result (All IsPrintableEvent events.new.items) }
    ensures agents { EachIs IsUnstopped nodes.old.items nodes.new.items }
{
    for node in nodes.iter_mut() {
        drain_one(node, events)?;
    }
    Ok(())
}

/// The ticks, and what has happened then.
fn tick<'t, J: Journal + Drop>(
    alloc: Global,
    nodes: &mut Vec<Node<'t, J>>,
    to: Second,
    events: &mut Vec<SpelledEvent>,
) -> Result<(), AllocError>
    requires net { AreNet nodes.old.items }
    requires one { AreOfOne nodes.old.items }
    requires told { events_of (seats nodes.old.items) ≡ [] }
    requires few { HaveRoom 1 nodes.old.items }
    requires later { AreUpTo to nodes.old.items }
    requires printable { All IsPrintableEvent events.old.items }
    ensures ok { AtHomes nodes.old.items (λ homes tells. OnOk result
        (IsTold (map (ticked_in to homes) (seats_by tells nodes.old.items))
        events.old.items events.new.items (seats_by tells nodes.new.items))) }
    ensures leaves { OnOk result (LeavesNet to nodes.old.items nodes.new.items
        events.old.items events.new.items) }
    ensures agents { EachIs IsUnstopped nodes.old.items nodes.new.items }
{
    routes_exist();
    nets_are_bounded();
    tick_all(alloc, nodes, to)?;
    drain(nodes, events)?;
    Ok(())
}

/// An act, and what has happened then.
fn act<'t, J: Journal + Drop, B: Reopen<J>>(
    alloc: Global,
    nodes: &mut Vec<Node<'t, J>>,
    shelf: &mut B,
    act: &Act,
    number: u32,
    events: &mut Vec<SpelledEvent>,
) -> Result<(), RunFault>
    requires net { AreNet nodes.old.items }
    requires can { CanAct act.now nodes.old.items }
    requires told { events_of (seats nodes.old.items) ≡ [] }
    requires few { HaveRoom 1 nodes.old.items }
    requires listed { AreListed (B.listed shelf.old) nodes.old.items }
    requires printable { All IsPrintableEvent events.old.items }
    ensures ok { AtHomes nodes.old.items (λ homes tells. Shows tells act.now → OnOk result
        (IsDone homes tells
        (NoneStopped nodes.old.items nodes.new.items events.old.items events.new.items)
        (more_stops nodes.old.items nodes.new.items) act.now number (seats_by tells nodes.old.items)
        events.old.items events.new.items (seats_by tells nodes.new.items))) }
    ensures leaves { OnOk result (LeavesNet 0 nodes.old.items nodes.new.items
        events.old.items events.new.items) }
    ensures agents { AreLeft nodes.old.items nodes.new.items
        (counted (B.faults shelf.old) (B.stops shelf.old))
        (counted (B.faults shelf.new) (B.stops shelf.new)) }
    ensures shelf { KeepsShelf (counted (B.faults shelf.old) (B.stops shelf.old))
        (counted (B.faults shelf.new) (B.stops shelf.new)) result }
    ensures stays { (n : List ℕ) → B.listed shelf.old n ≡ true → B.listed shelf.new n ≡ true }
    ensures cause { IfErr result (HasRunCause (act.now ∷ []) nodes.old.items nodes.new.items
        (counted (B.faults shelf.old) (B.stops shelf.old))
        (counted (B.faults shelf.new) (B.stops shelf.new))) }
    ensures mild { IfErr result IsOfRestart }
{
    routes_exist();
    nets_are_bounded();
    act_all(alloc, nodes, shelf, act, number)?;
    drain(nodes, events)?;
    Ok(())
}

/// The number of the next ask.
fn next_ask(number: u32, act: &Act) -> u32
    requires { number + asks_in act.now ≤ greatest_asks }
    ensures { result ≡ number + asks_in act.now }
{
    match act {
        Act::Ask { .. } => number + 1,
        _ => number,
    }
}

/// Where a group begins: the number of its first ask, and how many events it may have.
#[derive(Clone, Copy, Debug, PartialEq, Eq)]
pub struct GroupStart {
    pub number: u32,
    pub room: u64,
}

/// The ticks and acts of a group. It gives the number of the ask behind them.
pub fn begin<'t, J: Journal + Drop, B: Reopen<J>>(
    alloc: Global,
    nodes: &mut Vec<Node<'t, J>>,
    shelf: &mut B,
    group: &Group,
    start: GroupStart,
    events: &mut Vec<SpelledEvent>,
) -> Result<u32, RunFault>
    requires net { AreNet nodes.old.items }
    requires can { CanDo group.now.acts nodes.old.items }
    requires asks { start.number + asks_among group.now.acts ≤ greatest_asks }
    requires none { events.old.items ≡ [] }
    requires told { events_of (seats nodes.old.items) ≡ [] }
    requires few { HaveRoom (start.room + 1) nodes.old.items }
    requires later { AreUpTo group.now.at nodes.old.items }
    requires listed { AreListed (B.listed shelf.old) nodes.old.items }
    ensures ok { AtShown nodes.old.items group.now.acts (λ homes tells. OnOk result
        (HasBegun homes tells (NoneStopped nodes.old.items nodes.new.items [] events.new.items)
        (more_stops nodes.old.items nodes.new.items) group.now start.number (seats_by tells nodes.old.items)
        events.new.items (seats_by tells nodes.new.items))) }
    ensures leaves { OnOk result (LeavesNet group.now.at nodes.old.items nodes.new.items
        events.old.items events.new.items) }
    ensures next { IfOk result (λ n. n ≡ start.number + asks_among group.now.acts) }
    ensures within { OnOk result (length events.new.items ≤ start.room) }
    ensures long { AtShown nodes.old.items group.now.acts (λ homes tells.
        IsErrOf result RunFault.Long →
        BeginsPast homes tells (stops_among nodes.new.items ≡ stops_among nodes.old.items)
        (more_stops nodes.old.items nodes.new.items) start.room group.now start.number
        (seats_by tells nodes.old.items)) }
    ensures rises { IsErrOf result RunFault.Long →
        stops_among nodes.old.items ≤ stops_among nodes.new.items }
    ensures level { IsErrOf result RunFault.Long → B.stops shelf.new ≡ B.stops shelf.old }
    ensures agents { AreLeft nodes.old.items nodes.new.items
        (counted (B.faults shelf.old) (B.stops shelf.old))
        (counted (B.faults shelf.new) (B.stops shelf.new)) }
    ensures shelf { KeepsShelf (counted (B.faults shelf.old) (B.stops shelf.old))
        (counted (B.faults shelf.new) (B.stops shelf.new)) result }
    ensures stays { (n : List ℕ) → B.listed shelf.old n ≡ true → B.listed shelf.new n ≡ true }
    ensures cause { IfErr result (HasRunCause group.now.acts nodes.old.items nodes.new.items
        (counted (B.faults shelf.old) (B.stops shelf.old))
        (counted (B.faults shelf.new) (B.stops shelf.new))) }
    ensures mild { IsErrOf result RunFault.WriteFault → ⊥ }
{
    tick(alloc, nodes, group.at, events)?;
    let mut next = start.number;
    for action in group.acts.items() {
        if events.len() as u64 > start.room {
            return Err(RunFault::Long);
        }
        let later = next_ask(next, action);
        act(alloc, nodes, shelf, action, next, events)?;
        next = later;
    }
    if events.len() as u64 > start.room {
        return Err(RunFault::Long);
    }
    Ok(next)
}

/// A round. It answers whether disks have stopped in it.
fn meet<'t, R: Threads + Sync, J: Journal + Drop + Send>(
    resources: &Resources<'_, R>,
    nodes: &mut Vec<Node<'t, J>>,
    room: u64,
) -> Result<bool, RunFault>
    requires net { AreNet nodes.old.items }
    requires few { HaveRoom room nodes.old.items }
    ensures calm { AtHomes nodes.old.items (λ homes tells. IfOk result (λ stopped. stopped ≡ false →
        seats_by tells nodes.new.items ≡ round homes (seats_by tells nodes.old.items))) }
    ensures net { IfOk result (λ stopped. stopped ≡ false → AreNet nodes.new.items) }
    ensures owned { IfOk result (λ stopped. stopped ≡ false →
        StayOwned nodes.old.items nodes.new.items) }
    ensures halts { AtOwned nodes.old.items (λ homes. OnOk result
        ((cuts : Cuts) → AgreesWith cuts nodes.new.items →
        seats_before nodes.new.items ≡ round_by cuts homes (seats_by true nodes.old.items))) }
    ensures halted { OnOk result (AreHalted nodes.new.items) }
    ensures still { OnOk result (AreSame nodes.old.items nodes.new.items) }
    ensures were { AtOwned nodes.old.items (λ homes.
        OnOk result (WereOwned homes nodes.new.items)) }
    ensures moved { AtHomes nodes.old.items (λ homes tells.
        OnOk result (EachIs (MovesOn 0) nodes.old.items nodes.new.items)) }
    ensures long { AtHomes nodes.old.items (λ homes tells. IsErrOf result RunFault.Long →
        let before = seats_by tells nodes.old.items in
        length (events_of before) + room < length (events_of (round homes before))) }
    ensures cause { IfErr result (HasMetCause nodes.new.items) }
    ensures agents { EachIs IsAsPlanned nodes.old.items nodes.new.items }
    ensures counts { stops_among nodes.old.items + stopped_in nodes.new.items
        ≤ stops_among nodes.new.items }
    ensures some { IfOk result (λ stopped. stopped ≡ true → 0 < stopped_in nodes.new.items) }
    ensures plain { AtHomes nodes.old.items (λ homes tells. IfOk result (λ stopped. stopped ≡ true →
        (cuts : Cuts) → AgreesWith cuts nodes.new.items →
        seats nodes.new.items ≡ round_by cuts homes (seats nodes.old.items))) }
{
    match round(resources, nodes, room) {
        Ok(()) => Ok(false),
        Err(fault) => behind_fault(fault),
    }
}

/// What a round's fault is to a run: behind a stop it goes on.
fn behind_fault(fault: RoundFault) -> Result<bool, RunFault>
    ensures { result ≡ behind_fault fault }
{
    match fault {
        RoundFault::Long => Err(RunFault::Long),
        RoundFault::DiskFault(agent) => Err(RunFault::DiskFault(agent)),
        RoundFault::Stopped(_) => Ok(true),
        RoundFault::NoMemory => Err(RunFault::NoMemory),
    }
}

/// Those whose disks have stopped go on, and what has happened then.
fn reopen<'t, J: Journal + Drop, B: Reopen<J>>(
    alloc: Global,
    nodes: &mut Vec<Node<'t, J>>,
    shelf: &mut B,
    events: &mut Vec<SpelledEvent>,
) -> Result<(), RunFault>
    requires halted { AreHalted nodes.old.items }
    requires told { events_of (seats nodes.old.items) ≡ [] }
    requires listed { AreListed (B.listed shelf.old) nodes.old.items }
    requires printable { All IsPrintableEvent events.old.items }
    ensures ok { AtOwnedBefore nodes.old.items (λ homes. OnOk result (GoOnByCuts
        nodes.old.items nodes.new.items events.old.items events.new.items homes)) }
    ensures net { OnOk result (AreNet nodes.new.items) }
    ensures still { OnOk result (AreSame nodes.old.items nodes.new.items) }
    ensures owned { AtOwnedBefore nodes.old.items (λ homes.
        OnOk result (AreOwned homes nodes.new.items)) }
    ensures further { OnOk result
        (GoOn 0 nodes.old.items nodes.new.items events.old.items events.new.items) }
    ensures told { OnOk result (events_of (seats nodes.new.items) ≡ []) }
    ensures printable { OnOk result (All IsPrintableEvent events.new.items) }
    ensures shows { OnOk result (restarts_in events.old.items + stopped_in nodes.old.items
        ≤ restarts_in events.new.items) }
    ensures bounded { OnOk result
        (IsBounded (seats nodes.old.items) → IsBounded (seats nodes.new.items)) }
    ensures agents { AreLeft nodes.old.items nodes.new.items
        (counted (B.faults shelf.old) (B.stops shelf.old))
        (counted (B.faults shelf.new) (B.stops shelf.new)) }
    ensures shelf { KeepsShelf (counted (B.faults shelf.old) (B.stops shelf.old))
        (counted (B.faults shelf.new) (B.stops shelf.new)) result }
    ensures stays { (n : List ℕ) → B.listed shelf.old n ≡ true → B.listed shelf.new n ≡ true }
    ensures cause { IfErr result (HasGoOnCause nodes.old.items
        (counted (B.faults shelf.old) (B.stops shelf.old))
        (counted (B.faults shelf.new) (B.stops shelf.new))) }
    ensures mild { IfErr result IsOfRestart }
{
    routes_exist();
    restart_stopped(alloc, nodes, shelf)?;
    drain(nodes, events)?;
    Ok(())
}

/// A round with the restarts behind it, and what has happened then, where there is room for its events.
fn step<'t, R: Threads + Sync, J: Journal + Drop + Send, B: Reopen<J>>(
    resources: &Resources<'_, R>,
    nodes: &mut Vec<Node<'t, J>>,
    shelf: &mut B,
    events: &mut Vec<SpelledEvent>,
    room: u64,
) -> Result<(), RunFault>
    requires net { AreNet nodes.old.items }
    requires one { AreOfOne nodes.old.items }
    requires told { events_of (seats nodes.old.items) ≡ [] }
    requires printable { All IsPrintableEvent events.old.items }
    requires within { length events.old.items ≤ room }
    requires few { HaveRoom (room - length events.old.items) nodes.old.items }
    requires listed { AreListed (B.listed shelf.old) nodes.old.items }
    ensures ok { AtHomes nodes.old.items (λ homes tells. OnOk result (IsStepped homes tells
        (NoneStopped nodes.old.items nodes.new.items events.old.items events.new.items)
        (more_stops nodes.old.items nodes.new.items) (seats_by tells nodes.old.items) events.old.items events.new.items
        (seats_by tells nodes.new.items))) }
    ensures leaves { OnOk result (LeavesNet 0 nodes.old.items nodes.new.items
        events.old.items events.new.items) }
    ensures within { OnOk result (length events.new.items ≤ room) }
    ensures long { AtHomes nodes.old.items (λ homes tells. IsErrOf result RunFault.Long →
        StepOverruns homes tells (stops_among nodes.new.items ≡ stops_among nodes.old.items)
        (more_stops nodes.old.items nodes.new.items)
        (seats_by tells nodes.old.items) (length events.old.items) room) }
    ensures rises { IsErrOf result RunFault.Long →
        stops_among nodes.old.items ≤ stops_among nodes.new.items }
    ensures level { IsErrOf result RunFault.Long → B.stops shelf.new ≡ B.stops shelf.old }
    ensures agents { AreLeft nodes.old.items nodes.new.items
        (counted (B.faults shelf.old) (B.stops shelf.old))
        (counted (B.faults shelf.new) (B.stops shelf.new)) }
    ensures shelf { KeepsShelf (counted (B.faults shelf.old) (B.stops shelf.old))
        (counted (B.faults shelf.new) (B.stops shelf.new)) result }
    ensures stays { (n : List ℕ) → B.listed shelf.old n ≡ true → B.listed shelf.new n ≡ true }
    ensures cause { IfErr result (HasSettleCause [] nodes.old.items nodes.new.items
        (counted (B.faults shelf.old) (B.stops shelf.old))
        (counted (B.faults shelf.new) (B.stops shelf.new))) }
    ensures mild { IsErrOf result RunFault.WriteFault → ⊥ }
{
    routes_exist();
    nets_are_bounded();
    rounds();
    let left = room - events.len() as u64;
    let has_stopped = meet(resources, nodes, left)?;
    drain(nodes, events)?;
    if events.len() as u64 > room {
        return Err(RunFault::Long);
    }
    if !has_stopped {
        return Ok(());
    }
    reopen(resources.alloc, nodes, shelf, events)?;
    if events.len() as u64 > room {
        return Err(RunFault::Long);
    }
    Ok(())
}

/// Rounds until something happens or all agents are quiet. It answers whether they are.
fn advance<'t, R: Threads + Sync, J: Journal + Drop + Send, B: Reopen<J>>(
    resources: &Resources<'_, R>,
    nodes: &mut Vec<Node<'t, J>>,
    shelf: &mut B,
    events: &mut Vec<SpelledEvent>,
    room: u64,
) -> Result<bool, RunFault>
    requires net { AreNet nodes.old.items }
    requires bounded { IsBounded (seats nodes.old.items) }
    requires one { AreOfOne nodes.old.items }
    requires told { events_of (seats nodes.old.items) ≡ [] }
    requires printable { All IsPrintableEvent events.old.items }
    requires within { length events.old.items ≤ room }
    requires few { HaveRoom (room - length events.old.items) nodes.old.items }
    requires listed { AreListed (B.listed shelf.old) nodes.old.items }
    ensures ok { AtHomes nodes.old.items (λ homes tells. IfOk result (λ quiet.
        (own : List EventOf) × (events.new.items ≡ events.old.items ++ own)
        × AreSettled homes tells
        (NoneStopped nodes.old.items nodes.new.items events.old.items events.new.items)
        (more_stops nodes.old.items nodes.new.items) (seats_by tells nodes.old.items) own (seats_by tells nodes.new.items)
        × (quiet ≡ true → all_quiet homes (seats_by tells nodes.new.items) ≡ true))) }
    ensures leaves { OnOk result (LeavesNet 0 nodes.old.items nodes.new.items
        events.old.items events.new.items) }
    ensures more { IfOk result (λ quiet.
        quiet ≡ false → length events.old.items < length events.new.items) }
    ensures within { OnOk result (length events.new.items ≤ room) }
    ensures long { AtHomes nodes.old.items (λ homes tells. IsErrOf result RunFault.Long →
        Overrun homes tells (stops_among nodes.new.items ≡ stops_among nodes.old.items)
        (more_stops nodes.old.items nodes.new.items)
        (seats_by tells nodes.old.items) (length events.old.items) room) }
    ensures rises { IsErrOf result RunFault.Long →
        stops_among nodes.old.items ≤ stops_among nodes.new.items }
    ensures level { IsErrOf result RunFault.Long → B.stops shelf.new ≡ B.stops shelf.old }
    ensures agents { AreLeft nodes.old.items nodes.new.items
        (counted (B.faults shelf.old) (B.stops shelf.old))
        (counted (B.faults shelf.new) (B.stops shelf.new)) }
    ensures shelf { KeepsShelf (counted (B.faults shelf.old) (B.stops shelf.old))
        (counted (B.faults shelf.new) (B.stops shelf.new)) result }
    ensures stays { (n : List ℕ) → B.listed shelf.old n ≡ true → B.listed shelf.new n ≡ true }
    ensures cause { IfErr result (HasSettleCause [] nodes.old.items nodes.new.items
        (counted (B.faults shelf.old) (B.stops shelf.old))
        (counted (B.faults shelf.new) (B.stops shelf.new))) }
    ensures mild { IsErrOf result RunFault.WriteFault → ⊥ }
{
    routes_exist();
    left_falls();
    while !settled(nodes) {
        let before = events.len();
        step(resources, nodes, shelf, events, room)?;
        if events.len() > before {
            return Ok(false);
        }
    }
    Ok(true)
}

/// Rounds until all agents are quiet. Those whose disks stop in one go on behind it.
pub fn settle<'t, R: Threads + Sync, J: Journal + Drop + Send, B: Reopen<J>>(
    resources: &Resources<'_, R>,
    nodes: &mut Vec<Node<'t, J>>,
    shelf: &mut B,
    events: &mut Vec<SpelledEvent>,
    room: u64,
) -> Result<(), RunFault>
    requires net { AreNet nodes.old.items }
    requires bounded { IsBounded (seats nodes.old.items) }
    requires one { AreOfOne nodes.old.items }
    requires told { events_of (seats nodes.old.items) ≡ [] }
    requires printable { All IsPrintableEvent events.old.items }
    requires within { length events.old.items ≤ room }
    requires few { HaveRoom (room - length events.old.items) nodes.old.items }
    requires listed { AreListed (B.listed shelf.old) nodes.old.items }
    ensures ok { AtHomes nodes.old.items (λ homes tells. OnOk result
        ((own : List EventOf) × (events.new.items ≡ events.old.items ++ own)
        × AreSettled homes tells
        (NoneStopped nodes.old.items nodes.new.items events.old.items events.new.items)
        (more_stops nodes.old.items nodes.new.items) (seats_by tells nodes.old.items) own (seats_by tells nodes.new.items)
        × (all_quiet homes (seats_by tells nodes.new.items) ≡ true))) }
    ensures leaves { OnOk result (LeavesNet 0 nodes.old.items nodes.new.items
        events.old.items events.new.items) }
    ensures within { OnOk result (length events.new.items ≤ room) }
    ensures long { AtHomes nodes.old.items (λ homes tells. IsErrOf result RunFault.Long →
        Overrun homes tells (stops_among nodes.new.items ≡ stops_among nodes.old.items)
        (more_stops nodes.old.items nodes.new.items)
        (seats_by tells nodes.old.items) (length events.old.items) room) }
    ensures rises { IsErrOf result RunFault.Long →
        stops_among nodes.old.items ≤ stops_among nodes.new.items }
    ensures level { IsErrOf result RunFault.Long → B.stops shelf.new ≡ B.stops shelf.old }
    ensures agents { AreLeft nodes.old.items nodes.new.items
        (counted (B.faults shelf.old) (B.stops shelf.old))
        (counted (B.faults shelf.new) (B.stops shelf.new)) }
    ensures shelf { KeepsShelf (counted (B.faults shelf.old) (B.stops shelf.old))
        (counted (B.faults shelf.new) (B.stops shelf.new)) result }
    ensures stays { (n : List ℕ) → B.listed shelf.old n ≡ true → B.listed shelf.new n ≡ true }
    ensures cause { IfErr result (HasSettleCause [] nodes.old.items nodes.new.items
        (counted (B.faults shelf.old) (B.stops shelf.old))
        (counted (B.faults shelf.new) (B.stops shelf.new))) }
    ensures mild { IsErrOf result RunFault.WriteFault → ⊥ }
{
    let mut quiet = false;
    while !quiet {
        quiet = advance(resources, nodes, shelf, events, room)?;
    }
    Ok(())
}
