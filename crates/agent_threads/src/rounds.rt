//! Rounds of all agents.

ghost use Rattle.std.specs.Prelude.{◌≡◌, ◌<◌, ◌≤◌, ◌+◌, ℕ, [], ◌∷◌, length, slice_index_or, Option, Some, None, true, IsErrOf, IfErr, OnOk, OnErr};
ghost use Rattle.std.specs.List.{All, list_all};
ghost use Rattle.agent_node.specs.Made.{IsTurn};
ghost use Rattle.nsi_play.specs.Rounds.{round, events_of, all_quiet};
ghost use Rattle.agent_node.specs.Kept.{Kept};
ghost use Rattle.agent_threads.specs.Nets.{seats, seats_by, EachIs, AtHomes, AreSame, IsAsPlanned, IsUsable, AreUsable, AreNet};
ghost use Rattle.agent_threads.specs.Leaving.{StayOwned};
ghost use Rattle.agent_threads.specs.Bounds.{MovesOn};
ghost use Rattle.stopped_play.specs.Tapes.{Cuts};
ghost use Rattle.stopped_play.specs.Rounds.{round_by};
ghost use Rattle.agent_threads.specs.Stopping.{stopped_in, stops_among, IsStop, AreHalted, AgreesWith, seats_before, WereOwned, AtOwned};
ghost use Rattle.agent_threads.specs.Made.{HasRoom, HaveRoom, failure_at, stop_at, first_failure, first_stop, fault_of, answer, HasRisen, faults_in, stops_in};

use crate::fault::RoundFault;
use crate::meeting::meet_all;
use crate::resources::Resources;
use agent_node::{Node, TurnFault};
use journal_entry::Journal;
use nsi_base::AgentNo;
use std::thread;
use std::thread::Threads;

/// So many turns of agents that have something to do pay for a thread, which costs some 15 microseconds.
const TURNS_A_WORKER: usize = 8;

/// By how many workers a round is made, of so many: one, where few agents have something to do.
fn workers_for<'t, J: Journal + Drop>(nodes: &[Node<'t, J>], most: usize) -> usize
    ensures { 0 < result }
{
    if most <= 1 {
        return 1;
    }
    let busy = nodes.iter().filter(|node| !node.quiet()).count();
    (busy / TURNS_A_WORKER).clamp(1, most)
}

/// Every agent has its turn, by so many workers at once.
fn turn_each<'t, R: Threads + Sync, J: Journal + Drop + Send>(
    resources: &Resources<'_, R>,
    workers: usize,
    nodes: &mut [Node<'t, J>],
    room: u64,
)
    requires workers { 0 < workers }
    requires usable { All IsUsable nodes.old }
    requires few { All (HasRoom room) nodes.old }
    ensures len { length nodes.new ≡ length nodes.old }
    ensures each { (i : ℕ) (d : Kept) → i < length nodes.old →
        IsTurn room (slice_index_or nodes.old i d) (slice_index_or nodes.new i d) }
{
    let alloc = resources.alloc;
    let rt = resources.threads;
    thread::for_each_mut(rt, nodes, workers, &|_, node| node.take_turn(alloc, room));
}

/// Every agent has its turn, also where another one's fails: each keeps its fault.
fn turn_all<'t, R: Threads + Sync, J: Journal + Drop + Send>(
    resources: &Resources<'_, R>,
    nodes: &mut Vec<Node<'t, J>>,
    room: u64,
)
    requires usable { AreUsable nodes.old.items }
    requires few { HaveRoom room nodes.old.items }
    ensures { EachIs (IsTurn room) nodes.old.items nodes.new.items }
{
    let workers = workers_for(nodes, resources.workers);
    turn_each(resources, workers, nodes, room);
}

fn failure_of(agent: AgentNo, fault: Option<TurnFault>) -> Option<RoundFault>
    ensures { result ≡ failure_at agent fault }
{
    match fault? {
        TurnFault::Long => Some(RoundFault::Long),
        TurnFault::DiskFault => Some(RoundFault::DiskFault(agent)),
        TurnFault::Stopped => None,
        TurnFault::NoMemory => Some(RoundFault::NoMemory),
    }
}

fn stop_of(agent: AgentNo, fault: Option<TurnFault>) -> Option<RoundFault>
    ensures { result ≡ stop_at agent fault }
{
    match fault {
        Some(TurnFault::Stopped) => Some(RoundFault::Stopped(agent)),
        _ => None,
    }
}

/// The fault of the first agent whose turn failed otherwise than by a stop.
fn first_failure<'t, J: Journal + Drop>(nodes: &[Node<'t, J>]) -> Option<RoundFault>
    ensures { result ≡ first_failure nodes.now }
{
    for node in nodes {
        let failure = failure_of(node.number(), node.fault());
        if failure.is_some() {
            return failure;
        }
    }
    None
}

/// The stop of the first agent whose disk stopped.
fn first_stop<'t, J: Journal + Drop>(nodes: &[Node<'t, J>]) -> Option<RoundFault>
    ensures { result ≡ first_stop nodes.now }
{
    for node in nodes {
        let stop = stop_of(node.number(), node.fault());
        if stop.is_some() {
            return stop;
        }
    }
    None
}

/// A round, by so many workers at most: every agent has its turn, as if all at once, and then each learns what was let through to
/// it. Every turn has the whole room. Where one fails, all are made; the agents are then only good for giving their disks back.
/// Where disks have only stopped, all learn what was let through, and those that stopped may be restarted.
pub fn round<'t, R: Threads + Sync, J: Journal + Drop + Send>(
    resources: &Resources<'_, R>,
    nodes: &mut Vec<Node<'t, J>>,
    room: u64,
) -> Result<(), RoundFault>
    requires net { AreNet nodes.old.items }
    requires few { HaveRoom room nodes.old.items }
    ensures ok { AtHomes nodes.old.items (λ homes tells. OnOk result
        (seats_by tells nodes.new.items ≡ round homes (seats_by tells nodes.old.items))) }
    ensures net { OnOk result (AreNet nodes.new.items) }
    ensures same { OnOk result (AreSame nodes.old.items nodes.new.items) }
    ensures long { AtHomes nodes.old.items (λ homes tells. IsErrOf result RoundFault.Long →
        let before = seats_by tells nodes.old.items in
        length (events_of before) + room < length (events_of (round homes before))) }
    ensures disk { (a : ℕ) → IsErrOf result (RoundFault.DiskFault a) →
        HasRisen faults_in a nodes.old.items nodes.new.items }
    ensures stopped { (a : ℕ) → IsErrOf result (RoundFault.Stopped a) →
        HasRisen stops_in a nodes.old.items nodes.new.items }

    // Where disks have stopped and no call has failed, it is made as far as the disks go, for whichever cuts are of
    // those that stopped.
    ensures halts { AtOwned nodes.old.items (λ homes. IfErr result (λ e. IsStop e →
        (cuts : Cuts) → AgreesWith cuts nodes.new.items →
        seats_before nodes.new.items ≡ round_by cuts homes (seats_by true nodes.old.items))) }
    ensures halted { IfErr result (λ e. IsStop e → AreHalted nodes.new.items) }
    ensures still { IfErr result (λ e. IsStop e → AreSame nodes.old.items nodes.new.items) }
    ensures were { AtOwned nodes.old.items (λ homes.
        IfErr result (λ e. IsStop e → WereOwned homes nodes.new.items)) }
    ensures moved { AtHomes nodes.old.items (λ homes tells.
        IfErr result (λ e. IsStop e → EachIs (MovesOn 0) nodes.old.items nodes.new.items)) }

    ensures plain { AtHomes nodes.old.items (λ homes tells. IfErr result (λ e. IsStop e →
        (cuts : Cuts) → AgreesWith cuts nodes.new.items →
        seats nodes.new.items ≡ round_by cuts homes (seats nodes.old.items))) }

    // No stop is hidden, however it ends.
    ensures counts { stops_among nodes.old.items + stopped_in nodes.new.items
        ≤ stops_among nodes.new.items }

    // Of several faults it is the first agent's that isn't a stop.
    ensures first { OnErr result (result ≡ answer (fault_of nodes.new.items)) }
    ensures agents { EachIs IsAsPlanned nodes.old.items nodes.new.items }
    ensures owned { OnOk result (StayOwned nodes.old.items nodes.new.items) }
    ensures moves { AtHomes nodes.old.items (λ homes tells.
        OnOk result (EachIs (MovesOn 0) nodes.old.items nodes.new.items)) }
{
    turn_all(resources, nodes, room);
    if let Some(fault) = first_failure(nodes) {
        return Err(fault);
    }
    meet_all(nodes);
    match first_stop(nodes) {
        Some(stop) => Err(stop),
        None => Ok(()),
    }
}

/// Whether all agents are quiet: nothing is unsynced, no work waits, nothing is to be pushed and nothing came.
pub fn settled<'t, J: Journal + Drop>(nodes: &[Node<'t, J>]) -> bool
    ensures { AtHomes nodes.now (λ homes tells.
        result ≡ all_quiet homes (seats_by tells nodes.now)) }
{
    for node in nodes {
        let is_quiet = node.quiet();
        if !is_quiet {
            return false;
        }
    }
    true
}
