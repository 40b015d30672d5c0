//! A whole run over the disks of a shelf.

ghost use Rattle.std.specs.Prelude.{◌≡◌, ◌≤◌, ◌<◌, ◌++◌, ℕ, List, true, length, IfOk, IfErr, OnOk, OnErr, IsErrOf};
ghost use Rattle.nsi_outside.specs.Stream.{WritesAll};
ghost use Rattle.nsi_script.specs.Fits.{Fits, IsRising};
ghost use Rattle.nsi_script.specs.Lines.{greatest_asks};
ghost use Rattle.nsi_script.specs.Scripts.{asks_of, seconds_of};
ghost use Rattle.agent_node.specs.Restarts.{restart_events};
ghost use Rattle.agent_threads.specs.Nets.{AreOf, AreNet, AreListed};
ghost use Rattle.agent_threads.specs.Bounds.{AreReady};
ghost use Rattle.agent_threads.specs.Reports.{written};
ghost use Rattle.agent_threads.specs.Promise.{CanBePlayed};
ghost use Rattle.nsi_play.specs.Openings.{plans_of};
ghost use Rattle.agent_threads.specs.Made.{IsOfAgent, counted};
ghost use Rattle.net_run.specs.Worlds.{WritesPlay, WritesTooLong, WritesGroups, WritesSomeOfPlay};
ghost use Rattle.net_run.specs.Begun.{restarts_from};
ghost use Rattle.net_run.specs.Behind.{TellsFront, IsOfTelling, PlaysBehind};
ghost use Rattle.net_run.specs.Held.{AreTold, IsShown};
ghost use Rattle.net_run.specs.Shelves.{HasFaultOf, IsQuiet};

use crate::closing::close_net;
use crate::joints::agent_at;
use crate::opening::open_net;
use agent_node::{Node, Reopen};
use agent_threads::{Play, Resources, RunFault, RunOptions, play_all, write_text, written};
use journal_entry::Journal;
use least_routes::laws::routes_exist;
use nsi_base::AgentNo;
use nsi_disk::Shelf;
use nsi_outside::Sink;
use nsi_play::laws::needs_no_past;
use nsi_primitive::{Event, Happening};
use nsi_script::Script;
use quiet_rounds::laws::nets_are_bounded;
use run_totals::Totals;
use std::alloc::{AllocError, Global};
use std::thread::Threads;
use stopped_play::laws::runs;
use stp_topology::Topology;
use trace_text::SpelledEvent;

/// Puts a restart with no entry behind for each time that an agent's journal was made anew.
fn push_restarts(
    events: &mut Vec<SpelledEvent>,
    agent: AgentNo,
    times: u64,
) -> Result<(), AllocError>
    ensures { OnOk result (events.new.items ≡ events.old.items ++ restart_events times agent 0) }
{
    let alloc = *events.allocator();
    for _ in 0..times {
        let event = Event {
            agent,
            what: Happening::Restart { count: 0 },
        };
        events.push(SpelledEvent::bare(alloc, event))?;
    }
    Ok(())
}

/// The restarts of all, in the agents' order.
fn restarts_of(
    alloc: Global,
    topology: &Topology,
    tries: &[u64],
) -> Result<Vec<SpelledEvent>, AllocError>
    requires { length tries.now ≡ length topology.now.agents }
    ensures { IfOk result (λ events. events.items ≡ restarts_from 0 tries.now) }
{
    let mut events = Vec::new(alloc);
    for place in 0..topology.agents() {
        push_restarts(&mut events, agent_at(place), tries[place])?;
    }
    Ok(events)
}

/// Tells the restarts of a play before its groups.
fn tell_restarts<K: Sink>(
    alloc: Global,
    play: &Play<'_>,
    tries: &[u64],
    out: &mut K,
) -> Result<Vec<SpelledEvent>, RunFault>
    requires { length tries.now ≡ length play.now.topology.now.agents }
    ensures made { IfOk result (λ made. made.items ≡ restarts_from 0 tries.now) }
    ensures few { OnOk result (length (restarts_from 0 tries.now) ≤ play.now.options.limit) }
    ensures all { OnOk result (WritesAll (K.content out.old) (K.content out.new)
        (written play.now.options.report play.now.topology.now (restarts_from 0 tries.now))) }
    ensures front { OnErr result (TellsFront play.now.topology.now play.now.options
        (restarts_from 0 tries.now) (K.content out.old) (K.content out.new)) }
    ensures long { IsErrOf result RunFault.Long →
        (play.now.options.limit < length (restarts_from 0 tries.now))
        × (K.content out.new ≡ K.content out.old) }
    ensures cause { IfErr result IsOfTelling }
    ensures write { IsErrOf result RunFault.WriteFault → K.faults out.old < K.faults out.new }
    ensures quiet { (IsErrOf result RunFault.WriteFault → ⊥) →
        K.faults out.new ≡ K.faults out.old }
{
    let made = restarts_of(alloc, play.topology, tries)?;
    if made.len() as u64 > play.options.limit {
        return Err(RunFault::Long);
    }
    let text = written(alloc, play.options.report, play.topology, &made)?;
    write_text(out, &text)?;
    Ok(made)
}

/// Plays groups behind the restarts that came while journals were made, which are told first.
fn play_behind<'t, R: Threads + Sync, J: Journal + Drop + Send, B: Reopen<J>, K: Sink>(
    resources: &Resources<'_, R>,
    play: &Play<'_>,
    tries: &[u64],
    nodes: &mut Vec<Node<'t, J>>,
    shelf: &mut B,
    out: &mut K,
) -> Result<Totals, RunFault>
    requires tries { length tries.now ≡ length play.now.topology.now.agents }
    requires net { AreNet nodes.old.items }
    requires of { AreOf play.now.topology.now nodes.old.items }
    requires can { CanBePlayed play.now.topology.now play.now.groups.now }
    requires ready { AreReady play.now.topology.now nodes.old.items }
    requires rising { IsRising (seconds_of play.now.groups.now) }
    requires asks { asks_of play.now.groups.now ≤ greatest_asks }
    requires limit { play.now.options.limit ≤ 2000000 }
    requires listed { AreListed (B.listed shelf.old) nodes.old.items }
    ensures behind { PlaysBehind play.now.topology.now play.now.options
        (restarts_from 0 tries.now) play.now.groups.now nodes.old.items nodes.new.items
        (counted (B.faults shelf.old) (B.stops shelf.old))
        (counted (B.faults shelf.new) (B.stops shelf.new))
        (K.content out.old) (K.content out.new) (K.faults out.old) (K.faults out.new) result }
    ensures stays { (n : List ℕ) → B.listed shelf.old n ≡ true → B.listed shelf.new n ≡ true }
{
    let made = match tell_restarts(resources.alloc, play, tries, out) {
        Ok(made) => made,
        Err(fault) => return Err(fault),
    };
    let rest = Play {
        topology: play.topology,
        groups: play.groups,
        options: RunOptions {
            limit: play.options.limit - made.len() as u64,
            report: play.options.report,
        },
    };
    match play_all(resources, &rest, nodes, shelf, out) {
        Ok(own) => Ok(own.and_more(play.topology, &made)),
        Err(fault) => Err(fault),
    }
}

/// Plays the groups of a script with the agents of a topology, each round by so many workers at most. Their links lose
/// and repeat what the script plans. Their journals are kept on the disks of their names, and begin empty. What is
/// wanted of each group is written in its end. It answers the numbers of all. The disks are given back, however the run
/// ends.
pub fn run_world<R: Threads + Sync, K: Sink, H: Shelf>(
    resources: &Resources<'_, R>,
    topology: &Topology,
    script: &Script,
    options: RunOptions,
    shelf: &mut H,
    out: &mut K,
) -> Result<Totals, RunFault>
where
    H::Disk: Drop + Send,
    requires limit { options.limit ≤ 2000000 }
    requires fits { Fits topology.now script.now }

    // What is wanted of the play is written, and the disk of each agent reads as its journal of it.
    ensures done { IfOk result (λ n. WritesPlay topology.now options
        (plans_of script.now.lose) (H.holds shelf.old) (H.holds shelf.new)
        (H.stops shelf.old) (H.stops shelf.new) script.now.groups
        (K.content out.old) (K.content out.new) n) }

    // It is too long only where the play passes the limit, and then the groups that fit were written.
    ensures long { IsErrOf result RunFault.Long → WritesTooLong topology.now options
        (plans_of script.now.lose) (length script.now.stops) (H.holds shelf.old)
        (H.stops shelf.old) (H.stops shelf.new) script.now.groups
        (K.content out.old) (K.content out.new) }

    // Another fault comes only from outside. Where a disk has failed or a journal has no reading, whole groups were
    // written; else a front of them.
    ensures whole { IfErr result (λ e. IsOfAgent e → WritesGroups topology.now options
        (plans_of script.now.lose) (H.holds shelf.old)
        (H.stops shelf.old) (H.stops shelf.new) script.now.groups
        (K.content out.old) (K.content out.new)) }
    ensures front { OnErr result (WritesSomeOfPlay topology.now options
        (plans_of script.now.lose) (H.holds shelf.old)
        (H.stops shelf.old) (H.stops shelf.new) script.now.groups
        (K.content out.old) (K.content out.new)) }
    ensures cause { IfErr result (HasFaultOf topology.now
        (AreTold topology.now (H.holds shelf.old))
        (IsShown topology.now script.now.groups (H.holds shelf.old))
        (H.faults shelf.old) (H.faults shelf.new) (H.stops shelf.old) (H.stops shelf.new)) }
    ensures write { IsErrOf result RunFault.WriteFault → K.faults out.old < K.faults out.new }

    // No fault is swallowed.
    ensures calm { OnOk result (IsQuiet (H.faults shelf.old) (H.faults shelf.new)
        (H.stops shelf.old) (H.stops shelf.new)) }
    ensures quiet { (IsErrOf result RunFault.WriteFault → ⊥) →
        K.faults out.new ≡ K.faults out.old }
{
    topology.laws();
    routes_exist();
    needs_no_past();
    nets_are_bounded();
    runs();
    let (mut nodes, tries) = match open_net(resources.alloc, topology, script, shelf) {
        Ok(opened) => opened,
        Err(fault) => return Err(fault),
    };
    let play = Play {
        topology,
        groups: script.groups.items(),
        options,
    };
    let played = play_behind(resources, &play, &tries, &mut nodes, shelf, out);
    close_net(nodes, topology, shelf);
    played
}
