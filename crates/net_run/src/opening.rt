//! Agents are begun on the disks of a shelf.

ghost use Rattle.std.specs.Prelude.{◌≡◌, ◌≤◌, ◌<◌, List, ℕ, true, [], length, Some, IfOk, IfErr, IfSome, OnOk};
ghost use Rattle.std.specs.List.{All};
ghost use Rattle.stp_topology.specs.Network.{name_of};
ghost use Rattle.agent_node.specs.Openings.{others_of};
ghost use Rattle.agent_node.specs.Kept.{AreEnds, plugs_of};
ghost use Rattle.nsi_play.specs.Openings.{plans_of};
ghost use Rattle.net_run.specs.Joints.{IsShutJoint, ArePlannable, AreJoined};
ghost use Rattle.net_run.specs.Begun.{IsFresh, AreBegun, AreListed, AreOpened, fault_of, refusal_of, stops_of};
ghost use Rattle.net_run.specs.Journals.{no_entries, AreEmpty};
ghost use Rattle.net_run.specs.Shelves.{IsStartFault};

use crate::closing::close_net;
use crate::joints::{Joint, Own, agent_at, join_all, own_ends};
use agent_link::{Incoming, Outgoing};
use agent_node::Node;
use agent_threads::RunFault;
use disk_journal::{DiskJournal, StartCause};
use nsi_base::{AgentNo, List};
use nsi_disk::{Shelf, ShelfError, Stop};
use nsi_script::{Script, StopLine};
use std::alloc::{AllocError, Global};
use stp_topology::Topology;

/// Why an agent wasn't begun whose disk has failed.
fn fault_of(agent: AgentNo, cause: StartCause) -> RunFault
    ensures { result ≡ fault_of agent cause }
{
    match cause {
        StartCause::DiskFault => RunFault::DiskFault(agent),
        StartCause::Stopped | StartCause::NotAJournal { .. } | StartCause::NoMemory => {
            RunFault::NoMemory
        }
    }
}

/// Why a shelf gave no disk of an agent.
fn refusal_of(agent: AgentNo, error: ShelfError) -> RunFault
    ensures { result ≡ refusal_of agent error }
{
    match error {
        ShelfError::Failed => RunFault::DiskFault(agent),
        ShelfError::NoMemory => RunFault::NoMemory,
    }
}

/// At which calls the disk of an agent is to stop.
fn stops_of(alloc: Global, lines: &[StopLine], agent: AgentNo) -> Result<Vec<Stop>, AllocError>
    ensures { IfOk result (λ stops. stops.items ≡ stops_of lines.now agent) }
{
    let mut stops = Vec::new(alloc);
    for line in lines {
        if line.agent == agent {
            stops.push(line.stop)?;
        }
    }
    Ok(stops)
}

/// Begins an agent on its disk. Where the disk stops meanwhile it is begun again, until no stop is left; it tells how
/// often.
fn begin_one<'t, H: Shelf>(
    alloc: Global,
    topology: &'t Topology,
    agent: AgentNo,
    ends: (List<Outgoing>, List<Incoming>),
    planned: &[Stop],
    shelf: &mut H,
) -> Result<(Node<'t, DiskJournal<H::Disk>>, u64), RunFault>
where
    H::Disk: Drop,
    requires within { agent < length topology.now.agents }
    requires ends { AreEnds (others_of topology.now agent) ends.0 ends.1 }
    ensures fresh { IfOk result (λ r. IsFresh topology.now agent ends.0
        (plugs_of (others_of topology.now agent) ends.0 ends.1) (length planned.now) r.1 r.0) }
    ensures empty { IfOk result (λ r. IfSome (H.holds shelf.old (name_of topology.now agent))
        (λ bytes. r.0.kept ≡ Some no_entries)) }
    ensures holds { OnOk result ((n : List ℕ) → H.holds shelf.new n ≡ H.holds shelf.old n) }
    ensures listed { OnOk result (H.listed shelf.new (name_of topology.now agent) ≡ true) }
    ensures stays { (n : List ℕ) → H.listed shelf.old n ≡ true → H.listed shelf.new n ≡ true }
    ensures faults { OnOk result (H.faults shelf.new ≡ H.faults shelf.old) }
    ensures stops { OnOk result (H.stops shelf.new ≡ H.stops shelf.old) }
    ensures cause { IfErr result (IsStartFault (length topology.now.agents)
        (H.faults shelf.old) (H.faults shelf.new) (H.stops shelf.old) (H.stops shelf.new)) }
{
    let name = topology.name(agent);
    let mut disk = match shelf.fetch(alloc, name, planned) {
        Ok(disk) => disk,
        Err(error) => return Err(refusal_of(agent, error)),
    };
    let (mut outgoing, mut incoming) = ends;
    let mut tries: u64 = 0;
    loop {
        let stopped = match Node::fresh(alloc, topology, agent, disk, outgoing, incoming) {
            Ok(node) => return Ok((node, tries)),
            Err(fault) => fault,
        };
        if stopped.cause != StartCause::Stopped {
            let cause = fault_of(agent, stopped.cause);
            shelf.give_back(name, stopped.disk);
            return Err(cause);
        }
        disk = match shelf.fetch_again(alloc, name, stopped.disk) {
            Ok(disk) => disk,
            Err(error) => return Err(refusal_of(agent, error)),
        };
        outgoing = stopped.outgoing;
        incoming = stopped.incoming;
        tries = tries.saturating_add(1);
    }
}

/// Begins each agent of a topology, and puts it behind. It gives how often each one's disk stopped.
fn begin_all<'t, H: Shelf>(
    alloc: Global,
    topology: &'t Topology,
    joints: Vec<Joint>,
    nodes: &mut Vec<Node<'t, DiskJournal<H::Disk>>>,
    lines: &[StopLine],
    shelf: &mut H,
) -> Result<Vec<u64>, RunFault>
where
    H::Disk: Drop,
    requires none { nodes.old.items ≡ [] }
    requires shut { All IsShutJoint joints.items }
    requires planned { ArePlannable joints.items }
    requires joined { AreJoined topology.now (length topology.now.agents) joints.items }
    ensures begun { IfOk result (λ tries.
        AreBegun topology.now joints.items lines.now 0 tries.items nodes.new.items) }
    ensures few { length nodes.new.items ≤ length topology.now.agents }
    ensures all { IfOk result (λ tries. length tries.items ≡ length topology.now.agents) }
    ensures empty { OnOk result (AreEmpty topology.now (H.holds shelf.old) nodes.new.items) }
    ensures listed { AreListed (H.listed shelf.new) topology.now nodes.new.items }
    ensures faults { OnOk result (H.faults shelf.new ≡ H.faults shelf.old) }
    ensures stops { OnOk result (H.stops shelf.new ≡ H.stops shelf.old) }
    ensures cause { IfErr result (IsStartFault (length topology.now.agents)
        (H.faults shelf.old) (H.faults shelf.new) (H.stops shelf.old) (H.stops shelf.new)) }
{
    nodes.reserve(topology.agents())?;
    let mut tries = Vec::with_capacity(alloc, topology.agents())?;
    let mut left = joints;
    for place in 0..topology.agents() {
        let agent = agent_at(place);
        let own = own_ends(alloc, topology, agent, left)?;
        let Own {
            outgoing,
            incoming,
            rest,
        } = own;
        let planned = stops_of(alloc, lines, agent)?;
        let (node, stopped) = begin_one(
            alloc,
            topology,
            agent,
            (outgoing, incoming),
            &planned,
            shelf,
        )?;
        nodes.push_reserved(node);
        tries.push_reserved(stopped);
        left = rest;
    }
    Ok(tries)
}

/// Begins the agents of a topology, each on the disk of its name, which is emptied, and joins them by links. The
/// script plans what of these is lost and what comes twice, and where the disks stop. It gives them with how often each
/// one's disk stopped while its journal was made. On a fault each disk that was fetched is given back.
pub fn open_net<'t, H: Shelf>(
    alloc: Global,
    topology: &'t Topology,
    script: &Script,
    shelf: &mut H,
) -> Result<(Vec<Node<'t, DiskJournal<H::Disk>>>, Vec<u64>), RunFault>
where
    H::Disk: Drop,
    ensures opened { IfOk result (λ r. AreOpened topology.now (plans_of script.now.lose)
        script.now.stops r.1.items r.0.items) }
    ensures empty { IfOk result (λ r. AreEmpty topology.now (H.holds shelf.old) r.0.items) }
    ensures listed { IfOk result
        (λ r. AreListed (H.listed shelf.new) topology.now r.0.items) }
    ensures faults { OnOk result (H.faults shelf.new ≡ H.faults shelf.old) }
    ensures stops { OnOk result (H.stops shelf.new ≡ H.stops shelf.old) }
    ensures cause { IfErr result (IsStartFault (length topology.now.agents)
        (H.faults shelf.old) (H.faults shelf.new) (H.stops shelf.old) (H.stops shelf.new)) }
{
    let joints = join_all(alloc, topology, script.lose.items())?;
    let mut nodes = Vec::new(alloc);
    match begin_all(
        alloc,
        topology,
        joints,
        &mut nodes,
        script.stops.items(),
        shelf,
    ) {
        Ok(tries) => Ok((nodes, tries)),
        Err(fault) => {
            close_net(nodes, topology, shelf);
            Err(fault)
        }
    }
}
