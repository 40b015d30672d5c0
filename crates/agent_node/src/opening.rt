//! An agent of a net before anything has happened.

ghost use Rattle.std.specs.Prelude.{ℕ, ◌≡◌, ◌≤◌, ◌<◌, ◌==◌, [], ◌∷◌, ◌++◌, None, Some, false, length, map, filter, vec_capacity, box_value, IfOk, IfErr, OnOk, is_some};
ghost use Rattle.std.specs.List.{list_any};
ghost use Rattle.journal_entry.specs.Journal.{MayLeaveSynced};
ghost use Rattle.journal_entry.specs.Journals.{recovers};
ghost use Rattle.journal_entry.specs.Payloads.{batch_of};
ghost use Rattle.disk_journal.specs.StartOf.{StartsFor, KeepsCounts, Keeps, ReadsNothing, StaysTold};
ghost use Rattle.agent_link.specs.Plans.{Plan};
ghost use Rattle.agent_node.specs.Openings.{is_provider_of, asks, are_linked, others_of, Plans, nothing_planned, opened, seat_of};
ghost use Rattle.agent_node.specs.declared.fault.TurnFault.{TurnFault as AFault};
ghost use Rattle.agent_node.specs.Kept.{AreEnds, ArePlanned, LeavesBatch, plugs_of};

use crate::links::{Link, Links};
use crate::node::Node;
use crate::queue::Queue;
use crate::seated::Core;
use agent_link::{Incoming, Outgoing};
use disk_journal::{DiskJournal, StartCause};
use nsi_agent::Agent;
use nsi_base::{AgentNo, List};
use nsi_disk::Disk;
use std::alloc::{AllocError, Global};
use stp_topology::{AgentKind, Topology};

/// Why an agent wasn't begun, and all that was handed in.
#[derive(Drop)]
pub struct NodeFault<D> {
    pub cause: StartCause,
    pub disk: D,
    pub outgoing: List<Outgoing>,
    pub incoming: List<Incoming>,
}

/// The number of an agent at its place.
fn agent_at(place: usize) -> AgentNo
    requires { place ≤ 63 }
    ensures { result ≡ place }
{
    match AgentNo::new(place as u16) {
        Some(agent) => agent,
        None => unreachable!(),
    }
}

fn is_provider_of(b: AgentNo, kind: AgentKind) -> bool
    ensures { result ≡ is_provider_of b (Some kind) }
{
    match kind {
        AgentKind::Requester { provider } => provider == b,
        _ => false,
    }
}

fn has_child(children: &[AgentNo], b: AgentNo) -> bool
    ensures { result ≡ list_any (λ c. c == b) children.now }
{
    children.iter().any(|child| *child == b)
}

/// Whether the one agent sends requests to the other.
fn asks(topology: &Topology, a: AgentNo, b: AgentNo) -> bool
    requires within { a < length topology.now.agents }
    ensures { result ≡ asks topology.now a b }
{
    is_provider_of(b, topology.kind(a)) || has_child(topology.children(a), b)
}

/// Puts an agent behind, where the two have a link.
fn push_linked(
    others: &mut Vec<AgentNo>,
    topology: &Topology,
    a: AgentNo,
    b: AgentNo,
) -> Result<(), AllocError>
    requires within { a < length topology.now.agents }
    requires other_within { b < length topology.now.agents }
    ensures { OnOk result
        (others.new.items ≡ others.old.items ++ filter (are_linked topology.now a) (b ∷ [])) }
{
    if asks(topology, a, b) || asks(topology, b, a) {
        others.push(b)?;
    }
    Ok(())
}

/// Those that an agent has links to, in order.

pub fn others(
    alloc: Global,
    topology: &Topology,
    agent: AgentNo,
) -> Result<Vec<AgentNo>, AllocError>
    requires within { agent < length topology.now.agents }
    ensures { IfOk result (λ others. others.items ≡ others_of topology.now agent) }
{
    let mut others = Vec::new(alloc);
    for place in 0..topology.agents() {
        push_linked(&mut others, topology, agent, agent_at(place))?;
    }
    Ok(others)
}

/// The links to these agents, through which nothing went yet.
fn links_to(
    alloc: Global,
    others: Vec<AgentNo>,
    outgoing: List<Outgoing>,
    incoming: List<Incoming>,
    links: Vec<Link>,
) -> Links
    requires ends { AreEnds others.items outgoing incoming }
    requires room { length others.items ≤ vec_capacity links }
    requires none { links.items ≡ [] }
    ensures doors { (plans : ℕ → Plan) → ArePlanned plans others.items outgoing →
        result.doors ≡ map (opened plans) others.items }
    ensures plugs { result.plugs ≡ plugs_of others.items outgoing incoming }
{
    let mut links = links;
    let mut outs = outgoing.into_items().into_iter();
    let mut incs = incoming.into_items().into_iter();
    for other in others {
        match (outs.next(), incs.next()) {
            (Some(out), Some(inc)) => links.push_reserved(Link {
                other,
                queue: Queue::new(alloc),
                out,
                inc,
            }),
            _ => unreachable!(),
        }
    }
    Links::from_items(links)
}

fn let_go_core(core: Core<'_>) {
    drop(core);
}

fn boxed<'t>(alloc: Global, core: Core<'t>) -> Result<Box<Core<'t>>, AllocError>
    ensures { IfOk result (λ b. box_value b ≡ core.entry) }
{
    match Box::new(alloc, core) {
        Ok(core) => Ok(core),
        Err(refused) => {
            let_go_core(refused.value);
            Err(AllocError)
        }
    }
}

/// The agent of that number, without its links.
fn core_of<'t>(
    alloc: Global,
    topology: &'t Topology,
    agent: AgentNo,
) -> Result<Box<Core<'t>>, AllocError>
    requires within { agent < length topology.now.agents }
    ensures network { IfOk result (λ b. (box_value b).network ≡ topology.now) }
    ensures seat { IfOk result (λ b. (box_value b).seat
        ≡ record (seat_of topology.now nothing_planned agent) { past = None; doors = [] }) }
{
    let agent = Agent::new(alloc, topology, agent)?;
    let core = Core::new(alloc, topology, agent);
    boxed(alloc, core)
}

/// What of an agent takes memory: to whom its links go, room for them, and itself.
fn parts<'t>(
    alloc: Global,
    topology: &'t Topology,
    agent: AgentNo,
) -> Result<(Vec<AgentNo>, Vec<Link>, Box<Core<'t>>), AllocError>
    requires within { agent < length topology.now.agents }
    ensures others { IfOk result (λ r. r.0.items ≡ others_of topology.now agent) }
    ensures room { IfOk result (λ r. length r.0.items ≤ vec_capacity r.1) }
    ensures none { IfOk result (λ r. r.1.items ≡ []) }
    ensures network { IfOk result (λ r. (box_value r.2).network ≡ topology.now) }
    ensures seat { IfOk result (λ r. (box_value r.2).seat
        ≡ record (seat_of topology.now nothing_planned agent) { past = None; doors = [] }) }
{
    let others = others(alloc, topology, agent)?;
    let links = Vec::with_capacity(alloc, others.len())?;
    let core = core_of(alloc, topology, agent)?;
    Ok((others, links, core))
}

fn let_go(core: Box<Core<'_>>) {
    drop(core);
}

impl<'t, D: Disk + Drop> Node<'t, DiskJournal<D>> {
    /// The agent of that number, which has taken nothing yet. Its disk is emptied. The ends of its links are given in the order of
    /// the numbers of the agents that they go to.
    pub fn fresh(
        alloc: Global,
        topology: &'t Topology,
        agent: AgentNo,
        disk: D,
        outgoing: List<Outgoing>,
        incoming: List<Incoming>,
    ) -> Result<Node<'t, DiskJournal<D>>, NodeFault<D>>
        requires within { agent < length topology.now.agents }
        requires runs { (D.meter disk).stopped ≡ false }
        requires ends { AreEnds (others_of topology.now agent) outgoing incoming }
        ensures seat { (plans : Plans) →
            ArePlanned (plans agent) (others_of topology.now agent) outgoing →
            IfOk result (λ n. n.seat ≡ record (seat_of topology.now plans agent) { past = None }) }
        ensures network { IfOk result (λ n. n.network ≡ topology.now) }
        ensures plugs { IfOk result
            (λ n. n.plugs ≡ plugs_of (others_of topology.now agent) outgoing incoming) }
        ensures fault { IfOk result (λ n. n.fault ≡ None) }
        ensures kept { IfOk result (λ n. Keeps [] (D.history disk) n.kept) }
        ensures quiet { IfOk result (λ n. KeepsCounts (D.meter disk) n.meter) }
        ensures cause { IfErr result (λ f. StartsFor (D.meter disk) (D.meter f.disk) None f.cause) }
        ensures unread { IfErr result (λ f. ReadsNothing f.cause) }
        ensures told { IfErr result (λ f. StaysTold (D.history disk) (D.history f.disk)) }
        ensures ends { IfErr result (λ f. (f.outgoing ≡ outgoing) × (f.incoming ≡ incoming)) }
    {
        let Ok((others, links, core)) = parts(alloc, topology, agent) else {
            return Err(NodeFault {
                cause: StartCause::NoMemory,
                disk,
                outgoing,
                incoming,
            });
        };
        match DiskJournal::fresh(disk) {
            Ok(journal) => {
                let mut core = core;
                core.set_links(links_to(alloc, others, outgoing, incoming, links));
                Ok(Node {
                    core,
                    journal,
                    fault: None,
                })
            }
            Err(fault) => {
                let_go(core);
                drop((others, links));
                Err(NodeFault {
                    cause: fault.cause,
                    disk: fault.disk,
                    outgoing,
                    incoming,
                })
            }
        }
    }

    /// Its disk. Where no call has failed, a crash now leaves the synced entries; where it has stopped, these or also the batch that was
    /// being synced.
    pub fn into_disk(self) -> D
        ensures meter { D.meter result ≡ self.entry.meter }
        ensures left { self.entry.fault ≡ None →
            MayLeaveSynced (recovers batch_of) self.entry.kept (D.history result) }
        ensures halted { self.entry.fault ≡ Some AFault.Stopped →
            LeavesBatch (recovers batch_of) self.entry.seat self.entry.kept (D.history result) }
        ensures tells { is_some self.entry.kept ≡ is_some (D.history result) }
    {
        let journal = self.into_journal();
        journal.into_disk()
    }
}
