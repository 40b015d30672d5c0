//! The ends of all links of a net.

ghost use Rattle.std.specs.Prelude.{◌≡◌, ◌+◌, ◌≤◌, ◌<◌, ◌++◌, ℕ, [], length, IfOk, OnOk};
ghost use Rattle.std.specs.List.{All};
ghost use Rattle.agent_node.specs.Openings.{others_of};
ghost use Rattle.nsi_play.specs.Openings.{plans_of};
ghost use Rattle.net_run.specs.Joints.{ArePaired, AreJoined, IsShutJoint, IsPlannedJoint, IsSplit, AreOwn, ends_of, two};

use agent_link::{Incoming, LinkFault, Outgoing, link};
use agent_node::opening::others;
use nsi_base::{AgentNo, List};
use nsi_script::PlanLine;
use std::alloc::{AllocError, Global};
use stp_topology::Topology;

/// An agent's ends of both ways of its link to another one.
#[derive(Drop)]
pub struct Joint {
    pub at: AgentNo,
    pub other: AgentNo,
    pub out: Outgoing,
    pub inc: Incoming,
}

/// The number of an agent at its place.
pub fn agent_at(place: usize) -> AgentNo
    requires { place ≤ 63 }
    ensures { result ≡ place }
{
    match AgentNo::new(place as u16) {
        Some(agent) => agent,
        None => unreachable!(),
    }
}

/// What the lines plan for the link from an agent to another one.
fn plan_between(
    alloc: Global,
    lines: &[PlanLine],
    from: AgentNo,
    to: AgentNo,
) -> Result<List<LinkFault>, AllocError>
    ensures { IfOk result (λ plan. plan ≡ plans_of lines.now from to) }
{
    let mut plan = List::new(alloc);
    for line in lines {
        if line.from == from && line.to == to {
            plan.push(line.fault)?;
        }
    }
    Ok(plan)
}

/// Makes a link of each way between two agents, for which the lines plan what is lost and what comes twice.
fn join(
    alloc: Global,
    lines: &[PlanLine],
    a: AgentNo,
    b: AgentNo,
    joints: &mut Vec<Joint>,
) -> Result<(), AllocError>
    requires apart { b < a }
    requires paired { ArePaired joints.old.items }
    requires shut { All IsShutJoint joints.old.items }
    requires planned { All (IsPlannedJoint (plans_of lines.now)) joints.old.items }
    ensures paired { OnOk result (ArePaired joints.new.items) }
    ensures shut { OnOk result (All IsShutJoint joints.new.items) }
    ensures planned { OnOk result (All (IsPlannedJoint (plans_of lines.now)) joints.new.items) }
    ensures ends { OnOk result ((c : ℕ) →
        ends_of c joints.new.items ≡ ends_of c joints.old.items ++ two a b c) }
{
    let plan_there = plan_between(alloc, lines, a, b)?;
    let plan_back = plan_between(alloc, lines, b, a)?;
    let (there, known_there) = link(alloc, plan_there)?;
    let (back, known_back) = link(alloc, plan_back)?;
    joints.push(Joint {
        at: a,
        other: b,
        out: there,
        inc: known_back,
    })?;
    joints.push(Joint {
        at: b,
        other: a,
        out: back,
        inc: known_there,
    })?;
    Ok(())
}

/// Joins an agent with those before it that it has links to.
fn join_earlier(
    alloc: Global,
    topology: &Topology,
    lines: &[PlanLine],
    agent: AgentNo,
    joints: &mut Vec<Joint>,
) -> Result<(), AllocError>
    requires within { agent < length topology.now.agents }
    requires paired { ArePaired joints.old.items }
    requires shut { All IsShutJoint joints.old.items }
    requires planned { All (IsPlannedJoint (plans_of lines.now)) joints.old.items }
    requires joined { AreJoined topology.now agent joints.old.items }
    ensures paired { OnOk result (ArePaired joints.new.items) }
    ensures shut { OnOk result (All IsShutJoint joints.new.items) }
    ensures planned { OnOk result (All (IsPlannedJoint (plans_of lines.now)) joints.new.items) }
    ensures joined { OnOk result (AreJoined topology.now (agent + 1) joints.new.items) }
{
    topology.laws();
    for other in others(alloc, topology, agent)? {
        if other.get() < agent.get() {
            join(alloc, lines, agent, other, joints)?;
        }
    }
    Ok(())
}

/// Joins each two agents that have a link.
pub fn join_all(
    alloc: Global,
    topology: &Topology,
    lines: &[PlanLine],
) -> Result<Vec<Joint>, AllocError>
    ensures paired { IfOk result (λ joints. ArePaired joints.items) }
    ensures shut { IfOk result (λ joints. All IsShutJoint joints.items) }
    ensures planned { IfOk result
        (λ joints. All (IsPlannedJoint (plans_of lines.now)) joints.items) }
    ensures joined { IfOk result
        (λ joints. AreJoined topology.now (length topology.now.agents) joints.items) }
{
    let mut joints = Vec::new(alloc);
    for place in 0..topology.agents() {
        join_earlier(alloc, topology, lines, agent_at(place), &mut joints)?;
    }
    Ok(joints)
}

/// An agent's ends of its links with those that these go to, and the ends of others.
#[derive(Drop)]
struct Split {
    others: Vec<AgentNo>,
    outgoing: Vec<Outgoing>,
    incoming: Vec<Incoming>,
    rest: Vec<Joint>,
}

fn take_out(alloc: Global, agent: AgentNo, joints: Vec<Joint>) -> Result<Split, AllocError>
    requires { All IsShutJoint joints.items }
    ensures { IfOk result (λ s. IsSplit agent s.others.items s.outgoing.items s.incoming.items
        s.rest.items [] joints.items) }
{
    let mut others = Vec::new(alloc);
    let mut outgoing = Vec::new(alloc);
    let mut incoming = Vec::new(alloc);
    let mut rest = Vec::new(alloc);
    for joint in joints {
        if joint.at == agent {
            let Joint {
                at: _,
                other,
                out,
                inc,
            } = joint;
            others.push(other)?;
            outgoing.push(out)?;
            incoming.push(inc)?;
        } else {
            rest.push(joint)?;
        }
    }
    Ok(Split {
        others,
        outgoing,
        incoming,
        rest,
    })
}

/// An agent's ends of its links, and the ends of others.
#[derive(Drop)]
pub struct Own {
    pub outgoing: List<Outgoing>,
    pub incoming: List<Incoming>,
    pub rest: Vec<Joint>,
}

/// Takes an agent's ends from among all.
pub fn own_ends(
    alloc: Global,
    topology: &Topology,
    agent: AgentNo,
    joints: Vec<Joint>,
) -> Result<Own, AllocError>
    requires ends { ends_of agent joints.items ≡ others_of topology.now agent }
    requires shut { All IsShutJoint joints.items }
    ensures { IfOk result (λ own. AreOwn topology.now agent own.outgoing own.incoming
        own.rest.items joints.items) }
{
    topology.laws();
    let split = take_out(alloc, agent, joints)?;
    let Split {
        others: _,
        outgoing,
        incoming,
        rest,
    } = split;
    Ok(Own {
        outgoing: List::from_items(outgoing),
        incoming: List::from_items(incoming),
        rest,
    })
}
