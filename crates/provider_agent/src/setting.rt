//! What the topology says to a provider.

ghost use Rattle.std.specs.Prelude.{◌≡◌, ◌<◌, ◌++◌, length, IfOk, OnOk};
ghost use Rattle.provider_agent.specs.Setting.{capacities_among, of_flow, of_point, of_own, own_stp};

use capacity_calendar::Capacity;
use nsi_base::{AgentNo, Flow, List, Mbps, Name, StpNo};
use std::alloc::{AllocError, Global};
use stp_topology::Topology;

/// The capacities of the provider's points.
pub fn capacities_among(
    alloc: Global,
    topology: &Topology,
    provider: AgentNo,
) -> Result<List<Capacity>, AllocError>
    ensures { let all = capacities_among topology.now provider (length topology.now.stps) in
        IfOk result (λ capacities. capacities ≡ all) }
{
    let mut capacities = List::new(alloc);
    'points: for n in 0..topology.stps() {
        let Some(stp) = StpNo::new(n as u16) else {
            unreachable!()
        };
        push_own(&mut capacities, topology, provider, stp)?;
    }
    Ok(capacities)
}

fn push_own(
    capacities: &mut List<Capacity>,
    topology: &Topology,
    provider: AgentNo,
    stp: StpNo,
) -> Result<(), AllocError>
    requires { stp < length topology.now.stps }
    ensures { OnOk result (capacities.new ≡ capacities.old ++ of_own topology.now provider stp) }
{
    if topology.owner(stp) == provider {
        push_point(capacities, topology, stp)
    } else {
        Ok(())
    }
}

fn push_point(
    capacities: &mut List<Capacity>,
    topology: &Topology,
    stp: StpNo,
) -> Result<(), AllocError>
    requires { stp < length topology.now.stps }
    ensures { OnOk result (capacities.new ≡ capacities.old ++ of_point topology.now stp) }
{
    push_flow(
        capacities,
        stp,
        Flow::Both,
        topology.capacity(stp, Flow::Both),
    )?;
    push_flow(capacities, stp, Flow::In, topology.capacity(stp, Flow::In))?;
    push_flow(
        capacities,
        stp,
        Flow::Out,
        topology.capacity(stp, Flow::Out),
    )
}

fn push_flow(
    capacities: &mut List<Capacity>,
    stp: StpNo,
    flow: Flow,
    mbps: Option<Mbps>,
) -> Result<(), AllocError>
    ensures { OnOk result (capacities.new ≡ capacities.old ++ of_flow stp flow mbps) }
{
    match mbps {
        None => Ok(()),
        Some(mbps) => capacities.push(Capacity { stp, flow, mbps }),
    }
}

/// The provider's point of that name.
pub fn own_stp(topology: &Topology, provider: AgentNo, name: &Name) -> Option<StpNo>
    ensures { result ≡ own_stp topology.now provider name.now }
{
    let stp = topology.stp_of(name.bytes())?;
    if topology.owner(stp) == provider {
        Some(stp)
    } else {
        None
    }
}
