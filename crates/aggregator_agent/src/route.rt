//! The children of a connection: the way between its two points.

ghost use Rattle.std.specs.Prelude.{◌≡◌, ◌<◌, ℕ, List as Sequence, length, IfOk, All};
ghost use Rattle.agent_state.specs.declared.parent.Leg.{Leg as LegValue};
ghost use Rattle.aggregator_agent.specs.Asking.{view_of, views_of};
ghost use Rattle.aggregator_agent.specs.Setting.{AreLegs, legs_of, leg_of};
ghost use Rattle.path_segments.specs.Paths.{IsKnown};

use child_connection::ChildConnection;
use nsi_base::{AgentNo, StpNo};
use path_segments::{PathFault, Segment, find};
use std::alloc::{AllocError, Global};
use stp_topology::Topology;

/// Views of the children on the least path between two points, in the order of its segments; none where there is no
/// path.
#[tactic(auto, using(crate::proofs::Legs::along, crate::proofs::Legs::nowhere, crate::proofs::Legs::undeclared))]
pub fn views_between(
    alloc: Global,
    topology: &Topology,
    aggregator: AgentNo,
    source: StpNo,
    dest: StpNo,
) -> Result<Vec<ChildConnection>, AllocError>
    ensures legs { (legs : Sequence LegValue) →
        AreLegs topology.now aggregator source dest legs →
        IfOk result (λ views. views.items ≡ views_of legs) }
    ensures some { IfOk result (λ views.
        (legs : Sequence LegValue) × (views.items ≡ views_of legs)) }
{
    topology.facts();
    if source.get() as usize >= topology.stps() {
        return Ok(Vec::new(alloc));
    }
    match find(alloc, topology, aggregator, source, dest) {
        Ok(path) => {
            let views = views_along(alloc, topology, path.segments.items())?;
            Ok(views)
        }
        Err(PathFault::NoPath) => Ok(Vec::new(alloc)),
        Err(PathFault::NoMemory) => Err(AllocError),
    }
}

#[tactic(auto, unfolding(crate::specs::Asking::views_of, crate::specs::Setting::legs_of))]
fn views_along(
    alloc: Global,
    topology: &Topology,
    segments: &[Segment],
) -> Result<Vec<ChildConnection>, AllocError>
    requires { All (IsKnown topology.now) segments.now }
    ensures { IfOk result (λ views. views.items ≡ views_of (legs_of topology.now segments.now)) }
{
    let mut views = Vec::new(alloc);
    for segment in segments {
        views.push(view_along(alloc, topology, segment)?)?;
    }
    Ok(views)
}

fn view_along(
    alloc: Global,
    topology: &Topology,
    segment: &Segment,
) -> Result<ChildConnection, AllocError>
    requires { IsKnown topology.now segment.now }
    ensures { IfOk result (λ view. view ≡ view_of (leg_of topology.now segment.now)) }
{
    let child = topology.name(segment.child).copy()?;
    let source = topology.stp_name(segment.entry).copy()?;
    let dest = topology.stp_name(segment.exit).copy()?;
    Ok(ChildConnection::new(alloc, child, source, dest))
}
