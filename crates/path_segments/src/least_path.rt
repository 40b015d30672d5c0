//! The least path between two points.

ghost use Rattle.std.specs.Prelude.{slice_get, ◌≡◌, ℕ, ◌<◌, List, length, Some, IfOk, IsErrOf};
ghost use Rattle.path_segments.specs.Paths.{Chain, Less, IsPath, IsLess};
ghost use Rattle.path_segments.specs.Named.{named};
ghost use Rattle.stp_topology.specs.Network.{partner_of};
ghost use Rattle.path_segments.specs.Walks.{AreMutual, AreLeaves, AreAgents, AreListedAgents};
ghost use Rattle.path_segments.specs.Steps.{at, Way, IsFit, Sound, Follows, LeadsToPoint};
ghost use Rattle.path_segments.specs.declared.path.PlacedSegment.{PlacedSegment as Placed};
ghost use Rattle.path_segments.specs.declared.path.Segment.{Segment as OneSegment};

use crate::path::{Path, PathFault, PlacedSegment, Segment};
use crate::points::{partner_at, stp_at};
use crate::search::{Step, table};
use nsi_base::{AgentNo, List, StpNo};
use std::alloc::{AllocError, Global};
use stp_topology::Topology;

/// No more aggregators than that stand one below the other.
const GREATEST_RANK: u8 = 4;

fn follow(
    alloc: Global,
    topology: &Topology,
    steps: &[Option<Step>],
    source: u16,
    dest: u16,
    first: Step,
) -> Result<Vec<PlacedSegment>, AllocError>
    requires fit { IsFit topology.now }
    requires steps { length steps.now ≡ length topology.now.owners }
    requires sound { Sound (at steps.now) (partner_of topology.now)
        (LeadsToPoint topology.now) dest }
    requires first { at steps.now source ≡ Some first }
    ensures { IfOk result (λ v.
        Follows (at steps.now) (partner_of topology.now) dest source v.items) }
{
    let mut segments = Vec::new(alloc);
    let mut entry = source;
    let mut step = first;
    loop {
        segments.push(PlacedSegment {
            place: step.place,
            entry,
            exit: step.exit,
        })?;
        if step.rest == 0 {
            return Ok(segments);
        }
        let Some(next) = partner_at(topology, step.exit) else {
            unreachable!();
        };
        let Some(onward) = steps[next as usize] else {
            unreachable!();
        };
        entry = next;
        step = onward;
    }
}

/// The least path over the children from the source to the destination.
fn least(
    alloc: Global,
    topology: &Topology,
    depth: u8,
    children: &[AgentNo],
    source: u16,
    dest: u16,
) -> Result<Vec<PlacedSegment>, PathFault>
    requires fit { IsFit topology.now }
    requires paired { AreMutual topology.now }
    requires leaves { AreLeaves topology.now }
    requires agents { AreAgents topology.now }
    requires are_agents { AreListedAgents topology.now children.now }
    requires source { source < length topology.now.owners }
    ensures path { IfOk result (λ v.
        Chain (partner_of topology.now) (Way topology.now depth children.now) source dest v.items) }
    ensures least { IfOk result (λ v. (other : List Placed)
        → Chain (partner_of topology.now) (Way topology.now depth children.now) source dest other
        → Less other v.items → ⊥) }
    ensures none { IsErrOf result PathFault.NoPath → (other : List Placed)
        → Chain (partner_of topology.now) (Way topology.now depth children.now) source dest other
        → ⊥ }
{
    let Ok(steps) = table(alloc, topology, depth, children, dest) else {
        return Err(PathFault::NoMemory);
    };
    let Some(first) = steps[source as usize] else {
        return Err(PathFault::NoPath);
    };
    match follow(alloc, topology, &steps, source, dest, first) {
        Ok(segments) => Ok(segments),
        Err(_) => Err(PathFault::NoMemory),
    }
}

fn named(
    alloc: Global,
    children: &[AgentNo],
    placed: &[PlacedSegment],
) -> Result<Vec<Segment>, AllocError>
    requires within { (i : ℕ) (x : Placed) → slice_get placed.now i ≡ Some x
        → (x.place < length children.now) × (x.entry < 4096) × (x.exit < 4096) }
    ensures { IfOk result (λ v. v.items ≡ named children.now placed.now) }
{
    let mut segments = Vec::new(alloc);
    for segment in placed {
        segments.push(Segment {
            child: children[segment.place],
            entry: stp_at(segment.entry),
            exit: stp_at(segment.exit),
        })?;
    }
    Ok(segments)
}

/// The least path of an aggregator from a source to a destination: one of the fewest segments, of these the first by
/// its STPs, and of these the first by the places of its children's `child` lines.
pub fn find(
    alloc: Global,
    topology: &Topology,
    aggregator: AgentNo,
    source: StpNo,
    dest: StpNo,
) -> Result<Path, PathFault>
    requires source { source < length topology.now.stps }
    ensures path { IfOk result (λ p. IsPath topology.now aggregator source dest p.segments) }
    ensures least { IfOk result (λ p. (other : List OneSegment)
        → IsPath topology.now aggregator source dest other
        → IsLess topology.now aggregator other p.segments → ⊥) }
    ensures none { IsErrOf result PathFault.NoPath → (other : List OneSegment)
        → IsPath topology.now aggregator source dest other → ⊥ }
{
    topology.facts();
    let children = topology.children(aggregator);
    let placed = least(
        alloc,
        topology,
        GREATEST_RANK,
        children,
        source.get(),
        dest.get(),
    )?;
    let Ok(segments) = named(alloc, children, &placed) else {
        return Err(PathFault::NoMemory);
    };
    Ok(Path {
        segments: List::from_items(segments),
    })
}
