//! The least step from each entry, level by level from the destination.

ghost use Rattle.std.specs.Prelude.{◌≡◌, ℕ, ◌+◌, ◌<◌, ◌↔◌, length, replicate, None, Some, true, IfOk, OnOk};
ghost use Rattle.stp_topology.specs.Network.{partner_of};
ghost use Rattle.path_segments.specs.Walks.{AreMutual, AreLeaves, AreAgents, AreListedAgents, IsBelow};
ghost use Rattle.path_segments.specs.Steps.{at, Hop, Way, IsFit, Complete, Sound};
ghost use Rattle.path_segments.specs.Searches.{AreListed, Changes, Grows, IsNoted, marked};
ghost use Rattle.path_segments.specs.ChildSearches.{AreSearches};
ghost use Rattle.path_segments.specs.SearchOf.{AreSearchesIn, HoldsIn, WayIn};

use crate::child_search::{Area, Remaining, note_entries};
use crate::points::{partner_at, points, points_by_owner};
use crate::reach::mark_below;
use nsi_base::{AgentNo, List};
use std::alloc::{AllocError, Global};
use stp_topology::Topology;

/// The step from an entry: how many segments follow it, its exit and its child's place.
#[derive(Clone, Copy, Debug, PartialEq, Eq)]
pub struct Step {
    pub rest: u16,
    pub exit: u16,
    pub place: usize,
}

/// What the least steps are looked for in: the children of an aggregator in a topology, up to a depth, the points of each
/// owner, and the destination.
#[derive(Clone, Copy)]
pub struct Search<'a> {
    pub topology: &'a Topology,
    pub depth: u8,
    pub children: &'a [AgentNo],
    pub owned: &'a [List<u16>],
    pub dest: u16,
}

/// The agents below a child, and what remains to be entered among them.
#[derive(Drop)]
pub struct ChildSearch {
    pub below: Vec<bool>,
    pub remaining: Vec<Remaining>,
}

fn is_hop(topology: &Topology, steps: &[Option<Step>], dest: u16, rest: u16, exit: u16) -> bool
    requires fit { IsFit topology.now }
    requires steps { length steps.now ≡ length topology.now.owners }
    requires exit { exit < length topology.now.owners }
    ensures { (result ≡ true) ↔ Hop (at steps.now) (partner_of topology.now) dest rest exit }
{
    if rest == 0 {
        return exit == dest;
    }
    let Some(entry) = partner_at(topology, exit) else {
        return false;
    };
    match steps[entry as usize] {
        Some(step) => step.rest < rest && step.rest + 1 == rest,
        None => false,
    }
}

/// The search of a child that has not begun.
fn child_search(
    alloc: Global,
    topology: &Topology,
    depth: u8,
    child: AgentNo,
) -> Result<ChildSearch, AllocError>
    requires agents { AreAgents topology.now }
    requires child { child < length topology.now.agents }
    ensures below { IfOk result (λ s.
        (b : ℕ) → marked s.below.items b ↔ IsBelow topology.now depth child b) }
    ensures remaining { IfOk result (λ s.
        s.remaining.items ≡ replicate (length topology.now.agents) Remaining.All) }
{
    let mut below = vec![in alloc; false; topology.agents()]?;
    mark_below(topology, depth, child, &mut below);
    let remaining = vec![in alloc; Remaining::All; topology.agents()]?;
    Ok(ChildSearch { below, remaining })
}

/// A search for each child.
fn child_searches(
    alloc: Global,
    topology: &Topology,
    depth: u8,
    children: &[AgentNo],
) -> Result<Vec<ChildSearch>, AllocError>
    requires agents { AreAgents topology.now }
    requires are_agents { AreListedAgents topology.now children.now }
    ensures { IfOk result (λ v. AreSearches topology.now depth children.now (λ p. ⊥) v.items) }
{
    let mut searches = Vec::new(alloc);
    for child in children {
        searches.push(child_search(alloc, topology, depth, *child)?)?;
    }
    Ok(searches)
}

/// Notes the step at the entries of the child of its place.
fn at_child(
    alloc: Global,
    search: &Search<'_>,
    step: Step,
    searches: &mut Vec<ChildSearch>,
    steps: &mut Vec<Option<Step>>,
) -> Result<bool, AllocError>
    requires fit { IsFit search.now.topology.now }
    requires paired { AreMutual search.now.topology.now }
    requires leaves { AreLeaves search.now.topology.now }
    requires owned { AreListed search.now.topology.now
        (length search.now.topology.now.owners) search.now.owned.now }
    requires searches { AreSearchesIn search.now steps.old.items searches.old.items }
    requires steps { length steps.old.items ≡ length search.now.topology.now.owners }
    requires place { step.place < length search.now.children.now }
    requires exit { step.exit < length search.now.topology.now.owners }
    ensures searches { OnOk result (AreSearchesIn search.now steps.new.items searches.new.items) }
    ensures grows { IfOk result (λ grew. Grows grew steps.old.items steps.new.items) }
    ensures changes { OnOk result (Changes (λ p.
        WayIn search.now step.place p step.exit) step (at steps.old.items) (at steps.new.items)) }
    ensures noted { OnOk result ((p : ℕ) → WayIn search.now step.place p step.exit
        → IsNoted (at steps.new.items) p) }
{
    let child = &mut searches[step.place];
    let area = Area {
        topology: search.topology,
        owned: search.owned,
        below: &child.below,
    };
    let grew = note_entries(alloc, &area, step, &mut child.remaining, steps)?;
    Ok(grew)
}

fn at_exit(
    alloc: Global,
    search: &Search<'_>,
    rest: u16,
    exit: u16,
    searches: &mut Vec<ChildSearch>,
    steps: &mut Vec<Option<Step>>,
) -> Result<bool, AllocError>
    requires fit { IsFit search.now.topology.now }
    requires paired { AreMutual search.now.topology.now }
    requires leaves { AreLeaves search.now.topology.now }
    requires owned { AreListed search.now.topology.now
        (length search.now.topology.now.owners) search.now.owned.now }
    requires searches { AreSearchesIn search.now steps.old.items searches.old.items }
    requires steps { length steps.old.items ≡ length search.now.topology.now.owners }
    requires exit { exit < length search.now.topology.now.owners }
    requires holds { HoldsIn search.now rest exit 0 steps.old.items }
    ensures searches { OnOk result (AreSearchesIn search.now steps.new.items searches.new.items) }
    ensures holds { IfOk result (λ _. HoldsIn search.now rest (exit + 1) 0 steps.new.items) }
    ensures grows { IfOk result (λ grew. Grows grew steps.old.items steps.new.items) }
{
    if !is_hop(search.topology, steps, search.dest, rest, exit) {
        return Ok(false);
    }
    let mut grew = false;
    for place in 0..search.children.len() {
        let step = Step { rest, exit, place };
        grew |= at_child(alloc, search, step, searches, steps)?;
    }
    Ok(grew)
}

fn level(
    alloc: Global,
    search: &Search<'_>,
    rest: u16,
    searches: &mut Vec<ChildSearch>,
    steps: &mut Vec<Option<Step>>,
) -> Result<bool, AllocError>
    requires fit { IsFit search.now.topology.now }
    requires paired { AreMutual search.now.topology.now }
    requires leaves { AreLeaves search.now.topology.now }
    requires owned { AreListed search.now.topology.now
        (length search.now.topology.now.owners) search.now.owned.now }
    requires searches { AreSearchesIn search.now steps.old.items searches.old.items }
    requires steps { length steps.old.items ≡ length search.now.topology.now.owners }
    requires holds { HoldsIn search.now rest 0 0 steps.old.items }
    ensures searches { OnOk result (AreSearchesIn search.now steps.new.items searches.new.items) }
    ensures holds { IfOk result (λ _. HoldsIn search.now (rest + 1) 0 0 steps.new.items) }
    ensures grows { IfOk result (λ grew. Grows grew steps.old.items steps.new.items) }
{
    let mut grew = false;
    for exit in 0..points(search.topology) {
        grew |= at_exit(alloc, search, rest, exit, searches, steps)?;
    }
    Ok(grew)
}

fn no_steps(alloc: Global, points: u16) -> Result<Vec<Option<Step>>, AllocError>
    ensures { IfOk result (λ v. v.items ≡ replicate points None) }
{
    vec![in alloc; None; points as usize]
}

/// The least step from each entry from which there is a path.
pub fn table(
    alloc: Global,
    topology: &Topology,
    depth: u8,
    children: &[AgentNo],
    dest: u16,
) -> Result<Vec<Option<Step>>, AllocError>
    requires fit { IsFit topology.now }
    requires paired { AreMutual topology.now }
    requires leaves { AreLeaves topology.now }
    requires agents { AreAgents topology.now }
    requires are_agents { AreListedAgents topology.now children.now }
    ensures same_length { IfOk result (λ v. length v.items ≡ length topology.now.owners) }
    ensures sound { IfOk result (λ v.
        Sound (at v.items) (partner_of topology.now) (Way topology.now depth children.now) dest) }
    ensures complete { IfOk result (λ v. Complete (at v.items) (partner_of topology.now)
        (Way topology.now depth children.now) dest) }
{
    let owned = points_by_owner(alloc, topology)?;
    let mut searches = child_searches(alloc, topology, depth, children)?;
    let mut steps = no_steps(alloc, points(topology))?;
    let search = Search {
        topology,
        depth,
        children,
        owned: &owned,
        dest,
    };
    let mut rest = 0;
    loop {
        let grew = level(alloc, &search, rest, &mut searches, &mut steps)?;
        if !grew {
            return Ok(steps);
        }
        rest += 1;
    }
}
