//! A search backwards through the providers below one child. What one exit's search enters isn't entered again by the
//! searches from later exits.

ghost use Rattle.std.specs.Prelude.{List as Sequence, Option as Maybe, ◌≡◌, ℕ, ◌+◌, ◌*◌, ◌<◌, ◌≤◌, ◌++◌, ◌∷◌, [], length, false, true, None, IfOk, OnOk};
ghost use Rattle.stp_topology.specs.Network.{partner_of};
ghost use Rattle.path_segments.specs.Walks.{AreMutual, In};
ghost use Rattle.path_segments.specs.Steps.{at, IsFit};
ghost use Rattle.path_segments.specs.Searches.{AreListed, Changes, Closed, Enters, Entry, Grows, IsNoted, IsReached, listed, marked, Marks, Searching, turns, what_remains};
ghost use Rattle.path_segments.specs.declared.search.Step.{Step as OneStep};

use crate::points::{owner_at, partner_at, points_of};
use crate::reach::is_marked;
use crate::search::Step;
use nsi_base::List;
use std::alloc::{AllocError, Global};
use stp_topology::Topology;

/// Where a search below one child looks: the topology, the points of each owner, and which owners are below the child.
#[derive(Clone, Copy)]
pub struct Area<'a, 'b> {
    pub topology: &'a Topology,
    pub owned: &'a [List<u16>],
    pub below: &'b [bool],
}

/// Which points of an owner are still to be entered.
#[derive(Clone, Copy, Debug, PartialEq, Eq)]
pub enum Remaining {
    All,
    Only(u16),
    Nothing,
}

fn remaining_at(remaining: &[Remaining], owner: u16) -> Remaining
    ensures { result ≡ what_remains remaining.now owner }
{
    match remaining.get(owner as usize) {
        Some(r) => *r,
        None => Remaining::All,
    }
}

fn mark(step: Step, point: u16, steps: &mut Vec<Option<Step>>) -> bool
    requires { point < length steps.old.items }
    ensures marks { Marks result step point steps.old.items steps.new.items }
    ensures grows { Grows result steps.old.items steps.new.items }
{
    if point == step.exit {
        return false;
    }
    match steps[point as usize] {
        Some(_) => false,
        None => {
            steps[point as usize] = Some(step);
            true
        }
    }
}

fn push_partner(topology: &Topology, point: u16, exits: &mut Vec<u16>) -> Result<(), AllocError>
    requires { point < length topology.now.owners }
    ensures { OnOk result (exits.new.items ≡ exits.old.items
        ++ listed (partner_of topology.now point)) }
{
    let Some(next) = partner_at(topology, point) else {
        return Ok(());
    };
    exits.push(next)?;
    Ok(())
}

/// Notes the step at the point and pushes its partner, unless it is the exit itself.
fn note(
    topology: &Topology,
    step: Step,
    exit: u16,
    point: u16,
    steps: &mut Vec<Option<Step>>,
    exits: &mut Vec<u16>,
) -> Result<bool, AllocError>
    requires steps { length steps.old.items ≡ length topology.now.owners }
    requires point { point < length topology.now.owners }
    ensures grows { IfOk result (λ grew. Grows grew steps.old.items steps.new.items) }
    ensures enters { OnOk result ((points before : Sequence ℕ) (first : ℕ → Maybe OneStep)
        → Enters topology.now step exit points first (at steps.old.items) before exits.old.items
        → Enters topology.now step exit (points ++ point ∷ []) first (at steps.new.items)
        before exits.new.items) }
    ensures few { OnOk result (length exits.new.items ≤ length exits.old.items + 1) }
{
    if point == exit {
        return Ok(false);
    }
    push_partner(topology, point, exits)?;
    Ok(mark(step, point, steps))
}

/// Notes the step at the points other than the exit, and pushes their partners.
fn note_others(
    topology: &Topology,
    step: Step,
    exit: u16,
    points: &[u16],
    steps: &mut Vec<Option<Step>>,
    exits: &mut Vec<u16>,
) -> Result<bool, AllocError>
    requires steps { length steps.old.items ≡ length topology.now.owners }
    requires within { (p : ℕ) → In p points.now → p < length topology.now.owners }
    ensures grows { IfOk result (λ grew. Grows grew steps.old.items steps.new.items) }
    ensures enters { OnOk result (Enters topology.now step exit points.now (at steps.old.items)
        (at steps.new.items) exits.old.items exits.new.items) }
    ensures few { OnOk result (length exits.new.items
        ≤ length exits.old.items + length points.now) }
{
    let mut grew = false;
    for point in points {
        grew |= note(topology, step, exit, *point, steps, exits)?;
    }
    Ok(grew)
}

/// Enters the points of the exit's owner that remain.
fn enter(
    area: &Area<'_, '_>,
    step: Step,
    exit: u16,
    remaining: &mut Vec<Remaining>,
    steps: &mut Vec<Option<Step>>,
    exits: &mut Vec<u16>,
) -> Result<bool, AllocError>
    requires fit { IsFit area.now.topology.now }
    requires paired { AreMutual area.now.topology.now }
    requires owned { AreListed area.now.topology.now
        (length area.now.topology.now.owners) area.now.owned.now }
    requires steps { length steps.old.items ≡ length area.now.topology.now.owners }
    requires remaining { length remaining.old.items ≡ length area.now.topology.now.agents }
    requires exit { exit < length area.now.topology.now.owners }
    requires searching { Searching area.now.topology.now (marked area.now.below.now) step.exit
        (at steps.old.items) (what_remains remaining.old.items) (exits.old.items ++ exit ∷ []) }
    ensures same_length { length remaining.new.items ≡ length remaining.old.items }
    ensures grows { IfOk result (λ grew. Grows grew steps.old.items steps.new.items) }
    ensures changes { OnOk result (Changes (Entry area.now.topology.now
        (marked area.now.below.now) step) step (at steps.old.items) (at steps.new.items)) }
    ensures searching { OnOk result (Searching area.now.topology.now (marked area.now.below.now)
        step.exit (at steps.new.items) (what_remains remaining.new.items) exits.new.items) }
    ensures fewer { OnOk result (turns remaining.new.items * 4097 + length exits.new.items
        ≤ turns remaining.old.items * 4097 + length exits.old.items) }
{
    let topology = area.topology;
    let owner_place = owner_at(topology, exit);
    if !is_marked(area.below, owner_place) {
        return Ok(false);
    }
    match remaining_at(remaining, owner_place) {
        Remaining::All => {
            remaining[owner_place as usize] = Remaining::Only(exit);
            let points = points_of(area.owned, owner_place);
            Ok(note_others(topology, step, exit, points, steps, exits)?)
        }
        Remaining::Only(point) if point != exit => {
            remaining[owner_place as usize] = Remaining::Nothing;
            Ok(note_others(topology, step, exit, &[point], steps, exits)?)
        }
        _ => Ok(false),
    }
}

/// Whether no entry of the exit's owner remains.
fn is_reached(topology: &Topology, below: &[bool], remaining: &[Remaining], exit: u16) -> bool
    requires { exit < length topology.now.owners }
    ensures { result ≡ true
        → IsReached topology.now (marked below.now) (what_remains remaining.now) exit }
{
    let owner_place = owner_at(topology, exit);
    if !is_marked(below, owner_place) {
        return true;
    }
    match remaining_at(remaining, owner_place) {
        Remaining::All => false,
        Remaining::Only(point) => point == exit,
        Remaining::Nothing => true,
    }
}

/// Enters all points from which there is a walk to the step's exit.
fn search_from(
    alloc: Global,
    area: &Area<'_, '_>,
    step: Step,
    remaining: &mut Vec<Remaining>,
    steps: &mut Vec<Option<Step>>,
) -> Result<bool, AllocError>
    requires fit { IsFit area.now.topology.now }
    requires paired { AreMutual area.now.topology.now }
    requires owned { AreListed area.now.topology.now
        (length area.now.topology.now.owners) area.now.owned.now }
    requires steps { length steps.old.items ≡ length area.now.topology.now.owners }
    requires remaining { length remaining.old.items ≡ length area.now.topology.now.agents }
    requires exit { step.exit < length area.now.topology.now.owners }
    requires closed { Closed area.now.topology.now (marked area.now.below.now)
        (IsNoted (at steps.old.items)) (what_remains remaining.old.items) [] }
    ensures same_length { length remaining.new.items ≡ length remaining.old.items }
    ensures grows { IfOk result (λ grew. Grows grew steps.old.items steps.new.items) }
    ensures changes { OnOk result (Changes (Entry area.now.topology.now
        (marked area.now.below.now) step) step (at steps.old.items) (at steps.new.items)) }
    ensures searching { OnOk result (Searching area.now.topology.now (marked area.now.below.now)
        step.exit (at steps.new.items) (what_remains remaining.new.items) []) }
{
    let mut exits = Vec::new(alloc);
    exits.push(step.exit)?;
    let mut grew = false;
    'exits: while let Some(exit) = exits.pop() {
        grew |= enter(area, step, exit, remaining, steps, &mut exits)?;
    }
    Ok(grew)
}

/// Forgets what was entered if the exit itself was entered and isn't noted, since its walks to later exits count.
fn forget_unnoted(
    alloc: Global,
    topology: &Topology,
    below: &[bool],
    exit: u16,
    steps: &[Option<Step>],
    remaining: &mut Vec<Remaining>,
) -> Result<(), AllocError>
    requires steps { length steps.now ≡ length topology.now.owners }
    requires remaining { length remaining.old.items ≡ length topology.now.agents }
    requires exit { exit < length topology.now.owners }
    requires searching { Searching topology.now (marked below.now) exit (at steps.now)
        (what_remains remaining.old.items) [] }
    ensures same_length { length remaining.new.items ≡ length remaining.old.items }
    ensures closed { OnOk result (Closed topology.now (marked below.now) (IsNoted (at steps.now))
        (what_remains remaining.new.items) []) }
{
    if let Some(_) = steps[exit as usize] {
        return Ok(());
    }
    if remaining_at(remaining, owner_at(topology, exit)) != Remaining::Nothing {
        return Ok(());
    }
    *remaining = vec![in alloc; Remaining::All; topology.agents()]?;
    Ok(())
}

/// Notes the step at each entry without one from which the owners below the child lead to the step's exit.
pub fn note_entries(
    alloc: Global,
    area: &Area<'_, '_>,
    step: Step,
    remaining: &mut Vec<Remaining>,
    steps: &mut Vec<Option<Step>>,
) -> Result<bool, AllocError>
    requires fit { IsFit area.now.topology.now }
    requires paired { AreMutual area.now.topology.now }
    requires owned { AreListed area.now.topology.now
        (length area.now.topology.now.owners) area.now.owned.now }
    requires steps { length steps.old.items ≡ length area.now.topology.now.owners }
    requires remaining { length remaining.old.items ≡ length area.now.topology.now.agents }
    requires exit { step.exit < length area.now.topology.now.owners }
    requires closed { Closed area.now.topology.now (marked area.now.below.now)
        (IsNoted (at steps.old.items)) (what_remains remaining.old.items) [] }
    ensures same_length { length remaining.new.items ≡ length remaining.old.items }
    ensures grows { IfOk result (λ grew. Grows grew steps.old.items steps.new.items) }
    ensures changes { OnOk result (Changes (Entry area.now.topology.now
        (marked area.now.below.now) step) step (at steps.old.items) (at steps.new.items)) }
    ensures noted { OnOk result ((p : ℕ) → Entry area.now.topology.now
        (marked area.now.below.now) step p → IsNoted (at steps.new.items) p) }
    ensures closed { OnOk result (Closed area.now.topology.now (marked area.now.below.now)
        (IsNoted (at steps.new.items)) (what_remains remaining.new.items) []) }
{
    if is_reached(area.topology, area.below, remaining, step.exit) {
        return Ok(false);
    }
    let grew = search_from(alloc, area, step, remaining, steps)?;
    forget_unnoted(
        alloc,
        area.topology,
        area.below,
        step.exit,
        steps,
        remaining,
    )?;
    Ok(grew)
}
