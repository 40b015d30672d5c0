//! What a search asks of a topology, by plain places.

ghost use Rattle.std.specs.Prelude.{◌≡◌, ◌<◌, ◌≤◌, ◌++◌, ◌∷◌, [], ℕ, length, get_or, slice_get, slice_set, Some, IfOk, OnOk};
ghost use Rattle.stp_topology.specs.Network.{partner_of};
ghost use Rattle.path_segments.specs.Searches.{AreListed};

use nsi_base::{List, StpNo};
use std::alloc::{AllocError, Global};
use stp_topology::Topology;

/// How many STPs there are.
pub fn points(topology: &Topology) -> u16
    ensures count { result ≡ length topology.now.owners }
    ensures few { result ≤ 4096 }
{
    topology.facts();
    topology.stps() as u16
}

/// The STP of that place.
pub fn stp_at(place: u16) -> StpNo
    requires { place < 4096 }
    ensures { result ≡ place }
{
    match StpNo::new(place) {
        Some(s) => s,
        None => unreachable!(),
    }
}

/// The place of the agent that has the point.
pub fn owner_at(topology: &Topology, point: u16) -> u16
    requires { point < length topology.now.owners }
    ensures owner { slice_get topology.now.owners point ≡ Some result }
    ensures within { result < length topology.now.agents }
{
    topology.facts();
    topology.owner(stp_at(point)).get()
}

/// The point that a point is joined with.
pub fn partner_at(topology: &Topology, point: u16) -> Option<u16>
    requires { point < length topology.now.owners }
    ensures { result ≡ partner_of topology.now point }
{
    topology.facts();
    match topology.partner(stp_at(point)) {
        Some(p) => Some(p.get()),
        None => None,
    }
}

fn no_points(alloc: Global, owners: usize) -> Result<Vec<List<u16>>, AllocError>
    ensures same_length { IfOk result (λ v. length v.items ≡ owners) }
    ensures none { IfOk result (λ v. (b : ℕ) → get_or v.items b [] ≡ []) }
{
    let mut lists = Vec::new(alloc);
    for owner in 0..owners {
        lists.push(List::new(alloc))?;
    }
    Ok(lists)
}

fn push_point(lists: &mut Vec<List<u16>>, owner: u16, point: u16) -> Result<(), AllocError>
    requires { owner < length lists.old.items }
    ensures { OnOk result (lists.new.items
        ≡ slice_set lists.old.items owner (get_or lists.old.items owner [] ++ point ∷ [])) }
{
    lists[owner as usize].push(point)
}

/// The points of each owner in order.
pub fn points_by_owner(alloc: Global, topology: &Topology) -> Result<Vec<List<u16>>, AllocError>
    ensures { IfOk result (λ v. AreListed topology.now (length topology.now.owners) v.items) }
{
    let mut lists = no_points(alloc, topology.agents())?;
    for point in 0..points(topology) {
        push_point(&mut lists, owner_at(topology, point), point)?;
    }
    Ok(lists)
}

/// The points of one owner.
pub fn points_of(lists: &[List<u16>], owner: u16) -> &[u16]
    ensures { result.now ≡ get_or lists.now owner [] }
{
    match lists.get(owner as usize) {
        Some(points) => points.items(),
        None => &[],
    }
}
