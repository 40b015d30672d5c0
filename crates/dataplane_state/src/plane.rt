//! Whether traffic can flow, in one network and in several, and which changes are told.

ghost use Rattle.std.specs.Prelude.{◌≡◌, ◌↔◌, ◌&&◌, ◌==◌, not, length, IsTrue};
ghost use Rattle.std.specs.List.{list_all};
ghost use Rattle.std.specs.Option.{option_copied};
ghost use Rattle.dataplane_state.specs.Plane.{status, joined, is_active, is_consistent_at, least_version, announces};
ghost use Rattle.dataplane_state.specs.Joined.{IsActive, IsJoined, IsTold};

use nsi_base::{Second, Version};
use nsi_primitive::{Criteria, Lsm, Plane, Psm};

/// The status of a connection in one network, whose last committed criteria are given: active while it is provisioned
/// and the second lies in its schedule (GFD.237, the data plane).
#[tactic(auto, unfolding(crate::specs::Plane::status))]
pub fn status(psm: Psm, lsm: Lsm, last: Option<&Criteria>, now: Second) -> Plane
    ensures value { result ≡ status psm lsm (option_copied last.entry) now }
    ensures active { IsTrue result.active ↔ IsActive psm lsm (option_copied last.entry) now }
{
    let Some(criteria) = last else {
        return Plane {
            active: false,
            version: Version::first(),
            consistent: true,
        };
    };
    let is_up = psm == Psm::Provisioned && lsm == Lsm::Created;
    Plane {
        active: is_up && criteria.interval.covers(now),
        version: criteria.version,
        consistent: true,
    }
}

/// The status of a connection over children, of which each has the status that is given.
#[tactic(auto, using(crate::proofs::JoinedStatus::joined_says), unfolding(crate::specs::Plane::joined))]
pub fn joined(children: &[Plane]) -> Plane
    ensures value { result ≡ joined children.now }
    ensures says { IsJoined children.now result }
{
    let version = least_version(children);
    Plane {
        active: is_active_over(children),
        version,
        consistent: are_consistent_at(version, children),
    }
}

fn is_active_over(children: &[Plane]) -> bool
    ensures { result ≡ (not (length children.now == 0) && list_all is_active children.now) }
{
    !children.is_empty() && are_all_active(children)
}

fn are_all_active(children: &[Plane]) -> bool
    ensures { result ≡ list_all is_active children.now }
{
    children.iter().all(|child| child.active)
}

fn are_consistent_at(version: Version, children: &[Plane]) -> bool
    ensures { result ≡ list_all (is_consistent_at version) children.now }
{
    children
        .iter()
        .all(|child| child.consistent && child.version == version)
}

fn least_version(children: &[Plane]) -> Version
    ensures { result ≡ least_version children.now }
{
    let [first, others @ ..] = children else {
        return Version::first();
    };
    let mut least = first.version;
    for child in others {
        if child.version < least {
            least = child.version;
        }
    }
    least
}

/// Whether the requester is told of a change (GFD.237, dataPlaneStateChange). What changes of a data plane that is and
/// stays inactive isn't told.
#[tactic(auto, unfolding(crate::specs::Plane::announces))]
pub fn announces(before: &Plane, after: &Plane) -> bool
    ensures value { result ≡ announces before.now after.now }
    ensures told { IsTrue result ↔ IsTold before.now after.now }
{
    before.active != after.active || (after.active && before != after)
}
