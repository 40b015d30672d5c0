//! The data plane of a connection over its children.

ghost use Rattle.std.specs.Prelude.{◌≡◌, map, option_to_list, IfOk, OnOk};
ghost use Rattle.connection_record.specs.Later.{IsLater};
ghost use Rattle.connection_record.specs.Applied.{tells_plane};
ghost use Rattle.aggregator_agent.specs.Turns.{plane_of, joined_of};

use child_connection::ChildConnection;
use connection_record::{Record, Reply};
use dataplane_state::joined;
use nsi_base::Second;
use nsi_primitive::{Body, Id, Kind, Plane, PlaneNotice};
use std::alloc::{AllocError, Global};

/// The status over the children.
pub fn joined_of(alloc: Global, children: &[ChildConnection]) -> Result<Plane, AllocError>
    ensures { IfOk result (λ plane. plane ≡ joined_of children.now) }
{
    let planes = planes_of(alloc, children)?;
    Ok(joined(&planes))
}

fn planes_of(alloc: Global, children: &[ChildConnection]) -> Result<Vec<Plane>, AllocError>
    ensures { IfOk result (λ planes. planes.items ≡ map plane_of children.now) }
{
    let mut planes = Vec::new(alloc);
    for child in children {
        planes.push(child.plane())?;
    }
    Ok(planes)
}

/// What the owner is told of a data plane, where that is to be told.
#[tactic(auto, unfolding(connection_record::specs::Applied::tells_plane), using(connection_record::proofs::Growing::later_refl, connection_record::proofs::Growing::tells_plane_later))]
pub fn tell_plane(
    own: &mut Record,
    is_told: bool,
    plane: &Plane,
    correlation: Id,
    now: Second,
) -> Result<Option<Reply>, AllocError>
    ensures rec { let x = tells_plane is_told plane.now correlation now own.old in
        OnOk result (own.new ≡ x.rec) }
    ensures out { let said = (tells_plane is_told plane.now correlation now own.old).out in
        IfOk result (λ reply. option_to_list reply ≡ said) }
    ensures later { IsLater own.old own.new }
{
    if !is_told {
        return Ok(None);
    }
    let notification = own.add_notice(Kind::DataPlaneStateChange, correlation, now)?;
    Ok(Some(Reply {
        correlation,
        body: Body::DataPlaneStateChange(PlaneNotice {
            active: plane.active,
            connection: own.id,
            notification,
            time: now,
            version: plane.version,
            consistent: plane.consistent,
        }),
    }))
}
