//! Lines by which an agent takes a parcel: those in the usual spelling are known without being read as JSON.

ghost use Rattle.std.specs.Prelude.{◌≡◌, ◌++◌, ◌∷◌, IfOk, IfSome, codes};
ghost use Rattle.nsi_world.specs.Worlds.{Homes, World};
ghost use Rattle.trace_verify.specs.Parcels.{IsDelivery, IsNamed, IsParcelBehind, WasSaid, delivery_of};
ghost use Rattle.trace_verify.specs.Standing.{IsFollower, Throughout};

use crate::follower::Follower;
use crate::guesses::identity_in;
use json_primitives::print_ack;
use nsi_base::AgentNo;
use nsi_primitive::Parcel;
use std::alloc::{AllocError, Global};
use stp_topology::Topology;

/// A parcel that an agent takes.
#[derive(Drop)]
pub struct Delivery {
    pub agent: AgentNo,
    pub parcel: Parcel,
}

/// The delivery of which this is the line, if it is found to be a message that some agent has said, or an
/// acknowledgement. If it isn't, the line may be that of one all the same.
pub fn delivery_in(
    alloc: Global,
    topology: &Topology,
    follower: &Follower<'_>,
    line: &[u8],
) -> Result<Option<Delivery>, AllocError>
    requires follower { IsFollower topology.now follower.now }
    ensures line { IfOk result (λ found. IfSome found (IsDelivery topology.now line.now)) }
    ensures said { Throughout topology.now follower.now (λ homes w. IfOk result
        (λ found. IfSome found (λ d. WasSaid homes w d.parcel))) }
{
    if let Some((agent, text)) = behind_name(topology, line, b"got") {
        let parcel = message_in(alloc, topology, follower, text)?;
        Ok(delivery_of(agent, parcel))
    } else if let Some((agent, text)) = behind_name(topology, line, b"acked") {
        let parcel = ack_in(alloc, text)?;
        Ok(delivery_of(agent, parcel))
    } else {
        Ok(None)
    }
}

fn delivery_of(agent: AgentNo, parcel: Option<Parcel>) -> Option<Delivery>
    ensures { result ≡ delivery_of agent parcel }
{
    match parcel {
        Some(parcel) => Some(Delivery { agent, parcel }),
        None => None,
    }
}

/// The message that a text spells, if it is found that some agent has said it.
fn message_in(
    alloc: Global,
    topology: &Topology,
    follower: &Follower<'_>,
    text: &[u8],
) -> Result<Option<Parcel>, AllocError>
    requires follower { IsFollower topology.now follower.now }
    ensures parcel { IfOk result (λ found. IfSome found (IsParcelBehind (codes "got") text.now)) }
    ensures said { Throughout topology.now follower.now (λ homes w. IfOk result
        (λ found. IfSome found (WasSaid homes w))) }
{
    match follower.said_as(alloc, topology, text)? {
        Some(message) => Ok(Some(Parcel::Message(message))),
        None => Ok(None),
    }
}

/// The acknowledgement that a text spells, if it is found so.
fn ack_in(alloc: Global, text: &[u8]) -> Result<Option<Parcel>, AllocError>
    ensures parcel { IfOk result (λ found. IfSome found (IsParcelBehind (codes "acked") text.now)) }
    ensures said { (homes : Homes) (w : World) → IfOk result
        (λ found. IfSome found (WasSaid homes w)) }
{
    let Some(identity) = identity_in(alloc, text, b"of")? else {
        return Ok(None);
    };
    let print = print_ack(alloc, &identity)?;
    if print.as_slice() == text {
        Ok(Some(Parcel::Ack(identity)))
    } else {
        Ok(None)
    }
}

/// The agent that is named behind a first word, and what stands behind its name.
fn behind_name<'a>(topology: &Topology, line: &'a [u8], verb: &[u8]) -> Option<(AgentNo, &'a [u8])>
    ensures { IfSome result (λ x. IsNamed topology.now verb.now line.now x.0 x.1.now) }
{
    let (first, rest) = cut_at_space(line)?;
    if first != verb {
        return None;
    }
    let (name, text) = cut_at_space(rest)?;
    let agent = topology.agent_of(name)?;
    Some((agent, text))
}

/// What stands before the first space, and what behind it.
fn cut_at_space(text: &[u8]) -> Option<(&[u8], &[u8])>
    ensures { IfSome result (λ x. text.now ≡ x.0.now ++ 32 ∷ x.1.now) }
{
    let place = text.iter().position(|byte| *byte == b' ')?;
    Some((&text[..place], &text[place + 1..]))
}
