//! Both ends of links are used at once.

ghost use Rattle.std.specs.Prelude.{◌≡◌, IfSome};
ghost use Rattle.nsi_primitive.specs.Printable.{IsPrintableParcel};

use agent_link::{Incoming, Outgoing, PushFault, Pushed, link, meet};
use nsi_base::{AgentNo, List, Name};
use nsi_primitive::{Id, Identity, Kind, Parcel, id_of};
use std::alloc::{AllocError, Global};
use std::rt::HostRuntime;
use std::test::Fail;
use std::thread::{Threads, join_mut};

/// An agent's ends of both ways to another one.
#[derive(Drop)]
struct Side {
    out: Outgoing,
    inc: Incoming,
    is_first: bool,
}

/// The acknowledgement of the message with that number.
fn ack(alloc: Global, number: u32) -> Option<Parcel>
    ensures { IfSome result IsPrintableParcel }
{
    Some(Parcel::Ack(Identity {
        requester: Name::of(alloc, b"r1").ok()?,
        provider: Name::of(alloc, b"p1").ok()?,
        correlation: correlation(number),
        kind: Kind::Reserve,
    }))
}

fn correlation(number: u32) -> Id {
    match AgentNo::new(1) {
        Some(agent) => id_of(agent, u64::from(number)),
        None => Id::nil(),
    }
}

fn let_go(pushed: Result<Pushed, PushFault>) {
    drop(pushed);
}

/// Lets one more through.
fn say(alloc: Global, side: &mut Side, number: u32)
    ensures out { side.new.out.wire ≡ side.old.out.wire }
    ensures inc { side.new.inc.wire ≡ side.old.inc.wire }
{
    if let Some(parcel) = ack(alloc, number) {
        let_go(side.out.push(alloc, parcel));
    }
}

/// Sends back the next one that is known.
fn send_back(alloc: Global, side: &mut Side)
    ensures out { side.new.out.wire ≡ side.old.out.wire }
    ensures inc { side.new.inc.wire ≡ side.old.inc.wire }
{
    if let Some(parcel) = side.inc.take() {
        let_go(side.out.push(alloc, parcel));
    }
}

/// The first agent lets a thousand parcels through, and the other one sends back what it knows.
fn turn(alloc: Global, side: &mut Side, round: u32)
    ensures out { side.new.out.wire ≡ side.old.out.wire }
    ensures inc { side.new.inc.wire ≡ side.old.inc.wire }
{
    for k in 0..1000u32 {
        if side.is_first {
            say(alloc, side, round.wrapping_mul(1000).wrapping_add(k));
        } else {
            send_back(alloc, side);
        }
    }
}

fn turns<R: Threads + Sync>(rt: &R, alloc: Global, first: &mut Side, second: &mut Side, number: u32)
    ensures first { (first.new.out.wire ≡ first.old.out.wire)
        × (first.new.inc.wire ≡ first.old.inc.wire) }
    ensures second { (second.new.out.wire ≡ second.old.out.wire)
        × (second.new.inc.wire ≡ second.old.inc.wire) }
{
    join_mut(
        rt,
        &mut || turn(alloc, first, number),
        &mut || turn(alloc, second, number),
    );
}

/// Both turns at once, and a meeting.
fn round<R: Threads + Sync>(rt: &R, alloc: Global, first: &mut Side, second: &mut Side, number: u32)
    requires { (first.old.out.wire ≡ second.old.inc.wire)
        × (second.old.out.wire ≡ first.old.inc.wire) }
    ensures { (first.new.out.wire ≡ second.new.inc.wire)
        × (second.new.out.wire ≡ first.new.inc.wire) }
{
    turns(rt, alloc, first, second, number);
    first.inc.clear();
    second.inc.clear();
    meet(&mut first.out, &mut second.inc);
    meet(&mut second.out, &mut first.inc);
}

/// The two ends of what the second agent sends to the first one, after fifty rounds.
fn rounds<R: Threads + Sync>(rt: &R, alloc: Global) -> Result<(Outgoing, Incoming), AllocError> {
    let (there, heard) = link(alloc, List::new(alloc))?;
    let (back, told) = link(alloc, List::new(alloc))?;
    let mut first = Side {
        out: there,
        inc: told,
        is_first: true,
    };
    let mut second = Side {
        out: back,
        inc: heard,
        is_first: false,
    };
    for number in 0..50u32 {
        round(rt, alloc, &mut first, &mut second, number);
    }
    let Side { inc, .. } = first;
    let Side { out, .. } = second;
    Ok((out, inc))
}

fn next_is(incoming: &mut Incoming, number: u32) -> bool {
    match incoming.take() {
        Some(Parcel::Ack(identity)) => identity.correlation == correlation(number),
        _ => false,
    }
}

#[test]
fn all_come_in_order_where_both_ends_are_used_at_once(rt: HostRuntime) -> Result<(), Fail> {
    let (_out, mut incoming) = rounds(&rt, rt.alloc())?;
    for k in 0..1000u32 {
        assert!(rt; next_is(&mut incoming, 48_000 + k), "parcel {k}");
    }
    assert!(rt; incoming.is_empty());
    Ok(())
}
