//! How an aggregator's own record settles, as its children stand.

ghost use Rattle.std.specs.Prelude.{◌≡◌, ◌++◌, OnOk};
ghost use Rattle.std.specs.List.{list_any};
ghost use Rattle.connection_record.specs.Later.{IsLater};
ghost use Rattle.aggregator_agent.specs.Settling.{settles_reservation, settles_provision, closes_unless, settles, is_there};

use crate::agent::Agent;
use crate::moving::{provision_if, reserve_if};
use crate::verdicts::{is_any_there, provision_due, reservation_due};
use child_connection::ChildConnection;
use connection_record::{Record, Reply};
use nsi_base::Second;
use nsi_primitive::{Lsm, Side};
use std::alloc::AllocError;

#[tactic(auto, unfolding(crate::specs::Settling::settles_reservation))]
fn settle_reservation(
    own: &mut Record,
    replies: &mut Vec<Reply>,
    children: &[ChildConnection],
    agent: &Agent,
    now: Second,
) -> Result<(), AllocError>
    ensures rec { let x = settles_reservation agent.now now children.now own.old in
        OnOk result (own.new ≡ x.rec) }
    ensures out { let said = (settles_reservation agent.now now children.now own.old).out in
        OnOk result (replies.new.items ≡ replies.old.items ++ said) }
    ensures later { IsLater own.old own.new }
{
    let event = reservation_due(own.rsm, &agent.name, children)?;
    reserve_if(own, replies, event, now)
}

#[tactic(auto, unfolding(crate::specs::Settling::settles_provision))]
fn settle_provision(
    own: &mut Record,
    replies: &mut Vec<Reply>,
    children: &[ChildConnection],
    agent: &Agent,
    now: Second,
) -> Result<(), AllocError>
    ensures rec { let x = settles_provision agent.now now children.now own.old in
        OnOk result (own.new ≡ x.rec) }
    ensures out { let said = (settles_provision agent.now now children.now own.old).out in
        OnOk result (replies.new.items ≡ replies.old.items ++ said) }
    ensures later { IsLater own.old own.new }
{
    let event = provision_due(own.psm, &agent.name, children)?;
    provision_if(own, replies, event, now)
}

#[tactic(auto, unfolding(crate::specs::Settling::closes_unless), using(connection_record::proofs::Growing::later_refl))]
fn close_unless_there(
    own: &mut Record,
    replies: &mut Vec<Reply>,
    children: &[ChildConnection],
    agent: &Agent,
    now: Second,
) -> Result<(), AllocError>
    ensures rec { let is_there = list_any is_there children.now in
        OnOk result (own.new ≡ (closes_unless is_there agent.now now own.old).rec) }
    ensures out { let is_there = list_any is_there children.now in
        let said = (closes_unless is_there agent.now now own.old).out in
        OnOk result (replies.new.items ≡ replies.old.items ++ said) }
    ensures later { IsLater own.old own.new }
{
    if is_any_there(children) {
        Ok(())
    } else {
        own.close(replies, &agent.name, Side::Aggregator, now)
    }
}

/// Both machines do what is due, the reservation's first.
#[tactic(auto, using(connection_record::proofs::Growing::later_trans))]
fn settle_both(
    own: &mut Record,
    replies: &mut Vec<Reply>,
    children: &[ChildConnection],
    agent: &Agent,
    now: Second,
) -> Result<(), AllocError>
    ensures rec { let reserved = (settles_reservation agent.now now children.now own.old).rec in
        OnOk result (own.new ≡ (settles_provision agent.now now children.now reserved).rec) }
    ensures out { let reserved = (settles_reservation agent.now now children.now own.old).rec in
        let said = (settles_reservation agent.now now children.now own.old).out in
        let said_then = (settles_provision agent.now now children.now reserved).out in
        OnOk result (replies.new.items ≡ replies.old.items ++ (said ++ said_then)) }
    ensures later { IsLater own.old own.new }
{
    settle_reservation(own, replies, children, agent, now)?;
    settle_provision(own, replies, children, agent, now)
}

/// Does what is due. A connection that ends has only its end to do, and one that has ended nothing.
#[tactic(auto, unfolding(crate::specs::Settling::settles), using(connection_record::proofs::Growing::later_refl))]
pub fn settle(
    own: &mut Record,
    replies: &mut Vec<Reply>,
    children: &[ChildConnection],
    agent: &Agent,
    now: Second,
) -> Result<(), AllocError>
    ensures rec { let x = settles own.old.lsm agent.now now children.now own.old in
        OnOk result (own.new ≡ x.rec) }
    ensures out { let said = (settles own.old.lsm agent.now now children.now own.old).out in
        OnOk result (replies.new.items ≡ replies.old.items ++ said) }
    ensures later { IsLater own.old own.new }
{
    match own.lsm {
        Lsm::Terminating => close_unless_there(own, replies, children, agent, now),
        Lsm::Terminated => Ok(()),
        _ => settle_both(own, replies, children, agent, now),
    }
}
