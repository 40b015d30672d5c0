//! The moves of an aggregator's own record, where it has one.

ghost use Rattle.std.specs.Prelude.{◌≡◌, ◌++◌, OnOk};
ghost use Rattle.nsi_primitive.specs.declared.state.Side.{Side as SideValue};
ghost use Rattle.connection_record.specs.Later.{IsLater};
ghost use Rattle.connection_record.specs.Moves.{reserves_if};
ghost use Rattle.connection_record.specs.Lives.{provisions_if};
ghost use Rattle.connection_record.specs.Applied.{moves_if};

use connection_record::{Move, ProvisionMove, Record, Reply, ReservationMove};
use nsi_base::Second;
use nsi_primitive::Side;
use std::alloc::AllocError;

/// Moves the reservation machine, where it has a move.
#[tactic(auto, using(connection_record::proofs::Growing::later_refl))]
pub fn reserve_if(
    own: &mut Record,
    replies: &mut Vec<Reply>,
    event: Option<ReservationMove>,
    now: Second,
) -> Result<(), AllocError>
    ensures rec { OnOk result (own.new ≡ (reserves_if event now own.old).rec) }
    ensures out { let said = (reserves_if event now own.old).out in
        OnOk result (replies.new.items ≡ replies.old.items ++ said) }
    ensures later { IsLater own.old own.new }
{
    match event {
        None => Ok(()),
        Some(event) => own.apply_reservation_and_say(replies, event, now),
    }
}

/// Moves the provision machine, where it has a move.
#[tactic(auto, using(connection_record::proofs::Growing::later_refl))]
pub fn provision_if(
    own: &mut Record,
    replies: &mut Vec<Reply>,
    event: Option<ProvisionMove>,
    now: Second,
) -> Result<(), AllocError>
    ensures rec { let x = provisions_if SideValue.Aggregator event now own.old in
        OnOk result (own.new ≡ x.rec) }
    ensures out { let said = (provisions_if SideValue.Aggregator event now own.old).out in
        OnOk result (replies.new.items ≡ replies.old.items ++ said) }
    ensures later { IsLater own.old own.new }
{
    match event {
        None => Ok(()),
        Some(event) => own.apply_provision_and_say(replies, Side::Aggregator, event, now),
    }
}

/// Moves a record, where there is a move.
#[tactic(auto, using(connection_record::proofs::Growing::later_refl))]
pub fn apply_if(
    own: &mut Record,
    replies: &mut Vec<Reply>,
    event: Option<Move>,
    now: Second,
) -> Result<(), AllocError>
    ensures rec { OnOk result (own.new ≡ (moves_if SideValue.Aggregator event now own.old).rec) }
    ensures out { let said = (moves_if SideValue.Aggregator event now own.old).out in
        OnOk result (replies.new.items ≡ replies.old.items ++ said) }
    ensures later { IsLater own.old own.new }
{
    match event {
        None => Ok(()),
        Some(event) => own.apply_move(replies, Side::Aggregator, event, now),
    }
}
