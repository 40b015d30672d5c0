//! What of a child's notification is passed on to the owner.

ghost use Rattle.std.specs.Prelude.{◌≡◌, IfOk};
ghost use Rattle.aggregator_agent.specs.Turns.{hold_end_by, force_by};

use connection_record::{LifecycleMove, Origin, ReservationMove};
use nsi_base::HoldTime;
use nsi_primitive::{Body, Id};
use std::alloc::AllocError;

/// A hold that ended below ends the own one, and its origin is passed on.
#[tactic(auto, unfolding(crate::specs::Turns::hold_end_by))]
pub fn hold_end_by(is_lost: bool, body: &Body) -> Result<Option<ReservationMove>, AllocError>
    ensures { IfOk result (λ event. event ≡ hold_end_by is_lost body.now) }
{
    if !is_lost {
        return Ok(None);
    }
    match body {
        Body::ReserveTimeout(timeout) => Ok(Some(ReservationMove::HoldEnd {
            origin: Origin {
                connection: timeout.originating_connection,
                nsa: timeout.originating_nsa.copy()?,
                value: timeout.value,
            },
        })),
        _ => Ok(None),
    }
}

/// A connection that ended below before its time ends the own one, and its origin is passed on.
#[tactic(auto, unfolding(crate::specs::Turns::force_by))]
pub fn force_by(
    is_broken: bool,
    correlation: Id,
    body: &Body,
) -> Result<Option<LifecycleMove>, AllocError>
    ensures { IfOk result (λ event. event ≡ force_by is_broken correlation body.now) }
{
    if !is_broken {
        return Ok(None);
    }
    match body {
        Body::ErrorEvent(notice) => Ok(Some(LifecycleMove::Force {
            correlation,
            origin: Origin {
                connection: notice.originating_connection,
                nsa: notice.originating_nsa.copy()?,
                value: least_hold(),
            },
        })),
        _ => Ok(None),
    }
}

/// No hold has a part in it: any time will do.
fn least_hold() -> HoldTime
    ensures { result ≡ 1 }
{
    match HoldTime::new(1) {
        Some(value) => value,
        None => unreachable!(),
    }
}
