//! Which state follows which.

ghost use Rattle.std.specs.Prelude.{◌≡◌};
ghost use Rattle.reserve_machine.specs.Table.{step};

use nsi_primitive::{Kind, Rsm};

/// What moves the reservation machine: a request, or the agent's own work on one.
#[derive(Clone, Copy, Debug, PartialEq, Eq)]
pub enum RsmEvent {
    Reserve,
    /// What is asked fits beside what is booked.
    Fit,
    /// Something is lacking for what is asked.
    Lack,
    Commit,
    Abort,
    /// The hold has ended before a commit came.
    HoldEnd,
    /// The commit is carried out.
    Done,
    /// The commit can't be carried out.
    Spoiled,
    /// The abort is carried out.
    Freed,
}

/// The next state, and the kind of the message that the move causes. It takes no memory.
#[tactic(auto, unfolding(crate::specs::Table::step))]
pub fn step(state: Rsm, event: RsmEvent) -> Option<(Rsm, Option<Kind>)>
    ensures { result ≡ step state event }
{
    let row = match (state, event) {
        (Rsm::ReserveStart, RsmEvent::Reserve) => (
            Rsm::ReserveChecking,
            Some(Kind::ReserveResponse),
        ),
        (Rsm::ReserveChecking, RsmEvent::Fit) => (Rsm::ReserveHeld, Some(Kind::ReserveConfirmed)),
        (Rsm::ReserveChecking, RsmEvent::Lack) => (Rsm::ReserveFailed, Some(Kind::ReserveFailed)),
        (Rsm::ReserveHeld, RsmEvent::Commit) => (Rsm::ReserveCommitting, None),
        (Rsm::ReserveHeld, RsmEvent::HoldEnd) => (Rsm::ReserveTimeout, Some(Kind::ReserveTimeout)),
        (Rsm::ReserveHeld | Rsm::ReserveFailed | Rsm::ReserveTimeout, RsmEvent::Abort) => (
            Rsm::ReserveAborting,
            None,
        ),
        (Rsm::ReserveCommitting, RsmEvent::Done) => (
            Rsm::ReserveStart,
            Some(Kind::ReserveCommitConfirmed),
        ),
        (Rsm::ReserveCommitting, RsmEvent::Spoiled) => (
            Rsm::ReserveStart,
            Some(Kind::ReserveCommitFailed),
        ),
        (Rsm::ReserveAborting, RsmEvent::Freed) => (
            Rsm::ReserveStart,
            Some(Kind::ReserveAbortConfirmed),
        ),
        _ => return None,
    };
    Some(row)
}
