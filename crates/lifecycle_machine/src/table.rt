//! Which state follows which.

ghost use Rattle.std.specs.Prelude.{◌≡◌};
ghost use Rattle.lifecycle_machine.specs.Table.{step};

use nsi_primitive::{Kind, Lsm};

/// What moves the lifecycle machine: a request, the clock, or the agent itself.
#[derive(Clone, Copy, Debug, PartialEq, Eq)]
pub enum LsmEvent {
    /// The connection is ended by force (GFD.237, forcedEnd).
    Force,
    /// The schedule that was committed last is over.
    EndTime,
    Terminate,
    /// The connection is taken down.
    Done,
}

/// The next state, and the kind of the message that the move causes. It takes no memory.
#[tactic(auto, unfolding(crate::specs::Table::step))]
pub fn step(state: Lsm, event: LsmEvent) -> Option<(Lsm, Option<Kind>)>
    ensures { result ≡ step state event }
{
    let row = match (state, event) {
        (Lsm::Created, LsmEvent::Force) => (Lsm::Failed, Some(Kind::ErrorEvent)),
        (Lsm::Created, LsmEvent::EndTime) => (Lsm::PassedEndTime, None),
        (Lsm::Created | Lsm::Failed | Lsm::PassedEndTime, LsmEvent::Terminate) => {
            (Lsm::Terminating, None)
        }
        (Lsm::Terminating, LsmEvent::Done) => (Lsm::Terminated, Some(Kind::TerminateConfirmed)),
        _ => return None,
    };
    Some(row)
}
