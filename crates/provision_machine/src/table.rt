//! Which state follows which.

ghost use Rattle.std.specs.Prelude.{◌≡◌};
ghost use Rattle.provision_machine.specs.Table.{step};

use nsi_primitive::{Kind, Psm, Side};

/// What moves the provision machine: a request, or the agent's own work on one.
#[derive(Clone, Copy, Debug, PartialEq, Eq)]
pub enum PsmEvent {
    Provision,
    Release,
    /// The request is carried out.
    Done,
    /// The request can't be carried out.
    Spoiled,
}

/// The next state, and the kind of the message that the move causes, at an agent of that side. It takes no memory.
#[tactic(auto, unfolding(crate::specs::Table::step))]
pub fn step(side: Side, state: Psm, event: PsmEvent) -> Option<(Psm, Option<Kind>)>
    ensures { result ≡ step side state event }
{
    let row = match (side, state, event) {
        (_, Psm::Released, PsmEvent::Provision) => (Psm::Provisioning, None),
        (_, Psm::Provisioning, PsmEvent::Done) => {
            (Psm::Provisioned, Some(Kind::ProvisionConfirmed))
        }
        (_, Psm::Provisioned, PsmEvent::Release) => (Psm::Releasing, None),
        (_, Psm::Releasing, PsmEvent::Done) => (Psm::Released, Some(Kind::ReleaseConfirmed)),
        (_, Psm::Provisioning | Psm::Releasing, PsmEvent::Spoiled) => {
            (Psm::Released, Some(Kind::Error))
        }
        // What is so already: a provider confirms it again, an aggregator asks its children again.
        (Side::Provider, Psm::Provisioned, PsmEvent::Provision) => {
            (Psm::Provisioned, Some(Kind::ProvisionConfirmed))
        }
        (Side::Provider, Psm::Released, PsmEvent::Release) => {
            (Psm::Released, Some(Kind::ReleaseConfirmed))
        }
        (Side::Aggregator, Psm::Provisioned, PsmEvent::Provision) => (Psm::Provisioning, None),
        (Side::Aggregator, Psm::Released, PsmEvent::Release) => (Psm::Releasing, None),
        _ => return None,
    };
    Some(row)
}
