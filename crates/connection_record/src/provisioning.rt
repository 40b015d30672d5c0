//! The moves of the provision machine, done to a record.

ghost use Rattle.std.specs.Prelude.{◌≡◌, IfOk, OnErr, option_to_list};
ghost use Rattle.connection_record.specs.Lives.{provision_event, confirmed_kind, confirmed_body, provision_confirmed, provision_taken, provision_spoiled};

use crate::moves::Reply;
use crate::record::Record;
use crate::reply::id_or;
use nsi_base::Second;
use nsi_primitive::{Body, Exception, Id, Kind, Psm, Side};
use provision_machine::{PsmEvent, step};
use std::alloc::AllocError;

/// The events of the provision machine, with what a record needs for each.
#[derive(Debug, Drop)]
pub enum ProvisionMove {
    Provision { correlation: Id },
    Release { correlation: Id },
    Done,
    Spoiled { exception: Exception },
}

impl ProvisionMove {
    /// The event of the table that it is.
    #[tactic(auto, unfolding(crate::specs::Lives::provision_event))]
    fn event(&self) -> PsmEvent
        ensures { result ≡ provision_event self.now }
    {
        match self {
            ProvisionMove::Provision { .. } => PsmEvent::Provision,
            ProvisionMove::Release { .. } => PsmEvent::Release,
            ProvisionMove::Done => PsmEvent::Done,
            ProvisionMove::Spoiled { .. } => PsmEvent::Spoiled,
        }
    }
}

impl Record {
    ghost use Rattle.connection_record.specs.Lives.{provisions};

    /// Does what the table's row for a side, its state and the move says, and gives what is then said. Where the table
    /// has no row, or memory is wanting, nothing changes.
    #[tactic(auto, unfolding(crate::specs::Lives::provisions))]
    pub fn apply_provision(
        &mut self,
        side: Side,
        event: ProvisionMove,
        now: Second,
    ) -> Result<Option<Reply>, AllocError>
        ensures rec { IfOk result (λ _.
            self.new ≡ (provisions side self.old.psm event now self.old).rec) }
        ensures out { IfOk result (λ out.
            option_to_list out ≡ (provisions side self.old.psm event now self.old).out) }
        ensures err { OnErr result (self.new ≡ self.old) }
    {
        let Some((next, said)) = step(side, self.psm, event.event()) else {
            return Ok(None);
        };
        match event {
            ProvisionMove::Provision { correlation } | ProvisionMove::Release { correlation } => {
                self.take_provision(correlation, next, said, now)
            }
            ProvisionMove::Done => self.confirm_provision(id_or(self.provision_request), next, now),
            ProvisionMove::Spoiled { exception } => Ok(self.spoil_provision(exception, next)),
        }
    }

    /// Confirms a request at once where its row says something, and keeps it until it is answered where the row says
    /// nothing yet.
    fn take_provision(
        &mut self,
        correlation: Id,
        next: Psm,
        said: Option<Kind>,
        now: Second,
    ) -> Result<Option<Reply>, AllocError>
        ensures rec { IfOk result (λ _.
            self.new ≡ (provision_taken correlation next said now self.old).rec) }
        ensures out { IfOk result (λ out.
            option_to_list out ≡ (provision_taken correlation next said now self.old).out) }
        ensures err { OnErr result (self.new ≡ self.old) }
    {
        if said.is_some() {
            return self.confirm_provision(correlation, next, now);
        }
        self.psm = next;
        self.provision_request = Some(correlation);
        Ok(None)
    }

    /// Says that the connection is provisioned, or released, as it then is.
    fn confirm_provision(
        &mut self,
        correlation: Id,
        next: Psm,
        now: Second,
    ) -> Result<Option<Reply>, AllocError>
        ensures rec { IfOk result (λ _.
            self.new ≡ (provision_confirmed correlation next now self.old).rec) }
        ensures out { IfOk result (λ out.
            option_to_list out ≡ (provision_confirmed correlation next now self.old).out) }
        ensures err { OnErr result (self.new ≡ self.old) }
    {
        self.add_outcome(confirmed_kind(next), correlation, now)?;
        self.psm = next;
        self.provision_request = None;
        Ok(Some(Reply {
            correlation,
            body: confirmed_body(next, self.id),
        }))
    }

    fn spoil_provision(&mut self, exception: Exception, next: Psm) -> Option<Reply>
        ensures rec { self.new ≡ (provision_spoiled exception next self.old).rec }
        ensures out { option_to_list result ≡ (provision_spoiled exception next self.old).out }
    {
        let correlation = id_or(self.provision_request);
        self.psm = next;
        self.provision_request = None;
        Some(Reply {
            correlation,
            body: Body::Error {
                connection: Some(self.id),
                exception,
            },
        })
    }
}

/// The outcome as which a state is confirmed.
fn confirmed_kind(state: Psm) -> Kind
    ensures { result ≡ confirmed_kind state }
{
    match state {
        Psm::Provisioned => Kind::ProvisionConfirmed,
        _ => Kind::ReleaseConfirmed,
    }
}

fn confirmed_body(state: Psm, connection: Id) -> Body
    ensures { result ≡ confirmed_body state connection }
{
    match state {
        Psm::Provisioned => Body::ProvisionConfirmed { connection },
        _ => Body::ReleaseConfirmed { connection },
    }
}
