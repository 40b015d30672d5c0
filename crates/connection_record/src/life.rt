//! The moves of the lifecycle machine, done to a record.

ghost use Rattle.std.specs.Prelude.{◌≡◌, IfOk, OnErr, option_to_list, None};
ghost use Rattle.connection_record.specs.Lives.{lifecycle_event, forced, terminating, terminated};

use crate::moves::{Origin, Reply};
use crate::record::Record;
use crate::reply::id_or;
use lifecycle_machine::{LsmEvent, step};
use nsi_base::Second;
use nsi_primitive::{Body, FaultEvent, FaultNotice, Id, Kind, Lsm};
use std::alloc::AllocError;

/// The events of the lifecycle machine, with what a record needs for each.
#[derive(Debug, Drop)]
pub enum LifecycleMove {
    /// A notification needs a correlationId of its own.
    Force { correlation: Id, origin: Origin },
    EndTime,
    Terminate { correlation: Id },
    Done,
}

impl LifecycleMove {
    /// The event of the table that it is.
    #[tactic(auto, unfolding(crate::specs::Lives::lifecycle_event))]
    fn event(&self) -> LsmEvent
        ensures { result ≡ lifecycle_event self.now }
    {
        match self {
            LifecycleMove::Force { .. } => LsmEvent::Force,
            LifecycleMove::EndTime => LsmEvent::EndTime,
            LifecycleMove::Terminate { .. } => LsmEvent::Terminate,
            LifecycleMove::Done => LsmEvent::Done,
        }
    }
}

impl Record {
    ghost use Rattle.connection_record.specs.Lives.{lives};

    /// Does what the table's row for its state and the move says, and gives what is then said. Where the table has no
    /// row, or memory is wanting, nothing changes.
    #[tactic(auto, unfolding(crate::specs::Lives::lives))]
    pub fn apply_lifecycle(
        &mut self,
        event: LifecycleMove,
        now: Second,
    ) -> Result<Option<Reply>, AllocError>
        ensures rec { IfOk result (λ _. self.new ≡ (lives self.old.lsm event now self.old).rec) }
        ensures out { IfOk result (λ out.
            option_to_list out ≡ (lives self.old.lsm event now self.old).out) }
        ensures err { OnErr result (self.new ≡ self.old) }
    {
        let Some((next, _)) = step(self.lsm, event.event()) else {
            return Ok(None);
        };
        match event {
            LifecycleMove::Force {
                correlation,
                origin,
            } => self.force(correlation, origin, next, now),
            LifecycleMove::EndTime => {
                self.lsm = next;
                Ok(None)
            }
            LifecycleMove::Terminate { correlation } => Ok(self.terminate(correlation, next)),
            LifecycleMove::Done => self.end(next, now),
        }
    }

    fn force(
        &mut self,
        correlation: Id,
        origin: Origin,
        next: Lsm,
        now: Second,
    ) -> Result<Option<Reply>, AllocError>
        ensures rec { IfOk result (λ _.
            self.new ≡ (forced correlation origin next now self.old).rec) }
        ensures out { IfOk result (λ out.
            option_to_list out ≡ (forced correlation origin next now self.old).out) }
        ensures err { OnErr result (self.new ≡ self.old) }
    {
        let notification = self.add_notice(Kind::ErrorEvent, correlation, now)?;
        self.lsm = next;
        Ok(Some(Reply {
            correlation,
            body: Body::ErrorEvent(FaultNotice {
                connection: self.id,
                event: FaultEvent::ForcedEnd,
                notification,
                originating_connection: origin.connection,
                originating_nsa: origin.nsa,
                time: now,
            }),
        }))
    }

    /// Keeps the request until it is answered.
    fn terminate(&mut self, correlation: Id, next: Lsm) -> Option<Reply>
        ensures rec { self.new ≡ (terminating correlation next self.old).rec }
        ensures out { result ≡ None }
    {
        self.lsm = next;
        self.lifecycle_request = Some(correlation);
        None
    }

    fn end(&mut self, next: Lsm, now: Second) -> Result<Option<Reply>, AllocError>
        ensures rec { IfOk result (λ _. self.new ≡ (terminated next now self.old).rec) }
        ensures out { IfOk result (λ out. option_to_list out ≡ (terminated next now self.old).out) }
        ensures err { OnErr result (self.new ≡ self.old) }
    {
        let correlation = id_or(self.lifecycle_request);
        self.add_outcome(Kind::TerminateConfirmed, correlation, now)?;
        self.lsm = next;
        self.lifecycle_request = None;
        Ok(Some(Reply {
            correlation,
            body: Body::TerminateConfirmed {
                connection: self.id,
            },
        }))
    }
}
