//! The moves of the reservation machine, done to a record.

ghost use Rattle.std.specs.Prelude.{◌≡◌, [], ◌∷◌, IfOk, OnErr, option_to_list};
ghost use Rattle.connection_record.specs.Demand.{last};
ghost use Rattle.connection_record.specs.Replies.{id_or};
ghost use Rattle.connection_record.specs.Moves.{event_of, asked, checks, answered, fits, fails, times_out, commits, committed_with, spoils, frees, asked_criteria, asked_version};

use crate::record::Record;
use crate::reply::{confirmation, id_or};
use nsi_base::{HoldTime, Interval, Name, Second, Version};
use nsi_primitive::{Body, Criteria, Exception, HoldTimeout, Id, Kind, Lsm, ReserveRequest, Rsm};
use reserve_machine::{RsmEvent, step};
use std::alloc::AllocError;

/// What a record says: the header is put on by the agent.
#[derive(Debug, Drop)]
pub struct Reply {
    pub correlation: Id,
    pub body: Body,
}

/// Where a notification came from, and after how many seconds a hold ends there.
#[derive(Debug, Drop)]
pub struct Origin {
    pub connection: Id,
    pub nsa: Name,
    pub value: HoldTime,
}

/// The events of the reservation machine, with what a record needs for each.
#[derive(Debug, Drop)]
pub enum ReservationMove {
    Reserve { correlation: Id, criteria: Criteria },
    /// An agent that ends holds by itself gives the second at which this one ends.
    Fit { deadline: Option<u64> },
    Lack { exception: Exception },
    Commit { correlation: Id },
    Abort { correlation: Id },
    HoldEnd { origin: Origin },
    Done,
    /// Mixed where the commit may stand elsewhere.
    Spoiled { exception: Exception, mixed: bool },
    Freed,
}

impl ReservationMove {
    /// The event of the table that it is.
    #[tactic(auto, unfolding(crate::specs::Moves::event_of))]
    fn event(&self) -> RsmEvent
        ensures { result ≡ event_of self.now }
    {
        match self {
            ReservationMove::Reserve { .. } => RsmEvent::Reserve,
            ReservationMove::Fit { .. } => RsmEvent::Fit,
            ReservationMove::Lack { .. } => RsmEvent::Lack,
            ReservationMove::Commit { .. } => RsmEvent::Commit,
            ReservationMove::Abort { .. } => RsmEvent::Abort,
            ReservationMove::HoldEnd { .. } => RsmEvent::HoldEnd,
            ReservationMove::Done => RsmEvent::Done,
            ReservationMove::Spoiled { .. } => RsmEvent::Spoiled,
            ReservationMove::Freed => RsmEvent::Freed,
        }
    }
}

impl Record {
    ghost use Rattle.connection_record.specs.Moves.{reserves, is_live, is_working};

    /// Does what the table's row for its state and the move says, and gives what is then said. Where the table has no
    /// row, or memory is wanting, nothing changes.
    #[tactic(auto, unfolding(crate::specs::Moves::reserves))]
    pub fn apply_reservation(
        &mut self,
        event: ReservationMove,
        now: Second,
    ) -> Result<Option<Reply>, AllocError>
        ensures rec { IfOk result (λ _. self.new ≡ (reserves self.old.rsm event now self.old).rec) }
        ensures out { IfOk result (λ out.
            option_to_list out ≡ (reserves self.old.rsm event now self.old).out) }
        ensures err { OnErr result (self.new ≡ self.old) }
    {
        let Some((next, _)) = step(self.rsm, event.event()) else {
            return Ok(None);
        };
        match event {
            ReservationMove::Reserve {
                correlation,
                criteria,
            } => Ok(Some(self.check(correlation, criteria, next))),
            ReservationMove::Fit { deadline } => self.fit(deadline, next, now),
            ReservationMove::Lack { exception } => self.fail(exception, next, now),
            ReservationMove::Commit { correlation } => {
                self.ask(correlation, next);
                Ok(None)
            }
            ReservationMove::Abort { correlation } => {
                self.ask(correlation, next);
                self.pending = None;
                Ok(None)
            }
            ReservationMove::HoldEnd { origin } => self.time_out(origin, next, now),
            ReservationMove::Done => self.commit(next, now),
            ReservationMove::Spoiled { exception, mixed } => {
                self.spoil(exception, mixed, next, now)
            }
            ReservationMove::Freed => self.free(next, now),
        }
    }

    /// Keeps the request until it is answered.
    fn ask(&mut self, correlation: Id, next: Rsm)
        ensures { self.new ≡ asked correlation next self.old }
    {
        self.rsm = next;
        self.reserve_request = Some(correlation);
    }

    fn check(&mut self, correlation: Id, criteria: Criteria, next: Rsm) -> Reply
        ensures rec { self.new ≡ (checks correlation criteria next self.old).rec }
        ensures out { result ∷ [] ≡ (checks correlation criteria next self.old).out }
    {
        self.ask(correlation, next);
        self.pending = Some(criteria);
        self.attempt = Some(correlation);
        Reply {
            correlation,
            body: Body::ReserveResponse {
                connection: self.id,
            },
        }
    }

    /// Answers the request in the work, and counts the outcome.
    fn answer(&mut self, kind: Kind, next: Rsm, now: Second) -> Result<Id, AllocError>
        ensures rec { IfOk result (λ _. self.new ≡ answered kind next now self.old) }
        ensures correlation { IfOk result (λ c. c ≡ id_or self.old.reserve_request) }
        ensures err { OnErr result (self.new ≡ self.old) }
    {
        let correlation = id_or(self.reserve_request);
        self.add_outcome(kind, correlation, now)?;
        self.rsm = next;
        self.reserve_request = None;
        Ok(correlation)
    }

    fn fit(
        &mut self,
        deadline: Option<u64>,
        next: Rsm,
        now: Second,
    ) -> Result<Option<Reply>, AllocError>
        ensures rec { IfOk result (λ _.
            self.new ≡ (fits self.old.pending deadline next now self.old).rec) }
        ensures out { IfOk result (λ out.
            option_to_list out ≡ (fits self.old.pending deadline next now self.old).out) }
        ensures err { OnErr result (self.new ≡ self.old) }
    {
        let Some(criteria) = self.pending else {
            return Ok(None);
        };
        let confirmed = confirmation(self.id, &self.service, criteria)?;
        let correlation = self.answer(Kind::ReserveConfirmed, next, now)?;
        self.deadline = deadline;
        Ok(Some(Reply {
            correlation,
            body: Body::ReserveConfirmed(confirmed),
        }))
    }

    fn fail(
        &mut self,
        exception: Exception,
        next: Rsm,
        now: Second,
    ) -> Result<Option<Reply>, AllocError>
        ensures rec { IfOk result (λ _. self.new ≡ (fails exception next now self.old).rec) }
        ensures out { IfOk result (λ out.
            option_to_list out ≡ (fails exception next now self.old).out) }
        ensures err { OnErr result (self.new ≡ self.old) }
    {
        let correlation = self.answer(Kind::ReserveFailed, next, now)?;
        self.pending = None;
        Ok(Some(Reply {
            correlation,
            body: Body::ReserveFailed {
                connection: self.id,
                exception,
            },
        }))
    }

    /// The hold ends, of which the owner is notified.
    fn time_out(
        &mut self,
        origin: Origin,
        next: Rsm,
        now: Second,
    ) -> Result<Option<Reply>, AllocError>
        ensures rec { IfOk result (λ _. self.new ≡ (times_out origin next now self.old).rec) }
        ensures out { IfOk result (λ out.
            option_to_list out ≡ (times_out origin next now self.old).out) }
        ensures err { OnErr result (self.new ≡ self.old) }
    {
        let correlation = id_or(self.attempt);
        let notification = self.add_notice(Kind::ReserveTimeout, correlation, now)?;
        self.rsm = next;
        self.pending = None;
        Ok(Some(Reply {
            correlation,
            body: Body::ReserveTimeout(HoldTimeout {
                connection: self.id,
                notification,
                originating_connection: origin.connection,
                originating_nsa: origin.nsa,
                time: now,
                value: origin.value,
            }),
        }))
    }

    fn commit(&mut self, next: Rsm, now: Second) -> Result<Option<Reply>, AllocError>
        ensures rec { IfOk result (λ _. self.new ≡ (commits next now self.old).rec) }
        ensures out { IfOk result (λ out. option_to_list out ≡ (commits next now self.old).out) }
        ensures err { OnErr result (self.new ≡ self.old) }
    {
        self.push_pending()?;
        match self.answer(Kind::ReserveCommitConfirmed, next, now) {
            Ok(correlation) => {
                self.pending = None;
                Ok(Some(Reply {
                    correlation,
                    body: Body::ReserveCommitConfirmed {
                        connection: self.id,
                    },
                }))
            }
            Err(error) => {
                self.take_back_pending();
                Err(error)
            }
        }
    }

    fn push_pending(&mut self) -> Result<(), AllocError>
        ensures ok { IfOk result (λ _. self.new
            ≡ record self.old { committed = committed_with self.old.committed self.old.pending }) }
        ensures err { OnErr result (self.new ≡ self.old) }
    {
        match self.pending {
            None => Ok(()),
            Some(criteria) => self.committed.push(criteria),
        }
    }

    fn take_back_pending(&mut self)
        ensures { (r : Record)
            → self.old ≡ record r { committed = committed_with r.committed r.pending }
            → self.new ≡ r }
    {
        if self.pending.is_some() {
            self.committed.take_back();
        }
    }

    fn spoil(
        &mut self,
        exception: Exception,
        mixed: bool,
        next: Rsm,
        now: Second,
    ) -> Result<Option<Reply>, AllocError>
        ensures rec { IfOk result (λ _. self.new ≡ (spoils exception mixed next now self.old).rec) }
        ensures out { IfOk result (λ out.
            option_to_list out ≡ (spoils exception mixed next now self.old).out) }
        ensures err { OnErr result (self.new ≡ self.old) }
    {
        let correlation = self.answer(Kind::ReserveCommitFailed, next, now)?;
        self.pending = None;
        self.mixed = self.mixed || mixed;
        Ok(Some(Reply {
            correlation,
            body: Body::ReserveCommitFailed {
                connection: self.id,
                exception,
            },
        }))
    }

    fn free(&mut self, next: Rsm, now: Second) -> Result<Option<Reply>, AllocError>
        ensures rec { IfOk result (λ _. self.new ≡ (frees next now self.old).rec) }
        ensures out { IfOk result (λ out. option_to_list out ≡ (frees next now self.old).out) }
        ensures err { OnErr result (self.new ≡ self.old) }
    {
        let correlation = self.answer(Kind::ReserveAbortConfirmed, next, now)?;
        Ok(Some(Reply {
            correlation,
            body: Body::ReserveAbortConfirmed {
                connection: self.id,
            },
        }))
    }

    /// What a reserve that is taken at a second asks, where its schedule and its version have a form.
    pub(crate) fn asked_criteria(&self, request: &ReserveRequest, now: Second) -> Option<Criteria>
        ensures { result ≡ asked_criteria now request.now self.now.committed }
    {
        let interval = Interval::new(request.start_at(now), request.end)?;
        let version = self.asked_version(request.version)?;
        Some(Criteria {
            version,
            interval,
            capacity: request.capacity,
        })
    }

    /// The version that is given, or the one after the last committed, where there is one.
    fn asked_version(&self, given: Option<Version>) -> Option<Version>
        ensures { result ≡ asked_version given (last self.now.committed) }
    {
        if given.is_some() {
            return given;
        }
        match self.last() {
            None => Some(Version::first()),
            Some(criteria) => Version::new(criteria.version.get() + 1),
        }
    }

    /// Whether the reservation machine has work to do.
    #[tactic(auto, unfolding(crate::specs::Moves::is_working))]
    pub fn is_working(&self) -> bool
        ensures { result ≡ is_working self.now.rsm }
    {
        matches!(
            self.rsm,
            Rsm::ReserveChecking | Rsm::ReserveCommitting | Rsm::ReserveAborting
        )
    }

    /// Whether the connection hasn't ended, nor is about to.
    #[tactic(auto, unfolding(crate::specs::Moves::is_live))]
    pub fn is_live(&self) -> bool
        ensures { result ≡ is_live self.now.lsm }
    {
        !matches!(self.lsm, Lsm::Terminating | Lsm::Terminated)
    }
}
