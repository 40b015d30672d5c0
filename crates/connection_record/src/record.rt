//! The record of a connection.

ghost use Rattle.std.specs.Prelude.{◌≡◌, ◌+◌, ◌++◌, length, IfOk, OnOk, OnErr};
ghost use Rattle.std.specs.Option.{option_copied};
ghost use Rattle.connection_record.specs.Demand.{last, claim, held, claims, is_booked, holds_pending};

use nsi_base::{Flow, List, Name, Second, StpNo};
use nsi_primitive::{Criteria, Id, Kind, Lsm, Notice, Outcome, Psm, Rsm, Service};
use std::alloc::{AllocError, Global};

/// A connection, as its agent keeps it: whose it is, what was asked and committed, and the states of its machines.
#[derive(Debug, Drop)]
pub struct Record {
    pub id: Id,
    /// The requester.
    pub owner: Name,
    pub service: Service,
    pub source: StpNo,
    pub dest: StpNo,
    /// All that was committed, the last version last. The versions rise.
    pub committed: List<Criteria>,
    /// What is asked, while it is checked, held or committed.
    pub pending: Option<Criteria>,
    /// The correlationId of the last reserve.
    pub attempt: Option<Id>,
    pub rsm: Rsm,
    pub psm: Psm,
    pub lsm: Lsm,
    /// Whether a commit failed that had not failed everywhere.
    pub mixed: bool,
    /// The correlationId of the unanswered request to each machine.
    pub reserve_request: Option<Id>,
    pub provision_request: Option<Id>,
    pub lifecycle_request: Option<Id>,
    /// The second at which the hold ends; it means something while something is held.
    pub deadline: Option<u64>,
    pub notices: List<Notice>,
    pub results: List<Outcome>,
}

impl Record {
    ghost use Rattle.connection_record.specs.Demand.{demand};
    ghost use Rattle.connection_record.specs.Moves.{fresh};
    ghost use Rattle.connection_record.specs.Replies.{counted, noted};

    /// Nothing is asked yet.
    pub fn new(
        alloc: Global,
        id: Id,
        owner: Name,
        service: Service,
        source: StpNo,
        dest: StpNo,
    ) -> Record
        ensures { result ≡ fresh id owner service source dest }
    {
        Record {
            id,
            owner,
            service,
            source,
            dest,
            committed: List::new(alloc),
            pending: None,
            attempt: None,
            rsm: Rsm::ReserveStart,
            psm: Psm::Released,
            lsm: Lsm::Created,
            mixed: false,
            reserve_request: None,
            provision_request: None,
            lifecycle_request: None,
            deadline: None,
            notices: List::new(alloc),
            results: List::new(alloc),
        }
    }

    /// The criteria that were committed last.
    pub fn last(&self) -> Option<&Criteria>
        ensures { option_copied result ≡ last self.now.committed }
    {
        self.committed.items().last()
    }

    /// The Mbps that the connection claims of a flow of a service termination point at a second: the larger of what is
    /// committed and what is held there.
    #[tactic(auto, unfolding(crate::specs::Demand::demand))]
    pub fn demand(&self, stp: StpNo, flow: Flow, t: Second) -> u64
        ensures { result ≡ demand flow stp t self.now }
    {
        if self.is_booked(stp, flow) && self.lsm != Lsm::Terminated {
            let held = claim(&self.held(), t);
            claim(&self.last().copied(), t).max(held)
        } else {
            0
        }
    }

    fn is_booked(&self, stp: StpNo, flow: Flow) -> bool
        ensures { result ≡ is_booked flow stp self.now }
    {
        let both_ways = self.service.directionality.is_both_ways();
        flow.is_booked(both_ways, self.source == stp, self.dest == stp)
    }

    /// Whether pending criteria count in its state: while they are held, and while they are being committed.
    pub fn is_holding(&self) -> bool
        ensures { result ≡ holds_pending self.now.rsm }
    {
        matches!(self.rsm, Rsm::ReserveHeld | Rsm::ReserveCommitting)
    }

    fn held(&self) -> Option<Criteria>
        ensures { result ≡ held self.now }
    {
        if self.is_holding() {
            self.pending
        } else {
            None
        }
    }

    /// Counts a notification, and answers its number.
    pub fn add_notice(
        &mut self,
        kind: Kind,
        correlation: Id,
        second: Second,
    ) -> Result<u64, AllocError>
        ensures number { IfOk result (λ n. n ≡ length self.old.notices + 1) }
        ensures ok { OnOk result (self.new
            ≡ record self.old { notices = noted kind correlation second self.old.notices }) }
        ensures err { OnErr result (self.new ≡ self.old) }
    {
        let number = number_after(self.notices.items().len())?;
        self.notices.push(Notice {
            number,
            kind,
            correlation,
            second,
        })?;
        Ok(number)
    }

    /// Counts an answer, and gives its number.
    pub fn add_outcome(
        &mut self,
        kind: Kind,
        correlation: Id,
        second: Second,
    ) -> Result<u64, AllocError>
        ensures number { IfOk result (λ n. n ≡ length self.old.results + 1) }
        ensures ok { OnOk result (self.new
            ≡ record self.old { results = counted kind correlation second self.old.results }) }
        ensures err { OnErr result (self.new ≡ self.old) }
    {
        let number = number_after(self.results.items().len())?;
        self.results.push(Outcome {
            number,
            kind,
            correlation,
            second,
        })?;
        Ok(number)
    }
}

/// No memory holds as many items as there are numbers.
fn number_after(count: usize) -> Result<u64, AllocError>
    ensures { IfOk result (λ n. n ≡ count + 1) }
{
    match (count as u64).checked_add(1) {
        Some(number) => Ok(number),
        None => Err(AllocError),
    }
}

fn claim(criteria: &Option<Criteria>, t: Second) -> u64
    ensures { result ≡ claim criteria.now t }
{
    match criteria {
        Some(criteria) if criteria.interval.covers(t) => criteria.capacity.get(),
        _ => 0,
    }
}
