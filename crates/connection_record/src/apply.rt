//! What is done to a record at once, and the change of its data plane that is told then.

ghost use Rattle.std.specs.Prelude.{◌≡◌, ◌++◌, IfOk, OnOk, option_to_list, if◌then◌else◌, Some, None};
ghost use Rattle.connection_record.specs.Later.{IsLater};
ghost use Rattle.connection_record.specs.Lives.{provisions, lives, lives_if};
ghost use Rattle.connection_record.specs.Moves.{reserves, hold_end, is_due, reserves_if};
ghost use Rattle.connection_record.specs.Demand.{last};
ghost use Rattle.connection_record.specs.Replies.{plain};
ghost use Rattle.connection_record.specs.Applied.{closes, closes_reservation, closes_provision, reservation_closing, provision_closing, end_of, schedule_end};

use crate::life::LifecycleMove;
use crate::moves::{Origin, Reply, ReservationMove};
use crate::provisioning::ProvisionMove;
use crate::record::Record;
use dataplane_state::{announces, status};
use nsi_base::{Name, Second};
use nsi_primitive::{
    Body, Cause, ErrorName, Exception, Id, Kind, Lsm, Machine, Plane, PlaneNotice, Psm, Rsm, Side,
};
use std::alloc::AllocError;

/// A move of one of a connection's machines, or its end.
#[derive(Debug, Drop)]
pub enum Move {
    Reservation(ReservationMove),
    Provision(ProvisionMove),
    Lifecycle(LifecycleMove),
    /// What was asked of the connection and isn't answered yet is answered with GONE by the agent of that name, and then
    /// its terminate is answered.
    Close { agent: Name },
}

impl Record {
    ghost use Rattle.connection_record.specs.Applied.{moves, requested, waits, first_machine, is_provisioning, is_terminating, provided, status_of, is_told, tells_plane, tells, ticked};

    /// Moves, and tells the change of its data plane under a correlation that is used for nothing else. It answers
    /// whether there was a change to tell. Where memory is wanting it may have moved, and can be restored.
    #[tactic(auto, using(crate::proofs::Growing::later_trans), unfolding(crate::specs::Applied::tells))]
    pub fn apply(
        &mut self,
        replies: &mut Vec<Reply>,
        side: Side,
        event: Move,
        correlation: Id,
        now: Second,
    ) -> Result<bool, AllocError>
        ensures rec { OnOk result (self.new
            ≡ (tells (status_of now self.old) correlation now
            (moves side event now self.old)).rec) }
        ensures out { OnOk result (replies.new.items ≡ replies.old.items
            ++ (tells (status_of now self.old) correlation now
            (moves side event now self.old)).out) }
        ensures told { IfOk result (λ told.
            told ≡ is_told (status_of now self.old) now (moves side event now self.old).rec) }
        ensures later { IsLater self.old self.new }
    {
        let before = self.status(now);
        self.apply_move(replies, side, event, now)?;
        self.tell_plane(replies, &before, correlation, now)
    }

    /// Ends a hold that is over and a connection whose schedule is over, and tells the change of its data plane since the
    /// second before, as `apply` does.
    #[tactic(auto, using(crate::proofs::Growing::later_trans), unfolding(crate::specs::Applied::tells))]
    pub fn tick(
        &mut self,
        replies: &mut Vec<Reply>,
        origin: Origin,
        correlation: Id,
        before: Second,
        now: Second,
    ) -> Result<bool, AllocError>
        ensures rec { OnOk result (self.new
            ≡ (tells (status_of before self.old) correlation now
            (ticked origin now self.old)).rec) }
        ensures out { OnOk result (replies.new.items ≡ replies.old.items
            ++ (tells (status_of before self.old) correlation now
            (ticked origin now self.old)).out) }
        ensures told { IfOk result (λ told.
            told ≡ is_told (status_of before self.old) now (ticked origin now self.old).rec) }
        ensures later { IsLater self.old self.new }
    {
        let plane = self.status(before);
        self.pass(replies, origin, now)?;
        self.tell_plane(replies, &plane, correlation, now)
    }

    /// The status of its data plane, in one network.
    pub fn status(&self, now: Second) -> Plane
        ensures { result ≡ status_of now self.now }
    {
        status(self.psm, self.lsm, self.last(), now)
    }

    /// Tells the change of its data plane since it had a status, where there is one to tell, and answers whether there is.
    #[tactic(auto, unfolding(crate::specs::Applied::tells_plane))]
    fn tell_plane(
        &mut self,
        replies: &mut Vec<Reply>,
        before: &Plane,
        correlation: Id,
        now: Second,
    ) -> Result<bool, AllocError>
        ensures rec { OnOk result (self.new ≡ (tells_plane (is_told before.now now self.old)
            (status_of now self.old) correlation now self.old).rec) }
        ensures out { OnOk result (replies.new.items ≡ replies.old.items
            ++ (tells_plane (is_told before.now now self.old)
            (status_of now self.old) correlation now self.old).out) }
        ensures told { IfOk result (λ told. told ≡ is_told before.now now self.old) }
        ensures later { IsLater self.old self.new }
    {
        let after = self.status(now);
        if !announces(before, &after) {
            return Ok(false);
        }
        let notification = self.add_notice(Kind::DataPlaneStateChange, correlation, now)?;
        replies.push(Reply {
            correlation,
            body: Body::DataPlaneStateChange(PlaneNotice {
                active: after.active,
                connection: self.id,
                notification,
                time: now,
                version: after.version,
                consistent: after.consistent,
            }),
        })?;
        Ok(true)
    }

    /// Does what the row of a machine's table says, or ends the connection. Where memory is wanting it may have moved, and can
    /// be restored.
    #[tactic(auto, unfolding(crate::specs::Applied::moves))]
    pub fn apply_move(
        &mut self,
        replies: &mut Vec<Reply>,
        side: Side,
        event: Move,
        now: Second,
    ) -> Result<(), AllocError>
        ensures rec { OnOk result (self.new ≡ (moves side event now self.old).rec) }
        ensures out { OnOk result (replies.new.items ≡ replies.old.items
            ++ (moves side event now self.old).out) }
        ensures later { IsLater self.old self.new }
    {
        match event {
            Move::Reservation(event) => self.apply_reservation_and_say(replies, event, now),
            Move::Provision(event) => self.apply_provision_and_say(replies, side, event, now),
            Move::Lifecycle(event) => self.apply_lifecycle_and_say(replies, event, now),
            Move::Close { agent } => self.close(replies, &agent, side, now),
        }
    }

    /// Moves the reservation machine, and says what it says. Where memory is wanting it may have moved.
    #[tactic(auto, using(crate::proofs::Growing::reserves_later))]
    pub fn apply_reservation_and_say(
        &mut self,
        replies: &mut Vec<Reply>,
        event: ReservationMove,
        now: Second,
    ) -> Result<(), AllocError>
        ensures rec { OnOk result (self.new ≡ (reserves self.old.rsm event now self.old).rec) }
        ensures out { OnOk result (replies.new.items ≡ replies.old.items
            ++ (reserves self.old.rsm event now self.old).out) }
        ensures later { IsLater self.old self.new }
    {
        let reply = self.apply_reservation(event, now)?;
        say(replies, reply)
    }

    /// Moves the provision machine in the same way.
    #[tactic(auto, using(crate::proofs::Growing::provisions_later))]
    pub fn apply_provision_and_say(
        &mut self,
        replies: &mut Vec<Reply>,
        side: Side,
        event: ProvisionMove,
        now: Second,
    ) -> Result<(), AllocError>
        ensures rec { OnOk result (self.new
            ≡ (provisions side self.old.psm event now self.old).rec) }
        ensures out { OnOk result (replies.new.items ≡ replies.old.items
            ++ (provisions side self.old.psm event now self.old).out) }
        ensures later { IsLater self.old self.new }
    {
        let reply = self.apply_provision(side, event, now)?;
        say(replies, reply)
    }

    /// Moves the lifecycle machine in the same way.
    #[tactic(auto, using(crate::proofs::Growing::lives_later))]
    pub fn apply_lifecycle_and_say(
        &mut self,
        replies: &mut Vec<Reply>,
        event: LifecycleMove,
        now: Second,
    ) -> Result<(), AllocError>
        ensures rec { OnOk result (self.new ≡ (lives self.old.lsm event now self.old).rec) }
        ensures out { OnOk result (replies.new.items ≡ replies.old.items
            ++ (lives self.old.lsm event now self.old).out) }
        ensures later { IsLater self.old self.new }
    {
        let reply = self.apply_lifecycle(event, now)?;
        say(replies, reply)
    }

    /// Answers what is open, and then the terminate. Where memory is wanting it may have moved.
    #[tactic(auto, unfolding(crate::specs::Applied::closes))]
    pub fn close(
        &mut self,
        replies: &mut Vec<Reply>,
        agent: &Name,
        side: Side,
        now: Second,
    ) -> Result<(), AllocError>
        ensures rec { OnOk result (self.new ≡ (closes agent.now side now self.old).rec) }
        ensures out { OnOk result (replies.new.items ≡ replies.old.items
            ++ (closes agent.now side now self.old).out) }
        ensures later { IsLater self.old self.new }
    {
        self.close_reservation(replies, agent, now)?;
        self.close_provision(replies, agent, side, now)?;
        self.apply_lifecycle_and_say(replies, LifecycleMove::Done, now)
    }

    fn close_reservation(
        &mut self,
        replies: &mut Vec<Reply>,
        agent: &Name,
        now: Second,
    ) -> Result<(), AllocError>
        ensures rec { OnOk result (self.new ≡ (closes_reservation agent.now now self.old).rec) }
        ensures out { OnOk result (replies.new.items ≡ replies.old.items
            ++ (closes_reservation agent.now now self.old).out) }
        ensures later { IsLater self.old self.new }
    {
        match reservation_closing(self.rsm, agent)? {
            None => Ok(()),
            Some(event) => self.apply_reservation_and_say(replies, event, now),
        }
    }

    fn close_provision(
        &mut self,
        replies: &mut Vec<Reply>,
        agent: &Name,
        side: Side,
        now: Second,
    ) -> Result<(), AllocError>
        ensures rec { OnOk result (self.new ≡ (closes_provision agent.now side now self.old).rec) }
        ensures out { OnOk result (replies.new.items ≡ replies.old.items
            ++ (closes_provision agent.now side now self.old).out) }
        ensures later { IsLater self.old self.new }
    {
        match provision_closing(self.psm, agent)? {
            None => Ok(()),
            Some(event) => self.apply_provision_and_say(replies, side, event, now),
        }
    }

    /// Ends what is over.
    #[tactic(auto, unfolding(crate::specs::Applied::ticks))]
    fn pass(
        &mut self,
        replies: &mut Vec<Reply>,
        origin: Origin,
        now: Second,
    ) -> Result<(), AllocError>
        ensures rec { OnOk result (self.new ≡ (ticked origin now self.old).rec) }
        ensures out { OnOk result (replies.new.items ≡ replies.old.items
            ++ (ticked origin now self.old).out) }
        ensures later { IsLater self.old self.new }
    {
        if !self.is_live() {
            return Ok(());
        }
        self.pass_hold(replies, origin, now)?;
        self.pass_schedule(replies, now)
    }

    #[tactic(auto, unfolding(crate::specs::Moves::hold_end))]
    fn pass_hold(
        &mut self,
        replies: &mut Vec<Reply>,
        origin: Origin,
        now: Second,
    ) -> Result<(), AllocError>
        ensures rec { OnOk result (self.new
            ≡ (reserves_if (hold_end self.old.rsm self.old.deadline now origin) now self.old).rec) }
        ensures out { OnOk result (replies.new.items ≡ replies.old.items
            ++ (reserves_if (hold_end self.old.rsm self.old.deadline now origin) now self.old).out) }
        ensures later { IsLater self.old self.new }
    {
        if !self.is_hold_over(now) {
            return Ok(());
        }
        self.apply_reservation_and_say(replies, ReservationMove::HoldEnd { origin }, now)
    }

    /// Whether what it holds isn't held any more at that second.
    #[tactic(auto, unfolding(crate::specs::Moves::hold_end))]
    fn is_hold_over(&self, now: Second) -> bool
        ensures { (origin : Origin) → hold_end self.now.rsm self.now.deadline now origin
            ≡ (if result then Some (ReservationMove.HoldEnd origin) else None) }
    {
        self.rsm == Rsm::ReserveHeld && is_due(self.deadline, now)
    }

    /// Ends a connection whose schedule is over. Where memory is wanting it may have moved.
    pub fn pass_schedule(&mut self, replies: &mut Vec<Reply>, now: Second) -> Result<(), AllocError>
        ensures rec { OnOk result (self.new
            ≡ (lives_if (schedule_end (last self.old.committed) now) now self.old).rec) }
        ensures out { OnOk result (replies.new.items ≡ replies.old.items
            ++ (lives_if (schedule_end (last self.old.committed) now) now self.old).out) }
        ensures later { IsLater self.old self.new }
    {
        if !self.is_schedule_over(now) {
            return Ok(());
        }
        self.apply_lifecycle_and_say(replies, LifecycleMove::EndTime, now)
    }

    /// Whether the schedule that was committed last has ended.
    fn is_schedule_over(&self, now: Second) -> bool
        ensures { result ≡ is_due (end_of (last self.now.committed)) now }
    {
        match self.last() {
            None => false,
            Some(criteria) => criteria.interval.end() <= now,
        }
    }

    /// The move that a request is, where it is taken at that second.
    #[tactic(auto, unfolding(crate::specs::Applied::requested))]
    pub fn requested(&self, body: &Body, correlation: Id, now: Second) -> Option<Move>
        ensures { result ≡ requested now body.now correlation self.now }
    {
        match body {
            Body::Reserve(request) => {
                let criteria = self.asked_criteria(request, now)?;
                Some(Move::Reservation(ReservationMove::Reserve {
                    correlation,
                    criteria,
                }))
            }
            Body::ReserveCommit { .. } => {
                Some(Move::Reservation(ReservationMove::Commit { correlation }))
            }
            Body::ReserveAbort { .. } => {
                Some(Move::Reservation(ReservationMove::Abort { correlation }))
            }
            Body::Provision { .. } => {
                Some(Move::Provision(ProvisionMove::Provision { correlation }))
            }
            Body::Release { .. } => Some(Move::Provision(ProvisionMove::Release { correlation })),
            Body::Terminate { .. } => {
                Some(Move::Lifecycle(LifecycleMove::Terminate { correlation }))
            }
            _ => None,
        }
    }

    /// Whether a machine has work to do.
    #[tactic(auto, unfolding(crate::specs::Applied::waits))]
    pub fn waits(&self, machine: Machine) -> bool
        ensures { result ≡ waits machine self.now }
    {
        match machine {
            Machine::Reserve => self.is_live() && self.is_working(),
            Machine::Provision => self.is_live() && self.is_provisioning(),
            Machine::Lifecycle => self.is_terminating(),
        }
    }

    /// The first machine that has work to do.
    #[tactic(auto, unfolding(crate::specs::Applied::first_machine))]
    pub fn first_machine(&self) -> Option<Machine>
        ensures { result ≡ first_machine self.now }
    {
        if self.waits(Machine::Reserve) {
            Some(Machine::Reserve)
        } else if self.waits(Machine::Provision) {
            Some(Machine::Provision)
        } else if self.waits(Machine::Lifecycle) {
            Some(Machine::Lifecycle)
        } else {
            None
        }
    }

    #[tactic(auto, unfolding(crate::specs::Applied::is_provisioning))]
    fn is_provisioning(&self) -> bool
        ensures { result ≡ is_provisioning self.now.psm }
    {
        matches!(self.psm, Psm::Provisioning | Psm::Releasing)
    }

    #[tactic(auto, unfolding(crate::specs::Applied::is_terminating))]
    fn is_terminating(&self) -> bool
        ensures { result ≡ is_terminating self.now.lsm }
    {
        matches!(self.lsm, Lsm::Terminating)
    }

    /// The move that a provider's work on the provision machine makes: what is asked can be done.
    #[tactic(auto, unfolding(crate::specs::Applied::provided))]
    pub fn provided(&self) -> Option<ProvisionMove>
        ensures { result ≡ provided self.now.psm }
    {
        match self.psm {
            Psm::Provisioning | Psm::Releasing => Some(ProvisionMove::Done),
            _ => None,
        }
    }
}

fn is_due(deadline: Option<u64>, now: Second) -> bool
    ensures { result ≡ is_due deadline now }
{
    match deadline {
        None => false,
        Some(deadline) => deadline <= now.get(),
    }
}

fn say(replies: &mut Vec<Reply>, reply: Option<Reply>) -> Result<(), AllocError>
    ensures { OnOk result (replies.new.items ≡ replies.old.items ++ option_to_list reply) }
{
    match reply {
        None => Ok(()),
        Some(reply) => {
            replies.push(reply)?;
            Ok(())
        }
    }
}

/// The connection has ended.
fn gone(agent: &Name) -> Result<Exception, AllocError>
    ensures { IfOk result (λ e. e ≡ plain agent.now ErrorName.Gone) }
{
    Ok(Exception {
        nsa: agent.copy()?,
        cause: Cause::Plain(ErrorName::Gone),
    })
}

/// What answers an open request of the reservation machine when the connection ends.
#[tactic(auto, unfolding(crate::specs::Applied::reservation_closing))]
fn reservation_closing(state: Rsm, agent: &Name) -> Result<Option<ReservationMove>, AllocError>
    ensures { IfOk result (λ event.
        event ≡ reservation_closing state (plain agent.now ErrorName.Gone)) }
{
    match state {
        Rsm::ReserveChecking => Ok(Some(ReservationMove::Lack {
            exception: gone(agent)?,
        })),
        Rsm::ReserveCommitting => Ok(Some(ReservationMove::Spoiled {
            exception: gone(agent)?,
            mixed: false,
        })),
        Rsm::ReserveAborting => Ok(Some(ReservationMove::Freed)),
        _ => Ok(None),
    }
}

/// What answers an open request of the provision machine then.
#[tactic(auto, unfolding(crate::specs::Applied::provision_closing))]
fn provision_closing(state: Psm, agent: &Name) -> Result<Option<ProvisionMove>, AllocError>
    ensures { IfOk result (λ event.
        event ≡ provision_closing state (plain agent.now ErrorName.Gone)) }
{
    match state {
        Psm::Provisioning | Psm::Releasing => Ok(Some(ProvisionMove::Spoiled {
            exception: gone(agent)?,
        })),
        _ => Ok(None),
    }
}
