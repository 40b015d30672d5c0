//! How the clock of a connection goes on.

ghost use Rattle.std.specs.Prelude.{◌≡◌, ◌==◌, ◌++◌, true, OnOk};
ghost use Rattle.connection_record.specs.Later.{IsLater};
ghost use Rattle.connection_record.specs.Moves.{is_live};
ghost use Rattle.aggregator_agent.specs.Clock.{tell_one, tells_late, ends};
ghost use Rattle.aggregator_agent.specs.Bonds.{bond, clocked_bond, tell_those, IsDone};
ghost use Rattle.aggregator_agent.specs.Rounds.{told_so, IsToldBy};

use crate::agent::Agent;
use crate::connection::Connection;
use crate::said::Said;
use agent_state::{Due, push_replies};
use connection_record::{Record, Reply};
use nsi_base::{RecordNo, Second};
use nsi_primitive::{Body, DeliveryTimeout, Kind};
use std::alloc::{AllocError, Global};

/// Whose clock goes on to which second, and which of its requests are late then.
#[derive(Clone, Copy)]
pub struct Clocking<'a> {
    pub alloc: Global,
    pub agent: &'a Agent,
    pub late: &'a [Due],
    pub second: Second,
}

/// What a record says in the course of a tick, and the number of the next id.
#[derive(Drop)]
pub struct Telling {
    pub replies: Vec<Reply>,
    pub next: u64,
}

impl Connection {
    /// Ends the connection where its schedule is over, and tells its owner of its late requests. Its views stay. Where
    /// memory is wanting its own record may have changed, and can go back.
    #[tactic(auto, unfolding(crate::specs::Bonds::clocked_by), using(connection_record::proofs::Growing::later_trans))]
    pub fn clock(
        &mut self,
        said: &mut Said,
        clocking: &Clocking<'_>,
        number: RecordNo,
    ) -> Result<(), AllocError>
        ensures done { let e = clocking.now in
            let next = said.old.next in
            let one = clocked_bond e.agent.now e.second e.late.now number next (bond self.old) in
            IsDone said.old said.new (bond self.new) result one }
        ensures later { IsLater self.old.own self.new.own }
        ensures children { self.new.children ≡ self.old.children }
    {
        let mut telling = Telling {
            replies: Vec::new(clocking.alloc),
            next: said.next,
        };
        telling.end_if_over(&mut self.own, clocking.second)?;
        telling.tell_all(&mut self.own, clocking, number)?;
        let Telling { replies, next } = telling;
        said.next = next;
        push_replies(
            &mut said.out,
            &clocking.agent.name,
            &self.own.owner,
            replies,
        )
    }
}

impl Telling {
    /// A connection whose schedule is over ends.
    #[tactic(auto, unfolding(crate::specs::Clock::ends), using(connection_record::proofs::Growing::later_refl))]
    fn end_if_over(&mut self, own: &mut Record, now: Second) -> Result<(), AllocError>
        ensures rec { OnOk result (own.new ≡ (ends (is_live own.old.lsm) now own.old).rec) }
        ensures out { let said = (ends (is_live own.old.lsm) now own.old).out in
            OnOk result (self.new.replies.items ≡ self.old.replies.items ++ said) }
        ensures next { self.new.next ≡ self.old.next }
        ensures later { IsLater own.old own.new }
    {
        if own.is_live() {
            own.pass_schedule(&mut self.replies, now)
        } else {
            Ok(())
        }
    }

    /// Late requests of the record are told, in the order in which they were caused.
    #[tactic(auto, unfolding(crate::specs::Bonds::tell_those))]
    fn tell_all(
        &mut self,
        own: &mut Record,
        clocking: &Clocking<'_>,
        number: RecordNo,
    ) -> Result<(), AllocError>
        ensures told { let e = clocking.now in
            let next = self.old.next in
            let all = tell_those e.late.now e.agent.now e.second number own.old next in
            IsToldBy self.old self.new own.new result all }
        ensures later { IsLater own.old own.new }
    {
        for due in clocking.late {
            self.tell_if(own, clocking, number, due)?;
        }
        Ok(())
    }

    #[tactic(auto, unfolding(crate::specs::Clock::tell_one), using(connection_record::proofs::Growing::later_refl))]
    fn tell_if(
        &mut self,
        own: &mut Record,
        clocking: &Clocking<'_>,
        number: RecordNo,
        due: &Due,
    ) -> Result<(), AllocError>
        ensures told { let e = clocking.now in
            let is_of = due.now.number == number in
            let one = tell_one is_of e.agent.now e.second self.old.next own.old due.now told_so in
            IsToldBy self.old self.new own.new result one }
        ensures later { IsLater own.old own.new }
    {
        if due.number == number {
            self.tell(own, clocking, due)
        } else {
            Ok(())
        }
    }

    /// A late request is told under the next id.
    #[tactic(auto, unfolding(crate::specs::Clock::tell_one, crate::specs::Clock::tells_late))]
    fn tell(
        &mut self,
        own: &mut Record,
        clocking: &Clocking<'_>,
        due: &Due,
    ) -> Result<(), AllocError>
        ensures told { let e = clocking.now in
            let one = tell_one true e.agent.now e.second self.old.next own.old due.now told_so in
            IsToldBy self.old self.new own.new result one }
        ensures later { IsLater own.old own.new }
    {
        let correlation = clocking.agent.id(self.next)?;
        let time = clocking.second;
        let notification = own.add_notice(Kind::MessageDeliveryTimeout, correlation, time)?;
        self.replies.push(Reply {
            correlation,
            body: Body::MessageDeliveryTimeout(DeliveryTimeout {
                connection: own.id,
                delivery: due.correlation,
                notification,
                time,
            }),
        })?;
        self.next += 1;
        Ok(())
    }
}
