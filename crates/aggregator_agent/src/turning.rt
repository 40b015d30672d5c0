//! The turn of a connection.

ghost use Rattle.std.specs.Prelude.{◌≡◌, ◌<◌, ◌++◌, option_to_list, IfOk, OnOk, OnErr};
ghost use Rattle.connection_record.specs.Later.{IsLater};
ghost use Rattle.connection_record.specs.Lives.{lives_if};
ghost use Rattle.std.specs.List.{list_any};
ghost use Rattle.aggregator_agent.specs.Asking.{next_after, replies_by};
ghost use Rattle.aggregator_agent.specs.Turns.{loses, breaks, tell_joined, hold_ends, force_ends, heard_by, pass_on, takes, turn_by_request, turn_by_answer, requested_turn, answered_turn};
ghost use Rattle.aggregator_agent.specs.Settling.{settle};
ghost use Rattle.aggregator_agent.specs.Connections.{turn_of};
ghost use Rattle.aggregator_agent.specs.Bonds.{bond, requested_bond, answered, IsDone};

use crate::agent::Agent;
use crate::asking::pass_all;
use crate::connection::{Connection, Turning};
use crate::entering::Entering;
use crate::hearing::{Heard, hear_all};
use crate::moving::{apply_if, reserve_if};
use crate::passing::{force_by, hold_end_by};
use crate::planes::{joined_of, tell_plane};
use crate::said::{Moment, Said};
use crate::settling::settle;
use connection_record::{LifecycleMove, Record, Reply};
use dataplane_state::announces;
use nsi_base::{RecordNo, Second};
use nsi_primitive::{Lsm, Message, Plane};
use std::alloc::{AllocError, Global};

impl Turning {
    /// Gives notice under an id that is drawn for it.
    #[tactic(auto, unfolding(crate::specs::Asking::next_after))]
    fn give_notice(&mut self, notice: Option<Reply>) -> Result<(), AllocError>
        requires { self.old.next < 4611686018427387904 }
        ensures notices { let notices = self.old.notices.items ++ option_to_list notice in
            OnOk result (self.new.notices.items ≡ notices) }
        ensures next { let next = next_after (option_to_list notice) self.old.next in
            OnOk result (self.new.next ≡ next) }
        ensures replies { self.new.replies ≡ self.old.replies }
        ensures asked { self.new.asked ≡ self.old.asked }
    {
        let Some(notice) = notice else {
            return Ok(());
        };
        self.notices.push(notice)?;
        self.next += 1;
        Ok(())
    }
}

#[tactic(auto, using(connection_record::proofs::Growing::lives_later, connection_record::proofs::Growing::later_refl))]
fn live_if(
    own: &mut Record,
    event: Option<LifecycleMove>,
    now: Second,
) -> Result<Option<Reply>, AllocError>
    ensures rec { OnOk result (own.new ≡ (lives_if event now own.old).rec) }
    ensures out { let said = (lives_if event now own.old).out in
        IfOk result (λ reply. option_to_list reply ≡ said) }
    ensures later { IsLater own.old own.new }
{
    match event {
        None => Ok(None),
        Some(event) => {
            let reply = own.apply_lifecycle(event, now)?;
            Ok(reply)
        }
    }
}

impl Connection {
    /// Takes a request of its owner: its own record takes it, the children are asked, what is due at once is done, and the
    /// change of the data plane is told. Where memory is wanting it may have changed, and can go back.
    #[tactic(auto, unfolding(crate::specs::Turns::request_turn, crate::specs::Turns::spoken))]
    pub fn take_request(
        &mut self,
        said: &mut Said,
        entering: &Entering<'_>,
        number: RecordNo,
    ) -> Result<(), AllocError>
        ensures done { let e = entering.now in
            let m = e.message.now in
            let next = said.old.next in
            let one = requested_bond e.agent.now e.second m number next (bond self.old) in
            IsDone said.old said.new (bond self.new) result one }
        ensures later { IsLater self.old.own self.new.own }
    {
        let Entering {
            alloc,
            agent,
            message,
            second,
        } = *entering;
        let mut turning = Turning::new(alloc, said.next);
        self.try_request(alloc, &mut turning, agent, message, second)?;
        said.add(agent, &self.own.owner, Moment { number, second }, turning)
    }

    /// Takes a message of a child: the views hear it, the own hold or life ends with a child's, what is due then is done,
    /// and the change of the data plane is told. Where memory is wanting it may have changed, and can go back.
    #[tactic(auto, unfolding(crate::specs::Turns::answer_turn, crate::specs::Turns::spoken))]
    pub fn take_answer(
        &mut self,
        said: &mut Said,
        entering: &Entering<'_>,
        number: RecordNo,
    ) -> Result<(), AllocError>
        ensures done { let e = entering.now in
            let next = said.old.next in
            let one = answered e.agent.now e.second e.message.now number next (bond self.old) in
            IsDone said.old said.new (bond self.new) result one }
        ensures later { IsLater self.old.own self.new.own }
    {
        let Entering {
            alloc,
            agent,
            message,
            second,
        } = *entering;
        let mut turning = Turning::new(alloc, said.next);
        self.try_answer(alloc, &mut turning, agent, message, second)?;
        said.add(agent, &self.own.owner, Moment { number, second }, turning)
    }

    #[tactic(auto, unfolding(crate::specs::Turns::turn_by_request), using(connection_record::proofs::Growing::later_trans))]
    fn try_request(
        &mut self,
        alloc: Global,
        turning: &mut Turning,
        agent: &Agent,
        message: &Message,
        now: Second,
    ) -> Result<(), AllocError>
        ensures turned { let t = turn_of self.old turning.old in
            let turned = requested_turn agent.now now message.now t in
            OnOk result (turn_of self.new turning.new ≡ turned) }
        ensures later { IsLater self.old.own self.new.own }
    {
        let before = joined_of(alloc, &self.children)?;
        self.take(turning, message, now)?;
        self.pass_on(turning, agent, message)?;
        self.settle(turning, agent, now)?;
        self.tell_joined(alloc, turning, agent, &before, now)
    }

    #[tactic(auto, unfolding(crate::specs::Turns::turn_by_answer), using(connection_record::proofs::Growing::later_trans))]
    fn try_answer(
        &mut self,
        alloc: Global,
        turning: &mut Turning,
        agent: &Agent,
        message: &Message,
        now: Second,
    ) -> Result<(), AllocError>
        ensures turned { let t = turn_of self.old turning.old in
            OnOk result (turn_of self.new turning.new ≡ answered_turn agent.now now message.now t) }
        ensures later { IsLater self.old.own self.new.own }
    {
        let before = joined_of(alloc, &self.children)?;
        let heard = self.hear(turning, agent, message)?;
        self.end_hold(turning, heard.is_lost, message, now)?;
        self.end_by_force(turning, agent, heard.is_broken, message, now)?;
        self.settle(turning, agent, now)?;
        self.tell_joined(alloc, turning, agent, &before, now)
    }

    /// The own record takes a request.
    #[tactic(auto, unfolding(crate::specs::Turns::takes))]
    fn take(
        &mut self,
        turning: &mut Turning,
        message: &Message,
        now: Second,
    ) -> Result<(), AllocError>
        ensures turned { let x = takes message.now now self.old.own in
            let turned = replies_by (turn_of self.old turning.old) x in
            OnOk result (turn_of self.new turning.new ≡ turned) }
        ensures later { IsLater self.old.own self.new.own }
    {
        let event = self
            .own
            .requested(&message.body, message.header.correlation, now);
        apply_if(&mut self.own, &mut turning.replies, event, now)
    }

    /// The children are asked.
    #[tactic(auto, unfolding(crate::specs::Turns::pass_on))]
    fn pass_on(
        &mut self,
        turning: &mut Turning,
        agent: &Agent,
        message: &Message,
    ) -> Result<(), AllocError>
        ensures turned { let t = turn_of self.old turning.old in
            OnOk result (turn_of self.new turning.new ≡ pass_on message.now agent.now t) }
        ensures own { self.new.own ≡ self.old.own }
    {
        pass_all(&mut self.children, turning, agent, &self.own, message)
    }

    /// What is due as the children stand is done.
    #[tactic(auto, unfolding(crate::specs::Settling::settle))]
    fn settle(
        &mut self,
        turning: &mut Turning,
        agent: &Agent,
        now: Second,
    ) -> Result<(), AllocError>
        ensures turned { let t = turn_of self.old turning.old in
            OnOk result (turn_of self.new turning.new ≡ settle agent.now now t) }
        ensures later { IsLater self.old.own self.new.own }
    {
        settle(
            &mut self.own,
            &mut turning.replies,
            &self.children,
            agent,
            now,
        )
    }

    /// The children hear a message.
    #[tactic(auto, unfolding(crate::specs::Turns::heard_by, connection_record::specs::Applied::is_terminating))]
    fn hear(
        &mut self,
        turning: &mut Turning,
        agent: &Agent,
        message: &Message,
    ) -> Result<Heard, AllocError>
        ensures turned { let t = turn_of self.old turning.old in
            OnOk result (turn_of self.new turning.new ≡ heard_by message.now agent.now t) }
        ensures own { self.new.own ≡ self.old.own }
        ensures lost { let is_lost = list_any (loses message.now) self.old.children.items in
            IfOk result (λ heard. heard.is_lost ≡ is_lost) }
        ensures broken { let is_broken = list_any (breaks message.now) self.old.children.items in
            IfOk result (λ heard. heard.is_broken ≡ is_broken) }
    {
        let is_ending = matches!(self.own.lsm, Lsm::Terminating);
        hear_all(&mut self.children, turning, agent, message, is_ending)
    }

    /// The own hold ends with a child's.
    #[tactic(auto, unfolding(crate::specs::Turns::hold_ends))]
    fn end_hold(
        &mut self,
        turning: &mut Turning,
        is_lost: bool,
        message: &Message,
        now: Second,
    ) -> Result<(), AllocError>
        ensures turned { let t = turn_of self.old turning.old in
            OnOk result (turn_of self.new turning.new ≡ hold_ends is_lost message.now now t) }
        ensures later { IsLater self.old.own self.new.own }
    {
        let event = hold_end_by(is_lost && self.own.is_live(), &message.body)?;
        reserve_if(&mut self.own, &mut turning.notices, event, now)
    }

    /// The own life ends with a child's.
    #[tactic(auto, unfolding(crate::specs::Turns::force_ends))]
    fn end_by_force(
        &mut self,
        turning: &mut Turning,
        agent: &Agent,
        is_broken: bool,
        message: &Message,
        now: Second,
    ) -> Result<(), AllocError>
        ensures turned { let t = turn_of self.old turning.old in
            let turned = force_ends is_broken message.now agent.now now t in
            OnOk result (turn_of self.new turning.new ≡ turned) }
        ensures later { IsLater self.old.own self.new.own }
    {
        let correlation = agent.id(turning.next)?;
        let event = force_by(is_broken, correlation, &message.body)?;
        let notice = live_if(&mut self.own, event, now)?;
        turning.give_notice(notice)
    }

    /// The change of the data plane is told.
    #[tactic(auto, unfolding(crate::specs::Turns::tell_joined))]
    fn tell_joined(
        &mut self,
        alloc: Global,
        turning: &mut Turning,
        agent: &Agent,
        before: &Plane,
        now: Second,
    ) -> Result<(), AllocError>
        ensures turned { let t = turn_of self.old turning.old in
            OnOk result (turn_of self.new turning.new ≡ tell_joined before.now agent.now now t) }
        ensures later { IsLater self.old.own self.new.own }
    {
        let after = joined_of(alloc, &self.children)?;
        let correlation = agent.id(turning.next)?;
        let is_told = announces(before, &after);
        let notice = tell_plane(&mut self.own, is_told, &after, correlation, now)?;
        turning.give_notice(notice)
    }
}
