//! How a connection hears a message of a child.

ghost use Rattle.std.specs.Prelude.{◌≡◌, ◌<◌, ◌||◌, length, IfOk};
ghost use Rattle.std.specs.List.{list_any};
ghost use Rattle.aggregator_agent.specs.Turns.{hear_one, hear_each, loses, breaks, is_timed_out, is_ended};
ghost use Rattle.aggregator_agent.specs.Connections.{view_at, IsAsked, IsAskedAt, AreAsked};

use crate::agent::Agent;
use crate::asking::ask_if;
use crate::connection::Turning;
use child_connection::{ChildConnection, Taken};
use nsi_primitive::{Kind, Message};
use std::alloc::AllocError;

/// What was heard of the children: whether one has lost what it held, and whether one has ended before its time.
#[derive(Clone, Copy)]
pub struct Heard {
    pub is_lost: bool,
    pub is_broken: bool,
}

impl Heard {
    #[tactic(auto, unfolding(crate::specs::Turns::is_timed_out, crate::specs::Turns::is_ended))]
    fn of(taken: Taken) -> Heard
        ensures lost { result.is_lost ≡ is_timed_out taken }
        ensures broken { result.is_broken ≡ is_ended taken }
    {
        Heard {
            is_lost: matches!(taken, Taken::TimedOut),
            is_broken: matches!(taken, Taken::Ended),
        }
    }

    /// What was heard of one more is noted.
    fn note(&mut self, one: Heard)
        ensures lost { self.new.is_lost ≡ (self.old.is_lost || one.is_lost) }
        ensures broken { self.new.is_broken ≡ (self.old.is_broken || one.is_broken) }
    {
        self.is_lost = self.is_lost || one.is_lost;
        self.is_broken = self.is_broken || one.is_broken;
    }
}

/// A child hears a message, and is asked to terminate where its id is learnt while the connection is ending.
fn hear(
    child: &mut ChildConnection,
    turning: &mut Turning,
    agent: &Agent,
    message: &Message,
    is_ending: bool,
) -> Result<Heard, AllocError>
    ensures asked { let one = hear_one is_ending message.now agent.now turning.old.next child.old in
        IsAsked turning.old turning.new child.old child.new result one }
    ensures lost { IfOk result (λ heard. heard.is_lost ≡ loses message.now child.old) }
    ensures broken { IfOk result (λ heard. heard.is_broken ≡ breaks message.now child.old) }
{
    let is_due = is_ending && child.connection().is_none();
    let taken = child.take(message);
    let correlation = agent.id(turning.next)?;
    let request = ask_if(is_due, child, &agent.name, Kind::Terminate, correlation)?;
    turning.ask(request)?;
    Ok(Heard::of(taken))
}

fn hear_at(
    children: &mut Vec<ChildConnection>,
    place: usize,
    turning: &mut Turning,
    agent: &Agent,
    message: &Message,
    is_ending: bool,
) -> Result<Heard, AllocError>
    requires { place < length children.old.items }
    ensures asked { let child = view_at place children.old.items in
        let one = hear_one is_ending message.now agent.now turning.old.next child in
        IsAskedAt turning.old turning.new place children.old.items children.new.items result one }
    ensures lost { let child = view_at place children.old.items in
        IfOk result (λ heard. heard.is_lost ≡ loses message.now child) }
    ensures broken { let child = view_at place children.old.items in
        IfOk result (λ heard. heard.is_broken ≡ breaks message.now child) }
{
    let child = &mut children[place];
    hear(child, turning, agent, message, is_ending)
}

/// The children hear a message, in the order of the segments. Where memory is wanting, some may have heard it.
pub fn hear_all(
    children: &mut Vec<ChildConnection>,
    turning: &mut Turning,
    agent: &Agent,
    message: &Message,
    is_ending: bool,
) -> Result<Heard, AllocError>
    ensures asked { let next = turning.old.next in
        let all = hear_each is_ending message.now agent.now next children.old.items in
        AreAsked turning.old turning.new children.new.items result all }
    ensures lost { let is_lost = list_any (loses message.now) children.old.items in
        IfOk result (λ heard. heard.is_lost ≡ is_lost) }
    ensures broken { let is_broken = list_any (breaks message.now) children.old.items in
        IfOk result (λ heard. heard.is_broken ≡ is_broken) }
{
    let mut heard = Heard {
        is_lost: false,
        is_broken: false,
    };
    for place in 0..children.len() {
        let one = hear_at(children, place, turning, agent, message, is_ending)?;
        heard.note(one);
    }
    Ok(heard)
}
