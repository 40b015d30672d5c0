//! What an aggregator has said in the course of an entry.

ghost use Rattle.std.specs.Prelude.{◌≡◌, ◌++◌, ◌∷◌, [], option_to_list, IfOk, OnOk};
ghost use Rattle.aggregator_agent.specs.Clock.{due_for};
ghost use Rattle.aggregator_agent.specs.Connections.{said_by};

use crate::agent::Agent;
use crate::connection::Turning;
use agent_state::Due;
use nsi_base::{Name, RecordNo, Second};
use nsi_primitive::Message;
use std::alloc::{AllocError, Global};

/// Its messages, its requests to children among them, and the number of the next id.
#[derive(Drop)]
pub struct Said {
    pub out: Vec<Message>,
    pub dues: Vec<Due>,
    pub next: u64,
}

/// Of which record something is said, and when.
#[derive(Clone, Copy)]
pub struct Moment {
    pub number: RecordNo,
    pub second: Second,
}

impl Said {
    /// Nothing is said yet.
    pub fn new(alloc: Global, next: u64) -> Said
        ensures out { result.out.items ≡ [] }
        ensures dues { result.dues.items ≡ [] }
        ensures next { result.next ≡ next }
    {
        Said {
            out: Vec::new(alloc),
            dues: Vec::new(alloc),
            next,
        }
    }

    /// An answer is said behind the rest, where there is one.
    pub fn answer(&mut self, answer: Option<Message>) -> Result<(), AllocError>
        ensures out { let more = option_to_list answer in
            OnOk result (self.new.out.items ≡ self.old.out.items ++ more) }
        ensures dues { self.new.dues ≡ self.old.dues }
        ensures next { self.new.next ≡ self.old.next }
    {
        if let Some(answer) = answer {
            self.out.push(answer)?;
        }
        Ok(())
    }

    /// What a turn says is said behind the rest.
    pub fn add(
        &mut self,
        agent: &Agent,
        owner: &Name,
        moment: Moment,
        turning: Turning,
    ) -> Result<(), AllocError>
        ensures out { let said = said_by agent.now owner.now turning in
            OnOk result (self.new.out.items ≡ self.old.out.items ++ said) }
        ensures dues { let due = due_for moment.number moment.second turning.asked.items in
            OnOk result (self.new.dues.items ≡ self.old.dues.items ++ due) }
        ensures next { OnOk result (self.new.next ≡ turning.next) }
    {
        push_dues(&mut self.dues, &moment, &turning.asked)?;
        self.next = turning.next;
        turning.speak(&mut self.out, agent, owner)
    }
}

/// The requests to children that were caused at a moment.
pub fn dues_for(
    alloc: Global,
    moment: &Moment,
    requests: &[Message],
) -> Result<Vec<Due>, AllocError>
    ensures { let due = due_for moment.now.number moment.now.second requests.now in
        IfOk result (λ dues. dues.items ≡ due) }
{
    let mut dues = Vec::new(alloc);
    push_dues(&mut dues, moment, requests)?;
    Ok(dues)
}

/// Requests to children were caused at a moment.
#[tactic(auto, unfolding(crate::specs::Clock::due_for))]
fn push_dues(dues: &mut Vec<Due>, moment: &Moment, requests: &[Message]) -> Result<(), AllocError>
    ensures { let due = due_for moment.now.number moment.now.second requests.now in
        OnOk result (dues.new.items ≡ dues.old.items ++ due) }
{
    for request in requests {
        push_due(dues, moment, request)?;
    }
    Ok(())
}

#[tactic(auto, unfolding(crate::specs::Clock::due_for))]
fn push_due(dues: &mut Vec<Due>, moment: &Moment, request: &Message) -> Result<(), AllocError>
    ensures { let due = due_for moment.now.number moment.now.second (request.now ∷ []) in
        OnOk result (dues.new.items ≡ dues.old.items ++ due) }
{
    dues.push(Due {
        number: moment.number,
        correlation: request.header.correlation,
        second: moment.second,
        is_told: false,
    })?;
    Ok(())
}
