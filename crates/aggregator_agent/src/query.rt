//! How queries are answered.

ghost use Rattle.std.specs.Prelude.{◌≡◌, false, map, IfOk};
ghost use Rattle.nsi_query.specs.Summary.{summary};
ghost use Rattle.agent_state.specs.Entries.{is_recursive};
ghost use Rattle.aggregator_agent.specs.Bonds.{bonds, shown_of};
ghost use Rattle.aggregator_agent.specs.Core.{state_at};
ghost use Rattle.aggregator_agent.specs.Queries.{answer_to};
ghost use Rattle.aggregator_agent.specs.Step.{IsStep};
ghost use Rattle.aggregator_agent.specs.Steps.{queries};

use crate::aggregator_core::Core;
use crate::connection::Connection;
use crate::planes::joined_of;
use agent_state::reply_of;
use nsi_base::Name;
use nsi_primitive::{Body, Message, SummaryRow};
use nsi_query::{Rows, add_own, answer_about, summary_answer};
use std::alloc::{AllocError, Global};

impl Core {
    /// Answers a query, or asks the children. Its connections stay as they are.
    pub fn query(&mut self, alloc: Global, message: &Message) -> Result<Vec<Message>, AllocError>
        ensures step { let m = message.now in
            IsStep self.old self.new result (λ setting s. queries (is_recursive m.body) setting s m) }
        ensures taken { self.new.taken ≡ self.old.taken }
    {
        match &message.body {
            Body::QueryRecursive { .. } => self.ask_below(alloc, message),
            _ => self.reply(alloc, message),
        }
    }

    /// Answers a query at once.
    fn reply(&mut self, alloc: Global, message: &Message) -> Result<Vec<Message>, AllocError>
        ensures step { IsStep self.old self.new result
            (λ setting s. queries false setting s message.now) }
        ensures taken { self.new.taken ≡ self.old.taken }
    {
        let answer = self.answer_to(alloc, message)?;
        let out = reply_of(alloc, &self.agent.name, message, answer)?;
        self.outbox.retry.store(alloc, &out)?;
        Ok(out)
    }

    /// What there is to answer to a query: nothing where its requester has no such connection.
    fn answer_to(&self, alloc: Global, message: &Message) -> Result<Option<Body>, AllocError>
        ensures { let d = self.entry.now in
            IfOk result (λ answer. answer ≡ answer_to d.agent.name (state_at d) message.now) }
    {
        let owner = &message.header.requester;
        let all = self.connections.items();
        let Some(id) = message.body.connection() else {
            let found = summary_over(alloc, all, owner)?;
            return Ok(Some(summary_answer(found)));
        };
        let found = self.connections.place_of(alloc, id, owner)?;
        let Some(place) = found else {
            return Ok(None);
        };
        let connection = &all[place];
        let plane = joined_of(alloc, &connection.children)?;
        let name = &self.agent.name;
        answer_about(alloc, name, &connection.own, &plane, &message.body)
    }
}

/// The rows of a requester's connections.
fn summary_over(
    alloc: Global,
    all: &[Connection],
    owner: &Name,
) -> Result<Rows<SummaryRow>, AllocError>
    ensures { IfOk result
        (λ found. found ≡ summary owner.now (map shown_of (bonds all.now))) }
{
    let mut found = Rows::new(alloc);
    for connection in all {
        let plane = joined_of(alloc, &connection.children)?;
        add_own(&mut found, &connection.own, &plane, owner)?;
    }
    Ok(found)
}
