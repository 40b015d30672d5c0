//! How queries are answered.

ghost use Rattle.std.specs.Prelude.{◌≡◌, ◌∷◌, [], IfOk};
ghost use Rattle.nsi_query.specs.Answers.{answer_to};
ghost use Rattle.agent_state.specs.Entries.{query_reply};
ghost use Rattle.provider_agent.specs.State.{says};
ghost use Rattle.provider_agent.specs.Core.{IsConsistent, IsReady};
ghost use Rattle.provider_agent.specs.Step.{IsStep};

use crate::find::place_of;
use crate::provider_core::Core;
use agent_state::reply_of;
use nsi_primitive::{Body, Message};
use nsi_query::{answer_about, summary_answer, summary_at};
use std::alloc::{AllocError, Global};

impl Core {
    /// Answers a query. Its records stay as they are.
    pub fn reply(&mut self, alloc: Global, message: &Message) -> Result<Vec<Message>, AllocError>
        requires { IsReady self.old }
        ensures step { let m = message.now in
            IsStep self.old self.new result (λ setting s.
            says s (query_reply setting.name m (answer_to setting.name s.now s.records m) ∷ [])) }
        ensures consistent { IsConsistent self.new }
    {
        let answer = self.answer_to(alloc, message)?;
        let out = reply_of(alloc, &self.agent.name, message, answer)?;
        self.retry.store(alloc, &out)?;
        Ok(out)
    }

    /// What there is to answer to a query: nothing where its requester has no such connection.
    fn answer_to(&self, alloc: Global, message: &Message) -> Result<Option<Body>, AllocError>
        requires { IsReady self.now }
        ensures { let d = self.entry.now in
            let records = d.records.items in
            IfOk result (λ answer. answer ≡ answer_to d.agent.name d.now records message.now) }
    {
        let owner = &message.header.requester;
        let Some(id) = message.body.connection() else {
            let found = summary_at(alloc, &self.records, self.now, owner)?;
            return Ok(Some(summary_answer(found)));
        };
        let Some(place) = place_of(self.agent.number, self.next, &self.records, id, owner) else {
            return Ok(None);
        };
        let own = &self.records[place];
        answer_about(
            alloc,
            &self.agent.name,
            own,
            &own.status(self.now),
            &message.body,
        )
    }
}
