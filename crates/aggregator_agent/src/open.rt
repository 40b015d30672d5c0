//! The queries that wait for children's answers.

ghost use Rattle.std.specs.Prelude.{◌≡◌, ◌<◌, ◌++◌, ◌∷◌, [], length, option_to_list, true, IfOk, IfSome};
ghost use Rattle.agent_state.specs.State.{record_at, sends};
ghost use Rattle.aggregator_agent.specs.Below.{nested_reply};
ghost use Rattle.aggregator_agent.specs.Clock.{due_for};
ghost use Rattle.aggregator_agent.specs.Bonds.{records_of};
ghost use Rattle.aggregator_agent.specs.Open.{IsToldBy, said_then};
ghost use Rattle.aggregator_agent.specs.Step.{IsStep};
ghost use Rattle.aggregator_agent.specs.Steps.{asks_below, place_named, queries};

use crate::aggregator_core::Core;
use crate::find::number_of;
use crate::open_queries::Told;
use crate::parts::{nested_reply, part_of, waits};
use crate::said::{Moment, Said, dues_for};
use crate::seeking::{Seeking, seek};
use agent_state::OpenQuery;
use nsi_base::List;
use nsi_primitive::{ErrorName, Message};
use std::alloc::{AllocError, Global};

impl Core {
    /// Answers a queryRecursive, or asks the children of its connection and waits for them.
    pub fn ask_below(
        &mut self,
        alloc: Global,
        message: &Message,
    ) -> Result<Vec<Message>, AllocError>
        ensures step { IsStep self.old self.new result
            (λ setting s. queries true setting s message.now) }
        ensures taken { self.new.taken ≡ self.old.taken }
    {
        if !message.header.provider.is(&self.agent.name) {
            return self.refuse(alloc, message, ErrorName::WrongProvider);
        }
        let found = self.place_named(alloc, message)?;
        match found {
            None => self.refuse(alloc, message, ErrorName::Nonexistent),
            Some(place) => self.open_query(alloc, place, message),
        }
    }

    /// The place of the connection that a request names, where it is its sender's.
    fn place_named(&self, alloc: Global, message: &Message) -> Result<Option<usize>, AllocError>
        ensures place { let records = records_of self.entry.now.connections in
            IfOk result (λ place. place ≡ place_named message.now records) }
        ensures within { IfOk result (λ place. IfSome place
            (λ n. n < length self.entry.now.connections)) }
    {
        match message.body.connection() {
            None => Ok(None),
            Some(id) => self
                .connections
                .place_of(alloc, id, &message.header.requester),
        }
    }

    fn open_query(
        &mut self,
        alloc: Global,
        place: usize,
        message: &Message,
    ) -> Result<Vec<Message>, AllocError>
        requires { place < length self.old.connections }
        ensures step { IsStep self.old self.new result
            (λ setting s. asks_below setting s place message.now) }
        ensures taken { self.new.taken ≡ self.old.taken }
    {
        let all = self.connections.items();
        let children = &all[place].children;
        let sought = seek(alloc, &self.agent, children, self.next)?;
        let Seeking { parts, asked, next } = sought;
        let query = OpenQuery {
            header: message.header.copy()?,
            place,
            parts: List::from_items(parts),
        };
        if waits(query.parts.items()) {
            self.keep_query(alloc, query, asked, next)
        } else {
            self.answer_query(alloc, &query)
        }
    }

    /// The children were asked, and the query waits for their answers.
    fn keep_query(
        &mut self,
        alloc: Global,
        query: OpenQuery,
        asked: Vec<Message>,
        next: u64,
    ) -> Result<Vec<Message>, AllocError>
        ensures step { IsStep self.old self.new result (λ setting s. sends (record s {
          base = record s.base { next = next };
          dues = s.dues ++ due_for query.place s.base.now asked.items;
          queries = s.queries ++ query ∷ [];
        }) asked.items) }
        ensures taken { self.new.taken ≡ self.old.taken }
    {
        let moment = Moment {
            number: number_of(query.place)?,
            second: self.now,
        };
        let dues = dues_for(alloc, &moment, &asked)?;
        let said = Said {
            out: asked,
            dues,
            next,
        };
        self.queries.push(query)?;
        match self.outbox.store(alloc, &said) {
            Ok(()) => {
                self.next = next;
                Ok(said.out)
            }
            Err(error) => {
                self.queries.take_back();
                Err(error)
            }
        }
    }

    /// No child was asked, or all have answered.
    fn answer_query(&mut self, alloc: Global, query: &OpenQuery) -> Result<Vec<Message>, AllocError>
        requires { query.now.place < length self.old.connections }
        ensures step { let q = query.now in
            IsStep self.old self.new result (λ setting s.
            sends s (nested_reply setting.agent.name (record_at q.place s.base.records) q ∷ [])) }
        ensures taken { self.new.taken ≡ self.old.taken }
    {
        let answer = self.reply_below(alloc, query)?;
        let mut out = Vec::new(alloc);
        out.push(answer)?;
        self.outbox.retry.store(alloc, &out)?;
        Ok(out)
    }

    /// The answer to a query that waits for no child.
    fn reply_below(&self, alloc: Global, query: &OpenQuery) -> Result<Message, AllocError>
        requires { query.now.place < length self.now.connections }
        ensures { let d = self.entry.now in
            let own = record_at query.now.place (records_of d.connections) in
            IfOk result (λ m. m ≡ nested_reply d.agent.name own query.now) }
    {
        let all = self.connections.items();
        let connection = &all[query.place];
        nested_reply(alloc, &self.agent.name, &connection.own, query)
    }

    /// What a message tells an open query, if any.
    pub fn told_below(&self, alloc: Global, message: &Message) -> Result<Option<Told>, AllocError>
        ensures { let d = self.entry.now in
            IfOk result (IsToldBy (records_of d.connections) message.now d.queries) }
    {
        let answer = part_of(&message.body)?;
        let Some(part) = answer else {
            return Ok(None);
        };
        let all = self.connections.items();
        self.queries
            .told(alloc, all, message.header.correlation, part)
    }

    /// What is said once an open query was told its part.
    pub fn answer_below(
        &self,
        alloc: Global,
        told: &Option<Told>,
    ) -> Result<Option<Message>, AllocError>
        requires { IfSome told.now (λ t. t.query.place < length self.now.connections) }
        ensures { let d = self.entry.now in
            let said = said_then d.agent.name (records_of d.connections) told.now in
            IfOk result (λ answer. option_to_list answer ≡ said) }
    {
        match told {
            None => Ok(None),
            Some(told) => {
                if told.waits {
                    return Ok(None);
                }
                Ok(Some(self.reply_below(alloc, &told.query)?))
            }
        }
    }
}
