//! How queries are asked.

ghost use Rattle.std.specs.Prelude.{◌≡◌, None};
ghost use Rattle.requester_agent.specs.Queries.{range_of, query_about, query_for};
ghost use Rattle.requester_agent.specs.Steps.{find_view, sends_query, asked};
ghost use Rattle.requester_agent.specs.Taking.{IsStep, IsAskable};

use crate::asking::keep;
use crate::requester_core::Core;
use nsi_base::Name;
use nsi_primitive::{AskAnswer, Body, Header, Id, Message, NumberRange, NumbersAsked, What, id_of};
use std::alloc::{AllocError, Global};

impl Core {
    /// Sends a query to the agent that it asks, or answers that no id is known.
    #[tactic(auto, unfolding(crate::specs::Steps::sends_query))]
    fn send_query(
        &mut self,
        alloc: Global,
        query: Option<Body>,
    ) -> Result<(Option<AskAnswer>, Vec<Message>), AllocError>
        requires good { IsAskable self.old }
        ensures step { IsStep self.old self.new result (λ set s. sends_query query set s) }
        ensures taken { self.new.taken ≡ self.old.taken }
    {
        let Some(body) = query else {
            return Ok((Some(AskAnswer::NoId), Vec::new(alloc)));
        };
        let header = Header {
            correlation: id_of(self.number, self.next),
            requester: self.name.copy()?,
            provider: self.provider.copy()?,
        };
        let out = keep(alloc, &mut self.retry, Message { header, body })?;
        self.next += 1;
        Ok((Some(AskAnswer::Sent), out))
    }

    /// Asks without a label: only a summary is of all connections.
    #[tactic(auto, unfolding(crate::specs::Steps::asked, crate::specs::Steps::sends_query))]
    pub fn ask_of_all(
        &mut self,
        alloc: Global,
        what: &What,
    ) -> Result<(Option<AskAnswer>, Vec<Message>), AllocError>
        requires good { IsAskable self.old }
        ensures step { IsStep self.old self.new result (λ set s. asked None what.now set s) }
        ensures taken { self.new.taken ≡ self.old.taken }
    {
        match what {
            What::Summary => {
                self.send_query(alloc, Some(Body::QuerySummary { connection: None }))
            }
            _ => self.send_query(alloc, None),
        }
    }

    /// Asks about the connection of a label.
    pub fn ask_query(
        &mut self,
        alloc: Global,
        label: &Name,
        what: &What,
    ) -> Result<(Option<AskAnswer>, Vec<Message>), AllocError>
        requires good { IsAskable self.old }
        ensures step { IsStep self.old self.new result
            (λ set s. sends_query (query_for what.now (find_view label.now s.views)) set s) }
        ensures taken { self.new.taken ≡ self.old.taken }
    {
        let query = self.query_for(label, what);
        self.send_query(alloc, query)
    }

    /// The query about the connection of a label, where its id is known.
    #[tactic(auto, unfolding(crate::specs::Steps::find_view))]
    fn query_for(&self, label: &Name, what: &What) -> Option<Body>
        ensures { result ≡ query_for what.now (find_view label.now self.entry.now.views) }
    {
        let place = self.views.find(label)?;
        let id = self.views.views()[place].child.connection()?;
        query_about(what, id)
    }
}

/// The query about a connection, where what is asked is one.
#[tactic(auto, unfolding(crate::specs::Queries::query_about))]
fn query_about(what: &What, connection: Id) -> Option<Body>
    ensures { result ≡ query_about what.now connection }
{
    match what {
        What::Summary => Some(Body::QuerySummary {
            connection: Some(connection),
        }),
        What::Notifications(numbers) => {
            Some(Body::QueryNotification(range_of(connection, *numbers)))
        }
        What::Results(numbers) => Some(Body::QueryResult(range_of(connection, *numbers))),
        What::Recursive => Some(Body::QueryRecursive { connection }),
        _ => None,
    }
}

/// The numbers that are asked for: both ends, or neither.
fn range_of(connection: Id, numbers: Option<NumbersAsked>) -> NumberRange
    ensures { result ≡ range_of connection numbers }
{
    NumberRange {
        connection,
        end: numbers.map(|numbers| numbers.to),
        start: numbers.map(|numbers| numbers.from),
    }
}
