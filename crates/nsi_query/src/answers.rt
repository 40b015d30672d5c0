//! The answers to queries.

ghost use Rattle.std.specs.Prelude.{◌≡◌, IfOk, [], Some};
ghost use Rattle.nsi_query.specs.Answers.{answer_about, first_asked, last_asked, nested_answer, notification_answer, result_answer, summary_answer};
ghost use Rattle.nsi_query.specs.Counted.{notifications, results};
ghost use Rattle.nsi_query.specs.Nested.{nest, own_row};
ghost use Rattle.nsi_query.specs.Summary.{summary_of};

use crate::counted::{notifications, results};
use crate::nested::{nest, own_row};
use crate::rows::Rows;
use crate::summaries::summary_of;
use connection_record::Record;
use nsi_base::Name;
use nsi_primitive::{Body, Id, NumberRange, Plane, RecursiveRow, SummaryRow};
use std::alloc::{AllocError, Global};

/// What an agent that has no child to ask answers to a query about a connection, whose data plane has that status; nothing
/// to what is no query.
#[tactic(auto, unfolding(crate::specs::Answers::answer_about))]
pub fn answer_about(
    alloc: Global,
    agent: &Name,
    of: &Record,
    plane: &Plane,
    query: &Body,
) -> Result<Option<Body>, AllocError>
    ensures { IfOk result
        (λ body. body ≡ answer_about agent.now (of.now, plane.now) query.now) }
{
    match query {
        Body::QuerySummary { .. } => summarized(alloc, of, plane),
        Body::QueryNotification(range) => notified(alloc, of, range),
        Body::QueryResult(range) => resulted(alloc, of, range),
        Body::QueryRecursive { .. } => alone(alloc, agent, of),
        _ => Ok(None),
    }
}

/// The answer to a querySummary.
pub fn summary_answer(found: Rows<SummaryRow>) -> Body
    ensures { result ≡ summary_answer found }
{
    Body::QuerySummaryConfirmed {
        more: found.more,
        reservations: found.rows,
    }
}

/// The answer to a queryRecursive about a connection.
pub fn nested_answer(connection: Id, found: Rows<RecursiveRow>) -> Body
    ensures { result ≡ nested_answer connection found }
{
    Body::QueryRecursiveConfirmed {
        connection,
        more: found.more,
        reservations: found.rows,
    }
}

fn summarized(alloc: Global, of: &Record, plane: &Plane) -> Result<Option<Body>, AllocError>
    ensures { let found = summary_of (of.now, plane.now) in
        IfOk result (λ body. body ≡ Some (summary_answer found)) }
{
    let found = summary_of(alloc, of, plane)?;
    Ok(Some(summary_answer(found)))
}

fn notified(alloc: Global, of: &Record, range: &NumberRange) -> Result<Option<Body>, AllocError>
    ensures { let found = notifications (first_asked range.now) (last_asked range.now) of.now in
        IfOk result (λ body. body ≡ Some (notification_answer of.now.id found)) }
{
    let found = notifications(alloc, of, first_asked(range), last_asked(range))?;
    Ok(Some(Body::QueryNotificationConfirmed {
        connection: of.id,
        more: found.more,
        notifications: found.rows,
    }))
}

fn resulted(alloc: Global, of: &Record, range: &NumberRange) -> Result<Option<Body>, AllocError>
    ensures { let found = results (first_asked range.now) (last_asked range.now) of.now in
        IfOk result (λ body. body ≡ Some (result_answer of.now.id found)) }
{
    let found = results(alloc, of, first_asked(range), last_asked(range))?;
    Ok(Some(Body::QueryResultConfirmed {
        connection: of.id,
        more: found.more,
        results: found.rows,
    }))
}

fn alone(alloc: Global, agent: &Name, of: &Record) -> Result<Option<Body>, AllocError>
    ensures { let found = nest (own_row agent.now of.now) [] in
        IfOk result (λ body. body ≡ Some (nested_answer of.now.id found)) }
{
    let found = nest(alloc, own_row(of, agent)?, &[])?;
    Ok(Some(nested_answer(of.id, found)))
}

fn first_asked(range: &NumberRange) -> u64
    ensures { result ≡ first_asked range.now }
{
    range.start.unwrap_or(1)
}

fn last_asked(range: &NumberRange) -> u64
    ensures { result ≡ last_asked range.now }
{
    range.end.unwrap_or(u64::MAX)
}
