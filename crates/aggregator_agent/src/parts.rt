//! What is known of the rows below a connection, while a queryRecursive about it is open.

ghost use Rattle.std.specs.Prelude.{◌≡◌, ◌<◌, length, map, IfOk, IfSome};
ghost use Rattle.std.specs.List.{list_any};
ghost use Rattle.aggregator_agent.specs.Below.{is_asked, is_asked_under, asked_place, nested_reply, part_of, rows_of, told_at};

use agent_state::{OpenQuery, Part};
use connection_record::Record;
use nsi_base::{List, Name};
use nsi_primitive::{Body, Id, Message, RecursiveRow, copy_recursive_rows};
use nsi_query::{Rows, nest, nested_answer, own_row};
use std::alloc::{AllocError, Global};

/// Whether a child was asked that hasn't answered.
pub fn waits(parts: &[Part]) -> bool
    ensures { result ≡ list_any is_asked parts.now }
{
    parts.iter().any(|part| is_asked(part))
}

fn is_asked(part: &Part) -> bool
    ensures { result ≡ is_asked part.now }
{
    match part {
        Part::Asked(_) => true,
        _ => false,
    }
}

fn is_asked_under(correlation: Id, part: &Part) -> bool
    ensures { result ≡ is_asked_under correlation part.now }
{
    match part {
        Part::Asked(asked) => correlation == *asked,
        _ => false,
    }
}

/// Where the part stands that was asked under a correlationId.
pub fn asked_place(correlation: Id, query: &OpenQuery) -> Option<usize>
    ensures place { result ≡ asked_place correlation query.now }
    ensures within { IfSome result (λ n. n < length query.now.parts) }
{
    query
        .parts
        .items()
        .iter()
        .position(|part| is_asked_under(correlation, part))
}

/// What a message says of a child's rows, where it is an answer to a queryRecursive.
#[tactic(auto, unfolding(crate::specs::Below::part_of))]
pub fn part_of(body: &Body) -> Result<Option<Part>, AllocError>
    ensures { IfOk result (λ part. part ≡ part_of body.now) }
{
    match body {
        Body::QueryRecursiveConfirmed {
            more,
            reservations,
            ..
        } => Ok(Some(Part::Told(Rows {
            rows: copy_recursive_rows(reservations)?,
            more: *more,
        }))),
        Body::Error { .. } => Ok(Some(Part::Missing)),
        _ => Ok(None),
    }
}

/// An open query, of which one child has told its part.
pub fn told_at(
    alloc: Global,
    query: &OpenQuery,
    place: usize,
    part: Part,
) -> Result<OpenQuery, AllocError>
    requires { place < length query.now.parts }
    ensures { IfOk result (λ q. q ≡ told_at place part query.now) }
{
    let mut parts = copies_of(alloc, query.parts.items())?;
    parts[place] = part;
    Ok(OpenQuery {
        header: query.header.copy()?,
        place: query.place,
        parts: List::from_items(parts),
    })
}

/// The answer to a query that waits for no child any more.
pub fn nested_reply(
    alloc: Global,
    agent: &Name,
    own: &Record,
    query: &OpenQuery,
) -> Result<Message, AllocError>
    ensures { IfOk result (λ m. m ≡ nested_reply agent.now own.now query.now) }
{
    let below = all_rows(alloc, query.parts.items())?;
    let found = nest(alloc, own_row(own, agent)?, &below)?;
    Ok(Message {
        header: query.header.copy()?,
        body: nested_answer(own.id, found),
    })
}

fn copies_of(alloc: Global, parts: &[Part]) -> Result<Vec<Part>, AllocError>
    ensures { IfOk result (λ copies. copies.items ≡ parts.now) }
{
    let mut copies = Vec::new(alloc);
    for part in parts {
        copies.push(copy_of(part)?)?;
    }
    Ok(copies)
}

fn copy_of(part: &Part) -> Result<Part, AllocError>
    ensures { IfOk result (λ copy. copy ≡ part.now) }
{
    match part {
        Part::Missing => Ok(Part::Missing),
        Part::Asked(correlation) => Ok(Part::Asked(*correlation)),
        Part::Told(found) => Ok(Part::Told(copy_found(found)?)),
    }
}

fn copy_found(found: &Rows<RecursiveRow>) -> Result<Rows<RecursiveRow>, AllocError>
    ensures { IfOk result (λ copy. copy ≡ found.now) }
{
    Ok(Rows {
        rows: copy_recursive_rows(&found.rows)?,
        more: found.more,
    })
}

fn all_rows(alloc: Global, parts: &[Part]) -> Result<Vec<Rows<RecursiveRow>>, AllocError>
    ensures { IfOk result (λ all. all.items ≡ map rows_of parts.now) }
{
    let mut all = Vec::new(alloc);
    for part in parts {
        all.push(rows_of(alloc, part)?)?;
    }
    Ok(all)
}

/// A child that tells nothing has no rows, and others may be missing.
fn rows_of(alloc: Global, part: &Part) -> Result<Rows<RecursiveRow>, AllocError>
    ensures { IfOk result (λ found. found ≡ rows_of part.now) }
{
    match part {
        Part::Told(found) => copy_found(found),
        _ => Ok(Rows {
            rows: List::new(alloc),
            more: true,
        }),
    }
}
