//! The table of the queries that wait for children's answers.

ghost use Rattle.std.specs.Prelude.{◌≡◌, ◌<◌, ◌++◌, ◌∷◌, ℕ, [], None, false, All, IfOk, IfSome, OnOk, OnErr};
ghost use Rattle.std.specs.Prelude.{List as Sequence};
ghost use Rattle.std.specs.BTreeMap.{keys, is_at};
ghost use Rattle.std.specs.Map.{set_value, values_of};
ghost use Rattle.std.specs.Ordering.{nat_cmp};
ghost use Rattle.agent_state.specs.declared.parent.OpenQuery.{OpenQuery as OpenQueryValue};
ghost use Rattle.aggregator_agent.specs.Below.{is_asked, tells_first};
ghost use Rattle.aggregator_agent.specs.Bonds.{bonds, records_of};
ghost use Rattle.aggregator_agent.specs.Indexed.{StaysIn};
ghost use Rattle.aggregator_agent.specs.Open.{IsKept, IsTold, left_then};
ghost use Rattle.aggregator_agent.specs.OpenTable.{IsPartNamed, awaited_at, least_awaited, lesser, waiting_part};

use crate::connection::Connection;
use crate::parts::{asked_place, told_at, waits};
use agent_state::{OpenQuery, Part};
use id_index::IdIndex;
use nsi_primitive::Id;
use std::alloc::{AllocError, Global};
use std::collections::BTreeMap;
use std::marker::Model;

/// Queries in the order in which they came. Each has a number above those before it, so that one is taken out without moving the
/// others, and it is found by the correlationIds under which children were asked.
#[derive(Drop)]
pub struct OpenQueries {
    queries: BTreeMap<usize, OpenQuery>,
    /// The numbers of the queries by those correlationIds. More may be named than there is.
    ids: IdIndex,
}

impl Model for OpenQueries {
    ghost use Rattle.std.specs.Prelude.{List, ℕ};
    ghost use Rattle.agent_state.specs.declared.parent.OpenQuery.{OpenQuery};
    ghost use Rattle.aggregator_agent.specs.OpenTable.{AreQueriesNamed};

    ghost Value = { List (ℕ × OpenQuery) };

    ghost view = { λ o. o.queries.entries };

    ghost invariant = { λ o. AreQueriesNamed o.ids o.queries.entries };
}

/// Which open query a message answers in part, and what becomes of it.
#[derive(Drop)]
pub struct Told {
    /// The number of the query.
    pub number: usize,
    pub query: OpenQuery,
    /// Whether it waits for another child.
    pub waits: bool,
}

/// The number of an open query, and which of its parts is awaited.
#[derive(Clone, Copy)]
pub struct Awaited {
    pub number: usize,
    pub part: usize,
}

impl OpenQueries {
    pub fn new(alloc: Global) -> OpenQueries
        ensures { result ≡ [] }
    {
        OpenQueries {
            queries: BTreeMap::new(alloc),
            ids: IdIndex::new(alloc),
        }
    }

    /// Puts a query behind the others.
    pub fn push(&mut self, query: OpenQuery) -> Result<(), AllocError>
        ensures ok { OnOk result (values_of self.new ≡ values_of self.old ++ query ∷ []) }
        ensures err { OnErr result (self.new ≡ self.old) }
    {
        let number = number_behind(&self.queries)?;
        name_parts(&mut self.ids, number, query.parts.items())?;
        self.queries.insert(number, query)?;
        Ok(())
    }

    /// Takes the last one out again. It takes no memory.
    pub fn take_back(&mut self)
        ensures { (front : Sequence OpenQueryValue) (q : OpenQueryValue) →
            values_of self.old ≡ front ++ q ∷ [] → values_of self.new ≡ front }
    {
        let _last = self.queries.pop_last();
    }

    /// What becomes of the first query, of a connection that is there, that waits for an answer under a correlationId. It looks
    /// at those alone that are named by the correlationId.
    pub fn told(
        &self,
        alloc: Global,
        connections: &[Connection],
        correlation: Id,
        part: Part,
    ) -> Result<Option<Told>, AllocError>
        requires { is_asked part ≡ false }
        ensures { let records = records_of (bonds connections.now) in
            let heard = λ (agent : Sequence ℕ).
            tells_first agent records correlation part (values_of self.now) in
            IfOk result (IsTold records self.now heard) }
    {
        let _count = self.queries.len();
        let mut numbers = Vec::new(alloc);
        self.ids.note_places(correlation, &mut numbers)?;
        let found = find_least(&self.queries, &numbers, connections, correlation);
        let Some(
            Awaited {
                number,
                part: place,
            },
        ) = found
        else {
            return Ok(None);
        };
        let Some(query) = self.queries.get(&number) else {
            unreachable!()
        };
        let query = told_at(alloc, query, place, part)?;
        let waits = waits(query.parts.items());
        Ok(Some(Told {
            number,
            query,
            waits,
        }))
    }

    /// What becomes of the queries once one was told its part. It takes no memory.
    pub fn settle(&mut self, told: Option<Told>)
        requires { IfSome told (IsKept self.old) }
        ensures { self.new ≡ left_then told self.old }
    {
        let Some(
            Told {
                number,
                query,
                waits,
            },
        ) = told
        else {
            return;
        };
        if waits {
            replace(&mut self.queries, number, query);
        } else {
            let _answered = self.queries.remove(&number);
        }
    }
}

/// A number above those of all queries.
fn number_behind(queries: &BTreeMap<usize, OpenQuery>) -> Result<usize, AllocError>
    ensures { IfOk result (λ number. All (λ n. n < number) (keys queries.now)) }
{
    let Some((last, _)) = queries.last_key_value() else {
        return Ok(0)
    };
    match last.checked_add(1) {
        Some(number) => Ok(number),
        None => Err(AllocError),
    }
}

/// Names a query by the correlationIds under which children were asked.
fn name_parts(ids: &mut IdIndex, number: usize, parts: &[Part]) -> Result<(), AllocError>
    ensures grows { StaysIn ids.old ids.new }
    ensures named { OnOk result (All (IsPartNamed ids.new number) parts.now) }
{
    for part in parts {
        name_part(ids, number, part)?;
    }
    Ok(())
}

fn name_part(ids: &mut IdIndex, number: usize, part: &Part) -> Result<(), AllocError>
    ensures grows { StaysIn ids.old ids.new }
    ensures named { OnOk result (IsPartNamed ids.new number part.now) }
{
    match part {
        Part::Asked(correlation) => ids.add(*correlation, number),
        _ => Ok(()),
    }
}

/// The least of some numbers under which a query waits for an answer under a correlationId.
#[tactic(auto, unfolding(crate::specs::OpenTable::least_awaited))]
fn find_least(
    queries: &BTreeMap<usize, OpenQuery>,
    numbers: &[usize],
    connections: &[Connection],
    correlation: Id,
) -> Option<Awaited>
    ensures { let records = records_of (bonds connections.now) in
        result ≡ least_awaited correlation records queries.now.entries None numbers.now }
{
    let mut least = None;
    for number in numbers {
        let found = find_at(queries, *number, connections, correlation);
        least = lesser(least, found);
    }
    least
}

fn lesser(a: Option<Awaited>, b: Option<Awaited>) -> Option<Awaited>
    ensures { result ≡ lesser a b }
{
    match (a, b) {
        (Some(x), Some(y)) => {
            if y.number < x.number {
                Some(y)
            } else {
                Some(x)
            }
        }
        (None, b) => b,
        (a, None) => a,
    }
}

/// Which part of the query of a number waits for an answer under a correlationId.
fn find_at(
    queries: &BTreeMap<usize, OpenQuery>,
    number: usize,
    connections: &[Connection],
    correlation: Id,
) -> Option<Awaited>
    ensures { let records = records_of (bonds connections.now) in
        result ≡ awaited_at correlation records queries.now.entries number }
{
    let query = queries.get(&number)?;
    let part = awaited_part(query, connections, correlation)?;
    Some(Awaited { number, part })
}

/// Which part of a query, of a connection that is there, waits for an answer under a correlationId.
fn awaited_part(query: &OpenQuery, connections: &[Connection], correlation: Id) -> Option<usize>
    ensures { let records = records_of (bonds connections.now) in
        result ≡ waiting_part correlation records query.now }
{
    if query.place < connections.len() {
        asked_place(correlation, query)
    } else {
        None
    }
}

/// The query of a number stands otherwise.
fn replace(queries: &mut BTreeMap<usize, OpenQuery>, number: usize, query: OpenQuery)
    ensures { queries.new.entries ≡ set_value (is_at (nat_cmp number)) queries.old.entries query }
{
    if let Some(old) = queries.get_mut(&number) {
        *old = query;
    }
}
