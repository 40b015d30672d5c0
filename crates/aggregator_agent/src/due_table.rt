//! The requests of an aggregator to its children.

ghost use Rattle.std.specs.Prelude.{◌≡◌, ◌<◌, ◌⊎◌, ◌↔◌, ◌++◌, ◌∷◌, ℕ, [], length, map, take, filter, All, Contains, IfOk, OnOk, OnErr};
ghost use Rattle.aggregator_agent.specs.Clock.{is_late};
ghost use Rattle.aggregator_agent.specs.Dues.{due_at, AreNamedBetween, AreDuesNamed, IsDueAt, is_overdue, is_overdue_at, AreToldAt};
ghost use Rattle.aggregator_agent.specs.Indexed.{StaysIn};

use crate::find::push_if;
use agent_state::Due;
use id_index::IdIndex;
use nsi_base::Second;
use nsi_primitive::{Id, Message};
use std::alloc::{AllocError, Global};
use std::marker::Model;

/// For how many seconds a request may stay without acknowledgement.
const MOST_WAIT: u64 = 120;

/// Requests to children in the order in which they were caused, each of which is found by its correlationId.
#[derive(Drop)]
pub struct DueTable {
    items: Vec<Due>,
    /// The places of the requests by their correlationIds. More may be named than there is.
    ids: IdIndex,
}

impl Model for DueTable {
    ghost use Rattle.std.specs.Prelude.{List};
    ghost use Rattle.agent_state.specs.declared.parent.Due.{Due};
    ghost use Rattle.aggregator_agent.specs.Dues.{AreDuesNamed};

    ghost Value = { List Due };

    ghost view = { λ t. t.items.items };

    ghost invariant = { λ t. AreDuesNamed t.ids t.items.items };
}

impl DueTable {
    pub fn new(alloc: Global) -> DueTable
        ensures { result ≡ [] }
    {
        DueTable {
            items: Vec::new(alloc),
            ids: IdIndex::new(alloc),
        }
    }

    pub fn len(&self) -> usize
        ensures { result ≡ length self.now }
    {
        self.items.len()
    }

    /// Puts requests behind the others, all of them or none.
    pub fn extend(&mut self, dues: &[Due]) -> Result<(), AllocError>
        ensures ok { OnOk result (self.new ≡ self.old ++ dues.now) }
        ensures err { OnErr result (self.new ≡ self.old) }
    {
        extend_in(&mut self.items, &mut self.ids, dues)
    }

    /// Keeps the first ones alone. It takes no memory.
    pub fn truncate(&mut self, count: usize)
        ensures { self.new ≡ take count self.old }
    {
        self.items.truncate(count);
    }

    /// The requests at some places, in the order of the places.
    pub fn at(&self, alloc: Global, places: &[usize]) -> Result<Vec<Due>, AllocError>
        requires { All (λ p. p < length self.now) places.now }
        ensures { IfOk result (λ dues. dues.items ≡ map (λ p. due_at p self.now) places.now) }
    {
        dues_at(alloc, &self.items, places)
    }

    /// Notes the places of the requests that are late by a second as a message waits. It looks at those of its
    /// correlationId alone.
    pub fn note_late(
        &self,
        alloc: Global,
        message: &Message,
        now: Second,
        places: &mut Vec<usize>,
    ) -> Result<(), AllocError>
        ensures { let is_late_now = is_late now (message.now ∷ []) in
            OnOk result ((p : ℕ) → Contains places.new.items p ↔
            (Contains places.old.items p ⊎ IsDueAt is_late_now self.now p)) }
    {
        if !message.is_request() {
            return Ok(());
        }
        let correlation = message.header.correlation;
        let mut named = Vec::new(alloc);
        self.ids.note_places(correlation, &mut named)?;
        note_overdue(&self.items, &named, correlation, now, places)
    }

    /// The requests at some places count as told. It takes no memory.
    pub fn tell_at(&mut self, places: &[usize])
        requires { All (λ p. p < length self.old) places.now }
        ensures { AreToldAt places.now self.old self.new }
    {
        tell_in(&mut self.items, places);
    }
}

fn extend_in(items: &mut Vec<Due>, ids: &mut IdIndex, dues: &[Due]) -> Result<(), AllocError>
    requires { AreDuesNamed ids.old items.old.items }
    ensures named { AreDuesNamed ids.new items.new.items }
    ensures ok { OnOk result (items.new.items ≡ items.old.items ++ dues.now) }
    ensures err { OnErr result (items.new.items ≡ items.old.items) }
{
    let count = items.len();
    items.extend_from_slice(dues)?;
    match name_from(ids, items, count) {
        Ok(()) => Ok(()),
        Err(error) => {
            items.truncate(count);
            Err(error)
        }
    }
}

/// Names the requests from a place on.
fn name_from(ids: &mut IdIndex, dues: &[Due], first: usize) -> Result<(), AllocError>
    ensures grows { StaysIn ids.old ids.new }
    ensures named { OnOk result (AreNamedBetween first (length dues.now) ids.new dues.now) }
{
    for place in first..dues.len() {
        ids.add(dues[place].correlation, place)?;
    }
    Ok(())
}

fn dues_at(alloc: Global, dues: &[Due], places: &[usize]) -> Result<Vec<Due>, AllocError>
    requires { All (λ p. p < length dues.now) places.now }
    ensures { IfOk result (λ some. some.items ≡ map (λ p. due_at p dues.now) places.now) }
{
    let mut some = Vec::new(alloc);
    for place in places {
        some.push(dues[*place])?;
    }
    Ok(some)
}

/// Notes those among some places at which a request under a correlationId is overdue.
fn note_overdue(
    dues: &[Due],
    named: &[usize],
    correlation: Id,
    now: Second,
    places: &mut Vec<usize>,
) -> Result<(), AllocError>
    ensures { let is_overdue = is_overdue_at now correlation dues.now in
        OnOk result (places.new.items ≡ places.old.items ++ filter is_overdue named.now) }
{
    for place in named {
        push_if(
            places,
            *place,
            is_overdue_at(dues, *place, correlation, now),
        )?;
    }
    Ok(())
}

fn is_overdue_at(dues: &[Due], place: usize, correlation: Id, now: Second) -> bool
    ensures { result ≡ is_overdue_at now correlation dues.now place }
{
    place < dues.len() && is_overdue(&dues[place], correlation, now)
}

fn is_overdue(due: &Due, correlation: Id, now: Second) -> bool
    ensures { result ≡ is_overdue now correlation due.now }
{
    !due.is_told && due.second.get() + MOST_WAIT <= now.get() && correlation == due.correlation
}

fn tell_in(dues: &mut Vec<Due>, places: &[usize])
    requires { All (λ p. p < length dues.old.items) places.now }
    ensures { AreToldAt places.now dues.old.items dues.new.items }
{
    for place in places {
        dues[*place].is_told = true;
    }
}
