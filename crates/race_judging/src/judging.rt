//! What callers kept, compared with the history.

ghost use Rattle.std.specs.Prelude.{◌≡◌, ◌<◌, ◌++◌, ◌∷◌, [], length, map, All, IfOk, IfSome};
ghost use Rattle.stp_topology.specs.declared.network.Network.{Network};
ghost use Rattle.stp_topology.specs.Sound.{IsProvider};
ghost use Rattle.provider_agent.specs.State.{blank};
ghost use Rattle.race_run.specs.Compared.{IsOfNetwork, AllStand, AreWritten};
ghost use Rattle.race_run.specs.Found.{item, entered, waits, state_gone};
ghost use Rattle.race_run.specs.Replay.{MayAll, AreOf};
ghost use Rattle.race_judging.specs.Pairs.{first_ticks, second_of, has_committed, committed_of};
ghost use Rattle.race_judging.specs.Verdicts.{IsVerdict, IsJudged, IsOfTold, OfEach, found_pair, pairs_in};

use connection_record::Record;
use nsi_base::{AgentNo, List, Second};
use nsi_primitive::{Entry, Event, Happening, Input};
use provider_agent::Provider;
use race_run::{Difference, Item, Lists, compare, replay};
use std::alloc::{AllocError, Global};
use stp_topology::Topology;

/// A caller with what it kept.
#[derive(Debug, Drop)]
pub struct Own {
    pub agent: AgentNo,
    pub items: List<Item>,
}

/// What happened at a provider, whose callers' clocks begin at the second.
#[derive(Drop)]
pub struct Course<'a> {
    pub provider: AgentNo,
    pub start: Option<Second>,
    pub history: &'a [Event],
}

/// What a comparison comes to.
#[derive(Debug, Drop)]
pub enum Verdict {
    /// What was kept is what the history has; and so many records have something committed.
    Same { committed: u64 },
    Differs(Difference),
}

/// The second of all clocks.
pub fn second_of(start: &Option<Second>) -> Second
    ensures { result ≡ second_of start.now }
{
    match start {
        Some(second) => *second,
        None => Second::first(),
    }
}

fn has_committed(own: &Record) -> bool
    ensures { result ≡ has_committed own.now }
{
    !own.committed.items().is_empty()
}

/// How many records have something committed.
#[tactic(auto, using(crate::proofs::Comparing::counted))]
fn committed_of(records: &[Record]) -> u64
    ensures { result ≡ committed_of records.now }
{
    let mut count = 0;
    for record in records {
        if has_committed(record) {
            count += 1;
        }
    }
    count
}

/// An entry of the provider, as an item.
fn item_of(place: u64, agent: AgentNo, entry: Entry) -> Item
    ensures { result ≡ item place (entered agent entry) }
{
    let what = Happening::Entry {
        entry,
        answer: None,
    };
    let event = Event { agent, what };
    Item { place, event }
}

/// The tick that the history is to begin with.
fn first_ticks(
    alloc: Global,
    provider: AgentNo,
    start: &Option<Second>,
) -> Result<List<Item>, AllocError>
    ensures { IfOk result (λ ticks. ticks ≡ first_ticks provider start.now) }
{
    let mut ticks = List::new(alloc);
    if let Some(second) = start {
        let second = *second;
        let input = Input::Tick;
        let entry = Entry { second, input };
        ticks.push(item_of(0, provider, entry))?;
    }
    Ok(ticks)
}

/// The first work that waits, as an event that isn't there.
fn waits(
    alloc: Global,
    agent: AgentNo,
    place: u64,
    provider: &Provider,
) -> Result<List<Item>, AllocError>
    ensures { IfOk result (λ w. w ≡ waits agent place provider.now.state) }
{
    let mut waits = List::new(alloc);
    if let Some((number, machine)) = provider.waiting_work() {
        let second = provider.now();
        let input = Input::Work { number, machine };
        let entry = Entry { second, input };
        waits.push(item_of(place, agent, entry))?;
    }
    Ok(waits)
}

/// What a caller kept, compared with what was found of it.
#[tactic(auto, using(crate::proofs::Comparing::alone))]
fn judge_own(
    alloc: Global,
    found: &[List<Item>],
    own: &Own,
) -> Result<Option<Difference>, AllocError>
    requires within { own.now.agent < length found.now }
    requires kept { AreWritten own.now.items }
    requires found { All AreWritten found.now }
    ensures judged { IfOk result (IsVerdict (found_pair found.now own.now ∷ [])) }
    ensures told { (t : Network) → AllStand t own.now.items → All (AllStand t) found.now →
        IfOk result (λ o. IfSome o (IsOfNetwork t)) }
{
    let list = &found[own.agent.get() as usize];
    let told = compare(alloc, own.items.items(), list.items())?;
    Ok(told)
}

/// What each caller kept, compared with what was found of it.
#[tactic(auto, using(crate::proofs::Comparing::own_next, crate::proofs::Comparing::own_differs))]
fn judge_owns(
    alloc: Global,
    found: &[List<Item>],
    owns: &[Own],
) -> Result<Option<Difference>, AllocError>
    requires within { All (λ o. o.agent < length found.now) owns.now }
    requires kept { All (λ o. AreWritten o.items) owns.now }
    requires found { All AreWritten found.now }
    ensures judged { IfOk result (IsVerdict (map (found_pair found.now) owns.now)) }
    ensures told { (t : Network) → All (λ o. AllStand t o.items) owns.now →
        All (AllStand t) found.now → IfOk result (λ o. IfSome o (IsOfNetwork t)) }
{
    for own in owns {
        match judge_own(alloc, found, own)? {
            Some(difference) => return Ok(Some(difference)),
            None => {}
        }
    }
    Ok(None)
}

/// Where what was kept differs first from what was found.
#[tactic(auto, using(crate::proofs::Comparing::first_differs, crate::proofs::Comparing::first_same, crate::proofs::Comparing::front_differs, crate::proofs::Comparing::front_same))]
fn judge_lists(
    alloc: Global,
    ticks: &[Item],
    lists: &Lists,
    owns: &[Own],
    waits: &[Item],
) -> Result<Option<Difference>, AllocError>
    requires within { All (λ o. o.agent < length lists.now.found.items) owns.now }
    requires written { OfEach AreWritten ticks.now lists.now owns.now waits.now }
    ensures judged { IfOk result (IsVerdict (pairs_in ticks.now lists.now owns.now waits.now)) }
    ensures told { (t : Network) → OfEach (AllStand t) ticks.now lists.now owns.now waits.now →
        IfOk result (λ o. IfSome o (IsOfNetwork t)) }
{
    let told = compare(alloc, ticks, lists.ticks.items())?;
    if told.is_some() {
        return Ok(told);
    }
    let told_own = judge_owns(alloc, &lists.found, owns)?;
    if told_own.is_some() {
        return Ok(told_own);
    }
    let told_stray = compare(alloc, &[], lists.strays.items())?;
    if told_stray.is_some() {
        return Ok(told_stray);
    }
    let told_wait = compare(alloc, &[], waits)?;
    Ok(told_wait)
}

/// What a comparison comes to that found this, or nothing.
fn verdict_of(told: Option<Difference>, records: &[Record]) -> Verdict
    ensures { IsOfTold told (committed_of records.now) result }
{
    match told {
        Some(difference) => Verdict::Differs(difference),
        None => Verdict::Same {
            committed: committed_of(records),
        },
    }
}

/// What callers kept, compared with the lists of a history and the provider behind it.
fn judge_replayed(
    alloc: Global,
    topology: &Topology,
    course: &Course<'_>,
    lists: &Lists,
    behind: &Provider,
    owns: &[Own],
) -> Result<Verdict, AllocError>
    requires within { course.now.provider < length topology.now.agents }
    requires may { MayAll topology.now course.now.provider blank course.now.history.now }
    requires lists { AreOf topology.now course.now.provider (second_of course.now.start)
        course.now.history.now lists.now }
    requires behind { behind.now.state
        ≡ state_gone topology.now course.now.provider blank course.now.history.now }
    requires agents { All (λ o. o.agent < length topology.now.agents) owns.now }
    requires stand { All (λ o. AllStand topology.now o.items) owns.now }
    ensures judged { IfOk result (IsJudged topology.now course.now.provider course.now.start
        course.now.history.now owns.now) }
{
    let ticks = first_ticks(alloc, course.provider, &course.start)?;
    let waits = waits(alloc, course.provider, course.history.len() as u64, behind)?;
    let told = judge_lists(alloc, ticks.items(), lists, owns, waits.items())?;
    Ok(verdict_of(told, behind.records()))
}

/// What callers kept, compared with the history of their provider.
pub fn judge(
    alloc: Global,
    topology: &Topology,
    course: &Course<'_>,
    owns: &[Own],
) -> Result<Verdict, AllocError>
    requires within { course.now.provider < length topology.now.agents }
    requires provider { IsProvider topology.now course.now.provider }
    requires may { MayAll topology.now course.now.provider blank course.now.history.now }
    requires agents { All (λ o. o.agent < length topology.now.agents) owns.now }
    requires stand { All (λ o. AllStand topology.now o.items) owns.now }
    ensures judged { IfOk result (IsJudged topology.now course.now.provider course.now.start
        course.now.history.now owns.now) }
{
    let second = second_of(&course.start);
    let (lists, behind) = replay(alloc, topology, course.provider, second, course.history)?;
    let verdict = judge_replayed(alloc, topology, course, &lists, &behind, owns);
    let_go_lists(lists);
    let_go_provider(behind);
    verdict
}

fn let_go_lists(lists: Lists) {
    drop(lists);
}

fn let_go_provider(provider: Provider) {
    drop(provider);
}
