//! What a history has of each caller, found by a provider that takes its entries again.

ghost use Rattle.std.specs.Prelude.{◌≡◌, ◌<◌, ◌++◌, ◌∷◌, [], ℕ, map, length, true, None, Some, Option, All, IfOk, IfSome, OnOk, take, slice_set, get_or};
ghost use Rattle.nsi_primitive.specs.Printable.{IsPrintable, IsPrintableEntry};
ghost use Rattle.stp_topology.specs.Network.{kind_of};
ghost use Rattle.stp_topology.specs.Sound.{IsProvider};
ghost use Rattle.provider_agent.specs.Setting.{setting_of, own_stp};
ghost use Rattle.provider_agent.specs.State.{blank};
ghost use Rattle.provider_agent.specs.Steps.{after, may_take};
ghost use Rattle.race_run.specs.Compared.{AllStand};
ghost use Rattle.race_run.specs.Found.{after_at, entry_in, owner, is_caller, asks_at, is_tick, item, entered, entry_items, heard_item, found_at, tick_at, stray_at, state_by, state_gone};
ghost use Rattle.race_run.specs.Replay.{items_at, Added, Adds, AreOf, MayAll, MayBeAt, tick_items, stray_items, own_items, owned_items};

use crate::item::Item;
use nsi_base::{AgentNo, List, Second};
use nsi_primitive::{Entry, Event, Happening, Input, Message};
use provider_agent::Provider;
use std::alloc::{AllocError, Global};
use stp_topology::{AgentKind, Topology};

/// The lists that a history is compared by: its ticks, what it has of each agent, and what it has of no caller.
#[derive(Drop)]
pub struct Lists {
    pub ticks: List<Item>,
    /// By the number of the agent.
    pub found: Vec<List<Item>>,
    pub strays: List<Item>,
}

/// Who asks whom, at which second of both clocks.
#[derive(Clone, Copy, Debug, PartialEq, Eq)]
pub struct Call {
    pub provider: AgentNo,
    pub agent: AgentNo,
    pub second: Second,
}

/// A place in the history of a provider, and the second of its callers' clocks.
#[derive(Drop)]
struct Spot {
    provider: AgentNo,
    second: Second,
    place: u64,
}

/// Whose request an entry is, or whose record it is work on.
pub(crate) fn owner(topology: &Topology, provider: &Provider, input: &Input) -> Option<AgentNo>
    ensures owner { result ≡ owner topology.now provider.now.state input.now }
    ensures within { IfSome result (λ a. a < length topology.now.agents) }
{
    match input {
        Input::Got(message) => {
            if !message.is_request() {
                return None;
            }
            topology.agent_of(message.header.requester.bytes())
        }
        Input::Work { number, machine: _ } => match provider.records().get(number.get() as usize) {
            Some(record) => topology.agent_of(record.owner.bytes()),
            None => None,
        },
        _ => None,
    }
}

/// Whether an agent asks the provider.
fn asks(kind: AgentKind, provider: AgentNo) -> bool
    ensures { result ≡ asks_at provider (Some kind) }
{
    match kind {
        AgentKind::Requester { provider: own } => own == provider,
        _ => false,
    }
}

fn is_one_of_callers(topology: &Topology, provider: AgentNo, agent: &Option<AgentNo>) -> bool
    requires { IfSome agent.now (λ a. a < length topology.now.agents) }
    ensures { result ≡ is_caller topology.now provider agent.now }
{
    match agent {
        Some(agent) => asks(topology.kind(*agent), provider),
        None => false,
    }
}

/// Whether there is an agent, and it asks the provider.
pub fn is_caller(topology: &Topology, provider: AgentNo, agent: Option<AgentNo>) -> bool
    requires { IfSome agent (λ a. a < length topology.now.agents) }
    ensures { result ≡ is_caller topology.now provider agent }
{
    is_one_of_callers(topology, provider, &agent)
}

/// An entry, as the provider took it.
pub fn push_entry(
    items: &mut List<Item>,
    place: u64,
    agent: AgentNo,
    entry: &Entry,
) -> Result<(), AllocError>
    ensures { OnOk result (items.new ≡ items.old ++ item place (entered agent entry.now) ∷ []) }
{
    let entry = entry.copy()?;
    let what = Happening::Entry {
        entry,
        answer: None,
    };
    let event = Event { agent, what };
    items.push(Item { place, event })
}

/// A message, as the caller takes it.
pub fn push_got(
    items: &mut List<Item>,
    place: u64,
    agent: AgentNo,
    second: Second,
    message: &Message,
) -> Result<(), AllocError>
    ensures { OnOk result
        (items.new ≡ items.old ++ heard_item agent second place message.now ∷ []) }
{
    let message = message.copy()?;
    let entry = Entry {
        second,
        input: Input::Got(message),
    };
    let what = Happening::Entry {
        entry,
        answer: None,
    };
    let event = Event { agent, what };
    items.push(Item { place, event })
}

/// Messages, as the caller takes them.
fn push_heard(
    items: &mut List<Item>,
    place: u64,
    agent: AgentNo,
    second: Second,
    out: &[Message],
) -> Result<(), AllocError>
    ensures { OnOk result (items.new ≡ items.old ++ map (heard_item agent second place) out.now) }
{
    for message in out {
        push_got(items, place, agent, second, message)?;
    }
    Ok(())
}

/// Notes an entry that is a tick.
fn add_tick(
    ticks: &mut List<Item>,
    place: u64,
    provider: AgentNo,
    entry: &Entry,
) -> Result<(), AllocError>
    ensures { OnOk result (ticks.new ≡ ticks.old ++ tick_items provider place entry.now) }
{
    if matches!(entry.input, Input::Tick) {
        push_entry(ticks, place, provider, entry)
    } else {
        Ok(())
    }
}

/// Notes an entry that is nobody's.
fn add_stray(
    strays: &mut List<Item>,
    place: u64,
    provider: AgentNo,
    entry: &Entry,
    is_asked: bool,
) -> Result<(), AllocError>
    ensures { OnOk result
        (strays.new ≡ strays.old ++ stray_items provider place is_asked entry.now) }
{
    if matches!(entry.input, Input::Tick) || is_asked {
        Ok(())
    } else {
        push_entry(strays, place, provider, entry)
    }
}

/// Notes an entry, and behind it what its owner takes of what it causes.
fn push_own(
    items: &mut List<Item>,
    place: u64,
    call: Call,
    entry: &Entry,
    out: &[Message],
) -> Result<(), AllocError>
    ensures { OnOk result (items.new ≡ items.old ++ own_items call place entry.now out.now) }
{
    push_entry(items, place, call.provider, entry)?;
    push_heard(items, place, call.agent, call.second, out)
}

/// Notes an entry in the list of its owner.
fn add_found(
    found: &mut Vec<List<Item>>,
    place: u64,
    call: Call,
    entry: &Entry,
    out: &[Message],
) -> Result<(), AllocError>
    requires { call.agent < length found.old.items }
    ensures { OnOk result (found.new.items
        ≡ slice_set found.old.items call.agent
        (get_or found.old.items call.agent [] ++ own_items call place entry.now out.now)) }
{
    push_own(
        &mut found[call.agent.get() as usize],
        place,
        call,
        entry,
        out,
    )
}

/// Notes an entry in the list of its owner, if it has one.
fn add_owned(
    found: &mut Vec<List<Item>>,
    spot: &Spot,
    owner: Option<AgentNo>,
    entry: &Entry,
    out: &[Message],
) -> Result<(), AllocError>
    requires { IfSome owner (λ a. a < length found.old.items) }
    ensures found { OnOk result ((a : ℕ) → items_at found.new.items a
        ≡ items_at found.old.items a
        ++ owned_items spot.now.provider a spot.now.second spot.now.place owner entry.now out.now) }
    ensures all { OnOk result (length found.new.items ≡ length found.old.items) }
{
    match owner {
        Some(agent) => {
            let call = Call {
                provider: spot.provider,
                agent,
                second: spot.second,
            };
            add_found(found, spot.place, call, entry, out)
        }
        None => Ok(()),
    }
}

impl Lists {
    /// No event was taken yet.
    fn new(alloc: Global, topology: &Topology) -> Result<Lists, AllocError>
        ensures nothing { IfOk result (λ l. (l.ticks ≡ []) × (l.strays ≡ [])) }
        ensures found { IfOk result (λ l. (a : ℕ) → items_at l.found.items a ≡ []) }
        ensures all { IfOk result (λ l. length l.found.items ≡ length topology.now.agents) }
    {
        let found = empty_lists(alloc, topology.agents())?;
        Ok(Lists {
            ticks: List::new(alloc),
            found,
            strays: List::new(alloc),
        })
    }

    /// Notes an entry, whose owner is known, with what it causes.
    fn add(
        &mut self,
        spot: &Spot,
        entry: &Entry,
        owner: Option<AgentNo>,
        is_asked: bool,
        out: &[Message],
    ) -> Result<(), AllocError>
        requires { IfSome owner (λ a. a < length self.old.found.items) }
        ensures { OnOk result (Added spot.now.provider spot.now.second spot.now.place
            entry.now owner is_asked out.now self.old self.new) }
    {
        add_tick(&mut self.ticks, spot.place, spot.provider, entry)?;
        add_owned(&mut self.found, spot, owner, entry, out)?;
        add_stray(&mut self.strays, spot.place, spot.provider, entry, is_asked)?;
        Ok(())
    }

    /// Notes an entry of a provider that is about to take it.
    fn take_entry(
        &mut self,
        alloc: Global,
        topology: &Topology,
        provider: &mut Provider,
        spot: &Spot,
        entry: &Entry,
    ) -> Result<(), AllocError>
        requires may { may_take provider.old.state entry.now ≡ true }
        requires printable { IsPrintableEntry entry.now }
        requires own { provider.old.setting ≡ setting_of topology.now spot.now.provider }
        requires all { length self.old.found.items ≡ length topology.now.agents }
        ensures state { OnOk result (provider.new ≡ record {
          setting = setting_of topology.now spot.now.provider;
          state = (after_at topology.now spot.now.provider provider.old.state entry.now).state;
        }) }
        ensures adds { OnOk result (Adds topology.now spot.now.provider spot.now.second
            spot.now.place provider.old.state (Some entry.now) self.old self.new) }
    {
        let owner = owner(topology, provider, &entry.input);
        let is_asked = is_one_of_callers(topology, spot.provider, &owner);
        let out = provider.next(alloc, topology, entry)?;
        self.add(spot, entry, owner, is_asked, &out)?;
        Ok(())
    }

    /// Notes an event of a provider that is about to take it.
    fn take(
        &mut self,
        alloc: Global,
        topology: &Topology,
        provider: &mut Provider,
        spot: &Spot,
        event: &Event,
    ) -> Result<(), AllocError>
        requires may { MayBeAt provider.old.state event.now.what }
        requires own { provider.old.setting ≡ setting_of topology.now spot.now.provider }
        requires all { length self.old.found.items ≡ length topology.now.agents }
        ensures state { OnOk result (provider.new ≡ record {
          setting = setting_of topology.now spot.now.provider;
          state = state_by topology.now spot.now.provider provider.old.state event.now.what;
        }) }
        ensures adds { OnOk result (Adds topology.now spot.now.provider spot.now.second
            spot.now.place provider.old.state (entry_in event.now.what) self.old self.new) }
    {
        match &event.what {
            Happening::Entry { entry, answer: _ } => {
                self.take_entry(alloc, topology, provider, spot, entry)
            }
            Happening::Sync { count: _ } => Ok(()),
            Happening::Restart { count: _ } => Ok(()),
        }
    }
}

/// So many lists with nothing in them.
fn empty_lists(alloc: Global, count: usize) -> Result<Vec<List<Item>>, AllocError>
    ensures found { IfOk result (λ v. (a : ℕ) → items_at v.items a ≡ []) }
    ensures all { IfOk result (λ v. length v.items ≡ count) }
{
    let mut found = Vec::new(alloc);
    'lists: while found.len() < count {
        let list = List::new(alloc);
        found.push(list)?;
    }
    Ok(found)
}

/// The lists of a history, and the provider behind it.
pub fn replay(
    alloc: Global,
    topology: &Topology,
    agent: AgentNo,
    second: Second,
    history: &[Event],
) -> Result<(Lists, Provider), AllocError>
    requires within { agent < length topology.now.agents }
    requires provider { IsProvider topology.now agent }
    requires may { MayAll topology.now agent blank history.now }
    ensures lists { IfOk result (λ r. AreOf topology.now agent second history.now r.0) }
    ensures provider { IfOk result (λ r. r.1 ≡ record {
      setting = setting_of topology.now agent;
      state = state_gone topology.now agent blank history.now;
    }) }
{
    let mut provider = Provider::new(alloc, topology, agent)?;
    let mut lists = Lists::new(alloc, topology)?;
    for place in 0..history.len() {
        let spot = Spot {
            provider: agent,
            second,
            place: place as u64,
        };
        lists.take(alloc, topology, &mut provider, &spot, &history[place])?;
    }
    Ok((lists, provider))
}
