//! A caller: a requester, and what it keeps of what it is told.

ghost use Rattle.std.specs.Prelude.{ℕ, ◌≡◌, ◌<◌, ◌==◌, ◌++◌, ◌∷◌, [], All, IfOk, OnOk, IfSome, length, true, false};
ghost use Rattle.nsi_primitive.specs.Printable.{IsPrintable, IsPrintableAsk, IsPrintableInput};
ghost use Rattle.agent_state.specs.State.{blank_agent};
ghost use Rattle.requester_agent.specs.Setting.{IsRequester, setting_of};
ghost use Rattle.shared_provider.specs.Asked.{tick_entry};
ghost use Rattle.race_run.specs.Found.{item, entered, got};
ghost use Rattle.race_caller.specs.Plays.{begun, HasEnd, is_plain_work, is_work_by};
ghost use Rattle.race_run.specs.Compared.{AllStand};
ghost use Rattle.race_caller.specs.Askers.{IsAsker, HasTaken, HasPicked, HasHeard, HasSent};
ghost use Rattle.race_caller.specs.Alone.{HasRoomFor, HasHeardThese};
ghost use Rattle.requester_agent.specs.Steps.{may_take};

use nsi_base::{AgentNo, List, Second};
use nsi_primitive::{Ask, Entry, Event, Happening, Input, Message};
use race_run::{Call, Item, push_entry, push_got};
use requester_agent::Requester;
use std::alloc::{AllocError, Global};
use stp_topology::Topology;

/// So many entries a requester takes.
const MOST_ENTRIES: u64 = 4_194_304;

/// A place at which no history has an event.
const NO_PLACE: u64 = 8_388_608;

/// A requester at work: whom it asks, what it keeps, and its last request.
#[derive(Drop)]
pub struct Asker {
    pub call: Call,
    pub requester: Requester,
    pub kept: List<Item>,
    pub last: Option<Message>,
}

/// What an ask made a requester send.
#[derive(Drop)]
pub(crate) enum Sent {
    /// It can take no ask more.
    Full,
    Nothing,
    Request(Message),
}

fn is_plain_work(what: &Happening) -> bool
    ensures { result ≡ is_plain_work what.now }
{
    match what {
        Happening::Entry { entry, answer } => {
            answer.is_none() && matches!(entry.input, Input::Work { .. })
        }
        Happening::Sync { count: _ } => false,
        Happening::Restart { count: _ } => false,
    }
}

/// Whether an event is work of the provider.
fn is_work_by(provider: AgentNo, event: &Event) -> bool
    ensures { result ≡ is_work_by provider event.now }
{
    event.agent == provider && is_plain_work(&event.what)
}

/// The clock of a requester goes to the second of the script, where there is one.
fn begin(
    alloc: Global,
    topology: &Topology,
    requester: &mut Requester,
    start: Option<Second>,
) -> Result<(), AllocError>
    requires fresh { requester.old.state ≡ blank_agent }
    ensures begun { (a : ℕ) → requester.old.setting ≡ setting_of topology.now a →
        OnOk result (requester.new.state ≡ begun topology.now a start) }
    ensures setting { OnOk result (requester.new.setting ≡ requester.old.setting) }
{
    let Some(second) = start else {
        return Ok(());
    };
    let entry = Entry {
        second,
        input: Input::Tick,
    };
    let _said = requester.next(alloc, topology, &entry)?;
    Ok(())
}

fn let_go(message: Message) -> bool
    ensures { result ≡ false }
{
    drop(message);
    false
}

/// A tick, as an agent took it.
fn push_tick(
    items: &mut List<Item>,
    place: u64,
    agent: AgentNo,
    second: Second,
) -> Result<(), AllocError>
    ensures { OnOk result (items.new
        ≡ items.old ++ item place (entered agent (tick_entry second)) ∷ []) }
{
    let entry = Entry {
        second,
        input: Input::Tick,
    };
    push_entry(items, place, agent, &entry)
}

impl Asker {
    /// A caller that has asked nothing yet. Its clock stands at the second of the script.
    pub fn new(
        alloc: Global,
        topology: &Topology,
        call: Call,
        start: Option<Second>,
    ) -> Result<Asker, AllocError>
        requires agent { call.agent < length topology.now.agents }
        requires provider { call.provider < length topology.now.agents }
        requires requester { IsRequester topology.now call.agent }
        requires apart { (call.provider == call.agent) ≡ false }
        ensures is { IfOk result (IsAsker topology.now) }
        ensures call { IfOk result (λ x. x.call ≡ call) }
        ensures begun { IfOk result (λ x.
            x.requester.state ≡ begun topology.now call.agent start) }
        ensures empty { IfOk result (λ x. x.kept ≡ []) }
    {
        let mut requester = Requester::new(alloc, topology, call.agent)?;
        begin(alloc, topology, &mut requester, start)?;
        Ok(Asker {
            call,
            requester,
            kept: List::new(alloc),
            last: None,
        })
    }

    /// Its requester takes an entry.
    fn take(
        &mut self,
        alloc: Global,
        topology: &Topology,
        entry: &Entry,
    ) -> Result<Vec<Message>, AllocError>
        requires is { IsAsker topology.now self.old }
        requires may { may_take self.old.requester.state entry.now ≡ true }
        requires printable { IsPrintableInput entry.now.input }
        ensures { IfOk result (HasTaken topology.now entry.now self.old self.new) }
    {
        let (_answer, out) = self.requester.next(alloc, topology, entry)?;
        Ok(out)
    }

    /// Its requester takes an entry that nobody else wants.
    fn take_whole(
        &mut self,
        alloc: Global,
        topology: &Topology,
        entry: Entry,
    ) -> Result<Vec<Message>, AllocError>
        requires is { IsAsker topology.now self.old }
        requires may { may_take self.old.requester.state entry ≡ true }
        requires printable { IsPrintableInput entry.input }
        ensures { IfOk result (HasTaken topology.now entry self.old self.new) }
    {
        self.take(alloc, topology, &entry)
    }

    /// Takes an ask, and gives the request that it makes it send.
    pub(crate) fn send(
        &mut self,
        alloc: Global,
        topology: &Topology,
        ask: &Ask,
    ) -> Result<Sent, AllocError>
        requires is { IsAsker topology.now self.old }
        requires printable { IsPrintableAsk ask.now }
        ensures { IfOk result (HasSent topology.now ask.now self.old self.new) }
    {
        if self.requester.taken() >= MOST_ENTRIES {
            return Ok(Sent::Full);
        }
        let ask = ask.copy()?;
        let entry = Entry {
            second: self.requester.now(),
            input: Input::Ask { number: 0, ask },
        };
        let out = self.take_whole(alloc, topology, entry)?;
        let sent = self.pick(topology, &out)?;
        Ok(sent)
    }

    /// The first message, which is the last request from now on.
    fn pick(&mut self, topology: &Topology, out: &[Message]) -> Result<Sent, AllocError>
        requires is { IsAsker topology.now self.old }
        requires printable { All IsPrintable out.now }
        ensures { IfOk result (HasPicked topology.now out.now self.old self.new) }
    {
        match out.first() {
            Some(request) => {
                self.last = Some(request.copy()?);
                Ok(Sent::Request(request.copy()?))
            }
            None => Ok(Sent::Nothing),
        }
    }

    /// Keeps its own request, which the provider took at a place.
    pub(crate) fn keep_request(
        &mut self,
        topology: &Topology,
        place: u64,
        request: &Message,
    ) -> Result<(), AllocError>
        requires is { IsAsker topology.now self.old }
        requires printable { IsPrintable request.now }
        ensures kept { OnOk result (self.new ≡ record self.old {
          kept = self.old.kept
              ++ item place (entered self.old.call.provider (got self.old.call.second request.now)) ∷ [];
        }) }
        ensures is { OnOk result (IsAsker topology.now self.new) }
    {
        push_got(
            &mut self.kept,
            place,
            self.call.provider,
            self.call.second,
            request,
        )?;
        Ok(())
    }

    /// Takes a message. Whether it can.
    pub(crate) fn hear(
        &mut self,
        alloc: Global,
        topology: &Topology,
        place: u64,
        message: Message,
    ) -> Result<bool, AllocError>
        requires is { IsAsker topology.now self.old }
        requires printable { IsPrintable message }
        ensures heard { IfOk result (HasHeard topology.now self.old self.new) }
        ensures these { HasRoomFor 1 self.old →
            IfOk result (HasHeardThese place (message ∷ []) self.old self.new) }
    {
        if self.requester.taken() >= MOST_ENTRIES {
            return Ok(let_go(message));
        }
        let entry = Entry {
            second: self.requester.now(),
            input: Input::Got(message),
        };
        let _said = self.take(alloc, topology, &entry)?;
        self.keep_entry(place, entry)?;
        Ok(true)
    }

    /// Keeps an entry that its requester took.
    fn keep_entry(&mut self, place: u64, entry: Entry) -> Result<(), AllocError>
        ensures { OnOk result (self.new ≡ record self.old {
          kept = self.old.kept ++ item place (entered self.old.call.agent entry) ∷ [];
        }) }
    {
        let what = Happening::Entry {
            entry,
            answer: None,
        };
        let event = Event {
            agent: self.call.agent,
            what,
        };
        let item = Item { place, event };
        self.kept.push(item)?;
        Ok(())
    }

    /// Takes messages, one after another. Whether it can.
    pub(crate) fn hear_all(
        &mut self,
        alloc: Global,
        topology: &Topology,
        place: u64,
        messages: Vec<Message>,
    ) -> Result<bool, AllocError>
        requires is { IsAsker topology.now self.old }
        requires printable { All IsPrintable messages.items }
        ensures heard { IfOk result (HasHeard topology.now self.old self.new) }
        ensures these { HasRoomFor (length messages.items) self.old →
            IfOk result (HasHeardThese place messages.items self.old self.new) }
    {
        for message in messages {
            let on = self.hear(alloc, topology, place, message)?;
            if !on {
                return Ok(false);
            }
        }
        Ok(true)
    }

    /// Keeps what the provider did. Whether it was work.
    pub(crate) fn keep_work(
        &mut self,
        topology: &Topology,
        place: u64,
        event: Event,
    ) -> Result<bool, AllocError>
        requires is { IsAsker topology.now self.old }
        ensures heard { IfOk result (HasHeard topology.now self.old self.new) }
        ensures work { is_work_by self.old.call.provider event ≡ true →
            IfOk result (λ on. on ≡ true) }
        ensures kept { IfOk result (λ on. on ≡ true → self.new ≡ record self.old {
          kept = self.old.kept ++ item place event ∷ [];
        }) }
    {
        let is_work = is_work_by(self.call.provider, &event);
        if !is_work {
            return Ok(false);
        }
        self.kept.push(Item { place, event })?;
        Ok(true)
    }

    /// What it hands over where it ends early: beside what it kept, its last request at a place of no history.
    pub(crate) fn end(&mut self, topology: &Topology) -> Result<(), AllocError>
        requires is { IsAsker topology.now self.old }
        ensures ended { OnOk result (HasEnd self.new.kept) }
        ensures stand { OnOk result (AllStand topology.now self.new.kept) }
    {
        let provider = self.call.provider;
        let second = self.call.second;
        match &self.last {
            Some(request) => push_got(&mut self.kept, NO_PLACE, provider, second, request),
            None => push_tick(&mut self.kept, NO_PLACE, provider, second),
        }
    }
}
