//! An agent and its ends of the links, without its journal.

ghost use Rattle.std.specs.Prelude.{◌≡◌, ◌≤◌, ◌<◌, ◌+◌, ◌++◌, ◌↔◌, ℕ, [], None, Some, true, false, length, IfOk, OnOk, OnErr, IsSome, IsTrue};
ghost use Rattle.std.specs.List.{All};
ghost use Rattle.nsi_primitive.specs.Printable.{IsPrintable, IsPrintableAsk, IsPrintableEntry, IsPrintableEvent, IsPrintableInput, IsPrintableParcel, IsPrintableTaken, is_ask};
ghost use Rattle.nsi_primitive.specs.declared.entry.Input.{Input as AnInput};
ghost use Rattle.stp_topology.specs.Network.{kind_of, name_of};
ghost use Rattle.agent_state.specs.Entries.{most_entries};
ghost use Rattle.requester_agent.specs.Setting.{IsRequester};
ghost use Rattle.nsi_agent.specs.Homes.{Routes, home_in};
ghost use Rattle.nsi_agent.specs.Steps.{after, is_new, may_take};
ghost use Rattle.agent_node.specs.Passing.{HasMet, IsPrintableCome, lying, plug_to, crossed};
ghost use Rattle.agent_node.specs.Seat.{enters, enters_if, enters_now, enters_with, now_at};
ghost use Rattle.agent_node.specs.Turns.{cleared, takes, takes_all, worked, syncs, pushed};
ghost use Rattle.agent_node.specs.Acts.{asked, forced, ticked, overdue, is_overdue, is_quiet};
ghost use Rattle.agent_node.specs.Meetings.{met};
ghost use Rattle.agent_node.specs.Restarts.{reads, begun_again, tells_restart};
ghost use Rattle.agent_node.specs.Kept.{fault_in};
ghost use Rattle.agent_node.specs.Seated.{AtSeat, IsSameCore, Stays, Goes, IsSameSeat, entry_at, is_for, is_tick, stepped};

use crate::fault::TurnFault;
use crate::links::Links;
use crate::lists::{Events, Messages};
use crate::reading::{copy_waiting, read_all, renew};
use journal_entry::Batch;
use nsi_agent::Agent;
use nsi_agent::laws::works;
use nsi_base::{AgentNo, Name, RecordNo, Second};
use nsi_primitive::{Ask, AskAnswer, Entry, Input, Message, Parcel};
use std::alloc::{AllocError, Global};
use std::marker::Model;
use stp_topology::Topology;
use trace_text::SpelledEvent;

#[derive(Drop)]
pub struct Core<'t> {
    topology: &'t Topology,
    agent: Agent<'t>,
    /// How many entries are synced.
    synced: u64,
    fresh: Batch,
    unsaid: Messages,
    events: Events,
    links: Links,
}

impl<'t> Model for Core<'t> {
    ghost use Rattle.std.specs.Prelude.{◌≡◌, None};
    ghost use Rattle.agent_node.specs.Seated.{Seated};

    ghost Value = { Seated };

    ghost view = { λ c. record {
      network = c.agent.network;
      seat = record {
        number = c.agent.number;
        state = c.agent.state;
        past = None;
        synced = c.synced;
        fresh = c.fresh;
        unsaid = c.unsaid;
        events = c.events;
        doors = c.links.doors;
      };
      plugs = c.links.plugs;
    } };

    ghost invariant = { λ c. c.topology.now ≡ c.agent.network };
}

impl<'t> Core<'t> {
    /// An agent that has taken nothing, and has no links yet.
    pub fn new(alloc: Global, topology: &'t Topology, agent: Agent<'t>) -> Core<'t>
        requires { topology.now ≡ agent.network }
        ensures network { result.network ≡ agent.entry.network }
        ensures seat { result.seat ≡ record {
          number = agent.entry.number;
          state = agent.entry.state;
          past = None;
          synced = 0;
          fresh = [];
          unsaid = [];
          events = [];
          doors = [];
        } }
        ensures plugs { result.plugs ≡ [] }
    {
        Core {
            topology,
            agent,
            synced: 0,
            fresh: Batch::new(alloc),
            unsaid: Messages::new(alloc),
            events: Events::new(alloc),
            links: Links::from_items(Vec::new(alloc)),
        }
    }

    /// Gives it its links.
    pub fn set_links(&mut self, links: Links)
        ensures network { self.new.network ≡ self.old.network }
        ensures seat { self.new.seat ≡ record self.old.seat { doors = links.doors } }
        ensures plugs { self.new.plugs ≡ links.plugs }
    {
        self.links = links;
    }

    pub fn number(&self) -> AgentNo
        ensures { result ≡ self.now.seat.number }
    {
        self.agent.number()
    }

    pub fn now(&self) -> Second
        ensures { result ≡ self.now.seat.state.base.now }
    {
        self.agent.now()
    }

    pub fn taken(&self) -> u64
        ensures { result ≡ self.now.seat.state.base.taken }
    {
        self.agent.taken()
    }

    /// Its name in the topology.
    pub fn name(&self) -> &'t Name
        ensures { result.now ≡ name_of self.now.network self.now.seat.number }
    {
        self.agent.facts();
        self.topology.name(self.agent.number())
    }

    /// Entries that aren't synced.
    pub fn fresh(&self) -> &Batch
        ensures { result.now ≡ self.now.seat.fresh }
    {
        &self.fresh
    }

    /// Takes an entry, which is an event.
    fn enter(
        &mut self,
        alloc: Global,
        second: Second,
        input: Input,
    ) -> Result<Option<AskAnswer>, AllocError>
        requires may_take { let kind = kind_of self.old.network self.old.seat.number in
            may_take kind self.old.seat.state (entry_at second input) ≡ true }
        requires printable { IsPrintableInput input }
        ensures ok { AtSeat self.old (λ h.
            OnOk result (self.new.seat ≡ enters h (entry_at second input) self.old.seat)) }
        ensures answer { AtSeat self.old (λ h. IfOk result
            (λ a. a ≡ (after h self.old.seat.state (entry_at second input)).answer)) }
        ensures answered { IfOk result (λ a. IsTrue (is_ask input) ↔ IsSome a) }
        ensures taken { let before = self.old.seat.state.base.taken in
            OnOk result (self.new.seat.state.base.taken ≡ before + 1) }
        ensures events { OnOk result
            (length self.new.seat.events ≡ length self.old.seat.events + 1) }
        ensures stays { Stays self.old self.new }
    {
        let entry = Entry { second, input };
        let (answer, said) = self.agent.next(alloc, &entry)?;
        self.note(alloc, entry, &answer, said)?;
        Ok(answer)
    }

    /// An entry that was taken is an event. What it causes isn't said yet.
    fn note(
        &mut self,
        alloc: Global,
        entry: Entry,
        answer: &Option<AskAnswer>,
        said: Vec<Message>,
    ) -> Result<(), AllocError>
        requires taken { IsPrintableTaken entry answer.now }
        requires said { All IsPrintable said.items }
        ensures ok { OnOk result (self.new.seat ≡
            enters_with entry (stepped self.old.seat.state said.items answer.now) self.old.seat) }
        ensures stays { Stays self.old self.new }
        ensures doors { self.new.seat.doors ≡ self.old.seat.doors }
    {
        let agent = self.agent.number();
        let line = self.fresh.push(alloc, &entry)?;
        self.events.push_entry(agent, entry, answer, line)?;
        self.unsaid.append(said)
    }

    /// The same now, where there is room for an event.
    fn enter_now(&mut self, alloc: Global, input: Input, room: &mut u64) -> Result<(), TurnFault>
        requires few { self.old.seat.state.base.taken + room.old ≤ most_entries }
        requires kind { is_for (kind_of self.old.network self.old.seat.number) input ≡ true }
        requires now { is_tick input ≡ false }
        requires printable { IsPrintableInput input }
        ensures goes { Goes (λ h s. enters_now h input s) room.old room.new
            self.old self.new (fault_in result) }
        ensures one { OnOk result (room.new + 1 ≡ room.old) }
    {
        if *room == 0 {
            drop(input);
            return Err(TurnFault::Long);
        }
        let now = self.agent.now();
        self.enter(alloc, now, input)?;
        *room -= 1;
        Ok(())
    }

    /// The same, where it is due.
    fn enter_if(
        &mut self,
        alloc: Global,
        is_due: bool,
        input: Input,
        room: &mut u64,
    ) -> Result<(), TurnFault>
        requires few { self.old.seat.state.base.taken + room.old ≤ most_entries }
        requires kind { IsTrue is_due →
            is_for (kind_of self.old.network self.old.seat.number) input ≡ true }
        requires now { is_tick input ≡ false }
        requires printable { IsPrintableInput input }
        ensures goes { Goes (λ h s. enters_if is_due h input s) room.old room.new
            self.old self.new (fault_in result) }
    {
        if is_due {
            self.enter_now(alloc, input, room)
        } else {
            drop(input);
            Ok(())
        }
    }

    /// Whether a message makes an entry.
    fn is_new(&self, message: &Message) -> bool
        ensures { (routes : Routes) →
            let h = home_in self.now.network routes self.now.seat.number in
            result ≡ is_new h self.now.seat.state message.now }
    {
        self.agent.is_new(message)
    }

    /// Takes a parcel that came from that agent.
    fn take(
        &mut self,
        alloc: Global,
        from: AgentNo,
        parcel: Parcel,
        room: &mut u64,
    ) -> Result<(), TurnFault>
        requires few { self.old.seat.state.base.taken + room.old ≤ most_entries }
        requires printable { IsPrintableParcel parcel }
        ensures goes { Goes (λ h s. takes h from parcel s) room.old room.new
            self.old self.new (fault_in result) }
    {
        match parcel {
            Parcel::Message(message) => {
                let identity = message.identity()?;
                let is_new = self.is_new(&message);
                self.enter_if(alloc, is_new, Input::Got(message), room)?;
                self.links.queue(from, Parcel::Ack(identity))?;
                Ok(())
            }
            Parcel::Ack(identity) => {
                let waits = self.agent.waits(&identity);
                self.enter_if(alloc, waits, Input::Acked(identity), room)
            }
        }
    }

    /// Takes parcels, one after another.
    pub fn take_all(
        &mut self,
        alloc: Global,
        parcels: Vec<(AgentNo, Parcel)>,
        room: &mut u64,
    ) -> Result<(), TurnFault>
        requires few { self.old.seat.state.base.taken + room.old ≤ most_entries }
        requires printable { All IsPrintableCome parcels.items }
        ensures goes { Goes (λ h s. takes_all h parcels.items s) room.old room.new
            self.old self.new (fault_in result) }
    {
        for (from, parcel) in parcels {
            self.take(alloc, from, parcel, room)?;
        }
        Ok(())
    }

    /// Does all work that waits.
    pub fn work(&mut self, alloc: Global, room: &mut u64) -> Result<(), TurnFault>
        requires few { self.old.seat.state.base.taken + room.old ≤ most_entries }
        ensures goes { Goes worked room.old room.new self.old self.new (fault_in result) }
    {
        works();
        while let Some(work) = self.agent.first_work() {
            self.agent.facts();
            let input = Input::Work {
                number: work.0,
                machine: work.1,
            };
            self.enter_now(alloc, input, room)?;
        }
        Ok(())
    }

    /// All is synced: it is told, and what it causes is queued.
    pub fn tell_sync(&mut self) -> Result<(), AllocError>
        ensures ok { AtSeat self.old (λ h. OnOk result (self.new.seat ≡ syncs h self.old.seat)) }
        ensures synced { let s = self.old.seat in
            OnOk result (self.new.seat.synced ≡ s.synced + length s.fresh) }
        ensures same { IsSameCore self.old self.new }
    {
        let fresh = self.fresh.len() as u64;
        let Some(count) = self.synced.checked_add(fresh) else {
            return Err(AllocError);
        };
        let agent = self.agent.number();
        self.events.push_sync(agent, count)?;
        let said = self.unsaid.take_all();
        self.links.say_all(self.topology, said)?;
        self.fresh.clear();
        self.synced = count;
        Ok(())
    }

    /// It has read these entries, behind so many tries at which its disk stopped. They are all that it has taken; what they cause and
    /// isn't acknowledged is queued.
    pub fn read_again(
        &mut self,
        alloc: Global,
        entries: &[Entry],
        tries: u64,
    ) -> Result<(), AllocError>
        requires { All IsPrintableEntry entries.now }
        ensures ok { AtSeat self.old
            (λ h. OnOk result (self.new.seat ≡ reads h tries entries.now self.old.seat)) }
        ensures synced { OnOk result (self.new.seat.synced ≡ length entries.now) }
        ensures same { IsSameCore self.old self.new }
    {
        self.agent.facts();
        let agent = read_all(alloc, self.topology, self.agent.number(), entries)?;
        self.begin_again(agent, entries.len() as u64);
        let waiting = copy_waiting(alloc, &self.agent)?;
        self.tell_restart(waiting, tries)?;
        Ok(())
    }

    /// The same agent in another state, so many of whose entries are synced. Nothing more is fresh, unsaid or queued.
    fn begin_again(&mut self, agent: Agent<'t>, count: u64)
        requires network { agent.network ≡ self.old.network }
        requires number { agent.number ≡ self.old.seat.number }
        ensures seat { self.new.seat ≡ begun_again agent.entry.state count self.old.seat }
        ensures same { IsSameCore self.old self.new }
    {
        renew(&mut self.agent, agent);
        self.synced = count;
        self.fresh.clear();
        self.unsaid.clear();
        self.links.drop_queues();
    }

    /// That it has begun again is told, as often as it was tried, and these messages are queued.
    fn tell_restart(&mut self, waiting: Vec<Message>, tries: u64) -> Result<(), AllocError>
        requires { All IsPrintable waiting.items }
        ensures ok { AtSeat self.old
            (λ h. OnOk result
            (self.new.seat ≡ tells_restart h waiting.items tries self.old.seat)) }
        ensures stays { Stays self.old self.new }
    {
        let agent = self.agent.number();
        self.events.push_restarts(agent, self.synced, tries)?;
        self.links.say_all(self.topology, waiting)?;
        Ok(())
    }

    /// Pushes the fronts of its queues.
    pub fn push(&mut self, alloc: Global) -> Result<(), AllocError>
        ensures ok { OnOk result (self.new.seat ≡ pushed self.old.seat) }
        ensures stays { Stays self.old self.new }
    {
        self.links.push_all(alloc)
    }

    /// What came, each parcel with its sender. It doesn't lie there any more.
    pub fn gather(&mut self, alloc: Global) -> Result<Vec<(AgentNo, Parcel)>, AllocError>
        ensures all { IfOk result (λ xs. xs.items ≡ lying self.old.seat.doors) }
        ensures printable { IfOk result (λ xs. All IsPrintableCome xs.items) }
        ensures ok { OnOk result (self.new.seat ≡ cleared self.old.seat) }
        ensures stays { Stays self.old self.new }
    {
        self.links.gather(alloc)
    }

    /// An ask of its user.
    pub fn ask(&mut self, alloc: Global, number: u32, ask: Ask) -> Result<AskAnswer, AllocError>
        requires few { self.old.seat.state.base.taken < most_entries }
        requires requester { IsRequester self.old.network self.old.seat.number }
        requires printable { IsPrintableAsk ask }
        ensures ok { AtSeat self.old
            (λ h. OnOk result (self.new.seat ≡ asked h number ask self.old.seat)) }
        ensures answer { AtSeat self.old (λ h. IfOk result (λ answer. let s = self.old.seat in
            (after h s.state (now_at s (AnInput.Ask number ask))).answer ≡ Some answer)) }
        ensures stays { Stays self.old self.new }
    {
        let now = self.agent.now();
        match self.enter(alloc, now, Input::Ask { number, ask })? {
            Some(answer) => Ok(answer),
            None => unreachable!(),
        }
    }

    /// The connection of a record is ended by force.
    pub fn force(&mut self, alloc: Global, number: RecordNo) -> Result<(), AllocError>
        requires few { self.old.seat.state.base.taken < most_entries }
        ensures ok { AtSeat self.old
            (λ h. OnOk result (self.new.seat ≡ forced h number self.old.seat)) }
        ensures stays { Stays self.old self.new }
    {
        let now = self.agent.now();
        self.enter(alloc, now, Input::Force { number })?;
        Ok(())
    }

    /// Its clock goes on, and what is overdue is queued again.
    pub fn tick(&mut self, alloc: Global, to: Second) -> Result<(), AllocError>
        requires few { self.old.seat.state.base.taken < most_entries }
        requires later { self.old.seat.state.base.now ≤ to }
        ensures ok { AtSeat self.old
            (λ h. OnOk result (self.new.seat ≡ ticked h to self.old.seat)) }
        ensures stays { Stays self.old self.new }
    {
        let again = self.overdue(alloc)?;
        self.enter(alloc, to, Input::Tick)?;
        self.links.say_all(self.topology, again)?;
        Ok(())
    }

    /// What was said and isn't acknowledged, and isn't queued.
    fn overdue(&self, alloc: Global) -> Result<Vec<Message>, AllocError>
        ensures overdue { IfOk result (λ again. again.items ≡ overdue self.now.seat) }
        ensures printable { IfOk result (λ again. All IsPrintable again.items) }
    {
        self.agent.facts();
        let mut again = Vec::new(alloc);
        for message in self.agent.waiting() {
            if self.is_overdue(message)? {
                again.push(message.copy()?)?;
            }
        }
        Ok(again)
    }

    /// Whether a message was said and isn't queued.
    fn is_overdue(&self, message: &Message) -> Result<bool, AllocError>
        ensures { let s = self.now.seat in
            IfOk result (λ b. b ≡ is_overdue s.unsaid s.doors message.now) }
    {
        let identity = message.identity()?;
        Ok(!self.unsaid.has(&identity) && !self.links.has_queued(&identity))
    }

    /// Whether nothing is unsynced, no work waits, nothing is to be pushed and nothing came.
    #[tactic(auto, unfolding(crate::specs::Acts::is_quiet))]
    pub fn quiet(&self) -> bool
        ensures { AtSeat self.now (λ h. result ≡ is_quiet h self.now.seat) }
    {
        self.fresh.len() == 0 && self.agent.first_work().is_none() && self.links.is_idle()
    }

    pub fn begin_round(&mut self)
        requires { All HasMet self.old.seat.doors }
        ensures { self.new ≡ self.old }
    {
        self.links.begin_round();
    }

    /// Puts the events since the last call behind others.
    pub fn move_events(&mut self, others: &mut Vec<SpelledEvent>) -> Result<(), AllocError>
        requires { All IsPrintableEvent others.old.items }
        ensures events { OnOk result
            (others.new.items ≡ others.old.items ++ self.old.seat.events) }
        ensures printable { OnOk result (All IsPrintableEvent others.new.items) }
        ensures rest { OnOk result
            (self.new ≡ record self.old { seat = record self.old.seat { events = [] } }) }
        ensures same { OnErr result (self.new ≡ self.old) }
    {
        self.events.move_to(others)
    }

    /// Each learns what the other one let through to it.
    #[tactic(auto, unfolding(crate::specs::Meetings::met), using(crate::proofs::Joints::others_learnt))]
    pub fn meet(&mut self, other: &mut Core<'t>)
        requires { plug_to other.old.seat.number self.old.plugs
            ≡ crossed (plug_to self.old.seat.number other.old.plugs) }
        ensures seat { self.new.seat ≡ met other.old.seat self.old.seat }
        ensures other_seat { other.new.seat ≡ met self.old.seat other.old.seat }
        ensures here_same { IsSameSeat self.old self.new }
        ensures there_same { IsSameSeat other.old other.new }
        ensures linked { plug_to other.old.seat.number self.new.plugs
            ≡ crossed (plug_to self.old.seat.number other.new.plugs) }
        ensures here { (m : ℕ) → (m ≡ other.old.seat.number → ⊥) →
            plug_to m self.new.plugs ≡ plug_to m self.old.plugs }
        ensures there { (m : ℕ) → (m ≡ self.old.seat.number → ⊥) →
            plug_to m other.new.plugs ≡ plug_to m other.old.plugs }
    {
        let number = self.agent.number();
        let other_number = other.agent.number();
        self.links.meet(number, &mut other.links, other_number);
    }
}
