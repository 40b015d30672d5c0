//! One agent of a net, with its journal and its ends of the links.

ghost use Rattle.std.specs.Prelude.{◌≡◌, ◌≤◌, ◌<◌, ◌+◌, ◌++◌, ◌⊎◌, ℕ, List, [], None, Some, true, IfOk, IfErr, OnOk, OnErr, is_some};
ghost use Rattle.std.specs.List.{All};
ghost use Rattle.nsi_disk.specs.ShelfCounts.{RaisedFrom};
ghost use Rattle.nsi_primitive.specs.Printable.{IsPrintableAsk, IsPrintableEvent};
ghost use Rattle.nsi_primitive.specs.declared.entry.Input.{Input};
ghost use Rattle.stp_topology.specs.Network.{name_of};
ghost use Rattle.journal_entry.specs.Journal.{MayLeaveSynced};
ghost use Rattle.agent_state.specs.Entries.{most_entries};
ghost use Rattle.requester_agent.specs.Setting.{IsRequester};
ghost use Rattle.nsi_agent.specs.Steps.{after};
ghost use Rattle.agent_node.specs.Seat.{now_at};
ghost use Rattle.agent_node.specs.Acts.{asked, forced, ticked, is_quiet};
ghost use Rattle.agent_node.specs.Meetings.{met};
ghost use Rattle.agent_node.specs.Passing.{HasMet};
ghost use Rattle.agent_node.specs.declared.fault.TurnFault.{TurnFault as AFault};
ghost use Rattle.agent_node.specs.Kept.{plug, AreLinked, IsSameAgent, HasSameJournal, LeavesBatch, fault_in, lack_of};
ghost use Rattle.agent_node.specs.Made.{AtHome, IsTurn};
ghost use Rattle.agent_node.specs.Reopening.{HasReopenCause, IsReread, IsReopened};

use crate::fault::TurnFault;
use crate::reopen::{Reopen, ReopenFault};
use crate::restart::read_again;
use crate::seated::Core;
use crate::turn::{fault_of, make_turn};
use journal_entry::Journal;
use nsi_base::{AgentNo, RecordNo, Second};
use nsi_primitive::{Ask, AskAnswer};
use std::alloc::{AllocError, Global};
use std::marker::Model;
use trace_text::SpelledEvent;

/// An agent with its journal and its ends of the links to others. It takes what comes to it, keeps what it took in its journal, and
/// says only then what that causes. Where a call of it has failed, it is only good for giving its disk back; where its disk has
/// stopped, it still meets others, and may be restarted.
#[derive(Drop)]
pub struct Node<'t, J: Journal + Drop> {
    /// In a box, since agents are moved where each two meet.
    pub(crate) core: Box<Core<'t>>,
    pub(crate) journal: J,
    pub(crate) fault: Option<TurnFault>,
}

impl<'t, J: Journal + Drop> Model for Node<'t, J> {
    ghost use Rattle.std.specs.Prelude.{box_value};
    ghost use Rattle.agent_node.specs.Kept.{Kept, IsHeld};

    ghost Value = { Kept };

    ghost view = { λ n. record {
      network = (box_value n.core).network;
      seat = (box_value n.core).seat;
      plugs = (box_value n.core).plugs;
      fault = n.fault;
      meter = J.meter n.journal;
      kept = J.kept n.journal;
    } };

    ghost invariant = { λ n.
        IsHeld J.reading (J.is_ready n.journal) (J.waits n.journal) (J.kept n.journal)
        (J.history n.journal) (box_value n.core).seat n.fault };
}

impl<'t, J: Journal + Drop> Node<'t, J> {
    /// The number of its agent.
    pub fn number(&self) -> AgentNo
        ensures { result ≡ self.now.seat.number }
    {
        self.core.number()
    }

    /// The second of its clock.
    pub fn now(&self) -> Second
        ensures { result ≡ self.now.seat.state.base.now }
    {
        self.core.now()
    }

    /// How many entries it has taken.
    pub fn taken(&self) -> u64
        ensures { result ≡ self.now.seat.state.base.taken }
    {
        self.core.taken()
    }

    /// Why it can't be used any more, where a call of it has failed.
    pub fn fault(&self) -> Option<TurnFault>
        ensures { result ≡ self.now.fault }
    {
        self.fault
    }

    /// An ask of its user, which has this number in the run. Its agent is a requester.
    pub fn ask(&mut self, alloc: Global, number: u32, ask: Ask) -> Result<AskAnswer, AllocError>
        requires usable { self.old.fault ≡ None }
        requires few { self.old.seat.state.base.taken < most_entries }
        requires requester { IsRequester self.old.network self.old.seat.number }
        requires printable { IsPrintableAsk ask }
        ensures ok { AtHome self.old
            (λ h. OnOk result (self.new.seat ≡ asked h number ask self.old.seat)) }
        ensures answer { AtHome self.old (λ h. IfOk result (λ answer. let s = self.old.seat in
            (after h s.state (now_at s (Input.Ask number ask))).answer ≡ Some answer)) }
        ensures fault { self.new.fault ≡ lack_of result }
        ensures same { IsSameAgent self.old self.new }
        ensures plugs { self.new.plugs ≡ self.old.plugs }
        ensures journal { HasSameJournal self.old self.new }
    {
        let answer = self.core.ask(alloc, number, ask);
        self.fault = lack_of(&answer);
        answer
    }

    /// Ends a connection of a provider by force.
    pub fn force(&mut self, alloc: Global, number: RecordNo) -> Result<(), AllocError>
        requires usable { self.old.fault ≡ None }
        requires few { self.old.seat.state.base.taken < most_entries }
        ensures ok { AtHome self.old
            (λ h. OnOk result (self.new.seat ≡ forced h number self.old.seat)) }
        ensures fault { self.new.fault ≡ lack_of result }
        ensures same { IsSameAgent self.old self.new }
        ensures plugs { self.new.plugs ≡ self.old.plugs }
        ensures journal { HasSameJournal self.old self.new }
    {
        let made = self.core.force(alloc, number);
        self.fault = lack_of(&made);
        made
    }

    /// Its clock goes on. What a synced entry caused and isn't acknowledged is queued again, where it isn't queued.
    pub fn tick(&mut self, alloc: Global, to: Second) -> Result<(), AllocError>
        requires usable { self.old.fault ≡ None }
        requires few { self.old.seat.state.base.taken < most_entries }
        requires later { self.old.seat.state.base.now ≤ to }
        ensures ok { AtHome self.old
            (λ h. OnOk result (self.new.seat ≡ ticked h to self.old.seat)) }
        ensures fault { self.new.fault ≡ lack_of result }
        ensures same { IsSameAgent self.old self.new }
        ensures plugs { self.new.plugs ≡ self.old.plugs }
        ensures journal { HasSameJournal self.old self.new }
    {
        let made = self.core.tick(alloc, to);
        self.fault = lack_of(&made);
        made
    }

    /// Begins a round.
    pub fn begin_round(&mut self)
        requires met { All HasMet self.old.seat.doors }
        ensures { self.new ≡ self.old }
    {
        self.core.begin_round();
    }

    /// A turn: it takes what came, does its work, syncs, and pushes.
    pub fn turn(&mut self, alloc: Global, room: u64) -> Result<(), TurnFault>
        requires usable { self.old.fault ≡ None }
        requires few { self.old.seat.state.base.taken + room ≤ most_entries }
        ensures made { IsTurn room self.old self.new }
        ensures fault { self.new.fault ≡ fault_in result }
    {
        let made = make_turn(alloc, &mut self.core, &mut self.journal, room);
        self.fault = fault_of(&made);
        made
    }

    /// A turn that answers nothing: its fault is kept.
    pub fn take_turn(&mut self, alloc: Global, room: u64)
        requires usable { self.old.fault ≡ None }
        requires few { self.old.seat.state.base.taken + room ≤ most_entries }
        ensures { IsTurn room self.old self.new }
    {
        let _ = self.turn(alloc, room);
    }

    /// Puts the events since the last call behind others. At an error none is moved.
    pub fn move_events(&mut self, others: &mut Vec<SpelledEvent>) -> Result<(), AllocError>
        requires { All IsPrintableEvent others.old.items }
        ensures events { OnOk result
            (others.new.items ≡ others.old.items ++ self.old.seat.events) }
        ensures printable { OnOk result (All IsPrintableEvent others.new.items) }
        ensures rest { OnOk result
            (self.new ≡ record self.old { seat = record self.old.seat { events = [] } }) }
        ensures same { OnErr result (self.new ≡ self.old) }
    {
        self.core.move_events(others)
    }

    /// Whether nothing is unsynced, no work waits, nothing is to be pushed and nothing came.
    pub fn quiet(&self) -> bool
        ensures { AtHome self.now (λ h. result ≡ is_quiet h self.now.seat) }
    {
        self.core.quiet()
    }

    /// What each of two agents let through to the other one since they met has come there. It takes no memory.
    pub fn meet(&mut self, other: &mut Node<'t, J>)
        requires linked { AreLinked self.old other.old }
        ensures seat { self.new.seat ≡ met other.old.seat self.old.seat }
        ensures other_seat { other.new.seat ≡ met self.old.seat other.old.seat }
        ensures linked { AreLinked self.new other.new }
        ensures here { (m : ℕ) → (m ≡ other.old.seat.number → ⊥) →
            plug self.new m ≡ plug self.old m }
        ensures there { (m : ℕ) → (m ≡ self.old.seat.number → ⊥) →
            plug other.new m ≡ plug other.old m }
        ensures same { IsSameAgent self.old self.new }
        ensures other_same { IsSameAgent other.old other.new }
        ensures fault { self.new.fault ≡ self.old.fault }
        ensures other_fault { other.new.fault ≡ other.old.fault }
        ensures journal { HasSameJournal self.old self.new }
        ensures other_journal { HasSameJournal other.old other.new }
    {
        self.core.meet(&mut other.core);
    }

    /// The agent after a crash now, or after that at which its disk has stopped, as its journal has it. What it has caused and isn't
    /// acknowledged is queued, and nothing else is; what came lies there still.
    pub fn restart<B: Reopen<J>>(
        self,
        alloc: Global,
        shelf: &mut B,
    ) -> Result<Node<'t, J>, ReopenFault>
        requires usable { (self.fault ≡ None) ⊎ (self.fault ≡ Some AFault.Stopped) }
        requires listed { B.listed shelf.old (name_of self.network self.seat.number) ≡ true }
        ensures made { self.entry.fault ≡ None → IfOk result (IsReread self.entry) }
        ensures reopened { self.entry.fault ≡ Some AFault.Stopped →
            IfOk result (IsReopened self.entry) }
        ensures same_faults { OnOk result (B.faults shelf.new ≡ B.faults shelf.old) }
        ensures same_stops { OnOk result (B.stops shelf.new ≡ B.stops shelf.old) }
        ensures cause { IfErr result (HasReopenCause (B.faults shelf.old) (B.faults shelf.new)
            (λ place. self.entry.kept ≡ None)) }
        ensures faults { B.faults shelf.old ≤ B.faults shelf.new }
        ensures stops { B.stops shelf.old ≤ B.stops shelf.new }
        ensures lost { OnErr result
            (RaisedFrom (B.stops shelf.old) self.entry.meter.stops (B.stops shelf.new)) }
        ensures stays { (n : List ℕ) →
            B.listed shelf.old n ≡ true → B.listed shelf.new n ≡ true }
    {
        let Node {
            core,
            journal,
            fault: _,
        } = self;
        let mut core = core;
        match read_again(alloc, &mut core, journal, shelf) {
            Ok(journal) => Ok(Node {
                core,
                journal,
                fault: None,
            }),
            Err(fault) => {
                let_go(core);
                Err(fault)
            }
        }
    }

    /// Its journal.
    pub fn into_journal(self) -> J
        ensures meter { J.meter result ≡ self.entry.meter }
        ensures kept { J.kept result ≡ self.entry.kept }
        ensures left { self.entry.fault ≡ None →
            MayLeaveSynced J.reading self.entry.kept (J.history result) }
        ensures halted { self.entry.fault ≡ Some AFault.Stopped →
            LeavesBatch J.reading self.entry.seat self.entry.kept (J.history result) }
        ensures tells { is_some self.entry.kept ≡ is_some (J.history result) }
    {
        let Node {
            core,
            journal,
            fault: _,
        } = self;
        let_go(core);
        journal
    }
}

/// Why a call that fails only for want of memory has failed.
fn lack_of<T>(made: &Result<T, AllocError>) -> Option<TurnFault>
    ensures { result ≡ lack_of made.now }
{
    match made {
        Ok(_) => None,
        Err(_) => Some(TurnFault::NoMemory),
    }
}

fn let_go(core: Box<Core<'_>>) {
    drop(core);
}
