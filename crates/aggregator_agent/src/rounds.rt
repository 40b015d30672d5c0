//! An entry at the connections of which it makes something, one after another.

ghost use Rattle.std.specs.Prelude.{◌≡◌, ◌≢◌, ◌<◌, ◌⊎◌, ◌↔◌, ◌++◌, length, option_to_list, Contains, IfOk, OnOk, OnErr};
ghost use Rattle.std.specs.Prelude.{List as Sequence};
ghost use Rattle.record_index.specs.declared.deadlines.Deadline.{Deadline as DeadlineValue};
ghost use Rattle.aggregator_agent.specs.declared.keeping.Kept.{Kept as KeptValue};
ghost use Rattle.aggregator_agent.specs.Bonds.{Bond as BondValue};
ghost use Rattle.aggregator_agent.specs.Bonds.{bond, bonds, bond_at, answered, clocked_bond, each_bond, done_by, IsDone, IsDoneAt};
ghost use Rattle.aggregator_agent.specs.Indexed.{Grows, IsNamedAgain, IsNamedAgainAt, AreFound};
ghost use Rattle.aggregator_agent.specs.Step.{IsStored, IsEntered};
ghost use Rattle.aggregator_agent.specs.Undo.{CanUndo};
ghost use Rattle.aggregator_agent.specs.Rounds.{IsBegun, AreTouched};
ghost use Rattle.connection_record.specs.Later.{IsLater};

use crate::clock::Clocking;
use crate::connection::Connection;
use crate::connection_index::ConnectionIndex;
use crate::entering::Entering;
use crate::find::number_of;
use crate::keeping::{Kept, go_back};
use crate::outbox::Outbox;
use crate::said::Said;
use nsi_base::RecordNo;
use nsi_primitive::Message;
use record_index::Deadlines;
use std::alloc::{AllocError, Global};

/// The number of the next id, and what is answered behind all else.
#[derive(Drop)]
pub struct Begun {
    pub next: u64,
    pub answer: Option<Message>,
}

/// A message on its way, and what is answered behind all that it causes.
#[derive(Drop)]
struct Hearing<'a> {
    entering: &'a Entering<'a>,
    answer: Option<Message>,
}

/// What those connections were that are done, and what is said.
#[derive(Drop)]
pub struct Round {
    pub kept: Vec<Kept>,
    pub said: Said,
}

/// The connections at the places hear a message of a child. Where memory is wanting, none has heard it.
pub fn hear_all(
    connections: &mut Vec<Connection>,
    index: &mut ConnectionIndex,
    places: &[usize],
    outbox: &mut Outbox,
    entering: &Entering<'_>,
    begun: Begun,
) -> Result<Said, AllocError>
    requires touched { let e = entering.now in
        let does = answered e.agent.now e.second e.message.now in
        AreTouched does (bonds connections.old.items) places.now }
    requires found { AreFound index.old (bonds connections.old.items) }
    ensures done { let e = entering.now in
        let does = answered e.agent.now e.second e.message.now in
        let all = each_bond does 0 begun.next (bonds connections.old.items) in
        let out = all.out ++ option_to_list begun.answer in
        IfOk result (λ said. IsEntered (bonds connections.new.items)
        outbox.old outbox.new said all.bonds out all.dues all.next) }
    ensures back { let old = bonds connections.old.items in
        OnErr result (bonds connections.new.items ≡ old) }
    ensures found { AreFound index.new (bonds connections.new.items) }
    ensures unsaid { OnErr result (outbox.new.retry ≡ outbox.old.retry) }
    ensures undue { OnErr result (outbox.new.dues ≡ outbox.old.dues) }
{
    let Begun { next, answer } = begun;
    let mut round = Round::new(entering.alloc, next);
    let hearing = Hearing { entering, answer };
    let heard = round.hear_and_store(connections, index, places, outbox, hearing);
    let Round { kept, said } = round;
    match heard {
        Ok(()) => Ok(said),
        Err(error) => {
            go_back(connections, kept);
            Err(error)
        }
    }
}

/// The clock of the connections at the places goes on, and the ends that have come are forgotten. Where memory is wanting,
/// that of none does.
pub fn clock_all(
    connections: &mut Vec<Connection>,
    ends: &mut Deadlines,
    places: &[usize],
    outbox: &mut Outbox,
    clocking: &Clocking<'_>,
    next: u64,
) -> Result<Said, AllocError>
    requires { let e = clocking.now in
        let does = clocked_bond e.agent.now e.second e.late.now in
        AreTouched does (bonds connections.old.items) places.now }
    ensures done { let e = clocking.now in
        let does = clocked_bond e.agent.now e.second e.late.now in
        let all = each_bond does 0 next (bonds connections.old.items) in
        IfOk result (λ said. IsEntered (bonds connections.new.items)
        outbox.old outbox.new said all.bonds all.out all.dues all.next) }
    ensures back { let old = bonds connections.old.items in
        OnErr result (bonds connections.new.items ≡ old) }
    ensures passed { OnOk result ((d : DeadlineValue) →
        Contains ends.new d ↔ ((clocking.now.second < d.second) × Contains ends.old d)) }
    ensures left { OnErr result (ends.new ≡ ends.old) }
    ensures unsaid { OnErr result (outbox.new.retry ≡ outbox.old.retry) }
    ensures undue { OnErr result (outbox.new.dues ≡ outbox.old.dues) }
{
    let mut round = Round::new(clocking.alloc, next);
    let clocked = round.clock_and_store(connections, places, outbox, clocking);
    let Round { kept, said } = round;
    match clocked {
        Ok(()) => {
            ends.pass(clocking.second);
            Ok(said)
        }
        Err(error) => {
            go_back(connections, kept);
            Err(error)
        }
    }
}

impl Round {
    fn new(alloc: Global, next: u64) -> Round
        ensures begun { IsBegun result }
        ensures next { result.said.next ≡ next }
    {
        Round {
            kept: Vec::new(alloc),
            said: Said::new(alloc, next),
        }
    }

    /// The connections hear a message, and what they say waits, with an answer behind it. Where memory is wanting some may
    /// have heard it, and each of them is kept.
    fn hear_and_store(
        &mut self,
        connections: &mut Vec<Connection>,
        index: &mut ConnectionIndex,
        places: &[usize],
        outbox: &mut Outbox,
        hearing: Hearing<'_>,
    ) -> Result<(), AllocError>
        requires begun { IsBegun self.old }
        requires touched { let e = hearing.entering.now in
            let does = answered e.agent.now e.second e.message.now in
            AreTouched does (bonds connections.old.items) places.now }
        requires found { AreFound index.old (bonds connections.old.items) }
        ensures done { let e = hearing.entry.entering.now in
            let does = answered e.agent.now e.second e.message.now in
            let all = each_bond does 0 self.old.said.next (bonds connections.old.items) in
            let out = all.out ++ option_to_list hearing.entry.answer in
            OnOk result (done_by self.new.said (bonds connections.new.items)
            ≡ record all { out = out }) }
        ensures undo { CanUndo (bonds connections.old.items) (bonds connections.new.items)
            self.new.kept.items }
        ensures grows { Grows index.old index.new }
        ensures found { OnOk result (AreFound index.new (bonds connections.new.items)) }
        ensures stored { IsStored outbox.old outbox.new self.new.said result }
    {
        let Hearing { entering, answer } = hearing;
        self.hear_each(connections, index, places, entering)?;
        self.said.answer(answer)?;
        outbox.store(entering.alloc, &self.said)
    }

    fn hear_each(
        &mut self,
        connections: &mut Vec<Connection>,
        index: &mut ConnectionIndex,
        places: &[usize],
        entering: &Entering<'_>,
    ) -> Result<(), AllocError>
        requires begun { IsBegun self.old }
        requires touched { let e = entering.now in
            let does = answered e.agent.now e.second e.message.now in
            AreTouched does (bonds connections.old.items) places.now }
        requires found { AreFound index.old (bonds connections.old.items) }
        ensures done { let e = entering.now in
            let does = answered e.agent.now e.second e.message.now in
            let all = each_bond does 0 self.old.said.next (bonds connections.old.items) in
            OnOk result (done_by self.new.said (bonds connections.new.items) ≡ all) }
        ensures undo { CanUndo (bonds connections.old.items) (bonds connections.new.items)
            self.new.kept.items }
        ensures grows { Grows index.old index.new }
        ensures found { OnOk result (AreFound index.new (bonds connections.new.items)) }
    {
        for place in places {
            self.hear_at(connections, index, *place, entering)?;
        }
        Ok(())
    }

    /// The connection at a place hears a message. It is kept first, and named anew.
    fn hear_at(
        &mut self,
        connections: &mut Vec<Connection>,
        index: &mut ConnectionIndex,
        place: usize,
        entering: &Entering<'_>,
    ) -> Result<(), AllocError>
        requires within { place < length connections.old.items }
        requires new { (k : KeptValue) → Contains self.old.kept.items k → k.place ≢ place }
        ensures done { let e = entering.now in
            let does = answered e.agent.now e.second e.message.now in
            let one = does place self.old.said.next (bond_at place (bonds connections.old.items)) in
            IsDoneAt self.old.said self.new.said place
            (bonds connections.old.items) (bonds connections.new.items) result one }
        ensures kept { OnOk result ((k : KeptValue) →
            Contains self.new.kept.items k → Contains self.old.kept.items k ⊎ (k.place ≡ place)) }
        ensures undo { (was : Sequence BondValue) →
            CanUndo was (bonds connections.old.items) self.old.kept.items →
            CanUndo was (bonds connections.new.items) self.new.kept.items }
        ensures grows { Grows index.old index.new }
        ensures named { OnOk result (IsNamedAgainAt index.new place
            (bonds connections.old.items) (bonds connections.new.items)) }
    {
        let number = number_of(place)?;
        let kept = connections[place].keep(entering.alloc, place)?;
        self.kept.push(kept)?;
        let connection = &mut connections[place];
        hear_and_name(connection, index, &mut self.said, entering, number, place)
    }

    /// The clock of the connections goes on, and what they say waits. Where memory is wanting that of some may have, and
    /// each of them is kept.
    fn clock_and_store(
        &mut self,
        connections: &mut Vec<Connection>,
        places: &[usize],
        outbox: &mut Outbox,
        clocking: &Clocking<'_>,
    ) -> Result<(), AllocError>
        requires begun { IsBegun self.old }
        requires touched { let e = clocking.now in
            let does = clocked_bond e.agent.now e.second e.late.now in
            AreTouched does (bonds connections.old.items) places.now }
        ensures done { let e = clocking.now in
            let does = clocked_bond e.agent.now e.second e.late.now in
            let all = each_bond does 0 self.old.said.next (bonds connections.old.items) in
            OnOk result (done_by self.new.said (bonds connections.new.items) ≡ all) }
        ensures undo { CanUndo (bonds connections.old.items) (bonds connections.new.items)
            self.new.kept.items }
        ensures stored { IsStored outbox.old outbox.new self.new.said result }
    {
        self.clock_each(connections, places, clocking)?;
        outbox.store(clocking.alloc, &self.said)
    }

    fn clock_each(
        &mut self,
        connections: &mut Vec<Connection>,
        places: &[usize],
        clocking: &Clocking<'_>,
    ) -> Result<(), AllocError>
        requires begun { IsBegun self.old }
        requires touched { let e = clocking.now in
            let does = clocked_bond e.agent.now e.second e.late.now in
            AreTouched does (bonds connections.old.items) places.now }
        ensures done { let e = clocking.now in
            let does = clocked_bond e.agent.now e.second e.late.now in
            let all = each_bond does 0 self.old.said.next (bonds connections.old.items) in
            OnOk result (done_by self.new.said (bonds connections.new.items) ≡ all) }
        ensures undo { CanUndo (bonds connections.old.items) (bonds connections.new.items)
            self.new.kept.items }
    {
        for place in places {
            self.clock_at(connections, *place, clocking)?;
        }
        Ok(())
    }

    /// The clock of the connection at a place goes on. It is kept first.
    fn clock_at(
        &mut self,
        connections: &mut Vec<Connection>,
        place: usize,
        clocking: &Clocking<'_>,
    ) -> Result<(), AllocError>
        requires within { place < length connections.old.items }
        requires new { (k : KeptValue) → Contains self.old.kept.items k → k.place ≢ place }
        ensures done { let e = clocking.now in
            let does = clocked_bond e.agent.now e.second e.late.now in
            let one = does place self.old.said.next (bond_at place (bonds connections.old.items)) in
            IsDoneAt self.old.said self.new.said place
            (bonds connections.old.items) (bonds connections.new.items) result one }
        ensures kept { OnOk result ((k : KeptValue) →
            Contains self.new.kept.items k → Contains self.old.kept.items k ⊎ (k.place ≡ place)) }
        ensures undo { (was : Sequence BondValue) →
            CanUndo was (bonds connections.old.items) self.old.kept.items →
            CanUndo was (bonds connections.new.items) self.new.kept.items }
    {
        let number = number_of(place)?;
        let kept = connections[place].keep_own(place);
        self.kept.push(kept)?;
        let connection = &mut connections[place];
        connection.clock(&mut self.said, clocking, number)
    }
}

/// A connection hears a message, and is named as it stands then.
fn hear_and_name(
    connection: &mut Connection,
    index: &mut ConnectionIndex,
    said: &mut Said,
    entering: &Entering<'_>,
    number: RecordNo,
    place: usize,
) -> Result<(), AllocError>
    ensures done { let e = entering.now in
        let does = answered e.agent.now e.second e.message.now in
        let one = does number said.old.next (bond connection.old) in
        IsDone said.old said.new (bond connection.new) result one }
    ensures later { IsLater connection.old.own connection.new.own }
    ensures grows { Grows index.old index.new }
    ensures named { OnOk result
        (IsNamedAgain index.new place (bond connection.old) (bond connection.new)) }
{
    let before = connection.end();
    connection.take_answer(said, entering, number)?;
    index.name(place, connection, before)
}
