//! How the clock goes on.

ghost use Rattle.std.specs.Prelude.{◌≡◌, ◌<◌, ◌≤◌, ◌+◌, ◌++◌, ℕ, length, slice_set, Contains, OnOk, OnErr};
ghost use Rattle.std.specs.Prelude.{List as Sequence};
ghost use Rattle.nsi_primitive.specs.Ids.{id_of};
ghost use Rattle.connection_record.specs.declared.record.Record.{Record as RecordValue};
ghost use Rattle.provider_agent.specs.declared.tick.Kept.{Kept as KeptValue};
ghost use Rattle.connection_record.specs.Later.{IsLater};
ghost use Rattle.provider_agent.specs.State.{record_at};
ghost use Rattle.provider_agent.specs.Steps.{ticks, ticks_all, messages_by};
ghost use Rattle.provider_agent.specs.Ticks.{CanUndo, IsBegun, IsFreedBut, ticked_by, tick_of, drawn_by};
ghost use Rattle.provider_agent.specs.Kept.{AreKept, freed};
ghost use Rattle.provider_agent.specs.Core.{IsConsistent, IsReady};
ghost use Rattle.provider_agent.specs.Step.{IsStep};

use crate::agent::Agent;
use crate::provider_core::{Core, number_of};
use crate::records::drawn_for;
use agent_state::push_replies;
use capacity_calendar::Calendar;
use connection_record::{Origin, Record, Savepoint};
use message_retry::Retry;
use nsi_base::Second;
use nsi_primitive::{Message, id_of};
use std::alloc::{AllocError, Global};

/// What the record at a place was.
#[derive(Clone, Copy)]
pub struct Kept {
    pub place: usize,
    pub saved: Savepoint,
}

/// A tick under way: from which second to which, what the records were that it has touched, what was said, and the number
/// of the next id.
#[derive(Drop)]
struct Ticking {
    before: Second,
    now: Second,
    kept: Vec<Kept>,
    out: Vec<Message>,
    next: u64,
}

impl Core {
    /// Ends what is over by now, and tells each data plane that is another since. Where memory is wanting, nothing changes.
    #[tactic(auto, unfolding(crate::specs::Steps::ticks))]
    pub fn tick(&mut self, alloc: Global, now: Second) -> Result<Vec<Message>, AllocError>
        requires ready { IsReady self.old }
        requires on_time { self.old.now ≤ now }
        ensures step { IsStep self.old self.new result (λ setting s. ticks setting now s) }
        ensures consistent { IsConsistent self.new }
    {
        let places = self.deadlines.due_by(alloc, now)?;
        let due = places.items();
        let mut ticking = Ticking {
            before: self.now,
            now,
            kept: Vec::new(alloc),
            out: Vec::new(alloc),
            next: self.next,
        };
        ticking.tick_all(alloc, &self.agent, &mut self.records, &mut self.retry, due)?;
        free_all(&mut self.calendar, &self.records, due);
        self.deadlines.pass(now);
        self.now = now;
        self.next = ticking.next;
        let Ticking { out, .. } = ticking;
        Ok(out)
    }
}

impl Ticking {
    /// Ticks the records at the places, all of them or none. What they say waits.
    fn tick_all(
        &mut self,
        alloc: Global,
        agent: &Agent,
        records: &mut Vec<Record>,
        retry: &mut Retry,
        due: &[usize],
    ) -> Result<(), AllocError>
        requires { IsBegun self.old records.old.items due.now }
        ensures ticked { let t = self.old in
            let all = ticks_all agent.now t.before t.now t.next records.old.items in
            OnOk result (ticked_by self.new records.new.items ≡ all) }
        ensures err { OnErr result (records.new.items ≡ records.old.items) }
        ensures stored { let all = retry.old.waiting ++ self.new.out.items in
            OnOk result (retry.new ≡ record retry.old { waiting = all }) }
        ensures unstored { OnErr result (retry.new ≡ retry.old) }
    {
        match self.tick_and_store(alloc, agent, records, retry, due) {
            Ok(()) => Ok(()),
            Err(error) => {
                go_back(records, &self.kept);
                Err(error)
            }
        }
    }

    /// The same, but that some records may have been ticked where memory is wanting.
    fn tick_and_store(
        &mut self,
        alloc: Global,
        agent: &Agent,
        records: &mut Vec<Record>,
        retry: &mut Retry,
        due: &[usize],
    ) -> Result<(), AllocError>
        requires { IsBegun self.old records.old.items due.now }
        ensures ticked { let t = self.old in
            let all = ticks_all agent.now t.before t.now t.next records.old.items in
            OnOk result (ticked_by self.new records.new.items ≡ all) }
        ensures undo { CanUndo records.old.items records.new.items self.new.kept.items }
        ensures stored { let all = retry.old.waiting ++ self.new.out.items in
            OnOk result (retry.new ≡ record retry.old { waiting = all }) }
        ensures unstored { OnErr result (retry.new ≡ retry.old) }
    {
        self.tick_each(alloc, agent, records, due)?;
        retry.store(alloc, &self.out)
    }

    /// Ticks the records at the places. Where memory is wanting, the first ones are ticked, and each is kept as it was.
    fn tick_each(
        &mut self,
        alloc: Global,
        agent: &Agent,
        records: &mut Vec<Record>,
        due: &[usize],
    ) -> Result<(), AllocError>
        requires { IsBegun self.old records.old.items due.now }
        ensures ticked { let t = self.old in
            let all = ticks_all agent.now t.before t.now t.next records.old.items in
            OnOk result (ticked_by self.new records.new.items ≡ all) }
        ensures undo { CanUndo records.old.items records.new.items self.new.kept.items }
    {
        for place in due {
            self.tick_at(alloc, agent, records, *place)?;
        }
        Ok(())
    }

    /// Ticks the record at a place, which is kept first.
    fn tick_at(
        &mut self,
        alloc: Global,
        agent: &Agent,
        records: &mut Vec<Record>,
        place: usize,
    ) -> Result<(), AllocError>
        requires within { place < length records.old.items }
        requires next { self.old.next < 4611686018427387904 }
        ensures same { (self.new.before ≡ self.old.before) × (self.new.now ≡ self.old.now) }
        ensures records { let own = record_at place records.old.items in
            let own_new = (tick_of agent.now self.old own).rec in
            OnOk result (records.new.items ≡ slice_set records.old.items place own_new) }
        ensures out { let own = record_at place records.old.items in
            let said = messages_by agent.now.name (tick_of agent.now self.old own) in
            OnOk result (self.new.out.items ≡ self.old.out.items ++ said) }
        ensures next { let own = record_at place records.old.items in
            OnOk result (self.new.next ≡ self.old.next + drawn_by agent.now self.old own) }
        ensures undo { (rs : Sequence RecordValue) →
            CanUndo rs records.old.items self.old.kept.items →
            record_at place records.old.items ≡ record_at place rs →
            CanUndo rs records.new.items self.new.kept.items }
    {
        let own = &mut records[place];
        let saved = own.save();
        self.kept.push(Kept { place, saved })?;
        self.tick_record(alloc, agent, own)
    }

    fn tick_record(
        &mut self,
        alloc: Global,
        agent: &Agent,
        own: &mut Record,
    ) -> Result<(), AllocError>
        requires next { self.old.next < 4611686018427387904 }
        ensures same { (self.new.before ≡ self.old.before) × (self.new.now ≡ self.old.now) }
        ensures kept { self.new.kept.items ≡ self.old.kept.items }
        ensures rec { OnOk result (own.new ≡ (tick_of agent.now self.old own.old).rec) }
        ensures out { let said = messages_by agent.now.name (tick_of agent.now self.old own.old) in
            OnOk result (self.new.out.items ≡ self.old.out.items ++ said) }
        ensures next { let drawn = drawn_by agent.now self.old own.old in
            OnOk result (self.new.next ≡ self.old.next + drawn) }
        ensures later { IsLater own.old own.new }
    {
        let origin = agent.origin_of(own)?;
        let correlation = id_of(agent.number, self.next);
        let mut replies = Vec::new(alloc);
        let is_told = own.tick(&mut replies, origin, correlation, self.before, self.now)?;
        push_replies(&mut self.out, &agent.name, &own.owner, replies)?;
        self.next += drawn_for(is_told);
        Ok(())
    }
}

/// Makes the records what they were. It takes no memory.
fn go_back(records: &mut Vec<Record>, kept: &[Kept])
    requires { (k : KeptValue) → Contains kept.now k → k.place < length records.old.items }
    ensures { (rs : Sequence RecordValue) →
        CanUndo rs records.old.items kept.now → records.new.items ≡ rs }
{
    for one in kept {
        records[one.place].restore(&one.saved);
    }
}

/// What the records at the places don't hold any more is free for others.
fn free_all(calendar: &mut Calendar, records: &[Record], due: &[usize])
    requires within { (n : ℕ) → Contains due.now n → n < length records.now }
    requires few { length records.now ≤ 4194303 }
    requires but { IsFreedBut records.now calendar.old.bookings due.now }
    ensures capacities { calendar.new.capacities ≡ calendar.old.capacities }
    ensures kept { AreKept records.now calendar.new.bookings }
{
    for place in due {
        free_at(calendar, records, *place);
    }
}

fn free_at(calendar: &mut Calendar, records: &[Record], place: usize)
    requires within { place < length records.now }
    requires few { place ≤ 4194303 }
    ensures { let bookings = freed place records.now calendar.old.bookings in
        calendar.new ≡ record calendar.old { bookings = bookings } }
{
    if !records[place].is_holding() {
        calendar.take_pending(number_of(place));
    }
}
