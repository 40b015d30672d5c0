//! How waiting work is done.

ghost use Rattle.std.specs.Prelude.{◌≡◌, ◌<◌, ◌≤◌, ◌+◌, ◌&&◌, nat_lt, length, IfSome, IfOk, OnOk, OnErr, Some, None, IsSome, is_some, if◌then◌else◌, true, option_map, position, Contains};
ghost use Rattle.std.specs.List.Sorted.{IsStrictlyIncreasing};
ghost use Rattle.nsi_primitive.specs.Kinds.{is_both_ways};
ghost use Rattle.nsi_primitive.specs.declared.state.Machine.{Machine as MachineValue};
ghost use Rattle.connection_record.specs.declared.moves.ReservationMove.{ReservationMove as ReservationValue};
ghost use Rattle.connection_record.specs.declared.apply.Move.{Move as MoveValue};
ghost use Rattle.capacity_calendar.specs.Plan.{pending_of, settled};
ghost use Rattle.record_index.specs.declared.deadlines.Deadline.{Deadline as DeadlineValue};
ghost use Rattle.connection_record.specs.Moves.{fit_or_lack};
ghost use Rattle.connection_record.specs.Applied.{waits, has_work};
ghost use Rattle.provider_agent.specs.Others.{lacking, lack_among, cause_among, bandwidth};
ghost use Rattle.provider_agent.specs.State.{record_at};
ghost use Rattle.provider_agent.specs.Steps.{works, works_at, moves_at, is_waiting, first_waiting, machine_at};
ghost use Rattle.provider_agent.specs.Indexed.{NamesWork, NamesSchedule, deadline_of};
ghost use Rattle.provider_agent.specs.Kept.{AreKept, slot_of, with_slot, plan_lack, is_plain};
ghost use Rattle.provider_agent.specs.Core.{setting_at, state_at, IsConsistent, IsReady};
ghost use Rattle.provider_agent.specs.Step.{IsStep, Fits, record_in};

use crate::provider_core::{Core, number_of};
use crate::records::{Moment, turn_at};
use capacity_calendar::{Calendar, Lack};
use connection_record::{Move, ProvisionMove, Record, ReservationMove};
use nsi_base::{RecordNo, Second};
use nsi_primitive::{Cause, Criteria, ErrorName, Exception, Machine, Message, Rsm};
use record_index::Places;
use std::alloc::{AllocError, Global};

impl Core {
    /// Does the work of a machine of a record. Work that doesn't wait changes nothing.
    #[tactic(auto, unfolding(crate::specs::Steps::works), using(crate::proofs::Putting::waiting_within))]
    pub fn work(
        &mut self,
        alloc: Global,
        number: RecordNo,
        machine: Machine,
    ) -> Result<Vec<Message>, AllocError>
        requires { IsReady self.old }
        ensures step { IsStep self.old self.new result
            (λ setting s. works (is_waiting s number machine) setting s number machine) }
        ensures consistent { IsConsistent self.new }
    {
        let place = number.get() as usize;
        if !is_waiting(&self.records, place, machine) {
            return Ok(Vec::new(alloc));
        }
        let out = self.work_at(alloc, place, machine)?;
        self.forget_if_done(place);
        Ok(out)
    }

    /// A record that has no work to do any more isn't named.
    fn forget_if_done(&mut self, place: usize)
        requires within { place < length self.old.records.items }
        requires consistent { IsConsistent self.old }
        ensures state { state_at self.new ≡ state_at self.old }
        ensures setting { setting_at self.new ≡ setting_at self.old }
        ensures consistent { IsConsistent self.new }
    {
        if self.records[place].first_machine().is_none() {
            self.waiting.remove(place);
        }
    }

    #[tactic(auto, unfolding(connection_record::specs::Applied::work_of))]
    fn work_at(
        &mut self,
        alloc: Global,
        place: usize,
        machine: Machine,
    ) -> Result<Vec<Message>, AllocError>
        requires ready { IsReady self.old }
        requires within { place < length self.old.records.items }
        requires waits { waits machine (record_in self.old place) ≡ true }
        ensures step { IsStep self.old self.new result
            (λ setting s. works_at setting s place machine) }
        ensures consistent { IsConsistent self.new }
    {
        match machine {
            Machine::Reserve => self.reserve_work_at(alloc, place),
            Machine::Provision => self.provision_work_at(alloc, place),
            Machine::Lifecycle => self.close(alloc, place),
        }
    }

    /// What was asked is held or refused, a commit or an abort is carried out.
    #[tactic(auto, unfolding(connection_record::specs::Applied::work_of, connection_record::specs::Moves::worked))]
    fn reserve_work_at(&mut self, alloc: Global, place: usize) -> Result<Vec<Message>, AllocError>
        requires ready { IsReady self.old }
        requires within { place < length self.old.records.items }
        requires waits { waits MachineValue.Reserve (record_in self.old place) ≡ true }
        ensures step { IsStep self.old self.new result
            (λ setting s. works_at setting s place MachineValue.Reserve) }
        ensures consistent { IsConsistent self.new }
    {
        match self.records[place].rsm {
            Rsm::ReserveChecking => self.decide(alloc, place),
            Rsm::ReserveCommitting => self.commit(alloc, place),
            Rsm::ReserveAborting => {
                self.turn(alloc, place, Move::Reservation(ReservationMove::Freed))
            }
            _ => Ok(Vec::new(alloc)),
        }
    }

    /// A provision or a release is carried out.
    #[tactic(auto, using(crate::proofs::Putting::provision_work_is))]
    fn provision_work_at(&mut self, alloc: Global, place: usize) -> Result<Vec<Message>, AllocError>
        requires ready { IsReady self.old }
        requires within { place < length self.old.records.items }
        requires waits { waits MachineValue.Provision (record_in self.old place) ≡ true }
        ensures step { IsStep self.old self.new result
            (λ setting s. works_at setting s place MachineValue.Provision) }
        ensures consistent { IsConsistent self.new }
    {
        self.turn(alloc, place, Move::Provision(ProvisionMove::Done))
    }

    /// The connection ends: what is open is answered, then its terminate, and nothing of it is booked any more.
    #[tactic(auto, unfolding(connection_record::specs::Applied::work_of))]
    fn close(&mut self, alloc: Global, place: usize) -> Result<Vec<Message>, AllocError>
        requires ready { IsReady self.old }
        requires within { place < length self.old.records.items }
        requires waits { waits MachineValue.Lifecycle (record_in self.old place) ≡ true }
        ensures step { IsStep self.old self.new result
            (λ setting s. works_at setting s place MachineValue.Lifecycle) }
        ensures consistent { IsConsistent self.new }
    {
        let agent = self.agent.name.copy()?;
        let out = self.move_record(alloc, place, Move::Close { agent })?;
        self.calendar.take_all(number_of(place));
        Ok(out)
    }
}

impl Core {
    /// What was asked is held, or what it lacks is told.
    #[tactic(auto, unfolding(crate::specs::Others::lacking))]
    fn decide(&mut self, alloc: Global, place: usize) -> Result<Vec<Message>, AllocError>
        requires ready { IsReady self.old }
        requires within { place < length self.old.records.items }
        requires checking { (record_in self.old place).rsm ≡ Rsm.ReserveChecking }
        requires waits { waits MachineValue.Reserve (record_in self.old place) ≡ true }
        ensures step { let lack = lacking (setting_at self.old) (state_at self.old) place in
            let move = fit_or_lack lack self.old.agent.name (self.old.now + self.old.agent.hold) in
            IsStep self.old self.new result (moves_at (MoveValue.Reservation move) place) }
        ensures consistent { IsConsistent self.new }
    {
        let cause = cause_at(&self.calendar, &self.records, place, self.now)?;
        match cause {
            None => self.fit(alloc, place),
            Some(cause) => {
                let nsa = self.agent.name.copy()?;
                let exception = Exception { nsa, cause };
                self.turn(
                    alloc,
                    place,
                    Move::Reservation(ReservationMove::Lack { exception }),
                )
            }
        }
    }

    /// Holds what was asked. The end of the hold is named first: where memory is wanting afterwards, an end that is named
    /// for nothing does no harm.
    fn fit(&mut self, alloc: Global, place: usize) -> Result<Vec<Message>, AllocError>
        requires ready { IsReady self.old }
        requires within { place < length self.old.records.items }
        requires checking { (record_in self.old place).rsm ≡ Rsm.ReserveChecking }
        requires waits { waits MachineValue.Reserve (record_in self.old place) ≡ true }
        requires fits { Fits self.old place }
        ensures step { let deadline = self.old.now + self.old.agent.hold in
            let move = ReservationValue.Fit (Some deadline) in
            IsStep self.old self.new result (moves_at (MoveValue.Reservation move) place) }
        ensures consistent { IsConsistent self.new }
    {
        let deadline = self.now.get() + u64::from(self.agent.hold.get());
        self.name_second(place, deadline)?;
        self.hold_until(alloc, place, deadline)
    }

    /// Holds what was asked until a second that is named.
    fn hold_until(
        &mut self,
        alloc: Global,
        place: usize,
        deadline: u64,
    ) -> Result<Vec<Message>, AllocError>
        requires ready { IsReady self.old }
        requires within { place < length self.old.records.items }
        requires checking { (record_in self.old place).rsm ≡ Rsm.ReserveChecking }
        requires waits { waits MachineValue.Reserve (record_in self.old place) ≡ true }
        requires fits { Fits self.old place }
        requires named { Contains self.old.deadlines (deadline_of deadline place) }
        ensures step { let move = ReservationValue.Fit (Some deadline) in
            IsStep self.old self.new result (moves_at (MoveValue.Reservation move) place) }
        ensures consistent { IsConsistent self.new }
    {
        let event = ReservationMove::Fit {
            deadline: Some(deadline),
        };
        put(&mut self.calendar, &self.records, place, self.now)?;
        match self.move_record(alloc, place, Move::Reservation(event)) {
            Ok(out) => Ok(out),
            Err(error) => {
                self.calendar.take_pending(number_of(place));
                Err(error)
            }
        }
    }

    /// Carries out a commit. The seconds at which its schedule begins and ends are named first.
    fn commit(&mut self, alloc: Global, place: usize) -> Result<Vec<Message>, AllocError>
        requires ready { IsReady self.old }
        requires within { place < length self.old.records.items }
        requires committing { (record_in self.old place).rsm ≡ Rsm.ReserveCommitting }
        requires waits { waits MachineValue.Reserve (record_in self.old place) ≡ true }
        ensures step { let move = MoveValue.Reservation ReservationValue.Done in
            IsStep self.old self.new result (moves_at move place) }
        ensures consistent { IsConsistent self.new }
    {
        self.name_schedule(place)?;
        self.commit_named(alloc, place)
    }

    /// Names the seconds at which the schedule begins and ends that is asked of the record at a place.
    fn name_schedule(&mut self, place: usize) -> Result<(), AllocError>
        requires ready { IsReady self.old }
        requires within { place < length self.old.records.items }
        ensures same { self.new ≡ record self.old { deadlines = self.new.deadlines } }
        ensures ready { IsReady self.new }
        ensures named { let asked = (record_in self.old place).pending in
            OnOk result (NamesSchedule place asked self.new.deadlines) }
    {
        let Some(criteria) = self.records[place].pending else {
            return Ok(());
        };
        self.name_second(place, criteria.interval.start().get())?;
        self.name_second(place, criteria.interval.end().get())?;
        Ok(())
    }

    /// Names a second at which the record at a place has something to do.
    fn name_second(&mut self, place: usize, second: u64) -> Result<(), AllocError>
        requires ready { IsReady self.old }
        requires within { place < length self.old.records.items }
        ensures same { self.new ≡ record self.old { deadlines = self.new.deadlines } }
        ensures ready { IsReady self.new }
        ensures named { OnOk result (Contains self.new.deadlines (deadline_of second place)) }
        ensures before { (x : DeadlineValue) →
            Contains self.old.deadlines x → Contains self.new.deadlines x }
    {
        self.deadlines.add(second, place)?;
        Ok(())
    }

    /// Carries out a commit whose schedule is named.
    fn commit_named(&mut self, alloc: Global, place: usize) -> Result<Vec<Message>, AllocError>
        requires ready { IsReady self.old }
        requires within { place < length self.old.records.items }
        requires committing { (record_in self.old place).rsm ≡ Rsm.ReserveCommitting }
        requires waits { waits MachineValue.Reserve (record_in self.old place) ≡ true }
        requires named { NamesSchedule place (record_in self.old place).pending self.old.deadlines }
        ensures step { let move = MoveValue.Reservation ReservationValue.Done in
            IsStep self.old self.new result (moves_at move place) }
        ensures consistent { IsConsistent self.new }
    {
        let is_held = has_pending(&self.records, place);
        let event = Move::Reservation(ReservationMove::Done);
        let out = self.move_record(alloc, place, event)?;
        settle_if(&mut self.calendar, place, is_held);
        Ok(out)
    }

    /// Moves the record at a place that is named, by a move that neither holds nor commits nor ends.
    pub fn turn(
        &mut self,
        alloc: Global,
        place: usize,
        event: Move,
    ) -> Result<Vec<Message>, AllocError>
        requires ready { IsReady self.old }
        requires within { place < length self.old.records.items }
        requires plain { is_plain event ≡ true }
        requires named { Contains self.old.waiting place }
        ensures step { IsStep self.old self.new result (moves_at event place) }
        ensures consistent { IsConsistent self.new }
    {
        let out = self.move_record(alloc, place, event)?;
        self.free_if_dropped(place);
        Ok(out)
    }

    /// Moves the record at a place. What it books, and what the indexes name, stays as it was.
    fn move_record(
        &mut self,
        alloc: Global,
        place: usize,
        event: Move,
    ) -> Result<Vec<Message>, AllocError>
        requires within { place < length self.old.records.items }
        requires next { self.old.next ≤ 17592194433025 }
        ensures step { IsStep self.old self.new result (moves_at event place) }
        ensures calendar { self.new.calendar ≡ self.old.calendar }
        ensures waiting { self.new.waiting ≡ self.old.waiting }
        ensures deadlines { self.new.deadlines ≡ self.old.deadlines }
    {
        let moment = Moment {
            place,
            second: self.now,
            next: self.next,
        };
        let turn = turn_at(
            alloc,
            &self.agent,
            &mut self.records,
            &mut self.retry,
            event,
            moment,
        )?;
        self.next += turn.drawn;
        Ok(turn.out)
    }
}

/// The first record that has work to do, and the machine.
pub fn waiting_work(waiting: &Places, records: &[Record]) -> Option<(RecordNo, Machine)>
    requires few { length records.now ≤ 4194304 }
    requires named { NamesWork records.now waiting.now }
    ensures { result ≡ first_waiting records.now }
{
    match first_place(waiting.items(), records) {
        None => None,
        Some(place) => work_of(records, place),
    }
}

/// The first machine of the record at a place that has work to do.
fn work_of(records: &[Record], place: usize) -> Option<(RecordNo, Machine)>
    requires within { place < length records.now }
    requires few { place ≤ 4194303 }
    ensures { result ≡ machine_at place records.now }
{
    match records[place].first_machine() {
        None => None,
        Some(machine) => Some((number_of(place), machine)),
    }
}

fn first_place(waiting: &[usize], records: &[Record]) -> Option<usize>
    requires rising { IsStrictlyIncreasing waiting.now }
    requires named { NamesWork records.now waiting.now }
    ensures place { result ≡ position has_work records.now }
    ensures within { IfSome result (λ n. n < length records.now) }
{
    for place in waiting {
        if has_work(records, *place) {
            return Some(*place);
        }
    }
    None
}

/// Whether the record at a place has work to do.
fn has_work(records: &[Record], place: usize) -> bool
    ensures { result ≡ nat_lt place (length records.now) && has_work (record_at place records.now) }
{
    match records.get(place) {
        Some(own) => own.first_machine().is_some(),
        None => false,
    }
}

/// Whether a machine of the record at a place has work to do.
fn is_waiting(records: &[Record], place: usize, machine: Machine) -> bool
    ensures { let own = record_at place records.now in
        result ≡ nat_lt place (length records.now) && waits machine own }
{
    match records.get(place) {
        Some(own) => own.waits(machine),
        None => false,
    }
}

fn has_pending(records: &[Record], place: usize) -> bool
    requires { place < length records.now }
    ensures { result ≡ is_some (record_at place records.now).pending }
{
    match records.get(place) {
        Some(own) => own.pending.is_some(),
        None => false,
    }
}

fn settle_if(calendar: &mut Calendar, place: usize, is_held: bool)
    requires few { place ≤ 4194303 }
    requires pending { is_held ≡ true → IsSome (pending_of place calendar.old.bookings) }
    ensures { let bookings = calendar.old.bookings in
        let settled_if = if is_held then settled place bookings else bookings in
        calendar.new ≡ record calendar.old { bookings = settled_if } }
{
    if is_held {
        calendar.settle(number_of(place));
    }
}

/// What the pending criteria of a record lack first beside all others.
fn first_lack(
    calendar: &Calendar,
    records: &[Record],
    place: usize,
    own: &Record,
    criteria: Criteria,
) -> Option<Lack>
    requires kept { AreKept records.now calendar.now.bookings }
    requires within { place < length records.now }
    requires few { place ≤ 4194303 }
    requires own { own.now ≡ record_at place records.now }
    ensures among { result ≡ lack_among calendar.now.capacities records.now place criteria }
    ensures plan { let both_ways = is_both_ways own.now.service.directionality in
        result ≡ plan_lack calendar.now place both_ways own.now.source own.now.dest criteria }
{
    calendar.facts();
    calendar.first_lack(
        number_of(place),
        own.source,
        own.dest,
        own.service.directionality.is_both_ways(),
        criteria.interval,
        criteria.capacity,
    )
}

/// Why the pending criteria of the record at a place don't fit.
fn cause_at(
    calendar: &Calendar,
    records: &[Record],
    place: usize,
    now: Second,
) -> Result<Option<Cause>, AllocError>
    requires kept { AreKept records.now calendar.now.bookings }
    requires within { place < length records.now }
    requires few { place ≤ 4194303 }
    ensures { let asked = (record_at place records.now).pending in
        let found = cause_among calendar.now.capacities records.now now place asked in
        IfOk result (λ cause. cause ≡ found) }
{
    let own = &records[place];
    let Some(criteria) = own.pending else {
        return Ok(None);
    };
    if criteria.interval.end() <= now {
        return Ok(Some(Cause::Plain(ErrorName::Passed)));
    }
    match first_lack(calendar, records, place, own, criteria) {
        None => Ok(None),
        Some(lack) => {
            let cause = bandwidth(own, lack)?;
            Ok(Some(cause))
        }
    }
}

/// A lack, with the name of its point.
fn bandwidth(own: &Record, lack: Lack) -> Result<Cause, AllocError>
    ensures { IfOk result (λ cause. cause ≡ bandwidth own.now lack) }
{
    let stp = if lack.stp == own.source {
        own.service.source.copy()?
    } else {
        own.service.dest.copy()?
    };
    Ok(Cause::Bandwidth {
        stp,
        flow: lack.flow,
        second: lack.second,
        load: lack.load,
        capacity: lack.capacity,
    })
}

/// Books the pending criteria of the record at a place.
fn put(
    calendar: &mut Calendar,
    records: &[Record],
    place: usize,
    now: Second,
) -> Result<(), AllocError>
    requires kept { AreKept records.now calendar.old.bookings }
    requires within { place < length records.now }
    requires few { place ≤ 4194303 }
    requires checking { (record_at place records.now).rsm ≡ Rsm.ReserveChecking }
    requires fits { let asked = (record_at place records.now).pending in
        cause_among calendar.old.capacities records.now now place asked ≡ None }
    ensures ok { let own = record_at place records.now in
        let slot = option_map (slot_of own) own.pending in
        let bookings = with_slot place slot calendar.old.bookings in
        OnOk result (calendar.new ≡ record calendar.old { bookings = bookings }) }
    ensures err { OnErr result (calendar.new ≡ calendar.old) }
{
    let own = &records[place];
    let Some(criteria) = own.pending else {
        return Ok(());
    };
    calendar.facts();
    calendar.put(
        number_of(place),
        own.source,
        own.dest,
        own.service.directionality.is_both_ways(),
        criteria.interval,
        criteria.capacity,
    )
}
