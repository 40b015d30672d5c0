//! What a book keeps beside its journal, and how an entry is put into both.

ghost use Rattle.std.specs.Prelude.{◌≡◌, ◌≤◌, All, Option, IfOk, IfErr, IfSome, OnOk, Some};
ghost use Rattle.nsi_primitive.specs.declared.entry.Entry.{Entry as AnEntry};
ghost use Rattle.agent_state.specs.Entries.{most_entries};
ghost use Rattle.nsi_primitive.specs.Printable.{IsPrintable, IsRequest};
ghost use Rattle.nsi_disk.specs.Disk.{Meter};
ghost use Rattle.shared_provider.specs.Asked.{took_entry, work_entry, tick_entry, MayBeAsked};
ghost use Rattle.shared_provider.specs.Book.{IsOpen, enter, sync};
ghost use Rattle.shared_provider.specs.Sound.{IsSound, book_of, held, faults_by};
ghost use Rattle.shared_provider.specs.Answers.{Answers, Fails};

use crate::asked::{took_entry, work_entry};
use crate::journal::{append, forget, sync};
use crate::reply::{BookFault, Reply};
use journal_entry::Journal;
use nsi_base::{AgentNo, Second};
use nsi_primitive::{Entry, Event, Happening, Id, Input, Message};
use provider_agent::Provider;
use std::alloc::Global;
use stp_topology::Topology;

/// A provider, what happened to it, and how many faults of its disk closed it.
#[derive(Drop)]
pub struct Register {
    pub topology: Topology,
    pub agent: AgentNo,
    pub provider: Provider,
    pub history: Vec<Event>,
    pub faults: u64,
}

impl Register {
    /// The fault is told on; one of the disk closes the book.
    fn refuse(&mut self, fault: BookFault) -> BookFault
        ensures fault { result ≡ fault }
        ensures register { self.new ≡ record self.old { faults = faults_by fault self.old.faults } }
    {
        if let BookFault::DiskFault { .. } = fault {
            self.faults = 1;
        }
        fault
    }

    /// Whether it takes entries.
    fn check(&self) -> Result<(), BookFault>
        requires { self.now.provider.state.taken ≤ most_entries }
        ensures ok { OnOk result (IsOpen (book_of self.now)) }
        ensures err { (asked : Option AnEntry) (meter : Meter) → let x = held self.now meter in
            IfErr result (Fails asked x x) }
    {
        if self.faults > 0 {
            return Err(BookFault::Closed {
                faults: self.faults,
            });
        }
        if self.provider.taken() >= 4_194_304 {
            return Err(BookFault::Full);
        }
        Ok(())
    }
}

fn entered(agent: AgentNo, entry: Entry) -> Event
    ensures { result ≡ enter agent entry }
{
    Event {
        agent,
        what: Happening::Entry {
            entry,
            answer: None,
        },
    }
}

fn synced(agent: AgentNo, count: u64) -> Event
    ensures { result ≡ sync agent count }
{
    Event {
        agent,
        what: Happening::Sync { count },
    }
}

/// Takes an entry, keeps it and syncs it. Nothing behind the sync takes memory.
pub fn enter<J: Journal>(
    alloc: Global,
    register: &mut Register,
    journal: &mut J,
    entry: Entry,
) -> Result<Reply, BookFault>
    requires sound { IsSound (J.is_ready journal.old) (J.waits journal.old) (J.kept journal.old)
        (J.history journal.old) J.reading register.old.provider.setting
        (held register.old (J.meter journal.old)) }
    requires open { IsOpen (book_of register.old) }
    requires fits { MayBeAsked register.old.provider.state entry }
    ensures sound { IsSound (J.is_ready journal.new) (J.waits journal.new) (J.kept journal.new)
        (J.history journal.new) J.reading register.new.provider.setting
        (held register.new (J.meter journal.new)) }
    ensures ok { IfOk result
        (Answers (Some entry) (book_of register.old) (book_of register.new)) }
    ensures err { IfErr result (Fails (Some entry)
        (held register.old (J.meter journal.old))
        (held register.new (J.meter journal.new))) }
    ensures printable { IfOk result (λ r. All IsPrintable r.messages.items) }
{
    let Ok(copy) = entry.copy() else {
        return Err(BookFault::NoMemory);
    };
    if register.history.reserve(2).is_err() {
        return Err(BookFault::NoMemory);
    }
    if let Err(fault) = append(alloc, journal, &entry) {
        return Err(register.refuse(fault));
    }
    let Ok(messages) = register.provider.next(alloc, &register.topology, &entry) else {
        forget(journal);
        return Err(BookFault::NoMemory);
    };
    let place = register.history.len() as u64;
    register
        .history
        .push_reserved(entered(register.agent, entry));
    if let Err(fault) = sync(journal) {
        return Err(register.refuse(fault));
    }
    let durable = register.provider.taken();
    register
        .history
        .push_reserved(synced(register.agent, durable));
    Ok(Reply {
        place: Some(place),
        event: Some(entered(register.agent, copy)),
        durable,
        messages,
    })
}

/// Takes the entry that is asked, where one is.
fn answer<J: Journal>(
    alloc: Global,
    register: &mut Register,
    journal: &mut J,
    asked: Option<Entry>,
) -> Result<Reply, BookFault>
    requires sound { IsSound (J.is_ready journal.old) (J.waits journal.old) (J.kept journal.old)
        (J.history journal.old) J.reading register.old.provider.setting
        (held register.old (J.meter journal.old)) }
    requires open { IsOpen (book_of register.old) }
    requires fits { IfSome asked (MayBeAsked register.old.provider.state) }
    ensures sound { IsSound (J.is_ready journal.new) (J.waits journal.new) (J.kept journal.new)
        (J.history journal.new) J.reading register.new.provider.setting
        (held register.new (J.meter journal.new)) }
    ensures ok { IfOk result (Answers asked (book_of register.old) (book_of register.new)) }
    ensures err { IfErr result (Fails asked
        (held register.old (J.meter journal.old))
        (held register.new (J.meter journal.new))) }
    ensures printable { IfOk result (λ r. All IsPrintable r.messages.items) }
{
    match asked {
        Some(entry) => enter(alloc, register, journal, entry),
        None => Ok(Reply {
            place: None,
            event: None,
            durable: register.provider.taken(),
            messages: Vec::new(alloc),
        }),
    }
}

fn let_go(message: Message) {
    drop(message);
}

/// Takes a request, unless it was seen before.
pub fn take_request<J: Journal>(
    alloc: Global,
    register: &mut Register,
    journal: &mut J,
    message: Message,
) -> Result<Reply, BookFault>
    requires sound { IsSound (J.is_ready journal.old) (J.waits journal.old) (J.kept journal.old)
        (J.history journal.old) J.reading register.old.provider.setting
        (held register.old (J.meter journal.old)) }
    requires request { IsRequest message }
    requires printable { IsPrintable message }
    ensures sound { IsSound (J.is_ready journal.new) (J.waits journal.new) (J.kept journal.new)
        (J.history journal.new) J.reading register.new.provider.setting
        (held register.new (J.meter journal.new)) }
    ensures ok { IfOk result (Answers (took_entry register.old.provider.state message)
        (book_of register.old) (book_of register.new)) }
    ensures err { IfErr result (Fails (took_entry register.old.provider.state message)
        (held register.old (J.meter journal.old))
        (held register.new (J.meter journal.new))) }
    ensures was_open { OnOk result (IsOpen (book_of register.old)) }
    ensures printable { IfOk result (λ r. All IsPrintable r.messages.items) }
{
    match register.check() {
        Ok(()) => {
            let asked = took_entry(&register.provider, message);
            answer(alloc, register, journal, asked)
        }
        Err(fault) => {
            let_go(message);
            Err(fault)
        }
    }
}

/// Does the first work that waits on a connection, where some does.
pub fn do_work<J: Journal>(
    alloc: Global,
    register: &mut Register,
    journal: &mut J,
    connection: Id,
) -> Result<Reply, BookFault>
    requires sound { IsSound (J.is_ready journal.old) (J.waits journal.old) (J.kept journal.old)
        (J.history journal.old) J.reading register.old.provider.setting
        (held register.old (J.meter journal.old)) }
    ensures sound { IsSound (J.is_ready journal.new) (J.waits journal.new) (J.kept journal.new)
        (J.history journal.new) J.reading register.new.provider.setting
        (held register.new (J.meter journal.new)) }
    ensures ok { IfOk result (Answers (work_entry register.old.provider.state connection)
        (book_of register.old) (book_of register.new)) }
    ensures err { IfErr result (Fails (work_entry register.old.provider.state connection)
        (held register.old (J.meter journal.old))
        (held register.new (J.meter journal.new))) }
    ensures was_open { OnOk result (IsOpen (book_of register.old)) }
    ensures printable { IfOk result (λ r. All IsPrintable r.messages.items) }
{
    match register.check() {
        Ok(()) => {
            let asked = work_entry(&register.provider, connection);
            answer(alloc, register, journal, asked)
        }
        Err(fault) => Err(fault),
    }
}

/// The provider's clock goes on.
pub fn take_tick<J: Journal>(
    alloc: Global,
    register: &mut Register,
    journal: &mut J,
    to: Second,
) -> Result<Reply, BookFault>
    requires sound { IsSound (J.is_ready journal.old) (J.waits journal.old) (J.kept journal.old)
        (J.history journal.old) J.reading register.old.provider.setting
        (held register.old (J.meter journal.old)) }
    requires later { register.old.provider.state.now ≤ to }
    ensures sound { IsSound (J.is_ready journal.new) (J.waits journal.new) (J.kept journal.new)
        (J.history journal.new) J.reading register.new.provider.setting
        (held register.new (J.meter journal.new)) }
    ensures ok { IfOk result
        (Answers (Some (tick_entry to)) (book_of register.old) (book_of register.new)) }
    ensures err { IfErr result (Fails (Some (tick_entry to))
        (held register.old (J.meter journal.old))
        (held register.new (J.meter journal.new))) }
    ensures was_open { OnOk result (IsOpen (book_of register.old)) }
    ensures printable { IfOk result (λ r. All IsPrintable r.messages.items) }
{
    match register.check() {
        Ok(()) => {
            let entry = Entry {
                second: to,
                input: Input::Tick,
            };
            answer(alloc, register, journal, Some(entry))
        }
        Err(fault) => Err(fault),
    }
}
