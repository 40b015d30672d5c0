//! A provider with its journal and its history.

ghost use Rattle.std.specs.Prelude.{◌≡◌, ◌<◌, ◌≤◌, [], length, All, IfOk, IfErr, IfSome, OnOk, Some, None, false};
ghost use Rattle.nsi_primitive.specs.Printable.{IsPrintable, IsRequest};
ghost use Rattle.stp_topology.specs.Sound.{IsProvider};
ghost use Rattle.shared_provider.specs.Asked.{took_entry, work_entry, tick_entry};
ghost use Rattle.shared_provider.specs.Book.{fresh, counted, IsOpen, IsBook, Recovers};
ghost use Rattle.shared_provider.specs.Answers.{Answers, Fails};

use crate::register::{Register, do_work, take_request, take_tick};
use crate::reply::{BookFault, Reply};
use journal_entry::Journal;
use nsi_base::{AgentNo, Second};
use nsi_primitive::{Event, Id, Message};
use provider_agent::Provider;
use std::alloc::Global;
use std::marker::Model;
use stp_topology::Topology;

/// A provider with its journal and its history. Each entry is synced before it is answered; a fault of the disk closes it for good.
#[derive(Drop)]
pub struct Book<J: Journal> {
    register: Register,
    journal: J,
}

impl<J: Journal> Model for Book<J> {
    ghost use Rattle.shared_provider.specs.Book.{Held};
    ghost use Rattle.shared_provider.specs.Sound.{IsSound, held};

    ghost Value = { Held };

    ghost view = { λ b. held b.register (J.meter b.journal) };

    ghost invariant = { λ b.
        IsSound (J.is_ready b.journal) (J.waits b.journal) (J.kept b.journal) (J.history b.journal) J.reading
        b.register.provider.setting (held b.register (J.meter b.journal)) };
}

impl<J: Journal> Book<J> {
    /// The book of a provider of the topology, over a journal without entries, whose disk has counted no fault and no stop.
    /// Where memory is wanting, the journal is given back.
    pub fn over(alloc: Global, topology: Topology, agent: AgentNo, journal: J) -> Result<Book<J>, J>
        requires within { agent < length topology.agents }
        requires provider { IsProvider topology agent }
        requires ready { J.is_ready journal }
        requires none { J.waits journal ≡ false }
        requires empty { IfSome (J.kept journal) (λ k. k.synced ≡ []) }
        requires counts { counted (J.meter journal) ≡ 0 }
        ensures fresh { IfOk result (λ b. b.book ≡ fresh topology agent) }
        ensures meter { IfOk result (λ b. b.meter ≡ J.meter journal) }
        ensures back { IfErr result (λ j. j ≡ journal) }
    {
        match Provider::new(alloc, &topology, agent) {
            Ok(provider) => {
                let register = Register {
                    topology,
                    agent,
                    provider,
                    history: Vec::new(alloc),
                    faults: 0,
                };
                Ok(Book { register, journal })
            }
            Err(_) => Err(journal),
        }
    }

    /// It costs nothing, and tells what is true of every book.
    pub fn facts(&self)
        ensures { IsBook self.now }
    {
        self.register.provider.facts();
        let _journal = &self.journal;
    }

    /// Takes a request, unless it was seen before.
    pub fn took(&mut self, alloc: Global, message: Message) -> Result<Reply, BookFault>
        requires request { IsRequest message }
        requires printable { IsPrintable message }
        ensures ok { let asked = took_entry self.old.book.state message in
            IfOk result (Answers asked self.old.book self.new.book) }
        ensures err { let asked = took_entry self.old.book.state message in
            IfErr result (Fails asked self.old self.new) }
        ensures was_open { OnOk result (IsOpen self.old.book) }
        ensures printable { IfOk result (λ r. All IsPrintable r.messages.items) }
    {
        take_request(alloc, &mut self.register, &mut self.journal, message)
    }

    /// Does the first work that waits on a connection, where some does.
    pub fn work(&mut self, alloc: Global, connection: Id) -> Result<Reply, BookFault>
        ensures ok { let asked = work_entry self.old.book.state connection in
            IfOk result (Answers asked self.old.book self.new.book) }
        ensures err { let asked = work_entry self.old.book.state connection in
            IfErr result (Fails asked self.old self.new) }
        ensures was_open { OnOk result (IsOpen self.old.book) }
        ensures printable { IfOk result (λ r. All IsPrintable r.messages.items) }
    {
        do_work(alloc, &mut self.register, &mut self.journal, connection)
    }

    /// The provider's clock goes on.
    pub fn tick(&mut self, alloc: Global, to: Second) -> Result<Reply, BookFault>
        requires later { self.old.book.state.now ≤ to }
        ensures ok { IfOk result (Answers (Some (tick_entry to)) self.old.book self.new.book) }
        ensures err { IfErr result (Fails (Some (tick_entry to)) self.old self.new) }
        ensures was_open { OnOk result (IsOpen self.old.book) }
        ensures printable { IfOk result (λ r. All IsPrintable r.messages.items) }
    {
        take_tick(alloc, &mut self.register, &mut self.journal, to)
    }

    /// How many entries it has taken.
    pub fn taken(&self) -> u64
        ensures { result ≡ self.now.book.state.taken }
    {
        self.register.provider.taken()
    }

    /// The second of its clock; 0 before any tick.
    pub fn now(&self) -> Second
        ensures { result ≡ self.now.book.state.now }
    {
        self.register.provider.now()
    }

    /// What happened, in order: each entry and its sync.
    pub fn history(&self) -> &[Event]
        ensures { result.now ≡ self.now.book.events }
    {
        &self.register.history
    }

    /// 0, or 1 from its first fault of the disk on.
    pub fn faults(&self) -> u64
        ensures { result ≡ self.now.book.faults }
    {
        self.register.faults
    }

    pub fn topology(&self) -> &Topology
        ensures { result.now ≡ self.now.book.network }
    {
        &self.register.topology
    }

    /// The number of its provider.
    pub fn agent(&self) -> AgentNo
        ensures { result ≡ self.now.book.agent }
    {
        self.register.agent
    }

    /// Its journal. A crash now leaves the synced entries there; or, where the book is closed, maybe all.
    pub fn journal(&self) -> &J
        ensures left { Recovers J.reading self.now.book (J.history result.now) }
        ensures meter { J.meter result.now ≡ self.now.meter }
    {
        &self.journal
    }

    /// Gives its journal back.
    pub fn into_journal(self) -> J
        ensures left { Recovers J.reading self.book (J.history result) }
        ensures meter { J.meter result ≡ self.meter }
    {
        let Book { register, journal } = self;
        drop(register);
        journal
    }
}
