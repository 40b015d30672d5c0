//! Requesters race for a provider, and what they kept is compared with its history.

ghost use Rattle.std.specs.Prelude.{◌≡◌, ◌==◌, ◌<◌, ◌≤◌, All, length, IfOk, IfErr, OnOk, false};
ghost use Rattle.stp_topology.specs.Sound.{IsProvider};
ghost use Rattle.trace_text.specs.Lines.{HasLine};
ghost use Rattle.shared_provider.specs.Asked.{tick_entry};
ghost use Rattle.shared_provider.specs.Book.{IsBook, counted, fresh, entered};
ghost use Rattle.race_run.specs.Scripts.{AreAsks};
ghost use Rattle.race_threads.specs.Raced.{IsRaced, AreKept, AreOfOne, AllSame, begun_book, IsAskTo, HasFault, IsBroken, cause_of, start_cause_of};

use crate::alone::{serve_alone, sole_asker};
use crate::callers::{Race, serve_all};
use disk_journal::{DiskJournal, StartCause, StartFault};
use journal_entry::Journal;
use nsi_base::{AgentNo, Second};
use nsi_disk::Disk;
use race_caller::{Door, Gate};
use race_judging::{Course, Own, Verdict, judge};
use race_run::Difference;
use shared_provider::{Book, BookFault, Reply, SharedProvider};
use std::alloc::{AllocError, Global};
use std::sync::Wait;
use std::thread::Threads;
use stp_topology::Topology;

/// It lets every call through.
#[derive(Clone, Copy, Debug)]
pub struct NoGate;

impl Gate for NoGate {
    fn pass(&self, _caller: u16, _call: u32) {}
}

/// What the provider's book is made of: a topology of its own, and an empty disk.
#[derive(Drop)]
pub struct BookParts<D: Disk + Drop> {
    pub topology: Topology,
    pub disk: D,
}

/// A race that came to its end.
#[derive(Drop)]
pub struct Raced<D: Disk + Drop> {
    /// What happened at the provider, and the disk.
    pub book: Book<DiskJournal<D>>,
    /// How many records have something committed.
    pub committed: u64,
}

/// Why a race has no answer.
#[derive(Debug, Drop)]
pub enum RaceCause {
    /// What a requester kept isn't what the history has of it, there first.
    Differ(Difference),
    /// A call of the disk failed or stopped it.
    DiskFault,
    NoMemory,
}

/// Why a race has no answer, and its disk.
#[derive(Drop)]
pub struct RaceFault<D: Disk + Drop> {
    pub cause: RaceCause,
    pub disk: D,
}

/// The cause of a fault of the book.
fn cause_of(fault: BookFault) -> RaceCause
    ensures { result ≡ cause_of fault }
{
    match fault {
        BookFault::DiskFault { .. } | BookFault::Closed { .. } => RaceCause::DiskFault,
        BookFault::Full | BookFault::NoMemory => RaceCause::NoMemory,
    }
}

/// The cause of a journal that wasn't begun.
fn start_cause_of(cause: StartCause) -> RaceCause
    ensures { result ≡ start_cause_of cause }
{
    match cause {
        StartCause::DiskFault | StartCause::Stopped => RaceCause::DiskFault,
        StartCause::NotAJournal { .. } | StartCause::NoMemory => RaceCause::NoMemory,
    }
}

fn let_go(reply: Reply) {
    drop(reply);
}

/// The clock of a new book goes to the second.
fn set_clock<J: Journal>(alloc: Global, book: &mut Book<J>, second: Second) -> Result<(), RaceCause>
    requires running { book.old.book.faults ≡ 0 }
    requires later { book.old.book.state.now ≤ second }
    ensures ticked { OnOk result (book.new.book ≡ entered (tick_entry second) book.old.book) }
    ensures fault { IfErr result (IsBroken book.new.meter) }
{
    match book.tick(alloc, second) {
        Ok(reply) => {
            let_go(reply);
            Ok(())
        }
        Err(fault) => Err(cause_of(fault)),
    }
}

/// The provider's book over an emptied disk.
fn new_book<D: Disk + Drop>(
    alloc: Global,
    parts: BookParts<D>,
    provider: AgentNo,
) -> Result<Book<DiskJournal<D>>, RaceFault<D>>
    requires within { provider < length parts.topology.agents }
    requires provider { IsProvider parts.topology provider }
    requires runs { (D.meter parts.disk).stopped ≡ false }
    requires counts { counted (D.meter parts.disk) ≡ 0 }
    ensures running { IfOk result (λ b. b.book.faults ≡ 0) }
    ensures clock { IfOk result (λ b. b.book.state.now ≡ 0) }
    ensures fresh { IfOk result (λ b. b.book ≡ fresh parts.topology provider) }
    ensures fault { IfErr result (λ f. IsBroken (D.meter f.disk) f.cause) }
{
    let BookParts { topology, disk } = parts;
    match Book::new(alloc, topology, provider, disk) {
        Ok(book) => Ok(book),
        Err(fault) => {
            let StartFault { cause, disk } = fault;
            let cause = start_cause_of(cause);
            Err(RaceFault { cause, disk })
        }
    }
}

/// The provider's book, whose clock stands at the second of the script.
fn begin<D: Disk + Drop>(
    alloc: Global,
    parts: BookParts<D>,
    race: &Race<'_>,
) -> Result<Book<DiskJournal<D>>, RaceFault<D>>
    requires within { race.now.provider < length parts.topology.agents }
    requires provider { IsProvider parts.topology race.now.provider }
    requires runs { (D.meter parts.disk).stopped ≡ false }
    requires counts { counted (D.meter parts.disk) ≡ 0 }
    ensures begun { IfOk result (λ b. b.book
        ≡ begun_book parts.topology race.now.provider race.now.start) }
    ensures fault { IfErr result (λ f. IsBroken (D.meter f.disk) f.cause) }
{
    let mut book = new_book(alloc, parts, race.provider)?;
    let Some(second) = race.start else {
        return Ok(book);
    };
    match set_clock(alloc, &mut book, second) {
        Ok(()) => Ok(book),
        Err(cause) => {
            let disk = book.into_disk();
            Err(RaceFault { cause, disk })
        }
    }
}

/// The callers where one alone is asked, and the book when all have ended. There is no lock and no thread.
fn run_alone<J: Journal>(
    alloc: Global,
    topology: &Topology,
    race: &Race<'_>,
    book: Book<J>,
    asked: AgentNo,
) -> (Book<J>, Result<Vec<Own>, AllocError>)
    requires within { race.now.provider < length topology.now.agents }
    requires provider { IsProvider topology.now race.now.provider }
    requires printable { AreAsks race.now.acts.now }
    requires asks { All (IsAskTo asked) race.now.acts.now }
    requires begun { book.book ≡ begun_book topology.now race.now.provider race.now.start }
    ensures kept { IfOk result.1 (λ v. AreKept topology.now race.now.provider
        race.now.start race.now.acts.now v.items) }
    ensures same { length race.now.acts.now ≤ 100000 → result.0.book.faults ≡ 0 →
        IfOk result.1 (λ v. AllSame topology.now race.now.provider race.now.start
        result.0.book.events v.items) }
{
    let mut book = book;
    let owns = serve_alone(alloc, topology, race, &mut book, asked);
    (book, owns)
}

/// The callers, and the book when all have ended.
fn run<J: Journal + Drop + Send, R: Threads + Wait + Sync, G: Gate + Sync>(
    rt: &R,
    alloc: Global,
    topology: &Topology,
    race: &Race<'_>,
    book: Book<J>,
    gate: &G,
) -> (Book<J>, Result<Vec<Own>, AllocError>)
    requires within { race.now.provider < length topology.now.agents }
    requires provider { IsProvider topology.now race.now.provider }
    requires printable { AreAsks race.now.acts.now }
    requires begun { book.book ≡ begun_book topology.now race.now.provider race.now.start }
    ensures kept { IfOk result.1 (λ v. AreKept topology.now race.now.provider
        race.now.start race.now.acts.now v.items) }
    ensures same { AreOfOne race.now.acts.now → result.0.book.faults ≡ 0 →
        IfOk result.1 (λ v. AllSame topology.now race.now.provider race.now.start
        result.0.book.events v.items) }
{
    if let Some(asked) = sole_asker(race.acts, race.provider) {
        return run_alone(alloc, topology, race, book, asked);
    }
    let (shared, mut pass) = match SharedProvider::new(alloc, book) {
        Ok(both) => both,
        Err(book) => return (book, Err(AllocError)),
    };
    let door = Door {
        rt,
        alloc,
        topology,
        shared: &shared,
        gate,
    };
    let owns = serve_all(&door, race, &mut pass);
    (shared.into_book(), owns)
}

/// Whether a book is the provider's.
fn is_of<J: Journal>(book: &Book<J>, provider: AgentNo) -> bool
    ensures { result ≡ (book.now.book.agent == provider) }
{
    book.agent() == provider
}

/// How many records have something committed, where what was kept is what the history has.
fn compared<J: Journal>(
    alloc: Global,
    topology: &Topology,
    race: &Race<'_>,
    book: &Book<J>,
    owns: &[Own],
) -> Result<u64, RaceCause>
    requires within { race.now.provider < length topology.now.agents }
    requires provider { IsProvider topology.now race.now.provider }
    requires running { book.now.book.faults ≡ 0 }
    requires own { book.now.book.agent ≡ race.now.provider }
    requires kept { AreKept topology.now race.now.provider race.now.start race.now.acts.now
        owns.now }
    requires same { AreOfOne race.now.acts.now → AllSame topology.now race.now.provider
        race.now.start book.now.book.events owns.now }
    ensures raced { IfOk result (IsRaced topology.now race.now.provider race.now.start
        race.now.acts.now book.now.book.events) }
    ensures lines { OnOk result (All (HasLine topology.now) book.now.book.events) }
    ensures fault { IfErr result (HasFault topology.now race.now.provider race.now.start
        race.now.acts.now book.now.meter) }
{
    book.facts();
    let course = Course {
        provider: race.provider,
        start: race.start,
        history: book.history(),
    };
    match judge(alloc, topology, &course, owns) {
        Ok(Verdict::Same { committed }) => Ok(committed),
        Ok(Verdict::Differs(difference)) => Err(RaceCause::Differ(difference)),
        Err(_) => Err(RaceCause::NoMemory),
    }
}

/// The same, where the book took no harm. A lock doesn't tell which book it held, so the provider is looked at again.
fn weigh<J: Journal>(
    alloc: Global,
    topology: &Topology,
    race: &Race<'_>,
    book: &Book<J>,
    owns: Result<Vec<Own>, AllocError>,
) -> Result<u64, RaceCause>
    requires within { race.now.provider < length topology.now.agents }
    requires provider { IsProvider topology.now race.now.provider }
    requires kept { IfOk owns (λ v. AreKept topology.now race.now.provider
        race.now.start race.now.acts.now v.items) }
    requires same { AreOfOne race.now.acts.now → book.now.book.faults ≡ 0 →
        IfOk owns (λ v. AllSame topology.now race.now.provider race.now.start
        book.now.book.events v.items) }
    ensures raced { IfOk result (IsRaced topology.now race.now.provider race.now.start
        race.now.acts.now book.now.book.events) }
    ensures lines { OnOk result (All (HasLine topology.now) book.now.book.events) }
    ensures fault { IfErr result (HasFault topology.now race.now.provider race.now.start
        race.now.acts.now book.now.meter) }
{
    book.facts();
    if book.faults() > 0 {
        return Err(RaceCause::DiskFault);
    }
    let Ok(owns) = owns else {
        return Err(RaceCause::NoMemory);
    };
    if is_of(book, race.provider) {
        compared(alloc, topology, race, book, &owns)
    } else {
        Err(RaceCause::NoMemory)
    }
}

/// Each requester of the provider asks what is asked of it, in a thread of its own where one can be made. Then what
/// each kept is compared with what the history has of it.
pub fn race<D: Disk + Drop + Send, R: Threads + Wait + Sync, G: Gate + Sync>(
    rt: &R,
    alloc: Global,
    topology: &Topology,
    race: &Race<'_>,
    parts: BookParts<D>,
    gate: &G,
) -> Result<Raced<D>, RaceFault<D>>
    requires same { parts.topology ≡ topology.now }
    requires within { race.now.provider < length topology.now.agents }
    requires provider { IsProvider topology.now race.now.provider }
    requires printable { AreAsks race.now.acts.now }
    requires runs { (D.meter parts.disk).stopped ≡ false }
    requires counts { counted (D.meter parts.disk) ≡ 0 }
    ensures raced { IfOk result (λ r. IsRaced topology.now race.now.provider race.now.start
        race.now.acts.now r.book.book.events r.committed) }
    ensures lines { IfOk result (λ r. All (HasLine topology.now) r.book.book.events) }
    ensures fault { IfErr result (λ f. HasFault topology.now race.now.provider race.now.start
        race.now.acts.now (D.meter f.disk) f.cause) }
{
    let book = begin(alloc, parts, race)?;
    let (book, owns) = run(rt, alloc, topology, race, book, gate);
    match weigh(alloc, topology, race, &book, owns) {
        Ok(committed) => Ok(Raced { book, committed }),
        Err(cause) => {
            let disk = book.into_disk();
            Err(RaceFault { cause, disk })
        }
    }
}
