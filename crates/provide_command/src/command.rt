//! The command `provide`: a topology, the journal of its first provider, and then one line after another.

ghost use Rattle.std.specs.Prelude.{◌≡◌, ◌<◌, ◌≤◌, ◌+◌, ℕ, List, Option, Some, Ok, false, is_some, All, IfOk, IfErr, OnOk, OnErr, IsErrOf, length};
ghost use Rattle.line_reader.specs.Held.{budget, to_come, rest_of};
ghost use Rattle.nsi_primitive.specs.Printable.{IsPrintableEntry};
ghost use Rattle.provide_command.specs.Declares.{IsOpening};
ghost use Rattle.fault_lines.specs.Counts.{counted};
ghost use Rattle.provide_command.specs.Halts.{HasHaltCause, HasHaltCounts, CountsHalts, opened_step};
ghost use Rattle.provide_command.specs.Backed.{BacksProvider, Backs};
ghost use Rattle.provide_command.specs.Keeping.{KeepsLines, KeepsStated, LeavesBacked, LeavesTold, ends_whole};
ghost use Rattle.provider_agent.specs.Setting.{setting_of, own_stp};
ghost use Rattle.nsi_disk.specs.Disk.{Fresh};
ghost use Rattle.provide_command.specs.Lines.{long_line};
ghost use Rattle.provide_command.specs.Outcome.{begins_behind, journal_fault};
ghost use Rattle.provide_command.specs.Phases.{Reading, in_service};
ghost use Rattle.provide_command.specs.Promise.{Writes, WritesFront, promised, promise_of, ended, IsSameEnd};
ghost use Rattle.provide_command.specs.UpTo.{IsUpToIf, HaltsAt, IsBegun};
ghost use Rattle.provide_command.specs.Provided.{IsUnread, HasFailed, refused_text, file_of, ServedTo, ConcludesFault, Concludes, HasProvided, CountsEnd};
ghost use Rattle.command_limits.specs.Limits.{most_events};
ghost use Rattle.provide_command.specs.declared.status.Status.{Status as AStatus};
ghost use Rattle.stp_topology.specs.Network.{name_of};

use crate::declaring::{Begun, Declaration, declare_all};
use crate::output::{Fault, Halt, disk_fault, read_fault, write_text};
use crate::service::Service;
use crate::serving::{Desk, serve_all};
use crate::status::{Ending, Status};
use command_limits::EventLimit;
use disk_journal::{DiskJournal, StartCause, StartFault};
use fault_lines::journal_fault;
use journal_entry::Journal;
use line_reader::LineReader;
use nsi_base::{GREATEST_INPUT, Name};
use nsi_disk::{Disk, Shelf, ShelfError};
use nsi_outside::{Sink, Source};
use nsi_primitive::Entry;
use std::alloc::{AllocError, Global};
use stp_topology::Topology;

/// The provider behind the entries of its journal, or that they are more than there may be events.
fn open<K: Sink>(
    alloc: Global,
    out: &mut K,
    begun: Begun,
    entries: &[Entry],
) -> Result<Option<Service>, Halt>
    requires opening { IsOpening begun.topology begun.provider }
    requires printable { All IsPrintableEntry entries.now }
    ensures step { IfOk result
        (λ o. opened_step o
        ≡ (begins_behind begun.most begun.topology begun.provider (Ok entries.now)).step) }
    ensures all { OnOk result
        (Writes (K.content out.old) (K.content out.new)
        (begins_behind begun.most begun.topology begun.provider (Ok entries.now)).text) }
    ensures front { OnErr result
        (WritesFront (K.content out.old) (K.content out.new)
        (begins_behind begun.most begun.topology begun.provider (Ok entries.now)).text) }
    ensures not_disk { IsErrOf result Halt.Disk → ⊥ }
    ensures faults { CountsHalts result (K.faults out.old) (K.faults out.new) }
{
    let Begun {
        topology,
        provider,
        most,
        number: _,
    } = begun;
    if entries.len() as u64 > most.get() {
        return too_long(out, topology);
    }
    match Service::open(alloc, topology, provider, most, entries) {
        Ok(service) => Ok(Some(service)),
        Err(_) => Err(Halt::Outside(Fault::NoMemory)),
    }
}

/// Writes that the journal has more entries than there may be events.
fn too_long<K: Sink>(out: &mut K, topology: Topology) -> Result<Option<Service>, Halt>
    ensures ended { IfOk result (λ o. o ≡ None) }
    ensures all { OnOk result (Writes (K.content out.old) (K.content out.new) long_line) }
    ensures front { OnErr result (WritesFront (K.content out.old) (K.content out.new) long_line) }
    ensures not_disk { IsErrOf result Halt.Disk → ⊥ }
    ensures faults { CountsHalts result (K.faults out.old) (K.faults out.new) }
{
    drop(topology);
    write_text(out, b"fault long\n")?;
    Ok(None)
}

/// Serves lines from a number on, and hands the journal back.
fn serve_from<S: Source, K: Sink, J: Journal>(
    alloc: Global,
    input: &mut S,
    reader: &mut LineReader,
    out: &mut K,
    number: u64,
    desk: Desk<J>,
) -> (Result<Ending, Halt>, J)
    requires few { number + budget reader.old ≤ 67108866 }
    requires ready { J.is_ready desk.journal }
    requires none { J.waits desk.journal ≡ false }
    ensures ends { (read : Reading) (promise : Option (AStatus × List ℕ)) →
        IsSameEnd promise
        (promised read number (in_service desk.service) (K.content out.old)
        (to_come reader.old (S.left input.old)))
        → IfOk result.0 (λ ending. IsSameEnd promise (ended ending (K.content out.new))) }
    ensures halts { (read : Reading) (most : ℕ) (first start : Option (List ℕ)) →
        IsUpToIf read most first start number (in_service desk.service) (K.content out.old)
        (rest_of reader.old (S.left input.old)) (to_come reader.old (S.left input.old))
        → IfErr result.0
        (λ halt. HaltsAt read most first start halt reader.new (S.left input.new)
        (K.content out.new)) }
    ensures counts { HasHaltCounts result.0 (S.faults input.old) (S.faults input.new)
        (K.faults out.old) (K.faults out.new) }
    ensures cause { HasHaltCause result.0 (J.meter desk.journal) (J.meter result.1) }
    ensures kept { KeepsLines J.reading desk.service (J.kept desk.journal) (K.content out.old)
        result.0 (J.history result.1) (K.content out.new) }
    ensures tells { is_some (J.history result.1) ≡ is_some (J.history desk.journal) }
{
    let mut desk = desk;
    let end = serve_all(alloc, input, reader, out, number, &mut desk);
    (end, close(desk))
}

/// Lets go of the service.
fn close<J>(desk: Desk<J>) -> J
    ensures { result ≡ desk.journal }
{
    let Desk { service, journal } = desk;
    drop(service);
    journal
}

/// Serves behind the entries of a journal, which is handed back.
fn serve_journal<S: Source, K: Sink, J: Journal>(
    alloc: Global,
    input: &mut S,
    reader: &mut LineReader,
    out: &mut K,
    begun: Begun,
    read: (J, Vec<Entry>),
) -> (Result<Ending, Halt>, J)
    requires opening { IsOpening begun.topology begun.provider }
    requires few { begun.number + budget reader.old ≤ 67108865 }
    requires ready { J.is_ready read.0 }
    requires none { J.waits read.0 ≡ false }
    requires printable { All IsPrintableEntry read.1.items }
    requires most { begun.most ≤ most_events }
    requires stated { KeepsStated read.1.items (J.history read.0) (J.kept read.0) }
    ensures ends { (first start : Option (List ℕ)) →
        IsBegun begun.most first start begun.number begun.topology begun.provider
        (K.content out.old) (rest_of reader.old (S.left input.old))
        (to_come reader.old (S.left input.old))
        → IfOk result.0
        (λ ending.
        IsSameEnd (promise_of (Ok read.1.items) begun.most first start)
        (ended ending (K.content out.new))) }
    ensures halts { (first start : Option (List ℕ)) →
        IsBegun begun.most first start begun.number begun.topology begun.provider
        (K.content out.old) (rest_of reader.old (S.left input.old))
        (to_come reader.old (S.left input.old))
        → IfErr result.0
        (λ halt. HaltsAt (Ok read.1.items) begun.most first start halt reader.new
        (S.left input.new) (K.content out.new)) }
    ensures counts { HasHaltCounts result.0 (S.faults input.old) (S.faults input.new)
        (K.faults out.old) (K.faults out.new) }
    ensures cause { HasHaltCause result.0 (J.meter read.0) (J.meter result.1) }
    ensures left { LeavesTold (ends_whole result.0) (setting_of begun.topology begun.provider)
        (own_stp begun.topology begun.provider) J.reading read.1.items (J.history result.1)
        (K.content out.old) (K.content out.new) }
    ensures tells { is_some (J.history result.1) ≡ is_some (J.history read.0) }
{
    let (journal, entries) = read;
    let number = begun.number;
    match open(alloc, out, begun, &entries) {
        Ok(Some(service)) => {
            let desk = Desk { service, journal };
            serve_from(alloc, input, reader, out, number + 1, desk)
        }
        Ok(None) => (Ok(Ending::Long), journal),
        Err(halt) => (Err(halt), journal),
    }
}

/// Why a journal wasn't begun; where its bytes are none, that is written.
fn refuse<K: Sink>(
    alloc: Global,
    out: &mut K,
    begun: &Begun,
    cause: StartCause,
) -> Result<Ending, Halt>
    requires opening { IsOpening begun.now.topology begun.now.provider }
    ensures ending { IfOk result (λ e. (e ≡ Ending.NotAJournal) × IsUnread cause) }
    ensures all { OnOk result
        (Writes (K.content out.old) (K.content out.new)
        (refused_text (name_of begun.now.topology begun.now.provider) cause)) }
    ensures front { OnErr result
        (WritesFront (K.content out.old) (K.content out.new)
        (refused_text (name_of begun.now.topology begun.now.provider) cause)) }
    ensures disk { IsErrOf result Halt.Disk → HasFailed cause }
    ensures unwritten { IsErrOf result Halt.Disk → K.content out.new ≡ K.content out.old }
    ensures faults { CountsHalts result (K.faults out.old) (K.faults out.new) }
{
    match cause {
        StartCause::NotAJournal { place } => not_a_journal(alloc, out, begun, place),
        StartCause::DiskFault | StartCause::Stopped => Err(Halt::Disk),
        StartCause::NoMemory => Err(Halt::Outside(Fault::NoMemory)),
    }
}

/// Writes that the bytes of the disk are no journal.
fn not_a_journal<K: Sink>(
    alloc: Global,
    out: &mut K,
    begun: &Begun,
    place: u64,
) -> Result<Ending, Halt>
    requires opening { IsOpening begun.now.topology begun.now.provider }
    ensures ending { IfOk result (λ e. e ≡ Ending.NotAJournal) }
    ensures all { OnOk result
        (Writes (K.content out.old) (K.content out.new)
        (journal_fault (name_of begun.now.topology begun.now.provider) place)) }
    ensures front { OnErr result
        (WritesFront (K.content out.old) (K.content out.new)
        (journal_fault (name_of begun.now.topology begun.now.provider) place)) }
    ensures not_disk { IsErrOf result Halt.Disk → ⊥ }
    ensures faults { CountsHalts result (K.faults out.old) (K.faults out.new) }
{
    let Ok(text) = journal_fault(alloc, begun.topology.name(begun.provider), place) else {
        return Err(Halt::Outside(Fault::NoMemory));
    };
    write_text(out, &text)?;
    Ok(Ending::NotAJournal)
}

/// Reads the journal of a disk, and serves behind it.
fn serve_disk<S: Source, K: Sink, D: Disk>(
    alloc: Global,
    input: &mut S,
    reader: &mut LineReader,
    out: &mut K,
    begun: Begun,
    disk: D,
) -> (Result<Ending, Halt>, D)
    requires opening { IsOpening begun.topology begun.provider }
    requires few { begun.number + budget reader.old ≤ 67108865 }
    requires runs { (D.meter disk).stopped ≡ false }
    requires most { begun.most ≤ most_events }
    ensures served { (first start : Option (List ℕ)) →
        IsBegun begun.most first start begun.number begun.topology begun.provider
        (K.content out.old) (rest_of reader.old (S.left input.old))
        (to_come reader.old (S.left input.old))
        → ServedTo (file_of (D.history disk)) begun.most first start result.0 reader.new
        (S.left input.new) (K.content out.new) }
    ensures counts { HasHaltCounts result.0 (S.faults input.old) (S.faults input.new)
        (K.faults out.old) (K.faults out.new) }
    ensures cause { HasHaltCause result.0 (D.meter disk) (D.meter result.1) }
    ensures left { (file : List ℕ) → D.history disk ≡ Some (Fresh file) →
        LeavesBacked (ends_whole result.0) file begun.topology begun.provider (D.history result.1)
        (K.content out.old) (K.content out.new) }
{
    match DiskJournal::start(alloc, disk) {
        Ok(read) => {
            let (end, journal) = serve_journal(alloc, input, reader, out, begun, read);
            (end, journal.into_disk())
        }
        Err(fault) => {
            let StartFault { cause, disk } = fault;
            (refuse(alloc, out, &begun, cause), disk)
        }
    }
}

/// The status of an end, or the line of a fault from outside.
fn conclude<K: Sink>(alloc: Global, out: &mut K, name: &Name, end: Result<Ending, Halt>) -> Status
    ensures { Concludes name.now end result (K.content out.old) (K.content out.new)
        (K.faults out.old) (K.faults out.new) }
{
    match end {
        Ok(ending) => ending.status(),
        Err(Halt::Outside(fault)) => outside(out, fault),
        Err(Halt::Disk) => disk_fault(alloc, out, name),
    }
}

/// How the command ends at a fault from outside. A fault of reading is written.
fn outside<K: Sink>(out: &mut K, fault: Fault) -> Status
    ensures { ConcludesFault fault result (K.content out.old) (K.content out.new) (K.faults out.old)
        (K.faults out.new) }
{
    match fault {
        Fault::Read => read_fault(out),
        Fault::Write => Status::WriteFault,
        Fault::NoMemory => Status::NoMemory,
    }
}

/// The name of the provider.
fn own_name(begun: &Begun) -> Result<Name, AllocError>
    requires { begun.now.provider < length begun.now.topology.agents }
    ensures { IfOk result (λ name. name ≡ name_of begun.now.topology begun.now.provider) }
{
    begun.topology.name(begun.provider).copy()
}

/// Fetches the disk of the provider, and serves behind its journal.
fn serve_shelf<S: Source, K: Sink, H: Shelf>(
    alloc: Global,
    input: &mut S,
    reader: &mut LineReader,
    out: &mut K,
    begun: Begun,
    shelf: &mut H,
) -> Status
    requires opening { IsOpening begun.topology begun.provider }
    requires few { begun.number + budget reader.old ≤ 67108865 }
    requires most { begun.most ≤ most_events }
    ensures provided { (first start : Option (List ℕ)) →
        IsBegun begun.most first start begun.number begun.topology begun.provider
        (K.content out.old) (rest_of reader.old (S.left input.old))
        (to_come reader.old (S.left input.old))
        → HasProvided (H.holds shelf.old) begun.most first start (S.left input.new)
        (counted (S.faults input.old) (H.faults shelf.old) (H.stops shelf.old))
        (counted (S.faults input.new) (H.faults shelf.new) (H.stops shelf.new))
        result (K.content out.new) }
    ensures counts { CountsEnd
        (counted (S.faults input.old) (H.faults shelf.old) (H.stops shelf.old))
        (counted (S.faults input.new) (H.faults shelf.new) (H.stops shelf.new))
        (K.faults out.old) (K.faults out.new) result }
    ensures backed { BacksProvider (H.holds shelf.old) (H.holds shelf.new) begun.topology
        begun.provider (K.content out.old) (K.content out.new) }
{
    let Ok(name) = own_name(&begun) else {
        return Status::NoMemory;
    };
    match shelf.fetch(alloc, &name, &[]) {
        Ok(disk) => {
            let (end, disk) = serve_disk(alloc, input, reader, out, begun, disk);
            shelf.give_back(&name, disk);
            conclude(alloc, out, &name, end)
        }
        Err(ShelfError::Failed) => disk_fault(alloc, out, &name),
        Err(ShelfError::NoMemory) => Status::NoMemory,
    }
}

/// The command `provide`.
pub fn provide<S: Source, K: Sink, H: Shelf>(
    alloc: Global,
    most: EventLimit,
    input: &mut S,
    out: &mut K,
    shelf: &mut H,
) -> Status
    requires { most ≤ most_events }
    ensures provided { HasProvided (H.holds shelf.old) most (K.content out.old) (S.left input.old)
        (S.left input.new)
        (counted (S.faults input.old) (H.faults shelf.old) (H.stops shelf.old))
        (counted (S.faults input.new) (H.faults shelf.new) (H.stops shelf.new))
        result (K.content out.new) }
    ensures counts { CountsEnd
        (counted (S.faults input.old) (H.faults shelf.old) (H.stops shelf.old))
        (counted (S.faults input.new) (H.faults shelf.new) (H.stops shelf.new))
        (K.faults out.old) (K.faults out.new) result }
    ensures backed { Backs (H.holds shelf.old) (H.holds shelf.new) (K.content out.old)
        (S.left input.old) (K.content out.new) }
{
    let mut reader = LineReader::new(alloc, GREATEST_INPUT);
    match declare_all(alloc, input, &mut reader, out, most) {
        Ok(Declaration::Begun(begun)) => serve_shelf(alloc, input, &mut reader, out, begun, shelf),
        Ok(Declaration::Ended(ending)) => ending.status(),
        Err(fault) => outside(out, fault),
    }
}
