//! A topology and a script come in, and what happened at the first provider of the topology goes out.

ghost use Rattle.std.specs.Prelude.{◌≡◌, ◌≤◌, ◌<◌, ◌+◌, ◌⊎◌, ℕ, true, false, length, Err, IfOk, IfErr, IfSome, All};
ghost use Rattle.nsi_base.specs.Range.{greatest_input};
ghost use Rattle.nsi_disk.specs.Disk.{Meter};
ghost use Rattle.nsi_outside.specs.Stream.{WritesAll};
ghost use Rattle.nsi_script.specs.Scripts.{acts_of};
ghost use Rattle.stp_topology.specs.Sound.{IsProvider};
ghost use Rattle.trace_text.specs.Lines.{HasLine};
ghost use Rattle.fault_lines.specs.Counts.{counted, HasDiskFault};
ghost use Rattle.fault_lines.specs.Lines.{read_fault_line};
ghost use Rattle.topology_input.specs.Reading.{IsDeclared};
ghost use Rattle.shared_provider.specs.Book.{counted as counts};
ghost use Rattle.race_run.specs.Scripts.{IsRace, start_of};
ghost use Rattle.race_threads.specs.Raced.{IsRaced, HasFault};
ghost use Rattle.race_command.specs.Ends.{Races, is_told, IsCutShort, WritesSome};
ghost use Rattle.race_command.specs.Lines.{race_script_of};
ghost use Rattle.race_command.specs.Outcomes.{HasRaced, HasComeTo, ComesTo};
ghost use Rattle.race_command.specs.Contests.{IsContest, IsTopologyOf};
ghost use Rattle.nsi_script.specs.Text.{Reads};

use crate::ending::{Outcome, RaceEnd, bad_script, bad_topology, broken, close, too_long};
use crate::reading::read_race;
use crate::texts::{differ_lines, race_text};
use command_limits::EventLimit;
use line_reader::{ReadError, read_whole};
use nsi_base::{AgentNo, GREATEST_INPUT};
use nsi_disk::{Disk, Shelf, ShelfError};
use nsi_outside::{Sink, Source};
use nsi_script::{Script, ScriptRefusal};
use race_threads::{BookParts, NoGate, RaceCause, RaceFault, Raced, race as race_callers, race_of};
use std::alloc::{AllocError, Global};
use std::sync::Wait;
use std::thread::Threads;
use stp_topology::{Topology, TopologyFault, TopologyRefusal};
use topology_input::{Declared, read_declared};

/// What a race is made by: threads, memory, and how many events there may be.
#[derive(Drop)]
pub struct Means<'a, R> {
    pub rt: &'a R,
    pub alloc: Global,
    pub most: EventLimit,
}

/// Who is raced for, and what is asked.
#[derive(Drop)]
struct Contest {
    topology: Topology,
    provider: AgentNo,
    script: Script,
}

/// What a history that is a race's comes to: its events, unless they are too many.
fn told<D: Disk + Drop>(
    alloc: Global,
    most: EventLimit,
    contest: &Contest,
    raced: &Raced<D>,
) -> Result<Outcome, AllocError>
    requires raced { IsRaced contest.now.topology contest.now.provider
        (start_of contest.now.script.groups) (acts_of contest.now.script.groups)
        raced.now.book.book.events raced.now.committed }
    requires lines { All (HasLine contest.now.topology) raced.now.book.book.events }
    ensures { (meter : Meter) → IfOk result (HasRaced most contest.now.topology
        contest.now.provider contest.now.script meter) }
{
    let events = raced.book.history();
    if most.get() < events.len() as u64 {
        return too_long(alloc);
    }
    let text = race_text(alloc, &contest.topology, events, raced.committed)?;
    Ok(Outcome {
        end: RaceEnd::Done,
        text,
    })
}

/// Why there is no history that is a race's.
fn explained<D: Disk + Drop>(
    alloc: Global,
    contest: &Contest,
    fault: &RaceFault<D>,
) -> Result<Outcome, AllocError>
    requires within { contest.now.provider < length contest.now.topology.agents }
    requires fault { HasFault contest.now.topology contest.now.provider
        (start_of contest.now.script.groups) (acts_of contest.now.script.groups)
        (D.meter fault.now.disk) fault.now.cause }
    ensures { (most : ℕ) → IfOk result (HasRaced most contest.now.topology
        contest.now.provider contest.now.script (D.meter fault.now.disk)) }
{
    match &fault.cause {
        RaceCause::Differ(difference) => {
            let text = differ_lines(alloc, &contest.topology, difference)?;
            Ok(Outcome {
                end: RaceEnd::Differ,
                text,
            })
        }
        RaceCause::DiskFault => broken(alloc, contest.topology.name(contest.provider)),
        RaceCause::NoMemory => Err(AllocError),
    }
}

fn let_go(cause: RaceCause) {
    drop(cause);
}

/// The disk that is given back with a fault.
fn disk_of<D: Disk + Drop>(fault: RaceFault<D>) -> D
    ensures { result ≡ fault.disk }
{
    let RaceFault { cause, disk } = fault;
    let_go(cause);
    disk
}

/// What a race that came to its end comes to, and its disk.
fn ended_well<D: Disk + Drop>(
    alloc: Global,
    most: EventLimit,
    contest: &Contest,
    raced: Raced<D>,
) -> (Result<Outcome, AllocError>, D)
    requires raced { IsRaced contest.now.topology contest.now.provider
        (start_of contest.now.script.groups) (acts_of contest.now.script.groups)
        raced.book.book.events raced.committed }
    requires lines { All (HasLine contest.now.topology) raced.book.book.events }
    ensures { IfOk result.0 (HasRaced most contest.now.topology contest.now.provider
        contest.now.script (D.meter result.1)) }
{
    let outcome = told(alloc, most, contest, &raced);
    let Raced { book, committed: _ } = raced;
    (outcome, book.into_disk())
}

/// What a race that has no history comes to, and its disk.
fn ended_badly<D: Disk + Drop>(
    alloc: Global,
    most: EventLimit,
    contest: &Contest,
    fault: RaceFault<D>,
) -> (Result<Outcome, AllocError>, D)
    requires within { contest.now.provider < length contest.now.topology.agents }
    requires fault { HasFault contest.now.topology contest.now.provider
        (start_of contest.now.script.groups) (acts_of contest.now.script.groups)
        (D.meter fault.disk) fault.cause }
    ensures { IfOk result.0 (HasRaced most contest.now.topology contest.now.provider
        contest.now.script (D.meter result.1)) }
{
    let outcome = explained(alloc, contest, &fault);
    (outcome, disk_of(fault))
}

/// Races a script over the disk of the provider, and gives that back.
fn race_disk<R: Threads + Wait + Sync, D: Disk + Drop + Send>(
    means: &Means<'_, R>,
    contest: &Contest,
    parts: BookParts<D>,
) -> (Result<Outcome, AllocError>, D)
    requires same { parts.topology ≡ contest.now.topology }
    requires within { contest.now.provider < length contest.now.topology.agents }
    requires provider { IsProvider contest.now.topology contest.now.provider }
    requires race { IsRace contest.now.topology contest.now.provider contest.now.script }
    requires runs { (D.meter parts.disk).stopped ≡ false }
    requires counts { counts (D.meter parts.disk) ≡ 0 }
    ensures { IfOk result.0 (HasRaced means.now.most contest.now.topology
        contest.now.provider contest.now.script (D.meter result.1)) }
{
    let alloc = means.alloc;
    let race = race_of(contest.provider, &contest.script);
    match race_callers(means.rt, alloc, &contest.topology, &race, parts, &NoGate) {
        Ok(raced) => ended_well(alloc, means.most, contest, raced),
        Err(fault) => ended_badly(alloc, means.most, contest, fault),
    }
}

/// Fetches the disk of the provider, and races a script over it. The topology is that of the book.
fn race_script<R: Threads + Wait + Sync, H: Shelf>(
    means: &Means<'_, R>,
    contest: &Contest,
    topology: Topology,
    shelf: &mut H,
) -> Result<Outcome, AllocError>
where
    H::Disk: Drop + Send,
    requires same { topology ≡ contest.now.topology }
    requires within { contest.now.provider < length contest.now.topology.agents }
    requires provider { IsProvider contest.now.topology contest.now.provider }
    requires race { IsRace contest.now.topology contest.now.provider contest.now.script }
    ensures { IfOk result (HasComeTo means.now.most contest.now.topology
        contest.now.provider contest.now.script
        (counted 0 (H.faults shelf.old) (H.stops shelf.old))
        (counted 0 (H.faults shelf.new) (H.stops shelf.new))) }
{
    let alloc = means.alloc;
    let name = contest.topology.name(contest.provider).copy()?;
    match shelf.fetch(alloc, &name, &[]) {
        Ok(disk) => {
            let parts = BookParts { topology, disk };
            let (outcome, disk) = race_disk(means, contest, parts);
            shelf.give_back(&name, disk);
            outcome
        }
        Err(ShelfError::Failed) => broken(alloc, &name),
        Err(ShelfError::NoMemory) => Err(AllocError),
    }
}

/// The topology that a text begins with, once more.
fn read_again(alloc: Global, bytes: &[u8]) -> Result<Topology, AllocError>
    requires { length bytes.now ≤ greatest_input }
    ensures { IfOk result (λ t. (first : _) → IsDeclared bytes.now first → t ≡ first.topology) }
{
    match read_declared(alloc, bytes) {
        Ok(declared) => Ok(declared.topology),
        Err(_) => Err(AllocError),
    }
}

/// Races what stands behind a topology, over a book of the same topology, which is read once more for it.
fn race_contest<R: Threads + Wait + Sync, H: Shelf>(
    means: &Means<'_, R>,
    bytes: &[u8],
    contest: &Contest,
    shelf: &mut H,
) -> Result<Outcome, AllocError>
where
    H::Disk: Drop + Send,
    requires size { length bytes.now ≤ greatest_input }
    requires same { IsTopologyOf bytes.now contest.now.topology }
    requires within { contest.now.provider < length contest.now.topology.agents }
    requires provider { IsProvider contest.now.topology contest.now.provider }
    requires race { IsRace contest.now.topology contest.now.provider contest.now.script }
    ensures { IfOk result (HasComeTo means.now.most contest.now.topology
        contest.now.provider contest.now.script
        (counted 0 (H.faults shelf.old) (H.stops shelf.old))
        (counted 0 (H.faults shelf.new) (H.stops shelf.new))) }
{
    let own = read_again(means.alloc, bytes)?;
    race_script(means, contest, own, shelf)
}

/// The contest of a topology's provider that a text is.
fn contest_of(
    alloc: Global,
    text: &[u8],
    first_line: u32,
    topology: Topology,
    provider: AgentNo,
) -> Result<Contest, ScriptRefusal>
    requires text { length text.now ≤ greatest_input }
    requires first_line { first_line ≤ greatest_input + 1 }
    ensures contest { IfOk result (IsContest topology provider first_line text.now) }
    ensures refused { IfErr result
        (λ e. Reads (Err e) (race_script_of topology provider first_line text.now)) }
{
    match read_race(alloc, text, first_line, &topology, provider) {
        Ok(script) => Ok(Contest {
            topology,
            provider,
            script,
        }),
        Err(refusal) => Err(refusal),
    }
}

/// Reads the script behind a topology, and races it.
fn race_declared<R: Threads + Wait + Sync, H: Shelf>(
    means: &Means<'_, R>,
    bytes: &[u8],
    declared: Declared<'_>,
    shelf: &mut H,
) -> Result<Outcome, AllocError>
where
    H::Disk: Drop + Send,
    requires size { length bytes.now ≤ greatest_input }
    requires declared { IsDeclared bytes.now declared }
    requires behind { declared.lines + length declared.behind.now ≤ length bytes.now }
    ensures { IfOk result (ComesTo means.now.most bytes.now
        (counted 0 (H.faults shelf.old) (H.stops shelf.old))
        (counted 0 (H.faults shelf.new) (H.stops shelf.new))) }
{
    let alloc = means.alloc;
    let Declared {
        topology,
        lines,
        behind,
    } = declared;
    let Some(provider) = topology.first_provider() else {
        return bad_topology(alloc, lines, TopologyFault::Empty);
    };
    match contest_of(alloc, behind, lines + 1, topology, provider) {
        Ok(contest) => race_contest(means, bytes, &contest, shelf),
        Err(ScriptRefusal::Fault { line, fault }) => bad_script(alloc, line, fault),
        Err(ScriptRefusal::NoMemory) => Err(AllocError),
    }
}

/// What a race of these bytes comes to.
fn outcome_of<R: Threads + Wait + Sync, H: Shelf>(
    means: &Means<'_, R>,
    bytes: &[u8],
    shelf: &mut H,
) -> Result<Outcome, AllocError>
where
    H::Disk: Drop + Send,
    requires { length bytes.now ≤ greatest_input }
    ensures { IfOk result (ComesTo means.now.most bytes.now
        (counted 0 (H.faults shelf.old) (H.stops shelf.old))
        (counted 0 (H.faults shelf.new) (H.stops shelf.new))) }
{
    let alloc = means.alloc;
    match read_declared(alloc, bytes) {
        Ok(declared) => race_declared(means, bytes, declared, shelf),
        Err(TopologyRefusal::Fault { line, fault }) => bad_topology(alloc, line, fault),
        Err(TopologyRefusal::NoMemory) => Err(AllocError),
    }
}

/// Races the script that stands in the input behind a topology, over the disk of the topology's first provider, which is
/// emptied first. The whole input is read before anything is written. Where it doesn't return, nothing is promised.
pub fn race<R: Threads + Wait + Sync, S: Source, K: Sink, H: Shelf>(
    means: &Means<'_, R>,
    input: &mut S,
    out: &mut K,
    shelf: &mut H,
) -> RaceEnd
where
    H::Disk: Drop + Send,
    // The bytes say what may be written.
    ensures ends { is_told result ≡ true → IfSome (S.left input.old)
        (λ bytes. WritesSome (Races means.now.most bytes result)
        (K.content out.old) (K.content out.new)) }

    // A fault comes only from outside.
    ensures read_fault { result ≡ RaceEnd.ReadFault → S.faults input.old < S.faults input.new }
    ensures alone { result ≡ RaceEnd.ReadFault →
        WritesAll (K.content out.old) (K.content out.new) read_fault_line }
    ensures write_fault { result ≡ RaceEnd.WriteFault → K.faults out.old < K.faults out.new }
    ensures disk_fault { result ≡ RaceEnd.DiskFault →
        HasDiskFault
        (counted (S.faults input.old) (H.faults shelf.old) (H.stops shelf.old))
        (counted (S.faults input.new) (H.faults shelf.new) (H.stops shelf.new)) }
    ensures unfinished { (result ≡ RaceEnd.WriteFault) ⊎ (result ≡ RaceEnd.NoMemory) →
        IsCutShort means.now.most (K.content out.old) (S.left input.old)
        (counted (S.faults input.old) (H.faults shelf.old) (H.stops shelf.old))
        (counted (S.faults input.new) (H.faults shelf.new) (H.stops shelf.new))
        (K.content out.new) }

    // No fault of reading or writing is swallowed.
    ensures quiet_in { is_told result ≡ true → S.faults input.new ≡ S.faults input.old }
    ensures quiet_out { (result ≡ RaceEnd.WriteFault → ⊥) → K.faults out.new ≡ K.faults out.old }
{
    let bytes = match read_whole(means.alloc, input, GREATEST_INPUT) {
        Ok(Some(bytes)) => bytes,
        Ok(None) => return close(out, b"fault long\n", RaceEnd::Long),
        Err(ReadError::Failed) => return close(out, b"fault read\n", RaceEnd::ReadFault),
        Err(ReadError::NoMemory) => return RaceEnd::NoMemory,
    };
    match outcome_of(means, &bytes, shelf) {
        Ok(outcome) => close(out, &outcome.text, outcome.end),
        Err(_) => RaceEnd::NoMemory,
    }
}
