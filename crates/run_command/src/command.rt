//! A topology and a script come in, and every step of every agent goes out, or how many there were.

ghost use Rattle.std.specs.Prelude.{◌≡◌, ◌≤◌, ◌<◌, ◌+◌, ◌⊎◌, ℕ, List, Option, true, length, IfSome};
ghost use Rattle.nsi_base.specs.Range.{greatest_input};
ghost use Rattle.nsi_outside.specs.Stream.{WritesAll};
ghost use Rattle.stp_topology.specs.Network.{name_of};
ghost use Rattle.nsi_script.specs.Fits.{Fits};
ghost use Rattle.settled_play.specs.Settled.{PlayLeavesNone};
ghost use Rattle.fault_lines.specs.Lines.{topology_fault, script_fault, journal_fault, disk_fault_line, read_fault_line};
ghost use Rattle.run_command.specs.Ends.{is_told, WritesSome, WritesSomeFront, IsCutShort, IsQuiet, HasFaulted, IsTold, Closes, IsOfAgent, FailsAs, HidesDisks, HasPlayed, HasRead, counted};
ghost use Rattle.topology_input.specs.Reading.{IsDeclared};
ghost use Rattle.run_command.specs.Runs.{NothingIsSafeThroughout, Disks, disks, Runs, Begins, Breaks, KeepsPlay, KeepsRun, IsBelowWeight, OfHeavy, IsHeavy, closing_line};

use crate::texts::closing_line;
use agent_threads::{Resources, RunFault, RunOptions};
use answered_play::laws::at_rest;
use circuit_laws::safety::{every_run_safe, nothing_safe};
use end_to_end::laws::{every_run, nothing};
use fault_lines::{disk_fault_text, journal_fault, script_fault, topology_fault};
use line_reader::{ReadError, read_whole};
use net_run::run_world;
use nsi_base::{AgentNo, GREATEST_INPUT};
use nsi_disk::Shelf;
use nsi_outside::{Sink, SinkError, Source, write_all};
use nsi_script::{Script, ScriptFault, ScriptRefusal, read_script};
use run_totals::{Report, Totals};
use run_weight::laws::long_is_over;
use std::alloc::Global;
use std::thread::Threads;
use stopped_play::laws::{asks_whole, calm, runs, settled};
use stp_topology::{Topology, TopologyFault, TopologyRefusal};
use topology_input::{Declared, read_declared};

/// How a run ends.
#[derive(Clone, Copy, Debug, PartialEq, Eq)]
pub enum RunEnd {
    /// All agents are settled behind the last group.
    Done,
    BadTopology,
    BadScript,
    /// The input is too long, or there are too many events.
    Long,
    ReadFault,
    WriteFault,
    /// An agent's disk failed.
    DiskFault,
    /// A journal that was to be read again is none.
    NotAJournal,
    NoMemory,
}

/// No events are a safe run.
fn nothing_throughout()
    ensures { NothingIsSafeThroughout }
{
    nothing_safe();
    nothing();
}

/// Where nothing is lost and no agent restarts, a play leaves nothing open.
fn nothing_is_left()
    ensures { PlayLeavesNone }
{
    settled_play::laws::settled();
}

/// Writes a text with which a run ends.
fn close<K: Sink>(out: &mut K, text: &[u8], end: RunEnd) -> RunEnd
    requires { IsTold end }
    ensures { Closes text.now end result (K.content out.old) (K.content out.new) (K.faults out.old)
        (K.faults out.new) }
{
    match write_all(out, text) {
        Ok(()) => end,
        Err(SinkError::Failed) => RunEnd::WriteFault,
        Err(SinkError::NoMemory) => RunEnd::NoMemory,
    }
}

/// Writes the first faulty line of the topology.
fn bad_topology<K: Sink>(alloc: Global, out: &mut K, line: u32, fault: TopologyFault) -> RunEnd
    ensures { Closes (topology_fault line fault) RunEnd.BadTopology result
        (K.content out.old) (K.content out.new) (K.faults out.old) (K.faults out.new) }
{
    match topology_fault(alloc, u64::from(line), fault) {
        Ok(text) => close(out, &text, RunEnd::BadTopology),
        Err(_) => RunEnd::NoMemory,
    }
}

/// Writes the first faulty line of the script.
fn bad_script<K: Sink>(alloc: Global, out: &mut K, line: u32, fault: ScriptFault) -> RunEnd
    ensures { Closes (script_fault line fault) RunEnd.BadScript result
        (K.content out.old) (K.content out.new) (K.faults out.old) (K.faults out.new) }
{
    match script_fault(alloc, u64::from(line), fault) {
        Ok(text) => close(out, &text, RunEnd::BadScript),
        Err(_) => RunEnd::NoMemory,
    }
}

/// Writes the last line of a run.
fn tell_totals<K: Sink>(alloc: Global, out: &mut K, report: Report, totals: Totals) -> RunEnd
    ensures { Closes (closing_line report totals) RunEnd.Done result
        (K.content out.old) (K.content out.new) (K.faults out.old) (K.faults out.new) }
{
    match closing_line(alloc, report, totals) {
        Ok(text) => close(out, &text, RunEnd::Done),
        Err(_) => RunEnd::NoMemory,
    }
}

/// Writes whose disk has failed.
fn broken<K: Sink>(alloc: Global, out: &mut K, topology: &Topology, agent: AgentNo) -> RunEnd
    requires { agent < length topology.now.agents }
    ensures { Closes (disk_fault_line (name_of topology.now agent)) RunEnd.DiskFault result
        (K.content out.old) (K.content out.new) (K.faults out.old) (K.faults out.new) }
{
    match disk_fault_text(alloc, topology.name(agent)) {
        Ok(text) => close(out, &text, RunEnd::DiskFault),
        Err(_) => RunEnd::NoMemory,
    }
}

/// Writes whose journal has no reading.
fn unread<K: Sink>(
    alloc: Global,
    out: &mut K,
    topology: &Topology,
    agent: AgentNo,
    place: u64,
) -> RunEnd
    requires { agent < length topology.now.agents }
    ensures { Closes (journal_fault (name_of topology.now agent) place) RunEnd.NotAJournal result
        (K.content out.old) (K.content out.new) (K.faults out.old) (K.faults out.new) }
{
    match journal_fault(alloc, topology.name(agent), place) {
        Ok(text) => close(out, &text, RunEnd::NotAJournal),
        Err(_) => RunEnd::NoMemory,
    }
}

/// Tells why a play has failed.
fn fail<K: Sink>(alloc: Global, out: &mut K, topology: &Topology, fault: &RunFault) -> RunEnd
    requires { IsOfAgent topology.now fault.now }
    ensures { FailsAs topology.now fault.now result (K.content out.old) (K.content out.new)
        (K.faults out.old) (K.faults out.new) }
{
    match *fault {
        RunFault::Long => close(out, b"fault long\n", RunEnd::Long),
        RunFault::WriteFault => RunEnd::WriteFault,
        RunFault::DiskFault(agent) => broken(alloc, out, topology, agent),
        RunFault::NotAJournal { agent, place } => unread(alloc, out, topology, agent, place),
        RunFault::NoMemory => RunEnd::NoMemory,
    }
}

/// Plays a script.
fn play<R: Threads + Sync, K: Sink, H: Shelf>(
    resources: &Resources<'_, R>,
    options: RunOptions,
    topology: &Topology,
    script: &Script,
    out: &mut K,
    shelf: &mut H,
) -> RunEnd
where
    H::Disk: Drop + Send,
    requires limit { options.limit ≤ 2000000 }
    requires fits { Fits topology.now script.now }
    ensures played { HasPlayed options
        (disks (H.holds shelf.old) (H.holds shelf.new) (H.stops shelf.old) (H.stops shelf.new))
        topology.now script.now
        (K.content out.old) (K.content out.new)
        (counted 0 (H.faults shelf.old) (H.stops shelf.old))
        (counted 0 (H.faults shelf.new) (H.stops shelf.new))
        (K.faults out.old) (K.faults out.new) result }
    ensures journals { result ≡ RunEnd.Done → KeepsPlay
        (disks (H.holds shelf.old) (H.holds shelf.new) (H.stops shelf.old) (H.stops shelf.new))
        topology.now script.now }
    ensures settles { result ≡ RunEnd.Long → IsBelowWeight options.limit
        (disks (H.holds shelf.old) (H.holds shelf.new) (H.stops shelf.old) (H.stops shelf.new))
        topology.now script.now }
{
    topology.facts();
    topology.laws();
    calm();
    runs();
    asks_whole();
    every_run_safe();
    every_run();
    at_rest();
    settled();
    nothing_is_left();
    long_is_over();
    match run_world(resources, topology, script, options, shelf, out) {
        Ok(totals) => tell_totals(resources.alloc, out, options.report, totals),
        Err(fault) => fail(resources.alloc, out, topology, &fault),
    }
}

/// Reads the script that stands behind a topology, and plays it.
fn run_script<R: Threads + Sync, K: Sink, H: Shelf>(
    resources: &Resources<'_, R>,
    options: RunOptions,
    bytes: &[u8],
    declared: &Declared<'_>,
    out: &mut K,
    shelf: &mut H,
) -> RunEnd
where
    H::Disk: Drop + Send,
    requires limit { options.limit ≤ 2000000 }
    requires size { length bytes.now ≤ greatest_input }
    requires declared { IsDeclared bytes.now declared.now }
    requires behind { declared.now.lines + length declared.now.behind.now ≤ length bytes.now }
    ensures read { HasRead options
        (disks (H.holds shelf.old) (H.holds shelf.new) (H.stops shelf.old) (H.stops shelf.new))
        bytes.now
        (K.content out.old) (K.content out.new)
        (counted 0 (H.faults shelf.old) (H.stops shelf.old))
        (counted 0 (H.faults shelf.new) (H.stops shelf.new))
        (K.faults out.old) (K.faults out.new) result }
    ensures journals { result ≡ RunEnd.Done → KeepsRun bytes.now
        (disks (H.holds shelf.old) (H.holds shelf.new) (H.stops shelf.old) (H.stops shelf.new)) }
    ensures settles { result ≡ RunEnd.Long → OfHeavy options
        (disks (H.holds shelf.old) (H.holds shelf.new) (H.stops shelf.old) (H.stops shelf.new))
        bytes.now }
{
    nothing_throughout();
    let alloc = resources.alloc;
    match read_script(
        alloc,
        declared.behind,
        declared.lines + 1,
        &declared.topology,
    ) {
        Ok(script) => play(resources, options, &declared.topology, &script, out, shelf),
        Err(ScriptRefusal::Fault { line, fault }) => bad_script(alloc, out, line, fault),
        Err(ScriptRefusal::NoMemory) => RunEnd::NoMemory,
    }
}

/// Reads a topology and a script, and plays it.
fn run_bytes<R: Threads + Sync, K: Sink, H: Shelf>(
    resources: &Resources<'_, R>,
    options: RunOptions,
    bytes: &[u8],
    out: &mut K,
    shelf: &mut H,
) -> RunEnd
where
    H::Disk: Drop + Send,
    requires limit { options.limit ≤ 2000000 }
    requires size { length bytes.now ≤ greatest_input }
    ensures read { HasRead options
        (disks (H.holds shelf.old) (H.holds shelf.new) (H.stops shelf.old) (H.stops shelf.new))
        bytes.now
        (K.content out.old) (K.content out.new)
        (counted 0 (H.faults shelf.old) (H.stops shelf.old))
        (counted 0 (H.faults shelf.new) (H.stops shelf.new))
        (K.faults out.old) (K.faults out.new) result }
    ensures journals { result ≡ RunEnd.Done → KeepsRun bytes.now
        (disks (H.holds shelf.old) (H.holds shelf.new) (H.stops shelf.old) (H.stops shelf.new)) }
    ensures settles { result ≡ RunEnd.Long → OfHeavy options
        (disks (H.holds shelf.old) (H.holds shelf.new) (H.stops shelf.old) (H.stops shelf.new))
        bytes.now }
{
    nothing_throughout();
    let alloc = resources.alloc;
    match read_declared(alloc, bytes) {
        Ok(declared) => run_script(resources, options, bytes, &declared, out, shelf),
        Err(TopologyRefusal::Fault { line, fault }) => bad_topology(alloc, out, line, fault),
        Err(TopologyRefusal::NoMemory) => RunEnd::NoMemory,
    }
}

/// Plays the script that stands in the input behind a topology, each round by so many workers at most. The whole input
/// is read first, and what is wanted of each group is written in its end. Journals begin empty.
pub fn run<R: Threads + Sync, S: Source, K: Sink, H: Shelf>(
    resources: &Resources<'_, R>,
    options: RunOptions,
    input: &mut S,
    out: &mut K,
    shelf: &mut H,
) -> RunEnd
where
    H::Disk: Drop + Send,
    requires { options.limit ≤ 2000000 }
    // The bytes say how it ends and all that is written, but for the disks that stop: it is the text of a play in which
    // disks stop, where the shelf tells what it holds; and that of the play, where none has stopped and the shelf tells
    // what it holds or no agent is restarted.
    ensures ends { is_told result ≡ true → IfSome (S.left input.old)
        (λ bytes. WritesSome (Runs options
        (disks (H.holds shelf.old) (H.holds shelf.new) (H.stops shelf.old) (H.stops shelf.new))
        bytes result) (K.content out.old) (K.content out.new)) }

    // A fault comes only from outside, and leaves whole groups or a front of them.
    ensures read_fault { result ≡ RunEnd.ReadFault → S.faults input.old < S.faults input.new }
    ensures alone { result ≡ RunEnd.ReadFault →
        WritesAll (K.content out.old) (K.content out.new) read_fault_line }
    ensures write_fault { result ≡ RunEnd.WriteFault → K.faults out.old < K.faults out.new }
    ensures disk_fault { result ≡ RunEnd.DiskFault →
        HasFaulted
        (counted (S.faults input.old) (H.faults shelf.old) (H.stops shelf.old))
        (counted (S.faults input.new) (H.faults shelf.new) (H.stops shelf.new)) }
    ensures broken { result ≡ RunEnd.DiskFault → IfSome (S.left input.old)
        (λ bytes. WritesSome (Breaks options
        (disks (H.holds shelf.old) (H.holds shelf.new) (H.stops shelf.old) (H.stops shelf.new))
        bytes) (K.content out.old) (K.content out.new)) }
    ensures unfinished { (result ≡ RunEnd.WriteFault) ⊎ (result ≡ RunEnd.NoMemory) →
        IsCutShort options
        (disks (H.holds shelf.old) (H.holds shelf.new) (H.stops shelf.old) (H.stops shelf.new))
        (K.content out.old) (S.left input.old)
        (counted (S.faults input.old) (H.faults shelf.old) (H.stops shelf.old))
        (counted (S.faults input.new) (H.faults shelf.new) (H.stops shelf.new))
        (K.content out.new) }

    // No fault is swallowed, and none is told as want of memory; but in the round that has too many events another disk
    // may have failed, and so may that of a journal without a reading. A disk that has stopped is no fault.
    ensures quiet_in { is_told result ≡ true → S.faults input.new ≡ S.faults input.old }
    ensures quiet_out { (result ≡ RunEnd.WriteFault → ⊥) → K.faults out.new ≡ K.faults out.old }
    ensures quiet_disk { is_told result ≡ true → (HidesDisks result → ⊥) →
        IsQuiet
        (counted (S.faults input.old) (H.faults shelf.old) (H.stops shelf.old))
        (counted (S.faults input.new) (H.faults shelf.new) (H.stops shelf.new)) }

    // With Done each agent's disk reads as its journal of such a play, where the shelf told what it held.
    ensures journals { result ≡ RunEnd.Done → IfSome (S.left input.old)
        (λ bytes. KeepsRun bytes
        (disks (H.holds shelf.old) (H.holds shelf.new) (H.stops shelf.old) (H.stops shelf.new))) }

    // There are too many events only where the weight of the script is above the limit.
    ensures settles { result ≡ RunEnd.Long → IfSome (S.left input.old)
        (λ bytes. IsHeavy options
        (disks (H.holds shelf.old) (H.holds shelf.new) (H.stops shelf.old) (H.stops shelf.new))
        bytes) }
{
    nothing_throughout();
    match read_whole(resources.alloc, input, GREATEST_INPUT) {
        Ok(Some(bytes)) => run_bytes(resources, options, &bytes, out, shelf),
        Ok(None) => close(out, b"fault long\n", RunEnd::Long),
        Err(ReadError::Failed) => close(out, b"fault read\n", RunEnd::ReadFault),
        Err(ReadError::NoMemory) => RunEnd::NoMemory,
    }
}

/// Nothing is a front of what a run writes, whatever the input.
pub fn begins_with_nothing()
    ensures { (options : _) (d : Disks) → d.before ≤ d.after → (left old : Option (List ℕ)) →
        IfSome left (λ bytes. WritesSomeFront (Begins options d bytes) old old) }
{
    nothing_throughout();
}
