//! What no clause says: two requesters are served at once, and a disk that fails ends a race whatever call it is.

ghost use Rattle.std.specs.Prelude.{◌≡◌, ◌≤◌, ◌<◌, length, IfOk, false};
ghost use Rattle.shared_provider.specs.Book.{counted};
ghost use Rattle.nsi_script.specs.Scripts.{acts_of};
ghost use Rattle.race_run.specs.Scripts.{AreAsks};
ghost use Rattle.stp_topology.specs.Sound.{IsProvider};
ghost use Rattle.nsi_base.specs.Range.{greatest_input};
ghost use Rattle.race_tests.specs.Networks.{IsNetworkOf};

use nsi_base::AgentNo;
use nsi_disk::{Disk, MemoryDisk};
use nsi_script::{Script, read_script};
use race_caller::Gate;
use race_threads::{BookParts, Race, RaceCause, RaceFault, Raced, race, race_of};
use std::alloc::Global;
use std::rt::HostRuntime;
use std::sync::Wait;
use std::sync::atomic::{AtomicU64, Ordering};
use std::test::Fail;
use std::thread::Threads;
use stp_topology::{Topology, read_topology};

const TOPOLOGY: &[u8] =
    b"agent p1 provider 60\nagent r1 requester p1\nagent r2 requester p1\nstp p1 A 1000\nstp p1 B 1000\n---\n";

/// The first requester asks once, the second one twice.
const SCRIPT: &[u8] =
    b"at 0\nask r1 reserve c1 A B 400 100 200\nask r2 reserve c2 A B 400 100 200\nask r2 reserve c3 A B 400 300 400\n";

/// The first caller's first call waits here until the second caller's first call was answered, or for so many looks. Where
/// one is let in at a time, the second caller waits until the first one has given up.
#[derive(Drop)]
struct Turn {
    looks: u64,
    one_at_a_time: bool,
    answered: AtomicU64,
    gave_up: AtomicU64,
}

fn is_set(word: &AtomicU64) -> bool {
    word.load(Ordering::SeqCst) == 1
}

/// Waits until the word is set, for so many looks. Whether it was.
fn wait_for(word: &AtomicU64, looks: u64) -> bool {
    for _ in 0..looks {
        if is_set(word) {
            return true;
        }
    }
    false
}

impl Turn {
    fn new(looks: u64) -> Turn {
        Turn {
            looks,
            one_at_a_time: false,
            answered: AtomicU64::new(0),
            gave_up: AtomicU64::new(0),
        }
    }

    /// The second caller comes in when the first one has given up.
    fn one_at_a_time(looks: u64) -> Turn {
        Turn {
            looks,
            one_at_a_time: true,
            answered: AtomicU64::new(0),
            gave_up: AtomicU64::new(0),
        }
    }

    fn first_waits(&self) {
        if !wait_for(&self.answered, self.looks) {
            self.gave_up.store(1, Ordering::SeqCst);
        }
    }

    fn second_waits(&self) {
        if self.one_at_a_time {
            wait_for(&self.gave_up, LONG);
        }
    }

    /// Whether the one that waited has seen the other one's answer.
    fn has_met(&self) -> bool {
        is_set(&self.answered) && !is_set(&self.gave_up)
    }
}

impl Gate for Turn {
    /// A second call comes where the first one was answered.
    fn pass(&self, caller: u16, call: u32) {
        if caller == 1 && call == 1 {
            self.answered.store(1, Ordering::SeqCst);
        }
        match (caller, call) {
            (0, 0) => self.first_waits(),
            (1, 0) => self.second_waits(),
            _ => {}
        }
    }
}

/// How a race ended.
#[derive(Clone, Copy, Debug, PartialEq, Eq)]
enum Ending {
    /// With so many events.
    Events(usize),
    DiskFault,
    Other,
}

fn let_go(cause: RaceCause) {
    drop(cause);
}

fn is_disk_fault(cause: &RaceCause) -> bool {
    matches!(cause, RaceCause::DiskFault)
}

fn cause_ending(cause: RaceCause) -> Ending {
    let is_disk_fault = is_disk_fault(&cause);
    let_go(cause);
    if is_disk_fault {
        Ending::DiskFault
    } else {
        Ending::Other
    }
}

fn fault_ending<D: Disk + Drop>(fault: RaceFault<D>) -> Ending {
    let RaceFault { cause, disk } = fault;
    drop(disk);
    cause_ending(cause)
}

fn events_of<D: Disk + Drop>(raced: Raced<D>) -> Ending {
    Ending::Events(raced.book.history().len())
}

fn ending_of<D: Disk + Drop>(raced: Result<Raced<D>, RaceFault<D>>) -> Ending {
    match raced {
        Ok(raced) => events_of(raced),
        Err(fault) => fault_ending(fault),
    }
}

fn network(alloc: Global, text: &[u8]) -> Result<Topology, Fail>
    requires { length text.now ≤ greatest_input }
    ensures { IfOk result (λ t. IsNetworkOf text.now t) }
{
    match read_topology(alloc, text) {
        Ok(read) => {
            let (topology, _) = read;
            Ok(topology)
        }
        Err(_) => Err(Fail::from("a topology")),
    }
}

/// The network twice.
fn networks(alloc: Global) -> Result<(Topology, Topology), Fail>
    ensures { IfOk result (λ r. r.1 ≡ r.0) }
{
    let topology = network(alloc, TOPOLOGY)?;
    let own = network(alloc, TOPOLOGY)?;
    Ok((topology, own))
}

fn provider_of(topology: &Topology) -> Result<AgentNo, Fail>
    ensures provider { IfOk result (λ a. IsProvider topology.now a) }
    ensures within { IfOk result (λ a. a < length topology.now.agents) }
{
    match topology.first_provider() {
        Some(provider) => Ok(provider),
        None => Err(Fail::from("a provider")),
    }
}

fn script_of(alloc: Global, topology: &Topology) -> Result<Script, Fail>
    ensures { IfOk result (λ s. AreAsks (acts_of s.groups)) }
{
    match read_script(alloc, SCRIPT, 7, topology) {
        Ok(script) => Ok(script),
        Err(_) => Err(Fail::from("a script")),
    }
}

/// The script, which has one second.
fn one_second(alloc: Global, topology: &Topology) -> Result<Script, Fail>
    ensures asks { IfOk result (λ s. AreAsks (acts_of s.groups)) }
    ensures one { IfOk result (λ s. length s.groups ≤ 1) }
{
    let script = script_of(alloc, topology)?;
    if script.groups.items().len() > 1 {
        return Err(Fail::from("one second"));
    }
    Ok(script)
}

/// A disk of which the calls with these numbers fail.
fn disk_of(alloc: Global, failing: Vec<u64>) -> MemoryDisk
    ensures runs { (⟦<MemoryDisk as Disk>⟧.meter result).stopped ≡ false }
    ensures counts { counted (⟦<MemoryDisk as Disk>⟧.meter result) ≡ 0 }
{
    MemoryDisk::new(alloc, Vec::new(alloc), failing, Vec::new(alloc))
}

/// How a race over an empty disk ends.
fn raced_by<D: Disk + Drop + Send>(
    rt: &(impl Threads + Wait + Sync),
    alloc: Global,
    topology: &Topology,
    asked: &Race<'_>,
    parts: BookParts<D>,
    gate: &Turn,
) -> Ending
    requires same { parts.topology ≡ topology.now }
    requires within { asked.now.provider < length topology.now.agents }
    requires provider { IsProvider topology.now asked.now.provider }
    requires printable { AreAsks asked.now.acts.now }
    requires runs { (D.meter parts.disk).stopped ≡ false }
    requires counts { counted (D.meter parts.disk) ≡ 0 }
{
    ending_of(race(rt, alloc, topology, asked, parts, gate))
}

/// How a race by a script over an empty disk ends.
fn raced_on<D: Disk + Drop + Send>(
    rt: &(impl Threads + Wait + Sync),
    alloc: Global,
    topology: &Topology,
    script: &Script,
    parts: BookParts<D>,
    gate: &Turn,
) -> Result<Ending, Fail>
    requires same { parts.topology ≡ topology.now }
    requires asks { AreAsks (acts_of script.now.groups) }
    requires one { length script.now.groups ≤ 1 }
    requires runs { (D.meter parts.disk).stopped ≡ false }
    requires counts { counted (D.meter parts.disk) ≡ 0 }
{
    let provider = provider_of(topology)?;
    let asked = race_of(provider, script);
    Ok(raced_by(rt, alloc, topology, &asked, parts, gate))
}

/// The script is raced over these parts.
fn raced_with_parts<D: Disk + Drop + Send>(
    rt: &(impl Threads + Wait + Sync),
    alloc: Global,
    topology: &Topology,
    parts: BookParts<D>,
    gate: &Turn,
) -> Result<Ending, Fail>
    requires same { parts.topology ≡ topology.now }
    requires runs { (D.meter parts.disk).stopped ≡ false }
    requires counts { counted (D.meter parts.disk) ≡ 0 }
{
    let script = one_second(alloc, topology)?;
    raced_on(rt, alloc, topology, &script, parts, gate)
}

/// The script is raced by the first of these networks over an empty disk.
fn raced_over<D: Disk + Drop + Send>(
    rt: &(impl Threads + Wait + Sync),
    alloc: Global,
    networks: (Topology, Topology),
    disk: D,
    gate: &Turn,
) -> Result<Ending, Fail>
    requires same { networks.1 ≡ networks.0 }
    requires runs { (D.meter disk).stopped ≡ false }
    requires counts { counted (D.meter disk) ≡ 0 }
{
    let (topology, own) = networks;
    let parts = BookParts {
        topology: own,
        disk,
    };
    raced_with_parts(rt, alloc, &topology, parts, gate)
}

/// The script is raced over a disk of which the calls with these numbers fail.
fn raced_in_memory(
    rt: &(impl Threads + Wait + Sync),
    alloc: Global,
    failing: Vec<u64>,
    gate: &Turn,
) -> Result<Ending, Fail> {
    let networks = networks(alloc)?;
    let disk = disk_of(alloc, failing);
    raced_over(rt, alloc, networks, disk, gate)
}

/// A tick, three requests and their work, each with its sync.
const EVENTS: usize = 14;

/// Four calls begin the journal, and four keep each of seven entries.
const CALLS: u64 = 32;

/// For so many looks a caller waits that is to see the other one.
const LONG: u64 = 100_000_000;

#[test]
fn two_callers_are_served_at_once(rt: HostRuntime) -> Result<(), Fail> {
    let gate = Turn::new(LONG);
    let ending = raced_in_memory(&rt, rt.alloc(), Vec::new(rt.alloc()), &gate)?;
    let has_met = gate.has_met();
    assert!(rt; has_met && ending == Ending::Events(EVENTS));
    Ok(())
}

#[test]
fn callers_who_come_one_at_a_time_are_seen_as_such(rt: HostRuntime) -> Result<(), Fail> {
    let gate = Turn::one_at_a_time(1000);
    let ending = raced_in_memory(&rt, rt.alloc(), Vec::new(rt.alloc()), &gate)?;
    let has_met = gate.has_met();
    assert!(rt; !has_met && ending == Ending::Events(EVENTS));
    Ok(())
}

/// The script is raced over a disk of which that call fails; nobody waits.
fn raced_with(rt: &(impl Threads + Wait + Sync), alloc: Global, call: u64) -> Result<Ending, Fail> {
    let mut failing = Vec::new(alloc);
    failing.push(call)?;
    raced_in_memory(rt, alloc, failing, &Turn::new(0))
}

/// Whether a race over a disk that fails at each of these calls ends by that.
fn all_end_it(rt: &(impl Threads + Wait + Sync), alloc: Global) -> Result<bool, Fail> {
    for call in 1..=CALLS {
        let ending = raced_with(rt, alloc, call)?;
        if ending != Ending::DiskFault {
            return Ok(false);
        }
    }
    Ok(true)
}

#[test]
fn a_disk_that_fails_at_any_call_ends_a_race(rt: HostRuntime) -> Result<(), Fail> {
    let is_right = all_end_it(&rt, rt.alloc())?;
    let behind = raced_with(&rt, rt.alloc(), CALLS + 1)?;
    assert!(rt; is_right && behind == Ending::Events(EVENTS));
    Ok(())
}
