//! Turns of two agents at once: in the first round the disk of the first agent waits for that of the last one.

use crate::gating::{Gate, GatedShelf};
use nsi_disk::MemoryShelf;
use nsi_outside::{MemorySink, MemorySource};
use nsi_program::top_plain;
use std::alloc::{AllocError, Global};
use std::test::Fail;
use std::thread::Threads;

/// Ten providers, each with a requester of its own.
fn wide_topology(alloc: Global) -> Result<String, AllocError> {
    let mut text = String::new(alloc);
    for n in 0u8..10 {
        let agents = format!(in alloc; "agent p{n} provider 60\nagent r{n} requester p{n}\n")?;
        text.push_str(agents.as_str())?;
    }
    Ok(text)
}

/// Ticks of these agents, by so many workers, with this gate. It answers the status.
fn ticked(
    rt: &(impl Threads + Sync),
    alloc: Global,
    workers: &str,
    gate: &Gate,
) -> Result<u8, AllocError> {
    let mut words = Vec::new(alloc);
    words.push(String::from_str(alloc, "run")?)?;
    words.push(format!(in alloc; "--workers={workers}")?)?;
    let mut input = wide_topology(alloc)?;
    input.push_str("---\nat 0\n")?;
    let mut source = MemorySource::new(input.into_bytes(), Vec::new(alloc));
    let mut sink = MemorySink::new(alloc, Vec::new(alloc));
    let mut shelf = GatedShelf::new(MemoryShelf::new(Vec::new(alloc), Vec::new(alloc)), gate);
    Ok(top_plain(rt, alloc, &words, &mut source, &mut sink, &mut shelf).code())
}

/// Two workers make two turns at once; one makes them one after another, so the first agent waits in vain.
#[test]
fn turns_are_made_at_once_by_several_workers(rt: HostRuntime) -> Result<(), Fail> {
    for (workers, looks, meets) in &[("2", 4_000_000_000, true), ("1", 1_000, false)] {
        let gate = Gate::new(*looks);
        let status = ticked(&rt, rt.alloc(), workers, &gate)?;
        assert!(rt; status == 0 && gate.has_met() == *meets, "{workers}");
    }
    Ok(())
}
