//! How a race ends, and what is written then.

ghost use Rattle.std.specs.Prelude.{◌≡◌, IfOk, true};
ghost use Rattle.fault_lines.specs.Lines.{topology_fault, script_fault, disk_fault_line, long_line};
ghost use Rattle.race_command.specs.Outcomes.{Closes, IsOwnEnd};

use fault_lines::{disk_fault_text, script_fault, topology_fault};
use nsi_base::Name;
use nsi_outside::{Sink, SinkError, write_all};
use nsi_script::ScriptFault;
use std::alloc::{AllocError, Global};
use stp_topology::TopologyFault;

/// How a race ends.
#[derive(Clone, Copy, Debug, PartialEq, Eq)]
pub enum RaceEnd {
    /// What each requester kept is what the provider's history has of it.
    Done,
    BadTopology,
    BadScript,
    /// The input is too long, or there are too many events.
    Long,
    ReadFault,
    WriteFault,
    /// The provider's disk failed or stopped.
    DiskFault,
    /// What a requester kept isn't what the provider's history has of it.
    Differ,
    NoMemory,
}

/// How a race ends, and all that is written of it.
#[derive(Drop)]
pub struct Outcome {
    pub end: RaceEnd,
    pub text: Vec<u8>,
}

/// The first faulty line of the topology.
pub fn bad_topology(alloc: Global, line: u32, fault: TopologyFault) -> Result<Outcome, AllocError>
    ensures end { IfOk result (λ o. o.end ≡ RaceEnd.BadTopology) }
    ensures text { IfOk result (λ o. o.text.items ≡ topology_fault line fault) }
{
    let text = topology_fault(alloc, u64::from(line), fault)?;
    Ok(Outcome {
        end: RaceEnd::BadTopology,
        text,
    })
}

/// The first faulty line of the script.
pub fn bad_script(alloc: Global, line: u32, fault: ScriptFault) -> Result<Outcome, AllocError>
    ensures end { IfOk result (λ o. o.end ≡ RaceEnd.BadScript) }
    ensures text { IfOk result (λ o. o.text.items ≡ script_fault line fault) }
{
    let text = script_fault(alloc, u64::from(line), fault)?;
    Ok(Outcome {
        end: RaceEnd::BadScript,
        text,
    })
}

/// There are more events than there may be.
pub fn too_long(alloc: Global) -> Result<Outcome, AllocError>
    ensures end { IfOk result (λ o. o.end ≡ RaceEnd.Long) }
    ensures text { IfOk result (λ o. o.text.items ≡ long_line) }
{
    let mut text = Vec::new(alloc);
    text.extend_from_slice(b"fault long\n")?;
    Ok(Outcome {
        end: RaceEnd::Long,
        text,
    })
}

/// The disk of the provider failed or stopped.
pub fn broken(alloc: Global, name: &Name) -> Result<Outcome, AllocError>
    ensures end { IfOk result (λ o. o.end ≡ RaceEnd.DiskFault) }
    ensures text { IfOk result (λ o. o.text.items ≡ disk_fault_line name.now) }
{
    let text = disk_fault_text(alloc, name)?;
    Ok(Outcome {
        end: RaceEnd::DiskFault,
        text,
    })
}

/// Writes a text with which a race ends.
pub fn close<K: Sink>(out: &mut K, text: &[u8], end: RaceEnd) -> RaceEnd
    requires { IsOwnEnd end }
    ensures { Closes text.now end result (K.content out.old) (K.content out.new) (K.faults out.old)
        (K.faults out.new) }
{
    match write_all(out, text) {
        Ok(()) => end,
        Err(SinkError::Failed) => RaceEnd::WriteFault,
        Err(SinkError::NoMemory) => RaceEnd::NoMemory,
    }
}
