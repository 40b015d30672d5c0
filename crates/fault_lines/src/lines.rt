//! The lines of faults.

ghost use Rattle.std.specs.Prelude.{◌≡◌, IfOk};
ghost use Rattle.fault_lines.specs.Lines.{as_line, topology_fault, script_fault, journal_fault, disk_fault_line};

use nsi_base::Name;
use nsi_script::ScriptFault;
use std::alloc::{AllocError, Global};
use stp_topology::TopologyFault;

/// Bytes and the end of a line behind them.
pub fn as_line(mut bytes: Vec<u8>) -> Result<Vec<u8>, AllocError>
    ensures { IfOk result (λ line. line.items ≡ as_line bytes.items) }
{
    bytes.push(b'\n')?;
    Ok(bytes)
}

/// `fault topology`, the number of the line and the fault.
pub fn topology_fault(
    alloc: Global,
    number: u64,
    fault: TopologyFault,
) -> Result<Vec<u8>, AllocError>
    ensures { IfOk result (λ text. text.items ≡ topology_fault number fault) }
{
    let mut text = Vec::new(alloc);
    text.extend_from_slice(b"fault topology ")?;
    let digits = number.to_string(alloc)?;
    text.extend_from_slice(digits.as_bytes())?;
    text.extend_from_slice(b" ")?;
    text.extend_from_slice(fault.name().as_bytes())?;
    as_line(text)
}

/// `fault script`, the number of the line and the fault.
pub fn script_fault(alloc: Global, number: u64, fault: ScriptFault) -> Result<Vec<u8>, AllocError>
    ensures { IfOk result (λ text. text.items ≡ script_fault number fault) }
{
    let mut text = Vec::new(alloc);
    text.extend_from_slice(b"fault script ")?;
    let digits = number.to_string(alloc)?;
    text.extend_from_slice(digits.as_bytes())?;
    text.extend_from_slice(b" ")?;
    text.extend_from_slice(fault.name().as_bytes())?;
    as_line(text)
}

/// `fault journal`, the agent and the place in bytes.
pub fn journal_fault(alloc: Global, name: &Name, place: u64) -> Result<Vec<u8>, AllocError>
    ensures { IfOk result (λ text. text.items ≡ journal_fault name.now place) }
{
    let mut text = Vec::new(alloc);
    text.extend_from_slice(b"fault journal ")?;
    text.extend_from_slice(name.bytes())?;
    text.extend_from_slice(b" ")?;
    let digits = place.to_string(alloc)?;
    text.extend_from_slice(digits.as_bytes())?;
    as_line(text)
}

/// `fault disk` and the agent.
pub fn disk_fault_text(alloc: Global, name: &Name) -> Result<Vec<u8>, AllocError>
    ensures { IfOk result (λ text. text.items ≡ disk_fault_line name.now) }
{
    let mut text = Vec::new(alloc);
    text.extend_from_slice(b"fault disk ")?;
    text.extend_from_slice(name.bytes())?;
    as_line(text)
}
