//! Texts that are written, and faults from outside.

ghost use Rattle.std.specs.Prelude.{◌≡◌, ◌<◌, ◌⊎◌, OnOk, OnErr, false};
ghost use Rattle.provide_command.specs.Outcome.{disk_fault_line};
ghost use Rattle.provide_command.specs.Promise.{is_told, read_fault_line, Writes, WritesFront};
ghost use Rattle.provide_command.specs.Writes.{CountsFaults};

use crate::status::Status;
use fault_lines::disk_fault_text;
use nsi_base::Name;
use nsi_outside::{Sink, SinkError, write_all};
use std::alloc::Global;

/// Why a line was not answered.
#[derive(Clone, Copy, Debug, PartialEq, Eq)]
pub enum Fault {
    Read,
    Write,
    NoMemory,
}

/// Why lines aren't served to their end.
#[derive(Clone, Copy, Debug, PartialEq, Eq)]
pub(crate) enum Halt {
    Outside(Fault),
    /// The disk failed or stopped.
    Disk,
}

impl From<Fault> for Halt {
    ghost use Rattle.provide_command.specs.declared.output.Halt.TheVariants.{Outside};
    ghost use Rattle.std.specs.Prelude.{◌≡◌};

    ghost from_gives = { λ fault halt. halt ≡ Outside fault };

    fn from(fault: Fault) -> Self {
        Halt::Outside(fault)
    }
}

/// Appends a text.
pub fn write_text<K: Sink>(out: &mut K, text: &[u8]) -> Result<(), Fault>
    ensures all { OnOk result (Writes (K.content out.old) (K.content out.new) text.now) }
    ensures front { OnErr result (WritesFront (K.content out.old) (K.content out.new) text.now) }
    ensures faults { CountsFaults result (K.faults out.old) (K.faults out.new) }
{
    match write_all(out, text) {
        Ok(()) => Ok(()),
        Err(SinkError::Failed) => Err(Fault::Write),
        Err(SinkError::NoMemory) => Err(Fault::NoMemory),
    }
}

/// Writes that reading failed.
pub fn read_fault<K: Sink>(out: &mut K) -> Status
    ensures told { result ≡ Status.ReadFault →
        Writes (K.content out.old) (K.content out.new) read_fault_line }
    ensures front { (result ≡ Status.ReadFault → ⊥) →
        WritesFront (K.content out.old) (K.content out.new) read_fault_line }
    ensures kind { (result ≡ Status.ReadFault) ⊎
        ((result ≡ Status.WriteFault) ⊎ (result ≡ Status.NoMemory)) }
    ensures write { result ≡ Status.WriteFault → K.faults out.old < K.faults out.new }
    ensures not_told { is_told result ≡ false }
    ensures not_disk { result ≡ Status.DiskFault → ⊥ }
    ensures quiet { result ≡ Status.ReadFault → K.faults out.new ≡ K.faults out.old }
    ensures memory { result ≡ Status.NoMemory → K.faults out.new ≡ K.faults out.old }
{
    match write_text(out, b"fault read\n") {
        Ok(()) => Status::ReadFault,
        Err(Fault::Write) => Status::WriteFault,
        Err(_) => Status::NoMemory,
    }
}

/// Writes that the disk of an agent failed.
pub(crate) fn disk_fault<K: Sink>(alloc: Global, out: &mut K, name: &Name) -> Status
    ensures told { result ≡ Status.DiskFault →
        Writes (K.content out.old) (K.content out.new) (disk_fault_line name.now) }
    ensures front { (result ≡ Status.DiskFault → ⊥) →
        WritesFront (K.content out.old) (K.content out.new) (disk_fault_line name.now) }
    ensures kind { (result ≡ Status.DiskFault) ⊎
        ((result ≡ Status.WriteFault) ⊎ (result ≡ Status.NoMemory)) }
    ensures write { result ≡ Status.WriteFault → K.faults out.old < K.faults out.new }
    ensures quiet { result ≡ Status.DiskFault → K.faults out.new ≡ K.faults out.old }
    ensures memory { result ≡ Status.NoMemory → K.faults out.new ≡ K.faults out.old }
{
    let Ok(text) = disk_fault_text(alloc, name) else {
        return Status::NoMemory;
    };
    match write_text(out, &text) {
        Ok(()) => Status::DiskFault,
        Err(Fault::Write) => Status::WriteFault,
        Err(_) => Status::NoMemory,
    }
}
