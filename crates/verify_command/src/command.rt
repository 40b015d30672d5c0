//! The command `verify`: a topology, and the lines of a trace. The whole input is read first.

ghost use Rattle.std.specs.Prelude.{◌≡◌, ◌<◌, ◌≤◌, ◌⊎◌, ◌+◌, length, true, IfSome};
ghost use Rattle.nsi_base.specs.Range.{greatest_input};
ghost use Rattle.nsi_outside.specs.Stream.{WritesAll, WritesFront};
ghost use Rattle.fault_lines.specs.Lines.{read_fault_line, topology_fault};
ghost use Rattle.trace_verify.specs.Lines.{trace_lines};
ghost use Rattle.verify_command.specs.Ends.{Begins, Closes, HasEnded, HasLine, WritesSome, WritesSomeFront, is_told};
ghost use Rattle.verify_command.specs.Texts.{verdict_line};
ghost use Rattle.verify_command.specs.Verifies.{Verifies, VerifiesLines};

use crate::end::VerifyEnd;
use crate::texts::verdict_line;
use command_limits::EventLimit;
use fault_lines::topology_fault;
use line_reader::{ReadError, read_whole};
use nsi_base::GREATEST_INPUT;
use nsi_outside::{Sink, SinkError, Source, write_all};
use std::alloc::Global;
use stp_topology::{TopologyFault, TopologyRefusal};
use topology_input::{Declared, read_declared};
use trace_verify::{Verdict, VerifyFault, verify as verify_trace};

/// Whether the lines behind a topology are the text of a run by its agents, of no more events than that.
pub fn verify<S: Source, K: Sink>(
    alloc: Global,
    most: EventLimit,
    input: &mut S,
    out: &mut K,
) -> VerifyEnd
    // The bytes say how it ends and all that is written.
    ensures ends { is_told result ≡ true → IfSome (S.left input.old)
        (λ bytes. WritesSome (Verifies most bytes result) (K.content out.old) (K.content out.new)) }

    // A fault comes only from outside, and leaves a front of what would have been written.
    ensures read_fault { result ≡ VerifyEnd.ReadFault → S.faults input.old < S.faults input.new }
    ensures alone { result ≡ VerifyEnd.ReadFault →
        WritesAll (K.content out.old) (K.content out.new) read_fault_line }
    ensures write_fault { result ≡ VerifyEnd.WriteFault → K.faults out.old < K.faults out.new }
    ensures unfinished { (result ≡ VerifyEnd.WriteFault) ⊎ (result ≡ VerifyEnd.NoMemory) →
        ((S.faults input.new ≡ S.faults input.old) × IfSome (S.left input.old) (λ bytes.
        WritesSomeFront (Begins (Verifies most bytes)) (K.content out.old) (K.content out.new))) ⊎
        ((S.faults input.old < S.faults input.new) ×
        WritesFront (K.content out.old) (K.content out.new) read_fault_line) }
    ensures quiet_in { is_told result ≡ true → S.faults input.new ≡ S.faults input.old }
    ensures quiet_out { (result ≡ VerifyEnd.WriteFault → ⊥) →
        K.faults out.new ≡ K.faults out.old }
{
    match read_whole(alloc, input, GREATEST_INPUT) {
        Ok(Some(bytes)) => verify_bytes(alloc, most, &bytes, out),
        Ok(None) => close(out, b"fault long\n", VerifyEnd::Long),
        Err(ReadError::Failed) => close(out, b"fault read\n", VerifyEnd::ReadFault),
        Err(ReadError::NoMemory) => VerifyEnd::NoMemory,
    }
}

/// Writes a text with which the command ends.
fn close<K: Sink>(out: &mut K, text: &[u8], end: VerifyEnd) -> VerifyEnd
    requires { HasLine end }
    ensures { Closes text.now end result (K.content out.old) (K.content out.new) (K.faults out.old)
        (K.faults out.new) }
{
    match write_all(out, text) {
        Ok(()) => end,
        Err(SinkError::Failed) => VerifyEnd::WriteFault,
        Err(SinkError::NoMemory) => VerifyEnd::NoMemory,
    }
}

/// Reads the topology, and verifies the lines behind it.
fn verify_bytes<K: Sink>(alloc: Global, most: EventLimit, bytes: &[u8], out: &mut K) -> VerifyEnd
    requires { length bytes.now ≤ greatest_input }
    ensures { HasEnded (Verifies most bytes.now) (K.content out.old) (K.content out.new)
        (K.faults out.old) (K.faults out.new) result }
{
    match read_declared(alloc, bytes) {
        Ok(declared) => verify_lines(alloc, most, &declared, out),
        Err(TopologyRefusal::Fault { line, fault }) => bad_topology(alloc, line, fault, out),
        Err(TopologyRefusal::NoMemory) => VerifyEnd::NoMemory,
    }
}

/// Writes the first faulty line of the topology.
fn bad_topology<K: Sink>(alloc: Global, line: u32, fault: TopologyFault, out: &mut K) -> VerifyEnd
    ensures { Closes (topology_fault line fault) VerifyEnd.BadTopology result
        (K.content out.old) (K.content out.new) (K.faults out.old) (K.faults out.new) }
{
    match topology_fault(alloc, u64::from(line), fault) {
        Ok(text) => close(out, &text, VerifyEnd::BadTopology),
        Err(_) => VerifyEnd::NoMemory,
    }
}

/// Writes what is found of the lines behind the topology.
fn verify_lines<K: Sink>(
    alloc: Global,
    most: EventLimit,
    declared: &Declared<'_>,
    out: &mut K,
) -> VerifyEnd
    requires { declared.now.lines + length declared.now.behind.now ≤ greatest_input }
    ensures { HasEnded (VerifiesLines most declared.now.topology (declared.now.lines + 1)
        (trace_lines declared.now.behind.now)) (K.content out.old) (K.content out.new)
        (K.faults out.old) (K.faults out.new) result }
{
    match verify_trace(
        alloc,
        &declared.topology,
        declared.behind,
        declared.lines + 1,
        most.get(),
    ) {
        Ok(verdict) => tell(alloc, verdict, out),
        Err(VerifyFault::Long) => close(out, b"fault long\n", VerifyEnd::Long),
        Err(VerifyFault::NoMemory) => VerifyEnd::NoMemory,
    }
}

/// Writes what was found.
fn tell<K: Sink>(alloc: Global, verdict: Verdict, out: &mut K) -> VerifyEnd
    ensures { Closes (verdict_line verdict) VerifyEnd.Done result
        (K.content out.old) (K.content out.new) (K.faults out.old) (K.faults out.new) }
{
    match verdict_line(alloc, verdict) {
        Ok(text) => close(out, &text, VerifyEnd::Done),
        Err(_) => VerifyEnd::NoMemory,
    }
}
