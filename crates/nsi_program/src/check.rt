//! The command `check`: a topology, and then least paths. The whole input is read first.

ghost use Rattle.std.specs.Prelude.{◌≡◌, ◌<◌, ◌≤◌, ◌⊎◌, ◌++◌, ◌∷◌, [], ℕ, List, length, codes, true, false, IfSome, OnOk, OnErr};
ghost use Rattle.nsi_base.specs.Lines.{lines_of};
ghost use Rattle.stp_topology.specs.Text.{topology_of};
ghost use Rattle.nsi_program.specs.Check.{count_line, Answers, AnswersAll, AnswersFront, Counts, ChecksRead, Checks, BeginsRead, Begins};
ghost use Rattle.fault_lines.specs.Lines.{as_line};
ghost use Rattle.fault_lines.specs.Lines.{topology_fault};
ghost use Rattle.provide_command.specs.Promise.{is_told, read_fault_line, Writes, WritesFront};
ghost use Rattle.provide_command.specs.Writes.{WritesSome, WritesSomeFront, CountsFaults, TellsFaults};

use crate::paths::{answer, count_line};
use fault_lines::topology_fault;
use line_reader::{ReadError, read_whole};
use nsi_base::GREATEST_INPUT;
use nsi_base::line::cut_line;
use nsi_outside::{Sink, Source};
use provide_command::{Fault, Status, read_fault, write_text};
use std::alloc::Global;
use stp_topology::{Topology, TopologyFault, TopologyRefusal, read_topology};

/// The command `check`.
pub(crate) fn check<S: Source, K: Sink>(alloc: Global, input: &mut S, out: &mut K) -> Status
    ensures ends { is_told result ≡ true → IfSome (S.left input.old)
        (λ bytes. WritesSome (Checks bytes result) (K.content out.old) (K.content out.new)) }
    ensures not_usage { result ≡ Status.Usage → ⊥ }
    ensures not_disk { result ≡ Status.DiskFault → ⊥ }
    ensures read_fault { result ≡ Status.ReadFault → S.faults input.old < S.faults input.new }
    ensures alone { result ≡ Status.ReadFault →
        Writes (K.content out.old) (K.content out.new) read_fault_line }
    ensures write_fault { result ≡ Status.WriteFault → K.faults out.old < K.faults out.new }
    ensures unfinished { (result ≡ Status.WriteFault) ⊎ (result ≡ Status.NoMemory) →
        ((S.faults input.new ≡ S.faults input.old) × IfSome (S.left input.old)
        (λ bytes. WritesSomeFront (Begins bytes) (K.content out.old) (K.content out.new))) ⊎
        ((S.faults input.old < S.faults input.new) ×
        WritesFront (K.content out.old) (K.content out.new) read_fault_line) }
    ensures quiet_in { is_told result ≡ true → S.faults input.new ≡ S.faults input.old }
    ensures quiet_out { is_told result ≡ true → K.faults out.new ≡ K.faults out.old }
    ensures reading { result ≡ Status.ReadFault → K.faults out.new ≡ K.faults out.old }
    ensures memory { result ≡ Status.NoMemory → K.faults out.new ≡ K.faults out.old }
{
    match read_whole(alloc, input, GREATEST_INPUT) {
        Ok(Some(bytes)) => check_bytes(alloc, out, &bytes),
        Ok(None) => long(out),
        Err(ReadError::Failed) => read_fault(out),
        Err(ReadError::NoMemory) => Status::NoMemory,
    }
}

/// These bytes make `check` end in one way and write one text, of which what is written up to a line is a front.
pub fn one_check()
    ensures text { (bytes : List ℕ) (status other : Status) (x y : List ℕ) →
        Checks bytes status x → Checks bytes other y → (status ≡ other) × (x ≡ y) }
    ensures front { (bytes : List ℕ) (status : Status) (x y : List ℕ) →
        Begins bytes x → Checks bytes status y → (rest : List ℕ) × (y ≡ x ++ rest) }
{}

/// The status of a fault of writing.
fn fault_status(fault: Fault) -> Status
    requires { fault ≡ Fault.Read → ⊥ }
    ensures write { result ≡ Status.WriteFault → fault ≡ Fault.Write }
    ensures memory { result ≡ Status.NoMemory → fault ≡ Fault.NoMemory }
    ensures not_told { is_told result ≡ false }
    ensures not_read { result ≡ Status.ReadFault → ⊥ }
    ensures not_disk { result ≡ Status.DiskFault → ⊥ }
{
    match fault {
        Fault::Write => Status::WriteFault,
        Fault::NoMemory => Status::NoMemory,
        Fault::Read => unreachable!(),
    }
}

/// Writes that there are more bytes than are taken.
fn long<K: Sink>(out: &mut K) -> Status
    ensures all { let line = as_line (codes "fault long") in
        is_told result ≡ true →
        (result ≡ Status.Long) × Writes (K.content out.old) (K.content out.new) line }
    ensures front { let line = as_line (codes "fault long") in
        is_told result ≡ false → WritesFront (K.content out.old) (K.content out.new) line }
    ensures faults { TellsFaults result (K.faults out.old) (K.faults out.new) }
{
    match write_text(out, b"fault long\n") {
        Ok(()) => Status::Long,
        Err(fault) => fault_status(fault),
    }
}

/// Reads the topology, and answers the lines behind it.
fn check_bytes<K: Sink>(alloc: Global, out: &mut K, bytes: &[u8]) -> Status
    requires { length bytes.now ≤ 67108864 }
    ensures all { let read = topology_of bytes.now in
        let texts = ChecksRead read bytes.now result in
        is_told result ≡ true → WritesSome texts (K.content out.old) (K.content out.new) }
    ensures front { let texts = BeginsRead (topology_of bytes.now) bytes.now in
        is_told result ≡ false → WritesSomeFront texts (K.content out.old) (K.content out.new) }
    ensures not_usage { result ≡ Status.Usage → ⊥ }
    ensures faults { TellsFaults result (K.faults out.old) (K.faults out.new) }
{
    match read_topology(alloc, bytes) {
        Ok((topology, place)) => {
            let (_, behind) = bytes.split_at(place);
            answer_all(alloc, out, &topology, behind)
        }
        Err(TopologyRefusal::Fault { line, fault }) => bad_topology(alloc, out, line, fault),
        Err(TopologyRefusal::NoMemory) => Status::NoMemory,
    }
}

/// Writes which line of the topology is faulty.
fn bad_topology<K: Sink>(alloc: Global, out: &mut K, line: u32, fault: TopologyFault) -> Status
    ensures all { let text = topology_fault line fault in
        is_told result ≡ true →
        (result ≡ Status.BadTopology) × Writes (K.content out.old) (K.content out.new) text }
    ensures front { let text = topology_fault line fault in
        is_told result ≡ false → WritesFront (K.content out.old) (K.content out.new) text }
    ensures faults { TellsFaults result (K.faults out.old) (K.faults out.new) }
{
    let Ok(text) = topology_fault(alloc, u64::from(line), fault) else {
        return Status::NoMemory;
    };
    match write_text(out, &text) {
        Ok(()) => Status::BadTopology,
        Err(fault) => fault_status(fault),
    }
}

/// Writes the counts, and the answers to the lines.
fn answer_all<K: Sink>(alloc: Global, out: &mut K, topology: &Topology, lines: &[u8]) -> Status
    ensures all { let texts = Counts topology.now (AnswersAll topology.now (lines_of lines.now)) in
        is_told result ≡ true →
        (result ≡ Status.Done) × WritesSome texts (K.content out.old) (K.content out.new) }
    ensures front { let answers = AnswersFront topology.now (lines_of lines.now) in
        let texts = Counts topology.now answers in
        is_told result ≡ false → WritesSomeFront texts (K.content out.old) (K.content out.new) }
    ensures faults { TellsFaults result (K.faults out.old) (K.faults out.new) }
{
    match write_answers(alloc, out, topology, lines) {
        Ok(()) => Status::Done,
        Err(fault) => fault_status(fault),
    }
}

fn write_answers<K: Sink>(
    alloc: Global,
    out: &mut K,
    topology: &Topology,
    lines: &[u8],
) -> Result<(), Fault>
    ensures all { let texts = Counts topology.now (AnswersAll topology.now (lines_of lines.now)) in
        OnOk result (WritesSome texts (K.content out.old) (K.content out.new)) }
    ensures front { let answers = AnswersFront topology.now (lines_of lines.now) in
        let texts = Counts topology.now answers in
        OnErr result (WritesSomeFront texts (K.content out.old) (K.content out.new)) }
    ensures faults { CountsFaults result (K.faults out.old) (K.faults out.new) }
{
    write_counts(alloc, out, topology)?;
    answer_lines(alloc, out, topology, lines)?;
    Ok(())
}

fn write_counts<K: Sink>(alloc: Global, out: &mut K, topology: &Topology) -> Result<(), Fault>
    ensures all { let line = count_line topology.now in
        OnOk result (Writes (K.content out.old) (K.content out.new) line) }
    ensures front { let line = count_line topology.now in
        OnErr result (WritesFront (K.content out.old) (K.content out.new) line) }
    ensures faults { CountsFaults result (K.faults out.old) (K.faults out.new) }
{
    let Ok(text) = count_line(alloc, topology) else {
        return Err(Fault::NoMemory);
    };
    write_text(out, &text)?;
    Ok(())
}

/// Writes the answers to the lines.
fn answer_lines<K: Sink>(
    alloc: Global,
    out: &mut K,
    topology: &Topology,
    lines: &[u8],
) -> Result<(), Fault>
    ensures all { let texts = AnswersAll topology.now (lines_of lines.now) in
        OnOk result (WritesSome texts (K.content out.old) (K.content out.new)) }
    ensures front { let texts = AnswersFront topology.now (lines_of lines.now) in
        OnErr result (WritesSomeFront texts (K.content out.old) (K.content out.new)) }
    ensures faults { CountsFaults result (K.faults out.old) (K.faults out.new) }
{
    let mut rest = lines;
    'lines: while 0 < rest.len() {
        let (line, behind) = cut_line(rest);
        answer_line(alloc, out, topology, line)?;
        rest = behind;
    }
    Ok(())
}

/// Writes the answer to a line.
fn answer_line<K: Sink>(
    alloc: Global,
    out: &mut K,
    topology: &Topology,
    line: &[u8],
) -> Result<(), Fault>
    ensures all { let texts = Answers topology.now line.now in
        OnOk result (WritesSome texts (K.content out.old) (K.content out.new)) }
    ensures front { let texts = AnswersFront topology.now (line.now ∷ []) in
        OnErr result (WritesSomeFront texts (K.content out.old) (K.content out.new)) }
    ensures faults { CountsFaults result (K.faults out.old) (K.faults out.new) }
{
    let Ok(text) = answer(alloc, topology, line) else {
        return Err(Fault::NoMemory);
    };
    write_text(out, &text)?;
    Ok(())
}
