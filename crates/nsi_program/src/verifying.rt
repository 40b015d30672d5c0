//! The command `verify`, as the program tells how it ends.

ghost use Rattle.std.specs.Prelude.{◌≡◌, ◌<◌, ◌⊎◌, true, IfSome};
ghost use Rattle.provide_command.specs.Promise.{is_told, read_fault_line, Writes, WritesFront};
ghost use Rattle.provide_command.specs.Writes.{WritesSome, WritesSomeFront};
ghost use Rattle.verify_command.specs.Ends.{is_told as is_told_end};
ghost use Rattle.nsi_program.specs.VerifiesTo.{VerifiesTo, BeginsVerify, status_of_verify};

use command_limits::EventLimit;
use nsi_outside::{Sink, Source};
use provide_command::Status;
use std::alloc::Global;
use verify_command::VerifyEnd;

/// The status of what is found of a trace.
fn status_of(end: VerifyEnd) -> Status
    ensures status { result ≡ status_of_verify end }
    ensures told { is_told result ≡ is_told_end end }
    ensures not_usage { result ≡ Status.Usage → ⊥ }
    ensures not_disk { result ≡ Status.DiskFault → ⊥ }
{
    match end {
        VerifyEnd::Done => Status::Done,
        VerifyEnd::BadTopology => Status::BadTopology,
        VerifyEnd::Long => Status::Long,
        VerifyEnd::ReadFault => Status::ReadFault,
        VerifyEnd::WriteFault => Status::WriteFault,
        VerifyEnd::NoMemory => Status::NoMemory,
    }
}

/// The command `verify`.
pub(crate) fn verify<S: Source, K: Sink>(
    alloc: Global,
    most: EventLimit,
    input: &mut S,
    out: &mut K,
) -> Status
    ensures ends { is_told result ≡ true → IfSome (S.left input.old) (λ bytes.
        WritesSome (VerifiesTo most bytes result) (K.content out.old) (K.content out.new)) }
    ensures not_usage { result ≡ Status.Usage → ⊥ }
    ensures not_disk { result ≡ Status.DiskFault → ⊥ }
    ensures read_fault { result ≡ Status.ReadFault → S.faults input.old < S.faults input.new }
    ensures alone { result ≡ Status.ReadFault →
        Writes (K.content out.old) (K.content out.new) read_fault_line }
    ensures write_fault { result ≡ Status.WriteFault → K.faults out.old < K.faults out.new }
    ensures unfinished { (result ≡ Status.WriteFault) ⊎ (result ≡ Status.NoMemory) →
        ((S.faults input.new ≡ S.faults input.old) × IfSome (S.left input.old) (λ bytes.
        WritesSomeFront (BeginsVerify most bytes) (K.content out.old) (K.content out.new))) ⊎
        ((S.faults input.old < S.faults input.new) ×
        WritesFront (K.content out.old) (K.content out.new) read_fault_line) }
    ensures quiet_in { is_told result ≡ true → S.faults input.new ≡ S.faults input.old }
    ensures quiet_out { is_told result ≡ true → K.faults out.new ≡ K.faults out.old }
    ensures reading { result ≡ Status.ReadFault → K.faults out.new ≡ K.faults out.old }
    ensures memory { result ≡ Status.NoMemory → K.faults out.new ≡ K.faults out.old }
{
    let end = verify_command::verify(alloc, most, input, out);
    status_of(end)
}
