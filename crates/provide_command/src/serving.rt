//! The lines behind a topology are served, each behind the sync of its entries.

ghost use Rattle.std.specs.Prelude.{◌≡◌, ◌≤◌, ◌<◌, ◌+◌, ℕ, List, Option, None, Some, false, All, IfOk, IfErr, OnOk, OnErr, IsErrOf, is_some};
ghost use Rattle.nsi_primitive.specs.Printable.{IsPrintableEntry};
ghost use Rattle.journal_entry.specs.Journal.{Adds, MayLeaveWith};
ghost use Rattle.provide_command.specs.Keeping.{KeepsAnswer, KeepsLine, KeepsLines, is_whole};
ghost use Rattle.provide_command.specs.Lines.{serve, long_line};
ghost use Rattle.provide_command.specs.Outcome.{goes_on};
ghost use Rattle.line_reader.specs.Held.{budget, to_come, rest_of};
ghost use Rattle.provide_command.specs.Phases.{Reading, in_service};
ghost use Rattle.provide_command.specs.Cut.{TakesOn};
ghost use Rattle.provide_command.specs.UpTo.{IsUpToIf, HaltsWith, HaltsAt};
ghost use Rattle.provide_command.specs.Promise.{Writes, WritesFront, promised, promised_after, ended, IsSameEnd};
ghost use Rattle.provide_command.specs.declared.status.Status.{Status as AStatus};
ghost use Rattle.provide_command.specs.Halts.{HasHaltCause, HasHaltCounts, CountsHalts, IsKeepHalt, ending_of, text_of, step_of, ArePrintable};

use crate::output::{Fault, Halt, write_text};
use crate::service::{Answer, Service};
use crate::status::Ending;
use journal_entry::{Batch, Journal, JournalFault, keep};
use line_reader::{LineReader, Next, ReadError};
use nsi_outside::{Sink, Source};
use nsi_primitive::Entry;
use std::alloc::Global;

/// A service, and its journal.
#[derive(Drop)]
pub(crate) struct Desk<J> {
    pub(crate) service: Service,
    pub(crate) journal: J,
}

/// Keeps the entries of a line, where it has any.
fn keep_all<J: Journal>(alloc: Global, journal: &mut J, entries: &[Entry]) -> Result<(), Halt>
    requires ready { J.is_ready journal.old }
    requires none { J.waits journal.old ≡ false }
    requires printable { All IsPrintableEntry entries.now }
    ensures ready { OnOk result (J.is_ready journal.new) }
    ensures none { OnOk result (J.waits journal.new ≡ false) }
    ensures kept { OnOk result (Adds entries.now (J.kept journal.old) (J.kept journal.new)) }
    ensures left { MayLeaveWith J.reading entries.now (J.kept journal.old) (J.history journal.new) }
    ensures cause { HasHaltCause result (J.meter journal.old) (J.meter journal.new) }
    ensures halts { IfErr result IsKeepHalt }
    ensures tells { is_some (J.history journal.new) ≡ is_some (J.history journal.old) }
{
    let count = entries.len();
    if count == 0 {
        return Ok(());
    }
    let Ok(batch) = Batch::of(alloc, entries) else {
        return Err(Halt::Outside(Fault::NoMemory));
    };
    match keep(alloc, journal, &batch) {
        Ok(()) => Ok(()),
        Err(JournalFault::NoMemory) => Err(Halt::Outside(Fault::NoMemory)),
        Err(JournalFault::DiskFault | JournalFault::Stopped) => Err(Halt::Disk),
    }
}

/// Keeps what a line makes, and writes what it is answered; or that there are too many events.
fn tell<K: Sink, J: Journal>(
    alloc: Global,
    out: &mut K,
    journal: &mut J,
    answer: Option<Answer>,
) -> Result<Option<Ending>, Halt>
    requires ready { J.is_ready journal.old }
    requires none { J.waits journal.old ≡ false }
    requires printable { ArePrintable answer }
    ensures ending { IfOk result (λ ending. ending ≡ ending_of answer) }
    ensures all { OnOk result (Writes (K.content out.old) (K.content out.new) (text_of answer)) }
    ensures front { OnErr result
        (WritesFront (K.content out.old) (K.content out.new) (text_of answer)) }
    ensures faults { CountsHalts result (K.faults out.old) (K.faults out.new) }
    ensures unwritten { IsErrOf result Halt.Disk → K.content out.new ≡ K.content out.old }
    ensures ready { OnOk result (J.is_ready journal.new) }
    ensures none { OnOk result (J.waits journal.new ≡ false) }
    ensures cause { HasHaltCause result (J.meter journal.old) (J.meter journal.new) }
    ensures kept { KeepsAnswer J.reading answer result (J.kept journal.old) (J.kept journal.new)
        (J.history journal.new) (K.content out.old) (K.content out.new) }
    ensures tells { is_some (J.history journal.new) ≡ is_some (J.history journal.old) }
{
    match answer {
        Some(answer) => tell_answer(alloc, out, journal, &answer),
        None => long(out),
    }
}

/// Keeps the entries of an answer, and then writes its text.
fn tell_answer<K: Sink, J: Journal>(
    alloc: Global,
    out: &mut K,
    journal: &mut J,
    answer: &Answer,
) -> Result<Option<Ending>, Halt>
    requires ready { J.is_ready journal.old }
    requires none { J.waits journal.old ≡ false }
    requires printable { All IsPrintableEntry answer.now.entries.items }
    ensures ending { IfOk result (λ ending. ending ≡ None) }
    ensures all { OnOk result
        (Writes (K.content out.old) (K.content out.new) answer.now.text.items) }
    ensures front { OnErr result
        (WritesFront (K.content out.old) (K.content out.new) answer.now.text.items) }
    ensures faults { CountsHalts result (K.faults out.old) (K.faults out.new) }
    ensures unwritten { IsErrOf result Halt.Disk → K.content out.new ≡ K.content out.old }
    ensures ready { OnOk result (J.is_ready journal.new) }
    ensures none { OnOk result (J.waits journal.new ≡ false) }
    ensures cause { HasHaltCause result (J.meter journal.old) (J.meter journal.new) }
    ensures kept { KeepsAnswer J.reading (Some answer.now) result (J.kept journal.old)
        (J.kept journal.new) (J.history journal.new) (K.content out.old) (K.content out.new) }
    ensures tells { is_some (J.history journal.new) ≡ is_some (J.history journal.old) }
{
    match keep_all(alloc, journal, &answer.entries) {
        Ok(()) => say(out, &answer.text),
        Err(halt) => Err(halt),
    }
}

/// Writes an answer.
fn say<K: Sink>(out: &mut K, text: &[u8]) -> Result<Option<Ending>, Halt>
    ensures ending { IfOk result (λ ending. ending ≡ None) }
    ensures all { OnOk result (Writes (K.content out.old) (K.content out.new) text.now) }
    ensures front { OnErr result (WritesFront (K.content out.old) (K.content out.new) text.now) }
    ensures faults { CountsHalts result (K.faults out.old) (K.faults out.new) }
    ensures not_disk { IsErrOf result Halt.Disk → ⊥ }
    ensures cut { IfErr result (λ halt. is_whole halt ≡ false) }
{
    match write_text(out, text) {
        Ok(()) => Ok(None),
        Err(Fault::Write) => Err(Halt::Outside(Fault::Write)),
        Err(_) => Err(Halt::Outside(Fault::NoMemory)),
    }
}

/// Serves a line.
fn serve_line<K: Sink, J: Journal>(
    alloc: Global,
    out: &mut K,
    number: u64,
    desk: &mut Desk<J>,
    line: &[u8],
) -> Result<Option<Ending>, Halt>
    requires ready { J.is_ready desk.old.journal }
    requires none { J.waits desk.old.journal ≡ false }
    ensures step { IfOk result
        (λ o. step_of o desk.new.service
        ≡ (goes_on (serve desk.old.service number line.now)).step) }
    ensures all { OnOk result
        (Writes (K.content out.old) (K.content out.new)
        (goes_on (serve desk.old.service number line.now)).text) }
    ensures front { OnErr result
        (WritesFront (K.content out.old) (K.content out.new)
        (goes_on (serve desk.old.service number line.now)).text) }
    ensures faults { CountsHalts result (K.faults out.old) (K.faults out.new) }
    ensures unwritten { IsErrOf result Halt.Disk → K.content out.new ≡ K.content out.old }
    ensures ready { OnOk result (J.is_ready desk.new.journal) }
    ensures none { OnOk result (J.waits desk.new.journal ≡ false) }
    ensures cause { HasHaltCause result (J.meter desk.old.journal) (J.meter desk.new.journal) }
    ensures kept { KeepsLine J.reading desk.old.service (J.kept desk.old.journal)
        (K.content out.old) result desk.new.service (J.kept desk.new.journal)
        (J.history desk.new.journal) (K.content out.new) }
    ensures tells { is_some (J.history desk.new.journal) ≡ is_some (J.history desk.old.journal) }
{
    let Ok(answer) = desk.service.serve(alloc, number, line) else {
        return Err(Halt::Outside(Fault::NoMemory));
    };
    tell(alloc, out, &mut desk.journal, answer)
}

/// Serves the next line, or tells the end.
fn serve_next<S: Source, K: Sink, J: Journal>(
    alloc: Global,
    input: &mut S,
    reader: &mut LineReader,
    out: &mut K,
    number: u64,
    desk: &mut Desk<J>,
) -> Result<Option<Ending>, Halt>
    requires ready { J.is_ready desk.old.journal }
    requires none { J.waits desk.old.journal ≡ false }
    ensures step { (read : Reading) →
        IfOk result
        (λ o. IsSameEnd
        (promised read number (in_service desk.old.service) (K.content out.old)
        (to_come reader.old (S.left input.old)))
        (promised_after read (number + 1) (step_of o desk.new.service) (K.content out.new) (to_come reader.new (S.left input.new)))) }
    ensures shrinks { IfOk result (λ o. o ≡ None → budget reader.new < budget reader.old) }
    ensures takes_on { (read : Reading) →
        IfOk result (λ o. o ≡ None →
        TakesOn read number (in_service desk.old.service) (K.content out.old)
        (rest_of reader.old (S.left input.old)) (to_come reader.old (S.left input.old))
        (K.content out.new) (rest_of reader.new (S.left input.new)) (to_come reader.new (S.left input.new)) (in_service desk.new.service)) }
    ensures halts { (read : Reading) →
        IfErr result
        (λ halt. HaltsWith read halt number (in_service desk.old.service) (K.content out.old)
        (rest_of reader.old (S.left input.old)) (to_come reader.old (S.left input.old))
        reader.new (S.left input.new) (K.content out.new)) }
    ensures counts { HasHaltCounts result (S.faults input.old) (S.faults input.new)
        (K.faults out.old) (K.faults out.new) }
    ensures ready { OnOk result (J.is_ready desk.new.journal) }
    ensures none { OnOk result (J.waits desk.new.journal ≡ false) }
    ensures cause { HasHaltCause result (J.meter desk.old.journal) (J.meter desk.new.journal) }
    ensures kept { KeepsLine J.reading desk.old.service (J.kept desk.old.journal)
        (K.content out.old) result desk.new.service (J.kept desk.new.journal)
        (J.history desk.new.journal) (K.content out.new) }
    ensures tells { is_some (J.history desk.new.journal) ≡ is_some (J.history desk.old.journal) }
{
    match reader.next(alloc, input) {
        Err(ReadError::Failed) => Err(Halt::Outside(Fault::Read)),
        Err(ReadError::NoMemory) => Err(Halt::Outside(Fault::NoMemory)),
        Ok(Next::Line(line)) => serve_line(alloc, out, number, desk, &line),
        Ok(Next::End) => Ok(Some(Ending::Done)),
        Ok(Next::Long) => long(out),
    }
}

/// Writes that there are more bytes than are taken.
fn long<K: Sink>(out: &mut K) -> Result<Option<Ending>, Halt>
    ensures ended { IfOk result (λ o. o ≡ Some Ending.Long) }
    ensures all { OnOk result (Writes (K.content out.old) (K.content out.new) long_line) }
    ensures front { OnErr result (WritesFront (K.content out.old) (K.content out.new) long_line) }
    ensures not_disk { IsErrOf result Halt.Disk → ⊥ }
    ensures cut { IfErr result (λ halt. is_whole halt ≡ false) }
    ensures faults { CountsHalts result (K.faults out.old) (K.faults out.new) }
{
    match write_text(out, b"fault long\n") {
        Ok(()) => Ok(Some(Ending::Long)),
        Err(Fault::Write) => Err(Halt::Outside(Fault::Write)),
        Err(_) => Err(Halt::Outside(Fault::NoMemory)),
    }
}

/// Serves all lines from a number on.
pub(crate) fn serve_all<S: Source, K: Sink, J: Journal>(
    alloc: Global,
    input: &mut S,
    reader: &mut LineReader,
    out: &mut K,
    number: u64,
    desk: &mut Desk<J>,
) -> Result<Ending, Halt>
    requires few { number + budget reader.old ≤ 67108866 }
    requires ready { J.is_ready desk.old.journal }
    requires none { J.waits desk.old.journal ≡ false }
    ensures ends { (read : Reading) (promise : Option (AStatus × List ℕ)) →
        IsSameEnd promise
        (promised read number (in_service desk.old.service) (K.content out.old)
        (to_come reader.old (S.left input.old)))
        → IfOk result (λ ending. IsSameEnd promise (ended ending (K.content out.new))) }
    ensures halts { (read : Reading) (most : ℕ) (first start : Option (List ℕ)) →
        IsUpToIf read most first start number (in_service desk.old.service) (K.content out.old)
        (rest_of reader.old (S.left input.old)) (to_come reader.old (S.left input.old))
        → IfErr result
        (λ halt. HaltsAt read most first start halt reader.new (S.left input.new)
        (K.content out.new)) }
    ensures counts { HasHaltCounts result (S.faults input.old) (S.faults input.new)
        (K.faults out.old) (K.faults out.new) }
    ensures cause { HasHaltCause result (J.meter desk.old.journal) (J.meter desk.new.journal) }
    ensures kept { KeepsLines J.reading desk.old.service (J.kept desk.old.journal)
        (K.content out.old) result (J.history desk.new.journal) (K.content out.new) }
    ensures tells { is_some (J.history desk.new.journal) ≡ is_some (J.history desk.old.journal) }
{
    let mut number = number;
    'lines: loop {
        match serve_next(alloc, input, reader, out, number, desk) {
            Ok(None) => number += 1,
            Ok(Some(ending)) => return Ok(ending),
            Err(fault) => return Err(fault),
        }
    }
}
